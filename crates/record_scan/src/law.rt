//! Laws of what is read back.
ghost use Rattle.std.specs.Prelude.{◌≡◌, ℕ, ◌<◌, ◌^◌, [], List, All, IsTrue};
ghost use Rattle.std.specs.List.{concat};
ghost use Rattle.ais_values.specs.declared.kind.StreamKind.{StreamKind};
ghost use Rattle.format_expr.specs.declared.piece.Piece.{Piece};
ghost use Rattle.format_expr.specs.Language.{are_pieces};
ghost use Rattle.record_print.specs.declared.record.LogRecord.{LogRecord};
ghost use Rattle.record_print.specs.Printing.{printed_record};
ghost use Rattle.record_scan.specs.Fits.{Fits};
ghost use Rattle.record_scan.specs.Numbers.{IsRecord, AreRecords};
ghost use Rattle.record_scan.specs.Separable.{IsSeparable};

/// At most one list of texts fits a record.
pub fn law_of_texts()
    ensures { (pieces : List Piece) (size : ℕ) (rec : List ℕ) (one other : List (List ℕ)) →
        IsSeparable pieces size → Fits pieces size rec one → Fits pieces size rec other
        → one ≡ other }
{}

/// Bytes have one list of records, and one rest. Records one after another fall into these again, and leave nothing;
/// and what is printed is a record of its size, also one of size 0: no text has a line feed but the one at its end.
pub fn law_of_records()
    ensures records { (size : ℕ) (bytes rest left : List ℕ) (one other : List (List ℕ)) →
        AreRecords size bytes one rest → AreRecords size bytes other left → one ≡ other }
    ensures rest { (size : ℕ) (bytes rest left : List ℕ) (one other : List (List ℕ)) →
        AreRecords size bytes one rest → AreRecords size bytes other left → rest ≡ left }
    ensures whole { (size : ℕ) (records : List (List ℕ)) → All (IsRecord size) records
        → AreRecords size (concat records) records [] }
    ensures printed { (kind : StreamKind) (pieces : List Piece) (size number : ℕ)
        (rec : LogRecord) → IsTrue (are_pieces kind pieces) → number < 2 ^ 32
        → IsRecord size (printed_record pieces number rec size) }
{}
