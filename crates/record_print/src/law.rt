//! Laws of printed records.
ghost use Rattle.std.specs.Prelude.{◌≡◌, ◌↔◌, ℕ, Bool, List, IsTrue};
ghost use Rattle.format_expr.specs.declared.token.Moment.{Moment};
ghost use Rattle.format_expr.specs.declared.piece.Piece.{Piece};
ghost use Rattle.record_print.specs.declared.record.Header.{Header as HeaderOf};
ghost use Rattle.record_print.specs.declared.record.LogRecord.{LogRecord as RecordOf};
ghost use Rattle.record_print.specs.Laws.{TellsCut, TellsWhole};

use crate::{Header, LogRecord};

/// The mark of `@Cx` is `T` exactly where the text with this very mark has more bytes than there are before
/// the line feed, and else `C`.
pub fn law_of_cut_marks()
    ensures cut { (half : Moment → Bool) (number : ℕ) (rec : RecordOf) (pieces : List Piece)
        (size : ℕ) → TellsCut half number rec pieces size }
    ensures whole { (half : Moment → Bool) (number : ℕ) (rec : RecordOf) (pieces : List Piece)
        (size : ℕ) → TellsWhole half number rec pieces size }
{}

/// Two headers, and two records, are told equal by `==` exactly where they are equal.
pub fn law_of_equality()
    ensures headers { (one other : HeaderOf) → IsTrue (⟦<Header as PartialEq>⟧.eq one other)
        ↔ (one ≡ other) }
    ensures records { (one other : RecordOf) →
        IsTrue (⟦<LogRecord as PartialEq>⟧.eq one other) ↔ (one ≡ other) }
{}
