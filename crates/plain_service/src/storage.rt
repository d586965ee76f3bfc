//! Laws of the files of the whole service, and of the records that stand in them, over all
//! histories, the newest entry first.
ghost use Rattle.std.specs.Prelude.{◌≡◌, ℕ, ℤ, List, [], ◌∷◌, ◌++◌};
ghost use Rattle.disk_model.specs.Disk.{no_files};
ghost use Rattle.disk_model.specs.DeviceCalls.{all_applied};
ghost use Rattle.stream_layout.specs.Deeds.{calls_of_all};
ghost use Rattle.calls.specs.declared.call.Call.{Call as CallOf};
ghost use Rattle.calls.specs.declared.entry.Entry.{Entry as EntryOf};
ghost use Rattle.calls.specs.declared.entry.Entry.TheVariants.{Called};
ghost use Rattle.plain_service.specs.Setups.{Setup, CanBegin};
ghost use Rattle.plain_service.specs.Storing.{files_of, opening_of};
ghost use Rattle.plain_service.specs.Legal.{IsHistory};
ghost use Rattle.plain_service.specs.Laws.{DeedsGiveFiles, KeepsStored, RecordsStay, RecordsStand, RecordsDiffer, PlacesDiffer};

/// Performing the deeds of an entry on the files of the history before it gives the files after it;
/// performing those of the start on no files gives those of the empty history.
pub fn law_of_files()
    ensures entries { (setup : Setup) (entry : EntryOf) (past : List EntryOf) →
        IsHistory setup (entry ∷ past) → DeedsGiveFiles setup entry past }
    ensures start { (setup : Setup) → CanBegin setup →
        all_applied (calls_of_all (opening_of setup)) no_files ≡ files_of setup [] }
{}

/// A write or a send that was answered ok has its record in every longer history, and no other call
/// has that record. It stands at its place among the files, with its bytes, until wrap gives its slot
/// away or rotation removes its file; and no other call's record stands there.
pub fn law_of_records()
    ensures told { (setup : Setup) (later : List EntryOf) (client seq : ℕ) (now : ℤ) (call : CallOf)
        (past : List EntryOf) → IsHistory setup (later ++ Called client seq now call ∷ past) →
        KeepsStored setup later client seq now call past }
    ensures stays { (setup : Setup) (entry : EntryOf) (past : List EntryOf) →
        IsHistory setup (entry ∷ past) → RecordsStay setup past (entry ∷ past) }
    ensures stands { (setup : Setup) (past : List EntryOf) → IsHistory setup past →
        RecordsStand setup past }
    ensures own { (setup : Setup) (past : List EntryOf) → RecordsDiffer setup past }
    ensures alone { (setup : Setup) (past : List EntryOf) → IsHistory setup past →
        PlacesDiffer setup past }
{}
