//! Laws of the Log Service over all that may happen to it.
ghost use Rattle.std.specs.Prelude.{◌≡◌, ◌⊎◌, ℕ, ◌+◌, ◌-◌, ◌/◌, ◌<◌, ◌≤◌, List, [], ◌∷◌, ◌++◌, length, replicate, slice_get, All, Some, option_map};
ghost use Rattle.std.specs.List.{AllByRecursion};
ghost use Rattle.std.specs.FinMap.{get};
ghost use Rattle.client_set.specs.Members.{Stands};
ghost use Rattle.disk_model.specs.Disk.{no_files, settled_file};
ghost use Rattle.disk_model.specs.DeviceCalls.{all_applied};
ghost use Rattle.stream_config.specs.declared.attrs.StreamAttrs.{StreamAttrs};
ghost use Rattle.stream_config.specs.declared.attrs.StreamName.{StreamName};
ghost use Rattle.record_print.specs.declared.record.LogRecord.{LogRecord};
ghost use Rattle.stream_layout.specs.Names.{cfg_name};
ghost use Rattle.stream_layout.specs.Deeds.{calls_of_all};
ghost use Rattle.stream_layout.specs.Carrying.{IsFitEvent};
ghost use Rattle.log_history.specs.Changes.{LogChange};
ghost use Rattle.log_history.specs.Chronicle.{LogSetup, Stream, chronicle};
ghost use Rattle.log_history.specs.Table.{table, table_after, events_of};
ghost use Rattle.log_history.specs.FitTables.{IsFitTable};
ghost use Rattle.log_history.specs.Legal.{IsSetup, IsLogHistory};
ghost use Rattle.log_history.specs.Files.{file_at, disk_files};
ghost use Rattle.log_history.specs.Stamps.{second_in, CanStamp, stamps_of_all};
ghost use Rattle.log_history.specs.Deeds.{opening_deeds};
ghost use Rattle.log_history.specs.Answers.{living_stream};
ghost use Rattle.log_history.specs.Places.{record_in};
ghost use Rattle.log_history.specs.Laws.{DeedsGiveFiles, FilesAreStamped, StandsLast, RecordsStand, PlacesDiffer, PlacesBySize};
ghost use Rattle.log_history.specs.Rounds.{Round, rounds, round_pushed, AreRounds, RoundsBeginEvenly};
ghost use Rattle.log_history.specs.AllNames.{NoneTwice, names_ever};

/// What is kept after one more change is what the change makes of what was kept; it is fit, so that
/// it can be kept on; and each event that the change brings to a stream can happen to it.
pub fn law_of_changes()
    ensures table { (setup : LogSetup) (change : LogChange) (past : List LogChange) →
        IsLogHistory setup (change ∷ past) →
        table setup (change ∷ past) ≡ table_after change (table setup past) }
    ensures fit { (setup : LogSetup) (past : List LogChange) → IsLogHistory setup past →
        (chronicle setup past).last ≤ 20000000100 → IsFitTable (table setup past) }
    ensures events { (setup : LogSetup) (past : List LogChange) (change : LogChange) →
        IsLogHistory setup (change ∷ past) → CanStamp setup past (second_in change) →
        AllByRecursion IsFitEvent (events_of change (table setup past)) }
{}

/// All stamps that a service gave differ, and none is behind its last one. So all names differ that
/// files of records ever had, those of files that do not stand any more among them; and each file
/// that stands has one of these names, or is a stream's cfg.
pub fn law_of_names()
    ensures stamps { (setup : LogSetup) (past : List LogChange) →
        NoneTwice (stamps_of_all (chronicle setup past).streams) }
    ensures last { (setup : LogSetup) (past : List LogChange) (stamp : ℕ) →
        Stands stamp (stamps_of_all (chronicle setup past).streams) →
        stamp ≤ (chronicle setup past).last }
    ensures names { (setup : LogSetup) (past : List LogChange) →
        (chronicle setup past).last ≤ 20000000100 →
        NoneTwice (names_ever setup past) }
    ensures files { (setup : LogSetup) (past : List LogChange) (name bytes : List ℕ) →
        file_at setup past name ≡ Some bytes →
        Stands name (names_ever setup past) ⊎ ((attrs : StreamAttrs) × (name ≡ cfg_name attrs)) }
{}

/// Performing the deeds of a change on the files before it gives the files after it; performing
/// those of the start on no files gives the files of a service to which nothing happened yet. Each
/// file that a stream had has its stamps.
pub fn law_of_files()
    ensures found { (setup : LogSetup) (past : List LogChange) (name : List ℕ) →
        get (disk_files setup past) name ≡ option_map settled_file (file_at setup past name) }
    ensures changes { (setup : LogSetup) (past : List LogChange) (change : LogChange) →
        IsLogHistory setup (change ∷ past) → CanStamp setup past (second_in change) →
        DeedsGiveFiles setup change past }
    ensures start { (setup : LogSetup) → IsSetup setup → setup.start ≤ 20000000000 →
        all_applied (calls_of_all (opening_deeds setup)) no_files ≡ disk_files setup [] }
    ensures stamped { (setup : LogSetup) (past : List LogChange) → IsLogHistory setup past →
        FilesAreStamped setup past }
{}

/// A record keeps its number in its stream and its bytes whatever changes; one that is stored is the
/// last of its stream. It stands at its place among the files, with its bytes, until its slot is
/// given away or its file removed, and no other record stands there. Where all records have one size, its offset
/// is that of its number.
pub fn law_of_records()
    ensures stored { (setup : LogSetup) (past : List LogChange) (name : StreamName)
        (rec : LogRecord) (second : ℕ) (stream : Stream) →
        living_stream setup past name ≡ Some stream → StandsLast setup past name rec second stream }
    ensures kept { (setup : LogSetup) (past : List LogChange) (change : LogChange)
        (stream number : ℕ) (bytes : List ℕ) → record_in setup past stream number ≡ Some bytes →
        record_in setup (change ∷ past) stream number ≡ Some bytes }
    ensures stands { (setup : LogSetup) (past : List LogChange) → IsLogHistory setup past →
        (chronicle setup past).last ≤ 20000000100 → RecordsStand setup past }
    ensures alone { (setup : LogSetup) (past : List LogChange) → IsLogHistory setup past →
        (chronicle setup past).last ≤ 20000000100 → PlacesDiffer setup past }
    ensures slots { (setup : LogSetup) (past : List LogChange) → IsLogHistory setup past →
        PlacesBySize setup past }
{}

/// The files of a stream that rotates, by the lengths of its records, none above the greatest size of a file: the
/// first begins with record 0, each other with the least record through which the one before would be above that
/// size, and each has the bytes of its records.
/// One record more is added to the last, or begins the next. Where all records have one size, n of which a file
/// holds, each begins n behind the one before, and there are as many as the records ask for.
pub fn law_of_rounds()
    ensures start { (most : ℕ) (lens : List ℕ) →
        option_map (λ (round : Round). round.first) (slice_get (rounds most lens) 0) ≡ Some 0 }
    ensures closed { (most : ℕ) (lens : List ℕ) → All (λ len. len ≤ most) lens
        → AreRounds most lens (rounds most lens) }
    ensures step { (most len : ℕ) (lens : List ℕ) →
        rounds most (lens ++ len ∷ []) ≡ round_pushed most (length lens) len (rounds most lens) }
    ensures even { (most size count : ℕ) → 0 < size → size ≤ most
        → RoundsBeginEvenly (most / size) 0 (rounds most (replicate count size)) }
    ensures count { (most size count : ℕ) → 0 < size → size ≤ most
        → length (rounds most (replicate count size)) ≡ (count - 1) / (most / size) + 1 }
{}
