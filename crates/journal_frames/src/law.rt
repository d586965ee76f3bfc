//! What a journal is where a text joined it, and what is left of it where one was to.
ghost use Rattle.std.specs.Prelude.{Bool, true, ◌≡◌, ◌++◌, ◌∷◌, ℕ, List, [], length, Some};
ghost use Rattle.std.specs.FinMap.{get};
ghost use Rattle.disk_model.specs.Disk.{File, Files};
ghost use Rattle.disk_model.specs.DeviceCalls.{all_applied};
ghost use Rattle.disk_model.specs.declared.answers.DiskAnswer.{DiskAnswer as DiskAnswerOf};
ghost use Rattle.journal_frames.specs.Staging.{AppendBreaks, HasStaged};
ghost use Rattle.journal_frames.specs.Frames.{append_calls, behind_gate, framed, make_calls, HasJournal, HoldsOrOneMore, Holds, AreShort, IsShort, journal_name, mended};

/// Where the calls by which a journal is made are done, it is that of its first text. Where those are by which a text joins
/// it, it is that of the texts with this one; where they break off, at whichever call, for want of memory, by a fault or as
/// the disk stops, the file holds the texts, or these and this one. A journal that is mended is that of the texts that its
/// file held. Bytes hold one list of texts.
pub fn law_of_appends()
    ensures made { (text : List ℕ) (files : Files) → IsShort text →
        HasJournal (text ∷ []) (all_applied (make_calls (behind_gate text)) files) }
    ensures done { (texts : List (List ℕ)) (text : List ℕ) (files : Files) →
        HasJournal texts files → IsShort text → HasJournal (texts ++ text ∷ [])
        (all_applied (append_calls (length (framed texts)) text) files) }
    ensures broken { (texts : List (List ℕ)) (text : List ℕ) (answer : DiskAnswerOf) (count : ℕ)
        (old new : Files) → HasJournal texts old → IsShort text →
        AppendBreaks texts text answer count old new → HoldsOrOneMore texts text new }
    ensures staged { (texts : List (List ℕ)) (text : List ℕ) (answer : DiskAnswerOf) (count : ℕ)
        (old new : Files) → HasJournal texts old → IsShort text →
        AppendBreaks texts text answer count old new → HasStaged texts text new }
    ensures holds { (texts : List (List ℕ)) (text : List ℕ) (files : Files) → AreShort texts →
        IsShort text → HasStaged texts text files → HoldsOrOneMore texts text files }
    ensures mended { (texts : List (List ℕ)) (closed : Bool) (files : Files) (file : File)
        (holds : Holds texts file.bytes) → get files journal_name ≡ Some file → (closed ≡ true →
        holds.gate ≡ 0) → HasJournal texts (mended (length (framed texts)) closed files) }
    ensures once { (one other : List (List ℕ)) (bytes : List ℕ) →
        Holds one bytes → Holds other bytes → one ≡ other }
{}
