//! What a cold start finds in a journal: definitions and laws alone.
#![tactic(auto)]

ghost use Rattle.std.specs.Prelude.{◌≡◌, true, ℕ, List, [], ◌∷◌};
ghost use Rattle.disk_model.specs.Disk.{Files};
ghost use Rattle.disk_model.specs.DeviceCalls.{all_applied};
ghost use Rattle.calls.specs.declared.entry.Entry.{Entry as EntryOf};
ghost use Rattle.wire.specs.declared.message.Message.TheVariants.{Snapshot};
ghost use Rattle.wire.specs.MessageSpelling.{message_text};
ghost use Rattle.plain_service.specs.Setups.{Setup};
ghost use Rattle.plain_service.specs.Legal.{IsHistory};
ghost use Rattle.plain_service.specs.Values.{saved_of};
ghost use Rattle.journal_frames.specs.Frames.{behind_gate, make_calls};
ghost use Rattle.journal_found.specs.Found.{next_message, is_journal, CanJoin, JournalOf, Follower, Found, RefusedAt, FindsOrOneMore};
ghost use Rattle.journal_found.specs.Joining.{calls_of_next, JournalStaged, JournalTells, NextBreaks, StagedTells};

/// A journal that is made of the opening's value is that of the empty history. Where the next entry's message is appended
/// to a history's journal, it is that of the longer history; where the calls break off anywhere, it is one that the entry
/// was to join. In each such journal the history's entries are found, or those and this one.
pub fn law_of_found()
    ensures made { (setup : Setup) (files : Files) → CanJoin (Snapshot (saved_of setup [])) →
        JournalOf setup [] (all_applied
        (make_calls (behind_gate (message_text (Snapshot (saved_of setup []))))) files) }
    ensures done { (setup : Setup) (past : List EntryOf) (entry : EntryOf) (files : Files) →
        JournalOf setup past files → CanJoin (next_message past entry) →
        JournalOf setup (entry ∷ past) (all_applied (calls_of_next setup past entry) files) }
    ensures broken { (setup : Setup) (past : List EntryOf) (entry : EntryOf) (old new : Files) →
        JournalOf setup past old → CanJoin (next_message past entry) →
        NextBreaks setup past entry old new → JournalStaged setup past entry new }
    ensures finds { (setup : Setup) (past : List EntryOf) (entry : EntryOf) (files : Files) →
        IsHistory setup (entry ∷ past) → JournalStaged setup past entry files →
        FindsOrOneMore setup entry past files }
{}

/// What is found in the file of a history's journal is that history; in the file of one that the history's next entry was
/// to join, it is the history, or the history with the entry.
pub fn law_of_histories()
    ensures whole { (setup : Setup) (past : List EntryOf) → JournalTells setup past }
    ensures staged { (setup : Setup) (past : List EntryOf) (entry : EntryOf) →
        StagedTells setup past entry }
{}

/// Bytes tell what is found in them: of entries that are found, a refused place, and that there is no journal, one is so at
/// most, and in one way.
pub fn law_of_answers()
    ensures once { (bytes : List ℕ) (past late : List EntryOf) (follower second : Follower) →
        Found bytes past follower → Found bytes late second → (past ≡ late) × (follower ≡ second) }
    ensures place { (bytes : List ℕ) (place other : ℕ) →
        RefusedAt bytes place → RefusedAt bytes other → place ≡ other }
    ensures apart { (bytes : List ℕ) (place : ℕ) (past : List EntryOf) (follower : Follower) →
        Found bytes past follower → RefusedAt bytes place → ⊥ }
    ensures journal { (bytes : List ℕ) (past : List EntryOf) (follower : Follower) →
        Found bytes past follower → is_journal bytes ≡ true }
{}
