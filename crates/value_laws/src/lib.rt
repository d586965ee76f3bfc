//! What an entry makes of a history's value is the value of the longer history.
#![tactic(auto)]

ghost use Rattle.std.specs.Prelude.{◌≡◌, List, ◌∷◌};
ghost use Rattle.calls.specs.declared.entry.Entry.{Entry as EntryOf};
ghost use Rattle.plain_service.specs.Setups.{Setup};
ghost use Rattle.plain_service.specs.Legal.{IsHistory, CanFollow};
ghost use Rattle.plain_service.specs.Storing.{deeds_of};
ghost use Rattle.plain_service.specs.Values.{saved_of};
ghost use Rattle.service_core.specs.Applying.{CanApply};
ghost use Rattle.service_core.specs.Valuing.{value_after, deeds_by_value};

/// An entry that can follow a history can be applied to its value. What it makes of that value is the value of the history
/// with the entry, and its deeds by that value are those that it has by the history.
pub fn law_of_entries()
    ensures applies { (setup : Setup) (past : List EntryOf) (entry : EntryOf) →
        CanFollow setup entry past → CanApply entry (saved_of setup past) }
    ensures value { (setup : Setup) (past : List EntryOf) (entry : EntryOf) → IsHistory setup past →
        CanFollow setup entry past →
        value_after entry (saved_of setup past) ≡ saved_of setup (entry ∷ past) }
    ensures deeds { (setup : Setup) (past : List EntryOf) (entry : EntryOf) → IsHistory setup past →
        deeds_by_value entry (saved_of setup past) ≡ deeds_of setup past entry }
{}
