//! Laws of the states of streams, and of where records stand.
ghost use Rattle.std.specs.Prelude.{◌≡◌, ◌≤◌, ℕ, List, [], ◌∷◌, ◌++◌, length, Option, Some, option_map};
ghost use Rattle.stream_config.specs.declared.state.StreamState.{StreamState};
ghost use Rattle.stream_config.specs.declared.event.Stamps.{Stamps};
ghost use Rattle.stream_config.specs.declared.event.StreamEvent.TheVariants.{Stored};
ghost use Rattle.stream_config.specs.Events.{state_after};
ghost use Rattle.stream_config.specs.Fit.{HasFitFiles, first_standing};
ghost use Rattle.stream_layout.specs.declared.spot.Spot.{Spot};
ghost use Rattle.stream_layout.specs.Spots.{next_spot};
ghost use Rattle.stream_layout.specs.Deeds.{offset_written};
ghost use Rattle.stream_layout.specs.Carrying.{IsFitStored, AreRecordsOf};
ghost use Rattle.stream_layout.specs.Repeating.{IsLater};

/// Once a record is stored that can be, the files of its stream are fit again, and each has the bytes of its records;
/// the record stands where the place of the next record said; and the first record that stands is no earlier one.
pub fn law_of_states()
    ensures fit { (before : StreamState) (bytes : List ℕ) (stamps : Option Stamps) →
        IsFitStored before bytes stamps → IsLater (Stored before bytes stamps) →
        HasFitFiles (state_after (Stored before bytes stamps)) }
    ensures records { (before : StreamState) (bytes : List ℕ) (stamps : Option Stamps)
        (records : List (List ℕ)) → IsFitStored before bytes stamps → AreRecordsOf before records →
        AreRecordsOf (state_after (Stored before bytes stamps)) (records ++ bytes ∷ []) }
    ensures first { (before : StreamState) (bytes : List ℕ) (stamps : Option Stamps) →
        HasFitFiles before →
        first_standing before ≤ first_standing (state_after (Stored before bytes stamps)) }
    ensures spots { (before : StreamState) (bytes : List ℕ) (stamps : Option Stamps) →
        IsFitStored before bytes stamps → option_map (λ (spot : Spot). spot.at)
        (next_spot before (length bytes)) ≡ Some (offset_written before stamps) }
{}
