//! The laws of fit values over entries.
ghost use Rattle.std.specs.Prelude.{ℕ, ℤ, List};
ghost use Rattle.calls.specs.declared.call.Call.{Call as CallOf};
ghost use Rattle.calls.specs.declared.entry.Entry.{Entry as EntryOf};
ghost use Rattle.plain_service.specs.Setups.{Setup};
ghost use Rattle.plain_service.specs.Legal.{IsHistory};
ghost use Rattle.plain_service.specs.Values.{saved_of};
ghost use Rattle.plain_service.specs.Fitness.{IsFit};
ghost use Rattle.service_table.specs.Tables.{ServiceTable, saved_table};
ghost use Rattle.service_table.specs.Steps.{after_call, after_receipt_in};
ghost use Rattle.service_fit.specs.Laws.{CanGoOn, CanComeNext};

/// Every entry that can be accepted leaves a fit value, whichever history led to the one before, or
/// none.
pub fn law_of_fitness()
    ensures call { (kept : ServiceTable) (client seq : ℕ) (now : ℤ) (call : CallOf) →
        CanComeNext kept client seq now →
        IsFit (saved_table (after_call kept client seq now call)) }
    ensures receipt { (kept : ServiceTable) (client key through : ℕ) → CanGoOn kept →
        IsFit (saved_table (after_receipt_in kept client key through)) }
{}

/// The value of a history is fit to be handed on.
pub fn law_of_values()
    ensures { (setup : Setup) (past : List EntryOf) → IsHistory setup past →
        IsFit (saved_of setup past) }
{}
