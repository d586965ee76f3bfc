//! What the cluster asks of a service, kept by the plain service.
ghost use Rattle.std.specs.Prelude.{ℕ, ℤ, List};
ghost use Rattle.calls.specs.declared.call.Call.{Call as CallOf};
ghost use Rattle.calls.specs.declared.reply.Callback.{Callback as CallbackOf};
ghost use Rattle.calls.specs.declared.entry.Entry.{Entry as EntryOf};
ghost use Rattle.plain_service.specs.Setups.{Setup, CanBegin};
ghost use Rattle.plain_service.specs.Legal.{IsHistory};
ghost use Rattle.cluster_facts.specs.History.{IsLegal};
ghost use Rattle.cluster_facts.specs.Service.{IsPlain};
ghost use Rattle.cluster_events.specs.Filing.{IsStorage};
ghost use Rattle.cluster_events.specs.Taking.{in_order, AreFirstItems};
ghost use Rattle.service_laws.specs.Disks.{service_disk};
ghost use Rattle.service_laws.specs.PlainOf.{plain_of};
ghost use Rattle.service_laws.specs.StorageOf.{storage_of};
ghost use Rattle.service_laws.specs.Telling.{IsFedBy, TellSends, callbacks_of};
ghost use Rattle.cluster_facts.specs.Ranges.{AreInRange};

/// The plain service keeps all that the cluster asks of a service: items that were made stay, a
/// receipt alone moves a subscription on, a subscription that lasts was asked for, not refused and
/// not given up since, and what is held is what was made and has no receipt. A legal history of a
/// run, whose clients, times and count lie within bounds, is a history of the service.
pub fn law_of_service()
    ensures plain { (setup : Setup) → IsPlain (plain_of setup) }
    ensures history { (setup : Setup) → CanBegin setup → (now : ℤ) (past : List EntryOf) →
        IsLegal (plain_of setup) now past → AreInRange past → IsHistory setup past }
{}

/// The callbacks of the first items of a subscription tell of the first sends answered ok for which it
/// asked while it lasted, each once and in order; what they tell as lost are the first that were dropped.
pub fn law_of_telling()
    ensures { (setup : Setup) (past : List EntryOf) (sent : List (ℕ × CallOf)) (client key : ℕ)
        (taken : List CallbackOf) → AreFirstItems (plain_of setup) past sent client key taken →
        TellSends setup past client key (in_order taken) }
{}

/// The same is told by what a client was fed, of which the items are those numbered 1, 2, 3 and so on of
/// each subscription that it had asked for: so also where an event broke off, behind which the receipt of
/// the last item need not be posted.
pub fn law_of_feeding()
    ensures { (setup : Setup) (past : List EntryOf) (sent : List (ℕ × CallOf)) (client key : ℕ)
        (marks : List (ℕ × ℕ)) (fed : List CallbackOf) → IsFedBy setup past sent client marks fed →
        TellSends setup past client key (callbacks_of key marks fed) }
{}

/// The files of the plain service keep all that the cluster asks of files. The deeds of the start
/// make the files of the empty history out of no files, and the deeds of an entry those of the
/// history with it, at once and after any attempts, each of which broke off anywhere or was whole.
/// What a reply says is stored is a record, and stands at its place; while the last entry's deeds
/// are attempted it stands at its place before the entry or at that after it, unless the entry
/// leaves it none.
pub fn law_of_storage()
    ensures { (setup : Setup) → CanBegin setup →
        IsStorage (plain_of setup) service_disk (storage_of setup) }
{}
