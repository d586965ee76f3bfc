//! What a node does on its parts: its service and what it owes.
ghost use Rattle.std.specs.Prelude.{◌≡◌, ◌<◌, List, Some, None, map, IsSome, IfOk, OnErr};
ghost use Rattle.ais_values.specs.Causes.{RoseExactlyOn};
ghost use Rattle.disk_model.specs.DeviceCalls.{Performs};
ghost use Rattle.disk_model.specs.declared.answers.DiskAnswer.{DiskAnswer};
ghost use Rattle.stream_layout.specs.Deeds.{calls_of_all};
ghost use Rattle.calls.specs.declared.entry.Entry.{Entry as EntryOf};
ghost use Rattle.calls.specs.declared.saved.Saved.{Saved as SavedOf};
ghost use Rattle.service_core.specs.Valuing.{items_held};
ghost use Rattle.plain_service.specs.Setups.{Setup};
ghost use Rattle.plain_service.specs.Legal.{IsHistory};
ghost use Rattle.plain_service.specs.Fitness.{IsFit};
ghost use Rattle.plain_service.specs.Values.{StandsFor};
ghost use Rattle.plain_service.specs.Items.{items_of};
ghost use Rattle.service_laws.specs.PlainOf.{item_message, plain_of};
ghost use Rattle.mirror.specs.declared.heard.Why.TheVariants.{Busy};
ghost use Rattle.mirror.specs.Hearing.{CanHear, IsHeardAtRest, ignored};
ghost use Rattle.mirror.specs.Working.{deeds_in, replies_in, worked};
ghost use Rattle.mirror.specs.ByValue.{serving, IsHeardByValue};

use crate::hearing::{hear, ignore};
use crate::owed::Owed;
use crate::{Heard, Outcome, Why};
use ais_values::Seq;
use calls::Held;
use disk_model::{DiskAnswer, SharedDisk};
use service_core::Service;
use std::alloc::{AllocError, Global};
use stream_files::perform;
use wire::Message;

/// Hears a message, as the active server. On an error nothing changes.
pub(crate) fn hear_or_ignore(
    service: &mut Service,
    owed: &mut Option<Owed>,
    alloc: Global,
    message: &Message,
    now: i64,
) -> Result<Heard, AllocError>
    requires hear { CanHear message.now now }
    requires few { service.old.number < 4000000000 }
    ensures busy { IfOk result (λ heard. IsSome owed.old →
        (heard ≡ ignored (Busy service.old.number))
        × (service.new ≡ service.old) × (owed.new ≡ owed.old)) }
    ensures rest { IfOk result (λ heard. owed.old ≡ None →
        (setup : Setup) (past : List EntryOf) → IsHistory setup past →
        StandsFor setup past service.old →
        IsHeardAtRest setup past now message.now heard (serving service.new owed.new)) }
    ensures value { IfOk result (λ heard. owed.old ≡ None →
        (saved : SavedOf) → IsFit saved → service.old ≡ saved →
        IsHeardByValue saved now message.now heard (serving service.new owed.new)) }
    ensures service { OnErr result (service.new ≡ service.old) }
    ensures owed { OnErr result (owed.new ≡ owed.old) }
{
    if owed.is_some() {
        let number = service.number();
        return Ok(ignore(alloc, Why::Busy { number }));
    }
    let reaction = hear(service, alloc, message, now)?;
    *owed = reaction.owed;
    Ok(reaction.heard)
}

/// Does the deeds that are owed, if there are any.
pub(crate) fn do_deeds<D: SharedDisk>(disk: &mut D, owed: &Option<Owed>) -> Result<(), DiskAnswer>
    ensures performs { Performs (calls_of_all (deeds_in owed.now)) result (D.seen disk.old).files
        (D.seen disk.new).files (D.seen disk.old).tally (D.seen disk.new).tally }
    ensures cause { RoseExactlyOn (D.seen disk.old).faults (D.seen disk.new).faults result
        DiskAnswer.Failed }
    ensures stop { RoseExactlyOn (D.seen disk.old).stops (D.seen disk.new).stops result
        DiskAnswer.Stopped }
{
    match owed {
        None => Ok(()),
        Some(owed) => perform(disk, &owed.deeds),
    }
}

/// The work is done: the reply that was owed is posted, if there is one.
pub(crate) fn post_owed(alloc: Global, owed: Option<Owed>) -> Heard
    ensures { result ≡ worked (replies_in owed) }
{
    let to_net = match owed {
        None => Seq::new(alloc),
        Some(owed) => owed.to_net,
    };
    Heard {
        to_net,
        to_peer: Seq::new(alloc),
        committed: None,
        outcome: Outcome::Worked,
    }
}

/// The message that brings an item.
fn bring(held: Held) -> Message
    ensures { result ≡ item_message held }
{
    Message::Item {
        client: held.client,
        key: held.key,
        item: held.item,
    }
}

/// The messages that bring items, in their order.
fn bring_all(alloc: Global, items: Seq<Held>) -> Result<Seq<Message>, AllocError>
    ensures { IfOk result (λ messages. messages ≡ map item_message items) }
{
    let messages = items.into_vec().into_iter().map(bring).collect(alloc)?;
    Ok(Seq::from_vec(messages))
}

/// The messages that bring all items without receipt.
pub(crate) fn push_items(service: &Service, alloc: Global) -> Result<Seq<Message>, AllocError>
    ensures history { IfOk result (λ messages. (setup : Setup) (past : List EntryOf) →
        StandsFor setup past service.now → messages ≡ (plain_of setup).held past) }
    ensures value { IfOk result (λ messages. messages
        ≡ map item_message (items_held service.now)) }
{
    let items = service.items(alloc)?;
    bring_all(alloc, items)
}
