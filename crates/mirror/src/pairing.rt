//! What a server of a pair does on its parts.
ghost use Rattle.std.specs.Prelude.{◌≡◌, ◌↔◌, if◌then◌else◌, IsTrue, suc, List, [], ◌∷◌, Some, None, length, IfOk, OnErr};
ghost use Rattle.calls.specs.declared.entry.Entry.{Entry as EntryOf};
ghost use Rattle.calls.specs.declared.saved.Saved.{Saved as SavedOf};
ghost use Rattle.wire.specs.declared.message.Message.TheVariants.{Snapshot};
ghost use Rattle.plain_service.specs.Setups.{Setup};
ghost use Rattle.plain_service.specs.Legal.{IsHistory, CanFollow};
ghost use Rattle.plain_service.specs.Fitness.{IsFit};
ghost use Rattle.plain_service.specs.Storing.{deeds_of};
ghost use Rattle.plain_service.specs.Values.{StandsFor};
ghost use Rattle.mirror.specs.declared.heard.Role.TheVariants as role;
ghost use Rattle.mirror.specs.declared.owed.Owed.{Owed as OwedOf};
ghost use Rattle.service_core.specs.Applying.{CanApply};
ghost use Rattle.service_core.specs.Valuing.{value_after, deeds_by_value};
ghost use Rattle.mirror.specs.declared.heard.Why.TheVariants.{Busy};
ghost use Rattle.mirror.specs.Replicas.{HasRoom, at_rest, at_work};
ghost use Rattle.mirror.specs.Hearing.{CanHear, ignored};
ghost use Rattle.mirror.specs.Pairing.{sent, with_peer, tied_after, mirrors, newest, IsNextEntry, IsMirrored, IsMirroredByValue};
ghost use Rattle.mirror.specs.ByValue.{serving};
ghost use Rattle.mirror.specs.Preparing.{entry_by, held_back, wanted_by};

use crate::node::Tie;
use crate::replica::Replica;
use crate::{Heard, Outcome};
use ais_values::{Duplicate, Seq};
use calls::{Boxed, Entry, MAX_ENTRIES, Saved};
use saved_fit::is_fit;
use service_core::Service;
use std::alloc::{AllocError, Global};
use std::mem::replace;
use stream_layout::Deed;
use wire::{Message, one_message};

/// Messages for the partner, and an entry that is committed.
pub(crate) fn send(
    alloc: Global,
    to_peer: Seq<Message>,
    committed: Option<Entry>,
    outcome: Outcome,
) -> Heard
    ensures { result ≡ sent to_peer committed outcome }
{
    Heard {
        to_net: Seq::new(alloc),
        to_peer,
        committed,
        outcome,
    }
}

/// What was heard, with messages for the partner.
pub(crate) fn send_also(mut heard: Heard, to_peer: Seq<Message>) -> Heard
    ensures { result ≡ with_peer heard to_peer }
{
    heard.to_peer = to_peer;
    heard
}

/// What ties the active server to its partner once the entry in hand is worked.
pub(crate) fn link(tie: Tie) -> Tie
    ensures { result ≡ tied_after tie }
{
    match tie {
        Tie::Owing => Tie::Linked,
        _ => tie,
    }
}

/// The message that brings the value of a service.
pub(crate) fn snapshot_of(service: &Service, alloc: Global) -> Result<Seq<Message>, AllocError>
    ensures { IfOk result (λ messages. messages ≡ Snapshot service.now ∷ []) }
{
    let saved = service.save(alloc)?;
    let saved = Boxed::new(alloc, saved)?;
    one_message(alloc, Message::Snapshot { saved })
}

/// Whether a server can join with a value: it is fit.
pub(crate) fn can_join(saved: &Boxed<Saved>) -> bool
    ensures { IsTrue result ↔ IsFit saved.now }
{
    is_fit(saved.get())
}

/// Whether a service can accept a further entry.
pub(crate) fn has_room(service: &Service) -> bool
    ensures { IsTrue result ↔ HasRoom (Some service.now) }
{
    service.number() < MAX_ENTRIES
}

/// Whether an entry can be applied.
fn can_apply(service: &Service, entry: &Entry) -> bool
    ensures { IsTrue result ↔ CanApply entry.now service.now }
{
    match entry {
        Entry::Called {
            client,
            seq,
            time,
            call: _,
        } => service.can_accept(*client, *time) && *seq == service.next(*client),
        Entry::Receipted {
            client,
            key,
            through,
            time,
        } => service.can_accept(*client, *time) && service.is_new(*client, *key, *through),
    }
}

/// Whether an entry of this number is the next one, and can be applied.
pub(crate) fn is_next(service: &Service, number: u64, entry: &Entry) -> bool
    ensures { IsTrue result ↔ IsNextEntry number entry.now (Some service.now) }
{
    service.number() < number && number - 1 == service.number() && can_apply(service, entry)
}

/// Applies an entry of the partner's, and gives its deeds. On an error nothing changes.
pub(crate) fn apply_mirrored(
    service: &mut Service,
    alloc: Global,
    entry: &Entry,
) -> Result<Seq<Deed>, AllocError>
    requires { CanApply entry.now service.old }
    ensures value { IfOk result (λ deeds. (deeds ≡ deeds_by_value entry.now service.old)
        × (service.new ≡ value_after entry.now service.old)) }
    ensures ok { IfOk result (λ deeds. (setup : Setup) (past : List EntryOf) →
        IsHistory setup past → StandsFor setup past service.old →
        CanFollow setup entry.now past → (deeds ≡ deeds_of setup past entry.now)
        × StandsFor setup (entry.now ∷ past) service.new) }
    ensures err { OnErr result (service.new ≡ service.old) }
{
    let effect = service.apply(alloc, entry)?;
    drop(effect.reply);
    Ok(effect.deeds)
}

/// The message that mirrors the entry that a request or a receipt may become.
fn prepare(
    alloc: Global,
    number: u64,
    message: &Message,
    now: i64,
) -> Result<Seq<Message>, AllocError>
    ensures { IfOk result (λ messages. messages ≡ mirrors number (entry_by message.now now)) }
{
    match message {
        Message::Request { client, seq, call } => {
            let entry = Entry::Called {
                client: *client,
                seq: *seq,
                time: now,
                call: call.copy(alloc)?,
            };
            one_message(alloc, Message::Mirror { number, entry })
        }
        Message::Receipt {
            client,
            key,
            through,
        } => {
            let entry = Entry::Receipted {
                client: *client,
                key: *key,
                through: *through,
                time: now,
            };
            one_message(alloc, Message::Mirror { number, entry })
        }
        _ => Ok(Seq::new(alloc)),
    }
}

/// The same, of a message that becomes one. Of any other there is none, and no memory is taken.
fn prepare_wanted(
    alloc: Global,
    replica: &Replica,
    number: u64,
    message: &Message,
    now: i64,
) -> Result<Seq<Message>, AllocError>
    ensures { IfOk result (λ messages. messages ≡
        (if wanted_by replica.now.service message.now
        then mirrors number (entry_by message.now now) else [])) }
{
    if replica.wants(message) {
        prepare(alloc, number, message, now)
    } else {
        Ok(Seq::new(alloc))
    }
}

/// An entry that was accepted waits, and goes to the partner.
fn hold_back(heard: &mut Heard, waits: &mut Option<Entry>, mirror: Seq<Message>)
    ensures heard { heard.new ≡ held_back heard.old.committed mirror heard.old }
    ensures waits { waits.new ≡ newest heard.old.committed waits.old }
{
    match heard.committed.take() {
        None => drop(mirror),
        Some(entry) => {
            heard.to_peer = mirror;
            let before = replace(waits, Some(entry));
            drop(before);
        }
    }
}

/// The active server hears a request or a receipt while a partner is linked. On an error nothing changes.
pub(crate) fn hear_linked(
    replica: &mut Replica,
    waits: &mut Option<Entry>,
    alloc: Global,
    message: &Message,
    now: i64,
) -> Result<Heard, AllocError>
    requires hear { CanHear message.now now }
    requires few { HasRoom replica.old.service }
    requires role { replica.old.role ≡ role.Active }
    ensures busy { IfOk result (λ heard. (setup : Setup) (past : List EntryOf)
        (entry : EntryOf) → replica.old ≡ at_work setup past entry →
        (heard ≡ ignored (Busy (suc (length past)))) × (replica.new ≡ replica.old) × (waits.new
        ≡ waits.old)) }
    ensures rest { IfOk result (λ heard. (setup : Setup) (past : List EntryOf) →
        IsHistory setup past → replica.old ≡ at_rest setup past →
        IsMirrored setup past now message.now waits.old heard replica.new waits.new) }
    ensures held { IfOk result (λ heard. (saved : SavedOf) (owed : OwedOf) →
        replica.old ≡ serving saved (Some owed) → (heard ≡ ignored (Busy saved.number))
        × (replica.new ≡ replica.old) × (waits.new ≡ waits.old)) }
    ensures value { IfOk result (λ heard. (saved : SavedOf) → IsFit saved →
        replica.old ≡ serving saved None →
        IsMirroredByValue saved now message.now waits.old heard replica.new waits.new) }
    ensures replica { OnErr result (replica.new ≡ replica.old) }
    ensures waits { OnErr result (waits.new ≡ waits.old) }
{
    let number = replica.next_number();
    let mirror = prepare_wanted(alloc, replica, number, message, now)?;
    let mut heard = replica.receive(alloc, message, now)?;
    hold_back(&mut heard, waits, mirror);
    Ok(heard)
}
