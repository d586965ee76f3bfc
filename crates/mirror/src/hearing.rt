//! What the active server makes of a message while nothing is in hand.
ghost use Rattle.std.specs.Prelude.{◌≡◌, ◌≢◌, ◌<◌, List, [], option_copied, IfOk, IfSome, OnErr};
ghost use Rattle.std.specs.Vec.{vec_capacity};
ghost use Rattle.calls.specs.declared.entry.Entry.{Entry as EntryOf};
ghost use Rattle.calls.specs.declared.saved.Saved.{Saved as SavedOf};
ghost use Rattle.wire.specs.declared.message.Message.TheVariants.{Reply as Answer};
ghost use Rattle.plain_service.specs.Setups.{Setup};
ghost use Rattle.plain_service.specs.Legal.{IsHistory, CanFollow};
ghost use Rattle.plain_service.specs.Values.{StandsFor};
ghost use Rattle.plain_service.specs.Fitness.{IsFit};
ghost use Rattle.service_core.specs.Applying.{CanAcceptIn, CanApply, next_in, is_new_in};
ghost use Rattle.service_laws.specs.PlainOf.{plain_of};
ghost use Rattle.cluster_facts.specs.History.{judged_call};
ghost use Rattle.cluster_facts.specs.Service.{is_new};
ghost use Rattle.mirror.specs.Hearing.{CanHear, IsHeardAtRest, IsRequestHeard, IsReceiptHeard, ignored, accepted_alone, repeated};
ghost use Rattle.mirror.specs.ByValue.{serving, replies_for, IsAcceptedAt, judged_in, reply_again, IsRequestByValue, IsReceiptByValue, IsHeardByValue};
ghost use Rattle.mirror.specs.Reacting.{IsAccepted, IsHeardAgain, IsAgainByValue, IsPostedAgain};
ghost use Rattle.mirror.specs.Preparing.{becomes_in};

use crate::owed::Owed;
use crate::{Heard, Outcome, Role, Why};
use ais_values::{Duplicate, Seq};
use calls::{Call, Entry, Reply, Shared};
use client_window::Judged;
use service_core::Service;
use std::alloc::{AllocError, Global};
use wire::{Message, one_message};

/// What becomes of a message, and what the entry asks for, where one was accepted.
#[derive(Drop)]
pub(crate) struct Reaction {
    pub(crate) heard: Heard,
    pub(crate) owed: Option<Owed>,
}

/// Nothing changes.
pub(crate) fn ignore(alloc: Global, why: Why) -> Heard
    ensures { result ≡ ignored why }
{
    Heard {
        to_net: Seq::new(alloc),
        to_peer: Seq::new(alloc),
        committed: None,
        outcome: Outcome::Ignored { why },
    }
}

/// Nothing changes, and nothing is owed.
fn react_not(alloc: Global, why: Why) -> Reaction
    ensures heard { result.heard ≡ ignored why }
    ensures owed { result.owed ≡ None }
{
    Reaction {
        heard: ignore(alloc, why),
        owed: None,
    }
}

/// The entry is committed.
fn commit(alloc: Global, entry: Entry) -> Heard
    ensures { result ≡ accepted_alone entry }
{
    Heard {
        to_net: Seq::new(alloc),
        to_peer: Seq::new(alloc),
        committed: Some(entry),
        outcome: Outcome::Accepted,
    }
}

/// The reply is posted again.
fn repeat(alloc: Global, client: u16, seq: u32, reply: &Reply) -> Result<Heard, AllocError>
    ensures { IfOk result (λ heard. heard ≡ repeated (Answer client seq reply.now)) }
{
    let message = Message::Reply {
        client,
        seq,
        reply: reply.copy(alloc)?,
    };
    let to_net = one_message(alloc, message)?;
    Ok(Heard {
        to_net,
        to_peer: Seq::new(alloc),
        committed: None,
        outcome: Outcome::Repeated,
    })
}

/// The reply to a call, as the message that is posted, in a list that has room for it.
fn put_reply(mut to_net: Vec<Message>, entry: &Entry, reply: Option<Reply>) -> Seq<Message>
    requires empty { to_net.items ≡ [] }
    requires room { 0 < vec_capacity to_net }
    ensures { result ≡ replies_for entry.now reply }
{
    match (entry, reply) {
        (
            Entry::Called {
                client,
                seq,
                time: _,
                call: _,
            },
            Some(reply),
        ) => {
            to_net.push_reserved(Message::Reply {
                client: *client,
                seq: *seq,
                reply,
            });
            Seq::from_vec(to_net)
        }
        _ => Seq::from_vec(to_net),
    }
}

/// Accepts an entry. On an error nothing changes.
fn accept(service: &mut Service, alloc: Global, entry: Entry) -> Result<Reaction, AllocError>
    requires { CanApply entry service.old }
    ensures ok { IfOk result (λ reaction. (setup : Setup) (past : List EntryOf) →
        IsHistory setup past → StandsFor setup past service.old → CanFollow setup entry past →
        IsAccepted setup past entry reaction.heard (serving service.new reaction.owed)) }
    ensures value { IfOk result (λ reaction. (saved : SavedOf) → service.old ≡ saved →
        IsAcceptedAt saved entry reaction.heard (serving service.new reaction.owed)) }
    ensures err { OnErr result (service.new ≡ service.old) }
{
    let to_net = match Vec::with_capacity(alloc, 1) {
        Ok(to_net) => to_net,
        Err(error) => {
            drop(entry);
            return Err(error);
        }
    };
    let effect = match service.apply(alloc, &entry) {
        Ok(effect) => effect,
        Err(error) => {
            drop(entry);
            return Err(error);
        }
    };
    let owed = Owed {
        to_net: put_reply(to_net, &entry, effect.reply),
        deeds: effect.deeds,
    };
    Ok(Reaction {
        heard: commit(alloc, entry),
        owed: Some(owed),
    })
}

/// The reply that a request of this number gets again, where the service keeps it.
pub(crate) fn kept_reply(service: &Service, client: u16, seq: u32) -> Option<&Reply>
    requires { 0 < seq }
    ensures again { IfSome result (λ reply. IsPostedAgain service.now client seq reply.now) }
    ensures value { (saved : SavedOf) → IsFit saved → service.now ≡ saved →
        option_copied result ≡ reply_again saved client seq }
{
    match service.judge(client, seq) {
        Judged::Repeat { reply } => Some(reply),
        _ => None,
    }
}

/// What becomes of a request that is not the client's next.
fn hear_again(service: &Service, alloc: Global, client: u16, seq: u32) -> Result<Heard, AllocError>
    requires number { 0 < seq }
    requires other { seq ≢ next_in service.now client }
    ensures history { IfOk result (λ heard. (setup : Setup) (past : List EntryOf) →
        IsHistory setup past → StandsFor setup past service.now →
        IsHeardAgain setup past client seq (judged_call past client seq) heard) }
    ensures value { IfOk result (λ heard. (saved : SavedOf) → IsFit saved →
        service.now ≡ saved →
        IsAgainByValue saved client seq (judged_in saved client seq) heard) }
{
    if service.next(client) < seq {
        return Ok(ignore(alloc, Why::Ahead));
    }
    match service.judge(client, seq) {
        Judged::Repeat { reply } => repeat(alloc, client, seq, reply),
        _ => Ok(ignore(alloc, Why::Old)),
    }
}

/// Hears a request. On an error nothing changes.
fn hear_request(
    service: &mut Service,
    alloc: Global,
    client: u16,
    seq: u32,
    now: i64,
    call: &Shared<Call>,
) -> Result<Reaction, AllocError>
    requires can { CanAcceptIn service.old client now }
    requires number { 0 < seq }
    ensures ok { IfOk result (λ reaction. (setup : Setup) (past : List EntryOf) →
        IsHistory setup past → StandsFor setup past service.old →
        IsRequestHeard setup past client seq call.now now (judged_call past client seq)
        reaction.heard (serving service.new reaction.owed)) }
    ensures value { IfOk result (λ reaction. (saved : SavedOf) → IsFit saved →
        service.old ≡ saved → IsRequestByValue saved client seq call.now now
        (judged_in saved client seq) reaction.heard (serving service.new reaction.owed)) }
    ensures err { OnErr result (service.new ≡ service.old) }
{
    if seq == service.next(client) {
        let entry = Entry::Called {
            client,
            seq,
            time: now,
            call: call.copy(alloc)?,
        };
        return accept(service, alloc, entry);
    }
    let heard = hear_again(service, alloc, client, seq)?;
    Ok(Reaction { heard, owed: None })
}

/// Hears a receipt. On an error nothing changes.
fn hear_receipt(
    service: &mut Service,
    alloc: Global,
    client: u16,
    key: u32,
    through: u32,
    now: i64,
) -> Result<Reaction, AllocError>
    requires { CanAcceptIn service.old client now }
    ensures ok { IfOk result (λ reaction. (setup : Setup) (past : List EntryOf) →
        IsHistory setup past → StandsFor setup past service.old →
        IsReceiptHeard setup past client key through now
        (is_new (plain_of setup) past client key through)
        reaction.heard (serving service.new reaction.owed)) }
    ensures value { IfOk result (λ reaction. (saved : SavedOf) → IsFit saved →
        service.old ≡ saved → IsReceiptByValue saved client key through now
        (is_new_in saved client key through) reaction.heard (serving service.new reaction.owed)) }
    ensures err { OnErr result (service.new ≡ service.old) }
{
    if service.is_new(client, key, through) {
        let entry = Entry::Receipted {
            client,
            key,
            through,
            time: now,
        };
        return accept(service, alloc, entry);
    }
    Ok(react_not(alloc, Why::Done))
}

/// Whether a message becomes the next entry: the client's next request, or a receipt that is new.
pub(crate) fn becomes_next(service: &Service, message: &Message) -> bool
    ensures { result ≡ becomes_in service.now message.now }
{
    match message {
        Message::Request { client, seq, .. } => *seq == service.next(*client),
        Message::Receipt {
            client,
            key,
            through,
        } => service.is_new(*client, *key, *through),
        _ => false,
    }
}

/// Hears a message. On an error nothing changes.
pub(crate) fn hear(
    service: &mut Service,
    alloc: Global,
    message: &Message,
    now: i64,
) -> Result<Reaction, AllocError>
    requires hear { CanHear message.now now }
    requires few { service.old.number < 4000000000 }
    ensures ok { IfOk result (λ reaction. (setup : Setup) (past : List EntryOf) →
        IsHistory setup past → StandsFor setup past service.old →
        IsHeardAtRest setup past now message.now
        reaction.heard (serving service.new reaction.owed)) }
    ensures value { IfOk result (λ reaction. (saved : SavedOf) → IsFit saved →
        service.old ≡ saved →
        IsHeardByValue saved now message.now reaction.heard (serving service.new reaction.owed)) }
    ensures err { OnErr result (service.new ≡ service.old) }
{
    match message {
        Message::Request { client, seq, call } => {
            hear_request(service, alloc, *client, *seq, now, call)
        }
        Message::Receipt {
            client,
            key,
            through,
        } => hear_receipt(service, alloc, *client, *key, *through, now),
        _ => Ok(react_not(alloc, Why::NotForRole { role: Role::Active })),
    }
}
