//! A message to which the active server answers as it did before.
ghost use Rattle.std.specs.Prelude.{◌≡◌, ℤ, false, None, IsSome, IsTrue, IfOk, IfSome};
ghost use Rattle.std.specs.Option.{option_copied};
ghost use Rattle.calls.specs.declared.call.Call.{Call as CallOf};
ghost use Rattle.calls.specs.declared.saved.Saved.{Saved as SavedOf};
ghost use Rattle.plain_service.specs.Fitness.{IsFit};
ghost use Rattle.wire.specs.declared.message.Message.{Message as MessageOf};
ghost use Rattle.wire.specs.declared.message.Message.TheVariants.{Request, Reply as Answer};
ghost use Rattle.wire.specs.MessageSpelling.{MessageInRange};
ghost use Rattle.mirror.specs.declared.heard.Role.TheVariants.{Active};
ghost use Rattle.mirror.specs.ByValue.{serving};
ghost use Rattle.mirror.specs.Hearing.{repeated};
ghost use Rattle.mirror.specs.Pairing.{IsHeard};
ghost use Rattle.lead_server.specs.Again.{AnswersAs, IsAnswered, IsPosted, is_answered, is_newest, newest_like, reply_to};

use ais_values::Duplicate;
use calls::Reply;
use message_net::{Net, front_of};
use mirror::Node;
use std::alloc::{AllocError, Global};
use wire::{Message, encode, law_of_spellings, let_message_go};

/// The newest string of the net with this front.
fn newest_like(net: &Net, front: u64) -> Option<&[u8]>
    ensures { option_copied result ≡ newest_like front net.now }
{
    match net.newest_with(front) {
        None => None,
        Some(place) => net.at(place),
    }
}

/// Whether a message is the newest of the net among those that begin as it does.
fn is_newest(alloc: Global, net: &Net, message: &Message) -> Result<bool, AllocError>
    requires { MessageInRange message.now }
    ensures posted { IfOk result (λ newest. IsTrue newest → IsPosted message.now net.now) }
    ensures value { IfOk result (λ newest. newest ≡ is_newest message.now net.now) }
{
    law_of_spellings();
    let bytes = encode(alloc, message)?;
    let text = bytes.as_slice();
    match newest_like(net, front_of(text)) {
        None => Ok(false),
        Some(known) => { if known == text { Ok(true) } else { Ok(false) } }
    }
}

/// Whether a reply is the newest of the net to its call.
fn has_reply(
    alloc: Global,
    net: &Net,
    client: u16,
    seq: u32,
    reply: &Reply,
) -> Result<bool, AllocError>
    requires { MessageInRange (Answer client seq reply.now) }
    ensures posted { IfOk result (λ newest. IsTrue newest →
        IsPosted (Answer client seq reply.now) net.now) }
    ensures value { IfOk result (λ newest.
        newest ≡ is_newest (Answer client seq reply.now) net.now) }
{
    let answer = Message::Reply {
        client,
        seq,
        reply: reply.copy(alloc)?,
    };
    let newest = is_newest(alloc, net, &answer);
    let_message_go(Some(answer));
    newest
}

/// The reply that the active server posts again where it hears the call of this number, if it does; no call has the number 0.
fn reply_to(active: &Node, client: u16, seq: u32) -> Option<&Reply>
    requires { active.now.replica.role ≡ Active }
    ensures again { IfSome result (λ reply. (call : CallOf) (now : ℤ) → IsHeard
        (Request client seq call) now active.now (repeated (Answer client seq reply.now))
        active.now) }
    ensures hand { IsSome active.now.replica.owed → result ≡ None }
    ensures value { (saved : SavedOf) → IsFit saved → active.now.replica ≡ serving saved None →
        option_copied result ≡ reply_to saved client seq }
{
    if seq == 0 {
        None
    } else {
        active.reply_again(client, seq)
    }
}

/// Whether the active server answers to a message with what the net has, and changes by it in nothing. It does not while an entry is in hand.
pub(crate) fn is_answered(
    alloc: Global,
    active: &Node,
    net: &Net,
    message: &Message,
) -> Result<bool, AllocError>
    requires role { active.now.replica.role ≡ Active }
    requires range { (answer : MessageOf) → AnswersAs message.now active.now answer →
        MessageInRange answer }
    ensures posted { IfOk result (λ answered. IsTrue answered →
        IsAnswered message.now active.now net.now) }
    ensures hand { IfOk result (λ answered. IsSome active.now.replica.owed → answered ≡ false) }
    ensures value { IfOk result (λ answered. (saved : SavedOf) → IsFit saved →
        active.now.replica ≡ serving saved None →
        answered ≡ is_answered saved message.now net.now) }
{
    match message {
        Message::Request { client, seq, .. } => match reply_to(active, *client, *seq) {
            None => Ok(false),
            Some(reply) => has_reply(alloc, net, *client, *seq, reply),
        },
        _ => Ok(false),
    }
}
