//! Messages and other byte strings that enter the net.
ghost use Rattle.std.specs.Prelude.{◌≡◌, IfOk, OnOk, OnErr};
ghost use Rattle.std.specs.List.{AllByRecursion};
ghost use Rattle.wire.specs.MessageSpelling.{MessageInRange};
ghost use Rattle.wire.specs.Messages.{Spells};
ghost use Rattle.cluster_clients.specs.Spelled.{Posts, PostsOrNot, IsNumberIn, IsRaw, InjectsRaw, Injects, InjectsOrNot};
ghost use Rattle.cluster_clients.specs.Posted.{PostsAll};
ghost use Rattle.cluster_clients.specs.Posted.{PostsSome};

use crate::fetching::{Fetched, read_string};
use ais_values::Seq;
use event_text::{put_post, put_raw};
use message_net::Net;
use std::alloc::{AllocError, Global};
use wire::{Message, encode, law_of_spellings, let_message_go};

/// The spelling of a message in just the room that it takes, as the net keeps it.
fn kept_spelling(alloc: Global, message: &Message) -> Result<Vec<u8>, AllocError>
    requires { MessageInRange message.now }
    ensures { IfOk result (λ bytes. Spells message.now bytes.items) }
{
    let spelled = encode(alloc, message)?;
    let bytes = Vec::from_slice(alloc, spelled.as_slice())?;
    Ok(bytes)
}

/// Posts a message, and adds its line where the net did not have it. Where memory runs out the net may have the message.
pub fn post(
    alloc: Global,
    net: &mut Net,
    lines: &mut Vec<Seq<u8>>,
    message: &Message,
) -> Result<(), AllocError>
    requires { MessageInRange message.now }
    ensures ok { OnOk result (Posts message.now net.old net.new lines.old.items lines.new.items) }
    ensures err { OnErr result (PostsOrNot message.now net.old net.new) }
{
    law_of_spellings();
    let bytes = kept_spelling(alloc, message)?;
    let posted = net.post_owned(bytes)?;
    if !posted.new {
        return Ok(());
    }
    put_post(alloc, lines, posted.place, message)?;
    Ok(())
}

/// Posts messages, from the first on. Where memory runs out some were posted, from the first on.
pub fn post_all(
    alloc: Global,
    net: &mut Net,
    lines: &mut Vec<Seq<u8>>,
    messages: &[Message],
) -> Result<(), AllocError>
    requires { AllByRecursion MessageInRange messages.now }
    ensures ok { OnOk result (PostsAll messages.now net.old net.new lines.old.items
        lines.new.items) }
    ensures err { OnErr result (PostsSome messages.now net.old net.new) }
{
    for message in messages {
        match post(alloc, net, lines, message) {
            Ok(()) => {}
            Err(error) => return Err(error),
        }
    }
    Ok(())
}

/// Injects bytes that no message spells.
fn inject_raw(
    alloc: Global,
    net: &mut Net,
    lines: &mut Vec<Seq<u8>>,
    bytes: &[u8],
) -> Result<(), AllocError>
    requires { IsRaw bytes.now }
    ensures ok { OnOk result (InjectsRaw bytes.now net.old net.new lines.old.items
        lines.new.items) }
    ensures err { OnErr result (InjectsOrNot bytes.now net.old net.new) }
{
    let posted = net.post(alloc, bytes)?;
    if !posted.new {
        return Ok(());
    }
    put_raw(alloc, lines, posted.place, bytes.len() as u64)?;
    Ok(())
}

/// Injects bytes that no message spells, and adds their line where the net did not have them.
///
/// It answers whether they are such: `false` exactly where a message spells them, and then nothing was done. Where memory runs out
/// the net may have the bytes; more than 4,294,967,294 bytes count as that.
pub fn inject(
    alloc: Global,
    net: &mut Net,
    lines: &mut Vec<Seq<u8>>,
    bytes: &[u8],
) -> Result<bool, AllocError>
    ensures ok { IfOk result (λ done. Injects bytes.now done net.old net.new lines.old.items
        lines.new.items) }
    ensures err { OnErr result (InjectsOrNot bytes.now net.old net.new) }
{
    match read_string(alloc, bytes) {
        Ok(Fetched::Whole { message }) => {
            let_message_go(Some(message));
            Ok(false)
        }
        Ok(Fetched::Bad { .. }) => match inject_raw(alloc, net, lines, bytes) {
            Ok(()) => Ok(true),
            Err(error) => Err(error),
        },
        Err(error) => Err(error),
    }
}

/// The number of a message of the net, and 0 of one that does not stand there.
pub fn number_in(alloc: Global, net: &Net, message: &Message) -> Result<u64, AllocError>
    requires { MessageInRange message.now }
    ensures { IfOk result (λ place. IsNumberIn message.now net.now place) }
{
    law_of_spellings();
    let bytes = encode(alloc, message)?;
    match net.place_of(bytes.as_slice()) {
        Some(place) => Ok(place),
        None => Ok(0),
    }
}
