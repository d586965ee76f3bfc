//! Replies in the net, by the calls that they answer.
ghost use Rattle.std.specs.Prelude.{◌≡◌, length, IfOk};
ghost use Rattle.wire_code.specs.Spelling.{IsClient, IsCount};
ghost use Rattle.cluster_clients.specs.Replies.{reply_front, IsReplyIn, FindsFirst, FindsReply};

use crate::fetching::{Fetched, read_string};
use message_net::{Net, front_of};
use std::alloc::{AllocError, Global};
use wire::Message;

/// The tag of a reply.
const REPLY_TAG: u8 = 2;

/// How the spelling of a reply to a client's call begins.
#[tactic(auto, unfolding(wire_code::specs::Spelling::number_text))]
fn reply_front(client: u16, seq: u32) -> [u8; 7]
    ensures { result ≡ reply_front client seq }
{
    let client = client.to_be_bytes();
    let seq = seq.to_be_bytes();
    [
        REPLY_TAG, client[0], client[1], seq[0], seq[1], seq[2], seq[3],
    ]
}

/// The message of these bytes, where they begin so and one spells them. A string of more than 4,294,967,294 bytes counts as want of
/// memory.
fn reply_in(alloc: Global, bytes: &[u8], front: &[u8]) -> Result<Option<Message>, AllocError>
    ensures { IfOk result (λ found. IsReplyIn front.now bytes.now found) }
{
    if !bytes.starts_with(front) {
        return Ok(None);
    }
    match read_string(alloc, bytes) {
        Ok(Fetched::Whole { message }) => Ok(Some(message)),
        Ok(Fetched::Bad { .. }) => Ok(None),
        Err(error) => Err(error),
    }
}

/// The newest message of the net whose spelling begins so: it is one of the strings that have the front of these bytes.
fn first_with(alloc: Global, net: &Net, front: &[u8]) -> Result<Option<Message>, AllocError>
    requires { length front.now ≡ 7 }
    ensures { IfOk result (λ found. FindsFirst front.now net.now found) }
{
    let mut next = net.newest_with(front_of(front));
    while let Some(place) = next {
        match net.at(place) {
            Some(bytes) => match reply_in(alloc, bytes, front) {
                Ok(Some(message)) => return Ok(Some(message)),
                Ok(None) => {}
                Err(error) => return Err(error),
            },
            None => return Ok(None),
        }
        next = net.older_with(place);
    }
    Ok(None)
}

/// The newest reply to a client's call that stands in the net, if there is one. A string of more than 4,294,967,294 bytes counts as
/// want of memory.
pub fn reply_to(
    alloc: Global,
    net: &Net,
    client: u16,
    seq: u32,
) -> Result<Option<Message>, AllocError>
    requires client { IsClient client }
    requires count { IsCount seq }
    ensures { IfOk result (λ found. FindsReply client seq net.now found) }
{
    let front = reply_front(client, seq);
    first_with(alloc, net, &front)
}
