//! The callbacks that replies and items give.
ghost use Rattle.std.specs.Prelude.{◌≡◌, IfOk, None, option_map};
ghost use Rattle.std.specs.Option.{option_to_list};
ghost use Rattle.cluster_facts.specs.Agents.{status_of, asked_back, given_by, callback_of};
ghost use Rattle.client_agent.specs.Inside.{later_of, changed_by, gives};

use crate::marks::LaterMark;
use ais_values::{Duplicate, Status};
use calls::{Boxed, Call, Callback, Reply};
use std::alloc::{AllocError, Global};
use sub_queue::Content;

/// The status that a callback tells of a reply.
fn status_of(reply: &Reply) -> Status
    ensures { result ≡ status_of reply.now }
{
    match reply {
        Reply::Refused { status } => *status,
        _ => Status::Ok,
    }
}

/// The invocation of a write that asked for a callback.
fn asked_back(call: &Call) -> Option<u64>
    ensures { result ≡ asked_back call.now }
{
    match call {
        Call::LogWrite {
            invocation,
            flags,
            ..
        } => { if *flags == 1 { Some(*invocation) } else { None } }
        _ => None,
    }
}

/// Whether any reply to a call gives a callback.
pub fn asks_callback(call: &Call) -> bool
    ensures { result ≡ gives None (asked_back call.now) }
{
    asked_back(call).is_some()
}

/// Whether a reply to a call gives a callback, by the later mark that it tells.
pub fn gives_callback(call: &Call, later: Option<LaterMark>) -> bool
    ensures { result ≡ gives (changed_by (option_map later_of later.entry)) (asked_back call.now) }
{
    match later {
        Some(later) => {
            if later.changes {
                true
            } else {
                asked_back(call).is_some()
            }
        }
        None => asked_back(call).is_some(),
    }
}

/// The callback of a write which asked for one.
fn callback_of_write(call: &Call, reply: &Reply) -> Option<Callback>
    ensures { option_to_list result ≡
        given_by None (asked_back call.now) (status_of reply.now) }
{
    match asked_back(call) {
        Some(invocation) => Some(Callback::Written {
            invocation,
            status: status_of(reply),
        }),
        None => None,
    }
}

/// The callback that a reply gives, by the later mark that it tells: that of a stream's mask, which tells of a write
/// too, or that of a write which asked for one.
pub fn callback_of_reply(
    alloc: Global,
    call: &Call,
    reply: &Reply,
    later: Option<LaterMark>,
) -> Result<Option<Callback>, AllocError>
    ensures { IfOk result (λ callback. option_to_list callback ≡
        given_by (changed_by (option_map later_of later.entry)) (asked_back call.now)
        (status_of reply.now)) }
{
    match later {
        Some(later) => {
            if later.changes {
                let stream = later.stream.copy(alloc)?;
                Ok(Some(Callback::FilterSet {
                    stream,
                    mask: later.mark.mask,
                    written: asked_back(call),
                }))
            } else {
                Ok(callback_of_write(call, reply))
            }
        }
        None => Ok(callback_of_write(call, reply)),
    }
}

/// The callback that an item gives to the subscription of this id.
pub fn callback_of_item(alloc: Global, id: u32, content: &Content) -> Result<Callback, AllocError>
    ensures { IfOk result (λ callback. callback ≡ callback_of id content.now) }
{
    match content {
        Content::Notified { notification } => Ok(Callback::Notified {
            id,
            notification: Boxed::new(alloc, notification.get().copy(alloc)?)?,
        }),
        Content::Discarded { lost } => Ok(Callback::Discarded {
            id,
            lost: lost.copy(alloc)?,
        }),
    }
}
