//! Replies and items that are delivered to clients' agents.
ghost use Rattle.std.specs.Prelude.{◌≡◌, ◌<◌, ◌++◌, length, nat_lt, slice_get, Some, false, IfOk, OnOk, OnErr};
ghost use Rattle.client_agent.specs.Seen.{Seen};
ghost use Rattle.client_agent.specs.Steps.{IsFor};
ghost use Rattle.wire.specs.MessageSpelling.{MessageInRange};
ghost use Rattle.cluster_clients.specs.Spelled.{Posts, PostsOrNot};
ghost use Rattle.cluster_clients.specs.Clients.{StandsAt};
ghost use Rattle.cluster_clients.specs.Taken.{number_told, Takes};
ghost use Rattle.cluster_clients.specs.Taking.{receiver_of, missed_by_none, why_of, missed_lines, IsTakenAt, HasFitReceipt, IsTold, MayPost};
ghost use Rattle.cluster_clients.specs.PartlyDone.{TakesPartly};

use crate::agents::place_of;
use crate::posting::post;
use ais_values::Seq;
use client_agent::{Agent, MissedWhy, Taken, let_agents_go, let_taken_go};
use cluster_events::Why;
use event_text::{put_ignored, put_reply};
use message_net::Net;
use std::alloc::{AllocError, Global};
use std::mem;
use std::sync::Wait;
use wire::Message;

/// The client that a reply or an item is for.
fn receiver(message: &Message) -> Option<u16>
    ensures { result ≡ receiver_of message.now }
{
    match message {
        Message::Reply { client, .. } => Some(*client),
        Message::Item { client, .. } => Some(*client),
        _ => None,
    }
}

/// Why a client without an agent misses the message.
fn missed_by_none(message: &Message) -> Why
    ensures { result ≡ missed_by_none message.now }
{
    match message {
        Message::Reply { .. } => Why::AnsweredReply,
        _ => Why::GoneItem,
    }
}

/// The reason as lines tell it.
fn why_of(why: MissedWhy) -> Why
    ensures { result ≡ why_of why }
{
    match why {
        MissedWhy::Answered => Why::AnsweredReply,
        MissedWhy::Left => Why::Left,
        MissedWhy::Taken => Why::TakenItem,
        MissedWhy::Ahead => Why::AheadItem,
        MissedWhy::Gone => Why::GoneItem,
    }
}

/// The agent at a place takes a message. Where memory runs out the agents stay.
fn receive_at<R: Wait>(
    rt: &R,
    alloc: Global,
    agents: &mut Seq<Agent>,
    at: usize,
    message: &Message,
) -> Result<Taken, AllocError>
    requires within { at < length agents.old }
    requires client { (one : Seen) → slice_get agents.old at ≡ Some one
        → IsFor one.client message.now }
    ensures ok { IfOk result (λ taken. IsTakenAt at message.now agents.old taken agents.new) }
    ensures err { OnErr result (agents.new ≡ agents.old) }
{
    let mut list = mem::replace(agents, Seq::new(alloc)).into_vec();
    let answer = list[at].receive(rt, alloc, message);
    let_agents_go(mem::replace(agents, Seq::from_vec(list)));
    answer
}

/// Adds the line of a message without effect, where its number is to be told.
fn put_missed(
    alloc: Global,
    lines: &mut Vec<Seq<u8>>,
    place: Option<u64>,
    why: Why,
) -> Result<(), AllocError>
    ensures { OnOk result (lines.new.items ≡ lines.old.items ++ missed_lines place why) }
{
    match place {
        Some(place) => put_ignored(alloc, lines, place, why),
        None => Ok(()),
    }
}

/// Posts the receipt of an item, and answers whether the net did not have it.
fn post_receipt(
    alloc: Global,
    net: &mut Net,
    lines: &mut Vec<Seq<u8>>,
    receipt: &Message,
) -> Result<bool, AllocError>
    requires { MessageInRange receipt.now }
    ensures ok { IfOk result (λ loud. Posts receipt.now net.old net.new lines.old.items
        lines.new.items × (loud ≡ nat_lt (length net.old) (length net.new))) }
    ensures err { OnErr result (PostsOrNot receipt.now net.old net.new) }
{
    let before = net.len();
    match post(alloc, net, lines, receipt) {
        Ok(()) => Ok(net.len() > before),
        Err(error) => Err(error),
    }
}

/// Tells what an agent took or missed: by a line, or by the receipt that is posted. Answers whether something was taken.
fn tell(
    alloc: Global,
    net: &mut Net,
    lines: &mut Vec<Seq<u8>>,
    place: Option<u64>,
    client: u16,
    taken: &Taken,
) -> Result<bool, AllocError>
    requires { HasFitReceipt taken.now }
    ensures ok { IfOk result (λ loud. IsTold place client taken.now net.old net.new lines.old.items
        lines.new.items loud) }
    ensures err { OnErr result (MayPost taken.now net.old net.new) }
{
    match taken {
        Taken::Answered { seq, reply } => match put_reply(alloc, lines, client, *seq, reply) {
            Ok(()) => Ok(true),
            Err(error) => Err(error),
        },
        Taken::Item { receipt } => post_receipt(alloc, net, lines, receipt),
        Taken::Missed { why } => match put_missed(alloc, lines, place, why_of(*why)) {
            Ok(()) => Ok(false),
            Err(error) => Err(error),
        },
    }
}

/// The same, of a value that is let go.
fn tell_taken(
    alloc: Global,
    net: &mut Net,
    lines: &mut Vec<Seq<u8>>,
    place: Option<u64>,
    client: u16,
    taken: Taken,
) -> Result<bool, AllocError>
    requires { HasFitReceipt taken }
    ensures ok { IfOk result (λ loud. IsTold place client taken net.old net.new lines.old.items
        lines.new.items loud) }
    ensures err { OnErr result (MayPost taken net.old net.new) }
{
    let told = tell(alloc, net, lines, place, client, &taken);
    let_taken_go(taken);
    told
}

/// The agent at its client's place takes a message.
fn take_at<R: Wait>(
    rt: &R,
    alloc: Global,
    net: &mut Net,
    agents: &mut Seq<Agent>,
    lines: &mut Vec<Seq<u8>>,
    place: Option<u64>,
    message: &Message,
    client: u16,
    at: usize,
) -> Result<bool, AllocError>
    requires range { MessageInRange message.now }
    requires receiver { receiver_of message.now ≡ Some client }
    requires found { StandsAt client at agents.old }
    ensures ok { IfOk result (λ loud. Takes place message.now net.old net.new agents.old agents.new
        lines.old.items lines.new.items loud) }
    ensures err { OnErr result (TakesPartly (number_told place) message.now net.old net.new
        agents.old agents.new) }
{
    match receive_at(rt, alloc, agents, at, message) {
        Ok(taken) => tell_taken(alloc, net, lines, place, client, taken),
        Err(error) => Err(error),
    }
}

/// Delivers a reply or an item to its client's agent, which takes or misses it, and answers whether it took what it did not have.
/// Other messages change nothing.
///
/// With the number of the message in the net a line tells of one without effect; without it, as in `settle`, nothing is told of
/// those. Where memory runs out the agent may have taken it without its lines, and without its receipt.
pub fn take<R: Wait>(
    rt: &R,
    alloc: Global,
    net: &mut Net,
    agents: &mut Seq<Agent>,
    lines: &mut Vec<Seq<u8>>,
    place: Option<u64>,
    message: &Message,
) -> Result<bool, AllocError>
    requires { MessageInRange message.now }
    ensures ok { IfOk result (λ loud. Takes place message.now net.old net.new agents.old agents.new
        lines.old.items lines.new.items loud) }
    ensures err { OnErr result (TakesPartly (number_told place) message.now net.old net.new
        agents.old agents.new) }
{
    let client = match receiver(message) {
        Some(client) => client,
        None => return Ok(false),
    };
    match place_of(agents.as_slice(), client) {
        None => match put_missed(alloc, lines, place, missed_by_none(message)) {
            Ok(()) => Ok(false),
            Err(error) => Err(error),
        },
        Some(at) => take_at(rt, alloc, net, agents, lines, place, message, client, at),
    }
}
