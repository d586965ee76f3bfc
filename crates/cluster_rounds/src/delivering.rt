//! Byte strings of the net that are delivered.
ghost use Rattle.std.specs.Prelude.{◌≡◌, true, Some, IfOk, OnOk, OnErr};
ghost use Rattle.wire.specs.MessageSpelling.{MessageFits};
ghost use Rattle.cluster_rounds.specs.Wild.{StandsOf, KeepsWild, Posted, always};
ghost use Rattle.cluster_rounds.specs.Worlds.{DoesIf, StandsIn, any_state};
ghost use Rattle.cluster_rounds.specs.Delivered.{Delivers, delivered_by, is_for_agent, is_for_server};
ghost use Rattle.cluster_rounds.specs.Broken.{BreaksAlone, BreaksAloneIf};
ghost use Rattle.cluster_clients.specs.Spelled.{IsFetched};

use crate::{Cluster, Serving};
use ais_values::Seq;
use cluster_clients::{Fetched, fetch, take};
use cluster_events::Why;
use event_text::put_ignored;
use std::alloc::{AllocError, Global};
use std::sync::Wait;
use wire::{Message, let_message_go};

/// Whether the message is a reply or an item, which are for an agent. It takes no memory.
pub fn is_for_agent(message: &Message) -> bool
    ensures { result ≡ is_for_agent message.now }
{
    matches!(message, Message::Reply { .. } | Message::Item { .. })
}

/// Whether the message is a request or a receipt, which are for the active server.
fn is_for_server(message: &Message) -> bool
    ensures { result ≡ is_for_server message.now }
{
    matches!(message, Message::Request { .. } | Message::Receipt { .. })
}

/// Delivers a reply or an item of this number in the net to its agent.
fn deliver_to_agent<R: Wait, S: Serving>(
    rt: &R,
    alloc: Global,
    world: &mut Cluster<S>,
    lines: &mut Vec<Seq<u8>>,
    place: u64,
    message: &Message,
) -> Result<(), AllocError>
    requires fits { MessageFits message.now }
    requires agent { is_for_agent message.now ≡ true }
    ensures ok { OnOk result (DoesIf S.kit (StandsIn message.now) (delivered_by S.kit place
        message.now) world.old world.new lines.old.items lines.new.items) }
    ensures err { OnErr result (BreaksAloneIf S.kit (StandsIn message.now) world.old world.new) }
    ensures wild { OnOk result (KeepsWild S.kit (Posted message.now) world.old world.new) }
{
    match take(
        rt,
        alloc,
        &mut world.net,
        &mut world.agents,
        lines,
        Some(place),
        message,
    ) {
        Ok(_) => Ok(()),
        Err(error) => Err(error),
    }
}

/// Delivers a message of this number in the net: a reply or an item to its agent, a request or a receipt to the active server.
fn deliver_message<R: Wait, S: Serving>(
    rt: &R,
    alloc: Global,
    world: &mut Cluster<S>,
    lines: &mut Vec<Seq<u8>>,
    place: u64,
    message: &Message,
) -> Result<(), AllocError>
    requires state { StandsOf S.kit any_state always world.old }
    requires fits { MessageFits message.now }
    ensures ok { OnOk result (DoesIf S.kit (StandsIn message.now) (delivered_by S.kit place
        message.now) world.old world.new lines.old.items lines.new.items) }
    ensures err { OnErr result (BreaksAloneIf S.kit (StandsIn message.now) world.old world.new) }
    ensures wild { OnOk result (KeepsWild S.kit (Posted message.now) world.old world.new) }
{
    if is_for_agent(message) {
        return deliver_to_agent(rt, alloc, world, lines, place, message);
    }
    if is_for_server(message) {
        return S::hear(alloc, world, lines, place, message);
    }
    Ok(())
}

/// Delivers what was fetched: a message to its agent or the active server; bytes that no message spells have no effect, whatever is
/// in hand.
fn deliver_fetched<R: Wait, S: Serving>(
    rt: &R,
    alloc: Global,
    world: &mut Cluster<S>,
    lines: &mut Vec<Seq<u8>>,
    place: u64,
    fetched: Fetched,
) -> Result<(), AllocError>
    requires state { StandsOf S.kit any_state always world.old }
    requires fetched { IsFetched place world.old.net (Some fetched) }
    ensures ok { OnOk result (Delivers S.kit place true world.old world.new lines.old.items
        lines.new.items) }
    ensures err { OnErr result (BreaksAlone S.kit world.old world.new) }
    ensures wild { OnOk result (KeepsWild S.kit always world.old world.new) }
{
    match fetched {
        Fetched::Whole { message } => {
            let done = deliver_message(rt, alloc, world, lines, place, &message);
            let_message_go(Some(message));
            done
        }
        Fetched::Bad { front, why } => put_ignored(alloc, lines, place, Why::Bad { front, why }),
    }
}

/// The same of what was fetched, if there is something.
fn deliver_found<R: Wait, S: Serving>(
    rt: &R,
    alloc: Global,
    world: &mut Cluster<S>,
    lines: &mut Vec<Seq<u8>>,
    place: u64,
    found: Option<Fetched>,
) -> Result<bool, AllocError>
    requires state { StandsOf S.kit any_state always world.old }
    requires fetched { IsFetched place world.old.net found }
    ensures ok { IfOk result (λ done. Delivers S.kit place done world.old world.new lines.old.items
        lines.new.items) }
    ensures err { OnErr result (BreaksAlone S.kit world.old world.new) }
    ensures wild { OnOk result (KeepsWild S.kit always world.old world.new) }
{
    match found {
        None => Ok(false),
        Some(fetched) => match deliver_fetched(rt, alloc, world, lines, place, fetched) {
            Ok(()) => Ok(true),
            Err(error) => Err(error),
        },
    }
}

/// Delivers the byte string of this number in the net, and answers whether there is one.
pub fn deliver<R: Wait, S: Serving>(
    rt: &R,
    alloc: Global,
    world: &mut Cluster<S>,
    lines: &mut Vec<Seq<u8>>,
    place: u64,
) -> Result<bool, AllocError>
    requires { StandsOf S.kit any_state always world.old }
    ensures ok { IfOk result (λ done. Delivers S.kit place done world.old world.new lines.old.items
        lines.new.items) }
    ensures err { OnErr result (BreaksAlone S.kit world.old world.new) }
    ensures wild { OnOk result (KeepsWild S.kit always world.old world.new) }
{
    match fetch(alloc, &world.net, place) {
        Ok(found) => deliver_found(rt, alloc, world, lines, place, found),
        Err(error) => Err(error),
    }
}
