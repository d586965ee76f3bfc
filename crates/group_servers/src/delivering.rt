//! Messages that reach servers beside the active one.
ghost use Rattle.std.specs.Prelude.{◌≡◌, ◌++◌, ℤ, IfOk, OnOk, OnErr};
ghost use Rattle.std.specs.List.{AllByRecursion};
ghost use Rattle.mirror.specs.Pairing.{CanReceive};
ghost use Rattle.cluster_rounds.specs.Worlds.{HasState};
ghost use Rattle.cluster_rounds.specs.Broken.{BreaksAlone};
ghost use Rattle.group_cluster.specs.Group.{mirror_group};
ghost use Rattle.lead_server.specs.Told.{Commits};
ghost use Rattle.group_servers.specs.Delivered.{CanTake, Hears, joined_lines, TellsDelivered, Comes, FirstComes, committed_now, every};
ghost use Rattle.group_servers.specs.GroupKit.{group_kit};
ghost use Rattle.group_servers.specs.Steps.{StepsBy};

use crate::seats::{any_goes, any_link, has_link};
use crate::{Group, Seat};
use ais_values::Seq;
use calls::{Entry, History, let_entry_go};
use cluster_events::ServerRole;
use cluster_rounds::Cluster;
use event_text::put_server;
use lead_server::{commit, send_all, take_first};
use mirror::{Heard, Node, Outcome};
use script_lines::Server;
use std::alloc::{AllocError, Global};
use wire::{Message, let_message_go, let_messages_go};

/// Adds the line of a server that joined.
fn put_joined(
    alloc: Global,
    lines: &mut Vec<Seq<u8>>,
    server: Server,
    outcome: Outcome,
) -> Result<(), AllocError>
    ensures { OnOk result (lines.new.items ≡ lines.old.items ++ joined_lines server outcome) }
{
    match outcome {
        Outcome::Joined => put_server(alloc, lines, server, ServerRole::Standby),
        _ => Ok(()),
    }
}

/// A server hears a message of the active one. Where 4,000,000,000 entries were accepted it answers as if memory ran out.
fn receive(alloc: Global, node: &mut Node, message: Message, now: i64) -> Result<Heard, AllocError>
    requires { (moment : ℤ) → CanReceive message moment node.old }
    ensures { IfOk result (λ heard. Hears message node.old heard node.new) }
{
    if !node.has_room() {
        let_message_go(Some(message));
        return Err(AllocError);
    }
    node.take_message(alloc, message, now)
}

/// Tells what a server heard: that it joined, and what it answers. Answers with the entry that it applied, if it did.
fn tell_delivered(
    alloc: Global,
    server: Server,
    back: &mut Seq<Message>,
    lines: &mut Vec<Seq<u8>>,
    heard: Heard,
) -> Result<Option<Entry>, AllocError>
    ensures { IfOk result (λ committed. TellsDelivered server heard committed back.old back.new
        lines.old.items lines.new.items) }
{
    let Heard {
        to_net,
        to_peer,
        committed,
        outcome,
    } = heard;
    let_messages_go(to_net);
    let told = match put_joined(alloc, lines, server, outcome) {
        Ok(()) => send_all(alloc, back, to_peer),
        Err(error) => {
            let_messages_go(to_peer);
            Err(error)
        }
    };
    match told {
        Ok(()) => Ok(committed),
        Err(error) => {
            let_entry_go(committed);
            Err(error)
        }
    }
}

/// Delivers the first message on the way to a server, if there is one. Answers with the entry that it applied, if it did.
pub(crate) fn deliver_to(
    alloc: Global,
    seat: &mut Seat,
    lines: &mut Vec<Seq<u8>>,
    now: i64,
) -> Result<Option<Option<Entry>>, AllocError>
    requires { CanTake seat.old }
    ensures { IfOk result (λ found. Comes found seat.old seat.new lines.old.items lines.new.items) }
{
    let message = match take_first(alloc, &mut seat.link) {
        Some(message) => message,
        None => return Ok(None),
    };
    match receive(alloc, &mut seat.node, message, now) {
        Ok(heard) => match tell_delivered(alloc, seat.server, &mut seat.back, lines, heard) {
            Ok(committed) => Ok(Some(committed)),
            Err(error) => Err(error),
        },
        Err(error) => Err(error),
    }
}

/// Delivers the first message on the way to the first server to which one is on the way. Answers with the entry that it applied, if it
/// did.
fn deliver_first(
    alloc: Global,
    seats: &mut [Seat],
    lines: &mut Vec<Seq<u8>>,
    now: i64,
) -> Result<Option<Option<Entry>>, AllocError>
    requires { AllByRecursion CanTake seats.old }
    ensures { IfOk result (λ found. FirstComes every found seats.old seats.new lines.old.items
        lines.new.items) }
{
    match seats.split_first_mut() {
        None => Ok(None),
        Some((first, rest)) => {
            if !has_link(first) {
                return deliver_first(alloc, rest, lines, now);
            }
            deliver_to(alloc, first, lines, now)
        }
    }
}

/// Commits an entry that a server applied, if it is on the way to no other one. Where memory runs out, or the history has 4,000,000,000
/// entries, the entries stay.
pub(crate) fn commit_applied(
    alloc: Global,
    history: &mut History,
    lines: &mut Vec<Seq<u8>>,
    goes: bool,
    committed: Option<Entry>,
) -> Result<(), AllocError>
    ensures ok { OnOk result (Commits (committed_now goes committed) history.old.entries
        history.new.entries lines.old.items lines.new.items) }
    ensures err { OnErr result (history.new.entries ≡ history.old.entries) }
{
    if goes {
        let_entry_go(committed);
        return Ok(());
    }
    match history.reserve() {
        Ok(()) => commit(alloc, history, lines, committed),
        Err(error) => {
            let_entry_go(committed);
            Err(error)
        }
    }
}

/// Delivers the first message on the way to a server, in their order, if there is one. Answers whether there was one. Where 4,000,000,000
/// entries were accepted it answers as if memory ran out.
pub(crate) fn mirror<const N: usize>(
    alloc: Global,
    world: &mut Cluster<Group<N>>,
    lines: &mut Vec<Seq<u8>>,
) -> Result<bool, AllocError>
    requires state { HasState (group_kit N) world.old }
    ensures ok { IfOk result (λ went. StepsBy N mirror_group went world.old world.new
        lines.old.items lines.new.items) }
    ensures err { OnErr result (BreaksAlone (group_kit N) world.old world.new) }
{
    // Most steps find nothing on the way, and this tells so without a message's room.
    if !any_link(&world.servers.seats) {
        return Ok(false);
    }
    let now = world.now;
    match deliver_first(alloc, &mut world.servers.seats, lines, now) {
        Ok(Some(committed)) => {
            let goes = any_goes(&world.servers.seats);
            match commit_applied(alloc, &mut world.history, lines, goes, committed) {
                Ok(()) => Ok(true),
                Err(error) => Err(error),
            }
        }
        Ok(None) => Ok(false),
        Err(error) => Err(error),
    }
}
