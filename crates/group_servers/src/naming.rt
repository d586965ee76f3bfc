//! Messages to one server by its name, and from it.
ghost use Rattle.std.specs.Prelude.{ℕ, List, IfOk, OnErr};
ghost use Rattle.std.specs.List.{AllByRecursion};
ghost use Rattle.cluster_rounds.specs.Broken.{BreaksAlone};
ghost use Rattle.cluster_rounds.specs.Worlds.{HasState};
ghost use Rattle.group_cluster.specs.Group.{ack_at, mirror_at};
ghost use Rattle.group_cluster.specs.Seats.{same_server};
ghost use Rattle.group_servers.specs.Delivered.{CanTake, FirstComes, TakesBack};
ghost use Rattle.group_servers.specs.GroupKit.{group_kit};
ghost use Rattle.group_servers.specs.Steps.{StepsBy};

use crate::confirming::confirm_last;
use crate::delivering::{commit_applied, deliver_to};
use crate::seats::{any_goes, same_server};
use crate::{Group, Seat};
use ais_values::Seq;
use calls::Entry;
use cluster_rounds::Cluster;
use lead_server::take_first;
use script_lines::Server;
use std::alloc::{AllocError, Global};
use wire::{Message, let_message_go};

/// Delivers the first message on the way to the server of this name, if there is one. Answers with the entry that it applied, if it did.
fn deliver_named(
    alloc: Global,
    seats: &mut [Seat],
    server: Server,
    lines: &mut Vec<Seq<u8>>,
    now: i64,
) -> Result<Option<Option<Entry>>, AllocError>
    requires { AllByRecursion CanTake seats.old }
    ensures { IfOk result (λ found. FirstComes (same_server server) found seats.old seats.new
        lines.old.items lines.new.items) }
{
    match seats.split_first_mut() {
        None => Ok(None),
        Some((first, rest)) => {
            if !same_server(server, first.server) {
                return deliver_named(alloc, rest, server, lines, now);
            }
            match deliver_to(alloc, first, lines, now) {
                Ok(None) => deliver_named(alloc, rest, server, lines, now),
                Ok(Some(committed)) => Ok(Some(committed)),
                Err(error) => Err(error),
            }
        }
    }
}

/// Delivers the first message on the way to the server of this name, if there is one. Answers whether there was one. On an error some of it
/// was done: where memory ran out, or where 4,000,000,000 entries were accepted.
pub fn mirror_at<const N: usize>(
    alloc: Global,
    world: &mut Cluster<Group<N>>,
    lines: &mut Vec<Seq<u8>>,
    server: Server,
) -> Result<bool, AllocError>
    requires state { HasState (group_kit N) world.old }
    ensures ok { IfOk result (λ went. StepsBy N (mirror_at server) went world.old world.new
        lines.old.items lines.new.items) }
    ensures err { OnErr result (BreaksAlone (group_kit N) world.old world.new) }
{
    let now = world.now;
    match deliver_named(alloc, &mut world.servers.seats, server, lines, now) {
        Ok(Some(committed)) => {
            let goes = any_goes(&world.servers.seats);
            match commit_applied(alloc, &mut world.history, lines, goes, committed) {
                Ok(()) => Ok(true),
                Err(error) => Err(error),
            }
        }
        Ok(None) => Ok(false),
        Err(error) => Err(error),
    }
}

/// Takes the first message on the way back from the server of this name, if there is one.
fn take_named(alloc: Global, seats: &mut [Seat], server: Server) -> Option<Message>
    ensures { TakesBack (same_server server) result seats.old seats.new }
{
    match seats.split_first_mut() {
        None => None,
        Some((first, rest)) => {
            if !same_server(server, first.server) {
                return take_named(alloc, rest, server);
            }
            match take_first(alloc, &mut first.back) {
                Some(message) => Some(message),
                None => take_named(alloc, rest, server),
            }
        }
    }
}

/// Delivers the first message on the way back from the server of this name, if there is one. Answers whether there was one. On an error some
/// of it was done: where memory ran out, or where 4,000,000,000 entries were accepted.
pub fn ack_at<const N: usize>(
    alloc: Global,
    world: &mut Cluster<Group<N>>,
    server: Server,
) -> Result<bool, AllocError>
    requires state { HasState (group_kit N) world.old }
    ensures ok { IfOk result (λ went. (lines : List (List ℕ)) →
        StepsBy N (ack_at server) went world.old world.new lines lines) }
    ensures err { OnErr result (BreaksAlone (group_kit N) world.old world.new) }
{
    let message = match take_named(alloc, &mut world.servers.seats, server) {
        Some(message) => message,
        None => return Ok(false),
    };
    let now = world.now;
    let confirmed = confirm_last(
        alloc,
        &mut world.servers.active,
        &world.servers.seats,
        &message,
        now,
    );
    let_message_go(Some(message));
    match confirmed {
        Ok(()) => Ok(true),
        Err(error) => Err(error),
    }
}
