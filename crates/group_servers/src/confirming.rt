//! Messages that come back to the active server.
ghost use Rattle.std.specs.Prelude.{ℕ, ℤ, List, IfOk, OnOk, OnErr};
ghost use Rattle.cluster_rounds.specs.Worlds.{HasState};
ghost use Rattle.cluster_rounds.specs.Broken.{BreaksAlone};
ghost use Rattle.group_cluster.specs.Group.{ack_group};
ghost use Rattle.mirror.specs.Pairing.{CanReceive};
ghost use Rattle.group_servers.specs.Delivered.{TakesBack, ConfirmsLast, every};
ghost use Rattle.group_servers.specs.GroupKit.{group_kit};
ghost use Rattle.group_servers.specs.Steps.{StepsBy};

use crate::seats::{any_back, has_back, is_last};
use crate::{Group, Seat};
use cluster_rounds::Cluster;
use lead_server::{confirm, take_first};
use mirror::Node;
use std::alloc::{AllocError, Global};
use wire::{Message, let_message_go};

/// Takes the first message on the way back from the first server from which one is, if there is one.
fn take_back(alloc: Global, seats: &mut [Seat]) -> Option<Message>
    ensures { TakesBack every result seats.old seats.new }
{
    match seats.split_first_mut() {
        None => None,
        Some((first, rest)) => {
            if !has_back(first) {
                return take_back(alloc, rest);
            }
            take_first(alloc, &mut first.back)
        }
    }
}

/// The active server hears a message that came back where that is the last confirmation of the entry in hand. Of others it needs to know
/// nothing.
pub(crate) fn confirm_last(
    alloc: Global,
    active: &mut Node,
    seats: &[Seat],
    message: &Message,
    now: i64,
) -> Result<(), AllocError>
    requires { (moment : ℤ) → CanReceive message.now moment active.old }
    ensures { OnOk result (ConfirmsLast message.now seats.now active.old active.new) }
{
    if is_last(message, seats) {
        return confirm(alloc, active, message, now);
    }
    Ok(())
}

/// Delivers the first message on the way back from a server, in their order, if there is one. Answers whether there was one. Where
/// 4,000,000,000 entries were accepted it answers as if memory ran out.
pub(crate) fn ack<const N: usize>(
    alloc: Global,
    world: &mut Cluster<Group<N>>,
) -> Result<bool, AllocError>
    requires state { HasState (group_kit N) world.old }
    ensures ok { IfOk result (λ went. (lines : List (List ℕ)) →
        StepsBy N ack_group went world.old world.new lines lines) }
    ensures err { OnErr result (BreaksAlone (group_kit N) world.old world.new) }
{
    // Most steps find nothing on the way, and this tells so without a message's room.
    if !any_back(&world.servers.seats) {
        return Ok(false);
    }
    let message = match take_back(alloc, &mut world.servers.seats) {
        Some(message) => message,
        None => return Ok(false),
    };
    let now = world.now;
    let confirmed = confirm_last(
        alloc,
        &mut world.servers.active,
        &world.servers.seats,
        &message,
        now,
    );
    let_message_go(Some(message));
    match confirmed {
        Ok(()) => Ok(true),
        Err(error) => Err(error),
    }
}
