//! The server that took over, and the others that join it.
ghost use Rattle.std.specs.Prelude.{◌≡◌, None, OnOk, IfSome};
ghost use Rattle.calls.specs.declared.saved.Saved.{Saved as SavedValue};
ghost use Rattle.wire.specs.declared.message.Message.TheVariants.{Snapshot};
ghost use Rattle.plain_service.specs.Fitness.{IsFit};
ghost use Rattle.mirror.specs.declared.heard.Role.TheVariants as role;
ghost use Rattle.mirror.specs.Replicas.{started};
ghost use Rattle.mirror.specs.Pairing.{alone};
ghost use Rattle.group_servers.specs.Rejoins.{rejoins, all_rejoin, Rejoins};
ghost use Rattle.group_servers.specs.Falls.{wayless, all_wayless, Exchanges};

use crate::Seat;
use crate::seats::any_up;
use calls::let_entry_go;
use lead_server::{clear, take_first};
use mirror::{Heard, Node, Role, let_heard_go, let_node_go};
use script_lines::Server;
use std::alloc::{AllocError, Global};
use std::mem;
use wire::{Message, let_message_go, let_messages_go};

/// Nothing is on the way to a server or back.
fn drop_way(alloc: Global, seat: &mut Seat)
    ensures { seat.new ≡ wayless seat.old }
{
    clear(alloc, &mut seat.link);
    clear(alloc, &mut seat.back);
}

/// Nothing is on the way to the servers or back.
pub(crate) fn drop_ways(alloc: Global, seats: &mut [Seat])
    ensures { seats.new ≡ all_wayless seats.old }
{
    match seats.split_first_mut() {
        None => {}
        Some((first, rest)) => {
            drop_way(alloc, first);
            drop_ways(alloc, rest);
        }
    }
}

/// The server at a place and the active one change places. Answers the name of the active one from then on.
pub(crate) fn exchange(
    seats: &mut [Seat],
    place: usize,
    active: &mut Node,
    acting: Server,
) -> Server
    ensures { Exchanges place seats.old seats.new active.old active.new acting result }
{
    match seats.split_first_mut() {
        None => acting,
        Some((first, rest)) => {
            if place == 0 {
                mem::swap(&mut first.node, active);
                first.server
            } else {
                exchange(rest, place - 1, active, acting)
            }
        }
    }
}

/// A server that is not down gets the value of the service, and is standby with nothing on the way.
fn rejoin_one(
    alloc: Global,
    seat: &mut Seat,
    snapshot: &Message,
    now: i64,
) -> Result<(), AllocError>
    requires { (saved : SavedValue) × (snapshot.now ≡ Snapshot saved) × IsFit saved }
    ensures { (saved : SavedValue) → snapshot.now ≡ Snapshot saved →
        OnOk result (seat.new ≡ rejoins (alone (started role.Standby saved)) seat.old) }
{
    match seat.node.role() {
        Role::Down => return Ok(()),
        _ => {}
    }
    let mut node = Node::joining(alloc);
    match node.receive(alloc, snapshot, now) {
        Ok(heard) => {
            let_heard_go(heard);
            let_node_go(mem::replace(&mut seat.node, node));
            drop_way(alloc, seat);
            Ok(())
        }
        Err(error) => {
            let_node_go(node);
            Err(error)
        }
    }
}

/// Each server that is not down gets the value of the service.
fn rejoin_all(
    alloc: Global,
    seats: &mut [Seat],
    snapshot: &Message,
    now: i64,
) -> Result<(), AllocError>
    requires { (saved : SavedValue) × (snapshot.now ≡ Snapshot saved) × IsFit saved }
    ensures { (saved : SavedValue) → snapshot.now ≡ Snapshot saved →
        OnOk result (seats.new ≡ all_rejoin (alone (started role.Standby saved)) seats.old) }
{
    match seats.split_first_mut() {
        None => Ok(()),
        Some((first, rest)) => match rejoin_one(alloc, first, snapshot, now) {
            Ok(()) => rejoin_all(alloc, rest, snapshot, now),
            Err(error) => Err(error),
        },
    }
}

/// The server that took over leads the others that are not down, if there are some: they get the value of its service.
pub(crate) fn rejoin(
    alloc: Global,
    active: &mut Node,
    seats: &mut [Seat],
    now: i64,
) -> Result<(), AllocError>
    requires idle { active.old.replica.owed ≡ None }
    requires role { active.old.replica.role ≡ role.Active }
    requires fit { IfSome active.old.replica.service IsFit }
    ensures { OnOk result (Rejoins active.old active.new seats.old seats.new) }
{
    if !any_up(seats) {
        return Ok(());
    }
    match active.begin_join(alloc) {
        Ok(heard) => {
            let Heard {
                to_net,
                mut to_peer,
                committed,
                ..
            } = heard;
            let_messages_go(to_net);
            let_entry_go(committed);
            let first = take_first(alloc, &mut to_peer);
            let_messages_go(to_peer);
            match first {
                None => Ok(()),
                Some(snapshot) => {
                    let joined = rejoin_all(alloc, seats, &snapshot, now);
                    let_message_go(Some(snapshot));
                    joined
                }
            }
        }
        Err(error) => Err(error),
    }
}
