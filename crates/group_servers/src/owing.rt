//! Servers that join, to which the value of the service is owed.
ghost use Rattle.std.specs.Prelude.{◌≡◌, None, OnOk, length};
ghost use Rattle.std.specs.List.{list_any};
ghost use Rattle.mirror.specs.declared.heard.Role.TheVariants.{Active};
ghost use Rattle.group_servers.specs.Owing.{is_owed, LinksOne, LinksAll};

use crate::Seat;
use calls::let_entry_go;
use lead_server::send_all;
use mirror::{Heard, Node, Role};
use std::alloc::{AllocError, Global};
use wire::let_messages_go;

/// Whether the value of the service is owed to a server: it joins, and nothing is on the way to it.
fn is_owed(seat: &Seat) -> bool
    ensures { result ≡ is_owed seat.now }
{
    match seat.node.role() {
        Role::Joining => seat.link.as_slice().is_empty(),
        _ => false,
    }
}

/// A server gets what is owed to it, if something is: the active one has nothing in hand.
fn link_one(alloc: Global, active: &mut Node, seat: &mut Seat) -> Result<(), AllocError>
    requires idle { active.old.replica.owed ≡ None }
    requires role { active.old.replica.role ≡ Active }
    ensures { OnOk result (LinksOne seat.old seat.new active.old active.new) }
{
    if !is_owed(seat) {
        return Ok(());
    }
    match active.begin_join(alloc) {
        Ok(heard) => {
            let Heard {
                to_net,
                to_peer,
                committed,
                ..
            } = heard;
            let_messages_go(to_net);
            let_entry_go(committed);
            send_all(alloc, &mut seat.link, to_peer)
        }
        Err(error) => Err(error),
    }
}

/// Each server gets what is owed to it.
fn link_each(alloc: Global, active: &mut Node, seats: &mut [Seat]) -> Result<(), AllocError>
    requires idle { active.old.replica.owed ≡ None }
    requires role { active.old.replica.role ≡ Active }
    ensures { OnOk result (LinksAll seats.old seats.new active.old active.new) }
{
    match seats.split_first_mut() {
        None => Ok(()),
        Some((first, rest)) => match link_one(alloc, active, first) {
            Ok(()) => link_each(alloc, active, rest),
            Err(error) => Err(error),
        },
    }
}

/// Whether the value of the service is owed to some server.
fn any_owed(seats: &[Seat]) -> bool
    ensures { result ≡ list_any is_owed seats.now }
{
    seats.iter().any(|seat| is_owed(seat))
}

/// Each server gets what is owed to it.
pub(crate) fn link_all(
    alloc: Global,
    active: &mut Node,
    seats: &mut [Seat],
) -> Result<(), AllocError>
    requires idle { active.old.replica.owed ≡ None }
    requires role { active.old.replica.role ≡ Active }
    ensures { OnOk result (LinksAll seats.old seats.new active.old active.new) }
{
    // Seldom one joins, and this tells so without the room of what it gets.
    if !any_owed(seats) {
        return Ok(());
    }
    link_each(alloc, active, seats)
}
