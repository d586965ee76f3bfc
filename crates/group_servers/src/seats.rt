//! What servers beside the active one are, and what is on the way to them.
ghost use Rattle.std.specs.Prelude.{◌≡◌, ◌&&◌, ◌||◌, not, List};
ghost use Rattle.std.specs.List.{list_any};
ghost use Rattle.group_servers.specs.Parted.{is_down_at, is_up_one, is_standby_other};
ghost use Rattle.group_cluster.specs.Seats.{same_server};
ghost use Rattle.group_servers.specs.Seats.{has_link, has_back, is_entry, is_confirmation, entry_goes, confirms, goes_to, stands_by};
ghost use Rattle.group_servers.specs.Seats.{is_fresh, has_applied, is_up, still_waits, is_last, catches};

use crate::Seat;
use lead_server::{is_down, is_standby};
use mirror::Role;
use script_lines::Server;
use wire::Message;

/// Whether two servers are one.
pub(crate) fn same_server(one: Server, other: Server) -> bool
    ensures { result ≡ same_server one other }
{
    match one {
        Server::A => match other {
            Server::A => true,
            Server::B => false,
            Server::C => false,
        },
        Server::B => match other {
            Server::A => false,
            Server::B => true,
            Server::C => false,
        },
        Server::C => match other {
            Server::A => false,
            Server::B => false,
            Server::C => true,
        },
    }
}

/// Whether a message is on the way to a server.
pub(crate) fn has_link(seat: &Seat) -> bool
    ensures { result ≡ has_link seat.now }
{
    !seat.link.as_slice().is_empty()
}

/// Whether a message is on the way to some server.
pub(crate) fn any_link(seats: &[Seat]) -> bool
    ensures { result ≡ list_any has_link seats.now }
{
    seats.iter().any(|seat| has_link(seat))
}

/// Whether a message is on the way back from a server.
pub(crate) fn has_back(seat: &Seat) -> bool
    ensures { result ≡ has_back seat.now }
{
    !seat.back.as_slice().is_empty()
}

/// Whether a message is on the way back from some server.
pub(crate) fn any_back(seats: &[Seat]) -> bool
    ensures { result ≡ list_any has_back seats.now }
{
    seats.iter().any(|seat| has_back(seat))
}

/// Whether a message brings an entry.
fn is_entry(message: &Message) -> bool
    ensures { result ≡ is_entry message.now }
{
    matches!(message, Message::Mirror { .. })
}

/// Whether a message confirms that an entry was applied.
fn is_confirmation(message: &Message) -> bool
    ensures { result ≡ is_confirmation message.now }
{
    matches!(message, Message::MirrorAck { .. })
}

/// Whether an entry is on the way to a server.
fn entry_goes(seat: &Seat) -> bool
    ensures { result ≡ entry_goes seat.now }
{
    seat.link.as_slice().iter().any(|message| is_entry(message))
}

/// Whether an entry is on the way to some server.
pub(crate) fn any_goes(seats: &[Seat]) -> bool
    ensures { result ≡ list_any entry_goes seats.now }
{
    seats.iter().any(|seat| entry_goes(seat))
}

/// Whether the confirmation of an entry is on the way back from a server.
fn confirms(seat: &Seat) -> bool
    ensures { result ≡ confirms seat.now }
{
    seat.back
        .as_slice()
        .iter()
        .any(|message| is_confirmation(message))
}

/// Whether the confirmation of an entry is on the way back from some server.
fn any_confirms(seats: &[Seat]) -> bool
    ensures { result ≡ list_any confirms seats.now }
{
    seats.iter().any(|seat| confirms(seat))
}

/// Whether an entry or a confirmation of it is on the way between the active server and another one.
pub(crate) fn still_waits(seats: &[Seat]) -> bool
    ensures { result ≡ still_waits seats.now }
{
    any_goes(seats) || any_confirms(seats)
}

/// Whether a message confirms an entry, and neither the entry nor another confirmation of it is on the way.
pub(crate) fn is_last(message: &Message, seats: &[Seat]) -> bool
    ensures { result ≡ is_last message.now seats.now }
{
    is_confirmation(message) && !still_waits(seats)
}

/// Whether entries go to a server: it is standby, or the value of the service is on the way to it.
pub(crate) fn goes_to(seat: &Seat) -> bool
    ensures { result ≡ goes_to seat.now }
{
    match seat.node.role() {
        Role::Standby => true,
        Role::Joining => !seat.link.as_slice().is_empty(),
        _ => false,
    }
}

/// Whether entries go to some server.
pub(crate) fn any_linked(seats: &[Seat]) -> bool
    ensures { result ≡ list_any goes_to seats.now }
{
    seats.iter().any(|seat| goes_to(seat))
}

/// Whether a server is standby.
fn stands_by(seat: &Seat) -> bool
    ensures { result ≡ stands_by seat.now }
{
    is_standby(&seat.node)
}

/// Whether some server is standby.
pub(crate) fn any_standby(seats: &[Seat]) -> bool
    ensures { result ≡ list_any stands_by seats.now }
{
    seats.iter().any(|seat| stands_by(seat))
}

/// Whether a server is standby and has applied no entry since it started or joined.
fn is_fresh(seat: &Seat) -> bool
    ensures { result ≡ is_fresh seat.now }
{
    is_standby(&seat.node) && !seat.node.keeps()
}

/// Whether some server is so.
pub(crate) fn any_fresh(seats: &[Seat]) -> bool
    ensures { result ≡ list_any is_fresh seats.now }
{
    seats.iter().any(|seat| is_fresh(seat))
}

/// Whether a server is standby, and no entry is on the way to it.
fn has_applied(seat: &Seat) -> bool
    ensures { result ≡ has_applied seat.now }
{
    is_standby(&seat.node) && !entry_goes(seat)
}

/// Whether some server is so.
fn any_applied(seats: &[Seat]) -> bool
    ensures { result ≡ list_any has_applied seats.now }
{
    seats.iter().any(|seat| has_applied(seat))
}

/// Whether an entry is on the way to some server, and a standby has it already.
pub(crate) fn catches(seats: &[Seat]) -> bool
    ensures { result ≡ catches seats.now }
{
    any_goes(seats) && any_applied(seats)
}

/// Whether a server is not down.
fn is_up(seat: &Seat) -> bool
    ensures { result ≡ is_up seat.now }
{
    !is_down(&seat.node)
}

/// Whether some server is not down.
pub(crate) fn any_up(seats: &[Seat]) -> bool
    ensures { result ≡ list_any is_up seats.now }
{
    seats.iter().any(|seat| is_up(seat))
}

/// Whether the server of this name is not down.
pub(crate) fn is_up_at(seats: &[Seat], server: Server) -> bool
    ensures { result ≡ list_any (is_up_one server) seats.now }
{
    seats.iter().any(|seat| is_up_one(server, seat))
}

/// Whether a server has this name and is not down.
fn is_up_one(server: Server, seat: &Seat) -> bool
    ensures { result ≡ is_up_one server seat.now }
{
    same_server(server, seat.server) && is_up(seat)
}

/// Whether the server of this name is there, and down.
pub(crate) fn is_down_at(seats: &[Seat], server: Server) -> bool
    ensures { result ≡ is_down_at server seats.now }
{
    match seats.split_first() {
        None => false,
        Some((first, rest)) => {
            if same_server(server, first.server) {
                !is_up(first)
            } else {
                is_down_at(rest, server)
            }
        }
    }
}

/// Whether a server is standby and has not this name.
fn is_standby_other(server: Server, seat: &Seat) -> bool
    ensures { result ≡ is_standby_other server seat.now }
{
    stands_by(seat) && !same_server(server, seat.server)
}

/// Whether some server of another name is standby.
pub(crate) fn any_other_standby(seats: &[Seat], server: Server) -> bool
    ensures { result ≡ list_any (is_standby_other server) seats.now }
{
    seats.iter().any(|seat| is_standby_other(server, seat))
}
