//! Standbys that apply the entry in hand as the active server goes down, where another one has it.
ghost use Rattle.std.specs.Prelude.{◌≡◌, ◌≤◌, ◌++◌, true, OnOk};
ghost use Rattle.std.specs.Option.{option_to_list};
ghost use Rattle.std.specs.List.{AllByRecursion};
ghost use Rattle.group_servers.specs.Caught.{CanCatch, Catches, AllCatch, CatchesIf, PutsCaught, taken_if};

use crate::Seat;
use ais_values::Seq;
use calls::{Entry, History};
use lead_server::{put_waiting, take_first};
use mirror::{Node, Role, let_heard_go};
use std::alloc::{AllocError, Global};
use wire::let_message_go;

/// A standby to which an entry goes applies it. Where memory runs out, or 4,000,000,000 entries were accepted, nothing is said of it.
fn catch_one(alloc: Global, seat: &mut Seat, now: i64) -> Result<(), AllocError>
    requires { CanCatch seat.old }
    ensures { OnOk result (Catches seat.old seat.new) }
{
    match seat.node.role() {
        Role::Standby => {}
        _ => return Ok(()),
    }
    let message = match take_first(alloc, &mut seat.link) {
        Some(message) => message,
        None => return Ok(()),
    };
    if !seat.node.has_room() {
        let_message_go(Some(message));
        return Err(AllocError);
    }
    let received = seat.node.receive(alloc, &message, now);
    let_message_go(Some(message));
    match received {
        Ok(heard) => {
            let_heard_go(heard);
            Ok(())
        }
        Err(error) => Err(error),
    }
}

/// Each standby to which an entry goes applies it.
fn catch_up(alloc: Global, seats: &mut [Seat], now: i64) -> Result<(), AllocError>
    requires { AllByRecursion CanCatch seats.old }
    ensures { OnOk result (AllCatch seats.old seats.new) }
{
    match seats.split_first_mut() {
        None => Ok(()),
        Some((first, rest)) => match catch_one(alloc, first, now) {
            Ok(()) => catch_up(alloc, rest, now),
            Err(error) => Err(error),
        },
    }
}

/// The same, if they do.
pub(crate) fn catch_if(
    alloc: Global,
    catching: bool,
    seats: &mut [Seat],
    now: i64,
) -> Result<(), AllocError>
    requires { catching ≡ true → AllByRecursion CanCatch seats.old }
    ensures { OnOk result (CatchesIf catching seats.old seats.new) }
{
    if catching {
        return catch_up(alloc, seats, now);
    }
    Ok(())
}

/// Adds the line of the entry in hand, if it is committed as the active server goes down: the history has so many entries.
pub(crate) fn put_caught(
    alloc: Global,
    catching: bool,
    lines: &mut Vec<Seq<u8>>,
    active: &Node,
    entries: u64,
) -> Result<(), AllocError>
    ensures { OnOk result (PutsCaught catching active.now entries lines.old.items
        lines.new.items) }
{
    if catching {
        return match put_waiting(alloc, lines, active, entries) {
            Ok(_) => Ok(()),
            Err(error) => Err(error),
        };
    }
    Ok(())
}

/// Takes the entry that waits, if it is committed.
pub(crate) fn take_caught(catching: bool, active: &mut Node) -> Option<Entry>
    ensures { result ≡ taken_if catching active.old.waits }
{
    if catching {
        return active.take_waiting();
    }
    None
}

/// Adds an entry to the history, if there is one.
pub(crate) fn push_caught(history: &mut History, caught: Option<Entry>)
    requires { 1 ≤ history.old.spare }
    ensures { history.new.entries ≡ option_to_list caught ++ history.old.entries }
{
    match caught {
        None => {}
        Some(entry) => history.push(entry),
    }
}
