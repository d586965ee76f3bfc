//! The lines that tell how a fall ends. They are put before it, so that none is lost for want of memory, and those are taken away that tell
//! of another end.
ghost use Rattle.std.specs.Prelude.{◌≡◌, ◌+◌, ◌<◌, ◌≤◌, ◌++◌, OnOk, length};
ghost use Rattle.group_servers.specs.Lines.{role_lines, line_if, is_joining, takers, joiners, end_lines, TakesAway, TellsOver, TellsFallen};

use crate::Seat;
use crate::taking_over::takes;
use ais_values::Seq;
use cluster_events::ServerRole;
use event_text::put_server;
use mirror::Role;
use script_lines::Server;
use std::alloc::{AllocError, Global};
use std::mem;

/// Whether a server joins.
fn is_joining(seat: &Seat) -> bool
    ensures { result ≡ is_joining seat.now }
{
    match seat.node.role() {
        Role::Joining => true,
        _ => false,
    }
}

/// Adds the line of a server, if it is told.
fn put_if(
    alloc: Global,
    lines: &mut Vec<Seq<u8>>,
    told: bool,
    server: Server,
    role: ServerRole,
) -> Result<(), AllocError>
    ensures { OnOk result (lines.new.items ≡ lines.old.items ++ line_if told role server) }
{
    if told {
        return put_server(alloc, lines, server, role);
    }
    Ok(())
}

/// Adds a line for each server that may take over.
fn put_takers(
    alloc: Global,
    lines: &mut Vec<Seq<u8>>,
    seats: &[Seat],
    fresh: bool,
    role: ServerRole,
) -> Result<(), AllocError>
    ensures { OnOk result (lines.new.items ≡ lines.old.items ++ role_lines role (takers fresh
        seats.now)) }
{
    match seats.split_first() {
        None => Ok(()),
        Some((first, rest)) => {
            match put_if(alloc, lines, takes(fresh, first), first.server, role) {
                Ok(()) => put_takers(alloc, lines, rest, fresh, role),
                Err(error) => Err(error),
            }
        }
    }
}

/// Adds a line for each server that joins.
fn put_joiners(
    alloc: Global,
    lines: &mut Vec<Seq<u8>>,
    seats: &[Seat],
    role: ServerRole,
) -> Result<(), AllocError>
    ensures { OnOk result (lines.new.items ≡ lines.old.items ++ role_lines role (joiners
        seats.now)) }
{
    match seats.split_first() {
        None => Ok(()),
        Some((first, rest)) => {
            match put_if(alloc, lines, is_joining(first), first.server, role) {
                Ok(()) => put_joiners(alloc, lines, rest, role),
                Err(error) => Err(error),
            }
        }
    }
}

/// Adds all lines that may tell how a fall ends.
pub(crate) fn put_ends(
    alloc: Global,
    lines: &mut Vec<Seq<u8>>,
    acting: Server,
    seats: &[Seat],
    fresh: bool,
) -> Result<(), AllocError>
    ensures { OnOk result (lines.new.items ≡ lines.old.items ++ end_lines acting (takers fresh
        seats.now) (joiners seats.now)) }
{
    put_server(alloc, lines, acting, ServerRole::Down)?;
    put_takers(alloc, lines, seats, fresh, ServerRole::Down)?;
    put_takers(alloc, lines, seats, fresh, ServerRole::Active)?;
    put_joiners(alloc, lines, seats, ServerRole::Standby)
}

/// How many servers may take over.
pub(crate) fn count_takers(seats: &[Seat], fresh: bool) -> usize
    ensures is { result ≡ length (takers fresh seats.now) }
    ensures within { result ≤ length seats.now }
{
    match seats.split_first() {
        None => 0,
        Some((first, rest)) => {
            let others = count_takers(rest, fresh);
            if takes(fresh, first) {
                others + 1
            } else {
                others
            }
        }
    }
}

/// Takes so many lines away from this place on.
fn take_away(lines: &mut Vec<Seq<u8>>, at: usize, count: usize)
    requires { at + count ≤ length lines.old.items }
    ensures is { TakesAway at count lines.old.items lines.new.items }
    ensures long { length lines.new.items + count ≡ length lines.old.items }
{
    if count > 0 {
        mem::drop(lines.remove(at));
        take_away(lines, at, count - 1);
    }
}

/// Of the lines behind the first so many those stay that tell who took over: of so many servers that might so many were left that did not
/// try.
pub(crate) fn tell_over(lines: &mut Vec<Seq<u8>>, base: usize, count: usize, left: usize)
    requires some { left < count }
    requires lines { base + 1 + (count + count) ≤ length lines.old.items }
    ensures { TellsOver base count left lines.old.items lines.new.items }
{
    let active = base + (count - left);
    take_away(lines, active, count);
    take_away(lines, active + 1, left);
}

/// Of the lines behind the first so many those stay that tell that all failed.
pub(crate) fn tell_fallen(lines: &mut Vec<Seq<u8>>, base: usize, count: usize)
    requires { base + 1 + count ≤ length lines.old.items }
    ensures { TellsFallen base count lines.old.items lines.new.items }
{
    lines.truncate(base + 1 + count);
}
