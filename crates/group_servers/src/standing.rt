//! The servers' roles and names, and refusals.
ghost use Rattle.std.specs.Prelude.{◌≡◌, nat_le, length, OnOk, OnErr};
ghost use Rattle.cluster_rounds.specs.Worlds.{Does};
ghost use Rattle.group_servers.specs.GroupKit.{group_kit};
ghost use Rattle.group_servers.specs.Steps.{refused_by};
ghost use Rattle.group_servers.specs.Standing.{role_at, role_in, roles_in, links_of, backs_of, standing_as};

use crate::seats::same_server;
use crate::{Group, Seat};
use ais_values::Seq;
use cluster_events::{Roles, ServerRole, Standing};
use cluster_rounds::Cluster;
use event_text::put_refused;
use lead_server::role_shown;
use mirror::Role;
use script_lines::{Line, Server};
use std::alloc::{AllocError, Global};

/// The role of the server of this name beside the active one.
fn role_at(seats: &[Seat], server: Server) -> Role
    ensures { result ≡ role_at server seats.now }
{
    match seats.split_first() {
        None => Role::Down,
        Some((first, rest)) => {
            if same_server(server, first.server) {
                first.node.role()
            } else {
                role_at(rest, server)
            }
        }
    }
}

/// The role of a server.
fn role_of<const N: usize>(servers: &Group<N>, server: Server) -> ServerRole
    ensures { result ≡ role_in server servers.now }
{
    if same_server(server, servers.acting) {
        return role_shown(servers.armed, servers.active.role());
    }
    role_shown(servers.armed, role_at(&servers.seats, server))
}

/// Whether there is a third server.
fn has_third(seats: &[Seat]) -> bool
    ensures { result ≡ nat_le 3 (length seats.now) }
{
    seats.len() >= 3
}

/// The roles of all servers.
fn roles_of<const N: usize>(servers: &Group<N>) -> Roles
    ensures { result ≡ roles_in servers.now }
{
    let a = role_of(servers, Server::A);
    let b = role_of(servers, Server::B);
    if has_third(&servers.seats) {
        let c = role_of(servers, Server::C);
        return Roles::Three { a, b, c };
    }
    Roles::Two { a, b }
}

/// How many messages are on the way to the servers; no more than a number can tell.
fn links_of(seats: &[Seat]) -> u64
    ensures { result ≡ links_of seats.now }
{
    match seats.split_first() {
        None => 0,
        Some((first, rest)) => (first.link.as_slice().len() as u64).saturating_add(links_of(rest)),
    }
}

/// How many are on the way back.
fn backs_of(seats: &[Seat]) -> u64
    ensures { result ≡ backs_of seats.now }
{
    match seats.split_first() {
        None => 0,
        Some((first, rest)) => (first.back.as_slice().len() as u64).saturating_add(backs_of(rest)),
    }
}

/// The servers' roles and the lengths of the lists of messages.
pub fn standing_of<const N: usize>(world: &Cluster<Group<N>>) -> Standing
    ensures { result ≡ standing_as world.entry.now }
{
    Standing {
        roles: roles_of(&world.servers),
        net: world.net.len(),
        link: links_of(&world.servers.seats),
        back: backs_of(&world.servers.seats),
        in_hand: world.servers.active.in_hand(),
    }
}

/// Adds the line of a refused event. Where memory runs out the lines stay.
pub fn refused<const N: usize>(
    alloc: Global,
    world: &Cluster<Group<N>>,
    lines: &mut Vec<Seq<u8>>,
    line: &Line,
) -> Result<(), AllocError>
    ensures ok { OnOk result (Does (group_kit N) (refused_by N line.now) world.entry.now
        world.entry.now lines.old.items lines.new.items) }
    ensures err { OnErr result (lines.new.items ≡ lines.old.items) }
{
    let standing = standing_of(world);
    put_refused(alloc, lines, line, &standing)
}
