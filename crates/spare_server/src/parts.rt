//! A world that is taken apart for an event, by who is active, and put together again, without memory.
ghost use Rattle.std.specs.Prelude.{◌≡◌, ℕ, List, OnOk, IfErr};
ghost use Rattle.std.specs.Result.{is_ok};
ghost use Rattle.cluster_lines.specs.Playing.{LooksBy};
ghost use Rattle.cluster_rounds.specs.Counted.{Counted};
ghost use Rattle.group_servers.specs.GroupKit.{group_kit};
ghost use Rattle.mirror.specs.Replicas.{down};
ghost use Rattle.mirror.specs.Pairing.{alone};
ghost use Rattle.trio_lines.specs.Lines.{SpellsTrio};
ghost use Rattle.played_runs.specs.Games.{HasState};
ghost use Rattle.spare_server.specs.Game.{trio_game};
ghost use Rattle.spare_server.specs.Happening.{group_line};
ghost use Rattle.spare_server.specs.Parts.{acting_in, first_seat, is_active, second_seat, third_seat, whole_of};
ghost use Rattle.spare_server.specs.Parts.{PlaysWhole, BreaksWhole};
ghost use Rattle.spare_server.specs.Playing.{IsTrioEvent};
ghost use Rattle.spare_server.specs.Worlds.{node_of, parts_of, with_node};

use crate::TrioWorld;
use crate::lines::play_line;
use ais_values::Seq;
use callback_dispatch::Gate;
use calls::History;
use cluster_rounds::Cluster;
use disk_model::{DiskAnswer, SharedDisk};
use group_servers::{Group, Seat};
use message_net::Net;
use mirror::{Node, Role, let_node_go};
use script_lines::Server;
use std::alloc::Global;
use std::mem;
use std::sync::Wait;
use std::thread::Threads;
use trio_lines::TrioLine;
use wire::Message;

/// Whether a server is active.
fn is_active(node: &Node) -> bool
    ensures { result ≡ is_active node.now.replica.role }
{
    matches!(node.role(), Role::Active)
}

/// Which server is active: `b` or `c` where it has that role, and `a` otherwise.
fn acting_in(world: &TrioWorld) -> Server
    ensures { result ≡ acting_in world.entry.now }
{
    if is_active(&world.b) {
        return Server::B;
    }
    if is_active(&world.c) {
        return Server::C;
    }
    Server::A
}

/// Takes the server of a name out of a world, and leaves one there that is down.
fn take_node(world: &mut TrioWorld, server: Server) -> Node
    ensures node { result ≡ node_of server world.old }
    ensures world { world.new ≡ with_node server (alone down) world.old }
{
    match server {
        Server::A => mem::replace(&mut world.a, Node::down()),
        Server::B => mem::replace(&mut world.b, Node::down()),
        Server::C => mem::replace(&mut world.c, Node::down()),
    }
}

/// The world with this server under its name. The one that was there is let go.
fn put_node(world: TrioWorld, server: Server, node: Node) -> TrioWorld
    ensures { result ≡ with_node server node world }
{
    let mut whole = world;
    let before = match server {
        Server::A => mem::replace(&mut whole.a, node),
        Server::B => mem::replace(&mut whole.b, node),
        Server::C => mem::replace(&mut whole.c, node),
    };
    let_node_go(before);
    whole
}

/// Takes the parts of a server's seat.
fn take_seat(
    alloc: Global,
    server: Server,
    node: &mut Node,
    link: &mut Seq<Message>,
    back: &mut Seq<Message>,
) -> Seat
    ensures { result ≡ record {
      server = server;
      node = node.old;
      link = link.old;
      back = back.old;
    } }
{
    Seat {
        server,
        node: mem::replace(node, Node::down()),
        link: mem::replace(link, Seq::new(alloc)),
        back: mem::replace(back, Seq::new(alloc)),
    }
}

/// Takes the parts out of a world.
fn take_parts(alloc: Global, world: &mut TrioWorld) -> Cluster<Group<3>>
    ensures { result ≡ parts_of (acting_in world.old) world.old }
{
    let acting = acting_in(world);
    let active = take_node(world, acting);
    let seats = [
        take_seat(
            alloc,
            Server::A,
            &mut world.a,
            &mut world.link_a,
            &mut world.back_a,
        ),
        take_seat(
            alloc,
            Server::B,
            &mut world.b,
            &mut world.link_b,
            &mut world.back_b,
        ),
        take_seat(
            alloc,
            Server::C,
            &mut world.c,
            &mut world.link_c,
            &mut world.back_c,
        ),
    ];
    let servers = Group {
        acting,
        active,
        seats,
        armed: world.armed,
    };
    Cluster {
        servers,
        net: mem::replace(&mut world.net, Net::new(alloc)),
        agents: mem::replace(&mut world.agents, Seq::new(alloc)),
        history: mem::replace(&mut world.history, History::new(alloc)),
        now: world.now,
        callbacks: world.callbacks,
    }
}

/// What a seat has.
fn seat_parts(seat: Seat) -> (Node, Seq<Message>, Seq<Message>)
    ensures { result ≡ (seat.node, seat.link, seat.back) }
{
    let Seat {
        server: _,
        node,
        link,
        back,
    } = seat;
    (node, link, back)
}

/// Three seats in their order.
fn in_order(seats: [Seat; 3]) -> (Seat, Seat, Seat)
    ensures { result ≡ (first_seat seats, second_seat seats, third_seat seats) }
{
    let [one, other, third] = seats;
    (one, other, third)
}

/// What each of three seats has, in their order.
fn three_parts(
    seats: [Seat; 3],
) -> (
    (Node, Seq<Message>, Seq<Message>),
    (Node, Seq<Message>, Seq<Message>),
    (Node, Seq<Message>, Seq<Message>),
)
    ensures { result ≡ (
      ((first_seat seats).node, (first_seat seats).link, (first_seat seats).back),
      ((second_seat seats).node, (second_seat seats).link, (second_seat seats).back),
      ((third_seat seats).node, (third_seat seats).link, (third_seat seats).back),
    ) }
{
    let (one, other, last) = in_order(seats);
    let first = seat_parts(one);
    let second = seat_parts(other);
    let third = seat_parts(last);
    (first, second, third)
}

/// The world of these parts.
fn put_parts(parts: Cluster<Group<3>>) -> TrioWorld
    ensures { result ≡ whole_of parts }
{
    let Cluster {
        servers,
        net,
        agents,
        history,
        now,
        callbacks,
    } = parts;
    let Group {
        acting,
        active,
        seats,
        armed,
    } = servers;
    let (first, second, third) = three_parts(seats);
    let (a, link_a, back_a) = first;
    let (b, link_b, back_b) = second;
    let (c, link_c, back_c) = third;
    let world = TrioWorld {
        a,
        b,
        c,
        link_a,
        link_b,
        link_c,
        back_a,
        back_b,
        back_c,
        net,
        agents,
        history,
        now,
        armed,
        callbacks,
    };
    put_node(world, acting, active)
}

/// What a line does to a world, by its parts.
pub(crate) fn play_whole<R: Threads + Wait + Sync, D: SharedDisk, G: Gate>(
    rt: &R,
    alloc: Global,
    world: &mut TrioWorld,
    lines: &mut Vec<Seq<u8>>,
    line: &TrioLine,
    disk: &mut D,
    gate: &G,
) -> Result<(), DiskAnswer>
    requires state { HasState trio_game world.old (D.seen disk.old).tally.armed }
    requires spelled { (raw : List ℕ) × SpellsTrio line.now raw }
    requires line { IsTrioEvent world.old.now line.now }
    ensures ok { OnOk result (PlaysWhole line.now world.old world.new lines.old.items
        lines.new.items (D.seen disk.old)
        (D.seen disk.new)) }
    ensures broken { IfErr result (λ answer. BreaksWhole answer line.now world.old world.new
        lines.old.items lines.new.items
        (D.seen disk.old)
        (D.seen disk.new)) }
    ensures counts { Counted (group_kit 3) (D.seen disk.old) (D.seen disk.new) result }
    ensures looks { LooksBy (group_line line.now) (D.seen disk.old).files (is_ok result)
        (D.seen disk.old).tally (D.seen disk.new).tally }
{
    let mut parts = take_parts(alloc, world);
    let played = play_line(rt, alloc, &mut parts, lines, line, disk, gate);
    mem::replace(world, put_parts(parts)).end();
    played
}
