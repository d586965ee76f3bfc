//! A world that is taken apart for an event, by who is active, and put together again, without memory.
ghost use Rattle.std.specs.Prelude.{◌≡◌, OnOk, IfErr};
ghost use Rattle.std.specs.Result.{is_ok};
ghost use Rattle.script_lines.specs.declared.line.Server.TheVariants.{A, B};
ghost use Rattle.cluster_lines.specs.Lines.{IsInRange};
ghost use Rattle.cluster_rounds.specs.Counted.{Counted};
ghost use Rattle.cluster_lines.specs.Playing.{LooksBy};
ghost use Rattle.group_servers.specs.GroupKit.{group_kit};
ghost use Rattle.cluster_core.specs.Game.{world_game};
ghost use Rattle.cluster_core.specs.Worlds.{is_first, named, unnamed, own_seat, seats_beside, parts_of};
ghost use Rattle.played_runs.specs.Games.{HasState};
ghost use Rattle.group_begin.specs.Lines.{IsEventLine};
ghost use Rattle.cluster_core.specs.Parts.{acting_in, other_seat, whole_of, PlaysWhole, BreaksWhole};

use crate::World;
use ais_values::Seq;
use callback_dispatch::Gate;
use calls::History;
use cluster_lines::play;
use cluster_rounds::Cluster;
use disk_model::{DiskAnswer, NoDisk, SharedDisk};
use group_servers::{Group, Seat, let_seat_go};
use message_net::Net;
use mirror::{Node, Role};
use script_lines::{Line, Server};
use std::alloc::Global;
use std::mem;
use std::sync::Wait;
use std::thread::Threads;
use wire::Message;

/// Which server is active: `b` where it has that role, and `a` otherwise.
fn acting_in(world: &World) -> Server
    ensures { result ≡ acting_in world.entry.now }
{
    match world.b.role() {
        Role::Active => Server::B,
        _ => Server::A,
    }
}

/// Whether a server is the first of two.
fn is_first(acting: Server) -> bool
    ensures { result ≡ is_first acting }
{
    matches!(acting, Server::A)
}

/// Of two the one that this name has among `a` and `b`, and the other one.
fn in_order(acting: Server, a: Node, b: Node) -> (Node, Node)
    ensures { result ≡ (named acting a b, unnamed acting a b) }
{
    if is_first(acting) { (a, b) } else { (b, a) }
}

/// Of the two servers the one of this name.
fn of_two(acting: Server) -> Server
    ensures { result ≡ named acting A B }
{
    if is_first(acting) {
        Server::A
    } else {
        Server::B
    }
}

/// The active server's own seat, in which one stands that is down.
fn own_seat(alloc: Global, acting: Server) -> Seat
    ensures { result ≡ own_seat acting }
{
    Seat {
        server: acting,
        node: Node::down(),
        link: Seq::new(alloc),
        back: Seq::new(alloc),
    }
}

/// The seats of two servers beside the active one: the other one's, with what is on the way to it and back, and its own.
fn seats_beside(
    alloc: Global,
    acting: Server,
    other: Node,
    link: Seq<Message>,
    back: Seq<Message>,
) -> [Seat; 2]
    ensures { result ≡ seats_beside acting other link back }
{
    if is_first(acting) {
        let seat = Seat {
            server: Server::B,
            node: other,
            link,
            back,
        };
        return [own_seat(alloc, Server::A), seat];
    }
    let seat = Seat {
        server: Server::A,
        node: other,
        link,
        back,
    };
    [seat, own_seat(alloc, Server::B)]
}

/// Of two seats that of the server that is not the active one.
fn other_seat(acting: Server, seats: [Seat; 2]) -> Seat
    ensures { result ≡ other_seat acting seats }
{
    let [one, other] = seats;
    if is_first(acting) {
        let_seat_go(one);
        other
    } else {
        let_seat_go(other);
        one
    }
}

/// Takes the parts out of a world.
fn take_parts(alloc: Global, world: &mut World) -> Cluster<Group<2>>
    ensures { result ≡ parts_of (acting_in world.old) world.old }
{
    let acting = acting_in(world);
    let a = mem::replace(&mut world.a, Node::down());
    let b = mem::replace(&mut world.b, Node::down());
    let (active, other) = in_order(acting, a, b);
    let link = mem::replace(&mut world.link, Seq::new(alloc));
    let back = mem::replace(&mut world.back, Seq::new(alloc));
    let servers = Group {
        acting: of_two(acting),
        active,
        seats: seats_beside(alloc, acting, other, link, back),
        armed: world.armed,
    };
    Cluster {
        servers,
        net: mem::replace(&mut world.net, Net::new(alloc)),
        agents: mem::replace(&mut world.agents, Seq::new(alloc)),
        history: mem::replace(&mut world.history, History::new(alloc)),
        now: world.now,
        callbacks: world.callbacks,
    }
}

/// The world of these parts.
fn put_parts(parts: Cluster<Group<2>>) -> World
    ensures { result ≡ whole_of parts }
{
    let Cluster {
        servers,
        net,
        agents,
        history,
        now,
        callbacks,
    } = parts;
    let Group {
        acting,
        active,
        seats,
        armed,
    } = servers;
    let Seat {
        server: _,
        node,
        link,
        back,
    } = other_seat(acting, seats);
    let (a, b) = in_order(acting, active, node);
    World {
        a,
        b,
        link,
        back,
        net,
        agents,
        history,
        now,
        armed,
        callbacks,
    }
}

/// What a line does to a world, by its parts.
pub(crate) fn play_whole<R: Threads + Wait + Sync, D: SharedDisk, G: Gate>(
    rt: &R,
    alloc: Global,
    world: &mut World,
    lines: &mut Vec<Seq<u8>>,
    line: &Line,
    disk: &mut D,
    gate: &G,
) -> Result<(), DiskAnswer>
    requires state { HasState world_game world.old (D.seen disk.old).tally.armed }
    requires range { IsInRange line.now }
    requires line { IsEventLine world.old.now line.now }
    ensures ok { OnOk result (PlaysWhole line.now world.old world.new lines.old.items
        lines.new.items (D.seen disk.old)
        (D.seen disk.new)) }
    ensures broken { IfErr result (λ answer. BreaksWhole answer line.now world.old world.new
        lines.old.items lines.new.items
        (D.seen disk.old)
        (D.seen disk.new)) }
    ensures counts { Counted (group_kit 2) (D.seen disk.old) (D.seen disk.new) result }
    ensures looks { LooksBy line.now (D.seen disk.old).files (is_ok result) (D.seen disk.old).tally
        (D.seen disk.new).tally }
{
    let mut parts = take_parts(alloc, world);
    let mut beside = NoDisk::new();
    let played = play(rt, alloc, &mut parts, lines, line, disk, &mut beside, gate);
    mem::replace(world, put_parts(parts)).end();
    played
}
