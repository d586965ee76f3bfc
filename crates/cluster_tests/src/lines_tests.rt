//! Lines of a script over two servers of which one is down, by the calls that serve any servers: that each is done while there is
//! memory, and how many lines it prints.
ghost use Rattle.std.specs.Prelude.{◌≡◌, None, IfOk};
ghost use Rattle.service_core.specs.Beginning.{CanBeginAs};
ghost use Rattle.cluster_rounds.specs.Worlds.{HasStateOn, any_state};
ghost use Rattle.cluster_lines.specs.Lines.{CanPlay, IsInRange};
ghost use Rattle.group_servers.specs.GroupKit.{group_kit, group_script};
ghost use Rattle.cluster_tests.specs.Starting.{cluster_of, seat_of};

use crate::mirror_tests::{START, default_wells, new_disk};
use ais_values::Seq;
use callback_dispatch::{Gate, OpenGate};
use calls::{History, let_history_go};
use client_agent::let_agents_go;
use cluster_lines::play;
use cluster_rounds::Cluster;
use disk_model::{NoDisk, SharedDisk};
use group_servers::{Group, Seat, let_seat_go};
use message_net::Net;
use mirror::{Node, Role, let_node_go};
use script_lines::{Line, Server, let_line_go};
use service_core::Service;
use std::alloc::{AllocError, Global};
use std::process::Abort;
use std::sync::Wait;
use std::thread::Threads;
use stream_config::StreamAttrs;
use stream_layout::Deed;

/// A server that is down.
fn seat_of(alloc: Global, server: Server) -> Seat
    ensures { result ≡ seat_of server }
{
    Seat {
        server,
        node: Node::down(),
        link: Seq::new(alloc),
        back: Seq::new(alloc),
    }
}

/// A cluster in which nothing was posted: `a` is this server, and `b` is down.
fn cluster_of(alloc: Global, active: Node, start: i64, callbacks: u32) -> Cluster<Group<2>>
    ensures { result ≡ cluster_of active start callbacks }
{
    let servers = Group {
        acting: Server::A,
        active,
        seats: [seat_of(alloc, Server::A), seat_of(alloc, Server::B)],
        armed: false,
    };
    Cluster {
        servers,
        net: Net::new(alloc),
        agents: Seq::new(alloc),
        history: History::new(alloc),
        now: start,
        callbacks,
    }
}

/// The same over a disk that is not armed, where `a` is active with the service of a history without entries, and the deeds of its
/// start.
pub(crate) fn begin<D: SharedDisk>(
    alloc: Global,
    start: i64,
    queue: u32,
    callbacks: u32,
    wells: Seq<StreamAttrs>,
    _disk: &D,
) -> Result<(Cluster<Group<2>>, Seq<Deed>), AllocError>
    requires begins { CanBeginAs start queue wells }
    requires unarmed { (D.seen _disk.now).tally.armed ≡ None }
    ensures { IfOk result (λ made. HasStateOn (group_kit 2) any_state made.0 (D.seen _disk.now)) }
{
    match Service::new(alloc, start, queue, wells) {
        Ok((service, deeds)) => {
            let active = Node::start(alloc, Role::Active, service);
            Ok((cluster_of(alloc, active, start, callbacks), deeds))
        }
        Err(error) => Err(error),
    }
}

/// Lets a cluster go.
pub(crate) fn let_cluster_go(cluster: Cluster<Group<2>>) {
    let Cluster {
        servers,
        net,
        agents,
        history,
        ..
    } = cluster;
    let Group { active, seats, .. } = servers;
    let [one, other] = seats;
    let_node_go(active);
    let_seat_go(one);
    let_seat_go(other);
    let_agents_go(agents);
    let_history_go(history);
    drop(net);
}

/// Plays a line, whose workers pass a gate, and which prints so many lines.
pub(crate) fn plays_by<R: Abort + Threads + Wait + Sync, D: SharedDisk, G: Gate>(
    rt: &R,
    alloc: Global,
    cluster: &mut Cluster<Group<2>>,
    disk: &mut D,
    line: Line,
    gate: &G,
    count: usize,
)
    requires state { HasStateOn (group_kit 2) any_state cluster.old (D.seen disk.old) }
    requires range { IsInRange line }
    requires can { CanPlay group_script cluster.old.now line }
    ensures { HasStateOn (group_kit 2) any_state cluster.new (D.seen disk.new) }
{
    let mut lines = Vec::new(alloc);
    let mut beside = NoDisk::new();
    let done = play(
        rt,
        alloc,
        cluster,
        &mut lines,
        &line,
        disk,
        &mut beside,
        gate,
    );
    let_line_go(line);
    done.expect(rt, "a disk that serves");
    assert_eq!(rt; lines.as_slice().len(), count);
    drop(lines);
}

/// Plays a line, which prints so many lines.
pub(crate) fn plays<R: Abort + Threads + Wait + Sync, D: SharedDisk>(
    rt: &R,
    alloc: Global,
    cluster: &mut Cluster<Group<2>>,
    disk: &mut D,
    line: Line,
    count: usize,
)
    requires state { HasStateOn (group_kit 2) any_state cluster.old (D.seen disk.old) }
    requires range { IsInRange line }
    requires can { CanPlay group_script cluster.old.now line }
    ensures { HasStateOn (group_kit 2) any_state cluster.new (D.seen disk.new) }
{
    plays_by(rt, alloc, cluster, disk, line, &OpenGate, count);
}

/// The server that was down comes back and joins, and takes over.
fn joins<R: Abort + Threads + Wait + Sync, D: SharedDisk>(
    rt: &R,
    alloc: Global,
    cluster: &mut Cluster<Group<2>>,
    disk: &mut D,
)
    requires { HasStateOn (group_kit 2) any_state cluster.old (D.seen disk.old) }
{
    plays(
        rt,
        alloc,
        cluster,
        disk,
        Line::Crash { server: Server::A },
        1,
    );
    plays(
        rt,
        alloc,
        cluster,
        disk,
        Line::Restart { server: Server::B },
        1,
    );
    plays(rt, alloc, cluster, disk, Line::Mirror, 1);
    plays(rt, alloc, cluster, disk, Line::Ack, 0);
    plays(
        rt,
        alloc,
        cluster,
        disk,
        Line::Crash { server: Server::A },
        2,
    );
}

#[test]
fn lines_are_played(rt: HostRuntime) {
    let alloc = rt.alloc();
    let wells = default_wells(&rt, alloc);
    let mut disk = new_disk(alloc);
    let (mut cluster, deeds) = begin(alloc, START, 4, 4, wells, &disk).expect(&rt, "memory");
    drop(deeds);
    plays(&rt, alloc, &mut cluster, &mut disk, Line::Servers, 2);
    plays(&rt, alloc, &mut cluster, &mut disk, Line::Mirror, 1);
    plays(&rt, alloc, &mut cluster, &mut disk, Line::Work, 1);
    plays(&rt, alloc, &mut cluster, &mut disk, Line::Push, 0);
    plays(
        &rt,
        alloc,
        &mut cluster,
        &mut disk,
        Line::Deliver { place: 1 },
        1,
    );
    joins(&rt, alloc, &mut cluster, &mut disk);
    drop(disk);
    let_cluster_go(cluster);
}
