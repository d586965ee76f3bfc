//! A world that is taken apart for an event, and put together again, without memory; and what a line does to its parts.
ghost use Rattle.std.specs.Prelude.{◌≡◌, true, false};
ghost use Rattle.cluster_lines.specs.Lines.{CanPlay, IsInRange};
ghost use Rattle.cluster_lines.specs.Playing.{SharesIn};
ghost use Rattle.cold_servers.specs.ColdKit.{cold_kit, cold_script};
ghost use Rattle.cold_servers.specs.Steps.{AreDown};
ghost use Rattle.command_journal.specs.Parts.{asks_server, cold_as, is_start, whole_of, PlaysLine};
ghost use Rattle.command_journal.specs.Worlds.{both, parts_of, HasCold, HasParts};

use crate::ColdWorld;
use ais_values::Seq;
use callback_dispatch::Gate;
use calls::History;
use cluster_lines::play;
use cluster_rounds::Cluster;
use cold_servers::{Solo, down_line, is_up, restart};
use disk_model::{DiskAnswer, SharedDisk};
use journal_start::ColdAnswer;
use lone_server::Lone;
use message_net::Net;
use mirror::Node;
use script_lines::{Line, Server};
use std::alloc::Global;
use std::mem;
use std::sync::Wait;
use std::thread::Threads;

/// Takes the parts out of a world.
fn take_parts(alloc: Global, world: &mut ColdWorld) -> Cluster<Solo>
    ensures { result ≡ parts_of world.old }
{
    let lone = Lone {
        node: mem::replace(&mut world.node, Node::down()),
        journal: world.journal,
        link: mem::replace(&mut world.link, Seq::new(alloc)),
        back: mem::replace(&mut world.back, Seq::new(alloc)),
        armed: world.armed,
    };
    Cluster {
        servers: Solo { lone },
        net: mem::replace(&mut world.net, Net::new(alloc)),
        agents: mem::replace(&mut world.agents, Seq::new(alloc)),
        history: mem::replace(&mut world.history, History::new(alloc)),
        now: world.now,
        callbacks: world.callbacks,
    }
}

/// The world of these parts.
fn put_parts(parts: Cluster<Solo>) -> ColdWorld
    ensures { result ≡ whole_of parts }
{
    let Cluster {
        servers,
        net,
        agents,
        history,
        now,
        callbacks,
    } = parts;
    let Lone {
        node,
        journal,
        link,
        back,
        armed,
    } = servers.lone;
    ColdWorld {
        node,
        journal,
        link,
        back,
        net,
        agents,
        history,
        now,
        armed,
        callbacks,
    }
}

/// The same end, as an answer of a cold start.
fn as_cold(done: Result<(), DiskAnswer>) -> Result<(), ColdAnswer>
    ensures { result ≡ cold_as done }
{
    match done {
        Ok(()) => Ok(()),
        Err(DiskAnswer::Memory) => Err(ColdAnswer::Memory),
        Err(DiskAnswer::Failed) => Err(ColdAnswer::Failed),
        Err(DiskAnswer::Stopped) => Err(ColdAnswer::Stopped),
    }
}

/// Whether a line starts the server from its journal, where it is down.
fn is_start(line: &Line) -> bool
    ensures { result ≡ is_start line.now }
{
    matches!(line, Line::Restart { server: Server::A })
}

/// Whether a line asks something of the server, or shows files: what is left of it while the server is down.
fn asks_server(line: &Line) -> bool
    ensures { result ≡ asks_server line.now }
{
    matches!(
        line,
        Line::Deliver { .. }
            | Line::Resend { .. }
            | Line::Mirror
            | Line::Ack
            | Line::Work
            | Line::Push
            | Line::Settle
            | Line::Files
            | Line::Cat { .. }
            | Line::Crash { .. }
            | Line::Arm { .. }
            | Line::Disarm
            | Line::Restart { .. }
    )
}

/// What a line does that is played as over any servers: each one while the server is up.
fn play_shared<R: Threads + Wait + Sync, D: SharedDisk, J: SharedDisk, G: Gate>(
    rt: &R,
    alloc: Global,
    parts: &mut Cluster<Solo>,
    lines: &mut Vec<Seq<u8>>,
    line: &Line,
    disk: &mut D,
    journal: &mut J,
    gate: &G,
) -> Result<(), ColdAnswer>
    requires state { HasParts parts.old (both (D.seen disk.old) (J.seen journal.old)) }
    requires range { IsInRange line.now }
    requires can { CanPlay cold_script parts.old.now line.now }
    requires shares { SharesIn cold_kit cold_script line.now parts.old }
    ensures { PlaysLine result line.now parts.old parts.new lines.old.items lines.new.items
        (both (D.seen disk.old) (J.seen journal.old))
        (both (D.seen disk.new) (J.seen journal.new)) }
{
    as_cold(play(rt, alloc, parts, lines, line, disk, journal, gate))
}

/// What is left of a line that asks something of the server, which is down.
fn play_left<R: Wait, D: SharedDisk, J: SharedDisk>(
    rt: &R,
    alloc: Global,
    parts: &mut Cluster<Solo>,
    lines: &mut Vec<Seq<u8>>,
    line: &Line,
    disk: &mut D,
    journal: &mut J,
) -> Result<(), ColdAnswer>
    requires state { HasParts parts.old (both (D.seen disk.old) (J.seen journal.old)) }
    requires down { AreDown parts.old }
    requires asks { asks_server line.now ≡ true }
    requires start { is_start line.now ≡ false }
    ensures { PlaysLine result line.now parts.old parts.new lines.old.items lines.new.items
        (both (D.seen disk.old) (J.seen journal.old))
        (both (D.seen disk.new) (J.seen journal.new)) }
{
    as_cold(down_line(rt, alloc, parts, lines, line, disk, journal))
}

/// `restart a`, while the server is down.
fn play_start<D: SharedDisk, J: SharedDisk>(
    alloc: Global,
    parts: &mut Cluster<Solo>,
    lines: &mut Vec<Seq<u8>>,
    line: &Line,
    disk: &mut D,
    journal: &mut J,
) -> Result<(), ColdAnswer>
    requires state { HasParts parts.old (both (D.seen disk.old) (J.seen journal.old)) }
    requires down { AreDown parts.old }
    requires start { is_start line.now ≡ true }
    ensures { PlaysLine result line.now parts.old parts.new lines.old.items lines.new.items
        (both (D.seen disk.old) (J.seen journal.old))
        (both (D.seen disk.new) (J.seen journal.new)) }
{
    restart(alloc, parts, lines, disk, journal)
}

/// What a line does, by whether the server is up.
fn play_line<R: Threads + Wait + Sync, D: SharedDisk, J: SharedDisk, G: Gate>(
    rt: &R,
    alloc: Global,
    parts: &mut Cluster<Solo>,
    lines: &mut Vec<Seq<u8>>,
    line: &Line,
    disk: &mut D,
    journal: &mut J,
    gate: &G,
) -> Result<(), ColdAnswer>
    requires state { HasParts parts.old (both (D.seen disk.old) (J.seen journal.old)) }
    requires range { IsInRange line.now }
    requires can { CanPlay cold_script parts.old.now line.now }
    ensures { PlaysLine result line.now parts.old parts.new lines.old.items lines.new.items
        (both (D.seen disk.old) (J.seen journal.old))
        (both (D.seen disk.new) (J.seen journal.new)) }
{
    if is_up(parts) {
        return play_shared(rt, alloc, parts, lines, line, disk, journal, gate);
    }
    if is_start(line) {
        return play_start(alloc, parts, lines, line, disk, journal);
    }
    if asks_server(line) {
        return play_left(rt, alloc, parts, lines, line, disk, journal);
    }
    play_shared(rt, alloc, parts, lines, line, disk, journal, gate)
}

/// What a line does to a world, by its parts.
pub(crate) fn play_whole<R: Threads + Wait + Sync, D: SharedDisk, J: SharedDisk, G: Gate>(
    rt: &R,
    alloc: Global,
    world: &mut ColdWorld,
    lines: &mut Vec<Seq<u8>>,
    line: &Line,
    disk: &mut D,
    journal: &mut J,
    gate: &G,
) -> Result<(), ColdAnswer>
    requires state { HasCold world.old (both (D.seen disk.old) (J.seen journal.old)) }
    requires range { IsInRange line.now }
    requires can { CanPlay cold_script world.old.now line.now }
    ensures { PlaysLine result line.now (parts_of world.old) (parts_of world.new) lines.old.items
        lines.new.items (both (D.seen disk.old) (J.seen journal.old))
        (both (D.seen disk.new) (J.seen journal.new)) }
{
    let mut parts = take_parts(alloc, world);
    let played = play_line(rt, alloc, &mut parts, lines, line, disk, journal, gate);
    mem::replace(world, put_parts(parts)).end();
    played
}
