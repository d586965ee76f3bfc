//! The lines on the server and its journal alone, while it is up.
ghost use Rattle.std.specs.Prelude.{◌≡◌, false};
ghost use Rattle.script_lines.specs.declared.line.Line.TheVariants.{Ack, Arm, Crash, Mirror, Work};
ghost use Rattle.script_lines.specs.declared.line.Server.{Server};
ghost use Rattle.cluster_rounds.specs.Wild.{always, StandsOn};
ghost use Rattle.cluster_rounds.specs.Worlds.{any_state};
ghost use Rattle.cluster_lines.specs.Lines.{shows_files, IsInRange, IsOwn};
ghost use Rattle.cold_servers.specs.ColdKit.{cold_kit, cold_script};
ghost use Rattle.cold_servers.specs.Steps.{AreUp, IsRefusedUp, PlaysUp};

use crate::Solo;
use crate::arming::{arm_disk, arm_journal, crash, disarm};
use crate::standing::refuse;
use ais_values::Seq;
use cluster_lines::{as_answer, done_at_stop};
use cluster_rounds::Cluster;
use disk_model::{DiskAnswer, SharedDisk};
use lone_server::{hear_back, is_clear, join_journal, work_entry};
use script_lines::{Line, Server};
use std::alloc::Global;

/// A line that is refused while the server is up.
fn refuse_line<D: SharedDisk, J: SharedDisk>(
    alloc: Global,
    world: &mut Cluster<Solo>,
    lines: &mut Vec<Seq<u8>>,
    line: &Line,
    disk: &mut D,
    beside: &mut J,
) -> Result<(), DiskAnswer>
    requires state { StandsOn cold_kit any_state always world.old
        (cold_kit.see (D.seen disk.old) (J.seen beside.old)) }
    requires up { AreUp world.old }
    requires shown { shows_files line.now ≡ false }
    requires refused { IsRefusedUp line.now world.old }
    ensures { PlaysUp result line.now world.old world.new lines.old.items lines.new.items
        (cold_kit.see (D.seen disk.old) (J.seen beside.old))
        (cold_kit.see (D.seen disk.new) (J.seen beside.new)) }
{
    as_answer(refuse(alloc, world, lines, line))
}

/// `mirror`: the entry that waits joins the journal. The line is refused where nothing is on the way. Where the journal's disk stops in that
/// the server is down, and the line is done.
fn mirror_line<D: SharedDisk, J: SharedDisk>(
    alloc: Global,
    world: &mut Cluster<Solo>,
    lines: &mut Vec<Seq<u8>>,
    line: &Line,
    disk: &mut D,
    beside: &mut J,
) -> Result<(), DiskAnswer>
    requires state { StandsOn cold_kit any_state always world.old
        (cold_kit.see (D.seen disk.old) (J.seen beside.old)) }
    requires up { AreUp world.old }
    requires line { line.now ≡ Mirror }
    ensures { PlaysUp result line.now world.old world.new lines.old.items lines.new.items
        (cold_kit.see (D.seen disk.old) (J.seen beside.old))
        (cold_kit.see (D.seen disk.new) (J.seen beside.new)) }
{
    if is_clear(&world.servers.lone.link) {
        return refuse_line(alloc, world, lines, line, disk, beside);
    }
    done_at_stop(join_journal(
        alloc,
        &mut world.servers.lone,
        &mut world.history,
        lines,
        disk,
        beside,
    ))
}

/// `ack`: the server hears that the entry joined the journal. The line is refused where nothing came back.
fn ack_line<D: SharedDisk, J: SharedDisk>(
    alloc: Global,
    world: &mut Cluster<Solo>,
    lines: &mut Vec<Seq<u8>>,
    line: &Line,
    disk: &mut D,
    beside: &mut J,
) -> Result<(), DiskAnswer>
    requires state { StandsOn cold_kit any_state always world.old
        (cold_kit.see (D.seen disk.old) (J.seen beside.old)) }
    requires up { AreUp world.old }
    requires line { line.now ≡ Ack }
    ensures { PlaysUp result line.now world.old world.new lines.old.items lines.new.items
        (cold_kit.see (D.seen disk.old) (J.seen beside.old))
        (cold_kit.see (D.seen disk.new) (J.seen beside.new)) }
{
    if is_clear(&world.servers.lone.back) {
        return refuse_line(alloc, world, lines, line, disk, beside);
    }
    let now = world.now;
    match hear_back(alloc, &mut world.servers.lone, now) {
        Ok(_) => Ok(()),
        Err(_) => Err(DiskAnswer::Memory),
    }
}

/// `work`: the entry in hand is worked. The line is refused where none is ready. Where the record disk stops in that the server is down, and
/// the line is done.
fn work_line<D: SharedDisk, J: SharedDisk>(
    alloc: Global,
    world: &mut Cluster<Solo>,
    lines: &mut Vec<Seq<u8>>,
    line: &Line,
    disk: &mut D,
    beside: &mut J,
) -> Result<(), DiskAnswer>
    requires state { StandsOn cold_kit any_state always world.old
        (cold_kit.see (D.seen disk.old) (J.seen beside.old)) }
    requires up { AreUp world.old }
    requires line { line.now ≡ Work }
    ensures { PlaysUp result line.now world.old world.new lines.old.items lines.new.items
        (cold_kit.see (D.seen disk.old) (J.seen beside.old))
        (cold_kit.see (D.seen disk.new) (J.seen beside.new)) }
{
    if !world.servers.lone.node.ready() {
        return refuse_line(alloc, world, lines, line, disk, beside);
    }
    done_at_stop(work_entry(
        alloc,
        &mut world.servers.lone,
        &mut world.net,
        lines,
        disk,
        beside,
    ))
}

/// `crash S`: the server goes down. The journal, and a server that is not there, are not crashed: the line is refused.
fn crash_line<D: SharedDisk, J: SharedDisk>(
    alloc: Global,
    world: &mut Cluster<Solo>,
    lines: &mut Vec<Seq<u8>>,
    line: &Line,
    server: Server,
    disk: &mut D,
    beside: &mut J,
) -> Result<(), DiskAnswer>
    requires state { StandsOn cold_kit any_state always world.old
        (cold_kit.see (D.seen disk.old) (J.seen beside.old)) }
    requires up { AreUp world.old }
    requires line { line.now ≡ Crash server }
    ensures { PlaysUp result line.now world.old world.new lines.old.items lines.new.items
        (cold_kit.see (D.seen disk.old) (J.seen beside.old))
        (cold_kit.see (D.seen disk.new) (J.seen beside.new)) }
{
    match server {
        Server::A => as_answer(crash(alloc, world, lines, disk, beside)),
        Server::B => refuse_line(alloc, world, lines, line, disk, beside),
        Server::C => refuse_line(alloc, world, lines, line, disk, beside),
    }
}

/// `arm S K`: the record disk is armed, or the journal's. The line is refused for a server that is not there.
fn arm_line<D: SharedDisk, J: SharedDisk>(
    alloc: Global,
    world: &mut Cluster<Solo>,
    lines: &mut Vec<Seq<u8>>,
    line: &Line,
    server: Server,
    count: u64,
    disk: &mut D,
    beside: &mut J,
) -> Result<(), DiskAnswer>
    requires state { StandsOn cold_kit any_state always world.old
        (cold_kit.see (D.seen disk.old) (J.seen beside.old)) }
    requires up { AreUp world.old }
    requires range { IsInRange line.now }
    requires line { line.now ≡ Arm server count }
    ensures { PlaysUp result line.now world.old world.new lines.old.items lines.new.items
        (cold_kit.see (D.seen disk.old) (J.seen beside.old))
        (cold_kit.see (D.seen disk.new) (J.seen beside.new)) }
{
    match server {
        Server::A => {
            arm_disk(world, count, disk, beside);
            Ok(())
        }
        Server::B => {
            arm_journal(world, count, disk, beside);
            Ok(())
        }
        Server::C => refuse_line(alloc, world, lines, line, disk, beside),
    }
}

/// A line that asks something of the server and its journal alone, while the server is up.
pub(crate) fn play_own<D: SharedDisk, J: SharedDisk>(
    alloc: Global,
    world: &mut Cluster<Solo>,
    lines: &mut Vec<Seq<u8>>,
    line: &Line,
    disk: &mut D,
    beside: &mut J,
) -> Result<(), DiskAnswer>
    requires state { StandsOn cold_kit any_state always world.old
        (cold_kit.see (D.seen disk.old) (J.seen beside.old)) }
    requires up { AreUp world.old }
    requires range { IsInRange line.now }
    requires own { IsOwn cold_script line.now }
    ensures { PlaysUp result line.now world.old world.new lines.old.items lines.new.items
        (cold_kit.see (D.seen disk.old) (J.seen beside.old))
        (cold_kit.see (D.seen disk.new) (J.seen beside.new)) }
{
    match line {
        Line::Mirror => mirror_line(alloc, world, lines, line, disk, beside),
        Line::Ack => ack_line(alloc, world, lines, line, disk, beside),
        Line::Work => work_line(alloc, world, lines, line, disk, beside),
        Line::Crash { server } => crash_line(alloc, world, lines, line, *server, disk, beside),
        Line::Arm { server, count } => {
            arm_line(alloc, world, lines, line, *server, *count, disk, beside)
        }
        Line::Disarm => {
            disarm(world, disk, beside);
            Ok(())
        }
        Line::Restart { server: _ } => refuse_line(alloc, world, lines, line, disk, beside),
        _ => Err(DiskAnswer::Memory),
    }
}
