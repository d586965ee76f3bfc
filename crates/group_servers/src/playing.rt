//! The lines of a script that ask something of the servers alone.
ghost use Rattle.std.specs.Prelude.{◌≡◌};
ghost use Rattle.script_lines.specs.declared.line.Line.TheVariants.{Work};
ghost use Rattle.cluster_rounds.specs.Worlds.{HasStateOn, any_state};
ghost use Rattle.cluster_lines.specs.Lines.{IsInRange, IsOwn};
ghost use Rattle.cluster_lines.specs.Showing.{StandsAs};
ghost use Rattle.cluster_lines.specs.Own.{PlaysLine};
ghost use Rattle.group_servers.specs.GroupKit.{group_kit, group_script};

use crate::Group;
use crate::crashing::crash;
use crate::joining::{arm, disarm, restart};
use crate::lines::{ack_line, mirror_line};
use crate::standing::{refused, standing_of};
use crate::working::work;
use ais_values::Seq;
use cluster_events::Standing;
use cluster_lines::as_answer;
use cluster_rounds::Cluster;
use disk_model::{DiskAnswer, SharedDisk};
use script_lines::Line;
use std::alloc::Global;

/// How the servers stand, as the definitions say it.
pub(crate) fn stands<const N: usize>(world: &Cluster<Group<N>>) -> Standing
    ensures { StandsAs (group_kit N) world.entry.now result }
{
    standing_of(world)
}

/// `work`: the entry in hand is worked. The line is refused where none is ready.
fn work_line<const N: usize, D: SharedDisk>(
    alloc: Global,
    world: &mut Cluster<Group<N>>,
    lines: &mut Vec<Seq<u8>>,
    line: &Line,
    disk: &mut D,
) -> Result<(), DiskAnswer>
    requires state { HasStateOn (group_kit N) any_state world.old (D.seen disk.old) }
    requires line { line.now ≡ Work }
    ensures { PlaysLine (group_kit N) group_script result line.now world.old world.new
        lines.old.items lines.new.items (D.seen disk.old) (D.seen disk.new) }
{
    if world.servers.active.ready() {
        return work(alloc, world, lines, disk);
    }
    as_answer(refused(alloc, world, lines, line))
}

/// A line that asks something of the servers alone.
pub(crate) fn play_own<const N: usize, D: SharedDisk>(
    alloc: Global,
    world: &mut Cluster<Group<N>>,
    lines: &mut Vec<Seq<u8>>,
    line: &Line,
    disk: &mut D,
) -> Result<(), DiskAnswer>
    requires state { HasStateOn (group_kit N) any_state world.old (D.seen disk.old) }
    requires range { IsInRange line.now }
    requires own { IsOwn group_script line.now }
    ensures { PlaysLine (group_kit N) group_script result line.now world.old world.new
        lines.old.items lines.new.items (D.seen disk.old) (D.seen disk.new) }
{
    match line {
        Line::Mirror => as_answer(mirror_line(alloc, world, lines, line)),
        Line::Ack => as_answer(ack_line(alloc, world, lines, line)),
        Line::Work => work_line(alloc, world, lines, line, disk),
        Line::Crash { server } => crash(alloc, world, lines, line, *server, disk),
        Line::Arm { server, count } => {
            as_answer(arm(alloc, world, lines, line, *server, *count, disk))
        }
        Line::Disarm => {
            disarm(world, disk);
            Ok(())
        }
        Line::Restart { server } => as_answer(restart(alloc, world, lines, line, *server)),
        _ => Err(DiskAnswer::Memory),
    }
}
