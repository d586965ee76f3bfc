//! A script that is read and played on the world of two servers.
ghost use Rattle.std.specs.Prelude.{◌≡◌, None};
ghost use Rattle.played_runs.specs.Edges.{edge, fault_count, stage};
ghost use Rattle.played_runs.specs.Steps.{IsPlayable, PlayedOn};
ghost use Rattle.played_runs.specs.Writing.{Ended};
ghost use Rattle.cluster_core.specs.Game.{world_game};
ghost use Rattle.cluster_core.specs.Worlds.{empty_world};
ghost use Rattle.world_runs.specs.Scripts.{InputEnds, InputLacks};

use crate::playing::play_script;
use ais_values::Seq;
use callback_dispatch::Gate;
use cluster_core::World;
use disk_model::SharedDisk;
use io_edge::{Sink, Source};
use played_runs::Status8;
use script_lines::Line;
use std::alloc::Global;
use std::sync::Wait;
use std::thread::Threads;

/// Reads a script to its end and plays it, as `script_runs::run_script` says, on the world of two servers. The workers of a dispatch pass
/// the gate.
pub fn run_script<R: Threads + Wait + Sync, S: Source, K: Sink, D: SharedDisk, G: Gate>(
    rt: &R,
    alloc: Global,
    source: &mut S,
    out: &mut K,
    disk: &mut D,
    gate: &G,
    world: &mut World,
) -> Status8
    requires empty { world.old ≡ empty_world }
    requires unarmed { (D.seen disk.old).tally.armed ≡ None }
    ensures { let source = edge S.left S.faults source.old source.new in
        let scene = stage (edge K.written K.faults out.old out.new)
        D.seen disk.old disk.new world.old world.new
        in Ended (fault_count source) (fault_count scene.disk) (InputEnds source scene)
        (InputLacks source scene) scene.sink result }
{
    let play = |lines: Seq<Line>, out: &mut K, disk: &mut D, world: &mut World| -> Status8
        requires script { IsPlayable world_game lines }
        requires empty { world.old ≡ empty_world }
        requires unarmed { (D.seen disk.old).tally.armed ≡ None }
        ensures { PlayedOn world_game lines (stage (edge K.written K.faults out.old out.new)
            D.seen disk.old disk.new world.old world.new) result }
    { play_script(rt, alloc, lines, out, disk, gate, world) };
    script_runs::run_script(alloc, source, out, disk, world, &play)
}
