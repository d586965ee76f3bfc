//! Playing a script on the world of two servers.
ghost use Rattle.std.specs.Prelude.{◌≡◌, None};
ghost use Rattle.played_runs.specs.Edges.{edge, stage};
ghost use Rattle.played_runs.specs.Handed.{CanDo, CanOpen};
ghost use Rattle.played_runs.specs.Steps.{IsPlayable, PlayedOn};
ghost use Rattle.cluster_core.specs.Game.{world_game};
ghost use Rattle.cluster_core.specs.Worlds.{empty_world};

use ais_values::Seq;
use callback_dispatch::Gate;
use cluster_clients::EventAnswer;
use cluster_core::World;
use disk_model::SharedDisk;
use io_edge::Sink;
use played_runs::{Status8, play};
use script_lines::Line;
use std::alloc::Global;
use std::sync::Wait;
use std::thread::Threads;

/// Plays the lines of a script over a disk, as `played_runs::play` says, on the world of two servers. The workers of a dispatch pass the
/// gate.
pub fn play_script<R: Threads + Wait + Sync, K: Sink, D: SharedDisk, G: Gate>(
    rt: &R,
    alloc: Global,
    lines: Seq<Line>,
    out: &mut K,
    disk: &mut D,
    gate: &G,
    world: &mut World,
) -> Status8
    requires script { IsPlayable world_game lines }
    requires empty { world.old ≡ empty_world }
    requires unarmed { (D.seen disk.old).tally.armed ≡ None }
    ensures { PlayedOn world_game lines (stage (edge K.written K.faults out.old out.new)
        D.seen disk.old disk.new world.old world.new) result }
{
    let begin = |line: &Line, disk: &mut D, world: &mut World| -> Result<(), EventAnswer>
        requires { CanOpen world_game D.seen line.now disk.old world.old }
    { world.begin(rt, alloc, line, disk) };
    let event = |line: &Line, disk: &mut D, world: &mut World| -> Result<Seq<Seq<u8>>, EventAnswer>
        requires { CanDo world_game D.seen line.now disk.old world.old }
    { world.event(rt, alloc, line, disk, gate) };
    play(alloc, lines, out, disk, world, &begin, &event)
}
