//! Playing a script on the world of three servers.
ghost use Rattle.std.specs.Prelude.{◌≡◌, None};
ghost use Rattle.played_runs.specs.Edges.{edge, stage};
ghost use Rattle.played_runs.specs.Handed.{CanDo, CanOpen};
ghost use Rattle.played_runs.specs.Steps.{IsPlayable, PlayedOn};
ghost use Rattle.spare_server.specs.Game.{trio_game};
ghost use Rattle.spare_server.specs.Worlds.{empty_trio};

use ais_values::Seq;
use callback_dispatch::Gate;
use cluster_clients::EventAnswer;
use disk_model::SharedDisk;
use io_edge::Sink;
use played_runs::{Status8, play};
use spare_server::TrioWorld;
use std::alloc::Global;
use std::sync::Wait;
use std::thread::Threads;
use trio_lines::TrioLine;

/// Plays the lines of a script over a disk, as `played_runs::play` says, on the world of three servers. The workers of a dispatch pass the
/// gate.
pub fn play_trio<R: Threads + Wait + Sync, K: Sink, D: SharedDisk, G: Gate>(
    rt: &R,
    alloc: Global,
    lines: Seq<TrioLine>,
    out: &mut K,
    disk: &mut D,
    gate: &G,
    world: &mut TrioWorld,
) -> Status8
    requires script { IsPlayable trio_game lines }
    requires empty { world.old ≡ empty_trio }
    requires unarmed { (D.seen disk.old).tally.armed ≡ None }
    ensures { PlayedOn trio_game lines (stage (edge K.written K.faults out.old out.new)
        D.seen disk.old disk.new world.old world.new) result }
{
    let begin = |line: &TrioLine, disk: &mut D, world: &mut TrioWorld| -> Result<(), EventAnswer>
        requires { CanOpen trio_game D.seen line.now disk.old world.old }
    { world.begin(rt, alloc, line, disk) };
    let event = |line: &TrioLine, disk: &mut D, world: &mut TrioWorld| -> Result<
        Seq<Seq<u8>>,
        EventAnswer,
    >
        requires { CanDo trio_game D.seen line.now disk.old world.old }
    { world.event(rt, alloc, line, disk, gate) };
    play(alloc, lines, out, disk, world, &begin, &event)
}
