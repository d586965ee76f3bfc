//! A large run on the world of two servers.
ghost use Rattle.std.specs.Prelude.{◌≡◌, None};
ghost use Rattle.script_language.specs.Scripts.{IsScriptOf};
ghost use Rattle.load_script.specs.Texts.{load_text};
ghost use Rattle.load_lines.specs.Lines.{load_lines};
ghost use Rattle.played_runs.specs.Edges.{edge, stage};
ghost use Rattle.played_runs.specs.Handed.{CanDo, CanOpen};
ghost use Rattle.cluster_core.specs.Game.{world_game};
ghost use Rattle.cluster_core.specs.Worlds.{empty_world};
ghost use Rattle.world_runs.specs.Loads.{LoadedOn};

use crate::figures::tell_state;
use ais_values::Seq;
use callback_dispatch::Gate;
use cluster_clients::EventAnswer;
use cluster_core::World;
use disk_model::SharedDisk;
use io_edge::Sink;
use load_runs::play_load;
use played_runs::{Halt, Status8};
use script_lines::Line;
use std::alloc::Global;
use std::sync::Wait;
use std::thread::Threads;

/// Plays the script of so many turns from a seed on, whose lines are made one turn after another and whose events
/// write nothing, and writes the line that tells where it led.
///
/// `RootNotEmpty` comes where the disk holds a file; its least name is written, and disk and world stay. `DiskFault`
/// comes only where the disk's count of faults rose: where it comes in the playing of the same script, or as the files were
/// counted behind the last line, where all stands as that line left it. It takes the memory of the world and of one turn.
pub fn load<R: Threads + Wait + Sync, K: Sink, D: SharedDisk, G: Gate>(
    rt: &R,
    alloc: Global,
    count: u32,
    seed: u64,
    out: &mut K,
    disk: &mut D,
    gate: &G,
    world: &mut World,
) -> Status8
    requires empty { world.old ≡ empty_world }
    requires unarmed { (D.seen disk.old).tally.armed ≡ None }
    ensures script { IsScriptOf (load_lines count seed) (load_text count seed) }
    ensures ends { LoadedOn (load_lines count seed) (stage (edge K.written K.faults out.old out.new)
        D.seen disk.old disk.new world.old world.new) result }
{
    let begin = |line: &Line, disk: &mut D, world: &mut World| -> Result<(), EventAnswer>
        requires { CanOpen world_game D.seen line.now disk.old world.old }
    { world.begin(rt, alloc, line, disk) };
    let event = |line: &Line, disk: &mut D, world: &mut World| -> Result<Seq<Seq<u8>>, EventAnswer>
        requires { CanDo world_game D.seen line.now disk.old world.old }
    { world.event(rt, alloc, line, disk, gate) };
    let tell = move |disk: &mut D, world: &World| -> Result<String, Halt> {
        tell_state(alloc, disk, world)
    };
    play_load(alloc, count, seed, out, disk, world, &begin, &event, &tell)
}
