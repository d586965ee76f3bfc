//! Reading a script to its end and playing it.
ghost use Rattle.std.specs.Prelude.{◌≡◌, ◌≤◌, None, length};
ghost use Rattle.played_runs.specs.Edges.{edge, fault_count, stage};
ghost use Rattle.played_runs.specs.Writing.{Ended, unasked};
ghost use Rattle.script_runs.specs.Handed.{PlaysScriptLines, PlaysScripts};
ghost use Rattle.script_runs.specs.Scripting.{BytesEnd, BytesLack, InputEnds, InputLacks};

use ais_values::Seq;
use disk_model::SharedDisk;
use io_edge::{Sink, Source, read_all};
use played_runs::{Playable, Status8};
use script::{ScriptAnswer, parse_script};
use script_inputs::{INPUT_LIMIT, write_bad, write_unread};
use script_lines::Line;
use std::alloc::Global;

// Plays the script that these bytes are. They are let go once its lines are read.
fn run_bytes<W, K: Sink, D: SharedDisk, P>(
    alloc: Global,
    bytes: Vec<u8>,
    out: &mut K,
    disk: &mut D,
    world: &mut W,
    play: &P,
) -> Status8
where
    W: Playable<Line>,
    P: Fn(Seq<Line>, &mut K, &mut D, &mut W) -> Status8,
    requires short { length bytes.items ≤ 16777216 }
    requires lines { PlaysScriptLines W.game }
    requires empty { world.old ≡ W.game.empty }
    requires unarmed { (D.seen disk.old).tally.armed ≡ None }
    requires play { PlaysScripts W.game K.written K.faults D.seen P.Fn play.now }
    ensures { let scene = stage (edge K.written K.faults out.old out.new)
        D.seen disk.old disk.new world.old world.new
        in Ended unasked (fault_count scene.disk) (BytesEnd W.game bytes.items scene)
        (BytesLack W.game bytes.items scene) scene.sink result }
{
    match parse_script(alloc, bytes.as_slice()) {
        Ok(lines) => {
            drop(bytes);
            play(lines, out, disk, world)
        }
        Err(ScriptAnswer::Memory) => Status8::Memory,
        Err(ScriptAnswer::Bad { line, why }) => write_bad(alloc, out, line, why),
    }
}

/// Reads a script to its end, of at most 16 MiB, and plays it by what plays the lines of one over a world; as they are played its bytes
/// are no longer held. Where it is no script its least bad line is told, and disk and world stay; so they do where the source was not
/// read to its end.
pub fn run_script<W, S: Source, K: Sink, D: SharedDisk, P>(
    alloc: Global,
    source: &mut S,
    out: &mut K,
    disk: &mut D,
    world: &mut W,
    play: &P,
) -> Status8
where
    W: Playable<Line>,
    P: Fn(Seq<Line>, &mut K, &mut D, &mut W) -> Status8,
    requires lines { PlaysScriptLines W.game }
    requires empty { world.old ≡ W.game.empty }
    requires unarmed { (D.seen disk.old).tally.armed ≡ None }
    requires play { PlaysScripts W.game K.written K.faults D.seen P.Fn play.now }
    ensures { let source = edge S.left S.faults source.old source.new in
        let scene = stage (edge K.written K.faults out.old out.new)
        D.seen disk.old disk.new world.old world.new
        in Ended (fault_count source) (fault_count scene.disk) (InputEnds W.game source scene)
        (InputLacks W.game source scene) scene.sink result }
{
    match read_all(alloc, source, INPUT_LIMIT) {
        Ok(bytes) => run_bytes(alloc, bytes, out, disk, world, play),
        Err(answer) => write_unread(out, answer),
    }
}
