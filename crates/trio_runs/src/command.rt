//! The source is read to its end as a script, which is played on the world of three servers.
ghost use Rattle.std.specs.Prelude.{◌≡◌, ◌≤◌, None, length};
ghost use Rattle.played_runs.specs.Counts.{NoneRises, RisesBy};
ghost use Rattle.played_runs.specs.Edges.{edge, fault_count, stage};
ghost use Rattle.played_runs.specs.Writing.{Ended, unasked};
ghost use Rattle.spare_server.specs.Worlds.{empty_trio};
ghost use Rattle.trio_runs.specs.Completing.{CanServe, IsServedOrMemory};
ghost use Rattle.trio_runs.specs.Endings.{TrioEndsBy, trio_run};
ghost use Rattle.trio_runs.specs.CommandSteps.{BytesEnd, BytesLack, InputEnds, InputLacks};

use crate::laws::law_of_trio_scripts;
use crate::playing::play_trio;
use callback_dispatch::Gate;
use disk_model::SharedDisk;
use io_edge::{Sink, Source, read_all};
use played_runs::Status8;
use script_inputs::{INPUT_LIMIT, write_bad, write_unread};
use script_lines::ScriptAnswer;
use spare_server::TrioWorld;
use std::alloc::Global;
use std::sync::Wait;
use std::thread::Threads;
use trio_lines::parse_trio;

// Plays the script that these bytes are. They are let go once its lines are read.
fn play_bytes<R: Threads + Wait + Sync, K: Sink, D: SharedDisk, G: Gate>(
    rt: &R,
    alloc: Global,
    bytes: Vec<u8>,
    out: &mut K,
    disk: &mut D,
    gate: &G,
    trio: &mut TrioWorld,
) -> Status8
    requires short { length bytes.items ≤ 16777216 }
    requires empty { trio.old ≡ empty_trio }
    requires unarmed { (D.seen disk.old).tally.armed ≡ None }
    ensures { let scene = stage (edge K.written K.faults out.old out.new)
        D.seen disk.old disk.new trio.old trio.new
        in Ended unasked (fault_count scene.disk) (BytesEnd bytes.items scene)
        (BytesLack bytes.items scene) scene.sink result }
{
    law_of_trio_scripts();
    match parse_trio(alloc, bytes.as_slice()) {
        Ok(lines) => {
            drop(bytes);
            play_trio(rt, alloc, lines, out, disk, gate, trio)
        }
        Err(ScriptAnswer::Memory) => Status8::Memory,
        Err(ScriptAnswer::Bad { line, why }) => write_bad(alloc, out, line, why),
    }
}

// Reads the source to its end, and plays the script that it gives.
fn play_source<R: Threads + Wait + Sync, S: Source, K: Sink, D: SharedDisk, G: Gate>(
    rt: &R,
    alloc: Global,
    source: &mut S,
    out: &mut K,
    disk: &mut D,
    gate: &G,
    trio: &mut TrioWorld,
) -> Status8
    requires empty { trio.old ≡ empty_trio }
    requires unarmed { (D.seen disk.old).tally.armed ≡ None }
    ensures { let source = edge S.left S.faults source.old source.new in
        let scene = stage (edge K.written K.faults out.old out.new)
        D.seen disk.old disk.new trio.old trio.new
        in Ended (fault_count source) (fault_count scene.disk) (InputEnds source scene)
        (InputLacks source scene) scene.sink result }
{
    match read_all(alloc, source, INPUT_LIMIT) {
        Ok(bytes) => play_bytes(rt, alloc, bytes, out, disk, gate, trio),
        Err(answer) => write_unread(out, answer),
    }
}

/// Reads the source to its end as a script for three servers and plays it over the disk: its first line begins a cluster, and the others
/// are its events, whose lines are written as each event ends; the workers of a dispatch pass the gate. As it is played its bytes are no
/// longer held. The disk is not armed before, and the world is empty.
///
/// The clause `ends` says of each status what was read, what is written and what stands; `faults` says which counts rose. `ScriptRefused`
/// comes exactly where the input is no script, and nothing was asked of the disk; `ReadFault` and `TooLong` where it was not read to its
/// end; `RootNotEmpty` where the disk held a file; `DiskFault` where it failed as its names were asked for, in the deeds of the start, as a
/// line showed files, or in an event behind which no server is active: there no other one was in service. `WriteFault` comes exactly where
/// the sink's count rose, whatever was to come; `Memory` where memory ran out.
pub fn run_trio<R: Threads + Wait + Sync, S: Source, K: Sink, D: SharedDisk, G: Gate>(
    rt: &R,
    alloc: Global,
    source: &mut S,
    out: &mut K,
    disk: &mut D,
    gate: &G,
    trio: &mut TrioWorld,
) -> Status8
    requires empty { trio.old ≡ empty_trio }
    requires unarmed { (D.seen disk.old).tally.armed ≡ None }
    ensures ends { TrioEndsBy result (trio_run (edge S.left S.faults source.old source.new)
        (edge K.written K.faults out.old out.new) D.seen disk.old disk.new trio.old trio.new) }
    ensures faults { RisesBy result (S.faults source.old, S.faults source.new)
        (K.faults out.old, K.faults out.new) ((D.seen disk.old).faults, (D.seen disk.new).faults) }

    // Where nothing fails, a script is played: only memory may be missing.
    ensures completes { CanServe (S.left source.old) (D.seen disk.old).files
        → NoneRises (S.faults source.old, S.faults source.new) (K.faults out.old, K.faults out.new)
        ((D.seen disk.old).faults, (D.seen disk.new).faults) → IsServedOrMemory result }
{
    play_source(rt, alloc, source, out, disk, gate, trio)
}
