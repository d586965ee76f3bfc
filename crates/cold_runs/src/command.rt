//! The source is read to its end as a script, which is played on one server and its journal.
ghost use Rattle.std.specs.Prelude.{◌≡◌, ◌≤◌, None, IsSome, length};
ghost use Rattle.played_runs.specs.Edges.{edge};
ghost use Rattle.played_runs.specs.Writing.{Written};
ghost use Rattle.played_runs.specs.declared.ending.Status8.{Status8};
ghost use Rattle.command_journal.specs.Worlds.{empty_cold};
ghost use Rattle.cold_runs.specs.Ends.{RisesCold};
ghost use Rattle.cold_runs.specs.Stages.{BothGoneOn, cold_stage};
ghost use Rattle.cold_runs.specs.Completing.{Completes};
ghost use Rattle.cold_runs.specs.Endings.{ColdEndsBy, RisesBy, cold_run};
ghost use Rattle.cold_runs.specs.CommandSteps.{BytesEnd, BytesLack, EndedSo};

use crate::playing::play_cold;
use callback_dispatch::Gate;
use command_journal::ColdWorld;
use disk_model::SharedDisk;
use io_edge::{Sink, Source, read_all};
use played_runs::Status8;
use script::{ScriptAnswer, parse_script};
use script_inputs::{INPUT_LIMIT, write_bad, write_unread};
use std::alloc::Global;
use std::sync::Wait;
use std::thread::Threads;

// Plays the script that these bytes are. They are let go once its lines are read.
fn play_bytes<R: Threads + Wait + Sync, K: Sink, D: SharedDisk, J: SharedDisk, G: Gate>(
    rt: &R,
    alloc: Global,
    bytes: Vec<u8>,
    out: &mut K,
    disk: &mut D,
    journal: &mut J,
    gate: &G,
    cold: &mut ColdWorld,
) -> Status8
    requires short { length bytes.items ≤ 16777216 }
    requires empty { cold.old ≡ empty_cold }
    requires unarmed { (D.seen disk.old).tally.armed ≡ None }
    requires unarmed_too { (J.seen journal.old).tally.armed ≡ None }
    ensures { let stage = cold_stage (edge K.written K.faults out.old out.new)
        D.seen disk.old disk.new J.seen journal.old journal.new cold.old cold.new
        in Written (λ reached text. BytesEnd bytes.items stage reached text
        × RisesCold reached stage.scene)
        (λ text. BytesLack bytes.items stage text × BothGoneOn stage.scene) stage.sink result }
{
    match parse_script(alloc, bytes.as_slice()) {
        Ok(lines) => {
            drop(bytes);
            play_cold(rt, alloc, lines, out, disk, journal, gate, cold)
        }
        Err(ScriptAnswer::Memory) => Status8::Memory,
        Err(ScriptAnswer::Bad { line, why }) => write_bad(alloc, out, line, why),
    }
}

// Reads the source to its end, and plays the script that it gives.
fn play_source<R: Threads + Wait + Sync, S: Source, K: Sink, D: SharedDisk, J: SharedDisk, G: Gate>(
    rt: &R,
    alloc: Global,
    source: &mut S,
    out: &mut K,
    disk: &mut D,
    journal: &mut J,
    gate: &G,
    cold: &mut ColdWorld,
) -> Status8
    requires empty { cold.old ≡ empty_cold }
    requires unarmed { (D.seen disk.old).tally.armed ≡ None }
    requires unarmed_too { (J.seen journal.old).tally.armed ≡ None }
    ensures { EndedSo (cold_run (edge S.left S.faults source.old source.new)
        (edge K.written K.faults out.old out.new) D.seen disk.old disk.new
        J.seen journal.old journal.new cold.old cold.new) result }
{
    match read_all(alloc, source, INPUT_LIMIT) {
        Ok(bytes) => play_bytes(rt, alloc, bytes, out, disk, journal, gate, cold),
        Err(answer) => write_unread(out, answer),
    }
}

/// Reads the source to its end as a script and plays it on one server and its journal: its first line begins both, on two disks without
/// files, and the others are their events, whose lines are written as each event ends; the workers of a dispatch pass the gate. As it is played
/// its bytes are no longer held. Neither disk is armed before, and the world is empty.
///
/// The clause `ends` says of each status what was read, what is written and what stands; `faults` says which counts rose. `ScriptRefused`
/// comes exactly where the input is no script, and nothing was asked of a disk; `ReadFault` and `TooLong` where it was not read to its end;
/// `RootNotEmpty` where a disk held a file; `DiskFault` where one failed as its names were asked for, in the start, or in the event that ended
/// the run; `JournalRefused` where `restart a` found no journal to start from, which never comes where the journal's disk tells its files.
/// `WriteFault` comes exactly where the sink's count rose, whatever was to come; `Memory` where memory ran out. Over a journal's disk that tells
/// no files nothing is said of what follows `restart a`.
pub fn run_cold<
    R: Threads + Wait + Sync,
    S: Source,
    K: Sink,
    D: SharedDisk,
    J: SharedDisk,
    G: Gate,
>(
    rt: &R,
    alloc: Global,
    source: &mut S,
    out: &mut K,
    disk: &mut D,
    journal: &mut J,
    gate: &G,
    cold: &mut ColdWorld,
) -> Status8
    requires empty { cold.old ≡ empty_cold }
    requires unarmed { (D.seen disk.old).tally.armed ≡ None }
    requires unarmed_too { (J.seen journal.old).tally.armed ≡ None }
    ensures ends { ColdEndsBy result (cold_run (edge S.left S.faults source.old source.new)
        (edge K.written K.faults out.old out.new) D.seen disk.old disk.new
        J.seen journal.old journal.new cold.old cold.new) }
    ensures faults { RisesBy result (cold_run (edge S.left S.faults source.old source.new)
        (edge K.written K.faults out.old out.new) D.seen disk.old disk.new
        J.seen journal.old journal.new cold.old cold.new) }

    // Where nothing fails, a script is played: only memory may be missing.
    ensures completes { Completes result (cold_run (edge S.left S.faults source.old source.new)
        (edge K.written K.faults out.old out.new) D.seen disk.old disk.new
        J.seen journal.old journal.new cold.old cold.new) }

    // No journal is refused that its disk tells.
    ensures accepts { IsSome (J.seen journal.old).files → result ≡ Status8.JournalRefused → ⊥ }
{
    play_source(rt, alloc, source, out, disk, journal, gate, cold)
}
