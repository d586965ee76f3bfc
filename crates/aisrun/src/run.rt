//! The top call: the words, a source, a sink, the disks and the worlds, and the status that the run ends with.
ghost use Rattle.std.specs.Prelude.{◌≡◌, None, Some, IsSome};
ghost use Rattle.played_runs.specs.Counts.{HasRisen, NoneRises, RisesBy};
ghost use Rattle.played_runs.specs.Edges.{edge};
ghost use Rattle.played_runs.specs.Promises.{CallsBack, CommitsInTime, KeepsFiles, KeepsOneHistory, KeepsRecords};
ghost use Rattle.played_runs.specs.Promises.{PrintsPosts, ReadsRightly, RepliesRightly, StandsOnce};
ghost use Rattle.played_runs.specs.AfterFault.{KeepsAtFault as KeepsTrioAtFault};
ghost use Rattle.played_runs.specs.Telling.{TellsAtWant as TellsTrioAtWant, TellsOnce};
ghost use Rattle.aisrun.specs.Edges.{around};
ghost use Rattle.world_runs.specs.Counting.{CallsCounted};
ghost use Rattle.world_runs.specs.Falling.{FallsByCause, FaultsFell};
ghost use Rattle.cluster_core.specs.Runs.{DeclinesRightly, KeepsAtFault, OfAllLines, OfAllLinesOf, SettlesAll, Throughout, TellsAtWant};
ghost use Rattle.commands.specs.Commands.{command_of, word_bytes};
ghost use Rattle.aisrun.specs.Completing.{CanCheck, CanGenerate, CanLoad, CanParse, CanRun, HoldsRecords, IsDoneOrMemory};
ghost use Rattle.played_runs.specs.declared.ending.Status8.{Status8};
ghost use Rattle.aisrun.specs.Endings.{EndsBy};
ghost use Rattle.aisrun.specs.Colds.{AsksApart, AsksCold, AsksJournal, AsksOther, AsksRecover};
ghost use Rattle.aisrun.specs.RunSteps.{WordsEnd, beside};
ghost use Rattle.aisrun.specs.Trios.{AsksTrio, CanServeBy};
ghost use Rattle.cluster_core.specs.Worlds.{empty_world};
ghost use Rattle.command_journal.specs.Worlds.{both, empty_cold};
ghost use Rattle.cold_runs.specs.AfterFault.{KeepsColdAtFault, TellsColdAtWant};
ghost use Rattle.cold_runs.specs.Promises.{DeclinesCold, FallsCold, FindsAll, JournalStands, KeepsRecordsCold};
ghost use Rattle.cold_runs.specs.Promises.{OfAllColdLines, OfLine, OfWorld, SettlesCold, ThroughoutCold};
ghost use Rattle.cold_runs.specs.Recovering.{RecoversBy};
ghost use Rattle.cold_runs.specs.Stages.{cold_stage};
ghost use Rattle.cold_runs.specs.Completing.{Completes as CompletesCold};
ghost use Rattle.cold_runs.specs.Endings.{ColdEndsBy, RisesBy as RisesByCold, cold_run};
ghost use Rattle.spare_server.specs.Game.{trio_game};
ghost use Rattle.spare_server.specs.Worlds.{empty_trio};
ghost use Rattle.trio_runs.specs.Completing.{IsServedOrMemory};
ghost use Rattle.trio_runs.specs.Endings.{TrioEndsBy, trio_run};
ghost use Rattle.trio_runs.specs.Counting.{CallsCounted as TrioCallsCounted};
ghost use Rattle.trio_runs.specs.Falling.{FallsByCause as FallsTrio, FaultsFell as FaultsFellTrio};
ghost use Rattle.trio_runs.specs.Sentences.{DeclinesRightly as DeclinesTrio, OfAllLines as OfAllTrioLines};
ghost use Rattle.trio_runs.specs.Sentences.{OfAllLinesOf as OfAllTrioLinesOf, SettlesAll as SettlesTrio, Throughout as ThroughoutTrio};

use crate::ending::usage;
use callback_dispatch::Gate;
use cluster_core::World;
use cold_runs::{law_of_cold_runs, recover, run_cold};
use command_journal::ColdWorld;
use commands::{Command, command_of, text_of, wanted_of};
use disk_model::SharedDisk;
use io_edge::{Sink, Source};
use played_runs::{Status8, write_end};
use spare_server::TrioWorld;
use std::alloc::Global;
use std::sync::Wait;
use std::thread::Threads;
use text_commands::{check_text, generate, run_check, scan};
use trio_runs::{law_of_trio_runs, run_trio};
use world_runs::{law_of_runs, load, run_script};

// The command that the words are is done.
fn run_command<R: Threads + Wait + Sync, S: Source, K: Sink, D: SharedDisk, J: SharedDisk, G: Gate>(
    rt: &R,
    alloc: Global,
    command: Command,
    words: &[String],
    source: &mut S,
    out: &mut K,
    disk: &mut D,
    journal: &mut J,
    gate: &G,
    world: &mut World,
    cold: &mut ColdWorld,
    trio: &mut TrioWorld,
) -> Status8
    requires asked { Some command ≡ command_of (word_bytes words.now) }
    requires empty { world.old ≡ empty_world }
    requires cold_empty { cold.old ≡ empty_cold }
    requires trio_empty { trio.old ≡ empty_trio }
    requires unarmed { (D.seen disk.old).tally.armed ≡ None }
    requires journal_unarmed { (J.seen journal.old).tally.armed ≡ None }
    ensures { WordsEnd result (around (word_bytes words.now)
        (edge S.left S.faults source.old source.new) (edge K.written K.faults out.old out.new)
        D.seen disk.old disk.new world.old world.new)
        (beside trio.old trio.new J.seen journal.old journal.new cold.old cold.new) }
{
    match command {
        Command::Run => run_script(rt, alloc, source, out, disk, gate, world),
        Command::Check => run_check(alloc, source, out),
        Command::Cold => run_cold(rt, alloc, source, out, disk, journal, gate, cold),
        Command::Recover => recover(alloc, out, disk, journal),
        Command::Trio => run_trio(rt, alloc, source, out, disk, gate, trio),
        Command::Expr { kind } => write_end(out, check_text(alloc, kind, text_of(words))),
        Command::Gen { count, seed } => generate(alloc, count, seed, out),
        Command::Load { count, seed } => load(rt, alloc, count, seed, out, disk, gate, world),
        Command::Scan { query } => {
            scan(alloc, query, text_of(words), wanted_of(words), source, out)
        }
    }
}

// The words are read, and what they ask for is done.
fn run_words<R: Threads + Wait + Sync, S: Source, K: Sink, D: SharedDisk, J: SharedDisk, G: Gate>(
    rt: &R,
    alloc: Global,
    words: &[String],
    source: &mut S,
    out: &mut K,
    disk: &mut D,
    journal: &mut J,
    gate: &G,
    world: &mut World,
    cold: &mut ColdWorld,
    trio: &mut TrioWorld,
) -> Status8
    requires empty { world.old ≡ empty_world }
    requires cold_empty { cold.old ≡ empty_cold }
    requires trio_empty { trio.old ≡ empty_trio }
    requires unarmed { (D.seen disk.old).tally.armed ≡ None }
    requires journal_unarmed { (J.seen journal.old).tally.armed ≡ None }
    ensures { WordsEnd result (around (word_bytes words.now)
        (edge S.left S.faults source.old source.new) (edge K.written K.faults out.old out.new)
        D.seen disk.old disk.new world.old world.new)
        (beside trio.old trio.new J.seen journal.old journal.new cold.old cold.new) }
{
    match command_of(alloc, words) {
        Ok(Some(command)) => run_command(
            rt, alloc, command, words, source, out, disk, journal, gate, world, cold, trio,
        ),
        Ok(None) => write_end(out, usage(alloc)),
        Err(_) => Status8::Memory,
    }
}

/// Does what the words ask for, over a source, a sink, two disks and three empty worlds, and tells the status that the run ends with.
///
/// The words `run` read the source to its end as a script and play it over the disk: its first line begins a cluster, and the
/// others are its events, whose lines are written as each event ends; the workers of a dispatch pass the gate. The words
/// `check` read it to its end and tell whether it is a script. The words `expr KIND TEXT` tell whether the text is a format
/// expression, and the words `gen COUNT SEED` write the script of a large run, of so many turns from a seed on; the source
/// stays unread, and so it does by the words `load COUNT SEED`, which play that script over the disk and write, in place of the
/// lines of its events, one line behind the last one: on the world and on the disk's files. The words `scan KIND TEXT SIZE`
/// read the source to its end as records of the size and print of each the texts of the tokens of the expression, `find KIND
/// TEXT SIZE TOKEN WORD` of those in which the token of this number has the word as its text. Before the source is read a text
/// is refused that is no expression (`ScriptRefused`), or of whose tokens the texts cannot be told apart in records of the size
/// (`Inseparable`). SIZE is 0, for records that end with their first line feed, or 32 to 16,384; TOKEN is 1 to 1,024.
///
/// The words `trio` do what `run` does with a script for three servers, on the world that comes last; the clauses that are named
/// after them, and `serves`, say of it what the others say of `run`.
///
/// The words `cold` do so with a script for one server, whose journal is on the second disk, on the world beside; `recover` reads
/// no source, starts a server from the journal that stands, and writes how many entries it found and which files the first disk
/// has then (`recovers`). `JournalRefused` comes only where `recover`, or a line `restart a` of `cold`, found no journal or an open
/// gate without its whole frame; of `cold` never where the journal's disk tells its files (`cold_accepts`). Behind each `restart a`
/// that was not refused the history is what the journal held (`cold_finds`), and while the server is up with nothing in hand, the
/// files and the journal are those of the history (`cold_stands`); the other clauses of that name say of its lines what those
/// above say of two servers.
///
/// Each of these leaves the worlds of the others, and all other words leave the second disk too. No disk is armed before.
///
/// The clause `ends` says of each status what was read, what is written and what stands. Every count of faults stands but as
/// the status says: `WriteFault` comes exactly where the sink's rose, whatever was to come; the source's rises by `ReadFault`,
/// and only so, or where the sink failed or lacked memory as the text of just this end was written. The disk's goes along with
/// the lines that are played: it rises in one that is done only where a line of it tells that a server is down, and by
/// `DiskFault`: as the names were asked for, in the deeds of the start, as a line showed files, as `load` counted them behind
/// the last event, or in an event behind which no server is active. There no other server was in service as the disk failed:
/// the works that failed before are those by which the count rose before, and a takeover in the event had a fault of its own.
/// Of the count before that event it is said that a value of the disk with the files of the events before has it. Where memory
/// ran out in the sink, `Memory`, a front of a text was written; elsewhere no object had failed but the disk in works of
/// servers that went down, and all text up to there was written, which is none of `load`; `check`, `expr`, `gen`, `scan`,
/// `find` and words that are none of the program's leave disk and world as they are all the same, `expr`, `gen`, `load` and
/// such words the source too, and so do `scan` and `find` where it was not yet known whether their text serves.
///
/// The clauses behind them say of each run what holds at the end of every line that was played, by any status, whatever is
/// lost, repeated, reordered, crashed, stopped, restarted or failed over. A line tells a refusal by a client's agent exactly
/// where the calls that the client had sent, and those of them whose reply no line told, make one due. Each entry is of the
/// time that was in force as it was accepted. A server goes down only by `crash`, where the count that was armed came to
/// its end, or where the disk's count of faults rose. The disk counts the calls, faults and stops of the entries that a line
/// works, each worked once, of the takeovers behind those that fell and behind a crash, and the calls by which files are shown,
/// and no others. Of every subscription, the callbacks that its client got tell of the
/// first sends answered ok for which it asked while it lasted, each once and in order, and tell as lost those that were
/// dropped; so no notification comes twice to it, and those of one sender come in its order. No two calls have a record at
/// one place. Where a fault of the disk left no active server, the same holds of history, replies, callbacks and posts up to
/// the fault; the last entry, whose work failed, has no reply, but behind a `crash`; and what was answered as stored before
/// it stands, unless the entry gives its place away. Where the fault came in a line that shows files, all stands as at the
/// end of the line before. Where memory ran out in an event, what clients were fed up to there tells the same of the sends.
pub fn run<R: Threads + Wait + Sync, S: Source, K: Sink, D: SharedDisk, J: SharedDisk, G: Gate>(
    rt: &R,
    alloc: Global,
    words: &[String],
    source: &mut S,
    out: &mut K,
    disk: &mut D,
    journal: &mut J,
    gate: &G,
    world: &mut World,
    cold: &mut ColdWorld,
    trio: &mut TrioWorld,
) -> Status8
    requires empty { world.old ≡ empty_world }
    requires cold_empty { cold.old ≡ empty_cold }
    requires trio_empty { trio.old ≡ empty_trio }
    requires unarmed { (D.seen disk.old).tally.armed ≡ None }
    requires journal_unarmed { (J.seen journal.old).tally.armed ≡ None }

    // How the run ends, by its status.
    ensures ends { AsksOther (word_bytes words.now) → EndsBy result (around (word_bytes words.now)
        (edge S.left S.faults source.old source.new) (edge K.written K.faults out.old out.new)
        D.seen disk.old disk.new world.old world.new) }
    ensures trio_ends { AsksTrio (word_bytes words.now) → TrioEndsBy result (trio_run
        (edge S.left S.faults source.old source.new) (edge K.written K.faults out.old out.new)
        D.seen disk.old disk.new trio.old trio.new) }
    ensures cold_ends { AsksCold (word_bytes words.now) → ColdEndsBy result (cold_run
        (edge S.left S.faults source.old source.new) (edge K.written K.faults out.old out.new)
        D.seen disk.old disk.new J.seen journal.old journal.new cold.old cold.new) }
    ensures recovers { AsksRecover (word_bytes words.now) → RecoversBy (cold_stage
        (edge K.written K.faults out.old out.new) D.seen disk.old disk.new
        J.seen journal.old journal.new cold.old cold.new) result }

    // What was not asked for stays.
    ensures world_stays { AsksApart (word_bytes words.now) → world.new ≡ world.old }
    ensures trio_stays { ¬ AsksTrio (word_bytes words.now) → trio.new ≡ trio.old }
    ensures cold_stays { ¬ AsksJournal (word_bytes words.now)
        → (journal.new ≡ journal.old) × (cold.new ≡ cold.old) }
    ensures source_stays { AsksRecover (word_bytes words.now) → source.new ≡ source.old }

    // Which counts of faults rose.
    ensures faults { ¬ AsksJournal (word_bytes words.now)
        → RisesBy result (S.faults source.old, S.faults source.new)
        (K.faults out.old, K.faults out.new) ((D.seen disk.old).faults, (D.seen disk.new).faults) }
    ensures cold_faults { AsksCold (word_bytes words.now) → RisesByCold result (cold_run
        (edge S.left S.faults source.old source.new) (edge K.written K.faults out.old out.new)
        D.seen disk.old disk.new J.seen journal.old journal.new cold.old cold.new) }

    // What holds at the end of every line that was played.
    ensures one_history { Throughout (D.seen disk.old).files KeepsOneHistory }
    ensures replies { Throughout (D.seen disk.old).files RepliesRightly }
    ensures declines { OfAllLines (D.seen disk.old).files DeclinesRightly }
    ensures in_time { OfAllLines (D.seen disk.old).files CommitsInTime }
    ensures falls { OfAllLines (D.seen disk.old).files FallsByCause }
    ensures fells { OfAllLines (D.seen disk.old).files FaultsFell }
    ensures calls { OfAllLinesOf (D.seen disk.old).files (CallsCounted (D.seen disk.old).files) }
    ensures readers { Throughout (D.seen disk.old).files ReadsRightly }
    ensures callbacks { Throughout (D.seen disk.old).files CallsBack }
    ensures tells_once { Throughout (D.seen disk.old).files TellsOnce }
    ensures posts { Throughout (D.seen disk.old).files PrintsPosts }
    ensures files { Throughout (D.seen disk.old).files KeepsFiles }
    ensures stays { Throughout (D.seen disk.old).files KeepsRecords }
    ensures stands_once { Throughout (D.seen disk.old).files StandsOnce }
    ensures settles { Throughout (D.seen disk.old).files SettlesAll }

    // What holds at the end of every line that was played on three servers.
    ensures trio_one_history { ThroughoutTrio (D.seen disk.old).files KeepsOneHistory }
    ensures trio_replies { ThroughoutTrio (D.seen disk.old).files RepliesRightly }
    ensures trio_declines { OfAllTrioLines (D.seen disk.old).files DeclinesTrio }
    ensures trio_in_time { OfAllTrioLines (D.seen disk.old).files CommitsInTime }
    ensures trio_falls { OfAllTrioLines (D.seen disk.old).files FallsTrio }
    ensures trio_fells { OfAllTrioLines (D.seen disk.old).files FaultsFellTrio }
    ensures trio_calls { OfAllTrioLinesOf (D.seen disk.old).files
        (TrioCallsCounted (D.seen disk.old).files) }
    ensures trio_readers { ThroughoutTrio (D.seen disk.old).files ReadsRightly }
    ensures trio_callbacks { ThroughoutTrio (D.seen disk.old).files CallsBack }
    ensures trio_tells_once { ThroughoutTrio (D.seen disk.old).files TellsOnce }
    ensures trio_posts { ThroughoutTrio (D.seen disk.old).files PrintsPosts }
    ensures trio_files { ThroughoutTrio (D.seen disk.old).files KeepsFiles }
    ensures trio_records { ThroughoutTrio (D.seen disk.old).files KeepsRecords }
    ensures trio_stands_once { ThroughoutTrio (D.seen disk.old).files StandsOnce }
    ensures trio_settles { ThroughoutTrio (D.seen disk.old).files SettlesTrio }

    // What holds at the end of every line that was played on one server and its journal.
    ensures cold_one_history { ThroughoutCold (both (D.seen disk.old) (J.seen journal.old))
        (OfWorld KeepsOneHistory) }
    ensures cold_finds { OfAllColdLines (both (D.seen disk.old) (J.seen journal.old)) FindsAll }
    ensures cold_falls { OfAllColdLines (both (D.seen disk.old) (J.seen journal.old)) FallsCold }
    ensures cold_declines { OfAllColdLines (both (D.seen disk.old) (J.seen journal.old))
        DeclinesCold }
    ensures cold_in_time { OfAllColdLines (both (D.seen disk.old) (J.seen journal.old))
        (OfLine CommitsInTime) }
    ensures cold_replies { ThroughoutCold (both (D.seen disk.old) (J.seen journal.old))
        (OfWorld RepliesRightly) }
    ensures cold_readers { ThroughoutCold (both (D.seen disk.old) (J.seen journal.old))
        (OfWorld ReadsRightly) }
    ensures cold_callbacks { ThroughoutCold (both (D.seen disk.old) (J.seen journal.old))
        (OfWorld CallsBack) }
    ensures cold_tells_once { ThroughoutCold (both (D.seen disk.old) (J.seen journal.old))
        (OfWorld TellsOnce) }
    ensures cold_posts { ThroughoutCold (both (D.seen disk.old) (J.seen journal.old))
        (OfWorld PrintsPosts) }
    ensures cold_stands_once { ThroughoutCold (both (D.seen disk.old) (J.seen journal.old))
        (OfWorld StandsOnce) }
    ensures cold_records { ThroughoutCold (both (D.seen disk.old) (J.seen journal.old))
        KeepsRecordsCold }
    ensures cold_stands { ThroughoutCold (both (D.seen disk.old) (J.seen journal.old))
        JournalStands }
    ensures cold_settles { ThroughoutCold (both (D.seen disk.old) (J.seen journal.old))
        SettlesCold }

    // What holds where a fault of the disk ended the run in an event.
    ensures fault_keeps { KeepsAtFault (D.seen disk.old).files
        (D.seen disk.new) world.new }
    ensures trio_fault_keeps { (KeepsTrioAtFault trio_game) (D.seen disk.old).files
        (D.seen disk.new) trio.new }
    ensures cold_fault_keeps { KeepsColdAtFault (both (D.seen disk.old) (J.seen journal.old))
        (both (D.seen disk.new) (J.seen journal.new)) cold.new }

    // What holds where memory ran out in an event.
    ensures want_tells { TellsAtWant (D.seen disk.old).files
        (D.seen disk.new) world.new }
    ensures trio_want_tells { (TellsTrioAtWant trio_game) (D.seen disk.old).files
        (D.seen disk.new) trio.new }
    ensures cold_want_tells { TellsColdAtWant (both (D.seen disk.old) (J.seen journal.old))
        (both (D.seen disk.new) (J.seen journal.new)) cold.new }

    // Where nothing fails, a script is played, a script is checked, an expression is taken apart, a script is made, a large run
    // is played, and records are told: only memory may be missing.
    ensures completes { CanRun (word_bytes words.now) (S.left source.old) (D.seen disk.old).files
        → NoneRises (S.faults source.old, S.faults source.new) (K.faults out.old, K.faults out.new)
        ((D.seen disk.old).faults, (D.seen disk.new).faults) → IsDoneOrMemory result }
    ensures serves { CanServeBy (word_bytes words.now) (S.left source.old) (D.seen disk.old).files
        → NoneRises (S.faults source.old, S.faults source.new) (K.faults out.old, K.faults out.new)
        ((D.seen disk.old).faults, (D.seen disk.new).faults) → IsServedOrMemory result }
    ensures cold_completes { AsksCold (word_bytes words.now) → CompletesCold result (cold_run
        (edge S.left S.faults source.old source.new) (edge K.written K.faults out.old out.new)
        D.seen disk.old disk.new J.seen journal.old journal.new cold.old cold.new) }
    ensures cold_accepts { AsksCold (word_bytes words.now) → IsSome (J.seen journal.old).files
        → result ≡ Status8.JournalRefused → ⊥ }
    ensures checks { CanCheck (word_bytes words.now) (S.left source.old)
        → ¬ HasRisen (S.faults source.old, S.faults source.new)
        → ¬ HasRisen (K.faults out.old, K.faults out.new) → IsDoneOrMemory result }
    ensures exprs { CanParse (word_bytes words.now)
        → ¬ HasRisen (K.faults out.old, K.faults out.new) → IsDoneOrMemory result }
    ensures generates { CanGenerate (word_bytes words.now)
        → ¬ HasRisen (K.faults out.old, K.faults out.new) → IsDoneOrMemory result }
    ensures loads { CanLoad (word_bytes words.now) (D.seen disk.old).files
        → ¬ HasRisen (K.faults out.old, K.faults out.new)
        → ¬ HasRisen ((D.seen disk.old).faults, (D.seen disk.new).faults) → IsDoneOrMemory result }
    ensures scans { HoldsRecords (word_bytes words.now) (S.left source.old)
        → ¬ HasRisen (S.faults source.old, S.faults source.new)
        → ¬ HasRisen (K.faults out.old, K.faults out.new) → IsDoneOrMemory result }
{
    law_of_runs();
    law_of_trio_runs();
    law_of_cold_runs();
    run_words(
        rt, alloc, words, source, out, disk, journal, gate, world, cold, trio,
    )
}
