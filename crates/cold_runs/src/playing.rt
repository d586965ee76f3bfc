//! Playing a script on one server and its journal.
ghost use Rattle.std.specs.Prelude.{◌≡◌, ◌∷◌, [], IfOk, List, None};
ghost use Rattle.command_journal.specs.Worlds.{both, empty_cold, HasCold};
ghost use Rattle.cold_servers.specs.ColdSeen.{ColdSeen};
ghost use Rattle.played_runs.specs.Edges.{edge};
ghost use Rattle.played_runs.specs.Views.{HoldsNone};
ghost use Rattle.played_runs.specs.Writing.{IsNone, IsText, Written};
ghost use Rattle.cold_runs.specs.Ends.{both_named, refused_line, PlaysCold};
ghost use Rattle.cold_runs.specs.Stages.{cold_scene};
ghost use Rattle.cold_runs.specs.Steps.{is_late, AnswerWritten, AsksNames, CanComeCold, CanOpenCold, IsPlayableCold, NamesOf, PlaysEvents, PlaysOne};

use ais_values::{Seq, Text};
use callback_dispatch::Gate;
use command_journal::{ColdWorld, EventAnswer};
use disk_model::{DiskAnswer, SharedDisk};
use io_edge::Sink;
use played_runs::{
    End, LinesLeft, Status8, end_with, first_name, unwritten, write_broken, write_held,
    write_lines, write_text,
};
use script_lines::{Line, let_line_go};
use std::alloc::{AllocError, Global};
use std::mem;
use std::sync::Wait;
use std::thread::Threads;

// The end where there is no journal to start from.
fn refused_end(alloc: Global, place: Option<u64>) -> Result<End, AllocError>
    ensures status { IfOk result (λ end. end.status ≡ Status8.JournalRefused) }
    ensures text { IfOk result (λ end. end.text.items ≡ refused_line place) }
{
    match place {
        None => end_with(alloc, Status8::JournalRefused, b"no journal\n"),
        Some(place) => {
            let printed = format!(in alloc; "journal {place}\n")?;
            end_with(alloc, Status8::JournalRefused, printed.as_bytes())
        }
    }
}

// Writes that there is no journal to start from.
pub(crate) fn write_refused<K: Sink>(alloc: Global, out: &mut K, place: Option<u64>) -> Status8
    ensures { Written (IsText Status8.JournalRefused (refused_line place)) IsNone
        (edge K.written K.faults out.old out.new) result }
{
    match refused_end(alloc, place) {
        Ok(end) => write_text(out, end.status, end.text.as_slice()),
        Err(_) => Status8::Memory,
    }
}

// Writes why an event was not done.
fn write_answer<K: Sink>(alloc: Global, out: &mut K, answer: EventAnswer) -> Status8
    ensures { AnswerWritten answer (edge K.written K.faults out.old out.new) result }
{
    match answer {
        EventAnswer::Memory => Status8::Memory,
        EventAnswer::DiskFault { printed } => write_broken(out, printed.as_slice()),
        EventAnswer::Journal { place } => write_refused(alloc, out, place),
    }
}

// Whether a line sets a time below the one in force.
fn is_late(line: &Line, world: &ColdWorld) -> bool
    ensures { result ≡ is_late line.now world.entry.now.now }
{
    match line {
        Line::Time { now: later } => *later < world.now,
        _ => false,
    }
}

// Plays a line: its event, and the writing of its lines. `Err` has the status that the run ends with.
fn play_line<R: Threads + Wait + Sync, K: Sink, D: SharedDisk, J: SharedDisk, G: Gate>(
    rt: &R,
    alloc: Global,
    line: &Line,
    out: &mut K,
    disk: &mut D,
    journal: &mut J,
    gate: &G,
    world: &mut ColdWorld,
) -> Result<(), Status8>
    requires can { CanComeCold (line.now ∷ []) }
    requires state { HasCold world.old (both (D.seen disk.old) (J.seen journal.old)) }
    ensures { PlaysOne line.now world.old world.new (both (D.seen disk.old) (J.seen journal.old))
        (both (D.seen disk.new) (J.seen journal.new)) (edge K.written K.faults out.old out.new)
        result }
{
    // A script's times do not fall. Where it is not known what a start found, it is not known either which time is in force.
    if is_late(line, world) {
        return Err(Status8::Memory);
    }
    match world.event(rt, alloc, line, disk, journal, gate) {
        Ok(lines) => match write_lines(out, lines.as_slice()) {
            Ok(()) => Ok(()),
            Err(answer) => Err(unwritten(answer)),
        },
        Err(answer) => Err(write_answer(alloc, out, answer)),
    }
}

// Plays a line, and lets it go.
fn play_one<R: Threads + Wait + Sync, K: Sink, D: SharedDisk, J: SharedDisk, G: Gate>(
    rt: &R,
    alloc: Global,
    line: Line,
    out: &mut K,
    disk: &mut D,
    journal: &mut J,
    gate: &G,
    world: &mut ColdWorld,
) -> Result<(), Status8>
    requires can { CanComeCold (line ∷ []) }
    requires state { HasCold world.old (both (D.seen disk.old) (J.seen journal.old)) }
    ensures { PlaysOne line world.old world.new (both (D.seen disk.old) (J.seen journal.old))
        (both (D.seen disk.new) (J.seen journal.new)) (edge K.written K.faults out.old out.new)
        result }
{
    let played = play_line(rt, alloc, &line, out, disk, journal, gate, world);
    let_line_go(line);
    played
}

// Plays the lines behind the opening, each of which is let go once it was played.
fn play_events<R: Threads + Wait + Sync, K: Sink, D: SharedDisk, J: SharedDisk, G: Gate>(
    rt: &R,
    alloc: Global,
    events: &mut LinesLeft<Line>,
    out: &mut K,
    disk: &mut D,
    journal: &mut J,
    gate: &G,
    world: &mut ColdWorld,
) -> Status8
    requires can { CanComeCold events.old }
    requires state { HasCold world.old (both (D.seen disk.old) (J.seen journal.old)) }
    ensures { PlaysEvents events.old world.old world.new
        (both (D.seen disk.old) (J.seen journal.old)) (both (D.seen disk.new) (J.seen journal.new))
        (edge K.written K.faults out.old out.new) result }
{
    while let Some(line) = events.take_next() {
        match play_one(rt, alloc, line, out, disk, journal, gate, world) {
            Ok(()) => {}
            Err(status) => return status,
        }
    }
    Status8::Done
}

// The least name of a disk's files, if it holds one.
fn name_of<D: SharedDisk>(alloc: Global, disk: &mut D) -> Result<Option<Text>, DiskAnswer>
    ensures { NamesOf (D.seen disk.old) (D.seen disk.new) result }
{
    match first_name(alloc, disk) {
        Ok(found) => Ok(found),
        Err(answer) => Err(answer),
    }
}

// The least name of the record disk's files, or else of the journal's disk's, if one of them holds a file.
fn first_of<D: SharedDisk, J: SharedDisk>(
    alloc: Global,
    disk: &mut D,
    journal: &mut J,
) -> Result<Option<Text>, DiskAnswer>
    ensures { AsksNames (both (D.seen disk.old) (J.seen journal.old))
        (both (D.seen disk.new) (J.seen journal.new)) result }
{
    match name_of(alloc, disk) {
        Ok(None) => name_of(alloc, journal),
        Ok(Some(name)) => Ok(Some(name)),
        Err(answer) => Err(answer),
    }
}

// Begins the server and its journal, and plays the lines behind their line, which is let go. The scene is that before the disks were asked for
// their names.
fn open<R: Threads + Wait + Sync, K: Sink, D: SharedDisk, J: SharedDisk, G: Gate>(
    rt: &R,
    alloc: Global,
    opening: Line,
    events: &mut LinesLeft<Line>,
    out: &mut K,
    disk: &mut D,
    journal: &mut J,
    gate: &G,
    world: &mut ColdWorld,
) -> Status8
    requires script { CanOpenCold opening events.old }
    requires empty { world.old ≡ empty_cold }
    requires bare { HoldsNone (D.seen disk.old).files }
    requires bare_too { HoldsNone (J.seen journal.old).files }
    requires unarmed { (D.seen disk.old).tally.armed ≡ None }
    requires unarmed_too { (J.seen journal.old).tally.armed ≡ None }
    ensures { (held : ColdSeen) → both (D.seen disk.old) (J.seen journal.old) ≡ both_named held
        → PlaysCold (opening ∷ events.old) (cold_scene held
        (both (D.seen disk.new) (J.seen journal.new)) world.old world.new)
        (edge K.written K.faults out.old out.new) result }
{
    match world.begin(rt, alloc, &opening, disk, journal) {
        Ok(()) => {
            let_line_go(opening);
            play_events(rt, alloc, events, out, disk, journal, gate, world)
        }
        Err(answer) => {
            let_line_go(opening);
            write_answer(alloc, out, answer)
        }
    }
}

// Plays the lines of a script, which are let go.
fn play_all<R: Threads + Wait + Sync, K: Sink, D: SharedDisk, J: SharedDisk, G: Gate>(
    rt: &R,
    alloc: Global,
    lines: &mut LinesLeft<Line>,
    out: &mut K,
    disk: &mut D,
    journal: &mut J,
    gate: &G,
    world: &mut ColdWorld,
) -> Status8
    requires script { IsPlayableCold lines.old }
    requires empty { world.old ≡ empty_cold }
    requires unarmed { (D.seen disk.old).tally.armed ≡ None }
    requires unarmed_too { (J.seen journal.old).tally.armed ≡ None }
    ensures { PlaysCold lines.old (cold_scene (both (D.seen disk.old) (J.seen journal.old))
        (both (D.seen disk.new) (J.seen journal.new)) world.old world.new)
        (edge K.written K.faults out.old out.new) result }
{
    match first_of(alloc, disk, journal) {
        Ok(None) => match lines.take_next() {
            None => Status8::Memory,
            Some(opening) => { open(rt, alloc, opening, lines, out, disk, journal, gate, world) }
        },
        Ok(Some(name)) => write_held(alloc, out, name.as_slice()),
        Err(DiskAnswer::Memory) => Status8::Memory,
        // Names are read, so that no disk stops.
        Err(DiskAnswer::Stopped) => Status8::Memory,
        Err(DiskAnswer::Failed) => write_broken(out, &[]),
    }
}

/// Plays the lines of a script on one server and its journal: the first begins both where neither disk holds a file, and the others are
/// their events, whose lines are written as each event ends. The workers of a dispatch pass the gate. A line is let go once it was
/// played.
///
/// `RootNotEmpty` comes where a disk holds a file, the record disk's first: its least name is written, and disks and world stay.
/// `DiskFault` comes only where a disk's count of faults rose: as its names were asked for, in the start, or in the event that ended the
/// run. `JournalRefused` comes only where `restart a` found no journal to start from, on a journal's disk that does not tell its files.
pub fn play_cold<R: Threads + Wait + Sync, K: Sink, D: SharedDisk, J: SharedDisk, G: Gate>(
    rt: &R,
    alloc: Global,
    lines: Seq<Line>,
    out: &mut K,
    disk: &mut D,
    journal: &mut J,
    gate: &G,
    world: &mut ColdWorld,
) -> Status8
    requires script { IsPlayableCold lines }
    requires empty { world.old ≡ empty_cold }
    requires unarmed { (D.seen disk.old).tally.armed ≡ None }
    requires unarmed_too { (J.seen journal.old).tally.armed ≡ None }
    ensures { PlaysCold lines (cold_scene (both (D.seen disk.old) (J.seen journal.old))
        (both (D.seen disk.new) (J.seen journal.new)) world.old world.new)
        (edge K.written K.faults out.old out.new) result }
{
    let mut left = LinesLeft::new(lines);
    let status = play_all(rt, alloc, &mut left, out, disk, journal, gate, world);
    mem::drop(left);
    status
}
