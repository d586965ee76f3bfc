//! Playing lines over any world: a script begins it on a disk without files, and then line follows line.
ghost use Rattle.std.specs.Prelude.{◌≡◌, ◌∷◌, ◌++◌, ℕ, codes, Option, None, IfOk};
ghost use Rattle.ais_values.specs.Causes.{RoseExactlyOn};
ghost use Rattle.disk_model.specs.Counts.{read_more};
ghost use Rattle.disk_model.specs.Disk.{Files};
ghost use Rattle.plain_service.specs.Setups.{Setup};
ghost use Rattle.played_runs.specs.Edges.{edge, stage};
ghost use Rattle.played_runs.specs.Ends.{StoodUpTo};
ghost use Rattle.played_runs.specs.Games.{Begun};
ghost use Rattle.played_runs.specs.Handed.{BeginsBy, CanDo, DoesLines};
ghost use Rattle.played_runs.specs.Steps.{CanFollow, CanPlay, EventsEnd, FindsNames, HasBegun, IsPlayable, LacksBehind, PlayedOn, PlaysLine};
ghost use Rattle.played_runs.specs.Views.{HoldsNone, counters_of, names_told};
ghost use Rattle.played_runs.specs.Writing.{Ended, IsNone, IsText, Written, unasked};

use crate::ending::{Status8, root_holds};
use crate::left::LinesLeft;
use crate::passing::begin_by;
use crate::playable::Playable;
use crate::writing::{unwritten, write_broken, write_lines, write_text};
use ais_values::{Duplicate, Seq, Text};
use cluster_clients::EventAnswer;
use disk_model::{DiskAnswer, SharedDisk};
use io_edge::Sink;
use std::alloc::Global;
use std::mem;

// Plays a line: its event, and the writing of its lines. `Err` has the status that the run ends with.
fn play_line<L, W, K: Sink, D: SharedDisk, E>(
    line: &L,
    out: &mut K,
    disk: &mut D,
    world: &mut W,
    event: &E,
) -> Result<(), Status8>
where
    W: Playable<L>,
    E: Fn(&L, &mut D, &mut W) -> Result<Seq<Seq<u8>>, EventAnswer>,
    requires can { CanDo W.game D.seen line.now disk.old world.old }
    requires event { DoesLines W.game D.seen E.Fn event.now }
    ensures { PlaysLine W.game line.now (D.seen disk.old) (D.seen disk.new) world.old world.new
        (edge K.written K.faults out.old out.new) result }
{
    match event(line, disk, world) {
        Ok(lines) => match write_lines(out, lines.as_slice()) {
            Ok(()) => Ok(()),
            Err(answer) => Err(unwritten(answer)),
        },
        Err(EventAnswer::Memory) => Err(Status8::Memory),
        Err(EventAnswer::DiskFault { printed }) => Err(write_broken(out, printed.as_slice())),
    }
}

// Plays a line, and lets it go.
fn play_one<L: Drop, W, K: Sink, D: SharedDisk, E>(
    line: L,
    out: &mut K,
    disk: &mut D,
    world: &mut W,
    event: &E,
) -> Result<(), Status8>
where
    W: Playable<L>,
    E: Fn(&L, &mut D, &mut W) -> Result<Seq<Seq<u8>>, EventAnswer>,
    requires can { CanDo W.game D.seen line disk.old world.old }
    requires event { DoesLines W.game D.seen E.Fn event.now }
    ensures { PlaysLine W.game line (D.seen disk.old) (D.seen disk.new) world.old world.new
        (edge K.written K.faults out.old out.new) result }
{
    let played = play_line(&line, out, disk, world, event);
    mem::drop(line);
    played
}

// Plays the lines behind the opening, each of which is let go once it was played.
fn play_events<L: Drop, W, K: Sink, D: SharedDisk, E>(
    events: &mut LinesLeft<L>,
    out: &mut K,
    disk: &mut D,
    world: &mut W,
    event: &E,
) -> Status8
where
    W: Playable<L>,
    E: Fn(&L, &mut D, &mut W) -> Result<Seq<Seq<u8>>, EventAnswer>,
    requires begun { HasBegun W.game (D.seen disk.old) world.old }
    requires follows { CanFollow W.game (W.game.now world.old) events.old }
    requires event { DoesLines W.game D.seen E.Fn event.now }
    ensures { (setup : Setup) (places : ℕ) (held : Option Files)
        → Begun W.game setup places held (D.seen disk.old) world.old
        → let first = counters_of (D.seen disk.old) in
        Ended unasked ((D.seen disk.old).faults, (D.seen disk.new).faults)
        (EventsEnd W.game setup places held first (D.seen disk.new) (StoodUpTo D.seen) world.new
        events.old)
        (LacksBehind W.game setup places held first (D.seen disk.new) world.new events.old)
        (edge K.written K.faults out.old out.new) result }
{
    while let Some(line) = events.take_next() {
        match play_one(line, out, disk, world, event) {
            Ok(()) => {}
            Err(status) => return status,
        }
    }
    Status8::Done
}

// Begins the cluster, and plays the lines behind its line, which is let go. The stage is that of the disk before its names were asked for.
fn open<L: Drop, W, K: Sink, D: SharedDisk, B, E>(
    opening: L,
    events: &mut LinesLeft<L>,
    out: &mut K,
    disk: &mut D,
    world: &mut W,
    begin: &B,
    event: &E,
) -> Status8
where
    W: Playable<L>,
    B: Fn(&L, &mut D, &mut W) -> Result<(), EventAnswer>,
    E: Fn(&L, &mut D, &mut W) -> Result<Seq<Seq<u8>>, EventAnswer>,
    requires script { CanPlay W.game opening events.old }
    requires empty { world.old ≡ W.game.empty }
    requires bare { HoldsNone (D.seen disk.old).files }
    requires unarmed { (D.seen disk.old).tally.armed ≡ None }
    requires begin { BeginsBy W.game D.seen B.Fn begin.now }
    requires event { DoesLines W.game D.seen E.Fn event.now }
    ensures { (earlier : D) → D.seen disk.old ≡ names_told (D.seen earlier)
        → PlayedOn W.game (opening ∷ events.old)
        (stage (edge K.written K.faults out.old out.new) D.seen earlier disk.new
        world.old world.new) result }
{
    match begin_by(opening, disk, world, begin) {
        Ok(()) => play_events(events, out, disk, world, event),
        Err(EventAnswer::Memory) => Status8::Memory,
        Err(EventAnswer::DiskFault { printed }) => write_broken(out, printed.as_slice()),
    }
}

/// The least name of the disk's files, if it holds one. `Failed` comes exactly where its count of faults rose.
pub fn first_name<D: SharedDisk>(alloc: Global, disk: &mut D) -> Result<Option<Text>, DiskAnswer>
    ensures found { IfOk result (λ found. FindsNames (D.seen disk.old).files found) }
    ensures same { (D.seen disk.new).files ≡ (D.seen disk.old).files }
    ensures stops_stay { (D.seen disk.new).stops ≡ (D.seen disk.old).stops }
    ensures counted { (D.seen disk.new).tally ≡ read_more 1 (D.seen disk.old).tally }
    ensures cause { RoseExactlyOn (D.seen disk.old).faults (D.seen disk.new).faults result
        DiskAnswer.Failed }
{
    let names = match disk.names(alloc) {
        Ok(names) => names,
        Err(answer) => return Err(answer),
    };
    match names.as_slice() {
        [] => Ok(None),
        [first, ..] => match first.copy(alloc) {
            Ok(name) => Ok(Some(name)),
            Err(_) => Err(DiskAnswer::Memory),
        },
    }
}

/// Writes the end where the disk held a file of this name.
pub fn write_held<K: Sink>(alloc: Global, out: &mut K, name: &[u8]) -> Status8
    ensures { Written (IsText Status8.RootNotEmpty
        (codes "root not empty: " ++ (name.now ++ codes "\n")))
        IsNone (edge K.written K.faults out.old out.new) result }
{
    match root_holds(alloc, name) {
        Ok(end) => write_text(out, end.status, end.text.as_slice()),
        Err(_) => Status8::Memory,
    }
}

// Plays the lines of a script, which are let go.
fn play_all<L: Drop, W, K: Sink, D: SharedDisk, B, E>(
    alloc: Global,
    lines: &mut LinesLeft<L>,
    out: &mut K,
    disk: &mut D,
    world: &mut W,
    begin: &B,
    event: &E,
) -> Status8
where
    W: Playable<L>,
    B: Fn(&L, &mut D, &mut W) -> Result<(), EventAnswer>,
    E: Fn(&L, &mut D, &mut W) -> Result<Seq<Seq<u8>>, EventAnswer>,
    requires script { IsPlayable W.game lines.old }
    requires empty { world.old ≡ W.game.empty }
    requires unarmed { (D.seen disk.old).tally.armed ≡ None }
    requires begin { BeginsBy W.game D.seen B.Fn begin.now }
    requires event { DoesLines W.game D.seen E.Fn event.now }
    ensures { PlayedOn W.game lines.old (stage (edge K.written K.faults out.old out.new)
        D.seen disk.old disk.new world.old world.new) result }
{
    match first_name(alloc, disk) {
        Ok(None) => match lines.take_next() {
            None => Status8::Memory,
            Some(opening) => open(opening, lines, out, disk, world, begin, event),
        },
        Ok(Some(name)) => write_held(alloc, out, name.as_slice()),
        Err(DiskAnswer::Memory) => Status8::Memory,
        // Names are read, so that the disk does not stop.
        Err(DiskAnswer::Stopped) => Status8::Memory,
        Err(DiskAnswer::Failed) => write_broken(out, &[]),
    }
}

/// Plays the lines of a script over a disk: the first begins a cluster where the disk holds no file, and the
/// others are its events, whose lines are written as each event ends. A line is let go once it was played.
///
/// `RootNotEmpty` comes where the disk holds a file; its least name is written, and disk and world stay.
/// `DiskFault` comes only where the disk's count of faults rose: as its names were asked for, in the deeds of the start, as a
/// line showed files, or where no other server was in service. A fault in the work of a server whose standby takes over ends
/// no run; its rise is told by a line `server S down`.
pub fn play<L: Drop, W, K: Sink, D: SharedDisk, B, E>(
    alloc: Global,
    lines: Seq<L>,
    out: &mut K,
    disk: &mut D,
    world: &mut W,
    begin: &B,
    event: &E,
) -> Status8
where
    W: Playable<L>,
    B: Fn(&L, &mut D, &mut W) -> Result<(), EventAnswer>,
    E: Fn(&L, &mut D, &mut W) -> Result<Seq<Seq<u8>>, EventAnswer>,
    requires script { IsPlayable W.game lines }
    requires empty { world.old ≡ W.game.empty }
    requires unarmed { (D.seen disk.old).tally.armed ≡ None }
    requires begin { BeginsBy W.game D.seen B.Fn begin.now }
    requires event { DoesLines W.game D.seen E.Fn event.now }
    ensures { PlayedOn W.game lines (stage (edge K.written K.faults out.old out.new)
        D.seen disk.old disk.new world.old world.new) result }
{
    let mut left = LinesLeft::new(lines);
    let status = play_all(alloc, &mut left, out, disk, world, begin, event);
    mem::drop(left);
    status
}
