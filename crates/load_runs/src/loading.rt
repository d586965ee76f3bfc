//! The script of a large run is made turn by turn and played, and one line tells where it led.
ghost use Rattle.std.specs.Prelude.{◌≡◌, ◌<◌, ◌++◌, ℕ, Option, None};
ghost use Rattle.disk_model.specs.Disk.{Files};
ghost use Rattle.plain_service.specs.Setups.{Setup};
ghost use Rattle.script_language.specs.Scripts.{IsScriptOf};
ghost use Rattle.load_script.specs.Texts.{load_text};
ghost use Rattle.load_lines.specs.Lines.{closing_lines, first_lines, load_lines, opening_line, turn_lines, turns_lines};
ghost use Rattle.played_runs.specs.Edges.{edge, stage};
ghost use Rattle.played_runs.specs.Ends.{StoodUpTo};
ghost use Rattle.played_runs.specs.Games.{Begun};
ghost use Rattle.played_runs.specs.Handed.{BeginsBy, DoesLines, Opened};
ghost use Rattle.played_runs.specs.Passing.{HasGone, Passes, RisesPassing};
ghost use Rattle.played_runs.specs.Steps.{HasBegun};
ghost use Rattle.played_runs.specs.Views.{HoldsNone, counters_of, names_told};
ghost use Rattle.played_runs.specs.Writing.{Ended, Written, unasked};
ghost use Rattle.load_runs.specs.Handed.{CanTell, PlaysLoads, TellsStates};
ghost use Rattle.load_runs.specs.Loading.{LineOf};
ghost use Rattle.load_runs.specs.LoadSteps.{LoadedOn, RunEnds, RunWants, TellsEnd};

use ais_values::Seq;
use cluster_clients::EventAnswer;
use disk_model::{DiskAnswer, SharedDisk};
use io_edge::Sink;
use load_lines::{closing_lines, first_lines, law_of_loads, opening_line, turn_lines};
use load_script::{first_state, next_state, number_in};
use played_runs::{
    Halt, Playable, Status8, begin_by, first_name, pass_lines, write_broken, write_held, write_text,
};
use script_lines::Line;
use std::alloc::Global;
use std::mem;

// Plays a turn.
fn pass_turn<W, D: SharedDisk, E>(
    alloc: Global,
    turn: u32,
    number: u32,
    disk: &mut D,
    world: &mut W,
    event: &E,
) -> Result<(), Halt>
where
    W: Playable<Line>,
    E: Fn(&Line, &mut D, &mut W) -> Result<Seq<Seq<u8>>, EventAnswer>,
    requires lines { PlaysLoads W.game }
    requires gone { HasGone W.game (D.seen disk.old) world.old }
    requires small { number < 65536 }
    requires event { DoesLines W.game D.seen E.Fn event.now }
    ensures passes { Passes W.game (StoodUpTo D.seen) (turn_lines turn number)
        (D.seen disk.old) (D.seen disk.new) world.old world.new result }
    ensures counts { RisesPassing ((D.seen disk.old).faults, (D.seen disk.new).faults) result }
{
    match turn_lines(alloc, turn, number) {
        Ok(lines) => pass_lines(lines, disk, world, event),
        Err(_) => Err(Halt::Memory),
    }
}

// Plays all turns.
fn pass_turns<W, D: SharedDisk, E>(
    alloc: Global,
    count: u32,
    seed: u64,
    disk: &mut D,
    world: &mut W,
    event: &E,
) -> Result<(), Halt>
where
    W: Playable<Line>,
    E: Fn(&Line, &mut D, &mut W) -> Result<Seq<Seq<u8>>, EventAnswer>,
    requires lines { PlaysLoads W.game }
    requires gone { HasGone W.game (D.seen disk.old) world.old }
    requires event { DoesLines W.game D.seen E.Fn event.now }
    ensures passes { Passes W.game (StoodUpTo D.seen) (turns_lines seed count)
        (D.seen disk.old) (D.seen disk.new) world.old world.new result }
    ensures counts { RisesPassing ((D.seen disk.old).faults, (D.seen disk.new).faults) result }
{
    let mut state = first_state(seed);
    for done in 0..count {
        state = next_state(state);
        match pass_turn(alloc, done + 1, number_in(state), disk, world, event) {
            Ok(()) => {}
            Err(halt) => return Err(halt),
        }
    }
    Ok(())
}

// Plays the lines before the first turn.
fn pass_first<W, D: SharedDisk, E>(
    alloc: Global,
    disk: &mut D,
    world: &mut W,
    event: &E,
) -> Result<(), Halt>
where
    W: Playable<Line>,
    E: Fn(&Line, &mut D, &mut W) -> Result<Seq<Seq<u8>>, EventAnswer>,
    requires lines { PlaysLoads W.game }
    requires gone { HasGone W.game (D.seen disk.old) world.old }
    requires event { DoesLines W.game D.seen E.Fn event.now }
    ensures passes { Passes W.game (StoodUpTo D.seen) first_lines
        (D.seen disk.old) (D.seen disk.new) world.old world.new result }
    ensures counts { RisesPassing ((D.seen disk.old).faults, (D.seen disk.new).faults) result }
{
    match first_lines(alloc) {
        Ok(lines) => pass_lines(lines, disk, world, event),
        Err(_) => Err(Halt::Memory),
    }
}

// Plays the lines behind the last turn.
fn pass_closing<W, D: SharedDisk, E>(
    alloc: Global,
    disk: &mut D,
    world: &mut W,
    event: &E,
) -> Result<(), Halt>
where
    W: Playable<Line>,
    E: Fn(&Line, &mut D, &mut W) -> Result<Seq<Seq<u8>>, EventAnswer>,
    requires lines { PlaysLoads W.game }
    requires gone { HasGone W.game (D.seen disk.old) world.old }
    requires event { DoesLines W.game D.seen E.Fn event.now }
    ensures passes { Passes W.game (StoodUpTo D.seen) closing_lines
        (D.seen disk.old) (D.seen disk.new) world.old world.new result }
    ensures counts { RisesPassing ((D.seen disk.old).faults, (D.seen disk.new).faults) result }
{
    match closing_lines(alloc) {
        Ok(lines) => pass_lines(lines, disk, world, event),
        Err(_) => Err(Halt::Memory),
    }
}

// Plays the lines up to the last turn.
fn pass_front<W, D: SharedDisk, E>(
    alloc: Global,
    count: u32,
    seed: u64,
    disk: &mut D,
    world: &mut W,
    event: &E,
) -> Result<(), Halt>
where
    W: Playable<Line>,
    E: Fn(&Line, &mut D, &mut W) -> Result<Seq<Seq<u8>>, EventAnswer>,
    requires lines { PlaysLoads W.game }
    requires gone { HasGone W.game (D.seen disk.old) world.old }
    requires event { DoesLines W.game D.seen E.Fn event.now }
    ensures passes { Passes W.game (StoodUpTo D.seen) (first_lines ++ turns_lines seed count)
        (D.seen disk.old) (D.seen disk.new) world.old world.new result }
    ensures counts { RisesPassing ((D.seen disk.old).faults, (D.seen disk.new).faults) result }
{
    match pass_first(alloc, disk, world, event) {
        Ok(()) => pass_turns(alloc, count, seed, disk, world, event),
        Err(halt) => Err(halt),
    }
}

// Plays all lines behind the cluster line.
fn pass_events<W, D: SharedDisk, E>(
    alloc: Global,
    count: u32,
    seed: u64,
    disk: &mut D,
    world: &mut W,
    event: &E,
) -> Result<(), Halt>
where
    W: Playable<Line>,
    E: Fn(&Line, &mut D, &mut W) -> Result<Seq<Seq<u8>>, EventAnswer>,
    requires lines { PlaysLoads W.game }
    requires gone { HasGone W.game (D.seen disk.old) world.old }
    requires event { DoesLines W.game D.seen E.Fn event.now }
    ensures passes { Passes W.game (StoodUpTo D.seen)
        (first_lines ++ turns_lines seed count ++ closing_lines)
        (D.seen disk.old) (D.seen disk.new) world.old world.new result }
    ensures counts { RisesPassing ((D.seen disk.old).faults, (D.seen disk.new).faults) result }
{
    match pass_front(alloc, count, seed, disk, world, event) {
        Ok(()) => pass_closing(alloc, disk, world, event),
        Err(halt) => Err(halt),
    }
}

// Writes the line that tells where the run led.
fn tell_end<W, K: Sink, D: SharedDisk, T>(out: &mut K, disk: &mut D, world: &W, tell: &T) -> Status8
where
    W: Playable<Line>,
    T: Fn(&mut D, &W) -> Result<String, Halt>,
    requires tell { CanTell T.Fn tell.now }
    ensures { (line_of : LineOf W.game) → TellsStates W.game D.seen line_of T.Fn tell.now
        → TellsEnd W.game line_of (D.seen disk.old) (D.seen disk.new) world.now
        (edge K.written K.faults out.old out.new) result }
{
    match tell(disk, world) {
        Ok(line) => write_text(out, Status8::Done, line.as_bytes()),
        Err(Halt::Memory) => Status8::Memory,
        Err(Halt::DiskFault) => write_broken(out, &[]),
    }
}

// Plays all lines behind the cluster line, and tells where they led.
fn run_events<W, K: Sink, D: SharedDisk, E, T>(
    alloc: Global,
    count: u32,
    seed: u64,
    out: &mut K,
    disk: &mut D,
    world: &mut W,
    event: &E,
    tell: &T,
) -> Status8
where
    W: Playable<Line>,
    E: Fn(&Line, &mut D, &mut W) -> Result<Seq<Seq<u8>>, EventAnswer>,
    T: Fn(&mut D, &W) -> Result<String, Halt>,
    requires lines { PlaysLoads W.game }
    requires begun { HasBegun W.game (D.seen disk.old) world.old }
    requires event { DoesLines W.game D.seen E.Fn event.now }
    requires tell { CanTell T.Fn tell.now }
    ensures { (line_of : LineOf W.game) → TellsStates W.game D.seen line_of T.Fn tell.now
        → (setup : Setup) (places : ℕ) (held : Option Files)
        → Begun W.game setup places held (D.seen disk.old) world.old
        → let events = first_lines ++ turns_lines seed count ++ closing_lines
        in let first = counters_of (D.seen disk.old) in let left = D.seen disk.new
        in Ended unasked ((D.seen disk.old).faults, left.faults)
        (RunEnds W.game line_of setup places held first left (StoodUpTo D.seen) world.new events)
        (RunWants W.game setup places held first left (StoodUpTo D.seen) world.new events)
        (edge K.written K.faults out.old out.new) result }
{
    match pass_events(alloc, count, seed, disk, world, event) {
        Ok(()) => tell_end(out, disk, world, tell),
        Err(Halt::Memory) => Status8::Memory,
        Err(Halt::DiskFault) => write_broken(out, &[]),
    }
}

// Begins the cluster by the first line of the script.
fn begin_load<W, D: SharedDisk, B>(
    disk: &mut D,
    world: &mut W,
    begin: &B,
) -> Result<(), EventAnswer>
where
    W: Playable<Line>,
    B: Fn(&Line, &mut D, &mut W) -> Result<(), EventAnswer>,
    requires lines { PlaysLoads W.game }
    requires empty { world.old ≡ W.game.empty }
    requires unarmed { (D.seen disk.old).tally.armed ≡ None }
    requires begin { BeginsBy W.game D.seen B.Fn begin.now }
    ensures { Opened W.game D.seen opening_line disk.old disk.new world.old world.new result }
{
    begin_by(opening_line(), disk, world, begin)
}

// Begins the cluster, and plays the lines behind its line. The stage is that of the disk before its names were asked for.
fn open_load<W, K: Sink, D: SharedDisk, B, E, T>(
    alloc: Global,
    count: u32,
    seed: u64,
    out: &mut K,
    disk: &mut D,
    world: &mut W,
    begin: &B,
    event: &E,
    tell: &T,
) -> Status8
where
    W: Playable<Line>,
    B: Fn(&Line, &mut D, &mut W) -> Result<(), EventAnswer>,
    E: Fn(&Line, &mut D, &mut W) -> Result<Seq<Seq<u8>>, EventAnswer>,
    T: Fn(&mut D, &W) -> Result<String, Halt>,
    requires lines { PlaysLoads W.game }
    requires empty { world.old ≡ W.game.empty }
    requires bare { HoldsNone (D.seen disk.old).files }
    requires unarmed { (D.seen disk.old).tally.armed ≡ None }
    requires begin { BeginsBy W.game D.seen B.Fn begin.now }
    requires event { DoesLines W.game D.seen E.Fn event.now }
    requires tell { CanTell T.Fn tell.now }
    ensures { (line_of : LineOf W.game) → TellsStates W.game D.seen line_of T.Fn tell.now
        → (earlier : D) → D.seen disk.old ≡ names_told (D.seen earlier)
        → LoadedOn W.game line_of (load_lines count seed)
        (stage (edge K.written K.faults out.old out.new)
        D.seen earlier disk.new world.old world.new) result }
{
    match begin_load(disk, world, begin) {
        Ok(()) => run_events(alloc, count, seed, out, disk, world, event, tell),
        Err(EventAnswer::Memory) => Status8::Memory,
        Err(EventAnswer::DiskFault { printed }) => {
            mem::drop(printed);
            write_broken(out, &[])
        }
    }
}

/// Plays the script of so many turns from a seed on over a world that plays shared lines, by what begins one, what does a line and
/// what makes the line that tells where they led. Its lines are made one turn after another, and their events write nothing.
///
/// `RootNotEmpty` comes where the disk holds a file; its least name is written, and disk and world stay. `DiskFault`
/// comes only where the disk's count of faults rose: where it comes in the playing of the same script, or as the files were
/// counted behind the last line, where all stands as that line left it. It takes the memory of the world and of one turn.
pub fn play_load<W, K: Sink, D: SharedDisk, B, E, T>(
    alloc: Global,
    count: u32,
    seed: u64,
    out: &mut K,
    disk: &mut D,
    world: &mut W,
    begin: &B,
    event: &E,
    tell: &T,
) -> Status8
where
    W: Playable<Line>,
    B: Fn(&Line, &mut D, &mut W) -> Result<(), EventAnswer>,
    E: Fn(&Line, &mut D, &mut W) -> Result<Seq<Seq<u8>>, EventAnswer>,
    T: Fn(&mut D, &W) -> Result<String, Halt>,
    requires lines { PlaysLoads W.game }
    requires empty { world.old ≡ W.game.empty }
    requires unarmed { (D.seen disk.old).tally.armed ≡ None }
    requires begin { BeginsBy W.game D.seen B.Fn begin.now }
    requires event { DoesLines W.game D.seen E.Fn event.now }
    requires tell { CanTell T.Fn tell.now }
    ensures script { IsScriptOf (load_lines count seed) (load_text count seed) }
    ensures ends { (line_of : LineOf W.game) → TellsStates W.game D.seen line_of T.Fn tell.now
        → LoadedOn W.game line_of (load_lines count seed)
        (stage (edge K.written K.faults out.old out.new)
        D.seen disk.old disk.new world.old world.new) result }
{
    law_of_loads();
    match first_name(alloc, disk) {
        Ok(None) => open_load(alloc, count, seed, out, disk, world, begin, event, tell),
        Ok(Some(name)) => write_held(alloc, out, name.as_slice()),
        Err(DiskAnswer::Memory) => Status8::Memory,
        // Names are read, so that the disk does not stop.
        Err(DiskAnswer::Stopped) => Status8::Memory,
        Err(DiskAnswer::Failed) => write_broken(out, &[]),
    }
}
