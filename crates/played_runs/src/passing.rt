//! Lines that are played, of which nothing is written.
ghost use Rattle.std.specs.Prelude.{◌∷◌, [], List};
ghost use Rattle.played_runs.specs.Ends.{StoodUpTo};
ghost use Rattle.played_runs.specs.Handed.{BeginsBy, CanDo, CanOpen, DoesLines, Opened};
ghost use Rattle.played_runs.specs.Passing.{CanPass, HasGone, Passes, RisesPassing};

use crate::playable::Playable;
use ais_values::Seq;
use cluster_clients::EventAnswer;
use disk_model::SharedDisk;
use std::mem;

/// Why a run of lines of which nothing is written was not brought to its end.
#[derive(Clone, Copy, Debug, PartialEq, Eq)]
pub enum Halt {
    /// Memory ran out.
    Memory,
    /// The disk failed.
    DiskFault,
}

/// Begins a world by its first line, which is let go. It answers as `begin` does.
pub fn begin_by<L: Drop, W, D: SharedDisk, B>(
    opening: L,
    disk: &mut D,
    world: &mut W,
    begin: &B,
) -> Result<(), EventAnswer>
where
    W: Playable<L>,
    B: Fn(&L, &mut D, &mut W) -> Result<(), EventAnswer>,
    requires can { CanOpen W.game D.seen opening disk.old world.old }
    requires begin { BeginsBy W.game D.seen B.Fn begin.now }
    ensures { Opened W.game D.seen opening disk.old disk.new world.old world.new result }
{
    let begun = begin(&opening, disk, world);
    mem::drop(opening);
    begun
}

// Plays a line, and lets go what it prints.
fn pass_line<L, W, D: SharedDisk, E>(
    line: &L,
    disk: &mut D,
    world: &mut W,
    event: &E,
) -> Result<(), Halt>
where
    W: Playable<L>,
    E: Fn(&L, &mut D, &mut W) -> Result<Seq<Seq<u8>>, EventAnswer>,
    requires can { CanDo W.game D.seen line.now disk.old world.old }
    requires event { DoesLines W.game D.seen E.Fn event.now }
    ensures passes { Passes W.game (StoodUpTo D.seen) (line.now ∷ [])
        (D.seen disk.old) (D.seen disk.new) world.old world.new result }
    ensures counts { RisesPassing ((D.seen disk.old).faults, (D.seen disk.new).faults) result }
{
    match event(line, disk, world) {
        Ok(printed) => {
            mem::drop(printed);
            Ok(())
        }
        Err(EventAnswer::Memory) => Err(Halt::Memory),
        Err(EventAnswer::DiskFault { printed }) => {
            mem::drop(printed);
            Err(Halt::DiskFault)
        }
    }
}

// Plays lines one after another, which stay.
fn pass_all<L, W, D: SharedDisk, E>(
    lines: &[L],
    disk: &mut D,
    world: &mut W,
    event: &E,
) -> Result<(), Halt>
where
    W: Playable<L>,
    E: Fn(&L, &mut D, &mut W) -> Result<Seq<Seq<u8>>, EventAnswer>,
    requires gone { HasGone W.game (D.seen disk.old) world.old }
    requires can { CanPass W.game lines.now }
    requires event { DoesLines W.game D.seen E.Fn event.now }
    ensures passes { Passes W.game (StoodUpTo D.seen) lines.now
        (D.seen disk.old) (D.seen disk.new) world.old world.new result }
    ensures counts { RisesPassing ((D.seen disk.old).faults, (D.seen disk.new).faults) result }
{
    for line in lines {
        match pass_line(line, disk, world, event) {
            Ok(()) => {}
            Err(halt) => return Err(halt),
        }
    }
    Ok(())
}

/// Plays lines one after another, whatever time is in force, behind others that led to this world; nothing is written. The lines are let
/// go.
///
/// `DiskFault` comes only where the disk's count of faults rose in a line behind which no server is active, or that shows files. `Memory`
/// comes where memory ran out in a line. Behind either no further line is played.
pub fn pass_lines<L: Drop, W, D: SharedDisk, E>(
    lines: Seq<L>,
    disk: &mut D,
    world: &mut W,
    event: &E,
) -> Result<(), Halt>
where
    W: Playable<L>,
    E: Fn(&L, &mut D, &mut W) -> Result<Seq<Seq<u8>>, EventAnswer>,
    requires gone { HasGone W.game (D.seen disk.old) world.old }
    requires can { CanPass W.game lines }
    requires event { DoesLines W.game D.seen E.Fn event.now }
    ensures passes { Passes W.game (StoodUpTo D.seen) lines
        (D.seen disk.old) (D.seen disk.new) world.old world.new result }
    ensures counts { RisesPassing ((D.seen disk.old).faults, (D.seen disk.new).faults) result }
{
    let passed = pass_all(lines.as_slice(), disk, world, event);
    mem::drop(lines);
    passed
}
