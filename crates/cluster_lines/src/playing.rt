//! What each line of a script does to a cluster.
ghost use Rattle.std.specs.Prelude.{◌≡◌, false, OnOk, OnErr, IfErr};
ghost use Rattle.std.specs.Result.{is_ok};
ghost use Rattle.script_lines.specs.declared.line.Line.TheVariants.{Deliver, Push, Inject, Settle};
ghost use Rattle.cluster_rounds.specs.Counted.{Counted};
ghost use Rattle.cluster_rounds.specs.Wild.{StandsOf, StandsOn, KeepsWild, GoesWild, always};
ghost use Rattle.cluster_rounds.specs.Worlds.{HasStateOn, Does, any_state, pushed};
ghost use Rattle.cluster_rounds.specs.Broken.{BreaksAlone};
ghost use Rattle.cluster_lines.specs.Lines.{IsInRange, CanPlay, is_own};
ghost use Rattle.cluster_lines.specs.Playing.{Plays, BreaksOff, LooksBy, SharesIn};
ghost use Rattle.cluster_lines.specs.Answers.{DoneAtStop, EndsAs};
ghost use Rattle.cluster_lines.specs.Steps.{deliver_at, PlaysAlone};

use crate::Scripted;
use crate::showing::{refused, show_file, show_files, show_servers};
use ais_values::{Seq, Text};
use callback_dispatch::Gate;
use client_agent::How;
use cluster_rounds::{Cluster, deliver, dispatch, inject, resend, settle};
use disk_model::{DiskAnswer, SharedDisk};
use script_lines::Line;
use std::alloc::{AllocError, Global};
use std::sync::Wait;
use std::thread::Threads;
use wire::let_messages_go;

/// The byte string of a line's number is delivered. The line is refused where the net has none of that number.
fn deliver_line<R: Wait, S: Scripted>(
    rt: &R,
    alloc: Global,
    world: &mut Cluster<S>,
    lines: &mut Vec<Seq<u8>>,
    line: &Line,
    place: u64,
) -> Result<(), AllocError>
    requires state { StandsOf S.kit any_state always world.old }
    requires line { line.now ≡ Deliver place }
    ensures ok { OnOk result (Does S.kit (deliver_at S.kit place) world.old world.new
        lines.old.items lines.new.items) }
    ensures err { OnErr result (BreaksAlone S.kit world.old world.new) }
    ensures wild { OnOk result (KeepsWild S.kit always world.old world.new) }
{
    match deliver(rt, alloc, world, lines, place) {
        Ok(done) => {
            if done {
                return Ok(());
            }
            refused(alloc, world, lines, line)
        }
        Err(error) => Err(error),
    }
}

/// All items without receipt are posted. The line is refused while an entry is in hand.
fn push_line<S: Scripted>(
    alloc: Global,
    world: &mut Cluster<S>,
    lines: &mut Vec<Seq<u8>>,
    line: &Line,
) -> Result<(), AllocError>
    requires state { StandsOf S.kit any_state always world.old }
    requires line { line.now ≡ Push }
    requires shares { SharesIn S.kit S.script Push world.old }
    ensures ok { OnOk result (Does S.kit (pushed S.kit) world.old world.new lines.old.items
        lines.new.items) }
    ensures err { OnErr result (BreaksAlone S.kit world.old world.new) }
    ensures wild { OnOk result (KeepsWild S.kit always world.old world.new) }
{
    if S::standing(world).in_hand.is_some() {
        return refused(alloc, world, lines, line);
    }
    match S::push(alloc, world, lines) {
        Ok(items) => {
            let_messages_go(items);
            Ok(())
        }
        Err(error) => Err(error),
    }
}

/// Bytes are put into the net that no message spells. The line is refused where a message spells them.
fn inject_line<S: Scripted>(
    alloc: Global,
    world: &mut Cluster<S>,
    lines: &mut Vec<Seq<u8>>,
    line: &Line,
    bytes: &Text,
) -> Result<(), AllocError>
    requires { line.now ≡ Inject bytes.now }
    ensures ok { OnOk result (PlaysAlone S.kit line.now world.old world.new lines.old.items
        lines.new.items) }
    ensures err { OnErr result (BreaksAlone S.kit world.old world.new) }
    ensures wild { OnOk result (KeepsWild S.kit always world.old world.new) }
{
    match inject(alloc, world, lines, bytes.as_slice()) {
        Ok(done) => {
            if !done {
                return refused(alloc, world, lines, line);
            }
            Ok(())
        }
        Err(error) => Err(error),
    }
}

/// What a line does that leaves the disk alone. Other lines are no part of it, and answer as if memory ran out.
fn play_alone<R: Threads + Wait + Sync, S: Scripted, G: Gate>(
    rt: &R,
    alloc: Global,
    world: &mut Cluster<S>,
    lines: &mut Vec<Seq<u8>>,
    line: &Line,
    gate: &G,
) -> Result<(), AllocError>
    requires state { StandsOf S.kit any_state always world.old }
    requires range { IsInRange line.now }
    requires can { CanPlay S.script world.old.now line.now }
    requires shares { SharesIn S.kit S.script line.now world.old }
    ensures ok { OnOk result (PlaysAlone S.kit line.now world.old world.new lines.old.items
        lines.new.items) }
    ensures err { OnErr result (BreaksAlone S.kit world.old world.new) }
    ensures wild { OnOk result (KeepsWild S.kit always world.old world.new) }
{
    match line {
        Line::Time { now } => {
            world.now = *now;
            Ok(())
        }
        Line::Log { client, ask } => cluster_rounds::ask(rt, alloc, world, lines, *client, ask),
        Line::Ntf { client, ask } => cluster_rounds::ask(rt, alloc, world, lines, *client, ask),
        Line::Deliver { place } => deliver_line(rt, alloc, world, lines, line, *place),
        Line::Resend { client } => resend(alloc, world, lines, *client),
        Line::Push => push_line(alloc, world, lines, line),
        Line::Inject { bytes } => inject_line(alloc, world, lines, line, bytes),
        Line::DispatchOne { client } => dispatch(rt, alloc, world, lines, *client, How::One, gate),
        Line::DispatchAll { client, workers } => {
            let how = How::All { workers: *workers };
            dispatch(rt, alloc, world, lines, *client, how, gate)
        }
        Line::Servers => show_servers(alloc, world, lines),
        _ => Err(AllocError),
    }
}

/// The same end, as a disk's answer.
pub fn as_answer(done: Result<(), AllocError>) -> Result<(), DiskAnswer>
    ensures { EndsAs done result }
{
    match done {
        Ok(()) => Ok(()),
        Err(_) => Err(DiskAnswer::Memory),
    }
}

/// Whether a line asks something of the servers alone.
fn is_own(line: &Line) -> bool
    ensures { result ≡ is_own line.now }
{
    matches!(
        line,
        Line::Mirror
            | Line::Ack
            | Line::Work
            | Line::Crash { .. }
            | Line::Arm { .. }
            | Line::Disarm
            | Line::Restart { .. }
    )
}

/// The same end, but that one by a stop of a disk is none.
pub fn done_at_stop<T: Copy>(done: Result<T, DiskAnswer>) -> Result<(), DiskAnswer>
    ensures { DoneAtStop done result }
{
    match done {
        Ok(_) => Ok(()),
        Err(answer) => match answer {
            DiskAnswer::Stopped => Ok(()),
            DiskAnswer::Memory => Err(DiskAnswer::Memory),
            DiskAnswer::Failed => Err(DiskAnswer::Failed),
        },
    }
}

/// `settle`. Where no server goes on behind a stop of the disk the line ends there, and is done.
fn settle_line<R: Wait, S: Scripted, D: SharedDisk, J: SharedDisk>(
    rt: &R,
    alloc: Global,
    world: &mut Cluster<S>,
    lines: &mut Vec<Seq<u8>>,
    disk: &mut D,
    beside: &mut J,
) -> Result<(), DiskAnswer>
    requires state { StandsOn S.kit any_state always world.old
        (S.kit.see (D.seen disk.old) (J.seen beside.old)) }
    requires shares { SharesIn S.kit S.script Settle world.old }
    ensures ok { OnOk result (Plays S.kit S.script Settle world.old world.new lines.old.items
        lines.new.items (S.kit.see (D.seen disk.old) (J.seen beside.old))
        (S.kit.see (D.seen disk.new) (J.seen beside.new))) }
    ensures stands { HasStateOn S.kit any_state world.old
        (S.kit.see (D.seen disk.old) (J.seen beside.old)) → OnOk result (HasStateOn S.kit any_state
        world.new (S.kit.see (D.seen disk.new) (J.seen beside.new))) }
    ensures broken { IfErr result (λ answer. BreaksOff S.kit S.script answer Settle world.old
        world.new lines.old.items lines.new.items (S.kit.see (D.seen disk.old) (J.seen beside.old))
        (S.kit.see (D.seen disk.new) (J.seen beside.new))) }
    ensures wild { GoesWild S.kit always result world.old world.new
        (S.kit.see (D.seen disk.old) (J.seen beside.old))
        (S.kit.see (D.seen disk.new) (J.seen beside.new)) }
    ensures counts { Counted S.kit (S.kit.see (D.seen disk.old) (J.seen beside.old))
        (S.kit.see (D.seen disk.new) (J.seen beside.new)) result }
{
    done_at_stop(settle(rt, alloc, world, lines, disk, beside))
}

/// What a line does that is not the servers' own.
fn play_shared<R: Threads + Wait + Sync, S: Scripted, D: SharedDisk, J: SharedDisk, G: Gate>(
    rt: &R,
    alloc: Global,
    world: &mut Cluster<S>,
    lines: &mut Vec<Seq<u8>>,
    line: &Line,
    disk: &mut D,
    beside: &mut J,
    gate: &G,
) -> Result<(), DiskAnswer>
    requires state { StandsOn S.kit any_state always world.old
        (S.kit.see (D.seen disk.old) (J.seen beside.old)) }
    requires range { IsInRange line.now }
    requires can { CanPlay S.script world.old.now line.now }
    requires shares { SharesIn S.kit S.script line.now world.old }
    requires shared { is_own line.now ≡ false }
    ensures ok { OnOk result (Plays S.kit S.script line.now world.old world.new lines.old.items
        lines.new.items (S.kit.see (D.seen disk.old) (J.seen beside.old))
        (S.kit.see (D.seen disk.new) (J.seen beside.new))) }
    ensures stands { HasStateOn S.kit any_state world.old
        (S.kit.see (D.seen disk.old) (J.seen beside.old)) → OnOk result (HasStateOn S.kit any_state
        world.new (S.kit.see (D.seen disk.new) (J.seen beside.new))) }
    ensures broken { IfErr result (λ answer. BreaksOff S.kit S.script answer line.now world.old
        world.new lines.old.items lines.new.items (S.kit.see (D.seen disk.old) (J.seen beside.old))
        (S.kit.see (D.seen disk.new) (J.seen beside.new))) }
    ensures wild { GoesWild S.kit always result world.old world.new
        (S.kit.see (D.seen disk.old) (J.seen beside.old))
        (S.kit.see (D.seen disk.new) (J.seen beside.new)) }
    ensures counts { Counted S.kit (S.kit.see (D.seen disk.old) (J.seen beside.old))
        (S.kit.see (D.seen disk.new) (J.seen beside.new)) result }
    ensures looks { LooksBy line.now (D.seen disk.old).files (is_ok result) (D.seen disk.old).tally
        (D.seen disk.new).tally }
{
    match line {
        Line::Settle => settle_line(rt, alloc, world, lines, disk, beside),
        Line::Files => show_files(alloc, world, lines, disk),
        Line::Cat { name } => show_file(alloc, world, lines, disk, line, name),
        _ => as_answer(play_alone(rt, alloc, world, lines, line, gate)),
    }
}

/// What a line does.
///
/// `Failed` comes exactly where the disk had a fault that it did not outlive: its count of faults rose. A line that shows files
/// leaves all as it was then. Any other ended at an entry that was worked, and its lines are those of all that was done until then.
/// `files` asks the disk once for the names and once for the length of each, `cat` once for the length and once for the bytes where
/// there are any; another line that is not the servers' own, and not `settle`, asks it nothing.
/// `Memory` comes where memory ran out; some of the line was done. `Stopped` never comes where the cluster stands for a history: a
/// line in which no server goes on behind a stop of the disk ends there, and is done. Where it may stand for none nothing is said of
/// what servers answer; behind a line that was done it can go on.
pub fn play<R: Threads + Wait + Sync, S: Scripted, D: SharedDisk, J: SharedDisk, G: Gate>(
    rt: &R,
    alloc: Global,
    world: &mut Cluster<S>,
    lines: &mut Vec<Seq<u8>>,
    line: &Line,
    disk: &mut D,
    beside: &mut J,
    gate: &G,
) -> Result<(), DiskAnswer>
    requires state { StandsOn S.kit any_state always world.old
        (S.kit.see (D.seen disk.old) (J.seen beside.old)) }
    requires range { IsInRange line.now }
    requires can { CanPlay S.script world.old.now line.now }
    requires shares { SharesIn S.kit S.script line.now world.old }
    ensures ok { OnOk result (Plays S.kit S.script line.now world.old world.new lines.old.items
        lines.new.items (S.kit.see (D.seen disk.old) (J.seen beside.old))
        (S.kit.see (D.seen disk.new) (J.seen beside.new))) }
    ensures stands { HasStateOn S.kit any_state world.old
        (S.kit.see (D.seen disk.old) (J.seen beside.old)) → OnOk result (HasStateOn S.kit any_state
        world.new (S.kit.see (D.seen disk.new) (J.seen beside.new))) }
    ensures broken { IfErr result (λ answer. BreaksOff S.kit S.script answer line.now world.old
        world.new lines.old.items lines.new.items (S.kit.see (D.seen disk.old) (J.seen beside.old))
        (S.kit.see (D.seen disk.new) (J.seen beside.new))) }
    ensures wild { GoesWild S.kit always result world.old world.new
        (S.kit.see (D.seen disk.old) (J.seen beside.old))
        (S.kit.see (D.seen disk.new) (J.seen beside.new)) }
    ensures counts { Counted S.kit (S.kit.see (D.seen disk.old) (J.seen beside.old))
        (S.kit.see (D.seen disk.new) (J.seen beside.new)) result }
    ensures looks { LooksBy line.now (D.seen disk.old).files (is_ok result) (D.seen disk.old).tally
        (D.seen disk.new).tally }
{
    if is_own(line) {
        return S::play_own(alloc, world, lines, line, disk, beside);
    }
    play_shared(rt, alloc, world, lines, line, disk, beside, gate)
}
