//! Servers that are crashed.
ghost use Rattle.std.specs.Prelude.{◌≡◌, ◌≤◌, ◌++◌, true, ℕ, List, IfOk, OnOk, OnErr, IfErr, length};
ghost use Rattle.std.specs.List.{AllByRecursion};
ghost use Rattle.script_lines.specs.declared.line.Line.TheVariants.{Crash};
ghost use Rattle.mirror.specs.Replicas.{down};
ghost use Rattle.mirror.specs.Pairing.{alone};
ghost use Rattle.cluster_rounds.specs.Worlds.{HasStateOn, any_state};
ghost use Rattle.cluster_lines.specs.Playing.{BreaksOff};
ghost use Rattle.group_servers.specs.Caught.{CanCatch};
ghost use Rattle.group_servers.specs.Falls.{IsFitSeat};
ghost use Rattle.group_servers.specs.Lines.{takers, joiners, end_lines};
ghost use Rattle.group_servers.specs.Parted.{leads, follows};
ghost use Rattle.group_servers.specs.Prepared.{Prepares, Falls};
ghost use Rattle.group_servers.specs.GroupKit.{group_kit, group_script};
ghost use Rattle.group_servers.specs.Steps.{CrashesOn, IsUntold};

use crate::Group;
use crate::catching::{catch_if, push_caught, put_caught, take_caught};
use crate::falling::take_over;
use crate::joining::leads;
use crate::parting::crash_other;
use crate::seats::{any_fresh, any_other_standby, catches, is_up_at, same_server};
use crate::standing::refused;
use crate::telling::put_ends;
use ais_values::Seq;
use cluster_lines::as_answer;
use cluster_rounds::Cluster;
use disk_model::{DiskAnswer, SharedDisk};
use lead_server::go_down;
use script_lines::{Line, Server};
use std::alloc::{AllocError, Global};

/// Whether a server is not the active one and not down, and another one is in service: the active one, unless it is armed, or a standby.
fn follows<const N: usize>(servers: &Group<N>, server: Server) -> bool
    ensures { result ≡ follows server servers.now }
{
    (!same_server(server, servers.acting) && is_up_at(&servers.seats, server))
        && (!servers.armed || any_other_standby(&servers.seats, server))
}

/// What comes before the active server goes down: where a standby has the entry in hand all others apply it, and its line is put; and then
/// the lines of all ends. Answers whether the entry is committed so, whether some standby keeps no deeds, and behind how many lines those
/// of the ends stand.
fn prepare<const N: usize>(
    alloc: Global,
    world: &mut Cluster<Group<N>>,
    lines: &mut Vec<Seq<u8>>,
) -> Result<(bool, bool, usize), AllocError>
    requires catch { AllByRecursion CanCatch world.old.servers.seats }
    ensures ok { IfOk result (λ made. Prepares made.0 made.1 made.2 world.old world.new
        lines.old.items lines.new.items) }
    ensures err { OnErr result (IsUntold world.old world.new) }
{
    world.history.reserve()?;
    let catching = catches(&world.servers.seats);
    let now = world.now;
    catch_if(alloc, catching, &mut world.servers.seats, now)?;
    let entries = world.history.len();
    put_caught(alloc, catching, lines, &world.servers.active, entries)?;
    let base = lines.as_slice().len();
    let fresh = any_fresh(&world.servers.seats);
    put_ends(
        alloc,
        lines,
        world.servers.acting,
        &world.servers.seats,
        fresh,
    )?;
    Ok((catching, fresh, base))
}

/// The active server goes down, and a standby takes over. The entry in hand is committed where all standbys have it.
fn fall<const N: usize, D: SharedDisk>(
    alloc: Global,
    world: &mut Cluster<Group<N>>,
    lines: &mut Vec<Seq<u8>>,
    catching: bool,
    fresh: bool,
    base: usize,
    disk: &mut D,
) -> Result<(), DiskAnswer>
    requires room { 1 ≤ world.old.history.spare }
    requires fit { AllByRecursion IsFitSeat world.old.servers.seats }
    requires lines { (before : List (List ℕ)) × (length before ≡ base) × (lines.old.items
        ≡ before ++ end_lines world.old.servers.acting (takers fresh world.old.servers.seats)
        (joiners world.old.servers.seats)) }
    ensures { (before : List (List ℕ)) → length before ≡ base → lines.old.items ≡ before
        ++ end_lines world.old.servers.acting (takers fresh world.old.servers.seats) (joiners
        world.old.servers.seats) → Falls catching fresh result world.old world.new before
        lines.new.items (D.seen disk.old) (D.seen disk.new) }
{
    let caught = take_caught(catching, &mut world.servers.active);
    go_down(&mut world.servers.active);
    let now = world.now;
    let taken = take_over(alloc, &mut world.servers, lines, base, fresh, now, disk);
    push_caught(&mut world.history, caught);
    taken
}

/// The active server crashes, and a standby takes over.
fn crash_active<const N: usize, D: SharedDisk>(
    alloc: Global,
    world: &mut Cluster<Group<N>>,
    lines: &mut Vec<Seq<u8>>,
    server: Server,
    disk: &mut D,
) -> Result<(), DiskAnswer>
    requires state { HasStateOn (group_kit N) any_state world.old (D.seen disk.old) }
    requires leads { leads server world.old.servers ≡ true }
    ensures ok { OnOk result (CrashesOn N server world.old world.new lines.old.items lines.new.items
        (D.seen disk.old) (D.seen disk.new)) }
    ensures err { IfErr result (λ answer. BreaksOff (group_kit N) group_script answer (Crash server)
        world.old world.new lines.old.items lines.new.items (D.seen disk.old) (D.seen disk.new)) }
{
    match prepare(alloc, world, lines) {
        Ok((catching, fresh, base)) => fall(alloc, world, lines, catching, fresh, base, disk),
        Err(_) => Err(DiskAnswer::Memory),
    }
}

/// `crash S`: a server goes down. Where the active one does, a standby takes over, and is active from then on: one that has applied no entry
/// since it started or joined, if there is one, and else the first; and where that one has a fault of the disk, the next. All standbys apply
/// the entry in hand before, where one has it. Where another one does, an entry that waits for it alone is committed. The event is refused
/// where the server is down already, and where no other one is in service, which is active and not armed, or standby.
///
/// `Failed` comes where the disk had a fault as the last standby took over: all of them are down. `Memory` comes where memory ran out.
pub fn crash<const N: usize, D: SharedDisk>(
    alloc: Global,
    world: &mut Cluster<Group<N>>,
    lines: &mut Vec<Seq<u8>>,
    line: &Line,
    server: Server,
    disk: &mut D,
) -> Result<(), DiskAnswer>
    requires state { HasStateOn (group_kit N) any_state world.old (D.seen disk.old) }
    requires line { line.now ≡ Crash server }
    ensures ok { OnOk result (CrashesOn N server world.old world.new lines.old.items lines.new.items
        (D.seen disk.old) (D.seen disk.new)) }
    ensures err { IfErr result (λ answer. BreaksOff (group_kit N) group_script answer (Crash server)
        world.old world.new lines.old.items lines.new.items (D.seen disk.old) (D.seen disk.new)) }
{
    if leads(&world.servers, server) {
        return crash_active(alloc, world, lines, server, disk);
    }
    if follows(&world.servers, server) {
        return as_answer(crash_other(alloc, world, lines, server));
    }
    as_answer(refused(alloc, world, lines, line))
}
