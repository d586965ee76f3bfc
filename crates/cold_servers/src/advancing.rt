//! Steps of a drain, while the server is up.
ghost use Rattle.std.specs.Prelude.{◌≡◌, [], IfErr, IfOk};
ghost use Rattle.cluster_rounds.specs.Came.{Advances, ComesOff};
ghost use Rattle.cluster_rounds.specs.Counted.{Counted};
ghost use Rattle.cluster_rounds.specs.Rounds.{EndsStep};
ghost use Rattle.cluster_rounds.specs.Wild.{always, GoesWild, StandsOn};
ghost use Rattle.cluster_rounds.specs.Worlds.{any_state};
ghost use Rattle.cold_servers.specs.ColdKit.{cold_kit};
ghost use Rattle.cold_servers.specs.Steps.{AreUp};

use crate::Solo;
use ais_values::Seq;
use cluster_rounds::Cluster;
use disk_model::{DiskAnswer, SharedDisk};
use lone_server::{hear_back, is_clear, join_journal, work_entry};
use std::alloc::Global;

/// The entry in hand is worked, if it is ready. Nothing is on the way. Answers whether there was one.
fn work_step<D: SharedDisk, J: SharedDisk>(
    alloc: Global,
    world: &mut Cluster<Solo>,
    lines: &mut Vec<Seq<u8>>,
    disk: &mut D,
    beside: &mut J,
) -> Result<bool, DiskAnswer>
    requires state { StandsOn cold_kit any_state always world.old
        (cold_kit.see (D.seen disk.old) (J.seen beside.old)) }
    requires up { AreUp world.old }
    requires link { world.old.servers.lone.link ≡ [] }
    requires back { world.old.servers.lone.back ≡ [] }
    ensures ok { IfOk result (λ went. Advances cold_kit went world.old world.new lines.old.items
        lines.new.items (cold_kit.see (D.seen disk.old) (J.seen beside.old))
        (cold_kit.see (D.seen disk.new) (J.seen beside.new))) }
    ensures err { IfErr result (λ answer. ComesOff cold_kit any_state (EndsStep cold_kit) answer
        world.old world.new lines.old.items lines.new.items
        (cold_kit.see (D.seen disk.old) (J.seen beside.old))
        (cold_kit.see (D.seen disk.new) (J.seen beside.new))) }
    ensures wild { GoesWild cold_kit always result world.old world.new
        (cold_kit.see (D.seen disk.old) (J.seen beside.old))
        (cold_kit.see (D.seen disk.new) (J.seen beside.new)) }
    ensures counts { Counted cold_kit (cold_kit.see (D.seen disk.old) (J.seen beside.old))
        (cold_kit.see (D.seen disk.new) (J.seen beside.new)) result }
{
    if world.servers.lone.node.ready() {
        return match work_entry(
            alloc,
            &mut world.servers.lone,
            &mut world.net,
            lines,
            disk,
            beside,
        ) {
            Ok(()) => Ok(true),
            Err(answer) => Err(answer),
        };
    }
    Ok(false)
}

/// The server hears what came back from the journal, or else works the entry in hand, if it is ready. Nothing is on the way to the journal.
/// Answers whether there was something to do.
fn back_step<D: SharedDisk, J: SharedDisk>(
    alloc: Global,
    world: &mut Cluster<Solo>,
    lines: &mut Vec<Seq<u8>>,
    disk: &mut D,
    beside: &mut J,
) -> Result<bool, DiskAnswer>
    requires state { StandsOn cold_kit any_state always world.old
        (cold_kit.see (D.seen disk.old) (J.seen beside.old)) }
    requires up { AreUp world.old }
    requires link { world.old.servers.lone.link ≡ [] }
    ensures ok { IfOk result (λ went. Advances cold_kit went world.old world.new lines.old.items
        lines.new.items (cold_kit.see (D.seen disk.old) (J.seen beside.old))
        (cold_kit.see (D.seen disk.new) (J.seen beside.new))) }
    ensures err { IfErr result (λ answer. ComesOff cold_kit any_state (EndsStep cold_kit) answer
        world.old world.new lines.old.items lines.new.items
        (cold_kit.see (D.seen disk.old) (J.seen beside.old))
        (cold_kit.see (D.seen disk.new) (J.seen beside.new))) }
    ensures wild { GoesWild cold_kit always result world.old world.new
        (cold_kit.see (D.seen disk.old) (J.seen beside.old))
        (cold_kit.see (D.seen disk.new) (J.seen beside.new)) }
    ensures counts { Counted cold_kit (cold_kit.see (D.seen disk.old) (J.seen beside.old))
        (cold_kit.see (D.seen disk.new) (J.seen beside.new)) result }
{
    let now = world.now;
    let heard = match hear_back(alloc, &mut world.servers.lone, now) {
        Ok(heard) => heard,
        Err(_) => return Err(DiskAnswer::Memory),
    };
    if heard {
        return Ok(true);
    }
    work_step(alloc, world, lines, disk, beside)
}

/// The first message on the way joins the journal; there is one. Answers true.
fn join_step<D: SharedDisk, J: SharedDisk>(
    alloc: Global,
    world: &mut Cluster<Solo>,
    lines: &mut Vec<Seq<u8>>,
    disk: &mut D,
    beside: &mut J,
) -> Result<bool, DiskAnswer>
    requires state { StandsOn cold_kit any_state always world.old
        (cold_kit.see (D.seen disk.old) (J.seen beside.old)) }
    requires up { AreUp world.old }
    requires some { world.old.servers.lone.link ≡ [] → ⊥ }
    ensures ok { IfOk result (λ went. Advances cold_kit went world.old world.new lines.old.items
        lines.new.items (cold_kit.see (D.seen disk.old) (J.seen beside.old))
        (cold_kit.see (D.seen disk.new) (J.seen beside.new))) }
    ensures err { IfErr result (λ answer. ComesOff cold_kit any_state (EndsStep cold_kit) answer
        world.old world.new lines.old.items lines.new.items
        (cold_kit.see (D.seen disk.old) (J.seen beside.old))
        (cold_kit.see (D.seen disk.new) (J.seen beside.new))) }
    ensures wild { GoesWild cold_kit always result world.old world.new
        (cold_kit.see (D.seen disk.old) (J.seen beside.old))
        (cold_kit.see (D.seen disk.new) (J.seen beside.new)) }
    ensures counts { Counted cold_kit (cold_kit.see (D.seen disk.old) (J.seen beside.old))
        (cold_kit.see (D.seen disk.new) (J.seen beside.new)) result }
{
    match join_journal(
        alloc,
        &mut world.servers.lone,
        &mut world.history,
        lines,
        disk,
        beside,
    ) {
        Ok(went) => Ok(went),
        Err(answer) => Err(answer),
    }
}

/// Makes one step of a drain, while the server is up: the entry that waits joins the journal, or the server hears that it did, or works it.
/// Answers whether there was one to make.
///
/// Where a disk stops in that, or has a fault, the server is down, and neither disk is armed. `Failed` comes where a disk had a fault; its
/// count of faults rose then. `Stopped` comes where a disk stopped, and the cluster can go on. `Memory` comes where memory ran out.
pub fn advance<D: SharedDisk, J: SharedDisk>(
    alloc: Global,
    world: &mut Cluster<Solo>,
    lines: &mut Vec<Seq<u8>>,
    disk: &mut D,
    beside: &mut J,
) -> Result<bool, DiskAnswer>
    requires state { StandsOn cold_kit any_state always world.old
        (cold_kit.see (D.seen disk.old) (J.seen beside.old)) }
    requires up { AreUp world.old }
    ensures ok { IfOk result (λ went. Advances cold_kit went world.old world.new lines.old.items
        lines.new.items (cold_kit.see (D.seen disk.old) (J.seen beside.old))
        (cold_kit.see (D.seen disk.new) (J.seen beside.new))) }
    ensures err { IfErr result (λ answer. ComesOff cold_kit any_state (EndsStep cold_kit) answer
        world.old world.new lines.old.items lines.new.items
        (cold_kit.see (D.seen disk.old) (J.seen beside.old))
        (cold_kit.see (D.seen disk.new) (J.seen beside.new))) }
    ensures wild { GoesWild cold_kit always result world.old world.new
        (cold_kit.see (D.seen disk.old) (J.seen beside.old))
        (cold_kit.see (D.seen disk.new) (J.seen beside.new)) }
    ensures counts { Counted cold_kit (cold_kit.see (D.seen disk.old) (J.seen beside.old))
        (cold_kit.see (D.seen disk.new) (J.seen beside.new)) result }
{
    if is_clear(&world.servers.lone.link) {
        return back_step(alloc, world, lines, disk, beside);
    }
    join_step(alloc, world, lines, disk, beside)
}
