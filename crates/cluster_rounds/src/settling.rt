//! `settle`: rounds up to the first in which nothing goes on.
ghost use Rattle.std.specs.Prelude.{IfErr, OnOk};
ghost use Rattle.cluster_rounds.specs.Counted.{Counted};
ghost use Rattle.cluster_rounds.specs.Wild.{StandsOn, GoesWild, always};
ghost use Rattle.cluster_rounds.specs.Worlds.{any_state};
ghost use Rattle.cluster_rounds.specs.Rounds.{EndsSettle};
ghost use Rattle.cluster_rounds.specs.Came.{ComesOff};
ghost use Rattle.cluster_rounds.specs.Settling.{DoesSettle};

use crate::rounds::round;
use crate::{Cluster, Serving};
use ais_values::Seq;
use disk_model::{DiskAnswer, SharedDisk};
use std::alloc::Global;
use std::sync::Wait;

/// Plays rounds up to the first that is not loud, and adds the lines of all of them, but for those on messages without effect.
///
/// `Failed` comes where the disk had a fault that no server survives: its count of faults rose, and the lines are those of all that
/// was done until then. `Stopped` comes where no server goes on behind a stop of the disk: the lines are those of all that was done
/// until then, and the cluster can go on. `Memory` comes where memory ran out, or the greatest `u64` of rounds were played and all of
/// them were loud; some of it was done.
pub fn settle<R: Wait, S: Serving, D: SharedDisk, J: SharedDisk>(
    rt: &R,
    alloc: Global,
    world: &mut Cluster<S>,
    lines: &mut Vec<Seq<u8>>,
    disk: &mut D,
    beside: &mut J,
) -> Result<(), DiskAnswer>
    requires { StandsOn S.kit any_state always world.old (S.kit.see (D.seen disk.old) (J.seen
        beside.old)) }
    ensures ok { OnOk result (DoesSettle S.kit world.old world.new lines.old.items lines.new.items
        (S.kit.see (D.seen disk.old) (J.seen beside.old)) (S.kit.see (D.seen disk.new) (J.seen
        beside.new))) }
    ensures err { IfErr result (λ answer. ComesOff S.kit any_state (EndsSettle S.kit) answer
        world.old world.new lines.old.items lines.new.items (S.kit.see (D.seen disk.old) (J.seen
        beside.old)) (S.kit.see (D.seen disk.new) (J.seen beside.new))) }
    ensures wild { GoesWild S.kit always result world.old world.new
        (S.kit.see (D.seen disk.old) (J.seen beside.old))
        (S.kit.see (D.seen disk.new) (J.seen beside.new)) }
    ensures counts { Counted S.kit (S.kit.see (D.seen disk.old) (J.seen beside.old))
        (S.kit.see (D.seen disk.new) (J.seen beside.new)) result }
{
    for _round in 0..u64::MAX {
        match round(rt, alloc, world, lines, disk, beside) {
            Ok(loud) => {
                if !loud {
                    return Ok(());
                }
            }
            Err(answer) => return Err(answer),
        }
    }
    Err(DiskAnswer::Memory)
}
