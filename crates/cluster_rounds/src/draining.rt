//! What the servers do of themselves.
ghost use Rattle.std.specs.Prelude.{IfOk, IfErr};
ghost use Rattle.cluster_rounds.specs.Counted.{Counted};
ghost use Rattle.cluster_rounds.specs.Wild.{StandsOn, GoesWild, always};
ghost use Rattle.cluster_rounds.specs.Worlds.{any_state};
ghost use Rattle.cluster_rounds.specs.Rounds.{drain_by, EndsDrain};
ghost use Rattle.cluster_rounds.specs.Came.{Comes, ComesOff};

use crate::answers::either;
use crate::{Cluster, Serving};
use ais_values::Seq;
use disk_model::{DiskAnswer, SharedDisk};
use std::alloc::Global;

/// The servers make all their steps. Answers whether an entry was committed.
pub(crate) fn drain<S: Serving, D: SharedDisk, J: SharedDisk>(
    alloc: Global,
    world: &mut Cluster<S>,
    lines: &mut Vec<Seq<u8>>,
    disk: &mut D,
    beside: &mut J,
) -> Result<bool, DiskAnswer>
    requires { StandsOn S.kit any_state always world.old (S.kit.see (D.seen disk.old) (J.seen
        beside.old)) }
    ensures ok { IfOk result (λ loud. Comes S.kit any_state (drain_by S.kit) world.old world.new
        lines.old.items lines.new.items loud (S.kit.see (D.seen disk.old) (J.seen beside.old))
        (S.kit.see (D.seen disk.new) (J.seen beside.new))) }
    ensures err { IfErr result (λ answer. ComesOff S.kit any_state (EndsDrain S.kit) answer
        world.old world.new lines.old.items lines.new.items (S.kit.see (D.seen disk.old) (J.seen
        beside.old)) (S.kit.see (D.seen disk.new) (J.seen beside.new))) }
    ensures wild { GoesWild S.kit always result world.old world.new
        (S.kit.see (D.seen disk.old) (J.seen beside.old))
        (S.kit.see (D.seen disk.new) (J.seen beside.new)) }
    ensures counts { Counted S.kit (S.kit.see (D.seen disk.old) (J.seen beside.old))
        (S.kit.see (D.seen disk.new) (J.seen beside.new)) result }
{
    let mut loud = false;
    for _step in 0..S::steps() {
        let entries = world.history.len();
        match S::advance(alloc, world, lines, disk, beside) {
            Ok(went) => {
                if went {
                    loud = either(loud, world.history.len() > entries);
                } else {
                    return Ok(loud);
                }
            }
            Err(answer) => return Err(answer),
        }
    }
    Ok(loud)
}
