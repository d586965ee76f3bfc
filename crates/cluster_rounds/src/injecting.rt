//! Byte strings that are put into the net.
ghost use Rattle.std.specs.Prelude.{IfOk, OnOk, OnErr};
ghost use Rattle.cluster_rounds.specs.Wild.{KeepsWild, always};
ghost use Rattle.cluster_rounds.specs.Delivered.{Injects};
ghost use Rattle.cluster_rounds.specs.Broken.{BreaksAlone};

use crate::{Cluster, Serving};
use ais_values::Seq;
use std::alloc::{AllocError, Global};

/// Injects bytes that no message spells, and answers whether they are such: `false` exactly where a message spells them, and then
/// nothing was done.
pub fn inject<S: Serving>(
    alloc: Global,
    world: &mut Cluster<S>,
    lines: &mut Vec<Seq<u8>>,
    bytes: &[u8],
) -> Result<bool, AllocError>
    ensures ok { IfOk result (λ done. Injects S.kit bytes.now done world.old world.new
        lines.old.items lines.new.items) }
    ensures err { OnErr result (BreaksAlone S.kit world.old world.new) }
    ensures wild { OnOk result (KeepsWild S.kit always world.old world.new) }
{
    cluster_clients::inject(alloc, &mut world.net, lines, bytes)
}
