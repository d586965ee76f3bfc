//! The lines on messages between the servers.
ghost use Rattle.std.specs.Prelude.{◌≡◌, OnOk, OnErr};
ghost use Rattle.script_lines.specs.declared.line.Line.TheVariants.{Mirror, Ack};
ghost use Rattle.cluster_rounds.specs.Worlds.{HasState, Does};
ghost use Rattle.cluster_rounds.specs.Broken.{BreaksAlone};
ghost use Rattle.group_servers.specs.GroupKit.{group_kit};
ghost use Rattle.group_servers.specs.Steps.{mirrored_next, acked_next};

use crate::Group;
use crate::confirming::ack;
use crate::delivering::mirror;
use crate::standing::refused;
use ais_values::Seq;
use cluster_rounds::Cluster;
use script_lines::Line;
use std::alloc::{AllocError, Global};

/// `mirror`: the first message on the way to a server is delivered. The line is refused where there is none. On an error some of it was done:
/// where memory ran out, or where 4,000,000,000 entries were accepted.
pub fn mirror_line<const N: usize>(
    alloc: Global,
    world: &mut Cluster<Group<N>>,
    lines: &mut Vec<Seq<u8>>,
    line: &Line,
) -> Result<(), AllocError>
    requires state { HasState (group_kit N) world.old }
    requires line { line.now ≡ Mirror }
    ensures ok { OnOk result (Does (group_kit N) (mirrored_next N) world.old world.new
        lines.old.items lines.new.items) }
    ensures err { OnErr result (BreaksAlone (group_kit N) world.old world.new) }
{
    match mirror(alloc, world, lines) {
        Ok(went) => {
            if went {
                return Ok(());
            }
            refused(alloc, world, lines, line)
        }
        Err(error) => Err(error),
    }
}

/// `ack`: the first message on the way back from a server is delivered. The line is refused where there is none. On an error some of it was
/// done: where memory ran out, or where 4,000,000,000 entries were accepted.
pub fn ack_line<const N: usize>(
    alloc: Global,
    world: &mut Cluster<Group<N>>,
    lines: &mut Vec<Seq<u8>>,
    line: &Line,
) -> Result<(), AllocError>
    requires state { HasState (group_kit N) world.old }
    requires line { line.now ≡ Ack }
    ensures ok { OnOk result (Does (group_kit N) (acked_next N) world.old world.new lines.old.items
        lines.new.items) }
    ensures err { OnErr result (BreaksAlone (group_kit N) world.old world.new) }
{
    match ack(alloc, world) {
        Ok(went) => {
            if went {
                return Ok(());
            }
            refused(alloc, world, lines, line)
        }
        Err(error) => Err(error),
    }
}
