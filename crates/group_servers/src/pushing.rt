//! Items that are pushed to clients.
ghost use Rattle.std.specs.Prelude.{IfOk, OnErr};
ghost use Rattle.cluster_rounds.specs.Worlds.{HasStateOf, IsIdle, Pushes};
ghost use Rattle.cluster_rounds.specs.Broken.{BreaksAloneIf};
ghost use Rattle.group_servers.specs.GroupKit.{group_kit};

use crate::Group;
use ais_values::Seq;
use cluster_rounds::Cluster;
use std::alloc::{AllocError, Global};
use wire::Message;

/// Posts all items without receipt, by client, key and number, and answers with them. Nothing may be in hand.
pub(crate) fn push<const N: usize>(
    alloc: Global,
    world: &mut Cluster<Group<N>>,
    lines: &mut Vec<Seq<u8>>,
) -> Result<Seq<Message>, AllocError>
    requires { HasStateOf (group_kit N) IsIdle world.old }
    ensures ok { IfOk result (λ items. Pushes (group_kit N) items world.old world.new
        lines.old.items lines.new.items) }
    ensures err { OnErr result (BreaksAloneIf (group_kit N) IsIdle world.old world.new) }
{
    lead_server::push(alloc, &world.servers.active, &mut world.net, lines)
}
