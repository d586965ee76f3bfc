//! Requests and receipts that reach the active server.
ghost use Rattle.std.specs.Prelude.{OnOk, OnErr};
ghost use Rattle.wire.specs.MessageSpelling.{MessageInRange};
ghost use Rattle.cluster_rounds.specs.Worlds.{HasState, DoesIf, heard_by, StandsIn};
ghost use Rattle.cluster_rounds.specs.Broken.{BreaksAloneIf};
ghost use Rattle.group_servers.specs.GroupKit.{group_kit};

use crate::Group;
use crate::spreading::spread_first;
use ais_values::Seq;
use cluster_rounds::Cluster;
use std::alloc::{AllocError, Global};
use wire::{Message, let_messages_go};

/// Delivers a request or a receipt of this place in the net to the active server. Where 4,000,000,000 entries were accepted it answers
/// as if memory ran out.
pub(crate) fn hear<const N: usize>(
    alloc: Global,
    world: &mut Cluster<Group<N>>,
    lines: &mut Vec<Seq<u8>>,
    place: u64,
    message: &Message,
) -> Result<(), AllocError>
    requires state { HasState (group_kit N) world.old }
    requires range { MessageInRange message.now }
    ensures ok { OnOk result (DoesIf (group_kit N) (StandsIn message.now)
        (heard_by (group_kit N) place message.now) world.old world.new lines.old.items
        lines.new.items) }
    ensures err { OnErr result (BreaksAloneIf (group_kit N) (StandsIn message.now) world.old
        world.new) }
{
    let now = world.now;
    let heard = lead_server::hear(
        alloc,
        &mut world.servers.active,
        &mut world.net,
        &mut world.history,
        lines,
        place,
        message,
        now,
    );
    match heard {
        Ok(mirrored) => {
            let spread = spread_first(alloc, &mut world.servers.seats, mirrored.as_slice());
            let_messages_go(mirrored);
            spread
        }
        Err(error) => Err(error),
    }
}
