//! Requests and receipts that reach the server, and items that it pushes, while it is up.
ghost use Rattle.std.specs.Prelude.{◌≡◌, ◌++◌, [], None, IsOk, IfOk, OnOk, OnErr};
ghost use Rattle.wire.specs.MessageSpelling.{MessageInRange};
ghost use Rattle.cluster_rounds.specs.Wild.{always, KeepsWild, Posted, PushesWild, StandsOf};
ghost use Rattle.cluster_rounds.specs.Worlds.{any_state, heard_by, DoesIf, IsIdle, Pushes, StandsIn};
ghost use Rattle.cluster_rounds.specs.Broken.{BreaksAloneIf};
ghost use Rattle.cold_servers.specs.ColdKit.{cold_kit};
ghost use Rattle.cold_servers.specs.Steps.{AreUp};

use crate::Solo;
use ais_values::Seq;
use cluster_rounds::Cluster;
use lead_server::send_all;
use lone_server::is_clear;
use std::alloc::{AllocError, Global};
use wire::{Message, let_messages_go};

/// What is mirrored goes to the journal.
fn send_mirrored(
    alloc: Global,
    link: &mut Seq<Message>,
    mirrored: Seq<Message>,
) -> Result<(), AllocError>
    ensures ok { OnOk result (link.new ≡ link.old ++ mirrored) }
    ensures none { mirrored ≡ [] → IsOk result }
{
    if is_clear(&mirrored) {
        let_messages_go(mirrored);
        return Ok(());
    }
    send_all(alloc, link, mirrored)
}

/// Delivers a request or a receipt of this place in the net to the server, which is up. Where 4,000,000,000 entries were accepted it answers
/// as if memory ran out. On an error some of it may be done.
pub fn hear(
    alloc: Global,
    world: &mut Cluster<Solo>,
    lines: &mut Vec<Seq<u8>>,
    place: u64,
    message: &Message,
) -> Result<(), AllocError>
    requires state { StandsOf cold_kit any_state always world.old }
    requires up { AreUp world.old }
    requires range { MessageInRange message.now }
    ensures ok { OnOk result (DoesIf cold_kit (StandsIn message.now) (heard_by cold_kit place
        message.now) world.old world.new lines.old.items lines.new.items) }
    ensures err { OnErr result (BreaksAloneIf cold_kit (StandsIn message.now) world.old world.new) }
    ensures wild { OnOk result (KeepsWild cold_kit (Posted message.now) world.old world.new) }
{
    let now = world.now;
    let heard = lead_server::hear(
        alloc,
        &mut world.servers.lone.node,
        &mut world.net,
        &mut world.history,
        lines,
        place,
        message,
        now,
    );
    match heard {
        Ok(mirrored) => send_mirrored(alloc, &mut world.servers.lone.link, mirrored),
        Err(error) => Err(error),
    }
}

/// Posts all items without receipt, by client, key and number, and answers with them. The server is up, and nothing is in hand. Where memory
/// runs out some were posted, from the first on.
pub fn push(
    alloc: Global,
    world: &mut Cluster<Solo>,
    lines: &mut Vec<Seq<u8>>,
) -> Result<Seq<Message>, AllocError>
    requires state { StandsOf cold_kit IsIdle always world.old }
    requires up { AreUp world.old }
    requires idle { world.old.servers.lone.node.replica.owed ≡ None }
    ensures ok { IfOk result (λ items. Pushes cold_kit items world.old world.new
        lines.old.items lines.new.items) }
    ensures err { OnErr result (BreaksAloneIf cold_kit IsIdle world.old world.new) }
    ensures wild { IfOk result (λ items. PushesWild cold_kit items world.old world.new) }
{
    lead_server::push(alloc, &world.servers.lone.node, &mut world.net, lines)
}
