//! Messages that agents send again.
ghost use Rattle.std.specs.Prelude.{OnOk, OnErr};
ghost use Rattle.cluster_rounds.specs.Wild.{StandsOf, KeepsWild, always, AllPosted};
ghost use Rattle.cluster_rounds.specs.Worlds.{Does, any_state};
ghost use Rattle.cluster_rounds.specs.Delivered.{AllStandIn, HearsAll, resent_by};
ghost use Rattle.cluster_rounds.specs.Broken.{BreaksAlone, BreaksAloneIf};

use crate::{Cluster, Serving};
use ais_values::Seq;
use cluster_clients::{number_in, place_of};
use std::alloc::{AllocError, Global};
use wire::{Message, let_messages_go};

/// The active server hears these messages, from the first on.
fn hear_all<S: Serving>(
    alloc: Global,
    world: &mut Cluster<S>,
    lines: &mut Vec<Seq<u8>>,
    messages: &[Message],
) -> Result<(), AllocError>
    requires { StandsOf S.kit (AllStandIn messages.now) (AllPosted messages.now) world.old }
    ensures ok { OnOk result (HearsAll S.kit messages.now world.old world.new lines.old.items
        lines.new.items) }
    ensures err { OnErr result (BreaksAloneIf S.kit (AllStandIn messages.now) world.old world.new) }
    ensures wild { OnOk result (KeepsWild S.kit (AllPosted messages.now) world.old world.new) }
{
    for message in messages {
        let place = number_in(alloc, &world.net, message)?;
        match S::hear(alloc, world, lines, place, message) {
            Ok(()) => {}
            Err(error) => return Err(error),
        }
    }
    Ok(())
}

/// The active server hears the unanswered requests of a client by number, and then its greatest receipts by key.
pub fn resend<S: Serving>(
    alloc: Global,
    world: &mut Cluster<S>,
    lines: &mut Vec<Seq<u8>>,
    client: u16,
) -> Result<(), AllocError>
    requires { StandsOf S.kit any_state always world.old }
    ensures ok { OnOk result (Does S.kit (resent_by S.kit client) world.old world.new
        lines.old.items lines.new.items) }
    ensures err { OnErr result (BreaksAlone S.kit world.old world.new) }
    ensures wild { OnOk result (KeepsWild S.kit always world.old world.new) }
{
    let at = match place_of(world.agents.as_slice(), client) {
        Some(at) => at,
        None => return Ok(()),
    };
    match world.agents.as_slice()[at].resend(alloc) {
        Ok(messages) => {
            let heard = hear_all(alloc, world, lines, messages.as_slice());
            let_messages_go(messages);
            heard
        }
        Err(error) => Err(error),
    }
}
