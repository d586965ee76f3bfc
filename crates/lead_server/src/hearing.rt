//! What reaches the active server, and what it pushes.
ghost use Rattle.std.specs.Prelude.{◌≡◌, None, ℤ, IfOk, OnOk, OnErr};
ghost use Rattle.mirror.specs.declared.heard.Role.TheVariants.{Active};
ghost use Rattle.mirror.specs.ByValue.{items_pushed};
ghost use Rattle.mirror.specs.Hearing.{CanHear};
ghost use Rattle.mirror.specs.Pairing.{CanReceive};
ghost use Rattle.mirror.specs.Replicas.{HasRoom};
ghost use Rattle.cluster_clients.specs.Posted.{PostsAll, PostsSome};
ghost use Rattle.lead_server.specs.Confirming.{is_acknowledged};
ghost use Rattle.lead_server.specs.Heard.{AnswersInRange, HoldsInRange, Hears, HearsPartly, IsConfirmed, IsHeldBy, PushesPartly};

use crate::again::is_answered;
use crate::telling::tell_heard;
use ais_values::Seq;
use calls::{History, let_entry_go};
use cluster_clients::post_all;
use message_net::Net;
use mirror::{Node, Role, let_heard_go};
use std::alloc::{AllocError, Global};
use wire::{Message, let_messages_go};

/// The active server hears a message of this place in the net, at a moment from 0 to 9,000,000,000,000,000,000 (nanoseconds since 1970 in UTC).
/// A request or a receipt is that of a client from 1 to 4,096, and a request's number is at least 1. The answer to it is posted, its line is put
/// where it was ignored, and an entry that waits for nobody is committed. What goes to the servers beside it comes back. Where 4,000,000,000
/// entries were accepted it answers as if memory ran out. On an error the history stays and lines may have been added: server and net stay too,
/// or the server has heard the message, and its answer was posted or not.
pub fn hear(
    alloc: Global,
    active: &mut Node,
    net: &mut Net,
    history: &mut History,
    lines: &mut Vec<Seq<u8>>,
    place: u64,
    message: &Message,
    now: i64,
) -> Result<Seq<Message>, AllocError>
    requires hear { CanHear message.now now }
    requires role { active.old.replica.role ≡ Active }
    requires range { AnswersInRange message.now now active.old }
    ensures ok { IfOk result (λ mirrored. Hears place message.now now active.old active.new
        net.old net.new history.old.entries history.new.entries lines.old.items lines.new.items
        mirrored) }
    ensures err { OnErr result (HearsPartly message.now now active.old active.new net.old net.new
        history.old.entries history.new.entries) }
{
    if !active.has_room() {
        return Err(AllocError);
    }
    let answered = is_answered(alloc, active, net, message)?;
    if answered {
        return Ok(Seq::new(alloc));
    }
    history.reserve()?;
    let heard = active.hear(alloc, message, now)?;
    tell_heard(alloc, net, history, lines, place, heard)
}

/// Whether a message tells the active server that an entry was applied.
fn is_acknowledged(role: Role, message: &Message) -> bool
    ensures { result ≡ is_acknowledged role message.now }
{
    match role {
        Role::Active => matches!(message, Message::MirrorAck { .. }),
        _ => false,
    }
}

/// The active server hears a message of a server beside it, at any moment; what it answers to that is let go. Where 4,000,000,000 entries were
/// accepted it answers as if memory ran out; on an error it stays as it was.
pub fn confirm(
    alloc: Global,
    active: &mut Node,
    message: &Message,
    now: i64,
) -> Result<(), AllocError>
    requires { (moment : ℤ) → CanReceive message.now moment active.old }
    ensures ok { OnOk result (IsConfirmed message.now active.old active.new) }
    ensures room { OnOk result (HasRoom active.old.replica.service) }
    ensures err { OnErr result (active.new ≡ active.old) }
{
    if !active.has_room() {
        return Err(AllocError);
    }
    // Most of what it hears, and told without the room of all that it might hear.
    if is_acknowledged(active.role(), message) {
        let_entry_go(active.take_waiting());
        return Ok(());
    }
    match active.receive(alloc, message, now) {
        Ok(heard) => {
            let_heard_go(heard);
            Ok(())
        }
        Err(error) => Err(error),
    }
}

/// Posts all items without receipt, by client, key and number, and answers with them: those of a history that the server stands for, and those
/// of the value of its service. Nothing may be in hand. Where memory runs out some were posted, from the first on, and lines may have been
/// added.
pub fn push(
    alloc: Global,
    active: &Node,
    net: &mut Net,
    lines: &mut Vec<Seq<u8>>,
) -> Result<Seq<Message>, AllocError>
    requires role { active.now.replica.role ≡ Active }
    requires idle { active.now.replica.owed ≡ None }
    requires range { HoldsInRange active.now.replica }
    ensures held { IfOk result (λ items. IsHeldBy active.now.replica items) }
    ensures value { IfOk result (λ items. items ≡ items_pushed active.now.replica.service) }
    ensures ok { IfOk result (λ items. PostsAll items net.old net.new lines.old.items
        lines.new.items) }
    ensures err { OnErr result (PushesPartly active.now.replica net.old net.new) }
{
    let items = active.push(alloc)?;
    match post_all(alloc, net, lines, items.as_slice()) {
        Ok(()) => Ok(items),
        Err(error) => {
            let_messages_go(items);
            Err(error)
        }
    }
}
