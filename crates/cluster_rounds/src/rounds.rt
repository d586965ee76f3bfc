//! A round of `settle`: the servers drain, each message that a client sends again is heard and its reply taken, and all items are
//! pushed and taken. Lines on messages without effect are left out.
ghost use Rattle.std.specs.Prelude.{◌≡◌, ◌++◌, if◌then◌else◌, IfOk, IfErr, OnOk, OnErr};
ghost use Rattle.wire_code.specs.Spelling.{IsClient, IsCount};
ghost use Rattle.cluster_rounds.specs.Counted.{Counted};
ghost use Rattle.cluster_rounds.specs.Wild.{StandsOf, StandsOn, KeepsWild, GoesWild, always, Posted, AllPosted};
ghost use Rattle.cluster_rounds.specs.Worlds.{IsIdle, StandsIn, any_state};
ghost use Rattle.cluster_rounds.specs.Broken.{BreaksAloneIf};
ghost use Rattle.cluster_rounds.specs.Rounds.{Plays, IsIdleWithAll, IsIdleWithItems, heard_so, answer_taken, reply_taken, message_taken, items_taken, round_pushed, turn_by, turns_by, client_by, clients_by, each_by, round_by, EndsTurn, EndsTurns, EndsClient, EndsClients, EndsEach, EndsRound};
ghost use Rattle.cluster_rounds.specs.Came.{Comes, ComesOff};

use crate::answers::either;
use crate::draining::drain;
use crate::{Cluster, Serving};
use ais_values::Seq;
use cluster_clients::{clients_of, place_of, reply_to, sent_again};
use disk_model::{DiskAnswer, SharedDisk};
use std::alloc::{AllocError, Global};
use std::sync::Wait;
use wire::{Message, let_message_go, let_messages_go};

/// Puts lines behind others where they are to be kept.
fn keep_lines(
    lines: &mut Vec<Seq<u8>>,
    mut more: Vec<Seq<u8>>,
    keep: bool,
) -> Result<(), AllocError>
    ensures { OnOk result (lines.new.items ≡ (if keep then lines.old.items ++ more.items
        else lines.old.items)) }
{
    if keep {
        lines.append(&mut more)?;
    }
    Ok(())
}

/// The active server hears a message. Answers whether an entry was committed, which lengthens the history; where neither the
/// history nor the net is longer, the message had no effect, and no line is added.
fn hear_so<S: Serving>(
    alloc: Global,
    world: &mut Cluster<S>,
    lines: &mut Vec<Seq<u8>>,
    message: &Message,
) -> Result<bool, AllocError>
    requires { StandsOf S.kit (StandsIn message.now) (Posted message.now) world.old }
    ensures ok { IfOk result (λ loud. Plays S.kit (StandsIn message.now) (heard_so S.kit
        message.now) world.old world.new lines.old.items lines.new.items loud) }
    ensures err { OnErr result (BreaksAloneIf S.kit (StandsIn message.now) world.old world.new) }
    ensures wild { OnOk result (KeepsWild S.kit (Posted message.now) world.old world.new) }
{
    let entries = world.history.len();
    let messages = world.net.len();
    let mut told = Vec::new(alloc);
    match S::hear(alloc, world, &mut told, 0, message) {
        Ok(()) => {}
        Err(error) => return Err(error),
    }
    let committed = world.history.len() > entries;
    let posted = world.net.len() > messages;
    match keep_lines(lines, told, either(committed, posted)) {
        Ok(()) => Ok(committed),
        Err(error) => Err(error),
    }
}

/// The agent of a reply or an item takes or misses it. Answers whether it took it.
fn take<R: Wait, S: Serving>(
    rt: &R,
    alloc: Global,
    world: &mut Cluster<S>,
    lines: &mut Vec<Seq<u8>>,
    message: &Message,
) -> Result<bool, AllocError>
    requires { StandsOf S.kit (StandsIn message.now) (Posted message.now) world.old }
    ensures ok { IfOk result (λ loud. Plays S.kit (StandsIn message.now) (message_taken S.kit
        message.now) world.old world.new lines.old.items lines.new.items loud) }
    ensures err { OnErr result (BreaksAloneIf S.kit (StandsIn message.now) world.old world.new) }
    ensures wild { OnOk result (KeepsWild S.kit (Posted message.now) world.old world.new) }
{
    cluster_clients::take(
        rt,
        alloc,
        &mut world.net,
        &mut world.agents,
        lines,
        None,
        message,
    )
}

/// The same, of a message that is let go.
fn take_owned<R: Wait, S: Serving>(
    rt: &R,
    alloc: Global,
    world: &mut Cluster<S>,
    lines: &mut Vec<Seq<u8>>,
    message: Message,
) -> Result<bool, AllocError>
    requires { StandsOf S.kit (StandsIn message) (Posted message) world.old }
    ensures ok { IfOk result (λ loud. Plays S.kit (StandsIn message) (message_taken S.kit message)
        world.old world.new lines.old.items lines.new.items loud) }
    ensures err { OnErr result (BreaksAloneIf S.kit (StandsIn message) world.old world.new) }
    ensures wild { OnOk result (KeepsWild S.kit (Posted message) world.old world.new) }
{
    let taken = take(rt, alloc, world, lines, &message);
    let_message_go(Some(message));
    taken
}

/// The reply to a client's call is delivered, if the net has one. Answers whether the client took it.
fn take_reply<R: Wait, S: Serving>(
    rt: &R,
    alloc: Global,
    world: &mut Cluster<S>,
    lines: &mut Vec<Seq<u8>>,
    client: u16,
    seq: u32,
) -> Result<bool, AllocError>
    requires state { StandsOf S.kit any_state always world.old }
    requires client { IsClient client }
    requires count { IsCount seq }
    ensures ok { IfOk result (λ loud. Plays S.kit any_state (reply_taken S.kit client seq) world.old
        world.new lines.old.items lines.new.items loud) }
    ensures err { OnErr result (BreaksAloneIf S.kit any_state world.old world.new) }
    ensures wild { OnOk result (KeepsWild S.kit always world.old world.new) }
{
    match reply_to(alloc, &world.net, client, seq) {
        Ok(None) => Ok(false),
        Ok(Some(reply)) => take_owned(rt, alloc, world, lines, reply),
        Err(error) => Err(error),
    }
}

/// The reply to a request is delivered, if the net has one. Answers whether the client took it.
fn take_answer<R: Wait, S: Serving>(
    rt: &R,
    alloc: Global,
    world: &mut Cluster<S>,
    lines: &mut Vec<Seq<u8>>,
    message: &Message,
) -> Result<bool, AllocError>
    requires { StandsOf S.kit (StandsIn message.now) (Posted message.now) world.old }
    ensures ok { IfOk result (λ loud. Plays S.kit any_state (answer_taken S.kit message.now)
        world.old world.new lines.old.items lines.new.items loud) }
    ensures err { OnErr result (BreaksAloneIf S.kit any_state world.old world.new) }
    ensures wild { OnOk result (KeepsWild S.kit (Posted message.now) world.old world.new) }
{
    match message {
        Message::Request { client, seq, .. } => take_reply(rt, alloc, world, lines, *client, *seq),
        _ => Ok(false),
    }
}

/// A message is heard, the servers drain, and the reply to it is delivered. Answers whether something went on.
fn turn<R: Wait, S: Serving, D: SharedDisk, J: SharedDisk>(
    rt: &R,
    alloc: Global,
    world: &mut Cluster<S>,
    lines: &mut Vec<Seq<u8>>,
    disk: &mut D,
    beside: &mut J,
    message: &Message,
) -> Result<bool, DiskAnswer>
    requires { StandsOn S.kit (StandsIn message.now) (Posted message.now) world.old
        (S.kit.see (D.seen disk.old) (J.seen beside.old)) }
    ensures ok { IfOk result (λ loud. Comes S.kit (StandsIn message.now) (turn_by S.kit message.now)
        world.old world.new lines.old.items lines.new.items loud (S.kit.see (D.seen disk.old)
        (J.seen beside.old)) (S.kit.see (D.seen disk.new) (J.seen beside.new))) }
    ensures err { IfErr result (λ answer. ComesOff S.kit (StandsIn message.now) (EndsTurn S.kit
        message.now) answer world.old world.new lines.old.items lines.new.items (S.kit.see (D.seen
        disk.old) (J.seen beside.old)) (S.kit.see (D.seen disk.new) (J.seen beside.new))) }
    ensures wild { GoesWild S.kit (Posted message.now) result world.old world.new (S.kit.see (D.seen
        disk.old) (J.seen beside.old)) (S.kit.see (D.seen disk.new) (J.seen beside.new)) }
    ensures counts { Counted S.kit (S.kit.see (D.seen disk.old) (J.seen beside.old))
        (S.kit.see (D.seen disk.new) (J.seen beside.new)) result }
{
    let heard = match hear_so(alloc, world, lines, message) {
        Ok(heard) => heard,
        Err(_) => return Err(DiskAnswer::Memory),
    };
    let drained = match drain(alloc, world, lines, disk, beside) {
        Ok(drained) => drained,
        Err(answer) => return Err(answer),
    };
    match take_answer(rt, alloc, world, lines, message) {
        Ok(taken) => Ok(either(either(heard, drained), taken)),
        Err(_) => Err(DiskAnswer::Memory),
    }
}

/// A turn for each of these messages, in order. Answers whether something went on.
fn turn_all<R: Wait, S: Serving, D: SharedDisk, J: SharedDisk>(
    rt: &R,
    alloc: Global,
    world: &mut Cluster<S>,
    lines: &mut Vec<Seq<u8>>,
    disk: &mut D,
    beside: &mut J,
    messages: &[Message],
) -> Result<bool, DiskAnswer>
    requires { StandsOn S.kit (IsIdleWithAll messages.now) (AllPosted messages.now) world.old
        (S.kit.see (D.seen disk.old) (J.seen beside.old)) }
    ensures ok { IfOk result (λ loud. Comes S.kit (IsIdleWithAll messages.now) (turns_by S.kit
        messages.now) world.old world.new lines.old.items lines.new.items loud (S.kit.see (D.seen
        disk.old) (J.seen beside.old)) (S.kit.see (D.seen disk.new) (J.seen beside.new))) }
    ensures err { IfErr result (λ answer. ComesOff S.kit (IsIdleWithAll messages.now) (EndsTurns
        S.kit messages.now) answer world.old world.new lines.old.items lines.new.items (S.kit.see
        (D.seen disk.old) (J.seen beside.old)) (S.kit.see (D.seen disk.new) (J.seen beside.new))) }
    ensures wild { GoesWild S.kit (AllPosted messages.now) result world.old world.new
        (S.kit.see (D.seen disk.old) (J.seen beside.old))
        (S.kit.see (D.seen disk.new) (J.seen beside.new)) }
    ensures counts { Counted S.kit (S.kit.see (D.seen disk.old) (J.seen beside.old))
        (S.kit.see (D.seen disk.new) (J.seen beside.new)) result }
{
    let mut loud = false;
    for message in messages {
        match turn(rt, alloc, world, lines, disk, beside, message) {
            Ok(more) => loud = either(loud, more),
            Err(answer) => return Err(answer),
        }
    }
    Ok(loud)
}

/// A turn for each message that a client sends again. Answers whether something went on.
fn turn_client<R: Wait, S: Serving, D: SharedDisk, J: SharedDisk>(
    rt: &R,
    alloc: Global,
    world: &mut Cluster<S>,
    lines: &mut Vec<Seq<u8>>,
    disk: &mut D,
    beside: &mut J,
    client: u16,
) -> Result<bool, DiskAnswer>
    requires { StandsOn S.kit IsIdle always world.old (S.kit.see (D.seen disk.old) (J.seen
        beside.old)) }
    ensures ok { IfOk result (λ loud. Comes S.kit IsIdle (client_by S.kit client) world.old
        world.new lines.old.items lines.new.items loud (S.kit.see (D.seen disk.old) (J.seen
        beside.old)) (S.kit.see (D.seen disk.new) (J.seen beside.new))) }
    ensures err { IfErr result (λ answer. ComesOff S.kit IsIdle (EndsClient S.kit client) answer
        world.old world.new lines.old.items lines.new.items (S.kit.see (D.seen disk.old) (J.seen
        beside.old)) (S.kit.see (D.seen disk.new) (J.seen beside.new))) }
    ensures wild { GoesWild S.kit always result world.old world.new
        (S.kit.see (D.seen disk.old) (J.seen beside.old))
        (S.kit.see (D.seen disk.new) (J.seen beside.new)) }
    ensures counts { Counted S.kit (S.kit.see (D.seen disk.old) (J.seen beside.old))
        (S.kit.see (D.seen disk.new) (J.seen beside.new)) result }
{
    let at = match place_of(world.agents.as_slice(), client) {
        Some(at) => at,
        None => return Ok(false),
    };
    match sent_again(alloc, world.agents.as_slice(), at) {
        Ok(messages) => {
            let turned = turn_all(rt, alloc, world, lines, disk, beside, messages.as_slice());
            let_messages_go(messages);
            turned
        }
        Err(_) => Err(DiskAnswer::Memory),
    }
}

/// Turns for each of these clients, in order. Answers whether something went on.
fn turn_clients<R: Wait, S: Serving, D: SharedDisk, J: SharedDisk>(
    rt: &R,
    alloc: Global,
    world: &mut Cluster<S>,
    lines: &mut Vec<Seq<u8>>,
    disk: &mut D,
    beside: &mut J,
    clients: &[u16],
) -> Result<bool, DiskAnswer>
    requires { StandsOn S.kit IsIdle always world.old (S.kit.see (D.seen disk.old) (J.seen
        beside.old)) }
    ensures ok { IfOk result (λ loud. Comes S.kit IsIdle (clients_by S.kit clients.now) world.old
        world.new lines.old.items lines.new.items loud (S.kit.see (D.seen disk.old) (J.seen
        beside.old)) (S.kit.see (D.seen disk.new) (J.seen beside.new))) }
    ensures err { IfErr result (λ answer. ComesOff S.kit IsIdle (EndsClients S.kit clients.now)
        answer world.old world.new lines.old.items lines.new.items (S.kit.see (D.seen disk.old)
        (J.seen beside.old)) (S.kit.see (D.seen disk.new) (J.seen beside.new))) }
    ensures wild { GoesWild S.kit always result world.old world.new
        (S.kit.see (D.seen disk.old) (J.seen beside.old))
        (S.kit.see (D.seen disk.new) (J.seen beside.new)) }
    ensures counts { Counted S.kit (S.kit.see (D.seen disk.old) (J.seen beside.old))
        (S.kit.see (D.seen disk.new) (J.seen beside.new)) result }
{
    let mut loud = false;
    for client in clients {
        match turn_client(rt, alloc, world, lines, disk, beside, *client) {
            Ok(more) => loud = either(loud, more),
            Err(answer) => return Err(answer),
        }
    }
    Ok(loud)
}

/// Turns for all clients, by rising number. Answers whether something went on.
fn turn_each<R: Wait, S: Serving, D: SharedDisk, J: SharedDisk>(
    rt: &R,
    alloc: Global,
    world: &mut Cluster<S>,
    lines: &mut Vec<Seq<u8>>,
    disk: &mut D,
    beside: &mut J,
) -> Result<bool, DiskAnswer>
    requires { StandsOn S.kit IsIdle always world.old (S.kit.see (D.seen disk.old) (J.seen
        beside.old)) }
    ensures ok { IfOk result (λ loud. Comes S.kit IsIdle (each_by S.kit) world.old world.new
        lines.old.items lines.new.items loud (S.kit.see (D.seen disk.old) (J.seen beside.old))
        (S.kit.see (D.seen disk.new) (J.seen beside.new))) }
    ensures err { IfErr result (λ answer. ComesOff S.kit IsIdle (EndsEach S.kit) answer world.old
        world.new lines.old.items lines.new.items (S.kit.see (D.seen disk.old) (J.seen beside.old))
        (S.kit.see (D.seen disk.new) (J.seen beside.new))) }
    ensures wild { GoesWild S.kit always result world.old world.new
        (S.kit.see (D.seen disk.old) (J.seen beside.old))
        (S.kit.see (D.seen disk.new) (J.seen beside.new)) }
    ensures counts { Counted S.kit (S.kit.see (D.seen disk.old) (J.seen beside.old))
        (S.kit.see (D.seen disk.new) (J.seen beside.new)) result }
{
    match clients_of(alloc, world.agents.as_slice()) {
        Ok(clients) => turn_clients(rt, alloc, world, lines, disk, beside, clients.as_slice()),
        Err(_) => Err(DiskAnswer::Memory),
    }
}

/// These items are delivered, in order. Answers whether a client took one.
fn take_items<R: Wait, S: Serving>(
    rt: &R,
    alloc: Global,
    world: &mut Cluster<S>,
    lines: &mut Vec<Seq<u8>>,
    items: &[Message],
) -> Result<bool, AllocError>
    requires { StandsOf S.kit (IsIdleWithItems items.now) (AllPosted items.now) world.old }
    ensures ok { IfOk result (λ loud. Plays S.kit (IsIdleWithItems items.now) (items_taken S.kit
        items.now) world.old world.new lines.old.items lines.new.items loud) }
    ensures err { OnErr result (BreaksAloneIf S.kit (IsIdleWithItems items.now) world.old
        world.new) }
    ensures wild { OnOk result (KeepsWild S.kit (AllPosted items.now) world.old world.new) }
{
    let mut loud = false;
    for item in items {
        match take(rt, alloc, world, lines, item) {
            Ok(more) => loud = either(loud, more),
            Err(error) => return Err(error),
        }
    }
    Ok(loud)
}

/// All items without receipt are posted and delivered. Answers whether a client took one.
fn push_round<R: Wait, S: Serving>(
    rt: &R,
    alloc: Global,
    world: &mut Cluster<S>,
    lines: &mut Vec<Seq<u8>>,
) -> Result<bool, AllocError>
    requires { StandsOf S.kit IsIdle always world.old }
    ensures ok { IfOk result (λ loud. Plays S.kit IsIdle (round_pushed S.kit) world.old world.new
        lines.old.items lines.new.items loud) }
    ensures err { OnErr result (BreaksAloneIf S.kit IsIdle world.old world.new) }
    ensures wild { OnOk result (KeepsWild S.kit always world.old world.new) }
{
    match S::push(alloc, world, lines) {
        Ok(items) => {
            let taken = take_items(rt, alloc, world, lines, items.as_slice());
            let_messages_go(items);
            taken
        }
        Err(error) => Err(error),
    }
}

/// A round. Answers whether it was loud: an entry was committed, or a client took a reply or an item.
pub(crate) fn round<R: Wait, S: Serving, D: SharedDisk, J: SharedDisk>(
    rt: &R,
    alloc: Global,
    world: &mut Cluster<S>,
    lines: &mut Vec<Seq<u8>>,
    disk: &mut D,
    beside: &mut J,
) -> Result<bool, DiskAnswer>
    requires { StandsOn S.kit any_state always world.old (S.kit.see (D.seen disk.old) (J.seen
        beside.old)) }
    ensures ok { IfOk result (λ loud. Comes S.kit any_state (round_by S.kit) world.old world.new
        lines.old.items lines.new.items loud (S.kit.see (D.seen disk.old) (J.seen beside.old))
        (S.kit.see (D.seen disk.new) (J.seen beside.new))) }
    ensures err { IfErr result (λ answer. ComesOff S.kit any_state (EndsRound S.kit) answer
        world.old world.new lines.old.items lines.new.items (S.kit.see (D.seen disk.old) (J.seen
        beside.old)) (S.kit.see (D.seen disk.new) (J.seen beside.new))) }
    ensures wild { GoesWild S.kit always result world.old world.new
        (S.kit.see (D.seen disk.old) (J.seen beside.old))
        (S.kit.see (D.seen disk.new) (J.seen beside.new)) }
    ensures counts { Counted S.kit (S.kit.see (D.seen disk.old) (J.seen beside.old))
        (S.kit.see (D.seen disk.new) (J.seen beside.new)) result }
{
    let drained = match drain(alloc, world, lines, disk, beside) {
        Ok(drained) => drained,
        Err(answer) => return Err(answer),
    };
    let turned = match turn_each(rt, alloc, world, lines, disk, beside) {
        Ok(turned) => turned,
        Err(answer) => return Err(answer),
    };
    match push_round(rt, alloc, world, lines) {
        Ok(taken) => Ok(either(either(drained, turned), taken)),
        Err(_) => Err(DiskAnswer::Memory),
    }
}
