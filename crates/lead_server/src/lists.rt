//! Messages on the way between servers.
ghost use Rattle.std.specs.Prelude.{◌≡◌, ◌++◌, [], OnOk, OnErr};
ghost use Rattle.lead_server.specs.Told.{TakesFirst};

use ais_values::Seq;
use std::alloc::{AllocError, Global};
use std::mem;
use wire::{Message, let_messages_go};

/// Adds messages behind those on the way. Where memory runs out these stay, and the new ones are let go.
pub fn send_all(
    alloc: Global,
    list: &mut Seq<Message>,
    messages: Seq<Message>,
) -> Result<(), AllocError>
    ensures ok { OnOk result (list.new ≡ list.old ++ messages) }
    ensures err { OnErr result (list.new ≡ list.old) }
{
    let mut items = mem::replace(list, Seq::new(alloc)).into_vec();
    let mut more = messages.into_vec();
    let added = items.append(&mut more);
    let_messages_go(Seq::from_vec(more));
    let_messages_go(mem::replace(list, Seq::from_vec(items)));
    match added {
        Ok(()) => Ok(()),
        Err(error) => Err(error),
    }
}

/// Takes the first message, if there is one. It takes no memory.
pub fn take_first(alloc: Global, list: &mut Seq<Message>) -> Option<Message>
    ensures { TakesFirst result list.old list.new }
{
    let mut items = mem::replace(list, Seq::new(alloc)).into_vec();
    if items.is_empty() {
        let_messages_go(Seq::from_vec(items));
        return None;
    }
    let first = items.remove(0);
    let_messages_go(mem::replace(list, Seq::from_vec(items)));
    Some(first)
}

/// Nothing is on the way any more.
pub fn clear(alloc: Global, list: &mut Seq<Message>)
    ensures { list.new ≡ [] }
{
    let_messages_go(mem::replace(list, Seq::new(alloc)));
}
