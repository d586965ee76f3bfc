//! The lines of replies and items.
use ais_values::Status;
use calls::{Held, Reply};
use std::alloc::{AllocError, Global};
use stream_config::{MAX_MASK, Mark};
use sub_queue::{Content, Lost};

/// Adds bytes.
pub(crate) fn put(out: &mut Vec<u8>, bytes: &[u8]) -> Result<(), AllocError> {
    out.extend_from_slice(bytes)?;
    Ok(())
}

/// Adds a line.
pub(crate) fn put_line(out: &mut Vec<u8>, line: String) -> Result<(), AllocError> {
    out.extend_from_slice(line.as_bytes())?;
    out.push(b'\n')?;
    Ok(())
}

/// The words of an ok: whether a write was filtered, and the stream's mark where an entry made it.
fn ok_words(alloc: Global, filtered: bool, mark: Mark) -> Result<String, AllocError> {
    let since = mark.since;
    let mask = mark.mask;
    let ok = if filtered { "ok filtered" } else { "ok" };
    if since == 0 && mask == MAX_MASK {
        return String::from_str(alloc, ok);
    }
    format!(in alloc; "{ok} since={since} mask={mask}")
}

/// The words of a reply.
fn reply_words(alloc: Global, reply: &Reply) -> Result<String, AllocError> {
    match reply {
        Reply::Refused { status } => {
            let word = status.word();
            String::from_str(alloc, word)
        }
        Reply::Done => String::from_str(alloc, Status::Ok.word()),
        Reply::Sent { id } => format!(in alloc; "ok id={id}"),
        Reply::Found { notification } => {
            let id = notification.get().id;
            let time = notification.get().event_time;
            format!(in alloc; "ok alarm id={id} time={time}")
        }
        Reply::Marked { filtered, mark } => ok_words(alloc, *filtered, *mark),
    }
}

/// Adds the line of a reply.
pub(crate) fn put_reply(
    alloc: Global,
    client: u16,
    seq: u32,
    reply: &Reply,
    out: &mut Vec<u8>,
) -> Result<(), AllocError> {
    let words = reply_words(alloc, reply)?;
    put_line(out, format!(in alloc; "reply {client} {seq} {words}")?)
}

/// Adds the notifications that were lost, by type and id.
fn put_lost(alloc: Global, lost: &[Lost], out: &mut Vec<u8>) -> Result<(), AllocError> {
    put(out, b" lost")?;
    for mark in lost {
        let kind = mark.kind;
        let id = mark.id;
        let words = format!(in alloc; " {kind:#06x}:{id}")?;
        put(out, words.as_bytes())?;
    }
    put(out, b"\n")
}

/// Adds the line of an item.
fn put_item(alloc: Global, held: &Held, out: &mut Vec<u8>) -> Result<(), AllocError> {
    let client = held.client;
    let key = held.key;
    let item = &held.item;
    let number = item.number;
    let front = format!(in alloc; "item {client} {key} {number}")?;
    put(out, front.as_bytes())?;
    match &item.content {
        Content::Notified { notification } => {
            let id = notification.get().id;
            put_line(out, format!(in alloc; " id={id}")?)
        }
        Content::Discarded { lost } => put_lost(alloc, lost.as_slice(), out),
    }
}

/// Adds the lines of items.
pub(crate) fn put_items(
    alloc: Global,
    items: &[Held],
    out: &mut Vec<u8>,
) -> Result<(), AllocError> {
    for held in items {
        put_item(alloc, held, out)?;
    }
    Ok(())
}
