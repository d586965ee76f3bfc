//! What is drawn of each line.
use crate::events::{Event, Kind, Naming, Server};
use crate::frame::{Frame, middle};
use crate::marks::{
    put_agent_mark, put_callback_mark, put_cross, put_entry_mark, put_fault_mark, put_file_mark,
    put_light_arrow, put_refusal_mark, put_ring,
};
use crate::pen::{At, Pen};
use crate::run::{Message, Row, Run};
use crate::words::behind;
use civil_time::{LAST_SECOND, stamp_at};
use std::alloc::{AllocError, Global};

// How many bytes a label has at most: at a client, before the servers, at the history.
const CLIENT_LABEL: usize = 31;

const SERVER_LABEL: usize = 20;

const HISTORY_LABEL: usize = 62;

/// A row of a run, and how far down its middle is.
#[derive(Drop)]
struct Place<'a> {
    frame: &'a Frame,
    run: &'a Run,
    row: &'a Row,
    y: u64,
}

/// Draws a line.
pub(crate) fn put_row(
    pen: &mut Pen,
    frame: &Frame,
    run: &Run,
    index: usize,
    line: &[u8],
) -> Result<(), AllocError> {
    let Some(row) = run.rows.get(index) else {
        return Ok(());
    };
    let y = middle(index);
    let place = Place { frame, run, row, y };
    match row.event {
        Event::Posted { number, name } => put_post(pen, &place, number, name),
        Event::Injected => put_injected(pen, &place, line),
        Event::Committed { entry, name, .. } => put_entry(pen, &place, entry, name),
        Event::Answered { name } => put_reply(pen, &place, name.client, line),
        Event::Told { client } => put_told(pen, &place, client, line),
        Event::CalledBack { client } => put_callback(pen, &place, client, line),
        Event::Ignored { .. } => put_ignored(pen, &place, line),
        Event::Refused { .. } => put_refused(pen, &place, line),
        Event::Stands { server, .. } => put_role_line(pen, &place, server, line),
        Event::File => put_file(pen, &place, line),
        Event::Text => put_text(pen, &place, line),
        Event::Failed => put_failure(pen, &place, line),
    }
}

// The arrow of a message from its poster into the net; a ring where no line tells that it came out.
fn put_leaving(pen: &mut Pen, frame: &Frame, message: Message, from: At) -> Result<(), AllocError> {
    let At(_, y) = from;
    let point = At(frame.lane(message.lane), y);
    let kind = message.name.kind;
    pen.stroke(kind.word(), from, point)?;
    if message.last == message.posted {
        return put_ring(pen, point);
    }
    pen.head(kind.head(), point, kind.is_of_client())
}

// The arrow of a message out of the net to who took it.
fn put_coming(pen: &mut Pen, frame: &Frame, message: Message, to: At) -> Result<(), AllocError> {
    let At(_, y) = to;
    let kind = message.name.kind;
    pen.stroke(kind.word(), At(frame.lane(message.lane), y), to)?;
    pen.head(kind.head(), to, kind.is_of_client())
}

// A message is posted. In the row of a receipt the item that it answers comes in above it.
fn put_post(pen: &mut Pen, place: &Place, number: u64, name: Naming) -> Result<(), AllocError> {
    let Some(message) = place.run.message(place.row.posted) else {
        return Ok(());
    };
    let text = post_text(pen.alloc(), number, name)?;
    let text = text.as_bytes();
    let client = At(place.frame.client(name.client), place.y);
    match name.kind {
        Kind::Request => put_client_post(pen, place.frame, message, client, text),
        Kind::Receipt => {
            if let Some(item) = place.run.message(place.row.arrival) {
                put_coming(pen, place.frame, item, client.up(4))?;
            }
            put_client_post(pen, place.frame, message, client.down(3), text)
        }
        Kind::Reply | Kind::Item => put_server_post(pen, place, message, text),
    }
}

// The arrow of what a client posts, and its words.
fn put_client_post(
    pen: &mut Pen,
    frame: &Frame,
    message: Message,
    from: At,
    text: &[u8],
) -> Result<(), AllocError> {
    put_leaving(pen, frame, message, from)?;
    pen.label("end", from.left(8).down(3), text, CLIENT_LABEL)
}

// The arrow of what a server posts, and its words.
fn put_server_post(
    pen: &mut Pen,
    place: &Place,
    message: Message,
    text: &[u8],
) -> Result<(), AllocError> {
    let from = At(place.frame.server(message.by), place.y);
    put_leaving(pen, place.frame, message, from)?;
    let at = At(place.frame.server(Server::First), place.y);
    pen.label("small end", at.left(6).up(3), text, SERVER_LABEL)
}

// A message's number and what it is; at a client's column the client is left out.
fn post_text(alloc: Global, number: u64, name: Naming) -> Result<String, AllocError> {
    let word = name.kind.word();
    let client = name.client;
    let first = name.first;
    let second = name.second;
    match name.kind {
        Kind::Request => format!(in alloc; "#{number} {word} {first}"),
        Kind::Reply => format!(in alloc; "#{number} {word} {client} {first}"),
        Kind::Item => format!(in alloc; "#{number} {word} {client} {first} {second}"),
        Kind::Receipt => format!(in alloc; "#{number} {word} {first} {second}"),
    }
}

// An entry: its message reaches the server, and its number stands in the history.
fn put_entry(pen: &mut Pen, place: &Place, entry: u64, name: Naming) -> Result<(), AllocError> {
    let frame = place.frame;
    let active = place.row.active;
    if let Some(message) = place.run.message(place.row.arrival) {
        put_coming(pen, frame, message, At(frame.server(active), place.y))?;
        let number = message.number;
        let text = format!(in pen.alloc(); "#{number}")?;
        let at = At(frame.net_end(), place.y);
        pen.label("small", at.right(4).up(3), text.as_bytes(), SERVER_LABEL)?;
    }
    let from = At(frame.server_end(active), place.y);
    let to = At(frame.history(), place.y);
    pen.stroke("commit", from, to)?;
    put_entry_mark(pen, to, entry)?;
    let text = entry_text(pen.alloc(), name, place.row.time)?;
    pen.label(
        "plain",
        to.right(26).down(3),
        text.as_bytes(),
        HISTORY_LABEL,
    )
}

// Whose call or receipt an entry is, and its time where that is another one than before.
fn entry_text(alloc: Global, name: Naming, time: Option<u64>) -> Result<String, AllocError> {
    let client = name.client;
    let first = name.first;
    let second = name.second;
    let mut text = match name.kind {
        Kind::Receipt => format!(in alloc; "rcpt {client} {first} {second}")?,
        _ => format!(in alloc; "call {client} {first}")?,
    };
    if let Some(time) = time {
        put_stamp(&mut text, time / 1_000_000_000)?;
    }
    Ok(text)
}

// Adds a moment, by its second since 1970.
fn put_stamp(text: &mut String, second: u64) -> Result<(), AllocError> {
    let stamp = stamp_at(second.min(LAST_SECOND));
    match str::from_utf8(stamp.as_slice()) {
        Ok(stamp) => {
            text.push_str("   ")?;
            text.push_str(stamp)
        }
        Err(_) => Ok(()),
    }
}

// A client takes a reply.
fn put_reply(pen: &mut Pen, place: &Place, client: u64, line: &[u8]) -> Result<(), AllocError> {
    let to = At(place.frame.client(client), place.y);
    if let Some(message) = place.run.message(place.row.arrival) {
        put_coming(pen, place.frame, message, to)?;
    }
    put_client_label(pen, to, b"reply ", behind(line, 2))
}

// Words at a client's column.
fn put_client_label(pen: &mut Pen, at: At, word: &[u8], rest: &[u8]) -> Result<(), AllocError> {
    let mut text = word.to_vec(pen.alloc())?;
    text.extend_from_slice(rest)?;
    pen.label("end", at.left(8).down(3), text.as_slice(), CLIENT_LABEL)
}

// What a client's agent tells by itself.
fn put_told(pen: &mut Pen, place: &Place, client: u64, line: &[u8]) -> Result<(), AllocError> {
    let at = At(place.frame.client(client), place.y);
    put_agent_mark(pen, at)?;
    put_client_label(pen, at, b"", behind(line, 3))
}

// A callback at its client.
fn put_callback(pen: &mut Pen, place: &Place, client: u64, line: &[u8]) -> Result<(), AllocError> {
    let at = At(place.frame.client(client), place.y);
    put_callback_mark(pen, at)?;
    put_client_label(pen, at, b"callback ", behind(line, 2))
}

// Bytes that are no message: a ring in the net, with their number there and how many they are.
fn put_injected(pen: &mut Pen, place: &Place, line: &[u8]) -> Result<(), AllocError> {
    put_ring(pen, At(place.frame.lane(0), place.y))?;
    put_beside(pen, place, behind(line, 1))
}

// A word on what has no way in the net, behind its number there.
fn put_beside(pen: &mut Pen, place: &Place, words: &[u8]) -> Result<(), AllocError> {
    let mut text = b"#".to_vec(pen.alloc())?;
    text.extend_from_slice(words)?;
    let at = At(place.frame.net_end(), place.y).right(4).down(3);
    pen.label("small", at, text.as_slice(), SERVER_LABEL)
}

// A message that had no effect: a lighter arrow to who got it, a cross there, and why.
fn put_ignored(pen: &mut Pen, place: &Place, line: &[u8]) -> Result<(), AllocError> {
    let frame = place.frame;
    let Some(message) = place.run.message(place.row.arrival) else {
        put_cross(pen, At(frame.lane(0), place.y))?;
        return put_beside(pen, place, behind(line, 1));
    };
    let mut text = b"#".to_vec(pen.alloc())?;
    text.extend_from_slice(behind(line, 1))?;
    let text = text.as_slice();
    let beside = At(frame.net_end(), place.y).right(4);
    let from = At(frame.lane(message.lane), place.y);
    if message.name.kind.is_of_client() {
        put_light_arrow(pen, from, At(frame.server(place.row.active), place.y), true)?;
        return pen.label("small", beside.up(3), text, SERVER_LABEL);
    }
    let to = At(frame.client(message.name.client), place.y);
    put_light_arrow(pen, from, to, false)?;
    pen.label("light end", to.left(8).down(3), text, CLIENT_LABEL)
}

// A line that is refused, at the history.
fn put_refused(pen: &mut Pen, place: &Place, line: &[u8]) -> Result<(), AllocError> {
    let at = At(place.frame.history(), place.y);
    put_refusal_mark(pen, at)?;
    pen.label("light", at.right(12).down(3), line, HISTORY_LABEL)
}

// A server's role: a rule across its bar and darker words where it changed, and else lighter words alone.
fn put_role_line(
    pen: &mut Pen,
    place: &Place,
    server: Server,
    line: &[u8],
) -> Result<(), AllocError> {
    let frame = place.frame;
    let words = At(frame.server(Server::First), place.y).left(6);
    if !place.row.is_change {
        return pen.label("light end", words.down(3), line, SERVER_LABEL);
    }
    let from = At(frame.server(server), place.y).left(4).up(8);
    let to = At(frame.server_end(server), place.y).right(4).up(8);
    pen.stroke("change", from, to)?;
    pen.label("role end", words.down(1), line, SERVER_LABEL)
}

// The disk failed: a rule across all servers up to the history, where the run ends.
fn put_failure(pen: &mut Pen, place: &Place, line: &[u8]) -> Result<(), AllocError> {
    let from = At(place.frame.server(Server::First), place.y).left(4);
    let to = At(place.frame.history(), place.y);
    pen.stroke("fault", from, to)?;
    put_fault_mark(pen, to)?;
    pen.label("role", to.right(12).down(3), line, HISTORY_LABEL)
}

// A file with its length.
fn put_file(pen: &mut Pen, place: &Place, line: &[u8]) -> Result<(), AllocError> {
    let at = At(place.frame.history(), place.y);
    put_file_mark(pen, at)?;
    pen.label(
        "plain",
        at.right(12).down(3),
        behind(line, 1),
        HISTORY_LABEL,
    )
}

// A line of a file.
fn put_text(pen: &mut Pen, place: &Place, line: &[u8]) -> Result<(), AllocError> {
    let at = At(place.frame.history(), place.y).right(6);
    pen.stroke("quote", at.up(6), at.down(6))?;
    pen.label("plain", at.right(6).down(3), behind(line, 1), HISTORY_LABEL)
}
