//! The lines of a script, one after another.
use crate::applying::{apply_call, apply_receipt};
use crate::beginning::{Session, begin};
use crate::broken::are_broken_refused;
use crate::files::{put_bytes, put_files};
use crate::printing::{put, put_items, put_line};
use ais_values::Which;
use calls::{Ask, Call, Held};
use script::{Line, parse_script};
use std::alloc::{AllocError, Global};

/// A client asks something.
fn ask(
    alloc: Global,
    session: &mut Session,
    client: u16,
    ask: &Ask,
    out: &mut Vec<u8>,
) -> Result<(), AllocError> {
    match ask {
        Ask::Plain { call } => apply_call(alloc, session, client, call, out),
        Ask::Start {
            service: Which::Log,
            version: _,
        } => apply_call(alloc, session, client, &Call::LogInit, out),
        Ask::Start {
            service: Which::Ntf,
            version: _,
        } => apply_call(alloc, session, client, &Call::NtfInit, out),
    }
}

/// The client, the key and the number of an item, by its place from 1.
fn place_of(items: &[Held], place: u64) -> Option<(u16, u32, u32)> {
    let mut left = place;
    for held in items {
        if left == 1 {
            return Some((held.client, held.key, held.item.number));
        }
        left = left.saturating_sub(1);
    }
    None
}

/// The receipt through the item at this place.
fn receive(
    alloc: Global,
    session: &mut Session,
    place: u64,
    out: &mut Vec<u8>,
) -> Result<(), AllocError> {
    let items = session.service.items(alloc)?;
    let found = place_of(items.as_slice(), place);
    drop(items);
    match found {
        None => put(out, b"no item\n"),
        Some((client, key, number)) => apply_receipt(alloc, session, client, key, number, out),
    }
}

/// Shows the items that are held.
fn show_items(alloc: Global, session: &Session, out: &mut Vec<u8>) -> Result<(), AllocError> {
    let items = session.service.items(alloc)?;
    let shown = put_items(alloc, items.as_slice(), out);
    drop(items);
    shown
}

/// Plays a line.
fn play(
    alloc: Global,
    session: &mut Session,
    line: &Line,
    out: &mut Vec<u8>,
) -> Result<(), AllocError> {
    match line {
        Line::Time { now } => {
            session.now = *now;
            Ok(())
        }
        Line::Log { client, ask: asked } => ask(alloc, session, *client, asked, out),
        Line::Ntf { client, ask: asked } => ask(alloc, session, *client, asked, out),
        Line::Deliver { place } => receive(alloc, session, *place, out),
        Line::Push => show_items(alloc, session, out),
        Line::Files => put_files(alloc, &mut session.disk, out),
        Line::Cat { name } => put_bytes(alloc, &mut session.disk, name, out),
        Line::Settle | Line::DispatchOne { .. } | Line::DispatchAll { .. } => Ok(()),
        _ => put(out, b"no line of a service\n"),
    }
}

/// Plays lines in order.
fn play_lines(
    alloc: Global,
    session: &mut Session,
    lines: &[Line],
    out: &mut Vec<u8>,
) -> Result<(), AllocError> {
    for line in lines {
        play(alloc, session, line, out)?;
    }
    if !are_broken_refused(alloc, &session.service)? {
        put(out, b"a broken value is taken\n")?;
    }
    let number = session.service.number();
    put_line(out, format!(in alloc; "{number} entries")?)
}

/// Plays all lines, of which the first begins the session.
fn play_from(alloc: Global, lines: &[Line], out: &mut Vec<u8>) -> Result<(), AllocError> {
    let Some((first, others)) = lines.split_first() else {
        return put(out, b"no line\n");
    };
    match begin(alloc, first)? {
        None => put(out, b"no service\n"),
        Some(session) => {
            let mut session = session;
            let played = play_lines(alloc, &mut session, others, out);
            drop(session);
            played
        }
    }
}

/// Plays a script.
pub(crate) fn play_script(
    alloc: Global,
    bytes: &[u8],
    out: &mut Vec<u8>,
) -> Result<(), AllocError> {
    if bytes.len() > 16_777_216 {
        return put(out, b"too long\n");
    }
    match parse_script(alloc, bytes) {
        Err(_) => put(out, b"no script\n"),
        Ok(lines) => {
            let played = play_from(alloc, lines.as_slice(), out);
            drop(lines);
            played
        }
    }
}
