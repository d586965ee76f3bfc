//! What stands behind the lines of a panel: its columns with their names, the servers' roles, the messages in the net.
use crate::events::{Kind, Role, Server};
use crate::frame::{BAR, Frame, HEAD, PANEL_HEIGHT, PANEL_ROWS, bottom, middle, top};
use crate::pen::{At, Pen};
use crate::run::{Message, Run};
use std::alloc::AllocError;

/// The rows of a panel: from one to before the other.
#[derive(Clone, Copy)]
struct Part {
    from: usize,
    to: usize,
}

/// Begins the panel whose first row this is.
pub(crate) fn put_panel(
    pen: &mut Pen,
    frame: &Frame,
    run: &Run,
    from: usize,
) -> Result<(), AllocError> {
    let to = from.saturating_add(PANEL_ROWS).min(run.rows.len());
    let part = Part { from, to };
    let panel = (from / PANEL_ROWS) as u64;
    let left = (panel % frame.across()).saturating_mul(frame.width());
    let upper = (panel / frame.across()).saturating_mul(PANEL_HEIGHT);
    let front = format!(in pen.alloc(); "<g transform=\"translate({left} {upper})\">")?;
    pen.put(front.as_str())?;
    put_columns(pen, frame, bottom(to.saturating_sub(from)))?;
    put_rules(pen, frame, part)?;
    put_names(pen, frame)?;
    put_bar(pen, frame, run, part, Server::First)?;
    put_bar(pen, frame, run, part, Server::Second)?;
    if run.third {
        put_bar(pen, frame, run, part, Server::Third)?;
    }
    for message in &run.messages {
        put_lane(pen, frame, *message, part)?;
    }
    Ok(())
}

// The net's band, and the lines of clients and history.
fn put_columns(pen: &mut Pen, frame: &Frame, lower: u64) -> Result<(), AllocError> {
    let height = lower.saturating_sub(HEAD);
    let net = frame.net();
    let width = frame.net_end().saturating_sub(net);
    pen.area("net", At(net, HEAD), At(width, height))?;
    for place in 0..frame.clients.len() {
        let x = frame.line_at(place);
        pen.stroke("life", At(x, HEAD), At(x, lower))?;
    }
    let x = frame.history();
    pen.stroke("life", At(x, HEAD), At(x, lower))
}

// The number of each tenth line, and a rule below it.
fn put_rules(pen: &mut Pen, frame: &Frame, part: Part) -> Result<(), AllocError> {
    for row in part.from..part.to {
        let number = row.saturating_add(1);
        if number % 10 == 0 {
            let text = format!(in pen.alloc(); "{number}")?;
            let at = At(34, middle(row));
            pen.label("small end", at.down(3), text.as_bytes(), 12)?;
            let end = At(frame.width(), middle(row)).left(16);
            pen.stroke("rule", at.right(4).down(8), end.down(8))?;
        }
    }
    Ok(())
}

// The names above the columns.
fn put_names(pen: &mut Pen, frame: &Frame) -> Result<(), AllocError> {
    let y = HEAD - 10;
    for (place, client) in frame.clients.iter().enumerate() {
        let text = format!(in pen.alloc(); "client {client}")?;
        pen.label(
            "name end",
            At(frame.line_at(place), y).right(6),
            text.as_bytes(),
            20,
        )?;
    }
    pen.label("name mid", At(frame.net(), y).right(39), b"net", 20)?;
    pen.label(
        "name mid",
        At(frame.server(Server::First), y).right(7),
        b"a",
        20,
    )?;
    pen.label(
        "name mid",
        At(frame.server(Server::Second), y).right(7),
        b"b",
        20,
    )?;
    if frame.third {
        let at = At(frame.server(Server::Third), y).right(7);
        pen.label("name mid", at, b"c", 20)?;
    }
    let at = At(frame.server(Server::First), y).left(6);
    pen.label("name end", at, b"server", 20)?;
    pen.label("name", At(frame.history(), y).left(8), b"history", 20)
}

// The roles of a server, from one line that changes it to the next.
fn put_bar(
    pen: &mut Pen,
    frame: &Frame,
    run: &Run,
    part: Part,
    server: Server,
) -> Result<(), AllocError> {
    let x = frame.server(server);
    let mut from = part.from;
    let mut role = role_at(run, from, server);
    for row in part.from..part.to {
        let next = role_at(run, row, server);
        if next != role {
            put_role(pen, role, At(x, top(from)), top(row))?;
            role = next;
            from = row;
        }
    }
    put_role(
        pen,
        role,
        At(x, top(from)),
        bottom(part.to.saturating_sub(part.from)),
    )
}

// The role of a server at a row.
fn role_at(run: &Run, row: usize, server: Server) -> Role {
    match run.rows.get(row) {
        Some(row) => row.roles.of(server),
        None => Role::Untold,
    }
}

/// A piece of a server's bar.
pub(crate) fn put_role(
    pen: &mut Pen,
    role: Role,
    corner: At,
    lower: u64,
) -> Result<(), AllocError> {
    let At(_, upper) = corner;
    pen.area(role.word(), corner, At(BAR, lower.saturating_sub(upper)))
}

// The way of a message down the net within a panel; lighter behind the row in which it had its effect.
fn put_lane(pen: &mut Pen, frame: &Frame, message: Message, part: Part) -> Result<(), AllocError> {
    if part.to <= message.posted || message.last < part.from {
        return Ok(());
    }
    let lower = bottom(part.to.saturating_sub(part.from));
    let x = frame.lane(message.lane);
    let begin = clipped(message.posted, part, begin_of(message), lower);
    let end = clipped(message.last, part, middle(message.last), lower);
    let Some(row) = message.arrived else {
        return pen.stroke("lost", At(x, begin), At(x, end));
    };
    let turn = clipped(row, part, end_of(message, row), lower);
    if begin < turn {
        pen.stroke(message.name.kind.word(), At(x, begin), At(x, turn))?;
    }
    if row < message.last && turn < end {
        pen.stroke("lost", At(x, turn), At(x, end))?;
    }
    Ok(())
}

// How far down a row is, or the side of the panel that it lies beyond.
fn clipped(row: usize, part: Part, y: u64, lower: u64) -> u64 {
    if row < part.from {
        HEAD
    } else if part.to <= row {
        lower
    } else {
        y
    }
}

// Where a message goes into the net: a receipt lower in its row than the item that it answers.
fn begin_of(message: Message) -> u64 {
    let y = middle(message.posted);
    match message.name.kind {
        Kind::Receipt => y.saturating_add(3),
        _ => y,
    }
}

// Where a message comes out of the net: an item higher in its row than the receipt that answers it.
fn end_of(message: Message, row: usize) -> u64 {
    let y = middle(row);
    match message.name.kind {
        Kind::Item => y.saturating_sub(4),
        _ => y,
    }
}
