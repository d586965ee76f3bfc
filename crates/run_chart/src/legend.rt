//! The head of a picture: its size, its colours and what they mean.
use crate::events::{Event, Kind, Role, Server};
use crate::frame::{Frame, PANEL_HEIGHT, PANEL_ROWS, bottom};
use crate::marks::{
    put_agent_mark, put_callback_mark, put_entry_mark, put_fault_mark, put_file_mark,
    put_light_arrow, put_refusal_mark, put_ring,
};
use crate::panels::put_role;
use crate::pen::{At, Pen};
use crate::run::Run;
use std::alloc::AllocError;

/// The height of the legend.
const LEGEND: u64 = 122;

/// The least width that the legend takes.
const WIDTH: u64 = 940;

const STYLE: &str = "<style>\
text{font:9px 'DejaVu Sans Mono','Liberation Mono',Menlo,Consolas,monospace;fill:#111}\
.small{font-size:8px;fill:#444}.light{fill:#666}.name{font-size:11px;font-weight:bold}\
.end{text-anchor:end}.mid{text-anchor:middle}.role{font-weight:bold}\
.number{font-size:9px;font-weight:bold;text-anchor:middle;fill:#fff}\
.big{font-size:13px;font-weight:bold}\
path{fill:none;stroke-width:1.3}\
.req,.rep{stroke-width:1.4}.req{stroke:#000}.rep{stroke:#0072b2}\
.item{stroke:#d55e00;stroke-dasharray:6 2}.rcpt{stroke:#00795a;stroke-dasharray:1.5 2}\
.lost{stroke:#999;stroke-width:1;stroke-dasharray:3 3}\
.head{stroke:none}.req.head{fill:#000}.rep.head{fill:#0072b2}.item.head{fill:#d55e00}\
.rcpt.head{fill:#00795a}.lost.head{fill:#999}\
.ring{fill:#fff;stroke:#000;stroke-width:1.2}.cross{stroke:#666;stroke-width:1.5}\
.commit{stroke:#888;stroke-width:.8}.life{stroke:#bbb;stroke-width:1}.rule{stroke:#e4e4e4;stroke-width:1}\
.quote{stroke:#888;stroke-width:2}.fault{stroke:#c00;stroke-width:2.5}.change{stroke:#000;stroke-width:1.5}\
.entry{fill:#333}.told{fill:#fff;stroke:#000;stroke-width:1.3}.callback{fill:#cc79a7;stroke:#000;stroke-width:.8}\
.file{fill:#fff;stroke:#666}.refused{fill:#f0e442;stroke:#000;stroke-width:.8}\
.net{fill:#f4f4f4}.paper{fill:#fff}\
rect.active,rect.armed,rect.standby,rect.joining,rect.journal,rect.down,rect.untold{stroke:#333;stroke-width:.8}\
.active{fill:#0072b2}.armed{fill:url(#armed)}.standby{fill:#b9def5}.joining{fill:url(#joining)}.journal{fill:#e6dcc3}\
.down{fill:url(#down)}.untold{fill:#fff;stroke-dasharray:2 2}\
</style><defs>\
<pattern id=\"armed\" width=\"6\" height=\"6\" patternUnits=\"userSpaceOnUse\" patternTransform=\"rotate(45)\">\
<rect width=\"6\" height=\"6\" fill=\"#0072b2\"/><rect width=\"3\" height=\"6\" fill=\"#f0e442\"/></pattern>\
<pattern id=\"joining\" width=\"5\" height=\"5\" patternUnits=\"userSpaceOnUse\" patternTransform=\"rotate(45)\">\
<rect width=\"5\" height=\"5\" fill=\"#fff\"/><rect width=\"2\" height=\"5\" fill=\"#56b4e9\"/></pattern>\
<pattern id=\"down\" width=\"5\" height=\"5\" patternUnits=\"userSpaceOnUse\">\
<rect width=\"5\" height=\"5\" fill=\"#fff\"/><path d=\"M0 0L5 5M5 0L0 5\" style=\"stroke:#777;stroke-width:.8\"/></pattern>\
</defs>";

/// Begins a picture of so many rows: its size, its style, its legend and the place of its panels.
pub(crate) fn put_head(pen: &mut Pen, frame: &Frame, run: &Run) -> Result<(), AllocError> {
    let rows = run.rows.len();
    let panels = rows.div_ceil(PANEL_ROWS) as u64;
    let width = panels
        .min(frame.across())
        .saturating_mul(frame.width())
        .max(WIDTH);
    let below = panels.saturating_sub(1) / frame.across();
    let height = below
        .saturating_mul(PANEL_HEIGHT)
        .saturating_add(LEGEND + 24);
    let height = height.saturating_add(bottom(rows));
    let size = format!(in pen.alloc(); "width=\"{width}\" height=\"{height}\"")?;
    let size = size.as_str();
    let front = format!(in pen.alloc();
        "<svg xmlns=\"http://www.w3.org/2000/svg\" {size} xml:space=\"preserve\">"
    )?;
    pen.put(front.as_str())?;
    pen.put(STYLE)?;
    pen.area("paper", At(0, 0), At(width, height))?;
    put_heading(pen, run)?;
    put_arrows(pen)?;
    put_roles(pen)?;
    put_marks(pen)?;
    put_notes(pen)?;
    let place = format!(in pen.alloc(); "<g transform=\"translate(0 {LEGEND})\">\n")?;
    pen.put(place.as_str())
}

// How much the run has.
fn put_heading(pen: &mut Pen, run: &Run) -> Result<(), AllocError> {
    let rows = run.rows.len();
    let messages = run.messages.len();
    let entries = run.rows.iter().filter(|row| is_entry(row.event)).count();
    let text = format!(in pen.alloc();
        "A run in {rows} lines: {messages} messages, {entries} entries"
    )?;
    pen.label("big", At(12, 20), text.as_bytes(), 100)
}

// Whether an event is an entry of the history.
fn is_entry(event: Event) -> bool {
    matches!(event, Event::Committed { .. })
}

// The arrows of messages.
fn put_arrows(pen: &mut Pen) -> Result<(), AllocError> {
    let y = 40;
    put_sample(pen, Kind::Request, At(12, y), b"request (req)")?;
    put_sample(pen, Kind::Reply, At(162, y), b"reply (rep)")?;
    put_sample(pen, Kind::Item, At(312, y), b"item")?;
    put_sample(pen, Kind::Receipt, At(462, y), b"receipt (rcpt)")?;
    put_light_arrow(pen, At(612, y), At(646, y), true)?;
    pen.label(
        "plain",
        At(656, y).down(3),
        b"delivered without effect, and why",
        60,
    )
}

// An arrow of this kind, and its name.
fn put_sample(pen: &mut Pen, kind: Kind, at: At, text: &[u8]) -> Result<(), AllocError> {
    let to_right = kind.is_of_client();
    let point = if to_right { at.right(34) } else { at };
    pen.stroke(kind.word(), at, at.right(34))?;
    pen.head(kind.head(), point, to_right)?;
    pen.label("plain", at.right(42).down(3), text, 60)
}

// The colours of roles.
fn put_roles(pen: &mut Pen) -> Result<(), AllocError> {
    put_swatch(pen, Role::Active, 12, b"active")?;
    put_swatch(pen, Role::Armed, 112, b"active and armed")?;
    put_swatch(pen, Role::Standby, 272, b"standby")?;
    put_swatch(pen, Role::Joining, 392, b"joining")?;
    put_swatch(pen, Role::Journal, 512, b"journal")?;
    put_swatch(pen, Role::Down, 632, b"down")?;
    put_swatch(pen, Role::Untold, 742, b"not told by any line yet")
}

// A piece of a bar in the colour of this role, and its name.
fn put_swatch(pen: &mut Pen, role: Role, x: u64, text: &[u8]) -> Result<(), AllocError> {
    put_role(pen, role, At(x, 53), 65)?;
    pen.label("plain", At(x, 62).right(22), text, 60)
}

// The marks of lines.
fn put_marks(pen: &mut Pen) -> Result<(), AllocError> {
    let y = 80;
    put_entry_mark(pen, At(20, y), 7)?;
    pen.label("plain", At(36, y).down(3), b"entry, committed", 60)?;
    put_callback_mark(pen, At(149, y))?;
    pen.label("plain", At(164, y).down(3), b"callback", 60)?;
    put_agent_mark(pen, At(249, y))?;
    pen.label("plain", At(264, y).down(3), b"the agent's answer", 60)?;
    put_ring(pen, At(389, y))?;
    pen.label("plain", At(404, y).down(3), b"in the net still", 60)?;
    put_refusal_mark(pen, At(519, y))?;
    pen.label("plain", At(534, y).down(3), b"refused line", 60)?;
    put_file_mark(pen, At(629, y))?;
    pen.label("plain", At(644, y).down(3), b"file, with its length", 60)?;
    put_fault_mark(pen, At(789, y))?;
    pen.label("plain", At(804, y).down(3), b"fault of the disk", 60)
}

// What the lines do not tell.
fn put_notes(pen: &mut Pen) -> Result<(), AllocError> {
    let first =
        b"Time runs down, a row for each printed line: rest the pointer on a row to read it whole. Panels of 100 lines go on to the right, then below. #7 is message 7 of the net.";
    let second =
        b"No line tells a delivery by itself: an arrow ends where its entry is committed, its reply is taken, or the receipt of its item is posted. A run begins with a active.";
    pen.label("small", At(12, 98), first, 200)?;
    pen.label("small", At(12, 110), second, 200)
}
