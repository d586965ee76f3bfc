//! The marks that stand for lines.
use crate::pen::{At, Pen};
use std::alloc::AllocError;

/// The mark of an entry, with its number.
pub(crate) fn put_entry_mark(pen: &mut Pen, middle: At, entry: u64) -> Result<(), AllocError> {
    let text = format!(in pen.alloc(); "{entry}")?;
    let half = 5 + 3 * (text.len().min(4) as u64);
    pen.area("entry", middle.left(half).up(7), At(2 * half, 14))?;
    pen.label("number", middle.down(3), text.as_bytes(), 12)
}

/// The mark of a callback.
pub(crate) fn put_callback_mark(pen: &mut Pen, middle: At) -> Result<(), AllocError> {
    let At(x, y) = middle;
    let way = format!(in pen.alloc(); "M{x} {y}m-5 0l5 -5l5 5l-5 5z")?;
    pen.path("callback", way.as_str())
}

/// The mark of what a client's agent answers by itself.
pub(crate) fn put_agent_mark(pen: &mut Pen, middle: At) -> Result<(), AllocError> {
    pen.area("told", middle.left(4).up(4), At(8, 8))
}

/// The mark of a message of which no line tells that it came out of the net.
pub(crate) fn put_ring(pen: &mut Pen, middle: At) -> Result<(), AllocError> {
    pen.circle("ring", middle, 3)
}

/// The mark of a refused line of the script.
pub(crate) fn put_refusal_mark(pen: &mut Pen, middle: At) -> Result<(), AllocError> {
    let At(x, y) = middle;
    let way = format!(in pen.alloc(); "M{x} {y}m0 -5l5 9h-10z")?;
    pen.path("refused", way.as_str())
}

/// The mark of a file.
pub(crate) fn put_file_mark(pen: &mut Pen, middle: At) -> Result<(), AllocError> {
    pen.area("file", middle.left(4).up(5), At(8, 10))
}

/// The mark of a fault of the disk.
pub(crate) fn put_fault_mark(pen: &mut Pen, middle: At) -> Result<(), AllocError> {
    let At(x, y) = middle;
    let way = format!(in pen.alloc(); "M{x} {y}m-5 -5l10 10m0 -10l-10 10")?;
    pen.path("fault", way.as_str())
}

/// The mark of a message that had no effect.
pub(crate) fn put_cross(pen: &mut Pen, middle: At) -> Result<(), AllocError> {
    let At(x, y) = middle;
    let way = format!(in pen.alloc(); "M{x} {y}m-4 -4l8 8m0 -8l-8 8")?;
    pen.path("cross", way.as_str())
}

/// The lighter arrow of a message that had no effect, with a cross at its end.
pub(crate) fn put_light_arrow(
    pen: &mut Pen,
    from: At,
    to: At,
    to_right: bool,
) -> Result<(), AllocError> {
    pen.stroke("lost", from, to)?;
    pen.head("lost head", to, to_right)?;
    put_cross(pen, to)
}
