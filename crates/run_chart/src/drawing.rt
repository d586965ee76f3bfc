//! A run as a picture.
ghost use Rattle.std.specs.Prelude.{length, map, IfErr, IfOk};
ghost use Rattle.run_chart.specs.Pictures.{Draws, items_of};
ghost use Rattle.run_chart.specs.Tellings.{Tells};

use crate::escape::put_title;
use crate::frame::{Frame, PANEL_ROWS};
use crate::lanes::place_messages;
use crate::legend::put_head;
use crate::panels::put_panel;
use crate::pen::Pen;
use crate::rows::put_row;
use crate::run::Run;
use crate::spelled::read_event;
use std::alloc::{AllocError, Global};

/// Why a picture is not drawn.
#[derive(Debug, Clone, Copy, PartialEq, Eq)]
pub enum DrawError {
    /// Memory ran out.
    Memory,
    /// The line of this number, counted from 1, is none that a run prints.
    Unknown { line: usize },
}

impl From<AllocError> for DrawError {
    ghost use Rattle.std.specs.Prelude.{◌≡◌};
    ghost use Rattle.run_chart.specs.declared.drawing.DrawError.TheVariants.{Memory};

    ghost from_gives = { λ _ e. e ≡ Memory };

    fn from(_: AllocError) -> Self {
        DrawError::Memory
    }
}

/// The picture of a run that printed these lines, as SVG: the title of each of them, its number and its text, stands
/// in it, in order.
///
/// `Unknown` comes where a line is none that a run prints, as each behind a fault of the disk, and names a line; that
/// this is the first such line is tested alone.
pub fn draw(alloc: Global, lines: &[Vec<u8>]) -> Result<Vec<u8>, DrawError>
    ensures drawn { IfOk result (λ picture. Draws (map items_of lines.now) picture.items) }
    ensures told { IfErr result (Tells (length lines.now)) }
{
    let run = match read_run(alloc, lines) {
        Ok(run) => run,
        Err(error) => return Err(error),
    };
    match picture_of(alloc, lines, &run) {
        Ok(picture) => Ok(picture),
        Err(AllocError) => Err(DrawError::Memory),
    }
}

// What the lines tell, unless one is none that a run prints.
fn read_run(alloc: Global, lines: &[Vec<u8>]) -> Result<Run, DrawError>
    ensures { IfErr result (Tells (length lines.now)) }
{
    let mut run = Run::new(alloc);
    for (index, line) in lines.iter().enumerate() {
        match read_event(alloc, line.as_slice()) {
            Ok(Some(event)) if !run.has_failed() => run.add(event)?,
            Ok(_) => return Err(DrawError::Unknown { line: index + 1 }),
            Err(AllocError) => return Err(DrawError::Memory),
        }
    }
    place_messages(alloc, &mut run.messages)?;
    Ok(run)
}

// The picture of these lines, of which `run` says what they tell.
fn picture_of(alloc: Global, lines: &[Vec<u8>], run: &Run) -> Result<Vec<u8>, AllocError>
    ensures { IfOk result (λ picture. Draws (map items_of lines.now) picture.items) }
{
    let frame = Frame::new(alloc, &run.clients, run.third)?;
    let mut picture = head_of(alloc, run, &frame)?;
    for (index, line) in lines.iter().enumerate() {
        let front = front_of(alloc, run, &frame, index)?;
        let shapes = shapes_of(alloc, run, &frame, index, line.as_slice())?;
        picture.extend_from_slice(front.as_slice())?;
        put_title(alloc, &mut picture, index + 1, line.as_slice())?;
        picture.extend_from_slice(shapes.as_slice())?;
    }
    picture.extend_from_slice(foot_of(lines.len()))?;
    Ok(picture)
}

// What stands behind the title of a row, to its end.
fn shapes_of(
    alloc: Global,
    run: &Run,
    frame: &Frame,
    index: usize,
    line: &[u8],
) -> Result<Vec<u8>, AllocError> {
    let mut pen = Pen::new(alloc);
    put_row(&mut pen, frame, run, index, line)?;
    pen.put("</g>\n")?;
    Ok(pen.written())
}

// What stands before the first panel.
fn head_of(alloc: Global, run: &Run, frame: &Frame) -> Result<Vec<u8>, AllocError> {
    let mut pen = Pen::new(alloc);
    put_head(&mut pen, frame, run)?;
    Ok(pen.written())
}

// What stands before the title of a row: the panel that it begins, and the end of the one before.
fn front_of(alloc: Global, run: &Run, frame: &Frame, index: usize) -> Result<Vec<u8>, AllocError> {
    let mut pen = Pen::new(alloc);
    if index % PANEL_ROWS == 0 {
        if index > 0 {
            pen.put("</g>\n")?;
        }
        put_panel(&mut pen, frame, run, index)?;
        pen.put("\n")?;
    }
    pen.put("<g>")?;
    Ok(pen.written())
}

// What ends a picture of so many lines.
fn foot_of(lines: usize) -> &'static [u8] {
    if lines == 0 {
        b"</g></svg>\n"
    } else {
        b"</g></g></svg>\n"
    }
}
