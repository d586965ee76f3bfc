//! Draws a run: reads the lines that `aisrun run` printed, and writes one picture as SVG.
#![tactic(auto)]

mod drawing;
mod ending;
mod escape;
mod events;
mod frame;
mod lanes;
mod legend;
mod marks;
mod panels;
mod pen;
mod reading;
mod rows;
mod run;
mod spelled;
mod words;

pub use drawing::{DrawError, draw};
use ending::{Ending, read_ending};
use spelled::read_event;
use std::alloc::Global;
use std::io;
use std::io::{BufRead, BufReader, Write};
use std::process::ExitCode;

// The next line without its line feed; none at the end of the input.
fn next_line<R: BufRead>(alloc: Global, reader: &mut R) -> io::Result<Option<Vec<u8>>> {
    let mut line = Vec::new(alloc);
    if reader.read_until(b'\n', &mut line)? == 0 {
        return Ok(None);
    }
    if line.last() == Some(&b'\n') {
        line.pop();
    }
    Ok(Some(line))
}

// The lines of the input up to the first that no run prints, with that one.
fn lines_of<R: BufRead>(alloc: Global, reader: &mut R) -> io::Result<Vec<Vec<u8>>> {
    let mut lines = Vec::new(alloc);
    for _ in 0..u64::MAX {
        match next_line(alloc, reader)? {
            None => break,
            Some(line) => {
                let known = read_event(alloc, line.as_slice())?.is_some();
                lines.push(line)?;
                if !known {
                    break;
                }
            }
        }
    }
    Ok(lines)
}

// The lines of the input.
fn read_lines<R: Input + AllocGlobal>(rt: &R) -> Result<Vec<Vec<u8>>, Ending> {
    let mut reader = match BufReader::new(rt.alloc(), rt.reader()) {
        Ok(reader) => reader,
        Err(error) => return Err(read_ending(&error)),
    };
    match lines_of(rt.alloc(), &mut reader) {
        Ok(lines) => Ok(lines),
        Err(error) => Err(read_ending(&error)),
    }
}

// Writes the picture of the lines that are read.
fn write_picture<R: Input + Print + AllocGlobal>(rt: &R) -> Result<(), Ending> {
    let lines = read_lines(rt)?;
    match draw(rt.alloc(), lines.as_slice()) {
        Ok(picture) => match io::writer(rt).write_all(picture.as_slice()) {
            Ok(()) => Ok(()),
            Err(_) => Err(Ending::Unwritten),
        },
        Err(DrawError::Unknown { line }) => Err(Ending::Unknown { line }),
        Err(DrawError::Memory) => Err(Ending::Memory),
    }
}

fn main(rt: HostRuntime) -> ExitCode {
    match write_picture(&rt) {
        Ok(()) => ExitCode::SUCCESS,
        Err(ending) => {
            // Where this cannot be told, the status says it.
            let _ = ending.tell(&rt);
            ExitCode::from(ending.code())
        }
    }
}
