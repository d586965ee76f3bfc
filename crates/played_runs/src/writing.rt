//! Writing texts and lines to the sink.
ghost use Rattle.std.specs.Prelude.{◌≡◌, ◌++◌};
ghost use Rattle.ais_values.specs.Causes.{RoseExactlyOn};
ghost use Rattle.io_edge.specs.Writes.{WritesAll};
ghost use Rattle.played_runs.specs.Edges.{edge};
ghost use Rattle.played_runs.specs.Ends.{fault_line};
ghost use Rattle.played_runs.specs.Writing.{EndWritten, IsNever, IsText, Written, joined_lines, sink_status};

use crate::ending::{End, FAULT_LINE, Status8};
use crate::packing::write_packed;
use ais_values::Seq;
use io_edge::{Sink, SinkAnswer, write_all};
use std::alloc::AllocError;

/// So few lines are not worth the room of a piece.
const FEW: usize = 2;

/// The status where the sink did not take all.
pub fn unwritten(answer: SinkAnswer) -> Status8
    ensures { result ≡ sink_status answer }
{
    match answer {
        SinkAnswer::Memory => Status8::Memory,
        SinkAnswer::Failed => Status8::WriteFault,
    }
}

/// Writes each of these lines by itself.
fn write_each<K: Sink>(out: &mut K, lines: &[Seq<u8>]) -> Result<(), SinkAnswer>
    ensures bytes { WritesAll (K.written out.old) (K.written out.new) (joined_lines lines.now)
        result }
    ensures cause { RoseExactlyOn (K.faults out.old) (K.faults out.new) result SinkAnswer.Failed }
{
    for line in lines {
        match write_all(out, line.as_slice()) {
            Ok(()) => {}
            Err(answer) => return Err(answer),
        }
    }
    Ok(())
}

/// Writes lines, one after another. On an error a front of their text was written, and not all; `Failed` comes exactly where the sink's count
/// of faults rose.
pub fn write_lines<K: Sink>(out: &mut K, lines: &[Seq<u8>]) -> Result<(), SinkAnswer>
    ensures bytes { WritesAll (K.written out.old) (K.written out.new) (joined_lines lines.now)
        result }
    ensures cause { RoseExactlyOn (K.faults out.old) (K.faults out.new) result SinkAnswer.Failed }
{
    if lines.len() > FEW {
        return write_packed(out, lines);
    }
    write_each(out, lines)
}

/// Writes lines, and behind them the one that tells of a disk fault.
pub fn write_broken<K: Sink>(out: &mut K, lines: &[Seq<u8>]) -> Status8
    ensures { Written (IsText Status8.DiskFault (joined_lines lines.now ++ fault_line)) IsNever
        (edge K.written K.faults out.old out.new) result }
{
    match write_lines(out, lines) {
        Ok(()) => write_text(out, Status8::DiskFault, FAULT_LINE),
        Err(answer) => unwritten(answer),
    }
}

/// Writes a text, behind which the run ends with a status.
pub fn write_text<K: Sink>(out: &mut K, status: Status8, text: &[u8]) -> Status8
    ensures { Written (IsText status text.now) IsNever
        (edge K.written K.faults out.old out.new) result }
{
    match write_all(out, text) {
        Ok(()) => status,
        Err(answer) => unwritten(answer),
    }
}

/// Writes an end, and tells its status.
pub fn write_end<K: Sink>(out: &mut K, end: Result<End, AllocError>) -> Status8
    ensures { EndWritten end (edge K.written K.faults out.old out.new) result }
{
    match end {
        Ok(end) => write_text(out, end.status, end.text.as_slice()),
        Err(_) => Status8::Memory,
    }
}
