//! The command `check`: whether the source gives a script.
ghost use Rattle.std.specs.Prelude.{◌≤◌, length, IfOk};
ghost use Rattle.played_runs.specs.Edges.{edge, fault_count};
ghost use Rattle.played_runs.specs.Writing.{Ended, IsNone, unasked};
ghost use Rattle.text_commands.specs.Checking.{CheckEnds, Judged};

use crate::ending::passed;
use io_edge::{Sink, Source, read_all};
use played_runs::{End, Status8, write_end};
use script::{ScriptAnswer, count_lines};
use script_inputs::{INPUT_LIMIT, bad_line, write_unread};
use std::alloc::{AllocError, Global};

// How the bytes of an input are judged.
fn judge(alloc: Global, bytes: &[u8]) -> Result<End, AllocError>
    requires { length bytes.now ≤ 16777216 }
    ensures { IfOk result (λ end. Judged bytes.now end.status end.text.items) }
{
    match count_lines(alloc, bytes) {
        Ok(lines) => {
            let end = passed(alloc, lines as usize)?;
            Ok(end)
        }
        Err(ScriptAnswer::Memory) => Err(AllocError),
        Err(ScriptAnswer::Bad { line, why }) => {
            let end = bad_line(alloc, line, why)?;
            Ok(end)
        }
    }
}

/// Reads the source to its end, and writes whether its bytes are a script.
pub fn run_check<S: Source, K: Sink>(alloc: Global, source: &mut S, out: &mut K) -> Status8
    ensures { let source = edge S.left S.faults source.old source.new
        in Ended (fault_count source) unasked (CheckEnds source) IsNone
        (edge K.written K.faults out.old out.new) result }
{
    match read_all(alloc, source, INPUT_LIMIT) {
        Ok(bytes) => write_end(out, judge(alloc, bytes.as_slice())),
        Err(answer) => write_unread(out, answer),
    }
}
