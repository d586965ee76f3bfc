//! Inputs of commands: what is written where one was not read to its end, or is no script.
#![tactic(auto)]

ghost use Rattle.std.specs.Prelude.{◌≡◌, IfOk};
ghost use Rattle.played_runs.specs.Edges.{edge};
ghost use Rattle.played_runs.specs.Writing.{IsNone, IsText, Written};
ghost use Rattle.script_inputs.specs.Inputs.{bad_line};
ghost use Rattle.script_inputs.specs.Unread.{UnreadEnds, UnreadLacks};

use io_edge::{ReadAnswer, Sink};
use played_runs::{End, Status8, end_with, write_text};
use script_lines::ScriptWhy;
use std::alloc::{AllocError, Global};

/// The most bytes of an input: 16 MiB.
pub const INPUT_LIMIT: usize = 16_777_216;

/// Writes why the source was not read to its end; nothing where memory was wanting. It takes no memory itself.
pub fn write_unread<K: Sink>(out: &mut K, answer: ReadAnswer) -> Status8
    ensures { Written (UnreadEnds answer) (UnreadLacks answer)
        (edge K.written K.faults out.old out.new) result }
{
    match answer {
        ReadAnswer::Memory => Status8::Memory,
        ReadAnswer::ReadFault => write_text(out, Status8::ReadFault, b"read fault\n"),
        ReadAnswer::TooLong => write_text(out, Status8::TooLong, b"script too long\n"),
    }
}

/// The end where a line of the input is bad.
pub fn bad_line(alloc: Global, line: u32, why: ScriptWhy) -> Result<End, AllocError>
    ensures status { IfOk result (λ end. end.status ≡ Status8.ScriptRefused) }
    ensures text { IfOk result (λ end. end.text.items ≡ bad_line line why) }
{
    let printed = format!(in alloc; "script line {line}: {why}\n")?;
    end_with(alloc, Status8::ScriptRefused, printed.as_bytes())
}

/// Writes which line of the input is bad.
pub fn write_bad<K: Sink>(alloc: Global, out: &mut K, line: u32, why: ScriptWhy) -> Status8
    ensures { Written (IsText Status8.ScriptRefused (bad_line line why)) IsNone
        (edge K.written K.faults out.old out.new) result }
{
    match bad_line(alloc, line, why) {
        Ok(end) => write_text(out, end.status, end.text.as_slice()),
        Err(_) => Status8::Memory,
    }
}
