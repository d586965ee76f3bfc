//! The command `gen`: the script of a large run.
ghost use Rattle.load_script.specs.Texts.{load_text};
ghost use Rattle.played_runs.specs.Edges.{edge};
ghost use Rattle.played_runs.specs.Writing.{IsNever, IsText, Written};

use io_edge::Sink;
use load_script::write_script;
use played_runs::{Status8, unwritten};
use std::alloc::Global;

/// Writes the script of so many turns from a seed on, and takes memory for one turn at a time.
pub fn generate<K: Sink>(alloc: Global, count: u32, seed: u64, out: &mut K) -> Status8
    ensures { Written (IsText Status8.Done (load_text count seed)) IsNever
        (edge K.written K.faults out.old out.new) result }
{
    match write_script(alloc, count, seed, out) {
        Ok(()) => Status8::Done,
        Err(answer) => unwritten(answer),
    }
}
