//! Writing the text turn by turn.
ghost use Rattle.ais_values.specs.Causes.{RoseExactlyOn};
ghost use Rattle.io_edge.specs.Writes.{WritesAll};
ghost use Rattle.load_script.specs.Texts.{closing_text, opening_text, load_text, turn_text, turns_text};

use crate::numbers::{first_state, next_state, number_in};
use crate::turns::turn_text;
use io_edge::{Sink, SinkAnswer, write_all};
use std::alloc::Global;

/// The lines before the first turn.
const OPENING: &[u8] =
    b"cluster start=1704067200000000000 queue=2 callbacks=256\nlog 1 init A.2.1\nlog 1 open system\nntf 2 init A.1.1\nsettle\n";

/// The lines behind the last turn.
const CLOSING: &[u8] = b"settle\nservers\n";

// Writes the lines before the first turn.
#[tactic(auto, unfolding(crate::specs::Texts::opening_text))]
fn write_opening<K: Sink>(out: &mut K) -> Result<(), SinkAnswer>
    ensures bytes { WritesAll (K.written out.old) (K.written out.new) opening_text result }
    ensures cause { RoseExactlyOn (K.faults out.old) (K.faults out.new) result SinkAnswer.Failed }
{
    write_all(out, OPENING)
}

// Writes the lines behind the last turn.
#[tactic(auto, unfolding(crate::specs::Texts::closing_text))]
fn write_closing<K: Sink>(out: &mut K) -> Result<(), SinkAnswer>
    ensures bytes { WritesAll (K.written out.old) (K.written out.new) closing_text result }
    ensures cause { RoseExactlyOn (K.faults out.old) (K.faults out.new) result SinkAnswer.Failed }
{
    write_all(out, CLOSING)
}

// Writes the lines of one turn.
fn write_turn<K: Sink>(alloc: Global, turn: u32, number: u32, out: &mut K) -> Result<(), SinkAnswer>
    ensures bytes { WritesAll (K.written out.old) (K.written out.new) (turn_text turn number)
        result }
    ensures cause { RoseExactlyOn (K.faults out.old) (K.faults out.new) result SinkAnswer.Failed }
{
    match turn_text(alloc, turn, number) {
        Ok(text) => write_all(out, text.as_bytes()),
        Err(_) => Err(SinkAnswer::Memory),
    }
}

// Writes the lines of all turns.
fn write_turns<K: Sink>(alloc: Global, count: u32, seed: u64, out: &mut K) -> Result<(), SinkAnswer>
    ensures bytes { WritesAll (K.written out.old) (K.written out.new) (turns_text seed count)
        result }
    ensures cause { RoseExactlyOn (K.faults out.old) (K.faults out.new) result SinkAnswer.Failed }
{
    let mut state = first_state(seed);
    for done in 0..count {
        state = next_state(state);
        match write_turn(alloc, done + 1, number_in(state), out) {
            Ok(()) => {}
            Err(answer) => return Err(answer),
        }
    }
    Ok(())
}

/// Writes the script of so many turns from a seed on, and takes memory for one turn at a time.
///
/// `Failed` comes exactly where the sink's count of faults rose, `Memory` where memory ran out. On both a front
/// of the script was written, and not all of it.
pub fn write_script<K: Sink>(
    alloc: Global,
    count: u32,
    seed: u64,
    out: &mut K,
) -> Result<(), SinkAnswer>
    ensures bytes { WritesAll (K.written out.old) (K.written out.new) (load_text count seed)
        result }
    ensures cause { RoseExactlyOn (K.faults out.old) (K.faults out.new) result SinkAnswer.Failed }
{
    match write_opening(out) {
        Ok(()) => {}
        Err(answer) => return Err(answer),
    }
    match write_turns(alloc, count, seed, out) {
        Ok(()) => write_closing(out),
        Err(answer) => Err(answer),
    }
}
