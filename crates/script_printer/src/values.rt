//! Writing of times and of the values that notifications carry.
ghost use Rattle.std.specs.Prelude.{◌≡◌, ◌++◌, OnOk, codes};
ghost use Rattle.std.specs.Fmt.{decimal, signed_decimal};
ghost use Rattle.script_grammar.specs.Writing.{maybe_text};
ghost use Rattle.script_language.specs.Printing.{value_text, pair_text, change_text, state_change_text, known_time_text};

use crate::pieces::{Piece, put, put_number, put_pieces, put_signed};
use ais_values::UNKNOWN_TIME;
use ntf_types::{Change, Pair, StateChange, Value};
use std::alloc::AllocError;

/// Adds the word and a time, or nothing where the time is unknown.
pub(crate) fn put_known_time(out: &mut Vec<u8>, word: &[u8], time: i64) -> Result<(), AllocError>
    ensures { OnOk result (out.new.items ≡ out.old.items ++ known_time_text word.now time) }
{
    if time == UNKNOWN_TIME {
        return Ok(());
    }
    put_word_signed(out, word, time)
}

/// Adds a word and a signed number.
#[tactic(auto, using(crate::proofs::Chain::chained))]
pub(crate) fn put_word_signed(out: &mut Vec<u8>, word: &[u8], number: i64) -> Result<(), AllocError>
    ensures { OnOk result (out.new.items ≡ out.old.items ++ (word.now ++ signed_decimal number)) }
{
    put(out, word)?;
    put_signed(out, number)?;
    Ok(())
}

/// Adds a value with the word of its kind.
#[tactic(auto, unfolding(script_language::specs::Printing::value_text))]
pub(crate) fn put_value(out: &mut Vec<u8>, value: &Value) -> Result<(), AllocError>
    ensures { OnOk result (out.new.items ≡ out.old.items ++ value_text value.now) }
{
    match value {
        Value::Int { value } => put_pieces(out, &[Piece::Word(b"int:"), Piece::Signed(*value)]),
        Value::NameOf { name } => put_pieces(
            out,
            &[Piece::Word(b"name:"), Piece::Quoted(name.as_slice())],
        ),
        Value::TextOf { text } => put_pieces(
            out,
            &[Piece::Word(b"text:"), Piece::Quoted(text.as_slice())],
        ),
        Value::Binary { bytes } => put_pieces(
            out,
            &[Piece::Word(b"bin:"), Piece::Quoted(bytes.as_slice())],
        ),
    }
}

/// Adds a pair.
#[tactic(auto, unfolding(script_language::specs::Printing::pair_text), using(crate::proofs::Chain::chained, crate::proofs::Chain::chained_last))]
pub(crate) fn put_pair(out: &mut Vec<u8>, pair: &Pair) -> Result<(), AllocError>
    ensures { OnOk result (out.new.items ≡ out.old.items ++ pair_text pair.now) }
{
    put_number(out, u64::from(pair.id))?;
    put(out, b":")?;
    put_value(out, &pair.value)?;
    Ok(())
}

/// Adds the value before a change, where it is known.
#[tactic(auto, using(crate::proofs::Chain::chained))]
fn put_before(out: &mut Vec<u8>, before: &Option<Value>) -> Result<(), AllocError>
    ensures { OnOk result (out.new.items ≡ out.old.items
        ++ maybe_text (codes "<") value_text before.now) }
{
    let Some(value) = before else {
        return Ok(());
    };
    put(out, b"<")?;
    put_value(out, value)?;
    Ok(())
}

/// Adds a change of an attribute.
#[tactic(auto, unfolding(script_language::specs::Printing::change_text), using(crate::proofs::Chain::chained, crate::proofs::Chain::chained_last))]
pub(crate) fn put_change(out: &mut Vec<u8>, change: &Change) -> Result<(), AllocError>
    ensures { OnOk result (out.new.items ≡ out.old.items ++ change_text change.now) }
{
    put_number(out, u64::from(change.id))?;
    put(out, b":")?;
    put_value(out, &change.after)?;
    put_before(out, &change.before)?;
    Ok(())
}

/// Adds the state before a change, where it is known.
#[tactic(auto, using(crate::proofs::Chain::chained))]
fn put_state_before(out: &mut Vec<u8>, before: Option<u16>) -> Result<(), AllocError>
    ensures { OnOk result (out.new.items ≡ out.old.items ++ maybe_text (codes "<") decimal before) }
{
    let Some(state) = before else {
        return Ok(());
    };
    put(out, b"<")?;
    put_number(out, u64::from(state))?;
    Ok(())
}

/// Adds a change of a state.
#[tactic(auto, unfolding(script_language::specs::Printing::state_change_text), using(crate::proofs::Chain::chained, crate::proofs::Chain::chained_last))]
pub(crate) fn put_state_change(out: &mut Vec<u8>, change: &StateChange) -> Result<(), AllocError>
    ensures { OnOk result (out.new.items ≡ out.old.items ++ state_change_text change.now) }
{
    put_number(out, u64::from(change.id))?;
    put(out, b":")?;
    put_number(out, u64::from(change.after))?;
    put_state_before(out, change.before)?;
    Ok(())
}
