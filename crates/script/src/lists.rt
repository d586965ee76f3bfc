//! Lists: one or more values, separated by commas.
ghost use Rattle.std.specs.Prelude.{◌≡◌, ℕ, List, Option};
ghost use Rattle.script.specs.Gives.{Gives};
ghost use Rattle.script_grammar.specs.Reading.{listed, maybe_list};

use crate::numbers::skip;
use crate::trouble::Trouble;
use ais_values::Seq;
use std::alloc::Global;

/// A kind of values that stand in lists.
pub(crate) trait Element {
    ghost use Rattle.std.specs.Prelude.{ℕ, List, Option};

    type Value: Drop;

    ghost at: { List ℕ → Option (Self.Value × List ℕ) };

    /// The value at the front, with the bytes that follow it.
    fn read(alloc: Global, bytes: &[u8]) -> Result<(Self::Value, &[u8]), Trouble>
        ensures { Gives (λ found. (found.0, found.1.now)) result (Self.at bytes.now) };
}

/// One or more values, separated by commas.
pub(crate) fn listed<E: Element>(
    alloc: Global,
    bytes: &[u8],
) -> Result<(Seq<E::Value>, &[u8]), Trouble>
    ensures { Gives (λ found. (found.0, found.1.now)) result (listed E.at bytes.now) }
{
    let (first, behind) = E::read(alloc, bytes)?;
    let mut items = Vec::new(alloc);
    items.push(first)?;
    let mut rest = behind;
    for _ in 0..bytes.len() {
        let Some(after) = skip(rest, b",") else {
            return Ok((Seq::from_vec(items), rest));
        };
        match E::read(alloc, after) {
            Ok((item, behind)) => {
                items.push(item)?;
                rest = behind;
            }
            Err(trouble) => return Err(trouble),
        }
    }
    Ok((Seq::from_vec(items), rest))
}

/// The list behind the word, or the empty one where the word does not stand.
pub(crate) fn maybe_list<'a, E: Element>(
    alloc: Global,
    bytes: &'a [u8],
    word: &[u8],
) -> Result<(Seq<E::Value>, &'a [u8]), Trouble>
    ensures { Gives (λ found. (found.0, found.1.now)) result (maybe_list word.now E.at bytes.now) }
{
    match skip(bytes, word) {
        Some(rest) => listed::<E>(alloc, rest),
        None => Ok((Seq::new(alloc), bytes)),
    }
}
