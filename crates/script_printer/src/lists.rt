//! Writing of lists.
ghost use Rattle.std.specs.Prelude.{◌≡◌, ◌++◌, ℕ, List, OnOk};
ghost use Rattle.script_grammar.specs.Writing.{listed_text};

use crate::pieces::put;
use std::alloc::AllocError;

/// A kind of values that are written in lists.
pub(crate) trait Writable {
    ghost use Rattle.std.specs.Prelude.{ℕ, List};

    type Value;

    ghost text: { Self.Value → List ℕ };

    /// Adds the value's text.
    fn write(out: &mut Vec<u8>, value: &Self::Value) -> Result<(), AllocError>
        ensures { OnOk result (out.new.items ≡ out.old.items ++ Self.text value.now) };
}

/// Adds the word and the values with commas between them, or nothing where there are none.
pub(crate) fn put_list<E: Writable>(
    out: &mut Vec<u8>,
    word: &[u8],
    values: &[E::Value],
) -> Result<(), AllocError>
    ensures { OnOk result (out.new.items ≡ out.old.items
        ++ listed_text word.now E.text values.now) }
{
    let mut front = word;
    for value in values {
        put(out, front)?;
        E::write(out, value)?;
        front = b",".as_slice();
    }
    Ok(())
}
