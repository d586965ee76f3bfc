//! Pairs, options, lists and boxes of any values that can be spelled.
ghost use Rattle.std.specs.Prelude.{◌≡◌, ◌++◌, All, OnOk};
ghost use Rattle.wire_code.specs.Spelling.{texts};
ghost use Rattle.wire_code.specs.Reading.{Gives, both, client_at, count_at, many_at};

use crate::wire::Wire;
use ais_values::Seq;
use calls::{Boxed, Shared};
use std::alloc::{AllocError, Global};
use wire_code::{Fault, Trouble, read_client, read_count, read_first};

impl<A: Wire + Drop, B: Wire + Drop> Wire for (A, B) {
    ghost use Rattle.std.specs.Prelude.{◌++◌};

    ghost text = { λ pair. A.text pair.0 ++ B.text pair.1 };

    ghost Fits = { λ pair. A.Fits pair.0 × B.Fits pair.1 };

    ghost InRange = { λ pair. A.InRange pair.0 × B.InRange pair.1 };

    ghost at = { both A.at B.at };

    fn spell(&self, out: &mut Vec<u8>) -> Result<(), AllocError> {
        self.0.spell(out)?;
        self.1.spell(out)?;
        Ok(())
    }

    fn read_front(alloc: Global, bytes: &[u8]) -> Result<((A, B), &[u8]), Trouble> {
        let (first, rest) = A::read_front(alloc, bytes)?;
        let (second, rest) = B::read_front(alloc, rest)?;
        Ok(((first, second), rest))
    }
}

/// Reads a client, a number that begins at 1, and the value behind them.
pub(crate) fn read_numbered<T: Wire + Drop>(
    alloc: Global,
    bytes: &[u8],
) -> Result<((u16, (u32, T)), &[u8]), Trouble>
    ensures { Gives (λ found. (found.0, found.1.now)) result
        (both client_at (both count_at T.at) bytes.now) }
{
    let (client, rest) = read_client(bytes)?;
    let (number, rest) = read_count(rest)?;
    let (value, rest) = T::read_front(alloc, rest)?;
    Ok(((client, (number, value)), rest))
}

impl<T: Wire + Drop> Wire for Option<T> {
    ghost use Rattle.wire_code.specs.Spelling.{option_text, OptionFits};
    ghost use Rattle.wire_code.specs.Reading.{option_at};

    ghost text = { option_text T.text };

    ghost Fits = { OptionFits T.Fits };

    ghost InRange = { OptionFits T.InRange };

    ghost at = { option_at T.at };

    #[tactic(auto, unfolding(wire_code::specs::Spelling::option_text))]
    fn spell(&self, out: &mut Vec<u8>) -> Result<(), AllocError> {
        match self {
            None => {
                out.push(0)?;
                Ok(())
            }
            Some(value) => {
                out.push(1)?;
                value.spell(out)?;
                Ok(())
            }
        }
    }

    #[tactic(auto, unfolding(wire_code::specs::Reading::option_at))]
    fn read_front(alloc: Global, bytes: &[u8]) -> Result<(Option<T>, &[u8]), Trouble> {
        let (tag, rest) = read_first(bytes)?;
        match tag {
            0 => Ok((None, rest)),
            1 => {
                let (value, rest) = T::read_front(alloc, rest)?;
                Ok((Some(value), rest))
            }
            _ => Err(Trouble::from(Fault::before(rest))),
        }
    }
}

impl<T: Wire + Drop> Wire for Boxed<T> {
    ghost text = { T.text };

    ghost Fits = { T.Fits };

    ghost InRange = { T.InRange };

    ghost at = { T.at };

    fn spell(&self, out: &mut Vec<u8>) -> Result<(), AllocError> {
        self.get().spell(out)
    }

    fn read_front(alloc: Global, bytes: &[u8]) -> Result<(Boxed<T>, &[u8]), Trouble> {
        let (value, rest) = T::read_front(alloc, bytes)?;
        let value = Boxed::new(alloc, value)?;
        Ok((value, rest))
    }
}

impl<T: Wire + Drop> Wire for Shared<T> {
    ghost text = { T.text };

    ghost Fits = { T.Fits };

    ghost InRange = { T.InRange };

    ghost at = { T.at };

    fn spell(&self, out: &mut Vec<u8>) -> Result<(), AllocError> {
        self.get().spell(out)
    }

    fn read_front(alloc: Global, bytes: &[u8]) -> Result<(Shared<T>, &[u8]), Trouble> {
        let (value, rest) = T::read_front(alloc, bytes)?;
        let value = Shared::new(alloc, value)?;
        Ok((value, rest))
    }
}

/// Adds the spellings of values, one behind the other.
fn spell_all<T: Wire>(items: &[T], out: &mut Vec<u8>) -> Result<(), AllocError>
    requires { All T.InRange items.now }
    ensures fits { OnOk result (All T.Fits items.now) }
    ensures text { OnOk result (out.new.items ≡ out.old.items ++ texts T.text items.now) }
{
    for item in items {
        item.spell(out)?;
    }
    Ok(())
}

/// Reads so many values. Memory is taken for a value only once it is read, whatever the count says.
fn read_all<T: Wire + Drop>(
    alloc: Global,
    bytes: &[u8],
    count: u32,
) -> Result<(Seq<T>, &[u8]), Trouble>
    ensures { Gives (λ found. (found.0, found.1.now)) result (many_at T.at count bytes.now) }
{
    let mut items = Seq::new(alloc);
    let mut rest = bytes;
    for _ in 0..count {
        match T::read_front(alloc, rest) {
            Ok((item, left)) => {
                items.push(item)?;
                rest = left;
            }
            Err(trouble) => return Err(trouble),
        }
    }
    Ok((items, rest))
}

impl<T: Wire + Drop> Wire for Seq<T> {
    ghost use Rattle.std.specs.Prelude.{All};
    ghost use Rattle.wire_code.specs.Spelling.{list_text, ListFits};
    ghost use Rattle.wire_code.specs.Reading.{list_at};

    ghost text = { list_text T.text };

    ghost Fits = { ListFits T.Fits };

    ghost InRange = { All T.InRange };

    ghost at = { list_at T.at };

    #[tactic(auto, unfolding(wire_code::specs::Spelling::list_text))]
    fn spell(&self, out: &mut Vec<u8>) -> Result<(), AllocError> {
        let items = self.as_slice();
        let Ok(count) = u32::try_from(items.len()) else {
            return Err(AllocError);
        };
        count.spell(out)?;
        spell_all(items, out)?;
        Ok(())
    }

    #[tactic(auto, unfolding(wire_code::specs::Reading::list_at))]
    fn read_front(alloc: Global, bytes: &[u8]) -> Result<(Seq<T>, &[u8]), Trouble> {
        let (count, rest) = u32::read_front(alloc, bytes)?;
        let (items, rest) = read_all(alloc, rest, count)?;
        Ok((items, rest))
    }
}
