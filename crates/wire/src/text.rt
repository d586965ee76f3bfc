//! Names and texts: the length in two bytes, then the bytes.
ghost use Rattle.std.specs.Prelude.{◌≡◌, ◌<◌, ◌++◌, length, All, IfOk, OnOk};
ghost use Rattle.ais_values.specs.Names.{IsPrintable};
ghost use Rattle.wire_code.specs.Spelling.{IsBytes, counted_text};
ghost use Rattle.wire_code.specs.Reading.{GivesAlways, many_at, byte_at};

use crate::wire::Wire;
use ais_values::{Name, NameAnswer, Text};
use std::alloc::{AllocError, Global};
use wire_code::{Fault, Trouble, read_within};

/// Adds the length of bytes, and the bytes.
#[tactic(auto, unfolding(wire_code::specs::Spelling::counted_text))]
fn spell_counted(bytes: &[u8], out: &mut Vec<u8>) -> Result<(), AllocError>
    requires { length bytes.now < 65536 }
    ensures bytes { IsBytes bytes.now }
    ensures text { OnOk result (out.new.items ≡ out.old.items ++ counted_text bytes.now) }
{
    (bytes.len() as u16).spell(out)?;
    out.extend_from_slice(bytes)
}

/// The first `count` bytes, which must be printable, and the rest.
fn read_printable(bytes: &[u8], count: usize) -> Result<(&[u8], &[u8]), Fault>
    ensures gives { GivesAlways (λ found. (found.0.now, found.1.now)) result
        (many_at (byte_at 32 126) count bytes.now) }
    ensures printable { IfOk result (λ found. All IsPrintable found.0.now) }
    ensures count { IfOk result (λ found. length found.0.now ≡ count) }
{
    for i in 0..count {
        if bytes.len() <= i {
            return Err(Fault::Short);
        }
        let byte = bytes[i];
        if byte < 32 || byte > 126 {
            return Err(Fault::Bad {
                left: bytes.len() - i,
            });
        }
    }
    Ok((&bytes[..count], &bytes[count..]))
}

impl Wire for Text {
    ghost use Rattle.wire_code.specs.Spelling.{counted_text, IsText};
    ghost use Rattle.wire_code.specs.Reading.{text_at};

    ghost text = { counted_text };

    ghost Fits = { IsText };

    ghost at = { text_at };

    fn spell(&self, out: &mut Vec<u8>) -> Result<(), AllocError> {
        spell_counted(self.as_slice(), out)
    }

    #[tactic(auto, unfolding(wire_code::specs::Reading::text_at))]
    fn read_front(alloc: Global, bytes: &[u8]) -> Result<(Text, &[u8]), Trouble> {
        let (length, rest) = read_within(bytes, 0, 16384)?;
        let length = usize::from(length);
        if rest.len() < length {
            return Err(Trouble::from(Fault::Short));
        }
        let text = rest[..length].to_vec(alloc)?;
        Ok((Text::from_vec(text), &rest[length..]))
    }
}

impl Wire for Name {
    ghost use Rattle.ais_values.specs.Names.{IsName};
    ghost use Rattle.wire_code.specs.Spelling.{counted_text};
    ghost use Rattle.wire_code.specs.Reading.{name_at};

    ghost text = { counted_text };

    ghost Fits = { IsName };

    ghost at = { name_at };

    fn spell(&self, out: &mut Vec<u8>) -> Result<(), AllocError> {
        spell_counted(self.as_slice(), out)
    }

    #[tactic(auto, unfolding(wire_code::specs::Reading::name_at))]
    fn read_front(alloc: Global, bytes: &[u8]) -> Result<(Name, &[u8]), Trouble> {
        let (length, rest) = read_within(bytes, 1, 256)?;
        let (name, rest) = read_printable(rest, usize::from(length))?;
        match Name::new(alloc, name) {
            Ok(name) => Ok((name, rest)),
            Err(NameAnswer::Memory) => Err(Trouble::Memory),
            Err(NameAnswer::Refused) => unreachable!(),
        }
    }
}
