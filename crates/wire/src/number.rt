//! Spelling and reading of numbers, big-endian and of the width of their type, and of flags.
use crate::wire::Wire;
use byteorder::{BigEndian, ByteOrder};
use std::alloc::{AllocError, Global};
use wire_code::{Fault, Trouble, read_first};

impl Wire for u8 {
    ghost use Rattle.wire_code.specs.Spelling.{number_text, IsNumber};
    ghost use Rattle.wire_code.specs.Reading.{number_at};

    ghost text = { number_text 1 };

    ghost Fits = { IsNumber 1 };

    ghost at = { number_at 1 };

    #[tactic(auto, unfolding(wire_code::specs::Spelling::number_text))]
    fn spell(&self, out: &mut Vec<u8>) -> Result<(), AllocError> {
        out.push(*self)?;
        Ok(())
    }

    #[tactic(auto, unfolding(wire_code::specs::Reading::number_at))]
    fn read_front(_alloc: Global, bytes: &[u8]) -> Result<(u8, &[u8]), Trouble> {
        if bytes.is_empty() {
            return Err(Trouble::from(Fault::Short));
        }
        Ok((bytes[0], &bytes[1..]))
    }
}

impl Wire for u16 {
    ghost use Rattle.wire_code.specs.Spelling.{number_text, IsNumber};
    ghost use Rattle.wire_code.specs.Reading.{number_at};

    ghost text = { number_text 2 };

    ghost Fits = { IsNumber 2 };

    ghost at = { number_at 2 };

    #[tactic(auto, unfolding(wire_code::specs::Spelling::number_text))]
    fn spell(&self, out: &mut Vec<u8>) -> Result<(), AllocError> {
        let mut bytes = [0; 2];
        BigEndian::write_u16(&mut bytes, *self);
        out.extend_from_slice(&bytes)
    }

    #[tactic(auto, unfolding(wire_code::specs::Reading::number_at))]
    fn read_front(_alloc: Global, bytes: &[u8]) -> Result<(u16, &[u8]), Trouble> {
        if bytes.len() < 2 {
            return Err(Trouble::from(Fault::Short));
        }
        Ok((BigEndian::read_u16(bytes), &bytes[2..]))
    }
}

impl Wire for u32 {
    ghost use Rattle.wire_code.specs.Spelling.{number_text, IsNumber};
    ghost use Rattle.wire_code.specs.Reading.{number_at};

    ghost text = { number_text 4 };

    ghost Fits = { IsNumber 4 };

    ghost at = { number_at 4 };

    #[tactic(auto, unfolding(wire_code::specs::Spelling::number_text))]
    fn spell(&self, out: &mut Vec<u8>) -> Result<(), AllocError> {
        let mut bytes = [0; 4];
        BigEndian::write_u32(&mut bytes, *self);
        out.extend_from_slice(&bytes)
    }

    #[tactic(auto, unfolding(wire_code::specs::Reading::number_at))]
    fn read_front(_alloc: Global, bytes: &[u8]) -> Result<(u32, &[u8]), Trouble> {
        if bytes.len() < 4 {
            return Err(Trouble::from(Fault::Short));
        }
        Ok((BigEndian::read_u32(bytes), &bytes[4..]))
    }
}

impl Wire for u64 {
    ghost use Rattle.wire_code.specs.Spelling.{number_text, IsNumber};
    ghost use Rattle.wire_code.specs.Reading.{number_at};

    ghost text = { number_text 8 };

    ghost Fits = { IsNumber 8 };

    ghost at = { number_at 8 };

    #[tactic(auto, unfolding(wire_code::specs::Spelling::number_text))]
    fn spell(&self, out: &mut Vec<u8>) -> Result<(), AllocError> {
        let mut bytes = [0; 8];
        BigEndian::write_u64(&mut bytes, *self);
        out.extend_from_slice(&bytes)
    }

    #[tactic(auto, unfolding(wire_code::specs::Reading::number_at))]
    fn read_front(_alloc: Global, bytes: &[u8]) -> Result<(u64, &[u8]), Trouble> {
        if bytes.len() < 8 {
            return Err(Trouble::from(Fault::Short));
        }
        Ok((BigEndian::read_u64(bytes), &bytes[8..]))
    }
}

impl Wire for i64 {
    ghost use Rattle.wire_code.specs.Spelling.{signed_text, IsSigned};
    ghost use Rattle.wire_code.specs.Reading.{signed_at};

    ghost text = { signed_text };

    ghost Fits = { IsSigned };

    ghost at = { signed_at };

    #[tactic(auto, unfolding(wire_code::specs::Spelling::signed_text))]
    fn spell(&self, out: &mut Vec<u8>) -> Result<(), AllocError> {
        let number = *self;
        number.cast_unsigned().spell(out)
    }

    #[tactic(auto, unfolding(wire_code::specs::Reading::signed_at))]
    fn read_front(alloc: Global, bytes: &[u8]) -> Result<(i64, &[u8]), Trouble> {
        let (number, rest) = u64::read_front(alloc, bytes)?;
        Ok((number.cast_signed(), rest))
    }
}

impl Wire for bool {
    ghost use Rattle.wire_code.specs.Spelling.{flag_text};
    ghost use Rattle.wire_code.specs.Reading.{flag_at};

    ghost text = { flag_text };

    ghost Fits = { λ _. Unit {0} };

    ghost at = { flag_at };

    #[tactic(auto, unfolding(wire_code::specs::Spelling::flag_text))]
    fn spell(&self, out: &mut Vec<u8>) -> Result<(), AllocError> {
        let byte = if *self { 1 } else { 0 };
        out.push(byte)?;
        Ok(())
    }

    #[tactic(auto, unfolding(wire_code::specs::Reading::flag_at))]
    fn read_front(_alloc: Global, bytes: &[u8]) -> Result<(bool, &[u8]), Trouble> {
        let (tag, rest) = read_first(bytes)?;
        match tag {
            0 => Ok((false, rest)),
            1 => Ok((true, rest)),
            _ => Err(Trouble::from(Fault::before(rest))),
        }
    }
}
