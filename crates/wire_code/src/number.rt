//! The places of variants, and numbers in a range.
ghost use Rattle.std.specs.Prelude.{◌≡◌, ◌≤◌, IfOk};
ghost use Rattle.wire_code.specs.Spelling.{IsWithin};
ghost use Rattle.wire_code.specs.Reading.{GivesAlways, first_at, byte_at, within_at, client_at, count_at};

use crate::Fault;
use ais_values::MAX_CLIENT;
use byteorder::{BigEndian, ByteOrder};

/// The most bytes that are read as a message, or as the text of a frame: each place in them, and the one behind them, fits 32 bits.
pub const MAX_SPELLING: usize = 4_294_967_294;

/// Reads one byte, as the place of a variant is.
pub fn read_first(bytes: &[u8]) -> Result<(u8, &[u8]), Fault>
    ensures { GivesAlways (λ found. (found.0, found.1.now)) result (first_at bytes.now) }
{
    match bytes {
        [] => Err(Fault::Short),
        [first, rest @ ..] => Ok((*first, rest)),
    }
}

/// Reads a number of two bytes from `low` to `high`.
#[tactic(auto, unfolding(crate::specs::Reading::within_at))]
pub fn read_within(bytes: &[u8], low: u16, high: u16) -> Result<(u16, &[u8]), Fault>
    ensures gives { GivesAlways (λ found. (found.0, found.1.now)) result
        (within_at low high bytes.now) }
    ensures range { IfOk result (λ found. IsWithin low high found.0) }
{
    let left = bytes.len();
    if left < 1 {
        return Err(Fault::Short);
    }
    if u32::from(high) < u32::from(bytes[0]) * 256 {
        return Err(Fault::Bad { left });
    }
    if left < 2 {
        return Err(Fault::Short);
    }
    let number = BigEndian::read_u16(bytes);
    if low <= number && number <= high {
        Ok((number, &bytes[2..]))
    } else {
        Err(Fault::Bad { left: left - 1 })
    }
}

/// Reads the number of a client, 1 to 4,096.
pub fn read_client(bytes: &[u8]) -> Result<(u16, &[u8]), Fault>
    ensures { GivesAlways (λ found. (found.0, found.1.now)) result (client_at bytes.now) }
{
    read_within(bytes, 1, MAX_CLIENT)
}

/// Reads a number of four bytes that begins at 1.
#[tactic(auto, unfolding(crate::specs::Reading::count_at, crate::specs::Reading::number_at))]
pub fn read_count(bytes: &[u8]) -> Result<(u32, &[u8]), Fault>
    ensures { GivesAlways (λ found. (found.0, found.1.now)) result (count_at bytes.now) }
{
    if bytes.len() < 4 {
        return Err(Fault::Short);
    }
    let number = BigEndian::read_u32(bytes);
    let rest = &bytes[4..];
    if number == 0 {
        Err(Fault::before(rest))
    } else {
        Ok((number, rest))
    }
}
