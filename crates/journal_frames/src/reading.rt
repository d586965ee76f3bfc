//! Frames that are read back.
ghost use Rattle.std.specs.Prelude.{◌≡◌, Option, option_map};
ghost use Rattle.wire_code.specs.Reading.{number_at, GivesAlways};
ghost use Rattle.journal_frames.specs.Reading.{ReadsBody, ReadsFrame};

use byteorder::{BigEndian, ByteOrder};
use wire_code::{Fault, MAX_SPELLING};

// The length in four bytes at the front, and what follows it.
#[tactic(auto, unfolding(wire_code::specs::Reading::number_at))]
fn read_length(bytes: &[u8]) -> Result<(u32, &[u8]), Fault>
    ensures { GivesAlways (λ found. (found.0, found.1.now)) result (number_at 4 bytes.now) }
{
    if bytes.len() < 4 {
        return Err(Fault::Short);
    }
    Ok((BigEndian::read_u32(bytes), &bytes[4..]))
}

// The text behind its length at the front, and what follows it.
fn read_body(bytes: &[u8]) -> Option<(&[u8], &[u8])>
    ensures { ReadsBody bytes.now (option_map (λ found. (found.0.now, found.1.now)) result) }
{
    match read_length(bytes) {
        Ok((length, rest)) => {
            let size = length as usize;
            if size > MAX_SPELLING || rest.len() < size {
                None
            } else {
                Some(rest.split_at(size))
            }
        }
        Err(_) => None,
    }
}

/// The text of the whole frame at the front, whose gate is open, and what follows the frame; `None` exactly where no
/// such frame stands there. A text has at most 4,294,967,294 bytes.
pub fn read_frame(bytes: &[u8]) -> Option<(&[u8], &[u8])>
    ensures { ReadsFrame bytes.now (option_map (λ found. (found.0.now, found.1.now)) result) }
{
    match bytes {
        [1, rest @ ..] => read_body(rest),
        _ => None,
    }
}
