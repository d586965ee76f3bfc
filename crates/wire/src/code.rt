//! Messages as bytes, and bytes as messages.
ghost use Rattle.std.specs.Prelude.{◌≡◌, ◌≤◌, ◌-◌, ℕ, Err, length, IfOk};
ghost use Rattle.wire.specs.declared.message.Message.{Message};
ghost use Rattle.wire.specs.declared.message.WireWhy.{WireWhy};
ghost use Rattle.wire.specs.declared.message.WireAnswer.TheVariants.{Refused};
ghost use Rattle.wire.specs.MessageSpelling.{MessageInRange};
ghost use Rattle.wire.specs.MessageReading.{message_at};
ghost use Rattle.wire.specs.Messages.{Spells, IsRefusedAt, IsRead, IsRefused};
ghost use Rattle.wire.specs.Verdicts.{IsVerdict};

use crate::wire::Wire;
use crate::{Message, WireAnswer, WireWhy};
use std::alloc::{AllocError, Global};
use wire_code::{Fault, Trouble};

/// Room that the spelling of most messages needs no more than.
const ROOM: usize = 64;

/// The spelling of a message. What the condition asks is that its clients are 1 to 4,096, and that its other
/// numbers that begin at 1 are not 0.
///
/// `Err` where memory runs out. A list of 2^32 elements or more counts as that, since no spelling is given 4 GiB.
pub fn encode(alloc: Global, message: &Message) -> Result<Vec<u8>, AllocError>
    requires { MessageInRange message.now }
    ensures { IfOk result (λ bytes. Spells message.now bytes.items) }
{
    let mut bytes = Vec::with_capacity(alloc, ROOM)?;
    message.spell(&mut bytes)?;
    Ok(bytes)
}

/// The refusal of bytes of which `left` are behind the place.
fn refused(bytes: &[u8], left: usize, why: WireWhy) -> WireAnswer
    requires { length bytes.now ≤ 4294967294 }
    ensures { result ≡ Refused (length bytes.now - left) why }
{
    let place = bytes.len().saturating_sub(left) as u32;
    WireAnswer::Refused { place, why }
}

/// Reads a message at the front, and judges what is left.
fn judge(alloc: Global, bytes: &[u8]) -> Result<Message, WireAnswer>
    requires { length bytes.now ≤ 4294967294 }
    ensures { IsVerdict bytes.now (message_at bytes.now) result }
{
    match Message::read_front(alloc, bytes) {
        Ok((message, rest)) => {
            if rest.is_empty() {
                Ok(message)
            } else {
                drop(message);
                Err(refused(bytes, rest.len(), WireWhy::Trailing))
            }
        }
        Err(Trouble::Memory) => Err(WireAnswer::Memory),
        Err(Trouble::Faulty { fault }) => match fault {
            Fault::Short => Err(refused(bytes, 0, WireWhy::Short)),
            Fault::Bad { left } => Err(refused(bytes, left, WireWhy::BadValue)),
        },
    }
}

/// The message whose spelling the bytes are.
///
/// `Refused` comes exactly where they are none. Its place is the length of the longest front of the bytes that is
/// the front of a message. `Trailing` comes where a whole message ends there and bytes follow, `Short` where the
/// bytes end there, and `BadValue` where the byte there is wrong. The memory that is taken is a small multiple of
/// the bytes, whatever counts they tell.
pub fn decode(alloc: Global, bytes: &[u8]) -> Result<Message, WireAnswer>
    requires { length bytes.now ≤ 4294967294 }
    ensures message { IfOk result (λ message. Spells message bytes.now) }
    ensures every_message { (message : Message) → Spells message bytes.now → IsRead message result }
    ensures fault { (place : ℕ) (why : WireWhy) →
        result ≡ Err (Refused place why) → IsRefusedAt bytes.now place why }
    ensures every_fault { (place : ℕ) (why : WireWhy) →
        IsRefusedAt bytes.now place why → IsRefused place why result }
{
    judge(alloc, bytes)
}
