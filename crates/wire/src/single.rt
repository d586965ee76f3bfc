//! A list of one message.
ghost use Rattle.std.specs.Prelude.{◌≡◌, [], ◌∷◌, IfOk};

use crate::Message;
use ais_values::Seq;
use std::alloc::{AllocError, Global};

/// A list of one message. Where memory runs out the message is let go.
pub fn one_message(alloc: Global, message: Message) -> Result<Seq<Message>, AllocError>
    ensures { IfOk result (λ messages. messages ≡ message ∷ []) }
{
    let mut messages = match Vec::with_capacity(alloc, 1) {
        Ok(messages) => messages,
        Err(error) => {
            drop(message);
            return Err(error);
        }
    };
    messages.push_reserved(message);
    Ok(Seq::from_vec(messages))
}
