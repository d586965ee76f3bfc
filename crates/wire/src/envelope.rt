//! Spelling and reading of messages.
ghost use Rattle.wire_code.specs.Reading.{Gives};
ghost use Rattle.wire.specs.MessageReading.{server_message_at};

use crate::Message;
use crate::list::read_numbered;
use crate::parts::spell_tagged;
use crate::wire::Wire;
use calls::Boxed;
use std::alloc::{AllocError, Global};
use sub_queue::Item;
use wire_code::{Fault, Trouble, read_client, read_count, read_first};

/// Reads a message between servers, behind its tag.
fn read_server_message(alloc: Global, tag: u8, bytes: &[u8]) -> Result<(Message, &[u8]), Trouble>
    ensures { Gives (λ found. (found.0, found.1.now)) result (server_message_at tag bytes.now) }
{
    match tag {
        5 => {
            let ((number, entry), rest) = Wire::read_front(alloc, bytes)?;
            Ok((Message::Mirror { number, entry }, rest))
        }
        6 => {
            let (number, rest) = u64::read_front(alloc, bytes)?;
            Ok((Message::MirrorAck { number }, rest))
        }
        7 => {
            let (saved, rest) = Boxed::read_front(alloc, bytes)?;
            Ok((Message::Snapshot { saved }, rest))
        }
        8 => {
            let (number, rest) = u64::read_front(alloc, bytes)?;
            Ok((Message::JoinAck { number }, rest))
        }
        _ => Err(Trouble::from(Fault::before(bytes))),
    }
}

impl Wire for Message {
    ghost use Rattle.wire.specs.MessageSpelling.{message_text, MessageFits, MessageInRange};
    ghost use Rattle.wire.specs.MessageReading.{message_at};

    ghost text = { message_text };

    ghost Fits = { MessageFits };

    ghost InRange = { MessageInRange };

    ghost at = { message_at };

    #[tactic(auto, unfolding(crate::specs::MessageSpelling::message_text))]
    fn spell(&self, out: &mut Vec<u8>) -> Result<(), AllocError> {
        match self {
            Message::Request { client, seq, call } => spell_tagged(1, &(client, (seq, call)), out),
            Message::Reply { client, seq, reply } => spell_tagged(2, &(client, (seq, reply)), out),
            Message::Item { client, key, item } => spell_tagged(3, &(client, (key, item)), out),
            Message::Receipt {
                client,
                key,
                through,
            } => spell_tagged(4, &(client, (key, through)), out),
            Message::Mirror { number, entry } => spell_tagged(5, &(number, entry), out),
            Message::MirrorAck { number } => spell_tagged(6, &number, out),
            Message::Snapshot { saved } => spell_tagged(7, &saved, out),
            Message::JoinAck { number } => spell_tagged(8, &number, out),
        }
    }

    #[tactic(auto, unfolding(crate::specs::MessageReading::message_at))]
    fn read_front(alloc: Global, bytes: &[u8]) -> Result<(Message, &[u8]), Trouble> {
        let (tag, rest) = read_first(bytes)?;
        match tag {
            1 => {
                let ((client, (seq, call)), rest) = read_numbered(alloc, rest)?;
                Ok((Message::Request { client, seq, call }, rest))
            }
            2 => {
                let ((client, (seq, reply)), rest) = read_numbered(alloc, rest)?;
                Ok((Message::Reply { client, seq, reply }, rest))
            }
            3 => {
                let ((client, (key, item)), rest) = read_numbered(alloc, rest)?;
                Ok((Message::Item { client, key, item }, rest))
            }
            4 => {
                let (client, rest) = read_client(rest)?;
                let (key, rest) = read_count(rest)?;
                let (through, rest) = read_count(rest)?;
                Ok((
                    Message::Receipt {
                        client,
                        key,
                        through,
                    },
                    rest,
                ))
            }
            _ => read_server_message(alloc, tag, rest),
        }
    }
}
