//! Many messages are spelled and read again: a mixed list of requests with writes of 100 bytes, replies, and items with alarms.
//! `bench/wire` measures it.
ghost use Rattle.std.specs.Prelude.{IfOk};
ghost use Rattle.wire.specs.MessageSpelling.{MessageInRange};

use ais_values::{ClassId, Name, Seq, Text};
use calls::{Call, Reply, Shared};
use ntf_types::{Body, Notification};
use record_print::Header;
use std::alloc::{AllocError, Global};
use std::io;
use std::io::ErrorKind;
use stream_config::StreamName;
use sub_queue::{Content, Item};
use wire::{Message, decode, encode};

const CLASS: ClassId = ClassId {
    vendor: 1,
    major: 2,
    minor: 3,
};

// A name that is known to be one.
fn name_of(alloc: Global, bytes: &[u8]) -> Result<Name, AllocError> {
    match Name::new(alloc, bytes) {
        Ok(name) => Ok(name),
        Err(_) => Err(AllocError),
    }
}

// The write of a body of 100 bytes.
fn write_of(alloc: Global, number: u32) -> Result<Call, AllocError> {
    let user = name_of(alloc, b"safApp=web")?;
    let header = Header::Generic {
        class: CLASS,
        user,
        severity: 6,
    };
    let body = Text::from_vec([b'w'; 100].as_slice().to_vec(alloc)?);
    Ok(Call::LogWrite {
        stream: StreamName::System,
        invocation: u64::from(number),
        flags: 0,
        time: i64::from(number),
        header,
        body,
    })
}

/// An alarm of this number.
fn alarm_of(alloc: Global, number: u32) -> Result<Notification, AllocError> {
    Ok(Notification {
        id: u64::from(number),
        event_type: 0x4001,
        object: name_of(alloc, b"node1")?,
        notifier: name_of(alloc, b"hw")?,
        class: CLASS,
        event_time: i64::from(number),
        correlated: Seq::new(alloc),
        text: Text::from_vec(b"fan".to_vec(alloc)?),
        info: Seq::new(alloc),
        body: Body::Alarm {
            cause: 5,
            severity: 4,
        },
    })
}

// The message of this number.
fn message_of(alloc: Global, number: u32) -> Result<Message, AllocError>
    ensures { IfOk result (λ message. MessageInRange message) }
{
    let client = 1;
    let seq = number % 1_000_000 + 1;
    match number % 3 {
        0 => {
            let call = Shared::new(alloc, write_of(alloc, number)?)?;
            Ok(Message::Request { client, seq, call })
        }
        1 => {
            let reply = Reply::Done;
            Ok(Message::Reply { client, seq, reply })
        }
        _ => {
            let notification = Shared::new(alloc, alarm_of(alloc, number)?)?;
            let content = Content::Notified { notification };
            let item = Item {
                number: seq,
                content,
            };
            Ok(Message::Item {
                client,
                key: seq,
                item,
            })
        }
    }
}

// Whether the spelling of the message is read again as it.
fn is_read_again(alloc: Global, message: &Message, bytes: &[u8]) -> bool {
    if bytes.len() > 1_000_000 {
        return false;
    }
    match decode(alloc, bytes) {
        Ok(found) => {
            let same = found == *message;
            drop(found);
            same
        }
        Err(_) => false,
    }
}

// The bytes of the message, if they are read again as it.
fn spelling_of(alloc: Global, message: &Message) -> io::Result<Vec<u8>>
    requires { MessageInRange message.now }
{
    let bytes = encode(alloc, message)?;
    if !is_read_again(alloc, message, bytes.as_slice()) {
        return Err(io::Error::from(ErrorKind::InvalidData));
    }
    Ok(bytes)
}

// The same for the message of this number.
fn spelling_at(alloc: Global, number: u32) -> io::Result<Vec<u8>> {
    let message = message_of(alloc, number)?;
    let bytes = spelling_of(alloc, &message);
    drop(message);
    bytes
}

/// How many bytes the messages of these numbers have, and the sum of their bytes.
pub fn spell_all(alloc: Global, count: u32) -> io::Result<(u64, u64)> {
    let mut length = 0u64;
    let mut sum = 0u64;
    for number in 0..count {
        let bytes = spelling_at(alloc, number)?;
        length = length.wrapping_add(bytes.len() as u64);
        for byte in bytes.as_slice() {
            sum = sum.wrapping_add(u64::from(*byte));
        }
    }
    Ok((length, sum))
}
