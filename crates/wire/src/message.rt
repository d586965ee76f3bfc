//! The messages of clients and servers, and why bytes are none.
ghost use Rattle.std.specs.Prelude.{◌≡◌};
ghost use Rattle.wire.specs.Mirrored.{entry_in, saved_in};

use ais_values::Duplicate;
use calls::{Boxed, Call, Entry, Reply, Saved, Shared};
use std::alloc::{AllocError, Global};
use sub_queue::Item;

/// What clients and servers send to each other.
#[derive(PartialEq)]
pub enum Message {
    /// The call of a client, under its number.
    Request {
        client: u16,
        seq: u32,
        call: Shared<Call>,
    },
    /// The answer to the call of this number.
    Reply {
        client: u16,
        seq: u32,
        reply: Reply,
    },
    /// An item of the subscription that the call `key` made.
    Item {
        client: u16,
        key: u32,
        item: Item,
    },
    /// The receipt of a client for the items of the subscription `key`, through a number.
    Receipt {
        client: u16,
        key: u32,
        through: u32,
    },
    /// The entry of this number, from the active server to its partner.
    Mirror {
        number: u64,
        entry: Entry,
    },
    /// The partner has the entry of this number.
    MirrorAck {
        number: u64,
    },
    /// The value of the service, for a server that joins.
    Snapshot {
        saved: Boxed<Saved>,
    },
    /// The server that joined has the value after so many entries.
    JoinAck {
        number: u64,
    },
}

/// What is wrong at the place where bytes stop to be the front of a message.
#[derive(Clone, Copy, PartialEq, Eq, Debug)]
pub enum WireWhy {
    /// A whole message ends there, and bytes follow.
    Trailing,
    /// The bytes end there, within a message.
    Short,
    /// The byte there fits no message that begins so.
    BadValue,
}

/// Why no message is read.
#[derive(Clone, Copy, PartialEq, Eq, Debug)]
pub enum WireAnswer {
    /// Memory ran out.
    Memory,
    /// The bytes are no message: so many of them are the front of one.
    Refused { place: u32, why: WireWhy },
}

// Written out, as a derived one is proved anew in each crate that lets a message go.
impl Drop for Message {
    fn drop(self) {
        match self {
            Message::Request {
                client: _,
                seq: _,
                call,
            } => drop(call),
            Message::Reply {
                client: _,
                seq: _,
                reply,
            } => drop(reply),
            Message::Item {
                client: _,
                key: _,
                item,
            } => drop(item),
            Message::Receipt {
                client: _,
                key: _,
                through: _,
            } => {}
            Message::Mirror { number: _, entry } => drop(entry),
            Message::MirrorAck { number: _ } => {}
            Message::Snapshot { saved } => drop(saved),
            Message::JoinAck { number: _ } => {}
        }
    }
}

impl Message {
    /// The number and the entry that the message brings, if it mirrors one; any other is let go.
    pub(crate) fn mirrored(self) -> Option<(u64, Entry)>
        ensures { result ≡ entry_in self }
    {
        match self {
            Message::Mirror { number, entry } => Some((number, entry)),
            other => {
                drop(other);
                None
            }
        }
    }

    /// The value of the service, taken out of the message, if it brings one; any other message is let go. It takes no memory.
    pub fn into_saved(self) -> Option<Saved>
        ensures { result ≡ saved_in self }
    {
        match self {
            Message::Snapshot { saved } => Some(saved.into_inner()),
            other => {
                drop(other);
                None
            }
        }
    }
}

impl Duplicate for Message {
    fn copy(&self, alloc: Global) -> Result<Self, AllocError> {
        match self {
            Message::Request { client, seq, call } => Ok(Message::Request {
                client: *client,
                seq: *seq,
                call: call.copy(alloc)?,
            }),
            Message::Reply { client, seq, reply } => Ok(Message::Reply {
                client: *client,
                seq: *seq,
                reply: reply.copy(alloc)?,
            }),
            Message::Item { client, key, item } => Ok(Message::Item {
                client: *client,
                key: *key,
                item: item.copy(alloc)?,
            }),
            Message::Receipt {
                client,
                key,
                through,
            } => Ok(Message::Receipt {
                client: *client,
                key: *key,
                through: *through,
            }),
            Message::Mirror { number, entry } => Ok(Message::Mirror {
                number: *number,
                entry: entry.copy(alloc)?,
            }),
            Message::MirrorAck { number } => Ok(Message::MirrorAck { number: *number }),
            Message::Snapshot { saved } => Ok(Message::Snapshot {
                saved: saved.copy(alloc)?,
            }),
            Message::JoinAck { number } => Ok(Message::JoinAck { number: *number }),
        }
    }
}

impl Duplicate for WireWhy {
    fn copy(&self, _alloc: Global) -> Result<Self, AllocError> {
        Ok(*self)
    }
}
