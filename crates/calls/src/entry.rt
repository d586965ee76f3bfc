//! What a service accepts, and the items that it holds for a client.
use crate::Call;
use ais_values::{Duplicate, Shared};
use std::alloc::{AllocError, Global};
use sub_queue::Item;

/// What a service accepted, and when: nanoseconds since 1970 in UTC.
#[derive(PartialEq)]
pub enum Entry {
    /// The call of a client, under its number.
    Called {
        client: u16,
        seq: u32,
        time: i64,
        call: Shared<Call>,
    },
    /// The receipt of a client for the items of the subscription `key`, through a number.
    Receipted {
        client: u16,
        key: u32,
        through: u32,
        time: i64,
    },
}

/// An item that has no receipt yet.
#[derive(PartialEq, Drop)]
pub struct Held {
    pub client: u16,
    /// The number of the call that made the subscription.
    pub key: u32,
    pub item: Item,
}

// Written out, as a derived one is proved anew in each crate that lets an entry go.
impl Drop for Entry {
    fn drop(self) {
        match self {
            Entry::Called {
                client: _,
                seq: _,
                time: _,
                call,
            } => drop(call),
            Entry::Receipted {
                client: _,
                key: _,
                through: _,
                time: _,
            } => {}
        }
    }
}

impl Duplicate for Entry {
    fn copy(&self, alloc: Global) -> Result<Self, AllocError> {
        match self {
            Entry::Called {
                client,
                seq,
                time,
                call,
            } => Ok(Entry::Called {
                client: *client,
                seq: *seq,
                time: *time,
                call: call.copy(alloc)?,
            }),
            Entry::Receipted {
                client,
                key,
                through,
                time,
            } => Ok(Entry::Receipted {
                client: *client,
                key: *key,
                through: *through,
                time: *time,
            }),
        }
    }
}

impl Duplicate for Held {
    fn copy(&self, alloc: Global) -> Result<Self, AllocError> {
        Ok(Held {
            client: self.client,
            key: self.key,
            item: self.item.copy(alloc)?,
        })
    }
}
