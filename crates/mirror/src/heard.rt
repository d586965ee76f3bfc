//! What a server is, and what became of what it heard.
use ais_values::{Duplicate, Seq};
use calls::Entry;
use std::alloc::{AllocError, Global};
use wire::Message;

/// What a server does in the cluster.
#[derive(Clone, Copy, PartialEq, Eq, Debug)]
pub enum Role {
    /// It accepts entries, one at a time.
    Active,
    /// It follows the active server.
    Standby,
    /// It waits for the value of the service.
    Joining,
    /// It does nothing.
    Down,
}

/// Why a message had no effect.
#[derive(Clone, Copy, PartialEq, Eq, Debug)]
pub enum Why {
    /// The reply to the request is no longer kept.
    Old,
    /// Calls before this one are missing.
    Ahead,
    /// The entry of this number is in hand.
    Busy { number: u64 },
    /// The receipt is not new.
    Done,
    /// The message is for a server of another role than this one's.
    NotForRole { role: Role },
}

/// What became of a message, or of work.
#[derive(Clone, Copy, PartialEq, Eq, Debug)]
pub enum Outcome {
    /// A new request or receipt was accepted.
    Accepted,
    /// The request was answered before, and gets its reply again.
    Repeated,
    /// The partner applied an entry.
    Applied,
    /// The partner has the entry in hand.
    Confirmed,
    /// A server has the value of the service.
    Joined,
    /// The deeds of the entry in hand were done.
    Worked,
    /// The server's role or link changed.
    Changed,
    /// Nothing changed.
    Ignored { why: Why },
}

/// What a server asks for once it has heard a message or worked: messages to post, messages for its partner, and the
/// entry that is committed.
#[derive(PartialEq, Drop)]
pub struct Heard {
    pub to_net: Seq<Message>,
    pub to_peer: Seq<Message>,
    pub committed: Option<Entry>,
    pub outcome: Outcome,
}

impl Duplicate for Role {
    fn copy(&self, _alloc: Global) -> Result<Self, AllocError> {
        Ok(*self)
    }
}

impl Duplicate for Why {
    fn copy(&self, _alloc: Global) -> Result<Self, AllocError> {
        Ok(*self)
    }
}

impl Duplicate for Outcome {
    fn copy(&self, _alloc: Global) -> Result<Self, AllocError> {
        Ok(*self)
    }
}

impl Duplicate for Heard {
    fn copy(&self, alloc: Global) -> Result<Self, AllocError> {
        Ok(Heard {
            to_net: self.to_net.copy(alloc)?,
            to_peer: self.to_peer.copy(alloc)?,
            committed: self.committed.copy(alloc)?,
            outcome: self.outcome,
        })
    }
}
