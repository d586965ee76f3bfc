//! What an agent answers.
use ais_values::{Duplicate, Seq, Status};
use callback_dispatch::Numbered;
use calls::Reply;
use std::alloc::{AllocError, Global};
use wire::Message;

/// What became of a call that the client asked for.
#[derive(PartialEq, Drop)]
pub enum Sent {
    /// This request is to be posted.
    Posted { message: Message },
    /// The agent refused the call, and nothing is sent.
    Refused { status: Status },
}

/// Why an agent left a message untaken.
#[derive(Clone, Copy, PartialEq, Eq, Debug)]
pub enum MissedWhy {
    /// The call has its reply.
    Answered,
    /// The callback has no place in the queue.
    Left,
    /// The item was taken before.
    Taken,
    /// Items before this one were not taken.
    Ahead,
    /// The subscription does not live.
    Gone,
}

/// What became of a message that was delivered.
#[derive(PartialEq, Drop)]
pub enum Taken {
    /// The reply to the call of this number was taken.
    Answered { seq: u32, reply: Reply },
    /// An item was taken, and this receipt is to be posted.
    Item { receipt: Message },
    /// The message was left untaken.
    Missed { why: MissedWhy },
}

/// How many callbacks are handed out.
#[derive(Clone, Copy, PartialEq, Eq, Debug)]
pub enum How {
    /// The oldest.
    One,
    /// All of them, by 1 to 8 workers in threads of their own.
    All { workers: u32 },
}

/// What a dispatch came to.
#[derive(PartialEq, Drop)]
pub enum Dispatched {
    /// The client has no handle, and nothing is handed out.
    Refused { status: Status },
    /// These callbacks were handed out, the oldest first.
    Given { taken: Seq<Numbered> },
}

impl Duplicate for Sent {
    fn copy(&self, alloc: Global) -> Result<Self, AllocError> {
        match self {
            Sent::Posted { message } => Ok(Sent::Posted {
                message: message.copy(alloc)?,
            }),
            Sent::Refused { status } => Ok(Sent::Refused { status: *status }),
        }
    }
}

impl Duplicate for MissedWhy {
    fn copy(&self, _alloc: Global) -> Result<Self, AllocError> {
        Ok(*self)
    }
}

impl Duplicate for Taken {
    fn copy(&self, alloc: Global) -> Result<Self, AllocError> {
        match self {
            Taken::Answered { seq, reply } => Ok(Taken::Answered {
                seq: *seq,
                reply: reply.copy(alloc)?,
            }),
            Taken::Item { receipt } => Ok(Taken::Item {
                receipt: receipt.copy(alloc)?,
            }),
            Taken::Missed { why } => Ok(Taken::Missed { why: *why }),
        }
    }
}

impl Duplicate for How {
    fn copy(&self, _alloc: Global) -> Result<Self, AllocError> {
        Ok(*self)
    }
}

impl Duplicate for Dispatched {
    fn copy(&self, alloc: Global) -> Result<Self, AllocError> {
        match self {
            Dispatched::Refused { status } => Ok(Dispatched::Refused { status: *status }),
            Dispatched::Given { taken } => Ok(Dispatched::Given {
                taken: taken.copy(alloc)?,
            }),
        }
    }
}
