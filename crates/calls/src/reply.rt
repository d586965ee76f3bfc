//! What a service answers, and what a client's callbacks tell.
use ais_values::{Boxed, Duplicate, Seq, Status};
use ntf_types::Notification;
use std::alloc::{AllocError, Global};
use stream_config::{Mark, StreamName};
use sub_queue::Lost;

/// The answer to a call.
#[derive(PartialEq)]
pub enum Reply {
    /// The call changed nothing.
    Refused { status: Status },
    Done,
    /// The notification was sent, and has this id.
    Sent { id: u64 },
    /// The stored alarm that was read.
    Found { notification: Boxed<Notification> },
    /// The call is done, and this is its stream's mark; where it was to write a record, the mask may have filtered it.
    Marked { filtered: bool, mark: Mark },
}

/// What a callback tells a client.
#[derive(PartialEq)]
pub enum Callback {
    /// What became of a record whose writer asked to be told.
    Written {
        invocation: u64,
        status: Status,
    },
    /// A notification for the subscription of this id.
    Notified {
        id: u32,
        notification: Boxed<Notification>,
    },
    /// Notifications for the subscription of this id were lost.
    Discarded {
        id: u32,
        lost: Seq<Lost>,
    },
    /// A stream's mask became another one; and with this invocation, a write whose writer asked to be told is done.
    FilterSet {
        stream: StreamName,
        mask: u32,
        written: Option<u64>,
    },
}

// Written out, as a derived one is proved anew in each crate that lets such a value go.
impl Drop for Reply {
    fn drop(self) {
        match self {
            Reply::Refused { status: _ } => {}
            Reply::Done => {}
            Reply::Sent { id: _ } => {}
            Reply::Found { notification } => drop(notification),
            Reply::Marked {
                filtered: _,
                mark: _,
            } => {}
        }
    }
}

impl Drop for Callback {
    fn drop(self) {
        match self {
            Callback::Written {
                invocation: _,
                status: _,
            } => {}
            Callback::Notified {
                id: _,
                notification,
            } => drop(notification),
            Callback::Discarded { id: _, lost } => drop(lost),
            Callback::FilterSet {
                stream,
                mask: _,
                written: _,
            } => drop(stream),
        }
    }
}

impl Duplicate for Reply {
    fn copy(&self, alloc: Global) -> Result<Self, AllocError> {
        match self {
            Reply::Refused { status } => Ok(Reply::Refused { status: *status }),
            Reply::Done => Ok(Reply::Done),
            Reply::Sent { id } => Ok(Reply::Sent { id: *id }),
            Reply::Found { notification } => Ok(Reply::Found {
                notification: notification.copy(alloc)?,
            }),
            Reply::Marked { filtered, mark } => Ok(Reply::Marked {
                filtered: *filtered,
                mark: *mark,
            }),
        }
    }
}

impl Duplicate for Callback {
    fn copy(&self, alloc: Global) -> Result<Self, AllocError> {
        match self {
            Callback::Written { invocation, status } => Ok(Callback::Written {
                invocation: *invocation,
                status: *status,
            }),
            Callback::Notified { id, notification } => Ok(Callback::Notified {
                id: *id,
                notification: notification.copy(alloc)?,
            }),
            Callback::Discarded { id, lost } => Ok(Callback::Discarded {
                id: *id,
                lost: lost.copy(alloc)?,
            }),
            Callback::FilterSet {
                stream,
                mask,
                written,
            } => Ok(Callback::FilterSet {
                stream: stream.copy(alloc)?,
                mask: *mask,
                written: *written,
            }),
        }
    }
}
