//! What happens to a stream.
use crate::StreamState;
use ais_values::{Duplicate, Text};
use std::alloc::{AllocError, Global};

/// The two stamps of a change of file. A stamp is a second.
#[derive(Clone, Copy, Debug, PartialEq, Eq)]
pub struct Stamps {
    /// The stamp at which the current file is closed.
    pub closed: i64,
    /// The stamp at which the next one is made.
    pub created: i64,
}

/// One thing that happens to a stream.
#[derive(PartialEq)]
pub enum StreamEvent {
    /// The stream is made, in this state.
    Made {
        state: StreamState,
    },
    /// A record with these bytes is stored in a stream that stood in the state `before`. The stamps are there where
    /// the file changes.
    Stored {
        before: StreamState,
        bytes: Text,
        stamps: Option<Stamps>,
    },
    /// A stream that stood in the state `before` ends, and its current file gets this closing stamp.
    Ended {
        before: StreamState,
        closed: i64,
    },
}

// Written out, as a derived one is proved anew in each crate that lets such a value go.
impl Drop for StreamEvent {
    fn drop(self) {
        match self {
            StreamEvent::Made { state } => drop(state),
            StreamEvent::Stored {
                before,
                bytes,
                stamps: _,
            } => {
                drop(before);
                drop(bytes);
            }
            StreamEvent::Ended { before, closed: _ } => drop(before),
        }
    }
}

impl Duplicate for Stamps {
    fn copy(&self, _alloc: Global) -> Result<Self, AllocError> {
        Ok(*self)
    }
}

impl Duplicate for StreamEvent {
    fn copy(&self, alloc: Global) -> Result<Self, AllocError> {
        match self {
            StreamEvent::Made { state } => Ok(StreamEvent::Made {
                state: state.copy(alloc)?,
            }),
            StreamEvent::Stored {
                before,
                bytes,
                stamps,
            } => Ok(StreamEvent::Stored {
                before: before.copy(alloc)?,
                bytes: bytes.copy(alloc)?,
                stamps: *stamps,
            }),
            StreamEvent::Ended { before, closed } => Ok(StreamEvent::Ended {
                before: before.copy(alloc)?,
                closed: *closed,
            }),
        }
    }
}
