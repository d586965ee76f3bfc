//! What a call came to.
ghost use Rattle.std.specs.Prelude.{◌≡◌, [], true, false, Some, None};

use ais_values::{Duplicate, Seq, Status};
use std::alloc::{AllocError, Global};
use stream_config::{Mark, StreamEvent};

/// A call's answer, what it tells of its stream's mask, and what the call did to streams, in order.
#[derive(Drop, PartialEq)]
pub struct Step {
    pub status: Status,
    /// The record of an ok write was filtered: it was not stored.
    pub filtered: bool,
    /// The mark of the stream that an ok call opened, wrote to or set the mask of, as it is after the call.
    pub mark: Option<Mark>,
    pub events: Seq<StreamEvent>,
}

impl Duplicate for Step {
    fn copy(&self, alloc: Global) -> Result<Self, AllocError> {
        Ok(Step {
            status: self.status,
            filtered: self.filtered,
            mark: self.mark,
            events: self.events.copy(alloc)?,
        })
    }
}

impl Step {
    /// The step of a call that changed nothing.
    pub(crate) fn refused(alloc: Global, status: Status) -> Step
        ensures { result ≡ record { status = status; filtered = false; mark = None; events = [] } }
    {
        Step {
            status,
            filtered: false,
            mark: None,
            events: Seq::new(alloc),
        }
    }

    /// The step of a call that did this.
    pub(crate) fn done(events: Seq<StreamEvent>) -> Step
        ensures { result
            ≡ record { status = Status.Ok; filtered = false; mark = None; events = events } }
    {
        Step {
            status: Status::Ok,
            filtered: false,
            mark: None,
            events,
        }
    }

    /// The step of an open that only adds a client: it tells the stream's mark.
    pub(crate) fn joined(alloc: Global, mark: Mark) -> Step
        ensures { result ≡ record {
          status = Status.Ok;
          filtered = false;
          mark = Some mark;
          events = [];
        } }
    {
        Step {
            status: Status::Ok,
            filtered: false,
            mark: Some(mark),
            events: Seq::new(alloc),
        }
    }

    /// The step of a write whose record was filtered.
    pub(crate) fn filtered(alloc: Global, mark: Mark) -> Step
        ensures { result ≡ record {
          status = Status.Ok;
          filtered = true;
          mark = Some mark;
          events = [];
        } }
    {
        Step {
            status: Status::Ok,
            filtered: true,
            mark: Some(mark),
            events: Seq::new(alloc),
        }
    }
}
