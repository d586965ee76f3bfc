//! Where a reader of alarms stands.
ghost use Rattle.std.specs.Prelude.{◌≡◌};

use ais_values::Duplicate;
use ntf_types::Notification;
use std::alloc::{AllocError, Global};

/// A reader's point in the order of alarms: the event time and the id of the last alarm that was
/// read, or of the starting alarm while it is fresh, that is while none was read.
#[derive(Clone, Copy, PartialEq, Eq, Debug)]
pub struct Cursor {
    pub time: i64,
    pub id: u64,
    pub fresh: bool,
}

impl Cursor {
    /// The place of an alarm.
    pub(crate) fn at(alarm: &Notification, fresh: bool) -> Cursor
        ensures { result ≡ record {
          time = alarm.now.event_time;
          id = alarm.now.id;
          fresh = fresh;
        } }
    {
        Cursor {
            time: alarm.event_time,
            id: alarm.id,
            fresh,
        }
    }
}

impl Duplicate for Cursor {
    fn copy(&self, _alloc: Global) -> Result<Self, AllocError> {
        Ok(*self)
    }
}
