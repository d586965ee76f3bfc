//! Log records and the test of what is written.
ghost use Rattle.std.specs.Prelude.{◌≡◌, ◌↔◌, IsOk, OnErr, IsTrue, Err};
ghost use Rattle.ais_values.specs.TimeTests.{is_time};
ghost use Rattle.record_print.specs.Records.{can_write};
ghost use Rattle.ais_values.specs.declared.status.Status.TheVariants.{InvalidParam};

use ais_values::tables::LOG_SEVERITIES;
use ais_values::{ClassId, Duplicate, Name, Status, StreamKind, Text, is_event_type, is_time};
use format_expr::has_notified;
use std::alloc::{AllocError, Global};

/// The header of a log record.
#[derive(PartialEq)]
pub enum Header {
    /// Of records of the alarm and the notification stream.
    Ntf {
        id: u64,
        event_type: u16,
        object: Name,
        notifier: Name,
        class: ClassId,
        event_time: i64,
    },
    /// Of records of the system stream and of application streams.
    Generic {
        class: ClassId,
        user: Name,
        severity: u16,
    },
}

// Written out, as a derived one is proved anew in each crate that lets such a value go.
impl Drop for Header {
    fn drop(self) {
        match self {
            Header::Ntf {
                id: _,
                event_type: _,
                object,
                notifier,
                class: _,
                event_time: _,
            } => {
                drop(object);
                drop(notifier);
            }
            Header::Generic {
                class: _,
                user,
                severity: _,
            } => drop(user),
        }
    }
}

/// A log record. Times are nanoseconds since 1970-01-01T00:00:00 UTC.
#[derive(PartialEq)]
pub struct LogRecord {
    pub time: i64,
    pub header: Header,
    pub body: Text,
}

// Written out, as a derived one is proved anew in each crate that lets such a value go.
impl Drop for LogRecord {
    fn drop(self) {
        let LogRecord {
            time: _,
            header,
            body,
        } = self;
        drop(header);
        drop(body);
    }
}

impl Duplicate for Header {
    fn copy(&self, alloc: Global) -> Result<Self, AllocError> {
        match self {
            Header::Ntf {
                id,
                event_type,
                object,
                notifier,
                class,
                event_time,
            } => Ok(Header::Ntf {
                id: *id,
                event_type: *event_type,
                object: object.copy(alloc)?,
                notifier: notifier.copy(alloc)?,
                class: *class,
                event_time: *event_time,
            }),
            Header::Generic {
                class,
                user,
                severity,
            } => Ok(Header::Generic {
                class: *class,
                user: user.copy(alloc)?,
                severity: *severity,
            }),
        }
    }
}

impl Duplicate for LogRecord {
    fn copy(&self, alloc: Global) -> Result<Self, AllocError> {
        Ok(LogRecord {
            time: self.time,
            header: self.header.copy(alloc)?,
            body: self.body.copy(alloc)?,
        })
    }
}

/// Whether a time is not negative, or the unknown one.
fn has_time(time: i64) -> bool
    ensures { result ≡ is_time time }
{
    is_time(time)
}

/// Whether a record may be written to a stream of the kind, with this time and header. It takes no memory.
///
/// `InvalidParam` comes exactly where the header is of the other kind, a time is negative and not
/// the unknown time (the record's, or of a notification's header also the event's), a severity is above 6, or an
/// event type is not in the table.
pub fn check_write(kind: StreamKind, time: i64, header: &Header) -> Result<(), Status>
    ensures ok { IsOk result ↔ IsTrue (can_write kind time header.now) }
    ensures refused { OnErr result (result ≡ Err InvalidParam) }
{
    let fits = match header {
        Header::Ntf {
            event_type,
            event_time,
            ..
        } => has_notified(kind) && has_time(*event_time) && is_event_type(*event_type),
        Header::Generic { severity, .. } => {
            !has_notified(kind) && usize::from(*severity) < LOG_SEVERITIES.len()
        }
    };
    if has_time(time) && fits {
        Ok(())
    } else {
        Err(Status::InvalidParam)
    }
}
