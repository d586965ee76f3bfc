//! Records as they are accepted.
ghost use Rattle.std.specs.Prelude.{◌≡◌, ◌≤◌, ◌^◌, ℕ, Some, IfOk};
ghost use Rattle.record_print.specs.Printing.{event_time};
ghost use Rattle.record_print.specs.Records.{can_write};
ghost use Rattle.log_history.specs.Times.{filled_header, record_at};
ghost use Rattle.log_service.specs.State.{stream_of_kind};

use ais_values::{Duplicate, Name, StreamKind, Text};
use log_history::filled_time;
use record_print::{Header, LogRecord, check_write};
use std::alloc::{AllocError, Global};
use stream_config::StreamName;

/// Whether a record may be written to a stream of the kind.
pub(crate) fn may_write(kind: StreamKind, time: i64, header: &Header) -> bool
    ensures { result ≡ can_write kind time header.now }
{
    check_write(kind, time, header).is_ok()
}

/// The stream for the records of notifications of a kind, which has their header.
pub(crate) fn stream_of_kind(kind: StreamKind) -> StreamName
    ensures { result ≡ stream_of_kind kind }
{
    match kind {
        StreamKind::Alarm => StreamName::Alarm,
        StreamKind::Notification | StreamKind::System | StreamKind::Application => {
            StreamName::Notification
        }
    }
}

/// The time of a header lies within the range of its type.
pub(crate) fn read_event(header: &Header)
    ensures { (time : ℕ) → event_time header.now ≡ Some time → time ≤ 2 ^ 63 }
{
    if let Header::Ntf { event_time, .. } = header {
        let _event = *event_time;
    }
}

/// Copies of both names.
fn copied_names(alloc: Global, first: &Name, second: &Name) -> Result<(Name, Name), AllocError>
    ensures first { IfOk result (λ names. names.0 ≡ first.now) }
    ensures second { IfOk result (λ names. names.1 ≡ second.now) }
{
    let first = first.copy(alloc)?;
    let second = second.copy(alloc)?;
    Ok((first, second))
}

/// The header with its time filled in.
fn filled_header(alloc: Global, header: &Header, now: i64) -> Result<Header, AllocError>
    ensures { IfOk result (λ filled. filled ≡ filled_header header.now now) }
{
    match header {
        Header::Ntf {
            id,
            event_type,
            object,
            notifier,
            class,
            event_time,
        } => {
            let (object, notifier) = copied_names(alloc, object, notifier)?;
            Ok(Header::Ntf {
                id: *id,
                event_type: *event_type,
                object,
                notifier,
                class: *class,
                event_time: filled_time(*event_time, now),
            })
        }
        Header::Generic {
            class,
            user,
            severity,
        } => Ok(Header::Generic {
            class: *class,
            user: user.copy(alloc)?,
            severity: *severity,
        }),
    }
}

/// The record of a write that is accepted at this moment.
pub(crate) fn record_at(
    alloc: Global,
    time: i64,
    header: &Header,
    body: &Text,
    now: i64,
) -> Result<LogRecord, AllocError>
    ensures { IfOk result (λ rec. rec ≡ record_at time header.now body.now now) }
{
    let body = body.copy(alloc)?;
    let header = filled_header(alloc, header, now)?;
    Ok(LogRecord {
        time: filled_time(time, now),
        header,
        body,
    })
}
