//! Notifications as they are accepted, and their records.
ghost use Rattle.std.specs.Prelude.{◌≡◌, IfOk};
ghost use Rattle.plain_service.specs.Alarms.{accepted_as, record_for};

use ais_values::Duplicate;
use log_history::filled_time;
use ntf_types::Notification;
use record_print::{Header, LogRecord};
use std::alloc::{AllocError, Global};

/// The notification as it is accepted at a moment, with its id.
pub fn accepted(
    alloc: Global,
    id: u64,
    now: i64,
    notification: &Notification,
) -> Result<Notification, AllocError>
    ensures { IfOk result (λ accepted. accepted ≡ accepted_as id now notification.now) }
{
    let mut copy = notification.copy(alloc)?;
    copy.id = id;
    copy.event_time = filled_time(copy.event_time, now);
    Ok(copy)
}

/// The record of a notification that was accepted at a moment: its text is the record's body.
pub fn record_for(
    alloc: Global,
    now: i64,
    notification: &Notification,
) -> Result<LogRecord, AllocError>
    ensures { IfOk result (λ rec. rec ≡ record_for now notification.now) }
{
    Ok(LogRecord {
        time: now,
        header: Header::Ntf {
            id: notification.id,
            event_type: notification.event_type,
            object: notification.object.copy(alloc)?,
            notifier: notification.notifier.copy(alloc)?,
            class: notification.class,
            event_time: notification.event_time,
        },
        body: notification.text.copy(alloc)?,
    })
}
