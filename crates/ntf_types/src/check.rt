//! What a notification must be to be sent.
ghost use Rattle.std.specs.Prelude.{◌≡◌, ◌≤◌, ◌↔◌, length, All, Contains, IsTrue, IsOk, IsErrOf, IfSome};
ghost use Rattle.ntf_types.specs.EventRows.{has_row, HasEventTypes};
ghost use Rattle.ntf_types.specs.Kinds.{event_types_of};
ghost use Rattle.ntf_types.specs.Sound.{IsSource, IsShortValue, IsShortChange, HasShortValue, AreSound, IsSoundBody, IsSound};

use crate::{Body, Change, Notification, Pair, Value, kind_of};
use ais_values::tables::EVENT_TYPES;
use ais_values::{Boxed, CodeRow, Status, is_time};

/// The most bytes of additional text, and of a value's text or binary.
pub const MAX_BYTES: usize = 1024;

/// The most elements of a list.
pub const MAX_ELEMENTS: usize = 16;

/// The greatest perceived severity (`SA_NTF_SEVERITY_CRITICAL`).
pub const MAX_SEVERITY: u16 = 5;

/// Whether a row of the table is this event type, and of this type of notifications.
fn has_row(rows: &[CodeRow], kind: u16, event_type: u16) -> bool
    ensures { result ≡ has_row kind event_type rows.now }
{
    let kind = u32::from(kind);
    let event_type = u32::from(event_type);
    rows.iter().any(|row| event_type == row.code && row.code / 0x1000 * 0x1000 == kind)
}

/// Whether the event type is one of those of the notification's type, by a table of event types.
fn has_event_type(rows: &[CodeRow], notification: &Notification) -> bool
    requires { HasEventTypes rows.now }
    ensures { IsTrue result ↔ Contains (event_types_of notification.now.body)
        notification.now.event_type }
{
    has_row(rows, kind_of(notification), notification.event_type)
}

/// Whether a number is that of a source indicator.
fn is_source(source: u16) -> bool
    ensures { IsTrue result ↔ IsSource source }
{
    source >= 1 && source <= 3
}

/// Whether a value's text or binary is short enough.
fn is_short(value: &Value) -> bool
    ensures { IsTrue result ↔ IsShortValue value.now }
{
    match value {
        Value::Int { .. } | Value::NameOf { .. } => true,
        Value::TextOf { text } => text.as_slice().len() <= MAX_BYTES,
        Value::Binary { bytes } => bytes.as_slice().len() <= MAX_BYTES,
    }
}

/// Whether a value that stands by itself is short enough.
fn holds_short(value: &Boxed<Value>) -> bool
    ensures { IsTrue result ↔ IsShortValue value.now }
{
    is_short(value.get())
}

/// Whether both values of a change are short enough.
fn is_short_change(change: &Change) -> bool
    ensures { IsTrue result ↔ IsShortChange change.now }
{
    is_short(&change.after) && is_short_before(&change.before)
}

/// Whether a value before a change, where there is one, is short enough.
fn is_short_before(before: &Option<Value>) -> bool
    ensures { IsTrue result ↔ IfSome before.now IsShortValue }
{
    match before {
        None => true,
        Some(value) => is_short(value),
    }
}

/// Whether the list is not too long, and no value in it.
fn are_sound_pairs(pairs: &[Pair]) -> bool
    ensures { IsTrue result ↔ AreSound HasShortValue pairs.now }
{
    pairs.len() <= MAX_ELEMENTS && pairs.iter().all(|pair| is_short(&pair.value))
}

/// Whether the list is not too long, and no value in it.
fn are_sound_changes(changes: &[Change]) -> bool
    ensures { IsTrue result ↔ AreSound IsShortChange changes.now }
{
    changes.len() <= MAX_ELEMENTS && changes.iter().all(is_short_change)
}

/// Whether what a body carries is within its bounds.
fn is_sound_body(body: &Body) -> bool
    ensures { IsTrue result ↔ IsSoundBody body.now }
{
    match body {
        Body::Objects { source, attrs } => is_source(*source) && are_sound_pairs(attrs.as_slice()),
        Body::Attributes { source, changes } => {
            is_source(*source) && are_sound_changes(changes.as_slice())
        }
        Body::States { source, changes } => {
            is_source(*source) && changes.as_slice().len() <= MAX_ELEMENTS
        }
        Body::Alarm { severity, .. } => *severity <= MAX_SEVERITY,
        Body::Security {
            severity,
            detector,
            user,
            provider,
            ..
        } => {
            *severity <= MAX_SEVERITY
                && holds_short(detector)
                && holds_short(user)
                && holds_short(provider)
        }
    }
}

/// Whether a notification may be sent.
///
/// `InvalidParam`, the only error, comes exactly where one of these fails: the event type is one of the
/// notification's type; the event time is not negative, or unknown; a source indicator is 1 to 3; a
/// perceived severity is at most 5; the additional text, and each value's text or binary, has at most
/// 1,024 bytes; each list has at most 16 elements. It takes no memory.
pub fn check_notification(notification: &Notification) -> Result<(), Status>
    ensures accepted { IsOk result ↔ IsSound notification.now }
    ensures refused { IsErrOf result Status.InvalidParam ↔ (¬ IsSound notification.now) }
{
    if has_event_type(&EVENT_TYPES, notification)
        && is_time(notification.event_time)
        && notification.text.as_slice().len() <= MAX_BYTES
        && notification.correlated.as_slice().len() <= MAX_ELEMENTS
        && are_sound_pairs(notification.info.as_slice())
        && is_sound_body(&notification.body)
    {
        Ok(())
    } else {
        Err(Status::InvalidParam)
    }
}
