//! The calls that are applied.
use ais_values::{ClassId, Name, Seq, StreamKind, Text};
use calls::{Boxed, Call};
use ntf_filters::{Filter, FilterSet};
use ntf_types::{Body, Notification};
use record_print::Header;
use std::alloc::{AllocError, Global};
use stream_config::{StreamName, well_known};

const CLASS: ClassId = ClassId {
    vendor: 1,
    major: 2,
    minor: 3,
};

/// A time that is later than that of every alarm.
const LATE: i64 = 9_000_000_000_000_000_000;

/// A name that is known to be one.
fn name_of(alloc: Global, bytes: &[u8]) -> Result<Name, AllocError> {
    match Name::new(alloc, bytes) {
        Ok(name) => Ok(name),
        Err(_) => Err(AllocError),
    }
}

/// A text that is known to be one.
fn text_of(alloc: Global, bytes: &[u8]) -> Result<Text, AllocError> {
    match Text::new(alloc, bytes) {
        Ok(text) => Ok(text),
        Err(_) => Err(AllocError),
    }
}

/// Two letters that tell a number.
fn letters_of(number: u32) -> [u8; 2] {
    [b'a' + (number / 26 % 26) as u8, b'a' + (number % 26) as u8]
}

/// The stream of an application.
fn stream_of(alloc: Global, number: u32) -> Result<StreamName, AllocError> {
    Ok(StreamName::App {
        name: name_of(alloc, &letters_of(number))?,
    })
}

/// Opens the system stream.
pub(crate) fn join_of() -> Call {
    Call::LogOpen {
        stream: StreamName::System,
        create: None,
    }
}

/// Makes the stream of this number, with the attributes of the system stream but for the size of records, in a file of its own.
pub(crate) fn open_of(alloc: Global, number: u32, record_size: u32) -> Result<Call, AllocError> {
    let stream = stream_of(alloc, number)?;
    let file = text_of(alloc, &letters_of(number))?;
    let mut attrs = well_known(alloc, StreamKind::System)?;
    attrs.file = file;
    attrs.record_size = record_size;
    let create = Some(attrs);
    Ok(Call::LogOpen { stream, create })
}

/// The streams of applications in turn, or the system stream where there is none.
fn turn_of(alloc: Global, streams: u32, number: u32) -> Result<StreamName, AllocError> {
    if streams == 0 {
        return Ok(StreamName::System);
    }
    stream_of(alloc, number % streams)
}

/// Writes a body of 100 bytes to a stream, each in turn. Its text and the line feed are 148 bytes.
pub(crate) fn write_of(alloc: Global, streams: u32, number: u32) -> Result<Call, AllocError> {
    let user = name_of(alloc, b"safApp=web")?;
    let header = Header::Generic {
        class: CLASS,
        user,
        severity: 6,
    };
    let body = text_of(alloc, [b'w'; 100].as_slice())?;
    let stream = turn_of(alloc, streams, number)?;
    Ok(Call::LogWrite {
        stream,
        invocation: 0,
        flags: 0,
        time: 0,
        header,
        body,
    })
}

/// Sends a notification of this event type and body, at a time.
fn notify_of(
    alloc: Global,
    event_type: u16,
    event_time: i64,
    body: Body,
) -> Result<Call, AllocError> {
    let object = name_of(alloc, b"node1");
    let notifier = name_of(alloc, b"hw");
    let text = text_of(alloc, b"fan");
    match (object, notifier, text) {
        (Ok(object), Ok(notifier), Ok(text)) => {
            let notification = Notification {
                id: 0,
                event_type,
                object,
                notifier,
                class: CLASS,
                event_time,
                correlated: Seq::new(alloc),
                text,
                info: Seq::new(alloc),
                body,
            };
            let notification = Boxed::new(alloc, notification)?;
            Ok(Call::NtfSend { notification })
        }
        _ => {
            drop(body);
            Err(AllocError)
        }
    }
}

/// Sends the alarm of this number, later than those before it.
pub(crate) fn alarm_of(alloc: Global, number: u32) -> Result<Call, AllocError> {
    let body = Body::Alarm {
        cause: 5,
        severity: 4,
    };
    notify_of(alloc, 0x4001, i64::from(number), body)
}

/// Sends what is told of states, for which the subscriptions ask.
pub(crate) fn offer_of(alloc: Global) -> Result<Call, AllocError> {
    let body = Body::States {
        source: 1,
        changes: Seq::new(alloc),
    };
    notify_of(alloc, 0x3001, 0, body)
}

/// Sends what is told of objects, for which no subscription asks.
pub(crate) fn send_of(alloc: Global) -> Result<Call, AllocError> {
    let body = Body::Objects {
        source: 1,
        attrs: Seq::new(alloc),
    };
    notify_of(alloc, 0x1001, 0, body)
}

/// A filter that all notifications of its type pass.
fn open_filter(alloc: Global) -> Filter {
    Filter {
        types: Seq::new(alloc),
        objects: Seq::new(alloc),
        notifiers: Seq::new(alloc),
        classes: Seq::new(alloc),
        sources: Seq::new(alloc),
        causes: Seq::new(alloc),
        severities: Seq::new(alloc),
    }
}

/// Subscribes to all that is told of states.
pub(crate) fn subscribe_of(alloc: Global, id: u32) -> Result<Call, AllocError> {
    let filters = FilterSet {
        objects: None,
        attributes: None,
        states: Some(open_filter(alloc)),
        alarms: None,
        security: None,
    };
    let filters = Boxed::new(alloc, filters)?;
    Ok(Call::NtfSubscribe { id, filters })
}

/// Starts a reader of all alarms, at the youngest (1) or at the oldest (7) of them.
pub(crate) fn start_of(alloc: Global, mode: u32) -> Result<Call, AllocError> {
    let filters = FilterSet {
        objects: None,
        attributes: None,
        states: None,
        alarms: Some(open_filter(alloc)),
        security: None,
    };
    let filters = Boxed::new(alloc, filters)?;
    Ok(Call::ReaderStart {
        mode,
        value: LATE,
        filters,
    })
}

/// Reads on, to the older (1) or the younger (2) alarms.
pub(crate) fn read_of(direction: u32) -> Call {
    Call::ReaderRead { direction }
}

/// Ends the reader.
pub(crate) fn end_of() -> Call {
    Call::ReaderEnd
}
