//! The value of a service that nobody has used.
use ais_values::{Seq, Shared, StreamKind};
use calls::{Saved, SavedStream};
use std::alloc::{AllocError, Global};
use stream_config::{LogFile, Mark, StreamName, StreamState, well_known};

/// The second of the start.
const START: i64 = 1_704_067_200;

/// The three well-known streams, each with an empty file.
fn streams(alloc: Global) -> Result<Seq<SavedStream>, AllocError> {
    let mut streams = Seq::new(alloc);
    let alarm = well_stream(alloc, StreamName::Alarm, START)?;
    streams.push(alarm)?;
    let notification = well_stream(alloc, StreamName::Notification, START + 1)?;
    streams.push(notification)?;
    let system = well_stream(alloc, StreamName::System, START + 2)?;
    streams.push(system)?;
    Ok(streams)
}

/// A well-known stream that was made at this second.
fn well_stream(alloc: Global, name: StreamName, created: i64) -> Result<SavedStream, AllocError> {
    let kind = match &name {
        StreamName::Alarm => StreamKind::Alarm,
        StreamName::Notification => StreamKind::Notification,
        _ => StreamKind::System,
    };
    let attrs = Shared::new(alloc, well_known(alloc, kind)?)?;
    let mut files = Seq::new(alloc);
    files.push(LogFile {
        created,
        closed: None,
        first: 0,
        bytes: 0,
    })?;
    Ok(SavedStream {
        state: StreamState {
            name,
            attrs,
            taken: 0,
            opened: 1,
            files,
        },
        openers: Seq::new(alloc),
        mark: Mark::first(),
    })
}

/// The value of a service that nobody has used, whose subscriptions hold 256 items.
pub(crate) fn unused(alloc: Global) -> Result<Saved, AllocError> {
    let streams = streams(alloc)?;
    Ok(Saved {
        number: 0,
        last_stamp: START + 2,
        last_id: 0,
        capacity: 256,
        log_users: Seq::new(alloc),
        ntf_users: Seq::new(alloc),
        windows: Seq::new(alloc),
        streams,
        alarms: Seq::new(alloc),
        subs: Seq::new(alloc),
        readers: Seq::new(alloc),
    })
}
