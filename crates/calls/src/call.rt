//! What a client asks of the services.
use ais_values::{Boxed, Duplicate, Text, Version, Which};
use ntf_filters::FilterSet;
use ntf_types::Notification;
use record_print::Header;
use std::alloc::{AllocError, Global};
use stream_config::{StreamAttrs, StreamName};

/// A call, as the service that accepts it sees it.
#[derive(PartialEq)]
pub enum Call {
    /// Begins the use of the Log Service.
    LogInit,
    /// Opens a stream, and makes it where attributes are given.
    LogOpen {
        stream: StreamName,
        create: Option<StreamAttrs>,
    },
    /// Writes a record to a stream.
    LogWrite {
        stream: StreamName,
        /// Told again in the callback.
        invocation: u64,
        /// 1 where a callback is asked for.
        flags: u32,
        /// Nanoseconds since 1970 in UTC; the least number stands for the moment of acceptance.
        time: i64,
        header: Header,
        body: Text,
    },
    /// Closes a stream.
    LogClose {
        stream: StreamName,
    },
    /// Ends the use of the Log Service.
    LogFini,
    /// Begins the use of the Notification Service.
    NtfInit,
    /// Sends a notification, whose id is 0.
    NtfSend {
        notification: Boxed<Notification>,
    },
    /// Subscribes, under an id, to the notifications that pass the filters.
    NtfSubscribe {
        id: u32,
        filters: Boxed<FilterSet>,
    },
    /// Ends the subscription of this id.
    NtfUnsubscribe {
        id: u32,
    },
    /// Begins to read stored alarms, at the one that the mode and the value name.
    ReaderStart {
        mode: u32,
        value: i64,
        filters: Boxed<FilterSet>,
    },
    /// Reads the next stored alarm, in this direction.
    ReaderRead {
        direction: u32,
    },
    /// Ends the reading.
    ReaderEnd,
    /// Ends the use of the Notification Service.
    NtfFini,
    /// Sets which severities of records a stream lets pass.
    LogFilter {
        stream: StreamName,
        mask: u32,
    },
}

/// What a client asks of its library.
#[derive(PartialEq)]
pub enum Ask {
    /// Begins the use of a service, in a version that its library judges.
    Start { service: Which, version: Version },
    /// Any other call.
    Plain { call: Call },
}

// Written out, as a derived one is proved anew in each crate that lets such a value go.
impl Drop for Ask {
    fn drop(self) {
        match self {
            Ask::Start {
                service: _,
                version: _,
            } => {}
            Ask::Plain { call } => drop(call),
        }
    }
}

// Written out, as a derived one is proved anew in each crate that lets a call go.
impl Drop for Call {
    fn drop(self) {
        match self {
            Call::LogOpen { stream, create } => {
                drop(stream);
                drop(create);
            }
            Call::LogWrite {
                stream,
                invocation: _,
                flags: _,
                time: _,
                header,
                body,
            } => {
                drop(stream);
                drop(header);
                drop(body);
            }
            Call::LogClose { stream } => drop(stream),
            Call::NtfSend { notification } => drop(notification),
            Call::NtfSubscribe { id: _, filters } => drop(filters),
            Call::ReaderStart {
                mode: _,
                value: _,
                filters,
            } => drop(filters),
            Call::LogFilter { stream, mask: _ } => drop(stream),
            Call::LogInit => {}
            Call::LogFini => {}
            Call::NtfInit => {}
            Call::NtfUnsubscribe { id: _ } => {}
            Call::ReaderRead { direction: _ } => {}
            Call::ReaderEnd => {}
            Call::NtfFini => {}
        }
    }
}

impl Duplicate for Call {
    fn copy(&self, alloc: Global) -> Result<Self, AllocError> {
        match self {
            Call::LogInit => Ok(Call::LogInit),
            Call::LogOpen { stream, create } => Ok(Call::LogOpen {
                stream: stream.copy(alloc)?,
                create: create.copy(alloc)?,
            }),
            Call::LogWrite {
                stream,
                invocation,
                flags,
                time,
                header,
                body,
            } => {
                let stream = stream.copy(alloc)?;
                let body = body.copy(alloc)?;
                // The wide field last, so that no copy of it has to be let go.
                let header = header.copy(alloc)?;
                Ok(Call::LogWrite {
                    stream,
                    invocation: *invocation,
                    flags: *flags,
                    time: *time,
                    header,
                    body,
                })
            }
            Call::LogClose { stream } => Ok(Call::LogClose {
                stream: stream.copy(alloc)?,
            }),
            Call::LogFini => Ok(Call::LogFini),
            Call::NtfInit => Ok(Call::NtfInit),
            Call::NtfSend { notification } => Ok(Call::NtfSend {
                notification: notification.copy(alloc)?,
            }),
            Call::NtfSubscribe { id, filters } => Ok(Call::NtfSubscribe {
                id: *id,
                filters: filters.copy(alloc)?,
            }),
            Call::NtfUnsubscribe { id } => Ok(Call::NtfUnsubscribe { id: *id }),
            Call::ReaderStart {
                mode,
                value,
                filters,
            } => Ok(Call::ReaderStart {
                mode: *mode,
                value: *value,
                filters: filters.copy(alloc)?,
            }),
            Call::ReaderRead { direction } => Ok(Call::ReaderRead {
                direction: *direction,
            }),
            Call::ReaderEnd => Ok(Call::ReaderEnd),
            Call::NtfFini => Ok(Call::NtfFini),
            Call::LogFilter { stream, mask } => Ok(Call::LogFilter {
                stream: stream.copy(alloc)?,
                mask: *mask,
            }),
        }
    }
}

impl Duplicate for Ask {
    fn copy(&self, alloc: Global) -> Result<Self, AllocError> {
        match self {
            Ask::Start { service, version } => Ok(Ask::Start {
                service: *service,
                version: *version,
            }),
            Ask::Plain { call } => Ok(Ask::Plain {
                call: call.copy(alloc)?,
            }),
        }
    }
}
