//! The lines of a script.
use ais_values::{Duplicate, Text};
use calls::Ask;
use std::alloc::{AllocError, Global};
use stream_config::FullAction;

/// A server of the cluster. No line of a script on two servers names `C`.
#[derive(Clone, Copy, Debug, PartialEq, Eq)]
pub enum Server {
    A,
    B,
    C,
}

/// What a cluster line says of a well-known stream. What is absent has its default.
#[derive(PartialEq)]
pub struct WellOptions {
    /// The expression by which its records are printed.
    pub fmt: Option<Text>,
    /// The size of its records, in bytes.
    pub rec: Option<u32>,
    /// The greatest size of its files, in bytes.
    pub max: Option<u64>,
    /// What it does with a record that does not fit its file.
    pub full: Option<FullAction>,
    /// The number of its rotated files.
    pub rot: Option<u32>,
}

// Written out, as a derived one is proved anew in each crate that lets such a value go.
impl Drop for WellOptions {
    fn drop(self) {
        let WellOptions {
            fmt,
            rec: _,
            max: _,
            full: _,
            rot: _,
        } = self;
        drop(fmt);
    }
}

/// A line of a script that is not skipped.
#[derive(PartialEq)]
pub enum Line {
    /// The first line: the time at the start in nanoseconds, the lengths of the queues, and the well-known streams.
    Cluster {
        start: i64,
        queue: u32,
        callbacks: u32,
        alarm: WellOptions,
        ntf: WellOptions,
        sys: WellOptions,
    },
    /// From here on this time is in force, in nanoseconds.
    Time {
        now: i64,
    },
    /// A client asks something of the Log Service.
    Log {
        client: u16,
        ask: Ask,
    },
    /// A client asks something of the Notification Service.
    Ntf {
        client: u16,
        ask: Ask,
    },
    /// Delivers the message at this place of the net, counted from 1.
    Deliver {
        place: u64,
    },
    /// A client sends again what was not answered.
    Resend {
        client: u16,
    },
    Mirror,
    Ack,
    Work,
    Push,
    /// Puts this byte string into the net.
    Inject {
        bytes: Text,
    },
    Settle,
    Crash {
        server: Server,
    },
    /// The changing device call of this number from now on stops the server.
    Arm {
        server: Server,
        count: u64,
    },
    Disarm,
    Restart {
        server: Server,
    },
    /// Hands out the oldest element of a client's callback queue.
    DispatchOne {
        client: u16,
    },
    /// Hands out all elements of a client's callback queue, by so many workers.
    DispatchAll {
        client: u16,
        workers: u32,
    },
    Servers,
    Files,
    /// Shows the file of this name.
    Cat {
        name: Text,
    },
}

// Written out, as a derived one is proved anew in each crate that lets such a value go.
impl Drop for Line {
    fn drop(self) {
        match self {
            Line::Cluster {
                start: _,
                queue: _,
                callbacks: _,
                alarm,
                ntf,
                sys,
            } => {
                drop(alarm);
                drop(ntf);
                drop(sys);
            }
            Line::Time { now: _ } => {}
            Line::Log { client: _, ask } => drop(ask),
            Line::Ntf { client: _, ask } => drop(ask),
            Line::Deliver { place: _ } => {}
            Line::Resend { client: _ } => {}
            Line::Mirror => {}
            Line::Ack => {}
            Line::Work => {}
            Line::Push => {}
            Line::Inject { bytes } => drop(bytes),
            Line::Settle => {}
            Line::Crash { server: _ } => {}
            Line::Arm {
                server: _,
                count: _,
            } => {}
            Line::Disarm => {}
            Line::Restart { server: _ } => {}
            Line::DispatchOne { client: _ } => {}
            Line::DispatchAll {
                client: _,
                workers: _,
            } => {}
            Line::Servers => {}
            Line::Files => {}
            Line::Cat { name } => drop(name),
        }
    }
}

impl Duplicate for Server {
    fn copy(&self, _alloc: Global) -> Result<Self, AllocError> {
        Ok(*self)
    }
}

impl Duplicate for WellOptions {
    fn copy(&self, alloc: Global) -> Result<Self, AllocError> {
        Ok(WellOptions {
            fmt: self.fmt.copy(alloc)?,
            rec: self.rec,
            max: self.max,
            full: self.full,
            rot: self.rot,
        })
    }
}

impl Duplicate for Line {
    fn copy(&self, alloc: Global) -> Result<Self, AllocError> {
        match self {
            Line::Cluster {
                start,
                queue,
                callbacks,
                alarm,
                ntf,
                sys,
            } => Ok(Line::Cluster {
                start: *start,
                queue: *queue,
                callbacks: *callbacks,
                alarm: alarm.copy(alloc)?,
                ntf: ntf.copy(alloc)?,
                sys: sys.copy(alloc)?,
            }),
            Line::Time { now } => Ok(Line::Time { now: *now }),
            Line::Log { client, ask } => Ok(Line::Log {
                client: *client,
                ask: ask.copy(alloc)?,
            }),
            Line::Ntf { client, ask } => Ok(Line::Ntf {
                client: *client,
                ask: ask.copy(alloc)?,
            }),
            Line::Deliver { place } => Ok(Line::Deliver { place: *place }),
            Line::Resend { client } => Ok(Line::Resend { client: *client }),
            Line::Mirror => Ok(Line::Mirror),
            Line::Ack => Ok(Line::Ack),
            Line::Work => Ok(Line::Work),
            Line::Push => Ok(Line::Push),
            Line::Inject { bytes } => Ok(Line::Inject {
                bytes: bytes.copy(alloc)?,
            }),
            Line::Settle => Ok(Line::Settle),
            Line::Crash { server } => Ok(Line::Crash { server: *server }),
            Line::Arm { server, count } => Ok(Line::Arm {
                server: *server,
                count: *count,
            }),
            Line::Disarm => Ok(Line::Disarm),
            Line::Restart { server } => Ok(Line::Restart { server: *server }),
            Line::DispatchOne { client } => Ok(Line::DispatchOne { client: *client }),
            Line::DispatchAll { client, workers } => Ok(Line::DispatchAll {
                client: *client,
                workers: *workers,
            }),
            Line::Servers => Ok(Line::Servers),
            Line::Files => Ok(Line::Files),
            Line::Cat { name } => Ok(Line::Cat {
                name: name.copy(alloc)?,
            }),
        }
    }
}
