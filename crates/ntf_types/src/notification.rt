//! A notification and its type.
ghost use Rattle.std.specs.Prelude.{◌≡◌};
ghost use Rattle.ntf_types.specs.Kinds.{kind_of};

use crate::{Change, Pair, StateChange, Value};
use ais_values::{Boxed, ClassId, Duplicate, Name, Seq, Text};
use std::alloc::{AllocError, Global};

/// What a notification tells, by its type.
#[derive(PartialEq)]
pub enum Body {
    /// An object was created or deleted.
    Objects {
        source: u16,
        attrs: Seq<Pair>,
    },
    /// Attributes of an object changed.
    Attributes {
        source: u16,
        changes: Seq<Change>,
    },
    /// States of an object changed.
    States {
        source: u16,
        changes: Seq<StateChange>,
    },
    /// An alarm.
    Alarm {
        cause: u16,
        severity: u16,
    },
    /// A security alarm. Its values stand by themselves in memory, so that no notification is wider for them.
    Security {
        cause: u16,
        severity: u16,
        detector: Boxed<Value>,
        user: Boxed<Value>,
        provider: Boxed<Value>,
    },
}

// Written out, as a derived one is proved anew in each crate that lets such a value go.
impl Drop for Body {
    fn drop(self) {
        match self {
            Body::Objects { source: _, attrs } => drop(attrs),
            Body::Attributes { source: _, changes } => drop(changes),
            Body::States { source: _, changes } => drop(changes),
            Body::Alarm {
                cause: _,
                severity: _,
            } => {}
            Body::Security {
                cause: _,
                severity: _,
                detector,
                user,
                provider,
            } => {
                drop(detector);
                drop(user);
                drop(provider);
            }
        }
    }
}

/// A notification. The service gives the id; before it is sent the id is 0.
#[derive(PartialEq)]
pub struct Notification {
    pub id: u64,
    pub event_type: u16,
    /// The object that the notification is about.
    pub object: Name,
    /// The object that notifies.
    pub notifier: Name,
    pub class: ClassId,
    /// Nanoseconds since 1970 in UTC; the least number stands for an unknown time.
    pub event_time: i64,
    /// The ids of notifications that this one goes with.
    pub correlated: Seq<u64>,
    /// Additional text.
    pub text: Text,
    /// Additional information.
    pub info: Seq<Pair>,
    pub body: Body,
}

// Written out, as a derived one is proved anew in each crate that lets such a value go.
impl Drop for Notification {
    fn drop(self) {
        let Notification {
            id: _,
            event_type: _,
            object,
            notifier,
            class: _,
            event_time: _,
            correlated,
            text,
            info,
            body,
        } = self;
        drop(object);
        drop(notifier);
        drop(correlated);
        drop(text);
        drop(info);
        drop(body);
    }
}

/// The code of a notification's type.
pub fn kind_of(notification: &Notification) -> u16
    ensures { result ≡ kind_of notification.now.body }
{
    match &notification.body {
        Body::Objects { .. } => 0x1000,
        Body::Attributes { .. } => 0x2000,
        Body::States { .. } => 0x3000,
        Body::Alarm { .. } => 0x4000,
        Body::Security { .. } => 0x5000,
    }
}

impl Duplicate for Body {
    fn copy(&self, alloc: Global) -> Result<Self, AllocError> {
        match self {
            Body::Objects { source, attrs } => Ok(Body::Objects {
                source: *source,
                attrs: attrs.copy(alloc)?,
            }),
            Body::Attributes { source, changes } => Ok(Body::Attributes {
                source: *source,
                changes: changes.copy(alloc)?,
            }),
            Body::States { source, changes } => Ok(Body::States {
                source: *source,
                changes: changes.copy(alloc)?,
            }),
            Body::Alarm { cause, severity } => Ok(Body::Alarm {
                cause: *cause,
                severity: *severity,
            }),
            Body::Security {
                cause,
                severity,
                detector,
                user,
                provider,
            } => Ok(Body::Security {
                cause: *cause,
                severity: *severity,
                detector: detector.copy(alloc)?,
                user: user.copy(alloc)?,
                provider: provider.copy(alloc)?,
            }),
        }
    }
}

impl Duplicate for Notification {
    fn copy(&self, alloc: Global) -> Result<Self, AllocError> {
        Ok(Notification {
            id: self.id,
            event_type: self.event_type,
            object: self.object.copy(alloc)?,
            notifier: self.notifier.copy(alloc)?,
            class: self.class,
            event_time: self.event_time,
            correlated: self.correlated.copy(alloc)?,
            text: self.text.copy(alloc)?,
            info: self.info.copy(alloc)?,
            body: self.body.copy(alloc)?,
        })
    }
}
