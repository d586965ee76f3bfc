//! The services, their versions, classes and kinds of streams.
use crate::Duplicate;
use std::alloc::{AllocError, Global};

/// One of the two services.
#[derive(Clone, Copy, Debug, PartialEq, Eq)]
pub enum Which {
    Log,
    Ntf,
}

/// A version of a service's interface: a release letter, a major and a minor number.
#[derive(Clone, Copy, Debug, PartialEq, Eq)]
pub struct Version {
    pub release: u8,
    pub major: u8,
    pub minor: u8,
}

/// The class of a notification or of a log record.
#[derive(Clone, Copy, Debug, PartialEq, Eq)]
pub struct ClassId {
    pub vendor: u32,
    pub major: u16,
    pub minor: u16,
}

/// The kind of a log stream.
#[derive(Clone, Copy, Debug, PartialEq, Eq)]
pub enum StreamKind {
    Alarm,
    Notification,
    System,
    Application,
}

impl Duplicate for Which {
    fn copy(&self, _alloc: Global) -> Result<Self, AllocError> {
        Ok(*self)
    }
}

impl Duplicate for Version {
    fn copy(&self, _alloc: Global) -> Result<Self, AllocError> {
        Ok(*self)
    }
}

impl Duplicate for ClassId {
    fn copy(&self, _alloc: Global) -> Result<Self, AllocError> {
        Ok(*self)
    }
}

impl Duplicate for StreamKind {
    fn copy(&self, _alloc: Global) -> Result<Self, AllocError> {
        Ok(*self)
    }
}
