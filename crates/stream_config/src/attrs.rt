//! The names and the attributes of log streams.
ghost use Rattle.std.specs.Prelude.{◌≡◌};
ghost use Rattle.format_expr.specs.Language.{is_notified};
ghost use Rattle.stream_config.specs.Attributes.{kind_of};

use ais_values::{Duplicate, Name, StreamKind, Text};
use std::alloc::{AllocError, Global};

/// What a stream does with a record that does not fit its file.
#[derive(Clone, Copy, Debug, PartialEq, Eq)]
pub enum FullAction {
    /// A new record takes the place of the oldest.
    Wrap,
    /// A record that does not fit is not taken.
    Halt,
    /// A new file is begun.
    Rotate,
}

/// The attributes of a stream. Any values can stand here: `check_attrs` says which a stream may have.
#[derive(PartialEq)]
pub struct StreamAttrs {
    /// The first part of the names of its files.
    pub file: Text,
    /// The folder of its files, or `.`.
    pub path: Text,
    /// The greatest size of one of its files, in bytes.
    pub max_file: u64,
    /// The size of each of its records, in bytes; 0 where each has the size of its text.
    pub record_size: u32,
    /// The high-availability property, 0 or 1.
    pub ha: u8,
    /// What it does with a record that does not fit its file.
    pub action: FullAction,
    /// The greatest number of its files that stand, where it rotates.
    pub rotated: u32,
    /// The expression by which its records are printed.
    pub expr: Text,
}

// Written out, as a derived one is proved anew in each crate that lets such a value go.
impl Drop for StreamAttrs {
    fn drop(self) {
        let StreamAttrs {
            file,
            path,
            max_file: _,
            record_size: _,
            ha: _,
            action: _,
            rotated: _,
            expr,
        } = self;
        drop(file);
        drop(path);
        drop(expr);
    }
}

/// The name of a stream: one of the three that are well known, or an application's own.
#[derive(PartialEq)]
pub enum StreamName {
    Alarm,
    Notification,
    System,
    App { name: Name },
}

// Written out, as a derived one is proved anew in each crate that lets such a value go.
impl Drop for StreamName {
    fn drop(self) {
        match self {
            StreamName::Alarm => {}
            StreamName::Notification => {}
            StreamName::System => {}
            StreamName::App { name } => drop(name),
        }
    }
}

impl StreamName {
    /// The kind of the stream of this name.
    pub fn kind(&self) -> StreamKind
        ensures { result ≡ kind_of self.now }
    {
        match self {
            StreamName::Alarm => StreamKind::Alarm,
            StreamName::Notification => StreamKind::Notification,
            StreamName::System => StreamKind::System,
            StreamName::App { .. } => StreamKind::Application,
        }
    }

    /// Whether the stream has the records of notifications.
    pub fn is_notified(&self) -> bool
        ensures { result ≡ is_notified (kind_of self.now) }
    {
        matches!(self, StreamName::Alarm | StreamName::Notification)
    }
}

impl Duplicate for FullAction {
    fn copy(&self, _alloc: Global) -> Result<Self, AllocError> {
        Ok(*self)
    }
}

impl Duplicate for StreamAttrs {
    fn copy(&self, alloc: Global) -> Result<Self, AllocError> {
        Ok(StreamAttrs {
            file: self.file.copy(alloc)?,
            path: self.path.copy(alloc)?,
            max_file: self.max_file,
            record_size: self.record_size,
            ha: self.ha,
            action: self.action,
            rotated: self.rotated,
            expr: self.expr.copy(alloc)?,
        })
    }
}

impl Duplicate for StreamName {
    fn copy(&self, alloc: Global) -> Result<Self, AllocError> {
        match self {
            StreamName::Alarm => Ok(StreamName::Alarm),
            StreamName::Notification => Ok(StreamName::Notification),
            StreamName::System => Ok(StreamName::System),
            StreamName::App { name } => Ok(StreamName::App {
                name: name.copy(alloc)?,
            }),
        }
    }
}
