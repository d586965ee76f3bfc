//! What stands of a stream between two changes.
use crate::{StreamAttrs, StreamName};
use ais_values::{Duplicate, Seq, Shared};
use std::alloc::{AllocError, Global};

/// A file of records of a stream: its stamps, which are seconds, the record with which it begins, and its length.
#[derive(Clone, Copy, Debug, PartialEq, Eq)]
pub struct LogFile {
    /// The stamp at which the file was made.
    pub created: i64,
    /// The stamp at which it was closed; none while it is the current file.
    pub closed: Option<i64>,
    /// The number of its first record, counted from 0 over all that the stream has taken; 0 where it wraps.
    pub first: u32,
    /// How many bytes it has.
    pub bytes: u64,
}

/// A stream as it stands.
#[derive(PartialEq)]
pub struct StreamState {
    pub name: StreamName,
    pub attrs: Shared<StreamAttrs>,
    /// How many records it has taken since it was made.
    pub taken: u32,
    /// How many files were ever made of it.
    pub opened: u32,
    /// Its files that stand, from the oldest to the current one.
    pub files: Seq<LogFile>,
}

// Written out, as a derived one is proved anew in each crate that lets such a value go.
impl Drop for StreamState {
    fn drop(self) {
        let StreamState {
            name,
            attrs,
            taken: _,
            opened: _,
            files,
        } = self;
        drop(name);
        drop(attrs);
        drop(files);
    }
}

impl Duplicate for LogFile {
    fn copy(&self, _alloc: Global) -> Result<Self, AllocError> {
        Ok(*self)
    }
}

impl Duplicate for StreamState {
    fn copy(&self, alloc: Global) -> Result<Self, AllocError> {
        Ok(StreamState {
            name: self.name.copy(alloc)?,
            attrs: self.attrs.copy(alloc)?,
            taken: self.taken,
            opened: self.opened,
            files: self.files.copy(alloc)?,
        })
    }
}
