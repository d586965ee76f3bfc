//! What the service asks of a disk.
ghost use Rattle.std.specs.Prelude.{◌≡◌, IfOk};

use ais_values::{Duplicate, Text};
use std::alloc::{AllocError, Global};

/// One piece of work on the files of a disk, which is a fixed row of device calls.
pub enum Deed {
    /// A whole file, made anew: `create`, `write_at` at 0, `sync`.
    Put { name: Text, bytes: Text },
    /// An empty file: `create`.
    Create { name: Text },
    /// Bytes at a place of a file: `write_at`, `sync`.
    Write { name: Text, at: u64, bytes: Text },
    /// Another name for a file: `rename`.
    Rename { from: Text, to: Text },
    /// A file taken away: `remove`.
    Remove { name: Text },
}

// Written out, as a derived one is proved anew in each crate that lets such a value go.
impl Drop for Deed {
    fn drop(self) {
        match self {
            Deed::Put { name, bytes } => {
                drop(name);
                drop(bytes);
            }
            Deed::Create { name } => drop(name),
            Deed::Write { name, at: _, bytes } => {
                drop(name);
                drop(bytes);
            }
            Deed::Rename { from, to } => {
                drop(from);
                drop(to);
            }
            Deed::Remove { name } => drop(name),
        }
    }
}

impl Duplicate for Deed {
    fn copy(&self, alloc: Global) -> Result<Self, AllocError> {
        match self {
            Deed::Put { name, bytes } => Ok(Deed::Put {
                name: name.copy(alloc)?,
                bytes: bytes.copy(alloc)?,
            }),
            Deed::Create { name } => Ok(Deed::Create {
                name: name.copy(alloc)?,
            }),
            Deed::Write { name, at, bytes } => Ok(Deed::Write {
                name: name.copy(alloc)?,
                at: *at,
                bytes: bytes.copy(alloc)?,
            }),
            Deed::Rename { from, to } => Ok(Deed::Rename {
                from: from.copy(alloc)?,
                to: to.copy(alloc)?,
            }),
            Deed::Remove { name } => Ok(Deed::Remove {
                name: name.copy(alloc)?,
            }),
        }
    }
}
