//! Callbacks under their numbers.
use ais_values::Duplicate;
use calls::Callback;
use std::alloc::{AllocError, Global};

/// A callback under its number. The callbacks of a queue are numbered 1, 2, 3 and so on, as they were fed.
#[derive(PartialEq, Drop)]
pub struct Numbered {
    pub number: u64,
    pub callback: Callback,
}

impl Duplicate for Numbered {
    fn copy(&self, alloc: Global) -> Result<Self, AllocError> {
        Ok(Numbered {
            number: self.number,
            callback: self.callback.copy(alloc)?,
        })
    }
}
