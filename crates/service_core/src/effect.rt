//! What an entry came to.
use ais_values::{Duplicate, Seq};
use calls::Reply;
use std::alloc::{AllocError, Global};
use stream_layout::Deed;

/// The reply to an entry, which a receipt has none of, and the deeds on the disk, in order.
#[derive(Drop)]
pub struct Effect {
    pub reply: Option<Reply>,
    pub deeds: Seq<Deed>,
}

impl Duplicate for Effect {
    fn copy(&self, alloc: Global) -> Result<Self, AllocError> {
        Ok(Effect {
            reply: self.reply.copy(alloc)?,
            deeds: self.deeds.copy(alloc)?,
        })
    }
}
