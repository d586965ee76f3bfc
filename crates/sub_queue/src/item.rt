//! What a subscription's items hold.
use ais_values::{Duplicate, Seq, Shared};
use ntf_types::Notification;
use std::alloc::{AllocError, Global};

/// A notification that was lost: the code of its type, and its id.
#[derive(Clone, Copy, PartialEq, Eq, Debug)]
pub struct Lost {
    pub kind: u16,
    pub id: u64,
}

/// What an item of a subscription holds.
#[derive(PartialEq)]
pub enum Content {
    /// A notification, shared by all that hold it.
    Notified { notification: Shared<Notification> },
    /// The notifications that were lost before this item, in order.
    Discarded { lost: Seq<Lost> },
}

// Written out, as a derived one is proved anew in each crate that lets such a value go.
impl Drop for Content {
    fn drop(self) {
        match self {
            Content::Notified { notification } => drop(notification),
            Content::Discarded { lost } => drop(lost),
        }
    }
}

/// An item of a subscription, under its number. The numbers of a subscription are 1, 2, 3 and so on.
#[derive(PartialEq)]
pub struct Item {
    pub number: u32,
    pub content: Content,
}

// Written out, as a derived one is proved anew in each crate that lets such a value go.
impl Drop for Item {
    fn drop(self) {
        let Item { number: _, content } = self;
        drop(content);
    }
}

impl Duplicate for Lost {
    fn copy(&self, _alloc: Global) -> Result<Self, AllocError> {
        Ok(*self)
    }
}

impl Duplicate for Content {
    fn copy(&self, alloc: Global) -> Result<Self, AllocError> {
        match self {
            Content::Notified { notification } => Ok(Content::Notified {
                notification: notification.copy(alloc)?,
            }),
            Content::Discarded { lost } => Ok(Content::Discarded {
                lost: lost.copy(alloc)?,
            }),
        }
    }
}

impl Duplicate for Item {
    fn copy(&self, alloc: Global) -> Result<Self, AllocError> {
        Ok(Item {
            number: self.number,
            content: self.content.copy(alloc)?,
        })
    }
}
