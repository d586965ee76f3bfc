//! The value of a service, as it is handed on.
ghost use Rattle.std.specs.Prelude.{◌≡◌};

use crate::Reply;
use ais_values::{Duplicate, Seq, Shared};
use ntf_filters::FilterSet;
use ntf_types::Notification;
use std::alloc::{AllocError, Global};
use stream_config::{Mark, StreamState};
use sub_queue::{Content, Lost};

/// The window of a client: the number of its next call, and its last replies, the oldest first.
#[derive(PartialEq)]
pub struct SavedWindow {
    pub client: u16,
    pub next: u32,
    pub replies: Seq<Reply>,
}

// Written out, as a derived one is proved anew in each crate that lets such a value go.
impl Drop for SavedWindow {
    fn drop(self) {
        let SavedWindow {
            client: _,
            next: _,
            replies,
        } = self;
        drop(replies);
    }
}

impl SavedWindow {
    /// The replies. It takes no memory.
    pub fn into_replies(self) -> Seq<Reply>
        ensures { result ≡ self.replies }
    {
        let SavedWindow {
            client: _,
            next: _,
            replies,
        } = self;
        replies
    }
}

/// A stream, the clients that have it open, and its mark.
#[derive(PartialEq)]
pub struct SavedStream {
    pub state: StreamState,
    pub openers: Seq<u16>,
    pub mark: Mark,
}

// Written out, as a derived one is proved anew in each crate that lets such a value go.
impl Drop for SavedStream {
    fn drop(self) {
        let SavedStream {
            state,
            openers,
            mark: _,
        } = self;
        drop(state);
        drop(openers);
    }
}

impl SavedStream {
    /// The state, and the clients that have the stream open. It takes no memory.
    pub fn into_parts(self) -> (StreamState, Seq<u16>)
        ensures state { result.0 ≡ self.state }
        ensures openers { result.1 ≡ self.openers }
    {
        let SavedStream {
            state,
            openers,
            mark: _,
        } = self;
        (state, openers)
    }
}

/// A stored alarm, under the number of its record.
#[derive(PartialEq)]
pub struct SavedAlarm {
    pub k: u32,
    pub notification: Shared<Notification>,
}

// Written out, as a derived one is proved anew in each crate that lets such a value go.
impl Drop for SavedAlarm {
    fn drop(self) {
        let SavedAlarm { k: _, notification } = self;
        drop(notification);
    }
}

impl SavedAlarm {
    /// The notification. It takes no memory.
    pub fn into_notification(self) -> Shared<Notification>
        ensures { result ≡ self.notification }
    {
        let SavedAlarm { k: _, notification } = self;
        notification
    }
}

/// A subscription, with its queue.
#[derive(PartialEq)]
pub struct SavedSub {
    pub client: u16,
    /// The number of the call that made it.
    pub key: u32,
    pub id: u32,
    pub filters: Shared<FilterSet>,
    /// The number of the first item that is held.
    pub first: u32,
    pub held: Seq<Content>,
    pub lost: Seq<Lost>,
}

// Written out, as a derived one is proved anew in each crate that lets such a value go.
impl Drop for SavedSub {
    fn drop(self) {
        let SavedSub {
            client: _,
            key: _,
            id: _,
            filters,
            first: _,
            held,
            lost,
        } = self;
        drop(filters);
        drop(held);
        drop(lost);
    }
}

impl SavedSub {
    /// The filters, the items that are held, and the marks of those lost. It takes no memory.
    pub fn into_parts(self) -> (Shared<FilterSet>, Seq<Content>, Seq<Lost>)
        ensures filters { result.0 ≡ self.filters }
        ensures held { result.1 ≡ self.held }
        ensures lost { result.2 ≡ self.lost }
    {
        let SavedSub {
            client: _,
            key: _,
            id: _,
            filters,
            first: _,
            held,
            lost,
        } = self;
        (filters, held, lost)
    }
}

/// A reader of stored alarms, with the point that it has come to.
#[derive(PartialEq)]
pub struct SavedReader {
    pub client: u16,
    pub filters: Shared<FilterSet>,
    pub time: i64,
    pub id: u64,
    /// Nothing was read since it began.
    pub fresh: bool,
}

// Written out, as a derived one is proved anew in each crate that lets such a value go.
impl Drop for SavedReader {
    fn drop(self) {
        let SavedReader {
            client: _,
            filters,
            time: _,
            id: _,
            fresh: _,
        } = self;
        drop(filters);
    }
}

/// The whole value of a service.
#[derive(PartialEq)]
pub struct Saved {
    /// How many entries were accepted.
    pub number: u64,
    pub last_stamp: i64,
    pub last_id: u64,
    /// How many items a subscription holds.
    pub capacity: u32,
    pub log_users: Seq<u16>,
    pub ntf_users: Seq<u16>,
    pub windows: Seq<SavedWindow>,
    pub streams: Seq<SavedStream>,
    pub alarms: Seq<SavedAlarm>,
    pub subs: Seq<SavedSub>,
    pub readers: Seq<SavedReader>,
}

// Written out, as a derived one is proved anew in each crate that lets a value go.
impl Drop for Saved {
    fn drop(self) {
        let Saved {
            number: _,
            last_stamp: _,
            last_id: _,
            capacity: _,
            log_users,
            ntf_users,
            windows,
            streams,
            alarms,
            subs,
            readers,
        } = self;
        drop(log_users);
        drop(ntf_users);
        drop(windows);
        drop(streams);
        drop(alarms);
        drop(subs);
        drop(readers);
    }
}

/// The lists of a value, taken out of it.
#[derive(Drop)]
pub struct SavedLists {
    pub log_users: Seq<u16>,
    pub ntf_users: Seq<u16>,
    pub windows: Seq<SavedWindow>,
    pub streams: Seq<SavedStream>,
    pub alarms: Seq<SavedAlarm>,
    pub subs: Seq<SavedSub>,
    pub readers: Seq<SavedReader>,
}

impl Saved {
    /// The lists. It takes no memory.
    pub fn into_lists(self) -> SavedLists
        ensures log_users { result.log_users ≡ self.log_users }
        ensures ntf_users { result.ntf_users ≡ self.ntf_users }
        ensures windows { result.windows ≡ self.windows }
        ensures streams { result.streams ≡ self.streams }
        ensures alarms { result.alarms ≡ self.alarms }
        ensures subs { result.subs ≡ self.subs }
        ensures readers { result.readers ≡ self.readers }
    {
        let Saved {
            number: _,
            last_stamp: _,
            last_id: _,
            capacity: _,
            log_users,
            ntf_users,
            windows,
            streams,
            alarms,
            subs,
            readers,
        } = self;
        SavedLists {
            log_users,
            ntf_users,
            windows,
            streams,
            alarms,
            subs,
            readers,
        }
    }
}

impl Duplicate for SavedWindow {
    fn copy(&self, alloc: Global) -> Result<Self, AllocError> {
        Ok(SavedWindow {
            client: self.client,
            next: self.next,
            replies: self.replies.copy(alloc)?,
        })
    }
}

// A wide field is copied last, so that no copy of it has to be let go where a later one fails.

impl Duplicate for SavedStream {
    fn copy(&self, alloc: Global) -> Result<Self, AllocError> {
        let openers = self.openers.copy(alloc)?;
        let state = self.state.copy(alloc)?;
        Ok(SavedStream {
            state,
            openers,
            mark: self.mark,
        })
    }
}

impl Duplicate for SavedAlarm {
    fn copy(&self, alloc: Global) -> Result<Self, AllocError> {
        Ok(SavedAlarm {
            k: self.k,
            notification: self.notification.copy(alloc)?,
        })
    }
}

impl Duplicate for SavedSub {
    fn copy(&self, alloc: Global) -> Result<Self, AllocError> {
        let held = self.held.copy(alloc)?;
        let lost = self.lost.copy(alloc)?;
        Ok(SavedSub {
            client: self.client,
            key: self.key,
            id: self.id,
            filters: self.filters.copy(alloc)?,
            first: self.first,
            held,
            lost,
        })
    }
}

impl Duplicate for SavedReader {
    fn copy(&self, alloc: Global) -> Result<Self, AllocError> {
        Ok(SavedReader {
            client: self.client,
            filters: self.filters.copy(alloc)?,
            time: self.time,
            id: self.id,
            fresh: self.fresh,
        })
    }
}

impl Duplicate for Saved {
    fn copy(&self, alloc: Global) -> Result<Self, AllocError> {
        Ok(Saved {
            number: self.number,
            last_stamp: self.last_stamp,
            last_id: self.last_id,
            capacity: self.capacity,
            log_users: self.log_users.copy(alloc)?,
            ntf_users: self.ntf_users.copy(alloc)?,
            windows: self.windows.copy(alloc)?,
            streams: self.streams.copy(alloc)?,
            alarms: self.alarms.copy(alloc)?,
            subs: self.subs.copy(alloc)?,
            readers: self.readers.copy(alloc)?,
        })
    }
}
