//! What is measured.
use crate::calling::{end_of, offer_of, read_of, send_of, start_of, write_of};
use calls::Call;
use std::alloc::{AllocError, Global};

/// The kinds of entries that are measured.
#[derive(Clone, Copy)]
pub(crate) enum Kind {
    /// A record is written.
    Write,
    /// A record is written whose size is fixed, and just what its text needs.
    Even,
    /// A record of the size of its text is written.
    Free,
    /// A notification is sent for which all subscriptions ask.
    Offer,
    /// A notification of a type is sent for which no subscription asks.
    Send,
    /// A reader starts at the youngest alarm, and ends by the next entry.
    Start,
    /// A reader reads on, to and fro.
    Read,
}

impl Kind {
    /// The kind of a word.
    pub(crate) fn of(word: &str) -> Option<Kind> {
        match word {
            "write" => Some(Kind::Write),
            "even" => Some(Kind::Even),
            "free" => Some(Kind::Free),
            "offer" => Some(Kind::Offer),
            "send" => Some(Kind::Send),
            "start" => Some(Kind::Start),
            "read" => Some(Kind::Read),
            _ => None,
        }
    }

    /// The word of the kind.
    pub(crate) fn word(self) -> &'static str {
        match self {
            Kind::Write => "write",
            Kind::Even => "even",
            Kind::Free => "free",
            Kind::Offer => "offer",
            Kind::Send => "send",
            Kind::Start => "start",
            Kind::Read => "read",
        }
    }

    /// The size of records in the streams of applications.
    pub(crate) fn record_size(self) -> u32 {
        match self {
            Kind::Even => 148,
            Kind::Free => 0,
            Kind::Write | Kind::Offer | Kind::Send | Kind::Start | Kind::Read => 256,
        }
    }

    /// The call of this number, where so many streams of applications live.
    pub(crate) fn call(self, alloc: Global, streams: u32, number: u32) -> Result<Call, AllocError> {
        match self {
            Kind::Write | Kind::Even | Kind::Free => write_of(alloc, streams, number),
            Kind::Offer => offer_of(alloc),
            Kind::Send => send_of(alloc),
            Kind::Start if number % 2 == 0 => start_of(alloc, 1),
            Kind::Start => Ok(end_of()),
            Kind::Read => Ok(read_of(1 + number % 2)),
        }
    }
}
