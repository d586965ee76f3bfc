//! What the lines of events tell.
use wire::WireWhy;

/// What a line tells of a server.
#[derive(Clone, Copy, Debug, PartialEq, Eq)]
pub enum ServerRole {
    Active,
    /// Active, and a device call to come will stop it.
    Armed,
    Standby,
    Joining,
    Down,
    /// No server: a journal.
    Journal,
}

/// Why a delivered byte string had no effect.
#[derive(Clone, Copy, Debug, PartialEq, Eq)]
pub enum Why {
    /// The request is older than those whose replies are saved.
    OldRequest,
    /// The request is ahead of the client's next.
    AheadRequest,
    /// The entry of this number is in hand.
    Busy { number: u64 },
    /// The receipt is not new.
    DoneReceipt,
    /// The server is down.
    ServerDown,
    /// The reply to the call was taken.
    AnsweredReply,
    /// The callback queue is full.
    Left,
    /// The item was taken.
    TakenItem,
    /// The item is ahead of the next.
    AheadItem,
    /// The subscription does not live in the agent.
    GoneItem,
    /// No message has these bytes: so many of them are the front of one.
    Bad { front: u32, why: WireWhy },
}

/// The roles of the servers of a cluster: of two, or of three.
#[derive(Clone, Copy, Debug, PartialEq, Eq)]
pub enum Roles {
    Two {
        a: ServerRole,
        b: ServerRole,
    },
    Three {
        a: ServerRole,
        b: ServerRole,
        c: ServerRole,
    },
}

/// What the line on a refused event tells.
#[derive(Clone, Copy, Debug, PartialEq, Eq)]
pub struct Standing {
    pub roles: Roles,
    /// The lengths of the net, of the link and of the way back.
    pub net: u64,
    pub link: u64,
    pub back: u64,
    /// The number of the entry in hand.
    pub in_hand: Option<u64>,
}
