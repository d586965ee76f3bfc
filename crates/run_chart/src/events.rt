//! What the printed lines of a run tell, as values.

/// What a message is.
#[derive(Clone, Copy, PartialEq, Eq, PartialOrd, Ord)]
pub(crate) enum Kind {
    Request,
    Reply,
    Item,
    Receipt,
}

impl Kind {
    /// The word of a line for it, and the class of its arrow.
    pub(crate) fn word(self) -> &'static str {
        match self {
            Kind::Request => "req",
            Kind::Reply => "rep",
            Kind::Item => "item",
            Kind::Receipt => "rcpt",
        }
    }

    /// The class of its arrow's head.
    pub(crate) fn head(self) -> &'static str {
        match self {
            Kind::Request => "req head",
            Kind::Reply => "rep head",
            Kind::Item => "item head",
            Kind::Receipt => "rcpt head",
        }
    }

    /// Whether a client posts it.
    pub(crate) fn is_of_client(self) -> bool {
        match self {
            Kind::Request | Kind::Receipt => true,
            Kind::Reply | Kind::Item => false,
        }
    }
}

/// By what a message is known: its client, the number of the call or the key of the subscription, and of an item or a
/// receipt the item's number, else 0.
#[derive(Clone, Copy, PartialEq, Eq, PartialOrd, Ord)]
pub(crate) struct Naming {
    pub(crate) kind: Kind,
    pub(crate) client: u64,
    pub(crate) first: u64,
    pub(crate) second: u64,
}

/// The role of a server. No line may have told it yet.
#[derive(Clone, Copy, PartialEq, Eq)]
pub(crate) enum Role {
    Untold,
    Active,
    Armed,
    Standby,
    Joining,
    Journal,
    Down,
}

impl Role {
    /// The class of its colour.
    pub(crate) fn word(self) -> &'static str {
        match self {
            Role::Untold => "untold",
            Role::Active => "active",
            Role::Armed => "armed",
            Role::Standby => "standby",
            Role::Joining => "joining",
            Role::Journal => "journal",
            Role::Down => "down",
        }
    }

    /// Whether a server of this role answers clients.
    pub(crate) fn answers(self) -> bool {
        match self {
            Role::Active | Role::Armed => true,
            _ => false,
        }
    }
}

/// A server, of two or of three.
#[derive(Clone, Copy)]
pub(crate) enum Server {
    First,
    Second,
    Third,
}

/// What a line tells.
#[derive(Clone, Copy)]
pub(crate) enum Event {
    /// A message enters the net.
    Posted { number: u64, name: Naming },
    /// Bytes that are no message enter the net.
    Injected,
    /// The entry made of a request or a receipt is committed.
    Committed { entry: u64, name: Naming, time: u64 },
    /// A client takes a reply.
    Answered { name: Naming },
    /// A client's agent refuses, or ends a dispatch.
    Told { client: u64 },
    /// A callback is handed out.
    CalledBack { client: u64 },
    /// A delivered message had no effect.
    Ignored { number: u64 },
    /// A line of the script is refused; whether the roles of three servers are told with it.
    Refused { third: bool },
    /// A server's role, where it changes or as it stands.
    Stands { server: Server, role: Role },
    /// A file, or a line of one.
    File,
    Text,
    /// The disk failed, and the run ended.
    Failed,
}
