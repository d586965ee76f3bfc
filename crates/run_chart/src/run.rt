//! A run as it is drawn: its rows, its messages with what the lines tell of their way, and its clients.
use crate::events::{Event, Kind, Naming, Role, Server};
use std::alloc::{AllocError, Global};
use std::collections::{BTreeMap, BTreeSet};

/// A message of the net, by the rows of which it is told.
#[derive(Clone, Copy)]
pub(crate) struct Message {
    pub(crate) name: Naming,
    pub(crate) number: u64,
    /// The server that answered clients as it was posted.
    pub(crate) by: Server,
    pub(crate) posted: usize,
    /// Where it is told to have had its effect.
    pub(crate) arrived: Option<usize>,
    /// The last row of which it is.
    pub(crate) last: usize,
    /// Its place across the net's column.
    pub(crate) lane: u64,
}

/// The roles of the servers.
#[derive(Clone, Copy)]
pub(crate) struct Roles {
    pub(crate) first: Role,
    pub(crate) second: Role,
    pub(crate) third: Role,
}

impl Roles {
    /// The role of a server.
    pub(crate) fn of(self, server: Server) -> Role {
        match server {
            Server::First => self.first,
            Server::Second => self.second,
            Server::Third => self.third,
        }
    }
}

/// A line of the run.
#[derive(Clone, Copy)]
pub(crate) struct Row {
    pub(crate) event: Event,
    /// The server that answers clients.
    pub(crate) active: Server,
    /// The roles behind the line.
    pub(crate) roles: Roles,
    /// Whether the line tells that a role changed.
    pub(crate) is_change: bool,
    /// The place of the message that came out of the net, and of the one that was posted.
    pub(crate) arrival: Option<usize>,
    pub(crate) posted: Option<usize>,
    /// The time of an entry, where it is another one than that of the entry before.
    pub(crate) time: Option<u64>,
}

/// A run.
#[derive(Drop)]
pub(crate) struct Run {
    pub(crate) rows: Vec<Row>,
    pub(crate) messages: Vec<Message>,
    pub(crate) clients: BTreeSet<u64>,
    /// Whether a line tells of a third server.
    pub(crate) third: bool,
    by_name: BTreeMap<Naming, usize>,
    by_number: BTreeMap<u64, usize>,
    active: Server,
    roles: Roles,
    time: Option<u64>,
}

impl Run {
    /// A run without lines. Server a answers clients at the start of each run; of the others nothing is told.
    pub(crate) fn new(alloc: Global) -> Self {
        Run {
            rows: Vec::new(alloc),
            messages: Vec::new(alloc),
            clients: BTreeSet::new(alloc),
            third: false,
            by_name: BTreeMap::new(alloc),
            by_number: BTreeMap::new(alloc),
            active: Server::First,
            roles: Roles {
                first: Role::Active,
                second: Role::Untold,
                third: Role::Untold,
            },
            time: None,
        }
    }

    /// The message at a place.
    pub(crate) fn message(&self, place: Option<usize>) -> Option<Message> {
        self.messages.get(place?).copied()
    }

    /// Whether the last line tells that the run ended by a fault of the disk: no run prints a line behind it.
    pub(crate) fn has_failed(&self) -> bool {
        match self.rows.last() {
            Some(row) => matches!(row.event, Event::Failed),
            None => false,
        }
    }

    /// Adds what the next line tells.
    pub(crate) fn add(&mut self, event: Event) -> Result<(), AllocError> {
        let arrival = match event {
            Event::Posted { name, .. } => self.take_item(name),
            Event::Committed { name, .. } => self.arrive(name),
            Event::Answered { name } => self.arrive(name),
            Event::Ignored { number } => self.miss(number),
            _ => None,
        };
        let is_change = match event {
            Event::Stands { server, role } => self.stand(server, role),
            _ => false,
        };
        let posted = match event {
            Event::Posted { number, name } => Some(self.post(number, name)?),
            _ => None,
        };
        if let Some(client) = client_of(event) {
            self.clients.insert(client)?;
        }
        if tells_third(event) {
            self.third = true;
        }
        let time = self.news(event);
        let active = self.active;
        let roles = self.roles;
        self.rows.push(Row {
            event,
            active,
            roles,
            is_change,
            arrival,
            posted,
            time,
        })?;
        Ok(())
    }

    // The time of an entry that is not that of the one before.
    fn news(&mut self, event: Event) -> Option<u64> {
        let Event::Committed { time, .. } = event else {
            return None;
        };
        if self.time == Some(time) {
            return None;
        }
        self.time = Some(time);
        self.time
    }

    // A receipt is posted where its item is taken.
    fn take_item(&mut self, name: Naming) -> Option<usize> {
        match name.kind {
            Kind::Receipt => self.arrive(Naming {
                kind: Kind::Item,
                ..name
            }),
            _ => None,
        }
    }

    // A message is posted, and gets this place.
    fn post(&mut self, number: u64, name: Naming) -> Result<usize, AllocError> {
        let row = self.rows.len();
        let place = self.messages.len();
        self.messages.push(Message {
            name,
            number,
            by: self.active,
            posted: row,
            arrived: None,
            last: row,
            lane: 0,
        })?;
        self.by_name.insert(name, place)?;
        self.by_number.insert(number, place)?;
        Ok(place)
    }

    // A message has its effect in this row.
    fn arrive(&mut self, name: Naming) -> Option<usize> {
        let row = self.rows.len();
        let place = *self.by_name.get(&name)?;
        let message = self.messages.get_mut(place)?;
        if message.arrived.is_none() {
            message.arrived = Some(row);
        }
        message.last = row;
        Some(place)
    }

    // A message has no effect in this row.
    fn miss(&mut self, number: u64) -> Option<usize> {
        let row = self.rows.len();
        let place = *self.by_number.get(&number)?;
        let message = self.messages.get_mut(place)?;
        message.last = row;
        Some(place)
    }

    // A server's role is told. Answers whether it changed.
    fn stand(&mut self, server: Server, role: Role) -> bool {
        let known = self.roles.of(server);
        match server {
            Server::First => self.roles.first = role,
            Server::Second => self.roles.second = role,
            Server::Third => self.roles.third = role,
        }
        if role.answers() {
            self.active = server;
        }
        is_change(known, role)
    }
}

// Whether a line of this role tells of a change. `servers` tells the role that a server has, which no line may have told yet where it
// is standby, or a journal; and it alone tells whether an active one is armed.
fn is_change(known: Role, role: Role) -> bool {
    match known {
        Role::Untold => role != Role::Standby && role != Role::Journal,
        Role::Active | Role::Armed => !role.answers(),
        _ => known != role,
    }
}

// Whether an event tells of a third server.
fn tells_third(event: Event) -> bool {
    match event {
        Event::Stands { server, .. } => matches!(server, Server::Third),
        Event::Refused { third } => third,
        _ => false,
    }
}

// The client whose column an event needs.
fn client_of(event: Event) -> Option<u64> {
    match event {
        Event::Posted { name, .. } | Event::Committed { name, .. } => Some(name.client),
        Event::Answered { name } => Some(name.client),
        Event::Told { client } | Event::CalledBack { client } => Some(client),
        _ => None,
    }
}
