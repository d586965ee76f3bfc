//! Where the columns stand. All lengths are pixels, counted from the upper left corner of a panel.
ghost use Rattle.std.specs.Prelude.{◌<◌, ◌^◌};

use crate::events::Server;
use ais_values::MAX_CLIENT;
use std::alloc::{AllocError, Global};
use std::collections::BTreeSet;

/// How many clients there can be.
const MAX_CLIENTS: usize = MAX_CLIENT as usize;

/// How many lines a panel has.
pub(crate) const PANEL_ROWS: usize = 100;

/// How wide panels side by side may be.
const PAGE: u64 = 3300;

const ROW: u64 = 16;

/// The height of the names above the columns.
pub(crate) const HEAD: u64 = 40;

const GUTTER: u64 = 44;

const CLIENT: u64 = 190;

const LANE: u64 = 5;

/// The width of a server's bar.
pub(crate) const BAR: u64 = 14;

// How far behind the left side of the net the others are.
const NET: u64 = 78;

const FIRST_BAR: u64 = NET + 124;

// How far the bars are apart.
const NEXT_BAR: u64 = 30;

const SECOND_BAR: u64 = FIRST_BAR + NEXT_BAR;

const THIRD_BAR: u64 = SECOND_BAR + NEXT_BAR;

// Behind the bars of two servers.
const HISTORY: u64 = SECOND_BAR + BAR + 34;

// The width of what stands behind the history's line.
const LABELS: u64 = 362;

/// The columns of a picture.
#[derive(Drop)]
pub(crate) struct Frame {
    pub(crate) clients: Vec<u64>,
    /// Whether there is a third server.
    pub(crate) third: bool,
}

impl Frame {
    /// The columns for these clients, and for two servers or three.
    pub(crate) fn new(
        alloc: Global,
        clients: &BTreeSet<u64>,
        third: bool,
    ) -> Result<Self, AllocError> {
        let clients = clients.iter().copied().collect(alloc)?;
        Ok(Frame { clients, third })
    }

    /// The line of the client at a place.
    pub(crate) fn line_at(&self, place: usize) -> u64 {
        GUTTER + CLIENT * (place.min(MAX_CLIENTS) as u64) + CLIENT - 12
    }

    /// The line of a client.
    pub(crate) fn client(&self, client: u64) -> u64 {
        match self.clients.binary_search(&client) {
            Ok(place) => self.line_at(place),
            Err(_) => GUTTER,
        }
    }

    /// The left side of the net's column.
    pub(crate) fn net(&self) -> u64
        ensures { result < 2 ^ 20 }
    {
        GUTTER + CLIENT * (self.clients.len().min(MAX_CLIENTS) as u64)
    }

    /// The right side of the net's column.
    pub(crate) fn net_end(&self) -> u64 {
        self.net() + NET
    }

    /// A place across the net.
    pub(crate) fn lane(&self, lane: u64) -> u64 {
        self.net() + 11 + LANE * lane.min(12)
    }

    /// The left side of a server's bar.
    pub(crate) fn server(&self, server: Server) -> u64 {
        match server {
            Server::First => self.net() + FIRST_BAR,
            Server::Second => self.net() + SECOND_BAR,
            Server::Third => self.net() + THIRD_BAR,
        }
    }

    /// The right side of a server's bar.
    pub(crate) fn server_end(&self, server: Server) -> u64 {
        match server {
            Server::First => self.net() + (FIRST_BAR + BAR),
            Server::Second => self.net() + (SECOND_BAR + BAR),
            Server::Third => self.net() + (THIRD_BAR + BAR),
        }
    }

    /// The line of the history.
    pub(crate) fn history(&self) -> u64 {
        if self.third {
            self.net() + (HISTORY + NEXT_BAR)
        } else {
            self.net() + HISTORY
        }
    }

    /// The width of a panel.
    pub(crate) fn width(&self) -> u64
        ensures above { 0 < result }
        ensures below { result < 2 ^ 21 }
    {
        if self.third {
            self.net() + (HISTORY + NEXT_BAR + LABELS)
        } else {
            self.net() + (HISTORY + LABELS)
        }
    }

    /// How many panels stand side by side; further ones stand below them.
    pub(crate) fn across(&self) -> u64
        ensures { 0 < result }
    {
        (PAGE / self.width()).max(1)
    }
}

/// The middle of a row.
pub(crate) fn middle(row: usize) -> u64 {
    top(row) + ROW / 2
}

/// The upper side of a row.
pub(crate) fn top(row: usize) -> u64
    ensures { result < 2 ^ 12 }
{
    HEAD + ROW * ((row % PANEL_ROWS) as u64)
}

/// The height of a panel with the space below it.
pub(crate) const PANEL_HEIGHT: u64 = HEAD + ROW * 100 + 24;

/// The lower side of a panel with so many rows.
pub(crate) fn bottom(rows: usize) -> u64 {
    HEAD + ROW * (rows.min(PANEL_ROWS) as u64)
}
