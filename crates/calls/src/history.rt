//! The history of what was accepted, which a running program can add to and count, and not read.
ghost use Rattle.std.specs.Prelude.{◌≡◌, ◌+◌, ◌≤◌, ◌∷◌, length, OnOk, OnErr};
ghost use Rattle.calls.specs.History.{empty_history};

use crate::Entry;
use std::alloc::{AllocError, Global};
use std::marker::Model;

/// The most entries that a history has.
pub const MAX_ENTRIES: u64 = 4_000_000_000;

/// The entries that were accepted. Contracts see them, the newest first, and for how many more there is room.
pub struct History {
    entries: Vec<Entry>,
}

// Written out, as a derived one is proved anew in each crate that lets such a value go.
impl Drop for History {
    fn drop(self) {
        let History { entries } = self;
        drop(entries);
    }
}

impl Model for History {
    ghost use Rattle.calls.specs.History.{Pushed};

    ghost Value = { Pushed };

    ghost use Rattle.calls.specs.Inside.{pushed_of};

    ghost view = { pushed_of };
}

impl History {
    /// The history of nothing. It takes no memory.
    pub fn new(alloc: Global) -> History
        ensures { result ≡ empty_history }
    {
        History {
            entries: Vec::new(alloc),
        }
    }

    /// Makes room for one more entry. Where memory runs out nothing changes.
    pub fn reserve(&mut self) -> Result<(), AllocError>
        ensures entries { self.new.entries ≡ self.old.entries }
        ensures ok { OnOk result (1 ≤ self.new.spare) }
        ensures err { OnErr result (self.new ≡ self.old) }
    {
        self.entries.reserve(1)
    }

    /// Adds an entry. It takes no memory.
    pub fn push(&mut self, entry: Entry)
        requires { 1 ≤ self.old.spare }
        ensures entries { self.new.entries ≡ entry ∷ self.old.entries }
        ensures spare { self.old.spare ≤ self.new.spare + 1 }
    {
        self.entries.push_reserved(entry);
    }

    /// How many entries there are.
    pub fn len(&self) -> u64
        ensures { result ≡ length self.now.entries }
    {
        self.entries.len() as u64
    }
}
