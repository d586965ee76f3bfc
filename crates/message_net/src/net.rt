//! The byte strings that were posted.
ghost use Rattle.std.specs.Prelude.{◌≡◌, ℕ, List, [], length, not, IsTrue, IsOk, IfOk, OnOk, OnErr, Some, ◌≤◌};
ghost use Rattle.std.specs.Option.{option_copied};
ghost use Rattle.message_net.specs.Nets.{knows, posted, bytes_at, place_of, front_of, newest_with, net_before};

use crate::fronts::{front_of, join, newest_in, reserve};
use ais_values::Duplicate;
use indexmap::IndexSet;
use std::alloc::{AllocError, Global};
use std::collections::HashMap;
use std::marker::Model;

/// What became of bytes that were posted: the place where they stand, from 1, and whether they came by this posting.
#[derive(Clone, Copy, PartialEq, Eq, Debug)]
pub struct Posted {
    pub place: u64,
    pub new: bool,
}

impl Duplicate for Posted {
    fn copy(&self, _alloc: Global) -> Result<Self, AllocError> {
        Ok(*self)
    }
}

/// The byte strings that were posted, each once. Contracts see them, the newest first.
pub struct Net {
    strings: IndexSet<Vec<u8>>,
    // The place of the newest string of each front, and for each string that of the newest one before it of its front.
    newest: HashMap<u64, u64>,
    older: Vec<Option<u64>>,
}

// Written out, as a derived one is proved anew in each crate that lets such a value go.
impl Drop for Net {
    fn drop(self) {
        let Net {
            strings,
            newest,
            older,
        } = self;
        drop(strings);
        drop(newest);
        drop(older);
    }
}

impl Model for Net {
    ghost use Rattle.std.specs.Prelude.{ℕ, List};

    ghost Value = { List (List ℕ) };

    ghost use Rattle.message_net.specs.Inside.{net_of, IsFound};

    ghost view = { net_of };

    ghost invariant = { IsFound };
}

impl Net {
    /// The net in which nothing was posted. It takes no memory.
    pub fn new(alloc: Global) -> Net
        ensures { result ≡ [] }
    {
        Net {
            strings: IndexSet::new(alloc),
            newest: HashMap::new(alloc),
            older: Vec::new(alloc),
        }
    }

    /// How many strings stand in the net.
    pub fn len(&self) -> u64
        ensures { result ≡ length self.now }
    {
        self.strings.len() as u64
    }

    /// The bytes at this place, `None` exactly where it is 0 or above the number of strings.
    pub fn at(&self, k: u64) -> Option<&[u8]>
        ensures { option_copied result ≡ bytes_at k self.now }
    {
        if k == 0 {
            return None;
        }
        match self.strings.get_index((k - 1) as usize) {
            Some(string) => Some(string.as_slice()),
            None => None,
        }
    }

    /// The place at which these bytes stand, `None` exactly where they stand nowhere.
    pub fn place_of(&self, bytes: &[u8]) -> Option<u64>
        ensures { result ≡ place_of bytes.now self.now }
    {
        let count = self.strings.len();
        match self.strings.get_index_of(bytes) {
            Some(index) => {
                prove!(index < count);
                Some(index as u64 + 1)
            }
            None => None,
        }
    }

    /// Posts bytes, which join the net as its newest string where they do not stand in it yet.
    ///
    /// Bytes that stand there already take no memory. Where memory runs out the net stays as it was.
    pub fn post(&mut self, alloc: Global, bytes: &[u8]) -> Result<Posted, AllocError>
        ensures net { OnOk result (self.new ≡ posted bytes.now self.old) }
        ensures place { IfOk result (λ it. place_of bytes.now self.new ≡ Some it.place) }
        ensures first { IfOk result (λ it. it.new ≡ not (knows bytes.now self.old)) }
        ensures known { IsTrue (knows bytes.now self.old) → IsOk result }
        ensures err { OnErr result (self.new ≡ self.old) }
    {
        if let Some(place) = self.place_of(bytes) {
            return Ok(Posted { place, new: false });
        }
        let string = Vec::from_slice(alloc, bytes)?;
        self.post_owned(string)
    }

    /// Posts bytes that the net may keep. Beside that it is `post`, but that it looks for them once, and room for a string more may be taken
    /// where they stand already.
    pub fn post_owned(&mut self, bytes: Vec<u8>) -> Result<Posted, AllocError>
        ensures net { OnOk result (self.new ≡ posted bytes.items self.old) }
        ensures place { IfOk result (λ it. place_of bytes.items self.new ≡ Some it.place) }
        ensures first { IfOk result (λ it. it.new ≡ not (knows bytes.items self.old)) }
        ensures known { IsTrue (knows bytes.items self.old) → IsOk result }
        ensures err { OnErr result (self.new ≡ self.old) }
    {
        if reserve(&mut self.newest, &mut self.older).is_err() {
            return match self.place_of(bytes.as_slice()) {
                Some(place) => Ok(Posted { place, new: false }),
                None => Err(AllocError),
            };
        }
        let front = front_of(bytes.as_slice());
        let (index, new) = self.strings.insert_full(bytes)?;
        let place = index as u64 + 1;
        if new {
            join(&mut self.newest, &mut self.older, front, place);
        }
        Ok(Posted { place, new })
    }

    /// The place of the newest string of this front, `None` exactly where none has it.
    pub fn newest_with(&self, front: u64) -> Option<u64>
        ensures { result ≡ newest_with front self.now }
    {
        newest_in(&self.newest, front)
    }

    /// The place of the newest string that has the front of the one at this place and came before it, `None` exactly where
    /// none did.
    pub fn older_with(&self, place: u64) -> Option<u64>
        requires { (1 ≤ place) × (place ≤ length self.now) }
        ensures { (bytes : List ℕ) → bytes_at place self.now ≡ Some bytes
            → result ≡ newest_with (front_of bytes) (net_before place self.now) }
    {
        self.older[(place - 1) as usize]
    }
}
