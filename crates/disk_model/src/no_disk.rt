//! The disk of those who have none.
ghost use Rattle.std.specs.Prelude.{◌≡◌, None, Err};
ghost use Rattle.disk_model.specs.Counts.{no_calls, asked};
ghost use Rattle.disk_model.specs.declared.answers.DiskAnswer.TheVariants.{Memory};

use crate::tally::Tally;
use crate::{DiskAnswer, DiskFault, SharedDisk};
use ais_values::{Seq, Text};
use std::alloc::Global;
use std::marker::Model;

/// A disk without room: no file stands on it, and each changing call answers `Memory`. So it never fails and never
/// stops. Where two disks are asked for and only one is there, it stands for the other.
///
/// Contracts see what it counts of its calls.
#[derive(Drop)]
pub struct NoDisk {
    tally: Tally,
}

impl Model for NoDisk {
    ghost use Rattle.disk_model.specs.declared.tally.Tally.{Tally};

    ghost Value = { Tally };

    ghost view = { λ disk. disk.tally };
}

impl NoDisk {
    /// Such a disk, not armed. What is seen of it is `none_seen` until its first call.
    pub fn new() -> NoDisk
        ensures { result ≡ no_calls }
    {
        NoDisk {
            tally: Tally::new(),
        }
    }

    // The answer of each changing call.
    fn lack(&mut self) -> Result<(), DiskAnswer>
        ensures { (result ≡ Err Memory) × (self.new ≡ asked self.old) }
    {
        self.tally.ask();
        Err(DiskAnswer::Memory)
    }
}

impl SharedDisk for NoDisk {
    ghost seen = { λ disk. record { files = None; tally = disk; faults = 0; stops = 0 } };

    fn names(&mut self, alloc: Global) -> Result<Seq<Text>, DiskAnswer> {
        self.tally.read();
        Ok(Seq::new(alloc))
    }

    fn len(&mut self, _name: &[u8]) -> Result<Option<u64>, DiskFault> {
        self.tally.read();
        Ok(None)
    }

    fn read(&mut self, _name: &[u8], _at: u64, _buf: &mut [u8]) -> Result<usize, DiskFault> {
        self.tally.read();
        Ok(0)
    }

    fn create(&mut self, _name: &[u8]) -> Result<(), DiskAnswer> {
        self.lack()
    }

    fn write_at(&mut self, _name: &[u8], _at: u64, _bytes: &[u8]) -> Result<(), DiskAnswer> {
        self.lack()
    }

    fn cut(&mut self, _name: &[u8], _len: u64) -> Result<(), DiskAnswer> {
        self.lack()
    }

    fn sync(&mut self, _name: &[u8]) -> Result<(), DiskAnswer> {
        self.lack()
    }

    fn rename(&mut self, _from: &[u8], _to: &[u8]) -> Result<(), DiskAnswer> {
        self.lack()
    }

    fn remove(&mut self, _name: &[u8]) -> Result<(), DiskAnswer> {
        self.lack()
    }

    fn crash(&mut self) {}

    fn arm(&mut self, left: u64) {
        self.tally.arm(left);
    }

    fn disarm(&mut self) {
        self.tally.disarm();
    }
}
