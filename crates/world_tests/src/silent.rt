//! A disk that tells no files, and may give of them what it will.
ghost use Rattle.std.specs.Prelude.{None};

use ais_values::{Seq, Text};
use disk_model::{DiskAnswer, DiskFault, MemDisk, SharedDisk};
use std::alloc::Global;

/// A disk in memory of which nothing is told but its counts. It gives at most so many bytes of each file, and at one place of each file this
/// byte in place of the one that stands there.
#[derive(Drop)]
pub struct Silent {
    pub disk: MemDisk,
    pub kept: u64,
    pub place: u64,
    pub byte: u8,
}

impl SharedDisk for Silent {
    ghost seen = { λ silent. record {
      files = None;
      tally = silent.disk.tally;
      faults = silent.disk.faults;
      stops = silent.disk.stops;
    } };

    fn names(&mut self, alloc: Global) -> Result<Seq<Text>, DiskAnswer> {
        self.disk.names(alloc)
    }

    fn len(&mut self, name: &[u8]) -> Result<Option<u64>, DiskFault> {
        match self.disk.len(name) {
            Ok(Some(len)) => Ok(Some(len.min(self.kept))),
            other => other,
        }
    }

    fn read(&mut self, name: &[u8], at: u64, buf: &mut [u8]) -> Result<usize, DiskFault> {
        match self.disk.read(name, at, buf) {
            Ok(count) => {
                for (index, byte) in buf.iter_mut().enumerate() {
                    if at.saturating_add(index as u64) == self.place {
                        *byte = self.byte;
                    }
                }
                Ok(count)
            }
            Err(answer) => Err(answer),
        }
    }

    fn create(&mut self, name: &[u8]) -> Result<(), DiskAnswer> {
        self.disk.create(name)
    }

    fn write_at(&mut self, name: &[u8], at: u64, bytes: &[u8]) -> Result<(), DiskAnswer> {
        self.disk.write_at(name, at, bytes)
    }

    fn cut(&mut self, name: &[u8], len: u64) -> Result<(), DiskAnswer> {
        self.disk.cut(name, len)
    }

    fn sync(&mut self, name: &[u8]) -> Result<(), DiskAnswer> {
        self.disk.sync(name)
    }

    fn rename(&mut self, from: &[u8], to: &[u8]) -> Result<(), DiskAnswer> {
        self.disk.rename(from, to)
    }

    fn remove(&mut self, name: &[u8]) -> Result<(), DiskAnswer> {
        self.disk.remove(name)
    }

    fn crash(&mut self) {
        self.disk.crash();
    }

    fn arm(&mut self, left: u64) {
        self.disk.arm(left);
    }

    fn disarm(&mut self) {
        self.disk.disarm();
    }
}
