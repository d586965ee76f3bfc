//! A disk that reads short: each name is that of a file of five bytes, of which a read gives two.
use ais_values::{Seq, Text};
use disk_model::{DiskAnswer, DiskFault, MemDisk, SharedDisk};
use std::alloc::Global;

/// It tells no files; what is changed goes to a disk in memory, which counts the calls.
#[derive(Drop)]
pub(crate) struct ShortDisk {
    pub(crate) inner: MemDisk,
}

impl SharedDisk for ShortDisk {
    ghost use Rattle.std.specs.Prelude.{None};

    ghost seen = { λ disk. record {
      files = None;
      tally = disk.inner.tally;
      faults = disk.inner.faults;
      stops = disk.inner.stops;
    } };

    fn names(&mut self, alloc: Global) -> Result<Seq<Text>, DiskAnswer> {
        match self.inner.names(alloc) {
            Ok(_) => Ok(Seq::new(alloc)),
            Err(answer) => Err(answer),
        }
    }

    fn len(&mut self, name: &[u8]) -> Result<Option<u64>, DiskFault> {
        match self.inner.len(name) {
            Ok(_) => Ok(Some(5)),
            Err(fault) => Err(fault),
        }
    }

    fn read(&mut self, name: &[u8], at: u64, buf: &mut [u8]) -> Result<usize, DiskFault> {
        match self.inner.read(name, at, buf) {
            Ok(_) => {
                let count = buf.len().min(2);
                buf[..count].copy_from_slice(&b"ab"[..count]);
                Ok(count)
            }
            Err(fault) => Err(fault),
        }
    }

    fn create(&mut self, name: &[u8]) -> Result<(), DiskAnswer> {
        self.inner.create(name)
    }

    fn write_at(&mut self, name: &[u8], at: u64, bytes: &[u8]) -> Result<(), DiskAnswer> {
        self.inner.write_at(name, at, bytes)
    }

    fn cut(&mut self, name: &[u8], len: u64) -> Result<(), DiskAnswer> {
        self.inner.cut(name, len)
    }

    fn sync(&mut self, name: &[u8]) -> Result<(), DiskAnswer> {
        self.inner.sync(name)
    }

    fn rename(&mut self, from: &[u8], to: &[u8]) -> Result<(), DiskAnswer> {
        self.inner.rename(from, to)
    }

    fn remove(&mut self, name: &[u8]) -> Result<(), DiskAnswer> {
        self.inner.remove(name)
    }

    fn crash(&mut self) {
        self.inner.crash();
    }

    fn arm(&mut self, left: u64) {
        self.inner.arm(left);
    }

    fn disarm(&mut self) {
        self.inner.disarm();
    }
}
