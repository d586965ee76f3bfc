//! A file in memory, with what of it is loose.
ghost use Rattle.std.specs.Prelude.{◌≡◌, ◌-◌, ◌≤◌, ℕ, length, take, drop, min, OnOk, OnErr};
ghost use Rattle.disk_model.specs.Disk.{File, empty_file, settled_file, file_written, file_cut, file_synced, Gives};
ghost use Rattle.disk_model.specs.Memory.{half_grown, file_torn_by_write, file_torn_by_sync, file_crashed};

use crate::bytes::{grow, overwrite, overwrite_torn, read_from, tear_ranges};
use std::alloc::{AllocError, Global};
use std::marker::Model;

/// A file in memory. Contracts see its bytes, its loose ranges and its length when nothing was loose.
#[derive(Drop)]
pub struct StoredFile {
    bytes: Vec<u8>,
    loose: Vec<(u64, u64)>,
    settled: u64,
}

impl Model for StoredFile {
    ghost use Rattle.disk_model.specs.Disk.{File};

    ghost Value = { File };

    ghost view = { λ file. record {
      bytes = file.bytes.items;
      loose = file.loose.items;
      settled = file.settled;
    } };
}

/// How many of these bytes lie within a file of that length, where they are put at that place.
fn overlap(len: usize, at: usize, size: usize) -> usize
    requires { at ≤ len }
    ensures { result ≡ min size (len - at) }
{
    size.min(len - at)
}

/// The length when half of a growth is kept, rounded down; after a file became shorter, its new length.
fn half_kept(settled: u64, len: u64) -> u64
    ensures { result ≡ half_grown settled len }
{
    if settled >= len {
        return len;
    }
    settled + (len - settled) / 2
}

impl StoredFile {
    /// An empty file.
    pub fn new(alloc: Global) -> StoredFile
        ensures { result ≡ empty_file }
    {
        StoredFile {
            bytes: Vec::new(alloc),
            loose: Vec::new(alloc),
            settled: 0,
        }
    }

    /// A file with these bytes, of which nothing is loose.
    pub fn holding(alloc: Global, bytes: Vec<u8>) -> StoredFile
        ensures { result ≡ settled_file bytes.items }
    {
        let settled = bytes.len() as u64;
        StoredFile {
            bytes,
            loose: Vec::new(alloc),
            settled,
        }
    }

    /// The length in bytes.
    pub fn len(&self) -> u64
        ensures { result ≡ length self.now.bytes }
    {
        self.bytes.len() as u64
    }

    /// Reads what stands from a place on, as much as the buffer holds, and answers how much that is.
    pub fn read(&self, at: u64, buf: &mut [u8]) -> usize
        ensures { Gives result buf.old buf.new (take (length buf.old) (drop at self.now.bytes)) }
    {
        if at > self.bytes.len() as u64 {
            return 0;
        }
        read_from(self.bytes.as_slice(), at as usize, buf)
    }

    /// Puts bytes at a place; past the end nothing changes. Where memory runs out the file stays as it was.
    pub fn write_at(&mut self, at: u64, bytes: &[u8]) -> Result<(), AllocError>
        ensures ok { OnOk result (self.new ≡ file_written at bytes.now self.old) }
        ensures err { OnErr result (self.new ≡ self.old) }
    {
        let len = self.bytes.len();
        if at > len as u64 {
            return Ok(());
        }
        let at_byte = at as usize;
        let within = overlap(len, at_byte, bytes.len());
        let range = (at, bytes.len() as u64);
        grow(&mut self.bytes, &mut self.loose, range, &bytes[within..])?;
        overwrite(&mut self.bytes, at_byte, &bytes[..within]);
        Ok(())
    }

    /// Keeps at most so many bytes.
    pub fn cut(&mut self, len: u64)
        ensures { self.new ≡ file_cut len self.old }
    {
        self.bytes.truncate(len as usize);
    }

    /// Makes nothing of the file loose.
    pub fn sync(&mut self)
        ensures { self.new ≡ file_synced self.old }
    {
        self.loose.clear();
        self.settled = self.bytes.len() as u64;
    }

    /// A write that is broken off: its range is torn, and half of its growth is kept.
    pub fn tear_write(&mut self, at: u64, bytes: &[u8], torn: &[u8]) -> Result<(), AllocError>
        ensures ok { OnOk result (self.new ≡ file_torn_by_write torn.now at bytes.now self.old) }
        ensures err { OnErr result (self.new ≡ self.old) }
    {
        let len = self.bytes.len();
        if at > len as u64 {
            return Ok(());
        }
        let at_byte = at as usize;
        let within = overlap(len, at_byte, bytes.len());
        let kept = within + (bytes.len() - within) / 2;
        let range = (at, bytes.len() as u64);
        grow(
            &mut self.bytes,
            &mut self.loose,
            range,
            &bytes[within..kept],
        )?;
        overwrite_torn(&mut self.bytes, at_byte, kept, torn);
        Ok(())
    }

    /// A sync that is broken off: the loose ranges are torn, and half of the growth since nothing was loose
    /// is kept.
    pub fn tear_sync(&mut self, torn: &[u8])
        ensures { self.new ≡ file_torn_by_sync torn.now self.old }
    {
        tear_ranges(&mut self.bytes, self.loose.as_slice(), torn);
        let len = self.bytes.len() as u64;
        let kept = half_kept(self.settled, len);
        self.bytes.truncate(kept as usize);
    }

    /// A crash: the loose ranges are torn, half of the growth since nothing was loose is kept, and nothing is loose.
    pub fn crash(&mut self, torn: &[u8])
        ensures { self.new ≡ file_crashed torn.now self.old }
    {
        self.tear_sync(torn);
        self.sync();
    }
}
