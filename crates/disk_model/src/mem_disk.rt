//! A disk in memory, told in advance which of its calls fail.
ghost use Rattle.std.specs.Prelude.{◌≡◌, ◌≤◌, List, ℕ, length, Option, Some, option_map, true, false, IfOk, IfSome, OnOk, OnErr, IsErrOf};
ghost use Rattle.std.specs.FinMap as map;
ghost use Rattle.ais_values.specs.Causes.{one_more, RoseExactlyOn};
ghost use Rattle.ais_values.specs.Texts.{IsText};
ghost use Rattle.disk_model.specs.Counts.{Counts, passed, stopped, read_more, armed_at, disarmed};
ghost use Rattle.disk_model.specs.Disk.{Files, created, written_at, shortened, synced, renamed, removed, adjusted, length_of, bytes_at, Gives};
ghost use Rattle.disk_model.specs.Failures.{WhereTold, Crashed, ThenCrashed, LeftByCreate, LeftByWrite, LeftByCut, LeftBySync, LeftByRename, LeftByRemove};
ghost use Rattle.disk_model.specs.Memory.{Changes, Reads, ReadsAt, fresh_disk, with_settled, crashed, fails_next, read_fails_next, file_torn_by_write, file_torn_by_sync, files_crashed};
ghost use Rattle.disk_model.specs.declared.answers.DiskAnswer.{DiskAnswer};
ghost use Rattle.disk_model.specs.declared.answers.DiskFault.{DiskFault};

use crate::shelf::Shelf;
use crate::stored_file::StoredFile;
use crate::tally::Tally;
use crate::{DiskAnswer, DiskFault, SharedDisk};
use ais_values::{Seq, Text};
use std::alloc::{AllocError, Global};
use std::marker::Model;

/// A disk in memory. It fails exactly the calls that it was told to fail, and stops exactly where it was armed to.
///
/// Its changing calls (`create`, `write_at`, `cut`, `sync`, `rename`, `remove`) and its reading calls (`names`,
/// `len`, `read`) are numbered from 1, each kind for itself, whatever they answer. A failed `create`, `rename` or
/// `remove` is not done, and a failed `cut` is. A failed `write_at` leaves its range torn, and keeps half of the
/// file's growth, rounded down. A failed `sync` leaves the file's loose ranges torn, and keeps half of its growth
/// since nothing was loose. In a torn range the byte at place i, from the range's start, is the (i modulo length)-th
/// torn byte, or 0 where there are none.
///
/// A crash leaves each file as a failed `sync` does, and nothing is loose then. Where the disk stops in a `write_at` or
/// `cut` it crashes as if that had been done, and in another call as if it had not been made; so also in a call that it
/// was told to fail.
///
/// Only `names`, `create`, `write_at` and `rename` take memory.
#[derive(Drop)]
pub struct MemDisk {
    alloc: Global,
    shelf: Shelf,
    tally: Tally,
    faults: u64,
    stops: u64,
    failing: Vec<u64>,
    failing_reads: Vec<u64>,
    torn: Vec<u8>,
}

impl Model for MemDisk {
    ghost use Rattle.disk_model.specs.Memory.{MemState};
    ghost use Rattle.disk_model.specs.Stored.{state_code};

    ghost Value = { MemState };

    ghost coded = { state_code };

    ghost view = { λ disk. record {
      files = disk.shelf;
      tally = disk.tally;
      faults = disk.faults;
      stops = disk.stops;
      failing = disk.failing.items;
      failing_reads = disk.failing_reads.items;
      torn = disk.torn.items;
    } };
}

impl MemDisk {
    /// A disk without files, not armed, of which these changing calls and these reading calls fail, and whose torn
    /// ranges hold these bytes in turn.
    pub fn new(alloc: Global, failing: Vec<u64>, failing_reads: Vec<u64>, torn: Vec<u8>) -> MemDisk
        ensures { result ≡ fresh_disk failing.items failing_reads.items torn.items }
    {
        MemDisk {
            alloc,
            shelf: Shelf::new(alloc),
            tally: Tally::new(),
            faults: 0,
            stops: 0,
            failing,
            failing_reads,
            torn,
        }
    }

    /// Puts a file with these bytes on the disk, of which nothing is loose. It counts as no call.
    pub fn hold(&mut self, name: &[u8], bytes: Vec<u8>) -> Result<(), AllocError>
        requires { IsText name.now }
        ensures ok { OnOk result (self.new ≡ with_settled self.old name.now bytes.items) }
        ensures err { OnErr result (self.new ≡ self.old) }
    {
        let file = StoredFile::holding(self.alloc, bytes);
        self.shelf.put(self.alloc, name, file)
    }

    // Whether the next changing call is one that was told to fail.
    fn fails(&self) -> bool
        ensures { result ≡ fails_next self.now }
    {
        self.failing
            .contains(&self.tally.changing.saturating_add(1))
    }

    // Whether the next reading call is one.
    fn read_fails(&self) -> bool
        ensures { result ≡ read_fails_next self.now }
    {
        self.failing_reads
            .contains(&self.tally.reading.saturating_add(1))
    }

    // Counts a reading call.
    fn count_read(&mut self)
        ensures { self.new ≡ record self.old { tally = read_more 1 self.old.tally } }
    {
        self.tally.read();
    }

    // Counts a fault.
    fn count_fault(&mut self)
        ensures counted { self.new ≡ record self.old { faults = one_more self.old.faults } }
        ensures later { self.old.faults ≤ self.new.faults }
    {
        self.faults = self.faults.saturating_add(1);
    }

    // The disk crashes in a changing call.
    fn stop(&mut self)
        ensures counted { self.new ≡ record self.old {
          files = files_crashed self.old.torn self.old.files;
          tally = stopped 1 self.old.tally;
          stops = one_more self.old.stops;
        } }
        ensures later { self.old.stops ≤ self.new.stops }
    {
        self.shelf.crash(self.torn.as_slice());
        self.tally.stop();
        self.stops = self.stops.saturating_add(1);
    }
}

impl SharedDisk for MemDisk {
    ghost seen = { λ disk. record {
      files = Some disk.files;
      tally = disk.tally;
      faults = disk.faults;
      stops = disk.stops;
    } };

    fn names(&mut self, alloc: Global) -> Result<Seq<Text>, DiskAnswer>
        ensures exact { Reads result self.old self.new }
        ensures listed { IfOk result (λ names. names ≡ map.keys self.old.files) }
        ensures cause { RoseExactlyOn self.old.faults self.new.faults result DiskAnswer.Failed }
        ensures never_stopped { IsErrOf result DiskAnswer.Stopped → ⊥ }
        ensures counted { self.new.tally ≡ read_more 1 self.old.tally }
        ensures stops_stay { self.new.stops ≡ self.old.stops }
    {
        let fails = self.read_fails();
        self.count_read();
        if fails {
            self.count_fault();
            return Err(DiskAnswer::Failed);
        }
        let names = self.shelf.names(alloc)?;
        Ok(names)
    }

    fn len(&mut self, name: &[u8]) -> Result<Option<u64>, DiskFault>
        ensures exact { ReadsAt result self.old self.new }
        ensures told { IfOk result (λ len. len ≡ length_of self.old.files name.now) }
        ensures cause { RoseExactlyOn self.old.faults self.new.faults result DiskFault.Failed }
        ensures counted { self.new.tally ≡ read_more 1 self.old.tally }
        ensures stops_stay { self.new.stops ≡ self.old.stops }
    {
        let fails = self.read_fails();
        self.count_read();
        if fails {
            self.count_fault();
            return Err(DiskFault::Failed);
        }
        match self.shelf.find(name) {
            None => Ok(None),
            Some(file) => Ok(Some(file.len())),
        }
    }

    fn read(&mut self, name: &[u8], at: u64, buf: &mut [u8]) -> Result<usize, DiskFault>
        ensures exact { ReadsAt result self.old self.new }
        ensures told { IfOk result (λ count. Gives count buf.old buf.new
            (bytes_at self.old.files name.now at (length buf.old))) }
        ensures cause { RoseExactlyOn self.old.faults self.new.faults result DiskFault.Failed }
        ensures counted { self.new.tally ≡ read_more 1 self.old.tally }
        ensures stops_stay { self.new.stops ≡ self.old.stops }
    {
        let fails = self.read_fails();
        self.count_read();
        if fails {
            self.count_fault();
            return Err(DiskFault::Failed);
        }
        match self.shelf.find(name) {
            None => Ok(0),
            Some(file) => Ok(file.read(at, buf)),
        }
    }

    fn create(&mut self, name: &[u8]) -> Result<(), DiskAnswer>
        requires { IsText name.now }
        ensures exact { Changes result (λ f. created f name.now) (λ f. f)
            (λ f. f) self.old self.new }
        ensures stopped { IsErrOf result DiskAnswer.Stopped
            → ThenCrashed (LeftByCreate name.now) self.old.files self.new.files }
        ensures cause { RoseExactlyOn self.old.faults self.new.faults result DiskAnswer.Failed }
        ensures stop { RoseExactlyOn self.old.stops self.new.stops result DiskAnswer.Stopped }
        ensures counted { Counts result self.old.tally self.new.tally }
    {
        if self.tally.stops_next() {
            self.stop();
            return Err(DiskAnswer::Stopped);
        }
        if self.fails() {
            self.tally.pass();
            self.count_fault();
            return Err(DiskAnswer::Failed);
        }
        let file = StoredFile::new(self.alloc);
        match self.shelf.put(self.alloc, name, file) {
            Ok(()) => {
                self.tally.pass();
                Ok(())
            }
            Err(_) => {
                self.tally.ask();
                Err(DiskAnswer::Memory)
            }
        }
    }

    fn write_at(&mut self, name: &[u8], at: u64, bytes: &[u8]) -> Result<(), DiskAnswer>
        ensures exact { Changes result (λ f. written_at f name.now at bytes.now) (λ f. written_at f
            name.now at bytes.now) (λ f. adjusted (file_torn_by_write self.old.torn at bytes.now) f
            name.now) self.old self.new }
        ensures left { IsErrOf result DiskAnswer.Failed
            → LeftByWrite name.now at bytes.now self.old.files self.new.files }
        ensures stopped { IsErrOf result DiskAnswer.Stopped
            → ThenCrashed (LeftByWrite name.now at bytes.now) self.old.files self.new.files }
        ensures cause { RoseExactlyOn self.old.faults self.new.faults result DiskAnswer.Failed }
        ensures stop { RoseExactlyOn self.old.stops self.new.stops result DiskAnswer.Stopped }
        ensures counted { Counts result self.old.tally self.new.tally }
    {
        if self.tally.stops_next() {
            match self.shelf.write_at(name, at, bytes) {
                Ok(()) => {
                    self.stop();
                    return Err(DiskAnswer::Stopped);
                }
                Err(_) => {
                    self.tally.ask();
                    return Err(DiskAnswer::Memory);
                }
            }
        }
        if self.fails() {
            match self.shelf.tear_write(name, at, bytes, self.torn.as_slice()) {
                Ok(()) => {
                    self.tally.pass();
                    self.count_fault();
                    return Err(DiskAnswer::Failed);
                }
                Err(_) => {
                    self.tally.ask();
                    return Err(DiskAnswer::Memory);
                }
            }
        }
        match self.shelf.write_at(name, at, bytes) {
            Ok(()) => {
                self.tally.pass();
                Ok(())
            }
            Err(_) => {
                self.tally.ask();
                Err(DiskAnswer::Memory)
            }
        }
    }

    fn cut(&mut self, name: &[u8], len: u64) -> Result<(), DiskAnswer>
        ensures exact { Changes result (λ f. shortened f name.now len)
            (λ f. shortened f name.now len) (λ f. shortened f name.now len) self.old self.new }
        ensures left { IsErrOf result DiskAnswer.Failed
            → LeftByCut name.now len self.old.files self.new.files }
        ensures stopped { IsErrOf result DiskAnswer.Stopped
            → ThenCrashed (LeftByCut name.now len) self.old.files self.new.files }
        ensures never_memory { IsErrOf result DiskAnswer.Memory → ⊥ }
        ensures cause { RoseExactlyOn self.old.faults self.new.faults result DiskAnswer.Failed }
        ensures stop { RoseExactlyOn self.old.stops self.new.stops result DiskAnswer.Stopped }
        ensures counted { Counts result self.old.tally self.new.tally }
    {
        let stops = self.tally.stops_next();
        let fails = self.fails();
        self.shelf.cut(name, len);
        if stops {
            self.stop();
            return Err(DiskAnswer::Stopped);
        }
        self.tally.pass();
        if fails {
            self.count_fault();
            return Err(DiskAnswer::Failed);
        }
        Ok(())
    }

    fn sync(&mut self, name: &[u8]) -> Result<(), DiskAnswer>
        ensures exact { Changes result (λ f. synced f name.now) (λ f. f)
            (λ f. adjusted (file_torn_by_sync self.old.torn) f name.now) self.old self.new }
        ensures left { IsErrOf result DiskAnswer.Failed
            → LeftBySync name.now self.old.files self.new.files }
        ensures stopped { IsErrOf result DiskAnswer.Stopped
            → ThenCrashed (LeftBySync name.now) self.old.files self.new.files }
        ensures never_memory { IsErrOf result DiskAnswer.Memory → ⊥ }
        ensures cause { RoseExactlyOn self.old.faults self.new.faults result DiskAnswer.Failed }
        ensures stop { RoseExactlyOn self.old.stops self.new.stops result DiskAnswer.Stopped }
        ensures counted { Counts result self.old.tally self.new.tally }
    {
        if self.tally.stops_next() {
            self.stop();
            return Err(DiskAnswer::Stopped);
        }
        let fails = self.fails();
        self.tally.pass();
        if fails {
            self.shelf.tear_sync(name, self.torn.as_slice());
            self.count_fault();
            return Err(DiskAnswer::Failed);
        }
        self.shelf.sync(name);
        Ok(())
    }

    fn rename(&mut self, from: &[u8], to: &[u8]) -> Result<(), DiskAnswer>
        requires { IsText to.now }
        ensures exact { Changes result (λ f. renamed f from.now to.now) (λ f. f)
            (λ f. f) self.old self.new }
        ensures stopped { IsErrOf result DiskAnswer.Stopped
            → ThenCrashed (LeftByRename from.now to.now) self.old.files self.new.files }
        ensures cause { RoseExactlyOn self.old.faults self.new.faults result DiskAnswer.Failed }
        ensures stop { RoseExactlyOn self.old.stops self.new.stops result DiskAnswer.Stopped }
        ensures counted { Counts result self.old.tally self.new.tally }
    {
        if self.tally.stops_next() {
            self.stop();
            return Err(DiskAnswer::Stopped);
        }
        if self.fails() {
            self.tally.pass();
            self.count_fault();
            return Err(DiskAnswer::Failed);
        }
        match self.shelf.rename(self.alloc, from, to) {
            Ok(()) => {
                self.tally.pass();
                Ok(())
            }
            Err(_) => {
                self.tally.ask();
                Err(DiskAnswer::Memory)
            }
        }
    }

    fn remove(&mut self, name: &[u8]) -> Result<(), DiskAnswer>
        ensures exact { Changes result (λ f. removed f name.now) (λ f. f)
            (λ f. f) self.old self.new }
        ensures stopped { IsErrOf result DiskAnswer.Stopped
            → ThenCrashed (LeftByRemove name.now) self.old.files self.new.files }
        ensures never_memory { IsErrOf result DiskAnswer.Memory → ⊥ }
        ensures cause { RoseExactlyOn self.old.faults self.new.faults result DiskAnswer.Failed }
        ensures stop { RoseExactlyOn self.old.stops self.new.stops result DiskAnswer.Stopped }
        ensures counted { Counts result self.old.tally self.new.tally }
    {
        if self.tally.stops_next() {
            self.stop();
            return Err(DiskAnswer::Stopped);
        }
        let fails = self.fails();
        self.tally.pass();
        if fails {
            self.count_fault();
            return Err(DiskAnswer::Failed);
        }
        let _ = self.shelf.take(name);
        Ok(())
    }

    fn crash(&mut self)
        ensures exact { self.new ≡ crashed self.old }
        ensures torn { Crashed self.old.files self.new.files }
    {
        self.shelf.crash(self.torn.as_slice());
    }

    fn arm(&mut self, left: u64)
        requires { 1 ≤ left }
        ensures exact { self.new ≡ record self.old { tally = armed_at left self.old.tally } }
    {
        self.tally.arm(left);
    }

    fn disarm(&mut self)
        ensures exact { self.new ≡ record self.old { tally = disarmed self.old.tally } }
    {
        self.tally.disarm();
    }
}
