//! The disk of the real program: files below a folder of the system.
ghost use Rattle.std.specs.Prelude.{◌≡◌, ◌≤◌, Option, None, ℕ, length, true, false, IfOk, IsErrOf};
ghost use Rattle.ais_values.specs.Causes.{one_more, RoseExactlyOn};
ghost use Rattle.disk_model.specs.Counts.{Counts, Counters, no_calls, read_more, reaches};
ghost use Rattle.disk_model.specs.declared.answers.DiskAnswer.{DiskAnswer};
ghost use Rattle.disk_model.specs.declared.answers.DiskFault.{DiskFault};

use crate::folders::{self, PATH_BYTES, Root, path_of};
use crate::kept_files::KeptFiles;
use crate::tally::Tally;
use crate::walk::all_names;
use crate::{DiskAnswer, DiskFault, SharedDisk};
use ais_values::{Seq, Text};
use std::alloc::Global;
use std::io;
use std::marker::Model;
use std::rt::Files;

/// The files below a root folder of the current folder. It tells nothing of them.
///
/// A name is the path below that folder: 1 byte or more, each from 32 to 126, its parts between slashes
/// neither empty nor `.` nor `..`; any other name is that of no file, which `len` tells and every other call
/// takes for a fault. Missing folders are made. A symbolic link and any other thing that is neither a file nor
/// a folder is a fault, and so is a `read` or `write_at` of a file that does not stand.
///
/// `sync` has the system write the file through to its device. `create`, `rename` and `remove` sync the
/// folders whose names they changed, and `create` each folder above one that it made; where the system
/// cannot sync a folder, the change of the name is as durable as the system makes it by itself. What a
/// device does behind the system's back is not known.
///
/// The files that were changed last stay open, at most 8, so that a file that is written again is not looked for
/// again. So another program may read the files, but what it does to the names and lengths of these is not seen.
///
/// Where it was armed to stop in a `write_at`, it writes half of the bytes, rounded down, if it can, and stops; in
/// another call it does nothing and stops. A crash leaves the files as they are. Both close all files.
///
/// Contracts see what it counts.
#[derive(Drop)]
pub struct DirDisk<R: Files + Drop> {
    rt: R,
    root: Root,
    kept: KeptFiles<R>,
    tally: Tally,
    faults: u64,
    stops: u64,
}

impl<R: Files + Drop> Model for DirDisk<R> {
    ghost use Rattle.disk_model.specs.Counts.{Counters};

    ghost Value = { Counters };

    ghost view = { λ disk. record { faults = disk.faults; stops = disk.stops; tally = disk.tally } };
}

impl<R: Files + AllocGlobal + Drop> DirDisk<R> {
    /// The disk of this runtime's file system below this root, not armed.
    pub fn new(rt: R, root: Root) -> DirDisk<R>
        ensures { result ≡ record { faults = 0; stops = 0; tally = no_calls } }
    {
        let kept = KeptFiles::new(rt.alloc(), root);
        DirDisk {
            rt,
            root,
            kept,
            tally: Tally::new(),
            faults: 0,
            stops: 0,
        }
    }

    // Counts a reading call.
    fn count_read(&mut self)
        ensures { self.new ≡ record self.old { tally = read_more 1 self.old.tally } }
    {
        self.tally.read();
    }

    // Counts a fault.
    fn count_fault(&mut self)
        ensures later { self.old.faults ≤ self.new.faults }
        ensures counted { self.new ≡ record self.old { faults = one_more self.old.faults } }
    {
        self.faults = self.faults.saturating_add(1);
    }

    // The answer of a changing call at which the disk stops. No file is open then.
    fn stop(&mut self) -> Result<(), DiskAnswer>
        requires { reaches 1 self.old.tally.armed ≡ true }
        ensures cause { RoseExactlyOn self.old.faults self.new.faults result DiskAnswer.Failed }
        ensures stop { RoseExactlyOn self.old.stops self.new.stops result DiskAnswer.Stopped }
        ensures counted { Counts result self.old.tally self.new.tally }
    {
        self.kept.close_all();
        self.tally.stop();
        self.stops = self.stops.saturating_add(1);
        Err(DiskAnswer::Stopped)
    }

    // The answer to what the system said of a changing call.
    fn told(&mut self, said: io::Result<()>) -> Result<(), DiskAnswer>
        requires { reaches 1 self.old.tally.armed ≡ false }
        ensures cause { RoseExactlyOn self.old.faults self.new.faults result DiskAnswer.Failed }
        ensures stop { RoseExactlyOn self.old.stops self.new.stops result DiskAnswer.Stopped }
        ensures counted { Counts result self.old.tally self.new.tally }
    {
        self.tally.pass();
        match said {
            Ok(()) => Ok(()),
            Err(_) => {
                self.count_fault();
                Err(DiskAnswer::Failed)
            }
        }
    }
}

impl<R: Files + AllocGlobal + Clone + Drop> SharedDisk for DirDisk<R> {
    ghost seen = { λ disk. record {
      files = None;
      tally = disk.tally;
      faults = disk.faults;
      stops = disk.stops;
    } };

    fn names(&mut self, alloc: Global) -> Result<Seq<Text>, DiskAnswer> {
        self.count_read();
        match all_names(&self.rt, alloc, self.root) {
            Ok(names) => Ok(names),
            Err(DiskAnswer::Memory) => Err(DiskAnswer::Memory),
            Err(_) => {
                self.count_fault();
                Err(DiskAnswer::Failed)
            }
        }
    }

    fn len(&mut self, name: &[u8]) -> Result<Option<u64>, DiskFault> {
        self.count_read();
        let mut buffer = [0; PATH_BYTES];
        let found = match path_of(self.root, name, &mut buffer) {
            Some(path) => folders::look(&self.rt, self.root, path),
            None => Ok(None),
        };
        match found {
            Ok(None) => Ok(None),
            Ok(Some(file)) => Ok(Some(file.len())),
            Err(_) => {
                self.count_fault();
                Err(DiskFault::Failed)
            }
        }
    }

    fn read(&mut self, name: &[u8], at: u64, buf: &mut [u8]) -> Result<usize, DiskFault> {
        self.count_read();
        let mut buffer = [0; PATH_BYTES];
        let count = match path_of(self.root, name, &mut buffer) {
            Some(path) => folders::read(&self.rt, self.root, path, at, buf),
            None => Err(io::Error::from(io::ErrorKind::InvalidFilename)),
        };
        match count {
            Ok(count) => Ok(count),
            Err(_) => {
                self.count_fault();
                Err(DiskFault::Failed)
            }
        }
    }

    fn create(&mut self, name: &[u8]) -> Result<(), DiskAnswer> {
        if self.tally.stops_next() {
            return self.stop();
        }
        let said = self.kept.create(&self.rt, self.rt.alloc(), name);
        self.told(said)
    }

    fn write_at(&mut self, name: &[u8], at: u64, bytes: &[u8]) -> Result<(), DiskAnswer> {
        let alloc = self.rt.alloc();
        if self.tally.stops_next() {
            let _ = self
                .kept
                .write_at(&self.rt, alloc, name, at, &bytes[..bytes.len() / 2]);
            return self.stop();
        }
        let said = self.kept.write_at(&self.rt, alloc, name, at, bytes);
        self.told(said)
    }

    fn cut(&mut self, name: &[u8], len: u64) -> Result<(), DiskAnswer> {
        if self.tally.stops_next() {
            return self.stop();
        }
        let said = self.kept.cut(&self.rt, self.rt.alloc(), name, len);
        self.told(said)
    }

    fn sync(&mut self, name: &[u8]) -> Result<(), DiskAnswer> {
        if self.tally.stops_next() {
            return self.stop();
        }
        let said = self.kept.sync(&self.rt, self.rt.alloc(), name);
        self.told(said)
    }

    fn rename(&mut self, from: &[u8], to: &[u8]) -> Result<(), DiskAnswer> {
        if self.tally.stops_next() {
            return self.stop();
        }
        self.kept.close(from);
        self.kept.close(to);
        let mut before = [0; PATH_BYTES];
        let mut after = [0; PATH_BYTES];
        let said = match (
            path_of(self.root, from, &mut before),
            path_of(self.root, to, &mut after),
        ) {
            (Some(from), Some(to)) => folders::rename(&self.rt, self.root, from, to),
            _ => Err(io::Error::from(io::ErrorKind::InvalidFilename)),
        };
        self.told(said)
    }

    fn remove(&mut self, name: &[u8]) -> Result<(), DiskAnswer> {
        if self.tally.stops_next() {
            return self.stop();
        }
        self.kept.close(name);
        let mut buffer = [0; PATH_BYTES];
        let said = match path_of(self.root, name, &mut buffer) {
            Some(path) => folders::remove(&self.rt, self.root, path),
            None => Err(io::Error::from(io::ErrorKind::InvalidFilename)),
        };
        self.told(said)
    }

    fn crash(&mut self) {
        self.kept.close_all();
    }

    fn arm(&mut self, left: u64) {
        self.tally.arm(left);
    }

    fn disarm(&mut self) {
        self.tally.disarm();
    }
}
