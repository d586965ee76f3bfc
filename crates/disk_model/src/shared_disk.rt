//! A disk with named files, as the servers see it.
ghost use Rattle.std.specs.Prelude.{◌≡◌, ◌≤◌, List, length, option_map, IfOk, IfSome, OnOk, IsErrOf};
ghost use Rattle.std.specs.FinMap as map;
ghost use Rattle.ais_values.specs.Causes.{RoseExactlyOn};
ghost use Rattle.ais_values.specs.Texts.{IsText};
ghost use Rattle.disk_model.specs.Counts.{Counts, read_more, armed_at, disarmed};
ghost use Rattle.disk_model.specs.Disk.{created, written_at, shortened, synced, renamed, removed, length_of, bytes_at, Gives};
ghost use Rattle.disk_model.specs.Failures.{WhereTold, Crashed, ThenCrashed, LeftByCreate, LeftByWrite, LeftByCut, LeftBySync, LeftByRename, LeftByRemove};
ghost use Rattle.disk_model.specs.Seen.{DiskSeen};
ghost use Rattle.disk_model.specs.declared.answers.DiskAnswer.{DiskAnswer};
ghost use Rattle.disk_model.specs.declared.answers.DiskFault.{DiskFault};

use crate::{DiskAnswer, DiskFault};
use ais_values::{Seq, Text};
use std::alloc::Global;

/// A disk that servers share: files by names, which are byte strings of at most 16,384 bytes.
///
/// A changing call (`create`, `write_at`, `cut`, `sync`, `rename`, `remove`) is done where it answers `Ok`.
/// Where it answers `Memory` no file was changed. Where it answers `Failed` it may have been done in part, as
/// its clause says. Where it answers `Stopped` it may too, and then the disk crashed, as `crash` says. Of every
/// call, `Failed` comes exactly where the count of faults rose, and on every other answer the count stands;
/// `Stopped` comes exactly where the count of stops rose, and only from a changing call.
///
/// A disk that is armed stops at the changing call of a number: each changing call that does not answer
/// `Memory` lowers the armed count by 1, and the one in which it reaches 0 answers `Stopped`; the disk is not
/// armed any more then. The disk counts its calls: each changing call is one more of these and each reading
/// call (`names`, `len`, `read`) one more of those, whatever it answers.
pub trait SharedDisk {
    /// What is seen of the disk: its files, where it tells them, and its counts.
    ghost seen: { Self → DiskSeen };

    /// The names of all files, in byte order.
    fn names(&mut self, alloc: Global) -> Result<Seq<Text>, DiskAnswer>
        ensures listed { IfOk result (λ names. IfSome (seen self.old).files
            (λ f. names ≡ map.keys f)) }
        ensures same { (seen self.new).files ≡ (seen self.old).files }
        ensures cause { RoseExactlyOn (seen self.old).faults (seen self.new).faults result
            DiskAnswer.Failed }
        ensures never_stopped { IsErrOf result DiskAnswer.Stopped → ⊥ }
        ensures stops_stay { (seen self.new).stops ≡ (seen self.old).stops }
        ensures counted { (seen self.new).tally ≡ read_more 1 (seen self.old).tally };

    /// The length of a file in bytes; `None` exactly where no file has that name.
    fn len(&mut self, name: &[u8]) -> Result<Option<u64>, DiskFault>
        ensures told { IfOk result (λ len. IfSome (seen self.old).files
            (λ f. len ≡ length_of f name.now)) }
        ensures same { (seen self.new).files ≡ (seen self.old).files }
        ensures cause { RoseExactlyOn (seen self.old).faults (seen self.new).faults result
            DiskFault.Failed }
        ensures stops_stay { (seen self.new).stops ≡ (seen self.old).stops }
        ensures counted { (seen self.new).tally ≡ read_more 1 (seen self.old).tally };

    /// Reads the bytes that stand from a place on, all that fit into the buffer, and answers their number.
    ///
    /// A disk that tells its files gives no bytes of an absent name.
    fn read(&mut self, name: &[u8], at: u64, buf: &mut [u8]) -> Result<usize, DiskFault>
        ensures bound { IfOk result (λ count. count ≤ length buf.old) }
        ensures told { IfOk result (λ count. IfSome (seen self.old).files (λ f.
            Gives count buf.old buf.new (bytes_at f name.now at (length buf.old)))) }
        ensures same { (seen self.new).files ≡ (seen self.old).files }
        ensures cause { RoseExactlyOn (seen self.old).faults (seen self.new).faults result
            DiskFault.Failed }
        ensures stops_stay { (seen self.new).stops ≡ (seen self.old).stops }
        ensures counted { (seen self.new).tally ≡ read_more 1 (seen self.old).tally };

    /// Makes an empty file of that name; an old one is replaced. A failed call was done wholly or not at all.
    fn create(&mut self, name: &[u8]) -> Result<(), DiskAnswer>
        requires { IsText name.now }
        ensures done { OnOk result ((seen self.new).files
            ≡ option_map (λ f. created f name.now) (seen self.old).files) }
        ensures memory { IsErrOf result DiskAnswer.Memory →
            (seen self.new).files ≡ (seen self.old).files }
        ensures failed { IsErrOf result DiskAnswer.Failed →
            WhereTold (LeftByCreate name.now) (seen self.old).files (seen self.new).files }
        ensures stopped { IsErrOf result DiskAnswer.Stopped →
            WhereTold (ThenCrashed (LeftByCreate name.now))
            (seen self.old).files (seen self.new).files }
        ensures cause { RoseExactlyOn (seen self.old).faults (seen self.new).faults result
            DiskAnswer.Failed }
        ensures stop { RoseExactlyOn (seen self.old).stops (seen self.new).stops result
            DiskAnswer.Stopped }
        ensures counted { Counts result (seen self.old).tally (seen self.new).tally };

    /// Puts bytes at a place of a file, over what stands there and past its end. Their range is loose until
    /// the next `sync`. Where the name is absent or the place is past the file's end, nothing changes.
    ///
    /// After a failed call the range holds any bytes and stays loose, and the file's length is any
    /// between the old one and the new one.
    fn write_at(&mut self, name: &[u8], at: u64, bytes: &[u8]) -> Result<(), DiskAnswer>
        ensures done { OnOk result ((seen self.new).files
            ≡ option_map (λ f. written_at f name.now at bytes.now) (seen self.old).files) }
        ensures memory { IsErrOf result DiskAnswer.Memory →
            (seen self.new).files ≡ (seen self.old).files }
        ensures failed { IsErrOf result DiskAnswer.Failed →
            WhereTold (LeftByWrite name.now at bytes.now)
            (seen self.old).files (seen self.new).files }
        ensures stopped { IsErrOf result DiskAnswer.Stopped →
            WhereTold (ThenCrashed (LeftByWrite name.now at bytes.now))
            (seen self.old).files (seen self.new).files }
        ensures cause { RoseExactlyOn (seen self.old).faults (seen self.new).faults result
            DiskAnswer.Failed }
        ensures stop { RoseExactlyOn (seen self.old).stops (seen self.new).stops result
            DiskAnswer.Stopped }
        ensures counted { Counts result (seen self.old).tally (seen self.new).tally };

    /// Keeps at most so many bytes of a file. What was cut off is not gone for good before the next `sync`: until
    /// then a crash may bring it back, as any bytes. Where the name is absent nothing changes.
    ///
    /// After a failed call the file's length is any between the old one and the new one.
    fn cut(&mut self, name: &[u8], len: u64) -> Result<(), DiskAnswer>
        ensures done { OnOk result ((seen self.new).files
            ≡ option_map (λ f. shortened f name.now len) (seen self.old).files) }
        ensures memory { IsErrOf result DiskAnswer.Memory →
            (seen self.new).files ≡ (seen self.old).files }
        ensures failed { IsErrOf result DiskAnswer.Failed →
            WhereTold (LeftByCut name.now len) (seen self.old).files (seen self.new).files }
        ensures stopped { IsErrOf result DiskAnswer.Stopped →
            WhereTold (ThenCrashed (LeftByCut name.now len))
            (seen self.old).files (seen self.new).files }
        ensures cause { RoseExactlyOn (seen self.old).faults (seen self.new).faults result
            DiskAnswer.Failed }
        ensures stop { RoseExactlyOn (seen self.old).stops (seen self.new).stops result
            DiskAnswer.Stopped }
        ensures counted { Counts result (seen self.old).tally (seen self.new).tally };

    /// Makes all bytes of a file durable: it has no loose range then. Of an absent name nothing changes.
    ///
    /// After a failed call the file's loose ranges hold any bytes and stay loose, and its length is any
    /// between the one when it last had no loose range and the present one.
    fn sync(&mut self, name: &[u8]) -> Result<(), DiskAnswer>
        ensures done { OnOk result ((seen self.new).files
            ≡ option_map (λ f. synced f name.now) (seen self.old).files) }
        ensures memory { IsErrOf result DiskAnswer.Memory →
            (seen self.new).files ≡ (seen self.old).files }
        ensures failed { IsErrOf result DiskAnswer.Failed →
            WhereTold (LeftBySync name.now) (seen self.old).files (seen self.new).files }
        ensures stopped { IsErrOf result DiskAnswer.Stopped →
            WhereTold (ThenCrashed (LeftBySync name.now))
            (seen self.old).files (seen self.new).files }
        ensures cause { RoseExactlyOn (seen self.old).faults (seen self.new).faults result
            DiskAnswer.Failed }
        ensures stop { RoseExactlyOn (seen self.old).stops (seen self.new).stops result
            DiskAnswer.Stopped }
        ensures counted { Counts result (seen self.old).tally (seen self.new).tally };

    /// Gives a file another name, with its loose ranges; a file of that name is replaced. Where the file is
    /// absent, or both names are equal, nothing changes. A failed call was done wholly or not at all.
    fn rename(&mut self, from: &[u8], to: &[u8]) -> Result<(), DiskAnswer>
        requires { IsText to.now }
        ensures done { OnOk result ((seen self.new).files
            ≡ option_map (λ f. renamed f from.now to.now) (seen self.old).files) }
        ensures memory { IsErrOf result DiskAnswer.Memory →
            (seen self.new).files ≡ (seen self.old).files }
        ensures failed { IsErrOf result DiskAnswer.Failed →
            WhereTold (LeftByRename from.now to.now) (seen self.old).files (seen self.new).files }
        ensures stopped { IsErrOf result DiskAnswer.Stopped →
            WhereTold (ThenCrashed (LeftByRename from.now to.now))
            (seen self.old).files (seen self.new).files }
        ensures cause { RoseExactlyOn (seen self.old).faults (seen self.new).faults result
            DiskAnswer.Failed }
        ensures stop { RoseExactlyOn (seen self.old).stops (seen self.new).stops result
            DiskAnswer.Stopped }
        ensures counted { Counts result (seen self.old).tally (seen self.new).tally };

    /// Removes a file. Where it is absent nothing changes. A failed call was done wholly or not at all.
    fn remove(&mut self, name: &[u8]) -> Result<(), DiskAnswer>
        ensures done { OnOk result ((seen self.new).files
            ≡ option_map (λ f. removed f name.now) (seen self.old).files) }
        ensures memory { IsErrOf result DiskAnswer.Memory →
            (seen self.new).files ≡ (seen self.old).files }
        ensures failed { IsErrOf result DiskAnswer.Failed →
            WhereTold (LeftByRemove name.now) (seen self.old).files (seen self.new).files }
        ensures stopped { IsErrOf result DiskAnswer.Stopped →
            WhereTold (ThenCrashed (LeftByRemove name.now))
            (seen self.old).files (seen self.new).files }
        ensures cause { RoseExactlyOn (seen self.old).faults (seen self.new).faults result
            DiskAnswer.Failed }
        ensures stop { RoseExactlyOn (seen self.old).stops (seen self.new).stops result
            DiskAnswer.Stopped }
        ensures counted { Counts result (seen self.old).tally (seen self.new).tally };

    /// A crash: each loose range holds any bytes, each file's length is any between the one when it last had no
    /// loose range and the present one, and nothing is loose. It counts as no call.
    fn crash(&mut self)
        ensures torn { WhereTold Crashed (seen self.old).files (seen self.new).files }
        ensures faults_stay { (seen self.new).faults ≡ (seen self.old).faults }
        ensures stops_stay { (seen self.new).stops ≡ (seen self.old).stops }
        ensures counted { (seen self.new).tally ≡ (seen self.old).tally };

    /// Arms the disk: the changing call of this number from now on stops it. It counts as no call.
    fn arm(&mut self, left: u64)
        requires { 1 ≤ left }
        ensures same { (seen self.new).files ≡ (seen self.old).files }
        ensures faults_stay { (seen self.new).faults ≡ (seen self.old).faults }
        ensures stops_stay { (seen self.new).stops ≡ (seen self.old).stops }
        ensures counted { (seen self.new).tally ≡ armed_at left (seen self.old).tally };

    /// Takes the arm away. It counts as no call.
    fn disarm(&mut self)
        ensures same { (seen self.new).files ≡ (seen self.old).files }
        ensures faults_stay { (seen self.new).faults ≡ (seen self.old).faults }
        ensures stops_stay { (seen self.new).stops ≡ (seen self.old).stops }
        ensures counted { (seen self.new).tally ≡ disarmed (seen self.old).tally };
}
