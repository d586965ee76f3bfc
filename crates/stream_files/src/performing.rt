//! Deeds performed on a disk, call by call.
ghost use Rattle.std.specs.Prelude.{ℕ, [], ◌∷◌};
ghost use Rattle.ais_values.specs.Causes.{RoseExactlyOn};
ghost use Rattle.disk_model.specs.DeviceCalls.{CallCreate, CallWrite, CallSync, CallRename, CallRemove, Performs};
ghost use Rattle.disk_model.specs.declared.answers.DiskAnswer.{DiskAnswer};
ghost use Rattle.stream_layout.specs.Deeds.{calls_of, calls_of_all};

use ais_values::{Seq, Text};
use disk_model::{DiskAnswer, SharedDisk};
use stream_layout::Deed;

/// Makes the device calls of the deeds in order, up to the first that is not done, and no others.
///
/// `Ok`: the files are those after all calls, which did not reach the armed count; it fell by their number.
/// `Failed`, which comes exactly where the disk's count of faults rose: the files are those after some calls
/// from the front and a failure of the next one, and the armed count fell by these and that one. `Stopped`,
/// which comes exactly where the disk's count of stops rose: the call in which the armed count was reached is
/// one of these; those before it are done, and the disk crashed in it. `Memory`: the files are those after some
/// calls from the front, fewer than all, and the armed count fell by these. Of changing calls the disk counts
/// those done and, where one was not, that one; of reading calls none.
pub fn perform<D: SharedDisk>(disk: &mut D, deeds: &Seq<Deed>) -> Result<(), DiskAnswer>
    ensures performs { Performs (calls_of_all deeds.now) result (D.seen disk.old).files
        (D.seen disk.new).files (D.seen disk.old).tally (D.seen disk.new).tally }
    ensures cause { RoseExactlyOn (D.seen disk.old).faults (D.seen disk.new).faults result
        DiskAnswer.Failed }
    ensures stop { RoseExactlyOn (D.seen disk.old).stops (D.seen disk.new).stops result
        DiskAnswer.Stopped }
{
    for deed in deeds.as_slice() {
        match perform_one(disk, deed) {
            Ok(()) => {}
            Err(answer) => return Err(answer),
        }
    }
    Ok(())
}

/// Makes the device calls of one deed, up to the first that is not done; each function below those of one kind.
fn perform_one<D: SharedDisk>(disk: &mut D, deed: &Deed) -> Result<(), DiskAnswer>
    ensures performs { Performs (calls_of deed.now) result (D.seen disk.old).files
        (D.seen disk.new).files (D.seen disk.old).tally (D.seen disk.new).tally }
    ensures cause { RoseExactlyOn (D.seen disk.old).faults (D.seen disk.new).faults result
        DiskAnswer.Failed }
    ensures stop { RoseExactlyOn (D.seen disk.old).stops (D.seen disk.new).stops result
        DiskAnswer.Stopped }
{
    match deed {
        Deed::Put { name, bytes } => put(disk, name, bytes),
        Deed::Create { name } => create(disk, name),
        Deed::Write { name, at, bytes } => write_and_sync(disk, name, *at, bytes),
        Deed::Rename { from, to } => rename(disk, from, to),
        Deed::Remove { name } => remove(disk, name),
    }
}

/// Makes a file anew, with these bytes.
fn put<D: SharedDisk>(disk: &mut D, name: &Text, bytes: &Text) -> Result<(), DiskAnswer>
    ensures performs { Performs (CallCreate name.now ∷ CallWrite name.now 0 bytes.now
        ∷ CallSync name.now ∷ []) result (D.seen disk.old).files (D.seen disk.new).files
        (D.seen disk.old).tally (D.seen disk.new).tally }
    ensures cause { RoseExactlyOn (D.seen disk.old).faults (D.seen disk.new).faults result
        DiskAnswer.Failed }
    ensures stop { RoseExactlyOn (D.seen disk.old).stops (D.seen disk.new).stops result
        DiskAnswer.Stopped }
{
    match disk.create(name.as_slice()) {
        Ok(()) => write_and_sync(disk, name, 0, bytes),
        Err(answer) => Err(answer),
    }
}

/// Makes an empty file.
fn create<D: SharedDisk>(disk: &mut D, name: &Text) -> Result<(), DiskAnswer>
    ensures performs { Performs (CallCreate name.now ∷ []) result (D.seen disk.old).files
        (D.seen disk.new).files (D.seen disk.old).tally (D.seen disk.new).tally }
    ensures cause { RoseExactlyOn (D.seen disk.old).faults (D.seen disk.new).faults result
        DiskAnswer.Failed }
    ensures stop { RoseExactlyOn (D.seen disk.old).stops (D.seen disk.new).stops result
        DiskAnswer.Stopped }
{
    disk.create(name.as_slice())
}

/// Writes bytes at a place of a file, and makes them durable.
fn write_and_sync<D: SharedDisk>(
    disk: &mut D,
    name: &Text,
    at: u64,
    bytes: &Text,
) -> Result<(), DiskAnswer>
    ensures performs { Performs (CallWrite name.now at bytes.now ∷ CallSync name.now ∷ []) result
        (D.seen disk.old).files (D.seen disk.new).files
        (D.seen disk.old).tally (D.seen disk.new).tally }
    ensures cause { RoseExactlyOn (D.seen disk.old).faults (D.seen disk.new).faults result
        DiskAnswer.Failed }
    ensures stop { RoseExactlyOn (D.seen disk.old).stops (D.seen disk.new).stops result
        DiskAnswer.Stopped }
{
    match disk.write_at(name.as_slice(), at, bytes.as_slice()) {
        Ok(()) => disk.sync(name.as_slice()),
        Err(answer) => Err(answer),
    }
}

/// Gives a file another name.
fn rename<D: SharedDisk>(disk: &mut D, from: &Text, to: &Text) -> Result<(), DiskAnswer>
    ensures performs { Performs (CallRename from.now to.now ∷ []) result (D.seen disk.old).files
        (D.seen disk.new).files (D.seen disk.old).tally (D.seen disk.new).tally }
    ensures cause { RoseExactlyOn (D.seen disk.old).faults (D.seen disk.new).faults result
        DiskAnswer.Failed }
    ensures stop { RoseExactlyOn (D.seen disk.old).stops (D.seen disk.new).stops result
        DiskAnswer.Stopped }
{
    disk.rename(from.as_slice(), to.as_slice())
}

/// Takes a file away.
fn remove<D: SharedDisk>(disk: &mut D, name: &Text) -> Result<(), DiskAnswer>
    ensures performs { Performs (CallRemove name.now ∷ []) result (D.seen disk.old).files
        (D.seen disk.new).files (D.seen disk.old).tally (D.seen disk.new).tally }
    ensures cause { RoseExactlyOn (D.seen disk.old).faults (D.seen disk.new).faults result
        DiskAnswer.Failed }
    ensures stop { RoseExactlyOn (D.seen disk.old).stops (D.seen disk.new).stops result
        DiskAnswer.Stopped }
{
    disk.remove(name.as_slice())
}
