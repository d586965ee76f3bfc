//! Reading from the front of a file.
ghost use Rattle.std.specs.Prelude.{◌≡◌, ◌≤◌, length, IfOk, IfSome, IsErrOf};
ghost use Rattle.ais_values.specs.Causes.{RoseExactlyOn};
ghost use Rattle.disk_model.specs.Counts.{ReadsOnce};
ghost use Rattle.disk_model.specs.Disk.{bytes_at};
ghost use Rattle.disk_model.specs.declared.answers.DiskAnswer.{DiskAnswer};

use crate::{DiskAnswer, DiskFault, SharedDisk};
use ais_values::Seq;
use std::alloc::Global;

/// The first bytes of a file, so many of them; fewer where the disk gives fewer. Where none is asked for the disk is not read.
///
/// The disk is only read, so it never stops. `Failed` comes exactly where its count of faults rose. `Memory` comes where there was none for
/// the bytes, and the disk was not read then.
pub fn read_front<D: SharedDisk>(
    alloc: Global,
    disk: &mut D,
    name: &[u8],
    size: u64,
) -> Result<Seq<u8>, DiskAnswer>
    ensures told { IfOk result (λ bytes. IfSome (D.seen disk.old).files (λ files.
        bytes ≡ bytes_at files name.now 0 size)) }
    ensures bound { IfOk result (λ bytes. length bytes ≤ size) }
    ensures unread { size ≡ 0 → disk.new ≡ disk.old }
    ensures counted { 1 ≤ size → ReadsOnce result (D.seen disk.old).tally (D.seen disk.new).tally }
    ensures same { (D.seen disk.new).files ≡ (D.seen disk.old).files }
    ensures cause { RoseExactlyOn (D.seen disk.old).faults (D.seen disk.new).faults result
        DiskAnswer.Failed }
    ensures never_stopped { IsErrOf result DiskAnswer.Stopped → ⊥ }
    ensures stops { (D.seen disk.new).stops ≡ (D.seen disk.old).stops }
    ensures armed { (D.seen disk.new).tally.armed ≡ (D.seen disk.old).tally.armed }
{
    if size == 0 {
        return Ok(Seq::new(alloc));
    }
    let mut bytes = match vec![in alloc; 0; size as usize] {
        Ok(bytes) => bytes,
        Err(_) => return Err(DiskAnswer::Memory),
    };
    match disk.read(name, 0, bytes.as_mut_slice()) {
        Ok(count) => {
            bytes.truncate(count);
            Ok(Seq::from_vec(bytes))
        }
        Err(DiskFault::Failed) => Err(DiskAnswer::Failed),
    }
}
