//! What is shown of the files of a disk.
ghost use Rattle.std.specs.Prelude.{◌≡◌, IfOk, IfSome, IsErrOf, OnOk};
ghost use Rattle.std.specs.Result.{is_ok};
ghost use Rattle.ais_values.specs.Causes.{RoseExactlyOn};
ghost use Rattle.disk_model.specs.Counts.{read_more};
ghost use Rattle.disk_model.specs.declared.answers.DiskAnswer.{DiskAnswer};
ghost use Rattle.cluster_clients.specs.Files.{ListsFiles, bytes_of};
ghost use Rattle.cluster_clients.specs.Listing.{AddsLine};
ghost use Rattle.cluster_clients.specs.Looks.{FileCalls, ListCalls, Looks};

use ais_values::Seq;
use disk_model::{DiskAnswer, DiskFault, SharedDisk, read_front};
use event_text::put_file;
use std::alloc::Global;

/// Adds the line of a name's file, if the file has a length.
fn put_file_of<D: SharedDisk>(
    alloc: Global,
    disk: &mut D,
    lines: &mut Vec<Seq<u8>>,
    name: &[u8],
) -> Result<(), DiskAnswer>
    ensures added { OnOk result (AddsLine (D.seen disk.old).files name.now lines.old.items
        lines.new.items) }
    ensures same { (D.seen disk.new).files ≡ (D.seen disk.old).files }
    ensures cause { RoseExactlyOn (D.seen disk.old).faults (D.seen disk.new).faults result
        DiskAnswer.Failed }
    ensures never_stopped { IsErrOf result DiskAnswer.Stopped → ⊥ }
    ensures stops { (D.seen disk.new).stops ≡ (D.seen disk.old).stops }
    ensures counted { (D.seen disk.new).tally ≡ read_more 1 (D.seen disk.old).tally }
{
    match disk.len(name) {
        Ok(Some(len)) => match put_file(alloc, lines, name, len) {
            Ok(()) => Ok(()),
            Err(_) => Err(DiskAnswer::Memory),
        },
        Ok(None) => Ok(()),
        Err(DiskFault::Failed) => Err(DiskAnswer::Failed),
    }
}

/// The lines of the files, in byte order of their names. A name without a length is left out.
///
/// The disk is asked once for the names, and once for the length of each. It is only read, so it never stops.
/// `Failed` comes exactly where its count of faults rose.
pub fn list_files<D: SharedDisk>(alloc: Global, disk: &mut D) -> Result<Vec<Seq<u8>>, DiskAnswer>
    ensures listed { IfOk result (λ lines. ListsFiles (D.seen disk.old).files lines.items) }
    ensures same { (D.seen disk.new).files ≡ (D.seen disk.old).files }
    ensures cause { RoseExactlyOn (D.seen disk.old).faults (D.seen disk.new).faults result
        DiskAnswer.Failed }
    ensures never_stopped { IsErrOf result DiskAnswer.Stopped → ⊥ }
    ensures stops { (D.seen disk.new).stops ≡ (D.seen disk.old).stops }
    ensures looks { Looks (ListCalls (D.seen disk.old).files) (is_ok result) (D.seen disk.old).tally
        (D.seen disk.new).tally }
    ensures armed { (D.seen disk.new).tally.armed ≡ (D.seen disk.old).tally.armed }
{
    let names = match disk.names(alloc) {
        Ok(names) => names,
        Err(answer) => return Err(answer),
    };
    let mut lines = Vec::new(alloc);
    for name in names.as_slice() {
        match put_file_of(alloc, disk, &mut lines, name.as_slice()) {
            Ok(()) => {}
            Err(answer) => return Err(answer),
        }
    }
    Ok(lines)
}

/// The bytes of a file; `None` where there is no file of that name.
///
/// The disk is asked once for the length, and once for the bytes where there are any. It is only read, so it never
/// stops. `Failed` comes exactly where its count of faults rose.
pub fn read_file<D: SharedDisk>(
    alloc: Global,
    disk: &mut D,
    name: &[u8],
) -> Result<Option<Seq<u8>>, DiskAnswer>
    ensures told { IfOk result (λ bytes. IfSome (D.seen disk.old).files (λ files.
        bytes ≡ bytes_of files name.now)) }
    ensures same { (D.seen disk.new).files ≡ (D.seen disk.old).files }
    ensures cause { RoseExactlyOn (D.seen disk.old).faults (D.seen disk.new).faults result
        DiskAnswer.Failed }
    ensures never_stopped { IsErrOf result DiskAnswer.Stopped → ⊥ }
    ensures stops { (D.seen disk.new).stops ≡ (D.seen disk.old).stops }
    ensures looks { Looks (FileCalls name.now (D.seen disk.old).files) (is_ok result)
        (D.seen disk.old).tally (D.seen disk.new).tally }
    ensures armed { (D.seen disk.new).tally.armed ≡ (D.seen disk.old).tally.armed }
{
    let size = match disk.len(name) {
        Ok(Some(size)) => size,
        Ok(None) => return Ok(None),
        Err(DiskFault::Failed) => return Err(DiskAnswer::Failed),
    };
    match read_front(alloc, disk, name, size) {
        Ok(bytes) => Ok(Some(bytes)),
        Err(answer) => Err(answer),
    }
}
