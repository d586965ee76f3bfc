//! The disk: deeds are done on it, and its files are shown.
use crate::printing::{put, put_line};
use ais_values::{Seq, Text};
use disk_model::{DiskAnswer, MemDisk, SharedDisk};
use std::alloc::{AllocError, Global};
use stream_files::perform;
use stream_layout::Deed;

/// Whether the deeds are done.
pub(crate) fn perform_all(disk: &mut MemDisk, deeds: &Seq<Deed>) -> Result<bool, AllocError> {
    match perform(disk, deeds) {
        Ok(()) => Ok(true),
        Err(DiskAnswer::Memory) => Err(AllocError),
        Err(DiskAnswer::Failed | DiskAnswer::Stopped) => Ok(false),
    }
}

/// The length of a file.
fn length_of(disk: &mut MemDisk, name: &[u8]) -> u64 {
    match disk.len(name) {
        Ok(Some(length)) => length,
        _ => 0,
    }
}

/// Shows the names of files, with their lengths.
pub(crate) fn put_files(
    alloc: Global,
    disk: &mut MemDisk,
    out: &mut Vec<u8>,
) -> Result<(), AllocError> {
    let names = match disk.names(alloc) {
        Ok(names) => names,
        Err(DiskAnswer::Memory) => return Err(AllocError),
        Err(DiskAnswer::Failed | DiskAnswer::Stopped) => return put(out, b"disk fault\n"),
    };
    for name in names.as_slice() {
        let length = length_of(disk, name.as_slice());
        put(out, b"file ")?;
        put(out, name.as_slice())?;
        put_line(out, format!(in alloc; " {length}")?)?;
    }
    Ok(())
}

/// Shows the bytes of a file.
pub(crate) fn put_bytes(
    alloc: Global,
    disk: &mut MemDisk,
    name: &Text,
    out: &mut Vec<u8>,
) -> Result<(), AllocError> {
    let length = length_of(disk, name.as_slice()).min(1_000_000) as usize;
    let mut bytes = vec![in alloc; 0u8; length]?;
    match disk.read(name.as_slice(), 0, bytes.as_mut_slice()) {
        Ok(count) if count == length => put(out, bytes.as_slice()),
        _ => put(out, b"disk fault\n"),
    }
}
