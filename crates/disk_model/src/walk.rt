//! The names of all files below a root folder.
use crate::DiskAnswer;
use crate::folders::{Root, is_plain, make_folders};
use ais_values::{Seq, Text, TextAnswer};
use std::alloc::{AllocError, Global};
use std::fs::DirEntry;
use std::io::ErrorKind;
use std::rt::Files;
use std::{fs, io};

// What a walk came upon: names, and folders that are still to be listed.
#[derive(Drop)]
struct Found {
    names: Vec<Vec<u8>>,
    folders: Vec<String>,
}

// What the system's answer is to who asked for the names.
fn answer_of(error: io::Error) -> DiskAnswer {
    if error.kind() == ErrorKind::OutOfMemory {
        DiskAnswer::Memory
    } else {
        DiskAnswer::Failed
    }
}

// The name of a path, which is what follows the root and its slash.
fn name_of(alloc: Global, root: Root, path: &str) -> Result<Vec<u8>, DiskAnswer> {
    let bytes = path.as_bytes();
    let before = root.folder().len() + 1;
    if bytes.len() <= before {
        return Err(DiskAnswer::Failed);
    }
    let name = &bytes[before..];
    if !is_plain(name) {
        return Err(DiskAnswer::Failed);
    }
    Ok(name.to_vec(alloc)?)
}

// Notes what stands in a folder: a file by its name, and a folder to be listed itself.
fn note_entry<R: Files>(
    alloc: Global,
    root: Root,
    entry: &DirEntry<R, Global>,
    found: &mut Found,
) -> Result<(), DiskAnswer> {
    let path = entry.path();
    let path = path.as_str();
    let kind = match entry.file_type() {
        Ok(kind) => kind,
        Err(error) => return Err(answer_of(error)),
    };
    if kind.is_dir() {
        let folder = String::from_str(alloc, path)?;
        found.folders.push(folder).map_err(AllocError::from)?;
        return Ok(());
    }
    if !kind.is_file() {
        return Err(DiskAnswer::Failed);
    }
    let name = name_of(alloc, root, path)?;
    found.names.push(name).map_err(AllocError::from)?;
    Ok(())
}

// Notes all that stands in a folder.
fn note_folder<R: Files + AllocGlobal + Clone + Drop>(
    rt: &R,
    alloc: Global,
    root: Root,
    folder: &str,
    found: &mut Found,
) -> Result<(), DiskAnswer> {
    let entries = match fs::read_dir(rt, folder) {
        Ok(entries) => entries,
        Err(error) => return Err(answer_of(error)),
    };
    for entry in entries {
        match entry {
            Ok(entry) => note_entry(alloc, root, &entry, found)?,
            Err(error) => return Err(answer_of(error)),
        }
    }
    Ok(())
}

// The names of all files below the root, folder by folder. Folders wait in a list, so that no call nests.
fn walk<R: Files + AllocGlobal + Clone + Drop>(
    rt: &R,
    alloc: Global,
    root: Root,
) -> Result<Vec<Vec<u8>>, DiskAnswer> {
    let mut found = Found {
        names: Vec::new(alloc),
        folders: Vec::new(alloc),
    };
    note_folder(rt, alloc, root, root.folder(), &mut found)?;
    for _ in 0..u64::MAX {
        let Some(folder) = found.folders.pop() else {
            return Ok(found.names);
        };
        note_folder(rt, alloc, root, folder.as_str(), &mut found)?;
    }
    Err(DiskAnswer::Failed)
}

// The list of these names as texts.
fn texts(alloc: Global, names: &[Vec<u8>]) -> Result<Seq<Text>, DiskAnswer> {
    let mut texts = Seq::new(alloc);
    for name in names {
        match Text::new(alloc, name.as_slice()) {
            Ok(text) => texts.push(text)?,
            Err(TextAnswer::Memory) => return Err(DiskAnswer::Memory),
            Err(TextAnswer::Refused) => return Err(DiskAnswer::Failed),
        }
    }
    Ok(texts)
}

/// The names of all files below the root, which is made where it is missing, in byte order of the whole
/// names. Folders are no names.
///
/// A fault is a root that is no folder, a thing that is neither a file nor a folder, a name that is not
/// plain, and what the system refuses.
pub fn all_names<R: Files + AllocGlobal + Clone + Drop>(
    rt: &R,
    alloc: Global,
    root: Root,
) -> Result<Seq<Text>, DiskAnswer> {
    match make_folders(rt, root.folder()) {
        Ok(()) => {}
        Err(error) => return Err(answer_of(error)),
    }
    let mut names = walk(rt, alloc, root)?;
    names.sort()?;
    texts(alloc, names.as_slice())
}
