//! Files below a root folder, by system calls.
ghost use Rattle.std.specs.Prelude.{◌≤◌, length, IfOk};

use std::alloc::Global;
use std::fs::{Metadata, OpenFile, OpenOptions};
use std::io::{ErrorKind, Read, Seek, SeekFrom};
use std::rt::Files;
use std::{fs, io};

/// The folder, of the current one, below which all files of a disk stand.
#[derive(Clone, Copy, Debug, PartialEq, Eq)]
pub enum Root {
    Logs,
    Journal,
}

impl Root {
    /// The folder's name.
    pub fn folder(self) -> &'static str
        ensures { length result.now ≤ 16 }
    {
        match self {
            Root::Logs => "ais_log_root",
            Root::Journal => "ais_journal_root",
        }
    }
}

/// The most bytes of a path that the system takes.
pub const PATH_BYTES: usize = 4096;

/// Whether a name is one that files here may have: 1 byte or more, each from 32 to 126, and between its
/// slashes no part is empty, `.` or `..`.
pub fn is_plain(name: &[u8]) -> bool {
    name.iter().all(|byte| *byte >= 32 && *byte <= 126)
        && name.split(|byte| *byte == b'/').all(|part| !part.is_empty()
            && part != b".".as_slice()
            && part != b"..".as_slice())
}

/// The path of a name, written into the buffer; none where the name is not plain or the path too long.
pub fn path_of<'a>(root: Root, name: &[u8], buffer: &'a mut [u8; PATH_BYTES]) -> Option<&'a str> {
    let root = root.folder().as_bytes();
    let before = root.len() + 1;
    if !is_plain(name) || name.len() > PATH_BYTES - before {
        return None;
    }
    let end = before + name.len();
    buffer[..root.len()].copy_from_slice(root);
    buffer[root.len()] = b'/';
    buffer[before..end].copy_from_slice(name);
    std::str::from_utf8(&buffer[..end]).ok()
}

/// What stands at a path: a file, or none. A folder is no file; another thing is a fault.
pub fn look<R: Files>(rt: &R, root: Root, path: &str) -> io::Result<Option<Metadata>> {
    match fs::symlink_metadata(rt, path) {
        Ok(found) => {
            if found.is_file() {
                Ok(Some(found))
            } else if found.is_dir() {
                Ok(None)
            } else {
                Err(io::Error::from(ErrorKind::InvalidData))
            }
        }
        Err(error) => match error.kind() {
            ErrorKind::NotFound => Ok(None),
            ErrorKind::NotADirectory => no_file(rt, root, error),
            _ => Err(error),
        },
    }
}

// A part of the path is a file: no file stands there, unless the root itself is no folder.
fn no_file<R: Files>(rt: &R, root: Root, error: io::Error) -> io::Result<Option<Metadata>> {
    if fs::metadata(rt, root.folder())?.is_dir() {
        Ok(None)
    } else {
        Err(error)
    }
}

/// Makes what was done to the names of a folder durable, where the system lets a folder be synced.
pub fn sync_folder<R: Files>(rt: &R, path: &str) -> io::Result<()> {
    let folder = OpenOptions::new().read(true).open(rt, path)?;
    match folder.sync_all() {
        Ok(()) => Ok(()),
        Err(error) => match error.kind() {
            ErrorKind::InvalidInput | ErrorKind::Unsupported => Ok(()),
            _ => Err(error),
        },
    }
}

/// The folder in which a path stands.
pub fn folder_of(path: &str) -> &str {
    match path.rsplit_once('/') {
        Some((folder, _)) => folder,
        None => ".",
    }
}

/// Makes the folders of a path that are missing, durably.
pub fn make_folders<R: Files>(rt: &R, folder: &str) -> io::Result<()> {
    if fs::exists(rt, folder)? {
        return fs::create_dir_all(rt, folder);
    }
    fs::create_dir_all(rt, folder)?;
    let mut made = folder;
    for _ in 0..folder.len() {
        let above = folder_of(made);
        sync_folder(rt, above)?;
        made = above;
        if made == "." {
            break;
        }
    }
    Ok(())
}

/// Makes an empty file, durably, and opens it for writing; an old one is replaced.
pub fn create<R: Files>(rt: &R, path: &str) -> io::Result<R::File> {
    let folder = folder_of(path);
    make_folders(rt, folder)?;
    let file = OpenOptions::new()
        .write(true)
        .create(true)
        .truncate(true)
        .open(rt, path)?;
    file.sync_all()?;
    sync_folder(rt, folder)?;
    Ok(file)
}

/// Gives a file another name, durably. An absent file is none to rename.
pub fn rename<R: Files>(rt: &R, root: Root, from: &str, to: &str) -> io::Result<()> {
    if look(rt, root, from)?.is_none() {
        return Ok(());
    }
    let (left, entered) = (folder_of(from), folder_of(to));
    make_folders(rt, entered)?;
    fs::rename(rt, from, to)?;
    sync_folder(rt, entered)?;
    if left == entered {
        return Ok(());
    }
    sync_folder(rt, left)
}

/// Removes a file, durably. An absent file is none to remove.
pub fn remove<R: Files>(rt: &R, root: Root, path: &str) -> io::Result<()> {
    if look(rt, root, path)?.is_none() {
        return Ok(());
    }
    fs::remove_file(rt, path)?;
    sync_folder(rt, folder_of(path))
}

/// Reads what stands in a file from a place on, as much as the buffer holds. An absent file is a fault.
pub fn read<R: Files>(rt: &R, root: Root, path: &str, at: u64, buf: &mut [u8]) -> io::Result<usize>
    ensures { IfOk result (λ count. count ≤ length buf.old) }
{
    let Some(found) = look(rt, root, path)? else {
        return Err(io::Error::from(ErrorKind::NotFound));
    };
    if at >= found.len() {
        return Ok(0);
    }
    let mut file = OpenOptions::new().read(true).open(rt, path)?;
    file.seek(SeekFrom::Start(at))?;
    let mut count = 0;
    for _ in 0..u64::MAX {
        if count == buf.len() {
            return Ok(count);
        }
        match file.read(&mut buf[count..]) {
            Ok(0) => return Ok(count),
            Ok(more) => count += more,
            Err(error) if error.kind() == ErrorKind::Interrupted => {}
            Err(error) => return Err(error),
        }
    }
    Err(io::Error::from(ErrorKind::Other))
}
