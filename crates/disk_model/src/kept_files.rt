//! Files that stay open, so that one that is written again and again is looked for and opened once.
use crate::folders::{self, PATH_BYTES, Root, path_of};
use std::alloc::Global;
use std::fs::{OpenFile, OpenOptions};
use std::io;
use std::io::{ErrorKind, Seek, SeekFrom, Write};
use std::rt::Files;

/// The most files that stay open.
const MAX_KEPT: usize = 8;

// A file that is open for writing. It is not kept where memory for its name was wanting.
#[derive(Drop)]
struct KeptFile<R: Files> {
    name: Option<Vec<u8>>,
    file: R::File,
    len: u64,
}

impl<R: Files> KeptFile<R> {
    // A file that was just opened, of this length.
    fn new(alloc: Global, name: &[u8], file: R::File, len: u64) -> KeptFile<R> {
        KeptFile {
            name: name.to_vec(alloc).ok(),
            file,
            len,
        }
    }

    // Whether the file is kept under this name.
    fn is_named(&self, name: &[u8]) -> bool {
        match &self.name {
            Some(own) => own.as_slice() == name,
            None => false,
        }
    }

    // Past its end nothing is written.
    fn write_at(&mut self, at: u64, bytes: &[u8]) -> io::Result<()> {
        if at > self.len {
            return Ok(());
        }
        self.file.seek(SeekFrom::Start(at))?;
        self.file.write_all(bytes)?;
        self.len = self.len.max(at.saturating_add(bytes.len() as u64));
        Ok(())
    }

    // A file that is not longer stays as it is.
    fn cut(&mut self, len: u64) -> io::Result<()> {
        if len >= self.len {
            return Ok(());
        }
        self.file.set_len(len)?;
        self.len = len;
        Ok(())
    }
}

// Looks for a file and opens it; none where no file stands.
fn open<R: Files>(
    rt: &R,
    alloc: Global,
    root: Root,
    name: &[u8],
) -> io::Result<Option<KeptFile<R>>> {
    let mut buffer = [0; PATH_BYTES];
    let Some(path) = path_of(root, name, &mut buffer) else {
        return Err(io::Error::from(ErrorKind::InvalidFilename));
    };
    let Some(found) = folders::look(rt, root, path)? else {
        return Ok(None);
    };
    let file = OpenOptions::new().write(true).open(rt, path)?;
    Ok(Some(KeptFile::new(alloc, name, file, found.len())))
}

/// The files that were changed last, open for writing: the last changed one stands last.
///
/// A file whose call failed, and one that gets another name or goes, is closed, so that the next call looks for it.
#[derive(Drop)]
pub struct KeptFiles<R: Files> {
    root: Root,
    files: Vec<KeptFile<R>>,
}

impl<R: Files> KeptFiles<R> {
    /// No file below the root is open yet.
    pub fn new(alloc: Global, root: Root) -> KeptFiles<R> {
        KeptFiles {
            root,
            files: Vec::new(alloc),
        }
    }

    // Takes out the file of a name, if it is kept.
    fn take(&mut self, name: &[u8]) -> Option<KeptFile<R>> {
        match self.files.iter().position(|kept| kept.is_named(name)) {
            Some(place) => Some(self.files.remove(place)),
            None => None,
        }
    }

    // The file of a name, taken out or opened; none where no file stands.
    fn take_or_open(
        &mut self,
        rt: &R,
        alloc: Global,
        name: &[u8],
    ) -> io::Result<Option<KeptFile<R>>> {
        match self.take(name) {
            Some(kept) => Ok(Some(kept)),
            None => open(rt, alloc, self.root, name),
        }
    }

    // Keeps a file as the last. Where that takes memory that is wanting, it is closed.
    fn keep(&mut self, kept: KeptFile<R>) {
        if kept.name.is_none() {
            return;
        }
        if self.files.len() >= MAX_KEPT {
            let _ = self.files.remove(0);
        }
        let _ = self.files.push(kept);
    }

    /// Closes the file of a name, if it is kept.
    pub fn close(&mut self, name: &[u8]) {
        let _ = self.take(name);
    }

    /// Closes all files.
    pub fn close_all(&mut self) {
        self.files.clear();
    }

    /// Makes an empty file, durably; an old one is replaced.
    pub fn create(&mut self, rt: &R, alloc: Global, name: &[u8]) -> io::Result<()> {
        self.close(name);
        let mut buffer = [0; PATH_BYTES];
        let Some(path) = path_of(self.root, name, &mut buffer) else {
            return Err(io::Error::from(ErrorKind::InvalidFilename));
        };
        let file = folders::create(rt, path)?;
        self.keep(KeptFile::new(alloc, name, file, 0));
        Ok(())
    }

    /// Writes into a file. Past its end nothing is written; an absent file is a fault.
    pub fn write_at(
        &mut self,
        rt: &R,
        alloc: Global,
        name: &[u8],
        at: u64,
        bytes: &[u8],
    ) -> io::Result<()> {
        let Some(mut kept) = self.take_or_open(rt, alloc, name)? else {
            return Err(io::Error::from(ErrorKind::NotFound));
        };
        kept.write_at(at, bytes)?;
        self.keep(kept);
        Ok(())
    }

    /// Keeps at most so many bytes of a file. An absent file is none to cut.
    pub fn cut(&mut self, rt: &R, alloc: Global, name: &[u8], len: u64) -> io::Result<()> {
        let Some(mut kept) = self.take_or_open(rt, alloc, name)? else {
            return Ok(());
        };
        kept.cut(len)?;
        self.keep(kept);
        Ok(())
    }

    /// Makes a file's bytes durable. An absent file is none to sync.
    pub fn sync(&mut self, rt: &R, alloc: Global, name: &[u8]) -> io::Result<()> {
        let Some(kept) = self.take_or_open(rt, alloc, name)? else {
            return Ok(());
        };
        kept.file.sync_all()?;
        self.keep(kept);
        Ok(())
    }
}
