//! The files of a disk in memory.
ghost use Rattle.std.specs.Prelude.{◌≡◌, IsSome, IsOk, IfOk, OnOk, OnErr};
ghost use Rattle.std.specs.Option.{option_copied};
ghost use Rattle.std.specs.FinMap as map;
ghost use Rattle.ais_values.specs.Texts.{IsText};
ghost use Rattle.disk_model.specs.Disk.{no_files, file_written, file_cut, file_synced, adjusted, renamed};
ghost use Rattle.disk_model.specs.Memory.{file_torn_by_write, file_torn_by_sync, files_crashed};

use crate::entries::{
    crash_in, cut_in, get_in, names_in, put_in, sync_in, take_out, tear_sync_in, tear_write_in,
    write_in,
};
use crate::stored_file::StoredFile;
use ais_values::{Seq, Text};
use std::alloc::{AllocError, Global};
use std::marker::Model;

/// Files by names. Contracts see the finite map.
#[derive(Drop)]
pub struct Shelf {
    entries: Vec<(Text, StoredFile)>,
}

impl Model for Shelf {
    ghost use Rattle.std.specs.Prelude.{IsTrue};
    ghost use Rattle.std.specs.Ordering.{nat_cmp};
    ghost use Rattle.std.specs.Cmp.Lexicographic.{slice_cmp};
    ghost use Rattle.std.specs.Coded.{coded_list, coded_ℕ};
    ghost use Rattle.std.specs.FinMap as map;
    ghost use Rattle.std.specs.FinMap.Entries.{is_sorted};
    ghost use Rattle.disk_model.specs.Disk.{Files};
    ghost use Rattle.disk_model.specs.Stored.{file_code};

    ghost Value = { Files };

    ghost coded = { map.code (coded_list coded_ℕ) file_code };

    ghost view = { λ shelf. map.from_sorted shelf.entries.items };

    ghost invariant = { λ shelf. IsTrue (is_sorted (slice_cmp nat_cmp) shelf.entries.items) };
}

impl Shelf {
    /// No files.
    pub fn new(alloc: Global) -> Shelf
        ensures { result ≡ no_files }
    {
        Shelf {
            entries: Vec::new(alloc),
        }
    }

    /// The file of that name.
    pub fn find(&self, name: &[u8]) -> Option<&StoredFile>
        ensures { option_copied result ≡ map.get self.now name.now }
    {
        get_in(self.entries.as_slice(), name)
    }

    /// All names, in byte order.
    pub fn names(&self, alloc: Global) -> Result<Seq<Text>, AllocError>
        ensures { IfOk result (λ names. names ≡ map.keys self.now) }
    {
        let names = names_in(self.entries.as_slice(), alloc)?;
        Ok(Seq::from_vec(names))
    }

    /// Puts a file under a name. Where memory runs out nothing changes; none is taken where the name stands.
    pub fn put(&mut self, alloc: Global, name: &[u8], file: StoredFile) -> Result<(), AllocError>
        requires { IsText name.now }
        ensures ok { OnOk result (self.new ≡ map.insert self.old name.now file) }
        ensures err { OnErr result (self.new ≡ self.old) }
        ensures standing { IsSome (map.get self.old name.now) → IsOk result }
    {
        put_in(&mut self.entries, alloc, name, file)
    }

    /// Takes a file out.
    pub fn take(&mut self, name: &[u8]) -> Option<StoredFile>
        ensures found { result ≡ map.get self.old name.now }
        ensures left { self.new ≡ map.remove self.old name.now }
    {
        take_out(&mut self.entries, name)
    }

    /// Gives a file another name; a file of that name is replaced. Where memory runs out nothing changes.
    pub fn rename(&mut self, alloc: Global, from: &[u8], to: &[u8]) -> Result<(), AllocError>
        requires { IsText to.now }
        ensures ok { OnOk result (self.new ≡ renamed self.old from.now to.now) }
        ensures err { OnErr result (self.new ≡ self.old) }
    {
        if from == to {
            return Ok(());
        }
        if self.find(from).is_none() {
            return Ok(());
        }
        // The new name's place is made first, so that the file itself is never at stake.
        self.put(alloc, to, StoredFile::new(alloc))?;
        match self.take(from) {
            None => Ok(()),
            Some(file) => self.put(alloc, to, file),
        }
    }

    /// Writes into a file. Where memory runs out nothing changes.
    pub fn write_at(&mut self, name: &[u8], at: u64, bytes: &[u8]) -> Result<(), AllocError>
        ensures ok { OnOk result (self.new ≡ adjusted (file_written at bytes.now) self.old
            name.now) }
        ensures err { OnErr result (self.new ≡ self.old) }
    {
        write_in(&mut self.entries, name, at, bytes)
    }

    /// Breaks a write into a file off. Where memory runs out nothing changes.
    pub fn tear_write(
        &mut self,
        name: &[u8],
        at: u64,
        bytes: &[u8],
        torn: &[u8],
    ) -> Result<(), AllocError>
        ensures ok { OnOk result (self.new ≡ adjusted (file_torn_by_write torn.now at bytes.now)
            self.old name.now) }
        ensures err { OnErr result (self.new ≡ self.old) }
    {
        tear_write_in(&mut self.entries, name, at, bytes, torn)
    }

    /// Keeps at most so many bytes of a file.
    pub fn cut(&mut self, name: &[u8], len: u64)
        ensures { self.new ≡ adjusted (file_cut len) self.old name.now }
    {
        cut_in(&mut self.entries, name, len);
    }

    /// Makes nothing of a file loose.
    pub fn sync(&mut self, name: &[u8])
        ensures { self.new ≡ adjusted file_synced self.old name.now }
    {
        sync_in(&mut self.entries, name);
    }

    /// Breaks a sync of a file off.
    pub fn tear_sync(&mut self, name: &[u8], torn: &[u8])
        ensures { self.new ≡ adjusted (file_torn_by_sync torn.now) self.old name.now }
    {
        tear_sync_in(&mut self.entries, name, torn);
    }

    /// What a crash leaves of all files.
    pub fn crash(&mut self, torn: &[u8])
        ensures { self.new ≡ files_crashed torn.now self.old }
    {
        crash_in(&mut self.entries, torn);
    }
}
