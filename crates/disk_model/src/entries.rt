//! Files in a vector, in byte order of their names.
ghost use Rattle.std.specs.Prelude.{◌≡◌, ◌≤◌, ℕ, List, length, IsTrue, IsSome, IsOk, IfOk, map, MatchResult, OnOk, OnErr};
ghost use Rattle.std.specs.Option.{option_copied};
ghost use Rattle.std.specs.Ordering.{nat_cmp};
ghost use Rattle.std.specs.Cmp.Lexicographic.{slice_cmp};
ghost use Rattle.std.specs.FinMap.Entries.{is_sorted, put, find};
ghost use Rattle.ais_values.specs.Texts.{IsText};
ghost use Rattle.disk_model.specs.Disk.{File, file_written, file_cut, file_synced};
ghost use Rattle.disk_model.specs.Memory.{file_torn_by_write, file_torn_by_sync, file_crashed};
ghost use Rattle.disk_model.specs.Shelf.{place_of, without, KeyStandsAt, KeyLacksAt, adjusted_in};

use crate::stored_file::StoredFile;
use ais_values::{Duplicate, Text};
use std::alloc::{AllocError, Global};

// Where a name stands, or would stand, by halving.
fn place_in(entries: &[(Text, StoredFile)], name: &[u8]) -> usize
    requires { IsTrue (is_sorted (slice_cmp nat_cmp) entries.now) }
    ensures place { result ≡ place_of (slice_cmp nat_cmp) name.now entries.now }
    ensures bound { result ≤ length entries.now }
{
    entries.partition_point(|entry| entry.0.as_slice().cmp(name).is_lt())
}

/// Where a name stands, or else where it would stand.
pub fn find_in(entries: &[(Text, StoredFile)], name: &[u8]) -> Result<usize, usize>
    requires { IsTrue (is_sorted (slice_cmp nat_cmp) entries.now) }
    ensures { MatchResult result (KeyStandsAt (slice_cmp nat_cmp) name.now entries.now)
        (KeyLacksAt (slice_cmp nat_cmp) name.now entries.now) }
{
    let place = place_in(entries, name);
    if place < entries.len() {
        let entry = &entries[place];
        if entry.0.as_slice() == name {
            return Ok(place);
        }
    }
    Err(place)
}

/// The file of that name.
pub fn get_in<'a>(entries: &'a [(Text, StoredFile)], name: &[u8]) -> Option<&'a StoredFile>
    requires { IsTrue (is_sorted (slice_cmp nat_cmp) entries.now) }
    ensures { option_copied result ≡ find (slice_cmp nat_cmp) name.now entries.now }
{
    match find_in(entries, name) {
        Ok(place) => {
            let entry = &entries[place];
            Some(&entry.1)
        }
        Err(_) => None,
    }
}

/// Puts a file under a name. Where memory runs out the vector stays as it was; no memory is taken where the
/// name stands.
pub fn put_in(
    entries: &mut Vec<(Text, StoredFile)>,
    alloc: Global,
    name: &[u8],
    file: StoredFile,
) -> Result<(), AllocError>
    requires sorted { IsTrue (is_sorted (slice_cmp nat_cmp) entries.old.items) }
    requires short { IsText name.now }
    ensures ok { OnOk result (entries.new.items
        ≡ put (slice_cmp nat_cmp) name.now file entries.old.items) }
    ensures err { OnErr result (entries.new.items ≡ entries.old.items) }
    ensures standing { IsSome (find (slice_cmp nat_cmp) name.now entries.old.items) → IsOk result }
{
    match find_in(entries.as_slice(), name) {
        Ok(place) => {
            entries[place].1 = file;
            Ok(())
        }
        Err(place) => {
            let name = Text::from_vec(name.to_vec(alloc)?);
            match entries.insert(place, (name, file)) {
                Ok(()) => Ok(()),
                Err(_) => Err(AllocError),
            }
        }
    }
}

/// Takes a file out.
pub fn take_out(entries: &mut Vec<(Text, StoredFile)>, name: &[u8]) -> Option<StoredFile>
    requires { IsTrue (is_sorted (slice_cmp nat_cmp) entries.old.items) }
    ensures found { result ≡ find (slice_cmp nat_cmp) name.now entries.old.items }
    ensures left { entries.new.items ≡ without (slice_cmp nat_cmp) name.now entries.old.items }
{
    match find_in(entries.as_slice(), name) {
        Ok(place) => {
            let (_, file) = entries.remove(place);
            Some(file)
        }
        Err(_) => None,
    }
}

/// Writes into a file; nothing changes where the name does not stand. Where memory runs out nothing changes.
pub fn write_in(
    entries: &mut Vec<(Text, StoredFile)>,
    name: &[u8],
    at: u64,
    bytes: &[u8],
) -> Result<(), AllocError>
    requires { IsTrue (is_sorted (slice_cmp nat_cmp) entries.old.items) }
    ensures ok { OnOk result
        (entries.new.items ≡ adjusted_in (slice_cmp nat_cmp) (file_written at bytes.now) name.now
        entries.old.items) }
    ensures err { OnErr result (entries.new.items ≡ entries.old.items) }
{
    match find_in(entries.as_slice(), name) {
        Ok(place) => {
            let entry = &mut entries[place];
            entry.1.write_at(at, bytes)
        }
        Err(_) => Ok(()),
    }
}

/// Breaks a write into a file off; nothing changes where the name does not stand.
pub fn tear_write_in(
    entries: &mut Vec<(Text, StoredFile)>,
    name: &[u8],
    at: u64,
    bytes: &[u8],
    torn: &[u8],
) -> Result<(), AllocError>
    requires { IsTrue (is_sorted (slice_cmp nat_cmp) entries.old.items) }
    ensures ok { OnOk result
        (entries.new.items ≡ adjusted_in (slice_cmp nat_cmp)
        (file_torn_by_write torn.now at bytes.now) name.now entries.old.items) }
    ensures err { OnErr result (entries.new.items ≡ entries.old.items) }
{
    match find_in(entries.as_slice(), name) {
        Ok(place) => {
            let entry = &mut entries[place];
            entry.1.tear_write(at, bytes, torn)
        }
        Err(_) => Ok(()),
    }
}

/// Keeps at most so many bytes of a file.
pub fn cut_in(entries: &mut Vec<(Text, StoredFile)>, name: &[u8], len: u64)
    requires { IsTrue (is_sorted (slice_cmp nat_cmp) entries.old.items) }
    ensures { entries.new.items ≡ adjusted_in (slice_cmp nat_cmp) (file_cut len) name.now
        entries.old.items }
{
    if let Ok(place) = find_in(entries.as_slice(), name) {
        let entry = &mut entries[place];
        entry.1.cut(len);
    }
}

/// Makes nothing of a file loose.
pub fn sync_in(entries: &mut Vec<(Text, StoredFile)>, name: &[u8])
    requires { IsTrue (is_sorted (slice_cmp nat_cmp) entries.old.items) }
    ensures { entries.new.items ≡ adjusted_in (slice_cmp nat_cmp) file_synced name.now
        entries.old.items }
{
    if let Ok(place) = find_in(entries.as_slice(), name) {
        let entry = &mut entries[place];
        entry.1.sync();
    }
}

/// Breaks a sync of a file off.
pub fn tear_sync_in(entries: &mut Vec<(Text, StoredFile)>, name: &[u8], torn: &[u8])
    requires { IsTrue (is_sorted (slice_cmp nat_cmp) entries.old.items) }
    ensures { entries.new.items ≡ adjusted_in (slice_cmp nat_cmp) (file_torn_by_sync torn.now)
        name.now entries.old.items }
{
    if let Ok(place) = find_in(entries.as_slice(), name) {
        let entry = &mut entries[place];
        entry.1.tear_sync(torn);
    }
}

/// What a crash leaves of all files.
pub fn crash_in(entries: &mut Vec<(Text, StoredFile)>, torn: &[u8])
    ensures { entries.new.items ≡ map (λ entry. (entry.0, file_crashed torn.now entry.1))
        entries.old.items }
{
    for place in 0..entries.len() {
        let entry = &mut entries[place];
        entry.1.crash(torn);
    }
}

/// The names, in order.
pub fn names_in(entries: &[(Text, StoredFile)], alloc: Global) -> Result<Vec<Text>, AllocError>
    ensures { IfOk result (λ names. names.items ≡ map (λ entry. entry.0) entries.now) }
{
    let mut names = Vec::with_capacity(alloc, entries.len())?;
    for entry in entries {
        names.push(entry.0.copy(alloc)?)?;
    }
    Ok(names)
}
