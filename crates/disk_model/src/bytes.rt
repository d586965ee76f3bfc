//! Changes of a file's bytes in place.
ghost use Rattle.std.specs.Prelude.{◌≡◌, ◌+◌, ◌≤◌, ◌++◌, ◌∷◌, [], List, ℕ, length, take, drop, min, OnOk, OnErr};
ghost use Rattle.disk_model.specs.Disk.{overwritten, Gives};
ghost use Rattle.disk_model.specs.Memory.{torn_byte, torn_bytes, range_torn, ranges_torn};

use std::alloc::AllocError;

/// Puts bytes over those that stand from a place on.
pub fn overwrite(bytes: &mut Vec<u8>, at: usize, new: &[u8])
    requires { at + length new.now ≤ length bytes.old.items }
    ensures { bytes.new.items ≡ overwritten bytes.old.items at new.now }
{
    for i in 0..new.len() {
        bytes[at + i] = new[i];
    }
}

/// Adds bytes at the end and notes a loose range. Where memory runs out both stay as they were.
pub fn grow(
    bytes: &mut Vec<u8>,
    loose: &mut Vec<(u64, u64)>,
    range: (u64, u64),
    tail: &[u8],
) -> Result<(), AllocError>
    ensures ok { OnOk result ((bytes.new.items ≡ bytes.old.items ++ tail.now)
        × (loose.new.items ≡ loose.old.items ++ range ∷ [])) }
    ensures err { OnErr result ((bytes.new.items ≡ bytes.old.items)
        × (loose.new.items ≡ loose.old.items)) }
{
    let old = bytes.len();
    bytes.extend_from_slice(tail)?;
    match loose.push(range) {
        Ok(()) => Ok(()),
        Err(_) => {
            bytes.truncate(old);
            Err(AllocError)
        }
    }
}

/// Reads what stands from a place on, as much as the buffer holds, and answers how much that is.
pub fn read_from(bytes: &[u8], at: usize, buf: &mut [u8]) -> usize
    requires { at ≤ length bytes.now }
    ensures { Gives result buf.old buf.new (take (length buf.old) (drop at bytes.now)) }
{
    let rest = &bytes[at..];
    let count = rest.len().min(buf.len());
    for i in 0..count {
        buf[i] = rest[i];
    }
    count
}

// The byte at a place of a torn range, counted from its start.
fn torn_at(torn: &[u8], place: usize) -> u8
    ensures { result ≡ torn_byte torn.now place }
{
    if torn.is_empty() {
        return 0;
    }
    torn[place % torn.len()]
}

/// Puts so many torn bytes over those that stand from a place on.
pub fn overwrite_torn(bytes: &mut Vec<u8>, at: usize, size: usize, torn: &[u8])
    requires { at + size ≤ length bytes.old.items }
    ensures { bytes.new.items ≡ overwritten bytes.old.items at (torn_bytes torn.now size) }
{
    for i in 0..size {
        bytes[at + i] = torn_at(torn, i);
    }
}

// Tears one range (place, length), as far as the bytes reach.
fn tear_range(bytes: &mut Vec<u8>, range: (u64, u64), torn: &[u8])
    ensures { bytes.new.items ≡ range_torn torn.now range bytes.old.items }
{
    let (place, size) = range;
    let len = bytes.len() as u64;
    if place >= len {
        return;
    }
    let within = size.min(len - place);
    overwrite_torn(bytes, place as usize, within as usize, torn);
}

/// Tears ranges (place, length), in order, as far as the bytes reach.
pub fn tear_ranges(bytes: &mut Vec<u8>, ranges: &[(u64, u64)], torn: &[u8])
    ensures torn { bytes.new.items ≡ ranges_torn torn.now ranges.now bytes.old.items }
    ensures len { length bytes.new.items ≡ length bytes.old.items }
{
    for range in ranges {
        tear_range(bytes, *range, torn);
    }
}
