//! Texts that join a journal's file.
ghost use Rattle.std.specs.Prelude.{◌≡◌, ◌<◌, ◌≤◌, ◌+◌, ◌∷◌, ◌^◌, ◌-◌, ℕ, List, [], length, ◌++◌, IfOk, OnOk, true, false, option_map};
ghost use Rattle.ais_values.specs.Causes.{RoseExactlyOn};
ghost use Rattle.disk_model.specs.DeviceCalls.{CallCreate, CallWrite, CallSync, Performs};
ghost use Rattle.disk_model.specs.declared.answers.DiskAnswer.{DiskAnswer};
ghost use Rattle.wire_code.specs.Spelling.{number_text};
ghost use Rattle.journal_frames.specs.Frames.{behind_cut, behind_gate, calls_behind, framed, gate_closed, journal_name, make_calls, mended, AreShort, HasFile, IsShort};
ghost use Rattle.journal_frames.specs.Staging.{HasStaged, IsMended, IsMoving, Keeps, Shut};
ghost use Rattle.journal_frames.specs.Arming.{StaysUnarmed};

use byteorder::{BigEndian, ByteOrder};
use disk_model::{DiskAnswer, SharedDisk};
use std::alloc::{AllocError, Global};

/// The name of a journal's file.
pub const JOURNAL_FILE: &[u8] = b"journal.dat";

// Puts a length in four bytes behind others.
#[tactic(auto, unfolding(wire_code::specs::Spelling::number_text))]
fn put_length(length: u32, out: &mut Vec<u8>) -> Result<(), AllocError>
    ensures { OnOk result (out.new.items ≡ out.old.items ++ number_text 4 length) }
{
    let mut bytes = [0; 4];
    BigEndian::write_u32(&mut bytes, length);
    out.extend_from_slice(&bytes)
}

/// What is put behind the closed gate for a text of at most 4,294,967,294 bytes: its length, the text, and a closed gate.
pub fn behind_gate(alloc: Global, text: &[u8]) -> Result<Vec<u8>, AllocError>
    requires { IsShort text.now }
    ensures { IfOk result (λ bytes. bytes.items ≡ behind_gate text.now) }
{
    let mut bytes = Vec::new(alloc);
    put_length(text.len() as u32, &mut bytes)?;
    bytes.extend_from_slice(text)?;
    bytes.push(0)?;
    Ok(bytes)
}

// Writes and makes it durable.
fn write_through<J: SharedDisk>(disk: &mut J, at: u64, bytes: &[u8]) -> Result<(), DiskAnswer>
    ensures performs { Performs (CallWrite journal_name at bytes.now ∷ CallSync journal_name ∷ [])
        result (J.seen disk.old).files (J.seen disk.new).files
        (J.seen disk.old).tally (J.seen disk.new).tally }
    ensures cause { RoseExactlyOn (J.seen disk.old).faults (J.seen disk.new).faults result
        DiskAnswer.Failed }
    ensures stop { RoseExactlyOn (J.seen disk.old).stops (J.seen disk.new).stops result
        DiskAnswer.Stopped }
{
    match disk.write_at(JOURNAL_FILE, at, bytes) {
        Ok(()) => disk.sync(JOURNAL_FILE),
        Err(answer) => Err(answer),
    }
}

/// Makes the device calls by which a text joins a journal whose closed gate stands at this place: what stands behind the
/// gate is written and made durable, and then the gate. `behind` is what `behind_gate` gives of the text.
///
/// It makes these four calls in order, up to the first that is not done, and no others. `Failed` comes exactly where the
/// disk's count of faults rose, and `Stopped` exactly where its count of stops rose. After either, and
/// where memory was wanting behind the first call, only what `mend` does makes a journal of the file again, which then
/// holds its texts, or these and this one.
pub fn append_text<J: SharedDisk>(disk: &mut J, end: u64, behind: &[u8]) -> Result<(), DiskAnswer>
    requires { end < 2 ^ 64 - 1 }
    ensures performs { Performs (calls_behind end behind.now) result (J.seen disk.old).files
        (J.seen disk.new).files (J.seen disk.old).tally (J.seen disk.new).tally }
    ensures cause { RoseExactlyOn (J.seen disk.old).faults (J.seen disk.new).faults result
        DiskAnswer.Failed }
    ensures stop { RoseExactlyOn (J.seen disk.old).stops (J.seen disk.new).stops result
        DiskAnswer.Stopped }
{
    match write_through(disk, end + 1, behind) {
        Ok(()) => write_through(disk, end, &[1]),
        Err(answer) => Err(answer),
    }
}

/// Makes a journal's file with its first text, for which `behind` is what `behind_gate` gives.
///
/// It makes seven calls in order, up to the first that is not done, and no others: an empty file, its closed gate, which
/// is made durable, and then those of `append_text`. `Failed` comes exactly where the disk's count of faults rose, and
/// `Stopped` exactly where its count of stops rose.
pub fn make_file<J: SharedDisk>(disk: &mut J, behind: &[u8]) -> Result<(), DiskAnswer>
    ensures performs { Performs (make_calls behind.now) result (J.seen disk.old).files
        (J.seen disk.new).files (J.seen disk.old).tally (J.seen disk.new).tally }
    ensures cause { RoseExactlyOn (J.seen disk.old).faults (J.seen disk.new).faults result
        DiskAnswer.Failed }
    ensures stop { RoseExactlyOn (J.seen disk.old).stops (J.seen disk.new).stops result
        DiskAnswer.Stopped }
{
    match disk.create(JOURNAL_FILE) {
        Ok(()) => {}
        Err(answer) => return Err(answer),
    }
    match write_through(disk, 0, &[0]) {
        Ok(()) => append_text(disk, 0, behind),
        Err(answer) => Err(answer),
    }
}

// Cuts off what stands behind a closed gate at this place.
fn cut_behind<J: SharedDisk>(disk: &mut J, end: u64) -> Result<(), DiskAnswer>
    requires { end < 2 ^ 64 - 1 }
    ensures done { OnOk result ((J.seen disk.new).files
        ≡ option_map (behind_cut end) (J.seen disk.old).files) }
    ensures kept { (front : List ℕ) → length front ≤ end + 1 →
        Keeps (HasFile journal_name (Shut front)) (HasFile journal_name (Shut front))
        (J.seen disk.old).files (J.seen disk.new).files }
    ensures cause { RoseExactlyOn (J.seen disk.old).faults (J.seen disk.new).faults result
        DiskAnswer.Failed }
    ensures stop { RoseExactlyOn (J.seen disk.old).stops (J.seen disk.new).stops result
        DiskAnswer.Stopped }
    ensures unarmed { StaysUnarmed result (J.seen disk.old).tally (J.seen disk.new).tally }
{
    match disk.cut(JOURNAL_FILE, end + 1) {
        Ok(()) => disk.sync(JOURNAL_FILE),
        Err(answer) => Err(answer),
    }
}

// Closes the gate at this place, where it is not closed, and cuts off what stands behind it.
fn close_and_cut<J: SharedDisk>(disk: &mut J, end: u64, closed: bool) -> Result<(), DiskAnswer>
    requires { end < 2 ^ 64 - 1 }
    ensures done { OnOk result ((J.seen disk.new).files
        ≡ option_map (λ files. behind_cut end (gate_closed end closed files))
        (J.seen disk.old).files) }
    ensures shut { closed ≡ true → (front : List ℕ) → length front ≤ end + 1 →
        Keeps (HasFile journal_name (Shut front)) (HasFile journal_name (Shut front))
        (J.seen disk.old).files (J.seen disk.new).files }
    ensures moving { closed ≡ false → (texts : List (List ℕ)) (text : List ℕ) →
        AreShort texts → IsShort text → end ≡ length (framed texts) →
        Keeps (HasFile journal_name (IsMoving texts text)) (HasStaged texts text)
        (J.seen disk.old).files (J.seen disk.new).files }
    ensures cause { RoseExactlyOn (J.seen disk.old).faults (J.seen disk.new).faults result
        DiskAnswer.Failed }
    ensures stop { RoseExactlyOn (J.seen disk.old).stops (J.seen disk.new).stops result
        DiskAnswer.Stopped }
    ensures unarmed { StaysUnarmed result (J.seen disk.old).tally (J.seen disk.new).tally }
{
    if closed {
        return cut_behind(disk, end);
    }
    match write_through(disk, end, &[0]) {
        Ok(()) => cut_behind(disk, end),
        Err(answer) => Err(answer),
    }
}

/// Mends a journal whose texts end at this place: all of it is made durable, a gate that is not closed is closed, and
/// then what stands behind it is cut off, each step durable before the next.
///
/// Wherever this breaks off, a journal that one more text was to join is such a journal still, so that it can be mended
/// again. `Failed` comes exactly where the disk's count of faults rose, and `Stopped` exactly where its count of stops
/// rose, which it does only where the disk was armed; a disk that was not is not armed afterwards.
pub fn mend<J: SharedDisk>(disk: &mut J, end: u64, closed: bool) -> Result<(), DiskAnswer>
    requires { end < 2 ^ 64 - 1 }
    ensures done { OnOk result ((J.seen disk.new).files
        ≡ option_map (mended end closed) (J.seen disk.old).files) }
    ensures kept { (texts : List (List ℕ)) (text : List ℕ) → AreShort texts → IsShort text →
        Keeps (IsMended texts text end closed) (HasStaged texts text)
        (J.seen disk.old).files (J.seen disk.new).files }
    ensures cause { RoseExactlyOn (J.seen disk.old).faults (J.seen disk.new).faults result
        DiskAnswer.Failed }
    ensures stop { RoseExactlyOn (J.seen disk.old).stops (J.seen disk.new).stops result
        DiskAnswer.Stopped }
    ensures unarmed { StaysUnarmed result (J.seen disk.old).tally (J.seen disk.new).tally }
{
    match disk.sync(JOURNAL_FILE) {
        Ok(()) => close_and_cut(disk, end, closed),
        Err(answer) => Err(answer),
    }
}
