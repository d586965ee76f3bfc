//! The files of a stream as its next record is stored.
ghost use Rattle.std.specs.Prelude.{◌≡◌, ◌≢◌, ◌+◌, ◌<◌, ◌≤◌, ◌^◌, ℕ, drop, vec_len, unsigned_abs, IfOk, None, false};
ghost use Rattle.stream_config.specs.Attributes.{IsSized};
ghost use Rattle.stream_config.specs.Fit.{changes_file};
ghost use Rattle.stream_config.specs.Events.{current_file, most_files, last_closed, last_with as files_with, next_offset, files_stored};
ghost use Rattle.record_print.specs.declared.record.LogRecord.{LogRecord as RecordOf};
ghost use Rattle.log_history.specs.Table.{length_in, due_stamps};
ghost use Rattle.log_service.specs.Moments.{IsMoment, second_of};
ghost use Rattle.log_service.specs.Changing.{last_with, opened_with};
ghost use Rattle.log_service.specs.Planning.{files_after};

use ais_values::{Duplicate, Seq};
use std::alloc::{AllocError, Global};
use std::mem::replace;
use stream_config::{
    FullAction, LogFile, Stamps, StreamAttrs, StreamState, changes_file, current_of, next_offset,
    stamp,
};

/// How the files of a stream stand once a record is stored.
#[derive(Drop)]
pub(crate) enum Filed {
    /// The last one ends there, or behind. An empty list takes the place of the files while they change.
    Grown { end: u64, room: Seq<LogFile> },
    /// Another file is begun, and these stand.
    Begun { files: Seq<LogFile> },
}

/// The stamps of the change of file that the next record of so many bytes brings, where it brings one.
pub(crate) fn due_stamps(state: &StreamState, len: u32, last: i64, now: i64) -> Option<Stamps>
    requires moment { IsMoment last now }
    ensures due { (rec : RecordOf) → len ≡ length_in state.now rec →
        result ≡ due_stamps (unsigned_abs last) (second_of now) rec state.now }
    ensures none { result ≡ None → changes_file state.now.attrs
        (current_file state.now.files).bytes len ≡ false }
{
    let current = current_of(state.files.as_slice());
    if !changes_file(state.attrs.get(), current.bytes, len) {
        return None;
    }
    let closed = stamp(last, now);
    let created = stamp(closed, now);
    Some(Stamps { closed, created })
}

/// The last stamp once these are taken.
pub(crate) fn last_after(last: i64, stamps: Option<Stamps>) -> i64
    ensures { result ≡ last_with last stamps }
{
    match stamps {
        None => last,
        Some(stamps) => stamps.created,
    }
}

/// How many files were made once these stamps are taken.
pub(crate) fn opened_after(opened: u32, stamps: Option<Stamps>) -> u32
    requires { opened < 4294967295 }
    ensures { result ≡ opened_with opened stamps }
{
    match stamps {
        None => opened,
        Some(_) => opened + 1,
    }
}

/// How many files of a stream stand at most.
fn most_files(action: FullAction, rotated: u32) -> u32
    ensures { result ≡ most_files action rotated }
{
    match action {
        FullAction::Wrap | FullAction::Halt => 1,
        FullAction::Rotate => rotated,
    }
}

/// Removes files from the front.
fn remove_front(files: &mut Vec<LogFile>, count: usize)
    requires { count ≤ vec_len files.old }
    ensures { files.new.items ≡ drop count files.old.items }
{
    let rest = files.len() - count;
    files.rotate_left(count);
    files.truncate(rest);
}

/// Closes the last file.
fn close_last(files: &mut Vec<LogFile>, closed: i64)
    ensures { files.new.items ≡ last_closed closed files.old.items }
{
    let count = files.len();
    if count > 0 {
        files[count - 1].closed = Some(closed);
    }
}

/// The last file ends there, or behind.
fn grow_last(files: &mut Vec<LogFile>, end: u64)
    ensures { files.new.items ≡ files_with 0 end files.old.items }
{
    let count = files.len();
    if count > 0 {
        let bytes = files[count - 1].bytes.max(end);
        files[count - 1].bytes = bytes;
    }
}

/// The last file of a list ends there, or behind. An empty list takes its place meanwhile, so it takes no memory.
fn grow(files: &mut Seq<LogFile>, room: Seq<LogFile>, end: u64)
    ensures { files.new ≡ files_with 0 end files.old }
{
    let mut items = replace(files, room).into_vec();
    grow_last(&mut items, end);
    let room = replace(files, Seq::from_vec(items));
    drop(room);
}

/// The files stand so. It takes no memory.
pub(crate) fn stand_so(files: &mut Seq<LogFile>, filed: Filed)
    ensures { files.new ≡ files_after filed files.old }
{
    match filed {
        Filed::Grown { end, room } => grow(files, room, end),
        Filed::Begun { files: begun } => *files = begun,
    }
}

/// The files with another one, which the record of so many bytes begins.
fn files_begun(
    alloc: Global,
    state: &StreamState,
    len: u32,
    stamps: Stamps,
) -> Result<Seq<LogFile>, AllocError>
    ensures { IfOk result (λ files. files ≡ files_stored state.now len (Some stamps)) }
{
    let mut files = state.files.copy(alloc)?.into_vec();
    close_last(&mut files, stamps.closed);
    files.push(LogFile {
        created: stamps.created,
        closed: None,
        first: state.taken,
        bytes: u64::from(len),
    })?;
    let attrs = state.attrs.get();
    let most = most_files(attrs.action, attrs.rotated) as usize;
    let excess = files.len().saturating_sub(most);
    remove_front(&mut files, excess);
    Ok(Seq::from_vec(files))
}

/// The files with the record of so many bytes in the last one.
fn grown(alloc: Global, state: &StreamState, len: u32) -> Filed
    requires sized { IsSized state.now.attrs }
    requires room { next_offset state.now + len < 2 ^ 64 }
    ensures { files_after result state.now.files
        ≡ files_with (next_offset state.now) len state.now.files }
{
    Filed::Grown {
        end: next_offset(state) + u64::from(len),
        room: Seq::new(alloc),
    }
}

/// How the files stand once a record of so many bytes is stored, with these stamps where it begins a file.
pub(crate) fn files_stored(
    alloc: Global,
    state: &StreamState,
    len: u32,
    stamps: Option<Stamps>,
) -> Result<Filed, AllocError>
    requires sized { IsSized state.now.attrs }
    requires room { stamps ≡ None → next_offset state.now + len < 2 ^ 64 }
    ensures { IfOk result (λ filed.
        files_after filed state.now.files ≡ files_stored state.now len stamps) }
{
    match stamps {
        None => Ok(grown(alloc, state, len)),
        Some(stamps) => {
            let files = files_begun(alloc, state, len, stamps)?;
            Ok(Filed::Begun { files })
        }
    }
}
