//! The files of a stream, and their stamps.
ghost use Rattle.std.specs.Prelude.{◌≡◌, ◌≤◌, ◌↔◌, IsTrue, None, length, false};
ghost use Rattle.std.specs.List.{AllByRecursion};
ghost use Rattle.stream_config.specs.Attributes.{kind_of, PassesAttrs};
ghost use Rattle.stream_config.specs.Fit.{stamps_of, rises, is_last_open, count_standing, next_first, HasFitFiles};
ghost use Rattle.log_history.specs.Stamps.{IsStampUpTo};
ghost use Rattle.saved_fit.specs.Files.{is_behind, last_stamp, files_rise, open_last, HasStampsUpTo};
ghost use Rattle.saved_fit.specs.Filling.{IsAlone, HasStart};

use crate::filling::{are_even_if_alike, are_filled};
use stream_config::{FullAction, LogFile, StreamState};

/// Whether a file was made behind a stamp, if there is one, and closed behind its making, if it was.
fn is_behind(last: Option<i64>, file: &LogFile) -> bool
    ensures { result ≡ is_behind last file.now }
{
    let made = match last {
        None => true,
        Some(last) => last < file.created,
    };
    match file.closed {
        None => made,
        Some(closed) => made && file.created < closed,
    }
}

/// The last stamp of a file.
fn last_stamp(file: &LogFile) -> i64
    ensures { result ≡ last_stamp file.now }
{
    match file.closed {
        None => file.created,
        Some(closed) => closed,
    }
}

/// Whether the stamps of files rise.
fn files_rise(files: &[LogFile]) -> bool
    ensures { result ≡ files_rise None files.now }
{
    let mut last = None;
    for file in files {
        if !is_behind(last, file) {
            return false;
        }
        last = Some(last_stamp(file));
    }
    true
}

/// Whether the last of these is not closed, and all before it are.
fn open_last(files: &[LogFile]) -> bool
    ensures { result ≡ open_last false files.now }
{
    let mut unclosed = false;
    for file in files {
        if unclosed {
            return false;
        }
        unclosed = file.closed.is_none();
    }
    unclosed
}

/// Whether all stamps of files rise.
fn stamps_rise(files: &[LogFile]) -> bool
    ensures { result ≡ rises (stamps_of files.now) }
{
    files_rise(files)
}

/// Whether the last file alone is not closed.
fn is_last_open(files: &[LogFile]) -> bool
    ensures { result ≡ is_last_open files.now }
{
    open_last(files)
}

/// How many files stand of those that were made.
fn count_standing(state: &StreamState) -> u32
    ensures { result
        ≡ count_standing state.now.attrs.action state.now.attrs.rotated state.now.opened }
{
    let attrs = state.attrs.get();
    match attrs.action {
        FullAction::Wrap | FullAction::Halt => state.opened,
        FullAction::Rotate => state.opened.min(attrs.rotated),
    }
}

/// Whether as many files stand as were made, or the last of them that may.
fn has_count(state: &StreamState) -> bool
    ensures { IsTrue result ↔ (length state.now.files
        ≡ count_standing state.now.attrs.action state.now.attrs.rotated state.now.opened) }
{
    state.files.as_slice().len() as u64 == u64::from(count_standing(state))
}

/// Whether a stream that does not rotate has one file.
fn is_alone(state: &StreamState) -> bool
    ensures { IsTrue result ↔ IsAlone state.now }
{
    state.attrs.get().action == FullAction::Rotate || state.opened == 1
}

/// Whether files begin with the first record of all.
fn begin_at_start(files: &[LogFile]) -> bool
    ensures { IsTrue result ↔ (next_first files.now 0 ≡ 0) }
{
    files.is_empty() || files[0].first == 0
}

/// Whether the files that stand begin with the first record of all, where all that were made stand.
fn has_start(state: &StreamState) -> bool
    ensures { IsTrue result ↔ HasStart state.now }
{
    let files = state.files.as_slice();
    files.len() as u64 != u64::from(state.opened) || begin_at_start(files)
}

/// Whether the files of a stream can be those of the records that it has taken: their stamps rise, the last one alone
/// is not closed, as many stand as may, and each has so many bytes as its records can have.
pub(crate) fn has_fit_files(state: &StreamState) -> bool
    requires { PassesAttrs (kind_of state.now.name) state.now.attrs }
    ensures { IsTrue result ↔ HasFitFiles state.now }
{
    stamps_rise(state.files.as_slice())
        && is_last_open(state.files.as_slice())
        && state.opened >= 1
        && is_alone(state)
        && state.opened <= state.taken.max(1)
        && has_count(state)
        && has_start(state)
        && are_filled(state.attrs.get(), state.taken, state.files.as_slice())
        && are_even_if_alike(state)
}

/// Whether a stamp is not negative, and not behind the last one.
fn is_stamp(last: i64, stamp: i64) -> bool
    ensures { IsTrue result ↔ IsStampUpTo last stamp }
{
    stamp >= 0 && stamp <= last
}

/// Whether the stamps of a file are not negative, and not behind the last one.
fn has_stamps(last: i64, file: &LogFile) -> bool
    ensures { IsTrue result ↔ HasStampsUpTo last file.now }
{
    match file.closed {
        None => is_stamp(last, file.created),
        Some(closed) => is_stamp(last, file.created) && is_stamp(last, closed),
    }
}

/// Whether this holds of each file.
fn each_has_stamps(last: i64, files: &[LogFile]) -> bool
    ensures { IsTrue result ↔ AllByRecursion (HasStampsUpTo last) files.now }
{
    files.iter().all(|file| has_stamps(last, file))
}

/// Whether all stamps of files are not negative, and not behind the last one.
pub(crate) fn are_stamps(last: i64, files: &[LogFile]) -> bool
    ensures { IsTrue result ↔ AllByRecursion (IsStampUpTo last) (stamps_of files.now) }
{
    each_has_stamps(last, files)
}
