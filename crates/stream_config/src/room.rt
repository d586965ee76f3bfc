//! Where a stream's next record goes.
ghost use Rattle.std.specs.Prelude.{◌≡◌};
ghost use Rattle.stream_config.specs.Attributes.{IsSized};
ghost use Rattle.stream_config.specs.Events.{current_file, next_offset};
ghost use Rattle.stream_config.specs.Fit.{next_first, first_standing, is_rotating, changes_file};
ghost use Rattle.stream_config.specs.Sizes.{has_room};

use crate::{FullAction, LogFile, StreamAttrs, StreamState, per_file};

/// The current file, the last of those that stand; no stream is without one.
pub fn current_of(files: &[LogFile]) -> LogFile
    ensures { result ≡ current_file files.now }
{
    if files.is_empty() {
        return LogFile {
            created: 0,
            closed: None,
            first: 0,
            bytes: 0,
        };
    }
    files[files.len() - 1]
}

/// Whether a record of so many bytes has room behind those of a file.
pub fn has_room(attrs: &StreamAttrs, bytes: u64, len: u32) -> bool
    ensures { result ≡ has_room attrs.now bytes len }
{
    bytes <= attrs.max_file && u64::from(len) <= attrs.max_file - bytes
}

/// Whether a new file is begun where one is full.
fn is_rotating(action: FullAction) -> bool
    ensures { result ≡ is_rotating action }
{
    match action {
        FullAction::Rotate => true,
        FullAction::Wrap | FullAction::Halt => false,
    }
}

/// Whether the file changes before a record of so many bytes, as it has no room behind those of the current one.
pub fn changes_file(attrs: &StreamAttrs, bytes: u64, len: u32) -> bool
    ensures { result ≡ changes_file attrs.now bytes len }
{
    is_rotating(attrs.action) && !has_room(attrs, bytes, len)
}

/// Where the next record stands in the current file, if it goes there: behind its bytes, or where it wraps in the
/// slot of its number. The sizes lie within the bounds of `check_attrs`.
pub fn next_offset(state: &StreamState) -> u64
    requires { IsSized state.now.attrs }
    ensures { result ≡ next_offset state.now }
{
    let attrs = state.attrs.get();
    match attrs.action {
        FullAction::Wrap => {
            let slot = state.taken % per_file(attrs);
            u64::from(slot) * u64::from(attrs.record_size)
        }
        FullAction::Halt | FullAction::Rotate => current_of(state.files.as_slice()).bytes,
    }
}

/// The number of the first record in files, or of the one that comes where there is none.
fn first_of(files: &[LogFile], taken: u32) -> u32
    ensures { result ≡ next_first files.now taken }
{
    if files.is_empty() {
        taken
    } else {
        files[0].first
    }
}

/// The number of the first record of a stream that stands. The sizes lie within the bounds of `check_attrs`.
pub fn first_standing(state: &StreamState) -> u32
    requires { IsSized state.now.attrs }
    ensures { result ≡ first_standing state.now }
{
    let attrs = state.attrs.get();
    match attrs.action {
        FullAction::Wrap => state.taken.saturating_sub(per_file(attrs)),
        FullAction::Halt | FullAction::Rotate => first_of(state.files.as_slice(), state.taken),
    }
}
