//! The records of a stream's files: which numbers they have, and how many bytes.
ghost use Rattle.std.specs.Prelude.{◌≡◌, ◌≤◌, ◌<◌, ◌-◌, ◌↔◌, IsTrue, length};
ghost use Rattle.stream_config.specs.Attributes.{IsSized};
ghost use Rattle.stream_config.specs.Sizes.{records_per_file};
ghost use Rattle.stream_config.specs.Fit.{count_in, HasFitBytes, IsFilled, AreFilled, BeginEvenly, AreEven};
ghost use Rattle.saved_fit.specs.Filling.{AreEvenIfAlike};

use stream_config::{FullAction, LogFile, MAX_RECORD, StreamAttrs, StreamState, per_file};

/// The most bytes of a record.
const MAX_BYTES: u64 = MAX_RECORD as u64;

/// How many of so many records stand in a file: those for which it has slots, where they wrap.
fn count_in(attrs: &StreamAttrs, count: u32) -> u32
    requires { IsSized attrs.now }
    ensures { result ≡ count_in attrs.now.action (records_per_file attrs.now) count }
{
    match attrs.action {
        FullAction::Wrap => count.min(per_file(attrs)),
        FullAction::Halt | FullAction::Rotate => count,
    }
}

/// Whether a file with so many records can have so many bytes.
fn has_fit_bytes(attrs: &StreamAttrs, count: u32, bytes: u64) -> bool
    requires { IsSized attrs.now }
    ensures { IsTrue result ↔ HasFitBytes attrs.now count bytes }
{
    let count_wide = u64::from(count);
    match attrs.record_size {
        0 => count_wide <= bytes && bytes <= count_wide * MAX_BYTES && bytes <= attrs.max_file,
        size => bytes == count_wide * u64::from(size) && count <= per_file(attrs),
    }
}

/// Whether a file is filled with the records from its first one to the one before `next`.
fn is_filled(attrs: &StreamAttrs, taken: u32, next: u32, file: &LogFile) -> bool
    requires { IsSized attrs.now }
    ensures { IsTrue result ↔ IsFilled attrs.now taken next file.now }
{
    file.first <= next
        && (taken == 0 || file.first < next)
        && has_fit_bytes(attrs, count_in(attrs, next - file.first), file.bytes)
}

/// Whether each file is filled with the records up to the first one of the next, and the last with those up to the
/// last that was taken.
pub(crate) fn are_filled(attrs: &StreamAttrs, taken: u32, files: &[LogFile]) -> bool
    requires { IsSized attrs.now }
    ensures { IsTrue result ↔ AreFilled attrs.now taken files.now }
{
    let mut next = taken;
    for i in (0..files.len()).rev() {
        if !is_filled(attrs, taken, next, &files[i]) {
            return false;
        }
        next = files[i].first;
    }
    true
}

/// Whether files, the last of so many that were made, each begin n records behind the one before.
fn begin_evenly(n: u32, opened: u32, files: &[LogFile]) -> bool
    requires { length files.now ≤ opened }
    ensures { IsTrue result ↔ BeginEvenly n (opened - length files.now) files.now }
{
    let mut number = opened - files.len() as u32;
    for file in files {
        if u64::from(file.first) != u64::from(number) * u64::from(n) {
            return false;
        }
        number += 1;
    }
    true
}

/// Whether as many files were made as records of one size ask for, and they begin evenly.
fn are_even(state: &StreamState) -> bool
    requires sized { IsSized state.now.attrs }
    requires alike { 0 < state.now.attrs.record_size }
    requires few { length state.now.files ≤ state.now.opened }
    ensures { IsTrue result ↔ AreEven state.now }
{
    let n = per_file(state.attrs.get());
    let made = u64::from(state.taken.saturating_sub(1) / n) + 1;
    u64::from(state.opened) == made && begin_evenly(n, state.opened, state.files.as_slice())
}

/// Whether this holds of files that rotate and have records of one size.
pub(crate) fn are_even_if_alike(state: &StreamState) -> bool
    requires sized { IsSized state.now.attrs }
    requires few { length state.now.files ≤ state.now.opened }
    ensures { IsTrue result ↔ AreEvenIfAlike state.now }
{
    let attrs = state.attrs.get();
    attrs.action != FullAction::Rotate || attrs.record_size == 0 || are_even(state)
}
