//! Where a record stands.
ghost use Rattle.std.specs.Prelude.{◌≡◌, ◌<◌};
ghost use Rattle.stream_config.specs.Attributes.{IsSized};
ghost use Rattle.stream_config.specs.Fit.{HasFitFiles};
ghost use Rattle.stream_layout.specs.Spots.{spot_of, next_spot};

use ais_values::Duplicate;
use std::alloc::{AllocError, Global};
use stream_config::{
    FullAction, StreamAttrs, StreamState, current_of, has_room, next_offset, per_file,
};

/// The place of a record in the files of its stream.
#[derive(Clone, Copy, Debug, PartialEq, Eq)]
pub struct Spot {
    /// The number of its file, counted from 0 over all that the stream ever had.
    pub file: u32,
    /// The offset of its first byte there.
    pub at: u64,
}

impl Duplicate for Spot {
    fn copy(&self, _alloc: Global) -> Result<Self, AllocError> {
        Ok(*self)
    }
}

/// Where record `k` of a stream stands, counted from 0. A stream that wraps or halts has one file; one that
/// rotates has a file for every n records, n being what `per_file` gives. Under HALT the place lies within the
/// file where `k` is below n. The sizes lie within the bounds of `check_attrs`, and the record size is
/// above 0.
pub fn place(attrs: &StreamAttrs, k: u32) -> Spot
    requires sized { IsSized attrs.now }
    requires alike { 0 < attrs.now.record_size }
    ensures { result ≡ spot_of attrs.now k }
{
    let n = per_file(attrs);
    let size = u64::from(attrs.record_size);
    match attrs.action {
        FullAction::Wrap => Spot {
            file: 0,
            at: u64::from(k % n) * size,
        },
        FullAction::Halt => Spot {
            file: 0,
            at: u64::from(k) * size,
        },
        FullAction::Rotate => Spot {
            file: k / n,
            at: u64::from(k % n) * size,
        },
    }
}

/// The place of a stream's next record, which takes so many bytes: in the current file, or at the start of the next
/// where a stream that rotates has no room for it there. None exactly where it does not fit its HALT stream. The
/// attributes pass `check_attrs`, and the files are those of a living stream. It takes no memory.
pub fn place_next(state: &StreamState, len: u32) -> Option<Spot>
    requires sized { IsSized state.now.attrs }
    requires files { HasFitFiles state.now }
    requires few { state.now.opened < 4294967295 }
    ensures { result ≡ next_spot state.now len }
{
    let attrs = state.attrs.get();
    let current = current_of(state.files.as_slice());
    let fits = has_room(attrs, current.bytes, len);
    let at = next_offset(state);
    match attrs.action {
        FullAction::Wrap => Some(Spot { file: 0, at }),
        FullAction::Halt => {
            if fits {
                Some(Spot { file: 0, at })
            } else {
                None
            }
        }
        FullAction::Rotate => {
            if fits {
                Some(Spot {
                    file: state.opened - 1,
                    at,
                })
            } else {
                Some(Spot {
                    file: state.opened,
                    at: 0,
                })
            }
        }
    }
}
