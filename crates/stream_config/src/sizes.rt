//! How many records a file holds, and the stamps of files.
ghost use Rattle.std.specs.Prelude.{◌≡◌, ◌≤ℤ◌, pos, unsigned_abs, ◌≤◌, ◌<◌};
ghost use Rattle.ais_values.specs.Bounds.{last_moment};
ghost use Rattle.stream_config.specs.Attributes.{IsSized};
ghost use Rattle.stream_config.specs.Sizes.{records_per_file};
ghost use Rattle.stream_config.specs.Stamps.{next_stamp};

use crate::StreamAttrs;

/// How many nanoseconds a second has.
pub const NANOSECONDS_PER_SECOND: i64 = 1_000_000_000;

/// How many records a file of a stream of these attributes holds, which is 1 at least: the greatest file size
/// divided by the record size, rounded down. The sizes lie within the bounds of `check_attrs`, and the record size
/// is above 0.
pub fn per_file(attrs: &StreamAttrs) -> u32
    requires sized { IsSized attrs.now }
    requires alike { 0 < attrs.now.record_size }
    ensures value { result ≡ records_per_file attrs.now }
    ensures some { 1 ≤ result }
{
    (attrs.max_file / u64::from(attrs.record_size)) as u32
}

/// The stamp, in seconds, that comes behind the last one at a time in nanoseconds: the time's second, or the
/// last stamp plus one second if that is later.
pub fn stamp(last: i64, time: i64) -> i64
    requires last_from { pos 0 ≤ℤ last }
    requires last_to { last ≤ℤ pos 20000000000 }
    requires time_from { pos 0 ≤ℤ time }
    requires time_to { time ≤ℤ pos last_moment }
    ensures { result ≡ pos (next_stamp (unsigned_abs last) (unsigned_abs time)) }
{
    (last + 1).max(time / NANOSECONDS_PER_SECOND)
}
