//! Times, in nanoseconds since the first second of 1970.
ghost use Rattle.std.specs.Prelude.{◌↔◌, IsTrue};
ghost use Rattle.ais_values.specs.Times.{IsTime};

/// The time that stands for an unknown one (`SA_TIME_UNKNOWN`).
pub const UNKNOWN_TIME: i64 = i64::MIN;

/// The last moment at which a call is accepted, in the year 2255.
pub const LAST_TIME: i64 = 9_000_000_000_000_000_000;

/// Whether a time is not negative, or the unknown one.
pub fn is_time(time: i64) -> bool
    ensures { IsTrue result ↔ IsTime time }
{
    time >= 0 || time == UNKNOWN_TIME
}
