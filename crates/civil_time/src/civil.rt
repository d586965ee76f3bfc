//! What a clock in UTC shows.
ghost use Rattle.std.specs.Prelude.{◌≡◌, ◌≤◌, ℕ};
ghost use Rattle.civil_time.specs.Fields.{civil_of, last_second, IsInRange};

use jiff::Timestamp;
use jiff::tz::Offset;

/// The last second, counted from 1970-01-01T00:00:00, that these functions take: in the year 2603.
pub const LAST_SECOND: u64 = 20_000_000_100;

/// A date and a time of day in UTC, to the second.
#[derive(Clone, Copy, Debug, PartialEq, Eq)]
pub struct Civil {
    /// 1970 to 2603.
    pub year: u16,
    /// 1 to 12.
    pub month: u8,
    /// The day of the month, from 1.
    pub day: u8,
    /// 0 for Monday to 6 for Sunday.
    pub weekday: u8,
    /// 0 to 23.
    pub hour: u8,
    /// 0 to 59.
    pub minute: u8,
    /// 0 to 59.
    pub second: u8,
}

/// The date and time of day of a second, with the ranges of its fields.
pub(crate) fn civil_in_range(second: u64) -> Civil
    requires { second ≤ last_second }
    ensures value { result ≡ civil_of second }
    ensures ranges { IsInRange result }
{
    let shown = Offset::UTC.to_datetime(Timestamp::from_second(second as i64).unwrap());
    Civil {
        year: shown.year().unsigned_abs(),
        month: shown.month().unsigned_abs(),
        day: shown.day().unsigned_abs(),
        weekday: shown.weekday().to_monday_zero_offset().unsigned_abs(),
        hour: shown.hour().unsigned_abs(),
        minute: shown.minute().unsigned_abs(),
        second: shown.second().unsigned_abs(),
    }
}

/// The date and time of day, in UTC, of a second counted from 1970-01-01T00:00:00.
pub fn civil_at(second: u64) -> Civil
    requires { second ≤ last_second }
    ensures { result ≡ civil_of second }
{
    civil_in_range(second)
}

/// The last second is 20,000,000,100, and up to it the fields lie where a calendar and a clock have them.
pub fn law_of_civil_times()
    ensures last { LAST_SECOND ≡ last_second }
    ensures ranges { (second : ℕ) → second ≤ last_second → IsInRange (civil_of second) }
{}
