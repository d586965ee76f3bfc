//! Stamps: seconds as they stand in the names of files.
ghost use Rattle.std.specs.Prelude.{◌≡◌, ◌<◌, ◌≤◌, ℕ};
ghost use Rattle.civil_time.specs.Digits.{two_digits};
ghost use Rattle.civil_time.specs.Fields.{last_second};
ghost use Rattle.civil_time.specs.Stamps.{stamp_of};

use crate::civil::civil_in_range;

/// The two digits of a number below 100, in ASCII.
pub fn digits_of(number: u8) -> [u8; 2]
    requires { number < 100 }
    ensures { result ≡ two_digits number }
{
    [b'0' + number / 10, b'0' + number % 10]
}

/// A second, counted from 1970-01-01T00:00:00, as `YYYYMMDD_HHMMSS` in UTC.
#[tactic(auto, unfolding(crate::specs::Stamps::stamp_of))]
pub fn stamp_at(second: u64) -> [u8; 15]
    requires { second ≤ last_second }
    ensures { result ≡ stamp_of second }
{
    let shown = civil_in_range(second);
    let [y1, y2] = digits_of((shown.year / 100) as u8);
    let [y3, y4] = digits_of((shown.year % 100) as u8);
    let [o1, o2] = digits_of(shown.month);
    let [d1, d2] = digits_of(shown.day);
    let [h1, h2] = digits_of(shown.hour);
    let [m1, m2] = digits_of(shown.minute);
    let [s1, s2] = digits_of(shown.second);
    [y1, y2, y3, y4, o1, o2, d1, d2, b'_', h1, h2, m1, m2, s1, s2]
}

/// No two seconds have one stamp.
pub fn law_of_stamps()
    ensures { (one other : ℕ) → one ≤ last_second → other ≤ last_second
        → stamp_of one ≡ stamp_of other → one ≡ other }
{}
