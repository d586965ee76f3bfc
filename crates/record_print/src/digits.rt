//! The texts of numbers, names and times.
ghost use Rattle.std.specs.Prelude.{◌≡◌, ◌+◌, ◌-◌, ◌*◌, ◌/◌, ◌%◌, ◌^◌, ◌<◌, ◌≤◌, List, ℕ, [], ◌∷◌, ◌++◌, length, slice_index_or, decimal, codes};
ghost use Rattle.civil_time.specs.Digits.{two_digits, four_digits};
ghost use Rattle.record_print.specs.Printing.{hex_digits, led_digits, hex_bytes, spaces, month_names, day_names, severity_names, clock_hour, civil_text, class_text};
ghost use Rattle.record_print.specs.Sheets.{Adds};

use crate::clock::Clock;
use crate::sheet::Sheet;
use ais_values::tables::{LOG_SEVERITIES, MONTHS};
use ais_values::{ClassId, hex_digit};
use civil_time::digits_of;
use format_expr::TimePart;
use itoa::Buffer;

/// The names of the days of a week, from Monday on.
const DAYS: [&str; 7] = ["Mon", "Tue", "Wed", "Thu", "Fri", "Sat", "Sun"];

/// A number's last digits in hexadecimal.
fn hex_array<const N: usize>(number: u64) -> [u8; N]
    requires { N ≤ 16 }
    ensures { result ≡ hex_digits N number }
{
    let mut digits = [b'0'; N];
    for place in 0..N {
        let shift = 4 * (N - 1 - place) as u32;
        digits[place] = hex_digit((number >> shift & 15) as u8);
    }
    digits
}

/// The first three letters of a month, from 1 on.
fn month_name(month: u8) -> &'static str
    requires low { 1 ≤ month }
    requires high { month ≤ 12 }
    ensures { result.now ≡ slice_index_or month_names (month - 1) [] }
{
    MONTHS[usize::from(month) - 1].name
}

/// The first three letters of a day of the week, from 0 for Monday on.
fn day_name(weekday: u8) -> &'static str
    requires { weekday ≤ 6 }
    ensures { result.now ≡ slice_index_or day_names weekday [] }
{
    DAYS[usize::from(weekday)]
}

/// The two letters of a severity, from 0 to 6.
pub(crate) fn severity_name(severity: u16) -> &'static str
    requires { severity ≤ 6 }
    ensures { result.now ≡ slice_index_or severity_names severity [] }
{
    LOG_SEVERITIES[usize::from(severity)].name
}

/// An hour of a day of 12 or of 24 hours.
fn clock_hour_of(half: bool, hour: u8) -> u8
    ensures { result ≡ clock_hour half hour }
{
    match (half, hour % 12) {
        (false, _) => hour,
        (true, 0) => 12,
        (true, hour) => hour,
    }
}

impl Sheet {
    /// Adds a number in hexadecimal behind some text.
    pub(crate) fn put_hex<const N: usize>(&mut self, lead: &[u8], number: u64)
        requires { N ≤ 16 }
        ensures { Adds self.old self.new (led_digits lead.now N number) }
    {
        self.put(lead);
        self.put(&hex_array::<N>(number));
    }

    /// Adds a number below 100 in two digits.
    fn put_two(&mut self, number: u8)
        requires { number < 100 }
        ensures { Adds self.old self.new (two_digits number) }
    {
        self.put(&digits_of(number));
    }

    /// Adds what is shown of a time.
    pub(crate) fn put_time(&mut self, clock: &Clock, part: TimePart)
        ensures { Adds self.old self.new (civil_text clock.now.half clock.now.nanoseconds
            clock.now.civil part) }
    {
        let civil = clock.civil;
        match part {
            TimePart::Nanoseconds => self.put_hex::<16>(b"0x", clock.nanoseconds),
            TimePart::Hour => self.put_two(clock_hour_of(clock.half, civil.hour)),
            TimePart::Minute => self.put_two(civil.minute),
            TimePart::Second => self.put_two(civil.second),
            TimePart::HalfDay => self.put(if civil.hour < 12 { b"am" } else { b"pm" }),
            TimePart::Month => self.put_two(civil.month),
            TimePart::MonthName => self.put(month_name(civil.month).as_bytes()),
            TimePart::Day => self.put_two(civil.day),
            TimePart::DayName => self.put(day_name(civil.weekday).as_bytes()),
            TimePart::ShortYear => self.put_two((civil.year % 100) as u8),
            TimePart::Year => {
                self.put_two((civil.year / 100) as u8);
                self.put_two((civil.year % 100) as u8);
            }
        }
    }

    /// Adds the number of a class, as it stands in the standard's text.
    pub(crate) fn put_class(&mut self, class: ClassId)
        ensures { Adds self.old self.new (class_text class) }
    {
        self.put_hex::<8>(b"NCI[0x", u64::from(class.vendor));
        self.put_hex::<4>(b",0x", u64::from(class.major));
        self.put_hex::<4>(b",0x", u64::from(class.minor));
        self.put(b"]");
    }

    /// Adds a number in decimal.
    pub(crate) fn put_number(&mut self, number: u32)
        ensures { Adds self.old self.new (decimal number) }
    {
        let mut buffer = Buffer::new();
        self.put(buffer.format(number).as_bytes());
    }

    /// Adds a number in decimal, at the right of ten places.
    pub(crate) fn put_aligned(&mut self, number: u32)
        ensures { Adds self.old self.new (spaces (10 - length (decimal number)) ++ decimal number) }
    {
        let mut buffer = Buffer::new();
        let text = buffer.format(number);
        self.skip(10usize.saturating_sub(text.len()));
        self.put(text.as_bytes());
    }

    /// Adds bytes in hexadecimal.
    pub(crate) fn put_bytes(&mut self, bytes: &[u8])
        ensures { Adds self.old self.new (hex_bytes bytes.now) }
    {
        for byte in bytes {
            if self.is_full() {
                return;
            }
            self.put(&[hex_digit(*byte / 16), hex_digit(*byte % 16)]);
        }
    }
}
