//! The tokens of format expressions.
ghost use Rattle.std.specs.Prelude.{◌≡◌};
ghost use Rattle.format_expr.specs.TokenRows.{part_in};
ghost use Rattle.format_expr.specs.Tokens.{letters, part_with};

use ais_values::Duplicate;
use std::alloc::{AllocError, Global};

/// Which of a record's two times a token shows.
#[derive(Clone, Copy, Debug, PartialEq, Eq)]
pub enum Moment {
    /// The time of the record, class `C`.
    Record,
    /// The time of the notified event, class `N`.
    Event,
}

/// What of a time a token shows.
#[derive(Clone, Copy, Debug, PartialEq, Eq)]
pub enum TimePart {
    /// The nanoseconds, in hexadecimal.
    Nanoseconds,
    Hour,
    Minute,
    Second,
    /// Before or after noon; the hour then counts to 12.
    HalfDay,
    Month,
    MonthName,
    Day,
    DayName,
    /// The year's last two digits.
    ShortYear,
    Year,
}

/// What of a record a token shows.
#[derive(Clone, Copy, Debug, PartialEq, Eq)]
pub enum Part {
    Number,
    Time { moment: Moment, part: TimePart },
    ClassId,
    /// Whether the record's text is cut.
    Cut,
    Body,
    /// The bytes of the body, in hexadecimal.
    BodyBytes,
    NotificationId,
    EventType,
    Object,
    Notifier,
    User,
    Severity,
}

/// A token: what it shows, and in how many places.
#[derive(Clone, Copy, Debug, PartialEq, Eq)]
pub struct Token {
    pub part: Part,
    /// 1 to 255, or none for the standard form.
    pub width: Option<u8>,
}

/// A row of the table of tokens: its class letter, its field letter, and what it shows.
struct TokenRow {
    class: u8,
    field: u8,
    part: Part,
}

macro_rules! token_rows {
    ($callback:ident $($argument:tt)*) => {
        $callback! {
            $($argument)*;
            (b'C', b'r', [Part::Number])
            (b'C', b't', [Part::Time { moment: Moment::Record, part: TimePart::Nanoseconds }])
            (b'C', b'h', [Part::Time { moment: Moment::Record, part: TimePart::Hour }])
            (b'C', b'n', [Part::Time { moment: Moment::Record, part: TimePart::Minute }])
            (b'C', b's', [Part::Time { moment: Moment::Record, part: TimePart::Second }])
            (b'C', b'a', [Part::Time { moment: Moment::Record, part: TimePart::HalfDay }])
            (b'C', b'm', [Part::Time { moment: Moment::Record, part: TimePart::Month }])
            (b'C', b'M', [Part::Time { moment: Moment::Record, part: TimePart::MonthName }])
            (b'C', b'd', [Part::Time { moment: Moment::Record, part: TimePart::Day }])
            (b'C', b'D', [Part::Time { moment: Moment::Record, part: TimePart::DayName }])
            (b'C', b'y', [Part::Time { moment: Moment::Record, part: TimePart::ShortYear }])
            (b'C', b'Y', [Part::Time { moment: Moment::Record, part: TimePart::Year }])
            (b'C', b'c', [Part::ClassId])
            (b'C', b'x', [Part::Cut])
            (b'C', b'b', [Part::Body])
            (b'C', b'i', [Part::BodyBytes])
            (b'N', b't', [Part::Time { moment: Moment::Event, part: TimePart::Nanoseconds }])
            (b'N', b'h', [Part::Time { moment: Moment::Event, part: TimePart::Hour }])
            (b'N', b'n', [Part::Time { moment: Moment::Event, part: TimePart::Minute }])
            (b'N', b's', [Part::Time { moment: Moment::Event, part: TimePart::Second }])
            (b'N', b'a', [Part::Time { moment: Moment::Event, part: TimePart::HalfDay }])
            (b'N', b'm', [Part::Time { moment: Moment::Event, part: TimePart::Month }])
            (b'N', b'M', [Part::Time { moment: Moment::Event, part: TimePart::MonthName }])
            (b'N', b'd', [Part::Time { moment: Moment::Event, part: TimePart::Day }])
            (b'N', b'D', [Part::Time { moment: Moment::Event, part: TimePart::DayName }])
            (b'N', b'y', [Part::Time { moment: Moment::Event, part: TimePart::ShortYear }])
            (b'N', b'Y', [Part::Time { moment: Moment::Event, part: TimePart::Year }])
            (b'N', b'i', [Part::NotificationId])
            (b'N', b'e', [Part::EventType])
            (b'N', b'o', [Part::Object])
            (b'N', b'g', [Part::Notifier])
            (b'S', b'l', [Part::User])
            (b'S', b'v', [Part::Severity])
        }
    };
}

macro_rules! as_table {
    (; $(($class:literal, $field:literal, [$($part:tt)*]))*) => {
        [$(TokenRow { class: $class, field: $field, part: $($part)* }),*]
    };
}

macro_rules! as_letters {
    ($part:ident; $(($class:literal, $field:literal, [$($pattern:tt)*]))*) => {
        match $part {
            $($($pattern)* => [$class, $field],)*
        }
    };
}

/// The tokens that there are.
const TOKENS: [TokenRow; 33] = token_rows!(as_table);

/// The class letter and the field letter of what a token shows.
pub fn letters_of(part: Part) -> [u8; 2]
    ensures { result ≡ letters part }
{
    token_rows!(as_letters part)
}

/// What a table of tokens has for these two letters, by its first row that has them.
fn first_part(rows: &[TokenRow], class: u8, field: u8) -> Option<Part>
    ensures { result ≡ part_in rows.now class field }
{
    for row in rows {
        if row.class == class && row.field == field {
            return Some(row.part);
        }
    }
    None
}

/// What the token with this class letter and this field letter shows.
pub fn part_of(class: u8, field: u8) -> Option<Part>
    ensures { result ≡ part_with class field }
{
    first_part(&TOKENS, class, field)
}

impl Duplicate for Token {
    fn copy(&self, _alloc: Global) -> Result<Self, AllocError> {
        Ok(*self)
    }
}
