//! What clocks show of a record's times.
ghost use Rattle.civil_time.specs.Fields.{IsInRange};

use civil_time::{Civil, civil_at};

/// What of a time is shown, and whether its hours run to 12.
#[derive(Drop)]
pub(crate) struct Clock {
    pub(crate) nanoseconds: u64,
    pub(crate) half: bool,
    pub(crate) civil: Civil,
    ghost ranges: { IsInRange civil },
}

impl Clock {
    ghost use Rattle.std.specs.Prelude.{unsigned_abs};
    ghost use Rattle.std.specs.Int.{IsNonNegative};
    ghost use Rattle.record_print.specs.Figures.{IsClock};

    /// The clock of a time, in nanoseconds since 1970-01-01T00:00:00 UTC.
    pub(crate) fn new(time: i64, half: bool) -> Clock
        requires { IsNonNegative time }
        ensures { IsClock result half (unsigned_abs time) }
    {
        let nanoseconds = time.unsigned_abs();
        Clock {
            nanoseconds,
            half,
            civil: civil_at(nanoseconds / 1_000_000_000),
        }
    }
}
