//! Times that are filled in.
ghost use Rattle.std.specs.Prelude.{◌≡◌};
ghost use Rattle.log_history.specs.Times.{filled_time};

use ais_values::UNKNOWN_TIME;

/// A time, or this moment where it is the unknown one.
pub fn filled_time(time: i64, now: i64) -> i64
    ensures { result ≡ filled_time time now }
{
    if time == UNKNOWN_TIME { now } else { time }
}
