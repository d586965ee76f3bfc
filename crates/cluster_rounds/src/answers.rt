//! Answers of several events.
ghost use Rattle.std.specs.Prelude.{◌≡◌, ◌||◌};

/// Whether one of two is so.
pub(crate) fn either(one: bool, other: bool) -> bool
    ensures { result ≡ (one || other) }
{
    one || other
}
