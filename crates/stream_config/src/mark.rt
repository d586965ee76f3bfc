//! Which severities of records a stream lets pass.
ghost use Rattle.std.specs.Prelude.{◌≡◌, ◌≤◌};
ghost use Rattle.stream_config.specs.Marks.{first_mark, made_mark, lets_pass};

use ais_values::Duplicate;
use std::alloc::{AllocError, Global};

/// The greatest mask: all severities pass.
pub const MAX_MASK: u32 = 127;

/// The mask of a stream, and where it was set.
#[derive(Clone, Copy, PartialEq, Eq, Debug)]
pub struct Mark {
    /// The number of the entry that made the stream or last set its mask; 0 for a well-known stream that was
    /// never set.
    pub since: u64,
    /// Bit `2^s` lets records of severity s pass, up to `MAX_MASK`.
    pub mask: u32,
}

impl Mark {
    /// The mark of a well-known stream that was never set: all severities pass.
    pub fn first() -> Mark
        ensures { result ≡ first_mark }
    {
        Mark::made(0)
    }

    /// The mark of a stream that the entry of this number made: all severities pass.
    pub fn made(number: u64) -> Mark
        ensures { result ≡ made_mark number }
    {
        Mark {
            since: number,
            mask: MAX_MASK,
        }
    }
}

/// Whether a mask lets records of a severity pass.
pub fn lets_pass(mask: u32, severity: u16) -> bool
    requires { severity ≤ 6 }
    ensures { result ≡ lets_pass mask severity }
{
    (mask >> severity) % 2 == 1
}

impl Duplicate for Mark {
    fn copy(&self, _alloc: Global) -> Result<Self, AllocError> {
        Ok(*self)
    }
}
