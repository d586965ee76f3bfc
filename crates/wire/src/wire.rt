//! Values that can be spelled as bytes and read again.
ghost use Rattle.std.specs.Prelude.{◌≡◌, ℕ, List, ◌++◌, OnOk, Result};
ghost use Rattle.wire_code.specs.Reading.{Gives};

use std::alloc::{AllocError, Global};
use wire_code::Trouble;

/// A value that can be spelled as bytes and read again.
pub(crate) trait Wire {
    ghost use Rattle.wire_code.specs.declared.fault.Fault.{Fault};

    /// The spelling.
    ghost text: { Self → List ℕ };

    /// Which values have a spelling.
    ghost Fits: { Self → Type 0 };

    /// What such a value needs that its type does not give.
    ghost InRange: { Self → Type 0 } = { λ _. Unit {0} };

    /// The reading.
    ghost at: { List ℕ → Result (Self × List ℕ) Fault };

    /// Adds the spelling. `Err` where memory runs out; a list of 2^32 elements or more counts as that, since the
    /// spelling of no message takes 4 GiB. Then the front of a spelling may have been added.
    fn spell(&self, out: &mut Vec<u8>) -> Result<(), AllocError>
        requires { InRange self.now }
        ensures fits { OnOk result (Fits self.now) }
        ensures text { OnOk result (out.new.items ≡ out.old.items ++ text self.now) };

    /// Reads the value at the front, and gives what is left behind it.
    fn read_front(alloc: Global, bytes: &[u8]) -> Result<(Self, &[u8]), Trouble>
        ensures { Gives (λ found. (found.0, found.1.now)) result (at bytes.now) };
}
