//! What a source of bytes and a sink of bytes promise.
ghost use Rattle.std.specs.Prelude.{ℕ, ◌<◌, ◌≤◌, List, length, Option, IfOk};
ghost use Rattle.std.specs.Io.{ReadsAtMost, WritesAtMost};
ghost use Rattle.std.specs.Io.KnownBytes.{ReadConsumes, WriteAppends};
ghost use Rattle.ais_values.specs.Causes.{RoseExactlyOn};

use crate::{IoFault, SinkAnswer};

/// What gives bytes, in pieces, until its end.
pub trait Source {
    /// The bytes that are left to read, where the source tells them.
    ghost left: { Self → Option (List ℕ) };

    /// How often reading failed. The count never falls, and stops at the greatest `u64`.
    ghost faults: { Self → ℕ };

    /// Reads the next bytes into the front of `buf` and answers their number.
    ///
    /// 0 with room in `buf` is the end of the input. `Failed` comes exactly where `faults` rose, and then
    /// no byte was taken; on `Ok` the count stands.
    fn read(&mut self, buf: &mut [u8]) -> Result<usize, IoFault>
        ensures bound { ReadsAtMost result buf.new }
        ensures bytes { ReadConsumes (left self.old) (left self.new) result buf.new }
        ensures cause { RoseExactlyOn (faults self.old) (faults self.new) result IoFault.Failed };
}

/// What takes bytes, in pieces.
pub trait Sink {
    /// The bytes that were written, where the sink tells them.
    ghost written: { Self → Option (List ℕ) };

    /// How often writing failed. The count never falls, and stops at the greatest `u64`.
    ghost faults: { Self → ℕ };

    /// Appends a front of `bytes` and answers its length, which is at least 1 for a piece that is not empty.
    ///
    /// `Failed` comes exactly where `faults` rose, `Memory` where memory ran out. On both nothing was
    /// appended. On `Ok` and `Memory` the count stands.
    fn write(&mut self, bytes: &[u8]) -> Result<usize, SinkAnswer>
        ensures bound { WritesAtMost result bytes.now }
        ensures some { IfOk result (λ count. 0 < length bytes.now → 1 ≤ count) }
        ensures bytes { WriteAppends (written self.old) (written self.new) result bytes.now }
        ensures cause { RoseExactlyOn (faults self.old) (faults self.new) result
            SinkAnswer.Failed };
}
