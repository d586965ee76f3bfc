//! Writing all of a text to a sink.
ghost use Rattle.ais_values.specs.Causes.{RoseExactlyOn};
ghost use Rattle.io_edge.specs.Writes.{WritesAll};

use crate::{Sink, SinkAnswer};

/// Writes all of `bytes`, piece by piece.
///
/// `Failed` comes exactly where the sink's count of faults rose, `Memory` where memory ran out. On both a
/// front of `bytes` was written, and not all of it. On `Ok` and `Memory` the count stands, so
/// no write had failed.
pub fn write_all<K: Sink>(sink: &mut K, bytes: &[u8]) -> Result<(), SinkAnswer>
    ensures bytes { WritesAll (K.written sink.old) (K.written sink.new) bytes.now result }
    ensures cause { RoseExactlyOn (K.faults sink.old) (K.faults sink.new) result SinkAnswer.Failed }
{
    let mut done = 0;
    while done < bytes.len() {
        match sink.write(&bytes[done..]) {
            Ok(count) => done += count,
            Err(answer) => return Err(answer),
        }
    }
    Ok(())
}
