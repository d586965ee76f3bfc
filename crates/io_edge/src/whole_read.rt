//! Reading a source to its end, up to a limit.
ghost use Rattle.std.specs.Prelude.{◌<◌, ◌≤◌, ◌+◌};
ghost use Rattle.ais_values.specs.Causes.{RoseExactlyOn};
ghost use Rattle.io_edge.specs.Reads.{ReadsAll};

use crate::{IoFault, ReadAnswer, Source};
use std::alloc::Global;

/// The most bytes that are read in one call.
const CHUNK: usize = 8192;

/// Reads `source` to its end and answers its bytes, of which there are at most `limit`.
///
/// `TooLong` comes exactly where `limit + 1` bytes were taken, `ReadFault` exactly where the source's count
/// of faults rose, `Memory` where memory ran out. On these two at most `limit` bytes were taken. On every
/// answer but `ReadFault` the count stands. The memory for a piece is taken before it is read.
pub fn read_all<S: Source>(
    alloc: Global,
    source: &mut S,
    limit: usize,
) -> Result<Vec<u8>, ReadAnswer>
    requires { limit < usize.MAX }
    ensures bytes { ReadsAll (S.left source.old) (S.left source.new) limit result }
    ensures cause { RoseExactlyOn (S.faults source.old) (S.faults source.new) result
        ReadAnswer.ReadFault }
{
    let mut bytes = Vec::new(alloc);
    let mut chunk = [0; CHUNK];
    while bytes.len() <= limit {
        let room = (limit + 1 - bytes.len()).min(CHUNK);
        bytes.reserve(room)?;
        match source.read(&mut chunk[..room]) {
            Ok(0) => return Ok(bytes),
            Ok(count) => bytes.extend_from_slice(&chunk[..count]).unwrap(),
            Err(IoFault::Failed) => return Err(ReadAnswer::ReadFault),
        }
    }
    Err(ReadAnswer::TooLong)
}
