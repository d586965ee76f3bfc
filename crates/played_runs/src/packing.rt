//! Lines that are handed on many at once.
ghost use Rattle.std.specs.Prelude.{◌≡◌, ◌++◌, [], OnOk, OnErr};
ghost use Rattle.ais_values.specs.Causes.{RoseExactlyOn};
ghost use Rattle.io_edge.specs.Writes.{AppendsFront, WritesAll};
ghost use Rattle.played_runs.specs.Packing.{Waits};
ghost use Rattle.played_runs.specs.Writing.{joined_lines};

use ais_values::Seq;
use arrayvec::ArrayVec;
use io_edge::{Sink, SinkAnswer, write_all};

/// How many bytes wait at most until they are handed on.
const PIECE: usize = 1024;

/// Bytes wait in an empty piece, or are written where they do not fit it.
fn start_piece<K: Sink>(
    out: &mut K,
    piece: &mut ArrayVec<u8, PIECE>,
    bytes: &[u8],
) -> Result<(), SinkAnswer>
    requires { piece.old.items ≡ [] }
    ensures ok { OnOk result (Waits (K.written out.old) (K.written out.new) bytes.now
        piece.new.items) }
    ensures err { OnErr result (AppendsFront (K.written out.old) (K.written out.new) bytes.now) }
    ensures cause { RoseExactlyOn (K.faults out.old) (K.faults out.new) result SinkAnswer.Failed }
{
    match piece.try_extend_from_slice(bytes) {
        Ok(()) => Ok(()),
        Err(_) => write_all(out, bytes),
    }
}

/// Bytes wait behind those of a piece; where they do not fit it, these are written first.
fn put_behind<K: Sink>(
    out: &mut K,
    piece: &mut ArrayVec<u8, PIECE>,
    bytes: &[u8],
) -> Result<(), SinkAnswer>
    ensures ok { OnOk result (Waits (K.written out.old) (K.written out.new) (piece.old.items
        ++ bytes.now) piece.new.items) }
    ensures err { OnErr result (AppendsFront (K.written out.old) (K.written out.new)
        (piece.old.items ++ bytes.now)) }
    ensures cause { RoseExactlyOn (K.faults out.old) (K.faults out.new) result SinkAnswer.Failed }
{
    match piece.try_extend_from_slice(bytes) {
        Ok(()) => Ok(()),
        Err(_) => match write_all(out, piece.as_slice()) {
            Ok(()) => {
                piece.clear();
                start_piece(out, piece, bytes)
            }
            Err(answer) => Err(answer),
        },
    }
}

/// Writes lines, one after another, many at once.
pub(crate) fn write_packed<K: Sink>(out: &mut K, lines: &[Seq<u8>]) -> Result<(), SinkAnswer>
    ensures bytes { WritesAll (K.written out.old) (K.written out.new) (joined_lines lines.now)
        result }
    ensures cause { RoseExactlyOn (K.faults out.old) (K.faults out.new) result SinkAnswer.Failed }
{
    let mut piece: ArrayVec<u8, PIECE> = ArrayVec::new();
    for line in lines {
        match put_behind(out, &mut piece, line.as_slice()) {
            Ok(()) => {}
            Err(answer) => return Err(answer),
        }
    }
    write_all(out, piece.as_slice())
}
