//! What is shown of a file: its lines.
ghost use Rattle.std.specs.Prelude.{◌≡◌, ◌≤◌, ◌++◌, ◌∷◌, [], List, ℕ, length, OnOk, OnErr};
ghost use Rattle.event_text.specs.Pieces.{ends_blank, ended_lines};
ghost use Rattle.event_text.specs.Texts.{trimmed, lines_behind, file_text_lines, shown_lines, AddedInPart};

use crate::cluster_lines::put_text;
use ais_values::Seq;
use std::alloc::{AllocError, Global};

/// Whether the front of the line up to this end has a blank as its last byte.
fn ends_blank(line: &[u8], end: usize) -> bool
    requires { end ≤ length line.now }
    ensures { result ≡ ends_blank line.now end }
{
    if end == 0 {
        return false;
    }
    line[end - 1] == b' '
}

/// The line without the blanks at its end.
fn without_blanks(line: &[u8]) -> &[u8]
    ensures { result.now ≡ trimmed line.now }
{
    let mut end = line.len();
    while ends_blank(line, end) {
        end -= 1;
    }
    &line[..end]
}

/// One byte more of a file: it ends the line, or joins its front. Where memory runs out no line is added.
fn put_byte(
    alloc: Global,
    lines: &mut Vec<Seq<u8>>,
    front: &mut Vec<u8>,
    byte: u8,
) -> Result<(), AllocError>
    ensures ok { OnOk result ((rest : List ℕ) →
        lines.new.items ++ shown_lines (lines_behind front.new.items rest)
        ≡ lines.old.items ++ shown_lines (lines_behind front.old.items (byte ∷ rest))) }
    ensures front { OnOk result (lines.new.items ≡ lines.old.items
        ++ ended_lines front.old.items byte) }
    ensures err { OnErr result (lines.new.items ≡ lines.old.items) }
{
    if byte == b'\n' {
        put_text(alloc, lines, without_blanks(front.as_slice()))?;
        front.clear();
        return Ok(());
    }
    front.push(byte)?;
    Ok(())
}

/// Adds the lines that show these bytes of a file. Where memory runs out, some of them, from the first on, may have been added.
pub fn put_shown(alloc: Global, lines: &mut Vec<Seq<u8>>, bytes: &[u8]) -> Result<(), AllocError>
    ensures ok { OnOk result (lines.new.items ≡ lines.old.items
        ++ shown_lines (file_text_lines bytes.now)) }
    ensures err { OnErr result (AddedInPart lines.old.items
        (shown_lines (file_text_lines bytes.now)) lines.new.items) }
{
    let mut front = Vec::new(alloc);
    for byte in bytes {
        put_byte(alloc, lines, &mut front, *byte)?;
    }
    if !front.as_slice().is_empty() {
        put_text(alloc, lines, without_blanks(front.as_slice()))?;
    }
    Ok(())
}
