//! Text as it stands in a picture.
ghost use Rattle.std.specs.Prelude.{◌≡◌, ◌++◌, OnOk};
ghost use Rattle.run_chart.specs.Titles.{escaped, escape_of, title};

use ais_values::hex_digit;
use std::alloc::{AllocError, Global};

/// Adds a line's number and its text as what a viewer shows where the pointer rests.
pub(crate) fn put_title(
    alloc: Global,
    out: &mut Vec<u8>,
    number: usize,
    line: &[u8],
) -> Result<(), AllocError>
    ensures { OnOk result (out.new.items ≡ out.old.items ++ title number line.now) }
{
    let front = format!(in alloc; "<title>{number}: ")?;
    out.extend_from_slice(front.as_bytes())?;
    put_escaped(out, line)?;
    out.extend_from_slice(b"</title>")
}

/// Adds a text: marks of the format are escaped, and bytes that are not printable ASCII stand as `\xNN`.
pub(crate) fn put_escaped(out: &mut Vec<u8>, text: &[u8]) -> Result<(), AllocError>
    ensures { OnOk result (out.new.items ≡ out.old.items ++ escaped text.now) }
{
    for byte in text {
        put_byte(out, *byte)?;
    }
    Ok(())
}

// Adds a byte as `put_escaped` does.
fn put_byte(out: &mut Vec<u8>, byte: u8) -> Result<(), AllocError>
    ensures { OnOk result (out.new.items ≡ out.old.items ++ escape_of byte) }
{
    if byte == b'&' {
        return out.extend_from_slice(b"&amp;");
    }
    if byte == b'<' {
        return out.extend_from_slice(b"&lt;");
    }
    if byte == b'>' {
        return out.extend_from_slice(b"&gt;");
    }
    if byte < 32 || 126 < byte {
        return out.extend_from_slice(&[b'\\', b'x', hex_digit(byte / 16), hex_digit(byte % 16)]);
    }
    out.extend_from_slice(&[byte])
}
