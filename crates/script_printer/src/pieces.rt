//! Writing of words, numbers and quoted texts.
ghost use Rattle.std.specs.Prelude.{◌≡◌, ◌++◌, ◌∷◌, [], OnOk};
ghost use Rattle.std.specs.Fmt.{decimal, signed_decimal};
ghost use Rattle.std.specs.List.{flat_map};
ghost use Rattle.script_grammar.specs.Values.{hex_pair, hex_word};
ghost use Rattle.script_grammar.specs.Writing.{byte_text, quoted_text};
ghost use Rattle.script_language.specs.Printing.{class_text};
ghost use Rattle.script_printer.specs.Pieces.{piece_text};

use ais_values::{ClassId, hex_digit};
use itoa::Buffer;
use std::alloc::AllocError;

/// A piece of a line.
#[derive(Clone, Copy)]
pub(crate) enum Piece<'a> {
    /// Bytes as they are.
    Word(&'a [u8]),
    Number(u64),
    Signed(i64),
    /// `0x` and four hexadecimal digits.
    Hex(u16),
    /// Bytes between quotation marks.
    Quoted(&'a [u8]),
    Class(ClassId),
}

/// Adds bytes at the end. On want of memory nothing is said of `out`.
pub fn put(out: &mut Vec<u8>, bytes: &[u8]) -> Result<(), AllocError>
    ensures { OnOk result (out.new.items ≡ out.old.items ++ bytes.now) }
{
    out.extend_from_slice(bytes)
}

/// Adds a number in decimal. On want of memory nothing is said of `out`.
pub fn put_number(out: &mut Vec<u8>, number: u64) -> Result<(), AllocError>
    ensures { OnOk result (out.new.items ≡ out.old.items ++ decimal number) }
{
    let mut buffer = Buffer::new();
    put(out, buffer.format(number).as_bytes())
}

/// Adds a signed number in decimal. On want of memory nothing is said of `out`.
pub fn put_signed(out: &mut Vec<u8>, number: i64) -> Result<(), AllocError>
    ensures { OnOk result (out.new.items ≡ out.old.items ++ signed_decimal number) }
{
    let mut buffer = Buffer::new();
    put(out, buffer.format(number).as_bytes())
}

/// The two hexadecimal digits of a byte.
fn hex_pair_of(byte: u8) -> [u8; 2]
    ensures { result ≡ hex_pair byte }
{
    [hex_digit(byte / 16), hex_digit(byte % 16)]
}

/// Adds `0x` and the hexadecimal digits of a number's two bytes.
#[tactic(auto, using(crate::proofs::Chain::chained))]
pub(crate) fn put_hex(out: &mut Vec<u8>, number: u16) -> Result<(), AllocError>
    ensures { OnOk result (out.new.items ≡ out.old.items ++ hex_word number) }
{
    put(out, b"0x")?;
    put(out, &hex_pair_of((number / 256) as u8))?;
    put(out, &hex_pair_of((number % 256) as u8))?;
    Ok(())
}

/// Adds a byte as it stands between quotation marks.
fn put_byte(out: &mut Vec<u8>, byte: u8) -> Result<(), AllocError>
    ensures { OnOk result (out.new.items ≡ out.old.items ++ byte_text byte) }
{
    if byte == b'"' || byte == b'\\' {
        put(out, &[b'\\', byte])
    } else if byte >= 32 && byte <= 126 {
        put(out, &[byte])
    } else {
        put(
            out,
            &[b'\\', b'x', hex_digit(byte / 16), hex_digit(byte % 16)],
        )
    }
}

/// Adds bytes as they stand between quotation marks.
fn put_bytes(out: &mut Vec<u8>, bytes: &[u8]) -> Result<(), AllocError>
    ensures { OnOk result (out.new.items ≡ out.old.items ++ flat_map byte_text bytes.now) }
{
    for byte in bytes {
        put_byte(out, *byte)?;
    }
    Ok(())
}

/// Adds a text between quotation marks. On want of memory nothing is said of `out`.
pub fn put_quoted(out: &mut Vec<u8>, text: &[u8]) -> Result<(), AllocError>
    ensures { OnOk result (out.new.items ≡ out.old.items ++ quoted_text text.now) }
{
    put(out, b"\"")?;
    put_bytes(out, text)?;
    put(out, b"\"")
}

/// Adds a class.
#[tactic(auto, using(crate::proofs::Chain::chained, crate::proofs::Chain::chained_last))]
pub(crate) fn put_class(out: &mut Vec<u8>, class: ClassId) -> Result<(), AllocError>
    ensures { OnOk result (out.new.items ≡ out.old.items ++ class_text class) }
{
    put_number(out, u64::from(class.vendor))?;
    put(out, b".")?;
    put_number(out, u64::from(class.major))?;
    put(out, b".")?;
    put_number(out, u64::from(class.minor))?;
    Ok(())
}

/// Adds a piece.
pub(crate) fn put_piece(out: &mut Vec<u8>, piece: &Piece) -> Result<(), AllocError>
    ensures { OnOk result (out.new.items ≡ out.old.items ++ piece_text piece.now) }
{
    match piece {
        Piece::Word(word) => put(out, word),
        Piece::Number(number) => put_number(out, *number),
        Piece::Signed(number) => put_signed(out, *number),
        Piece::Hex(number) => put_hex(out, *number),
        Piece::Quoted(text) => put_quoted(out, text),
        Piece::Class(class) => put_class(out, *class),
    }
}

/// Adds a word and a piece.
#[tactic(auto, using(crate::proofs::Chain::chained))]
pub(crate) fn put_labelled(out: &mut Vec<u8>, word: &[u8], piece: &Piece) -> Result<(), AllocError>
    ensures { OnOk result (out.new.items ≡ out.old.items ++ (word.now ++ piece_text piece.now)) }
{
    put(out, word)?;
    put_piece(out, piece)?;
    Ok(())
}

/// A piece of a line, of which text is made.
pub trait Printable {
    ghost use Rattle.std.specs.Prelude.{ℕ, List};

    /// The text.
    ghost text: { Self → List ℕ };

    /// Adds the text. On want of memory nothing is said of `out`.
    fn print(&self, out: &mut Vec<u8>) -> Result<(), AllocError>
        ensures { OnOk result (out.new.items ≡ out.old.items ++ text self.now) };
}

impl Printable for Piece<'_> {
    ghost use Rattle.script_printer.specs.Pieces.{piece_text};

    ghost text = { piece_text };

    fn print(&self, out: &mut Vec<u8>) -> Result<(), AllocError> {
        put_piece(out, self)
    }
}

/// Adds the texts of pieces, one behind the other. On want of memory nothing is said of `out`.
pub fn put_all<P: Printable>(out: &mut Vec<u8>, pieces: &[P]) -> Result<(), AllocError>
    ensures { OnOk result (out.new.items ≡ out.old.items ++ flat_map P.text pieces.now) }
{
    for piece in pieces {
        piece.print(out)?;
    }
    Ok(())
}

/// Adds pieces.
pub(crate) fn put_pieces(out: &mut Vec<u8>, pieces: &[Piece]) -> Result<(), AllocError>
    ensures { OnOk result (out.new.items ≡ out.old.items ++ flat_map piece_text pieces.now) }
{
    put_all(out, pieces)
}
