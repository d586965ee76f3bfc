//! The line of a record whose texts are known.
ghost use Rattle.std.specs.Prelude.{◌≡◌, ◌++◌, ◌∷◌, List, OnOk, IfOk};
ghost use Rattle.format_expr.specs.declared.piece.Piece.{Piece};
ghost use Rattle.record_scan.specs.Fits.{tokens_of};
ghost use Rattle.scan_lines.specs.Lines.{read_line, token_word, token_words};

use ais_values::Seq;
use format_expr::{Piece, Token, letters_of};
use script_printer::{put, put_number, put_quoted};
use std::alloc::{AllocError, Global};

/// Adds a token and its text.
#[tactic(auto, using(script_printer::proofs::Chain::chained))]
fn put_token(out: &mut Vec<u8>, token: Token, text: &[u8]) -> Result<(), AllocError>
    ensures { OnOk result (out.new.items ≡ out.old.items ++ token_word token text.now) }
{
    put(out, b" ")?;
    put(out, &letters_of(token.part))?;
    put(out, b"=")?;
    put_quoted(out, text)?;
    Ok(())
}

/// Adds a piece with the first of the texts, where it is a token, and tells the texts that are left.
fn put_piece<'a>(
    out: &mut Vec<u8>,
    piece: &Piece,
    texts: &'a [Seq<u8>],
) -> Result<&'a [Seq<u8>], AllocError>
    ensures { (pieces : List Piece) → IfOk result (λ rest.
        out.old.items ++ token_words (tokens_of (piece.now ∷ pieces)) texts.now
        ≡ out.new.items ++ token_words (tokens_of pieces) rest.now) }
{
    match piece {
        Piece::Plain { .. } => Ok(texts),
        Piece::Field { token } => match texts.split_first() {
            None => Ok(texts),
            Some((text, rest)) => {
                put_token(out, *token, text.as_slice())?;
                Ok(rest)
            }
        },
    }
}

/// Adds the tokens among the pieces, with their texts.
fn put_tokens(out: &mut Vec<u8>, pieces: &[Piece], texts: &[Seq<u8>]) -> Result<(), AllocError>
    ensures { OnOk result (out.new.items
        ≡ out.old.items ++ token_words (tokens_of pieces.now) texts.now) }
{
    let mut rest = texts;
    for piece in pieces {
        rest = put_piece(out, piece, rest)?;
    }
    Ok(())
}

/// The line of a record with these texts.
#[tactic(auto, using(script_printer::proofs::Chain::chained))]
pub(crate) fn read_line(
    alloc: Global,
    pieces: &[Piece],
    number: u32,
    texts: &[Seq<u8>],
) -> Result<Vec<u8>, AllocError>
    ensures { IfOk result (λ line. line.items ≡ read_line pieces.now number texts.now) }
{
    let mut line = Vec::new(alloc);
    put(&mut line, b"rec ")?;
    put_number(&mut line, u64::from(number))?;
    put_tokens(&mut line, pieces, texts)?;
    put(&mut line, b"\n")?;
    Ok(line)
}
