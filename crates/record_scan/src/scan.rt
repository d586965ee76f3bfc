//! The texts of tokens in one record.
ghost use Rattle.std.specs.Prelude.{◌≡◌, ◌-◌, ◌≤◌, ◌<◌, ◌↔◌, ℕ, List, [], ◌∷◌, length, drop, slice_index, IfOk, IfSome, EachIndex, IsTrue};
ghost use Rattle.std.specs.Option.{MatchOption};
ghost use Rattle.format_expr.specs.declared.piece.Piece.{Piece};
ghost use Rattle.record_print.specs.declared.record.LogRecord.{LogRecord};
ghost use Rattle.record_scan.specs.Fits.{Fits};
ghost use Rattle.record_scan.specs.Printed.{IsPrintedWhole, token_texts};
ghost use Rattle.record_scan.specs.Reading.{least_total, texts_from, IsBody, EndsAt, IsContent};
ghost use Rattle.record_scan.specs.Separable.{IsSeparable};

use crate::length::{has_variable, places_of, total_places};
use ais_values::Seq;
use format_expr::{Expr, Piece};
use std::alloc::{AllocError, Global};

/// A record of the size without its line feed.
fn body_of(size: u32, bytes: &[u8]) -> Option<&[u8]>
    ensures { MatchOption result ((body : List ℕ) → IsBody size bytes.now body → ⊥)
        (λ body. IsBody size bytes.now body.now) }
{
    if size > 0 && bytes.len() != size as usize {
        return None;
    }
    match bytes.strip_suffix(b"\n") {
        Some(body) => Some(body),
        None => None,
    }
}

/// Where the spaces at the end begin.
fn trimmed(bytes: &[u8]) -> usize
    ensures inside { result ≤ length bytes.now }
    ensures blank { (k : ℕ) → result ≤ k → k < length bytes.now → slice_index bytes.now k ≡ 32 }
    ensures ended { 0 < result → slice_index bytes.now (result - 1) ≡ 32 → ⊥ }
{
    let mut end = bytes.len();
    while end > 0 && bytes[end - 1] == b' ' {
        end -= 1;
    }
    end
}

/// Whether there are spaces alone.
fn are_spaces(bytes: &[u8]) -> bool
    ensures { IsTrue result ↔ EachIndex bytes.now (λ k. slice_index bytes.now k ≡ 32) }
{
    bytes.iter().all(|byte| *byte == b' ')
}

/// Where what the pieces and the texts make up ends.
fn content_end(pieces: &[Piece], size: u32, body: &[u8]) -> Option<usize>
    requires { least_total pieces.now ≤ 262_144 }
    ensures { MatchOption result ((end : ℕ) → EndsAt pieces.now size body.now end → ⊥)
        (EndsAt pieces.now size body.now) }
{
    if size == 0 {
        return Some(body.len());
    }
    if has_variable(pieces) {
        return Some(trimmed(body));
    }
    let end = total_places(pieces);
    if end <= body.len() && are_spaces(&body[end..]) {
        return Some(end);
    }
    None
}

/// What the pieces and the texts make up.
fn content_of<'a>(pieces: &[Piece], size: u32, bytes: &'a [u8]) -> Option<&'a [u8]>
    requires { least_total pieces.now ≤ 262_144 }
    ensures { MatchOption result
        ((content : List ℕ) → IsContent pieces.now size bytes.now content → ⊥)
        (λ content. IsContent pieces.now size bytes.now content.now) }
{
    match body_of(size, bytes) {
        None => None,
        Some(body) => match content_end(pieces, size, body) {
            None => None,
            Some(end) => Some(&body[..end]),
        },
    }
}

/// Adds the text of a piece at the front, and tells how many bytes it has; None where it cannot stand there.
fn read_piece(
    alloc: Global,
    piece: &Piece,
    variable: usize,
    rest: &[u8],
    texts: &mut Seq<Seq<u8>>,
) -> Result<Option<usize>, AllocError>
    ensures inside { IfOk result (λ read. IfSome read (λ long. long ≤ length rest.now)) }
    ensures texts { (pieces : List Piece) → IfOk result (λ read. MatchOption read
        (texts_from variable (piece.now ∷ pieces) rest.now texts.old ≡ None)
        (λ long. texts_from variable (piece.now ∷ pieces) rest.now texts.old
        ≡ texts_from variable pieces (drop long rest.now) texts.new)) }
{
    match piece {
        Piece::Plain { text } => {
            let plain = text.as_slice();
            if rest.starts_with(plain) {
                Ok(Some(plain.len()))
            } else {
                Ok(None)
            }
        }
        Piece::Field { token } => {
            let places = places_of(*token, variable);
            if places > rest.len() {
                return Ok(None);
            }
            let text = rest[..places].to_vec(alloc)?;
            texts.push(Seq::from_vec(text))?;
            Ok(Some(places))
        }
    }
}

/// The texts, where a variable token's has so many bytes.
fn read_texts(
    alloc: Global,
    pieces: &[Piece],
    variable: usize,
    content: &[u8],
) -> Result<Option<Seq<Seq<u8>>>, AllocError>
    ensures { IfOk result (λ found. found ≡ texts_from variable pieces.now content.now []) }
{
    let mut texts = Seq::new(alloc);
    let mut rest = content;
    for piece in pieces {
        match read_piece(alloc, piece, variable, rest, &mut texts)? {
            Some(length) => rest = &rest[length..],
            None => return Ok(None),
        }
    }
    if rest.is_empty() {
        Ok(Some(texts))
    } else {
        Ok(None)
    }
}

/// The texts that the expression's tokens have in a record of the size, one for each token, in order; with size 0
/// a record ends with its line feed and has no spaces before it that belong to no text.
///
/// None comes exactly where no list of texts fits the bytes. Of a printed record that was not cut they are
/// the texts with which its tokens were printed. Memory is taken for the texts alone.
pub fn scan_record(
    alloc: Global,
    expr: &Expr,
    size: u32,
    bytes: &[u8],
) -> Result<Option<Seq<Seq<u8>>>, AllocError>
    requires { IsSeparable expr.now.pieces size }
    ensures texts { IfOk result (λ found. (texts : List (List ℕ)) →
        (found ≡ Some texts) ↔ Fits expr.now.pieces size bytes.now texts) }
    ensures printed { IfOk result (λ found. (number : ℕ) (rec : LogRecord)
        → IsPrintedWhole expr.now.kind expr.now.pieces size number rec bytes.now
        → found ≡ Some (token_texts expr.now.pieces number rec)) }
{
    let pieces = expr.pieces.as_slice();
    match content_of(pieces, size, bytes) {
        None => Ok(None),
        Some(content) => {
            let variable = content.len().saturating_sub(total_places(pieces));
            let found = read_texts(alloc, pieces, variable, content)?;
            Ok(found)
        }
    }
}
