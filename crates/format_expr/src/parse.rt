//! The pieces of an expression.
ghost use Rattle.std.specs.Prelude.{List, ◌≡◌, ◌+◌, ◌≤◌, ◌<◌, ◌↔◌, length, IfOk, IsErrOf, IfSome, OnSome, slice_get};
ghost use Rattle.format_expr.specs.Reading.{digit_of, width_at, token_at, plain_length, piece_at, pieces_of};
ghost use Rattle.format_expr.specs.Language.{ArePiecesOf, IsExpression};
ghost use Rattle.format_expr.specs.Faults.{IsFault};
ghost use Rattle.format_expr.specs.declared.piece.Piece.{Piece};
ghost use Rattle.format_expr.specs.declared.fault.ExprFault.{ExprFault};
ghost use Rattle.format_expr.specs.declared.fault.ExprAnswer.TheVariants.{Bad};

use crate::{Expr, ExprAnswer, MAX_EXPR, Piece, Token, check_expr, part_of};
use ais_values::{Seq, StreamKind, Text};
use std::alloc::{AllocError, Global};

/// The value of the decimal digit at a place, where one stands there.
fn digit_at(bytes: &[u8], place: usize) -> Option<u8>
    ensures value { result ≡ digit_of (slice_get bytes.now place) }
    ensures small { IfSome result (λ digit. digit < 10) }
    ensures inside { OnSome result (place < length bytes.now) }
{
    match bytes.get(place) {
        Some(byte) if *byte >= b'0' && *byte <= b'9' => Some(*byte - b'0'),
        _ => None,
    }
}

/// The width at the front, and how many digits it has.
fn read_width(bytes: &[u8]) -> (Option<u8>, usize)
    ensures value { result ≡ width_at bytes.now }
    ensures inside { result.1 ≤ length bytes.now }
{
    let Some(first) = digit_at(bytes, 0) else {
        return (None, 0);
    };
    let Some(second) = digit_at(bytes, 1) else {
        return (Some(first), 1);
    };
    let Some(third) = digit_at(bytes, 2) else {
        return (Some(first * 10 + second), 2);
    };
    let width = u16::from(first) * 100 + u16::from(second) * 10 + u16::from(third);
    (Some(width.min(255) as u8), 3)
}

/// The token at the front, and how many bytes it has.
fn read_token(bytes: &[u8]) -> Option<(Token, usize)>
    ensures value { result ≡ token_at bytes.now }
    ensures some { IfSome result (λ token. 0 < token.1) }
    ensures inside { IfSome result (λ token. token.1 ≤ length bytes.now) }
{
    match bytes {
        [b'@', class, field, rest @ ..] => match part_of(*class, *field) {
            Some(part) => {
                let (width, digits) = read_width(rest);
                Some((Token { part, width }, 3 + digits))
            }
            None => None,
        },
        _ => None,
    }
}

/// How many bytes stand before the next `@`.
fn read_plain(bytes: &[u8]) -> usize
    ensures value { result ≡ plain_length bytes.now }
    ensures inside { result ≤ length bytes.now }
{
    for (place, byte) in bytes.iter().enumerate() {
        if *byte == b'@' {
            return place;
        }
    }
    bytes.len()
}

/// The piece at the front of bytes that are not empty, and how many bytes it has.
fn next_piece(alloc: Global, bytes: &[u8]) -> Result<(Piece, usize), AllocError>
    requires some { 0 < length bytes.now }
    requires bound { length bytes.now ≤ MAX_EXPR }
    ensures piece { IfOk result (λ piece. piece ≡ piece_at bytes.now) }
    ensures some { IfOk result (λ piece. 0 < piece.1) }
    ensures inside { IfOk result (λ piece. piece.1 ≤ length bytes.now) }
{
    if let Some((token, length)) = read_token(bytes) {
        return Ok((Piece::Field { token }, length));
    }
    let length = 1 + read_plain(&bytes[1..]);
    let text = Text::from_vec(bytes[..length].to_vec(alloc)?);
    Ok((Piece::Plain { text }, length))
}

/// No fewer than the pieces of an expression, in which each `@` begins a field.
fn most_pieces(text: &[u8]) -> usize {
    let mut most: usize = 1;
    for byte in text {
        if *byte == b'@' {
            most = most.saturating_add(2);
        }
    }
    most
}

/// The pieces of a text.
fn read_pieces(alloc: Global, text: &[u8]) -> Result<Vec<Piece>, AllocError>
    requires { length text.now ≤ MAX_EXPR }
    ensures { IfOk result (λ pieces. pieces.items ≡ pieces_of text.now) }
{
    let mut pieces = Vec::with_capacity(alloc, most_pieces(text))?;
    let mut rest = text;
    while !rest.is_empty() {
        let (piece, length) = next_piece(alloc, rest)?;
        pieces.push(piece)?;
        rest = &rest[length..];
    }
    Ok(pieces)
}

/// The expression that a text is known to be for streams of the kind: it is not looked at whether it is one. Beside that it is
/// `parse_expr`. On an error, which is want of memory, there is no expression.
pub fn known_expr(alloc: Global, kind: StreamKind, text: &[u8]) -> Result<Expr, AllocError>
    requires valid { IsExpression kind text.now }
    requires bound { length text.now ≤ 1024 }
    ensures kind { IfOk result (λ expr. expr.kind ≡ kind) }
    ensures pieces { IfOk result (λ expr. ArePiecesOf kind expr.pieces text.now) }
    ensures only { IfOk result (λ expr. (others : List Piece) → ArePiecesOf kind others text.now
        → others ≡ expr.pieces) }
{
    let pieces = read_pieces(alloc, text)?;
    Ok(Expr {
        kind,
        pieces: Seq::from_vec(pieces),
    })
}

/// The expression that a text is for streams of the kind.
///
/// `Bad` comes exactly where `check_expr` refuses the text, with its fault. A text has one parse, whose plain
/// pieces are longest runs.
pub fn parse_expr(alloc: Global, kind: StreamKind, text: &[u8]) -> Result<Expr, ExprAnswer>
    ensures kind { IfOk result (λ expr. expr.kind ≡ kind) }
    ensures pieces { IfOk result (λ expr. ArePiecesOf kind expr.pieces text.now) }
    ensures only { IfOk result (λ expr. (others : List Piece) → ArePiecesOf kind others text.now
        → others ≡ expr.pieces) }
    ensures bad { (fault : ExprFault) → IsErrOf result (Bad fault) ↔ IsFault kind text.now fault }
{
    match check_expr(kind, text) {
        Ok(()) => {}
        Err(fault) => return Err(ExprAnswer::Bad { fault }),
    }
    match known_expr(alloc, kind, text) {
        Ok(expr) => Ok(expr),
        Err(_) => Err(ExprAnswer::Memory),
    }
}
