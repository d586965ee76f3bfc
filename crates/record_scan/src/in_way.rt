//! Whether the texts of an expression's tokens can be told apart in a record.
ghost use Rattle.std.specs.Prelude.{◌≡◌, ◌≤◌, ◌&&◌, not, nat_lt, length, OnOk, IfErr, IfSome};
ghost use Rattle.std.specs.Option.{MatchOption};
ghost use Rattle.record_scan.specs.Fits.{variables, ends_with, is_space};
ghost use Rattle.record_scan.specs.Separable.{closes, is_closed, IsSecondVariable, IsSeparable, IsFirstInWay};

use crate::length::{has_variable, has_variable_length};
use format_expr::{Expr, Piece};

/// The first piece, counted from 1, because of which texts cannot be told apart.
#[derive(Clone, Copy, Debug, PartialEq, Eq)]
pub struct Inseparable {
    pub piece: u32,
}

/// The number of the second variable token's piece.
fn second_variable(pieces: &[Piece]) -> Option<usize>
    ensures piece { MatchOption result (variables pieces.now ≤ 1) (λ piece.
        IsSecondVariable pieces.now piece) }
    ensures inside { IfSome result (λ piece. piece ≤ length pieces.now) }
{
    let mut seen = false;
    for (place, piece) in pieces.iter().enumerate() {
        if has_variable_length(piece) {
            if seen {
                return Some(place + 1);
            }
            seen = true;
        }
    }
    None
}

/// Whether a text ends in another byte than a space.
fn ends_in_another_byte(text: &[u8]) -> bool
    ensures { result ≡ ends_with (λ byte. not (is_space byte)) text.now }
{
    match text.last() {
        Some(byte) => *byte != b' ',
        None => false,
    }
}

/// Whether a piece is plain text that does.
fn is_end(piece: &Piece) -> bool
    ensures { result ≡ closes piece.now }
{
    match piece {
        Piece::Plain { text } => ends_in_another_byte(text.as_slice()),
        Piece::Field { .. } => false,
    }
}

/// Whether the last piece is.
fn has_end(pieces: &[Piece]) -> bool
    ensures { result ≡ is_closed pieces.now }
{
    match pieces.last() {
        Some(piece) => is_end(piece),
        None => false,
    }
}

/// Whether the last piece is in the way.
fn has_open_end(pieces: &[Piece], size: u32) -> bool
    ensures { result ≡ (nat_lt 0 size && nat_lt 0 (variables pieces.now)
        && not (is_closed pieces.now)) }
{
    size > 0 && has_variable(pieces) && !has_end(pieces)
}

/// The number of the first piece in the way.
fn first_in_way(pieces: &[Piece], size: u32) -> Option<usize>
    ensures way { MatchOption result (IsSeparable pieces.now size)
        (IsFirstInWay pieces.now size) }
    ensures inside { IfSome result (λ piece. piece ≤ length pieces.now) }
{
    match second_variable(pieces) {
        Some(piece) => Some(piece),
        None => {
            if has_open_end(pieces, size) {
                Some(pieces.len())
            } else {
                None
            }
        }
    }
}

/// Whether the texts of the expression's tokens can be told apart in records of the size, where 0 stands for
/// records that end with their first line feed. It takes no memory.
///
/// `Inseparable` comes exactly where a piece stands in the way, and names the first such, counted from 1. These
/// pieces stand in the way: the second token whose texts have no one length; and with a size above 0 and one
/// such token, the last piece where it is not plain text that ends in another byte than a space.
pub fn separable(expr: &Expr, size: u32) -> Result<(), Inseparable>
    ensures ok { OnOk result (IsSeparable expr.now.pieces size) }
    ensures err { IfErr result (λ refusal. IsFirstInWay expr.now.pieces size refusal.piece) }
{
    match first_in_way(expr.pieces.as_slice(), size) {
        Some(piece) => Err(Inseparable {
            piece: piece as u32,
        }),
        None => Ok(()),
    }
}
