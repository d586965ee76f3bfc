//! The text of an expression.
ghost use Rattle.std.specs.Prelude.{◌≡◌, ◌++◌, ◌≤◌, IfOk, OnOk, Some};
ghost use Rattle.format_expr.specs.Language.{width_digits, spelling_of, spelling};

use crate::{Expr, Piece, letters_of};
use ais_values::Text;
use std::alloc::{AllocError, Global};

/// Adds a width in decimal.
#[tactic(auto, using(std::proofs::lemmas::Fmt::decimal_digit, crate::proofs::Decimals::decimal_two, crate::proofs::Decimals::decimal_three))]
fn put_width(bytes: &mut Vec<u8>, width: u8) -> Result<(), AllocError>
    ensures { OnOk result (bytes.new.items ≡ bytes.old.items ++ width_digits (Some width)) }
{
    let (hundreds, tens, ones) = (width / 100, width / 10 % 10, width % 10);
    if width >= 100 {
        bytes.extend_from_slice(&[b'0' + hundreds, b'0' + tens, b'0' + ones])?;
    } else if width >= 10 {
        bytes.extend_from_slice(&[b'0' + tens, b'0' + ones])?;
    } else {
        bytes.extend_from_slice(&[b'0' + ones])?;
    }
    Ok(())
}

/// Adds the spelling of a piece.
fn put_piece(bytes: &mut Vec<u8>, piece: &Piece) -> Result<(), AllocError>
    ensures { OnOk result (bytes.new.items ≡ bytes.old.items ++ spelling_of piece.now) }
{
    match piece {
        Piece::Plain { text } => {
            bytes.extend_from_slice(text.as_slice())?;
            Ok(())
        }
        Piece::Field { token } => {
            bytes.push(b'@')?;
            bytes.extend_from_slice(&letters_of(token.part))?;
            match token.width {
                None => Ok(()),
                Some(width) => put_width(bytes, width),
            }
        }
    }
}

/// The text of which the expression is the parse.
pub fn print_expr(alloc: Global, expr: &Expr) -> Result<Text, AllocError>
    ensures { IfOk result (λ text. text ≡ spelling expr.now.pieces) }
{
    let mut bytes = Vec::new(alloc);
    for piece in expr.pieces.as_slice() {
        put_piece(&mut bytes, piece)?;
    }
    Ok(Text::from_vec(bytes))
}
