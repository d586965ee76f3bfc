//! The command `expr`: whether a word is a format expression.
ghost use Rattle.std.specs.Prelude.{IfOk};
ghost use Rattle.text_commands.specs.Checking.{ExprEnds};

use crate::ending::{bad_text, passed};
use ais_values::StreamKind;
use format_expr::{ExprAnswer, parse_expr};
use played_runs::End;
use std::alloc::{AllocError, Global};

/// Tells whether the text is an expression for streams of the kind, with its number of pieces or its fault.
///
/// `Err` only where memory ran out.
pub fn check_text(alloc: Global, kind: StreamKind, text: &[u8]) -> Result<End, AllocError>
    ensures { IfOk result (λ end. ExprEnds kind text.now end.status end.text.items) }
{
    match parse_expr(alloc, kind, text) {
        Ok(expr) => {
            let end = passed(alloc, expr.pieces.as_slice().len())?;
            Ok(end)
        }
        Err(ExprAnswer::Memory) => Err(AllocError),
        Err(ExprAnswer::Bad { fault }) => {
            let end = bad_text(alloc, fault)?;
            Ok(end)
        }
    }
}
