//! Expressions and their pieces.
ghost use Rattle.std.specs.Prelude.{◌≤◌, length, IsTrue};
ghost use Rattle.format_expr.specs.Language.{are_pieces, spelling};

use crate::Token;
use ais_values::{Duplicate, Seq, StreamKind, Text};
use std::alloc::{AllocError, Global};

/// A piece of an expression.
#[derive(Drop, PartialEq)]
pub enum Piece {
    /// A longest run of plain bytes, not empty.
    Plain { text: Text },
    Field { token: Token },
}

/// An expression: its pieces are those of a text that passes for streams of its kind.
pub struct Expr {
    pub kind: StreamKind,
    pub pieces: Seq<Piece>,
    pub ghost parsed: { IsTrue (are_pieces kind pieces) },
    pub ghost bounded: { length (spelling pieces) ≤ 1024 },
}

// Written out, as a derived one is proved anew in each crate that lets such a value go.
impl Drop for Expr {
    fn drop(self) {
        let Expr { kind: _, pieces } = self;
        drop(pieces);
    }
}

impl Duplicate for Piece {
    fn copy(&self, alloc: Global) -> Result<Self, AllocError> {
        match self {
            Piece::Plain { text } => Ok(Piece::Plain {
                text: text.copy(alloc)?,
            }),
            Piece::Field { token } => Ok(Piece::Field { token: *token }),
        }
    }
}

impl Duplicate for Expr {
    fn copy(&self, alloc: Global) -> Result<Self, AllocError> {
        Ok(Expr {
            kind: self.kind,
            pieces: self.pieces.copy(alloc)?,
        })
    }
}
