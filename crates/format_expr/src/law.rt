//! Laws of expressions and their tokens.
ghost use Rattle.std.specs.Prelude.{◌≡◌, ℕ, List, [], ◌∷◌, Some};
ghost use Rattle.ais_values.specs.declared.kind.StreamKind.{StreamKind};
ghost use Rattle.format_expr.specs.declared.token.Part.{Part};
ghost use Rattle.format_expr.specs.declared.piece.Piece.{Piece};
ghost use Rattle.format_expr.specs.Tokens.{letters, part_with};
ghost use Rattle.format_expr.specs.Language.{ArePiecesOf, IsExpression};
ghost use Rattle.format_expr.specs.Reading.{pieces_of};

/// No two tokens have the same letters, and `part_with` knows each by them.
pub fn law_of_tokens()
    ensures told { (part : Part) (class field : ℕ) →
        letters part ≡ class ∷ field ∷ [] → part_with class field ≡ Some part }
    ensures only { (part : Part) (class field : ℕ) →
        part_with class field ≡ Some part → letters part ≡ class ∷ field ∷ [] }
{}

/// A text that is an expression has one list of pieces, which is the one that `pieces_of` computes.
pub fn law_of_pieces()
    ensures pieces { (kind : StreamKind) (text : List ℕ) →
        IsExpression kind text → ArePiecesOf kind (pieces_of text) text }
    ensures only { (kind : StreamKind) (pieces : List Piece) (text : List ℕ) →
        ArePiecesOf kind pieces text → pieces ≡ pieces_of text }
{}
