//! How long the texts of tokens are.
ghost use Rattle.std.specs.Prelude.{◌≡◌, ◌≤◌, nat_lt};
ghost use Rattle.record_scan.specs.Fits.{length_at, fixed_length, is_variable, variables};
ghost use Rattle.record_scan.specs.Reading.{places_in, least_length, least_total};

use format_expr::{Part, Piece, Token};
use record_print::time_length;

/// The length of a token's texts without a width, where they all have the same.
fn standard_places(part: Part) -> Option<u8>
    ensures { result ≡ length_at None part }
{
    match part {
        Part::Number => Some(10),
        Part::Time { part, .. } => Some(time_length(part)),
        Part::ClassId => Some(29),
        Part::Cut => Some(1),
        Part::NotificationId => Some(18),
        Part::EventType => Some(6),
        Part::Severity => Some(2),
        Part::Body | Part::BodyBytes | Part::Object | Part::Notifier | Part::User => None,
    }
}

/// The length of a token's texts, where they all have the same.
fn fixed_places(token: Token) -> Option<u8>
    ensures { result ≡ fixed_length token }
{
    match token.width {
        Some(width) => Some(width),
        None => standard_places(token.part),
    }
}

/// Whether a piece is a token whose texts have no one length.
pub(crate) fn has_variable_length(piece: &Piece) -> bool
    ensures { result ≡ is_variable piece.now }
{
    match piece {
        Piece::Plain { .. } => false,
        Piece::Field { token } => fixed_places(*token).is_none(),
    }
}

/// Whether a token is variable.
pub(crate) fn has_variable(pieces: &[Piece]) -> bool
    ensures { result ≡ nat_lt 0 (variables pieces.now) }
{
    for piece in pieces {
        if has_variable_length(piece) {
            return true;
        }
    }
    false
}

/// How many bytes a token's text has, where a variable one has so many.
pub(crate) fn places_of(token: Token, variable: usize) -> usize
    ensures { result ≡ places_in variable token }
{
    match fixed_places(token) {
        Some(places) => usize::from(places),
        None => variable,
    }
}

/// How many bytes a piece has where its token's text, if it is variable, is empty.
fn least_places(piece: &Piece) -> usize
    ensures { result ≡ least_length piece.now }
{
    match piece {
        Piece::Plain { text } => text.as_slice().len(),
        Piece::Field { token } => places_of(*token, 0),
    }
}

/// How many bytes the pieces have besides the variable token's text.
pub(crate) fn total_places(pieces: &[Piece]) -> usize
    requires { least_total pieces.now ≤ 262_144 }
    ensures { result ≡ least_total pieces.now }
{
    let mut total = 0;
    for piece in pieces {
        total += least_places(piece);
    }
    total
}
