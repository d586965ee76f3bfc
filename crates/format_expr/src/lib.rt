//! Format expressions of log records: their language, the first fault of a text, and their pieces.
#![tactic(auto)]

mod check;
mod fault;
mod law;
mod parse;
mod piece;
mod print;
mod token;

pub use check::{MAX_EXPR, check_expr, has_notified, takes_class};
pub use fault::{ExprAnswer, ExprFault, ExprWhy};
pub use law::{law_of_pieces, law_of_tokens};
pub use parse::{known_expr, parse_expr};
pub use piece::{Expr, Piece};
pub use print::print_expr;
pub use token::{Moment, Part, TimePart, Token, letters_of, part_of};
