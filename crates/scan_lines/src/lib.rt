//! The lines that tell of a file's records: the texts that an expression's tokens have in each.
#![tactic(auto)]

mod shown;
mod telling;
mod words;

pub use shown::Shown;
pub use telling::{record_line, rest_line};
