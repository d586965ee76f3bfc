//! The lines of the script of a large run, turn by turn, and that its text is the script of just these lines.
#![tactic(auto)]

mod law;
mod lines;

pub use law::law_of_loads;
pub use lines::{closing_lines, first_lines, opening_line, turn_lines};
