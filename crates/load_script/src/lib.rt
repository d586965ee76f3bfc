//! The script of a large run: its text, made of a count of turns and a seed.
#![tactic(auto)]

mod numbers;
mod turns;
mod writing;

pub use numbers::{first_state, next_state, number_in};
pub use writing::write_script;
