//! Runs of lines on the world of three servers: how a script is played, and what holds at the end of every line.
#![tactic(auto)]

mod command;
mod laws;
mod playing;

pub use command::run_trio;
pub use laws::{law_of_trio_runs, law_of_trio_scripts};
pub use playing::play_trio;
