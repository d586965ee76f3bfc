//! Runs of lines on one server and its journal: how a script is played, what holds at the end of every line, and what `recover` tells.
#![tactic(auto)]

mod command;
mod laws;
mod playing;
mod recovering;

pub use command::run_cold;
pub use laws::law_of_cold_runs;
pub use playing::play_cold;
pub use recovering::recover;
