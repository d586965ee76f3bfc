//! Runs of lines on the world of two servers: how a script is played, and what holds at the end of every line.
#![tactic(auto)]

mod figures;
mod laws;
mod loading;
mod playing;
mod scripting;

pub use laws::law_of_runs;
pub use loading::load;
pub use playing::play_script;
pub use scripting::run_script;
