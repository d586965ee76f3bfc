//! A script is read and played, over any world that plays the lines of scripts of two servers.
#![tactic(auto)]

mod scripting;

pub use scripting::run_script;
