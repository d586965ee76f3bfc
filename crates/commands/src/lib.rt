//! Which words ask the program for what.
#![tactic(auto)]

mod command;

pub use command::{Command, RecordQuery, command_of, text_of, wanted_of};
