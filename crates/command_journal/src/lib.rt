//! The world of one server and its journal, and what each line of a script does to it.
#![tactic(auto)]

mod answer;
mod beginning;
mod event;
mod parts;
mod world;

pub use answer::EventAnswer;
pub use journal_start::{Cold, ColdAnswer, Journal, cold_start};
pub use world::ColdWorld;
