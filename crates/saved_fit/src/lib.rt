//! Whether a value can be handed on: every rule of a fit value, without memory.
#![tactic(auto)]

mod alarms;
mod asking;
mod clients;
mod files;
mod filling;
mod fit;
mod judging;
mod rising;
mod streams;

pub use fit::is_fit;
