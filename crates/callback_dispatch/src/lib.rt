//! A queue of numbered callbacks, which one thread feeds and many hand out.
#![tactic(auto)]

mod all;
mod buffers;
mod gate;
mod law;
mod numbered;
mod queue;
mod rule;
mod workers;

pub use gate::{Gate, OpenGate};
pub use law::law_of_sharing;
pub use numbered::Numbered;
pub use queue::{CallbackQueue, Feeder, Taker};
