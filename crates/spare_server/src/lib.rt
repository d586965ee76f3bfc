//! The world of three servers, and what each line of a script does to it.
#![tactic(auto)]

mod beginning;
mod event;
mod law;
mod lines;
mod parts;
mod playable;
mod world;

pub use cluster_clients::EventAnswer;
pub use law::law_of_standbys;
pub use trio_lines::{TrioLine, TrioServer, parse_trio};
pub use world::TrioWorld;
