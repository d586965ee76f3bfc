//! The world of a cluster, and what each line of a script does to it.
#![tactic(auto)]

mod beginning;
mod event;
mod parts;
mod playable;
mod world;

pub use world::World;
