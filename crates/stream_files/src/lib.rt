//! Deeds performed on a disk.
#![tactic(auto)]

mod performing;

pub use performing::perform;
