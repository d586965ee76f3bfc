//! Sets of clients, kept as rising lists, and the laws of lists that rise.
#![tactic(auto)]

mod client_set;

pub use client_set::ClientSet;
