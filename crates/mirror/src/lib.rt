//! A server of the cluster: it hears requests and receipts, does the deeds of the entry in hand, and pushes items.
#![tactic(auto)]

mod going;
mod heard;
mod hearing;
mod node;
mod owed;
mod pairing;
mod parts;
mod replica;
mod state;

pub use going::{let_heard_go, let_node_go};
pub use heard::{Heard, Outcome, Role, Why};
pub use node::Node;
