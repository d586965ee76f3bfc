//! Servers, and what they heard, that are let go: a crate that calls these proves no drop of what they have.
use crate::{Heard, Node};

/// Lets go what a server heard.
pub fn let_heard_go(heard: Heard) {
    drop(heard);
}

/// Lets a server go.
pub fn let_node_go(node: Node) {
    drop(node);
}
