//! The net between clients and servers: the byte strings that were ever posted, in order of first posting, each once.
#![tactic(auto)]

mod fronts;
mod net;

pub use fronts::front_of;
pub use net::{Net, Posted};
