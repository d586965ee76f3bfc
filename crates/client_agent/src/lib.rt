//! The agent of one client: it numbers and sends the client's calls, takes replies and items, and hands out
//! callbacks.
#![tactic(auto)]

mod agent;
mod answers;
mod callbacks;
mod going;
mod kept;
mod library;
mod living;
mod marks;
mod ring;
mod waiting;

pub use agent::Agent;
pub use answers::{Dispatched, How, MissedWhy, Sent, Taken};
pub use going::{let_agent_go, let_agents_go, let_sent_go, let_taken_go};
