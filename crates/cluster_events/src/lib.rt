//! What happens in a cluster, event by event, over any servers, with the lines that each prints: definitions and laws, and the
//! types of what lines tell.
#![tactic(auto)]

mod lines;

pub use lines::{Roles, ServerRole, Standing, Why};
