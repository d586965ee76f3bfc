//! Agents, and what they answered, that are let go: a crate that calls these proves no drop of what they have.
use crate::{Agent, Sent, Taken};
use ais_values::Seq;

/// Lets an agent go.
pub fn let_agent_go(agent: Agent) {
    drop(agent);
}

/// Lets agents go.
pub fn let_agents_go(agents: Seq<Agent>) {
    drop(agents);
}

/// Lets go what became of a call.
pub fn let_sent_go(sent: Sent) {
    drop(sent);
}

/// Lets go what became of a message that was taken.
pub fn let_taken_go(taken: Taken) {
    drop(taken);
}
