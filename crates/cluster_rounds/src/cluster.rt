//! A cluster, whatever its servers are.
use ais_values::Seq;
use calls::History;
use client_agent::Agent;
use message_net::Net;

/// Servers with the net, the clients' agents by rising client, and what was committed.
///
/// `callbacks` is how many callbacks each agent's queue holds.
#[derive(Drop)]
pub struct Cluster<S> {
    pub servers: S,
    pub net: Net,
    pub agents: Seq<Agent>,
    pub history: History,
    pub now: i64,
    pub callbacks: u32,
}
