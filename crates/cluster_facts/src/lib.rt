//! What holds of the clients' agents, the net and the history of a cluster between any two events: definitions and
//! laws alone.
#![tactic(auto)]
