//! One active server within a cluster, whatever stands beside it: what it hears and pushes is what its cluster's events are.
//! There are definitions and lemmas alone.
#![tactic(auto)]
