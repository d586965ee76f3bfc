//! That every entry leaves a fit value, so that the value of every history is fit: definitions and laws over what a service
//! keeps.
#![tactic(auto)]

mod law;

pub use law::{law_of_fitness, law_of_values};
