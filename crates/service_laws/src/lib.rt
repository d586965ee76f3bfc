//! The plain service as the cluster sees it, and that it keeps what the cluster asks of a service and of its files:
//! definitions and laws alone.
#![tactic(auto)]

mod law;

pub use law::{law_of_feeding, law_of_service, law_of_storage, law_of_telling};
