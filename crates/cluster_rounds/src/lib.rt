//! A cluster with any servers: messages are heard and delivered, clients ask, and rounds are played until nothing goes on.
#![tactic(auto)]

mod answers;
mod calling;
mod cluster;
mod delivering;
mod draining;
mod injecting;
mod resending;
mod rounds;
mod serving;
mod settling;

pub use calling::{ask, dispatch};
pub use cluster::Cluster;
pub use delivering::{deliver, is_for_agent};
pub use injecting::inject;
pub use resending::resend;
pub use serving::Serving;
pub use settling::settle;
