//! How simple values are spelled as bytes, how they are read, and that the readings are exact.
#![tactic(auto)]

mod fault;
mod law;
mod number;

pub use fault::{Fault, Trouble};
pub use law::law_of_numbers;
pub use number::{MAX_SPELLING, read_client, read_count, read_first, read_within};
