//! The queue of one subscription: the items that have no receipt yet, and what was lost for want of a
//! place (SAI-AIS-NTF-A.01.01).
#![tactic(auto)]

mod item;
mod law;
mod queue;

pub use item::{Content, Item, Lost};
pub use law::{law_of_calls, law_of_counts, law_of_equality, law_of_marks};
pub use queue::{SubQueue, mark_of};
