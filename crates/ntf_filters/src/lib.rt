//! Filters of notifications: what a subscription and a reader of stored alarms ask for
//! (SAI-AIS-NTF-A.01.01).
#![tactic(auto)]

mod check;
mod filter;
mod law;
mod matching;

pub use check::check_filters;
pub use filter::{Filter, FilterSet};
pub use law::{law_of_equality, law_of_tests};
pub use matching::matches;
