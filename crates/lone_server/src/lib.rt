//! One server and its journal: how an entry joins the journal and is worked, and how the server goes down and comes back.
#![tactic(auto)]

mod appending;
mod joining;
mod lone;
mod restarting;
mod working;

pub use appending::{append_first, put_back};
pub use joining::{is_clear, join_journal};
pub use lone::{Lone, fall};
pub use restarting::{come_back, link_journal};
pub use working::{hear_back, work_entry};
