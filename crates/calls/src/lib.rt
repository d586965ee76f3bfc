//! Calls and their answers, entries, callbacks and the saved value of a service; and the history of what was accepted.
#![tactic(auto)]

mod call;
mod entry;
mod going;
mod history;
mod law;
mod reply;
mod saved;

pub use ais_values::{Boxed, Shared};
pub use call::{Ask, Call};
pub use entry::{Entry, Held};
pub use going::{let_entries_go, let_entry_go, let_history_go};
pub use history::{History, MAX_ENTRIES};
pub use law::law_of_equality;
pub use reply::{Callback, Reply};
pub use saved::{Saved, SavedAlarm, SavedLists, SavedReader, SavedStream, SavedSub, SavedWindow};
