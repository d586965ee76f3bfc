//! Entries that are let go. How a value is let go is proved anew in each crate that does it by itself; a crate that calls these proves none of it.
use crate::{Entry, History};
use ais_values::Seq;

/// Lets an entry go, if there is one.
pub fn let_entry_go(entry: Option<Entry>) {
    drop(entry);
}

/// Lets entries go.
pub fn let_entries_go(entries: Seq<Entry>) {
    drop(entries);
}

/// Lets a history go.
pub fn let_history_go(history: History) {
    drop(history);
}
