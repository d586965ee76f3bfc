//! What the whole service is by its history: answers, items, files, deeds and the value that is handed on: definitions and
//! laws alone.
#![tactic(auto)]

mod law;
mod storage;

pub use law::{
    law_of_asked, law_of_events, law_of_ids, law_of_items, law_of_replies, law_of_steps,
};
pub use storage::{law_of_files, law_of_records};
