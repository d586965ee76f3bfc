//! What the log service has come to by all that happened to it: definitions and laws, and which records are filtered; the calls
//! stand above.
#![tactic(auto)]

mod filling;
mod filtering;
mod law;

pub use filling::filled_time;
pub use filtering::is_filtered;
pub use law::{law_of_changes, law_of_files, law_of_names, law_of_records, law_of_rounds};
