//! The Notification Service by all that changed: who uses it, which subscriptions last and what
//! happened to each, readers, stored alarms, and the answers. Definitions and laws; the calls stand
//! above.
#![tactic(auto)]

mod law;

pub use law::{
    law_of_asked, law_of_changes, law_of_items, law_of_readers, law_of_stored,
    law_of_subscriptions, law_of_tables, law_of_users,
};
