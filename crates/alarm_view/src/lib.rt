//! The alarms whose records are stored, and searches among them.
#![tactic(auto)]

mod alarm;
mod changing;
mod cursor;
mod law;
mod mode;
mod place;
mod rebuilding;
mod search;
mod view;

pub use alarm::KeptAlarm;
pub use cursor::Cursor;
pub use law::{law_of_nearest, law_of_order, law_of_search};
pub use mode::{Direction, SearchMode};
pub use view::AlarmView;
