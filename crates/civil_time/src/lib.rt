//! Civil dates and times of day in UTC, and the stamps that name files.
#![tactic(auto)]

mod civil;
mod stamp;

pub use civil::{Civil, LAST_SECOND, civil_at, law_of_civil_times};
pub use stamp::{digits_of, law_of_stamps, stamp_at};
