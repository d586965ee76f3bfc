//! Where the records of log streams stand, the names of their files, and the deeds that keep the files.
#![tactic(auto)]

mod deed;
mod law;
mod listing;
mod names;
mod spot;

pub use deed::Deed;
pub use law::law_of_states;
pub use listing::deeds;
pub use names::file_name;
pub use spot::{Spot, place, place_next};
