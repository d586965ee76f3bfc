//! What a log stream is: its attributes, its names, its files and what happens to it.
#![tactic(auto)]

mod attrs;
mod cfg;
mod check;
mod defaults;
mod event;
mod law;
mod mark;
mod room;
mod sizes;
mod state;

pub use attrs::{FullAction, StreamAttrs, StreamName};
pub use cfg::cfg_text;
pub use check::{MAX_RECORD, MIN_RECORD, check_attrs, have_one_place};
pub use defaults::{default_format, well_known};
pub use event::{Stamps, StreamEvent};
pub use law::{law_of_equality, law_of_sizes, law_of_tests};
pub use mark::{MAX_MASK, Mark, lets_pass};
pub use room::{changes_file, current_of, first_standing, has_room, next_offset};
pub use sizes::{NANOSECONDS_PER_SECOND, per_file, stamp};
pub use state::{LogFile, StreamState};
