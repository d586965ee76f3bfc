//! What lines of a script lead to as they are played, over any world of servers and clients: what holds at the end of every line, and where
//! the playing ends; and how a run writes its lines and its end.
#![tactic(auto)]

mod ending;
mod left;
mod packing;
mod passing;
mod playable;
mod playing;
mod writing;

pub use ending::{End, Status8, end_with, root_holds};
pub use left::LinesLeft;
pub use passing::{Halt, begin_by, pass_lines};
pub use playable::Playable;
pub use playing::{first_name, play, write_held};
pub use writing::{unwritten, write_broken, write_end, write_lines, write_text};
