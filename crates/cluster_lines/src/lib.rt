//! The lines of a script over any servers that play them: what each line does to a cluster, and what it shows.
#![tactic(auto)]

mod playing;
mod scripted;
mod showing;

pub use playing::{as_answer, done_at_stop, play};
pub use scripted::Scripted;
pub use showing::{put_refusal, show_file, show_files};
