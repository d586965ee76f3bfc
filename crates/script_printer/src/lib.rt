//! Lines of scripts and notifications, written.
#![tactic(auto)]

mod asks;
mod elements;
mod lines;
mod lists;
mod notes;
mod pieces;
mod streams;
mod values;

pub use lines::{print_line, print_script, put_script_line};
pub use notes::{print_note, put_shown_note};
pub use pieces::{Printable, put, put_all, put_number, put_quoted, put_signed};
pub use streams::put_stream;
