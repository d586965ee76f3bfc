//! The reader of scripts: lines of a script, read from bytes; and beside it their types and the writer's functions.
#![tactic(auto)]

mod asks;
mod control;
mod elements;
mod filters;
mod lines;
mod lists;
mod notes;
mod numbers;
mod options;
mod quoted;
mod reader;
mod streams;
mod trouble;
mod values;

pub use numbers::{skip, whole_number};
pub use options::{well_attrs, wells_of};
pub use reader::{count_lines, first_line, parse_script, skips};
pub use script_lines::{Line, ScriptAnswer, ScriptWhy, Server, WellOptions};
pub use script_printer::{print_line, print_note, print_script};
