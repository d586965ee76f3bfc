//! The lines of a script, as values, and the reasons for which a script is refused.
#![tactic(auto)]

mod answer;
mod going;
mod line;
mod note;

pub use answer::{ScriptAnswer, ScriptWhy};
pub use going::let_line_go;
pub use line::{Line, Server, WellOptions};
pub use note::{Heading, NoteKind};
