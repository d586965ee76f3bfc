//! The commands that play no lines: `check`, `expr`, `gen`, `scan` and `find`.
#![tactic(auto)]

mod check;
mod ending;
mod expr;
mod generating;
mod scanning;

pub use check::run_check;
pub use expr::check_text;
pub use generating::generate;
pub use scanning::scan;
