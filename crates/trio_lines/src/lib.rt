//! The script of three servers: its lines as values, read from bytes and written again.
#![tactic(auto)]

mod law;
mod line;
mod own;
mod printing;
mod reading;

pub use law::law_of_shared_scripts;
pub use line::{TrioLine, TrioServer};
pub use printing::put_trio_line;
pub use reading::parse_trio;
