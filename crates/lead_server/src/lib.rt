//! What one active server does, over its parts: what it hears, commits, confirms, pushes and posts. What goes to the servers beside it is handed
//! back, so nothing here knows how many there are.
#![tactic(auto)]

mod again;
mod hearing;
mod lists;
mod parting;
mod roles;
mod telling;

pub use hearing::{confirm, hear, push};
pub use lists::{clear, send_all, take_first};
pub use parting::put_waiting;
pub use roles::{go_down, go_joining, is_down, is_standby, role_shown};
pub use telling::{commit, tell_worked};
