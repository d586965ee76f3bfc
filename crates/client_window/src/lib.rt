//! What a service keeps of the calls of one client: the number of the next call, and the last 32 replies.
#![tactic(auto)]

mod judged;
mod room;
mod window;

pub use judged::Judged;
pub use room::Room;
pub use window::Window;
