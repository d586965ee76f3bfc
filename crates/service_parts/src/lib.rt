//! The parts of a service beside its two states: the windows of clients, the readers of stored alarms, and
//! notifications as they are accepted.
#![tactic(auto)]

mod accepting;
mod readers;
mod reading;
mod told;
mod windows;

pub use accepting::{accepted, record_for};
pub use readers::stop_reader;
pub use reading::{end_reading, read_on, start_reading};
pub use told::Told;
pub use windows::{ReplyRoom, answer_call, judge_call, next_call, room_for};
