//! Servers of any count, one of them active and the others beside it, as such servers as a cluster may have: what they hear, mirror, confirm and
//! work, how one takes over, and the lines on failing servers.
#![tactic(auto)]

mod catching;
mod confirming;
mod crashing;
mod delivering;
mod falling;
mod going;
mod group;
mod hearing;
mod joining;
mod lines;
mod naming;
mod owing;
mod parting;
mod playing;
mod pushing;
mod rejoining;
mod seats;
mod serving;
mod spreading;
mod standing;
mod taking_over;
mod telling;
mod working;

pub use crashing::crash;
pub use going::let_seat_go;
pub use group::{Group, Seat};
pub use joining::{arm, disarm, restart};
pub use lines::{ack_line, mirror_line};
pub use naming::{ack_at, mirror_at};
pub use standing::{refused, standing_of};
pub use working::work;
