//! The Notification Service's state: its users, the last id, and the subscriptions with their
//! queues.
#![tactic(auto)]

mod by_kind;
mod editing;
mod judging;
mod law;
mod offering;
mod plan;
mod rooms;
mod searching;
mod state;
mod subscription;

pub use judging::{asks_for_alarms, is_alarm, is_usable};
pub use law::law_of_history;
pub use plan::SendPlan;
pub use state::NtfState;
pub use subscription::Subscription;
