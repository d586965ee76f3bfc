//! The log service's state: who uses it, which streams live and who has them open, and what each call answers and
//! does to streams.
#![tactic(auto)]

mod begin;
mod files;
mod filtering;
mod joined;
mod law;
mod live;
mod plan;
mod reading;
mod records;
mod state;
mod step;
mod streams;

pub use law::law_of_history;
pub use plan::LogPlan;
pub use state::LogState;
pub use step::Step;
