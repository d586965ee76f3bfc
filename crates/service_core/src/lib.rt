//! The whole service: entries are applied to it one after another, and its value can be handed on.
#![tactic(auto)]

mod acting;
mod answer;
mod deeds;
mod effect;
mod holding;
mod kept;
mod logging;
mod notifying;
mod opening;
mod parts;
mod planning;
mod restoring;
mod saving;
mod sending;
mod service;
mod writing;

pub use answer::RestoreAnswer;
pub use effect::Effect;
pub use service::Service;
