//! Notifications of the Notification Service: their types, and the check that a send must pass
//! (SAI-AIS-NTF-A.01.01).
#![tactic(auto)]

mod check;
mod law;
mod notification;
mod value;

pub use check::{MAX_BYTES, MAX_ELEMENTS, MAX_SEVERITY, check_notification};
pub use law::{law_of_equality, law_of_tests};
pub use notification::{Body, Notification, kind_of};
pub use value::{Change, Pair, StateChange, Value};
