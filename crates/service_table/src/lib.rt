//! What a service keeps, part by part, and what each entry makes of it: definitions and laws over histories, and the type of a
//! client's window.
#![tactic(auto)]

mod caller;

pub use caller::ClientWindow;
