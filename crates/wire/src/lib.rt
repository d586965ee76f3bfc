//! Messages, and their spelling as bytes.
#![tactic(auto)]

mod call;
mod code;
mod envelope;
mod going;
mod law;
mod list;
mod log;
mod message;
mod ntf;
mod number;
mod parts;
mod saved;
mod single;
mod text;
mod wire;

pub use code::{decode, encode};
pub use going::{let_message_go, let_messages_go, mirrored};
pub use law::{law_of_equality, law_of_spellings};
pub use message::{Message, WireAnswer, WireWhy};
pub use single::one_message;
