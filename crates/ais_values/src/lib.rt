//! Values that every layer of the services uses: names, texts, lists, kinds, answers, code tables and the words of causes.
#![tactic(auto)]

mod boxed;
mod clients;
mod codes;
mod digits;
mod duplicate;
mod events;
mod fronts;
mod kind;
mod law;
mod name;
mod seq;
mod shared;
mod status;
pub mod tables;
mod text;
mod times;

pub use boxed::Boxed;
pub use clients::{MAX_CLIENT, MAX_REPLIES};
pub use codes::{CodeRow, code_of, name_of};
pub use digits::hex_digit;
pub use duplicate::{Duplicate, both};
pub use events::is_event_type;
pub use fronts::remove_front;
pub use kind::{ClassId, StreamKind, Version, Which};
pub use law::{law_of_tables, law_of_unknown_time};
pub use name::{MAX_NAME, Name, NameAnswer};
pub use seq::Seq;
pub use shared::Shared;
pub use status::{Status, negotiate};
pub use text::{MAX_TEXT, Text, TextAnswer};
pub use times::{LAST_TIME, UNKNOWN_TIME, is_time};
