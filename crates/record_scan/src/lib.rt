//! Stored records read back: the texts that an expression's tokens have in them.
#![tactic(auto)]

mod find;
mod in_way;
mod law;
mod length;
mod scan;

pub use find::{find_records, is_text, record_length};
pub use in_way::{Inseparable, separable};
pub use law::{law_of_records, law_of_texts};
pub use scan::scan_record;
