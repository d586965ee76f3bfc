//! Log records: their test, and their printed form.
#![tactic(auto)]

mod clock;
mod digits;
mod law;
mod length;
mod print;
mod record;
mod sheet;

pub use law::{law_of_cut_marks, law_of_equality};
pub use length::{notified_length, parts_length, printed_length, time_length};
pub use print::{is_printable, print_record};
pub use record::{Header, LogRecord, check_write};
