//! Reading to the end and writing in full, over sources and sinks that count their faults.
#![tactic(auto)]

mod answers;
mod call_plan;
mod memory;
mod streams;
mod traits;
mod whole_read;
mod whole_write;

pub use answers::{IoFault, ReadAnswer, SinkAnswer};
pub use memory::{MemSink, MemSource};
pub use streams::{Reading, StdSink, StdSource, Writing};
pub use traits::{Sink, Source};
pub use whole_read::read_all;
pub use whole_write::write_all;
