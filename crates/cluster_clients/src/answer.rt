//! Why an event was not done.
use ais_values::Seq;

/// Why an event was not done.
#[derive(Drop)]
pub enum EventAnswer {
    /// Memory was wanting.
    Memory,
    /// A device call failed; these are the lines of what was done until then.
    DiskFault { printed: Seq<Seq<u8>> },
}
