//! Why an event was not done.
use ais_values::Seq;

/// Why an event was not done.
#[derive(Drop)]
pub enum EventAnswer {
    /// Memory was wanting.
    Memory,
    /// A device call failed, of the record disk or of the journal's; these are the lines of what was done until then.
    DiskFault { printed: Seq<Seq<u8>> },
    /// The server found no journal to start from: there is none, or the open gate at this place has no whole frame with a further byte
    /// behind it.
    Journal { place: Option<u64> },
}
