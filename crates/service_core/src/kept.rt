//! All that a service keeps.
use crate::parts::Parts;
use service_table::ClientWindow;

/// The parts, and the windows of clients in order of their numbers.
#[derive(Drop)]
pub(crate) struct Kept {
    pub(crate) parts: Parts,
    pub(crate) callers: Vec<ClientWindow>,
}

/// All that a service has, which stands by itself in memory.
#[derive(Drop)]
pub(crate) struct Whole {
    pub(crate) kept: Kept,
    /// How many items a subscription holds.
    pub(crate) cap: u32,
}
