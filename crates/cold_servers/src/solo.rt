//! One server and its journal, as the servers of a cluster.

use lone_server::Lone;

/// One server, active or down, and its journal.
#[derive(Drop)]
pub struct Solo {
    pub lone: Lone,
}
