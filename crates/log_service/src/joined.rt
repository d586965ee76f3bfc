//! Sets of clients with one more.
ghost use Rattle.std.specs.Prelude.{◌≡◌, nat_lt, IfOk};
ghost use Rattle.client_set.specs.Rising.{put};

use client_set::ClientSet;
use std::alloc::{AllocError, Global};

/// The set with a client put into it. Room for all of them is taken at once; an error is want of memory.
pub(crate) fn with_client(
    alloc: Global,
    set: &ClientSet,
    client: u16,
) -> Result<ClientSet, AllocError>
    ensures { IfOk result (λ joined. joined ≡ put nat_lt client set.now) }
{
    let clients = set.as_slice();
    let mut copy = Vec::with_capacity(alloc, clients.len().saturating_add(1))?;
    copy.extend_from_slice(clients)?;
    let mut joined = ClientSet::from_rising(copy);
    joined.insert(client)?;
    Ok(joined)
}
