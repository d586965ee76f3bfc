//! Byte strings that are read back from the net.
ghost use Rattle.std.specs.Prelude.{IfOk};
ghost use Rattle.cluster_clients.specs.Spelled.{IsFetched};
ghost use Rattle.cluster_clients.specs.Fetching.{IsReadAs};

use message_net::Net;
use std::alloc::{AllocError, Global};
use wire::{Message, WireAnswer, WireWhy, decode, law_of_spellings};
use wire_code::MAX_SPELLING;

/// What a byte string of the net is.
#[derive(PartialEq, Drop)]
pub enum Fetched {
    /// The spelling of this message.
    Whole { message: Message },
    /// No message spells it: so many of its bytes are the front of a spelling.
    Bad { front: u32, why: WireWhy },
}

/// What these bytes are. Where they are more than 4,294,967,294, it answers as if memory ran out.
pub(crate) fn read_string(alloc: Global, bytes: &[u8]) -> Result<Fetched, AllocError>
    ensures { IfOk result (λ fetched. IsReadAs bytes.now fetched) }
{
    if bytes.len() > MAX_SPELLING {
        return Err(AllocError);
    }
    match decode(alloc, bytes) {
        Ok(message) => Ok(Fetched::Whole { message }),
        Err(WireAnswer::Refused { place, why }) => Ok(Fetched::Bad { front: place, why }),
        Err(WireAnswer::Memory) => Err(AllocError),
    }
}

/// What stands at this number in the net, `None` exactly where nothing does. A string of more than 4,294,967,294 bytes counts as
/// want of memory.
pub fn fetch(alloc: Global, net: &Net, place: u64) -> Result<Option<Fetched>, AllocError>
    ensures { IfOk result (λ found. IsFetched place net.now found) }
{
    law_of_spellings();
    match net.at(place) {
        None => Ok(None),
        Some(bytes) => match read_string(alloc, bytes) {
            Ok(fetched) => Ok(Some(fetched)),
            Err(error) => Err(error),
        },
    }
}
