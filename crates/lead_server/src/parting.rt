//! An entry that waits as servers go down.
ghost use Rattle.std.specs.Prelude.{◌≡◌, ◌++◌, is_some, IfOk, OnErr};
ghost use Rattle.lead_server.specs.Parting.{waiting_in, waiting_lines};

use ais_values::Seq;
use event_text::put_entry;
use mirror::Node;
use std::alloc::{AllocError, Global};

/// Adds the line of the entry that waits and is not in the history, which has so many entries. Answers whether there is one. Where memory runs
/// out nothing is added.
pub fn put_waiting(
    alloc: Global,
    lines: &mut Vec<Seq<u8>>,
    active: &Node,
    entries: u64,
) -> Result<bool, AllocError>
    ensures ok { IfOk result (λ waits. (waits ≡ is_some (waiting_in active.now entries))
        × (lines.new.items ≡ lines.old.items ++ waiting_lines (waiting_in active.now entries))) }
    ensures err { OnErr result (lines.new.items ≡ lines.old.items) }
{
    match active.in_hand() {
        None => Ok(false),
        Some(number) => match active.waiting() {
            None => Ok(false),
            Some(entry) => {
                if number <= entries {
                    return Ok(false);
                }
                match put_entry(alloc, lines, number, entry) {
                    Ok(()) => Ok(true),
                    Err(error) => Err(error),
                }
            }
        },
    }
}
