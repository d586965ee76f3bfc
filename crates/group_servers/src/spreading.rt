//! Entries that go to all servers to which entries go.
ghost use Rattle.std.specs.Prelude.{◌≡◌, [], IsOk, OnOk};
ghost use Rattle.group_servers.specs.Spread.{sent_to, all_sent, first_sent};

use crate::Seat;
use crate::seats::goes_to;
use ais_values::{Duplicate, Seq};
use std::alloc::{AllocError, Global};
use wire::Message;

/// Sends a message to a server, where entries go to it.
fn send_to(alloc: Global, seat: &mut Seat, message: &Message) -> Result<(), AllocError>
    ensures { OnOk result (seat.new ≡ sent_to message.now seat.old) }
{
    if goes_to(seat) {
        let copy = message.copy(alloc)?;
        return seat.link.push(copy);
    }
    Ok(())
}

/// Sends a message to each server to which entries go.
fn spread(alloc: Global, seats: &mut [Seat], message: &Message) -> Result<(), AllocError>
    ensures { OnOk result (seats.new ≡ all_sent message.now seats.old) }
{
    match seats.split_first_mut() {
        None => Ok(()),
        Some((first, rest)) => match send_to(alloc, first, message) {
            Ok(()) => spread(alloc, rest, message),
            Err(error) => Err(error),
        },
    }
}

/// Sends what the active server mirrors, which is one message at most, to each server to which entries go. Where nothing is mirrored it
/// takes no memory.
pub(crate) fn spread_first(
    alloc: Global,
    seats: &mut [Seat],
    mirrored: &[Message],
) -> Result<(), AllocError>
    ensures ok { OnOk result (seats.new ≡ first_sent mirrored.now seats.old) }
    ensures none { (mirrored.now ≡ []) → IsOk result }
{
    match mirrored.split_first() {
        None => Ok(()),
        Some((message, _)) => spread(alloc, seats, message),
    }
}
