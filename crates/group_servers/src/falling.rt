//! A standby takes over where the active server is down.
ghost use Rattle.std.specs.Prelude.{◌≡◌, ◌++◌, ℕ, List, length};
ghost use Rattle.std.specs.List.{AllByRecursion};
ghost use Rattle.group_servers.specs.Lines.{takers, joiners, end_lines};
ghost use Rattle.group_servers.specs.Falls.{IsFitSeat, TakesOver};

use crate::Group;
use crate::rejoining::{drop_ways, exchange, rejoin};
use crate::taking_over::first_takeover;
use crate::telling::{count_takers, tell_fallen, tell_over};
use ais_values::Seq;
use disk_model::{DiskAnswer, SharedDisk};
use std::alloc::Global;

/// The standbys try to take over, the first of them first: those that keep no deeds where there is one, and else all. The active server is
/// down. The lines behind the first so many are those of all ends, and those stay that tell how it ended.
///
/// `Failed` comes where each of them had a fault of the disk: all are down. `Memory` comes where memory ran out. `Stopped` never comes.
pub(crate) fn take_over<const N: usize, D: SharedDisk>(
    alloc: Global,
    servers: &mut Group<N>,
    lines: &mut Vec<Seq<u8>>,
    base: usize,
    fresh: bool,
    now: i64,
    disk: &mut D,
) -> Result<(), DiskAnswer>
    requires fit { AllByRecursion IsFitSeat servers.old.seats }
    requires lines { (before : List (List ℕ)) × (length before ≡ base) × (lines.old.items
        ≡ before ++ end_lines servers.old.acting (takers fresh servers.old.seats) (joiners
        servers.old.seats)) }
    ensures { (before : List (List ℕ)) → length before ≡ base → lines.old.items ≡ before
        ++ end_lines servers.old.acting (takers fresh servers.old.seats) (joiners
        servers.old.seats) → TakesOver fresh result servers.old servers.new before
        lines.new.items (D.seen disk.old) (D.seen disk.new) }
{
    drop_ways(alloc, &mut servers.seats);
    servers.armed = false;
    disk.disarm();
    let count = count_takers(&servers.seats, fresh);
    match first_takeover(alloc, &mut servers.seats, fresh, disk) {
        Ok(Some(place)) => {
            let left = count_takers(&servers.seats, fresh);
            tell_over(lines, base, count, left);
            let acting = servers.acting;
            servers.acting = exchange(&mut servers.seats, place, &mut servers.active, acting);
            match rejoin(alloc, &mut servers.active, &mut servers.seats, now) {
                Ok(()) => Ok(()),
                Err(_) => Err(DiskAnswer::Memory),
            }
        }
        Ok(None) => {
            tell_fallen(lines, base, count);
            Err(DiskAnswer::Failed)
        }
        Err(answer) => Err(answer),
    }
}
