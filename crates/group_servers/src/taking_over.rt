//! Standbys that try to take over, one after another.
ghost use Rattle.std.specs.Prelude.{◌≡◌, ◌<◌, ◌≤◌, ◌∷◌, None, IfOk, OnErr, IfSome, IsErrOf, length};
ghost use Rattle.disk_model.specs.declared.answers.DiskAnswer.{DiskAnswer};
ghost use Rattle.mirror.specs.declared.heard.Role.TheVariants as role;
ghost use Rattle.group_servers.specs.Tries.{takes, Tries, TriesOne, TriesPartly, Lacks, Furthers};

use crate::Seat;
use disk_model::{DiskAnswer, SharedDisk};
use mirror::{Role, let_heard_go};
use std::alloc::Global;

/// Whether a standby may take over: where some keeps no deeds, one of those.
pub(crate) fn takes(fresh: bool, seat: &Seat) -> bool
    ensures { result ≡ takes fresh seat.now }
{
    match seat.node.role() {
        Role::Standby => !(fresh && seat.node.keeps()),
        _ => false,
    }
}

/// A standby tries to take over. Answers whether it did; else it had a fault, and is down.
fn try_one<D: SharedDisk>(alloc: Global, seat: &mut Seat, disk: &mut D) -> Result<bool, DiskAnswer>
    requires standby { seat.old.node.replica.role ≡ role.Standby }
    requires unarmed { (D.seen disk.old).tally.armed ≡ None }
    ensures tries { IfOk result (λ took. TriesOne seat.old seat.new took
        (D.seen disk.old) (D.seen disk.new)) }
    ensures lacks { OnErr result (Lacks seat.old (D.seen disk.old) (D.seen disk.new)) }
    ensures never_failed { IsErrOf result DiskAnswer.Failed → ⊥ }
    ensures never_stopped { IsErrOf result DiskAnswer.Stopped → ⊥ }
{
    match seat.node.takeover(alloc, disk) {
        Ok(heard) => {
            let_heard_go(heard);
            Ok(true)
        }
        Err(DiskAnswer::Memory) => Err(DiskAnswer::Memory),
        Err(DiskAnswer::Failed) => Ok(false),
        Err(DiskAnswer::Stopped) => Err(DiskAnswer::Stopped),
    }
}

/// The place of a server among others behind one more.
fn further(found: Result<Option<usize>, DiskAnswer>) -> Result<Option<usize>, DiskAnswer>
    requires { IfOk found (λ place. IfSome place (λ at. at < 9223372036854775807)) }
    ensures { Furthers found result }
{
    match found {
        Ok(Some(place)) => Ok(Some(place + 1)),
        Ok(None) => Ok(None),
        Err(answer) => Err(answer),
    }
}

/// The first of some standbys tries to take over, and then the others.
#[cycle(takeovers)]
fn takeover_among<D: SharedDisk>(
    alloc: Global,
    first: &mut Seat,
    rest: &mut [Seat],
    fresh: bool,
    disk: &mut D,
) -> Result<Option<usize>, DiskAnswer>
    requires unarmed { (D.seen disk.old).tally.armed ≡ None }
    ensures tries { IfOk result (λ found. Tries fresh (first.old ∷ rest.old) (first.new ∷ rest.new)
        found (D.seen disk.old) (D.seen disk.new)) }
    ensures within { IfOk result (λ found. IfSome found (λ place. place ≤ length rest.old)) }
    ensures lacks { OnErr result (TriesPartly fresh (first.old ∷ rest.old) (D.seen disk.old)
        (D.seen disk.new)) }
    ensures never_failed { IsErrOf result DiskAnswer.Failed → ⊥ }
    ensures never_stopped { IsErrOf result DiskAnswer.Stopped → ⊥ }
{
    if !takes(fresh, first) {
        return further(first_takeover(alloc, rest, fresh, disk));
    }
    match try_one(alloc, first, disk) {
        Ok(true) => Ok(Some(0)),
        Ok(false) => further(first_takeover(alloc, rest, fresh, disk)),
        Err(answer) => Err(answer),
    }
}

/// The standbys try to take over, from the first on. Answers with the place of the one that did.
#[cycle(takeovers)]
pub(crate) fn first_takeover<D: SharedDisk>(
    alloc: Global,
    seats: &mut [Seat],
    fresh: bool,
    disk: &mut D,
) -> Result<Option<usize>, DiskAnswer>
    requires unarmed { (D.seen disk.old).tally.armed ≡ None }
    ensures tries { IfOk result (λ found. Tries fresh seats.old seats.new found
        (D.seen disk.old) (D.seen disk.new)) }
    ensures within { IfOk result (λ found. IfSome found (λ place. place < length seats.old)) }
    ensures lacks { OnErr result (TriesPartly fresh seats.old (D.seen disk.old)
        (D.seen disk.new)) }
    ensures never_failed { IsErrOf result DiskAnswer.Failed → ⊥ }
    ensures never_stopped { IsErrOf result DiskAnswer.Stopped → ⊥ }
{
    match seats.split_first_mut() {
        None => Ok(None),
        Some((first, rest)) => takeover_among(alloc, first, rest, fresh, disk),
    }
}
