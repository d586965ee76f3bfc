//! A server that starts from a journal.
ghost use Rattle.std.specs.Prelude.{◌≡◌, ◌⊎◌, ◌<◌, ◌^◌, ◌-◌, ℕ, List, Option, Some, option_map, IfOk, IfErr, IfSome, IsErrOf};
ghost use Rattle.ais_values.specs.Causes.{RoseExactlyOn};
ghost use Rattle.disk_model.specs.declared.answers.DiskAnswer.{DiskAnswer};
ghost use Rattle.journal_frames.specs.Frames.{mended, AreShort, IsShort};
ghost use Rattle.journal_frames.specs.Staging.{HasStaged, IsMended, Keeps};
ghost use Rattle.mirror.specs.declared.heard.Role.TheVariants.{Standby};
ghost use Rattle.mirror.specs.Pairing.{deeds_kept};
ghost use Rattle.journal_start.specs.declared.cold.ColdAnswer.TheVariants.{Refused};
ghost use Rattle.journal_start.specs.Arms.{LeavesUnarmed, StopsArmed, StopsByArms};
ghost use Rattle.journal_start.specs.Starts.{bytes_in, told_as, HasStarted, HoldsNone, IsOfDisk, IsRefusedIn, RoseByEither, TakesOver, TriesDeeds, TriesFound, TriesOrNot};

use crate::Journal;
use crate::replaying::{ReplayAnswer, Replayed, replay};
use ais_values::Seq;
use calls::{Entry, let_entries_go};
use disk_model::{DiskAnswer, DiskFault, SharedDisk, read_front};
use journal_frames::{JOURNAL_FILE, mend};
use mirror::{Node, let_heard_go, let_node_go};
use std::alloc::Global;

/// A server that is active after a cold start, with the journal, and the entries that were found, in order.
#[derive(Drop)]
pub struct Cold {
    pub journal: Journal,
    pub node: Node,
    pub entries: Seq<Entry>,
}

/// Why there was no cold start.
#[derive(Clone, Copy, PartialEq, Eq, Debug)]
pub enum ColdAnswer {
    /// Memory ran out.
    Memory,
    /// A disk told a fault.
    Failed,
    /// A disk stopped.
    Stopped,
    /// There is no journal.
    NoJournal,
    /// The open gate at this place has no whole frame with a further byte behind it.
    Refused { place: u64 },
}

/// What a disk's answer is to who starts.
fn answer_of(answer: DiskAnswer) -> ColdAnswer
    ensures { result ≡ told_as answer }
{
    match answer {
        DiskAnswer::Memory => ColdAnswer::Memory,
        DiskAnswer::Failed => ColdAnswer::Failed,
        DiskAnswer::Stopped => ColdAnswer::Stopped,
    }
}

/// The bytes of the journal's file; none where it is absent.
fn read_journal<J: SharedDisk>(alloc: Global, disk: &mut J) -> Result<Option<Seq<u8>>, DiskAnswer>
    ensures told { IfOk result (λ found. IfSome (J.seen disk.old).files (λ files.
        found ≡ bytes_in files)) }
    ensures same { (J.seen disk.new).files ≡ (J.seen disk.old).files }
    ensures cause { RoseExactlyOn (J.seen disk.old).faults (J.seen disk.new).faults result
        DiskAnswer.Failed }
    ensures never_stopped { IsErrOf result DiskAnswer.Stopped → ⊥ }
    ensures stops { (J.seen disk.new).stops ≡ (J.seen disk.old).stops }
    ensures armed { (J.seen disk.new).tally.armed ≡ (J.seen disk.old).tally.armed }
{
    let size = match disk.len(JOURNAL_FILE) {
        Ok(Some(size)) => size,
        Ok(None) => return Ok(None),
        Err(DiskFault::Failed) => return Err(DiskAnswer::Failed),
    };
    match read_front(alloc, disk, JOURNAL_FILE, size) {
        Ok(bytes) => Ok(Some(bytes)),
        Err(answer) => Err(answer),
    }
}

/// The server that followed the journal takes over.
fn start<D: SharedDisk>(alloc: Global, replayed: Replayed, disk: &mut D) -> Result<Cold, ColdAnswer>
    requires { replayed.node.replica.role ≡ Standby }
    ensures done { IfOk result (λ cold. TakesOver replayed cold
        (D.seen disk.old).files (D.seen disk.new).files) }
    ensures cause { RoseExactlyOn (D.seen disk.old).faults (D.seen disk.new).faults result
        ColdAnswer.Failed }
    ensures stop { RoseExactlyOn (D.seen disk.old).stops (D.seen disk.new).stops result
        ColdAnswer.Stopped }
    ensures stopped { IsErrOf result ColdAnswer.Stopped →
        StopsArmed (D.seen disk.old) (D.seen disk.new) }
    ensures unarmed { LeavesUnarmed (D.seen disk.old) (D.seen disk.new) }
    ensures broken { IfErr result (λ answer. TriesDeeds (deeds_kept replayed.node.kept)
        (D.seen disk.old).files (D.seen disk.new).files) }
    ensures never { IfErr result IsOfDisk }
{
    let Replayed {
        mut node,
        entries,
        place,
        number,
        closed: _,
    } = replayed;
    match node.takeover(alloc, disk) {
        Ok(heard) => {
            let_heard_go(heard);
            Ok(Cold {
                journal: Journal { end: place, number },
                node,
                entries,
            })
        }
        Err(answer) => {
            let_node_go(node);
            let_entries_go(entries);
            Err(answer_of(answer))
        }
    }
}

/// Mends the journal of which this was read, and takes over.
fn mend_and_start<J: SharedDisk, D: SharedDisk>(
    alloc: Global,
    replayed: Replayed,
    journal: &mut J,
    disk: &mut D,
) -> Result<Cold, ColdAnswer>
    requires role { replayed.node.replica.role ≡ Standby }
    requires place { replayed.place < 2 ^ 64 - 1 }
    ensures done { IfOk result (λ cold. TakesOver replayed cold
        (D.seen disk.old).files (D.seen disk.new).files) }
    ensures mended { IfOk result (λ cold. (J.seen journal.new).files
        ≡ option_map (mended replayed.place replayed.closed) (J.seen journal.old).files) }
    ensures kept { (texts : List (List ℕ)) (text : List ℕ) → AreShort texts → IsShort text →
        Keeps (IsMended texts text replayed.place replayed.closed) (HasStaged texts text)
        (J.seen journal.old).files (J.seen journal.new).files }
    ensures cause { RoseByEither (J.seen journal.old).faults (J.seen journal.new).faults
        (D.seen disk.old).faults (D.seen disk.new).faults result ColdAnswer.Failed }
    ensures stop { RoseByEither (J.seen journal.old).stops (J.seen journal.new).stops
        (D.seen disk.old).stops (D.seen disk.new).stops result ColdAnswer.Stopped }
    ensures arms { StopsByArms (J.seen journal.old) (J.seen journal.new)
        (D.seen disk.old) (D.seen disk.new) result }
    ensures broken { IfErr result (λ answer. TriesOrNot (deeds_kept replayed.node.kept)
        (D.seen disk.old).files (D.seen disk.new).files) }
    ensures never { IfErr result IsOfDisk }
{
    match mend(journal, replayed.place, replayed.closed) {
        Ok(()) => start(alloc, replayed, disk),
        Err(answer) => {
            let Replayed {
                node,
                entries,
                place: _,
                number: _,
                closed: _,
            } = replayed;
            let_node_go(node);
            let_entries_go(entries);
            Err(answer_of(answer))
        }
    }
}

/// Starts a server from a journal: it follows the journal's bytes, the journal is mended, and the server takes over, that
/// is, does the deeds of the last entry again and is active.
///
/// `NoJournal` comes exactly where the journal's file is absent, has fewer than two bytes, or its first gate is not open;
/// `Refused` exactly where some open gate has no whole frame with a further byte behind it, at the first such gate. Both
/// disks are as they were then. `Failed` comes exactly where one disk's count of faults rose, and `Stopped` exactly where
/// one disk's count of stops rose, which was armed at the call; a disk that was not is not armed afterwards. Whatever the
/// answer, a journal that one more entry was to join is such a journal still, so that a start that broke off can be begun
/// again.
pub fn cold_start<J: SharedDisk, D: SharedDisk>(
    alloc: Global,
    journal: &mut J,
    disk: &mut D,
) -> Result<Cold, ColdAnswer>
    ensures found { IfOk result (λ cold. HasStarted cold (J.seen journal.old).files
        (J.seen journal.new).files (D.seen disk.old).files (D.seen disk.new).files) }
    ensures none { IsErrOf result ColdAnswer.NoJournal →
        IfSome (J.seen journal.old).files (λ files. HoldsNone (bytes_in files)) }
    ensures refused { (place : ℕ) → IsErrOf result (Refused place) →
        IfSome (J.seen journal.old).files (λ files. IsRefusedIn (bytes_in files) place) }
    ensures kept { (texts : List (List ℕ)) (text : List ℕ) → AreShort texts → IsShort text →
        Keeps (HasStaged texts text) (HasStaged texts text)
        (J.seen journal.old).files (J.seen journal.new).files }
    ensures untouched { IfErr result (λ answer. IsOfDisk answer ⊎
        (((J.seen journal.new).files ≡ (J.seen journal.old).files)
        × ((D.seen disk.new).files ≡ (D.seen disk.old).files))) }
    ensures broken { IfErr result (λ answer. TriesFound (J.seen journal.old).files
        (D.seen disk.old).files (D.seen disk.new).files) }
    ensures arms { StopsByArms (J.seen journal.old) (J.seen journal.new)
        (D.seen disk.old) (D.seen disk.new) result }
    ensures cause { RoseByEither (J.seen journal.old).faults (J.seen journal.new).faults
        (D.seen disk.old).faults (D.seen disk.new).faults result ColdAnswer.Failed }
    ensures stop { RoseByEither (J.seen journal.old).stops (J.seen journal.new).stops
        (D.seen disk.old).stops (D.seen disk.new).stops result ColdAnswer.Stopped }
{
    let bytes = match read_journal(alloc, journal) {
        Ok(Some(bytes)) => bytes,
        Ok(None) => return Err(ColdAnswer::NoJournal),
        Err(answer) => return Err(answer_of(answer)),
    };
    match replay(alloc, bytes.as_slice()) {
        Ok(replayed) => mend_and_start(alloc, replayed, journal, disk),
        Err(ReplayAnswer::Memory) => Err(ColdAnswer::Memory),
        Err(ReplayAnswer::NoJournal) => Err(ColdAnswer::NoJournal),
        Err(ReplayAnswer::Refused { place }) => Err(ColdAnswer::Refused { place }),
    }
}
