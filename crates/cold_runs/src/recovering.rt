//! A server that starts from the journal that stands, and what is told of it.
ghost use Rattle.std.specs.Prelude.{◌≡◌, ◌++◌, length, IfOk, None};
ghost use Rattle.played_runs.specs.Edges.{edge};
ghost use Rattle.played_runs.specs.Writing.{joined_lines, IsNever, IsText, Written};
ghost use Rattle.command_journal.specs.declared.world.ColdWorld.{ColdWorld};
ghost use Rattle.cold_runs.specs.Recovering.{history_line, ListsAfter, RecoversBy};
ghost use Rattle.cold_runs.specs.Stages.{cold_stage};

use crate::playing::write_refused;
use ais_values::Seq;
use calls::let_entries_go;
use cluster_clients::list_files;
use command_journal::{Cold, ColdAnswer, cold_start};
use disk_model::{DiskAnswer, SharedDisk};
use io_edge::{Sink, write_all};
use mirror::let_node_go;
use played_runs::{Status8, unwritten, write_broken, write_lines};
use std::alloc::{AllocError, Global};

// How many entries the server that started has, which is let go.
fn count_entries(cold: Cold) -> usize
    ensures { result ≡ length cold.entries }
{
    let Cold {
        journal: _,
        node,
        entries,
    } = cold;
    let count = entries.as_slice().len();
    let_node_go(node);
    let_entries_go(entries);
    count
}

// The line on a history of so many entries.
fn history_line(alloc: Global, count: usize) -> Result<Vec<u8>, AllocError>
    ensures { IfOk result (λ line. line.items ≡ history_line count) }
{
    let printed = format!(in alloc; "history {count}\n")?;
    printed.as_bytes().to_vec(alloc)
}

// Writes a line, and others behind it.
fn write_behind<K: Sink>(out: &mut K, line: &[u8], lines: &[Seq<u8>]) -> Status8
    ensures { Written (IsText Status8.Done (line.now ++ joined_lines lines.now)) IsNever
        (edge K.written K.faults out.old out.new) result }
{
    match write_all(out, line) {
        Ok(()) => match write_lines(out, lines) {
            Ok(()) => Status8::Done,
            Err(answer) => unwritten(answer),
        },
        Err(answer) => unwritten(answer),
    }
}

// What is told of a history of so many entries, and of the record disk's files.
fn write_started<K: Sink, D: SharedDisk>(
    alloc: Global,
    count: usize,
    out: &mut K,
    disk: &mut D,
) -> Status8
    ensures { ListsAfter count (D.seen disk.old) (D.seen disk.new)
        (edge K.written K.faults out.old out.new) result }
{
    let line = match history_line(alloc, count) {
        Ok(line) => line,
        Err(_) => return Status8::Memory,
    };
    match list_files(alloc, disk) {
        Ok(lines) => write_behind(out, line.as_slice(), lines.as_slice()),
        Err(DiskAnswer::Memory) => Status8::Memory,
        // Files are only read, so that the disk does not stop.
        Err(DiskAnswer::Stopped) => Status8::Memory,
        Err(DiskAnswer::Failed) => write_broken(out, &[]),
    }
}

/// Starts a server from the journal that stands, and writes how many entries were found, and the lines of the record disk's files then. It lets
/// the server go. No source is read.
///
/// `JournalRefused` comes exactly where there is no journal, or an open gate has no whole frame with a further byte behind it: the line
/// `no journal`, or `journal PLACE`. `DiskFault` comes exactly where a disk's count of faults rose in the call. Where memory ran out nothing
/// is written, unless in the sink.
pub fn recover<K: Sink, D: SharedDisk, J: SharedDisk>(
    alloc: Global,
    out: &mut K,
    disk: &mut D,
    journal: &mut J,
) -> Status8
    requires unarmed { (D.seen disk.old).tally.armed ≡ None }
    requires unarmed_too { (J.seen journal.old).tally.armed ≡ None }
    ensures { (world : ColdWorld) → RecoversBy (cold_stage (edge K.written K.faults out.old out.new)
        D.seen disk.old disk.new J.seen journal.old journal.new world world) result }
{
    match cold_start(alloc, journal, disk) {
        Ok(cold) => write_started(alloc, count_entries(cold), out, disk),
        Err(ColdAnswer::NoJournal) => write_refused(alloc, out, None),
        Err(ColdAnswer::Refused { place }) => write_refused(alloc, out, Some(place)),
        Err(ColdAnswer::Failed) => write_broken(out, &[]),
        Err(ColdAnswer::Memory) => Status8::Memory,
        // Neither disk is armed, so that none stops.
        Err(ColdAnswer::Stopped) => Status8::Memory,
    }
}
