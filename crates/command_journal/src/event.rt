//! A line of a script happens to the world.
ghost use Rattle.std.specs.Prelude.{◌≡◌, ℕ, false, List, IfOk, IfErr, OnOk};
ghost use Rattle.std.specs.Result.{is_ok};
ghost use Rattle.script_language.specs.Lines.{Spells};
ghost use Rattle.cluster_lines.specs.Lines.{CanPlay};
ghost use Rattle.cluster_lines.specs.Playing.{LooksBy};
ghost use Rattle.cold_servers.specs.ColdKit.{cold_script};
ghost use Rattle.command_journal.specs.Parts.{answered};

use crate::parts::play_whole;
use crate::{ColdWorld, EventAnswer};
use ais_values::Seq;
use callback_dispatch::Gate;
use disk_model::SharedDisk;
use journal_start::ColdAnswer;
use script_lines::Line;
use std::alloc::Global;
use std::mem;
use std::sync::Wait;
use std::thread::Threads;

/// Why an event was not done, with the lines of what was done until then.
fn answered(lines: Vec<Seq<u8>>, answer: ColdAnswer) -> EventAnswer
    ensures { result ≡ answered lines.items answer }
{
    let printed = Seq::from_vec(lines);
    match answer {
        ColdAnswer::Failed => EventAnswer::DiskFault { printed },
        // The server answers for a disk that stops, and hands no stop on.
        ColdAnswer::Memory | ColdAnswer::Stopped => {
            mem::drop(printed);
            EventAnswer::Memory
        }
        ColdAnswer::NoJournal => {
            mem::drop(printed);
            EventAnswer::Journal { place: None }
        }
        ColdAnswer::Refused { place } => {
            mem::drop(printed);
            EventAnswer::Journal { place: Some(place) }
        }
    }
}

impl ColdWorld {
    ghost use Rattle.command_journal.specs.Playing.{DoesEvent, EventBroken, RisesInEvent};
    ghost use Rattle.command_journal.specs.Worlds.{both, HasCold};

    /// Does what a line of a script asks for, and answers with the lines that it prints, each with its line feed. A cluster line and a
    /// time below that in force are no part of it. A dispatch of all is by as many workers as the line says, each of which passes the
    /// gate before it takes anything; what is printed does not rest on their number.
    ///
    /// `a` is the server, `b` the journal. Where a disk stops in `mirror`, `work` or `settle` the server goes down, which is told, and the
    /// line ends there. `restart a` starts it again from its journal: the history becomes the list of entries found, and what is new in it is
    /// told. While it is down nothing reaches it.
    ///
    /// Where the journal's disk tells no files nothing is said of what `restart a` finds there, which may be any fit journal. The world goes on
    /// behind it: the requests of the net are the calls sent, and each reply names one of them, but nothing is said of what the server answers.
    ///
    /// No disk's count of faults falls in the call. `DiskFault` comes where one rose, with the lines of all that was done; the server is down
    /// then, and no disk armed, but for a line that shows files, which leaves all as it was and has no lines. `Journal` comes only for
    /// `restart a`, where there is no journal to start from, or the open gate at that place has no whole frame with a further byte behind it.
    /// It never comes where the journal's disk tells its files. Nothing changes then, and the server stays down.
    ///
    /// `files` asks the record disk once for the names and once for the length of each, `cat` once for the length and once for the bytes
    /// where there are any; another line that is not the servers' own, and not `settle`, asks it nothing.
    ///
    /// `Memory` comes where memory ran out: some of the line was done, without its lines. The history is legal, and what the disks hold is
    /// between: also where the record disk made the deeds of an entry that was found, and the world does not have it. Both counts of faults
    /// stand. The same is answered where the history has 4,000,000,000 entries, where a client's agent has numbered 4,294,967,294 calls, and
    /// where a string of the net has more than 4,294,967,294 bytes.
    pub fn event<R: Threads + Wait + Sync, D: SharedDisk, J: SharedDisk, G: Gate>(
        &mut self,
        rt: &R,
        alloc: Global,
        line: &Line,
        disk: &mut D,
        journal: &mut J,
        gate: &G,
    ) -> Result<Seq<Seq<u8>>, EventAnswer>
        requires spelled { (raw : List ℕ) × Spells line.now raw }
        requires line { CanPlay cold_script self.old.now line.now }
        requires state { HasCold self.old (both (D.seen disk.old) (J.seen journal.old)) }
        ensures ok { IfOk result (λ lines. DoesEvent line.now lines self.old self.new
            (both (D.seen disk.old) (J.seen journal.old))
            (both (D.seen disk.new) (J.seen journal.new))) }
        ensures stands { OnOk result (HasCold self.new
            (both (D.seen disk.new) (J.seen journal.new))) }
        ensures broken { IfErr result (λ answer. EventBroken answer line.now self.old self.new
            (both (D.seen disk.old) (J.seen journal.old))
            (both (D.seen disk.new) (J.seen journal.new))) }
        ensures cause { RisesInEvent (both (D.seen disk.old) (J.seen journal.old))
            (both (D.seen disk.new) (J.seen journal.new)) result }
        ensures looks { LooksBy line.now (D.seen disk.old).files (is_ok result)
            (D.seen disk.old).tally (D.seen disk.new).tally }
    {
        let mut lines = Vec::new(alloc);
        match play_whole(rt, alloc, self, &mut lines, line, disk, journal, gate) {
            Ok(()) => Ok(Seq::from_vec(lines)),
            Err(answer) => Err(answered(lines, answer)),
        }
    }
}
