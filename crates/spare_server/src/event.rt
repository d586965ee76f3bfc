//! A line of a script happens to the world.
ghost use Rattle.std.specs.Prelude.{ℕ, List, IfOk, IfErr};
ghost use Rattle.std.specs.Result.{is_ok};
ghost use Rattle.trio_lines.specs.Lines.{SpellsTrio};
ghost use Rattle.cluster_lines.specs.Playing.{LooksBy};
ghost use Rattle.spare_server.specs.Game.{trio_game};
ghost use Rattle.spare_server.specs.Happening.{group_line};
ghost use Rattle.spare_server.specs.Playing.{IsTrioEvent};
ghost use Rattle.spare_server.specs.Standbys.{FollowsBehind};
ghost use Rattle.played_runs.specs.Games.{HasState, DoesEvent, EventBroken, RisesInEvent};

use crate::TrioWorld;
use crate::parts::play_whole;
use ais_values::Seq;
use callback_dispatch::Gate;
use cluster_clients::EventAnswer;
use disk_model::{DiskAnswer, SharedDisk};
use std::alloc::Global;
use std::mem;
use std::sync::Wait;
use std::thread::Threads;
use trio_lines::TrioLine;

impl TrioWorld {
    /// Does what a line of a script asks for, and answers with the lines that it prints, each with its line feed. A cluster line and a
    /// time below that in force are no part of it. A dispatch of all is by as many workers as the line says, each of which passes the
    /// gate before it takes anything; what is printed does not rest on their number.
    ///
    /// A server that stops or has a fault in the work of an entry goes down, and a standby takes over; where it has a fault in that, it
    /// goes down, and the next one takes over: the line goes on with that one. Behind the line, as before it, each standby can take over
    /// (`keeps`).
    /// The disk's count of faults does not fall in the call. `DiskFault` comes where the disk had a fault that left no server active, or
    /// one as files were shown: the count rose then. A line that shows files leaves all as it was, and has no lines. Otherwise the line
    /// is `work`, `settle` or a `crash` of the active server: its lines are those of all that was done before, and of the servers that
    /// went down.
    ///
    /// The disk counts the calls that the line asks for and no others: of `work` and `settle` those of the works that were done, of those
    /// that a server fell in and of the takeovers behind it; of a `crash` those of the takeovers.
    ///
    /// `files` asks the disk once for the names and once for the length of each, `cat` once for the length and once for the bytes where
    /// there are any; another line that is not the servers' own, and not `settle`, asks it nothing.
    ///
    /// `Memory` comes where memory ran out: some of the line was done, without its lines. The history is legal; each client's calls in it
    /// are the first of those that it had sent before, and what came to it is of the time in force, which stays, or waited for another
    /// server before. Each client was fed the beginning of its items, each reply that it took is the history's, and the files are
    /// between. The counts of faults and stops are those of works that were done, and of one more in which the server fell, where memory was
    /// wanting as a standby took over; of a `crash` those of standbys that had a fault as they took over before. As one took over no server
    /// is armed, and the one that was active is down and leads still, unless the standby had made all of its calls, or another server fell
    /// before in the line. The same is answered where the history has 4,000,000,000 entries, where a client's agent has numbered
    /// 4,294,967,294 calls, and where a string of the net has more than 4,294,967,294 bytes.
    pub fn event<R: Threads + Wait + Sync, D: SharedDisk, G: Gate>(
        &mut self,
        rt: &R,
        alloc: Global,
        line: &TrioLine,
        disk: &mut D,
        gate: &G,
    ) -> Result<Seq<Seq<u8>>, EventAnswer>
        requires spelled { (raw : List ℕ) × SpellsTrio line.now raw }
        requires line { IsTrioEvent self.old.now line.now }
        requires state { HasState trio_game self.old (D.seen disk.old).tally.armed }
        ensures ok { IfOk result (λ lines. DoesEvent trio_game line.now lines self.old self.new
            (D.seen disk.old) (D.seen disk.new)) }
        ensures broken { IfErr result (λ answer. EventBroken trio_game answer line.now self.old
            self.new (D.seen disk.old) (D.seen disk.new)) }
        ensures cause { RisesInEvent (D.seen disk.old).faults (D.seen disk.new).faults result }
        ensures looks { LooksBy (group_line line.now) (D.seen disk.old).files (is_ok result)
            (D.seen disk.old).tally (D.seen disk.new).tally }
        ensures keeps { IfOk result (λ _. FollowsBehind self.old self.new (D.seen disk.old)
            (D.seen disk.new)) }
    {
        let mut lines = Vec::new(alloc);
        match play_whole(rt, alloc, self, &mut lines, line, disk, gate) {
            Ok(()) => Ok(Seq::from_vec(lines)),
            Err(DiskAnswer::Memory) => {
                mem::drop(lines);
                Err(EventAnswer::Memory)
            }
            // The servers answer for a disk that stops, and hand no stop on.
            Err(DiskAnswer::Stopped) => {
                mem::drop(lines);
                Err(EventAnswer::Memory)
            }
            Err(DiskAnswer::Failed) => {
                let printed = Seq::from_vec(lines);
                Err(EventAnswer::DiskFault { printed })
            }
        }
    }
}
