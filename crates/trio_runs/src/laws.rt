//! What holds of every run of lines on the world of three servers.
ghost use Rattle.std.specs.Prelude.{ℕ, List, Option};
ghost use Rattle.disk_model.specs.Disk.{Files};
ghost use Rattle.disk_model.specs.Seen.{DiskSeen};
ghost use Rattle.played_runs.specs.AfterFault.{KeepsAtFault};
ghost use Rattle.played_runs.specs.Promises.{CallsBack, CommitsInTime, KeepsFiles, KeepsOneHistory, KeepsRecords};
ghost use Rattle.played_runs.specs.Promises.{PrintsPosts, ReadsRightly, RepliesRightly, StandsOnce};
ghost use Rattle.played_runs.specs.Telling.{TellsAtWant, TellsOnce};
ghost use Rattle.played_runs.specs.Steps.{IsPlayable};
ghost use Rattle.trio_lines.specs.declared.line.TrioLine.{TrioLine};
ghost use Rattle.trio_lines.specs.Scripts.{IsTrioOf};
ghost use Rattle.spare_server.specs.declared.world.TrioWorld.{TrioWorld};
ghost use Rattle.spare_server.specs.Game.{trio_game};
ghost use Rattle.trio_runs.specs.Counting.{CallsCounted};
ghost use Rattle.trio_runs.specs.Falling.{FallsByCause, FaultsFell};
ghost use Rattle.trio_runs.specs.Sentences.{DeclinesRightly, OfAllLines, OfAllLinesOf, SettlesAll, Throughout};

/// What holds at the end of every line that was played over a disk that told these files before the run; and where a fault of the disk, or
/// want of memory, in the next line left the world and the disk as they are. The sentences are those of two servers; of falls it says which
/// servers go down where no fault came.
pub fn law_of_trio_runs()
    ensures one_history { (held : Option Files) → Throughout held KeepsOneHistory }
    ensures replies { (held : Option Files) → Throughout held RepliesRightly }
    ensures declines { (held : Option Files) → OfAllLines held DeclinesRightly }
    ensures in_time { (held : Option Files) → OfAllLines held CommitsInTime }
    ensures falls { (held : Option Files) → OfAllLines held FallsByCause }
    ensures fells { (held : Option Files) → OfAllLines held FaultsFell }
    ensures calls { (held : Option Files) → OfAllLinesOf held (CallsCounted held) }
    ensures readers { (held : Option Files) → Throughout held ReadsRightly }
    ensures callbacks { (held : Option Files) → Throughout held CallsBack }
    ensures tells_once { (held : Option Files) → Throughout held TellsOnce }
    ensures posts { (held : Option Files) → Throughout held PrintsPosts }
    ensures files { (held : Option Files) → Throughout held KeepsFiles }
    ensures stays { (held : Option Files) → Throughout held KeepsRecords }
    ensures stands_once { (held : Option Files) → Throughout held StandsOnce }
    ensures settles { (held : Option Files) → Throughout held SettlesAll }
    ensures fault_keeps { (held : Option Files) (left : DiskSeen) (world : TrioWorld)
        → (KeepsAtFault trio_game) held left world }
    ensures want_tells { (held : Option Files) (left : DiskSeen) (world : TrioWorld)
        → (TellsAtWant trio_game) held left world }
{}

/// The lines of a script for three servers can be played.
pub fn law_of_trio_scripts()
    ensures { (lines : List TrioLine) (bytes : List ℕ) → IsTrioOf lines bytes
        → (IsPlayable trio_game) lines }
{}
