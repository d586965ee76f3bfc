//! What holds of every run of lines on one server and its journal.
ghost use Rattle.played_runs.specs.Promises.{CallsBack, CommitsInTime, KeepsOneHistory, PrintsPosts, ReadsRightly, RepliesRightly, StandsOnce};
ghost use Rattle.played_runs.specs.Telling.{TellsOnce};
ghost use Rattle.cold_servers.specs.ColdSeen.{ColdSeen};
ghost use Rattle.command_journal.specs.declared.world.ColdWorld.{ColdWorld};
ghost use Rattle.cold_runs.specs.AfterFault.{KeepsColdAtFault, TellsColdAtWant};
ghost use Rattle.cold_runs.specs.Promises.{DeclinesCold, FallsCold, FindsAll, JournalStands, KeepsRecordsCold, OfAllColdLines, OfLine, OfWorld, SettlesCold, ThroughoutCold};

/// What holds at the end of every line that was played over two disks of which this was seen before; and what stands where a
/// disk's fault ended the line behind one, and where memory ran out in it.
pub fn law_of_cold_runs()
    ensures one_history { (held : ColdSeen) → ThroughoutCold held (OfWorld KeepsOneHistory) }
    ensures finds { (held : ColdSeen) → OfAllColdLines held FindsAll }
    ensures falls { (held : ColdSeen) → OfAllColdLines held FallsCold }
    ensures declines { (held : ColdSeen) → OfAllColdLines held DeclinesCold }
    ensures in_time { (held : ColdSeen) → OfAllColdLines held (OfLine CommitsInTime) }
    ensures replies { (held : ColdSeen) → ThroughoutCold held (OfWorld RepliesRightly) }
    ensures readers { (held : ColdSeen) → ThroughoutCold held (OfWorld ReadsRightly) }
    ensures callbacks { (held : ColdSeen) → ThroughoutCold held (OfWorld CallsBack) }
    ensures tells_once { (held : ColdSeen) → ThroughoutCold held (OfWorld TellsOnce) }
    ensures posts { (held : ColdSeen) → ThroughoutCold held (OfWorld PrintsPosts) }
    ensures stands_once { (held : ColdSeen) → ThroughoutCold held (OfWorld StandsOnce) }
    ensures stays { (held : ColdSeen) → ThroughoutCold held KeepsRecordsCold }
    ensures stands { (held : ColdSeen) → ThroughoutCold held JournalStands }
    ensures settles { (held : ColdSeen) → ThroughoutCold held SettlesCold }
    ensures fault_keeps { (held left : ColdSeen) (world : ColdWorld)
        → KeepsColdAtFault held left world }
    ensures want_tells { (held left : ColdSeen) (world : ColdWorld)
        → TellsColdAtWant held left world }
{}
