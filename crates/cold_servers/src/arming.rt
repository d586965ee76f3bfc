//! A server that is crashed, and disks that are armed.
ghost use Rattle.std.specs.Prelude.{◌≡◌, ◌≤◌, ℕ, List, OnErr, OnOk};
ghost use Rattle.script_lines.specs.declared.line.Line.TheVariants.{Arm, Crash, Disarm};
ghost use Rattle.script_lines.specs.declared.line.Server.TheVariants.{A, B};
ghost use Rattle.cluster_lines.specs.Own.{DoesOn};
ghost use Rattle.cold_servers.specs.ColdKit.{cold_kit, cold_script};
ghost use Rattle.cold_servers.specs.ColdSeen.{Outlives};
ghost use Rattle.cold_servers.specs.Steps.{disarmed_both, disk_armed, fell, journal_armed, AreUp, StaysWild};

use crate::Solo;
use ais_values::Seq;
use cluster_events::ServerRole;
use cluster_rounds::Cluster;
use disk_model::SharedDisk;
use event_text::put_server;
use lone_server::fall;
use script_lines::Server;
use std::alloc::{AllocError, Global};

/// `crash a`, while the server is up: it goes down, which its line tells. Where memory runs out for that line nothing changes.
pub fn crash<D: SharedDisk, J: SharedDisk>(
    alloc: Global,
    world: &mut Cluster<Solo>,
    lines: &mut Vec<Seq<u8>>,
    disk: &mut D,
    beside: &mut J,
) -> Result<(), AllocError>
    requires { AreUp world.old }
    ensures ok { OnOk result (DoesOn cold_kit cold_script (Crash A) fell world.old world.new
        lines.old.items lines.new.items (cold_kit.see (D.seen disk.old) (J.seen beside.old))
        (cold_kit.see (D.seen disk.new) (J.seen beside.new))) }
    ensures err { OnErr result ((world.new ≡ world.old) × (lines.new.items ≡ lines.old.items)
        × (D.seen disk.new ≡ D.seen disk.old) × (J.seen beside.new ≡ J.seen beside.old)) }
    ensures wild { OnOk result (StaysWild world.old world.new
        (cold_kit.see (D.seen disk.old) (J.seen beside.old))
        (cold_kit.see (D.seen disk.new) (J.seen beside.new))) }
    ensures counts { Outlives (cold_kit.see (D.seen disk.old) (J.seen beside.old))
        (cold_kit.see (D.seen disk.new) (J.seen beside.new)) }
{
    match put_server(alloc, lines, Server::A, ServerRole::Down) {
        Ok(()) => {}
        Err(error) => return Err(error),
    }
    fall(alloc, &mut world.servers.lone, disk, beside);
    Ok(())
}

/// `arm a K`, while the server is up: the record disk stops in the changing call of this number from now on.
pub fn arm_disk<D: SharedDisk, J: SharedDisk>(
    world: &mut Cluster<Solo>,
    count: u64,
    disk: &mut D,
    beside: &mut J,
)
    requires up { AreUp world.old }
    requires some { 1 ≤ count }
    ensures states { (lines : List (List ℕ)) → DoesOn cold_kit cold_script (Arm A count)
        (disk_armed count) world.old world.new lines lines
        (cold_kit.see (D.seen disk.old) (J.seen beside.old))
        (cold_kit.see (D.seen disk.new) (J.seen beside.new)) }
    ensures wild { StaysWild world.old world.new
        (cold_kit.see (D.seen disk.old) (J.seen beside.old))
        (cold_kit.see (D.seen disk.new) (J.seen beside.new)) }
    ensures counts { Outlives (cold_kit.see (D.seen disk.old) (J.seen beside.old))
        (cold_kit.see (D.seen disk.new) (J.seen beside.new)) }
{
    disk.arm(count);
    world.servers.lone.armed = true;
}

/// `arm b K`: the journal's disk does.
pub fn arm_journal<D: SharedDisk, J: SharedDisk>(
    world: &mut Cluster<Solo>,
    count: u64,
    disk: &mut D,
    beside: &mut J,
)
    requires up { AreUp world.old }
    requires some { 1 ≤ count }
    ensures states { (lines : List (List ℕ)) → DoesOn cold_kit cold_script (Arm B count)
        (journal_armed count) world.old world.new lines lines
        (cold_kit.see (D.seen disk.old) (J.seen beside.old))
        (cold_kit.see (D.seen disk.new) (J.seen beside.new)) }
    ensures wild { StaysWild world.old world.new
        (cold_kit.see (D.seen disk.old) (J.seen beside.old))
        (cold_kit.see (D.seen disk.new) (J.seen beside.new)) }
    ensures counts { Outlives (cold_kit.see (D.seen disk.old) (J.seen beside.old))
        (cold_kit.see (D.seen disk.new) (J.seen beside.new)) }
{
    beside.arm(count);
    world.servers.lone.armed = true;
}

/// `disarm`: neither disk stops any more.
pub fn disarm<D: SharedDisk, J: SharedDisk>(world: &mut Cluster<Solo>, disk: &mut D, beside: &mut J)
    ensures states { (lines : List (List ℕ)) → DoesOn cold_kit cold_script Disarm disarmed_both
        world.old world.new lines lines (cold_kit.see (D.seen disk.old) (J.seen beside.old))
        (cold_kit.see (D.seen disk.new) (J.seen beside.new)) }
    ensures wild { StaysWild world.old world.new
        (cold_kit.see (D.seen disk.old) (J.seen beside.old))
        (cold_kit.see (D.seen disk.new) (J.seen beside.new)) }
    ensures counts { Outlives (cold_kit.see (D.seen disk.old) (J.seen beside.old))
        (cold_kit.see (D.seen disk.new) (J.seen beside.new)) }
{
    disk.disarm();
    beside.disarm();
    world.servers.lone.armed = false;
}
