//! What the lines of a script ask of servers.
ghost use Rattle.std.specs.Prelude.{OnOk, IfErr};
ghost use Rattle.cluster_rounds.specs.Counted.{Counted};
ghost use Rattle.cluster_rounds.specs.Wild.{StandsOn, GoesWild, always};
ghost use Rattle.cluster_rounds.specs.Worlds.{HasStateOn, any_state};
ghost use Rattle.cluster_lines.specs.Lines.{IsInRange, IsOwn};
ghost use Rattle.cluster_lines.specs.Showing.{StandsAs};
ghost use Rattle.cluster_lines.specs.Playing.{Plays, BreaksOff, SharesIn};
ghost use Rattle.cluster_lines.specs.Following.{IsScript};

use ais_values::Seq;
use cluster_events::Standing;
use cluster_rounds::{Cluster, Serving};
use disk_model::{DiskAnswer, SharedDisk};
use script_lines::Line;
use std::alloc::Global;

/// Servers whose cluster plays the lines of scripts.
pub trait Scripted: Serving {
    /// The servers' roles, the lengths of the net and of their lists of messages, and the number of the entry in hand.
    fn standing(world: &Cluster<Self>) -> Standing
        ensures { StandsAs Self.kit world.entry.now result };

    /// Does what a line asks of the servers alone: `mirror`, `ack`, `work`, and of the lines on failing servers those that they allow.
    ///
    /// `Failed` comes where the disk had a fault that no server survives: its count of faults rose, and the lines are those of all
    /// that was done until then. `Memory` comes where memory ran out; some of the line was done. `Stopped` never comes where the cluster
    /// stands for a history.
    fn play_own<D: SharedDisk, J: SharedDisk>(
        alloc: Global,
        world: &mut Cluster<Self>,
        lines: &mut Vec<Seq<u8>>,
        line: &Line,
        disk: &mut D,
        beside: &mut J,
    ) -> Result<(), DiskAnswer>
        requires state { StandsOn Self.kit any_state always world.old
            (Self.kit.see (D.seen disk.old) (J.seen beside.old)) }
        requires range { IsInRange line.now }
        requires own { IsOwn Self.script line.now }
        requires shares { SharesIn Self.kit Self.script line.now world.old }
        ensures ok { OnOk result (Plays Self.kit Self.script line.now world.old world.new
            lines.old.items lines.new.items (Self.kit.see (D.seen disk.old) (J.seen beside.old))
            (Self.kit.see (D.seen disk.new) (J.seen beside.new))) }
        ensures stands { HasStateOn Self.kit any_state world.old
            (Self.kit.see (D.seen disk.old) (J.seen beside.old)) → OnOk result (HasStateOn Self.kit
            any_state world.new (Self.kit.see (D.seen disk.new) (J.seen beside.new))) }
        ensures broken { IfErr result (λ answer. BreaksOff Self.kit Self.script answer line.now
            world.old world.new lines.old.items lines.new.items (Self.kit.see (D.seen disk.old)
            (J.seen beside.old)) (Self.kit.see (D.seen disk.new) (J.seen beside.new))) }
        ensures wild { GoesWild Self.kit always result world.old world.new
            (Self.kit.see (D.seen disk.old) (J.seen beside.old))
            (Self.kit.see (D.seen disk.new) (J.seen beside.new)) }
        ensures counts { Counted Self.kit (Self.kit.see (D.seen disk.old) (J.seen beside.old))
            (Self.kit.see (D.seen disk.new) (J.seen beside.new)) result };

    /// What is asked of their lines holds.
    ghost follows: { IsScript Self.kit Self.script };
}
