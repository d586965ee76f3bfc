//! What the cluster's code asks of servers.
ghost use Rattle.std.specs.Prelude.{◌≡◌, IfOk, IfErr, OnOk, OnErr};
ghost use Rattle.disk_model.specs.declared.answers.DiskAnswer.{DiskAnswer};
ghost use Rattle.wire.specs.MessageSpelling.{MessageInRange};
ghost use Rattle.cluster_rounds.specs.Kits.{Kit, IsKit};
ghost use Rattle.cluster_rounds.specs.Scripts.{Script};
ghost use Rattle.cluster_rounds.specs.Counted.{Counted};
ghost use Rattle.cluster_rounds.specs.Wild.{StandsOf, StandsOn, KeepsWild, PushesWild, GoesWild, Posted, always};
ghost use Rattle.cluster_rounds.specs.Worlds.{IsIdle, StandsIn, DoesIf, heard_by, Pushes, any_state};
ghost use Rattle.cluster_rounds.specs.Broken.{BreaksAloneIf};
ghost use Rattle.cluster_rounds.specs.Rounds.{EndsStep};
ghost use Rattle.cluster_rounds.specs.Came.{Advances, ComesOff};

use crate::Cluster;
use ais_values::Seq;
use disk_model::{DiskAnswer, SharedDisk};
use std::alloc::{AllocError, Global};
use wire::Message;

/// Servers that a cluster may have.
pub trait Serving {
    /// What they keep beside the world of the definitions.
    ghost Peers: { Type 0 };

    /// What is told of them.
    ghost kit: { Kit Peers Self };

    /// What is told of the lines of a script over them.
    ghost script: { Script Peers kit.Seen };

    /// Delivers a request or a receipt of this place in the net to the active server.
    fn hear(
        alloc: Global,
        world: &mut Cluster<Self>,
        lines: &mut Vec<Seq<u8>>,
        place: u64,
        message: &Message,
    ) -> Result<(), AllocError>
        requires state { StandsOf kit any_state always world.old }
        requires range { MessageInRange message.now }
        ensures ok { OnOk result (DoesIf kit (StandsIn message.now) (heard_by kit place message.now)
            world.old world.new lines.old.items lines.new.items) }
        ensures err { OnErr result (BreaksAloneIf kit (StandsIn message.now) world.old world.new) }
        ensures wild { OnOk result (KeepsWild kit (Posted message.now) world.old world.new) };

    /// Posts all items without receipt, by client, key and number, and answers with them. Nothing may be in hand.
    fn push(
        alloc: Global,
        world: &mut Cluster<Self>,
        lines: &mut Vec<Seq<u8>>,
    ) -> Result<Seq<Message>, AllocError>
        requires { StandsOf kit IsIdle always world.old }
        ensures ok { IfOk result (λ items. Pushes kit items world.old world.new lines.old.items
            lines.new.items) }
        ensures err { OnErr result (BreaksAloneIf kit IsIdle world.old world.new) }
        ensures wild { IfOk result (λ items. PushesWild kit items world.old world.new) };

    /// With so many steps a drain is done.
    fn steps() -> u64
        ensures { result ≡ kit.steps };

    /// Makes one step of a drain: a message between servers is delivered, or the entry in hand is worked. Answers whether there was
    /// one to make. What the servers keep tells of the disk's armed count, before and after.
    ///
    /// `Failed` comes where the disk had a fault that no server survives; its count of faults rose then. `Stopped` comes where no
    /// server goes on behind a stop of the disk, and the cluster can go on. `Memory` comes where memory ran out.
    fn advance<D: SharedDisk, J: SharedDisk>(
        alloc: Global,
        world: &mut Cluster<Self>,
        lines: &mut Vec<Seq<u8>>,
        disk: &mut D,
        beside: &mut J,
    ) -> Result<bool, DiskAnswer>
        requires { StandsOn kit any_state always world.old (kit.see (D.seen disk.old) (J.seen
            beside.old)) }
        ensures ok { IfOk result (λ went. Advances kit went world.old world.new lines.old.items
            lines.new.items (kit.see (D.seen disk.old) (J.seen beside.old))
            (kit.see (D.seen disk.new) (J.seen beside.new))) }
        ensures err { IfErr result (λ answer. ComesOff kit any_state (EndsStep kit) answer world.old
            world.new lines.old.items lines.new.items (kit.see (D.seen disk.old) (J.seen
            beside.old)) (kit.see (D.seen disk.new) (J.seen beside.new))) }
        ensures wild { GoesWild kit always result world.old world.new
            (kit.see (D.seen disk.old) (J.seen beside.old))
            (kit.see (D.seen disk.new) (J.seen beside.new)) }
        ensures counts { Counted kit (kit.see (D.seen disk.old) (J.seen beside.old))
            (kit.see (D.seen disk.new) (J.seen beside.new)) result };

    /// What is asked of them holds.
    ghost laws: { IsKit kit };
}
