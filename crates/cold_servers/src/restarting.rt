//! The server comes back with what its journal holds.
ghost use Rattle.std.specs.Prelude.{◌≡◌, ◌⊎◌, IfErr, IsErrOf, OnOk};
ghost use Rattle.journal_start.specs.Starts.{IsOfDisk};
ghost use Rattle.cluster_rounds.specs.Wild.{always, StandsOn};
ghost use Rattle.cluster_rounds.specs.Worlds.{any_state};
ghost use Rattle.cold_servers.specs.ColdKit.{cold_kit};
ghost use Rattle.cold_servers.specs.Down.{CountsStart, PlaysRestart, RestartBreaks, RestartGoes};
ghost use Rattle.cold_servers.specs.Steps.{AreDown};

use crate::Solo;
use ais_values::Seq;
use cluster_rounds::Cluster;
use disk_model::SharedDisk;
use journal_start::ColdAnswer;
use lone_server::come_back;
use std::alloc::Global;

/// `restart a`, while the server is down: it starts from its journal, is active and linked to it. The history becomes what is found there;
/// a line tells what is new in it, and then one that the server is active.
///
/// `Failed` comes where a disk had a fault, and `NoJournal` and `Refused` where the journal is none: the cluster and its lines stay as they
/// were, and the start can be begun again. `Memory` comes where memory ran out: the cluster stays too, or the server came back and that is
/// not told. `Stopped` never comes, since no disk is armed while the server is down. Of a journal's disk that tells no files nothing is said
/// of what is found: the cluster can go on, but it may stand for no state.
pub fn restart<D: SharedDisk, J: SharedDisk>(
    alloc: Global,
    world: &mut Cluster<Solo>,
    lines: &mut Vec<Seq<u8>>,
    disk: &mut D,
    beside: &mut J,
) -> Result<(), ColdAnswer>
    requires state { StandsOn cold_kit any_state always world.old
        (cold_kit.see (D.seen disk.old) (J.seen beside.old)) }
    requires down { AreDown world.old }
    ensures ok { OnOk result (PlaysRestart world.old world.new lines.old.items lines.new.items
        (cold_kit.see (D.seen disk.old) (J.seen beside.old))
        (cold_kit.see (D.seen disk.new) (J.seen beside.new))) }
    ensures err { IfErr result (λ answer. RestartBreaks answer world.old world.new lines.old.items
        lines.new.items (cold_kit.see (D.seen disk.old) (J.seen beside.old))
        (cold_kit.see (D.seen disk.new) (J.seen beside.new))) }
    ensures same { IfErr result (λ answer. IsOfDisk answer ⊎ ((world.new ≡ world.old)
        × (lines.new.items ≡ lines.old.items)
        × ((D.seen disk.new).files ≡ (D.seen disk.old).files)
        × ((J.seen beside.new).files ≡ (J.seen beside.old).files))) }
    ensures wild { OnOk result (RestartGoes world.new
        (cold_kit.see (D.seen disk.old) (J.seen beside.old))
        (cold_kit.see (D.seen disk.new) (J.seen beside.new))) }
    ensures never { IsErrOf result ColdAnswer.Stopped → ⊥ }
    ensures counts { CountsStart result (cold_kit.see (D.seen disk.old) (J.seen beside.old))
        (cold_kit.see (D.seen disk.new) (J.seen beside.new)) }
{
    let mut told = Vec::new(alloc);
    match come_back(
        alloc,
        &mut world.servers.lone,
        &mut world.history,
        &mut told,
        disk,
        beside,
    ) {
        Ok(()) => match lines.append(&mut told) {
            Ok(()) => Ok(()),
            Err(_) => Err(ColdAnswer::Memory),
        },
        Err(answer) => Err(answer),
    }
}
