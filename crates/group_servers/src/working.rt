//! The deeds of the entry in hand, and the steps of the servers.
ghost use Rattle.std.specs.Prelude.{◌≡◌, None, false, OnOk, OnErr, IfOk, IfErr, IsSome};
ghost use Rattle.std.specs.List.{AllByRecursion};
ghost use Rattle.wire.specs.MessageSpelling.{MessageInRange};
ghost use Rattle.mirror.specs.declared.heard.Role.TheVariants.{Active};
ghost use Rattle.mirror.specs.Working.{has_deeds};
ghost use Rattle.cluster_clients.specs.Posted.{PostsSome};
ghost use Rattle.cluster_rounds.specs.Worlds.{HasStateOn, any_state};
ghost use Rattle.cluster_rounds.specs.Rounds.{EndsStep};
ghost use Rattle.cluster_rounds.specs.Came.{Comes, Advances, ComesOff};
ghost use Rattle.group_servers.specs.GroupKit.{group_kit};
ghost use Rattle.group_servers.specs.Steps.{grew, worked_by, EndsWork};
ghost use Rattle.group_servers.specs.Worked.{TellsWorked};

use crate::confirming::ack;
use crate::delivering::mirror;
use crate::falling::take_over;
use crate::owing::link_all;
use crate::seats::{any_fresh, any_standby};
use crate::telling::put_ends;
use crate::{Group, Seat};
use ais_values::Seq;
use cluster_rounds::Cluster;
use disk_model::{DiskAnswer, SharedDisk};
use lead_server::tell_worked;
use message_net::Net;
use mirror::{Heard, Node};
use std::alloc::{AllocError, Global};
use wire::let_messages_go;

/// Posts what a server that worked asks for, and sends each server that joins the value of the service.
fn tell_done(
    alloc: Global,
    active: &mut Node,
    seats: &mut [Seat],
    net: &mut Net,
    lines: &mut Vec<Seq<u8>>,
    heard: Heard,
) -> Result<(), AllocError>
    requires range { AllByRecursion MessageInRange heard.to_net }
    requires idle { active.old.replica.owed ≡ None }
    requires role { active.old.replica.role ≡ Active }
    ensures ok { OnOk result (TellsWorked heard net.old net.new active.old active.new seats.old
        seats.new lines.old.items lines.new.items) }
    ensures err { OnErr result (PostsSome heard.to_net net.old net.new) }
{
    match tell_worked(alloc, net, lines, heard) {
        Ok(promised) => {
            let_messages_go(promised);
            link_all(alloc, active, seats)
        }
        Err(error) => Err(error),
    }
}

/// Works the entry in hand, which is ready and has deeds. The lines that tell of a fall are put first and taken back where there was none, so
/// that none is lost for want of memory.
fn work_deeds<const N: usize, D: SharedDisk>(
    alloc: Global,
    world: &mut Cluster<Group<N>>,
    lines: &mut Vec<Seq<u8>>,
    disk: &mut D,
) -> Result<(), DiskAnswer>
    requires state { HasStateOn (group_kit N) any_state world.old (D.seen disk.old) }
    requires hand { IsSome world.old.servers.active.replica.owed }
    requires ready { world.old.servers.active.waits ≡ None }
    ensures ok { OnOk result (Comes (group_kit N) any_state (worked_by N) world.old world.new
        lines.old.items lines.new.items (grew world.old world.new) (D.seen disk.old)
        (D.seen disk.new)) }
    ensures err { IfErr result (λ answer. ComesOff (group_kit N) any_state (EndsWork N) answer
        world.old world.new lines.old.items lines.new.items (D.seen disk.old) (D.seen disk.new)) }
{
    let base = lines.as_slice().len();
    let fresh = any_fresh(&world.servers.seats);
    match put_ends(
        alloc,
        lines,
        world.servers.acting,
        &world.servers.seats,
        fresh,
    ) {
        Ok(()) => {}
        Err(_) => return Err(DiskAnswer::Memory),
    }
    let now = world.now;
    match world.servers.active.work(alloc, disk) {
        Ok(heard) => {
            lines.truncate(base);
            match tell_done(
                alloc,
                &mut world.servers.active,
                &mut world.servers.seats,
                &mut world.net,
                lines,
                heard,
            ) {
                Ok(()) => Ok(()),
                Err(_) => Err(DiskAnswer::Memory),
            }
        }
        Err(DiskAnswer::Memory) => Err(DiskAnswer::Memory),
        Err(DiskAnswer::Failed) => {
            if any_standby(&world.servers.seats) {
                return take_over(alloc, &mut world.servers, lines, base, fresh, now, disk);
            }
            lines.truncate(base + 1);
            Err(DiskAnswer::Failed)
        }
        Err(DiskAnswer::Stopped) => take_over(
            alloc,
            &mut world.servers,
            lines,
            base,
            fresh,
            now,
            disk,
        ),
    }
}

/// Works the entry in hand, which is ready and has no deeds: no call of the disk is made, so the active server does not fall.
fn work_still<const N: usize, D: SharedDisk>(
    alloc: Global,
    world: &mut Cluster<Group<N>>,
    lines: &mut Vec<Seq<u8>>,
    disk: &mut D,
) -> Result<(), DiskAnswer>
    requires state { HasStateOn (group_kit N) any_state world.old (D.seen disk.old) }
    requires hand { IsSome world.old.servers.active.replica.owed }
    requires ready { world.old.servers.active.waits ≡ None }
    requires still { has_deeds world.old.servers.active.replica.owed ≡ false }
    ensures ok { OnOk result (Comes (group_kit N) any_state (worked_by N) world.old world.new
        lines.old.items lines.new.items (grew world.old world.new) (D.seen disk.old)
        (D.seen disk.new)) }
    ensures err { IfErr result (λ answer. ComesOff (group_kit N) any_state (EndsWork N) answer
        world.old world.new lines.old.items lines.new.items (D.seen disk.old) (D.seen disk.new)) }
{
    match world.servers.active.work(alloc, disk) {
        Ok(heard) => match tell_done(
            alloc,
            &mut world.servers.active,
            &mut world.servers.seats,
            &mut world.net,
            lines,
            heard,
        ) {
            Ok(()) => Ok(()),
            Err(_) => Err(DiskAnswer::Memory),
        },
        Err(_) => unreachable!(),
    }
}

/// Works the entry in hand, which is ready: its deeds are done, its reply is posted, and servers that join are sent what they are owed.
/// Where the active server stops within the deeds, a standby takes over, and so it does at a fault of the disk.
///
/// `Failed` comes where the disk had a fault that no server survives: the active server has no standby, or each of them had a fault too as it
/// took over. Where memory runs out within the deeds they can be done again. `Stopped` never comes.
pub fn work<const N: usize, D: SharedDisk>(
    alloc: Global,
    world: &mut Cluster<Group<N>>,
    lines: &mut Vec<Seq<u8>>,
    disk: &mut D,
) -> Result<(), DiskAnswer>
    requires state { HasStateOn (group_kit N) any_state world.old (D.seen disk.old) }
    requires hand { IsSome world.old.servers.active.replica.owed }
    requires ready { world.old.servers.active.waits ≡ None }
    ensures ok { OnOk result (Comes (group_kit N) any_state (worked_by N) world.old world.new
        lines.old.items lines.new.items (grew world.old world.new) (D.seen disk.old)
        (D.seen disk.new)) }
    ensures err { IfErr result (λ answer. ComesOff (group_kit N) any_state (EndsWork N) answer
        world.old world.new lines.old.items lines.new.items (D.seen disk.old) (D.seen disk.new)) }
{
    if world.servers.active.has_deeds() {
        return work_deeds(alloc, world, lines, disk);
    }
    work_still(alloc, world, lines, disk)
}

/// Makes one step of a drain: the first message on the way to a server is delivered, else the first on the way back, else the entry in hand
/// is worked. Answers whether there was one to make.
pub(crate) fn advance<const N: usize, D: SharedDisk>(
    alloc: Global,
    world: &mut Cluster<Group<N>>,
    lines: &mut Vec<Seq<u8>>,
    disk: &mut D,
) -> Result<bool, DiskAnswer>
    requires { HasStateOn (group_kit N) any_state world.old (D.seen disk.old) }
    ensures ok { IfOk result (λ went. Advances (group_kit N) went world.old world.new
        lines.old.items lines.new.items (D.seen disk.old) (D.seen disk.new)) }
    ensures err { IfErr result (λ answer. ComesOff (group_kit N) any_state (EndsStep (group_kit N))
        answer world.old world.new lines.old.items lines.new.items (D.seen disk.old)
        (D.seen disk.new)) }
{
    match mirror(alloc, world, lines) {
        Ok(mirrored) => {
            if mirrored {
                return Ok(true);
            }
        }
        Err(_) => return Err(DiskAnswer::Memory),
    }
    match ack(alloc, world) {
        Ok(confirmed) => {
            if confirmed {
                return Ok(true);
            }
        }
        Err(_) => return Err(DiskAnswer::Memory),
    }
    if world.servers.active.ready() {
        return match work(alloc, world, lines, disk) {
            Ok(()) => Ok(true),
            Err(answer) => Err(answer),
        };
    }
    Ok(false)
}
