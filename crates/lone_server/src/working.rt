//! The entry in hand is worked, and what came back from the journal is heard.
ghost use Rattle.std.specs.Prelude.{◌≡◌, None, IfErr, IfOk, IsSome, OnErr, OnOk};
ghost use Rattle.std.specs.List.{AllByRecursion};
ghost use Rattle.ais_values.specs.Causes.{RoseExactlyOn};
ghost use Rattle.disk_model.specs.declared.answers.DiskAnswer.{DiskAnswer};
ghost use Rattle.stream_layout.specs.Deeds.{calls_of_all};
ghost use Rattle.wire.specs.MessageSpelling.{MessageInRange};
ghost use Rattle.mirror.specs.Working.{deeds_in, replies_in};
ghost use Rattle.lone_server.specs.Working.{CanHearAll, HearsBack, LosesBack, WorkBreaks, Works, WorksOver};

use crate::{Lone, fall};
use ais_values::Seq;
use cluster_events::ServerRole;
use disk_model::{DiskAnswer, SharedDisk};
use event_text::put_server;
use lead_server::{confirm, take_first, tell_worked};
use message_net::Net;
use script_lines::Server;
use std::alloc::{AllocError, Global};
use wire::{let_message_go, let_messages_go};

/// The entry in hand is worked, which is ready: its deeds are done, and its reply is posted.
///
/// The record disk makes the calls of the deeds in order, up to the first that is not done, and no others. Where it stops or has a fault in
/// one of them the server goes down, neither disk is armed any more, and the line that tells so is put; it is put first and taken back where
/// it is not so, so that it is not lost for want of memory. `Memory` comes where memory ran out, and lines may have been added then: the deeds
/// can be done again, or they are done and the reply was posted or not.
pub fn work_entry<D: SharedDisk, J: SharedDisk>(
    alloc: Global,
    servers: &mut Lone,
    net: &mut Net,
    lines: &mut Vec<Seq<u8>>,
    disk: &mut D,
    beside: &mut J,
) -> Result<(), DiskAnswer>
    requires hand { IsSome servers.old.node.replica.owed }
    requires ready { servers.old.node.waits ≡ None }
    requires range { AllByRecursion MessageInRange (replies_in servers.old.node.replica.owed) }
    ensures ok { OnOk result (Works servers.old servers.new net.old net.new lines.old.items
        lines.new.items) }
    ensures err { IfErr result (λ answer. WorkBreaks answer servers.old servers.new net.old net.new
        lines.old.items lines.new.items (D.seen disk.old) (D.seen disk.new)) }
    ensures disks { WorksOver (calls_of_all (deeds_in servers.old.node.replica.owed)) result
        (D.seen disk.old) (D.seen disk.new) (J.seen beside.old) (J.seen beside.new) }
    ensures cause { RoseExactlyOn (D.seen disk.old).faults (D.seen disk.new).faults result
        DiskAnswer.Failed }
    ensures stop { RoseExactlyOn (D.seen disk.old).stops (D.seen disk.new).stops result
        DiskAnswer.Stopped }
{
    let base = lines.as_slice().len();
    match put_server(alloc, lines, Server::A, ServerRole::Down) {
        Ok(()) => {}
        Err(_) => return Err(DiskAnswer::Memory),
    }
    match servers.node.work(alloc, disk) {
        Ok(heard) => {
            lines.truncate(base);
            match tell_worked(alloc, net, lines, heard) {
                Ok(promised) => {
                    let_messages_go(promised);
                    Ok(())
                }
                Err(_) => Err(DiskAnswer::Memory),
            }
        }
        Err(DiskAnswer::Memory) => Err(DiskAnswer::Memory),
        Err(DiskAnswer::Failed) => {
            fall(alloc, servers, disk, beside);
            Err(DiskAnswer::Failed)
        }
        Err(DiskAnswer::Stopped) => {
            fall(alloc, servers, disk, beside);
            Err(DiskAnswer::Stopped)
        }
    }
}

/// The server hears the first message that came back from the journal, if there is one. Answers whether there was one. Where 4,000,000,000
/// entries were accepted it answers as if memory ran out. On an error the message is lost, and all else stays.
pub fn hear_back(alloc: Global, servers: &mut Lone, now: i64) -> Result<bool, AllocError>
    requires { CanHearAll servers.old.node servers.old.back }
    ensures ok { IfOk result (λ heard. HearsBack heard servers.old servers.new) }
    ensures err { OnErr result (LosesBack servers.old servers.new) }
{
    let message = match take_first(alloc, &mut servers.back) {
        Some(message) => message,
        None => return Ok(false),
    };
    match confirm(alloc, &mut servers.node, &message, now) {
        Ok(()) => {
            let_message_go(Some(message));
            Ok(true)
        }
        Err(error) => {
            let_message_go(Some(message));
            Err(error)
        }
    }
}
