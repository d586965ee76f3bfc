//! The entry that waits joins the journal.
ghost use Rattle.std.specs.Prelude.{◌≡◌, ◌↔◌, [], IfErr, IfOk, IsTrue, OnErr, OnOk};
ghost use Rattle.std.specs.List.{AllByRecursion};
ghost use Rattle.ais_values.specs.Causes.{RoseExactlyOn};
ghost use Rattle.disk_model.specs.declared.answers.DiskAnswer.{DiskAnswer};
ghost use Rattle.wire.specs.MessageSpelling.{MessageInRange};
ghost use Rattle.wire.specs.Mirrored.{entry_in};
ghost use Rattle.lone_server.specs.Joining.{CommitsJoined, CommitsOrNot, JoinBreaks, Joins, JoinsOver};

use crate::appending::{append_first, put_back};
use crate::{Lone, fall};
use ais_values::Seq;
use calls::{Entry, History, let_entry_go};
use cluster_events::ServerRole;
use disk_model::{DiskAnswer, SharedDisk};
use event_text::put_server;
use lead_server::commit;
use script_lines::Server;
use std::alloc::{AllocError, Global};
use wire::{Message, mirrored};

/// Whether there are no messages.
pub fn is_clear(messages: &Seq<Message>) -> bool
    ensures { IsTrue result ↔ (messages.now ≡ []) }
{
    messages.as_slice().is_empty()
}

/// An entry is committed, and that it joined the journal under this number is on the way back. Where memory runs out the server stays, and the
/// entry is committed or not.
fn commit_one(
    alloc: Global,
    servers: &mut Lone,
    history: &mut History,
    lines: &mut Vec<Seq<u8>>,
    number: u64,
    entry: Entry,
) -> Result<(), AllocError>
    ensures ok { OnOk result (CommitsJoined (Some (number, entry)) servers.old servers.new
        history.old.entries history.new.entries lines.old.items lines.new.items) }
    ensures err { OnErr result (CommitsOrNot (Some (number, entry)) history.old.entries
        history.new.entries) }
    ensures servers { OnErr result (servers.new ≡ servers.old) }
{
    match history.reserve() {
        Ok(()) => {}
        Err(error) => {
            let_entry_go(Some(entry));
            return Err(error);
        }
    }
    match commit(alloc, history, lines, Some(entry)) {
        Ok(()) => put_back(alloc, servers, number),
        Err(error) => Err(error),
    }
}

/// The entry of a message that joined the journal is committed, if it brings one, and that it joined is on the way back. Where memory runs out
/// the server stays, and the entry is committed or not.
fn commit_joined(
    alloc: Global,
    servers: &mut Lone,
    history: &mut History,
    lines: &mut Vec<Seq<u8>>,
    message: Message,
) -> Result<(), AllocError>
    ensures ok { OnOk result (CommitsJoined (entry_in message) servers.old servers.new
        history.old.entries history.new.entries lines.old.items lines.new.items) }
    ensures err { OnErr result (CommitsOrNot (entry_in message) history.old.entries
        history.new.entries) }
    ensures servers { OnErr result (servers.new ≡ servers.old) }
{
    match mirrored(Some(message)) {
        Some((number, entry)) => commit_one(alloc, servers, history, lines, number, entry),
        None => Ok(()),
    }
}

/// The first message on the way joins the journal, if there is one, and its entry is committed. Answers whether there was one.
///
/// The journal's disk makes the four calls of an append, as `append_first` says. Where it stops or has a fault in that, the server goes down,
/// neither disk is armed any more, and the line that tells so is put; it is put first and taken back where it is not so, so that it is not
/// lost for want of memory. `Memory` comes where memory ran out, or the history has 4,000,000,000 entries, and lines may have been added then:
/// nothing was done; or the append was not, and the message is lost; or it was, the message is not on the way back, and its entry is committed
/// or not.
pub fn join_journal<D: SharedDisk, J: SharedDisk>(
    alloc: Global,
    servers: &mut Lone,
    history: &mut History,
    lines: &mut Vec<Seq<u8>>,
    disk: &mut D,
    beside: &mut J,
) -> Result<bool, DiskAnswer>
    requires { AllByRecursion MessageInRange servers.old.link }
    ensures ok { IfOk result (λ went. Joins went servers.old servers.new history.old.entries
        history.new.entries lines.old.items lines.new.items) }
    ensures err { IfErr result (λ answer. JoinBreaks answer servers.old servers.new
        history.old.entries history.new.entries lines.old.items lines.new.items
        (J.seen beside.old) (J.seen beside.new)) }
    ensures disks { JoinsOver servers.old.link servers.old.journal.end history.old.entries
        history.new.entries result (D.seen disk.old) (D.seen disk.new) (J.seen beside.old)
        (J.seen beside.new) }
    ensures cause { RoseExactlyOn (J.seen beside.old).faults (J.seen beside.new).faults result
        DiskAnswer.Failed }
    ensures stop { RoseExactlyOn (J.seen beside.old).stops (J.seen beside.new).stops result
        DiskAnswer.Stopped }
{
    if is_clear(&servers.link) {
        return Ok(false);
    }
    let base = lines.as_slice().len();
    match put_server(alloc, lines, Server::A, ServerRole::Down) {
        Ok(()) => {}
        Err(_) => return Err(DiskAnswer::Memory),
    }
    match append_first(alloc, servers, beside) {
        Ok(None) => {
            lines.truncate(base);
            Ok(false)
        }
        Ok(Some(message)) => {
            lines.truncate(base);
            match commit_joined(alloc, servers, history, lines, message) {
                Ok(()) => Ok(true),
                Err(_) => Err(DiskAnswer::Memory),
            }
        }
        Err(DiskAnswer::Memory) => Err(DiskAnswer::Memory),
        Err(DiskAnswer::Failed) => {
            fall(alloc, servers, disk, beside);
            Err(DiskAnswer::Failed)
        }
        Err(DiskAnswer::Stopped) => {
            fall(alloc, servers, disk, beside);
            Err(DiskAnswer::Stopped)
        }
    }
}
