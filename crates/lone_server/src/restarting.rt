//! A server that comes back with what its journal holds.
ghost use Rattle.std.specs.Prelude.{◌≡◌, ◌⊎◌, ◌++◌, ℕ, None, List, [], IfOk, IfErr, IfSome, IsErrOf, OnOk, OnErr};
ghost use Rattle.journal_frames.specs.Frames.{AreShort, IsShort};
ghost use Rattle.journal_frames.specs.Staging.{HasStaged, Keeps};
ghost use Rattle.journal_start.specs.declared.cold.ColdAnswer.{ColdAnswer};
ghost use Rattle.journal_start.specs.declared.cold.ColdAnswer.TheVariants.{Refused};
ghost use Rattle.journal_start.specs.Arms.{StopsByArms};
ghost use Rattle.journal_start.specs.Starts.{bytes_in, HoldsNone, IsOfDisk, IsRefusedIn, RoseByEither};
ghost use Rattle.mirror.specs.declared.heard.Role.TheVariants.{Active};
ghost use Rattle.lone_server.specs.Restarting.{linked, new_lines, ComesBack, Installs, LeavesFound, TakesAll, TakesOne, TellsAll};

use crate::Lone;
use ais_values::Seq;
use calls::{Entry, History, MAX_ENTRIES, let_entries_go, let_entry_go, let_history_go};
use cluster_events::ServerRole;
use disk_model::SharedDisk;
use event_text::{put_entry, put_server};
use journal_start::{Cold, ColdAnswer, cold_start};
use lead_server::confirm;
use mirror::{Node, let_heard_go, let_node_go};
use script_lines::Server;
use std::alloc::{AllocError, Global};
use std::mem;
use wire::Message;

/// The line of an entry that is found, where it is a new one, behind the first `known`.
fn put_new(
    alloc: Global,
    lines: &mut Vec<Seq<u8>>,
    known: u64,
    number: u64,
    entry: &Entry,
) -> Result<(), AllocError>
    ensures { OnOk result (lines.new.items ≡ lines.old.items ++ new_lines known number entry.now) }
{
    if number <= known {
        return Ok(());
    }
    put_entry(alloc, lines, number, entry)
}

/// One more entry that is found, behind those of the history. Where these are 4,000,000,000 it answers as if memory ran out.
fn take_one(
    alloc: Global,
    history: &mut History,
    lines: &mut Vec<Seq<u8>>,
    known: u64,
    entry: Entry,
) -> Result<(), AllocError>
    ensures { OnOk result (TakesOne known entry history.old.entries history.new.entries
        lines.old.items lines.new.items) }
{
    let count = history.len();
    if count >= MAX_ENTRIES {
        let_entry_go(Some(entry));
        return Err(AllocError);
    }
    match history.reserve() {
        Ok(()) => {}
        Err(error) => {
            let_entry_go(Some(entry));
            return Err(error);
        }
    }
    match put_new(alloc, lines, known, count + 1, &entry) {
        Ok(()) => {
            history.push(entry);
            Ok(())
        }
        Err(error) => {
            let_entry_go(Some(entry));
            Err(error)
        }
    }
}

/// The entries that are found, as a history. Those behind the first `known` are told.
fn take_found(
    alloc: Global,
    lines: &mut Vec<Seq<u8>>,
    known: u64,
    entries: Seq<Entry>,
) -> Result<History, AllocError>
    ensures { IfOk result (λ history. TakesAll known entries history.entries lines.old.items
        lines.new.items) }
{
    let mut history = History::new(alloc);
    for entry in entries.into_vec() {
        take_one(alloc, &mut history, lines, known, entry)?;
    }
    Ok(history)
}

/// The same, and then it is told that the server is active.
fn tell_found(
    alloc: Global,
    lines: &mut Vec<Seq<u8>>,
    known: u64,
    entries: Seq<Entry>,
) -> Result<History, AllocError>
    ensures { IfOk result (λ history. TellsAll known entries history.entries lines.old.items
        lines.new.items) }
{
    match take_found(alloc, lines, known, entries) {
        Ok(found) => match put_server(alloc, lines, Server::A, ServerRole::Active) {
            Ok(()) => Ok(found),
            Err(error) => {
                let_history_go(found);
                Err(error)
            }
        },
        Err(error) => Err(error),
    }
}

/// The server is linked to its journal, as to a standby that has joined: the value that such a one would be sent is let go, and its
/// confirmation is given to the server. Nothing may be in hand. Where 4,000,000,000 entries were accepted it answers as if memory ran out. On
/// an error the server is as it was, or linked.
pub fn link_journal(alloc: Global, node: &mut Node, number: u64) -> Result<(), AllocError>
    requires role { node.old.replica.role ≡ Active }
    requires idle { node.old.replica.owed ≡ None }
    ensures ok { OnOk result (node.new ≡ linked node.old) }
    ensures err { OnErr result ((node.new ≡ node.old) ⊎ (node.new ≡ linked node.old)) }
{
    match node.begin_join(alloc) {
        Ok(heard) => let_heard_go(heard),
        Err(error) => return Err(error),
    }
    confirm(alloc, node, &Message::JoinAck { number }, 0)
}

/// The server that started is linked to its journal, takes the place of the one that is down, and is told. Its entries become the history;
/// those are told that the history had not. Where memory runs out server and history stay as they were.
fn install(
    alloc: Global,
    servers: &mut Lone,
    history: &mut History,
    lines: &mut Vec<Seq<u8>>,
    cold: Cold,
) -> Result<(), AllocError>
    requires role { cold.node.replica.role ≡ Active }
    requires idle { cold.node.replica.owed ≡ None }
    ensures ok { OnOk result (Installs cold servers.old servers.new history.old.entries
        history.new.entries lines.old.items lines.new.items) }
    ensures err { OnErr result ((servers.new ≡ servers.old) × (history.new ≡ history.old)) }
{
    let Cold {
        journal,
        mut node,
        entries,
    } = cold;
    match link_journal(alloc, &mut node, journal.number) {
        Ok(()) => {}
        Err(error) => {
            let_entries_go(entries);
            let_node_go(node);
            return Err(error);
        }
    }
    match tell_found(alloc, lines, history.len(), entries) {
        Ok(found) => {
            let_history_go(mem::replace(history, found));
            let_node_go(mem::replace(&mut servers.node, node));
            servers.journal = journal;
            Ok(())
        }
        Err(error) => {
            let_node_go(node);
            Err(error)
        }
    }
}

/// A server that is down starts again from its journal: it is active, and linked to the journal. The history becomes the list of entries
/// that were found; what is new in it is told, and then that the server is active.
///
/// Nothing may be on the way to the journal or back, as it is where the server is down. The answers are those of `cold_start`, and `Memory`
/// comes also behind it. On every error server and history stay as they were, and the start can be begun again.
pub fn come_back<J: SharedDisk, D: SharedDisk>(
    alloc: Global,
    servers: &mut Lone,
    history: &mut History,
    lines: &mut Vec<Seq<u8>>,
    disk: &mut D,
    beside: &mut J,
) -> Result<(), ColdAnswer>
    requires link { servers.old.link ≡ [] }
    requires back { servers.old.back ≡ [] }
    ensures found { OnOk result (ComesBack servers.old servers.new history.old.entries
        history.new.entries lines.old.items lines.new.items (J.seen beside.old).files
        (J.seen beside.new).files (D.seen disk.old).files (D.seen disk.new).files) }
    ensures err { OnErr result ((servers.new ≡ servers.old) × (history.new ≡ history.old)) }
    ensures none { IsErrOf result ColdAnswer.NoJournal →
        IfSome (J.seen beside.old).files (λ files. HoldsNone (bytes_in files)) }
    ensures refused { (place : ℕ) → IsErrOf result (Refused place) →
        IfSome (J.seen beside.old).files (λ files. IsRefusedIn (bytes_in files) place) }
    ensures kept { (texts : List (List ℕ)) (text : List ℕ) → AreShort texts → IsShort text →
        Keeps (HasStaged texts text) (HasStaged texts text)
        (J.seen beside.old).files (J.seen beside.new).files }
    ensures untouched { IfErr result (λ answer. IsOfDisk answer ⊎
        (((J.seen beside.new).files ≡ (J.seen beside.old).files)
        × ((D.seen disk.new).files ≡ (D.seen disk.old).files))) }
    ensures broken { IfErr result (λ answer. LeavesFound (J.seen beside.old).files
        (D.seen disk.old).files (D.seen disk.new).files) }
    ensures arms { StopsByArms (J.seen beside.old) (J.seen beside.new)
        (D.seen disk.old) (D.seen disk.new) result }
    ensures cause { RoseByEither (J.seen beside.old).faults (J.seen beside.new).faults
        (D.seen disk.old).faults (D.seen disk.new).faults result ColdAnswer.Failed }
    ensures stop { RoseByEither (J.seen beside.old).stops (J.seen beside.new).stops
        (D.seen disk.old).stops (D.seen disk.new).stops result ColdAnswer.Stopped }
{
    match cold_start(alloc, beside, disk) {
        Ok(cold) => match install(alloc, servers, history, lines, cold) {
            Ok(()) => Ok(()),
            Err(_) => Err(ColdAnswer::Memory),
        },
        Err(answer) => Err(answer),
    }
}
