//! What is told of a message that a server heard, and of its work.
ghost use Rattle.std.specs.Prelude.{◌≡◌, ◌≤◌, ◌++◌, OnOk, OnErr, IfOk};
ghost use Rattle.std.specs.List.{AllByRecursion};
ghost use Rattle.wire.specs.MessageSpelling.{MessageInRange};
ghost use Rattle.cluster_clients.specs.Posted.{PostsAll, PostsSome};
ghost use Rattle.lead_server.specs.Told.{Commits, IsTold, reason_of, outcome_lines};

use ais_values::Seq;
use calls::{Entry, History, MAX_ENTRIES, let_entry_go};
use cluster_clients::post_all;
use cluster_events::Why;
use event_text::{put_entry, put_ignored};
use message_net::Net;
use mirror::{Heard, Outcome, Why as Reason};
use std::alloc::{AllocError, Global};
use wire::{Message, let_messages_go};

/// Why a server ignored a request or a receipt, as lines tell it.
fn reason_of(why: Reason) -> Option<Why>
    ensures { result ≡ reason_of why }
{
    match why {
        Reason::Old => Some(Why::OldRequest),
        Reason::Ahead => Some(Why::AheadRequest),
        Reason::Busy { number } => Some(Why::Busy { number }),
        Reason::Done => Some(Why::DoneReceipt),
        Reason::NotForRole { .. } => None,
    }
}

/// Adds the line of a request or a receipt that was ignored.
fn put_outcome(
    alloc: Global,
    lines: &mut Vec<Seq<u8>>,
    place: u64,
    outcome: Outcome,
) -> Result<(), AllocError>
    ensures { OnOk result (lines.new.items ≡ lines.old.items ++ outcome_lines place outcome) }
{
    match outcome {
        Outcome::Ignored { why } => match reason_of(why) {
            Some(reason) => put_ignored(alloc, lines, place, reason),
            None => Ok(()),
        },
        _ => Ok(()),
    }
}

/// Adds an entry to the history, and its line. Where memory runs out, or the history has 4,000,000,000 entries, both stay.
fn commit_one(
    alloc: Global,
    history: &mut History,
    lines: &mut Vec<Seq<u8>>,
    entry: Entry,
) -> Result<(), AllocError>
    requires { 1 ≤ history.old.spare }
    ensures ok { OnOk result (Commits (Some entry) history.old.entries history.new.entries
        lines.old.items lines.new.items) }
    ensures err { OnErr result (history.new ≡ history.old) }
    ensures lines { OnErr result (lines.new.items ≡ lines.old.items) }
{
    let count = history.len();
    if count >= MAX_ENTRIES {
        let_entry_go(Some(entry));
        return Err(AllocError);
    }
    match put_entry(alloc, lines, count + 1, &entry) {
        Ok(()) => {
            history.push(entry);
            Ok(())
        }
        Err(error) => {
            let_entry_go(Some(entry));
            Err(error)
        }
    }
}

/// Adds an entry to the history, which has room for one more, and its line, if there is one. Where memory runs out, or the history has
/// 4,000,000,000 entries, both stay.
pub fn commit(
    alloc: Global,
    history: &mut History,
    lines: &mut Vec<Seq<u8>>,
    committed: Option<Entry>,
) -> Result<(), AllocError>
    requires { 1 ≤ history.old.spare }
    ensures ok { OnOk result (Commits committed history.old.entries history.new.entries
        lines.old.items lines.new.items) }
    ensures err { OnErr result (history.new ≡ history.old) }
    ensures lines { OnErr result (lines.new.items ≡ lines.old.items) }
{
    match committed {
        None => Ok(()),
        Some(entry) => commit_one(alloc, history, lines, entry),
    }
}

/// Tells what the active server heard: what it posts, why it ignored the message, and what it commits. Answers with what it mirrors. Where
/// memory runs out the history stays.
pub(crate) fn tell_heard(
    alloc: Global,
    net: &mut Net,
    history: &mut History,
    lines: &mut Vec<Seq<u8>>,
    place: u64,
    heard: Heard,
) -> Result<Seq<Message>, AllocError>
    requires room { 1 ≤ history.old.spare }
    requires range { AllByRecursion MessageInRange heard.to_net }
    ensures mirrored { IfOk result (λ mirrored. mirrored ≡ heard.to_peer) }
    ensures ok { OnOk result (IsTold place heard net.old net.new history.old.entries
        history.new.entries lines.old.items lines.new.items) }
    ensures net { OnErr result (PostsSome heard.to_net net.old net.new) }
    ensures history { OnErr result (history.new ≡ history.old) }
{
    let Heard {
        to_net,
        to_peer,
        committed,
        outcome,
    } = heard;
    let posted = post_all(alloc, net, lines, to_net.as_slice());
    let_messages_go(to_net);
    let told = match posted {
        Ok(()) => put_outcome(alloc, lines, place, outcome),
        Err(error) => Err(error),
    };
    let done = match told {
        Ok(()) => commit(alloc, history, lines, committed),
        Err(error) => {
            let_entry_go(committed);
            Err(error)
        }
    };
    match done {
        Ok(()) => Ok(to_peer),
        Err(error) => {
            let_messages_go(to_peer);
            Err(error)
        }
    }
}

/// Posts what a server that worked asks for. Answers with what a server that joins was promised. Where memory runs out some of it was posted,
/// from the first on, and lines may have been added.
pub fn tell_worked(
    alloc: Global,
    net: &mut Net,
    lines: &mut Vec<Seq<u8>>,
    heard: Heard,
) -> Result<Seq<Message>, AllocError>
    requires { AllByRecursion MessageInRange heard.to_net }
    ensures promised { IfOk result (λ promised. promised ≡ heard.to_peer) }
    ensures ok { OnOk result (PostsAll heard.to_net net.old net.new lines.old.items
        lines.new.items) }
    ensures err { OnErr result (PostsSome heard.to_net net.old net.new) }
{
    let Heard {
        to_net,
        to_peer,
        committed,
        ..
    } = heard;
    let_entry_go(committed);
    let posted = post_all(alloc, net, lines, to_net.as_slice());
    let_messages_go(to_net);
    match posted {
        Ok(()) => Ok(to_peer),
        Err(error) => {
            let_messages_go(to_peer);
            Err(error)
        }
    }
}
