//! A journal in memory, appends that stop, and what starts from it; and that each call succeeds while there is memory.
ghost use Rattle.std.specs.Prelude.{◌≤◌};
ghost use Rattle.wire.specs.MessageSpelling.{MessageInRange};

use crate::journals::{
    FIRST, NAME, SECOND, Started, answers, behind_value, bytes_of, first, gates, new_disk, second,
    snapshot, starts, stream_stands,
};
use disk_model::{DiskAnswer, MemDisk, SharedDisk};
use journal_start::{ColdAnswer, Journal};
use mirror::{Node, Role, let_node_go};
use service_core::Service;
use std::alloc::Global;
use std::process::Abort;
use wire::{Message, let_message_go};

/// Makes a journal of the first value.
fn makes(rt: &impl Abort, alloc: Global, disk: &mut MemDisk) -> Journal {
    let message = snapshot(rt, alloc);
    let made = Journal::make(alloc, disk, &message);
    let_message_go(Some(message));
    made.expect(rt, "a disk that serves")
}

/// Appends an entry, of which this comes.
fn appends(
    rt: &impl Abort,
    alloc: Global,
    disk: &mut MemDisk,
    journal: Journal,
    message: Message,
    want: Result<(), DiskAnswer>,
) -> Journal
    requires { MessageInRange message }
{
    let mut journal = journal;
    assert!(rt; journal.number <= 1 && journal.end <= 100_000);
    let done = journal.append(alloc, disk, &message);
    let_message_go(Some(message));
    assert!(rt; done == want);
    journal
}

/// Makes a journal of two entries, which has their frames.
fn writes(rt: &impl Abort, alloc: Global, disk: &mut MemDisk) -> Journal {
    let journal = makes(rt, alloc, disk);
    let journal = appends(rt, alloc, disk, journal, first(rt, alloc), Ok(()));
    let journal = appends(rt, alloc, disk, journal, second(rt, alloc), Ok(()));
    let bytes = bytes_of(rt, alloc, disk, NAME);
    let want = behind_value(rt, alloc, &[&FIRST, &SECOND, b"\x00"]);
    assert!(rt; bytes.as_slice() == want.as_slice());
    assert!(rt; bytes.len() as u64 == journal.end.saturating_add(1));
    journal
}

#[test]
fn a_server_starts_from_a_journal(rt: HostRuntime) {
    let alloc = rt.alloc();
    let mut held = new_disk(&rt, alloc, b"");
    let mut disk = new_disk(&rt, alloc, b"");
    let journal = writes(&rt, alloc, &mut held);
    let want = Started {
        journal,
        entries: 2,
        role: Role::Active,
    };
    assert!(rt; journal.number == 2);
    assert!(rt; starts(alloc, &mut held, &mut disk) == Ok(want));
    stream_stands(&rt, alloc, &mut disk);
    drop(disk);
    drop(held);
}

/// The second append stops in its changing call of this number, or is done with four: how many entries a cold start finds.
fn finds(rt: &impl Abort, alloc: Global, torn: &[u8], number: u64) -> usize {
    let mut held = new_disk(rt, alloc, torn);
    let journal = makes(rt, alloc, &mut held);
    let journal = appends(rt, alloc, &mut held, journal, first(rt, alloc), Ok(()));
    held.arm(number.max(1));
    let want = if number > 4 {
        Ok(())
    } else {
        Err(DiskAnswer::Stopped)
    };
    let _journal = appends(rt, alloc, &mut held, journal, second(rt, alloc), want);
    held.disarm();
    let mut disk = new_disk(rt, alloc, b"");
    let started = starts(alloc, &mut held, &mut disk);
    drop(disk);
    drop(held);
    let started = started.expect(rt, "a journal");
    assert!(rt; started.journal.number == started.entries as u64);
    started.entries
}

#[test]
fn an_append_that_stops_leaves_the_entry_or_not(rt: HostRuntime) {
    let alloc = rt.alloc();
    let rows: [(&[u8], [usize; 5]); 3] = [
        (b"", [1, 1, 1, 1, 2]),
        (b"\x01", [1, 1, 2, 2, 2]),
        (b"7", [1, 1, 1, 1, 2]),
    ];
    for (torn, row) in rows {
        for (before, want) in row.iter().enumerate() {
            let number = before as u64 + 1;
            assert!(rt; finds(&rt, alloc, torn, number) == *want, "call {number}");
        }
    }
}

/// One over the first value and these bytes refuses the gate behind the value.
fn refuses_behind(rt: &impl Abort, alloc: Global, parts: &[&[u8]]) {
    let [_, place, _, _] = gates(rt, alloc);
    let bytes = behind_value(rt, alloc, parts);
    answers(rt, alloc, bytes.as_slice(), ColdAnswer::Refused { place });
}

#[test]
fn bytes_without_entries_are_no_journal_or_refused(rt: HostRuntime) {
    let alloc = rt.alloc();
    let mut held = new_disk(&rt, alloc, b"");
    let mut disk = new_disk(&rt, alloc, b"");
    let absent = starts(alloc, &mut held, &mut disk);
    drop(disk);
    drop(held);
    assert!(rt; absent == Err(ColdAnswer::NoJournal));
    let none: [&[u8]; 4] = [b"", b"\x01", b"\x00\x01", b"7\x01\x01"];
    for bytes in none {
        answers(&rt, alloc, bytes, ColdAnswer::NoJournal);
    }
    let refused = ColdAnswer::Refused { place: 0 };
    answers(&rt, alloc, b"\x01\x00", refused);
    answers(&rt, alloc, b"\x01\x00\x00\x00\x01\x00\x00", refused);
    answers(&rt, alloc, &FIRST, refused);
    refuses_behind(&rt, alloc, &[&FIRST]);
    refuses_behind(&rt, alloc, &[&SECOND, b"\x00"]);
}

/// Whether a server can follow a message.
fn admits(rt: &impl Abort, alloc: Global, node: &Node, message: Message) -> bool {
    let answer = node.admits(alloc, &message);
    let_message_go(Some(message));
    answer.expect(rt, "memory")
}

/// A standby with the first value.
fn standby(rt: &impl Abort, alloc: Global) -> Option<Node> {
    let message = snapshot(rt, alloc);
    let restored = match &message {
        Message::Snapshot { saved } => match Service::restore(alloc, saved.get()) {
            Ok(service) => Some(Node::start(alloc, Role::Standby, service)),
            Err(_) => None,
        },
        _ => None,
    };
    let_message_go(Some(message));
    restored
}

#[test]
fn a_server_can_follow_the_value_and_then_the_next_entry(rt: HostRuntime) {
    let alloc = rt.alloc();
    let node = Node::joining(alloc);
    let value = admits(&rt, alloc, &node, snapshot(&rt, alloc));
    let entry = admits(&rt, alloc, &node, first(&rt, alloc));
    let_node_go(node);
    assert!(rt; value && !entry);
    let node = standby(&rt, alloc).expect(&rt, "a fit value");
    let value = admits(&rt, alloc, &node, snapshot(&rt, alloc));
    let next = admits(&rt, alloc, &node, first(&rt, alloc));
    let later = admits(&rt, alloc, &node, second(&rt, alloc));
    let_node_go(node);
    assert!(rt; !value && next && !later);
}
