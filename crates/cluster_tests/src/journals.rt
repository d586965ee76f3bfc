//! A journal in memory of a first value and two entries, and what a cold start from it comes to.
ghost use Rattle.std.specs.Prelude.{◌≡◌, ◌≢◌, ◌≤◌};
ghost use Rattle.wire.specs.MessageSpelling.{MessageInRange};

use ais_values::{Name, Seq, StreamKind, Text};
use calls::{Boxed, Call, Entry, Saved, SavedStream, Shared, let_entries_go};
use disk_model::{MemDisk, SharedDisk};
use journal_start::{Cold, ColdAnswer, Journal, cold_start};
use mirror::{Role, let_node_go};
use std::alloc::Global;
use std::process::Abort;
use stream_config::{FullAction, LogFile, Mark, StreamAttrs, StreamName, StreamState, well_known};
use wire::{Message, encode, let_message_go};

pub const NAME: &[u8] = b"journal.dat";

/// 2024-01-01 00:00:00, in seconds and in nanoseconds.
const START: i64 = 1_704_067_200;

const MOMENT: i64 = 1_704_067_200_000_000_000;

/// The frame of the first entry, behind an open gate: client 1 begins to use the Log Service.
pub const FIRST: [u8; 30] = [
    1, 0, 0, 0, 25, 5, 0, 0, 0, 0, 0, 0, 0, 1, 1, 0, 1, 0, 0, 0, 1, 23, 166, 16, 23, 1, 101, 0, 0,
    1,
];

/// That of the second one: it opens the stream `w`, which is made with the files `app1` in `web`.
pub const SECOND: [u8; 69] = [
    1, 0, 0, 0, 64, 5, 0, 0, 0, 0, 0, 0, 0, 2, 1, 0, 1, 0, 0, 0, 2, 23, 166, 16, 23, 1, 101, 0, 0,
    2, 4, 0, 1, 119, 1, 0, 4, 97, 112, 112, 49, 0, 3, 119, 101, 98, 0, 0, 0, 0, 0, 0, 0, 64, 0, 0,
    0, 32, 0, 1, 0, 0, 0, 1, 0, 3, 64, 67, 98,
];

/// A well-known stream that was made at this second.
fn well_stream(
    rt: &impl Abort,
    alloc: Global,
    name: StreamName,
    kind: StreamKind,
    created: i64,
) -> SavedStream
    requires { kind ≢ StreamKind.Application }
{
    let attrs = well_known(alloc, kind).expect(rt, "memory");
    let mut files = Seq::new(alloc);
    let file = LogFile {
        created,
        closed: None,
        first: 0,
        bytes: 0,
    };
    files.push(file).expect(rt, "memory");
    SavedStream {
        state: StreamState {
            name,
            attrs: Shared::new(alloc, attrs).expect(rt, "memory"),
            taken: 0,
            opened: 1,
            files,
        },
        openers: Seq::new(alloc),
        mark: Mark::first(),
    }
}

/// The well-known streams.
fn streams(rt: &impl Abort, alloc: Global) -> Seq<SavedStream> {
    let mut streams = Seq::new(alloc);
    let alarm = well_stream(rt, alloc, StreamName::Alarm, StreamKind::Alarm, START);
    streams.push(alarm).expect(rt, "memory");
    let name = StreamName::Notification;
    let notification = well_stream(rt, alloc, name, StreamKind::Notification, START + 1);
    streams.push(notification).expect(rt, "memory");
    let system = well_stream(rt, alloc, StreamName::System, StreamKind::System, START + 2);
    streams.push(system).expect(rt, "memory");
    streams
}

/// The message with the value of a service that nobody has used.
pub fn snapshot(rt: &impl Abort, alloc: Global) -> Message
    ensures { MessageInRange result }
{
    let saved = Saved {
        number: 0,
        last_stamp: START + 2,
        last_id: 0,
        capacity: 4,
        log_users: Seq::new(alloc),
        ntf_users: Seq::new(alloc),
        windows: Seq::new(alloc),
        streams: streams(rt, alloc),
        alarms: Seq::new(alloc),
        subs: Seq::new(alloc),
        readers: Seq::new(alloc),
    };
    let saved = Boxed::new(alloc, saved).expect(rt, "memory");
    Message::Snapshot { saved }
}

/// The message with client 1's call of this number, which is the entry of the same number.
fn entry(rt: &impl Abort, alloc: Global, seq: u32, call: Call) -> Message
    requires { 1 ≤ seq }
    ensures { MessageInRange result }
{
    Message::Mirror {
        number: seq as u64,
        entry: Entry::Called {
            client: 1,
            seq,
            time: MOMENT,
            call: Shared::new(alloc, call).expect(rt, "memory"),
        },
    }
}

pub fn first(rt: &impl Abort, alloc: Global) -> Message
    ensures { MessageInRange result }
{
    entry(rt, alloc, 1, Call::LogInit)
}

pub fn second(rt: &impl Abort, alloc: Global) -> Message
    ensures { MessageInRange result }
{
    let stream = StreamName::App {
        name: Name::new(alloc, b"w").expect(rt, "a name"),
    };
    let attrs = StreamAttrs {
        file: Text::new(alloc, b"app1").expect(rt, "a text"),
        path: Text::new(alloc, b"web").expect(rt, "a text"),
        max_file: 64,
        record_size: 32,
        ha: 0,
        action: FullAction::Wrap,
        rotated: 1,
        expr: Text::new(alloc, b"@Cb").expect(rt, "a text"),
    };
    let create = Some(attrs);
    entry(rt, alloc, 2, Call::LogOpen { stream, create })
}

/// A disk whose torn ranges hold these bytes.
pub fn new_disk(rt: &impl Abort, alloc: Global, torn: &[u8]) -> MemDisk {
    let torn = torn.to_vec(alloc).expect(rt, "memory");
    MemDisk::new(alloc, Vec::new(alloc), Vec::new(alloc), torn)
}

/// The bytes of a file, and none where it is absent.
pub fn bytes_of(rt: &impl Abort, alloc: Global, disk: &mut MemDisk, name: &[u8]) -> Vec<u8> {
    let len = disk.len(name).expect(rt, "a length").unwrap_or(0);
    assert!(rt; len <= 100_000);
    let mut bytes = vec![in alloc; 0; len as usize].expect(rt, "memory");
    let count = disk.read(name, 0, bytes.as_mut_slice());
    assert!(rt; count == Ok(bytes.len()));
    bytes
}

/// The spelling of the first value.
fn spelled(rt: &impl Abort, alloc: Global) -> Vec<u8> {
    let message = snapshot(rt, alloc);
    let bytes = encode(alloc, &message);
    let_message_go(Some(message));
    bytes.expect(rt, "memory")
}

/// The first value's frame, and these bytes behind it.
pub fn behind_value(rt: &impl Abort, alloc: Global, parts: &[&[u8]]) -> Vec<u8> {
    let value = spelled(rt, alloc);
    assert!(rt; value.len() <= 100_000);
    let len = (value.len() as u32).to_be_bytes();
    let mut bytes = vec![in alloc; 1u8].expect(rt, "memory");
    bytes.extend_from_slice(&len).expect(rt, "memory");
    bytes
        .extend_from_slice(value.as_slice())
        .expect(rt, "memory");
    for part in parts {
        bytes.extend_from_slice(part).expect(rt, "memory");
    }
    bytes
}

/// What a cold start came to: the journal, how many entries were found, and the server's role.
#[derive(Clone, Copy, PartialEq, Debug)]
pub struct Started {
    pub journal: Journal,
    pub entries: usize,
    pub role: Role,
}

fn told_by(cold: Cold) -> Started {
    let started = Started {
        journal: cold.journal,
        entries: cold.entries.as_slice().len(),
        role: cold.node.role(),
    };
    let Cold { node, entries, .. } = cold;
    let_node_go(node);
    let_entries_go(entries);
    started
}

pub fn starts(
    alloc: Global,
    journal: &mut MemDisk,
    disk: &mut MemDisk,
) -> Result<Started, ColdAnswer> {
    match cold_start(alloc, journal, disk) {
        Ok(cold) => Ok(told_by(cold)),
        Err(answer) => Err(answer),
    }
}

/// A cold start over these bytes answers so, and leaves them.
pub fn answers(rt: &impl Abort, alloc: Global, bytes: &[u8], want: ColdAnswer) {
    let mut held = new_disk(rt, alloc, b"");
    let mut disk = new_disk(rt, alloc, b"");
    let copy = bytes.to_vec(alloc).expect(rt, "memory");
    held.hold(NAME, copy).expect(rt, "memory");
    let started = starts(alloc, &mut held, &mut disk);
    let left = bytes_of(rt, alloc, &mut held, NAME);
    drop(disk);
    drop(held);
    assert!(rt; started == Err(want), "{bytes:?}");
    assert!(rt; left.as_slice() == bytes);
}

/// The places of the gates of a journal of two entries: that of the first value, those of both entries, and the closed one.
pub fn gates(rt: &impl Abort, alloc: Global) -> [u64; 4] {
    let value = spelled(rt, alloc);
    let first = (value.len() as u64).saturating_add(5);
    drop(value);
    [0, first, first.saturating_add(30), first.saturating_add(99)]
}

/// The stream that the last entry made stands on the disk: its empty file, and the file of its attributes.
pub fn stream_stands(rt: &impl Abort, alloc: Global, disk: &mut MemDisk) {
    let names = disk.names(alloc).expect(rt, "memory");
    let count = names.as_slice().len();
    drop(names);
    assert!(rt; count == 2);
    assert!(rt; disk.len(b"web/app1.cfg") == Ok(Some(118)));
    assert!(rt; disk.len(b"web/app1_20240101_000003.log") == Ok(Some(0)));
}
