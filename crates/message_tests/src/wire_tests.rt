//! Spellings and refusals from the rules' rows, and that calls succeed while there is memory.
ghost use Rattle.wire.specs.MessageSpelling.{MessageInRange};

use ais_values::{Duplicate, Name, Seq, Text};
use calls::{Boxed, Call, Entry, Reply, Saved, SavedStream, Shared};
use std::alloc::Global;
use std::process::Abort;
use stream_config::{FullAction, LogFile, Mark, StreamAttrs, StreamName, StreamState};
use sub_queue::{Content, Item, Lost};
use wire::{Message, WireAnswer, WireWhy, decode, encode, let_message_go};

/// The bytes are refused at this place for this reason.
fn refused(rt: &impl Abort, alloc: Global, bytes: &[u8], place: u32, why: WireWhy) {
    assert!(rt; bytes.len() <= 1000);
    let refusal = WireAnswer::Refused { place, why };
    match decode(alloc, bytes) {
        Ok(found) => {
            let_message_go(Some(found));
            assert!(rt; false, "{bytes:?} is a message");
        }
        Err(answer) => assert_eq!(rt; answer, refusal),
    }
}

/// The bytes are read as the message.
fn read(rt: &impl Abort, alloc: Global, bytes: &[u8], message: &Message) {
    assert!(rt; bytes.len() <= 1000);
    match decode(alloc, bytes) {
        Ok(found) => {
            let same = found == *message;
            let_message_go(Some(found));
            assert!(rt; same, "{bytes:?}");
        }
        Err(answer) => assert!(rt; false, "{bytes:?}: {answer:?}"),
    }
}

/// The message has this spelling and is read from it.
fn is_spelled(rt: &impl Abort, alloc: Global, message: &Message, want: &[u8])
    requires { MessageInRange message.now }
{
    let bytes = encode(alloc, message).expect(rt, "memory");
    assert!(rt; bytes.as_slice() == want);
    let copy = message.copy(alloc).expect(rt, "memory");
    read(rt, alloc, bytes.as_slice(), &copy);
    let_message_go(Some(copy));
}

/// The message has this spelling, is read from it, and each proper front of it is short.
fn spelled(rt: &impl Abort, alloc: Global, message: Message, want: &[u8])
    requires { MessageInRange message }
{
    is_spelled(rt, alloc, &message, want);
    let_message_go(Some(message));
    assert!(rt; want.len() <= 1000);
    for end in 0..want.len() {
        refused(rt, alloc, &want[..end], end as u32, WireWhy::Short);
    }
}

#[test]
fn requests_replies_and_receipts_are_spelled(rt: HostRuntime) {
    let alloc = rt.alloc();
    let request = Message::Request {
        client: 1,
        seq: 1,
        call: Shared::new(alloc, Call::LogInit).expect(&rt, "memory"),
    };
    spelled(&rt, alloc, request, &[1, 0, 1, 0, 0, 0, 1, 1]);
    let reply = Message::Reply {
        client: 1,
        seq: 1,
        reply: Reply::Done,
    };
    spelled(&rt, alloc, reply, &[2, 0, 1, 0, 0, 0, 1, 2]);
    let receipt = Message::Receipt {
        client: 1,
        key: 2,
        through: 2,
    };
    spelled(&rt, alloc, receipt, &[4, 0, 1, 0, 0, 0, 2, 0, 0, 0, 2]);
}

#[test]
fn a_mask_and_a_mark_are_spelled(rt: HostRuntime) {
    let alloc = rt.alloc();
    let stream = StreamName::System;
    let request = Message::Request {
        client: 1,
        seq: 1,
        call: Shared::new(alloc, Call::LogFilter { stream, mask: 258 }).expect(&rt, "memory"),
    };
    spelled(
        &rt,
        alloc,
        request,
        &[1, 0, 1, 0, 0, 0, 1, 14, 3, 0, 0, 1, 2],
    );
    let mark = Mark { since: 9, mask: 8 };
    for (filtered, flag) in [(false, 0), (true, 1)] {
        let reply = Message::Reply {
            client: 1,
            seq: 1,
            reply: Reply::Marked { filtered, mark },
        };
        let want = [
            2, 0, 1, 0, 0, 0, 1, 5, flag, 0, 0, 0, 0, 0, 0, 0, 9, 0, 0, 0, 8,
        ];
        spelled(&rt, alloc, reply, &want);
    }
}

#[test]
fn messages_of_servers_are_spelled(rt: HostRuntime) {
    let alloc = rt.alloc();
    let entry = Entry::Called {
        client: 4096,
        seq: 1,
        time: -1,
        call: Shared::new(alloc, Call::ReaderEnd).expect(&rt, "memory"),
    };
    let mirror = Message::Mirror { number: 2, entry };
    spelled(
        &rt,
        alloc,
        mirror,
        &[
            5, 0, 0, 0, 0, 0, 0, 0, 2, 1, 16, 0, 0, 0, 0, 1, 255, 255, 255, 255, 255, 255, 255,
            255, 12,
        ],
    );
    let ack = Message::MirrorAck { number: 3 };
    spelled(&rt, alloc, ack, &[6, 0, 0, 0, 0, 0, 0, 0, 3]);
    let joined = Message::JoinAck { number: 258 };
    spelled(&rt, alloc, joined, &[8, 0, 0, 0, 0, 0, 0, 1, 2]);
}

#[test]
fn an_item_is_spelled(rt: HostRuntime) {
    let alloc = rt.alloc();
    let mut lost = Seq::new(alloc);
    let one = Lost {
        kind: 0x4000,
        id: 5,
    };
    lost.push(one).expect(&rt, "memory");
    let content = Content::Discarded { lost };
    let item = Item { number: 3, content };
    let message = Message::Item {
        client: 1,
        key: 2,
        item,
    };
    spelled(
        &rt,
        alloc,
        message,
        &[
            3, 0, 1, 0, 0, 0, 2, 0, 0, 0, 3, 2, 0, 0, 0, 1, 64, 0, 0, 0, 0, 0, 0, 0, 0, 5,
        ],
    );
}

#[test]
fn a_snapshot_is_spelled(rt: HostRuntime) {
    let alloc = rt.alloc();
    let mut log_users = Seq::new(alloc);
    log_users.push(0).expect(&rt, "memory");
    let saved = Saved {
        number: 1,
        last_stamp: 2,
        last_id: 3,
        capacity: 4,
        log_users,
        ntf_users: Seq::new(alloc),
        windows: Seq::new(alloc),
        streams: Seq::new(alloc),
        alarms: Seq::new(alloc),
        subs: Seq::new(alloc),
        readers: Seq::new(alloc),
    };
    let saved = Boxed::new(alloc, saved).expect(&rt, "memory");
    spelled(
        &rt,
        alloc,
        Message::Snapshot { saved },
        &[
            7, 0, 0, 0, 0, 0, 0, 0, 1, 0, 0, 0, 0, 0, 0, 0, 2, 0, 0, 0, 0, 0, 0, 0, 3, 0, 0, 0, 4,
            0, 0, 0, 1, 0, 0, 0, 0, 0, 0, 0, 0, 0, 0, 0, 0, 0, 0, 0, 0, 0, 0, 0, 0, 0, 0, 0, 0, 0,
            0,
        ],
    );
}

/// A file of the stream.
fn file(created: i64, closed: Option<i64>, first: u32, bytes: u64) -> LogFile {
    LogFile {
        created,
        closed,
        first,
        bytes,
    }
}

/// The system stream with records of varying size, of which three stand in two files. Client 1 has it open, and entry 6 set its mask.
fn system_stream(rt: &impl Abort, alloc: Global) -> SavedStream {
    let attrs = StreamAttrs {
        file: Text::new(alloc, b"s").expect(rt, "a text"),
        path: Text::new(alloc, b".").expect(rt, "a text"),
        max_file: 16_384,
        record_size: 0,
        ha: 0,
        action: FullAction::Rotate,
        rotated: 2,
        expr: Text::new(alloc, b"@Cb").expect(rt, "a text"),
    };
    let mut files = Seq::new(alloc);
    files.push(file(5, Some(7), 0, 16_000)).expect(rt, "memory");
    files.push(file(8, None, 2, 400)).expect(rt, "memory");
    let mut openers = Seq::new(alloc);
    openers.push(1).expect(rt, "memory");
    let state = StreamState {
        name: StreamName::System,
        attrs: Shared::new(alloc, attrs).expect(rt, "memory"),
        taken: 3,
        opened: 2,
        files,
    };
    let mark = Mark { since: 6, mask: 65 };
    SavedStream {
        state,
        openers,
        mark,
    }
}

/// The spelling of that stream: its name and attributes, what it has taken, its files, who has it open, and its mark.
const SYSTEM_STREAM: [u8; 110] = [
    3, 0, 1, 115, 0, 1, 46, 0, 0, 0, 0, 0, 0, 64, 0, 0, 0, 0, 0, 0, 3, 0, 0, 0, 2, 0, 3, 64, 67,
    98, 0, 0, 0, 3, 0, 0, 0, 2, 0, 0, 0, 2, 0, 0, 0, 0, 0, 0, 0, 5, 1, 0, 0, 0, 0, 0, 0, 0, 7, 0,
    0, 0, 0, 0, 0, 0, 0, 0, 0, 62, 128, 0, 0, 0, 0, 0, 0, 0, 8, 0, 0, 0, 0, 2, 0, 0, 0, 0, 0, 0, 1,
    144, 0, 0, 0, 1, 0, 1, 0, 0, 0, 0, 0, 0, 0, 6, 0, 0, 0, 65,
];

/// The value of a service without users, entries and ids, which has that stream alone.
fn saved_stream(rt: &impl Abort, alloc: Global) -> Message
    ensures { MessageInRange result }
{
    let mut streams = Seq::new(alloc);
    streams.push(system_stream(rt, alloc)).expect(rt, "memory");
    let saved = Saved {
        number: 0,
        last_stamp: 0,
        last_id: 0,
        capacity: 0,
        log_users: Seq::new(alloc),
        ntf_users: Seq::new(alloc),
        windows: Seq::new(alloc),
        streams,
        alarms: Seq::new(alloc),
        subs: Seq::new(alloc),
        readers: Seq::new(alloc),
    };
    let saved = Boxed::new(alloc, saved).expect(rt, "memory");
    Message::Snapshot { saved }
}

#[test]
fn a_stream_of_a_snapshot_is_spelled(rt: HostRuntime) {
    let alloc = rt.alloc();
    let mut want = vec![in alloc; 0u8; 41].expect(&rt, "memory");
    want[0] = 7;
    want.extend_from_slice(&[0, 0, 0, 1]).expect(&rt, "memory");
    want.extend_from_slice(&SYSTEM_STREAM).expect(&rt, "memory");
    want.extend_from_slice(&[0; 12]).expect(&rt, "memory");
    let message = saved_stream(&rt, alloc);
    spelled(&rt, alloc, message, want.as_slice());
}

#[test]
fn the_name_of_an_application_stream_is_spelled(rt: HostRuntime) {
    let alloc = rt.alloc();
    let stream = StreamName::App {
        name: Name::new(alloc, b"w").expect(&rt, "memory"),
    };
    let request = Message::Request {
        client: 1,
        seq: 1,
        call: Shared::new(alloc, Call::LogClose { stream }).expect(&rt, "memory"),
    };
    spelled(&rt, alloc, request, &[1, 0, 1, 0, 0, 0, 1, 4, 4, 0, 1, 119]);
}

#[test]
fn wrong_bytes_have_a_place(rt: HostRuntime) {
    let table: [(&[u8], u32, WireWhy); 15] = [
        (b"", 0, WireWhy::Short),
        (b"\x01\0\x01\0\0\0\x01\x01\0", 8, WireWhy::Trailing),
        (b"\x09", 0, WireWhy::BadValue),
        (b"\0", 0, WireWhy::BadValue),
        // clients of 4,352, of 4,097 and of 0
        (b"\x02\x11\0", 1, WireWhy::BadValue),
        (b"\x02\x10\x01", 2, WireWhy::BadValue),
        (b"\x02\0\0", 2, WireWhy::BadValue),
        // a number of 0
        (b"\x02\0\x01\0\0\0\0", 6, WireWhy::BadValue),
        // an option that begins with 2
        (b"\x01\0\x01\0\0\0\x01\x02\x03\x02", 9, WireWhy::BadValue),
        // a reply of no kind, and a flag of 2
        (b"\x02\0\x01\0\0\0\x01\x06", 7, WireWhy::BadValue),
        (b"\x02\0\x01\0\0\0\x01\x05\x02", 8, WireWhy::BadValue),
        // a name of 257 bytes, an empty one, and one with a byte 31
        (
            b"\x01\0\x01\0\0\0\x01\x04\x04\x01\x01",
            10,
            WireWhy::BadValue,
        ),
        (b"\x01\0\x01\0\0\0\x01\x04\x04\0\0", 10, WireWhy::BadValue),
        (
            b"\x01\0\x01\0\0\0\x01\x04\x04\0\x02A\x1f",
            12,
            WireWhy::BadValue,
        ),
        // a list that tells 4,294,967,295 elements, where none follows
        (
            b"\x03\0\x01\0\0\0\x02\0\0\0\x03\x02\xff\xff\xff\xff",
            16,
            WireWhy::Short,
        ),
    ];
    for (bytes, place, why) in table {
        refused(&rt, rt.alloc(), bytes, place, why);
    }
}

/// The request of client 1, number 1, `LogInit`, with one byte in place of another.
fn changed(at: usize, byte: u8) -> [u8; 8] {
    let mut bytes = *b"\x01\0\x01\0\0\0\x01\x01";
    if at < 8 {
        bytes[at] = byte;
    }
    bytes
}

/// Each byte of a request changed: the client and the number that are read then.
#[test]
fn other_bytes_are_other_requests(rt: HostRuntime) {
    let table = [
        (1, 1, 257, 1),
        (2, 2, 2, 1),
        (3, 1, 1, 16_777_217),
        (4, 1, 1, 65_537),
        (5, 1, 1, 257),
        (6, 255, 1, 255),
    ];
    for (at, byte, client, seq) in table {
        let bytes = changed(at, byte);
        let call = Shared::new(rt.alloc(), Call::LogInit).expect(&rt, "memory");
        let message = Message::Request { client, seq, call };
        read(&rt, rt.alloc(), &bytes, &message);
        let_message_go(Some(message));
    }
}

/// Each byte of a request changed: where and why it is no message.
#[test]
fn other_bytes_are_no_message(rt: HostRuntime) {
    let table = [
        (0, 0, 0, WireWhy::BadValue),
        (0, 2, 8, WireWhy::Short),
        (0, 3, 8, WireWhy::Short),
        (0, 5, 8, WireWhy::Short),
        (0, 9, 0, WireWhy::BadValue),
        (1, 17, 1, WireWhy::BadValue),
        (1, 16, 2, WireWhy::BadValue),
        (2, 0, 2, WireWhy::BadValue),
        (6, 0, 6, WireWhy::BadValue),
        (7, 0, 7, WireWhy::BadValue),
        (7, 2, 8, WireWhy::Short),
        (7, 14, 8, WireWhy::Short),
        (7, 15, 7, WireWhy::BadValue),
    ];
    for (at, byte, place, why) in table {
        refused(&rt, rt.alloc(), &changed(at, byte), place, why);
    }
}
