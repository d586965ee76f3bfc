//! The lines of events, against the written rules.
use ais_values::{ClassId, Name, Seq, Status, Text};
use calls::{Boxed, Call, Callback, Entry, Reply, Shared, let_entry_go};
use cluster_events::{Roles, ServerRole, Standing, Why};
use event_text::{
    put_callback, put_declined, put_dispatched, put_entry, put_file, put_ignored, put_post,
    put_raw, put_refused, put_refused_text, put_reply, put_server, put_servers, put_shown,
    put_text,
};
use ntf_types::{Body, Notification};
use script_lines::{Line, Server};
use std::alloc::Global;
use std::process::Abort;
use stream_config::{Mark, StreamName};
use sub_queue::{Content, Item, Lost};
use wire::{Message, WireWhy, let_message_go};

const T: i64 = 1_704_067_200_000_000_000;

/// The lines, one after another, are this text.
fn are(rt: &impl Abort, alloc: Global, lines: Vec<Seq<u8>>, want: &[u8]) {
    let mut text = Vec::new(alloc);
    for line in lines.as_slice() {
        text.extend_from_slice(line.as_slice()).expect(rt, "memory");
    }
    drop(lines);
    assert!(rt; text.as_slice() == want, "{text:?}");
}

/// Each of these compares the lines on its value and lets it go, so that the tests hold no large one.
fn post(rt: &impl Abort, alloc: Global, place: u64, message: Message, want: &[u8]) {
    let mut lines = Vec::new(alloc);
    let done = put_post(alloc, &mut lines, place, &message);
    let_message_go(Some(message));
    done.expect(rt, "memory");
    are(rt, alloc, lines, want);
}

fn accept(rt: &impl Abort, alloc: Global, number: u64, entry: Entry, want: &[u8]) {
    let mut lines = Vec::new(alloc);
    let done = put_entry(alloc, &mut lines, number, &entry);
    let_entry_go(Some(entry));
    done.expect(rt, "memory");
    are(rt, alloc, lines, want);
}

/// Servers of these roles at rest.
fn at_rest(roles: Roles) -> Standing {
    Standing {
        roles,
        net: 0,
        link: 0,
        back: 0,
        in_hand: None,
    }
}

fn refuse(rt: &impl Abort, alloc: Global, line: Line, want: &[u8]) {
    let standing = at_rest(Roles::Two {
        a: ServerRole::Armed,
        b: ServerRole::Standby,
    });
    let mut lines = Vec::new(alloc);
    let done = put_refused(alloc, &mut lines, &line, &standing);
    drop(line);
    done.expect(rt, "memory");
    are(rt, alloc, lines, want);
}

fn answer(rt: &impl Abort, alloc: Global, seq: u32, reply: Reply, want: &[u8]) {
    let mut lines = Vec::new(alloc);
    let done = put_reply(alloc, &mut lines, 1, seq, &reply);
    drop(reply);
    done.expect(rt, "memory");
    are(rt, alloc, lines, want);
}

fn hand_out(rt: &impl Abort, alloc: Global, number: u64, callback: Callback, want: &[u8]) {
    let mut lines = Vec::new(alloc);
    let done = put_callback(alloc, &mut lines, 1, number, &callback);
    drop(callback);
    done.expect(rt, "memory");
    are(rt, alloc, lines, want);
}

/// Call 3 of client 1.
fn request(rt: &impl Abort, alloc: Global) -> Message {
    Message::Request {
        client: 1,
        seq: 3,
        call: Shared::new(alloc, Call::LogInit).expect(rt, "memory"),
    }
}

/// Its reply.
fn reply() -> Message {
    Message::Reply {
        client: 1,
        seq: 3,
        reply: Reply::Done,
    }
}

/// Item 3 of the subscription of client 1 under key 2.
fn item(alloc: Global) -> Message {
    let lost = Seq::new(alloc);
    let item = Item {
        number: 3,
        content: Content::Discarded { lost },
    };
    Message::Item {
        client: 1,
        key: 2,
        item,
    }
}

/// Its receipt.
fn receipt() -> Message {
    Message::Receipt {
        client: 1,
        key: 2,
        through: 3,
    }
}

#[test]
fn tells_of_the_net(rt: HostRuntime) {
    let alloc = rt.alloc();
    post(&rt, alloc, 5, request(&rt, alloc), b"post 5 req 1 3\n");
    post(&rt, alloc, 6, reply(), b"post 6 rep 1 3\n");
    post(&rt, alloc, 21, item(alloc), b"post 21 item 1 2 3\n");
    post(&rt, alloc, 22, receipt(), b"post 22 rcpt 1 2 3\n");
}

/// A delivered byte string that is no message, from this place on, had no effect.
fn miss(rt: &impl Abort, alloc: Global, front: u32, why: WireWhy, want: &[u8]) {
    let mut lines = Vec::new(alloc);
    put_ignored(alloc, &mut lines, 1, Why::Bad { front, why }).expect(rt, "memory");
    are(rt, alloc, lines, want);
}

#[test]
fn tells_of_bytes_that_are_no_message(rt: HostRuntime) {
    let alloc = rt.alloc();
    let mut lines = Vec::new(alloc);
    put_raw(alloc, &mut lines, 1, 0).expect(&rt, "memory");
    put_raw(alloc, &mut lines, 12, 16_384).expect(&rt, "memory");
    are(&rt, alloc, lines, b"post 1 raw 0\npost 12 raw 16384\n");
    let value = b"ignored 1 bad 0 value\n".as_slice();
    miss(&rt, alloc, 0, WireWhy::BadValue, value);
    miss(&rt, alloc, 0, WireWhy::Short, b"ignored 1 bad 0 short\n");
    let trailing = b"ignored 1 bad 8 trailing\n".as_slice();
    miss(&rt, alloc, 8, WireWhy::Trailing, trailing);
    let text = Text::new(alloc, b"\x01\0\x01\0\0\0\x01\x01").expect(&rt, "memory");
    let told = b"refused inject \"\\x01\\x00\\x01\\x00\\x00\\x00\\x01\\x01\" \
        a=armed b=standby net=0 link=0 back=0 hand=-\n"
        .as_slice();
    refuse(&rt, alloc, Line::Inject { bytes: text }, told);
}

/// Call 3 of client 1, as accepted.
fn called(rt: &impl Abort, alloc: Global) -> Entry {
    Entry::Called {
        client: 1,
        seq: 3,
        time: T,
        call: Shared::new(alloc, Call::LogFini).expect(rt, "memory"),
    }
}

/// A receipt of client 1, as accepted.
fn receipted() -> Entry {
    Entry::Receipted {
        client: 1,
        key: 2,
        through: 2,
        time: T,
    }
}

#[test]
fn tells_of_the_history(rt: HostRuntime) {
    let alloc = rt.alloc();
    let call = b"acc 3 call 1 3 1704067200000000000\n".as_slice();
    accept(&rt, alloc, 3, called(&rt, alloc), call);
    let receipt = b"acc 9 rcpt 1 2 2 1704067200000000000\n".as_slice();
    accept(&rt, alloc, 9, receipted(), receipt);
}

#[test]
fn tells_of_what_has_no_effect(rt: HostRuntime) {
    let alloc = rt.alloc();
    let mut lines = Vec::new(alloc);
    put_ignored(alloc, &mut lines, 7, Why::TakenItem).expect(&rt, "memory");
    put_ignored(alloc, &mut lines, 8, Why::Busy { number: 12 }).expect(&rt, "memory");
    put_ignored(alloc, &mut lines, 9, Why::ServerDown).expect(&rt, "memory");
    let told = b"ignored 7 taken\nignored 8 busy 12\nignored 9 down\n".as_slice();
    are(&rt, alloc, lines, told);
    let crash = Line::Crash { server: Server::B };
    let told = b"refused crash b a=armed b=standby net=0 link=0 back=0 hand=-\n".as_slice();
    refuse(&rt, alloc, crash, told);
    let three = at_rest(Roles::Three {
        a: ServerRole::Armed,
        b: ServerRole::Down,
        c: ServerRole::Standby,
    });
    let mut lines = Vec::new(alloc);
    put_refused_text(alloc, &mut lines, b"mirror c", &three).expect(&rt, "memory");
    let told = b"refused mirror c a=armed b=down c=standby net=0 link=0 back=0 hand=-\n".as_slice();
    are(&rt, alloc, lines, told);
}

#[test]
fn tells_of_servers_and_files(rt: HostRuntime) {
    let alloc = rt.alloc();
    let mut lines = Vec::new(alloc);
    put_server(alloc, &mut lines, Server::A, ServerRole::Armed).expect(&rt, "memory");
    put_server(alloc, &mut lines, Server::B, ServerRole::Journal).expect(&rt, "memory");
    let three = Roles::Three {
        a: ServerRole::Down,
        b: ServerRole::Down,
        c: ServerRole::Active,
    };
    put_servers(alloc, &mut lines, three).expect(&rt, "memory");
    put_file(alloc, &mut lines, b"saLogSystem.cfg", 164).expect(&rt, "memory");
    are(
        &rt,
        alloc,
        lines,
        b"server a armed\nserver b journal\nserver a down\nserver b down\nserver c active\nfile saLogSystem.cfg 164\n",
    );
}

#[test]
fn tells_of_texts(rt: HostRuntime) {
    let alloc = rt.alloc();
    let mut lines = Vec::new(alloc);
    put_text(alloc, &mut lines, b"         5 e").expect(&rt, "memory");
    put_shown(alloc, &mut lines, b"  5 e   \n\n    \nrest").expect(&rt, "memory");
    are(
        &rt,
        alloc,
        lines,
        b"text          5 e\ntext   5 e\ntext \ntext \ntext rest\n",
    );
}

#[test]
fn tells_of_replies(rt: HostRuntime) {
    let alloc = rt.alloc();
    let status = Status::NoSpace;
    let refused = Reply::Refused { status };
    answer(&rt, alloc, 5, refused, b"reply 1 5 NO_SPACE\n");
    answer(&rt, alloc, 6, Reply::Sent { id: 1 }, b"reply 1 6 ok id=1\n");
    let mark = Mark { since: 5, mask: 8 };
    for (filtered, want) in [
        (false, b"reply 1 7 ok\n".as_slice()),
        (true, b"reply 1 7 ok filtered\n".as_slice()),
    ] {
        answer(&rt, alloc, 7, Reply::Marked { filtered, mark }, want);
    }
    let mut lines = Vec::new(alloc);
    put_declined(alloc, &mut lines, 1, Status::BadHandle).expect(&rt, "memory");
    put_dispatched(alloc, &mut lines, 1, 8).expect(&rt, "memory");
    are(
        &rt,
        alloc,
        lines,
        b"reply 1 - BAD_HANDLE\nreply 1 - ok dispatched=8\n",
    );
}

fn alarm(rt: &impl Abort, alloc: Global) -> Notification {
    Notification {
        id: 1,
        event_type: 0x4001,
        object: Name::new(alloc, b"node1").expect(rt, "memory"),
        notifier: Name::new(alloc, b"hw").expect(rt, "memory"),
        class: ClassId {
            vendor: 1,
            major: 2,
            minor: 3,
        },
        event_time: T,
        correlated: Seq::new(alloc),
        text: Text::new(alloc, b"f").expect(rt, "memory"),
        info: Seq::new(alloc),
        body: Body::Alarm {
            cause: 5,
            severity: 4,
        },
    }
}

/// Ids 6 of a security alarm, 3 and 4 of alarms.
fn losses(rt: &impl Abort, alloc: Global) -> Seq<Lost> {
    let mut lost = Seq::new(alloc);
    for (kind, id) in [(0x5000, 6), (0x4000, 3), (0x4000, 4)] {
        lost.push(Lost { kind, id }).expect(rt, "memory");
    }
    lost
}

/// A mask became another one, which a reply to this write told, or to none that asked for a callback.
fn filter(rt: &impl Abort, alloc: Global, stream: StreamName, written: Option<u64>, want: &[u8]) {
    let mask = 8;
    let callback = Callback::FilterSet {
        stream,
        mask,
        written,
    };
    hand_out(rt, alloc, 2, callback, want);
}

#[test]
fn tells_of_masks(rt: HostRuntime) {
    let alloc = rt.alloc();
    let alone = b"callback 1 2 filter system mask=8\n".as_slice();
    filter(&rt, alloc, StreamName::System, None, alone);
    let both = b"callback 1 2 filter system mask=8\ncallback 1 2 write 7 ok\n".as_slice();
    filter(&rt, alloc, StreamName::System, Some(7), both);
    let name = Name::new(alloc, b"a \"b\"").expect(&rt, "memory");
    let quoted = b"callback 1 2 filter app:\"a \\\"b\\\"\" mask=8\n".as_slice();
    filter(&rt, alloc, StreamName::App { name }, None, quoted);
}

#[test]
fn tells_of_callbacks(rt: HostRuntime) {
    let alloc = rt.alloc();
    let notification = alarm(&rt, alloc);
    let shown =
        b"callback 1 1 ntf 9 alarm id=1 type=0x4001 obj=\"node1\" by=\"hw\" class=1.2.3 time=1704067200000000000 text=\"f\" cause=5 sev=4\n".as_slice();
    hand_out(
        &rt,
        alloc,
        1,
        Callback::Notified {
            id: 9,
            notification: Boxed::new(alloc, notification).expect(&rt, "memory"),
        },
        shown,
    );
    let lost = losses(&rt, alloc);
    let told =
        b"callback 1 3 lost 9 alarm count=2 ids=3,4\ncallback 1 3 lost 9 security count=1 ids=6\n".as_slice();
    hand_out(&rt, alloc, 3, Callback::Discarded { id: 9, lost }, told);
}
