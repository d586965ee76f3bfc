//! What no clause says: that two servers without a world get along by the messages that each has for the other, and that the deeds that the
//! standby does as it takes over leave the files as the active server left them.
ghost use Rattle.std.specs.Prelude.{◌<◌};
ghost use Rattle.mirror.specs.Replicas.{HasRoom};
ghost use Rattle.mirror.specs.Pairing.{Admits};

use crate::mirror_tests::{START, new_disk, service};
use ais_values::{ClassId, Name, Text};
use calls::{Call, Shared};
use disk_model::{MemDisk, SharedDisk};
use mirror::{Heard, Node, Role, let_heard_go, let_node_go};
use record_print::Header;
use std::alloc::{AllocError, Global};
use std::process::Abort;
use stream_config::{FullAction, StreamAttrs, StreamName};
use wire::{Message, let_message_go};

/// A server receives a message that it admits.
fn receive_admitted(alloc: Global, node: &mut Node, message: &Message) -> Result<Heard, AllocError>
    requires admits { Admits message.now node.old }
    requires few { HasRoom node.old.replica.service }
{
    node.receive(alloc, message, START)
}

/// A server that joins, or is standby, gets what the active one has for it, and admits it.
fn follows(rt: &impl Abort, alloc: Global, node: &mut Node, from: Heard) -> Heard {
    let message = from.to_peer.as_slice().first().expect(rt, "a message");
    let admitted = node.admits(alloc, message).expect(rt, "memory");
    assert!(rt; admitted);
    assert!(rt; node.has_room());
    let heard = receive_admitted(alloc, node, message).expect(rt, "memory");
    let_heard_go(from);
    heard
}

/// The active server gets what its partner answers.
fn confirms(rt: &impl Abort, alloc: Global, node: &mut Node, from: Heard) {
    let message = from.to_peer.as_slice().first().expect(rt, "an answer");
    assert!(rt; node.has_room());
    let heard = match message {
        Message::JoinAck { .. } => node.receive(alloc, message, START).ok(),
        Message::MirrorAck { .. } => node.receive(alloc, message, START).ok(),
        _ => None,
    };
    let_heard_go(from);
    let_heard_go(heard.expect(rt, "an answer to what was sent"));
}

/// A call of a client comes to the active server, goes to the standby and is worked once that has answered.
fn goes(
    rt: &impl Abort,
    alloc: Global,
    active: &mut Node,
    standby: &mut Node,
    disk: &mut MemDisk,
    seq: u32,
    call: Call,
)
    requires { 0 < seq }
{
    assert!(rt; active.has_room());
    let call = Shared::new(alloc, call).expect(rt, "memory");
    let message = Message::Request {
        client: 1,
        seq,
        call,
    };
    let heard = active.receive(alloc, &message, START).expect(rt, "memory");
    let_message_go(Some(message));
    assert!(rt; !active.ready());
    let answer = follows(rt, alloc, standby, heard);
    confirms(rt, alloc, active, answer);
    assert!(rt; active.ready());
    let_heard_go(active.work(alloc, disk).expect(rt, "a disk that serves"));
    assert!(rt; active.in_hand() == None);
}

fn text(rt: &impl Abort, alloc: Global, bytes: &[u8]) -> Text {
    Text::new(alloc, bytes).expect(rt, "a text")
}

fn stream(rt: &impl Abort, alloc: Global) -> StreamName {
    StreamName::App {
        name: Name::new(alloc, b"web").expect(rt, "a name"),
    }
}

/// A stream of an application is made, with files of its own.
fn open(rt: &impl Abort, alloc: Global) -> Call {
    let create = StreamAttrs {
        file: text(rt, alloc, b"requests"),
        path: text(rt, alloc, b"web"),
        max_file: 64,
        record_size: 32,
        ha: 0,
        action: FullAction::Rotate,
        rotated: 2,
        expr: text(rt, alloc, b"@Cr @Cb"),
    };
    Call::LogOpen {
        stream: stream(rt, alloc),
        create: Some(create),
    }
}

/// A record is written to it.
fn write(rt: &impl Abort, alloc: Global) -> Call {
    let header = Header::Generic {
        class: ClassId {
            vendor: 1,
            major: 2,
            minor: 3,
        },
        user: Name::new(alloc, b"u").expect(rt, "a name"),
        severity: 6,
    };
    Call::LogWrite {
        stream: stream(rt, alloc),
        invocation: 1,
        flags: 0,
        time: START,
        header,
        body: text(rt, alloc, b"a"),
    }
}

/// How many files there are, and how many bytes they hold.
fn held(rt: &impl Abort, alloc: Global, disk: &mut MemDisk) -> (usize, u64) {
    let names = disk.names(alloc).expect(rt, "memory");
    let mut bytes: u64 = 0;
    for name in names.as_slice() {
        let length = disk.len(name.as_slice()).expect(rt, "no fault");
        bytes = bytes.saturating_add(length.unwrap_or(0));
    }
    let count = names.as_slice().len();
    drop(names);
    (count, bytes)
}

#[test]
fn two_servers_work_entries_by_their_own_messages(rt: HostRuntime) {
    let alloc = rt.alloc();
    let mut active = Node::start(alloc, Role::Active, service(&rt, alloc));
    let mut other = Node::joining(alloc);
    let mut disk = new_disk(alloc);
    let begun = active.begin_join(alloc).expect(&rt, "memory");
    let joined = follows(&rt, alloc, &mut other, begun);
    assert!(rt; other.role() == Role::Standby);
    confirms(&rt, alloc, &mut active, joined);
    goes(
        &rt,
        alloc,
        &mut active,
        &mut other,
        &mut disk,
        1,
        Call::LogInit,
    );
    let call = open(&rt, alloc);
    goes(&rt, alloc, &mut active, &mut other, &mut disk, 2, call);
    let before = held(&rt, alloc, &mut disk);
    let call = write(&rt, alloc);
    goes(&rt, alloc, &mut active, &mut other, &mut disk, 3, call);
    let after = held(&rt, alloc, &mut disk);
    assert!(rt; before.0 == after.0);
    assert!(rt; before.1 < after.1);
    let_node_go(active);
    assert!(rt; other.keeps());
    assert!(rt; other.role() == Role::Standby);
    let_heard_go(
        other
            .takeover(alloc, &mut disk)
            .expect(&rt, "a disk that serves"),
    );
    let again = held(&rt, alloc, &mut disk);
    assert!(rt; again == after);
    assert!(rt; other.role() == Role::Active);
    drop(disk);
    let_node_go(other);
}
