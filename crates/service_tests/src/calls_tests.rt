//! What no clause says: that copies are made and a history grows while there is memory.
use crate::fixtures::{CLASS, alarm, no_filters};
use ais_values::{Duplicate, Name, Seq, Status, Text, Version, Which};
use calls::*;
use record_print::Header;
use std::alloc::Global;
use std::process::Abort;
use stream_config::StreamName;
use sub_queue::{Content, Item, Lost};

/// A copy of the value is made, which is equal to it.
fn copied<T: Duplicate + PartialEq + Drop>(rt: &impl Abort, alloc: Global, value: T) {
    let copy = value.copy(alloc).expect(rt, "memory");
    let equal = copy == value;
    drop(copy);
    drop(value);
    assert!(rt; equal);
}

fn write(rt: &impl Abort, alloc: Global) -> Call {
    let header = Header::Generic {
        class: CLASS,
        user: Name::new(alloc, b"u").expect(rt, "memory"),
        severity: 6,
    };
    Call::LogWrite {
        stream: StreamName::System,
        invocation: 7,
        flags: 1,
        time: 0,
        header,
        body: Text::new(alloc, b"a").expect(rt, "memory"),
    }
}

#[test]
fn calls_are_copied(rt: HostRuntime) {
    let alloc = rt.alloc();
    copied(&rt, alloc, Call::LogInit);
    copied(&rt, alloc, write(&rt, alloc));
    let reader = Call::ReaderStart {
        mode: 7,
        value: -1,
        filters: Boxed::new(alloc, no_filters()).expect(&rt, "memory"),
    };
    copied(&rt, alloc, reader);
}

#[test]
fn what_is_asked_is_copied(rt: HostRuntime) {
    let alloc = rt.alloc();
    let version = Version {
        release: b'A',
        major: 2,
        minor: 1,
    };
    let service = Which::Log;
    copied(&rt, alloc, Ask::Start { service, version });
    let call = Call::LogFini;
    copied(&rt, alloc, Ask::Plain { call });
}

#[test]
fn replies_and_callbacks_are_copied(rt: HostRuntime) {
    let alloc = rt.alloc();
    let status = Status::NoSpace;
    copied(&rt, alloc, Reply::Refused { status });
    let notification = Boxed::new(alloc, alarm(&rt, alloc, 1, 0, 2)).expect(&rt, "memory");
    copied(&rt, alloc, Reply::Found { notification });
    let written = Callback::Written {
        invocation: 7,
        status,
    };
    copied(&rt, alloc, written);
}

#[test]
fn a_held_item_is_copied(rt: HostRuntime) {
    let alloc = rt.alloc();
    let mut lost = Seq::new(alloc);
    let one = Lost {
        kind: 0x4000,
        id: 3,
    };
    lost.push(one).expect(&rt, "memory");
    let content = Content::Discarded { lost };
    let item = Item { number: 3, content };
    let held = Held {
        client: 1,
        key: 2,
        item,
    };
    copied(&rt, alloc, held);
}

#[test]
fn a_history_grows(rt: HostRuntime) {
    let mut history = History::new(rt.alloc());
    assert!(rt; history.len() == 0);
    for client in 1..4u16 {
        history.reserve().expect(&rt, "memory");
        history.push(Entry::Receipted {
            client,
            key: 2,
            through: 3,
            time: 0,
        });
    }
    assert!(rt; history.len() == 3);
    drop(history);
}

fn one_reader(rt: &impl Abort, alloc: Global) -> Seq<SavedReader> {
    let mut readers = Seq::new(alloc);
    let reader = SavedReader {
        client: 1,
        filters: Shared::new(alloc, no_filters()).expect(rt, "memory"),
        time: 5,
        id: 6,
        fresh: true,
    };
    readers.push(reader).expect(rt, "memory");
    readers
}

fn one_window(rt: &impl Abort, alloc: Global) -> Seq<SavedWindow> {
    let mut windows = Seq::new(alloc);
    let window = SavedWindow {
        client: 1,
        next: 1,
        replies: Seq::new(alloc),
    };
    windows.push(window).expect(rt, "memory");
    windows
}

#[test]
fn a_saved_value_is_copied(rt: HostRuntime) {
    let alloc = rt.alloc();
    let saved = Saved {
        number: 1,
        last_stamp: 2,
        last_id: 3,
        capacity: 4,
        log_users: Seq::new(alloc),
        ntf_users: Seq::new(alloc),
        windows: one_window(&rt, alloc),
        streams: Seq::new(alloc),
        alarms: Seq::new(alloc),
        subs: Seq::new(alloc),
        readers: one_reader(&rt, alloc),
    };
    copied(&rt, alloc, saved);
}
