//! The edges of what notifications may hold, against the written rules.
use crate::fixtures::notification;
use ais_values::{Boxed, Duplicate, Name, Seq, Text};
use ntf_types::{
    Body, Change, Notification, Pair, StateChange, Value, check_notification, kind_of,
};
use std::alloc::Global;
use std::process::Abort;

fn text_of(rt: &impl Abort, alloc: Global, length: u16) -> Text {
    let bytes = vec![in alloc; 120; length as usize].expect(rt, "memory");
    Text::new(alloc, bytes.as_slice()).expect(rt, "a text")
}

fn list_of<T: Duplicate + Drop>(rt: &impl Abort, alloc: Global, count: u16, element: T) -> Seq<T> {
    let mut elements = Seq::new(alloc);
    for _ in 0..count {
        let copy = element.copy(alloc).expect(rt, "memory");
        elements.push(copy).expect(rt, "memory");
    }
    drop(element);
    elements
}

fn pairs_of(rt: &impl Abort, alloc: Global, count: u16, length: u16) -> Seq<Pair> {
    let value = Value::TextOf {
        text: text_of(rt, alloc, length),
    };
    list_of(rt, alloc, count, Pair { id: 1, value })
}

fn changes_of(rt: &impl Abort, alloc: Global, count: u16, after: u16, before: u16) -> Seq<Change> {
    let after = Value::Binary {
        bytes: text_of(rt, alloc, after),
    };
    let before = Value::TextOf {
        text: text_of(rt, alloc, before),
    };
    let change = Change {
        id: 1,
        after,
        before: Some(before),
    };
    list_of(rt, alloc, count, change)
}

fn is_sound(notification: Notification) -> bool {
    let sound = check_notification(&notification).is_ok();
    drop(notification);
    sound
}

/// Whether a notification with this body is accepted.
fn is_accepted(rt: &impl Abort, alloc: Global, event_type: u16, body: Body) -> bool {
    is_sound(notification(rt, alloc, event_type, body))
}

/// The parts that every notification has: its time, and how long its text and its lists are.
#[derive(Clone, Copy)]
struct Common {
    time: i64,
    text: u16,
    correlated: u16,
    info: u16,
    bytes: u16,
}

const LEAST: Common = Common {
    time: 0,
    text: 0,
    correlated: 0,
    info: 0,
    bytes: 0,
};

/// Whether an alarm with these parts is accepted.
fn has_common(rt: &impl Abort, alloc: Global, common: Common) -> bool {
    let body = Body::Alarm {
        cause: 65_535,
        severity: 0,
    };
    let mut given = notification(rt, alloc, 0x4001, body);
    given.event_time = common.time;
    given.text = text_of(rt, alloc, common.text);
    given.correlated = list_of(rt, alloc, common.correlated, 7);
    given.info = pairs_of(rt, alloc, common.info, common.bytes);
    is_sound(given)
}

/// Each edge of the parts that every notification has.
#[test]
fn checks_common_parts(rt: HostRuntime) {
    let greatest = Common {
        time: i64::MAX,
        text: 1024,
        correlated: 16,
        info: 16,
        bytes: 1024,
    };
    assert!(rt; has_common(&rt, rt.alloc(), LEAST) && has_common(&rt, rt.alloc(), greatest));
    for time in [-1, i64::MIN + 1] {
        assert!(rt;
            !has_common(&rt, rt.alloc(), Common { time, ..LEAST }),
            "{time}"
        );
    }
    let unknown = Common {
        time: i64::MIN,
        ..LEAST
    };
    assert!(rt; has_common(&rt, rt.alloc(), unknown));
}

/// One more byte or element than the greatest notification has.
#[test]
fn checks_common_lengths(rt: HostRuntime) {
    // bytes of text, correlated ids, elements of information, bytes of each
    for (text, correlated, info, bytes) in [
        (1025, 0, 0, 0),
        (0, 17, 0, 0),
        (0, 0, 17, 0),
        (0, 0, 1, 1025),
    ] {
        let common = Common {
            time: 0,
            text,
            correlated,
            info,
            bytes,
        };
        assert!(rt;
            !has_common(&rt, rt.alloc(), common),
            "{text} {correlated} {info} {bytes}"
        );
    }
}

fn objects(rt: &impl Abort, alloc: Global, source: u16, count: u16, bytes: u16) -> Body {
    Body::Objects {
        source,
        attrs: pairs_of(rt, alloc, count, bytes),
    }
}

/// Changes of attributes from values of so many bytes to others.
fn attributes(
    rt: &impl Abort,
    alloc: Global,
    source: u16,
    count: u16,
    after: u16,
    before: u16,
) -> Body {
    Body::Attributes {
        source,
        changes: changes_of(rt, alloc, count, after, before),
    }
}

/// Source indicators, and the elements of lists.
#[test]
fn checks_changes(rt: HostRuntime) {
    let alloc = rt.alloc();
    // source, elements, bytes of each value, accepted
    for (source, count, bytes, accepted) in [
        (0, 0, 0, false),
        (1, 16, 1024, true),
        (3, 1, 0, true),
        (4, 0, 0, false),
        (2, 17, 0, false),
        (2, 1, 1025, false),
    ] {
        let made = objects(&rt, alloc, source, count, bytes);
        assert!(rt;
            is_accepted(&rt, alloc, 0x1001, made) == accepted,
            "{source} {count}"
        );
        let later = attributes(&rt, alloc, source, count, bytes, 1024);
        assert!(rt;
            is_accepted(&rt, alloc, 0x2004, later) == accepted,
            "{source} {count}"
        );
        let earlier = attributes(&rt, alloc, source, count, 1024, bytes);
        assert!(rt;
            is_accepted(&rt, alloc, 0x2001, earlier) == accepted,
            "{source} {count}"
        );
    }
}

/// Changes of states, which carry no texts.
#[test]
fn checks_states(rt: HostRuntime) {
    let alloc = rt.alloc();
    let change = StateChange {
        id: 1,
        after: 2,
        before: None,
    };
    // source, elements, accepted
    for (source, count, accepted) in [
        (0, 0, false),
        (1, 16, true),
        (3, 0, true),
        (4, 0, false),
        (2, 17, false),
    ] {
        let changes = list_of(&rt, alloc, count, change);
        let states = Body::States { source, changes };
        assert!(rt;
            is_accepted(&rt, alloc, 0x3001, states) == accepted,
            "{source} {count}"
        );
    }
}

/// A text of so many bytes, by itself in memory.
fn boxed_text(rt: &impl Abort, alloc: Global, length: u16) -> Boxed<Value> {
    let text = text_of(rt, alloc, length);
    Boxed::new(alloc, Value::TextOf { text }).expect(rt, "memory")
}

/// The same as a binary.
fn boxed_binary(rt: &impl Abort, alloc: Global, length: u16) -> Boxed<Value> {
    let bytes = text_of(rt, alloc, length);
    Boxed::new(alloc, Value::Binary { bytes }).expect(rt, "memory")
}

/// A number, by itself in memory.
fn boxed_number(rt: &impl Abort, alloc: Global, value: i64) -> Boxed<Value> {
    Boxed::new(alloc, Value::Int { value }).expect(rt, "memory")
}

/// A name, by itself in memory.
fn boxed_name(rt: &impl Abort, alloc: Global) -> Boxed<Value> {
    let name = Name::new(alloc, b"user").expect(rt, "memory");
    Boxed::new(alloc, Value::NameOf { name }).expect(rt, "memory")
}

/// A security alarm with values of so many bytes.
fn security(
    rt: &impl Abort,
    alloc: Global,
    severity: u16,
    detector: u16,
    user: u16,
    provider: u16,
) -> Body {
    Body::Security {
        cause: 0,
        severity,
        detector: boxed_text(rt, alloc, detector),
        user: boxed_binary(rt, alloc, user),
        provider: boxed_text(rt, alloc, provider),
    }
}

/// Perceived severities, and the values of security alarms.
#[test]
fn checks_alarms(rt: HostRuntime) {
    let alloc = rt.alloc();
    for (severity, accepted) in [(0, true), (5, true), (6, false)] {
        let alarm = Body::Alarm { cause: 0, severity };
        assert!(rt;
            is_accepted(&rt, alloc, 0x4005, alarm) == accepted,
            "{severity}"
        );
    }
    // severity, bytes of detector, user and provider, accepted
    for (severity, detector, user, provider, accepted) in [
        (0, 0, 0, 0, true),
        (5, 1024, 1024, 1024, true),
        (6, 0, 0, 0, false),
        (5, 1025, 0, 0, false),
        (5, 0, 1025, 0, false),
        (5, 0, 0, 1025, false),
    ] {
        let alarm = security(&rt, alloc, severity, detector, user, provider);
        assert!(rt;
            is_accepted(&rt, alloc, 0x5005, alarm) == accepted,
            "{detector} {user}"
        );
    }
}

fn body_of(rt: &impl Abort, alloc: Global, kind: u16) -> Body {
    match kind {
        0x1000 => objects(rt, alloc, 1, 2, 3),
        0x2000 => attributes(rt, alloc, 2, 2, 3, 4),
        0x3000 => Body::States {
            source: 3,
            changes: Seq::new(alloc),
        },
        0x4000 => Body::Alarm {
            cause: 1,
            severity: 5,
        },
        _ => Body::Security {
            cause: 1,
            severity: 5,
            detector: boxed_number(rt, alloc, -1),
            user: boxed_name(rt, alloc),
            provider: boxed_number(rt, alloc, 1),
        },
    }
}

/// Whether a notification is of this type, and its copy is equal to it.
fn is_of(rt: &impl Abort, alloc: Global, kind: u16, notification: Notification) -> bool {
    let copy = notification.copy(alloc).expect(rt, "memory");
    let equal = copy == notification;
    drop(copy);
    let found = kind_of(&notification);
    drop(notification);
    equal && found == kind
}

/// The types, and the first and the last event type of each.
const KINDS: [(u16, u16, u16); 5] = [
    (0x1000, 0x1001, 0x1002),
    (0x2000, 0x2001, 0x2004),
    (0x3000, 0x3001, 0x3001),
    (0x4000, 0x4001, 0x4005),
    (0x5000, 0x5001, 0x5005),
];

/// The event types of each type, and those just outside.
#[test]
fn knows_event_types(rt: HostRuntime) {
    for (kind, first, last) in KINDS {
        for event_type in [
            0u16, 0x1000, 0x1001, 0x1002, 0x1003, 0x2000, 0x2001, 0x2004, 0x2005, 0x3000, 0x3001,
            0x3002, 0x4000, 0x4001, 0x4005, 0x4006, 0x5000, 0x5001, 0x5005, 0x5006, 0x6001,
        ] {
            let body = body_of(&rt, rt.alloc(), kind);
            let accepted = is_accepted(&rt, rt.alloc(), event_type, body);
            let within = first <= event_type && event_type <= last;
            assert!(rt; accepted == within, "{kind} {event_type}");
        }
    }
}

#[test]
fn notifications_are_copied(rt: HostRuntime) {
    for (kind, first, _) in KINDS {
        let body = body_of(&rt, rt.alloc(), kind);
        let notification = notification(&rt, rt.alloc(), first, body);
        assert!(rt; is_of(&rt, rt.alloc(), kind, notification), "{kind}");
    }
}
