//! Filters against notifications, each list for itself, and sets that may not be used.
use crate::fixtures::{CLASS, notification};
use ais_values::{Boxed, ClassId, Duplicate, Name, Seq};
use ntf_filters::{Filter, FilterSet, check_filters, matches};
use ntf_types::{Body, Notification, Value};
use std::alloc::Global;
use std::process::Abort;

/// The number 0, by itself in memory.
fn zero(rt: &impl Abort, alloc: Global) -> Boxed<Value> {
    Boxed::new(alloc, Value::Int { value: 0 }).expect(rt, "memory")
}

/// A body whose source is 2, its cause 7 and its severity 4.
fn body_of(rt: &impl Abort, alloc: Global, kind: u16) -> Body {
    match kind {
        0x1000 => Body::Objects {
            source: 2,
            attrs: Seq::new(alloc),
        },
        0x2000 => Body::Attributes {
            source: 2,
            changes: Seq::new(alloc),
        },
        0x3000 => Body::States {
            source: 2,
            changes: Seq::new(alloc),
        },
        0x4000 => Body::Alarm {
            cause: 7,
            severity: 4,
        },
        _ => Body::Security {
            cause: 7,
            severity: 4,
            detector: zero(rt, alloc),
            user: zero(rt, alloc),
            provider: zero(rt, alloc),
        },
    }
}

/// The list of one number, or an empty one.
fn numbers_of(rt: &impl Abort, alloc: Global, wanted: bool, number: u16) -> Seq<u16> {
    let mut numbers = Seq::new(alloc);
    if wanted {
        numbers.push(number).expect(rt, "memory");
    }
    numbers
}

/// The list of another name and this one, or an empty one.
fn names_of(rt: &impl Abort, alloc: Global, wanted: bool, name: &str) -> Seq<Name> {
    let mut names = Seq::new(alloc);
    if wanted {
        let other = Name::new(alloc, b"another").expect(rt, "a name");
        names.push(other).expect(rt, "memory");
        let name = Name::new(alloc, name.as_bytes()).expect(rt, "a name");
        names.push(name).expect(rt, "memory");
    }
    names
}

/// The list of one class, or an empty one.
fn classes_of(rt: &impl Abort, alloc: Global, wanted: bool, minor: u16) -> Seq<ClassId> {
    let mut classes = Seq::new(alloc);
    if wanted {
        classes
            .push(ClassId { minor, ..CLASS })
            .expect(rt, "memory");
    }
    classes
}

/// A filter with one list, which has what the notification of a type has, or something else.
fn filter_of(rt: &impl Abort, alloc: Global, kind: u16, list: u8, right: bool) -> Filter {
    let event_type = if right { kind.saturating_add(1) } else { kind };
    let object = if right { "object" } else { "other" };
    let notifier = if right { "notifier" } else { "object" };
    Filter {
        types: numbers_of(rt, alloc, list == 0, event_type),
        objects: names_of(rt, alloc, list == 1, object),
        notifiers: names_of(rt, alloc, list == 2, notifier),
        classes: classes_of(rt, alloc, list == 3, if right { 3 } else { 4 }),
        sources: numbers_of(rt, alloc, list == 4, if right { 2 } else { 3 }),
        causes: numbers_of(rt, alloc, list == 5, if right { 7 } else { 2 }),
        severities: numbers_of(rt, alloc, list == 6, if right { 4 } else { 5 }),
    }
}

/// The set of one filter, or of none, for this type.
fn set_of(kind: u16, filter: Option<Filter>) -> FilterSet {
    match kind {
        0x1000 => FilterSet {
            objects: filter,
            attributes: None,
            states: None,
            alarms: None,
            security: None,
        },
        0x2000 => FilterSet {
            objects: None,
            attributes: filter,
            states: None,
            alarms: None,
            security: None,
        },
        0x3000 => FilterSet {
            objects: None,
            attributes: None,
            states: filter,
            alarms: None,
            security: None,
        },
        0x4000 => FilterSet {
            objects: None,
            attributes: None,
            states: None,
            alarms: filter,
            security: None,
        },
        _ => FilterSet {
            objects: None,
            attributes: None,
            states: None,
            alarms: None,
            security: filter,
        },
    }
}

fn equals_its_copy(rt: &impl Abort, alloc: Global, filters: &FilterSet) -> bool {
    let copy = filters.copy(alloc).expect(rt, "memory");
    let equal = copy == *filters;
    drop(copy);
    equal
}

/// Whether the set asks for the notification of another type, whether it may be used, and whether its copy is equal.
fn answers(rt: &impl Abort, alloc: Global, filters: FilterSet, other: u16) -> (bool, bool, bool) {
    let body = body_of(rt, alloc, other);
    let notification = notification(rt, alloc, other.saturating_add(1), body);
    let asked = matches(&filters, &notification);
    drop(notification);
    let fit = check_filters(&filters).is_ok();
    let same = equals_its_copy(rt, alloc, &filters);
    drop(filters);
    (asked, fit, same)
}

/// The answers of the set of one filter to the notification of another type.
fn answers_of(
    rt: &impl Abort,
    alloc: Global,
    kind: u16,
    list: u8,
    right: bool,
    other: u16,
) -> (bool, bool, bool) {
    let filter = filter_of(rt, alloc, kind, list, right);
    answers(rt, alloc, set_of(kind, Some(filter)), other)
}

/// A filter of each type with each list.
#[test]
fn asks_by_each_list(rt: HostRuntime) {
    let alloc = rt.alloc();
    for kind in [0x1000, 0x2000, 0x3000, 0x4000, 0x5000] {
        for list in 0..8u8 {
            let usable = list < 4 || list == 7 || (list == 4) == (kind <= 0x3000);
            let right = answers_of(&rt, alloc, kind, list, true, kind);
            assert!(rt; right == (usable, usable, true), "{kind} {list}");
            let wrong = answers_of(&rt, alloc, kind, list, false, kind);
            assert!(rt; wrong == (list == 7, usable, true), "{kind} {list}");
        }
    }
}

/// A type without a filter is not asked for, and a set without filters may not be used.
#[test]
fn asks_by_type(rt: HostRuntime) {
    let alloc = rt.alloc();
    for kind in [0x1000, 0x2000, 0x3000, 0x4000, 0x5000] {
        for other in [0x1000, 0x2000, 0x3000, 0x4000, 0x5000] {
            let asked = answers_of(&rt, alloc, kind, 7, true, other);
            assert!(rt; asked == (kind == other, true, true), "{kind} {other}");
        }
        let none = answers(&rt, alloc, set_of(kind, None), kind);
        assert!(rt; none == (false, false, true), "{kind}");
    }
}
