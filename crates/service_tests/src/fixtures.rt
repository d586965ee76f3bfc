//! Values that several tests begin with.
ghost use Rattle.std.specs.Prelude.{◌≡◌};
ghost use Rattle.alarm_view.specs.Alarms.{IsAlarm};

use ais_values::{ClassId, Name, Seq, Text};
use ntf_filters::{Filter, FilterSet};
use ntf_types::{Body, Notification};
use std::alloc::Global;
use std::process::Abort;

pub(crate) const CLASS: ClassId = ClassId {
    vendor: 1,
    major: 2,
    minor: 3,
};

/// A notification without information, of no time.
pub(crate) fn notification(
    rt: &impl Abort,
    alloc: Global,
    event_type: u16,
    body: Body,
) -> Notification {
    Notification {
        id: 0,
        event_type,
        object: Name::new(alloc, b"object").expect(rt, "memory"),
        notifier: Name::new(alloc, b"notifier").expect(rt, "memory"),
        class: CLASS,
        event_time: 0,
        correlated: Seq::new(alloc),
        text: Text::new(alloc, b"").expect(rt, "memory"),
        info: Seq::new(alloc),
        body,
    }
}

pub(crate) fn alarm(
    rt: &impl Abort,
    alloc: Global,
    id: u64,
    event_time: i64,
    severity: u16,
) -> Notification
    ensures id { result.id ≡ id }
    ensures alarm { IsAlarm result.body }
{
    Notification {
        id,
        event_type: 0x4001,
        object: Name::new(alloc, b"object").expect(rt, "memory"),
        notifier: Name::new(alloc, b"notifier").expect(rt, "memory"),
        class: CLASS,
        event_time,
        correlated: Seq::new(alloc),
        text: Text::new(alloc, b"").expect(rt, "memory"),
        info: Seq::new(alloc),
        body: Body::Alarm { cause: 1, severity },
    }
}

/// The set of filters that asks for nothing.
pub(crate) fn no_filters() -> FilterSet {
    FilterSet {
        objects: None,
        attributes: None,
        states: None,
        alarms: None,
        security: None,
    }
}

/// The filter that all pass which have one of these severities, or any where there are none.
pub(crate) fn filter_by(rt: &impl Abort, alloc: Global, severities: &[u16]) -> Filter {
    Filter {
        types: Seq::new(alloc),
        objects: Seq::new(alloc),
        notifiers: Seq::new(alloc),
        classes: Seq::new(alloc),
        sources: Seq::new(alloc),
        causes: Seq::new(alloc),
        severities: Seq::from_vec(severities.to_vec(alloc).expect(rt, "memory")),
    }
}

/// The filters that ask for alarms of these severities, or of all where there are none.
pub(crate) fn alarms_by(rt: &impl Abort, alloc: Global, severities: &[u16]) -> FilterSet {
    let mut filters = no_filters();
    filters.alarms = Some(filter_by(rt, alloc, severities));
    filters
}
