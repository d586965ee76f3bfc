//! The values that plans tell. Want of memory ends the test.
use super::plan::{
    ALARMS_BY_SOURCE, AlarmPlan, EMPTY, HALT, NONE, OBJECTS_BY_CAUSE, OBJECTS_TOO, Plan,
    ReaderPlan, StreamPlan, SubPlan, WRAP, WindowPlan, reader, stream, sub,
};
use ais_values::{ClassId, Name, Seq, Shared, Text};
use calls::{Reply, Saved, SavedAlarm, SavedReader, SavedStream, SavedSub, SavedWindow};
use ntf_filters::{Filter, FilterSet};
use ntf_types::{Body, Notification};
use std::alloc::Global;
use std::process::Abort;
use stream_config::{FullAction, LogFile, Mark, StreamAttrs, StreamName, StreamState};
use sub_queue::{Content, Lost};

fn text(rt: &impl Abort, alloc: Global, bytes: &[u8]) -> Text {
    Text::new(alloc, bytes).expect(rt, "a text")
}

fn name(rt: &impl Abort, alloc: Global, bytes: &[u8]) -> Name {
    Name::new(alloc, bytes).expect(rt, "a name")
}

/// The clients that are there.
fn clients(rt: &impl Abort, alloc: Global, plan: &[u16]) -> Seq<u16> {
    let mut list = Seq::new(alloc);
    for client in plan {
        if *client != NONE {
            list.push(*client).expect(rt, "memory");
        }
    }
    list
}

fn replies(rt: &impl Abort, alloc: Global, count: u32) -> Seq<Reply> {
    let mut list = Seq::new(alloc);
    for _ in 0..count {
        list.push(Reply::Done).expect(rt, "memory");
    }
    list
}

fn windows(rt: &impl Abort, alloc: Global, plans: &[WindowPlan]) -> Seq<SavedWindow> {
    let mut list = Seq::new(alloc);
    for plan in plans {
        let window = SavedWindow {
            client: plan.client,
            next: plan.next,
            replies: replies(rt, alloc, plan.replies),
        };
        list.push(window).expect(rt, "memory");
    }
    list
}

fn stream_name(rt: &impl Abort, alloc: Global, code: u8) -> StreamName {
    match code {
        0 => StreamName::Alarm,
        1 => StreamName::Notification,
        2 => StreamName::System,
        _ => StreamName::App {
            name: name(rt, alloc, &[code]),
        },
    }
}

fn action(code: u8) -> FullAction {
    match code {
        WRAP => FullAction::Wrap,
        HALT => FullAction::Halt,
        _ => FullAction::Rotate,
    }
}

fn attrs(rt: &impl Abort, alloc: Global, plan: &StreamPlan) -> StreamAttrs {
    StreamAttrs {
        file: text(rt, alloc, &[plan.file]),
        path: text(rt, alloc, &[plan.path]),
        max_file: plan.max,
        record_size: plan.record,
        ha: plan.ha,
        action: action(plan.action),
        rotated: plan.rotated,
        expr: text(rt, alloc, &[b'@', b'C', plan.field]),
    }
}

fn files(rt: &impl Abort, alloc: Global, plan: &StreamPlan) -> Seq<LogFile> {
    let mut list = Seq::new(alloc);
    for place in 0..plan.files.min(2) {
        let closed = plan.closed[place];
        let file = LogFile {
            created: plan.created[place],
            closed: if closed == 0 { None } else { Some(closed) },
            first: plan.first[place],
            bytes: plan.bytes[place],
        };
        list.push(file).expect(rt, "memory");
    }
    list
}

fn built_stream(
    rt: &impl Abort,
    alloc: Global,
    plan: &StreamPlan,
    attrs: StreamAttrs,
) -> SavedStream {
    SavedStream {
        state: StreamState {
            name: stream_name(rt, alloc, plan.name),
            attrs: Shared::new(alloc, attrs).expect(rt, "memory"),
            taken: plan.taken,
            opened: plan.opened,
            files: files(rt, alloc, plan),
        },
        openers: clients(rt, alloc, &plan.openers),
        mark: Mark {
            since: plan.since,
            mask: plan.mask,
        },
    }
}

/// The streams, and so many more of applications, whose names are the bytes from `!` on.
fn streams(rt: &impl Abort, alloc: Global, plans: &[StreamPlan], more: u8) -> Seq<SavedStream> {
    let mut list = Seq::new(alloc);
    for plan in plans {
        let attrs = attrs(rt, alloc, plan);
        list.push(built_stream(rt, alloc, plan, attrs))
            .expect(rt, "memory");
    }
    for place in 0..more.min(63) {
        let letter = 33 + place;
        let mut plan = stream(letter, b'x', WRAP, 0);
        plan.openers = [1, 2];
        let mut attrs = attrs(rt, alloc, &plan);
        attrs.path = long_path(rt, alloc, place);
        list.push(built_stream(rt, alloc, &plan, attrs))
            .expect(rt, "memory");
    }
    list
}

/// A path of two letters for each number.
fn long_path(rt: &impl Abort, alloc: Global, place: u8) -> Text {
    text(rt, alloc, &[b'a' + place % 26, b'a' + place / 26])
}

fn body(event_type: u16, severity: u16, alloc: Global) -> Body {
    if event_type < 0x4000 {
        Body::Objects {
            source: 1,
            attrs: Seq::new(alloc),
        }
    } else {
        Body::Alarm { cause: 1, severity }
    }
}

fn notification(rt: &impl Abort, alloc: Global, plan: &AlarmPlan) -> Notification {
    Notification {
        id: plan.id,
        event_type: plan.event_type,
        object: name(rt, alloc, b"object"),
        notifier: name(rt, alloc, b"notifier"),
        class: ClassId {
            vendor: 1,
            major: 2,
            minor: 3,
        },
        event_time: plan.time,
        correlated: Seq::new(alloc),
        text: text(rt, alloc, b""),
        info: Seq::new(alloc),
        body: body(plan.event_type, plan.severity, alloc),
    }
}

fn alarms(rt: &impl Abort, alloc: Global, plans: &[AlarmPlan]) -> Seq<SavedAlarm> {
    let mut list = Seq::new(alloc);
    for plan in plans {
        let alarm = SavedAlarm {
            k: plan.k,
            notification: Shared::new(alloc, notification(rt, alloc, plan)).expect(rt, "memory"),
        };
        list.push(alarm).expect(rt, "memory");
    }
    list
}

/// A filter that asks for all, or for those of a source or a cause.
fn filter(rt: &impl Abort, alloc: Global, by_source: bool, by_cause: bool) -> Filter {
    let mut sources = Seq::new(alloc);
    if by_source {
        sources.push(1).expect(rt, "memory");
    }
    let mut causes = Seq::new(alloc);
    if by_cause {
        causes.push(1).expect(rt, "memory");
    }
    Filter {
        types: Seq::new(alloc),
        objects: Seq::new(alloc),
        notifiers: Seq::new(alloc),
        classes: Seq::new(alloc),
        sources,
        causes,
        severities: Seq::new(alloc),
    }
}

fn objects_filter(rt: &impl Abort, alloc: Global, code: u8) -> Option<Filter> {
    if code == OBJECTS_TOO || code == OBJECTS_BY_CAUSE {
        Some(filter(rt, alloc, false, code == OBJECTS_BY_CAUSE))
    } else {
        None
    }
}

fn alarms_filter(rt: &impl Abort, alloc: Global, code: u8) -> Option<Filter> {
    if code == EMPTY {
        None
    } else {
        Some(filter(rt, alloc, code == ALARMS_BY_SOURCE, false))
    }
}

fn filters(rt: &impl Abort, alloc: Global, code: u8) -> FilterSet {
    FilterSet {
        objects: objects_filter(rt, alloc, code),
        attributes: None,
        states: None,
        alarms: alarms_filter(rt, alloc, code),
        security: None,
    }
}

fn shared_filters(rt: &impl Abort, alloc: Global, code: u8) -> Shared<FilterSet> {
    Shared::new(alloc, filters(rt, alloc, code)).expect(rt, "memory")
}

fn lost(rt: &impl Abort, alloc: Global, count: u32) -> Seq<Lost> {
    let mut list = Seq::new(alloc);
    for place in 0..count {
        let mark = Lost {
            kind: 0x4000,
            id: u64::from(place),
        };
        list.push(mark).expect(rt, "memory");
    }
    list
}

fn held(rt: &impl Abort, alloc: Global, count: u32) -> Seq<Content> {
    let mut list = Seq::new(alloc);
    for _ in 0..count {
        let content = Content::Discarded {
            lost: lost(rt, alloc, 1),
        };
        list.push(content).expect(rt, "memory");
    }
    list
}

fn built_sub(rt: &impl Abort, alloc: Global, plan: &SubPlan) -> SavedSub {
    SavedSub {
        client: plan.client,
        key: plan.key,
        id: plan.id,
        filters: shared_filters(rt, alloc, plan.filters),
        first: plan.first,
        held: held(rt, alloc, plan.held),
        lost: lost(rt, alloc, plan.lost),
    }
}

/// The subscriptions, and so many more of the second client.
fn subs(rt: &impl Abort, alloc: Global, plans: &[SubPlan], more: u32) -> Seq<SavedSub> {
    let mut list = Seq::new(alloc);
    for plan in plans {
        list.push(built_sub(rt, alloc, plan)).expect(rt, "memory");
    }
    for place in 0..more.min(100) {
        let plan = sub(2, place + 1, place + 1);
        list.push(built_sub(rt, alloc, &plan)).expect(rt, "memory");
    }
    list
}

fn built_reader(rt: &impl Abort, alloc: Global, plan: &ReaderPlan) -> SavedReader {
    SavedReader {
        client: plan.client,
        filters: shared_filters(rt, alloc, plan.filters),
        time: 0,
        id: 0,
        fresh: true,
    }
}

/// The readers that are there, and so many more of the clients from the third on.
fn readers(rt: &impl Abort, alloc: Global, plans: &[ReaderPlan], more: u16) -> Seq<SavedReader> {
    let mut list = Seq::new(alloc);
    for plan in plans {
        if plan.client != NONE {
            list.push(built_reader(rt, alloc, plan))
                .expect(rt, "memory");
        }
    }
    for place in 0..more.min(100) {
        let plan = reader(3 + place, 1);
        list.push(built_reader(rt, alloc, &plan))
            .expect(rt, "memory");
    }
    list
}

/// The users, and so many more from the third client on.
fn users(rt: &impl Abort, alloc: Global, plan: &[u16], more: u16) -> Seq<u16> {
    let mut list = clients(rt, alloc, plan);
    for place in 0..more.min(100) {
        list.push(3 + place).expect(rt, "memory");
    }
    list
}

/// The value that a plan tells.
pub(crate) fn built(rt: &impl Abort, alloc: Global, plan: &Plan) -> Saved {
    Saved {
        number: plan.number,
        last_stamp: plan.last_stamp,
        last_id: plan.last_id,
        capacity: plan.capacity,
        log_users: clients(rt, alloc, &plan.log_users),
        ntf_users: users(rt, alloc, &plan.ntf_users, plan.more_readers),
        windows: windows(rt, alloc, &plan.windows),
        streams: streams(rt, alloc, &plan.streams, plan.more_streams),
        alarms: alarms(rt, alloc, &plan.alarms),
        subs: subs(rt, alloc, &plan.subs, plan.more_subs),
        readers: readers(rt, alloc, &plan.readers, plan.more_readers),
    }
}
