//! Calls of clients, and what they do to streams.
ghost use Rattle.std.specs.Prelude.{◌≡◌, ◌≤◌, ◌+◌, ◌∷◌, [], IfOk};
ghost use Rattle.ais_values.specs.declared.kind.StreamKind.TheVariants.{Alarm, System};
ghost use Rattle.stream_config.specs.Attributes.{PassesAttrs};
ghost use Rattle.stream_config.specs.WellKnown.{default_file};
ghost use Rattle.log_service.specs.State.{IsNotified};

use ais_values::{ClassId, Duplicate, Name, Seq, Shared, Status, StreamKind, Text};
use log_service::{LogPlan, LogState, Step};
use record_print::{Header, LogRecord};
use std::alloc::{AllocError, Global};
use std::process::Abort;
use stream_config::{
    FullAction, LogFile, Mark, StreamAttrs, StreamEvent, StreamName, StreamState, well_known,
};

/// 2024-01-01 00:00:00, and its second.
const START: i64 = 1_704_067_200_000_000_000;

const SECOND: i64 = 1_704_067_200;

/// Attributes of a stream with records of 32 bytes.
fn attrs(rt: &impl Abort, alloc: Global, file: &[u8]) -> StreamAttrs {
    StreamAttrs {
        file: Text::new(alloc, file).expect(rt, "a text"),
        path: Text::new(alloc, b".").expect(rt, "a text"),
        max_file: 64,
        record_size: 32,
        ha: 0,
        action: FullAction::Wrap,
        rotated: 1,
        expr: Text::new(alloc, b"@Cr @Cb").expect(rt, "a text"),
    }
}

/// Attributes of the system stream with records of 32 bytes.
fn system(alloc: Global, max_file: u64, action: FullAction) -> Result<StreamAttrs, AllocError>
    requires least { 32 ≤ max_file }
    requires most { max_file ≤ 64 }
    ensures file { IfOk result (λ attrs. attrs.file ≡ default_file System) }
    ensures passes { IfOk result (PassesAttrs System) }
{
    let mut given = well_known(alloc, StreamKind::System)?;
    given.max_file = max_file;
    given.record_size = 32;
    given.action = action;
    given.rotated = 1;
    Ok(given)
}

/// A service with such a system stream.
fn begun(alloc: Global, max_file: u64, action: FullAction) -> Result<LogState, AllocError>
    requires least { 32 ≤ max_file }
    requires most { max_file ≤ 64 }
{
    let alarm = well_known(alloc, StreamKind::Alarm)?;
    let notification = well_known(alloc, StreamKind::Notification)?;
    let system = system(alloc, max_file, action)?;
    let mut wells = Vec::with_capacity(alloc, 3)?;
    wells.push_reserved(alarm);
    wells.push_reserved(notification);
    wells.push_reserved(system);
    let (state, _events) = LogState::new(alloc, START, Seq::from_vec(wells))?;
    Ok(state)
}

fn init(rt: &impl Abort, alloc: Global, state: &mut LogState, client: u16) -> Status {
    let step = state.init(alloc, client, START).expect(rt, "memory");
    let status = step.status;
    drop(step);
    status
}

/// The answer of a call, whether it was filtered, and the mark that it told.
type Answer = (Status, bool, Option<Mark>);

/// The answer of a step that came as it was planned.
fn answer_as_planned(rt: &impl Abort, step: Step, plan: LogPlan) -> Answer {
    let answer = (step.status, step.filtered, step.mark);
    assert!(rt; step == *plan.step());
    drop(step);
    drop(plan);
    answer
}

fn mark(since: u64, mask: u32) -> Mark {
    Mark { since, mask }
}

/// A client opens a stream, by the entry of this number. What was planned comes.
fn opens(
    rt: &impl Abort,
    alloc: Global,
    state: &mut LogState,
    client: u16,
    name: &StreamName,
    create: Option<&StreamAttrs>,
    number: u64,
) -> Answer {
    assert!(rt; state.is_call_time(START));
    let plan = state
        .plan_open_stream(alloc, client, name, create, START, number)
        .expect(rt, "memory");
    let step = state
        .open_stream(alloc, client, name, create, START, number)
        .expect(rt, "memory");
    answer_as_planned(rt, step, plan)
}

fn open(
    rt: &impl Abort,
    alloc: Global,
    state: &mut LogState,
    client: u16,
    name: &StreamName,
    create: Option<&StreamAttrs>,
) -> Status {
    opens(rt, alloc, state, client, name, create, 1).0
}

/// A client asks for the application's stream that is named by a letter.
fn asks(
    rt: &impl Abort,
    alloc: Global,
    state: &mut LogState,
    client: u16,
    letter: u8,
    asked: &StreamAttrs,
) -> Status {
    let name = app(rt, alloc, letter);
    let status = open(rt, alloc, state, client, &name, Some(asked));
    drop(name);
    status
}

/// The name of the application's stream that is named by a letter.
fn app(rt: &impl Abort, alloc: Global, letter: u8) -> StreamName {
    StreamName::App {
        name: Name::new(alloc, [letter].as_slice()).expect(rt, "a name"),
    }
}

fn header(rt: &impl Abort, alloc: Global, severity: u16) -> Header {
    Header::Generic {
        class: ClassId {
            vendor: 0,
            major: 0,
            minor: 0,
        },
        user: Name::new(alloc, b"u").expect(rt, "a name"),
        severity,
    }
}

/// Client 1 writes a record with this header to a stream. What was planned comes.
fn writes_to(
    rt: &impl Abort,
    alloc: Global,
    state: &mut LogState,
    name: &StreamName,
    flags: u32,
    header: &Header,
) -> Answer {
    let body = Text::new(alloc, b"x").expect(rt, "a text");
    assert!(rt; state.is_call_time(START));
    assert!(rt; state.has_number_left(name));
    let plan = state
        .plan_write(alloc, 1, name, flags, START, header, &body, START)
        .expect(rt, "memory");
    let step = state
        .write(alloc, 1, name, flags, START, header, &body, START)
        .expect(rt, "memory");
    answer_as_planned(rt, step, plan)
}

/// Client 1 writes a record of a severity to the system stream.
fn writes_of(
    rt: &impl Abort,
    alloc: Global,
    state: &mut LogState,
    flags: u32,
    severity: u16,
) -> Answer {
    let header = header(rt, alloc, severity);
    let answer = writes_to(rt, alloc, state, &StreamName::System, flags, &header);
    drop(header);
    answer
}

fn writes(rt: &impl Abort, alloc: Global, state: &mut LogState) -> Status {
    writes_of(rt, alloc, state, 0, 6).0
}

/// A client sets the mask of a stream, by the entry of this number. What was planned comes.
fn sets(
    rt: &impl Abort,
    alloc: Global,
    state: &mut LogState,
    client: u16,
    name: &StreamName,
    given: Mark,
) -> Answer {
    let plan = state
        .plan_set_filter(alloc, client, name, given.mask, given.since)
        .expect(rt, "memory");
    let step = state
        .set_filter(alloc, client, name, given.mask, given.since)
        .expect(rt, "memory");
    answer_as_planned(rt, step, plan)
}

/// A service with such a system stream, which client 1 has open.
fn opened(rt: &impl Abort, alloc: Global, max_file: u64, action: FullAction) -> LogState
    requires least { 32 ≤ max_file }
    requires most { max_file ≤ 64 }
{
    let mut state = begun(alloc, max_file, action).expect(rt, "memory");
    assert!(rt; init(rt, alloc, &mut state, 1) == Status::Ok);
    let status = open(rt, alloc, &mut state, 1, &StreamName::System, None);
    assert!(rt; status == Status::Ok);
    state
}

/// How many records the stream at a place has taken, and the stamp of its last file.
fn told(state: &LogState, place: u32) -> (u32, i64) {
    match state.stream_at(place) {
        None => (0, 0),
        Some(stream) => match stream.files.as_slice().last() {
            None => (0, 0),
            Some(file) => (stream.taken, file.created),
        },
    }
}

/// The last closing stamp of streams that end, and their number.
fn ends(step: &Step) -> (i64, usize) {
    let last = match step.events.as_slice().last() {
        Some(StreamEvent::Ended { closed, .. }) => *closed,
        _ => 0,
    };
    (last, step.events.as_slice().len())
}

/// Client 2 closes the application's stream that is named by a letter.
fn closes(rt: &impl Abort, alloc: Global, state: &mut LogState, letter: u8) -> (i64, usize) {
    let name = app(rt, alloc, letter);
    assert!(rt; state.is_call_time(START));
    let plan = state
        .plan_close(alloc, 2, &name, START)
        .expect(rt, "memory");
    let step = state.close(alloc, 2, &name, START).expect(rt, "memory");
    drop(name);
    ends_as_planned(rt, step, plan)
}

/// The ends of streams in a step that came as it was planned.
fn ends_as_planned(rt: &impl Abort, step: Step, plan: LogPlan) -> (i64, usize) {
    let told = ends(&step);
    assert!(rt; step == *plan.step());
    drop(step);
    drop(plan);
    told
}

fn closes_all(rt: &impl Abort, alloc: Global, state: &mut LogState, client: u16) -> (i64, usize) {
    assert!(rt; state.is_call_time(START));
    let plan = state
        .plan_close_all(alloc, client, START)
        .expect(rt, "memory");
    let step = state.close_all(alloc, client, START).expect(rt, "memory");
    ends_as_planned(rt, step, plan)
}

/// The record of an alarm.
fn notified(rt: &impl Abort, alloc: Global) -> LogRecord
    ensures { IsNotified Alarm result }
{
    LogRecord {
        time: START,
        header: Header::Ntf {
            id: 1,
            event_type: 16_385,
            object: Name::new(alloc, b"node1").expect(rt, "a name"),
            notifier: Name::new(alloc, b"hw").expect(rt, "a name"),
            class: ClassId {
                vendor: 1,
                major: 2,
                minor: 3,
            },
            event_time: START,
        },
        body: Text::new(alloc, b"fan").expect(rt, "a text"),
    }
}

/// Stores the record of an alarm, as planned.
fn stores(rt: &impl Abort, alloc: Global, state: &mut LogState, rec: &LogRecord) -> Status
    requires { IsNotified Alarm rec.now }
{
    assert!(rt; state.is_call_time(START));
    assert!(rt; state.has_number_left(&StreamName::Alarm));
    let plan = state
        .plan_store(alloc, StreamKind::Alarm, rec, START)
        .expect(rt, "memory");
    let status = plan.step().status;
    state.commit(plan);
    status
}

/// The alarm stream, made at the second 7.
fn alarm_state(rt: &impl Abort, alloc: Global) -> StreamState
    ensures name { result.name ≡ StreamName.Alarm }
    ensures passes { PassesAttrs Alarm result.attrs }
    ensures few { result.opened ≤ result.taken + 1 }
{
    let mut files = Seq::new(alloc);
    let first = LogFile {
        created: 7,
        closed: None,
        first: 0,
        bytes: 0,
    };
    files.push(first).expect(rt, "memory");
    let attrs = well_known(alloc, StreamKind::Alarm).expect(rt, "memory");
    StreamState {
        name: StreamName::Alarm,
        attrs: Shared::new(alloc, attrs).expect(rt, "memory"),
        taken: 0,
        opened: 1,
        files,
    }
}

/// A stream takes so many records, and then answers so. Its last file has this stamp then.
fn plays(
    rt: &impl Abort,
    alloc: Global,
    max_file: u64,
    action: FullAction,
    taken: u32,
    created: i64,
) -> Status
    requires least { 32 ≤ max_file }
    requires most { max_file ≤ 64 }
{
    let mut state = opened(rt, alloc, max_file, action);
    for _ in 0..taken {
        assert!(rt; writes(rt, alloc, &mut state) == Status::Ok);
    }
    assert!(rt; told(&state, 2) == (taken, created));
    let status = writes(rt, alloc, &mut state);
    drop(state);
    status
}

/// A stream that halts takes two records; one that wraps takes five in one file; one that rotates has changed its
/// file twice when it has the third.
#[test]
fn full_streams_halt_wrap_or_rotate(rt: HostRuntime) {
    let alloc = rt.alloc();
    let halts = plays(&rt, alloc, 64, FullAction::Halt, 2, SECOND + 2);
    assert!(rt; halts == Status::NoSpace);
    let wraps = plays(&rt, alloc, 64, FullAction::Wrap, 5, SECOND + 2);
    assert!(rt; wraps == Status::Ok);
    let rotates = plays(&rt, alloc, 32, FullAction::Rotate, 3, SECOND + 6);
    assert!(rt; rotates == Status::Ok);
}

/// Two clients ask for streams of applications.
fn asked(rt: &impl Abort, alloc: Global, state: &mut LogState) {
    let one = attrs(rt, alloc, b"one");
    let two = attrs(rt, alloc, b"two");
    assert!(rt; asks(rt, alloc, state, 1, b'a', &one) == Status::Ok);
    assert!(rt; asks(rt, alloc, state, 2, b'a', &one) == Status::Ok);
    assert!(rt; asks(rt, alloc, state, 1, b'a', &two) == Status::Exist);
    assert!(rt; asks(rt, alloc, state, 1, b'b', &one) == Status::Exist);
    assert!(rt; asks(rt, alloc, state, 1, b'b', &two) == Status::Ok);
    assert!(rt; asks(rt, alloc, state, 3, b'c', &two) == Status::BadHandle);
    drop(one);
    drop(two);
}

/// Streams of applications are made, asked for again, and end when nobody has them open.
#[test]
fn application_streams_end_when_nobody_has_them_open(rt: HostRuntime) {
    let alloc = rt.alloc();
    let mut state = opened(&rt, alloc, 64, FullAction::Wrap);
    assert!(rt; init(&rt, alloc, &mut state, 2) == Status::Ok);
    asked(&rt, alloc, &mut state);
    assert!(rt; told(&state, 3) == (0, SECOND + 3) && told(&state, 4) == (0, SECOND + 4));
    assert!(rt; state.openers_at(3) == Some([1, 2].as_slice()));
    assert!(rt; closes(&rt, alloc, &mut state, b'a') == (0, 0));
    assert!(rt; closes_all(&rt, alloc, &mut state, 1) == (SECOND + 6, 2));
    assert!(rt; state.count() == 3 && state.users() == [2].as_slice());
    assert!(rt; state.last_stamp() == SECOND + 6);
    drop(state);
}

/// Whether the application's stream of this letter ends with this closing stamp.
fn is_end(event: &StreamEvent, letter: u8, stamp: i64) -> bool {
    match event {
        StreamEvent::Ended { before, closed } => match &before.name {
            StreamName::App { name } => name.as_slice() == [letter].as_slice() && *closed == stamp,
            _ => false,
        },
        _ => false,
    }
}

/// Client 1 closes all that it has open: whether the streams of two letters end then, one behind the other. A copy of
/// the step is equal to it.
fn end_in_order(
    rt: &impl Abort,
    alloc: Global,
    state: &mut LogState,
    first: (u8, i64),
    second: (u8, i64),
) -> bool {
    assert!(rt; state.is_call_time(START));
    let step = state.close_all(alloc, 1, START).expect(rt, "memory");
    let in_order = match step.events.as_slice() {
        [one, other] => is_end(one, first.0, first.1) && is_end(other, second.0, second.1),
        _ => false,
    };
    let copy = step.copy(alloc).expect(rt, "memory");
    let equal = copy == step;
    drop(copy);
    drop(step);
    in_order && equal
}

/// A client makes the application's stream that is named by a letter.
fn makes(rt: &impl Abort, alloc: Global, state: &mut LogState, client: u16, letter: u8) {
    let own = attrs(rt, alloc, [letter].as_slice());
    assert!(rt; asks(rt, alloc, state, client, letter, &own) == Status::Ok);
    drop(own);
}

/// Streams end in the order in which they were made, and not in that of their names. One that another client has
/// open stays.
#[test]
fn streams_end_in_order_of_creation(rt: HostRuntime) {
    let alloc = rt.alloc();
    let mut state = opened(&rt, alloc, 64, FullAction::Wrap);
    assert!(rt; init(&rt, alloc, &mut state, 2) == Status::Ok);
    for (client, letter) in [(1, b'c'), (1, b'a'), (1, b'b'), (2, b'a')] {
        makes(&rt, alloc, &mut state, client, letter);
    }
    let ends = end_in_order(
        &rt,
        alloc,
        &mut state,
        (b'c', SECOND + 6),
        (b'b', SECOND + 7),
    );
    assert!(rt; ends && state.count() == 4 && state.openers_at(3) == Some([2].as_slice()));
    assert!(rt; state.last_stamp() == SECOND + 7);
    drop(state);
}

/// The 65th stream of an application is refused.
#[test]
fn holds_64_application_streams(rt: HostRuntime) {
    let alloc = rt.alloc();
    let mut state = opened(&rt, alloc, 64, FullAction::Wrap);
    for place in 0..64u8 {
        let file = [97 + place / 8, 97 + place % 8];
        let own = attrs(&rt, alloc, file.as_slice());
        assert!(rt; asks(&rt, alloc, &mut state, 1, place + 60, &own) == Status::Ok);
        drop(own);
    }
    let own = attrs(&rt, alloc, b"own");
    assert!(rt; asks(&rt, alloc, &mut state, 1, b' ', &own) == Status::NoResources);
    drop(own);
    assert!(rt; state.count() == 67);
    drop(state);
}

/// The record of a notification is stored in the stream of its kind.
#[test]
fn notifications_are_stored_in_the_stream_of_their_kind(rt: HostRuntime) {
    let alloc = rt.alloc();
    let rec = notified(&rt, alloc);
    let mut state = opened(&rt, alloc, 64, FullAction::Wrap);
    assert!(rt; stores(&rt, alloc, &mut state, &rec) == Status::Ok);
    assert!(rt; told(&state, 0) == (1, SECOND) && told(&state, 1) == (0, SECOND + 1));
    drop(state);
    drop(rec);
}

/// One element alone.
fn alone<T: Drop>(rt: &impl Abort, alloc: Global, value: T) -> Seq<T>
    ensures { result ≡ value ∷ [] }
{
    let mut all = Seq::new(alloc);
    all.push(value).expect(rt, "memory");
    all
}

/// A state of this stream alone, which client 1, the one user, has open, with this mark.
fn again(rt: &impl Abort, alloc: Global, stream: StreamState, mark: Mark) -> LogState
    requires name { stream.name ≡ StreamName.Alarm }
    requires passes { PassesAttrs Alarm stream.attrs }
    requires few { stream.opened ≤ stream.taken + 1 }
{
    let users = alone(rt, alloc, 1);
    let streams = alone(rt, alloc, stream);
    let openers = alone(rt, alloc, alone(rt, alloc, 1));
    let marks = alone(rt, alloc, mark);
    LogState::rebuild(alloc, 7, users, streams, openers, marks).expect(rt, "memory")
}

/// A state is made again of its parts.
#[test]
fn a_state_is_made_again_of_its_parts(rt: HostRuntime) {
    let alloc = rt.alloc();
    let stream = alarm_state(&rt, alloc);
    let state = again(&rt, alloc, stream, mark(3, 64));
    assert!(rt; state.last_stamp() == 7 && state.users() == [1].as_slice());
    assert!(rt; told(&state, 0) == (0, 7) && state.count() == 1);
    assert!(rt; state.mark_at(0) == Some(mark(3, 64)) && state.mark_at(1).is_none());
    drop(state);
}

/// A mask lets these severities pass alone: a write of each other one is ok, filtered and not stored. Each tells the
/// mark.
fn lets_pass(rt: &impl Abort, alloc: Global, mask: u32, passing: [bool; 7]) -> bool {
    let mut state = opened(rt, alloc, 64, FullAction::Wrap);
    let given = mark(5, mask);
    let set = sets(rt, alloc, &mut state, 1, &StreamName::System, given);
    let mut same = set == (Status::Ok, false, Some(given));
    let mut taken = 0u32;
    let mut severity = 0u16;
    for passes in passing {
        let answer = writes_of(rt, alloc, &mut state, 0, severity);
        taken = taken.saturating_add(u32::from(passes));
        severity = severity.saturating_add(1);
        same = same && answer == (Status::Ok, !passes, Some(given)) && told(&state, 2).0 == taken;
    }
    drop(state);
    same
}

#[test]
fn masks_let_severities_pass(rt: HostRuntime) {
    let table = [
        (127, [true, true, true, true, true, true, true]),
        (0, [false, false, false, false, false, false, false]),
        (1, [true, false, false, false, false, false, false]),
        (8, [false, false, false, true, false, false, false]),
        (64, [false, false, false, false, false, false, true]),
        (63, [true, true, true, true, true, true, false]),
        (85, [true, false, true, false, true, false, true]),
    ];
    for (mask, passing) in table {
        let same = lets_pass(&rt, rt.alloc(), mask, passing);
        assert!(rt; same, "{mask}");
    }
}

/// A record of a filtered severity is ok on a stream that is full, and refused only for what comes before the mask.
#[test]
fn a_filtered_record_is_ok_on_a_full_stream(rt: HostRuntime) {
    let alloc = rt.alloc();
    let mut state = opened(&rt, alloc, 32, FullAction::Halt);
    let first = Some(mark(0, 127));
    assert!(rt; writes_of(&rt, alloc, &mut state, 1, 6) == (Status::Ok, false, first));
    let given = mark(9, 63);
    let set = sets(&rt, alloc, &mut state, 1, &StreamName::System, given);
    assert!(rt; set == (Status::Ok, false, Some(given)));
    let table = [
        (0, 6, (Status::Ok, true, Some(given))),
        (1, 6, (Status::Ok, true, Some(given))),
        (0, 5, (Status::NoSpace, false, None)),
        (2, 6, (Status::BadFlags, false, None)),
        (0, 7, (Status::InvalidParam, false, None)),
    ];
    for (flags, severity, expected) in table {
        let answer = writes_of(&rt, alloc, &mut state, flags, severity);
        assert!(rt; answer == expected, "{flags} {severity}");
    }
    assert!(rt; told(&state, 2).0 == 1);
    drop(state);
}

fn well_known_name(kind: StreamKind) -> StreamName {
    match kind {
        StreamKind::Alarm => StreamName::Alarm,
        StreamKind::Notification => StreamName::Notification,
        StreamKind::System | StreamKind::Application => StreamName::System,
    }
}

/// Which masks a client may set on which stream. One that is refused leaves the mark.
#[test]
fn masks_that_are_refused_leave_the_mark(rt: HostRuntime) {
    let alloc = rt.alloc();
    let mut state = opened(&rt, alloc, 64, FullAction::Wrap);
    assert!(rt; init(&rt, alloc, &mut state, 2) == Status::Ok);
    assert!(rt; open(&rt, alloc, &mut state, 1, &StreamName::Alarm, None) == Status::Ok);
    let table = [
        (1, StreamKind::System, 128, Status::InvalidParam),
        (1, StreamKind::System, u32::MAX, Status::InvalidParam),
        (1, StreamKind::Alarm, 1, Status::InvalidParam),
        (1, StreamKind::Alarm, 128, Status::InvalidParam),
        (1, StreamKind::Notification, 1, Status::BadHandle),
        (2, StreamKind::System, 1, Status::BadHandle),
        (3, StreamKind::System, 128, Status::BadHandle),
    ];
    for (client, kind, mask, status) in table {
        let name = well_known_name(kind);
        let answer = sets(&rt, alloc, &mut state, client, &name, mark(4, mask));
        drop(name);
        assert!(rt; answer == (status, false, None), "{client} {kind:?} {mask}");
    }
    for place in 0..3 {
        assert!(rt; state.mark_at(place) == Some(mark(0, 127)));
    }
    drop(state);
}

/// No mask stops a record with the header of a notification.
#[test]
fn no_mask_stops_notified_records(rt: HostRuntime) {
    let alloc = rt.alloc();
    let rec = notified(&rt, alloc);
    let mut state = again(&rt, alloc, alarm_state(&rt, alloc), mark(3, 0));
    let answer = writes_to(&rt, alloc, &mut state, &StreamName::Alarm, 0, &rec.header);
    assert!(rt; answer == (Status::Ok, false, Some(mark(3, 0))) && told(&state, 0).0 == 1);
    drop(state);
    drop(rec);
}

/// Client 1 opens an application's stream by the entry 6, client 2 by the entry 7, and sets its mask by the entry 8.
fn opened_and_set(rt: &impl Abort, alloc: Global, state: &mut LogState, name: &StreamName) -> bool {
    let own = attrs(rt, alloc, b"own");
    let made = (Status::Ok, false, Some(mark(6, 127)));
    let first = opens(rt, alloc, state, 1, name, Some(&own), 6);
    drop(own);
    let second = opens(rt, alloc, state, 2, name, None, 7);
    let set = sets(rt, alloc, state, 2, name, mark(8, 5));
    let third = opens(rt, alloc, state, 1, name, None, 9);
    let given = (Status::Ok, false, Some(mark(8, 5)));
    first == made && second == made && set == given && third == given
}

/// A stream that is made lets all severities pass, and keeps its mask while it lives.
#[test]
fn application_streams_keep_their_mark_while_they_live(rt: HostRuntime) {
    let alloc = rt.alloc();
    let mut state = opened(&rt, alloc, 64, FullAction::Wrap);
    assert!(rt; init(&rt, alloc, &mut state, 2) == Status::Ok);
    let name = app(&rt, alloc, b'a');
    let first = opened_and_set(&rt, alloc, &mut state, &name);
    assert!(rt; first && state.mark_at(3) == Some(mark(8, 5)) && state.mark_at(4).is_none());
    assert!(rt; closes(&rt, alloc, &mut state, b'a') == (0, 0));
    assert!(rt; closes_all(&rt, alloc, &mut state, 1) == (SECOND + 4, 1));
    assert!(rt; init(&rt, alloc, &mut state, 1) == Status::Ok);
    let again = opened_and_set(&rt, alloc, &mut state, &name);
    drop(name);
    assert!(rt; again);
    drop(state);
}
