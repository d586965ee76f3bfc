//! That calls succeed while there is memory, with what the rules say of a few values.
use crate::fixtures::{alarm, alarms_by};
use ais_values::{Status, UNKNOWN_TIME};
use alarm_view::AlarmView;
use calls::{Reply, SavedReader};
use client_window::Judged;
use ntf_service::is_alarm;
use service_parts::{
    Told, accepted, answer_call, end_reading, judge_call, next_call, read_on, record_for, room_for,
    start_reading, stop_reader,
};
use std::alloc::Global;
use std::process::Abort;
use stream_config::Mark;

/// The stored alarms are one of id 1, at the time 100.
fn one_alarm(rt: &impl Abort, alloc: Global) -> AlarmView {
    let mut view = AlarmView::new(alloc);
    let alarm = alarm(rt, alloc, 1, 100, 4);
    view.add(0, alarm).expect(rt, "memory");
    view
}

/// What client 5, which uses the service, is answered where it starts a reader.
fn start(
    rt: &impl Abort,
    alloc: Global,
    view: &AlarmView,
    readers: &mut Vec<SavedReader>,
    code: u32,
    value: i64,
) -> Status {
    let filters = alarms_by(rt, alloc, &[]);
    let started = start_reading(alloc, view, readers, true, 5, code, value, &filters);
    drop(filters);
    started.expect(rt, "memory")
}

/// The id that a read of client 5 tells, and 0 where it is refused as one that finds nothing.
fn read(rt: &impl Abort, alloc: Global, view: &AlarmView, readers: &mut Vec<SavedReader>) -> u64 {
    let told = read_on(alloc, view, readers, true, 5, 2).expect(rt, "memory");
    let id = match &told.reply {
        Reply::Found { notification } => notification.get().id,
        Reply::Refused { status } if *status == Status::NotExist => 0,
        _ => 99,
    };
    drop(told);
    id
}

#[test]
fn a_reader_reads_the_stored_alarm_once(rt: HostRuntime) {
    let alloc = rt.alloc();
    let view = one_alarm(&rt, alloc);
    let mut readers = Vec::new(alloc);
    let missing = start(&rt, alloc, &view, &mut readers, 5, 100);
    let started = start(&rt, alloc, &view, &mut readers, 3, 100);
    let again = start(&rt, alloc, &view, &mut readers, 7, 0);
    let first = read(&rt, alloc, &view, &mut readers);
    let second = read(&rt, alloc, &view, &mut readers);
    let ended = end_reading(&mut readers, true, 5);
    let absent = end_reading(&mut readers, true, 5);
    drop(view);
    drop(readers);
    assert!(rt; missing == Status::NotExist);
    assert!(rt; started == Status::Ok);
    assert!(rt; again == Status::NoResources);
    assert!(rt; (first, second) == (1, 0));
    assert!(rt; ended == Status::Ok);
    assert!(rt; absent == Status::BadHandle);
}

#[test]
fn a_reader_stops_with_its_client(rt: HostRuntime) {
    let alloc = rt.alloc();
    let view = one_alarm(&rt, alloc);
    let mut readers = Vec::new(alloc);
    let started = start(&rt, alloc, &view, &mut readers, 7, 0);
    let before = readers.len();
    stop_reader(&mut readers, 5);
    let after = readers.len();
    drop(view);
    drop(readers);
    assert!(rt; started == Status::Ok);
    assert!(rt; (before, after) == (1, 0));
}

#[test]
fn the_moment_of_acceptance_is_filled_in(rt: HostRuntime) {
    let alloc = rt.alloc();
    for (time, want) in [(UNKNOWN_TIME, 50), (0, 0), (70, 70)] {
        let given = alarm(&rt, alloc, 1, time, 4);
        let taken = accepted(alloc, 7, 50, &given).expect(&rt, "memory");
        let rec = record_for(alloc, 50, &taken).expect(&rt, "memory");
        let told = (taken.id, taken.event_time, rec.time, is_alarm(&taken.body));
        drop(given);
        drop(taken);
        drop(rec);
        assert!(rt; told == (7, want, 50, true));
    }
}

/// Whether the replies of a status are these.
fn tells(told: Told, status: Status) -> bool {
    let kept = Reply::Refused { status };
    let same = told.reply == kept && told.kept == kept;
    drop(told);
    drop(kept);
    same
}

#[test]
fn a_reply_is_told_twice(rt: HostRuntime) {
    assert!(rt; tells(Told::refused(Status::Exist), Status::Exist));
    assert!(rt; !tells(Told::done(), Status::Ok));
    assert!(rt; !tells(Told::sent(3), Status::Ok));
    assert!(rt; !tells(Told::marked(true, Mark::first()), Status::Ok));
}

#[test]
fn a_first_call_is_answered(rt: HostRuntime) {
    let alloc = rt.alloc();
    let mut callers = Vec::new(alloc);
    let first = next_call(callers.as_slice(), 9);
    let fresh = room_for(alloc, &mut callers, 9).expect(&rt, "memory");
    answer_call(&mut callers, 9, fresh, Reply::Done);
    let second = next_call(callers.as_slice(), 9);
    let repeated = matches!(judge_call(callers.as_slice(), 9, 1), Judged::Repeat { .. });
    let new = matches!(judge_call(callers.as_slice(), 9, 2), Judged::New);
    drop(callers);
    assert!(rt; (first, second) == (1, 2));
    assert!(rt; repeated && new);
}
