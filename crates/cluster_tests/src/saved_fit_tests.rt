//! A value that keeps all rules is fit, and for each rule one that breaks it alone is not. A service is made again
//! of those that are fit.
mod building;
mod plan;

use building::built;
use calls::{Boxed, Saved};
use mirror::{Node, Role, let_node_go};
use plan::{
    ALARMS, ALARMS_BY_SOURCE, EMPTY, NONE, OBJECTS_BY_CAUSE, OBJECTS_TOO, Plan, StreamPlan, alarm,
    reader, sound, stream, sub, window,
};
use saved_fit::is_fit;
use service_core::Service;
use std::alloc::Global;
use std::process::Abort;
use wire::{Message, let_message_go};

/// Lets a service go, with a server that has it.
fn let_service_go(alloc: Global, service: Service) {
    let_node_go(Node::start(alloc, Role::Active, service));
}

/// Whether a service is made again of a value.
fn is_restored(alloc: Global, value: &Saved) -> bool {
    match Service::restore(alloc, value) {
        Ok(service) => {
            let_service_go(alloc, service);
            true
        }
        Err(_) => false,
    }
}

/// Whether the value that a plan tells is fit. Just then a service is made again of it.
fn is_plan_fit(rt: &impl Abort, alloc: Global, plan: &Plan) -> bool {
    let value = built(rt, alloc, plan);
    let fit = is_fit(&value);
    assert!(rt; is_restored(alloc, &value) == fit);
    let saved = Boxed::new(alloc, value).expect(rt, "memory");
    let_message_go(Some(Message::Snapshot { saved }));
    fit
}

/// A stream of one file that has taken no record.
fn empty(mut stream: StreamPlan) -> StreamPlan {
    stream.taken = 0;
    stream.bytes = [0, 0];
    stream
}

/// Values at the bounds of rules.
fn at_bounds(plan: &mut Plan, case: u32) {
    match case {
        0 => plan.number = 4_000_000_000,
        1 => plan.last_id = 10,
        2 => plan.capacity = 256,
        3 => plan.capacity = 1,
        4 => plan.last_stamp = 9_000_000_118,
        5 => plan.last_stamp = 102,
        6 => plan.windows[1] = window(4096, 11, 10),
        7 => plan.streams[4] = empty(plan.streams[4]),
        8 => plan.streams[4].file = b'v',
        9 => plan.subs[0].held = 2,
        10 => plan.subs[1].first = 11,
        11 => plan.subs[1].id = 4_294_967_295,
        12 => plan.alarms[0].time = 0,
        13 => plan.streams[2].since = 10,
        14 => plan.streams[3].mask = 0,
        _ => plan.more_readers = 14,
    }
    if case == 8 {
        plan.streams[4].path = b'p';
    } else if case == 9 {
        plan.subs[0].lost = 1;
    }
}

/// Values of many entries at the bounds of rules, which one more of something breaks.
fn of_many(plan: &mut Plan, case: u32, more: u8) {
    plan.number = 100;
    plan.windows[1] = window(2, 100, 32);
    match case {
        0 => plan.more_streams = 62u8.saturating_add(more),
        1 => plan.more_subs = 62u32.saturating_add(more.into()),
        2 => plan.more_readers = 14u16.saturating_add(more.into()),
        3 => plan.windows[1].replies = 32u32.saturating_sub(more.into()),
        4 => plan.windows[0] = window(1, 34, 32u32.saturating_add(more.into())),
        _ => plan.windows[0] = window(1, 33, 32u32.saturating_sub(more.into())),
    }
}

fn break_count(plan: &mut Plan, rule: u32) {
    match rule {
        0 => plan.number = 4_000_000_001,
        1 => plan.last_id = 11,
        2 => plan.capacity = 0,
        3 => plan.capacity = 257,
        4 => plan.windows[0].replies = 2,
        5 => plan.windows[0].replies = 4,
        6 => plan.windows[0] = window(1, 12, 11),
        7 => plan.windows[1] = window(1, 4, 3),
        8 => plan.windows[1] = window(4097, 2, 1),
        9 => plan.windows = [window(0, 2, 1), window(1, 4, 3)],
        10 => plan.windows = [window(2, 2, 1), window(1, 4, 3)],
        11 => plan.windows[1] = window(2, 0, 0),
        12 => plan.last_stamp = 9_000_000_119,
        _ => plan.last_stamp = -1,
    }
}

fn break_stream(plan: &mut Plan, rule: u32) {
    match rule {
        0 => plan.log_users = [2, 1],
        1 => plan.log_users = [2, NONE],
        2 => plan.streams[3].openers = [3, NONE],
        3 => plan.streams[3].openers = [NONE, NONE],
        4 => plan.streams[2].openers = [2, 1],
        5 => plan.streams[2].openers = [1, 1],
        6 => plan.streams[3].name = b'w',
        7 => plan.streams[3].name = 2,
        8 => plan.streams[3].file = b'w',
        9 => plan.streams[0].name = 1,
        10 => plan.log_users = [1, 4097],
        _ => plan.ntf_users = [2, 1],
    }
    if rule == 9 {
        plan.streams[1].name = 0;
    } else if rule == 10 {
        plan.streams[2].openers = [1, NONE];
    }
}

/// Marks are of masks and entries that there are, and those of the alarm and the notification stream were never set.
fn break_mark(plan: &mut Plan, rule: u32) {
    match rule {
        0 => plan.streams[3].mask = 128,
        1 => plan.streams[2].since = 11,
        2 => plan.streams[0].since = 1,
        _ => plan.streams[1].mask = 126,
    }
}

fn break_attributes(plan: &mut Plan, rule: u32) {
    let attrs = &mut plan.streams[3];
    match rule {
        0 => attrs.file = b'!',
        1 => attrs.path = b'/',
        2 => attrs.field = b'?',
        3 => attrs.record = 31,
        4 => attrs.record = 65,
        5 => attrs.record = 16_385,
        6 => attrs.max = 1_073_741_825,
        7 => attrs.ha = 2,
        8 => attrs.rotated = 0,
        9 => attrs.rotated = 129,
        10 => attrs.max = 31,
        _ => attrs.record = 0,
    }
    if rule == 5 || rule == 11 {
        attrs.max = 20_000;
    }
}

fn break_files(plan: &mut Plan, rule: u32) {
    match rule {
        0 => plan.streams[3].files = 0,
        1 => plan.streams[3].files = 2,
        2 => plan.streams[4].taken = 3,
        3 => plan.streams[1].files = 2,
        4 => plan.streams[2].taken = 2,
        5 => plan.streams[2].rotated = 1,
        6 => plan.streams[2].closed = [102, 0],
        7 => plan.streams[2].closed = [100, 0],
        8 => plan.streams[2].closed = [101, 103],
        9 => plan.streams[2].closed = [0, 0],
        10 => plan.streams[3].created = [-1, 0],
        11 => plan.streams[3].created = [201, 0],
        12 => plan.streams[3].taken = 11,
        13 => plan.streams[3].opened = 2,
        14 => plan.streams[3].first = [1, 0],
        _ => plan.streams[3].bytes = [65, 0],
    }
    if rule == 1 || rule == 3 {
        plan.streams[rule as usize].closed = [101, 0];
    } else if rule == 2 {
        plan.streams[4].bytes = [96, 0];
    }
}

fn break_alarm(plan: &mut Plan, rule: u32) {
    match rule {
        0 => plan.alarms = [alarm(0, 1), alarm(2, 3)],
        1 => plan.alarms = [alarm(1, 1), alarm(3, 3)],
        2 => plan.alarms = [alarm(1, 1), alarm(1, 3)],
        3 => plan.alarms = [alarm(1, 3), alarm(2, 3)],
        4 => plan.alarms = [alarm(1, 3), alarm(2, 1)],
        5 => plan.alarms = [alarm(2, 1), alarm(1, 3)],
        6 => plan.alarms = [alarm(1, 1), alarm(2, 4)],
        7 => plan.alarms[1].time = -1,
        8 => plan.alarms[1].event_type = 0x1001,
        9 => plan.alarms[1].event_type = 0x5001,
        _ => plan.alarms[1].severity = 6,
    }
}

fn break_sub(plan: &mut Plan, rule: u32) {
    let other = &mut plan.subs[1];
    match rule {
        0 => *other = sub(1, 1, 8),
        1 => other.key = 4,
        2 => other.id = 7,
        3 => other.filters = EMPTY,
        4 => other.filters = OBJECTS_BY_CAUSE,
        5 => other.first = 0,
        6 => other.first = 12,
        7 => other.held = 3,
        8 => other.lost = 1,
        9 => plan.subs = [sub(1, 3, 8), sub(1, 1, 7)],
        10 => plan.subs = [sub(2, 1, 8), sub(1, 1, 7)],
        _ => *other = sub(2, 1, 7),
    }
    if rule == 11 {
        plan.ntf_users = [1, NONE];
        plan.readers[1].client = NONE;
    }
}

fn break_reader(plan: &mut Plan, rule: u32) {
    match rule {
        0 => plan.readers[1] = reader(1, ALARMS),
        1 => plan.readers[1] = reader(3, ALARMS),
        2 => plan.readers[1] = reader(2, EMPTY),
        3 => plan.readers[1] = reader(2, OBJECTS_TOO),
        4 => plan.readers[1] = reader(2, ALARMS_BY_SOURCE),
        _ => plan.readers = [reader(2, ALARMS), reader(1, ALARMS)],
    }
}

/// Breaks a rule of a part.
fn break_rule(plan: &mut Plan, part: u32, rule: u32) {
    match part {
        0 => break_count(plan, rule),
        1 => break_stream(plan, rule),
        2 => break_attributes(plan, rule),
        3 => break_files(plan, rule),
        4 => break_alarm(plan, rule),
        5 => break_sub(plan, rule),
        6 => break_mark(plan, rule),
        _ => break_reader(plan, rule),
    }
}

/// Each of the first so many rules of a part is broken by its change of a sound value.
fn each_breaks(rt: &impl Abort, alloc: Global, part: u32, rules: u32) {
    for rule in 0..rules {
        let mut plan = sound();
        break_rule(&mut plan, part, rule);
        let fit = is_plan_fit(rt, alloc, &plan);
        assert!(rt; !fit, "part {part}, rule {rule}");
    }
}

#[test]
fn values_at_the_bounds_of_all_rules_fit(rt: HostRuntime) {
    assert!(rt; is_plan_fit(&rt, rt.alloc(), &sound()));
    for case in 0..16 {
        let mut plan = sound();
        at_bounds(&mut plan, case);
        let fit = is_plan_fit(&rt, rt.alloc(), &plan);
        assert!(rt; fit, "case {case}");
    }
}

#[test]
fn greatest_counts_fit_and_one_more_or_a_reply_less_does_not(rt: HostRuntime) {
    for case in 0..6 {
        for more in 0..2 {
            let mut plan = sound();
            of_many(&mut plan, case, more);
            let fit = is_plan_fit(&rt, rt.alloc(), &plan);
            assert!(rt; fit == (more == 0), "case {case} with {more} more");
        }
    }
}

#[test]
fn a_value_that_breaks_one_rule_does_not_fit(rt: HostRuntime) {
    let rules = [14, 12, 12, 16, 11, 12, 4, 6];
    for part in 0..8 {
        each_breaks(&rt, rt.alloc(), part, rules[part as usize]);
    }
}

/// The two files of the system stream, which keeps no more, one row a line: the size of records, how many it has taken,
/// how many files were made of it, the first record of each and the bytes of each. A file has 64 bytes at most, or
/// 16,384 with record size 0.
const FIT_FILES: &str = "\
    32 3 2 0 2 64 32\n\
    32 4 2 0 2 64 64\n\
    32 5 3 2 4 64 32\n\
    0 3 2 0 2 2 1\n\
    0 3 2 0 1 16384 16384\n\
    0 3 3 1 2 5 5";

const UNFIT_FILES: &str = "\
    32 5 2 0 2 64 96\n\
    32 3 3 0 2 64 32\n\
    32 3 2 0 1 32 64\n\
    32 3 2 1 2 32 32\n\
    32 3 2 0 2 64 31\n\
    32 3 2 0 2 63 32\n\
    32 2 2 0 2 64 0\n\
    0 3 2 0 2 1 1\n\
    0 3 2 0 2 2 0\n\
    0 3 2 0 2 2 16385\n\
    0 3 2 0 1 16385 2\n\
    0 3 2 1 2 5 5\n\
    0 3 4 1 2 5 5\n\
    0 3 1 0 2 5 5\n\
    0 3 2 0 3 5 0\n\
    0 3 2 0 0 0 5\n\
    0 3 2 0 4 5 5";

/// The number at a place of a row.
fn number(rt: &impl Abort, row: &str, place: usize) -> u32 {
    let text = row.split(' ').nth(place).expect(rt, "a number");
    text.parse().ok().expect(rt, "a number")
}

/// Whether a value is fit whose system stream has the files of a row.
fn are_files_fit(rt: &impl Abort, alloc: Global, row: &str) -> bool {
    let mut plan = sound();
    let system = &mut plan.streams[2];
    system.record = number(rt, row, 0);
    system.max = if system.record == 0 { 16_384 } else { 64 };
    system.taken = number(rt, row, 1);
    system.opened = number(rt, row, 2);
    system.first = [number(rt, row, 3), number(rt, row, 4)];
    system.bytes = [number(rt, row, 5).into(), number(rt, row, 6).into()];
    is_plan_fit(rt, alloc, &plan)
}

#[test]
fn files_fit_where_they_have_their_records(rt: HostRuntime) {
    for row in FIT_FILES.split('\n') {
        assert!(rt; are_files_fit(&rt, rt.alloc(), row), "{row}");
    }
    for row in UNFIT_FILES.split('\n') {
        assert!(rt; !are_files_fit(&rt, rt.alloc(), row), "{row}");
    }
}

/// Whether a receipt is new to the service that is made of this value.
fn takes(rt: &impl Abort, alloc: Global, plan: &Plan, client: u16, key: u32, through: u32) -> bool {
    let value = built(rt, alloc, plan);
    let new = match Service::restore(alloc, &value) {
        Ok(service) => {
            let new = service.is_new(client, key, through);
            let_service_go(alloc, service);
            new
        }
        Err(_) => false,
    };
    let saved = Boxed::new(alloc, value).expect(rt, "memory");
    let_message_go(Some(Message::Snapshot { saved }));
    new
}

/// Of two items the first was received.
#[test]
fn receipts_of_held_items_alone_are_new(rt: HostRuntime) {
    let mut plan = sound();
    plan.subs[0].first = 2;
    plan.subs[0].held = 1;
    for (client, key, through, new) in [
        (1, 1, 1, false),
        (1, 1, 2, true),
        (1, 1, 3, false),
        (1, 2, 2, false),
        (2, 1, 2, false),
    ] {
        let taken = takes(&rt, rt.alloc(), &plan, client, key, through);
        assert!(rt; taken == new, "{client} {key} {through}");
    }
}
