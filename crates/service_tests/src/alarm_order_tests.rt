//! A thousand alarms at times in no order, against a plain search of all of them.
ghost use Rattle.std.specs.Prelude.{◌≡◌, ◌<◌, []};

use crate::alarm_view_tests::{add, alarms_of, read, start_of};
use alarm_view::{AlarmView, Cursor};
use ntf_filters::FilterSet;
use std::alloc::Global;
use std::process::Abort;
use std::test::Fail;

/// The next number of the generator.
fn next_of(number: u64) -> u64
    requires { number < 2147483648 }
    ensures { result < 2147483648 }
{
    (number * 1_103_515_245 + 12_345) % 2_147_483_648
}

/// The time that a number of the generator gives: its upper half.
fn time_of(number: u64) -> i64
    requires { number < 2147483648 }
{
    i64::from((number / 65_536) as u16)
}

/// Adds alarms of the ids 1 to 1,000, each in the record of its id, at times of the generator; the times.
fn add_thousand(alloc: Global, view: &mut AlarmView) -> Result<Vec<i64>, Fail>
    requires { view.old.kept ≡ [] }
{
    let mut times = Vec::new(alloc);
    let mut number = 1;
    for id in 1..1_001 {
        number = next_of(number);
        let time = time_of(number);
        add(alloc, view, u32::from(id), id, time)?;
        times.push(time)?;
    }
    Ok(times)
}

/// An alarm of the plain search: its time and its id.
#[derive(Clone, Copy)]
struct Known {
    time: i64,
    id: u64,
}

fn is_older(one: Known, other: Known) -> bool {
    one.time < other.time || (one.time == other.time && one.id < other.id)
}

/// The one of two that is met first, going to older ones or to younger ones.
fn first_of(one: Known, other: Option<Known>, to_older: bool) -> Known {
    match other {
        None => one,
        Some(other) if is_older(one, other) == to_older => other,
        Some(_) => one,
    }
}

/// What a search starts among.
fn asks_for(code: u32, value: i64, alarm: Known) -> bool {
    match code {
        1 => alarm.time <= value,
        2 => alarm.time == value,
        3 => alarm.time >= value,
        4 => alarm.time < value,
        5 => alarm.time > value,
        6 => value >= 0 && alarm.id == value.unsigned_abs(),
        _ => true,
    }
}

/// Whether a reader at a cursor may read an alarm next.
fn may_follow(cursor: Cursor, to_older: bool, alarm: Known) -> bool {
    let here = Known {
        time: cursor.time,
        id: cursor.id,
    };
    let (behind, back) = if to_older {
        (is_older(alarm, here), is_older(here, alarm))
    } else {
        (is_older(here, alarm), is_older(alarm, here))
    };
    behind || (cursor.fresh && !back)
}

/// What a plain search looks for.
#[derive(Clone, Copy)]
enum Wanted {
    Start { code: u32, value: i64 },
    Next { cursor: Cursor, to_older: bool },
}

impl Wanted {
    fn asks_for(self, alarm: Known) -> bool {
        match self {
            Wanted::Start { code, value } => asks_for(code, value, alarm),
            Wanted::Next { cursor, to_older } => may_follow(cursor, to_older, alarm),
        }
    }

    fn goes_to_older(self) -> bool {
        match self {
            Wanted::Start { code, .. } => code == 1 || code == 4,
            Wanted::Next { to_older, .. } => to_older,
        }
    }
}

/// The id of the alarm that is wanted, among those of ids above `gone`, by a look at each, or 0.
fn plain_search(times: &[i64], gone: u64, wanted: Wanted) -> u64 {
    let mut found = None;
    let mut id = 0u64;
    for time in times {
        id = id.saturating_add(1);
        let alarm = Known { time: *time, id };
        if id > gone && wanted.asks_for(alarm) {
            found = Some(first_of(alarm, found, wanted.goes_to_older()));
        }
    }
    match found {
        None => 0,
        Some(alarm) => alarm.id,
    }
}

/// What a mode asks for at a place: a time, or an id.
fn value_at(code: u32, place: usize, time: i64) -> i64 {
    if code != 6 {
        return time;
    }
    match u16::try_from(place) {
        Ok(id) => i64::from(id),
        Err(_) => -1,
    }
}

/// Compares the starts of a mode at some of the times, or at some ids, with those of the plain search.
fn compare_starts(
    rt: &impl Abort,
    view: &AlarmView,
    times: &[i64],
    gone: u64,
    code: u32,
    filters: &FilterSet,
) {
    for (place, time) in times.iter().enumerate() {
        if place % 25 == 0 {
            let value = value_at(code, place, *time);
            assert!(rt;
                start_of(view, code, value, filters)
                    == plain_search(times, gone, Wanted::Start { code, value }),
                "{code} {value}"
            );
        }
    }
}

/// Reads on from a cursor as long as there are alarms, and compares each with the plain search; how many
/// were read.
fn compare_walk(
    rt: &impl Abort,
    view: &AlarmView,
    times: &[i64],
    gone: u64,
    code: u32,
    filters: &FilterSet,
) -> u64 {
    let to_older = code == 1;
    let mut cursor = Cursor {
        time: if to_older { 1_000_000 } else { -1 },
        id: 0,
        fresh: true,
    };
    let mut count = 0u64;
    for _ in 0..1_001 {
        let wanted = Wanted::Next { cursor, to_older };
        let id = read(view, &mut cursor, code, filters);
        assert!(rt; id == plain_search(times, gone, wanted), "{count}");
        if id == 0 {
            return count;
        }
        count = count.saturating_add(1);
    }
    count
}

/// Compares starts in every mode, and walks in both directions; how many alarms these read.
fn compare(
    rt: &impl Abort,
    view: &AlarmView,
    times: &[i64],
    gone: u64,
    filters: &FilterSet,
) -> (u64, u64) {
    for code in 1..8 {
        compare_starts(rt, view, times, gone, code, filters);
    }
    (
        compare_walk(rt, view, times, gone, 1, filters),
        compare_walk(rt, view, times, gone, 2, filters),
    )
}

/// All alarms, and those that are left where the ones of early records were dropped.
#[test]
fn finds_what_a_plain_search_finds(rt: HostRuntime) -> Result<(), Fail> {
    let alloc = rt.alloc();
    let mut view = AlarmView::new(alloc);
    let times = add_thousand(alloc, &mut view)?;
    let filters = alarms_of(alloc, &[]).expect(&rt, "memory");
    let all = compare(&rt, &view, times.as_slice(), 0, &filters);
    view.keep_from(401);
    let late = compare(&rt, &view, times.as_slice(), 400, &filters);
    assert!(rt; all == (1_000, 1_000) && late == (600, 600));
    drop(filters);
    drop(view);
    Ok(())
}
