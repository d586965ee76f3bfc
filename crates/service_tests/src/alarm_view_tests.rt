ghost use Rattle.std.specs.Prelude.{◌≡◌, ◌+◌, ◌<◌, IfOk, OnOk};
ghost use Rattle.alarm_view.specs.Alarms.{IsAlarm, IsAboveAll};

use ais_values::{ClassId, Duplicate, Name, Seq, Text};
use alarm_view::{AlarmView, Cursor, Direction, SearchMode};
use ntf_filters::{Filter, FilterSet};
use ntf_types::{Body, Notification};
use std::alloc::{AllocError, Global};
use std::process::Abort;
use std::test::Fail;

/// An alarm of severity `id`, by its event time.
fn alarm(alloc: Global, id: u16, event_time: i64) -> Result<Notification, Fail>
    ensures id { IfOk result (λ alarm. alarm.id ≡ id) }
    ensures alarm { IfOk result (λ alarm. IsAlarm alarm.body) }
{
    Ok(Notification {
        id: u64::from(id),
        event_type: 0x4001,
        object: Name::new(alloc, b"object")?,
        notifier: Name::new(alloc, b"notifier")?,
        class: ClassId {
            vendor: 1,
            major: 2,
            minor: 3,
        },
        event_time,
        correlated: Seq::new(alloc),
        text: Text::new(alloc, b"")?,
        info: Seq::new(alloc),
        body: Body::Alarm {
            cause: 1,
            severity: id,
        },
    })
}

/// Filters that ask for alarms of these severities, or of all where the list is empty.
pub(crate) fn alarms_of(alloc: Global, severities: &[u16]) -> Result<FilterSet, AllocError> {
    let severities = Seq::from_vec(severities.to_vec(alloc)?);
    Ok(FilterSet {
        objects: None,
        attributes: None,
        states: None,
        alarms: Some(Filter {
            types: Seq::new(alloc),
            objects: Seq::new(alloc),
            notifiers: Seq::new(alloc),
            classes: Seq::new(alloc),
            sources: Seq::new(alloc),
            causes: Seq::new(alloc),
            severities,
        }),
        security: None,
    })
}

/// Adds an alarm of this id and time, in a record of this number.
pub(crate) fn add(
    alloc: Global,
    view: &mut AlarmView,
    number: u32,
    id: u16,
    time: i64,
) -> Result<(), Fail>
    requires bound { number < 2000 }
    requires above { IsAboveAll number id view.old.kept }
    ensures { OnOk result (IsAboveAll (number + 1) (id + 1) view.new.kept) }
{
    let alarm = alarm(alloc, id, time)?;
    view.add(number, alarm)?;
    Ok(())
}

/// The alarms 1, 2 and 3 of the times 100, 100 and 200, in records 4, 5 and 6.
fn three_alarms(alloc: Global) -> Result<AlarmView, Fail> {
    let mut view = AlarmView::new(alloc);
    add(alloc, &mut view, 4, 1, 100)?;
    add(alloc, &mut view, 5, 2, 100)?;
    add(alloc, &mut view, 6, 3, 200)?;
    Ok(view)
}

/// The id of the alarm at which a search of this code starts, or 0 where there is none.
pub(crate) fn start_of(view: &AlarmView, code: u32, value: i64, filters: &FilterSet) -> u64 {
    let Some(mode) = SearchMode::of(code) else {
        return 0;
    };
    match view.start(mode, value, filters) {
        None => 0,
        Some(cursor) => cursor.id,
    }
}

/// The id of the next alarm in the direction of a code, or 0 where there is none; the cursor moves
/// there.
pub(crate) fn read(view: &AlarmView, cursor: &mut Cursor, code: u32, filters: &FilterSet) -> u64 {
    let Some(way) = Direction::of(code) else {
        return 0;
    };
    match view.next(*cursor, way, filters) {
        None => 0,
        Some((next, alarm)) => {
            *cursor = next;
            alarm.id
        }
    }
}

/// The starting alarms of all modes, and of codes that are none.
#[test]
fn starts_by_each_mode(rt: HostRuntime) -> Result<(), Fail> {
    let alloc = rt.alloc();
    let view = three_alarms(alloc)?;
    let filters = alarms_of(alloc, &[]).expect(&rt, "memory");
    // code, value, id of the starting alarm
    let cases = [
        (0, 100, 0),
        (1, 100, 2),
        (2, 100, 1),
        (3, 100, 1),
        (4, 100, 0),
        (5, 100, 3),
        (6, 2, 2),
        (6, -2, 0),
        (7, -100, 1),
        (8, 100, 0),
    ];
    for (code, value, id) in cases {
        assert!(rt;
            start_of(&view, code, value, &filters) == id,
            "{code} {value}"
        );
    }
    drop(filters);
    drop(view);
    Ok(())
}

fn walk(
    rt: &impl Abort,
    view: &AlarmView,
    start: u8,
    code: u32,
    filters: &FilterSet,
    ids: [u64; 3],
) {
    let time = if start == 3 { 200 } else { 100 };
    let mut cursor = Cursor {
        time,
        id: u64::from(start),
        fresh: true,
    };
    for id in ids {
        assert!(rt;
            read(view, &mut cursor, code, filters) == id,
            "{start} {code}"
        );
    }
}

/// Walks from each alarm in both directions, of which the middle one does not match.
#[test]
fn walks_past_what_is_not_asked_for(rt: HostRuntime) -> Result<(), Fail> {
    let alloc = rt.alloc();
    let view = three_alarms(alloc)?;
    let filters = alarms_of(alloc, &[1, 3]).expect(&rt, "memory");
    // id of the starting alarm, code of the direction, ids that are read
    let cases = [
        (1, 1, [1, 0, 0]),
        (2, 1, [1, 0, 0]),
        (3, 1, [3, 1, 0]),
        (1, 2, [1, 3, 0]),
        (2, 2, [3, 0, 0]),
        (3, 2, [3, 0, 0]),
        (1, 3, [0, 0, 0]),
    ];
    for (start, code, ids) in cases {
        walk(&rt, &view, start, code, &filters, ids);
    }
    drop(filters);
    drop(view);
    Ok(())
}

/// Whether the alarm at a place stands in the record of this number, and has this id.
fn has_alarm_at(view: &AlarmView, place: u32, number: u32, id: u64) -> bool {
    match view.alarm_at(place) {
        Some((found, alarm)) => found == number && alarm.id == id,
        None => false,
    }
}

/// An alarm goes under a cursor, which keeps its point and stays fresh.
#[test]
fn drops_early_records(rt: HostRuntime) -> Result<(), Fail> {
    let alloc = rt.alloc();
    let mut view = three_alarms(alloc)?;
    let filters = alarms_of(alloc, &[]).expect(&rt, "memory");
    view.keep_from(5);
    assert!(rt; view.count() == 2 && has_alarm_at(&view, 0, 5, 2));
    assert!(rt; view.alarm_at(2).is_none());
    let cursor = Cursor {
        time: 100,
        id: 2,
        fresh: false,
    };
    assert!(rt; cursor.copy(alloc).expect(&rt, "memory") == cursor);
    walk(&rt, &view, 1, 1, &filters, [0, 0, 0]);
    walk(&rt, &view, 1, 2, &filters, [2, 3, 0]);
    drop(filters);
    drop(view);
    Ok(())
}
