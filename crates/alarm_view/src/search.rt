//! Searches among alarms: from a place in their order on, the first that the filters ask for.
ghost use Rattle.std.specs.Prelude.{◌≡◌, ◌≢◌, ◌≤◌, nat_lt, pos, length, option_copied, MatchOption};
ghost use Rattle.ntf_filters.specs.Matching.{matches};
ghost use Rattle.client_set.specs.Members.{Stands};
ghost use Rattle.client_set.specs.Rising.{IsRising};
ghost use Rattle.alarm_view.specs.Alarms.{notifications, AreInOrder};
ghost use Rattle.alarm_view.specs.Modes.{way_of};
ghost use Rattle.alarm_view.specs.Search.{has_mode, is_beyond};
ghost use Rattle.alarm_view.specs.Inside.{place_first, point_in, places_of, cut_at};
ghost use Rattle.alarm_view.specs.Inside.{IsCutAt, IsRangeOf, IsIndexed, IsOfId, LacksId, IsAskedAt, IsFoundWithin, StartsAt, GoesOnAt, IsIdIn};

use crate::place::{Cut, Place, is_below};
use crate::{Cursor, Direction, KeptAlarm, SearchMode};
use ntf_filters::{FilterSet, matches};
use ntf_types::Notification;
use std::collections::VecDeque;

/// How many places, from the oldest on, lie below a cut.
pub(crate) fn count_below(order: &[Place], cut: Cut) -> usize
    requires { IsRising place_first order.now }
    ensures bound { result ≤ length order.now }
    ensures point { IsCutAt cut order.now result }
{
    order.partition_point(|place| is_below(cut, place))
}

/// The id of an alarm.
fn id_of(alarm: &KeptAlarm) -> u64
    ensures { result ≡ alarm.now.notification.id }
{
    alarm.notification.get().id
}

/// Whether the id of an alarm is below another one.
fn has_id_below(alarm: &KeptAlarm, id: u64) -> bool
    ensures { result ≡ nat_lt alarm.now.notification.id id }
{
    id_of(alarm) < id
}

/// The alarm of an id, if it is kept.
fn of_id(alarms: &VecDeque<KeptAlarm>, id: u64) -> Option<&KeptAlarm>
    requires { AreInOrder alarms.now.items }
    ensures { MatchOption result (LacksId id alarms.now.items)
        (λ alarm. IsOfId id alarms.now.items alarm.now) }
{
    let place = alarms.partition_point(|alarm| has_id_below(alarm, id));
    if place >= alarms.len() {
        return None;
    }
    let alarm = &alarms[place];
    let found = id_of(alarm);
    if found != id {
        return None;
    }
    Some(alarm)
}

/// Whether the filters ask for an alarm.
fn is_asked_for(filters: &FilterSet, alarm: &Notification) -> bool
    ensures { result ≡ matches filters.now alarm.now }
{
    matches(filters, alarm)
}

/// Whether the filters ask for an alarm that is kept.
fn asks_for(filters: &FilterSet, kept: &KeptAlarm) -> bool
    ensures { result ≡ matches filters.now kept.now.notification }
{
    is_asked_for(filters, kept.notification.get())
}

/// The alarm of a place, if the filters ask for it.
fn asked_at<'a>(
    alarms: &'a VecDeque<KeptAlarm>,
    place: &Place,
    filters: &FilterSet,
) -> Option<&'a Notification>
    requires order { AreInOrder alarms.now.items }
    requires stands { Stands place.now (places_of alarms.now.items) }
    ensures { IsAskedAt (notifications alarms.now.items) (point_in place.now) filters.now
        (option_copied result) }
{
    let Some(alarm) = of_id(alarms, place.id) else {
        return None;
    };
    if asks_for(filters, alarm) {
        Some(alarm.notification.get())
    } else {
        None
    }
}

/// Of the alarms at places from `low` on and below `high`, the oldest that the filters ask for.
fn oldest_within<'a>(
    alarms: &'a VecDeque<KeptAlarm>,
    order: &[Place],
    low: usize,
    high: usize,
    filters: &FilterSet,
) -> Option<&'a Notification>
    requires indexed { IsIndexed alarms.now.items order.now }
    requires within { high ≤ length order.now }
    ensures { IsFoundWithin Direction.Younger (notifications alarms.now.items) order.now low high
        filters.now (option_copied result) }
{
    for place in low..high {
        if let Some(alarm) = asked_at(alarms, &order[place], filters) {
            return Some(alarm);
        }
    }
    None
}

/// Of the alarms at places from `low` on and below `high`, the youngest that the filters ask for.
fn youngest_within<'a>(
    alarms: &'a VecDeque<KeptAlarm>,
    order: &[Place],
    low: usize,
    high: usize,
    filters: &FilterSet,
) -> Option<&'a Notification>
    requires indexed { IsIndexed alarms.now.items order.now }
    requires within { high ≤ length order.now }
    ensures { IsFoundWithin Direction.Older (notifications alarms.now.items) order.now low high
        filters.now (option_copied result) }
{
    let mut left = high;
    while left > low {
        left -= 1;
        if let Some(alarm) = asked_at(alarms, &order[left], filters) {
            return Some(alarm);
        }
    }
    None
}

/// Of the alarms at places from `low` on and below `high`, the first on the way that the filters ask for.
fn first_within<'a>(
    alarms: &'a VecDeque<KeptAlarm>,
    order: &[Place],
    way: Direction,
    low: usize,
    high: usize,
    filters: &FilterSet,
) -> Option<&'a Notification>
    requires indexed { IsIndexed alarms.now.items order.now }
    requires within { high ≤ length order.now }
    ensures { IsFoundWithin way (notifications alarms.now.items) order.now low high filters.now
        (option_copied result) }
{
    match way {
        Direction::Younger => oldest_within(alarms, order, low, high, filters),
        Direction::Older => youngest_within(alarms, order, low, high, filters),
    }
}

/// The places, from the first number on and below the second, whose times are what a mode asks for.
fn range_of(order: &[Place], mode: SearchMode, value: i64) -> (usize, usize)
    requires rising { IsRising place_first order.now }
    requires timed { mode ≢ SearchMode.NotificationId }
    ensures { IsRangeOf (has_mode mode value) order.now result.0 result.1 }
{
    let before = Cut::Before { time: value };
    let through = Cut::Through { time: value };
    match mode {
        SearchMode::BeforeOrAtTime => (0, count_below(order, through)),
        SearchMode::AtTime => (count_below(order, before), count_below(order, through)),
        SearchMode::AtOrAfterTime => (count_below(order, before), order.len()),
        SearchMode::BeforeTime => (0, count_below(order, before)),
        SearchMode::AfterTime => (count_below(order, through), order.len()),
        SearchMode::NotificationId => (0, 0),
        SearchMode::OnlyFilter => (0, order.len()),
    }
}

/// The cut at which a reader goes on: at its point where nothing was read yet, and else beyond it.
fn cut_at(way: Direction, cursor: &Cursor) -> Cut
    ensures { result ≡ cut_at way cursor.now }
{
    let (time, id) = (cursor.time, cursor.id);
    match (way, cursor.fresh) {
        (Direction::Younger, true) | (Direction::Older, false) => Cut::At { time, id },
        (Direction::Younger, false) | (Direction::Older, true) => Cut::Behind { time, id },
    }
}

/// The places, from the first number on and below the second, at which a reader may go on.
fn range_beyond(order: &[Place], way: Direction, cursor: &Cursor) -> (usize, usize)
    requires { IsRising place_first order.now }
    ensures { IsRangeOf (is_beyond way cursor.now) order.now result.0 result.1 }
{
    let place = count_below(order, cut_at(way, cursor));
    match way {
        Direction::Younger => (place, order.len()),
        Direction::Older => (0, place),
    }
}

/// The number of an id, if it is one.
fn id_in(value: i64) -> Option<u64>
    ensures { IsIdIn value result }
{
    if value < 0 {
        return None;
    }
    Some(value.unsigned_abs())
}

/// The alarm of an id, if it is kept and the filters ask for it.
fn start_of_id<'a>(
    alarms: &'a VecDeque<KeptAlarm>,
    value: i64,
    filters: &FilterSet,
) -> Option<&'a Notification>
    requires { AreInOrder alarms.now.items }
    ensures { StartsAt SearchMode.NotificationId value filters.now
        (notifications alarms.now.items) (option_copied result) }
{
    let Some(id) = id_in(value) else {
        return None;
    };
    let Some(alarm) = of_id(alarms, id) else {
        return None;
    };
    if asks_for(filters, alarm) {
        Some(alarm.notification.get())
    } else {
        None
    }
}

/// The alarm at which a search by time starts.
fn start_by_time<'a>(
    alarms: &'a VecDeque<KeptAlarm>,
    order: &[Place],
    mode: SearchMode,
    value: i64,
    filters: &FilterSet,
) -> Option<&'a Notification>
    requires indexed { IsIndexed alarms.now.items order.now }
    requires timed { mode ≢ SearchMode.NotificationId }
    ensures { StartsAt mode value filters.now (notifications alarms.now.items)
        (option_copied result) }
{
    let (low, high) = range_of(order, mode, value);
    first_within(alarms, order, mode.way(), low, high, filters)
}

/// The alarm at which a search starts.
pub(crate) fn start_in<'a>(
    alarms: &'a VecDeque<KeptAlarm>,
    order: &[Place],
    mode: SearchMode,
    value: i64,
    filters: &FilterSet,
) -> Option<&'a Notification>
    requires { IsIndexed alarms.now.items order.now }
    ensures { StartsAt mode value filters.now (notifications alarms.now.items)
        (option_copied result) }
{
    if mode == SearchMode::NotificationId {
        start_of_id(alarms, value, filters)
    } else {
        start_by_time(alarms, order, mode, value, filters)
    }
}

/// The alarm that is read next.
pub(crate) fn next_in<'a>(
    alarms: &'a VecDeque<KeptAlarm>,
    order: &[Place],
    cursor: &Cursor,
    way: Direction,
    filters: &FilterSet,
) -> Option<&'a Notification>
    requires { IsIndexed alarms.now.items order.now }
    ensures { GoesOnAt cursor.now way filters.now (notifications alarms.now.items)
        (option_copied result) }
{
    let (low, high) = range_beyond(order, way, cursor);
    first_within(alarms, order, way, low, high, filters)
}
