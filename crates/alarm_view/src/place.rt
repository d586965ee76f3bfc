//! Where alarms stand in their order.
ghost use Rattle.std.specs.Prelude.{◌≡◌};
ghost use Rattle.std.specs.Ordering.{is_lt};
ghost use Rattle.alarm_view.specs.Alarms.{kept_alarm};
ghost use Rattle.alarm_view.specs.Order.{is_older};
ghost use Rattle.alarm_view.specs.Inside.{place_of, place_first, point_in, is_below};

use crate::KeptAlarm;
use ntf_types::Notification;
use std::cmp::Ordering;

/// Where an alarm stands in the order of alarms, and the number of its record.
#[derive(Clone, Copy)]
pub(crate) struct Place {
    pub time: i64,
    pub id: u64,
    pub number: u32,
}

/// A cut through the order of alarms. The places below it come first.
#[derive(Clone, Copy)]
pub(crate) enum Cut {
    /// Below are the places of earlier times.
    Before { time: i64 },
    /// Below are the places of this time and of earlier ones.
    Through { time: i64 },
    /// Below are the places that are older than this one.
    At { time: i64, id: u64 },
    /// Below are this place and those that are older.
    Behind { time: i64, id: u64 },
}

/// Whether the first place, a time and an id, is older than the second.
fn is_older(time: i64, id: u64, other_time: i64, other_id: u64) -> bool
    ensures { result
        ≡ is_older (record { time = time; id = id }) (record { time = other_time; id = other_id }) }
{
    time < other_time || (other_time >= time && id < other_id)
}

/// How the first place stands to the second: less where it is older.
pub(crate) fn compare(one: &Place, other: &Place) -> Ordering
    ensures { is_lt result ≡ place_first one.now other.now }
{
    if is_older(one.time, one.id, other.time, other.id) {
        Ordering::Less
    } else if is_older(other.time, other.id, one.time, one.id) {
        Ordering::Greater
    } else {
        Ordering::Equal
    }
}

/// The place of an alarm with this number of its record.
fn place_at(number: u32, alarm: &Notification) -> Place
    ensures { result ≡ place_of (kept_alarm number alarm.now) }
{
    Place {
        time: alarm.event_time,
        id: alarm.id,
        number,
    }
}

/// The place of an alarm.
pub(crate) fn place_of(alarm: &KeptAlarm) -> Place
    ensures { result ≡ place_of alarm.now }
{
    place_at(alarm.number, alarm.notification.get())
}

/// The cut at a place.
pub(crate) fn cut_before(place: &Place) -> Cut
    ensures { result ≡ Cut.At place.now.time place.now.id }
{
    Cut::At {
        time: place.time,
        id: place.id,
    }
}

/// Whether a place lies below a cut.
pub(crate) fn is_below(cut: Cut, place: &Place) -> bool
    ensures { result ≡ is_below cut (point_in place.now) }
{
    match cut {
        Cut::Before { time } => place.time < time,
        Cut::Through { time } => place.time <= time,
        Cut::At { time, id } => is_older(place.time, place.id, time, id),
        Cut::Behind { time, id } => !is_older(time, id, place.time, place.id),
    }
}
