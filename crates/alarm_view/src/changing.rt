//! What the calls make of the alarms and of their order.
ghost use Rattle.std.specs.Prelude.{◌≡◌, ◌<◌, ◌≤◌, ◌∷◌, [], ◌++◌, nat_le, not, insert, vec_len};
ghost use Rattle.std.specs.Vec.{vec_capacity};
ghost use Rattle.std.specs.VecDeque.{deque_len, deque_capacity};
ghost use Rattle.std.specs.List.{filter, prefix_len};
ghost use Rattle.alarm_view.specs.Alarms.{kept_alarm, CanAdd, from_record};
ghost use Rattle.alarm_view.specs.Inside.{IsIndexed};

use crate::KeptAlarm;
use crate::place::{Place, cut_before, place_of};
use crate::search::count_below;
use ais_values::{Shared, remove_front};
use ntf_types::Notification;
use std::collections::VecDeque;

/// Puts a place into the order. There is room for it.
fn insert_place(order: &mut Vec<Place>, at: usize, place: Place)
    requires within { at ≤ vec_len order.old }
    requires room { vec_len order.old < vec_capacity order.old }
    ensures { order.new.items ≡ insert order.old.items at place }
{
    let _ = order.insert(at, place);
}

/// Adds an alarm behind all others, and its place to the order. There is room for both.
pub(crate) fn add_reserved(
    alarms: &mut VecDeque<KeptAlarm>,
    order: &mut Vec<Place>,
    number: u32,
    notification: Shared<Notification>,
)
    requires indexed { IsIndexed alarms.old.items order.old.items }
    requires can { CanAdd number notification alarms.old.items }
    requires room { deque_len alarms.old < deque_capacity alarms.old }
    requires places { vec_len order.old < vec_capacity order.old }
    ensures alarms { alarms.new.items ≡ alarms.old.items ++ kept_alarm number notification ∷ [] }
    ensures indexed { IsIndexed alarms.new.items order.new.items }
{
    let alarm = KeptAlarm {
        number,
        notification,
    };
    let place = place_of(&alarm);
    let at = count_below(order.as_slice(), cut_before(&place));
    insert_place(order, at, place);
    alarms.push_back_reserved(alarm);
}

/// Whether a record has this number or a later one.
fn is_from(record_number: u32, number: u32) -> bool
    ensures { result ≡ nat_le number record_number }
{
    record_number >= number
}

/// How many alarms in a row, from the first on, have records below a number.
fn count_early(alarms: &VecDeque<KeptAlarm>, number: u32) -> usize
    ensures { result ≡ prefix_len (λ alarm. not (nat_le number alarm.number)) alarms.now.items }
{
    alarms
        .iter()
        .take_while(|alarm| !is_from(alarm.number, number))
        .count()
}

/// Drops from the order the place of the only alarm whose record is below a number: the first. It is found by halving.
fn remove_place(alarms: &VecDeque<KeptAlarm>, order: &mut Vec<Place>, number: u32)
    requires indexed { IsIndexed alarms.now.items order.old.items }
    requires one { prefix_len (λ alarm. not (nat_le number alarm.number)) alarms.now.items ≡ 1 }
    ensures { order.new.items ≡ filter (λ place. nat_le number place.number) order.old.items }
{
    let first = &alarms[0];
    let place = place_of(first);
    let at = count_below(order.as_slice(), cut_before(&place));
    let _ = order.remove(at);
}

/// Drops from the order the places of the alarms of records below a number.
fn drop_places(order: &mut Vec<Place>, number: u32)
    ensures { order.new.items ≡ filter (λ place. nat_le number place.number) order.old.items }
{
    order.retain(|place| is_from(place.number, number));
}

/// Drops from the order the places of the alarms of records below a number, of which there are so many.
fn drop_early_places(
    alarms: &VecDeque<KeptAlarm>,
    order: &mut Vec<Place>,
    number: u32,
    count: usize,
)
    requires indexed { IsIndexed alarms.now.items order.old.items }
    requires count { count
        ≡ prefix_len (λ alarm. not (nat_le number alarm.number)) alarms.now.items }
    ensures { order.new.items ≡ filter (λ place. nat_le number place.number) order.old.items }
{
    if count == 1 {
        remove_place(alarms, order, number);
    } else {
        drop_places(order, number);
    }
}

/// Drops the alarms of records below a number, and their places. The place of one alone is found by halving.
pub(crate) fn drop_early(alarms: &mut VecDeque<KeptAlarm>, order: &mut Vec<Place>, number: u32)
    requires { IsIndexed alarms.old.items order.old.items }
    ensures alarms { alarms.new.items ≡ from_record number alarms.old.items }
    ensures indexed { IsIndexed alarms.new.items order.new.items }
{
    let count = count_early(alarms, number);
    if count > 0 {
        drop_early_places(alarms, order, number, count);
        remove_front(alarms, count);
    }
}
