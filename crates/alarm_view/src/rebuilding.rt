//! The order of alarms that are all there from the start.
ghost use Rattle.std.specs.Prelude.{◌≡◌, IsPermutation, IfOk};
ghost use Rattle.std.specs.Ordering.{is_lt};
ghost use Rattle.std.specs.List.Sorted.{IsSortedBy};
ghost use Rattle.alarm_view.specs.Alarms.{AreInOrder};
ghost use Rattle.alarm_view.specs.Inside.{place_first, places_of, IsIndexed};

use crate::KeptAlarm;
use crate::place::{Place, compare, place_of};
use std::alloc::{AllocError, Global};
use std::cmp::Ordering;

/// The places of alarms, in order of the alarms.
fn places_of(alloc: Global, alarms: &[KeptAlarm]) -> Result<Vec<Place>, AllocError>
    ensures { IfOk result (λ places. places.items ≡ places_of alarms.now) }
{
    let mut places = Vec::with_capacity(alloc, alarms.len())?;
    for alarm in alarms {
        places.push(place_of(alarm))?;
    }
    Ok(places)
}

/// Puts places into their order.
fn sort(places: &mut Vec<Place>)
    ensures same { IsPermutation places.old.items places.new.items }
    ensures sorted { IsSortedBy place_first places.new.items }
{
    places.sort_unstable_by(
        |one: &Place, other: &Place| -> Ordering
            ensures { is_lt result ≡ place_first one.now other.now }
        { compare(one, other) },
    );
}

/// The places of alarms, in their own order.
pub(crate) fn order_of(alloc: Global, alarms: &[KeptAlarm]) -> Result<Vec<Place>, AllocError>
    requires { AreInOrder alarms.now }
    ensures { IfOk result (λ order. IsIndexed alarms.now order.items) }
{
    let mut order = places_of(alloc, alarms)?;
    sort(&mut order);
    Ok(order)
}
