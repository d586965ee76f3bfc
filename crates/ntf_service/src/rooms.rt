//! Room in the queues of all subscriptions, and the places of those in which there may be none. At most 64 last.
ghost use Rattle.std.specs.Prelude.{◌≡◌, ◌<◌, ◌≤◌, ◌++◌, ◌∷◌, [], List, length, OnOk, vec_len};
ghost use Rattle.arrayvec.specs.ArrayVec.{array_vec_len};
ghost use Rattle.ntf_service.specs.declared.subscription.Subscription.{Subscription as KeptSub};
ghost use Rattle.ntf_service.specs.Told.{all_told, spare_in};
ghost use Rattle.ntf_service.specs.Rooms.{RoomAt, HaveRoomsBut, RoomsStayBut};

use crate::subscription::Subscription;
use arrayvec::ArrayVec;
use std::alloc::{AllocError, Global};

/// Adds a place behind the others.
fn push_place(places: &mut ArrayVec<u8, 64>, place: usize)
    requires few { array_vec_len places.old < 64 }
    requires small { place < 64 }
    ensures { places.new.items ≡ places.old.items ++ place ∷ [] }
{
    places.push(place as u8);
}

/// The places of all subscriptions.
pub(crate) fn all_places(subs: &[Subscription]) -> ArrayVec<u8, 64>
    requires { length subs.now ≤ 64 }
    ensures { HaveRoomsBut result.items subs.now }
{
    let mut places = ArrayVec::new();
    for place in 0..subs.len() {
        push_place(&mut places, place);
    }
    places
}

/// Tells the place of a queue in which there may be no room any more. Where the list of such places is full, it becomes that
/// of all places.
pub(crate) fn lack_at(lacking: &mut ArrayVec<u8, 64>, subs: &[Subscription], place: usize)
    requires few { length subs.now ≤ 64 }
    requires within { place < length subs.now }
    ensures { (before : List KeptSub) → HaveRoomsBut lacking.old.items before →
        RoomsStayBut place before subs.now → HaveRoomsBut lacking.new.items subs.now }
{
    if lacking.is_full() {
        *lacking = all_places(subs);
    } else {
        push_place(lacking, place);
    }
}

/// Makes room for a notification more in the queue of the subscription at a place.
fn reserve_at(subs: &mut Vec<Subscription>, alloc: Global, place: usize) -> Result<(), AllocError>
    requires { place < vec_len subs.old }
    ensures told { all_told subs.new.items ≡ all_told subs.old.items }
    ensures beside { RoomsStayBut place subs.old.items subs.new.items }
    ensures room { OnOk result (RoomAt subs.new.items place) }
{
    let kept = &mut subs[place];
    kept.queue.reserve(alloc)
}

/// Makes room for a notification more in the queue of the subscription at a place, if there is one.
fn make_room_at(subs: &mut Vec<Subscription>, alloc: Global, place: usize) -> Result<(), AllocError>
    ensures told { all_told subs.new.items ≡ all_told subs.old.items }
    ensures beside { RoomsStayBut place subs.old.items subs.new.items }
    ensures room { OnOk result (RoomAt subs.new.items place) }
{
    if place < subs.len() {
        reserve_at(subs, alloc, place)?;
    }
    Ok(())
}

/// Makes room for a notification more in each queue, where there may be none in those at these places. Only these are looked
/// at. The queues stay as they are; an error is want of memory.
pub(crate) fn make_room(
    subs: &mut Vec<Subscription>,
    alloc: Global,
    lacking: &[u8],
) -> Result<(), AllocError>
    requires { HaveRoomsBut lacking.now subs.old.items }
    ensures told { all_told subs.new.items ≡ all_told subs.old.items }
    ensures beside { HaveRoomsBut lacking.now subs.new.items }
    ensures room { OnOk result (1 ≤ spare_in subs.new.items) }
{
    for index in 0..lacking.len() {
        let place = usize::from(lacking[index]);
        make_room_at(subs, alloc, place)?;
    }
    Ok(())
}
