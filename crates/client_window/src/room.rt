//! Places for more replies.
ghost use Rattle.std.specs.Prelude.{◌≡◌, ◌≤◌, length, IfOk};
ghost use Rattle.std.specs.VecDeque.{deque_capacity};
ghost use Rattle.client_window.specs.Windows.{more_places, places_for};

use std::alloc::{AllocError, Global};
use std::collections::VecDeque;
use std::marker::Model;
use std::mem;

/// Places for the replies of a window of which all places are taken. Contracts see how many they are.
#[derive(Drop)]
pub struct Room<R> {
    places: VecDeque<R>,
}

impl<R> Model for Room<R> {
    ghost use Rattle.std.specs.Prelude.{ℕ, ◌≡◌, []};
    ghost use Rattle.std.specs.VecDeque.{deque_capacity};

    ghost Value = { ℕ };

    ghost view = { λ room. deque_capacity room.places };

    ghost invariant = { λ room. room.places.items ≡ [] };
}

impl<R: Drop> Room<R> {
    /// So many places.
    pub(crate) fn new(alloc: Global, places: usize) -> Result<Room<R>, AllocError>
        ensures { IfOk result (λ room. room ≡ places) }
    {
        let places = VecDeque::with_capacity(alloc, places)?;
        Ok(Room { places })
    }
}

/// How many places a window has at least that keeps so many replies.
pub(crate) fn places_for(kept: usize) -> usize
    ensures { result ≡ places_for kept }
{
    if kept <= 4 {
        4
    } else if kept <= 8 {
        8
    } else if kept <= 16 {
        16
    } else {
        32
    }
}

/// How many places the next reply wants where so many replies are kept, if they take all of them.
pub(crate) fn more_places(kept: usize) -> Option<usize>
    ensures { result ≡ more_places kept }
{
    if kept == 4 {
        Some(8)
    } else if kept == 8 {
        Some(16)
    } else if kept == 16 {
        Some(32)
    } else {
        None
    }
}

/// Has the replies stand in other places, of which there are enough. It takes no memory.
pub(crate) fn move_to<R: Drop>(replies: &mut VecDeque<R>, room: Room<R>)
    requires { length replies.old.items ≤ room }
    ensures items { replies.new.items ≡ replies.old.items }
    ensures capacity { room ≤ deque_capacity replies.new }
{
    let mut places = room.places;
    match places.append(replies) {
        Ok(()) => {}
        Err(_) => unreachable!(),
    }
    mem::drop(mem::replace(replies, places));
}
