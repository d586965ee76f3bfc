//! The window of one client's calls.
ghost use Rattle.std.specs.Prelude.{◌≡◌, ◌+◌, ◌<◌, ◌≤◌, suc, min, List, [], ◌∷◌, ◌++◌, length, take, reverse, slice_get, IfOk};
ghost use Rattle.std.specs.Option.{option_copied};
ghost use Rattle.std.specs.VecDeque.{deque_capacity};
ghost use Rattle.client_window.specs.Windows.{window_of, window_of_parts, HasRepliesBefore, places_for, more_places};
ghost use Rattle.client_window.specs.Judgement.{IsJudged};

use crate::Judged;
use crate::room::{Room, more_places, move_to, places_for};
use ais_values::{MAX_REPLIES, Seq};
use std::alloc::{AllocError, Global};
use std::collections::VecDeque;
use std::marker::Model;

/// For how many replies there is room at first.
const FIRST_PLACES: usize = 4;

/// The number of a client's next call, and the replies to the 32 calls before it, the oldest in front.
#[derive(Drop)]
pub struct Window<R> {
    next: u32,
    replies: VecDeque<R>,
}

impl<R> Model for Window<R> {
    ghost use Rattle.client_window.specs.Windows.{Kept};

    ghost Value = { Kept R };

    ghost use Rattle.client_window.specs.Inside.{kept_of, IsKept};

    ghost view = { kept_of };

    ghost invariant = { IsKept };
}

/// Has the replies stand where there are more places, if there are such.
fn widen<R: Drop>(replies: &mut VecDeque<R>, room: Option<Room<R>>)
    requires bound { length replies.old.items ≤ 32 }
    requires places { places_for (length replies.old.items) ≤ deque_capacity replies.old }
    requires room { room ≡ more_places (length replies.old.items) }
    ensures items { replies.new.items ≡ replies.old.items }
    ensures places { places_for (min 32 (suc (length replies.old.items)))
        ≤ deque_capacity replies.new }
{
    match room {
        None => {}
        Some(room) => move_to(replies, room),
    }
}

/// Lets the oldest reply go where 32 are kept.
fn let_oldest_go<R: Drop>(replies: &mut VecDeque<R>)
    requires { length replies.old.items ≤ 32 }
    ensures items { reverse replies.new.items ≡ take 31 (reverse replies.old.items) }
    ensures capacity { deque_capacity replies.new ≡ deque_capacity replies.old }
{
    if replies.len() == MAX_REPLIES {
        drop(replies.pop_front());
    }
}

/// Puts a reply behind the others, and lets the oldest one go where 32 are kept.
fn keep<R: Drop>(replies: &mut VecDeque<R>, reply: R)
    requires bound { length replies.old.items ≤ 32 }
    requires room { min 32 (suc (length replies.old.items)) ≤ deque_capacity replies.old }
    ensures items { reverse replies.new.items ≡ take 32 (reply ∷ reverse replies.old.items) }
    ensures capacity { deque_capacity replies.new ≡ deque_capacity replies.old }
{
    let_oldest_go(replies);
    replies.push_back_reserved(reply);
}

impl<R: Drop> Window<R> {
    /// The window of a client that has made no call. It takes the memory of four replies.
    pub fn new(alloc: Global) -> Result<Window<R>, AllocError>
        ensures { IfOk result (λ window. window ≡ window_of []) }
    {
        Ok(Window {
            next: 1,
            replies: VecDeque::with_capacity(alloc, FIRST_PLACES)?,
        })
    }

    /// The window with these parts, the oldest reply first. It takes the memory of four replies, or of 8, 16 or 32 where it has more.
    pub fn rebuild(alloc: Global, next: u32, replies: Seq<R>) -> Result<Window<R>, AllocError>
        requires { HasRepliesBefore next (length replies) }
        ensures { IfOk result (λ window. window ≡ window_of_parts next replies) }
    {
        let mut items = replies.into_vec();
        items.reserve(places_for(items.len()).saturating_sub(items.len()))?;
        Ok(Window {
            next,
            replies: VecDeque::from_vec(items),
        })
    }

    /// What the call of this number is. It takes no memory.
    pub fn judge(&self, seq: u32) -> Judged<'_, R>
        ensures { (all : List R) → self.now ≡ window_of all → IsJudged seq all result }
    {
        if seq > self.next {
            return Judged::Ahead;
        }
        if seq == self.next {
            return Judged::New;
        }
        let newer = (self.next - seq - 1) as usize;
        if newer >= self.replies.len() {
            return Judged::Old;
        }
        match self.replies.get(self.replies.len() - 1 - newer) {
            Some(reply) => Judged::Repeat { reply },
            None => Judged::Old,
        }
    }

    /// Room for the reply to the next call, where all places are taken. They are 4 at first, and double up to 32.
    pub fn room(&self, alloc: Global) -> Result<Option<Room<R>>, AllocError>
        ensures { IfOk result (λ room. room ≡ more_places (length self.now.replies)) }
    {
        match more_places(self.replies.len()) {
            None => Ok(None),
            Some(places) => match Room::new(alloc, places) {
                Ok(room) => Ok(Some(room)),
                Err(error) => Err(error),
            },
        }
    }

    /// Takes the reply to the next call, with room for it. It takes no memory.
    pub fn take(&mut self, room: Option<Room<R>>, reply: R)
        requires next { self.old.next < 4294967295 }
        requires room { room ≡ more_places (length self.old.replies) }
        ensures { (all : List R) → self.old ≡ window_of all → self.new ≡ window_of (reply ∷ all) }
    {
        widen(&mut self.replies, room);
        keep(&mut self.replies, reply);
        self.next += 1;
    }

    /// The number of the next call. A window always stands for some replies.
    pub fn next(&self) -> u32
        ensures next { result ≡ self.now.next }
        ensures stands { (all : List R) × (self.now ≡ window_of all) }
    {
        self.next
    }

    /// How many replies are kept.
    pub fn count(&self) -> u32
        ensures { result ≡ length self.now.replies }
    {
        self.replies.len() as u32
    }

    /// The replies that are kept, the oldest first: those in front, and those behind them.
    pub fn replies(&self) -> (&[R], &[R])
        ensures { result.0.now ++ result.1.now ≡ reverse self.now.replies }
    {
        self.replies.as_slices()
    }

    /// The reply at this place among those that are kept, the oldest at place 0.
    pub fn reply_at(&self, i: u32) -> Option<&R>
        ensures { option_copied result ≡ slice_get (reverse self.now.replies) i }
    {
        self.replies.get(i as usize)
    }
}
