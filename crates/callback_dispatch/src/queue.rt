//! The queue, its feeder and its takers.
ghost use Rattle.std.specs.Prelude.{◌≡◌, suc, ◌+◌, ◌-◌, ◌^◌, ◌<◌, ◌≤◌, Some, []};
ghost use Rattle.std.specs.Prelude.{◌∷◌, ◌++◌, length, IfOk, IfErr, OnOk, OnErr, IfSome, IfNone};
ghost use mathlib.Core.List.{IsPrefix};
ghost use Rattle.callback_dispatch.specs.Seen.{numbered, AllBelow, union, longer_of, IsBeginningOf, IsMade};
ghost use Rattle.callback_dispatch.specs.Rule.{IsNext, IsOfFed};

use crate::Numbered;
use crate::rule::{Ends, FedNote, Parts, Pop, Push, Ring, TakenNote, Told, View};
use calls::Callback;
use crossbeam_queue::Pass;
use std::alloc::{AllocError, Global};
use std::marker::Model;
use std::sync::Wait;

/// A queue of callbacks with a fixed number of places, which threads share by `&`.
///
/// Its feeder puts callbacks in, and its takers hand them out. The shares of the takers in use add up to 8, so a
/// taker of share 8 is the only one.
pub struct CallbackQueue {
    ring: Ring,
}

// Written out, as a derived one is proved anew in each crate that lets such a value go.
impl Drop for CallbackQueue {
    fn drop(self) {
        let CallbackQueue { ring } = self;
        drop(ring);
    }
}

impl Model for CallbackQueue {
    ghost use Rattle.callback_dispatch.specs.Seen.{QueueSeen};

    ghost Value = { QueueSeen };

    ghost use Rattle.callback_dispatch.specs.Inside.{queue_seen};

    ghost view = { queue_seen };
}

/// The one end of a queue that feeds it. It knows what it fed, and of how many elements at least that they were
/// taken.
#[derive(Drop)]
pub struct Feeder {
    pass: Pass<Numbered, View>,
    fed: u64,
}

impl Model for Feeder {
    ghost use Rattle.callback_dispatch.specs.Seen.{FeederSeen};

    ghost Value = { FeederSeen };

    ghost use Rattle.callback_dispatch.specs.Inside.{feeder_seen, IsFeeder};

    ghost view = { feeder_seen };

    ghost invariant = { IsFeeder };
}

/// An end of a queue that takes from it. It knows what it took, its share, and callbacks that the feeder's list
/// begins with.
#[derive(Drop)]
pub struct Taker {
    pass: Pass<Numbered, View>,
}

impl Model for Taker {
    ghost use Rattle.callback_dispatch.specs.Seen.{TakerSeen};

    ghost Value = { TakerSeen };

    ghost use Rattle.callback_dispatch.specs.Inside.{taker_seen, IsTaker};

    ghost view = { taker_seen };

    ghost invariant = { IsTaker };
}

impl CallbackQueue {
    /// A queue with so many places, its feeder, and its first taker, which has the whole share. It takes the memory
    /// of all places.
    pub fn make<R>(
        _rt: &R,
        alloc: Global,
        capacity: u32,
    ) -> Result<(CallbackQueue, Feeder, Taker), AllocError>
        requires { 0 < capacity }
        ensures { IfOk result (λ made. IsMade capacity made.0 made.1 made.2) }
    {
        let (ring, mut pass) = Ring::ruled(alloc, capacity as usize)?;
        let taking = ring.another::<Ends>(&mut pass);
        Ok((
            CallbackQueue { ring },
            Feeder { pass, fed: 0 },
            Taker { pass: taking },
        ))
    }

    /// Puts a callback in, and tells its number: 1, 2, 3 and so on. It takes no memory.
    ///
    /// The callback comes back only where all places were full at a moment of this call; then at least as many
    /// elements were fed as there are places beyond those of which the feeder knows that they were taken. Nothing
    /// changes then.
    pub fn feed<R: Wait>(
        &self,
        rt: &R,
        feeder: &mut Feeder,
        callback: Callback,
    ) -> Result<u64, Callback>
        requires queue { feeder.old.queue ≡ self.now.name }
        requires fits { length feeder.old.list < 2 ^ 62 }
        ensures same { (feeder.new.queue ≡ feeder.old.queue)
            × (feeder.new.count ≡ feeder.old.count) }
        ensures fed { IfOk result (λ number. (number ≡ length feeder.new.list)
            × (feeder.new.list ≡ feeder.old.list ++ callback ∷ [])) }
        ensures full { IfErr result (λ back. (back ≡ callback) × (feeder.new.list ≡ feeder.old.list)
            × (feeder.old.count + self.now.capacity ≤ length feeder.old.list)) }
    {
        let number = feeder.fed + 1;
        let element = Numbered { number, callback };
        match self.ring.push_as::<Push, R>(rt, &mut feeder.pass, element) {
            Ok(()) => {
                feeder.fed = number;
                Ok(number)
            }
            Err(back) => Err(back.callback),
        }
    }

    /// Hands out the oldest element that waits. It takes no memory.
    ///
    /// Its number is above those that this taker has taken, itself or by joining. Where the taker knows what was fed
    /// under that number, it is that callback. `None` only where the queue was empty at a moment of this call. With the
    /// share 8 it is the element that follows the taker's list, and `None`
    /// comes only where that list has all of which the taker knows that it was fed.
    pub fn dispatch_one<R: Wait>(&self, rt: &R, taker: &mut Taker) -> Option<Numbered>
        requires { taker.old.queue ≡ self.now.name }
        ensures same { (taker.new.queue ≡ taker.old.queue) × (taker.new.share ≡ taker.old.share)
            × (taker.new.known ≡ taker.old.known) }
        ensures some { IfSome result (λ x.
            (taker.new.list ≡ taker.old.list ++ x ∷ []) × AllBelow x.number taker.old.list) }
        ensures fed { IfSome result (λ x. IsOfFed x taker.old.known) }
        ensures none { IfNone result (taker.new.list ≡ taker.old.list) }
        ensures next { taker.old.share ≡ 8 →
            IfSome result (λ x. IsNext x taker.old.list taker.old.known) }
        ensures all { taker.old.share ≡ 8 →
            IfNone result (IsPrefix (numbered 1 taker.old.known) taker.old.list) }
    {
        self.ring.pop_as::<Pop, R>(rt, &mut taker.pass)
    }

    /// A feeder and a taker tell each other what they know: the feeder knows then that as many elements were taken
    /// as stand in the taker's list, and the taker knows the feeder's whole list.
    ///
    /// With the share 8 both are exact: the taker's list is the beginning of the feeder's, of the length that the
    /// feeder knows. It takes no memory, and never fails.
    pub fn meet<R>(
        &self,
        _rt: &R,
        _alloc: Global,
        feeder: &mut Feeder,
        taker: &mut Taker,
    ) -> Result<(), AllocError>
        requires feeder { feeder.old.queue ≡ self.now.name }
        requires taker { taker.old.queue ≡ self.now.name }
        ensures feeder { (feeder.new.queue ≡ feeder.old.queue)
            × (feeder.new.list ≡ feeder.old.list) }
        ensures taker { (taker.new.queue ≡ taker.old.queue) × (taker.new.list ≡ taker.old.list)
            × (taker.new.share ≡ taker.old.share) }
        ensures told { OnOk result ((length taker.new.list ≤ feeder.new.count)
            × (taker.new.known ≡ feeder.new.list)) }
        ensures grows { (feeder.old.count ≤ feeder.new.count)
            × IsPrefix taker.old.known taker.new.known }
        ensures bounded { (feeder.new.count ≤ length feeder.new.list)
            × IsPrefix taker.new.known feeder.new.list }
        ensures exact { taker.old.share ≡ 8 → OnOk result (
            (feeder.new.count ≡ length taker.new.list)
            × IsBeginningOf feeder.new.list taker.new.list) }
    {
        self.exchange(feeder, taker);
        Ok(())
    }

    /// Splits a new taker off, with a share of 1 and an empty list. It takes no memory, and never fails.
    pub fn split<R>(&self, _rt: &R, _alloc: Global, taker: &mut Taker) -> Result<Taker, AllocError>
        requires queue { taker.old.queue ≡ self.now.name }
        requires share { 2 ≤ taker.old.share }
        ensures old { (taker.new.queue ≡ taker.old.queue) × (taker.new.list ≡ taker.old.list)
            × (taker.new.known ≡ taker.old.known) }
        ensures share { OnOk result (taker.new.share + 1 ≡ taker.old.share) }
        ensures err { OnErr result (taker.new.share ≡ taker.old.share) }
        ensures new { IfOk result (λ other. (other.queue ≡ taker.old.queue) × (other.list ≡ [])
            × (other.share ≡ 1) × (other.known ≡ taker.old.known)) }
    {
        Ok(self.cut(taker))
    }

    /// Joins two takers: the lists become one, by number, and the shares add up. It takes no memory.
    pub fn join_takers<R>(&self, _rt: &R, one: Taker, two: Taker) -> Taker
        requires one { one.queue ≡ self.now.name }
        requires two { two.queue ≡ self.now.name }
        ensures queue { result.queue ≡ one.queue }
        ensures list { result.list ≡ union one.list two.list }
        ensures share { result.share ≡ one.share + two.share }
        ensures known { result.known ≡ longer_of one.known two.known }
    {
        let mut one = one;
        self.ring.absorb::<Parts>(&mut one.pass, two.pass);
        one
    }

    // What `meet` does, which cannot fail.
    pub(crate) fn exchange(&self, feeder: &mut Feeder, taker: &mut Taker)
        requires feeder { feeder.old.queue ≡ self.now.name }
        requires taker { taker.old.queue ≡ self.now.name }
        ensures feeder { (feeder.new.queue ≡ feeder.old.queue)
            × (feeder.new.list ≡ feeder.old.list) }
        ensures taker { (taker.new.queue ≡ taker.old.queue) × (taker.new.list ≡ taker.old.list)
            × (taker.new.share ≡ taker.old.share) }
        ensures told { (length taker.new.list ≤ feeder.new.count)
            × (taker.new.known ≡ feeder.new.list) }
        ensures grows { (feeder.old.count ≤ feeder.new.count)
            × IsPrefix taker.old.known taker.new.known }
        ensures bounded { feeder.new.count ≤ length feeder.new.list }
        ensures exact { taker.old.share ≡ 8 → (feeder.new.count ≡ length taker.new.list)
            × IsBeginningOf feeder.new.list taker.new.list }
    {
        let note = self.ring.another::<TakenNote>(&mut taker.pass);
        self.ring.absorb::<Told>(&mut feeder.pass, note);
        self.ring.learn_as::<Push>(&mut feeder.pass);
        let note = self.ring.another::<FedNote>(&mut feeder.pass);
        self.ring.absorb::<Told>(&mut taker.pass, note);
        self.ring.learn_as::<Pop>(&mut taker.pass);
    }

    // What `split` does, which cannot fail.
    pub(crate) fn cut(&self, taker: &mut Taker) -> Taker
        requires queue { taker.old.queue ≡ self.now.name }
        requires share { 2 ≤ taker.old.share }
        ensures old { (taker.new.queue ≡ taker.old.queue) × (taker.new.list ≡ taker.old.list)
            × (taker.new.known ≡ taker.old.known) }
        ensures share { taker.new.share + 1 ≡ taker.old.share }
        ensures new { (result.queue ≡ taker.old.queue) × (result.list ≡ []) × (result.share ≡ 1)
            × (result.known ≡ taker.old.known) }
    {
        let pass = self.ring.another::<Parts>(&mut taker.pass);
        Taker { pass }
    }

    // How many elements wait at a moment of the call.
    pub(crate) fn waiting<R: Wait>(&self, rt: &R, taker: &mut Taker) -> usize
        requires { taker.old.queue ≡ self.now.name }
        ensures same { (taker.new.queue ≡ taker.old.queue) × (taker.new.list ≡ taker.old.list)
            × (taker.new.share ≡ taker.old.share) × (taker.new.known ≡ taker.old.known) }
        ensures enough { taker.old.share ≡ 8 →
            length taker.old.known ≤ length taker.old.list + result }
    {
        self.ring.len_as::<Pop, R>(rt, &mut taker.pass)
    }
}
