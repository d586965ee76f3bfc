//! The queue in which a client's callbacks wait, and both of its ends.
ghost use Rattle.std.specs.Prelude.{◌≡◌, suc, ◌+◌, ◌^◌, ◌<◌, ◌≤◌, nat_le, []};
ghost use Rattle.std.specs.Prelude.{◌∷◌, ◌++◌, length, reverse, Some, slice_get, IfOk, OnOk, OnErr};
ghost use Rattle.cluster_facts.specs.Agents.{oldest};
ghost use Rattle.client_agent.specs.Steps.{HasWorkers, numbered, handed_out};
ghost use Rattle.client_agent.specs.Waiting.{none_waits, after_one, after_all, after_handing};

use crate::How;
use ais_values::Seq;
use callback_dispatch::{CallbackQueue, Feeder, Gate, Numbered, Taker};
use calls::Callback;
use std::alloc::{AllocError, Global};
use std::marker::Model;
use std::sync::Wait;
use std::thread::Threads;

// How many callbacks a queue takes in all.
const MAX_CALLBACKS: u64 = 1 << 62;

/// The queue in which a client's callbacks wait, with both of its ends.
///
/// What the feeder fed is all of them, and what the taker took is those that were handed out.
#[derive(Drop)]
pub struct Ring {
    queue: CallbackQueue,
    feeder: Feeder,
    // None only while workers have it.
    taker: Option<Taker>,
    places: u32,
    fed: u64,
    given: u64,
}

impl Model for Ring {
    ghost use Rattle.client_agent.specs.Waiting.{Waiting};

    ghost Value = { Waiting };

    ghost use Rattle.client_agent.specs.Inside.{ring_inside, AreEnds};

    ghost view = { ring_inside };

    ghost invariant = { AreEnds };
}

/// Puts a callback into a queue that has a place, and tells how many were fed: as the two ends meet, the feeder learns
/// how many were taken.
fn put_at_end<R: Wait>(
    rt: &R,
    alloc: Global,
    queue: &CallbackQueue,
    feeder: &mut Feeder,
    taker: &mut Taker,
    callback: Callback,
) -> Result<u64, AllocError>
    requires feeder { feeder.old.queue ≡ queue.now.name }
    requires taker { taker.old.queue ≡ queue.now.name }
    requires room { length feeder.old.list < length taker.old.list + queue.now.capacity }
    requires fits { length feeder.old.list < 2 ^ 62 }
    ensures feeder { feeder.new.queue ≡ feeder.old.queue }
    ensures taker { (taker.new.queue ≡ taker.old.queue) × (taker.new.list ≡ taker.old.list)
        × (taker.new.share ≡ taker.old.share) }
    ensures ok { IfOk result (λ fed. (fed ≡ length feeder.new.list)
        × (feeder.new.list ≡ feeder.old.list ++ callback ∷ [])) }
    ensures err { OnErr result (feeder.new.list ≡ feeder.old.list) }
{
    match queue.meet(rt, alloc, feeder, taker) {
        Ok(()) => match queue.feed(rt, feeder, callback) {
            Ok(number) => Ok(number),
            Err(_) => unreachable!(),
        },
        Err(error) => {
            drop(callback);
            Err(error)
        }
    }
}

/// Takes the oldest callback of a queue in which one waits, by the only taker: as the two ends meet, it learns what was
/// fed.
fn take_oldest<R: Wait>(
    rt: &R,
    alloc: Global,
    queue: &CallbackQueue,
    feeder: &mut Feeder,
    taker: &mut Taker,
) -> Result<Numbered, AllocError>
    requires feeder { feeder.old.queue ≡ queue.now.name }
    requires taker { (taker.old.queue ≡ queue.now.name) × (taker.old.share ≡ 8) }
    requires waits { length taker.old.list < length feeder.old.list }
    ensures feeder { (feeder.new.queue ≡ feeder.old.queue)
        × (feeder.new.list ≡ feeder.old.list) }
    ensures taker { (taker.new.queue ≡ taker.old.queue) × (taker.new.share ≡ 8) }
    ensures list { IfOk result (λ x. taker.new.list ≡ taker.old.list ++ x ∷ []) }
    ensures oldest { IfOk result (λ x. (x.number ≡ suc (length taker.old.list))
        × (slice_get feeder.old.list (length taker.old.list) ≡ Some x.callback)) }
    ensures err { OnErr result (taker.new.list ≡ taker.old.list) }
{
    queue.meet(rt, alloc, feeder, taker)?;
    match queue.dispatch_one(rt, taker) {
        Some(element) => Ok(element),
        None => unreachable!(),
    }
}

impl Ring {
    /// No callbacks, and places for so many. It takes the memory of the places.
    pub fn new<R>(rt: &R, alloc: Global, places: u32) -> Result<Ring, AllocError>
        requires { 0 < places }
        ensures { IfOk result (λ ring. ring ≡ none_waits places) }
    {
        let (queue, feeder, taker) = CallbackQueue::make(rt, alloc, places)?;
        Ok(Ring {
            queue,
            feeder,
            taker: Some(taker),
            places,
            fed: 0,
            given: 0,
        })
    }

    /// Whether as many wait as there are places.
    pub fn is_full(&self) -> bool
        ensures { result ≡ nat_le self.now.places (length self.now.queue) }
    {
        self.fed - self.given >= u64::from(self.places)
    }

    /// Puts a callback where a place is free. Want of memory is answered too where 2^62 callbacks were put before.
    pub fn put<R: Wait>(
        &mut self,
        rt: &R,
        alloc: Global,
        callback: Callback,
    ) -> Result<(), AllocError>
        requires room { length self.old.queue < self.old.places }
        ensures ok { OnOk result (
            self.new ≡ record self.old { queue = callback ∷ self.old.queue }) }
        ensures err { OnErr result (self.new ≡ self.old) }
    {
        if self.fed >= MAX_CALLBACKS {
            drop(callback);
            return Err(AllocError);
        }
        let Some(taker) = &mut self.taker else {
            unreachable!()
        };
        self.fed = put_at_end(rt, alloc, &self.queue, &mut self.feeder, taker, callback)?;
        Ok(())
    }

    /// Hands out the oldest callback, if one waits.
    fn hand_out_one<R: Wait>(&mut self, rt: &R, alloc: Global) -> Result<Seq<Numbered>, AllocError>
        ensures taken { IfOk result (λ it.
            it ≡ reverse (numbered self.old.given (oldest self.old.queue))) }
        ensures left { OnOk result (self.new ≡ after_one self.old) }
        ensures err { OnErr result (self.new ≡ self.old) }
    {
        let mut taken = Vec::with_capacity(alloc, 1)?;
        if self.given == self.fed {
            return Ok(Seq::from_vec(taken));
        }
        let Some(taker) = &mut self.taker else {
            unreachable!()
        };
        match take_oldest(rt, alloc, &self.queue, &mut self.feeder, taker) {
            Ok(element) => {
                self.given += 1;
                taken.push_reserved(element);
                Ok(Seq::from_vec(taken))
            }
            Err(error) => {
                drop(taken);
                Err(error)
            }
        }
    }

    /// Hands out all callbacks, by so many workers.
    fn hand_out_all<R: Threads + Wait + Sync, G: Gate>(
        &mut self,
        rt: &R,
        alloc: Global,
        workers: u32,
        gate: &G,
    ) -> Result<Seq<Numbered>, AllocError>
        requires workers { (1 ≤ workers) × (workers ≤ 8) }
        ensures taken { IfOk result (λ it.
            it ≡ reverse (numbered self.old.given self.old.queue)) }
        ensures left { OnOk result (self.new ≡ after_all self.old) }
        ensures err { OnErr result (self.new ≡ self.old) }
    {
        let Some(taker) = self.taker.take() else {
            unreachable!()
        };
        match self
            .queue
            .dispatch_all(rt, alloc, &mut self.feeder, taker, workers, gate)
        {
            Ok((taker, taken)) => {
                self.taker = Some(taker);
                self.given = self.fed;
                Ok(taken)
            }
            Err((taker, error)) => {
                self.taker = Some(taker);
                Err(error)
            }
        }
    }

    /// Hands out callbacks, the oldest first. Where memory runs out all of them wait still.
    pub fn hand_out<R: Threads + Wait + Sync, G: Gate>(
        &mut self,
        rt: &R,
        alloc: Global,
        how: How,
        gate: &G,
    ) -> Result<Seq<Numbered>, AllocError>
        requires workers { HasWorkers how }
        ensures taken { IfOk result (λ it.
            it ≡ reverse (numbered self.old.given (handed_out how self.old.queue))) }
        ensures left { OnOk result (self.new ≡ after_handing how self.old) }
        ensures err { OnErr result (self.new ≡ self.old) }
    {
        match how {
            How::One => {
                let taken = self.hand_out_one(rt, alloc)?;
                Ok(taken)
            }
            How::All { workers } => {
                let taken = self.hand_out_all(rt, alloc, workers, gate)?;
                Ok(taken)
            }
        }
    }
}
