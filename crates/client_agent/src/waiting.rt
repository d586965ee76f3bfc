//! The callbacks that a client has taken: they wait in a queue until they are handed out.
ghost use Rattle.std.specs.Prelude.{◌≡◌, ◌<◌, nat_le, ◌&&◌, None, ◌∷◌, ◌++◌, length, reverse, IfOk, OnOk, OnErr};
ghost use Rattle.std.specs.Option.{option_to_list, ForSome};
ghost use Rattle.cluster_facts.specs.Agents.{asked_back};
ghost use Rattle.client_agent.specs.Inside.{gives};
ghost use Rattle.client_agent.specs.Steps.{HasWorkers, numbered, handed_out};
ghost use Rattle.client_agent.specs.Waiting.{none_waits, after_handing};

use crate::How;
use crate::callbacks::asks_callback;
use crate::ring::Ring;
use ais_values::{Duplicate, Seq};
use callback_dispatch::{Gate, Numbered};
use calls::{Call, Callback};
use std::alloc::{AllocError, Global};
use std::marker::Model;
use std::sync::Wait;
use std::thread::Threads;

/// The callbacks that a client has taken and not handed out, and how many may wait.
///
/// The memory of their places is taken with the first of them.
#[derive(Drop)]
pub struct WaitingCallbacks {
    // None until the first callback comes.
    ring: Option<Ring>,
    places: u32,
}

impl Model for WaitingCallbacks {
    ghost use Rattle.client_agent.specs.Waiting.{Waiting};

    ghost Value = { Waiting };

    ghost use Rattle.client_agent.specs.Inside.{all_waiting, HasPlaces};

    ghost view = { all_waiting };

    ghost invariant = { HasPlaces };
}

impl WaitingCallbacks {
    /// No callbacks, and places for so many. It takes no memory.
    pub fn new(places: u32) -> WaitingCallbacks
        ensures { result ≡ none_waits places }
    {
        WaitingCallbacks { ring: None, places }
    }

    /// Whether as many wait as there are places.
    pub fn is_full(&self) -> bool
        ensures { result ≡ nat_le self.now.places (length self.now.queue) }
    {
        match &self.ring {
            Some(ring) => ring.is_full(),
            None => self.places == 0,
        }
    }

    /// Whether a place is wanted, and none is free.
    pub fn lacks_place(&self, wanted: bool) -> bool
        ensures { result ≡ (wanted && nat_le self.now.places (length self.now.queue)) }
    {
        wanted && self.is_full()
    }

    /// Whether any reply to a call lacks a place, whatever mark it tells.
    pub fn bars(&self, call: &Call) -> bool
        ensures { result ≡ (gives None (asked_back call.now)
            && nat_le self.now.places (length self.now.queue)) }
    {
        self.lacks_place(asks_callback(call))
    }

    /// Puts a callback where a place is free. Want of memory is answered too where 2^62 callbacks were put before.
    pub fn put<R: Wait>(
        &mut self,
        rt: &R,
        alloc: Global,
        callback: Callback,
    ) -> Result<(), AllocError>
        requires room { length self.old.queue < self.old.places }
        ensures ok { OnOk result (
            self.new ≡ record self.old { queue = callback ∷ self.old.queue }) }
        ensures err { OnErr result (self.new ≡ self.old) }
    {
        let mut ring = match self.ring.take() {
            Some(ring) => ring,
            None => match Ring::new(rt, alloc, self.places) {
                Ok(ring) => ring,
                Err(error) => {
                    drop(callback);
                    return Err(error);
                }
            },
        };
        let done = ring.put(rt, alloc, callback);
        self.ring = Some(ring);
        done
    }

    /// Puts a callback, if there is one, as `put` does.
    fn put_some<R: Wait>(
        &mut self,
        rt: &R,
        alloc: Global,
        callback: Option<Callback>,
    ) -> Result<(), AllocError>
        requires room { ForSome callback (λ _. length self.old.queue < self.old.places) }
        ensures ok { OnOk result (self.new ≡
            record self.old { queue = option_to_list callback ++ self.old.queue }) }
        ensures err { OnErr result (self.new ≡ self.old) }
    {
        match callback {
            Some(callback) => self.put(rt, alloc, callback),
            None => Ok(()),
        }
    }

    /// Puts a callback, if there is one, as `put` does, and gives a copy of a value; where memory runs out, neither.
    pub fn put_with_copy<R: Wait, T: Duplicate + Drop>(
        &mut self,
        rt: &R,
        alloc: Global,
        callback: Option<Callback>,
        value: &T,
    ) -> Result<T, AllocError>
        requires room { ForSome callback (λ _. length self.old.queue < self.old.places) }
        ensures copy { IfOk result (λ copy. copy ≡ value.now) }
        ensures ok { OnOk result (self.new ≡
            record self.old { queue = option_to_list callback ++ self.old.queue }) }
        ensures err { OnErr result (self.new ≡ self.old) }
    {
        match value.copy(alloc) {
            Ok(copy) => {
                self.put_some(rt, alloc, callback)?;
                Ok(copy)
            }
            Err(error) => {
                drop(callback);
                Err(error)
            }
        }
    }

    /// Hands out callbacks, the oldest first. Where memory runs out all of them wait still.
    pub fn hand_out<R: Threads + Wait + Sync, G: Gate>(
        &mut self,
        rt: &R,
        alloc: Global,
        how: How,
        gate: &G,
    ) -> Result<Seq<Numbered>, AllocError>
        requires workers { HasWorkers how }
        ensures taken { IfOk result (λ it.
            it ≡ reverse (numbered self.old.given (handed_out how self.old.queue))) }
        ensures left { OnOk result (self.new ≡ after_handing how self.old) }
        ensures err { OnErr result (self.new ≡ self.old) }
    {
        match &mut self.ring {
            Some(ring) => ring.hand_out(rt, alloc, how, gate),
            None => Ok(Seq::new(alloc)),
        }
    }
}
