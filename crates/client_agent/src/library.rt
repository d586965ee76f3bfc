//! What the library of one client keeps, and what it makes of calls and messages.
ghost use Rattle.std.specs.Prelude.{◌≡◌, ℕ, ◌<◌, List, [], length, IfOk, OnErr};
ghost use Rattle.calls.specs.declared.reply.Callback.{Callback};
ghost use Rattle.cluster_facts.specs.Agents.{Agent as ClientAgent, fresh, can_serve, service_of, has_handle, refusal, kept_call, find_living, resent};
ghost use Rattle.client_agent.specs.Seen.{seen_of};
ghost use Rattle.client_agent.specs.Steps.{IsSent, IsFor, IsReply, IsItem, IsTaken, HasWorkers, IsDispatched};
ghost use Rattle.client_agent.specs.Inside.{agent_of, lack};

use crate::callbacks::{callback_of_item, callback_of_reply, gives_callback};
use crate::kept::{
    Kept, add_requests, calls_of, find_call, forget_call, is_shut, log_after, ntf_after, service_of,
};
use crate::living::{
    Subscription, add_receipts, find_subscription, make_place, note_call, note_item, note_reply,
};
use crate::marks::SeenMarks;
use crate::waiting::WaitingCallbacks;
use crate::{Dispatched, How, MissedWhy, Sent, Taken};
use ais_values::{Seq, Status, Version, Which, negotiate};
use callback_dispatch::Gate;
use calls::{Ask, Call, Callback, Reply};
use std::alloc::{AllocError, Global};
use std::collections::VecDeque;
use std::marker::Model;
use std::sync::Wait;
use std::thread::Threads;
use sub_queue::Item;
use wire::Message;

/// What a client's library keeps. It is an agent's, whose page tells of it.
#[derive(Drop)]
pub(crate) struct Library {
    client: u16,
    next: u32,
    log_handle: bool,
    ntf_handle: bool,
    kept: VecDeque<Kept>,
    living: VecDeque<Subscription>,
    callbacks: WaitingCallbacks,
    marks: SeenMarks,
}

impl Model for Library {
    ghost use Rattle.client_agent.specs.Seen.{Seen};

    ghost Value = { Seen };

    ghost use Rattle.client_agent.specs.Inside.{seen_inside, AreOfCalls};

    ghost view = { seen_inside };

    ghost invariant = { AreOfCalls };
}

/// Whether the service serves a client that asks for this version.
fn can_serve(service: Which, wanted: Version) -> bool
    ensures { result ≡ can_serve service wanted }
{
    negotiate(service, wanted).is_ok()
}

impl Library {
    /// The library of a client that has asked for nothing, with a queue of so many callbacks. It takes no memory.
    pub fn new(alloc: Global, client: u16, callbacks: u32) -> Library
        ensures { result ≡ seen_of client callbacks fresh }
    {
        Library {
            client,
            next: 1,
            log_handle: false,
            ntf_handle: false,
            kept: VecDeque::new(alloc),
            living: VecDeque::new(alloc),
            callbacks: WaitingCallbacks::new(callbacks),
            marks: SeenMarks::new(alloc),
        }
    }

    /// The client.
    pub fn client(&self) -> u16
        ensures { result ≡ self.now.client }
    {
        self.client
    }

    /// The number of the next call.
    pub fn next(&self) -> u32
        ensures { result ≡ self.now.next }
    {
        self.next
    }

    /// As `Agent::call`.
    pub fn call(&mut self, alloc: Global, ask: &Ask) -> Result<Sent, AllocError>
        requires { self.old.next < 4294967295 }
        ensures ok { IfOk result (λ sent. (client places : ℕ) (agent : ClientAgent) →
            self.old ≡ seen_of client places agent →
            IsSent client places ask.now agent sent self.new) }
        ensures err { OnErr result (self.new ≡ self.old) }
    {
        if let Some(status) = self.refusal(ask) {
            return Ok(Sent::Refused { status });
        }
        // By one place alone: calls are wide, and 32 of them at most.
        self.kept.reserve_exact(1)?;
        make_place(&mut self.living, ask)?;
        let (call, posted) = calls_of(alloc, ask)?;
        note_call(&mut self.living, self.next, call.get());
        self.log_handle = log_after(call.get(), self.log_handle);
        self.ntf_handle = ntf_after(call.get(), self.ntf_handle);
        let number = self.next;
        self.kept.push_front_reserved(Kept { number, call });
        self.next = number + 1;
        let message = Message::Request {
            client: self.client,
            seq: number,
            call: posted,
        };
        Ok(Sent::Posted { message })
    }

    /// As `Agent::receive`.
    pub fn receive<R: Wait>(
        &mut self,
        rt: &R,
        alloc: Global,
        message: &Message,
    ) -> Result<Taken, AllocError>
        requires { IsFor self.old.client message.now }
        ensures ok { IfOk result (λ taken. (client places : ℕ) (agent : ClientAgent) →
            self.old ≡ seen_of client places agent →
            IsTaken client places message.now agent taken self.new) }
        ensures err { OnErr result (self.new ≡ self.old) }
    {
        match message {
            Message::Reply { seq, reply, .. } => {
                let taken = self.take_reply(rt, alloc, *seq, reply)?;
                Ok(taken)
            }
            Message::Item { key, item, .. } => {
                let taken = self.take_item(rt, alloc, *key, item)?;
                Ok(taken)
            }
            _ => unreachable!(),
        }
    }

    /// As `Agent::resend`.
    pub fn resend(&self, alloc: Global) -> Result<Seq<Message>, AllocError>
        ensures { IfOk result (λ messages. (client places : ℕ) (agent : ClientAgent) →
            self.now ≡ seen_of client places agent → messages ≡ resent client agent) }
    {
        let mut messages = Vec::new(alloc);
        add_requests(alloc, self.client, &self.kept, &mut messages)?;
        add_receipts(self.client, &self.living, &mut messages)?;
        Ok(Seq::from_vec(messages))
    }

    /// As `Agent::dispatch`.
    pub fn dispatch<R: Threads + Wait + Sync, G: Gate>(
        &mut self,
        rt: &R,
        alloc: Global,
        how: How,
        gate: &G,
    ) -> Result<Dispatched, AllocError>
        requires workers { HasWorkers how }
        ensures ok { IfOk result (λ dispatched. (client places : ℕ) (agent : ClientAgent) →
            self.old ≡ seen_of client places agent →
            IsDispatched client places how agent dispatched self.new) }
        ensures err { OnErr result (self.new ≡ self.old) }
    {
        if !self.log_handle && !self.ntf_handle {
            let status = Status::BadHandle;
            return Ok(Dispatched::Refused { status });
        }
        let taken = self.callbacks.hand_out(rt, alloc, how, gate)?;
        Ok(Dispatched::Given { taken })
    }

    /// Whether the client has a handle of the call's service.
    fn has_handle(&self, call: &Call) -> bool
        ensures { result ≡ has_handle (service_of call.now) (agent_of self.now []) }
    {
        match service_of(call) {
            Which::Log => self.log_handle,
            Which::Ntf => self.ntf_handle,
        }
    }

    /// What a call lacks before the window is asked.
    fn lack(&self, ask: &Ask) -> Option<Status>
        ensures { result ≡ lack ask.now (agent_of self.now []) }
    {
        match ask {
            Ask::Start { service, version } => {
                if can_serve(*service, *version) {
                    None
                } else {
                    Some(Status::Version)
                }
            }
            Ask::Plain { call } => {
                if self.has_handle(call) {
                    None
                } else {
                    Some(Status::BadHandle)
                }
            }
        }
    }

    /// Why a call is refused, if it is.
    fn refusal(&self, ask: &Ask) -> Option<Status>
        ensures { result ≡ refusal ask.now (agent_of self.now []) }
    {
        match self.lack(ask) {
            Some(status) => Some(status),
            None => {
                if is_shut(self.next, &self.kept) {
                    Some(Status::TryAgain)
                } else {
                    None
                }
            }
        }
    }

    /// Takes the reply to the call of this number.
    fn take_reply<R: Wait>(
        &mut self,
        rt: &R,
        alloc: Global,
        number: u32,
        reply: &Reply,
    ) -> Result<Taken, AllocError>
        ensures ok { IfOk result (λ taken. (handed : List Callback) →
            self.old.given ≡ length handed →
            IsReply self.old.client self.old.places number reply.now (agent_of self.old handed)
            (kept_call number self.old.kept) taken self.new) }
        ensures err { OnErr result (self.new ≡ self.old) }
    {
        match find_call(&self.kept, number) {
            None => Ok(Taken::Missed {
                why: MissedWhy::Answered,
            }),
            Some(call) => {
                // Before the mark is looked up.
                if self.callbacks.bars(call) {
                    let why = MissedWhy::Left;
                    return Ok(Taken::Missed { why });
                }
                let later = self.marks.later(alloc, call, reply)?;
                if self.callbacks.lacks_place(gives_callback(call, later)) {
                    let why = MissedWhy::Left;
                    return Ok(Taken::Missed { why });
                }
                let ready = self.marks.prepare(alloc, later)?;
                let callback = callback_of_reply(alloc, call, reply, later)?;
                let copy = self.callbacks.put_with_copy(rt, alloc, callback, reply)?;
                self.marks.put(ready);
                forget_call(&mut self.kept, number);
                note_reply(&mut self.living, number, reply);
                Ok(Taken::Answered {
                    seq: number,
                    reply: copy,
                })
            }
        }
    }

    /// Takes an item of the subscription of this key.
    fn take_item<R: Wait>(
        &mut self,
        rt: &R,
        alloc: Global,
        key: u32,
        item: &Item,
    ) -> Result<Taken, AllocError>
        ensures ok { IfOk result (λ taken. (handed : List Callback) →
            self.old.given ≡ length handed →
            IsItem self.old.client self.old.places key item.now (agent_of self.old handed)
            (find_living key self.old.living) taken self.new) }
        ensures err { OnErr result (self.new ≡ self.old) }
    {
        let found = match find_subscription(&self.living, key) {
            Some(found) => found,
            None => return Ok(Taken::Missed {
                why: MissedWhy::Gone,
            }),
        };
        if item.number <= found.taken {
            let why = MissedWhy::Taken;
            return Ok(Taken::Missed { why });
        }
        if item.number - found.taken > 1 {
            let why = MissedWhy::Ahead;
            return Ok(Taken::Missed { why });
        }
        if self.callbacks.is_full() {
            let why = MissedWhy::Left;
            return Ok(Taken::Missed { why });
        }
        let callback = callback_of_item(alloc, found.id, &item.content)?;
        self.callbacks.put(rt, alloc, callback)?;
        note_item(&mut self.living, key, item.number);
        let receipt = Message::Receipt {
            client: self.client,
            key,
            through: item.number,
        };
        Ok(Taken::Item { receipt })
    }
}
