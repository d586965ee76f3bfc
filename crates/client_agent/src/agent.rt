//! The agent of one client.
ghost use Rattle.std.specs.Prelude.{◌≡◌, ℕ, ◌<◌, IfOk, OnErr};
ghost use Rattle.cluster_facts.specs.Agents.{Agent as ClientAgent, fresh, resent};
ghost use Rattle.client_agent.specs.Seen.{seen_of};
ghost use Rattle.client_agent.specs.Steps.{IsSent, IsFor, IsTaken, HasWorkers, IsDispatched};

use crate::library::Library;
use crate::{Dispatched, How, Sent, Taken};
use ais_values::Seq;
use callback_dispatch::Gate;
use calls::Ask;
use std::alloc::{AllocError, Global};
use std::marker::Model;
use std::sync::Wait;
use std::thread::Threads;
use wire::Message;

/// What a client's library keeps: the number of the next call, its handles, the calls whose replies it has not
/// taken, the subscriptions that live, the callbacks that it has taken and not handed out, and the marks of streams
/// that it was told last.
///
/// It keeps no more than that: at most the 32 calls before the next, one entry for each living subscription, as many
/// callbacks as its queue has places, and one mark for each name of a stream that it was told of. Of the callbacks
/// that were handed out it keeps the count. The queue may be emptied by many threads; the agent has both of its ends. What it keeps
/// stands by itself in memory, so a list of agents is small.
pub struct Agent {
    library: Box<Library>,
}

// Written out, as a derived one is proved anew in each crate that lets such a value go.
impl Drop for Agent {
    fn drop(self) {
        let Agent { library } = self;
        drop(library);
    }
}

impl Model for Agent {
    ghost use Rattle.client_agent.specs.Seen.{Seen};

    ghost Value = { Seen };

    ghost view = { λ agent. agent.library.value };
}

impl Agent {
    /// The agent of a client that has asked for nothing, with a queue of so many callbacks. The
    /// memory of the queue is taken with the first callback.
    pub fn new<R>(_rt: &R, alloc: Global, client: u16, callbacks: u32) -> Result<Agent, AllocError>
        ensures { IfOk result (λ agent. agent ≡ seen_of client callbacks fresh) }
    {
        let library = Box::new(alloc, Library::new(alloc, client, callbacks))?;
        Ok(Agent { library })
    }

    /// The client.
    pub fn client(&self) -> u16
        ensures { result ≡ self.now.client }
    {
        self.library.client()
    }

    /// The number of the next call.
    pub fn next(&self) -> u32
        ensures { result ≡ self.now.next }
    {
        self.library.next()
    }

    /// Asks for a call: the request that is to be posted, under the next number, or a refusal.
    ///
    /// It is refused as VERSION where it begins a service in a version that is not served; as BAD_HANDLE where it
    /// is another call and the last call of its service that begins or ends it, among those sent, is none or ends
    /// it; and then as TRY_AGAIN where some call whose reply was not taken has a number at most the next number
    /// minus 32. A refused call has no number, and nothing changes. Where memory runs out nothing changes.
    pub fn call(&mut self, alloc: Global, ask: &Ask) -> Result<Sent, AllocError>
        requires { self.old.next < 4294967295 }
        ensures ok { IfOk result (λ sent. (client places : ℕ) (agent : ClientAgent) →
            self.old ≡ seen_of client places agent →
            IsSent client places ask.now agent sent self.new) }
        ensures err { OnErr result (self.new ≡ self.old) }
    {
        self.library.call(alloc, ask)
    }

    /// Takes a reply to this client, or an item for it.
    ///
    /// A reply is missed as `Answered` where its call is none whose reply is awaited, and as `Left` where it gives
    /// a callback and the queue is full. It gives one where it tells a mark that is later than the last one of its
    /// stream and has another mask, and where it is of a write with flags 1; where both, one that tells both.
    ///
    /// An item is missed as `Gone` where its subscription does not live, as `Taken` or `Ahead` where its number is
    /// below or above the subscription's next, and as `Left` where the queue is full.
    ///
    /// On a miss, and where memory runs out, nothing changes. A reply that is taken ends the wait for it, and the
    /// subscription whose call it refuses; a later mark that it tells becomes the last one of its stream. An item that
    /// is taken gives a receipt to post. Want of memory is answered too where 2^62 callbacks were taken before.
    pub fn receive<R: Wait>(
        &mut self,
        rt: &R,
        alloc: Global,
        message: &Message,
    ) -> Result<Taken, AllocError>
        requires { IsFor self.old.client message.now }
        ensures ok { IfOk result (λ taken. (client places : ℕ) (agent : ClientAgent) →
            self.old ≡ seen_of client places agent →
            IsTaken client places message.now agent taken self.new) }
        ensures err { OnErr result (self.new ≡ self.old) }
    {
        self.library.receive(rt, alloc, message)
    }

    /// What is sent again: the requests of the calls without reply, by number, and the greatest receipt of each
    /// living subscription, by key.
    pub fn resend(&self, alloc: Global) -> Result<Seq<Message>, AllocError>
        ensures { IfOk result (λ messages. (client places : ℕ) (agent : ClientAgent) →
            self.now ≡ seen_of client places agent → messages ≡ resent client agent) }
    {
        self.library.resend(alloc)
    }

    /// Hands out callbacks, each under its number: the oldest, or all of them, by so many workers, of which each passes
    /// the gate before its first take. Where nothing waits no worker is started. What is handed out is the same for every
    /// number of workers.
    ///
    /// It is refused as BAD_HANDLE exactly where the client has no handle. Where memory runs out nothing changes.
    pub fn dispatch<R: Threads + Wait + Sync, G: Gate>(
        &mut self,
        rt: &R,
        alloc: Global,
        how: How,
        gate: &G,
    ) -> Result<Dispatched, AllocError>
        requires workers { HasWorkers how }
        ensures ok { IfOk result (λ dispatched. (client places : ℕ) (agent : ClientAgent) →
            self.old ≡ seen_of client places agent →
            IsDispatched client places how agent dispatched self.new) }
        ensures err { OnErr result (self.new ≡ self.old) }
    {
        self.library.dispatch(rt, alloc, how, gate)
    }
}
