//! The world of a cluster.
ghost use Rattle.std.specs.Prelude.{◌≡◌};
ghost use Rattle.cluster_core.specs.Worlds.{empty_world};

use ais_values::Seq;
use calls::{History, let_history_go};
use client_agent::{Agent, let_agents_go};
use message_net::Net;
use mirror::{Node, let_node_go};
use std::alloc::Global;
use std::mem;
use wire::{Message, let_messages_go};

/// Two servers with the lists of messages between them, the net, the clients' agents by rising client, and what was committed.
///
/// `armed` is true exactly where a device call to come will stop the active server. `callbacks` is how many callbacks each
/// agent's queue holds.
#[derive(Drop)]
pub struct World {
    pub a: Node,
    pub b: Node,
    pub link: Seq<Message>,
    pub back: Seq<Message>,
    pub net: Net,
    pub agents: Seq<Agent>,
    pub history: History,
    pub now: i64,
    pub armed: bool,
    pub callbacks: u32,
}

impl World {
    /// A world before its first line: both servers are down, and nothing was posted. It takes no memory.
    pub fn empty(alloc: Global) -> World
        ensures { result ≡ empty_world }
    {
        World {
            a: Node::down(),
            b: Node::down(),
            link: Seq::new(alloc),
            back: Seq::new(alloc),
            net: Net::new(alloc),
            agents: Seq::new(alloc),
            history: History::new(alloc),
            now: 0,
            armed: false,
            callbacks: 0,
        }
    }

    /// Lets the world go, with all that it holds, at one place for all who have one.
    pub fn end(self) {
        let World {
            a,
            b,
            link,
            back,
            net,
            agents,
            history,
            now: _,
            armed: _,
            callbacks: _,
        } = self;
        let_node_go(a);
        let_node_go(b);
        let_messages_go(link);
        let_messages_go(back);
        mem::drop(net);
        let_agents_go(agents);
        let_history_go(history);
    }
}
