//! The world of three servers over one disk.
ghost use Rattle.std.specs.Prelude.{◌≡◌};
ghost use Rattle.spare_server.specs.Worlds.{empty_trio};

use ais_values::Seq;
use calls::{History, let_history_go};
use client_agent::{Agent, let_agents_go};
use message_net::Net;
use mirror::{Node, let_node_go};
use std::alloc::Global;
use std::mem;
use wire::{Message, let_messages_go};

/// Three servers, each with the messages on the way to it and back, the net, the clients' agents by rising client, and what was
/// committed.
///
/// `armed` is true exactly where a device call to come will stop the active server. `callbacks` is how many callbacks each
/// agent's queue holds.
#[derive(Drop)]
pub struct TrioWorld {
    pub a: Node,
    pub b: Node,
    pub c: Node,
    pub link_a: Seq<Message>,
    pub link_b: Seq<Message>,
    pub link_c: Seq<Message>,
    pub back_a: Seq<Message>,
    pub back_b: Seq<Message>,
    pub back_c: Seq<Message>,
    pub net: Net,
    pub agents: Seq<Agent>,
    pub history: History,
    pub now: i64,
    pub armed: bool,
    pub callbacks: u32,
}

impl TrioWorld {
    /// A world before its first line: all servers are down, and nothing was posted. It takes no memory.
    pub fn empty(alloc: Global) -> TrioWorld
        ensures { result ≡ empty_trio }
    {
        TrioWorld {
            a: Node::down(),
            b: Node::down(),
            c: Node::down(),
            link_a: Seq::new(alloc),
            link_b: Seq::new(alloc),
            link_c: Seq::new(alloc),
            back_a: Seq::new(alloc),
            back_b: Seq::new(alloc),
            back_c: Seq::new(alloc),
            net: Net::new(alloc),
            agents: Seq::new(alloc),
            history: History::new(alloc),
            now: 0,
            armed: false,
            callbacks: 0,
        }
    }

    /// Lets the world go, with all that it holds, at one place for all who have one.
    pub fn end(self) {
        let TrioWorld {
            a,
            b,
            c,
            link_a,
            link_b,
            link_c,
            back_a,
            back_b,
            back_c,
            net,
            agents,
            history,
            now: _,
            armed: _,
            callbacks: _,
        } = self;
        let_node_go(a);
        let_node_go(b);
        let_node_go(c);
        let_messages_go(link_a);
        let_messages_go(link_b);
        let_messages_go(link_c);
        let_messages_go(back_a);
        let_messages_go(back_b);
        let_messages_go(back_c);
        mem::drop(net);
        let_agents_go(agents);
        let_history_go(history);
    }
}
