//! The world of one server and its journal.
ghost use Rattle.std.specs.Prelude.{◌≡◌};
ghost use Rattle.command_journal.specs.Worlds.{empty_cold};

use ais_values::Seq;
use calls::{History, let_history_go};
use client_agent::{Agent, let_agents_go};
use journal_start::Journal;
use message_net::Net;
use mirror::{Node, let_node_go};
use std::alloc::Global;
use std::mem;
use wire::{Message, let_messages_go};

/// One server and its journal on a second disk, with the messages on the way to the journal and back, the net, the clients' agents by
/// rising client, and what was committed.
///
/// `armed` is true exactly where a device call to come will stop the server, of the record disk or of the journal's. `callbacks` is how
/// many callbacks each agent's queue holds.
#[derive(Drop)]
pub struct ColdWorld {
    pub node: Node,
    pub journal: Journal,
    pub link: Seq<Message>,
    pub back: Seq<Message>,
    pub net: Net,
    pub agents: Seq<Agent>,
    pub history: History,
    pub now: i64,
    pub armed: bool,
    pub callbacks: u32,
}

impl ColdWorld {
    /// A world before its first line: the server is down, and nothing was posted. It takes no memory.
    pub fn empty(alloc: Global) -> ColdWorld
        ensures { result ≡ empty_cold }
    {
        ColdWorld {
            node: Node::down(),
            journal: Journal { end: 0, number: 0 },
            link: Seq::new(alloc),
            back: Seq::new(alloc),
            net: Net::new(alloc),
            agents: Seq::new(alloc),
            history: History::new(alloc),
            now: 0,
            armed: false,
            callbacks: 0,
        }
    }

    /// Lets the world go, with all that it holds, at one place for all who have one.
    pub fn end(self) {
        let ColdWorld {
            node,
            journal: _,
            link,
            back,
            net,
            agents,
            history,
            now: _,
            armed: _,
            callbacks: _,
        } = self;
        let_node_go(node);
        let_messages_go(link);
        let_messages_go(back);
        mem::drop(net);
        let_agents_go(agents);
        let_history_go(history);
    }
}
