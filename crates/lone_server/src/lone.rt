//! One server and its journal.
ghost use Rattle.std.specs.Prelude.{◌≡◌};
ghost use Rattle.lone_server.specs.Falls.{downed, unarmed};

use ais_values::Seq;
use disk_model::SharedDisk;
use journal_start::Journal;
use lead_server::{clear, go_down};
use mirror::Node;
use std::alloc::Global;
use wire::Message;

/// One server, active or down, and its journal, with the messages on the way to the journal and back, first message first.
///
/// `armed` is true exactly where a device call to come will stop it, of the record disk or of the journal's.
#[derive(Drop)]
pub struct Lone {
    pub node: Node,
    pub journal: Journal,
    pub link: Seq<Message>,
    pub back: Seq<Message>,
    pub armed: bool,
}

/// The server goes down: nothing is on the way or in hand any more, and no disk is armed.
pub fn fall<D: SharedDisk, J: SharedDisk>(
    alloc: Global,
    servers: &mut Lone,
    disk: &mut D,
    beside: &mut J,
)
    ensures servers { servers.new ≡ downed servers.old }
    ensures disk { D.seen disk.new ≡ unarmed (D.seen disk.old) }
    ensures beside { J.seen beside.new ≡ unarmed (J.seen beside.old) }
{
    go_down(&mut servers.node);
    clear(alloc, &mut servers.link);
    clear(alloc, &mut servers.back);
    servers.armed = false;
    disk.disarm();
    beside.disarm();
}
