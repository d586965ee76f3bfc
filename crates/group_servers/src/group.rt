//! The servers of a cluster.
use ais_values::Seq;
use mirror::Node;
use script_lines::Server;
use wire::Message;

/// A server with the messages on the way to it and back, first message first.
#[derive(Drop)]
pub struct Seat {
    pub server: Server,
    pub node: Node,
    pub link: Seq<Message>,
    pub back: Seq<Message>,
}

/// Servers, one of which is active, with all servers in order beside it.
///
/// `acting` is the active one's name; in its own seat stands a server that is down. `armed` is true exactly where a device call to come will
/// stop it.
#[derive(Drop)]
pub struct Group<const N: usize> {
    pub acting: Server,
    pub active: Node,
    pub seats: [Seat; N],
    pub armed: bool,
}
