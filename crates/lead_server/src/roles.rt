//! The roles of servers.
ghost use Rattle.std.specs.Prelude.{◌≡◌};
ghost use Rattle.mirror.specs.Replicas.{down};
ghost use Rattle.mirror.specs.Pairing.{alone, joining};
ghost use Rattle.lead_server.specs.Roles.{stands_by, stays_down, role_shown};

use cluster_events::ServerRole;
use mirror::{Node, Role, let_node_go};
use std::alloc::Global;
use std::mem;

/// Whether a server is standby.
pub fn is_standby(node: &Node) -> bool
    ensures { result ≡ stands_by node.now.replica.role }
{
    match node.role() {
        Role::Standby => true,
        _ => false,
    }
}

/// Whether a server is down.
pub fn is_down(node: &Node) -> bool
    ensures { result ≡ stays_down node.now.replica.role }
{
    match node.role() {
        Role::Down => true,
        _ => false,
    }
}

/// How a line tells the role of a server; the active one is armed or not.
pub fn role_shown(armed: bool, role: Role) -> ServerRole
    ensures { result ≡ role_shown armed role }
{
    match role {
        Role::Active => {
            if armed {
                ServerRole::Armed
            } else {
                ServerRole::Active
            }
        }
        Role::Standby => ServerRole::Standby,
        Role::Joining => ServerRole::Joining,
        Role::Down => ServerRole::Down,
    }
}

/// A server goes down; what it had is let go.
pub fn go_down(node: &mut Node)
    ensures { node.new ≡ alone down }
{
    let_node_go(mem::replace(node, Node::down()));
}

/// A server comes back, and waits for the value of the service; what it had is let go.
pub fn go_joining(alloc: Global, node: &mut Node)
    ensures { node.new ≡ alone joining }
{
    let_node_go(mem::replace(node, Node::joining(alloc)));
}
