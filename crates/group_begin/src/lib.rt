//! How the servers of a group begin: the active one, a standby, and the streams that are made first.
#![tactic(auto)]

ghost use Rattle.std.specs.Prelude.{◌≡◌, false, [], IfOk};
ghost use Rattle.plain_service.specs.Setups.{Setup};
ghost use Rattle.service_core.specs.Beginning.{BeginsAs, CanBeginAs};
ghost use Rattle.lead_rounds.specs.Nodes.{standby_by};
ghost use Rattle.group_begin.specs.Starting.{Starts, broken_by};

use ais_values::Seq;
use cluster_clients::EventAnswer;
use disk_model::DiskAnswer;
use mirror::{Node, Role, let_heard_go, let_node_go};
pub use script::wells_of;
use service_core::Service;
use std::alloc::{AllocError, Global};
use std::mem;
use stream_config::StreamAttrs;
use stream_layout::Deed;

/// The active server at the start, tied to each standby, and the deeds of the start. What it would send these is left out, since they
/// begin with the same. `Err` comes only for want of memory.
pub fn start_active(
    alloc: Global,
    start: i64,
    queue: u32,
    wells: Seq<StreamAttrs>,
) -> Result<(Node, Seq<Deed>), AllocError>
    requires { CanBeginAs start queue wells }
    ensures { IfOk result (λ made. (setup : Setup) → BeginsAs setup start queue wells →
        Starts setup made.0 made.1) }
{
    match Service::new(alloc, start, queue, wells) {
        Ok((service, deeds)) => {
            let mut node = Node::start(alloc, Role::Active, service);
            match node.begin_join(alloc) {
                Ok(heard) => {
                    let_heard_go(heard);
                    Ok((node, deeds))
                }
                Err(error) => {
                    let_node_go(node);
                    mem::drop(deeds);
                    Err(error)
                }
            }
        }
        Err(error) => Err(error),
    }
}

/// A standby at the start. `Err` comes only for want of memory.
pub fn start_standby(
    alloc: Global,
    start: i64,
    queue: u32,
    wells: Seq<StreamAttrs>,
) -> Result<Node, AllocError>
    requires { CanBeginAs start queue wells }
    ensures { IfOk result (λ node. (setup : Setup) → BeginsAs setup start queue wells →
        node ≡ standby_by setup [] false) }
{
    match Service::new(alloc, start, queue, wells) {
        Ok((service, deeds)) => {
            mem::drop(deeds);
            Ok(Node::start(alloc, Role::Standby, service))
        }
        Err(error) => Err(error),
    }
}

/// Why a start was not done, by what the disk answered: nothing is printed.
pub fn unbegun(alloc: Global, answer: DiskAnswer) -> EventAnswer
    ensures { result ≡ broken_by answer }
{
    match answer {
        DiskAnswer::Memory | DiskAnswer::Stopped => EventAnswer::Memory,
        DiskAnswer::Failed => EventAnswer::DiskFault {
            printed: Seq::new(alloc),
        },
    }
}
