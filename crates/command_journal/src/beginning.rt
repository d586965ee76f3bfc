//! How a server and its journal begin.
ghost use Rattle.std.specs.Prelude.{◌≡◌, ℕ, List, None, IfOk, OnOk, OnErr};
ghost use Rattle.plain_service.specs.Setups.{Setup};
ghost use Rattle.mirror.specs.declared.heard.Role.TheVariants.{Active};
ghost use Rattle.mirror.specs.Pairing.{alone};
ghost use Rattle.mirror.specs.Replicas.{started};
ghost use Rattle.lone_server.specs.Restarting.{linked};
ghost use Rattle.script_language.specs.Lines.{Spells};
ghost use Rattle.cluster_lines.specs.Beginning.{Begins};
ghost use Rattle.service_core.specs.Beginning.{BeginsAs, CanBeginAs};
ghost use Rattle.played_runs.specs.Views.{HoldsNone};
ghost use Rattle.command_journal.specs.Beginning.{Begun, LeavesStart};
ghost use Rattle.command_journal.specs.Playing.{RisesInEvent};
ghost use Rattle.command_journal.specs.Starting.{broken_by, world_of, Opens, Starts};
ghost use Rattle.command_journal.specs.Worlds.{both, empty_cold};

use crate::{ColdWorld, EventAnswer};
use ais_values::Seq;
use calls::{Boxed, History, Saved};
use disk_model::{DiskAnswer, SharedDisk};
use journal_start::Journal;
use lone_server::link_journal;
use message_net::Net;
use mirror::{Node, Role, let_node_go};
use script::wells_of;
use script_lines::Line;
use service_core::Service;
use std::alloc::{AllocError, Global};
use std::mem;
use stream_config::StreamAttrs;
use stream_files::perform;
use stream_layout::Deed;
use wire::{Message, let_message_go};

/// What a cluster line begins: the server, linked to its journal; the message that brings the value of its service; the deeds of the
/// start; the time, and how many callbacks each agent's queue holds.
#[derive(Drop)]
struct Opening {
    node: Node,
    snapshot: Message,
    deeds: Seq<Deed>,
    start: i64,
    callbacks: u32,
}

/// The server of a service, active and linked to its journal.
fn start_linked(alloc: Global, service: Service) -> Result<Node, AllocError>
    ensures { IfOk result (λ node. node ≡ linked (alone (started Active service))) }
{
    let mut node = Node::start(alloc, Role::Active, service);
    match link_journal(alloc, &mut node, 0) {
        Ok(()) => Ok(node),
        Err(error) => {
            let_node_go(node);
            Err(error)
        }
    }
}

/// The value of a service, by itself in memory.
fn saved_of(alloc: Global, service: &Service) -> Result<Boxed<Saved>, AllocError>
    ensures { IfOk result (λ saved. saved ≡ service.now) }
{
    let saved = service.save(alloc)?;
    Boxed::new(alloc, saved)
}

/// The server at the start, the message that brings the value of its service, and the deeds of the start.
fn start_from(
    alloc: Global,
    start: i64,
    queue: u32,
    wells: Seq<StreamAttrs>,
) -> Result<(Node, Message, Seq<Deed>), AllocError>
    requires { CanBeginAs start queue wells }
    ensures { IfOk result (λ made. (setup : Setup) → BeginsAs setup start queue wells →
        Starts setup made.0 made.1 made.2) }
{
    let (service, deeds) = match Service::new(alloc, start, queue, wells) {
        Ok(made) => made,
        Err(error) => return Err(error),
    };
    let saved = match saved_of(alloc, &service) {
        Ok(saved) => saved,
        Err(error) => {
            let_node_go(Node::start(alloc, Role::Active, service));
            mem::drop(deeds);
            return Err(error);
        }
    };
    match start_linked(alloc, service) {
        Ok(node) => Ok((node, Message::Snapshot { saved }, deeds)),
        Err(error) => {
            let_message_go(Some(Message::Snapshot { saved }));
            mem::drop(deeds);
            Err(error)
        }
    }
}

/// What a cluster line begins.
fn opened(alloc: Global, line: &Line) -> Result<Opening, AllocError>
    requires line { (setup : Setup) × (places : ℕ) × Begins line.now setup places }
    requires spelled { (raw : List ℕ) × Spells line.now raw }
    ensures { IfOk result (λ opening. (setup : Setup) (places : ℕ) →
        Begins line.now setup places → Opens setup places opening) }
{
    match line {
        Line::Cluster {
            start: time,
            queue,
            callbacks,
            alarm,
            ntf,
            sys,
        } => {
            let wells = wells_of(alloc, alarm, ntf, sys)?;
            let (node, snapshot, deeds) = start_from(alloc, *time, *queue, wells)?;
            Ok(Opening {
                node,
                snapshot,
                deeds,
                start: *time,
                callbacks: *callbacks,
            })
        }
        _ => Err(AllocError),
    }
}

/// Lets go what a cluster line begins.
fn let_opening_go(opening: Opening) {
    let Opening {
        node,
        snapshot,
        deeds,
        start: _,
        callbacks: _,
    } = opening;
    let_node_go(node);
    let_message_go(Some(snapshot));
    mem::drop(deeds);
}

/// A world in which nothing was posted, with this server and journal.
fn world_of(alloc: Global, opening: Opening, journal: Journal) -> ColdWorld
    ensures { result ≡ world_of opening.node journal opening.start opening.callbacks }
{
    let Opening {
        node,
        snapshot,
        deeds,
        start,
        callbacks,
    } = opening;
    let_message_go(Some(snapshot));
    mem::drop(deeds);
    ColdWorld {
        node,
        journal,
        link: Seq::new(alloc),
        back: Seq::new(alloc),
        net: Net::new(alloc),
        agents: Seq::new(alloc),
        history: History::new(alloc),
        now: start,
        armed: false,
        callbacks,
    }
}

/// Why the start was not done: nothing is printed.
fn unbegun(alloc: Global, answer: DiskAnswer) -> EventAnswer
    ensures { result ≡ broken_by answer }
{
    match answer {
        DiskAnswer::Memory | DiskAnswer::Stopped => EventAnswer::Memory,
        DiskAnswer::Failed => EventAnswer::DiskFault {
            printed: Seq::new(alloc),
        },
    }
}

impl ColdWorld {
    /// Begins the server of a script's first line: it is active, and linked to its journal. Its service is that of a history without
    /// entries, the well-known streams are made on the record disk, and then the journal is made of the service's value on the other.
    ///
    /// The world is an empty one, the line a cluster line as it can stand in a script, and neither disk is armed. Where the disks tell
    /// their files, they hold none before; the record disk holds those of the empty history after, and the journal's the journal of it.
    /// Neither is armed then either.
    ///
    /// On an error the world stays empty. `Memory` comes only for want of memory; some device calls of the start may be done.
    /// `DiskFault` comes exactly where a disk's count of faults rose: a device call failed, those before it were done, and nothing is
    /// printed. On `Ok` and on `Memory` both counts stand. No disk stops, no calls but those of the start are made, and `Journal` never
    /// comes. No thread starts: the queues of callbacks are made with the clients' first calls.
    pub fn begin<R, D: SharedDisk, J: SharedDisk>(
        &mut self,
        _rt: &R,
        alloc: Global,
        line: &Line,
        disk: &mut D,
        journal: &mut J,
    ) -> Result<(), EventAnswer>
        requires line { (setup : Setup) × (places : ℕ) × Begins line.now setup places }
        requires spelled { (raw : List ℕ) × Spells line.now raw }
        requires empty { self.old ≡ empty_cold }
        requires unarmed { (D.seen disk.old).tally.armed ≡ None }
        requires unarmed_too { (J.seen journal.old).tally.armed ≡ None }
        ensures ok { (setup : Setup) (places : ℕ) → Begins line.now setup places →
            HoldsNone (D.seen disk.old).files → OnOk result (Begun setup places
            (both (D.seen disk.old) (J.seen journal.old))
            (both (D.seen disk.new) (J.seen journal.new)) self.new) }
        ensures same { OnErr result (self.new ≡ self.old) }
        ensures leaves { (setup : Setup) (places : ℕ) → Begins line.now setup places →
            LeavesStart setup (both (D.seen disk.old) (J.seen journal.old))
            (both (D.seen disk.new) (J.seen journal.new)) result }
        ensures cause { RisesInEvent (both (D.seen disk.old) (J.seen journal.old))
            (both (D.seen disk.new) (J.seen journal.new)) result }
    {
        let opening = match opened(alloc, line) {
            Ok(opening) => opening,
            Err(_) => return Err(EventAnswer::Memory),
        };
        match perform(disk, &opening.deeds) {
            Ok(()) => {}
            Err(answer) => {
                let_opening_go(opening);
                return Err(unbegun(alloc, answer));
            }
        }
        match Journal::make(alloc, journal, &opening.snapshot) {
            Ok(made) => {
                mem::replace(self, world_of(alloc, opening, made)).end();
                Ok(())
            }
            Err(answer) => {
                let_opening_go(opening);
                Err(unbegun(alloc, answer))
            }
        }
    }
}
