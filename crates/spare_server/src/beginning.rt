//! How three servers begin.
ghost use Rattle.std.specs.Prelude.{◌≡◌, ℕ, List, None, IfOk, OnOk, OnErr};
ghost use Rattle.plain_service.specs.Setups.{Setup};
ghost use Rattle.script_language.specs.Lines.{Spells};
ghost use Rattle.trio_lines.specs.Lines.{SpellsTrio};
ghost use Rattle.service_core.specs.Beginning.{BeginsAs, CanBeginAs};
ghost use Rattle.cluster_clients.specs.Answers.{RisesAtFault};
ghost use Rattle.cluster_lines.specs.Beginning.{Begins};
ghost use Rattle.played_runs.specs.Views.{HoldsNone};
ghost use Rattle.played_runs.specs.Games.{Begun, LeavesOpening};
ghost use Rattle.spare_server.specs.Game.{trio_game};
ghost use Rattle.spare_server.specs.Playing.{BeginsTrio};
ghost use Rattle.spare_server.specs.Starting.{world_of, StartAll, StartOthers, StartsTrio};
ghost use Rattle.spare_server.specs.Worlds.{empty_trio};

use crate::TrioWorld;
use ais_values::Seq;
use calls::History;
use cluster_clients::EventAnswer;
use disk_model::SharedDisk;
use group_begin::{start_active, start_standby, unbegun, wells_of};
use message_net::Net;
use mirror::{Node, let_node_go};
use script_lines::Line;
use std::alloc::{AllocError, Global};
use std::mem;
use stream_config::StreamAttrs;
use stream_files::perform;
use stream_layout::Deed;
use trio_lines::TrioLine;

/// Both standbys at the start, each by attributes of its own.
fn start_others(
    alloc: Global,
    start: i64,
    queue: u32,
    wells: Seq<StreamAttrs>,
    same: Seq<StreamAttrs>,
) -> Result<(Node, Node), AllocError>
    requires one { CanBeginAs start queue wells }
    requires other { same ≡ wells }
    ensures { IfOk result (λ made. (setup : Setup) → BeginsAs setup start queue wells →
        StartOthers setup made.0 made.1) }
{
    match start_standby(alloc, start, queue, wells) {
        Ok(one) => match start_standby(alloc, start, queue, same) {
            Ok(other) => Ok((one, other)),
            Err(error) => {
                let_node_go(one);
                Err(error)
            }
        },
        Err(error) => {
            mem::drop(same);
            Err(error)
        }
    }
}

/// All servers at the start, with the deeds of the start, each by attributes of its own.
fn start_all(
    alloc: Global,
    start: i64,
    queue: u32,
    wells: Seq<StreamAttrs>,
    same: Seq<StreamAttrs>,
    third: Seq<StreamAttrs>,
) -> Result<(Node, Node, Node, Seq<Deed>), AllocError>
    requires one { CanBeginAs start queue wells }
    requires other { same ≡ wells }
    requires third { third ≡ wells }
    ensures { IfOk result (λ made. (setup : Setup) → BeginsAs setup start queue wells →
        StartAll setup made.0 made.1 made.2 made.3) }
{
    match start_active(alloc, start, queue, wells) {
        Ok((active, deeds)) => match start_others(alloc, start, queue, same, third) {
            Ok((one, other)) => Ok((active, one, other, deeds)),
            Err(error) => {
                let_node_go(active);
                mem::drop(deeds);
                Err(error)
            }
        },
        Err(error) => {
            mem::drop(same);
            mem::drop(third);
            Err(error)
        }
    }
}

/// A world in which nothing was posted, with these servers.
fn world_of(
    alloc: Global,
    active: Node,
    one: Node,
    other: Node,
    start: i64,
    callbacks: u32,
) -> TrioWorld
    ensures { result ≡ world_of active one other start callbacks }
{
    TrioWorld {
        a: active,
        b: one,
        c: other,
        link_a: Seq::new(alloc),
        link_b: Seq::new(alloc),
        link_c: Seq::new(alloc),
        back_a: Seq::new(alloc),
        back_b: Seq::new(alloc),
        back_c: Seq::new(alloc),
        net: Net::new(alloc),
        agents: Seq::new(alloc),
        history: History::new(alloc),
        now: start,
        armed: false,
        callbacks,
    }
}

/// The world at the start that a cluster line tells, and the deeds of the start.
fn started(alloc: Global, line: &Line) -> Result<(TrioWorld, Seq<Deed>), AllocError>
    requires line { (setup : Setup) × (places : ℕ) × Begins line.now setup places }
    requires spelled { (raw : List ℕ) × Spells line.now raw }
    ensures { IfOk result (λ made. (setup : Setup) (places : ℕ) → Begins line.now setup places →
        StartsTrio setup places made.0 made.1) }
{
    match line {
        Line::Cluster {
            start: time,
            queue,
            callbacks,
            alarm,
            ntf,
            sys,
        } => {
            let wells = wells_of(alloc, alarm, ntf, sys)?;
            let same = wells_of(alloc, alarm, ntf, sys)?;
            let third = wells_of(alloc, alarm, ntf, sys)?;
            let (active, one, other, deeds) = start_all(alloc, *time, *queue, wells, same, third)?;
            Ok((
                world_of(alloc, active, one, other, *time, *callbacks),
                deeds,
            ))
        }
        _ => Err(AllocError),
    }
}

/// The same of a line of three servers' scripts.
fn started_by(alloc: Global, line: &TrioLine) -> Result<(TrioWorld, Seq<Deed>), AllocError>
    requires line { (setup : Setup) × (places : ℕ) × BeginsTrio line.now setup places }
    requires spelled { (raw : List ℕ) × SpellsTrio line.now raw }
    ensures { IfOk result (λ made. (setup : Setup) (places : ℕ) →
        BeginsTrio line.now setup places → StartsTrio setup places made.0 made.1) }
{
    match line {
        TrioLine::Plain { line } => started(alloc, line),
        _ => Err(AllocError),
    }
}

impl TrioWorld {
    /// Begins the cluster of a script's first line: `a` is active, `b` and `c` are standby, the service of each is that of a history
    /// without entries, and the well-known streams are made on the disk.
    ///
    /// The world is an empty one, the line a cluster line as it can stand in a script, and the disk is not armed. Where the disk tells
    /// its files, it holds none before, and those of the empty history after. It is not armed then either.
    ///
    /// On an error the world stays empty. `Memory` comes only for want of memory; some device calls of the start may be done.
    /// `DiskFault` comes exactly where the disk's count of faults rose: a device call failed, those before it were done, and
    /// nothing is printed. On `Ok` and on `Memory` the count stands. The disk does not stop, and no calls but those of the start are
    /// made. No thread starts: the queues of callbacks are made with the clients' first calls.
    pub fn begin<R, D: SharedDisk>(
        &mut self,
        _rt: &R,
        alloc: Global,
        line: &TrioLine,
        disk: &mut D,
    ) -> Result<(), EventAnswer>
        requires line { (setup : Setup) × (places : ℕ) × BeginsTrio line.now setup places }
        requires spelled { (raw : List ℕ) × SpellsTrio line.now raw }
        requires empty { self.old ≡ empty_trio }
        requires unarmed { (D.seen disk.old).tally.armed ≡ None }
        ensures ok { (setup : Setup) (places : ℕ) → BeginsTrio line.now setup places →
            HoldsNone (D.seen disk.old).files → OnOk result (Begun trio_game setup places
            (D.seen disk.old).files (D.seen disk.new) self.new) }
        ensures same { OnErr result (self.new ≡ self.old) }
        ensures leaves { (setup : Setup) (places : ℕ) → BeginsTrio line.now setup places →
            LeavesOpening setup (D.seen disk.old) (D.seen disk.new) result }
        ensures cause { RisesAtFault (D.seen disk.old).faults (D.seen disk.new).faults result }
    {
        let (world, deeds) = match started_by(alloc, line) {
            Ok(made) => made,
            Err(_) => return Err(EventAnswer::Memory),
        };
        match perform(disk, &deeds) {
            Ok(()) => {
                mem::replace(self, world).end();
                Ok(())
            }
            Err(answer) => {
                world.end();
                Err(unbegun(alloc, answer))
            }
        }
    }
}
