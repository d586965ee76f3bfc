//! What a server of a pair has, and what it makes of messages and of work.
ghost use Rattle.std.specs.Prelude.{◌≡◌, IsSome, None, [], is_some, IfOk, OnErr, IsErrOf};
ghost use Rattle.ais_values.specs.Causes.{RoseExactlyOn};
ghost use Rattle.disk_model.specs.DeviceCalls.{Performs};
ghost use Rattle.disk_model.specs.declared.answers.DiskAnswer.{DiskAnswer};
ghost use Rattle.stream_layout.specs.Deeds.{calls_of_all};
ghost use Rattle.mirror.specs.declared.heard.Role.TheVariants as role;
ghost use Rattle.mirror.specs.declared.heard.Outcome.TheVariants.{Changed};
ghost use Rattle.mirror.specs.Replicas.{HasRoom, down, started};
ghost use Rattle.mirror.specs.Hearing.{CanHear};
ghost use Rattle.mirror.specs.Working.{deeds_in, replies_in, worked};
ghost use Rattle.mirror.specs.Pairing.{alone, sent, IsJoinBegun, parted, worked_out, with_peer, deeds_kept, taken_over, IsHeard, IsFollowed, CanApplyIn};

use crate::node::Tie;
use crate::pairing::{hear_linked, link, send, send_also};
use crate::replica::Replica;
use crate::{Heard, Outcome, Role};
use ais_values::{Duplicate, Seq};
use calls::Entry;
use disk_model::{DiskAnswer, SharedDisk};
use service_core::Service;
use std::alloc::{AllocError, Global};
use std::mem::replace;
use stream_files::perform;
use stream_layout::Deed;
use wire::{Message, one_message};

/// What a server of a pair has: its replica of the service; the entry in hand while it waits until the partner has it; what ties it to
/// its partner; the messages that the partner is promised; and the deeds of the last entry that it applied as standby, where it
/// applied one since it started or joined. Contracts see a `Node` as one.
#[derive(Drop)]
pub struct NodeState {
    pub replica: Replica,
    pub waits: Option<Entry>,
    pub tie: Tie,
    pub promised: Seq<Message>,
    pub kept: Option<Seq<Deed>>,
}

/// A server with this replica and without partner.
fn alone(alloc: Global, replica: Replica) -> NodeState
    ensures { result ≡ alone replica }
{
    NodeState {
        replica,
        waits: None,
        tie: Tie::Apart,
        promised: Seq::new(alloc),
        kept: None,
    }
}

// Does the deeds that are kept, if any are.
fn perform_kept<D: SharedDisk>(disk: &mut D, kept: &Option<Seq<Deed>>) -> Result<(), DiskAnswer>
    ensures performs { Performs (calls_of_all (deeds_kept kept.now)) result (D.seen disk.old).files
        (D.seen disk.new).files (D.seen disk.old).tally (D.seen disk.new).tally }
    ensures cause { RoseExactlyOn (D.seen disk.old).faults (D.seen disk.new).faults result
        DiskAnswer.Failed }
    ensures stop { RoseExactlyOn (D.seen disk.old).stops (D.seen disk.new).stops result
        DiskAnswer.Stopped }
{
    match kept {
        Some(deeds) => perform(disk, deeds),
        None => Ok(()),
    }
}

impl NodeState {
    /// As `Node::start`.
    pub(crate) fn start(alloc: Global, role: Role, service: Service) -> NodeState
        ensures { result ≡ alone (started role service) }
    {
        alone(alloc, Replica::start(role, service))
    }

    /// As `Node::down`.
    pub(crate) fn down(alloc: Global) -> NodeState
        ensures { result ≡ alone down }
    {
        alone(alloc, Replica::down())
    }

    // Goes down; what it had is let go.
    fn go_down(&mut self, alloc: Global)
        ensures { self.new ≡ alone down }
    {
        let before = replace(self, NodeState::down(alloc));
        drop(before);
    }

    // Becomes active, without link and with nothing in hand.
    fn lead(&mut self, alloc: Global)
        ensures { self.new ≡ taken_over self.old }
    {
        self.replica.act();
        let waiting = self.waits.take();
        drop(waiting);
        self.tie = Tie::Apart;
        self.promised = Seq::new(alloc);
        self.kept = None;
    }

    /// As `Node::begin_join`.
    pub(crate) fn begin_join(&mut self, alloc: Global) -> Result<Heard, AllocError>
        requires role { self.old.replica.role ≡ role.Active }
        ensures ok { IfOk result (λ heard.
            IsJoinBegun (is_some self.old.replica.owed) self.old heard self.new) }
        ensures err { OnErr result (self.new ≡ self.old) }
    {
        let snapshot = self.replica.snapshot(alloc)?;
        if self.replica.ready() {
            self.promised = snapshot;
            self.tie = Tie::Owing;
            return Ok(send(alloc, Seq::new(alloc), None, Outcome::Changed));
        }
        self.promised = Seq::new(alloc);
        self.tie = Tie::Linked;
        Ok(send(alloc, snapshot, None, Outcome::Changed))
    }

    /// As `Node::peer_down`.
    pub(crate) fn peer_down(&mut self, alloc: Global) -> Heard
        requires role { self.old.replica.role ≡ role.Active }
        ensures heard { result ≡ sent [] self.old.waits Changed }
        ensures now { self.new ≡ parted self.old }
    {
        self.promised = Seq::new(alloc);
        self.tie = Tie::Apart;
        let committed = self.waits.take();
        send(alloc, Seq::new(alloc), committed, Outcome::Changed)
    }

    /// As `Node::work`.
    pub(crate) fn work<D: SharedDisk>(
        &mut self,
        alloc: Global,
        disk: &mut D,
    ) -> Result<Heard, DiskAnswer>
        requires hand { IsSome self.old.replica.owed }
        requires ready { self.old.waits ≡ None }
        ensures done { IfOk result (λ heard.
            (heard ≡ with_peer (worked (replies_in self.old.replica.owed)) self.old.promised)
            × (self.new ≡ worked_out self.old)) }
        ensures performs { Performs (calls_of_all (deeds_in self.old.replica.owed)) result
            (D.seen disk.old).files (D.seen disk.new).files
            (D.seen disk.old).tally (D.seen disk.new).tally }
        ensures memory { IsErrOf result DiskAnswer.Memory → self.new ≡ self.old }
        ensures failed { IsErrOf result DiskAnswer.Failed → self.new ≡ alone down }
        ensures stopped { IsErrOf result DiskAnswer.Stopped → self.new ≡ alone down }
        ensures cause { RoseExactlyOn (D.seen disk.old).faults (D.seen disk.new).faults result
            DiskAnswer.Failed }
        ensures stop { RoseExactlyOn (D.seen disk.old).stops (D.seen disk.new).stops result
            DiskAnswer.Stopped }
    {
        match self.replica.work(alloc, disk) {
            Ok(heard) => {
                self.tie = link(self.tie);
                let promised = replace(&mut self.promised, Seq::new(alloc));
                Ok(send_also(heard, promised))
            }
            Err(DiskAnswer::Memory) => Err(DiskAnswer::Memory),
            Err(DiskAnswer::Failed) => {
                self.go_down(alloc);
                Err(DiskAnswer::Failed)
            }
            Err(DiskAnswer::Stopped) => {
                self.go_down(alloc);
                Err(DiskAnswer::Stopped)
            }
        }
    }

    /// As `Node::takeover`.
    pub(crate) fn takeover<D: SharedDisk>(
        &mut self,
        alloc: Global,
        disk: &mut D,
    ) -> Result<Heard, DiskAnswer>
        requires { self.old.replica.role ≡ role.Standby }
        ensures done { IfOk result (λ heard. (heard ≡ sent [] None Changed)
            × (self.new ≡ taken_over self.old)) }
        ensures performs { Performs (calls_of_all (deeds_kept self.old.kept)) result
            (D.seen disk.old).files (D.seen disk.new).files
            (D.seen disk.old).tally (D.seen disk.new).tally }
        ensures memory { IsErrOf result DiskAnswer.Memory → self.new ≡ self.old }
        ensures failed { IsErrOf result DiskAnswer.Failed → self.new ≡ alone down }
        ensures stopped { IsErrOf result DiskAnswer.Stopped → self.new ≡ alone down }
        ensures cause { RoseExactlyOn (D.seen disk.old).faults (D.seen disk.new).faults result
            DiskAnswer.Failed }
        ensures stop { RoseExactlyOn (D.seen disk.old).stops (D.seen disk.new).stops result
            DiskAnswer.Stopped }
    {
        match perform_kept(disk, &self.kept) {
            Ok(()) => {
                self.lead(alloc);
                Ok(send(alloc, Seq::new(alloc), None, Outcome::Changed))
            }
            Err(DiskAnswer::Memory) => Err(DiskAnswer::Memory),
            Err(DiskAnswer::Failed) => {
                self.go_down(alloc);
                Err(DiskAnswer::Failed)
            }
            Err(DiskAnswer::Stopped) => {
                self.go_down(alloc);
                Err(DiskAnswer::Stopped)
            }
        }
    }

    /// As `Node::hear`.
    pub(crate) fn hear(
        &mut self,
        alloc: Global,
        message: &Message,
        now: i64,
    ) -> Result<Heard, AllocError>
        requires hear { CanHear message.now now }
        requires few { HasRoom self.old.replica.service }
        requires role { self.old.replica.role ≡ role.Active }
        ensures ok { IfOk result (λ heard. IsHeard message.now now self.old heard self.new) }
        ensures err { OnErr result (self.new ≡ self.old) }
    {
        match self.tie {
            Tie::Linked => hear_linked(&mut self.replica, &mut self.waits, alloc, message, now),
            _ => self.replica.receive(alloc, message, now),
        }
    }

    /// As `Node::follow`.
    pub(crate) fn follow(
        &mut self,
        alloc: Global,
        number: u64,
        entry: &Entry,
    ) -> Result<Heard, AllocError>
        requires { CanApplyIn entry.now self.old.replica.service }
        ensures ok { IfOk result (λ heard. IsFollowed number entry.now self.old heard self.new) }
        ensures err { OnErr result (self.new ≡ self.old) }
    {
        let to_peer = one_message(alloc, Message::MirrorAck { number })?;
        let committed = entry.copy(alloc)?;
        let deeds = match self.replica.apply(alloc, entry) {
            Ok(deeds) => deeds,
            Err(error) => {
                drop(committed);
                return Err(error);
            }
        };
        self.kept = Some(deeds);
        Ok(send(alloc, to_peer, Some(committed), Outcome::Applied))
    }
}
