//! A server of a pair: one is active, and the other follows it and takes over where it goes down.
ghost use Rattle.std.specs.Prelude.{◌≡◌, ◌<◌, ◌↔◌, ℤ, IsTrue, IsSome, None, List, [], ◌∷◌, is_some, option_copied, IfOk, IfSome, IsOk, OnOk, OnErr, IsErrOf};
ghost use Rattle.ais_values.specs.Causes.{RoseExactlyOn};
ghost use Rattle.disk_model.specs.DeviceCalls.{Performs};
ghost use Rattle.disk_model.specs.declared.answers.DiskAnswer.{DiskAnswer};
ghost use Rattle.stream_layout.specs.Deeds.{calls_of_all};
ghost use Rattle.calls.specs.declared.call.Call.{Call as CallOf};
ghost use Rattle.calls.specs.declared.entry.Entry.{Entry as EntryOf};
ghost use Rattle.calls.specs.declared.saved.Saved.{Saved as SavedOf};
ghost use Rattle.plain_service.specs.Setups.{Setup};
ghost use Rattle.plain_service.specs.Fitness.{IsFit};
ghost use Rattle.service_laws.specs.PlainOf.{plain_of};
ghost use Rattle.wire.specs.declared.message.Message.TheVariants.{Request, Reply as Answer, JoinAck};
ghost use Rattle.mirror.specs.declared.heard.Role.TheVariants as role;
ghost use Rattle.mirror.specs.declared.heard.Outcome.TheVariants.{Changed, Joined};
ghost use Rattle.mirror.specs.Replicas.{HasService, HasRoom, down, started, number_in_hand, at_rest};
ghost use Rattle.mirror.specs.Hearing.{CanHear, repeated};
ghost use Rattle.mirror.specs.ByValue.{serving, items_pushed, reply_again};
ghost use Rattle.mirror.specs.Working.{deeds_in, has_deeds, replies_in, worked};
ghost use Rattle.mirror.specs.Pairing.{alone, joining, sent, IsJoinBegun, parted, worked_out, with_peer, deeds_kept, keeps_deeds};
ghost use Rattle.mirror.specs.Pairing.{taken_over, confirmed, IsHeard, IsFollowed, IsReceived, IsNextEntry, CanApplyIn, CanReceive, Admits};
ghost use Rattle.mirror.specs.InsideNode.{state_in, IsOpen};

use crate::hearing::{ignore, kept_reply};
use crate::pairing::{can_join, has_room, is_next, send};
use crate::parts::push_items;
use crate::state::NodeState;
use crate::{Heard, Outcome, Role, Why};
use ais_values::{Duplicate, Seq};
use calls::{Entry, Reply, Saved};
use disk_model::{DiskAnswer, SharedDisk};
use service_core::Service;
use std::alloc::{AllocError, Global};
use std::marker::Model;
use std::mem::replace;
use wire::{Message, let_message_go, one_message};

/// What ties the active server to its partner.
#[derive(Clone, Copy)]
pub enum Tie {
    /// Nothing.
    Apart,
    /// The partner joins, and is promised the value of the service once the entry in hand is worked.
    Owing,
    /// Each entry goes to the partner before it is committed.
    Linked,
}

/// What a server has.
#[derive(Drop)]
enum Server {
    /// Nothing: it is down.
    Down,
    /// Nothing: it waits for the value of the service.
    Joining,
    /// A service alone: it has just begun with it.
    Fresh { role: Role, service: Service },
    /// All that one with a service has.
    Serving { state: Box<NodeState> },
}

/// A server of a pair: its replica of the service; the entry in hand while it waits until the partner has it; what ties it to
/// its partner; the messages that the partner is promised; and the deeds of the last entry that it applied as standby, where it
/// applied one since it started or joined. All this stands by itself in memory, so a server is small where it is moved; room for
/// it is made by the first call that may need it, so a server begins without memory.
#[derive(Drop)]
pub struct Node {
    server: Server,
}

impl Model for Node {
    ghost use Rattle.mirror.specs.declared.state.NodeState.{NodeState};

    ghost Value = { NodeState };

    ghost use Rattle.mirror.specs.InsideNode.{state_of};

    ghost view = { state_of };
}

// Makes room for all that a server with a service may have. What the server has stays.
fn open(server: &mut Server, alloc: Global) -> Result<(), AllocError>
    ensures stays { state_in server.new ≡ state_in server.old }
    ensures open { OnOk result (IsOpen server.new) }
{
    match server {
        Server::Down => Ok(()),
        Server::Joining => Ok(()),
        Server::Fresh { .. } => {
            let mut state = Box::new(alloc, NodeState::down(alloc))?;
            let Server::Fresh { role, service } = replace(server, Server::Down) else {
                unreachable!()
            };
            let before = replace(&mut *state, NodeState::start(alloc, role, service));
            drop(before);
            drop(replace(server, Server::Serving { state }));
            Ok(())
        }
        Server::Serving { .. } => Ok(()),
    }
}

impl Node {
    /// A server that begins with a service, as the active one or as standby, without link and with nothing in hand. It takes no
    /// memory.
    pub fn start(alloc: Global, role: Role, service: Service) -> Node
        requires { HasService role }
        ensures { result ≡ alone (started role service) }
    {
        let _ = alloc;
        Node {
            server: Server::Fresh { role, service },
        }
    }

    /// A server that waits for the value of the service. It takes no memory.
    pub fn joining(alloc: Global) -> Node
        ensures { result ≡ alone joining }
    {
        let _ = alloc;
        Node {
            server: Server::Joining,
        }
    }

    /// A server that is down. It takes no memory.
    pub fn down() -> Node
        ensures { result ≡ alone down }
    {
        Node {
            server: Server::Down,
        }
    }

    /// The server's role.
    pub fn role(&self) -> Role
        ensures { result ≡ self.now.replica.role }
    {
        match &self.server {
            Server::Down => Role::Down,
            Server::Joining => Role::Joining,
            Server::Fresh { role, .. } => *role,
            Server::Serving { state } => state.replica.role(),
        }
    }

    /// Whether the server is a standby that has applied an entry since it started or received the value of the service.
    /// It keeps that entry's deeds then, also where these are none.
    pub fn keeps(&self) -> bool
        ensures { result ≡ keeps_deeds self.now }
    {
        match &self.server {
            Server::Down => false,
            Server::Joining => false,
            Server::Fresh { .. } => false,
            Server::Serving { state } => match state.replica.role() {
                Role::Standby => state.kept.is_some(),
                _ => false,
            },
        }
    }

    /// Whether a further entry can be accepted: fewer than 4,000,000,000 were, or the server has no service that counts them.
    pub fn has_room(&self) -> bool
        ensures { IsTrue result ↔ HasRoom self.now.replica.service }
    {
        match &self.server {
            Server::Down => true,
            Server::Joining => true,
            Server::Fresh { service, .. } => has_room(service),
            Server::Serving { state } => state.replica.has_room(),
        }
    }

    /// The number of the entry in hand: the first that was ever accepted has number 1. `None` comes exactly where nothing is in
    /// hand.
    pub fn in_hand(&self) -> Option<u64>
        ensures number { result ≡ number_in_hand self.now.replica }
        ensures none { result ≡ None → self.now.replica.owed ≡ None }
    {
        match &self.server {
            Server::Down => None,
            Server::Joining => None,
            Server::Fresh { .. } => None,
            Server::Serving { state } => state.replica.in_hand(),
        }
    }

    /// Whether an entry is in hand that is ready to work.
    pub fn ready(&self) -> bool
        ensures { IsTrue result ↔ (IsSome self.now.replica.owed × (self.now.waits ≡ None)) }
    {
        match &self.server {
            Server::Down => false,
            Server::Joining => false,
            Server::Fresh { .. } => false,
            Server::Serving { state } => state.replica.ready() && state.waits.is_none(),
        }
    }

    /// Whether the entry in hand has deeds to be done on the disk; without one there are none.
    pub fn has_deeds(&self) -> bool
        ensures { result ≡ has_deeds self.now.replica.owed }
    {
        match &self.server {
            Server::Down => false,
            Server::Joining => false,
            Server::Fresh { .. } => false,
            Server::Serving { state } => state.replica.has_deeds(),
        }
    }

    /// The entry in hand that waits until the partner has it; `None` where none waits.
    pub fn waiting(&self) -> Option<&Entry>
        ensures { option_copied result ≡ self.now.waits }
    {
        match &self.server {
            Server::Down => None,
            Server::Joining => None,
            Server::Fresh { .. } => None,
            Server::Serving { state } => state.waits.as_ref(),
        }
    }

    /// The entry in hand waits no longer: it is ready. Answers with it, if it waited.
    pub fn take_waiting(&mut self) -> Option<Entry>
        ensures entry { result ≡ self.old.waits }
        ensures now { self.new ≡ confirmed self.old }
    {
        match &mut self.server {
            Server::Down => None,
            Server::Joining => None,
            Server::Fresh { .. } => None,
            Server::Serving { state } => state.waits.take(),
        }
    }

    /// A partner joins the active server. With nothing in hand it gets the value of the service at once and is linked;
    /// else both come with the work that empties the hand. `Err` comes only for want of memory, and nothing changes then.
    pub fn begin_join(&mut self, alloc: Global) -> Result<Heard, AllocError>
        requires role { self.old.replica.role ≡ role.Active }
        ensures ok { IfOk result (λ heard.
            IsJoinBegun (is_some self.old.replica.owed) self.old heard self.new) }
        ensures err { OnErr result (self.new ≡ self.old) }
    {
        open(&mut self.server, alloc)?;
        match &mut self.server {
            Server::Down => unreachable!(),
            Server::Joining => unreachable!(),
            Server::Fresh { .. } => unreachable!(),
            Server::Serving { state } => state.begin_join(alloc),
        }
    }

    /// The partner of the active server went down: there is no link, nothing is promised, and an entry that waits is
    /// committed and ready.
    pub fn peer_down(&mut self, alloc: Global) -> Heard
        requires role { self.old.replica.role ≡ role.Active }
        ensures heard { result ≡ sent [] self.old.waits Changed }
        ensures now { self.new ≡ parted self.old }
    {
        match &mut self.server {
            Server::Down => unreachable!(),
            Server::Joining => unreachable!(),
            Server::Fresh { .. } => send(alloc, Seq::new(alloc), None, Outcome::Changed),
            Server::Serving { state } => state.peer_down(alloc),
        }
    }

    /// Does the deeds of the entry in hand, which is ready, in order, and then asks for the reply to be posted, if there
    /// is one, and for what the partner is promised; nothing is in hand after it.
    ///
    /// It makes the deeds' calls in order, up to the first that is not done, and no others. `Memory`: some of them from
    /// the front are done, fewer than all, and the server is as it was, so that it can work again. `Failed`, which comes
    /// exactly where the disk's count of faults rose: some calls from the front are done, the next one failed, and the
    /// server is down. `Stopped`, which comes exactly where its count of stops rose: some calls from the front are done,
    /// the armed count was reached in the next one, in which the disk crashed, and the server is down.
    pub fn work<D: SharedDisk>(&mut self, alloc: Global, disk: &mut D) -> Result<Heard, DiskAnswer>
        requires hand { IsSome self.old.replica.owed }
        requires ready { self.old.waits ≡ None }
        ensures done { IfOk result (λ heard.
            (heard ≡ with_peer (worked (replies_in self.old.replica.owed)) self.old.promised)
            × (self.new ≡ worked_out self.old)) }
        ensures performs { Performs (calls_of_all (deeds_in self.old.replica.owed)) result
            (D.seen disk.old).files (D.seen disk.new).files
            (D.seen disk.old).tally (D.seen disk.new).tally }
        ensures memory { IsErrOf result DiskAnswer.Memory → self.new ≡ self.old }
        ensures failed { IsErrOf result DiskAnswer.Failed → self.new ≡ alone down }
        ensures stopped { IsErrOf result DiskAnswer.Stopped → self.new ≡ alone down }
        ensures cause { RoseExactlyOn (D.seen disk.old).faults (D.seen disk.new).faults result
            DiskAnswer.Failed }
        ensures stop { RoseExactlyOn (D.seen disk.old).stops (D.seen disk.new).stops result
            DiskAnswer.Stopped }
    {
        match &mut self.server {
            Server::Down => unreachable!(),
            Server::Joining => unreachable!(),
            Server::Fresh { .. } => unreachable!(),
            Server::Serving { state } => state.work(alloc, disk),
        }
    }

    /// The standby becomes active, without link and with nothing in hand: it first does the deeds of the last entry that
    /// it applied again, in order; none if it applied none since it joined.
    ///
    /// It makes the deeds' calls in order, up to the first that is not done, and no others. `Memory`: some of them from
    /// the front are done, fewer than all, and the server is as it was, so that it can take over again. `Failed` comes
    /// exactly where the disk's count of faults rose, and `Stopped` exactly where its count of stops rose; the server is
    /// down then.
    pub fn takeover<D: SharedDisk>(
        &mut self,
        alloc: Global,
        disk: &mut D,
    ) -> Result<Heard, DiskAnswer>
        requires { self.old.replica.role ≡ role.Standby }
        ensures done { IfOk result (λ heard. (heard ≡ sent [] None Changed)
            × (self.new ≡ taken_over self.old)) }
        ensures performs { Performs (calls_of_all (deeds_kept self.old.kept)) result
            (D.seen disk.old).files (D.seen disk.new).files
            (D.seen disk.old).tally (D.seen disk.new).tally }
        ensures memory { IsErrOf result DiskAnswer.Memory → self.new ≡ self.old }
        ensures failed { IsErrOf result DiskAnswer.Failed → self.new ≡ alone down }
        ensures stopped { IsErrOf result DiskAnswer.Stopped → self.new ≡ alone down }
        ensures cause { RoseExactlyOn (D.seen disk.old).faults (D.seen disk.new).faults result
            DiskAnswer.Failed }
        ensures stop { RoseExactlyOn (D.seen disk.old).stops (D.seen disk.new).stops result
            DiskAnswer.Stopped }
    {
        match &mut self.server {
            Server::Down => unreachable!(),
            Server::Joining => unreachable!(),
            Server::Fresh { role, .. } => {
                *role = Role::Active;
                Ok(send(alloc, Seq::new(alloc), None, Outcome::Changed))
            }
            Server::Serving { state } => state.takeover(alloc, disk),
        }
    }

    /// The messages that bring the items without receipt to their clients, in order of client, key and number. An
    /// entry may not be in hand. `Err` comes only for want of memory.
    pub fn push(&self, alloc: Global) -> Result<Seq<Message>, AllocError>
        requires role { self.now.replica.role ≡ role.Active }
        requires idle { self.now.replica.owed ≡ None }
        ensures history { IfOk result (λ messages. (setup : Setup) (past : List EntryOf) →
            self.now.replica ≡ at_rest setup past → messages ≡ (plain_of setup).held past) }
        ensures value { IfOk result (λ messages.
            messages ≡ items_pushed self.now.replica.service) }
    {
        match &self.server {
            Server::Down => unreachable!(),
            Server::Joining => unreachable!(),
            Server::Fresh { service, .. } => {
                let messages = push_items(service, alloc)?;
                Ok(messages)
            }
            Server::Serving { state } => state.replica.push(alloc),
        }
    }

    /// The reply that the active server asks to be posted again where it hears this client's call of this number, which is at least 1, at
    /// any moment and whatever the call is; nothing else changes then. `None` where an entry is in hand, and by each fit value of the service
    /// exactly where it keeps no reply to such a call. It takes no memory.
    pub fn reply_again(&self, client: u16, seq: u32) -> Option<&Reply>
        requires role { self.now.replica.role ≡ role.Active }
        requires number { 0 < seq }
        ensures again { IfSome result (λ reply. (call : CallOf) (now : ℤ) → IsHeard
            (Request client seq call) now self.now (repeated (Answer client seq reply.now))
            self.now) }
        ensures hand { IsSome self.now.replica.owed → result ≡ None }
        ensures value { (saved : SavedOf) → IsFit saved → self.now.replica ≡ serving saved None →
            option_copied result ≡ reply_again saved client seq }
    {
        match &self.server {
            Server::Down => None,
            Server::Joining => None,
            Server::Fresh { service, .. } => kept_reply(service, client, seq),
            Server::Serving { state } => state.replica.reply_again(client, seq),
        }
    }

    /// The active server hears a message of the net, as `receive` says of requests and receipts. Any other one is ignored: as busy while
    /// an entry is in hand, and else as not for its role. Fewer than 4,000,000,000 entries were accepted. `Err` comes only for want of
    /// memory, and nothing changes then.
    pub fn hear(&mut self, alloc: Global, message: &Message, now: i64) -> Result<Heard, AllocError>
        requires hear { CanHear message.now now }
        requires few { HasRoom self.old.replica.service }
        requires role { self.old.replica.role ≡ role.Active }
        ensures ok { IfOk result (λ heard. IsHeard message.now now self.old heard self.new) }
        ensures err { OnErr result (self.new ≡ self.old) }
    {
        open(&mut self.server, alloc)?;
        match &mut self.server {
            Server::Down => unreachable!(),
            Server::Joining => unreachable!(),
            Server::Fresh { .. } => unreachable!(),
            Server::Serving { state } => state.hear(alloc, message, now),
        }
    }

    // A server that joins takes the value of the service over. On an error nothing changes.
    fn join(&mut self, alloc: Global, saved: Saved) -> Result<Heard, AllocError>
        requires { IsFit saved }
        ensures ok { IfOk result (λ heard.
            (heard ≡ sent (JoinAck saved.number ∷ []) None Joined)
            × (self.new ≡ alone (started role.Standby saved))) }
        ensures err { OnErr result (self.new ≡ self.old) }
    {
        let number = saved.number;
        let to_peer = one_message(alloc, Message::JoinAck { number })?;
        let service = Service::restore_fit(alloc, saved)?;
        let node = Node::start(alloc, Role::Standby, service);
        drop(replace(self, node));
        Ok(send(alloc, to_peer, None, Outcome::Joined))
    }

    // A server that joins takes a copy of the value of the service. On an error nothing changes.
    fn join_copy(&mut self, alloc: Global, saved: &Saved) -> Result<Heard, AllocError>
        requires { IsFit saved.now }
        ensures ok { IfOk result (λ heard.
            (heard ≡ sent (JoinAck saved.now.number ∷ []) None Joined)
            × (self.new ≡ alone (started role.Standby saved.now))) }
        ensures err { OnErr result (self.new ≡ self.old) }
    {
        let copy = saved.copy(alloc)?;
        self.join(alloc, copy)
    }

    // The active server hears a message. On an error nothing changes.
    fn receive_active(
        &mut self,
        alloc: Global,
        message: &Message,
        now: i64,
    ) -> Result<Heard, AllocError>
        requires receive { CanReceive message.now now self.old }
        requires few { HasRoom self.old.replica.service }
        requires role { self.old.replica.role ≡ role.Active }
        ensures ok { IfOk result (λ heard.
            IsReceived role.Active message.now now self.old heard self.new) }
        ensures err { OnErr result (self.new ≡ self.old) }
    {
        match message {
            Message::Request { .. } => self.hear(alloc, message, now),
            Message::Receipt { .. } => self.hear(alloc, message, now),
            Message::MirrorAck { .. } => {
                drop(self.take_waiting());
                Ok(send(alloc, Seq::new(alloc), None, Outcome::Confirmed))
            }
            Message::JoinAck { .. } => { Ok(send(alloc, Seq::new(alloc), None, Outcome::Joined)) }
            _ => Ok(ignore(alloc, Why::NotForRole { role: Role::Active })),
        }
    }

    // The standby applies an entry and keeps its deeds. On an error nothing changes.
    fn follow(&mut self, alloc: Global, number: u64, entry: &Entry) -> Result<Heard, AllocError>
        requires can { CanApplyIn entry.now self.old.replica.service }
        requires role { self.old.replica.role ≡ role.Standby }
        ensures ok { IfOk result (λ heard. IsFollowed number entry.now self.old heard self.new) }
        ensures err { OnErr result (self.new ≡ self.old) }
    {
        open(&mut self.server, alloc)?;
        match &mut self.server {
            Server::Down => unreachable!(),
            Server::Joining => unreachable!(),
            Server::Fresh { .. } => unreachable!(),
            Server::Serving { state } => state.follow(alloc, number, entry),
        }
    }

    // The standby hears a message. On an error nothing changes.
    fn receive_standby(
        &mut self,
        alloc: Global,
        message: &Message,
        now: i64,
    ) -> Result<Heard, AllocError>
        requires receive { CanReceive message.now now self.old }
        requires role { self.old.replica.role ≡ role.Standby }
        ensures ok { IfOk result (λ heard.
            IsReceived role.Standby message.now now self.old heard self.new) }
        ensures err { OnErr result (self.new ≡ self.old) }
    {
        let _ = now;
        match message {
            Message::Mirror { number, entry } => self.follow(alloc, *number, entry),
            _ => Ok(ignore(
                alloc,
                Why::NotForRole {
                    role: Role::Standby,
                },
            )),
        }
    }

    // A server that joins hears a message. On an error nothing changes.
    fn receive_joining(
        &mut self,
        alloc: Global,
        message: &Message,
        now: i64,
    ) -> Result<Heard, AllocError>
        requires { CanReceive message.now now self.old }
        ensures ok { IfOk result (λ heard.
            IsReceived role.Joining message.now now self.old heard self.new) }
        ensures err { OnErr result (self.new ≡ self.old) }
    {
        let _ = now;
        match message {
            Message::Snapshot { saved } => self.join_copy(alloc, saved.get()),
            _ => Ok(ignore(
                alloc,
                Why::NotForRole {
                    role: Role::Joining,
                },
            )),
        }
    }

    // A server that joins hears a message that is handed over. On an error nothing changes.
    fn take_joining(
        &mut self,
        alloc: Global,
        message: Message,
        now: i64,
    ) -> Result<Heard, AllocError>
        requires { CanReceive message now self.old }
        ensures ok { IfOk result (λ heard.
            IsReceived role.Joining message now self.old heard self.new) }
        ensures err { OnErr result (self.new ≡ self.old) }
    {
        let _ = now;
        match message.into_saved() {
            Some(saved) => self.join(alloc, saved),
            None => Ok(ignore(
                alloc,
                Why::NotForRole {
                    role: Role::Joining,
                },
            )),
        }
    }

    // Whether an entry of this number is the next one, and can be applied.
    fn follows(&self, number: u64, entry: &Entry) -> bool
        ensures { IsTrue result ↔ IsNextEntry number entry.now self.now.replica.service }
    {
        match &self.server {
            Server::Down => false,
            Server::Joining => false,
            Server::Fresh { service, .. } => is_next(service, number, entry),
            Server::Serving { state } => state.replica.follows(number, entry),
        }
    }

    /// Whether the server can receive what a journal or the active server tells it: it is joining and the message is a fit value
    /// of the service, or it is standby and the message is the entry of the next number, which can be applied. It takes no
    /// memory, so there is never an error.
    pub fn admits(&self, alloc: Global, message: &Message) -> Result<bool, AllocError>
        ensures answer { IfOk result (λ answer. IsTrue answer ↔ Admits message.now self.now) }
        ensures ok { IsOk result }
    {
        let _ = alloc;
        match message {
            Message::Snapshot { saved } => { Ok(self.role() == Role::Joining && can_join(saved)) }
            Message::Mirror { number, entry } => {
                Ok(self.role() == Role::Standby && self.follows(*number, entry))
            }
            _ => Ok(false),
        }
    }

    /// Hears a message at a moment, from 0 to 9,000,000,000,000,000,000. A request or a receipt is that of a client from
    /// 1 to 4,096, and a request's number is at least 1; a mirrored entry is one that the server's service can apply, and
    /// the value of a service is fit. Fewer than 4,000,000,000 entries were accepted.
    ///
    /// A message for another role is ignored as such: requests, receipts and the partner's answers are for the active
    /// server, mirrored entries for the standby, the value of the service for a server that joins, and replies and items
    /// for none.
    ///
    /// A request or a receipt is ignored as busy while an entry is in hand. With nothing in hand the client's next request
    /// and a new receipt are accepted as the next entry of the history; the reply to one of the 32 requests before the
    /// client's next is to be posted again; a request before these is ignored as old, one behind the next as ahead, and a
    /// receipt that is not new as done. An accepted entry is committed at once, and ready; but where a partner is linked
    /// it goes to the partner and waits, and the partner's answer makes it ready.
    /// All this is so by each history that the service stands for, and by each fit value of the service, whatever led to it.
    ///
    /// The standby applies a mirrored entry, keeps its deeds and answers its number; it is committed with that. A server
    /// that joins is standby with the value, and answers how many entries it has. Where a message is ignored nothing
    /// changes. `Err` comes only for want of memory, and nothing changes then.
    pub fn receive(
        &mut self,
        alloc: Global,
        message: &Message,
        now: i64,
    ) -> Result<Heard, AllocError>
        requires receive { CanReceive message.now now self.old }
        requires few { HasRoom self.old.replica.service }
        ensures ok { IfOk result (λ heard.
            IsReceived self.old.replica.role message.now now self.old heard self.new) }
        ensures err { OnErr result (self.new ≡ self.old) }
    {
        match self.role() {
            Role::Active => self.receive_active(alloc, message, now),
            Role::Standby => self.receive_standby(alloc, message, now),
            Role::Joining => self.receive_joining(alloc, message, now),
            Role::Down => Ok(ignore(alloc, Why::NotForRole { role: Role::Down })),
        }
    }

    /// Hears a message that is handed over, as `receive` does. A server that joins takes the value of the service out of it, with no copy
    /// of its lists. `Err` comes only for want of memory, and nothing of the server changes then; the message is let go in any case.
    pub fn take_message(
        &mut self,
        alloc: Global,
        message: Message,
        now: i64,
    ) -> Result<Heard, AllocError>
        requires receive { CanReceive message now self.old }
        requires few { HasRoom self.old.replica.service }
        ensures ok { IfOk result (λ heard.
            IsReceived self.old.replica.role message now self.old heard self.new) }
        ensures err { OnErr result (self.new ≡ self.old) }
    {
        match self.role() {
            Role::Joining => self.take_joining(alloc, message, now),
            _ => {
                let heard = self.receive(alloc, &message, now);
                let_message_go(Some(message));
                heard
            }
        }
    }
}
