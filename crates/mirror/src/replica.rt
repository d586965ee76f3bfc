//! The replica of the service that a server of the cluster has, and its role.
ghost use Rattle.std.specs.Prelude.{◌≡◌, ◌≢◌, ◌<◌, ◌↔◌, IsTrue, suc, List, [], ◌∷◌, Some, None, length, is_some, option_copied, IsSome, IfOk, IfSome, OnErr, IsErrOf};
ghost use Rattle.ais_values.specs.Causes.{RoseExactlyOn};
ghost use Rattle.disk_model.specs.DeviceCalls.{Performs};
ghost use Rattle.disk_model.specs.declared.answers.DiskAnswer.{DiskAnswer};
ghost use Rattle.stream_layout.specs.Deeds.{calls_of_all};
ghost use Rattle.calls.specs.declared.entry.Entry.{Entry as EntryOf};
ghost use Rattle.calls.specs.declared.saved.Saved.{Saved as SavedOf};
ghost use Rattle.plain_service.specs.Setups.{Setup};
ghost use Rattle.plain_service.specs.Legal.{IsHistory, CanFollow};
ghost use Rattle.plain_service.specs.Fitness.{IsFit};
ghost use Rattle.plain_service.specs.Values.{saved_of};
ghost use Rattle.service_laws.specs.PlainOf.{plain_of};
ghost use Rattle.mirror.specs.declared.heard.Role.TheVariants.{Active, Standby};
ghost use Rattle.mirror.specs.declared.owed.Owed.{Owed as OwedOf};
ghost use Rattle.mirror.specs.declared.heard.Why.TheVariants.{Busy, NotForRole};
ghost use Rattle.mirror.specs.Replicas.{HasRoom, down, started, number_of, number_in_hand, at_rest, at_work};
ghost use Rattle.mirror.specs.Hearing.{CanHear, IsHeardAtRest, ignored};
ghost use Rattle.mirror.specs.ByValue.{serving, reply_again, IsHeardByValue, items_pushed};
ghost use Rattle.mirror.specs.Working.{deeds_in, has_deeds, replies_in, worked, emptied};
ghost use Rattle.mirror.specs.Pairing.{joining, snapshots, acting, CanApplyIn, IsNextEntry};
ghost use Rattle.mirror.specs.Preparing.{number_next, wanted_by, HasApplied, HasAppliedTo};
ghost use Rattle.mirror.specs.Reacting.{AnswersAgain};

use crate::hearing::{becomes_next, ignore, kept_reply};
use crate::owed::Owed;
use crate::pairing::{apply_mirrored, has_room, is_next, snapshot_of};
use crate::parts::{do_deeds, hear_or_ignore, post_owed, push_items};
use crate::{Heard, Role, Why};
use ais_values::Seq;
use calls::{Entry, Reply};
use disk_model::{DiskAnswer, SharedDisk};
use service_core::Service;
use std::alloc::{AllocError, Global};
use std::marker::Model;
use std::mem::replace;
use stream_layout::Deed;
use wire::Message;

/// A server by itself, whatever its partner is: its role, its replica of the service, where the role has one, and what
/// the entry in hand asks for. Contracts see the service by the value that it can hand on.
#[derive(Drop)]
pub struct Replica {
    role: Role,
    service: Option<Service>,
    owed: Option<Owed>,
}

impl Model for Replica {
    ghost use Rattle.mirror.specs.Replicas.{ReplicaState};

    ghost Value = { ReplicaState };

    ghost use Rattle.mirror.specs.Inside.{server_of, IsOfService};

    ghost view = { server_of };

    ghost invariant = { IsOfService };
}

impl Replica {
    /// A server that is down.
    pub(crate) fn down() -> Replica
        ensures { result ≡ down }
    {
        Replica {
            role: Role::Down,
            service: None,
            owed: None,
        }
    }

    /// A server that waits for the value of the service.
    pub(crate) fn joining() -> Replica
        ensures { result ≡ joining }
    {
        Replica {
            role: Role::Joining,
            service: None,
            owed: None,
        }
    }

    /// A server that begins with a service, as the active one or as its partner, with nothing in hand.
    pub(crate) fn start(role: Role, service: Service) -> Replica
        ensures { result ≡ started role service }
    {
        Replica {
            role,
            service: Some(service),
            owed: None,
        }
    }

    /// The server's role.
    pub(crate) fn role(&self) -> Role
        ensures { result ≡ self.now.role }
    {
        self.role
    }

    /// How many entries the server's service has applied, the one in hand included; `None` where it has no service.
    pub(crate) fn number(&self) -> Option<u64>
        ensures { result ≡ number_of self.now }
    {
        match &self.service {
            None => None,
            Some(service) => Some(service.number()),
        }
    }

    /// Whether a further entry can be accepted: fewer than 4,000,000,000 were.
    pub(crate) fn has_room(&self) -> bool
        ensures { IsTrue result ↔ HasRoom self.now.service }
    {
        match &self.service {
            None => true,
            Some(service) => has_room(service),
        }
    }

    /// The number of the entry in hand: the first that was ever accepted has number 1. `None` where nothing is in hand.
    pub(crate) fn in_hand(&self) -> Option<u64>
        ensures number { result ≡ number_in_hand self.now }
        ensures none { result ≡ None → self.now.owed ≡ None }
    {
        match &self.owed {
            None => None,
            Some(_) => self.number(),
        }
    }

    /// Whether an entry is in hand that is ready to work.
    pub(crate) fn ready(&self) -> bool
        ensures { result ≡ is_some self.now.owed }
    {
        self.owed.is_some()
    }

    /// Whether the entry in hand has deeds to be done on the disk; without one there are none.
    pub(crate) fn has_deeds(&self) -> bool
        ensures { result ≡ has_deeds self.now.owed }
    {
        match &self.owed {
            None => false,
            Some(owed) => !owed.deeds.as_slice().is_empty(),
        }
    }

    /// Hears a message at a moment, from 0 to 9,000,000,000,000,000,000; a request or a receipt is that of a client
    /// from 1 to 4,096, and a request's number is at least 1. Fewer than 4,000,000,000 entries were accepted.
    ///
    /// The active server with an entry in hand ignores it as busy. With nothing in hand it accepts the client's next
    /// request and a new receipt as the next entry of the history, which is committed and in hand from then on; it
    /// asks for the reply to one of the 32 requests before the client's next to be posted again; and it ignores a
    /// request before these as old, one behind the next as ahead, a receipt that is not new as done, and any other
    /// message as not for its role. A server of another role ignores all messages as not for its role. Where a
    /// message is not accepted nothing changes. `Err` comes only for want of memory, and nothing changes then.
    pub fn receive(
        &mut self,
        alloc: Global,
        message: &Message,
        now: i64,
    ) -> Result<Heard, AllocError>
        requires hear { CanHear message.now now }
        requires few { HasRoom self.old.service }
        ensures role { IfOk result (λ heard. self.old.role ≢ Active →
            (heard ≡ ignored (NotForRole self.old.role)) × (self.new ≡ self.old)) }
        ensures busy { IfOk result (λ heard. (setup : Setup) (past : List EntryOf)
            (entry : EntryOf) → self.old ≡ at_work setup past entry →
            (heard ≡ ignored (Busy (suc (length past)))) × (self.new ≡ self.old)) }
        ensures rest { IfOk result (λ heard. (setup : Setup) (past : List EntryOf) →
            IsHistory setup past → self.old ≡ at_rest setup past →
            IsHeardAtRest setup past now message.now heard self.new) }
        ensures held { IfOk result (λ heard. (saved : SavedOf) (owed : OwedOf) →
            self.old ≡ serving saved (Some owed) →
            (heard ≡ ignored (Busy saved.number)) × (self.new ≡ self.old)) }
        ensures value { IfOk result (λ heard. (saved : SavedOf) → IsFit saved →
            self.old ≡ serving saved None →
            IsHeardByValue saved now message.now heard self.new) }
        ensures err { OnErr result (self.new ≡ self.old) }
    {
        let role = self.role;
        if role != Role::Active {
            return Ok(ignore(alloc, Why::NotForRole { role }));
        }
        match &mut self.service {
            None => Ok(ignore(alloc, Why::NotForRole { role })),
            Some(service) => {
                let heard = hear_or_ignore(service, &mut self.owed, alloc, message, now)?;
                Ok(heard)
            }
        }
    }

    /// Whether a message becomes the next entry.
    pub(crate) fn wants(&self, message: &Message) -> bool
        ensures { result ≡ wanted_by self.now.service message.now }
    {
        match &self.service {
            None => false,
            Some(service) => becomes_next(service, message),
        }
    }

    /// The reply that a request of this number gets again, where nothing is in hand and the service keeps it.
    pub(crate) fn reply_again(&self, client: u16, seq: u32) -> Option<&Reply>
        requires { 0 < seq }
        ensures again { IfSome result (λ reply. AnswersAgain self.now client seq reply.now) }
        ensures hand { IsSome self.now.owed → result ≡ None }
        ensures value { (saved : SavedOf) → IsFit saved → self.now ≡ serving saved None →
            option_copied result ≡ reply_again saved client seq }
    {
        match &self.owed {
            Some(_) => None,
            None => match &self.service {
                None => None,
                Some(service) => kept_reply(service, client, seq),
            },
        }
    }

    /// The number of the next entry.
    pub(crate) fn next_number(&self) -> u64
        requires { HasRoom self.now.service }
        ensures { result ≡ number_next self.now.service }
    {
        match &self.service {
            None => 1,
            Some(service) => service.number() + 1,
        }
    }

    /// The message that brings the value of the service to a server that joins; none where there is no service.
    pub(crate) fn snapshot(&self, alloc: Global) -> Result<Seq<Message>, AllocError>
        ensures { IfOk result (λ messages. messages ≡ snapshots self.now.service) }
    {
        match &self.service {
            None => Ok(Seq::new(alloc)),
            Some(service) => {
                let messages = snapshot_of(service, alloc)?;
                Ok(messages)
            }
        }
    }

    /// Whether an entry of this number is the next one, and can be applied.
    pub(crate) fn follows(&self, number: u64, entry: &Entry) -> bool
        ensures { IsTrue result ↔ IsNextEntry number entry.now self.now.service }
    {
        match &self.service {
            None => false,
            Some(service) => is_next(service, number, entry),
        }
    }

    /// Applies an entry of the partner's, and gives its deeds. On an error nothing changes.
    pub(crate) fn apply(&mut self, alloc: Global, entry: &Entry) -> Result<Seq<Deed>, AllocError>
        requires { CanApplyIn entry.now self.old.service }
        ensures ok { IfOk result (λ deeds. (setup : Setup) (past : List EntryOf) →
            IsHistory setup past → CanFollow setup entry.now past →
            self.old ≡ started Standby (saved_of setup past) →
            HasApplied setup past entry.now deeds self.new) }
        ensures value { IfOk result (λ deeds. (saved : SavedOf) →
            self.old ≡ started Standby saved →
            HasAppliedTo saved entry.now deeds self.new) }
        ensures err { OnErr result (self.new ≡ self.old) }
    {
        match &mut self.service {
            None => Ok(Seq::new(alloc)),
            Some(service) => {
                let deeds = apply_mirrored(service, alloc, entry)?;
                Ok(deeds)
            }
        }
    }

    /// It is the active one from now on, with nothing in hand.
    pub(crate) fn act(&mut self)
        ensures { self.new ≡ acting self.old }
    {
        self.role = Role::Active;
        let owed = self.owed.take();
        drop(owed);
    }

    // Goes down; what it had is let go.
    fn go_down(&mut self)
        ensures { self.new ≡ down }
    {
        let before = replace(self, Replica::down());
        drop(before);
    }

    /// Does the deeds of the entry in hand, in order, and then asks for the reply to be posted, if there is one;
    /// nothing is in hand after it.
    ///
    /// It makes the deeds' calls in order, up to the first that is not done, and no others. `Memory`: some of them from
    /// the front are done, fewer than all, and the server is as it was, so that it can work again. `Failed`, which comes
    /// exactly where the disk's count of faults rose: some calls from the front are done, the next one failed, and the
    /// server is down. `Stopped`, which comes exactly where its count of stops rose: some calls from the front are done,
    /// the armed count was reached in the next one, in which the disk crashed, and the server is down.
    pub(crate) fn work<D: SharedDisk>(
        &mut self,
        alloc: Global,
        disk: &mut D,
    ) -> Result<Heard, DiskAnswer>
        requires { IsSome self.old.owed }
        ensures done { IfOk result (λ heard. (heard ≡ worked (replies_in self.old.owed))
            × (self.new ≡ emptied self.old)) }
        ensures performs { Performs (calls_of_all (deeds_in self.old.owed)) result
            (D.seen disk.old).files (D.seen disk.new).files
            (D.seen disk.old).tally (D.seen disk.new).tally }
        ensures memory { IsErrOf result DiskAnswer.Memory → self.new ≡ self.old }
        ensures failed { IsErrOf result DiskAnswer.Failed → self.new ≡ down }
        ensures stopped { IsErrOf result DiskAnswer.Stopped → self.new ≡ down }
        ensures cause { RoseExactlyOn (D.seen disk.old).faults (D.seen disk.new).faults result
            DiskAnswer.Failed }
        ensures stop { RoseExactlyOn (D.seen disk.old).stops (D.seen disk.new).stops result
            DiskAnswer.Stopped }
    {
        match do_deeds(disk, &self.owed) {
            Ok(()) => {
                let owed = self.owed.take();
                Ok(post_owed(alloc, owed))
            }
            Err(DiskAnswer::Memory) => Err(DiskAnswer::Memory),
            Err(DiskAnswer::Failed) => {
                self.go_down();
                Err(DiskAnswer::Failed)
            }
            Err(DiskAnswer::Stopped) => {
                self.go_down();
                Err(DiskAnswer::Stopped)
            }
        }
    }

    /// The messages that bring the items without receipt to their clients, in order of client, key and number. An
    /// entry may not be in hand. `Err` comes only for want of memory.
    pub(crate) fn push(&self, alloc: Global) -> Result<Seq<Message>, AllocError>
        requires role { self.now.role ≡ Active }
        requires idle { self.now.owed ≡ None }
        ensures history { IfOk result (λ messages. (setup : Setup) (past : List EntryOf) →
            self.now ≡ at_rest setup past → messages ≡ (plain_of setup).held past) }
        ensures value { IfOk result (λ messages. messages ≡ items_pushed self.now.service) }
    {
        match &self.service {
            None => Ok(Seq::new(alloc)),
            Some(service) => {
                let messages = push_items(service, alloc)?;
                Ok(messages)
            }
        }
    }
}
