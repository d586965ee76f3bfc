//! The state, and what each call makes of it.
ghost use Rattle.std.specs.Prelude.{◌≡◌, ◌≢◌, ◌↔◌, ◌+◌, ◌≤◌, nat_lt, length, IfOk, OnOk, OnErr, option_copied, option_map, slice_get, IsTrue};
ghost use Rattle.sub_queue.specs.Queue.{IsCapacity, empty_queue};
ghost use Rattle.client_set.specs.Rising.{IsRising};
ghost use Rattle.client_set.specs.Members.{has};
ghost use Rattle.ntf_history.specs.Tables.{empty_table, table_with, sub_with, has_item, IsSoundTable, with_id, is_new_in, after_begin, after_end, after_subscribe, after_unsubscribe, after_send, after_receipt};
ghost use Rattle.ntf_service.specs.State.{sub_of, begin_answer, end_answer, subscribe_answer, unsubscribe_answer, CanSendMore, HaveNumbersLeft, IsKeyAbove};
ghost use Rattle.ntf_service.specs.Planning.{sent_by, CanCommitSend, PlansSend};
ghost use Rattle.ntf_service.specs.Told.{told, all_told};

use crate::by_kind::{ByKind, kind_for};
use crate::editing::{add, receive, remove_for, remove_under};
use crate::judging::is_usable;
use crate::offering::offers_for;
use crate::plan::{SendPlan, make_offers};
use crate::rooms::{all_places, make_room};
use crate::searching::{find_at, has_id, have_numbers_left, is_key_above, kept_at};
use crate::subscription::Subscription;
use ais_values::{Duplicate, Shared, Status};
use arrayvec::ArrayVec;
use client_set::ClientSet;
use ntf_filters::FilterSet;
use ntf_types::Notification;
use std::alloc::{AllocError, Global};
use std::marker::Model;
use sub_queue::SubQueue;

/// The most subscriptions that last at once.
const MAX_SUBSCRIPTIONS: usize = 64;

/// The clients that use the service, the last id that was given, and the subscriptions that last,
/// in order of client, then key. Beside them stand their places by the types that they ask for, and the places of the queues
/// in which there may be no room for a notification more. Contracts see what is kept, and for how many sends more there is
/// room: 1 where each queue has room.
pub struct NtfState {
    capacity: u32,
    users: ClientSet,
    last_id: u64,
    subs: Vec<Subscription>,
    by_kind: ByKind,
    lacking: ArrayVec<u8, 64>,
}

// Written out, as a derived one is proved anew in each crate that lets such a value go.
impl Drop for NtfState {
    fn drop(self) {
        let NtfState {
            capacity: _,
            users,
            last_id: _,
            subs,
            by_kind,
            lacking,
        } = self;
        drop(users);
        drop(subs);
        drop(by_kind);
        drop(lacking);
    }
}

impl Model for NtfState {
    ghost use Rattle.ntf_service.specs.Told.{KeptNtf};

    ghost Value = { KeptNtf };

    ghost use Rattle.ntf_service.specs.Inside.{kept_inside, IsKept};

    ghost view = { kept_inside };

    ghost invariant = { IsKept };
}

/// The subscription of a client, with an empty queue.
fn subscription(
    alloc: Global,
    cap: u32,
    client: u16,
    key: u32,
    id: u32,
    filters: &FilterSet,
) -> Result<Subscription, AllocError>
    requires { IsCapacity cap }
    ensures { IfOk result (λ kept.
        told kept ≡ sub_with (sub_of client key id filters.now) (empty_queue cap)) }
{
    let queue = SubQueue::new(alloc, cap)?;
    let filters = Shared::new(alloc, filters.copy(alloc)?)?;
    Ok(Subscription {
        client,
        key,
        id,
        filters,
        queue,
    })
}

/// Whether a subscription holds an item of this number.
fn has_item(kept: &Subscription, number: u32) -> bool
    ensures { result ≡ has_item number kept.now.queue.queue }
{
    kept.queue.is_new(number)
}

impl NtfState {
    /// The state of a service that nobody has used, whose subscriptions have queues of this
    /// capacity, from 1 to 256 notifications. It takes no memory.
    pub fn new(alloc: Global, cap: u32) -> NtfState
        requires { IsCapacity cap }
        ensures { result.table ≡ empty_table cap }
    {
        NtfState {
            capacity: cap,
            users: ClientSet::new(alloc),
            last_id: 0,
            subs: Vec::new(alloc),
            by_kind: ByKind::of(&[]),
            lacking: ArrayVec::new(),
        }
    }

    /// Begins a client's use of the service. `NoResources` exactly where it uses the service
    /// already. On an error, which is want of memory, and with another answer than ok, nothing
    /// changes; an error comes only where the answer would be ok.
    pub fn init(&mut self, client: u16) -> Result<Status, AllocError>
        ensures status { IfOk result (λ status. status ≡ begin_answer client self.old.table) }
        ensures ok { IfOk result (λ status. status ≡ Status.Ok →
            self.new.table ≡ after_begin client self.old.table) }
        ensures refused { IfOk result
            (λ status. status ≢ Status.Ok → self.new.table ≡ self.old.table) }
        ensures err { OnErr result (self.new.table ≡ self.old.table) }
        ensures memory { OnErr result (begin_answer client self.old.table ≡ Status.Ok) }
    {
        if self.users.contains(client) {
            return Ok(Status::NoResources);
        }
        self.users.insert(client)?;
        Ok(Status::Ok)
    }

    /// Ends a client's use of the service and all its subscriptions, with what their queues hold.
    /// `BadHandle` exactly where it does not use the service; then nothing changes. It takes no
    /// memory.
    pub fn fini(&mut self, client: u16) -> Status
        ensures status { result ≡ end_answer client self.old.table }
        ensures ok { result ≡ Status.Ok → self.new.table ≡ after_end client self.old.table }
        ensures refused { result ≢ Status.Ok → self.new.table ≡ self.old.table }
    {
        if !self.users.contains(client) {
            return Status::BadHandle;
        }
        self.users.remove(client);
        remove_for(&mut self.subs, client);
        self.by_kind = ByKind::of(self.subs.as_slice());
        self.lacking = all_places(self.subs.as_slice());
        Status::Ok
    }

    /// What decides a subscription of a client under an id: `BadHandle` where the client does not
    /// use the service, `InvalidParam` where the filters may not be used, `Exist` where it has a
    /// subscription of that id, `NoResources` where 64 subscriptions last, the first of these that
    /// holds, and else ok.
    fn subscribe_status(&self, client: u16, id: u32, filters: &FilterSet) -> Status
        ensures { result ≡ subscribe_answer client id filters.now self.now.table }
    {
        if !self.users.contains(client) {
            Status::BadHandle
        } else if !is_usable(filters) {
            Status::InvalidParam
        } else if has_id(self.subs.as_slice(), client, id) {
            Status::Exist
        } else if self.subs.len() >= MAX_SUBSCRIPTIONS {
            Status::NoResources
        } else {
            Status::Ok
        }
    }

    /// Makes a subscription of a client, under its key and an id. The answer is that of the first
    /// of these that holds: `BadHandle`, the client does not use the service; `InvalidParam`, the
    /// filters may not be used; `Exist`, the client has a subscription of that id; `NoResources`,
    /// 64 subscriptions last. Where none holds the subscription is made, with an empty queue, and
    /// the answer is ok. On an error, which is want of memory, and with another answer, nothing
    /// changes; an error comes only where the answer would be ok. The key, which is at least 1 where
    /// messages and values carry it, is above those of the client's subscriptions that last.
    pub fn subscribe(
        &mut self,
        alloc: Global,
        client: u16,
        key: u32,
        id: u32,
        filters: &FilterSet,
    ) -> Result<Status, AllocError>
        requires { IsKeyAbove client key self.old.table.subs }
        ensures status { IfOk result (λ status.
            status ≡ subscribe_answer client id filters.now self.old.table) }
        ensures ok { IfOk result (λ status. status ≡ Status.Ok →
            self.new.table ≡ after_subscribe (sub_of client key id filters.now) self.old.table) }
        ensures refused { IfOk result
            (λ status. status ≢ Status.Ok → self.new.table ≡ self.old.table) }
        ensures err { OnErr result (self.new.table ≡ self.old.table) }
        ensures memory { OnErr result
            (subscribe_answer client id filters.now self.old.table ≡ Status.Ok) }
    {
        let status = self.subscribe_status(client, id, filters);
        if status != Status::Ok {
            return Ok(status);
        }
        let kept = subscription(alloc, self.capacity, client, key, id, filters)?;
        add(&mut self.subs, kept)?;
        self.by_kind = ByKind::of(self.subs.as_slice());
        self.lacking = all_places(self.subs.as_slice());
        Ok(Status::Ok)
    }

    /// Takes a client's subscription of an id back, with what its queue holds. The answer is
    /// `BadHandle` where the client does not use the service, else `NotExist` where it has no
    /// subscription of that id, and else ok. With another answer than ok nothing changes. It takes
    /// no memory.
    pub fn unsubscribe(&mut self, client: u16, id: u32) -> Status
        ensures status { result ≡ unsubscribe_answer client id self.old.table }
        ensures ok { result ≡ Status.Ok →
            self.new.table ≡ after_unsubscribe client id self.old.table }
        ensures refused { result ≢ Status.Ok → self.new.table ≡ self.old.table }
    {
        if !self.users.contains(client) {
            return Status::BadHandle;
        }
        if !has_id(self.subs.as_slice(), client, id) {
            return Status::NotExist;
        }
        remove_under(&mut self.subs, client, id);
        self.by_kind = ByKind::of(self.subs.as_slice());
        self.lacking = all_places(self.subs.as_slice());
        Status::Ok
    }

    /// Makes room for a notification more in each queue. Only those queues are looked at in which there may be none. What is
    /// kept stays as it is; an error is want of memory.
    fn make_room(&mut self, alloc: Global) -> Result<(), AllocError>
        ensures table { self.new.table ≡ self.old.table }
        ensures ok { OnOk result (1 ≤ self.new.spare) }
    {
        make_room(&mut self.subs, alloc, self.lacking.as_slice())?;
        self.lacking.clear();
        Ok(())
    }

    /// The plan of `send` for the state as it is, of a notification that has the next id. Of the subscriptions only
    /// those are looked at that have a filter of the notification's type. An error is want of memory.
    fn send_plan(
        &self,
        alloc: Global,
        notification: &Shared<Notification>,
    ) -> Result<SendPlan, AllocError>
        requires can { CanSendMore self.now.table }
        requires named { with_id (self.now.table.last_id + 1) notification.now
            ≡ notification.now }
        ensures { IfOk result (PlansSend self.now.table notification.now) }
    {
        let id = self.last_id + 1;
        let places = self.by_kind.places(kind_for(&notification.get().body));
        let offers = offers_for(alloc, self.subs.as_slice(), places, notification)?;
        Ok(SendPlan { id, offers })
    }

    /// Plans `send` of a notification that has the next id already, and is shared with the subscriptions that ask for it. Beside
    /// that it is `plan_send`. An error is want of memory; the state stays as it is then too.
    pub fn plan_shared(
        &mut self,
        alloc: Global,
        notification: &Shared<Notification>,
    ) -> Result<SendPlan, AllocError>
        requires can { CanSendMore self.old.table }
        requires named { with_id (self.old.table.last_id + 1) notification.now
            ≡ notification.now }
        ensures ok { IfOk result (PlansSend self.old.table notification.now) }
        ensures table { self.new.table ≡ self.old.table }
        ensures room { OnOk result (1 ≤ self.new.spare) }
    {
        self.make_room(alloc)?;
        self.send_plan(alloc, notification)
    }

    /// Plans `send`: what it gives and makes of the state, with a share of the notification for each subscription that
    /// asks for it, and makes room for these. Which id the notification has does not matter. The state stays as it is; an
    /// error is want of memory.
    pub fn plan_send(
        &mut self,
        alloc: Global,
        mut notification: Notification,
    ) -> Result<SendPlan, AllocError>
        requires { CanSendMore self.old.table }
        ensures ok { IfOk result (PlansSend self.old.table notification) }
        ensures table { self.new.table ≡ self.old.table }
        ensures room { OnOk result (1 ≤ self.new.spare) }
    {
        notification.id = self.last_id + 1;
        let shared = Shared::new(alloc, notification)?;
        let planned = self.plan_shared(alloc, &shared);
        drop(shared);
        let plan = planned?;
        Ok(plan)
    }

    /// Makes a send that was planned for the state as it is, into room that was made for it. The answer is its id, from 1
    /// on. It takes no memory.
    pub fn commit_send(&mut self, plan: SendPlan) -> u64
        requires can { CanCommitSend self.old.table plan }
        requires room { 1 ≤ self.old.spare }
        ensures now { self.new.table ≡ sent_by plan self.old.table }
        ensures id { result ≡ plan.id }
    {
        let SendPlan { id, offers } = plan;
        self.lacking = make_offers(&mut self.subs, offers);
        self.last_id = id;
        id
    }

    /// Sends a notification: gives it the next id, which is the answer, and offers it to each
    /// subscription that asks for it, and to no other. Ids are 1, 2, 3 and so on, up to
    /// 4,294,967,294. On an error, which is want of memory, nothing changes, and no id is used up.
    pub fn send(&mut self, alloc: Global, notification: Notification) -> Result<u64, AllocError>
        requires { CanSendMore self.old.table }
        ensures id { IfOk result (λ id. id ≡ self.old.table.last_id + 1) }
        ensures ok { OnOk result
            (self.new.table ≡ after_send (with_id (self.old.table.last_id + 1) notification)
            self.old.table) }
        ensures err { OnErr result (self.new.table ≡ self.old.table) }
    {
        let plan = self.plan_send(alloc, notification)?;
        Ok(self.commit_send(plan))
    }

    /// Whether a notification can be sent: an id is left for it, of which there are 4,294,967,294, and
    /// a number for the next item of each subscription, of which each has as many.
    pub fn can_send(&self) -> bool
        ensures { IsTrue result ↔ CanSendMore self.now.table }
    {
        self.last_id < 4_294_967_294 && have_numbers_left(self.subs.as_slice())
    }

    /// Whether a key is above those of all subscriptions of a client that last.
    pub fn is_key_above(&self, client: u16, key: u32) -> bool
        ensures { IsTrue result ↔ IsKeyAbove client key self.now.table.subs }
    {
        is_key_above(self.subs.as_slice(), client, key)
    }

    /// Whether a receipt is new: the subscription of this client and key lasts, and the number is
    /// that of an item that it holds.
    pub fn is_new(&self, client: u16, key: u32, through: u32) -> bool
        ensures { result ≡ is_new_in self.now.table client key through }
    {
        match find_at(self.subs.as_slice(), client, key) {
            None => false,
            Some(kept) => has_item(kept, through),
        }
    }

    /// Takes a new receipt, of all items of a subscription up to this number: they are let go, and its
    /// queue has their places free. It takes no memory.
    pub fn acked(&mut self, client: u16, key: u32, through: u32)
        requires new { IsTrue (is_new_in self.old.table client key through) }
        requires numbers { HaveNumbersLeft self.old.table.subs }
        ensures { self.new.table ≡ after_receipt client key through self.old.table }
    {
        receive(&mut self.subs, &mut self.lacking, client, key, through);
    }

    /// Whether a client uses the service.
    pub fn is_user(&self, client: u16) -> bool
        ensures { result ≡ has client self.now.table.users }
    {
        self.users.contains(client)
    }

    /// The clients that use the service, rising.
    pub fn users(&self) -> &[u16]
        ensures users { result.now ≡ self.now.table.users }
        ensures rising { IsRising nat_lt self.now.table.users }
    {
        self.users.as_slice()
    }

    /// The last id that was given, or 0 where none was.
    pub fn last_id(&self) -> u64
        ensures { result ≡ self.now.table.last_id }
    {
        self.last_id
    }

    /// How many subscriptions last, at most 64.
    pub fn count(&self) -> u32
        ensures count { result ≡ length self.now.table.subs }
        ensures sound { IsSoundTable self.now.table }
    {
        self.subs.len() as u32
    }

    /// The subscription at a place, from 0, in order of client, then key. `None` exactly where no more
    /// than so many last.
    pub fn sub_at(&self, place: u32) -> Option<&Subscription>
        ensures { option_map told (option_copied result) ≡ slice_get self.now.table.subs place }
    {
        kept_at(self.subs.as_slice(), place as usize)
    }

    /// The state with these parts: the capacity of queues, the last id that was given, the clients that
    /// use the service, and the subscriptions that last, in order of client, then key. There are at
    /// most 64, each with a queue of that capacity. It takes no memory.
    pub fn rebuild(cap: u32, last_id: u64, users: Vec<u16>, subs: Vec<Subscription>) -> NtfState
        requires { IsSoundTable (table_with cap users.items last_id (all_told subs.items)) }
        ensures { result.table ≡ table_with cap users.items last_id (all_told subs.items) }
    {
        let by_kind = ByKind::of(subs.as_slice());
        let lacking = all_places(subs.as_slice());
        NtfState {
            capacity: cap,
            users: ClientSet::from_rising(users),
            last_id,
            subs,
            by_kind,
            lacking,
        }
    }
}
