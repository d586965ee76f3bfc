//! The service.
ghost use Rattle.std.specs.Prelude.{◌≡◌, ◌<◌, ◌↔◌, IsTrue, true, ℕ, List, [], IfOk, OnErr, IsErrOf};
ghost use Rattle.calls.specs.declared.entry.Entry.{Entry};
ghost use Rattle.calls.specs.declared.reply.Reply.{Reply};
ghost use Rattle.client_window.specs.Windows.{window_of};
ghost use Rattle.client_window.specs.Judgement.{IsJudged};
ghost use Rattle.plain_service.specs.Setups.{Setup, IsMoment};
ghost use Rattle.plain_service.specs.Replies.{replies_to};
ghost use Rattle.plain_service.specs.Legal.{IsClient, CanFollow, IsHistory};
ghost use Rattle.plain_service.specs.Values.{StandsFor};
ghost use Rattle.plain_service.specs.Items.{items_of, is_new_receipt};
ghost use Rattle.plain_service.specs.Fitness.{IsFit};
ghost use Rattle.service_table.specs.Tables.{saved_table};
ghost use Rattle.service_table.specs.Steps.{window_for, after_receipt_in};
ghost use Rattle.ntf_history.specs.Tables.{HaveQueues, is_new_in as is_new_for_table};
ghost use Rattle.service_core.specs.Applying.{CanAcceptIn, CanApply, next_in, is_new_in};
ghost use Rattle.service_core.specs.Beginning.{BeginsAs, CanBeginAs, HasBegun};
ghost use Rattle.service_core.specs.Following.{HasFollowed};
ghost use Rattle.service_core.specs.Valuing.{window_in, items_held, Applies};
ghost use Rattle.service_core.specs.Inside.{kept_table, HasFitValue, HasApplied, IsKeptAs};

use crate::acting::act;
use crate::kept::{Kept, Whole};
use crate::parts::Parts;
use crate::{Effect, RestoreAnswer, holding, opening, restoring, saving};
use ais_values::{Duplicate, LAST_TIME, MAX_CLIENT, Seq};
use calls::{Call, Entry, Held, MAX_ENTRIES, Reply, Saved};
use client_window::Judged;
use saved_fit::is_fit;
use service_parts::{answer_call, judge_call, next_call, room_for};
use std::alloc::{AllocError, Global};
use std::marker::Model;
use stream_config::StreamAttrs;
use stream_layout::Deed;

/// The whole service. Contracts see the value that it can hand on. All that it has stands by itself in memory, so a service is
/// small where it is moved.
pub struct Service {
    whole: Box<Whole>,
}

// Written out, as a derived one is proved anew in each crate that lets a service go.
impl Drop for Service {
    fn drop(self) {
        let Service { whole } = self;
        drop(whole);
    }
}

impl Model for Service {
    ghost use Rattle.calls.specs.declared.saved.Saved.{Saved};

    ghost Value = { Saved };

    ghost use Rattle.service_core.specs.Inside.{saved_inside, IsKept};

    ghost view = { saved_inside };

    ghost invariant = { IsKept };
}

/// What the types of the parts keep. It does nothing else.
fn show_sound(parts: &Parts)
    ensures { HaveQueues parts.now.ntf.table.capacity parts.now.ntf.table.subs }
{
    let _ = parts.ntf.count();
}

/// Applies a client's next call. On an error nothing changes.
fn apply_call(
    kept: &mut Kept,
    alloc: Global,
    client: u16,
    seq: u32,
    now: i64,
    call: &Call,
) -> Result<Effect, AllocError>
    requires fit { HasFitValue kept.old }
    requires queues { HaveQueues kept.old.parts.ntf.table.capacity kept.old.parts.ntf.table.subs }
    requires few { kept.old.parts.number < 4000000000 }
    requires caller { IsClient client }
    requires moment { IsMoment now }
    requires next { seq ≡ (window_for client kept.old.callers.items).next }
    ensures ok { IfOk result (λ effect.
        HasApplied (kept_table kept.old) client seq now call.now (kept_table kept.new) effect) }
    ensures fit { HasFitValue kept.new }
    ensures capacity { kept.new.parts.ntf.table.capacity ≡ kept.old.parts.ntf.table.capacity }
    ensures err { OnErr result (kept_table kept.new ≡ kept_table kept.old) }
{
    let fresh = room_for(alloc, &mut kept.callers, client)?;
    let number = kept.parts.number + 1;
    match act(&mut kept.parts, alloc, client, seq, now, call) {
        Ok(acted) => {
            answer_call(&mut kept.callers, client, fresh, acted.told.kept);
            kept.parts.number = number;
            Ok(Effect {
                reply: Some(acted.told.reply),
                deeds: acted.deeds,
            })
        }
        Err(error) => {
            drop(fresh);
            Err(error)
        }
    }
}

/// Applies a new receipt. It takes no memory.
fn apply_receipt(kept: &mut Kept, alloc: Global, client: u16, key: u32, through: u32) -> Effect
    requires fit { HasFitValue kept.old }
    requires queues { HaveQueues kept.old.parts.ntf.table.capacity kept.old.parts.ntf.table.subs }
    requires few { kept.old.parts.number < 4000000000 }
    requires new { is_new_for_table kept.old.parts.ntf.table client key through ≡ true }
    ensures now { kept_table kept.new ≡ after_receipt_in (kept_table kept.old) client key through }
    ensures fit { HasFitValue kept.new }
    ensures capacity { kept.new.parts.ntf.table.capacity ≡ kept.old.parts.ntf.table.capacity }
    ensures reply { result.reply ≡ None }
    ensures deeds { result.deeds ≡ [] }
{
    kept.parts.ntf.acked(client, key, through);
    kept.parts.number += 1;
    Effect {
        reply: None,
        deeds: Seq::new(alloc),
    }
}

/// The service that has this.
fn service_of(alloc: Global, kept: Kept, cap: u32) -> Result<Service, AllocError>
    requires { IsKeptAs (kept_table kept) cap }
    ensures { IfOk result (λ service. service ≡ saved_table (kept_table kept)) }
{
    let whole = Box::new(alloc, Whole { kept, cap })?;
    Ok(Service { whole })
}

/// The service of a copy of a value that is fit.
fn restore_copy(alloc: Global, saved: &Saved) -> Result<Service, AllocError>
    requires { IsFit saved.now }
    ensures { IfOk result (λ service. service ≡ saved.now) }
{
    let copy = saved.copy(alloc)?;
    Service::restore_fit(alloc, copy)
}

impl Service {
    /// A service that nobody has used. It begins at a time from 0 to 9,000,000,000,000,000,000, each of its subscriptions
    /// holds at most `cap` items, 1 to 256, and `wells` are the attributes of the alarm, the notification and the system stream:
    /// three sets that pass, no two of one path and file. It stands for the empty history, and the deeds are those by which
    /// the three streams are made. On an error, which is want of memory, there is no service.
    pub fn new(
        alloc: Global,
        start: i64,
        cap: u32,
        wells: Seq<StreamAttrs>,
    ) -> Result<(Service, Seq<Deed>), AllocError>
        requires { CanBeginAs start cap wells }
        ensures { IfOk result (λ made. (setup : Setup) → BeginsAs setup start cap wells →
            HasBegun setup made) }
    {
        let (kept, deeds) = opening::opened(alloc, start, cap, wells)?;
        let service = service_of(alloc, kept, cap)?;
        Ok((service, deeds))
    }

    /// The service of a value: with it each further entry is answered as by the service that handed the value on, and
    /// of a fit value to which no history led as the value says. `Refused` comes exactly where the value is not fit,
    /// and `Memory` only for want of memory.
    pub fn restore(alloc: Global, saved: &Saved) -> Result<Service, RestoreAnswer>
        ensures ok { IfOk result (λ service. service ≡ saved.now) }
        ensures refused { IsErrOf result RestoreAnswer.Refused ↔ (¬ IsFit saved.now) }
    {
        if !is_fit(saved) {
            return Err(RestoreAnswer::Refused);
        }
        match restore_copy(alloc, saved) {
            Ok(service) => Ok(service),
            Err(_) => Err(RestoreAnswer::Memory),
        }
    }

    /// The service of a value that is known to be fit: it is not looked at whether it is. It takes the value over: no list of it is
    /// copied. Beside that it is `restore`. On an error, which is want of memory, there is no service, and the value is let go.
    pub fn restore_fit(alloc: Global, saved: Saved) -> Result<Service, AllocError>
        requires { IsFit saved }
        ensures { IfOk result (λ service. service ≡ saved) }
    {
        let cap = saved.capacity;
        let kept = restoring::restored(alloc, saved)?;
        let service = service_of(alloc, kept, cap)?;
        Ok(service)
    }

    /// The value that can be handed on, which is fit. The service stays as it is; an error is want of memory.
    pub fn save(&self, alloc: Global) -> Result<Saved, AllocError>
        ensures value { IfOk result (λ saved. saved ≡ self.now) }
        ensures fit { IfOk result IsFit }
    {
        let saved = saving::saved(alloc, &self.whole.kept, self.whole.cap)?;
        Ok(saved)
    }

    /// The items that subscriptions hold, in order of client, key and number: those of the value, and of each history
    /// that the service stands for. The service stays as it is; an error is want of memory.
    pub fn items(&self, alloc: Global) -> Result<Seq<Held>, AllocError>
        ensures value { IfOk result (λ items. items ≡ items_held self.now) }
        ensures history { IfOk result (λ items. (setup : Setup) (past : List Entry) →
            StandsFor setup past self.now → items ≡ items_of setup past) }
    {
        show_sound(&self.whole.kept.parts);
        let items = holding::items_of(alloc, &self.whole.kept.parts.ntf)?;
        Ok(items)
    }

    /// The number of a client's next call. It takes no memory.
    pub fn next(&self, client: u16) -> u32
        ensures { result ≡ next_in self.now client }
    {
        next_call(self.whole.kept.callers.as_slice(), client)
    }

    /// What the call of this number of a client is, by all replies that the client was ever given: any that leave the
    /// value's window. It takes no memory.
    pub fn judge(&self, client: u16, seq: u32) -> Judged<'_, Reply>
        ensures value { (replies : List Reply) → window_in self.now client ≡ window_of replies
            → IsJudged seq replies result }
        ensures history { (setup : Setup) (past : List Entry) → IsHistory setup past
            → StandsFor setup past self.now →
            IsJudged seq (replies_to setup client past) result }
    {
        show_sound(&self.whole.kept.parts);
        judge_call(self.whole.kept.callers.as_slice(), client, seq)
    }

    /// Whether a receipt is new: the subscription of this client and key lasts, and holds an item of this number. By
    /// each history that the service stands for: the subscription lasts, and the number is above the one through which
    /// it has a receipt and at most the count of items ever made for it. It takes no memory.
    pub fn is_new(&self, client: u16, key: u32, through: u32) -> bool
        ensures value { result ≡ is_new_in self.now client key through }
        ensures history { (setup : Setup) (past : List Entry) → StandsFor setup past self.now
            → result ≡ is_new_receipt setup past client key through }
    {
        show_sound(&self.whole.kept.parts);
        self.whole.kept.parts.ntf.is_new(client, key, through)
    }

    /// How many entries were accepted. It takes no memory.
    pub fn number(&self) -> u64
        ensures { result ≡ self.now.number }
    {
        self.whole.kept.parts.number
    }

    /// Whether a further entry of a client can be accepted at a moment: the client is 1 to 4,096, the time 0 to
    /// 9,000,000,000,000,000,000, and fewer than 4,000,000,000 entries were accepted. It takes no memory.
    pub fn can_accept(&self, client: u16, time: i64) -> bool
        ensures { IsTrue result ↔ CanAcceptIn self.now client time }
    {
        1 <= client
            && client <= MAX_CLIENT
            && 0 <= time
            && time <= LAST_TIME
            && self.number() < MAX_ENTRIES
    }

    /// Applies an entry: a call that has the number of its client's next one, or a new receipt, of a client from 1 to
    /// 4,096, at a time from 0 to 9,000,000,000,000,000,000, after fewer than 4,000,000,000 entries. The value, the reply
    /// and the deeds are then what the value before and the entry say; a service that stands for a history stands for the
    /// history with the entry then. On an error, which is want of memory, nothing changes.
    pub fn apply(&mut self, alloc: Global, entry: &Entry) -> Result<Effect, AllocError>
        requires { CanApply entry.now self.old }
        ensures value { IfOk result (Applies entry.now self.old self.new) }
        ensures ok { IfOk result (λ effect. (setup : Setup) (past : List Entry) →
            IsHistory setup past → StandsFor setup past self.old → CanFollow setup entry.now past →
            HasFollowed setup past entry.now self.new effect) }
        ensures err { OnErr result (self.new ≡ self.old) }
    {
        show_sound(&self.whole.kept.parts);
        match entry {
            Entry::Called {
                client,
                seq,
                time,
                call,
            } => {
                let effect = apply_call(
                    &mut self.whole.kept,
                    alloc,
                    *client,
                    *seq,
                    *time,
                    call.get(),
                )?;
                Ok(effect)
            }
            Entry::Receipted {
                client,
                key,
                through,
                time: _,
            } => Ok(apply_receipt(&mut self.whole.kept, alloc, *client, *key, *through)),
        }
    }
}
