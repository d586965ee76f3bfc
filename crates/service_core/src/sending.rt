//! Notifications that clients send.
ghost use Rattle.std.specs.Prelude.{◌≡◌, ◌≤◌, ◌+◌, ◌^◌, true, false, ℕ, unsigned_abs, Some, IfOk, OnOk, OnErr};
ghost use Rattle.std.specs.Int.{is_negative};
ghost use Rattle.std.specs.List.{AllByRecursion};
ghost use Rattle.alarm_view.specs.Alarms.{CanAdd};
ghost use Rattle.calls.specs.declared.call.Call.TheVariants.{NtfSend};
ghost use Rattle.calls.specs.declared.reply.Reply.TheVariants as reply;
ghost use Rattle.format_expr.specs.Language.{is_notified};
ghost use Rattle.log_history.specs.Deeds.{deeds_of_all};
ghost use Rattle.log_service.specs.Planning.{step_of, planned, CanCommit, HasRoom};
ghost use Rattle.log_service.specs.State.{stream_of_kind};
ghost use Rattle.ntf_history.specs.Changes.{Sent};
ghost use Rattle.ntf_history.specs.StoredAlarms.{is_alarm};
ghost use Rattle.ntf_history.specs.Tables.{after_send, with_id};
ghost use Rattle.ntf_service.specs.State.{CanSendMore};
ghost use Rattle.ntf_types.specs.SoundTests.{is_sound};
ghost use Rattle.plain_service.specs.Alarms.{stream_for, accepted_as, record_for};
ghost use Rattle.service_fit.specs.Conditions.{CanCall, CanCallLog};
ghost use Rattle.service_table.specs.Answering.{status_in};
ghost use Rattle.service_table.specs.Steps.{alarms_with};
ghost use Rattle.service_fit.specs.Fit.{IsAlarmFirst, WasStored, alarm_count};
ghost use Rattle.service_core.specs.Acting.{table_of, HasActed};
ghost use Rattle.service_core.specs.Sending.{sent_with, sent_status, HasSent};
ghost use Rattle.stream_layout.specs.Carrying.{IsFitEvent};

use crate::deeds::deeds_of_all;
use crate::parts::{Acted, Parts, act_of};
use crate::writing::keep_standing;
use ais_values::{Duplicate, Seq, Shared, Status, StreamKind};
use alarm_view::AlarmView;
use log_service::{LogPlan, LogState};
use ntf_service::{NtfState, is_alarm};
use ntf_types::{Notification, check_notification};
use record_print::LogRecord;
use service_parts::{Told, accepted, record_for};
use std::alloc::{AllocError, Global};

/// Whether a notification may be sent.
fn is_right(notification: &Notification) -> bool
    ensures { result ≡ is_sound notification.now }
{
    check_notification(notification).is_ok()
}

/// The kind of the stream that stores the record of a notification.
fn kind_for(notification: &Notification) -> StreamKind
    ensures stream { stream_of_kind result ≡ stream_for notification.now.body }
    ensures notified { is_notified result ≡ true }
{
    if is_alarm(&notification.body) {
        StreamKind::Alarm
    } else {
        StreamKind::Notification
    }
}

/// The time of an event lies within the range of its type.
fn read_event(notification: &Notification)
    ensures { unsigned_abs notification.now.event_time ≤ 2 ^ 63 }
{
    let _event = notification.event_time;
}

/// What is answered to a send that nothing but want of room may refuse: `NoSpace` where the notification's record does
/// not fit its stream, and else ok. It takes no memory.
fn sent_status(log: &LogState, now: i64, notification: &Notification) -> Status
    requires log { CanCallLog log.now.table now }
    requires sound { is_sound notification.now ≡ true }
    ensures { (id : ℕ) → result
        ≡ sent_status log.now.table now (accepted_as id now notification.now) }
{
    read_event(notification);
    let kind = kind_for(notification);
    log.store_answer(
        kind,
        &notification.object,
        &notification.notifier,
        &notification.text,
    )
}

/// How many records the alarm stream, which stands first, has taken.
fn alarm_number(log: &LogState) -> u32
    requires { IsAlarmFirst log.now.table.streams }
    ensures { result ≡ alarm_count log.now.table.streams }
{
    match log.stream_at(0) {
        Some(state) => state.taken,
        None => unreachable!(),
    }
}

/// The kind of the stream that stores the record of a notification that was accepted.
fn kind_of_sent(sent: &Shared<Notification>) -> StreamKind
    ensures stream { stream_of_kind result ≡ stream_for sent.now.body }
    ensures notified { is_notified result ≡ true }
{
    kind_for(sent.get())
}

/// The record of a notification that was accepted at a moment.
fn record_of(alloc: Global, now: i64, sent: &Shared<Notification>) -> Result<LogRecord, AllocError>
    ensures { IfOk result (λ rec. rec ≡ record_for now sent.now) }
{
    let rec = record_for(alloc, now, sent.get())?;
    Ok(rec)
}

/// Whether a notification is an alarm, which is kept.
fn is_kept(sent: &Shared<Notification>) -> bool
    ensures { result ≡ is_alarm sent.now.body }
{
    is_alarm(&sent.get().body)
}

/// The alarm that is to be kept, for which there is room among those kept then; these stay as they are.
fn reserve_alarm(
    alarms: &mut AlarmView,
    alloc: Global,
    sent: &Shared<Notification>,
) -> Result<Shared<Notification>, AllocError>
    ensures alarm { IfOk result (λ alarm. alarm ≡ sent.now) }
    ensures room { OnOk result (1 ≤ alarms.new.spare) }
    ensures kept { alarms.new.kept ≡ alarms.old.kept }
{
    alarms.reserve(alloc)?;
    sent.copy(alloc)
}

/// Offers a notification, and keeps it where it is an alarm, of which the record has this number; it is shared by all that have it
/// then. The answer is its id. On an error nothing changes.
fn offer_and_keep(
    ntf: &mut NtfState,
    alarms: &mut AlarmView,
    alloc: Global,
    number: u32,
    sent: &Shared<Notification>,
) -> Result<u64, AllocError>
    requires sending { CanSendMore ntf.old.table }
    requires add { is_alarm sent.now.body ≡ true → CanAdd number sent.now alarms.old.kept }
    requires id { with_id (ntf.old.table.last_id + 1) sent.now ≡ sent.now }
    ensures id { IfOk result (λ id. id ≡ ntf.old.table.last_id + 1) }
    ensures ntf { OnOk result (ntf.new.table ≡ after_send sent.now ntf.old.table) }
    ensures alarms { OnOk result
        (alarms.new.kept ≡ alarms_with (Some (Sent sent.now number)) alarms.old.kept) }
    ensures err { OnErr result
        ((ntf.new.table ≡ ntf.old.table) × (alarms.new.kept ≡ alarms.old.kept)) }
{
    let plan = ntf.plan_shared(alloc, sent)?;
    if !is_kept(sent) {
        return Ok(ntf.commit_send(plan));
    }
    match reserve_alarm(alarms, alloc, sent) {
        Ok(alarm) => {
            let id = ntf.commit_send(plan);
            alarms.add_reserved(number, alarm);
            Ok(id)
        }
        Err(error) => {
            drop(plan);
            Err(error)
        }
    }
}

/// Offers a notification, keeps it where it is an alarm, and stores its record as that was planned. The answer is its
/// id. On an error nothing changes.
fn send_planned(
    parts: &mut Parts,
    alloc: Global,
    plan: LogPlan,
    sent: &Shared<Notification>,
) -> Result<u64, AllocError>
    requires can { CanCommit parts.old.log.table plan }
    requires room { HasRoom plan parts.old.log.spare }
    requires first { IsAlarmFirst parts.old.log.table.streams }
    requires stands { IsAlarmFirst (planned plan parts.old.log.table).streams }
    requires sending { CanSendMore parts.old.ntf.table }
    requires add { is_alarm sent.now.body ≡ true
        → CanAdd (alarm_count parts.old.log.table.streams) sent.now parts.old.alarms.kept }
    requires id { with_id (parts.old.ntf.table.last_id + 1) sent.now ≡ sent.now }
    ensures id { IfOk result (λ id. id ≡ parts.old.ntf.table.last_id + 1) }
    ensures ok { OnOk result (table_of parts.new
        ≡ sent_with (table_of parts.old) (planned plan parts.old.log.table) sent.now) }
    ensures err { OnErr result (table_of parts.new ≡ table_of parts.old) }
{
    let number = alarm_number(&parts.log);
    match offer_and_keep(&mut parts.ntf, &mut parts.alarms, alloc, number, sent) {
        Ok(id) => {
            parts.log.commit(plan);
            keep_standing(&mut parts.alarms, &parts.log);
            Ok(id)
        }
        Err(error) => {
            drop(plan);
            Err(error)
        }
    }
}

/// Sends a notification of which the record can be stored as planned. On an error nothing changes.
fn send_stored(
    parts: &mut Parts,
    alloc: Global,
    plan: LogPlan,
    sent: &Shared<Notification>,
) -> Result<Acted, AllocError>
    requires can { CanCommit parts.old.log.table plan }
    requires room { HasRoom plan parts.old.log.spare }
    requires events { AllByRecursion IsFitEvent (step_of plan).events }
    requires first { IsAlarmFirst parts.old.log.table.streams }
    requires stands { IsAlarmFirst (planned plan parts.old.log.table).streams }
    requires sending { CanSendMore parts.old.ntf.table }
    requires add { is_alarm sent.now.body ≡ true
        → CanAdd (alarm_count parts.old.log.table.streams) sent.now parts.old.alarms.kept }
    requires id { with_id (parts.old.ntf.table.last_id + 1) sent.now ≡ sent.now }
    ensures reply { IfOk result (λ acted.
        acted.told.reply ≡ reply.Sent (parts.old.ntf.table.last_id + 1)) }
    ensures kept { IfOk result (λ acted.
        acted.told.kept ≡ reply.Sent (parts.old.ntf.table.last_id + 1)) }
    ensures deeds { IfOk result (λ acted. acted.deeds ≡ deeds_of_all (step_of plan).events) }
    ensures ok { OnOk result (table_of parts.new
        ≡ sent_with (table_of parts.old) (planned plan parts.old.log.table) sent.now) }
    ensures err { OnErr result (table_of parts.new ≡ table_of parts.old) }
{
    let step = plan.step();
    match deeds_of_all(alloc, step.events.as_slice()) {
        Ok(deeds) => {
            let id = send_planned(parts, alloc, plan, sent)?;
            Ok(Acted {
                told: Told::sent(id),
                deeds,
            })
        }
        Err(error) => {
            drop(plan);
            Err(error)
        }
    }
}

/// Sends a notification as it was accepted, for whose record there is room. On an error nothing changes.
fn send_accepted(
    parts: &mut Parts,
    alloc: Global,
    now: i64,
    sent: &Shared<Notification>,
) -> Result<Acted, AllocError>
    requires log { CanCallLog parts.old.log.table now }
    requires sending { CanSendMore parts.old.ntf.table }
    requires alarms { AllByRecursion
        (WasStored (alarm_count parts.old.log.table.streams) parts.old.ntf.table.last_id)
        parts.old.alarms.kept }
    requires id { sent.now.id ≡ parts.old.ntf.table.last_id + 1 }
    requires time { is_negative sent.now.event_time ≡ false }
    requires room { sent_status parts.old.log.table now sent.now ≡ Status.Ok }
    ensures ok { IfOk result (HasSent (table_of parts.old) now sent.now (table_of parts.new)) }
    ensures err { OnErr result (table_of parts.new ≡ table_of parts.old) }
{
    let rec = record_of(alloc, now, sent)?;
    let planned = parts.log.plan_store(alloc, kind_of_sent(sent), &rec, now);
    drop(rec);
    let plan = planned?;
    let acted = send_stored(parts, alloc, plan, sent)?;
    Ok(acted)
}

/// A client sends a notification. A send that is refused takes no memory: an error comes only where the answer would
/// be ok.
pub(crate) fn ntf_send(
    parts: &mut Parts,
    alloc: Global,
    client: u16,
    now: i64,
    notification: &Notification,
) -> Result<Acted, AllocError>
    requires { (seq : ℕ) × CanCall (table_of parts.old) client seq now }
    ensures ok { IfOk result (λ acted. (seq : ℕ) →
        HasActed (table_of parts.old) client seq now (NtfSend notification.now)
        (table_of parts.new) acted) }
    ensures err { OnErr result (table_of parts.new ≡ table_of parts.old) }
    ensures memory { OnErr result
        (status_in (table_of parts.old) client now (NtfSend notification.now) ≡ Status.Ok) }
{
    if !parts.ntf.is_user(client) {
        return Ok(act_of(Status::BadHandle, Seq::new(alloc)));
    }
    if !is_right(notification) {
        return Ok(act_of(Status::InvalidParam, Seq::new(alloc)));
    }
    let status = sent_status(&parts.log, now, notification);
    if status != Status::Ok {
        return Ok(act_of(status, Seq::new(alloc)));
    }
    let copy = accepted(alloc, parts.ntf.last_id() + 1, now, notification)?;
    let sent = Shared::new(alloc, copy)?;
    let tried = send_accepted(parts, alloc, now, &sent);
    drop(sent);
    let acted = tried?;
    Ok(acted)
}
