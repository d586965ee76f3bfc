//! The value of a service, part by part, each list in just the room that it takes.
ghost use Rattle.std.specs.Prelude.{◌≡◌, ◌+◌, ◌≤◌, ◌++◌, ◌∷◌, [], length, map, reverse, slice_get, IfOk, OnOk, vec_len};
ghost use Rattle.std.specs.Vec.{vec_capacity};
ghost use Rattle.std.specs.Option.{option_map, option_to_list};
ghost use Rattle.plain_service.specs.Values.{saved_stream, saved_alarm};
ghost use Rattle.service_table.specs.Tables.{saved_window, saved_queue, saved_table};
ghost use Rattle.ntf_service.specs.Told.{told};
ghost use Rattle.service_core.specs.Inside.{kept_table};
ghost use Rattle.service_core.specs.Holding.{contents_in};

use crate::kept::Kept;
use ais_values::{Duplicate, Seq, both};
use alarm_view::AlarmView;
use calls::{Reply, Saved, SavedAlarm, SavedStream, SavedSub, SavedWindow};
use client_window::Window;
use log_service::LogState;
use ntf_service::{NtfState, Subscription};
use service_table::ClientWindow;
use std::alloc::{AllocError, Global};
use sub_queue::{Content, Item, SubQueue};

/// A list without values that has room for so many.
pub(crate) fn room_for<T: Drop>(alloc: Global, count: usize) -> Result<Seq<T>, AllocError>
    ensures { IfOk result (λ room. room ≡ []) }
{
    let room = Vec::with_capacity(alloc, count)?;
    Ok(Seq::from_vec(room))
}

/// Adds copies of values, in order, into room for them.
fn add_copies<T: Duplicate + Drop>(
    alloc: Global,
    copies: &mut Vec<T>,
    items: &[T],
) -> Result<(), AllocError>
    requires { vec_len copies.old + length items.now ≤ vec_capacity copies.old }
    ensures items { OnOk result (copies.new.items ≡ copies.old.items ++ items.now) }
    ensures capacity { OnOk result (vec_capacity copies.new ≡ vec_capacity copies.old) }
{
    for item in items {
        copies.push_reserved(item.copy(alloc)?);
    }
    Ok(())
}

/// Copies of values, in order.
fn copied<T: Duplicate + Drop>(alloc: Global, items: &[T]) -> Result<Seq<T>, AllocError>
    ensures { IfOk result (λ copies. copies ≡ items.now) }
{
    let mut copies = Vec::with_capacity(alloc, items.len())?;
    add_copies(alloc, &mut copies, items)?;
    Ok(Seq::from_vec(copies))
}

/// The replies that a window keeps, the oldest first.
fn replies_of(alloc: Global, window: &Window<Reply>) -> Result<Seq<Reply>, AllocError>
    ensures { IfOk result (λ replies. replies ≡ reverse window.now.replies) }
{
    let (front, behind) = window.replies();
    let mut replies = Vec::with_capacity(alloc, window.count() as usize)?;
    add_copies(alloc, &mut replies, front)?;
    add_copies(alloc, &mut replies, behind)?;
    Ok(Seq::from_vec(replies))
}

/// The windows of all clients.
fn windows_of(alloc: Global, callers: &[ClientWindow]) -> Result<Seq<SavedWindow>, AllocError>
    ensures { IfOk result (λ windows. windows ≡ map saved_window callers.now) }
{
    let mut windows = room_for(alloc, callers.len())?;
    for caller in callers {
        let replies = replies_of(alloc, &caller.window)?;
        windows.push(SavedWindow {
            client: caller.client,
            next: caller.window.next(),
            replies,
        })?;
    }
    Ok(windows)
}

/// Adds the stream at a place, if there is one.
fn push_stream(
    alloc: Global,
    streams: &mut Seq<SavedStream>,
    log: &LogState,
    place: u32,
) -> Result<(), AllocError>
    ensures { OnOk result (streams.new ≡ streams.old
        ++ option_to_list (option_map saved_stream (slice_get log.now.table.streams place))) }
{
    let Some(state) = log.stream_at(place) else {
        return Ok(());
    };
    let Some(clients) = log.openers_at(place) else {
        return Ok(());
    };
    let Some(mark) = log.mark_at(place) else {
        return Ok(());
    };
    let openers = copied(alloc, clients)?;
    let state = state.copy(alloc)?;
    streams.push(SavedStream {
        state,
        openers,
        mark,
    })?;
    Ok(())
}

/// The living streams.
fn streams_of(alloc: Global, log: &LogState) -> Result<Seq<SavedStream>, AllocError>
    ensures { IfOk result (λ streams. streams ≡ map saved_stream log.now.table.streams) }
{
    let mut streams = room_for(alloc, log.count() as usize)?;
    for place in 0..log.count() {
        push_stream(alloc, &mut streams, log, place)?;
    }
    Ok(streams)
}

/// Adds the stored alarm at a place, if there is one.
fn push_alarm(
    alloc: Global,
    saved: &mut Seq<SavedAlarm>,
    alarms: &AlarmView,
    place: u32,
) -> Result<(), AllocError>
    ensures { OnOk result (saved.new ≡ saved.old
        ++ option_to_list (option_map saved_alarm (slice_get alarms.now.kept place))) }
{
    match alarms.shared_at(place) {
        None => Ok(()),
        Some((k, notification)) => {
            let notification = notification.copy(alloc)?;
            saved.push(SavedAlarm { k, notification })?;
            Ok(())
        }
    }
}

/// The stored alarms.
fn alarms_of(alloc: Global, alarms: &AlarmView) -> Result<Seq<SavedAlarm>, AllocError>
    ensures { IfOk result (λ saved. saved ≡ map saved_alarm alarms.now.kept) }
{
    let mut saved = room_for(alloc, alarms.count() as usize)?;
    for place in 0..alarms.count() {
        push_alarm(alloc, &mut saved, alarms, place)?;
    }
    Ok(saved)
}

/// Adds what items hold, in order.
fn add_contents(
    alloc: Global,
    contents: &mut Seq<Content>,
    items: &[Item],
) -> Result<(), AllocError>
    ensures { OnOk result (contents.new ≡ contents.old ++ contents_in items.now) }
{
    for item in items {
        contents.push(item.content.copy(alloc)?)?;
    }
    Ok(())
}

/// What the items of a queue hold, in order.
fn contents_of(alloc: Global, queue: &SubQueue) -> Result<Seq<Content>, AllocError>
    ensures { IfOk result (λ contents. contents ≡ queue.now.queue.held) }
{
    let (front, behind) = queue.items();
    let mut contents = room_for(alloc, queue.len())?;
    add_contents(alloc, &mut contents, front)?;
    add_contents(alloc, &mut contents, behind)?;
    Ok(contents)
}

/// Adds a subscription.
fn push_sub(alloc: Global, subs: &mut Seq<SavedSub>, sub: &Subscription) -> Result<(), AllocError>
    ensures { OnOk result (subs.new ≡ subs.old ++ saved_queue (told sub.now) ∷ []) }
{
    let held = contents_of(alloc, &sub.queue)?;
    let lost = copied(alloc, sub.queue.lost())?;
    let filters = sub.filters.copy(alloc)?;
    subs.push(SavedSub {
        client: sub.client,
        key: sub.key,
        id: sub.id,
        filters,
        first: sub.queue.first(),
        held,
        lost,
    })?;
    Ok(())
}

/// Adds the subscription at a place, if there is one.
fn push_sub_at(
    alloc: Global,
    subs: &mut Seq<SavedSub>,
    ntf: &NtfState,
    place: u32,
) -> Result<(), AllocError>
    ensures { OnOk result (subs.new ≡ subs.old
        ++ option_to_list (option_map saved_queue (slice_get ntf.now.table.subs place))) }
{
    match ntf.sub_at(place) {
        None => Ok(()),
        Some(sub) => {
            push_sub(alloc, subs, sub)?;
            Ok(())
        }
    }
}

/// The subscriptions that last.
fn subs_of(alloc: Global, ntf: &NtfState) -> Result<Seq<SavedSub>, AllocError>
    ensures { IfOk result (λ subs. subs ≡ map saved_queue ntf.now.table.subs) }
{
    let mut subs = room_for(alloc, ntf.count() as usize)?;
    for place in 0..ntf.count() {
        push_sub_at(alloc, &mut subs, ntf, place)?;
    }
    Ok(subs)
}

/// The value of what is kept. Nothing of it changes.
pub(crate) fn saved(alloc: Global, kept: &Kept, cap: u32) -> Result<Saved, AllocError>
    requires { cap ≡ kept.now.parts.ntf.table.capacity }
    ensures { IfOk result (λ saved. saved ≡ saved_table (kept_table kept.now)) }
{
    let parts = &kept.parts;
    let log_users = copied(alloc, parts.log.users())?;
    let ntf_users = copied(alloc, parts.ntf.users())?;
    let windows = windows_of(alloc, kept.callers.as_slice());
    let streams = streams_of(alloc, &parts.log);
    let alarms = alarms_of(alloc, &parts.alarms);
    let subs = subs_of(alloc, &parts.ntf);
    let told = both(both(windows, streams), both(alarms, subs));
    let readers = copied(alloc, parts.readers.as_slice());
    let (((windows, streams), (alarms, subs)), readers) = both(told, readers)?;
    Ok(Saved {
        number: parts.number,
        last_stamp: parts.log.last_stamp(),
        last_id: parts.ntf.last_id(),
        capacity: cap,
        log_users,
        ntf_users,
        windows,
        streams,
        alarms,
        subs,
        readers,
    })
}
