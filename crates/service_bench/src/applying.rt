//! Calls are applied, one after another.
use crate::calling::{alarm_of, join_of, open_of, start_of, subscribe_of};
use crate::kind::Kind;
use calls::{Call, Entry, Shared};
use service_core::Service;
use std::alloc::{AllocError, Global};

/// The moment at which all entries are accepted.
const NOW: i64 = 1_704_067_300_000_000_000;

/// The client that writes, and the one that sends, subscribes and reads.
const WRITER: u16 = 1;

const SENDER: u16 = 2;

/// What a service keeps before the entries that are measured: streams of applications, subscriptions and alarms.
#[derive(Clone, Copy)]
pub(crate) struct Setting {
    pub(crate) streams: u32,
    pub(crate) subs: u32,
    pub(crate) alarms: u32,
}

/// Applies a client's next call, and tells how many deeds it has.
fn apply(alloc: Global, service: &mut Service, client: u16, call: Call) -> Result<u64, AllocError> {
    if !service.can_accept(client, NOW) {
        drop(call);
        return Err(AllocError);
    }
    let call = Shared::new(alloc, call)?;
    let entry = Entry::Called {
        client,
        seq: service.next(client),
        time: NOW,
        call,
    };
    let applied = service.apply(alloc, &entry);
    drop(entry);
    match applied {
        Err(error) => Err(error),
        Ok(effect) => {
            let deeds = effect.deeds.as_slice().len() as u64;
            drop(effect);
            Ok(deeds)
        }
    }
}

/// Makes the streams of applications, with records of this size, behind the system stream.
fn open_streams(
    alloc: Global,
    service: &mut Service,
    count: u32,
    record_size: u32,
) -> Result<(), AllocError> {
    apply(alloc, service, WRITER, Call::LogInit)?;
    apply(alloc, service, WRITER, join_of())?;
    for number in 0..count {
        let call = open_of(alloc, number, record_size)?;
        apply(alloc, service, WRITER, call)?;
    }
    Ok(())
}

/// Makes so many subscriptions to one type.
fn subscribe(alloc: Global, service: &mut Service, count: u32) -> Result<(), AllocError> {
    apply(alloc, service, SENDER, Call::NtfInit)?;
    for id in 0..count {
        let call = subscribe_of(alloc, id)?;
        apply(alloc, service, SENDER, call)?;
    }
    Ok(())
}

/// Sends so many alarms.
fn send_alarms(alloc: Global, service: &mut Service, count: u32) -> Result<(), AllocError> {
    for number in 0..count {
        let call = alarm_of(alloc, number)?;
        apply(alloc, service, SENDER, call)?;
    }
    Ok(())
}

/// Brings a service to what it keeps before the entries of a kind.
pub(crate) fn prepare(
    alloc: Global,
    service: &mut Service,
    setting: Setting,
    kind: Kind,
) -> Result<(), AllocError> {
    open_streams(alloc, service, setting.streams, kind.record_size())?;
    subscribe(alloc, service, setting.subs)?;
    send_alarms(alloc, service, setting.alarms)?;
    if matches!(kind, Kind::Read) {
        let call = start_of(alloc, 7)?;
        apply(alloc, service, SENDER, call)?;
    }
    Ok(())
}

/// The client that makes the calls of a kind.
fn caller_of(kind: Kind) -> u16 {
    match kind {
        Kind::Write | Kind::Even | Kind::Free => WRITER,
        _ => SENDER,
    }
}

/// Applies so many entries of a kind, and tells how many deeds they have.
pub(crate) fn apply_all(
    alloc: Global,
    service: &mut Service,
    setting: Setting,
    kind: Kind,
    count: u32,
) -> Result<u64, AllocError> {
    let mut deeds = 0u64;
    for number in 0..count {
        let call = kind.call(alloc, setting.streams, number)?;
        let done = apply(alloc, service, caller_of(kind), call)?;
        deeds = deeds.wrapping_add(done);
    }
    Ok(deeds)
}
