//! Calls of the Notification Service that change no stream.
ghost use Rattle.std.specs.Prelude.{◌≡◌, ℕ, ℤ, IfOk, OnErr};
ghost use Rattle.calls.specs.declared.call.Call.TheVariants.{NtfInit, NtfSubscribe, NtfUnsubscribe, NtfFini, ReaderStart, ReaderRead, ReaderEnd};
ghost use Rattle.ntf_service.specs.State.{IsKeyAbove};
ghost use Rattle.service_core.specs.Acting.{table_of, HasActed};

use crate::parts::{Acted, Parts, act_of};
use ais_values::{Seq, Status};
use ntf_filters::FilterSet;
use service_parts::{end_reading, read_on, start_reading, stop_reader};
use std::alloc::{AllocError, Global};

/// A client begins to use the service.
pub(crate) fn ntf_init(parts: &mut Parts, alloc: Global, client: u16) -> Result<Acted, AllocError>
    ensures ok { IfOk result (λ acted. (seq : ℕ) (now : ℤ) →
        HasActed (table_of parts.old) client seq now NtfInit (table_of parts.new) acted) }
    ensures err { OnErr result (table_of parts.new ≡ table_of parts.old) }
{
    let status = parts.ntf.init(client)?;
    Ok(act_of(status, Seq::new(alloc)))
}

/// A client subscribes.
pub(crate) fn ntf_subscribe(
    parts: &mut Parts,
    alloc: Global,
    client: u16,
    seq: u32,
    id: u32,
    filters: &FilterSet,
) -> Result<Acted, AllocError>
    requires { IsKeyAbove client seq parts.old.ntf.table.subs }
    ensures ok { IfOk result (λ acted. (now : ℤ) →
        HasActed (table_of parts.old) client seq now (NtfSubscribe id filters.now)
        (table_of parts.new) acted) }
    ensures err { OnErr result (table_of parts.new ≡ table_of parts.old) }
{
    let status = parts.ntf.subscribe(alloc, client, seq, id, filters)?;
    Ok(act_of(status, Seq::new(alloc)))
}

/// A client takes a subscription back.
pub(crate) fn ntf_unsubscribe(parts: &mut Parts, alloc: Global, client: u16, id: u32) -> Acted
    ensures { (seq : ℕ) (now : ℤ) →
        HasActed (table_of parts.old) client seq now (NtfUnsubscribe id) (table_of parts.new)
        result }
{
    let status = parts.ntf.unsubscribe(client, id);
    act_of(status, Seq::new(alloc))
}

/// A client ends its use of the service, and with it its subscriptions and its reader.
pub(crate) fn ntf_fini(parts: &mut Parts, alloc: Global, client: u16) -> Acted
    ensures { (seq : ℕ) (now : ℤ) →
        HasActed (table_of parts.old) client seq now NtfFini (table_of parts.new) result }
{
    let status = parts.ntf.fini(client);
    if status == Status::Ok {
        stop_reader(&mut parts.readers, client);
    }
    act_of(status, Seq::new(alloc))
}

/// A client starts a reader.
pub(crate) fn reader_start(
    parts: &mut Parts,
    alloc: Global,
    client: u16,
    code: u32,
    value: i64,
    filters: &FilterSet,
) -> Result<Acted, AllocError>
    ensures ok { IfOk result (λ acted. (seq : ℕ) (now : ℤ) →
        HasActed (table_of parts.old) client seq now (ReaderStart code value filters.now)
        (table_of parts.new) acted) }
    ensures err { OnErr result (table_of parts.new ≡ table_of parts.old) }
{
    let is_user = parts.ntf.is_user(client);
    let status = start_reading(
        alloc,
        &parts.alarms,
        &mut parts.readers,
        is_user,
        client,
        code,
        value,
        filters,
    )?;
    Ok(act_of(status, Seq::new(alloc)))
}

/// A client's reader reads on.
pub(crate) fn reader_read(
    parts: &mut Parts,
    alloc: Global,
    client: u16,
    code: u32,
) -> Result<Acted, AllocError>
    ensures ok { IfOk result (λ acted. (seq : ℕ) (now : ℤ) →
        HasActed (table_of parts.old) client seq now (ReaderRead code) (table_of parts.new) acted) }
    ensures err { OnErr result (table_of parts.new ≡ table_of parts.old) }
{
    let is_user = parts.ntf.is_user(client);
    let told = read_on(
        alloc,
        &parts.alarms,
        &mut parts.readers,
        is_user,
        client,
        code,
    )?;
    Ok(Acted {
        told,
        deeds: Seq::new(alloc),
    })
}

/// A client stops its reader.
pub(crate) fn reader_end(parts: &mut Parts, alloc: Global, client: u16) -> Acted
    ensures { (seq : ℕ) (now : ℤ) →
        HasActed (table_of parts.old) client seq now ReaderEnd (table_of parts.new) result }
{
    let is_user = parts.ntf.is_user(client);
    let status = end_reading(&mut parts.readers, is_user, client);
    act_of(status, Seq::new(alloc))
}
