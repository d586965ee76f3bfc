//! Calls of all kinds.
ghost use Rattle.std.specs.Prelude.{◌≡◌, ◌<◌, IfOk, OnErr};
ghost use Rattle.service_fit.specs.Conditions.{CanCall};
ghost use Rattle.service_core.specs.Acting.{table_of, HasActed};

use crate::logging::{log_close, log_filter, log_fini, log_init, log_open};
use crate::notifying::{
    ntf_fini, ntf_init, ntf_subscribe, ntf_unsubscribe, reader_end, reader_read, reader_start,
};
use crate::parts::{Acted, Parts};
use crate::sending::ntf_send;
use crate::writing::log_write;
use calls::Call;
use std::alloc::{AllocError, Global};

/// What a client's call, under its number and accepted at a moment, makes of the parts. On an error nothing changes.
pub(crate) fn act(
    parts: &mut Parts,
    alloc: Global,
    client: u16,
    seq: u32,
    now: i64,
    call: &Call,
) -> Result<Acted, AllocError>
    requires can { CanCall (table_of parts.old) client seq now }
    requires few { parts.old.number < 4000000000 }
    ensures ok { IfOk result (λ acted.
        HasActed (table_of parts.old) client seq now call.now (table_of parts.new) acted) }
    ensures err { OnErr result (table_of parts.new ≡ table_of parts.old) }
{
    match call {
        Call::LogInit => log_init(parts, alloc, client, now),
        Call::LogOpen { stream, create } => {
            log_open(parts, alloc, client, now, stream, create.as_ref())
        }
        Call::LogWrite {
            stream,
            invocation: _,
            flags,
            time,
            header,
            body,
        } => log_write(
            parts, alloc, client, now, stream, *flags, *time, header, body,
        ),
        Call::LogClose { stream } => log_close(parts, alloc, client, now, stream),
        Call::LogFini => log_fini(parts, alloc, client, now),
        Call::NtfInit => ntf_init(parts, alloc, client),
        Call::NtfSend { notification } => ntf_send(parts, alloc, client, now, notification.get()),
        Call::NtfSubscribe { id, filters } => {
            ntf_subscribe(parts, alloc, client, seq, *id, filters.get())
        }
        Call::NtfUnsubscribe { id } => Ok(ntf_unsubscribe(parts, alloc, client, *id)),
        Call::ReaderStart {
            mode,
            value,
            filters,
        } => reader_start(parts, alloc, client, *mode, *value, filters.get()),
        Call::ReaderRead { direction } => reader_read(parts, alloc, client, *direction),
        Call::ReaderEnd => Ok(reader_end(parts, alloc, client)),
        Call::NtfFini => Ok(ntf_fini(parts, alloc, client)),
        Call::LogFilter { stream, mask } => log_filter(parts, alloc, client, stream, *mask),
    }
}
