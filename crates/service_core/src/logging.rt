//! Calls of the Log Service.
ghost use Rattle.std.specs.Prelude.{◌≡◌, ◌<◌, ℕ, ℤ, true, is_some, IfOk, OnErr};
ghost use Rattle.std.specs.Option.{option_copied};
ghost use Rattle.calls.specs.declared.call.Call.TheVariants.{LogInit, LogOpen, LogFilter, LogClose, LogFini};
ghost use Rattle.log_history.specs.KeptAnswers.{kept_stream};
ghost use Rattle.service_fit.specs.Conditions.{CanCallLog};
ghost use Rattle.service_table.specs.Answering.{status_in};
ghost use Rattle.service_core.specs.Acting.{table_of, HasActed};

use crate::parts::{Acted, Parts};
use crate::planning::{done_alone, make_planned};
use ais_values::Status;
use std::alloc::{AllocError, Global};
use stream_config::{StreamAttrs, StreamName};

/// A client begins to use the service. A call that is refused takes no memory: an error comes only where the answer
/// would be ok.
pub(crate) fn log_init(
    parts: &mut Parts,
    alloc: Global,
    client: u16,
    now: i64,
) -> Result<Acted, AllocError>
    ensures ok { IfOk result (λ acted. (seq : ℕ) →
        HasActed (table_of parts.old) client seq now LogInit (table_of parts.new) acted) }
    ensures err { OnErr result (table_of parts.new ≡ table_of parts.old) }
    ensures memory { OnErr result (status_in (table_of parts.old) client now LogInit ≡ Status.Ok) }
{
    let step = parts.log.init(alloc, client, now)?;
    Ok(done_alone(alloc, step))
}

/// A client ends its use of the service. A call that is refused takes no memory: an error comes only where the answer
/// would be ok.
pub(crate) fn log_fini(
    parts: &mut Parts,
    alloc: Global,
    client: u16,
    now: i64,
) -> Result<Acted, AllocError>
    requires { CanCallLog parts.old.log.table now }
    ensures ok { IfOk result (λ acted. (seq : ℕ) →
        HasActed (table_of parts.old) client seq now LogFini (table_of parts.new) acted) }
    ensures err { OnErr result (table_of parts.new ≡ table_of parts.old) }
    ensures memory { OnErr result (status_in (table_of parts.old) client now LogFini ≡ Status.Ok) }
{
    let plan = parts.log.plan_close_all(alloc, client, now)?;
    let acted = make_planned(&mut parts.log, alloc, plan)?;
    Ok(acted)
}

/// A client opens a stream that lives: it joins those that have it open, and nothing is done to streams.
fn open_living(
    parts: &mut Parts,
    alloc: Global,
    client: u16,
    now: i64,
    name: &StreamName,
    create: Option<&StreamAttrs>,
) -> Result<Acted, AllocError>
    requires log { CanCallLog parts.old.log.table now }
    requires few { parts.old.number < 4000000000 }
    requires lives { is_some (kept_stream parts.old.log.table.streams name.now) ≡ true }
    ensures ok { IfOk result (λ acted. (seq : ℕ) →
        HasActed (table_of parts.old) client seq now (LogOpen name.now (option_copied create.entry))
        (table_of parts.new) acted) }
    ensures err { OnErr result (table_of parts.new ≡ table_of parts.old) }
    ensures memory { OnErr result (status_in (table_of parts.old) client now
        (LogOpen name.now (option_copied create.entry)) ≡ Status.Ok) }
{
    let number = parts.number + 1;
    let step = parts
        .log
        .open_stream(alloc, client, name, create, now, number)?;
    Ok(done_alone(alloc, step))
}

/// A client opens a stream by a plan, since one may be made.
fn open_planned(
    parts: &mut Parts,
    alloc: Global,
    client: u16,
    now: i64,
    name: &StreamName,
    create: Option<&StreamAttrs>,
) -> Result<Acted, AllocError>
    requires log { CanCallLog parts.old.log.table now }
    requires few { parts.old.number < 4000000000 }
    ensures ok { IfOk result (λ acted. (seq : ℕ) →
        HasActed (table_of parts.old) client seq now (LogOpen name.now (option_copied create.entry))
        (table_of parts.new) acted) }
    ensures err { OnErr result (table_of parts.new ≡ table_of parts.old) }
    ensures memory { OnErr result (status_in (table_of parts.old) client now
        (LogOpen name.now (option_copied create.entry)) ≡ Status.Ok) }
{
    let number = parts.number + 1;
    let plan = parts
        .log
        .plan_open_stream(alloc, client, name, create, now, number)?;
    let acted = make_planned(&mut parts.log, alloc, plan)?;
    Ok(acted)
}

/// A client opens a stream. A call that is refused takes no memory: an error comes only where the answer would be ok.
pub(crate) fn log_open(
    parts: &mut Parts,
    alloc: Global,
    client: u16,
    now: i64,
    name: &StreamName,
    create: Option<&StreamAttrs>,
) -> Result<Acted, AllocError>
    requires log { CanCallLog parts.old.log.table now }
    requires few { parts.old.number < 4000000000 }
    ensures ok { IfOk result (λ acted. (seq : ℕ) →
        HasActed (table_of parts.old) client seq now (LogOpen name.now (option_copied create.entry))
        (table_of parts.new) acted) }
    ensures err { OnErr result (table_of parts.new ≡ table_of parts.old) }
    ensures memory { OnErr result (status_in (table_of parts.old) client now
        (LogOpen name.now (option_copied create.entry)) ≡ Status.Ok) }
{
    if parts.log.is_living(name) {
        open_living(parts, alloc, client, now, name, create)
    } else {
        open_planned(parts, alloc, client, now, name, create)
    }
}

/// A client sets which severities of records a stream lets pass. A call that is refused takes no memory: an error comes
/// only where the answer would be ok.
pub(crate) fn log_filter(
    parts: &mut Parts,
    alloc: Global,
    client: u16,
    name: &StreamName,
    mask: u32,
) -> Result<Acted, AllocError>
    requires { parts.old.number < 4000000000 }
    ensures ok { IfOk result (λ acted. (seq : ℕ) (now : ℤ) →
        HasActed (table_of parts.old) client seq now (LogFilter name.now mask)
        (table_of parts.new) acted) }
    ensures err { OnErr result (table_of parts.new ≡ table_of parts.old) }
    ensures memory { OnErr result ((now : ℤ) →
        status_in (table_of parts.old) client now (LogFilter name.now mask) ≡ Status.Ok) }
{
    let number = parts.number + 1;
    let plan = parts
        .log
        .plan_set_filter(alloc, client, name, mask, number)?;
    let acted = make_planned(&mut parts.log, alloc, plan)?;
    Ok(acted)
}

/// A client closes a stream. A call that is refused takes no memory: an error comes only where the answer would be ok.
pub(crate) fn log_close(
    parts: &mut Parts,
    alloc: Global,
    client: u16,
    now: i64,
    name: &StreamName,
) -> Result<Acted, AllocError>
    requires { CanCallLog parts.old.log.table now }
    ensures ok { IfOk result (λ acted. (seq : ℕ) →
        HasActed (table_of parts.old) client seq now (LogClose name.now) (table_of parts.new)
        acted) }
    ensures err { OnErr result (table_of parts.new ≡ table_of parts.old) }
    ensures memory { OnErr result
        (status_in (table_of parts.old) client now (LogClose name.now) ≡ Status.Ok) }
{
    let plan = parts.log.plan_close(alloc, client, name, now)?;
    let acted = make_planned(&mut parts.log, alloc, plan)?;
    Ok(acted)
}
