//! Records that clients write.
ghost use Rattle.std.specs.Prelude.{◌≡◌, ℕ, false, if◌then◌else◌, IfOk, OnErr};
ghost use Rattle.alarm_view.specs.Alarms.{from_record};
ghost use Rattle.calls.specs.declared.call.Call.TheVariants.{LogWrite};
ghost use Rattle.service_fit.specs.Conditions.{CanCallLog};
ghost use Rattle.log_service.specs.Calls.{filters_in};
ghost use Rattle.service_table.specs.Answering.{status_in};
ghost use Rattle.service_table.specs.Steps.{standing_from, where_ok};
ghost use Rattle.service_fit.specs.Fit.{IsAlarmFirst};
ghost use Rattle.service_core.specs.Acting.{table_of, HasActed};

use crate::parts::{Acted, Parts};
use crate::planning::make_planned;
use ais_values::{Status, Text};
use alarm_view::AlarmView;
use log_service::LogState;
use record_print::Header;
use std::alloc::{AllocError, Global};
use stream_config::{StreamName, first_standing};

/// Drops the alarms whose records stand no more.
pub(crate) fn keep_standing(alarms: &mut AlarmView, log: &LogState)
    requires { IsAlarmFirst log.now.table.streams }
    ensures { alarms.new.kept ≡ from_record (standing_from log.now.table.streams) alarms.old.kept }
{
    match log.stream_at(0) {
        Some(state) => alarms.keep_from(first_standing(state)),
        None => {}
    }
}

/// Drops them where a record was stored: by a write that is ok and was not filtered.
fn keep_after(alarms: &mut AlarmView, log: &LogState, status: Status, filtered: bool)
    requires { IsAlarmFirst log.now.table.streams }
    ensures { alarms.new.kept ≡ if filtered then alarms.old.kept else where_ok status
        (from_record (standing_from log.now.table.streams) alarms.old.kept) alarms.old.kept }
{
    if filtered {
        return;
    }
    if status == Status::Ok {
        keep_standing(alarms, log);
    }
}

/// A client writes a record. A write that is refused takes no memory, and neither does one whose record is filtered: an
/// error comes only where the record would be stored.
pub(crate) fn log_write(
    parts: &mut Parts,
    alloc: Global,
    client: u16,
    now: i64,
    name: &StreamName,
    flags: u32,
    time: i64,
    header: &Header,
    body: &Text,
) -> Result<Acted, AllocError>
    requires { CanCallLog parts.old.log.table now }
    ensures ok { IfOk result (λ acted. (seq invocation : ℕ) →
        HasActed (table_of parts.old) client seq now
        (LogWrite name.now invocation flags time header.now body.now) (table_of parts.new) acted) }
    ensures err { OnErr result (table_of parts.new ≡ table_of parts.old) }
    ensures memory { OnErr result ((invocation : ℕ) → status_in (table_of parts.old) client now
        (LogWrite name.now invocation flags time header.now body.now) ≡ Status.Ok) }
    ensures passes { OnErr result (filters_in parts.old.log.table name.now header.now ≡ false) }
{
    let plan = parts
        .log
        .plan_write(alloc, client, name, flags, time, header, body, now)?;
    let step = plan.step();
    let status = step.status;
    let filtered = step.filtered;
    let acted = make_planned(&mut parts.log, alloc, plan)?;
    keep_after(&mut parts.alarms, &parts.log, status, filtered);
    Ok(acted)
}
