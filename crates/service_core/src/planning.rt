//! Calls of the Log Service that were planned.
ghost use Rattle.std.specs.Prelude.{◌≡◌, ◌≢◌, [], OnOk, OnErr, IfOk};
ghost use Rattle.std.specs.List.{AllByRecursion};
ghost use Rattle.log_history.specs.Deeds.{deeds_of_all};
ghost use Rattle.log_service.specs.Planning.{step_of, planned, CanCommit, HasRoom};
ghost use Rattle.service_core.specs.Acting.{marked_by};
ghost use Rattle.service_parts.specs.Telling.{IsTold};
ghost use Rattle.stream_layout.specs.Carrying.{IsFitEvent};

use crate::deeds::deeds_of_all;
use crate::parts::{Acted, told_with};
use ais_values::Seq;
use log_service::{LogPlan, LogState, Step};
use std::alloc::{AllocError, Global};

/// What a call came to that did nothing to streams.
pub(crate) fn done_alone(alloc: Global, step: Step) -> Acted
    ensures told { IsTold step.status (marked_by step.filtered step.mark) result.told }
    ensures deeds { result.deeds ≡ [] }
{
    let Step {
        status,
        filtered,
        mark,
        events,
    } = step;
    drop(events);
    Acted {
        told: told_with(status, filtered, mark),
        deeds: Seq::new(alloc),
    }
}

/// Makes the deeds of a planned call and then the call itself. On an error, which comes only where something was done to
/// streams, nothing changes.
pub(crate) fn make_planned(
    log: &mut LogState,
    alloc: Global,
    plan: LogPlan,
) -> Result<Acted, AllocError>
    requires can { CanCommit log.old.table plan }
    requires room { HasRoom plan log.old.spare }
    requires events { AllByRecursion IsFitEvent (step_of plan).events }
    ensures now { OnOk result (log.new.table ≡ planned plan log.old.table) }
    ensures told { IfOk result (λ acted. IsTold (step_of plan).status
        (marked_by (step_of plan).filtered (step_of plan).mark) acted.told) }
    ensures deeds { IfOk result (λ acted. acted.deeds ≡ deeds_of_all (step_of plan).events) }
    ensures err { OnErr result (log.new.table ≡ log.old.table) }
    ensures memory { OnErr result ((step_of plan).events ≢ []) }
{
    let step = plan.step();
    let status = step.status;
    let filtered = step.filtered;
    let mark = step.mark;
    match deeds_of_all(alloc, step.events.as_slice()) {
        Ok(deeds) => {
            log.commit(plan);
            let told = told_with(status, filtered, mark);
            Ok(Acted { told, deeds })
        }
        Err(error) => {
            drop(plan);
            Err(error)
        }
    }
}
