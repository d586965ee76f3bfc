//! The call that sets which severities of records a stream lets pass.
ghost use Rattle.std.specs.Prelude.{◌≡◌, ◌≢◌, ◌≤◌, false, Some, IfOk, OnOk, OnErr};
ghost use Rattle.log_history.specs.Changes.{Filtered};
ghost use Rattle.log_history.specs.KeptAnswers.{filter_status};
ghost use Rattle.log_service.specs.State.{Made, Left, Tells};
ghost use Rattle.log_service.specs.Calls.{PlansFilter};
ghost use Rattle.log_service.specs.Planning.{HasRoom};

use crate::plan::LogPlan;
use crate::state::LogState;
use crate::step::Step;
use crate::streams;
use ais_values::Status;
use std::alloc::{AllocError, Global};
use stream_config::{MAX_MASK, Mark, StreamName};

impl LogState {
    /// What decides the setting of a mask: `BadHandle` where the client does not use the service or does not have the
    /// stream open, `InvalidParam` where the stream is the alarm or the notification stream or the mask is above
    /// 127, and else ok.
    fn filter_status(&self, client: u16, name: &StreamName, mask: u32) -> Status
        ensures { result ≡ filter_status self.now.table client name.now mask }
    {
        if !self.users.contains(client) || !self.has_open(name, client) {
            return Status::BadHandle;
        }
        if name.is_notified() || mask > MAX_MASK {
            return Status::InvalidParam;
        }
        Status::Ok
    }

    /// Plans `set_filter` for the state as it is. A call that is refused takes no memory: an error, which is want of
    /// memory, comes only where the answer would be ok.
    pub fn plan_set_filter(
        &self,
        alloc: Global,
        client: u16,
        name: &StreamName,
        mask: u32,
        number: u64,
    ) -> Result<LogPlan, AllocError>
        ensures ok { IfOk result (PlansFilter self.now.table client name.now mask number) }
        ensures room { IfOk result (λ plan. HasRoom plan self.now.spare) }
        ensures memory { OnErr result
            (filter_status self.now.table client name.now mask ≡ Status.Ok) }
    {
        let status = self.filter_status(client, name, mask);
        if status != Status::Ok {
            return Ok(LogPlan::refused(alloc, self.last, status));
        }
        let mark = Mark {
            since: number,
            mask,
        };
        let streams = self.streams.as_slice();
        let plan = streams::marking_plan(alloc, streams, name, self.last, mark);
        Ok(plan.marked(mark))
    }

    /// Sets which severities of records a stream lets pass, by the entry of this number: bit `2^s` of the mask lets
    /// severity s pass. `BadHandle` exactly where the client does not use the service or does not have the stream
    /// open; else `InvalidParam` exactly for the alarm and the notification stream, and for a mask above 127. An ok
    /// call tells the stream's mark. On an error, and with another answer than ok, nothing changes; an error comes only
    /// where the answer would be ok.
    pub fn set_filter(
        &mut self,
        alloc: Global,
        client: u16,
        name: &StreamName,
        mask: u32,
        number: u64,
    ) -> Result<Step, AllocError>
        ensures status { IfOk result (λ step.
            step.status ≡ filter_status self.old.table client name.now mask) }
        ensures told { IfOk result (Tells false (Some (record { since = number; mask = mask }))) }
        ensures ok { IfOk result (λ step. step.status ≡ Status.Ok
            → Made (Filtered client name.now mask number)
            self.old.table self.new.table step.events) }
        ensures refused { IfOk result (λ step. step.status ≢ Status.Ok
            → Left self.old.table self.new.table step.events) }
        ensures err { OnErr result (self.new.table ≡ self.old.table) }
        ensures memory { OnErr result
            (filter_status self.old.table client name.now mask ≡ Status.Ok) }
    {
        match self.plan_set_filter(alloc, client, name, mask, number) {
            Ok(plan) => Ok(self.carry(plan)),
            Err(error) => Err(error),
        }
    }
}
