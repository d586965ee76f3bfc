//! The state, and what each call answers and makes of it.
ghost use Rattle.std.specs.Prelude.{◌≡◌, ◌≢◌, ◌<◌, ◌≤◌, ◌≤ℤ◌, ℕ, Bool, Option, pos, unsigned_abs, false, Some, None, length, map, IfOk, OnOk, OnErr, IsTrue, []};
ghost use Rattle.std.specs.Option.{option_copied};
ghost use Rattle.client_set.specs.Members.{has};
ghost use Rattle.stream_config.specs.AttributeTests.{passes_attrs};
ghost use Rattle.record_print.specs.Printing.{can_print};
ghost use Rattle.record_print.specs.Records.{can_write};
ghost use Rattle.stream_config.specs.Attributes.{kind_of};
ghost use Rattle.record_print.specs.Lengths.{HasParts};
ghost use Rattle.record_print.specs.declared.record.LogRecord.{LogRecord as RecordOf};
ghost use Rattle.log_history.specs.Names.{is_application};
ghost use Rattle.log_history.specs.Chronicle.{LogSetup};
ghost use Rattle.stream_config.specs.declared.mark.Mark.{Mark as MarkOf};
ghost use Rattle.log_history.specs.Changes.{LogChange, Began, Opened, Stored, Closed, Ended};
ghost use Rattle.log_history.specs.Times.{filled_time, filled_header, record_at};
ghost use Rattle.log_history.specs.Marks.{is_filtered};
ghost use Rattle.log_history.specs.Table.{table_after};
ghost use Rattle.log_history.specs.KeptAnswers.{begin_status, open_status, write_status, close_status, end_status, store_status, has_opener, is_filled, kept_mark, is_crowd, kept_attrs};
ghost use Rattle.log_service.specs.Moments.{IsTimeOfCall, second_of};
ghost use Rattle.log_service.specs.State.{IsCallTime, HasNumberLeft, Made, Left, Tells, stream_of_kind, IsNotified, BeginsWith, CanBeginWith, HasBegun, table_with, joined_streams, IsSoundTable};
ghost use Rattle.log_service.specs.Opening.{opening_in, mark_in};
ghost use Rattle.log_service.specs.Calls.{filters_in, mark_told, PlansOpening, PlansWrite, HasWritten};
ghost use Rattle.log_service.specs.Changing.{making_status};
ghost use Rattle.log_service.specs.Planning.{step_of, planned, CanCommit, HasRoom, Plans};

use crate::joined::with_client;
use crate::live::LiveStream;
use crate::plan::{Doing, LogPlan, carry_out};
use crate::records::{may_write, read_event, stream_of_kind};
use crate::step::Step;
use crate::{begin, streams};
use ais_values::{Duplicate, Seq, Status, StreamKind, Text};
use client_set::ClientSet;
use log_history::is_filtered;
use record_print::{Header, LogRecord};
use std::alloc::{AllocError, Global};
use std::marker::Model;
use stream_config::{Mark, StreamAttrs, StreamEvent, StreamName, StreamState, check_attrs};

/// The most streams of applications that live at once.
const MAX_APPLICATIONS: usize = 64;

/// Whether a stream of the kind may have these attributes.
fn passes_attrs(kind: StreamKind, attrs: &StreamAttrs) -> bool
    ensures { result ≡ passes_attrs kind attrs.now }
{
    check_attrs(kind, attrs).is_ok()
}

/// Whether the name is of an application's stream.
fn is_application(name: &StreamName) -> bool
    ensures { result ≡ is_application name.now }
{
    matches!(name, StreamName::App { .. })
}

/// The last stamp, the clients that use the service, and the living streams in order of creation, each with the
/// clients that have it open and its mark. Contracts see these, and for how many streams more there is room.
///
/// Moments of calls (`now`) are nanoseconds since the first second of 1970 in UTC, from 0 to 9,000,000,000,000,000,000.
/// Stamps are seconds since then; the last one is at most 19,999,999,000 as a call comes. Every error is want of memory,
/// and leaves the streams, users and marks as they were.
pub struct LogState {
    pub(crate) last: i64,
    pub(crate) users: ClientSet,
    pub(crate) streams: Vec<LiveStream>,
}

// Written out, as a derived one is proved anew in each crate that lets such a value go.
impl Drop for LogState {
    fn drop(self) {
        let LogState {
            last: _,
            users,
            streams,
        } = self;
        drop(users);
        drop(streams);
    }
}

impl Model for LogState {
    ghost use Rattle.log_service.specs.State.{KeptLog};

    ghost Value = { KeptLog };

    ghost use Rattle.log_service.specs.Kept.{kept_inside, IsKeptState};

    ghost view = { kept_inside };

    ghost invariant = { IsKeptState };
}

impl LogState {
    /// The state of a service that nobody has used, and what was done to streams: the alarm, the notification and
    /// the system stream were made in this order, of these attributes, the first at the second of the start. The
    /// attributes pass, and no two streams have one path and file. On an error there is no state.
    pub fn new(
        alloc: Global,
        start: i64,
        wells: Seq<StreamAttrs>,
    ) -> Result<(LogState, Seq<StreamEvent>), AllocError>
        requires time { IsTimeOfCall start }
        requires wells { CanBeginWith start wells }
        ensures { IfOk result (λ made. (setup : LogSetup) → BeginsWith setup start wells →
            HasBegun setup (made.0.table, made.1)) }
    {
        let (last, streams, events) = begin::wells(alloc, start, wells.as_slice())?;
        let state = LogState {
            last,
            users: ClientSet::new(alloc),
            streams,
        };
        Ok((state, events))
    }

    /// The state with these parts: the last stamp, from 0 on, the clients that use the service, rising, the living
    /// streams in order of creation, at most three well-known ones and 64 of applications, and for each of them the
    /// clients that have it open, rising, and its mark. On an error there is no state.
    pub fn rebuild(
        alloc: Global,
        last_stamp: i64,
        users: Seq<u16>,
        streams: Seq<StreamState>,
        openers: Seq<Seq<u16>>,
        marks: Seq<Mark>,
    ) -> Result<LogState, AllocError>
        requires last { pos 0 ≤ℤ last_stamp }
        requires lengths { length streams ≡ length openers }
        requires marks { length streams ≡ length marks }
        requires sound { IsSoundTable
            (table_with (unsigned_abs last_stamp) users (joined_streams streams openers marks)) }
        ensures { IfOk result (λ state. state.table
            ≡ table_with (unsigned_abs last_stamp) users (joined_streams streams openers marks)) }
    {
        let streams = begin::rebuilt(alloc, streams, openers.as_slice(), marks.as_slice())?;
        Ok(LogState {
            last: last_stamp,
            users: ClientSet::from_rising(users.into_vec()),
            streams,
        })
    }

    /// Makes room for one stream more. What is kept stays as it is; an error is want of memory.
    fn make_room(&mut self) -> Result<(), AllocError>
        ensures table { self.new.table ≡ self.old.table }
        ensures ok { OnOk result (1 ≤ self.new.spare) }
    {
        self.streams.reserve(1)?;
        Ok(())
    }

    /// Makes a planned call, where there is room for the stream that it makes. The answer is what the plan told.
    pub(crate) fn carry(&mut self, plan: LogPlan) -> Step
        requires can { CanCommit self.old.table plan }
        requires room { HasRoom plan self.old.spare }
        ensures now { self.new.table ≡ planned plan self.old.table }
        ensures step { result ≡ step_of plan }
    {
        let LogPlan { step, last, doing } = plan;
        carry_out(&mut self.streams, &mut self.users, doing);
        self.last = last;
        step
    }

    /// Makes a call that was planned for the state as it is, where there is room for the stream that it makes. It takes no
    /// memory.
    pub fn commit(&mut self, plan: LogPlan)
        requires can { CanCommit self.old.table plan }
        requires room { HasRoom plan self.old.spare }
        ensures { self.new.table ≡ planned plan self.old.table }
    {
        drop(self.carry(plan));
    }

    /// What decides a beginning of use: `NoResources` where the client uses the service already, and else ok.
    fn begin_status(&self, client: u16) -> Status
        ensures { result ≡ begin_status self.now.table client }
    {
        if self.users.contains(client) {
            Status::NoResources
        } else {
            Status::Ok
        }
    }

    /// Plans `init` for the state as it is. A call that is refused takes no memory: an error, which is want of memory,
    /// comes only where the answer would be ok.
    pub fn plan_init(&self, alloc: Global, client: u16, _now: i64) -> Result<LogPlan, AllocError>
        ensures ok { IfOk result (Plans self.now.table (begin_status self.now.table client)
            false None (Began client)) }
        ensures room { IfOk result (λ plan. HasRoom plan self.now.spare) }
        ensures memory { OnErr result (begin_status self.now.table client ≡ Status.Ok) }
    {
        let status = self.begin_status(client);
        if status != Status::Ok {
            return Ok(LogPlan::refused(alloc, self.last, status));
        }
        let users = with_client(alloc, &self.users, client)?;
        Ok(LogPlan::accepted(Seq::new(alloc), self.last, Doing::Begin { users }))
    }

    /// Begins a client's use of the service (the library call for initialisation), at any moment. `NoResources`
    /// exactly where it uses the service already. On an error, and with another answer than ok, nothing changes; an
    /// error comes only where the answer would be ok.
    pub fn init(&mut self, alloc: Global, client: u16, _now: i64) -> Result<Step, AllocError>
        ensures status { IfOk result (λ step. step.status ≡ begin_status self.old.table client) }
        ensures told { IfOk result (Tells false None) }
        ensures ok { IfOk result (λ step. step.status ≡ Status.Ok
            → Made (Began client) self.old.table self.new.table step.events) }
        ensures refused { IfOk result (λ step. step.status ≢ Status.Ok
            → Left self.old.table self.new.table step.events) }
        ensures err { OnErr result (self.new.table ≡ self.old.table) }
        ensures memory { OnErr result (begin_status self.old.table client ≡ Status.Ok) }
    {
        let status = self.begin_status(client);
        if status != Status::Ok {
            return Ok(Step::refused(alloc, status));
        }
        self.users.insert(client)?;
        Ok(Step::done(Seq::new(alloc)))
    }

    /// What decides an end of use: `BadHandle` where the client does not use the service, and else ok.
    fn end_status(&self, client: u16) -> Status
        ensures { result ≡ end_status self.now.table client }
    {
        if self.users.contains(client) {
            Status::Ok
        } else {
            Status::BadHandle
        }
    }

    /// Plans `close_all` for the state as it is. A call that is refused takes no memory: an error, which is want of
    /// memory, comes only where the answer would be ok.
    pub fn plan_close_all(
        &self,
        alloc: Global,
        client: u16,
        now: i64,
    ) -> Result<LogPlan, AllocError>
        requires { IsCallTime self.now.table now }
        ensures ok { IfOk result (Plans self.now.table (end_status self.now.table client)
            false None (Ended client (second_of now))) }
        ensures room { IfOk result (λ plan. HasRoom plan self.now.spare) }
        ensures memory { OnErr result (end_status self.now.table client ≡ Status.Ok) }
    {
        let status = self.end_status(client);
        if status != Status::Ok {
            return Ok(LogPlan::refused(alloc, self.last, status));
        }
        let streams = self.streams.as_slice();
        let (last, events) = streams::endings(alloc, streams, client, self.last, now)?;
        Ok(LogPlan::accepted(events, last, Doing::End { client }))
    }

    /// Ends a client's use of the service, and with it all that it has open. `BadHandle` exactly where it does
    /// not use the service. An application's stream that nobody has open any more ends; streams that end do so
    /// in order of creation. On an error, and with another answer than ok, nothing changes; an error comes only
    /// where the answer would be ok.
    pub fn close_all(&mut self, alloc: Global, client: u16, now: i64) -> Result<Step, AllocError>
        requires { IsCallTime self.old.table now }
        ensures status { IfOk result (λ step. step.status ≡ end_status self.old.table client) }
        ensures told { IfOk result (Tells false None) }
        ensures ok { IfOk result (λ step. step.status ≡ Status.Ok
            → Made (Ended client (second_of now)) self.old.table self.new.table step.events) }
        ensures refused { IfOk result (λ step. step.status ≢ Status.Ok
            → Left self.old.table self.new.table step.events) }
        ensures err { OnErr result (self.new.table ≡ self.old.table) }
        ensures memory { OnErr result (end_status self.old.table client ≡ Status.Ok) }
    {
        match self.plan_close_all(alloc, client, now) {
            Ok(plan) => Ok(self.carry(plan)),
            Err(error) => Err(error),
        }
    }

    /// What decides a close: `BadHandle` where the client does not use the service or does not have the stream
    /// open, and else ok.
    fn close_status(&self, client: u16, name: &StreamName) -> Status
        ensures { result ≡ close_status self.now.table client name.now }
    {
        if !self.users.contains(client) || !self.has_open(name, client) {
            return Status::BadHandle;
        }
        Status::Ok
    }

    /// Whether the client has the stream of this name open.
    pub(crate) fn has_open(&self, name: &StreamName, client: u16) -> bool
        ensures { result ≡ has_opener self.now.table.streams name.now client }
    {
        match streams::stream_of(self.streams.as_slice(), name) {
            Some(stream) => stream.is_open_for(client),
            None => false,
        }
    }

    /// Plans `close` for the state as it is. A call that is refused takes no memory: an error, which is want of memory,
    /// comes only where the answer would be ok.
    pub fn plan_close(
        &self,
        alloc: Global,
        client: u16,
        name: &StreamName,
        now: i64,
    ) -> Result<LogPlan, AllocError>
        requires { IsCallTime self.now.table now }
        ensures ok { IfOk result (Plans self.now.table (close_status self.now.table client name.now)
            false None (Closed client name.now (second_of now))) }
        ensures room { IfOk result (λ plan. HasRoom plan self.now.spare) }
        ensures memory { OnErr result (close_status self.now.table client name.now ≡ Status.Ok) }
    {
        let status = self.close_status(client, name);
        if status != Status::Ok {
            return Ok(LogPlan::refused(alloc, self.last, status));
        }
        let streams = self.streams.as_slice();
        let (last, events) = streams::closing(alloc, streams, name, client, self.last, now)?;
        let name = name.copy(alloc)?;
        Ok(LogPlan::accepted(events, last, Doing::Leave { name, client }))
    }

    /// Closes a stream for a client. `BadHandle` exactly where the client does not use the service or does not
    /// have the stream open. An application's stream that nobody has open any more ends. On an error, and with
    /// another answer than ok, nothing changes; an error comes only where the answer would be ok.
    pub fn close(
        &mut self,
        alloc: Global,
        client: u16,
        name: &StreamName,
        now: i64,
    ) -> Result<Step, AllocError>
        requires { IsCallTime self.old.table now }
        ensures status { IfOk result (λ step.
            step.status ≡ close_status self.old.table client name.now) }
        ensures told { IfOk result (Tells false None) }
        ensures ok { IfOk result (λ step. step.status ≡ Status.Ok
            → Made (Closed client name.now (second_of now))
            self.old.table self.new.table step.events) }
        ensures refused { IfOk result (λ step. step.status ≢ Status.Ok
            → Left self.old.table self.new.table step.events) }
        ensures err { OnErr result (self.new.table ≡ self.old.table) }
        ensures memory { OnErr result (close_status self.old.table client name.now ≡ Status.Ok) }
    {
        match self.plan_close(alloc, client, name, now) {
            Ok(plan) => Ok(self.carry(plan)),
            Err(error) => Err(error),
        }
    }

    /// What decides the making of a stream, the first of these that holds: `InvalidParam` where it is a well-known
    /// one, or where its attributes do not pass; ok where it lives with equal attributes, `Exist` where it lives
    /// with others, or where another one has its path and file; `NoResources` where 64 streams of applications
    /// live; and else ok.
    fn making_status(&self, name: &StreamName, attrs: &StreamAttrs) -> Status
        ensures { result ≡ making_status self.now.table.streams name.now attrs.now }
    {
        let streams = self.streams.as_slice();
        if !is_application(name) || !passes_attrs(name.kind(), attrs) {
            return Status::InvalidParam;
        }
        if let Some(stream) = streams::stream_of(streams, name) {
            if stream.has_attrs(attrs) {
                return Status::Ok;
            }
            return Status::Exist;
        }
        if streams::has_place(streams, attrs) {
            Status::Exist
        } else if streams::application_count(streams) >= MAX_APPLICATIONS {
            Status::NoResources
        } else {
            Status::Ok
        }
    }

    /// What decides an open: `BadHandle` where the client does not use the service; without attributes `NotExist`
    /// where no stream of the name lives, and else ok; with attributes what decides the making.
    fn open_status(&self, client: u16, name: &StreamName, create: Option<&StreamAttrs>) -> Status
        ensures { result ≡ open_status self.now.table client name.now (option_copied create.entry) }
    {
        if !self.users.contains(client) {
            return Status::BadHandle;
        }
        match create {
            Some(attrs) => self.making_status(name, attrs),
            None => {
                if streams::stream_of(self.streams.as_slice(), name).is_none() {
                    Status::NotExist
                } else {
                    Status::Ok
                }
            }
        }
    }

    /// The plan of an open that is ok, for the state as it is, in which there is room for one stream more. An error is
    /// want of memory.
    fn accepted_open(
        &self,
        alloc: Global,
        client: u16,
        name: &StreamName,
        create: Option<&StreamAttrs>,
        now: i64,
        number: u64,
    ) -> Result<LogPlan, AllocError>
        requires moment { IsCallTime self.now.table now }
        requires ok { open_status self.now.table client name.now (option_copied create)
            ≡ Status.Ok }
        requires room { 1 ≤ self.now.spare }
        ensures ok { IfOk result (PlansOpening self.now.table client name.now
            (option_copied create.entry) now number) }
        ensures room { IfOk result (λ plan. HasRoom plan self.now.spare) }
    {
        let streams = self.streams.as_slice();
        let mark = streams::mark_opened(streams, name, create, number);
        let last = self.last;
        let plan = streams::opening_plan(alloc, streams, client, name, create, last, now, number)?;
        Ok(plan.marked(mark))
    }

    /// The plan of a call that is refused with this answer, for the state as it is. It takes no memory.
    fn refusal(&self, alloc: Global, answer: Status) -> LogPlan
        requires { answer ≢ Status.Ok }
        ensures plan { (filtered : Bool) (mark : Option MarkOf) (change : LogChange) →
            Plans self.now.table answer filtered mark change result }
        ensures room { HasRoom result self.now.spare }
    {
        LogPlan::refused(alloc, self.last, answer)
    }

    /// Plans `open_stream`, and makes room for one stream more where it is ok. The state stays as it is. A call that is
    /// refused takes no memory: an error, which is want of memory, comes only where the answer would be ok.
    pub fn plan_open_stream(
        &mut self,
        alloc: Global,
        client: u16,
        name: &StreamName,
        create: Option<&StreamAttrs>,
        now: i64,
        number: u64,
    ) -> Result<LogPlan, AllocError>
        requires { IsCallTime self.old.table now }
        ensures ok { IfOk result (PlansOpening self.old.table client name.now
            (option_copied create.entry) now number) }
        ensures table { self.new.table ≡ self.old.table }
        ensures room { IfOk result (λ plan. HasRoom plan self.new.spare) }
        ensures memory { OnErr result (open_status self.old.table client name.now
            (option_copied create.entry) ≡ Status.Ok) }
    {
        let status = self.open_status(client, name, create);
        if status != Status::Ok {
            return Ok(self.refusal(alloc, status));
        }
        self.make_room()?;
        let plan = self.accepted_open(alloc, client, name, create, now, number)?;
        Ok(plan)
    }

    /// Opens a stream that lives, for a client that uses the service. On an error nothing changes.
    fn join(&mut self, alloc: Global, client: u16, name: &StreamName) -> Result<Step, AllocError>
        ensures step { IfOk result (λ step. step ≡ record {
          status = Status.Ok;
          filtered = false;
          mark = Some (kept_mark self.old.table.streams name.now);
          events = [];
        }) }
        ensures now { OnOk result ((second number : ℕ) → self.new.table
            ≡ table_after (Opened client name.now None second number) self.old.table) }
        ensures err { OnErr result (self.new.table ≡ self.old.table) }
    {
        let mark = self.mark_of(name);
        streams::join(&mut self.streams, name, client)?;
        Ok(Step::joined(alloc, mark))
    }

    /// Opens a stream for a client, by the entry of this number; with attributes it makes an application's stream
    /// that does not live yet, which lets all severities pass. An ok call tells the stream's mark.
    /// The answer is that of the first of these that holds: `BadHandle`, the client does not use the service;
    /// without attributes `NotExist`, no stream of the name lives; with attributes `InvalidParam`, the stream is
    /// a well-known one or the attributes do not pass; ok, it lives with equal attributes; `Exist`, it lives with
    /// others, or another one has the path and file; `NoResources`, 64 streams of applications live. Where none
    /// holds the answer is ok. On an error, and with another answer, nothing changes; an error comes only where the
    /// answer would be ok.
    pub fn open_stream(
        &mut self,
        alloc: Global,
        client: u16,
        name: &StreamName,
        create: Option<&StreamAttrs>,
        now: i64,
        number: u64,
    ) -> Result<Step, AllocError>
        requires { IsCallTime self.old.table now }
        ensures status { IfOk result (λ step. step.status
            ≡ open_status self.old.table client name.now (option_copied create.entry)) }
        ensures told { IfOk result (Tells false
            (Some (mark_in self.old.table.streams name.now (option_copied create.entry) number))) }
        ensures ok { IfOk result (λ step. step.status ≡ Status.Ok → Made
            (opening_in self.old.table.streams client name.now (option_copied create.entry) now
            number) self.old.table self.new.table step.events) }
        ensures refused { IfOk result (λ step. step.status ≢ Status.Ok
            → Left self.old.table self.new.table step.events) }
        ensures err { OnErr result (self.new.table ≡ self.old.table) }
        ensures memory { OnErr result (open_status self.old.table client name.now
            (option_copied create.entry) ≡ Status.Ok) }
    {
        if self.open_status(client, name, create) == Status::Ok && self.is_living(name) {
            let step = self.join(alloc, client, name)?;
            return Ok(step);
        }
        match self.plan_open_stream(alloc, client, name, create, now, number) {
            Ok(plan) => Ok(self.carry(plan)),
            Err(error) => Err(error),
        }
    }

    /// Whether a record with this header and body does not fit the stream of this name, whichever its times are.
    fn is_full(&self, name: &StreamName, header: &Header, body: &Text) -> bool
        requires { HasNumberLeft self.now.table name.now }
        ensures { (rec : RecordOf) → HasParts header.now body.now rec
            → result ≡ is_filled self.now.table.streams name.now rec }
    {
        match streams::stream_of(self.streams.as_slice(), name) {
            Some(stream) => stream.lacks_room(stream.length_of_parts(header, body)),
            None => false,
        }
    }

    /// Whether the record of a write does not fit the stream of this name.
    fn is_full_for(
        &self,
        name: &StreamName,
        time: i64,
        header: &Header,
        body: &Text,
        now: i64,
    ) -> bool
        requires moment { IsCallTime self.now.table now }
        requires numbers { HasNumberLeft self.now.table name.now }
        requires writable { IsTrue (can_write (kind_of name.now) time header.now) }
        ensures { result ≡ is_filled self.now.table.streams name.now
            (record_at time header.now body.now now) }
    {
        read_event(header);
        self.is_full(name, header, body)
    }

    /// Whether the mask of the stream of this name filters a record with this header.
    fn filters(&self, name: &StreamName, time: i64, header: &Header) -> bool
        requires { IsTrue (can_write (kind_of name.now) time header.now) }
        ensures { result ≡ is_filtered (kept_mark self.now.table.streams name.now).mask header.now }
    {
        is_filtered(self.mark_of(name).mask, header)
    }

    /// The mark of the stream of this name; where there is none, that of one that was never set.
    fn mark_of(&self, name: &StreamName) -> Mark
        ensures { result ≡ kept_mark self.now.table.streams name.now }
    {
        streams::mark_of(self.streams.as_slice(), name)
    }

    /// What decides a write, the first of these that holds: `BadHandle` where the client does not use the service
    /// or does not have the stream open, `BadFlags` where flags are above 1, `InvalidParam` where the record may
    /// not be written to a stream of the kind, ok where the stream's mask filters it, `NoSpace` where it does not
    /// fit the stream; and else ok.
    fn write_status(
        &self,
        client: u16,
        name: &StreamName,
        flags: u32,
        time: i64,
        header: &Header,
        body: &Text,
        now: i64,
    ) -> Status
        requires moment { IsCallTime self.now.table now }
        requires numbers { HasNumberLeft self.now.table name.now }
        ensures { result
            ≡ write_status self.now.table client name.now flags time header.now body.now now }
    {
        if !self.users.contains(client) {
            Status::BadHandle
        } else if !self.has_open(name, client) {
            Status::BadHandle
        } else if flags > 1 {
            Status::BadFlags
        } else if !may_write(name.kind(), time, header) {
            Status::InvalidParam
        } else if self.filters(name, time, header) {
            Status::Ok
        } else if self.is_full_for(name, time, header, body, now) {
            Status::NoSpace
        } else {
            Status::Ok
        }
    }

    /// Plans `write` for the state as it is. A write that is refused takes no memory, and neither does one whose record
    /// is filtered: an error, which is want of memory, comes only where the record would be stored.
    pub fn plan_write(
        &self,
        alloc: Global,
        client: u16,
        name: &StreamName,
        flags: u32,
        time: i64,
        header: &Header,
        body: &Text,
        now: i64,
    ) -> Result<LogPlan, AllocError>
        requires moment { IsCallTime self.now.table now }
        requires numbers { HasNumberLeft self.now.table name.now }
        ensures ok { IfOk result (PlansWrite self.now.table client name.now flags time
            header.now body.now now) }
        ensures room { IfOk result (λ plan. HasRoom plan self.now.spare) }
        ensures memory { OnErr result (write_status self.now.table client name.now flags time
            header.now body.now now ≡ Status.Ok) }
        ensures passes { OnErr result (filters_in self.now.table name.now header.now ≡ false) }
    {
        let status = self.write_status(client, name, flags, time, header, body, now);
        if status != Status::Ok {
            return Ok(LogPlan::refused(alloc, self.last, status));
        }
        let mark = self.mark_of(name);
        if self.filters(name, time, header) {
            return Ok(LogPlan::filtered(alloc, self.last, mark));
        }
        let streams = self.streams.as_slice();
        let plan = streams::writing_plan(alloc, streams, name, self.last, time, header, body, now)?;
        Ok(plan.marked(mark))
    }

    /// Writes a record to a stream of which fewer than 4,294,967,294 records were numbered. Its time is in
    /// nanoseconds, and an unknown one stands for this moment. The answer is that of the first of
    /// these that holds: `BadHandle`, the client does not use the service or does not have the stream open;
    /// `BadFlags`, flags are above 1; `InvalidParam`, the record may not be written to a stream of the kind; ok
    /// and filtered, the stream's mask does not let the record's severity pass; `NoSpace`, the record does not fit
    /// the stream, which halts. Where none holds the record is stored, and the answer is ok. An ok call tells the
    /// stream's mark. On an error, with another answer, and where the record is filtered, nothing changes; an error
    /// comes only where the record would be stored.
    pub fn write(
        &mut self,
        alloc: Global,
        client: u16,
        name: &StreamName,
        flags: u32,
        time: i64,
        header: &Header,
        body: &Text,
        now: i64,
    ) -> Result<Step, AllocError>
        requires moment { IsCallTime self.old.table now }
        requires numbers { HasNumberLeft self.old.table name.now }
        ensures status { IfOk result (λ step. step.status
            ≡ write_status self.old.table client name.now flags time header.now body.now now) }
        ensures told { IfOk result (Tells (filters_in self.old.table name.now header.now)
            (mark_told self.old.table name.now)) }
        ensures ok { IfOk result (λ step. step.status ≡ Status.Ok
            → HasWritten name.now time header.now body.now now self.old.table self.new.table
            step.events) }
        ensures refused { IfOk result (λ step. step.status ≢ Status.Ok
            → Left self.old.table self.new.table step.events) }
        ensures err { OnErr result (self.new.table ≡ self.old.table) }
        ensures memory { OnErr result (write_status self.old.table client name.now flags time
            header.now body.now now ≡ Status.Ok) }
        ensures passes { OnErr result (filters_in self.old.table name.now header.now ≡ false) }
    {
        match self.plan_write(alloc, client, name, flags, time, header, body, now) {
            Ok(plan) => Ok(self.carry(plan)),
            Err(error) => Err(error),
        }
    }

    /// What decides the storing of a record: `NoSpace` where it does not fit the stream of this name, and else ok.
    fn store_status(&self, name: &StreamName, rec: &LogRecord) -> Status
        requires printable { IsTrue (can_print rec.now) }
        requires numbers { HasNumberLeft self.now.table name.now }
        ensures { result ≡ store_status self.now.table name.now rec.now }
    {
        let full = match streams::stream_of(self.streams.as_slice(), name) {
            Some(stream) => stream.lacks_room(stream.length_of(rec)),
            None => false,
        };
        if full { Status::NoSpace } else { Status::Ok }
    }

    /// Plans `store` for the state as it is. A call that is refused takes no memory: an error, which is want of memory,
    /// comes only where the answer would be ok.
    pub fn plan_store(
        &self,
        alloc: Global,
        kind: StreamKind,
        rec: &LogRecord,
        now: i64,
    ) -> Result<LogPlan, AllocError>
        requires moment { IsCallTime self.now.table now }
        requires notified { IsNotified kind rec.now }
        requires numbers { HasNumberLeft self.now.table (stream_of_kind kind) }
        ensures ok { IfOk result (Plans self.now.table
            (store_status self.now.table (stream_of_kind kind) rec.now)
            false None (Stored (stream_of_kind kind) rec.now (second_of now))) }
        ensures room { IfOk result (λ plan. HasRoom plan self.now.spare) }
        ensures memory { OnErr result
            (store_status self.now.table (stream_of_kind kind) rec.now ≡ Status.Ok) }
    {
        let name = stream_of_kind(kind);
        let status = self.store_status(&name, rec);
        if status != Status::Ok {
            return Ok(LogPlan::refused(alloc, self.last, status));
        }
        let streams = self.streams.as_slice();
        let plan = streams::storing_plan(alloc, streams, &name, self.last, rec, now)?;
        Ok(plan)
    }

    /// Stores the record of a notification in the stream of its kind, of which fewer than 4,294,967,294 records were
    /// numbered. `NoSpace` exactly where it does not fit.
    /// On an error, and with another answer than ok, nothing changes; an error comes only where the answer would be ok.
    pub fn store(
        &mut self,
        alloc: Global,
        kind: StreamKind,
        rec: &LogRecord,
        now: i64,
    ) -> Result<Step, AllocError>
        requires moment { IsCallTime self.old.table now }
        requires notified { IsNotified kind rec.now }
        requires numbers { HasNumberLeft self.old.table (stream_of_kind kind) }
        ensures status { IfOk result (λ step. step.status
            ≡ store_status self.old.table (stream_of_kind kind) rec.now) }
        ensures told { IfOk result (Tells false None) }
        ensures ok { IfOk result (λ step. step.status ≡ Status.Ok
            → Made (Stored (stream_of_kind kind) rec.now (second_of now))
            self.old.table self.new.table step.events) }
        ensures refused { IfOk result (λ step. step.status ≢ Status.Ok
            → Left self.old.table self.new.table step.events) }
        ensures err { OnErr result (self.new.table ≡ self.old.table) }
        ensures memory { OnErr result
            (store_status self.old.table (stream_of_kind kind) rec.now ≡ Status.Ok) }
    {
        match self.plan_store(alloc, kind, rec, now) {
            Ok(plan) => Ok(self.carry(plan)),
            Err(error) => Err(error),
        }
    }
}
