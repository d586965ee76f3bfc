//! What a call would do, planned with all the memory that it takes.
ghost use Rattle.std.specs.Prelude.{◌≡◌, ◌<◌, ◌≤◌, ◌+◌, ◌-◌, ◌++◌, ◌∷◌, [], true, false, Some, None, vec_len, vec_capacity};
ghost use Rattle.client_set.specs.Edits.{change_at};
ghost use Rattle.log_history.specs.Table.{with_mark};
ghost use Rattle.log_service.specs.Planning.{step_of, marked_plan, with_openers, filed_in, CanDo, IsRoomFor, streams_after, users_after};

use crate::files::Filed;
use crate::live::LiveStream;
use crate::step::Step;
use crate::streams::{drop_idle, leave, leave_all};
use ais_values::{Seq, Status};
use client_set::ClientSet;
use std::alloc::Global;
use stream_config::{Mark, StreamEvent, StreamName};

/// What a call does to the clients that use the service and to the living streams.
#[derive(Drop)]
pub(crate) enum Doing {
    /// Nothing changes.
    Stay,
    /// These use the service then.
    Begin {
        users: ClientSet,
    },
    /// The stream at a place is open for these clients then.
    Join {
        place: usize,
        openers: ClientSet,
    },
    /// A stream stands behind the others, where there is room for it.
    Make {
        stream: LiveStream,
    },
    /// The stream at a place has taken so many records then, so many files were made of it, and its files stand so.
    Store {
        place: usize,
        taken: u32,
        opened: u32,
        filed: Filed,
    },
    /// The stream at a place has this mark then.
    Set {
        place: usize,
        mark: Mark,
    },
    /// A client closes the stream of this name.
    Leave {
        name: StreamName,
        client: u16,
    },
    /// A client ends its use of the service.
    End {
        client: u16,
    },
}

/// A call that was planned: what it is answered and does to streams, and what it makes of the state. It holds the
/// memory that making the call takes, but for the place of a new stream among the others.
#[derive(Drop)]
pub struct LogPlan {
    pub(crate) step: Step,
    /// The last stamp then.
    pub(crate) last: i64,
    pub(crate) doing: Doing,
}

impl LogPlan {
    /// What the planned call is answered, and what it does to streams. It takes no memory.
    pub fn step(&self) -> &Step
        ensures { result.now ≡ step_of self.now }
    {
        &self.step
    }

    /// The plan of a call that is answered so and changes nothing.
    pub(crate) fn refused(alloc: Global, last: i64, status: Status) -> LogPlan
        ensures { result ≡ record {
          step = record { status = status; filtered = false; mark = None; events = [] };
          last = last;
          doing = Doing.Stay;
        } }
    {
        LogPlan {
            step: Step::refused(alloc, status),
            last,
            doing: Doing::Stay,
        }
    }

    /// The plan of a call that is ok.
    pub(crate) fn accepted(events: Seq<StreamEvent>, last: i64, doing: Doing) -> LogPlan
        ensures { result ≡ record {
          step = record { status = Status.Ok; filtered = false; mark = None; events = events };
          last = last;
          doing = doing;
        } }
    {
        LogPlan {
            step: Step::done(events),
            last,
            doing,
        }
    }

    /// The plan of a write that is ok and whose record is filtered, of a stream with this mark.
    pub(crate) fn filtered(alloc: Global, last: i64, mark: Mark) -> LogPlan
        ensures { result ≡ record {
          step = record { status = Status.Ok; filtered = true; mark = Some mark; events = [] };
          last = last;
          doing = Doing.Stay;
        } }
    {
        LogPlan {
            step: Step::filtered(alloc, mark),
            last,
            doing: Doing::Stay,
        }
    }

    /// The plan with a mark told.
    pub(crate) fn marked(self, mark: Mark) -> LogPlan
        ensures { result ≡ marked_plan mark self }
    {
        let LogPlan { step, last, doing } = self;
        LogPlan {
            step: Step {
                status: step.status,
                filtered: step.filtered,
                mark: Some(mark),
                events: step.events,
            },
            last,
            doing,
        }
    }
}

/// The stream at a place is open for these clients.
fn put_openers(streams: &mut Vec<LiveStream>, place: usize, openers: ClientSet)
    requires { place < vec_len streams.old }
    ensures { streams.new.items ≡ change_at (with_openers openers) streams.old.items place }
{
    streams[place].put_openers(openers);
}

/// The stream at a place has taken so many records, so many files were made of it, and its files stand so.
fn put_files(streams: &mut Vec<LiveStream>, place: usize, taken: u32, opened: u32, filed: Filed)
    requires place { place < vec_len streams.old }
    requires few { opened ≤ taken + 1 }
    ensures { streams.new.items
        ≡ change_at (filed_in taken opened filed) streams.old.items place }
{
    streams[place].put_files(taken, opened, filed);
}

/// The stream at a place has this mark.
fn put_mark(streams: &mut Vec<LiveStream>, place: usize, mark: Mark)
    requires { place < vec_len streams.old }
    ensures { streams.new.items ≡ change_at (with_mark mark) streams.old.items place }
{
    streams[place].put_mark(mark);
}

/// Does what was planned, where there is room for the stream that is made. It takes no memory.
pub(crate) fn carry_out(streams: &mut Vec<LiveStream>, users: &mut ClientSet, doing: Doing)
    requires can { CanDo doing streams.old.items }
    requires room { IsRoomFor doing (vec_capacity streams.old - vec_len streams.old) }
    ensures streams { streams.new.items ≡ streams_after doing streams.old.items }
    ensures users { users.new ≡ users_after doing users.old }
{
    match doing {
        Doing::Stay => {}
        Doing::Begin { users: begun } => *users = begun,
        Doing::Join { place, openers } => put_openers(streams, place, openers),
        Doing::Make { stream } => streams.push_reserved(stream),
        Doing::Store {
            place,
            taken,
            opened,
            filed,
        } => put_files(streams, place, taken, opened, filed),
        Doing::Set { place, mark } => put_mark(streams, place, mark),
        Doing::Leave { name, client } => {
            leave(streams, &name, client);
            drop_idle(streams);
        }
        Doing::End { client } => {
            leave_all(streams, client);
            drop_idle(streams);
            users.remove(client);
        }
    }
}
