//! A living stream, as the state keeps it.
ghost use Rattle.std.specs.Prelude.{◌≡◌, ◌≤ℤ◌, ◌+◌, ◌<◌, ◌≤◌, ℕ, nat_lt, false, pos, unsigned_abs, IsTrue, IfOk, OnOk, OnErr};
ghost use Rattle.client_set.specs.Members.{has};
ghost use Rattle.client_set.specs.Rising.{put};
ghost use Rattle.format_expr.specs.Reading.{pieces_of};
ghost use Rattle.stream_config.specs.Attributes.{kind_of, PassesAttrs};
ghost use Rattle.stream_config.specs.AttributeTests.{have_one_place};
ghost use Rattle.stream_config.specs.Equality.{same_attrs};
ghost use Rattle.record_print.specs.Printing.{can_print};
ghost use Rattle.stream_config.specs.Events.{current_file};
ghost use Rattle.record_print.specs.Lengths.{HasParts, HasNotifiedParts};
ghost use Rattle.record_print.specs.declared.record.LogRecord.{LogRecord as RecordOf};
ghost use Rattle.log_history.specs.Answers.{lacks_room};
ghost use Rattle.log_history.specs.Table.{OpenStream, is_named, with_mark, with_opener, without_opener, has_nobody, new_state, length_in, storing};
ghost use Rattle.log_history.specs.KeptAnswers.{is_of_application};
ghost use Rattle.log_service.specs.Moments.{IsMoment, second_of};
ghost use Rattle.log_service.specs.Changing.{IsFiling};
ghost use Rattle.log_service.specs.State.{made_event};
ghost use Rattle.log_service.specs.Planning.{with_openers, files_after, filed_in};

use crate::files::{Filed, due_stamps, files_stored, last_after, opened_after, stand_so};
use crate::joined::with_client;
use ais_values::{Duplicate, Name, Seq, Shared, Text};
use client_set::ClientSet;
use format_expr::{Expr, known_expr};
use record_print::{
    Header, LogRecord, notified_length, parts_length, print_record, printed_length,
};
use std::alloc::{AllocError, Global};
use std::marker::Model;
use stream_config::{
    FullAction, LogFile, Mark, StreamAttrs, StreamEvent, StreamName, StreamState, current_of,
    has_room, have_one_place,
};

/// A living stream, the clients that have it open, its mark, and its expression, which was read when the stream was made.
pub(crate) struct LiveStream {
    state: StreamState,
    openers: ClientSet,
    mark: Mark,
    expr: Expr,
}

// Written out, as a derived one is proved anew in each crate that lets such a value go.
impl Drop for LiveStream {
    fn drop(self) {
        let LiveStream {
            state,
            openers,
            mark: _,
            expr,
        } = self;
        drop(state);
        drop(openers);
        drop(expr);
    }
}

impl Model for LiveStream {
    ghost use Rattle.log_history.specs.Table.{OpenStream};

    ghost Value = { OpenStream };

    ghost use Rattle.log_service.specs.Inside.{stream_of, IsKeptStream};

    ghost view = { stream_of };

    ghost invariant = { IsKeptStream };
}

/// The expression of a stream with attributes that pass.
fn expression(alloc: Global, name: &StreamName, attrs: &StreamAttrs) -> Result<Expr, AllocError>
    requires { PassesAttrs (kind_of name.now) attrs.now }
    ensures { IfOk result (λ expr. expr.pieces ≡ pieces_of attrs.now.expr) }
{
    let expr = known_expr(alloc, name.kind(), attrs.expr.as_slice())?;
    Ok(expr)
}

/// The state of a stream that is made at this stamp.
pub(crate) fn new_state(
    alloc: Global,
    name: StreamName,
    attrs: StreamAttrs,
    created: i64,
) -> Result<StreamState, AllocError>
    requires { pos 0 ≤ℤ created }
    ensures { IfOk result (λ state. state ≡ new_state name attrs (unsigned_abs created)) }
{
    let attrs = Shared::new(alloc, attrs)?;
    let mut files = Seq::new(alloc);
    files.push(LogFile {
        created,
        closed: None,
        first: 0,
        bytes: 0,
    })?;
    Ok(StreamState {
        name,
        attrs,
        taken: 0,
        opened: 1,
        files,
    })
}

impl LiveStream {
    /// A living stream with these parts.
    pub(crate) fn rebuild(
        alloc: Global,
        state: StreamState,
        openers: ClientSet,
        mark: Mark,
    ) -> Result<LiveStream, AllocError>
        requires passes { PassesAttrs (kind_of state.name) state.attrs }
        requires few { state.opened ≤ state.taken + 1 }
        ensures { IfOk result (λ stream. stream
            ≡ record { state = state; openers = openers; mark = mark }) }
    {
        match expression(alloc, &state.name, state.attrs.get()) {
            Ok(expr) => Ok(LiveStream {
                state,
                openers,
                mark,
                expr,
            }),
            Err(error) => {
                drop(state);
                Err(error)
            }
        }
    }

    /// A new stream, made at this stamp.
    pub(crate) fn make(
        alloc: Global,
        name: StreamName,
        attrs: StreamAttrs,
        created: i64,
        openers: ClientSet,
        mark: Mark,
    ) -> Result<LiveStream, AllocError>
        requires passes { PassesAttrs (kind_of name) attrs }
        requires stamp { pos 0 ≤ℤ created }
        ensures { IfOk result (λ stream. stream ≡ record {
          state = new_state name attrs (unsigned_abs created);
          openers = openers;
          mark = mark;
        }) }
    {
        let state = new_state(alloc, name, attrs, created)?;
        LiveStream::rebuild(alloc, state, openers, mark)
    }

    /// What stands of the stream.
    pub(crate) fn state(&self) -> &StreamState
        ensures { result.now ≡ self.now.state }
    {
        &self.state
    }

    /// The clients that have the stream open, rising.
    pub(crate) fn openers(&self) -> &[u16]
        ensures { result.now ≡ self.now.openers }
    {
        self.openers.as_slice()
    }

    /// The stream's mark.
    pub(crate) fn mark(&self) -> Mark
        ensures { result ≡ self.now.mark }
    {
        self.mark
    }

    /// The stream has this mark.
    pub(crate) fn put_mark(&mut self, mark: Mark)
        ensures { self.new ≡ with_mark mark self.old }
    {
        self.mark = mark;
    }

    /// Whether the stream has this name.
    pub(crate) fn is_named(&self, name: &StreamName) -> bool
        ensures { result ≡ is_named name.now self.now }
    {
        self.state.name == *name
    }

    /// Whether the client has the stream open.
    pub(crate) fn is_open_for(&self, client: u16) -> bool
        ensures { result ≡ has client self.now.openers }
    {
        self.openers.contains(client)
    }

    /// Whether the stream is an application's.
    pub(crate) fn is_of_application(&self) -> bool
        ensures { result ≡ is_of_application self.now }
    {
        matches!(self.state.name, StreamName::App { .. })
    }

    /// Whether the stream has these attributes.
    pub(crate) fn has_attrs(&self, attrs: &StreamAttrs) -> bool
        ensures { result ≡ same_attrs attrs.now self.now.state.attrs }
    {
        *attrs == *self.state.attrs.get()
    }

    /// Whether a stream of these attributes would have the place of this one.
    pub(crate) fn has_place_of(&self, attrs: &StreamAttrs) -> bool
        ensures { result ≡ have_one_place self.now.state.attrs attrs.now }
    {
        have_one_place(self.state.attrs.get(), attrs)
    }

    /// How many bytes the record takes that is stored next.
    #[tactic(auto, using(crate::proofs::StreamLemmas::size_low))]
    pub(crate) fn length_of(&self, rec: &LogRecord) -> u32
        requires printable { IsTrue (can_print rec.now) }
        requires numbers { self.now.state.taken < 4294967294 }
        ensures length { result ≡ length_in self.now.state rec.now }
        ensures bound { result ≤ 16384 }
    {
        match self.state.attrs.get().record_size {
            0 => printed_length(&self.expr, rec),
            size => size,
        }
    }

    /// How many bytes a record with this header and body takes that is stored next, whichever its times are.
    pub(crate) fn length_of_parts(&self, header: &Header, body: &Text) -> u32
        requires { self.now.state.taken < 4294967294 }
        ensures { (rec : RecordOf) → HasParts header.now body.now rec
            → result ≡ length_in self.now.state rec }
    {
        match self.state.attrs.get().record_size {
            0 => parts_length(&self.expr, header, body),
            size => size,
        }
    }

    /// How many bytes the record of a notification with these names and this body takes that is stored next, whichever
    /// its times and the rest of its header are.
    pub(crate) fn length_of_notified(&self, object: &Name, notifier: &Name, body: &Text) -> u32
        requires { self.now.state.taken < 4294967294 }
        ensures { (rec : RecordOf) → HasNotifiedParts object.now notifier.now body.now rec
            → result ≡ length_in self.now.state rec }
    {
        match self.state.attrs.get().record_size {
            0 => notified_length(&self.expr, object, notifier, body),
            size => size,
        }
    }

    /// Whether the stream halts and a record of so many bytes does not fit its file.
    pub(crate) fn lacks_room(&self, len: u32) -> bool
        ensures { result ≡ lacks_room self.now.state.attrs (current_file self.now.state.files).bytes
            len }
    {
        let attrs = self.state.attrs.get();
        let current = current_of(self.state.files.as_slice());
        attrs.action == FullAction::Halt && !has_room(attrs, current.bytes, len)
    }

    /// The clients that have the stream open once this one has opened it.
    pub(crate) fn joined(&self, alloc: Global, client: u16) -> Result<ClientSet, AllocError>
        ensures { IfOk result (λ openers. openers ≡ put nat_lt client self.now.openers) }
    {
        with_client(alloc, &self.openers, client)
    }

    /// These clients have the stream open.
    pub(crate) fn put_openers(&mut self, openers: ClientSet)
        ensures { self.new ≡ with_openers openers self.old }
    {
        self.openers = openers;
    }

    /// A client opens the stream. On an error nothing changes.
    pub(crate) fn join(&mut self, client: u16) -> Result<(), AllocError>
        ensures ok { OnOk result (self.new ≡ with_opener client self.old) }
        ensures err { OnErr result (self.new ≡ self.old) }
    {
        self.openers.insert(client)
    }

    /// A client closes the stream.
    pub(crate) fn leave(&mut self, client: u16)
        ensures { self.new ≡ without_opener client self.old }
    {
        self.openers.remove(client);
    }

    /// Whether the stream is an application's and nobody has it open.
    pub(crate) fn is_idle(&self) -> bool
        ensures { result ≡ has_nobody self.now }
    {
        self.is_of_application() && self.openers.as_slice().is_empty()
    }

    /// Whether the stream ends when this client closes it.
    pub(crate) fn ends_without(&self, client: u16) -> bool
        ensures { result ≡ has_nobody (without_opener client self.now) }
    {
        self.is_of_application()
            && self
                .openers
                .as_slice()
                .iter()
                .all(|opener| *opener == client)
    }

    /// What was done where the stream was made.
    pub(crate) fn made(&self, alloc: Global) -> Result<StreamEvent, AllocError>
        ensures { IfOk result (λ event. event ≡ made_event self.now) }
    {
        let state = self.state.copy(alloc)?;
        Ok(StreamEvent::Made { state })
    }

    /// What the storing of a record does, which takes so many bytes.
    pub(crate) fn storing(
        &self,
        alloc: Global,
        len: u32,
        last: i64,
        rec: &LogRecord,
        now: i64,
    ) -> Result<StreamEvent, AllocError>
        requires moment { IsMoment last now }
        requires printable { IsTrue (can_print rec.now) }
        requires numbers { self.now.state.taken < 4294967294 }
        requires length { len ≡ length_in self.now.state rec.now }
        ensures { IfOk result (λ event. event
            ≡ storing (unsigned_abs last) (second_of now) rec.now self.now.state) }
    {
        let stamps = due_stamps(&self.state, len, last, now);
        let size = self.state.attrs.get().record_size;
        let bytes = print_record(alloc, &self.expr, self.state.taken + 1, rec, size)?;
        let before = self.state.copy(alloc)?;
        Ok(StreamEvent::Stored {
            before,
            bytes,
            stamps,
        })
    }

    /// The last stamp, how many files were made and how they stand, once a record of so many bytes is stored.
    pub(crate) fn filing(
        &self,
        alloc: Global,
        len: u32,
        last: i64,
        now: i64,
    ) -> Result<(i64, u32, Filed), AllocError>
        requires moment { IsMoment last now }
        requires length { len ≤ 16384 }
        requires numbers { self.now.state.taken < 4294967294 }
        requires room { lacks_room self.now.state.attrs (current_file self.now.state.files).bytes
            len ≡ false }
        ensures filing { IfOk result (λ filed. (rec : RecordOf) → len ≡ length_in self.now.state rec
            → IsFiling last now rec self.now.state filed.0 filed.1
            (files_after filed.2 self.now.state.files)) }
        ensures few { IfOk result (λ filed. filed.1 ≤ self.now.state.taken + 2) }
    {
        let stamps = due_stamps(&self.state, len, last, now);
        let filed = files_stored(alloc, &self.state, len, stamps)?;
        let opened = opened_after(self.state.opened, stamps);
        Ok((last_after(last, stamps), opened, filed))
    }

    /// So many records are taken, so many files were made, and they stand so.
    pub(crate) fn put_files(&mut self, taken: u32, opened: u32, filed: Filed)
        requires { opened ≤ taken + 1 }
        ensures { self.new ≡ filed_in taken opened filed self.old }
    {
        self.state.taken = taken;
        self.state.opened = opened;
        stand_so(&mut self.state.files, filed);
    }
}
