//! The living streams of the state, in order of creation.
ghost use Rattle.std.specs.Prelude.{◌≡◌, ◌≤◌, ◌≤ℤ◌, ◌<◌, ◌++◌, ◌∷◌, ℕ, pos, unsigned_abs, length, false, [], IsTrue, IfOk, OnOk, OnErr};
ghost use Rattle.std.specs.Option.{option_copied, ForSome};
ghost use Rattle.std.specs.List.{find, position, list_any, count_by};
ghost use Rattle.stream_config.specs.Attributes.{kind_of, PassesAttrs};
ghost use Rattle.record_print.specs.Printing.{can_print};
ghost use Rattle.log_history.specs.Table.{OpenStream, is_named, with_opener, has_nobody, kept_streams, closed_streams, left_streams, opened_stream};
ghost use Rattle.log_history.specs.Firsts.{change_first};
ghost use Rattle.log_history.specs.Times.{record_at};
ghost use Rattle.log_history.specs.KeptAnswers.{kept_stream, kept_mark, is_of_application, has_place, is_filled, making_in};
ghost use Rattle.log_service.specs.Moments.{IsTimeOfCall, IsMoment, second_of};
ghost use Rattle.log_service.specs.State.{made_event};
ghost use Rattle.log_service.specs.Opening.{mark_in};
ghost use Rattle.log_service.specs.Changing.{AreEndsIn, last_of_end, end_of, last_of_endings, endings_of};
ghost use Rattle.log_service.specs.PlanningParts.{PlansMaking, PlansJoining, PlansOpening, PlansMarking, PlansStoring};

use crate::live::LiveStream;
use crate::plan::{Doing, LogPlan};
use crate::records::record_at;
use ais_values::{Duplicate, Seq, Text};
use client_set::ClientSet;
use record_print::{Header, LogRecord};
use std::alloc::{AllocError, Global};
use stream_config::{Mark, StreamAttrs, StreamEvent, StreamName, stamp};

/// The place of the stream of this name.
pub(crate) fn place_of(streams: &[LiveStream], name: &StreamName) -> Option<usize>
    ensures { result ≡ position (is_named name.now) streams.now }
{
    streams.iter().position(|stream| stream.is_named(name))
}

/// The stream of this name.
pub(crate) fn stream_of<'a>(streams: &'a [LiveStream], name: &StreamName) -> Option<&'a LiveStream>
    ensures { option_copied result ≡ kept_stream streams.now name.now }
{
    streams.iter().find(|stream| stream.is_named(name))
}

/// The mark of the stream of this name; where there is none, that of one that was never set.
pub(crate) fn mark_of(streams: &[LiveStream], name: &StreamName) -> Mark
    ensures { result ≡ kept_mark streams.now name.now }
{
    match stream_of(streams, name) {
        Some(stream) => stream.mark(),
        None => Mark::first(),
    }
}

/// Whether a stream has the place of these attributes.
pub(crate) fn has_place(streams: &[LiveStream], attrs: &StreamAttrs) -> bool
    ensures { result ≡ has_place streams.now attrs.now }
{
    streams.iter().any(|stream| stream.has_place_of(attrs))
}

/// How many streams are applications'.
pub(crate) fn application_count(streams: &[LiveStream]) -> usize
    ensures { result ≡ count_by is_of_application streams.now }
{
    streams
        .iter()
        .filter(|stream| stream.is_of_application())
        .count()
}

/// The attributes with which a stream is made: those asked for, where it does not live yet.
pub(crate) fn making<'a>(
    streams: &[LiveStream],
    name: &StreamName,
    create: Option<&'a StreamAttrs>,
) -> Option<&'a StreamAttrs>
    ensures { option_copied result ≡ making_in streams.now name.now (option_copied create.entry) }
{
    match stream_of(streams, name) {
        Some(_) => None,
        None => create,
    }
}

/// The mark that the stream of this name has once it is opened, by the entry of this number.
pub(crate) fn mark_opened(
    streams: &[LiveStream],
    name: &StreamName,
    create: Option<&StreamAttrs>,
    number: u64,
) -> Mark
    ensures { result ≡ mark_in streams.now name.now (option_copied create.entry) number }
{
    match making(streams, name, create) {
        Some(_) => Mark::made(number),
        None => mark_of(streams, name),
    }
}

/// A stream that a client makes, at this stamp and by the entry of this number.
fn new_stream(
    alloc: Global,
    client: u16,
    name: &StreamName,
    attrs: &StreamAttrs,
    created: i64,
    number: u64,
) -> Result<LiveStream, AllocError>
    requires passes { PassesAttrs (kind_of name.now) attrs.now }
    requires stamp { pos 0 ≤ℤ created }
    ensures { IfOk result (λ stream. stream
        ≡ opened_stream client name.now attrs.now (unsigned_abs created) number) }
{
    let mut openers = ClientSet::new(alloc);
    openers.insert(client)?;
    let name = name.copy(alloc)?;
    let attrs = attrs.copy(alloc)?;
    LiveStream::make(alloc, name, attrs, created, openers, Mark::made(number))
}

/// One event.
fn alone(alloc: Global, event: StreamEvent) -> Result<Seq<StreamEvent>, AllocError>
    ensures { IfOk result (λ events. events ≡ event ∷ []) }
{
    let mut events = Seq::new(alloc);
    events.push(event)?;
    Ok(events)
}

/// What was done where a stream was made, and nothing else.
fn made_alone(alloc: Global, stream: &LiveStream) -> Result<Seq<StreamEvent>, AllocError>
    ensures { IfOk result (λ events. events ≡ made_event stream.now ∷ []) }
{
    let event = stream.made(alloc)?;
    alone(alloc, event)
}

/// The plan by which a client makes a stream, at this stamp and by the entry of this number.
fn making_plan(
    alloc: Global,
    streams: &[LiveStream],
    client: u16,
    name: &StreamName,
    attrs: &StreamAttrs,
    created: i64,
    number: u64,
) -> Result<LogPlan, AllocError>
    requires passes { PassesAttrs (kind_of name.now) attrs.now }
    requires stamp { pos 0 ≤ℤ created }
    ensures { IfOk result (PlansMaking streams.now created
        (opened_stream client name.now attrs.now (unsigned_abs created) number)) }
{
    let stream = new_stream(alloc, client, name, attrs, created, number)?;
    match made_alone(alloc, &stream) {
        Ok(events) => Ok(LogPlan::accepted(events, created, Doing::Make { stream })),
        Err(error) => {
            drop(stream);
            Err(error)
        }
    }
}

/// The plan by which a client opens the stream of this name; where there is none, nothing changes.
fn joining_plan(
    alloc: Global,
    streams: &[LiveStream],
    client: u16,
    name: &StreamName,
    last: i64,
) -> Result<LogPlan, AllocError>
    ensures { IfOk result (PlansJoining last client name.now streams.now) }
{
    let Some(place) = place_of(streams, name) else {
        return Ok(LogPlan::accepted(Seq::new(alloc), last, Doing::Stay));
    };
    let openers = streams[place].joined(alloc, client)?;
    Ok(LogPlan::accepted(Seq::new(alloc), last, Doing::Join { place, openers }))
}

/// The plan by which a client opens the stream of this name, and makes it where it does not live and attributes are
/// given.
pub(crate) fn opening_plan(
    alloc: Global,
    streams: &[LiveStream],
    client: u16,
    name: &StreamName,
    create: Option<&StreamAttrs>,
    last: i64,
    now: i64,
    number: u64,
) -> Result<LogPlan, AllocError>
    requires moment { IsMoment last now }
    requires passes { ForSome (making_in streams.now name.now (option_copied create))
        (PassesAttrs (kind_of name.now)) }
    ensures { IfOk result (PlansOpening last now client number name.now
        (making_in streams.now name.now (option_copied create.entry)) streams.now) }
{
    match making(streams, name, create) {
        Some(attrs) => {
            let created = stamp(last, now);
            let plan = making_plan(alloc, streams, client, name, attrs, created, number)?;
            Ok(plan)
        }
        None => {
            let plan = joining_plan(alloc, streams, client, name, last)?;
            Ok(plan)
        }
    }
}

/// The plan by which the stream of this name gets a mark; where there is none, nothing changes.
pub(crate) fn marking_plan(
    alloc: Global,
    streams: &[LiveStream],
    name: &StreamName,
    last: i64,
    mark: Mark,
) -> LogPlan
    ensures { PlansMarking last name.now mark streams.now result }
{
    let Some(place) = place_of(streams, name) else {
        return LogPlan::accepted(Seq::new(alloc), last, Doing::Stay);
    };
    LogPlan::accepted(Seq::new(alloc), last, Doing::Set { place, mark })
}

/// The plan by which a record is stored in the stream of this name; where there is none, nothing changes.
pub(crate) fn storing_plan(
    alloc: Global,
    streams: &[LiveStream],
    name: &StreamName,
    last: i64,
    rec: &LogRecord,
    now: i64,
) -> Result<LogPlan, AllocError>
    requires moment { IsMoment last now }
    requires printable { IsTrue (can_print rec.now) }
    requires numbers { ForSome (kept_stream streams.now name.now)
        (λ stream. stream.state.taken < 4294967294) }
    requires room { is_filled streams.now name.now rec.now ≡ false }
    ensures { IfOk result (PlansStoring last now name.now rec.now streams.now) }
{
    let Some(place) = place_of(streams, name) else {
        return Ok(LogPlan::accepted(Seq::new(alloc), last, Doing::Stay));
    };
    let stream = &streams[place];
    let taken = stream.state().taken + 1;
    let len = stream.length_of(rec);
    let event = stream.storing(alloc, len, last, rec, now)?;
    let events = alone(alloc, event)?;
    let (stamped, opened, filed) = stream.filing(alloc, len, last, now)?;
    Ok(LogPlan::accepted(
        events,
        stamped,
        Doing::Store {
            place,
            taken,
            opened,
            filed,
        },
    ))
}

/// The plan by which a record with these parts is stored in the stream of this name; where there is none, nothing changes.
pub(crate) fn writing_plan(
    alloc: Global,
    streams: &[LiveStream],
    name: &StreamName,
    last: i64,
    time: i64,
    header: &Header,
    body: &Text,
    now: i64,
) -> Result<LogPlan, AllocError>
    requires moment { IsMoment last now }
    requires printable { IsTrue (can_print (record_at time header.now body.now now)) }
    requires numbers { ForSome (kept_stream streams.now name.now)
        (λ stream. stream.state.taken < 4294967294) }
    requires room { is_filled streams.now name.now (record_at time header.now body.now now)
        ≡ false }
    ensures { IfOk result (PlansStoring last now name.now
        (record_at time header.now body.now now) streams.now) }
{
    let rec = record_at(alloc, time, header, body, now)?;
    let plan = storing_plan(alloc, streams, name, last, &rec, now);
    drop(rec);
    plan
}

/// Where the stream ends when this client closes it, adds that to the events. The answer is the last stamp then.
fn add_end(
    alloc: Global,
    events: &mut Seq<StreamEvent>,
    stream: &LiveStream,
    client: u16,
    last: i64,
    now: i64,
) -> Result<i64, AllocError>
    requires from { pos 0 ≤ℤ last }
    requires to { last ≤ℤ pos 20000000000 }
    requires moment { IsTimeOfCall now }
    ensures stamp { IfOk result (λ stamped.
        stamped ≡ pos (last_of_end last now client stream.now)) }
    ensures events { OnOk result (events.new ≡ events.old ++ end_of last now client stream.now) }
{
    if !stream.ends_without(client) {
        return Ok(last);
    }
    let closed = stamp(last, now);
    let before = stream.state().copy(alloc)?;
    events.push(StreamEvent::Ended { before, closed })?;
    Ok(closed)
}

/// The last stamp and the end, if there is one, when a client closes the stream of this name.
pub(crate) fn closing(
    alloc: Global,
    streams: &[LiveStream],
    name: &StreamName,
    client: u16,
    last: i64,
    now: i64,
) -> Result<(i64, Seq<StreamEvent>), AllocError>
    requires moment { IsMoment last now }
    requires busy { list_any has_nobody streams.now ≡ false }
    ensures { IfOk result (AreEndsIn last now (closed_streams client name.now streams.now)) }
{
    let mut events = Seq::new(alloc);
    let Some(stream) = stream_of(streams, name) else {
        return Ok((last, events));
    };
    let stamped = add_end(alloc, &mut events, stream, client, last, now)?;
    Ok((stamped, events))
}

/// A client opens the stream of this name; where there is none, nothing changes. On an error nothing changes.
pub(crate) fn join(
    streams: &mut Vec<LiveStream>,
    name: &StreamName,
    client: u16,
) -> Result<(), AllocError>
    ensures ok { OnOk result (streams.new.items
        ≡ change_first (is_named name.now) (with_opener client) streams.old.items) }
    ensures err { OnErr result (streams.new.items ≡ streams.old.items) }
{
    if let Some(place) = place_of(streams.as_slice(), name) {
        streams[place].join(client)?;
    }
    Ok(())
}

/// A client closes the stream of this name.
pub(crate) fn leave(streams: &mut Vec<LiveStream>, name: &StreamName, client: u16)
    ensures { streams.new.items ≡ closed_streams client name.now streams.old.items }
{
    if let Some(place) = place_of(streams.as_slice(), name) {
        streams[place].leave(client);
    }
}

/// The last stamp and the ends of streams when a client closes all that it has open.
pub(crate) fn endings(
    alloc: Global,
    streams: &[LiveStream],
    client: u16,
    last: i64,
    now: i64,
) -> Result<(i64, Seq<StreamEvent>), AllocError>
    requires moment { IsMoment last now }
    requires few { length streams.now ≤ 100 }
    ensures stamp { IfOk result (λ ended. ended.0 ≡ last_of_endings last now client streams.now) }
    ensures events { IfOk result (λ ended. ended.1 ≡ endings_of last now client streams.now) }
{
    let mut events = Seq::new(alloc);
    let mut stamped = last;
    for stream in streams {
        stamped = add_end(alloc, &mut events, stream, client, stamped, now)?;
    }
    Ok((stamped, events))
}

/// A client closes all streams that it has open.
pub(crate) fn leave_all(streams: &mut Vec<LiveStream>, client: u16)
    ensures { streams.new.items ≡ left_streams client streams.old.items }
{
    for place in 0..streams.len() {
        streams[place].leave(client);
    }
}

/// Lets the streams go that nobody has open and that end therefore.
pub(crate) fn drop_idle(streams: &mut Vec<LiveStream>)
    ensures { streams.new.items ≡ kept_streams streams.old.items }
{
    streams.retain(|stream| !stream.is_idle());
}
