//! The streams with which a state begins.
ghost use Rattle.std.specs.Prelude.{◌≡◌, ◌≤◌, ◌+◌, ◌≤ℤ◌, ◌++◌, nat_lt, pos, length, map, unsigned_abs, [], ◌∷◌, IfOk, OnOk};
ghost use Rattle.client_set.specs.Rising.{IsRising};
ghost use Rattle.stream_config.specs.Attributes.{kind_of, PassesAttrs};
ghost use Rattle.log_history.specs.Table.{new_state};
ghost use Rattle.log_service.specs.Moments.{IsTimeOfCall, second_of};
ghost use Rattle.log_service.specs.State.{made_event, joined_streams, AreSoundStreams};
ghost use Rattle.log_service.specs.Beginning.{unopened_stream, third_stamp, well_streams, HasWells, AreWells};

use crate::live::LiveStream;
use ais_values::{Duplicate, Seq};
use client_set::ClientSet;
use std::alloc::{AllocError, Global};
use stream_config::{
    Mark, NANOSECONDS_PER_SECOND, StreamAttrs, StreamEvent, StreamName, StreamState, stamp,
};

/// The second of a time.
fn second_of(time: i64) -> i64
    requires { IsTimeOfCall time }
    ensures { result ≡ pos (second_of time) }
{
    time / NANOSECONDS_PER_SECOND
}

/// Adds what was done where a stream was made.
fn add_made(
    alloc: Global,
    events: &mut Seq<StreamEvent>,
    stream: &LiveStream,
) -> Result<(), AllocError>
    ensures { OnOk result (events.new ≡ events.old ++ made_event stream.now ∷ []) }
{
    let event = stream.made(alloc)?;
    events.push(event)
}

/// Puts a stream that was made behind the others, and adds what was done.
fn push_made(
    alloc: Global,
    streams: &mut Vec<LiveStream>,
    events: &mut Seq<StreamEvent>,
    stream: LiveStream,
) -> Result<(), AllocError>
    ensures streams { OnOk result (streams.new.items ≡ streams.old.items ++ stream ∷ []) }
    ensures events { OnOk result (events.new ≡ events.old ++ made_event stream ∷ []) }
{
    match add_made(alloc, events, &stream) {
        Ok(()) => {
            streams.push(stream)?;
            Ok(())
        }
        Err(error) => {
            drop(stream);
            Err(error)
        }
    }
}

/// Makes a well-known stream behind the others.
fn add_well(
    alloc: Global,
    streams: &mut Vec<LiveStream>,
    events: &mut Seq<StreamEvent>,
    name: StreamName,
    attrs: &StreamAttrs,
    created: i64,
) -> Result<(), AllocError>
    requires passes { PassesAttrs (kind_of name) attrs.now }
    requires stamp { pos 0 ≤ℤ created }
    ensures streams { OnOk result (streams.new.items
        ≡ streams.old.items ++ unopened_stream name attrs.now (unsigned_abs created) ∷ []) }
    ensures events { OnOk result (events.new
        ≡ events.old ++ made_event (unopened_stream name attrs.now (unsigned_abs created)) ∷ []) }
{
    let attrs = attrs.copy(alloc)?;
    let stream = LiveStream::make(
        alloc,
        name,
        attrs,
        created,
        ClientSet::new(alloc),
        Mark::first(),
    )?;
    push_made(alloc, streams, events, stream)
}

/// Makes the well-known streams behind the others, as they are made at the start. The answer is the last stamp then.
fn add_wells(
    alloc: Global,
    streams: &mut Vec<LiveStream>,
    events: &mut Seq<StreamEvent>,
    start: i64,
    wells: &[StreamAttrs],
) -> Result<i64, AllocError>
    requires start { IsTimeOfCall start }
    requires wells { AreWells wells.now }
    ensures stamp { IfOk result (λ last. last ≡ pos (third_stamp (second_of start))) }
    ensures streams { OnOk result (streams.new.items
        ≡ streams.old.items ++ well_streams (second_of start) wells.now) }
    ensures events { OnOk result (events.new
        ≡ events.old ++ map made_event (well_streams (second_of start) wells.now)) }
{
    let first = second_of(start);
    add_well(alloc, streams, events, StreamName::Alarm, &wells[0], first)?;
    let second = stamp(first, start);
    let name = StreamName::Notification;
    add_well(alloc, streams, events, name, &wells[1], second)?;
    let third = stamp(second, start);
    add_well(alloc, streams, events, StreamName::System, &wells[2], third)?;
    Ok(third)
}

/// The well-known streams as they are made at the start, with the last stamp then and the events.
pub(crate) fn wells(
    alloc: Global,
    start: i64,
    wells: &[StreamAttrs],
) -> Result<(i64, Vec<LiveStream>, Seq<StreamEvent>), AllocError>
    requires start { IsTimeOfCall start }
    requires wells { AreWells wells.now }
    ensures { IfOk result (λ made.
        HasWells (second_of start) wells.now made.0 made.1.items made.2) }
{
    let mut streams = Vec::new(alloc);
    let mut events = Seq::new(alloc);
    let last = add_wells(alloc, &mut streams, &mut events, start, wells)?;
    Ok((last, streams, events))
}

/// Puts the stream of a state, its openers and its mark behind the others.
fn push_rebuilt(
    alloc: Global,
    streams: &mut Vec<LiveStream>,
    state: StreamState,
    openers: &[u16],
    mark: Mark,
) -> Result<(), AllocError>
    requires passes { PassesAttrs (kind_of state.name) state.attrs }
    requires few { state.opened ≤ state.taken + 1 }
    requires rising { IsRising nat_lt openers.now }
    ensures { OnOk result (streams.new.items
        ≡ streams.old.items ++ record { state = state; openers = openers.now; mark = mark } ∷ []) }
{
    match openers.to_vec(alloc) {
        Ok(clients) => {
            let stream = LiveStream::rebuild(alloc, state, ClientSet::from_rising(clients), mark)?;
            streams.push(stream)?;
            Ok(())
        }
        Err(error) => {
            drop(state);
            Err(error)
        }
    }
}

/// The streams of these states, openers and marks.
pub(crate) fn rebuilt(
    alloc: Global,
    states: Seq<StreamState>,
    openers: &[Seq<u16>],
    marks: &[Mark],
) -> Result<Vec<LiveStream>, AllocError>
    requires lengths { length states ≡ length openers.now }
    requires marks { length states ≡ length marks.now }
    requires sound { AreSoundStreams (joined_streams states openers.now marks.now) }
    ensures { IfOk result (λ streams. streams.items
        ≡ joined_streams states openers.now marks.now) }
{
    let mut streams = Vec::new(alloc);
    for state in states.into_vec() {
        let place = streams.len();
        let clients = openers[place].as_slice();
        let mark = marks[place];
        push_rebuilt(alloc, &mut streams, state, clients, mark)?;
    }
    Ok(streams)
}
