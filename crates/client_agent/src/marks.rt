//! The marks of streams that an agent was told last.
ghost use Rattle.std.specs.Prelude.{◌≡◌, ◌∷◌, [], IfOk, Some, option_map};
ghost use Rattle.std.specs.Option.{option_copied, ForSome};
ghost use Rattle.cluster_facts.specs.Agents.{mark_of, stream_in, told_mark};
ghost use Rattle.client_agent.specs.Inside.{mark_ready, key_of, later_of, later_mark, kept_of, with_seen, IsReady};

use ais_values::{Duplicate, Name};
use calls::{Call, Reply};
use indexmap::IndexMap;
use std::alloc::{AllocError, Global};
use std::marker::Model;
use stream_config::{Mark, StreamName};

/// A stream, and its mark that was told last.
#[derive(Drop)]
pub struct SeenMark {
    pub stream: StreamName,
    pub mark: Mark,
}

/// A mark that is later than the last one of its stream, and whether its mask is another.
#[derive(Clone, Copy)]
pub struct LaterMark<'a> {
    pub stream: &'a StreamName,
    pub mark: Mark,
    pub changes: bool,
}

/// A mark that is to be put, and the key of its stream's name.
#[derive(Drop)]
pub struct ReadyMark {
    pub key: Vec<u8>,
    pub seen: SeenMark,
}

/// The marks that were told last, one of each stream's name. They are found by the name's bytes, however many there are.
#[derive(Drop)]
pub struct SeenMarks {
    marks: IndexMap<Vec<u8>, SeenMark>,
}

impl Model for SeenMarks {
    ghost use Rattle.client_agent.specs.Marks.{Marks};

    ghost Value = { Marks };

    ghost use Rattle.client_agent.specs.Inside.{marks_inside, AreKeyed};

    ghost view = { marks_inside };

    ghost invariant = { AreKeyed };
}

/// The stream of whose mark a call's reply tells.
fn stream_in(call: &Call) -> Option<&StreamName>
    ensures { option_copied result ≡ stream_in call.now }
{
    match call {
        Call::LogOpen { stream, .. } => Some(stream),
        Call::LogWrite { stream, .. } => Some(stream),
        Call::LogFilter { stream, .. } => Some(stream),
        _ => None,
    }
}

/// The key of an application stream's name.
fn app_key(alloc: Global, name: &Name) -> Result<Vec<u8>, AllocError>
    ensures { IfOk result (λ key. key.items ≡ 3 ∷ name.now) }
{
    let mut key = [3].to_vec(alloc)?;
    key.extend_from_slice(name.as_slice())?;
    Ok(key)
}

/// The bytes by which the mark of a stream of this name is found.
fn key_of(alloc: Global, stream: &StreamName) -> Result<Vec<u8>, AllocError>
    ensures { IfOk result (λ key. key.items ≡ key_of stream.now) }
{
    let key = match stream {
        StreamName::Alarm => [0].to_vec(alloc)?,
        StreamName::Notification => [1].to_vec(alloc)?,
        StreamName::System => [2].to_vec(alloc)?,
        StreamName::App { name } => app_key(alloc, name)?,
    };
    Ok(key)
}

/// What is to be kept of a later mark.
fn ready_of(alloc: Global, later: LaterMark) -> Result<ReadyMark, AllocError>
    ensures mark { IfOk result (λ ready.
        (ready.seen.stream ≡ later.entry.stream.now) × (ready.seen.mark ≡ later.entry.mark)) }
    ensures key { IfOk result (λ ready. ready.key.items ≡ key_of later.entry.stream.now) }
{
    let key = key_of(alloc, later.stream)?;
    let stream = later.stream.copy(alloc)?;
    let seen = SeenMark {
        stream,
        mark: later.mark,
    };
    Ok(ReadyMark { key, seen })
}

impl SeenMarks {
    /// No marks. It takes no memory.
    pub fn new(alloc: Global) -> SeenMarks
        ensures { result.told ≡ [] }
    {
        SeenMarks {
            marks: IndexMap::new(alloc),
        }
    }

    /// The mark of a stream that was told last, or that of one that was never set.
    fn mark_of(&self, alloc: Global, stream: &StreamName) -> Result<Mark, AllocError>
        ensures { IfOk result (λ mark. mark ≡ mark_of stream.now self.now.told) }
    {
        let key = key_of(alloc, stream)?;
        match self.marks.get(key.as_slice()) {
            Some(seen) => Ok(seen.mark),
            None => Ok(Mark::first()),
        }
    }

    /// A mark that is told of a stream, if it is later than the last one.
    fn later_than<'a>(
        &self,
        alloc: Global,
        stream: &'a StreamName,
        mark: Mark,
    ) -> Result<Option<LaterMark<'a>>, AllocError>
        ensures { IfOk result (λ later. option_map later_of later ≡
            later_mark (Some (stream.now, mark)) self.now.told) }
    {
        let last = self.mark_of(alloc, stream)?;
        if last.since < mark.since {
            Ok(Some(LaterMark {
                stream,
                mark,
                changes: mark.mask != last.mask,
            }))
        } else {
            Ok(None)
        }
    }

    /// The mark that a call's reply tells, if it is later than the last one of its stream.
    pub fn later<'a>(
        &self,
        alloc: Global,
        call: &'a Call,
        reply: &Reply,
    ) -> Result<Option<LaterMark<'a>>, AllocError>
        ensures { IfOk result (λ later. option_map later_of later ≡
            later_mark (told_mark call.now reply.now) self.now.told) }
    {
        match reply {
            Reply::Marked { mark, .. } => match stream_in(call) {
                Some(stream) => {
                    let later = self.later_than(alloc, stream, *mark)?;
                    Ok(later)
                }
                None => Ok(None),
            },
            _ => Ok(None),
        }
    }

    /// What is to be kept of a later mark, and room for it.
    pub fn prepare(
        &mut self,
        alloc: Global,
        later: Option<LaterMark>,
    ) -> Result<Option<ReadyMark>, AllocError>
        ensures told { self.new.told ≡ self.old.told }
        ensures mark { IfOk result (λ ready. option_map mark_ready ready
            ≡ kept_of (option_map later_of later.entry)) }
        ensures room { IfOk result (λ ready. ForSome ready (IsReady self.new.spare)) }
    {
        match later {
            Some(later) => {
                self.marks.reserve(1)?;
                let ready = ready_of(alloc, later)?;
                Ok(Some(ready))
            }
            None => Ok(None),
        }
    }

    /// Puts a mark in the place of the one of its stream.
    fn put_ready(&mut self, ready: ReadyMark)
        requires { IsReady self.old.spare ready }
        ensures { self.new.told ≡ with_seen (Some (mark_ready ready)) self.old.told }
    {
        let ReadyMark { key, seen } = ready;
        match self.marks.insert(key, seen) {
            Ok(_) => {}
            Err(_) => unreachable!(),
        }
    }

    /// Puts a mark, if there is one, in the place of the one of its stream.
    pub fn put(&mut self, ready: Option<ReadyMark>)
        requires { ForSome ready (IsReady self.old.spare) }
        ensures { self.new.told ≡ with_seen (option_map mark_ready ready) self.old.told }
    {
        if let Some(ready) = ready {
            self.put_ready(ready);
        }
    }
}
