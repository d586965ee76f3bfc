//! What stands in a printed line as in a script: notifications, masks of streams, and the lines that were refused. The reader of
//! scripts judges it.
use crate::events::Event;
use crate::reading::{event_of, is_kind, is_own_of_three, refused_line};
use crate::words::{Words, behind};
use script::{ScriptAnswer, count_lines};
use std::alloc::{AllocError, Global};

/// A first line, under which any other one may stand.
const FIRST: &[u8] = b"cluster start=0 queue=1 callbacks=1\n";

/// What a line tells, if a run prints such a line.
pub(crate) fn read_event(alloc: Global, line: &[u8]) -> Result<Option<Event>, AllocError> {
    let Some(event) = event_of(line) else {
        return Ok(None);
    };
    let spelled = match event {
        Event::Answered { .. } => is_answer(alloc, behind(line, 4))?,
        Event::CalledBack { .. } => is_callback(alloc, behind(line, 3))?,
        Event::Refused { .. } => is_refusal(alloc, behind(line, 1))?,
        _ => true,
    };
    Ok(if spelled { Some(event) } else { None })
}

// Whether what stands behind a reply's status is right: a notification, if it begins as one.
fn is_answer(alloc: Global, text: &[u8]) -> Result<bool, AllocError> {
    match Words::of(text).word() {
        Some(word) if is_kind(word) => is_note(alloc, text),
        _ => Ok(true),
    }
}

// Whether a callback's notification is right, or its stream with the mask, if it has one.
fn is_callback(alloc: Global, text: &[u8]) -> Result<bool, AllocError> {
    match Words::of(text).word() {
        Some(b"ntf") => is_note(alloc, behind(text, 2)),
        Some(b"filter") => is_line(alloc, b"log 1 ", text),
        _ => Ok(true),
    }
}

// Whether what is refused is a line of a script, of two servers or of three as the roles behind it are.
fn is_refusal(alloc: Global, text: &[u8]) -> Result<bool, AllocError> {
    match refused_line(text) {
        Some((line, third)) if third && is_own_of_three(line) => Ok(true),
        Some((line, _)) => is_line(alloc, b"", line),
        None => Ok(false),
    }
}

// Whether a notification, which has its id behind its kind, is one that a client may send.
fn is_note(alloc: Global, note: &[u8]) -> Result<bool, AllocError> {
    let mut front = b"ntf 1 send ".to_vec(alloc)?;
    if let Some(kind) = Words::of(note).word() {
        front.extend_from_slice(kind)?;
        front.push(b' ')?;
    }
    is_line(alloc, front.as_slice(), behind(note, 2))
}

// Whether front and rest together are a line of a script.
fn is_line(alloc: Global, front: &[u8], rest: &[u8]) -> Result<bool, AllocError> {
    let mut script = FIRST.to_vec(alloc)?;
    script.extend_from_slice(front)?;
    script.extend_from_slice(rest)?;
    if script.len() > 4_294_967_294 {
        return Ok(false);
    }
    match count_lines(alloc, script.as_slice()) {
        Ok(count) => Ok(count == 2),
        Err(ScriptAnswer::Bad { .. }) => Ok(false),
        Err(ScriptAnswer::Memory) => Err(AllocError),
    }
}
