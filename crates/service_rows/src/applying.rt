//! Entries are applied to a service, and to its twin.
ghost use Rattle.service_core.specs.Applying.{CanApply};

use crate::beginning::Session;
use crate::files::perform_all;
use crate::printing::{put, put_reply};
use crate::twins::twin_agrees;
use ais_values::Duplicate;
use calls::{Call, Entry, Reply, Shared};
use client_window::Judged;
use service_core::{Effect, Service};
use std::alloc::{AllocError, Global};

/// Whether the window of a client judges a call that was answered so, and those behind it.
fn is_judged(service: &Service, client: u16, seq: u32, reply: &Reply) -> bool {
    let repeated = match service.judge(client, seq) {
        Judged::Repeat { reply: kept } => *kept == *reply,
        _ => false,
    };
    let next = matches!(service.judge(client, seq.saturating_add(1)), Judged::New);
    let behind = matches!(service.judge(client, seq.saturating_add(2)), Judged::Ahead);
    repeated && next && behind
}

/// Does the deeds of an entry, and shows its reply.
fn finish(
    alloc: Global,
    session: &mut Session,
    client: u16,
    seq: u32,
    effect: &Effect,
    out: &mut Vec<u8>,
) -> Result<(), AllocError> {
    if !perform_all(&mut session.disk, &effect.deeds)? {
        put(out, b"disk fault\n")?;
    }
    match &effect.reply {
        None => Ok(()),
        Some(reply) => {
            if !is_judged(&session.service, client, seq, reply) {
                put(out, b"wrongly judged\n")?;
            }
            put_reply(alloc, client, seq, reply, out)
        }
    }
}

/// Applies an entry to a service and to its twin.
fn apply(
    alloc: Global,
    session: &mut Session,
    entry: &Entry,
    out: &mut Vec<u8>,
) -> Result<Effect, AllocError>
    requires { CanApply entry.now session.old.service }
{
    let saved = session.service.save(alloc)?;
    match session.service.apply(alloc, entry) {
        Err(error) => {
            drop(saved);
            Err(error)
        }
        Ok(effect) => {
            let agrees = twin_agrees(alloc, &session.service, saved, entry, &effect.reply);
            if !agrees {
                let _ = put(out, b"the twin differs\n");
            }
            Ok(effect)
        }
    }
}

/// Applies a client's call.
pub(crate) fn apply_call(
    alloc: Global,
    session: &mut Session,
    client: u16,
    call: &Call,
    out: &mut Vec<u8>,
) -> Result<(), AllocError> {
    let time = session.now;
    if !session.service.can_accept(client, time) {
        return put(out, b"not accepted\n");
    }
    let seq = session.service.next(client);
    let call = Shared::new(alloc, call.copy(alloc)?)?;
    let entry = Entry::Called {
        client,
        seq,
        time,
        call,
    };
    let applied = apply(alloc, session, &entry, out);
    drop(entry);
    finish_with(alloc, session, client, seq, applied, out)
}

/// Does what an entry came to.
fn finish_with(
    alloc: Global,
    session: &mut Session,
    client: u16,
    seq: u32,
    applied: Result<Effect, AllocError>,
    out: &mut Vec<u8>,
) -> Result<(), AllocError> {
    match applied {
        Err(error) => Err(error),
        Ok(effect) => {
            let done = finish(alloc, session, client, seq, &effect, out);
            drop(effect);
            done
        }
    }
}

/// Applies the receipt through an item. A later number has no receipt, nor has this one afterwards.
pub(crate) fn apply_receipt(
    alloc: Global,
    session: &mut Session,
    client: u16,
    key: u32,
    through: u32,
    out: &mut Vec<u8>,
) -> Result<(), AllocError> {
    let time = session.now;
    if !session.service.can_accept(client, time) || !session.service.is_new(client, key, through) {
        return put(out, b"not accepted\n");
    }
    let entry = Entry::Receipted {
        client,
        key,
        through,
        time,
    };
    let applied = apply(alloc, session, &entry, out);
    drop(entry);
    if session.service.is_new(client, key, through) {
        put(out, b"still new\n")?;
    }
    finish_with(alloc, session, client, 0, applied, out)
}
