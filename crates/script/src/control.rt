//! The control lines.
ghost use Rattle.std.specs.Prelude.{◌≡◌, IfOk, option_map};
ghost use Rattle.script.specs.Gives.{Gives};
ghost use Rattle.script_grammar.specs.Reading.{one_of};
ghost use Rattle.script_language.specs.ControlReading.{setting_at, has_sound_streams, cluster_at, time_line_at, deliver_at, resend_at, inject_at, crash_at, arm_at, restart_at, dispatch_at, cat_at, shown_readers, failure_readers, control_readers};

use crate::numbers::{client, count, queue_length, script_time, skip, workers};
use crate::options::{is_sound, options};
use crate::quoted::quoted;
use crate::trouble::Trouble;
use crate::values::server;
use ais_values::StreamKind;
use script_lines::Line;
use std::alloc::{AllocError, Global};

/// `start=TIME queue=LENGTH callbacks=LENGTH` and the options of the well-known streams, without its first words
#[tactic(auto, unfolding(script_language::specs::ControlReading::setting_at))]
fn setting(alloc: Global, bytes: &[u8]) -> Result<(Line, &[u8]), Trouble>
    ensures { Gives (λ found. (found.0, found.1.now)) result (setting_at bytes.now) }
{
    let (start, rest) = script_time(bytes).ok_or(Trouble::Bad)?;
    let rest = skip(rest, b" queue=").ok_or(Trouble::Bad)?;
    let (queue, rest) = queue_length(rest).ok_or(Trouble::Bad)?;
    let rest = skip(rest, b" callbacks=").ok_or(Trouble::Bad)?;
    let (callbacks, rest) = queue_length(rest).ok_or(Trouble::Bad)?;
    let (alarm, rest) = options(alloc, rest, b" alarm")?;
    let (ntf, rest) = options(alloc, rest, b" ntf")?;
    let (sys, rest) = options(alloc, rest, b" sys")?;
    let line = Line::Cluster {
        start,
        queue,
        callbacks,
        alarm,
        ntf,
        sys,
    };
    Ok((line, rest))
}

/// Whether the well-known streams of a cluster line may have what it says of them.
fn has_sound_streams(alloc: Global, line: &Line) -> Result<bool, AllocError>
    ensures { IfOk result (λ sound. sound ≡ has_sound_streams line.now) }
{
    match line {
        Line::Cluster {
            alarm,
            ntf,
            sys,
            ..
        } => {
            let alarm = is_sound(alloc, StreamKind::Alarm, alarm)?;
            let ntf = is_sound(alloc, StreamKind::Notification, ntf)?;
            let sys = is_sound(alloc, StreamKind::System, sys)?;
            Ok(alarm && ntf && sys)
        }
        _ => Ok(true),
    }
}

/// A cluster line, whose streams may have what it says of them.
#[tactic(auto, unfolding(script_language::specs::ControlReading::cluster_at))]
fn cluster(alloc: Global, bytes: &[u8]) -> Result<(Line, &[u8]), Trouble>
    ensures { Gives (λ found. (found.0, found.1.now)) result (cluster_at bytes.now) }
{
    let (line, rest) = setting(alloc, bytes)?;
    match has_sound_streams(alloc, &line) {
        Ok(true) => Ok((line, rest)),
        Ok(false) => {
            drop(line);
            Err(Trouble::Bad)
        }
        Err(_) => {
            drop(line);
            Err(Trouble::Memory)
        }
    }
}

/// `time TIME`
#[tactic(auto, unfolding(script_language::specs::ControlReading::time_line_at))]
fn time(bytes: &[u8]) -> Option<(Line, &[u8])>
    ensures { time_line_at bytes.now ≡ option_map (λ found. (found.0, found.1.now)) result }
{
    let (now, rest) = script_time(bytes)?;
    Some((Line::Time { now }, rest))
}

/// `deliver COUNT`
#[tactic(auto, unfolding(script_language::specs::ControlReading::deliver_at))]
fn deliver(bytes: &[u8]) -> Option<(Line, &[u8])>
    ensures { deliver_at bytes.now ≡ option_map (λ found. (found.0, found.1.now)) result }
{
    let (place, rest) = count(bytes)?;
    Some((Line::Deliver { place }, rest))
}

/// `resend CLIENT`
#[tactic(auto, unfolding(script_language::specs::ControlReading::resend_at))]
fn resend(bytes: &[u8]) -> Option<(Line, &[u8])>
    ensures { resend_at bytes.now ≡ option_map (λ found. (found.0, found.1.now)) result }
{
    let (client, rest) = client(bytes)?;
    Some((Line::Resend { client }, rest))
}

/// `inject TEXT`
#[tactic(auto, unfolding(script_language::specs::ControlReading::inject_at))]
fn inject(alloc: Global, bytes: &[u8]) -> Result<(Line, &[u8]), Trouble>
    ensures { Gives (λ found. (found.0, found.1.now)) result (inject_at bytes.now) }
{
    let (bytes, rest) = quoted(alloc, bytes)?;
    Ok((Line::Inject { bytes }, rest))
}

/// `crash SERVER`
#[tactic(auto, unfolding(script_language::specs::ControlReading::crash_at))]
fn crash(bytes: &[u8]) -> Option<(Line, &[u8])>
    ensures { crash_at bytes.now ≡ option_map (λ found. (found.0, found.1.now)) result }
{
    let (server, rest) = server(bytes)?;
    Some((Line::Crash { server }, rest))
}

/// `arm SERVER COUNT`
#[tactic(auto, unfolding(script_language::specs::ControlReading::arm_at))]
fn arm(bytes: &[u8]) -> Option<(Line, &[u8])>
    ensures { arm_at bytes.now ≡ option_map (λ found. (found.0, found.1.now)) result }
{
    let (server, rest) = server(bytes)?;
    let (count, rest) = count(skip(rest, b" ")?)?;
    Some((Line::Arm { server, count }, rest))
}

/// `restart SERVER`
#[tactic(auto, unfolding(script_language::specs::ControlReading::restart_at))]
fn restart(bytes: &[u8]) -> Option<(Line, &[u8])>
    ensures { restart_at bytes.now ≡ option_map (λ found. (found.0, found.1.now)) result }
{
    let (server, rest) = server(bytes)?;
    Some((Line::Restart { server }, rest))
}

/// `dispatch CLIENT one` or `dispatch CLIENT all workers=N`
#[tactic(auto, unfolding(script_language::specs::ControlReading::dispatch_at))]
fn dispatch(bytes: &[u8]) -> Option<(Line, &[u8])>
    ensures { dispatch_at bytes.now ≡ option_map (λ found. (found.0, found.1.now)) result }
{
    let (client, rest) = client(bytes)?;
    if let Some(rest) = skip(rest, b" one") {
        return Some((Line::DispatchOne { client }, rest));
    }
    let (workers, rest) = workers(skip(rest, b" all workers=")?)?;
    Some((Line::DispatchAll { client, workers }, rest))
}

/// `cat TEXT`
#[tactic(auto, unfolding(script_language::specs::ControlReading::cat_at))]
fn cat(alloc: Global, bytes: &[u8]) -> Result<(Line, &[u8]), Trouble>
    ensures { Gives (λ found. (found.0, found.1.now)) result (cat_at bytes.now) }
{
    let (name, rest) = quoted(alloc, bytes)?;
    Ok((Line::Cat { name }, rest))
}

/// What is handed out and shown.
fn shown(alloc: Global, bytes: &[u8]) -> Result<(Line, &[u8]), Trouble>
    ensures { Gives (λ found. (found.0, found.1.now)) result (one_of shown_readers bytes.now) }
{
    if let Some(rest) = skip(bytes, b"dispatch ") {
        return dispatch(rest).ok_or(Trouble::Bad);
    }
    if let Some(rest) = skip(bytes, b"servers") {
        return Ok((Line::Servers, rest));
    }
    if let Some(rest) = skip(bytes, b"files") {
        return Ok((Line::Files, rest));
    }
    let rest = skip(bytes, b"cat ").ok_or(Trouble::Bad)?;
    cat(alloc, rest)
}

/// Servers that stop and come back, and the rest.
fn failure(alloc: Global, bytes: &[u8]) -> Result<(Line, &[u8]), Trouble>
    ensures { Gives (λ found. (found.0, found.1.now)) result (one_of failure_readers bytes.now) }
{
    if let Some(rest) = skip(bytes, b"crash ") {
        return crash(rest).ok_or(Trouble::Bad);
    }
    if let Some(rest) = skip(bytes, b"arm ") {
        return arm(rest).ok_or(Trouble::Bad);
    }
    if let Some(rest) = skip(bytes, b"disarm") {
        return Ok((Line::Disarm, rest));
    }
    if let Some(rest) = skip(bytes, b"restart ") {
        return restart(rest).ok_or(Trouble::Bad);
    }
    shown(alloc, bytes)
}

/// A control line, with the bytes that follow it.
pub(crate) fn control(alloc: Global, bytes: &[u8]) -> Result<(Line, &[u8]), Trouble>
    ensures { Gives (λ found. (found.0, found.1.now)) result (one_of control_readers bytes.now) }
{
    if let Some(rest) = skip(bytes, b"cluster start=") {
        return cluster(alloc, rest);
    }
    if let Some(rest) = skip(bytes, b"time ") {
        return time(rest).ok_or(Trouble::Bad);
    }
    if let Some(rest) = skip(bytes, b"deliver ") {
        return deliver(rest).ok_or(Trouble::Bad);
    }
    if let Some(rest) = skip(bytes, b"resend ") {
        return resend(rest).ok_or(Trouble::Bad);
    }
    if let Some(rest) = skip(bytes, b"mirror") {
        return Ok((Line::Mirror, rest));
    }
    if let Some(rest) = skip(bytes, b"ack") {
        return Ok((Line::Ack, rest));
    }
    if let Some(rest) = skip(bytes, b"work") {
        return Ok((Line::Work, rest));
    }
    if let Some(rest) = skip(bytes, b"push") {
        return Ok((Line::Push, rest));
    }
    if let Some(rest) = skip(bytes, b"inject ") {
        return inject(alloc, rest);
    }
    if let Some(rest) = skip(bytes, b"settle") {
        return Ok((Line::Settle, rest));
    }
    failure(alloc, bytes)
}
