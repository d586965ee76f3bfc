//! Notifications.
ghost use Rattle.std.specs.Prelude.{◌≡◌, option_map};
ghost use Rattle.script.specs.Gives.{Gives};
ghost use Rattle.script.specs.Parts.{cause_and_severity_at};
ghost use Rattle.script_language.specs.NoteReading.{note_kind_at, heading_at, objects_at, attributes_at, states_at, alarm_at, security_at, body_of_at, note_at};

use crate::elements::{Changes, Numbers64, Pairs, StateChanges};
use crate::lists::maybe_list;
use crate::numbers::{number16_behind, skip};
use crate::quoted::quoted_behind;
use crate::trouble::Trouble;
use crate::values::{boxed_behind, event_origin};
use ntf_types::{Body, Notification};
use script_lines::{Heading, NoteKind};
use std::alloc::Global;

/// The type of a notification.
#[tactic(auto, unfolding(script_language::specs::NoteReading::note_kind_at))]
fn note_kind(bytes: &[u8]) -> Option<(NoteKind, &[u8])>
    ensures { note_kind_at bytes.now ≡ option_map (λ found. (found.0, found.1.now)) result }
{
    if let Some(rest) = skip(bytes, b"objects") {
        return Some((NoteKind::Objects, rest));
    }
    if let Some(rest) = skip(bytes, b"attributes") {
        return Some((NoteKind::Attributes, rest));
    }
    if let Some(rest) = skip(bytes, b"states") {
        return Some((NoteKind::States, rest));
    }
    if let Some(rest) = skip(bytes, b"alarm") {
        return Some((NoteKind::Alarm, rest));
    }
    Some((NoteKind::Security, skip(bytes, b"security")?))
}

/// `type=TYPE obj="O" by="O" class=V.M.N [time=NS] [corr=IDS] text="X" [info=PAIRS]`, with a blank before each
fn heading(alloc: Global, bytes: &[u8]) -> Result<(Heading, &[u8]), Trouble>
    ensures { Gives (λ found. (found.0, found.1.now)) result (heading_at bytes.now) }
{
    let (origin, rest) = event_origin(alloc, bytes, b" time=")?;
    let (correlated, rest) = maybe_list::<Numbers64>(alloc, rest, b" corr=")?;
    let (text, rest) = quoted_behind(alloc, rest, b" text=")?;
    let (info, rest) = maybe_list::<Pairs>(alloc, rest, b" info=")?;
    let heading = Heading {
        event_type: origin.event_type,
        object: origin.object,
        notifier: origin.notifier,
        class: origin.class,
        event_time: origin.event_time,
        correlated,
        text,
        info,
    };
    Ok((heading, rest))
}

/// `source=N [attrs=PAIRS]`
#[tactic(auto, using(crate::proofs::Parts::objects_by))]
fn objects(alloc: Global, bytes: &[u8]) -> Result<(Body, &[u8]), Trouble>
    ensures { Gives (λ found. (found.0, found.1.now)) result (objects_at bytes.now) }
{
    let (source, rest) = number16_behind(bytes, b" source=").ok_or(Trouble::Bad)?;
    let (attrs, rest) = maybe_list::<Pairs>(alloc, rest, b" attrs=")?;
    Ok((Body::Objects { source, attrs }, rest))
}

/// `source=N [changes=CHANGES]`
#[tactic(auto, using(crate::proofs::Parts::attributes_by))]
fn attributes(alloc: Global, bytes: &[u8]) -> Result<(Body, &[u8]), Trouble>
    ensures { Gives (λ found. (found.0, found.1.now)) result (attributes_at bytes.now) }
{
    let (source, rest) = number16_behind(bytes, b" source=").ok_or(Trouble::Bad)?;
    let (changes, rest) = maybe_list::<Changes>(alloc, rest, b" changes=")?;
    Ok((Body::Attributes { source, changes }, rest))
}

/// `source=N [changes=STATECHANGES]`
#[tactic(auto, using(crate::proofs::Parts::states_by))]
fn states(alloc: Global, bytes: &[u8]) -> Result<(Body, &[u8]), Trouble>
    ensures { Gives (λ found. (found.0, found.1.now)) result (states_at bytes.now) }
{
    let (source, rest) = number16_behind(bytes, b" source=").ok_or(Trouble::Bad)?;
    let (changes, rest) = maybe_list::<StateChanges>(alloc, rest, b" changes=")?;
    Ok((Body::States { source, changes }, rest))
}

/// `cause=N sev=N`, with a blank before each
#[tactic(auto, unfolding(crate::specs::Parts::cause_and_severity_at))]
fn cause_and_severity(bytes: &[u8]) -> Option<((u16, u16), &[u8])>
    ensures { cause_and_severity_at bytes.now
        ≡ option_map (λ found. (found.0, found.1.now)) result }
{
    let (cause, rest) = number16_behind(bytes, b" cause=")?;
    let (severity, rest) = number16_behind(rest, b" sev=")?;
    Some(((cause, severity), rest))
}

/// `cause=N sev=N`
#[tactic(auto, using(crate::proofs::Parts::alarm_by))]
fn alarm(bytes: &[u8]) -> Option<(Body, &[u8])>
    ensures { alarm_at bytes.now ≡ option_map (λ found. (found.0, found.1.now)) result }
{
    let ((cause, severity), rest) = cause_and_severity(bytes)?;
    Some((Body::Alarm { cause, severity }, rest))
}

/// `cause=N sev=N detector=VALUE user=VALUE provider=VALUE`
fn security(alloc: Global, bytes: &[u8]) -> Result<(Body, &[u8]), Trouble>
    ensures { Gives (λ found. (found.0, found.1.now)) result (security_at bytes.now) }
{
    let ((cause, severity), rest) = cause_and_severity(bytes).ok_or(Trouble::Bad)?;
    let (detector, rest) = boxed_behind(alloc, rest, b" detector=")?;
    let (user, rest) = boxed_behind(alloc, rest, b" user=")?;
    let (provider, rest) = boxed_behind(alloc, rest, b" provider=")?;
    let body = Body::Security {
        cause,
        severity,
        detector,
        user,
        provider,
    };
    Ok((body, rest))
}

/// What a notification of the type tells.
fn body_of(alloc: Global, kind: NoteKind, bytes: &[u8]) -> Result<(Body, &[u8]), Trouble>
    ensures { Gives (λ found. (found.0, found.1.now)) result (body_of_at kind bytes.now) }
{
    match kind {
        NoteKind::Objects => objects(alloc, bytes),
        NoteKind::Attributes => attributes(alloc, bytes),
        NoteKind::States => states(alloc, bytes),
        NoteKind::Alarm => alarm(bytes).ok_or(Trouble::Bad),
        NoteKind::Security => security(alloc, bytes),
    }
}

/// `KIND`, what each notification has, and what those of its type tell. The notification has the id 0.
#[tactic(auto, unfolding(script_language::specs::NoteReading::note_at))]
pub(crate) fn note(alloc: Global, bytes: &[u8]) -> Result<(Notification, &[u8]), Trouble>
    ensures { Gives (λ found. (found.0, found.1.now)) result (note_at bytes.now) }
{
    let (kind, rest) = note_kind(bytes).ok_or(Trouble::Bad)?;
    let (heading, rest) = heading(alloc, rest)?;
    let (body, rest) = body_of(alloc, kind, rest)?;
    let Heading {
        event_type,
        object,
        notifier,
        class,
        event_time,
        correlated,
        text,
        info,
    } = heading;
    let notification = Notification {
        id: 0,
        event_type,
        object,
        notifier,
        class,
        event_time,
        correlated,
        text,
        info,
        body,
    };
    Ok((notification, rest))
}
