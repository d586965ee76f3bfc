//! Writing of notifications.
ghost use Rattle.std.specs.Prelude.{◌≡◌, ◌++◌, ◌∷◌, [], OnOk, IfOk, if◌then◌else◌, codes};
ghost use Rattle.std.specs.Fmt.{decimal};
ghost use Rattle.script_grammar.specs.Writing.{joined, listed_text};
ghost use Rattle.script_language.specs.Printing.{note_kind_of, note_kind_text, heading_text_by, heading_part, given_time_text, known_time_text, body_text, note_text, shown_note_text};

use crate::elements::{Changes, Numbers64, Pairs, StateChanges};
use crate::lists::{Writable, put_list};
use crate::pieces::{Piece, put, put_labelled, put_number, put_pieces};
use crate::values::{put_known_time, put_value, put_word_signed};
use ntf_types::{Body, Notification, Value};
use std::alloc::{AllocError, Global};

/// The word of the type that a notification's body is of.
fn kind_word(body: &Body) -> &'static [u8]
    ensures { result.now ≡ note_kind_text (note_kind_of body.now) }
{
    match body {
        Body::Objects { .. } => b"objects",
        Body::Attributes { .. } => b"attributes",
        Body::States { .. } => b"states",
        Body::Alarm { .. } => b"alarm",
        Body::Security { .. } => b"security",
    }
}

/// Adds the word of the type that a notification's body is of.
fn put_kind(out: &mut Vec<u8>, body: &Body) -> Result<(), AllocError>
    ensures { OnOk result (out.new.items ≡ out.old.items
        ++ note_kind_text (note_kind_of body.now)) }
{
    put(out, kind_word(body))
}

/// Adds an event time: always where it is asked for, and else where it is known.
fn put_time(out: &mut Vec<u8>, time: &i64, always: bool) -> Result<(), AllocError>
    ensures { OnOk result (out.new.items ≡ out.old.items
        ++ (if always then given_time_text else known_time_text (codes " time=")) time.now) }
{
    if always {
        put_word_signed(out, b" time=", *time)
    } else {
        put_known_time(out, b" time=", *time)
    }
}

/// Adds what each notification has. The time is always written where that is asked for, and else where it is known.
#[tactic(auto, unfolding(script_language::specs::Printing::heading_text_by))]
fn put_heading(out: &mut Vec<u8>, note: &Notification, always: bool) -> Result<(), AllocError>
    ensures { OnOk result (out.new.items ≡ out.old.items ++ heading_text_by (if always then
        given_time_text else known_time_text (codes " time=")) (heading_part note.now)) }
{
    put_labelled(out, b" type=", &Piece::Hex(note.event_type))?;
    put_labelled(out, b" obj=", &Piece::Quoted(note.object.as_slice()))?;
    put_labelled(out, b" by=", &Piece::Quoted(note.notifier.as_slice()))?;
    put_labelled(out, b" class=", &Piece::Class(note.class))?;
    put_time(out, &note.event_time, always)?;
    put_list::<Numbers64>(out, b" corr=", note.correlated.as_slice())?;
    put_labelled(out, b" text=", &Piece::Quoted(note.text.as_slice()))?;
    put_list::<Pairs>(out, b" info=", note.info.as_slice())?;
    Ok(())
}

/// Adds what a security alarm tells.
#[tactic(auto, unfolding(script_language::specs::Printing::body_text))]
fn put_security(
    out: &mut Vec<u8>,
    cause: u16,
    severity: u16,
    detector: &Value,
    user: &Value,
    provider: &Value,
) -> Result<(), AllocError>
    ensures { OnOk result (out.new.items ≡ out.old.items
        ++ body_text (Body.Security cause severity detector.now user.now provider.now)) }
{
    put_labelled(out, b" cause=", &Piece::Number(u64::from(cause)))?;
    put_labelled(out, b" sev=", &Piece::Number(u64::from(severity)))?;
    put(out, b" detector=")?;
    put_value(out, detector)?;
    put(out, b" user=")?;
    put_value(out, user)?;
    put(out, b" provider=")?;
    put_value(out, provider)?;
    Ok(())
}

/// Adds a source and a list behind its word.
#[tactic(auto, using(crate::proofs::Chain::chained, crate::proofs::Chain::chained_last))]
fn put_source<E: Writable>(
    out: &mut Vec<u8>,
    source: u16,
    word: &[u8],
    values: &[E::Value],
) -> Result<(), AllocError>
    ensures { OnOk result (out.new.items ≡ out.old.items
        ++ joined (codes " source=" ∷ decimal source ∷ listed_text word.now E.text values.now
        ∷ [])) }
{
    put(out, b" source=")?;
    put_number(out, u64::from(source))?;
    put_list::<E>(out, word, values)?;
    Ok(())
}

/// Adds what a notification tells.
#[tactic(auto, unfolding(script_language::specs::Printing::body_text))]
fn put_body(out: &mut Vec<u8>, body: &Body) -> Result<(), AllocError>
    ensures { OnOk result (out.new.items ≡ out.old.items ++ body_text body.now) }
{
    match body {
        Body::Objects { source, attrs } => {
            put_source::<Pairs>(out, *source, b" attrs=", attrs.as_slice())
        }
        Body::Attributes { source, changes } => {
            put_source::<Changes>(out, *source, b" changes=", changes.as_slice())
        }
        Body::States { source, changes } => {
            put_source::<StateChanges>(out, *source, b" changes=", changes.as_slice())
        }
        Body::Alarm { cause, severity } => put_pieces(
            out,
            &[
                Piece::Word(b" cause="),
                Piece::Number(u64::from(*cause)),
                Piece::Word(b" sev="),
                Piece::Number(u64::from(*severity)),
            ],
        ),
        Body::Security {
            cause,
            severity,
            detector,
            user,
            provider,
        } => put_security(
            out,
            *cause,
            *severity,
            detector.get(),
            user.get(),
            provider.get(),
        ),
    }
}

/// Adds a notification as it is sent.
#[tactic(auto, unfolding(script_language::specs::Printing::note_text), using(crate::proofs::Chain::chained, crate::proofs::Chain::chained_last))]
pub(crate) fn put_note(out: &mut Vec<u8>, note: &Notification) -> Result<(), AllocError>
    ensures { OnOk result (out.new.items ≡ out.old.items ++ note_text note.now) }
{
    put_kind(out, &note.body)?;
    put_heading(out, note, false)?;
    put_body(out, &note.body)?;
    Ok(())
}

/// Adds the words of a notification as replies and callbacks show it: its type, its id, its time whatever it is, and the rest
/// as in the line that sends it. On want of memory nothing is said of `out`.
#[tactic(auto, unfolding(script_language::specs::Printing::shown_note_text), using(crate::proofs::Chain::chained, crate::proofs::Chain::chained_last))]
pub fn put_shown_note(out: &mut Vec<u8>, note: &Notification) -> Result<(), AllocError>
    ensures { OnOk result (out.new.items ≡ out.old.items ++ shown_note_text note.now) }
{
    put_kind(out, &note.body)?;
    put(out, b" id=")?;
    put_number(out, note.id)?;
    put_heading(out, note, true)?;
    put_body(out, &note.body)?;
    Ok(())
}

/// The words of a notification as replies and callbacks show it.
pub fn print_note(alloc: Global, note: &Notification) -> Result<Vec<u8>, AllocError>
    ensures { IfOk result (λ words. words.items ≡ shown_note_text note.now) }
{
    let mut out = Vec::new(alloc);
    put_shown_note(&mut out, note)?;
    Ok(out)
}
