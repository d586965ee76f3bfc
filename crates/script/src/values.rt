//! Servers, versions, classes, and the values that notifications carry.
ghost use Rattle.std.specs.Prelude.{◌≡◌, option_map};
ghost use Rattle.script.specs.Gives.{Gives};
ghost use Rattle.script_language.specs.ValueReading.{server_at, release_at, version_at, class_at, value_at, pair_at, change_at, state_change_at};
ghost use Rattle.script_grammar.specs.Reading.{maybe, word};
ghost use Rattle.script.specs.Parts.{class_time_at, origin_at};

use crate::numbers::{
    maybe_number16, number8_behind, number16, number16_behind, number32, signed64, skip,
    time_unless,
};
use crate::quoted::{hex_word_behind, name_behind, quoted, quoted_name};
use crate::trouble::Trouble;
use ais_values::{Boxed, ClassId, Name, Version};
use ntf_types::{Change, Pair, StateChange, Value};
use script_lines::Server;
use std::alloc::Global;

/// A server by its letter.
#[tactic(auto, unfolding(script_language::specs::ValueReading::server_at))]
pub(crate) fn server(bytes: &[u8]) -> Option<(Server, &[u8])>
    ensures { server_at bytes.now ≡ option_map (λ found. (found.0, found.1.now)) result }
{
    if let Some(rest) = skip(bytes, b"a") {
        return Some((Server::A, rest));
    }
    Some((Server::B, skip(bytes, b"b")?))
}

/// The release of a version, a capital letter.
#[tactic(auto, unfolding(script_language::specs::ValueReading::release_at))]
fn release(bytes: &[u8]) -> Option<(u8, &[u8])>
    ensures { release_at bytes.now ≡ option_map (λ found. (found.0, found.1.now)) result }
{
    let [letter, rest @ ..] = bytes else {
        return None;
    };
    if *letter >= b'A' && *letter <= b'Z' {
        Some((*letter, rest))
    } else {
        None
    }
}

/// `R.M.N`
#[tactic(auto, using(crate::proofs::Parts::version_by))]
pub(crate) fn version(bytes: &[u8]) -> Option<(Version, &[u8])>
    ensures { version_at bytes.now ≡ option_map (λ found. (found.0, found.1.now)) result }
{
    let (release, rest) = release(bytes)?;
    let (major, rest) = number8_behind(rest, b".")?;
    let (minor, rest) = number8_behind(rest, b".")?;
    let version = Version {
        release,
        major,
        minor,
    };
    Some((version, rest))
}

/// `V.M.N`
#[tactic(auto, using(crate::proofs::Parts::class_by))]
pub(crate) fn class(bytes: &[u8]) -> Option<(ClassId, &[u8])>
    ensures { class_at bytes.now ≡ option_map (λ found. (found.0, found.1.now)) result }
{
    let (vendor, rest) = number32(bytes)?;
    let (major, rest) = number16_behind(rest, b".")?;
    let (minor, rest) = number16_behind(rest, b".")?;
    let class = ClassId {
        vendor,
        major,
        minor,
    };
    Some((class, rest))
}

/// A class behind the word.
pub(crate) fn class_behind<'a>(bytes: &'a [u8], label: &[u8]) -> Option<(ClassId, &'a [u8])>
    ensures { word label.now class_at bytes.now
        ≡ option_map (λ found. (found.0, found.1.now)) result }
{
    match skip(bytes, label) {
        Some(rest) => class(rest),
        None => None,
    }
}

/// `int:N`, `name:"NAME"`, `text:"TEXT"` or `bin:"BYTES"`
#[tactic(auto, unfolding(script_language::specs::ValueReading::value_at))]
pub(crate) fn value(alloc: Global, bytes: &[u8]) -> Result<(Value, &[u8]), Trouble>
    ensures { Gives (λ found. (found.0, found.1.now)) result (value_at bytes.now) }
{
    if let Some(rest) = skip(bytes, b"int:") {
        let (value, rest) = signed64(rest).ok_or(Trouble::Bad)?;
        return Ok((Value::Int { value }, rest));
    }
    if let Some(rest) = skip(bytes, b"name:") {
        let (name, rest) = quoted_name(alloc, rest)?;
        return Ok((Value::NameOf { name }, rest));
    }
    if let Some(rest) = skip(bytes, b"text:") {
        let (text, rest) = quoted(alloc, rest)?;
        return Ok((Value::TextOf { text }, rest));
    }
    let rest = skip(bytes, b"bin:").ok_or(Trouble::Bad)?;
    let (bytes, rest) = quoted(alloc, rest)?;
    Ok((Value::Binary { bytes }, rest))
}

/// The value behind the word.
pub(crate) fn value_behind<'a>(
    alloc: Global,
    bytes: &'a [u8],
    label: &[u8],
) -> Result<(Value, &'a [u8]), Trouble>
    ensures { Gives (λ found. (found.0, found.1.now)) result (word label.now value_at bytes.now) }
{
    match skip(bytes, label) {
        Some(rest) => value(alloc, rest),
        None => Err(Trouble::Bad),
    }
}

/// The value behind the word, by itself in memory.
pub(crate) fn boxed_behind<'a>(
    alloc: Global,
    bytes: &'a [u8],
    label: &[u8],
) -> Result<(Boxed<Value>, &'a [u8]), Trouble>
    ensures { Gives (λ found. (found.0, found.1.now)) result (word label.now value_at bytes.now) }
{
    let (value, rest) = value_behind(alloc, bytes, label)?;
    let value = Boxed::new(alloc, value)?;
    Ok((value, rest))
}

/// The value behind the word, where the word stands.
fn maybe_value<'a>(
    alloc: Global,
    bytes: &'a [u8],
    word: &[u8],
) -> Result<(Option<Value>, &'a [u8]), Trouble>
    ensures { Gives (λ found. (found.0, found.1.now)) result (maybe word.now value_at bytes.now) }
{
    match skip(bytes, word) {
        Some(rest) => {
            let (value, rest) = value(alloc, rest)?;
            Ok((Some(value), rest))
        }
        None => Ok((None, bytes)),
    }
}

/// `ID:VALUE`
#[tactic(auto, using(crate::proofs::Parts::pair_by))]
pub(crate) fn pair(alloc: Global, bytes: &[u8]) -> Result<(Pair, &[u8]), Trouble>
    ensures { Gives (λ found. (found.0, found.1.now)) result (pair_at bytes.now) }
{
    let (id, rest) = number16(bytes).ok_or(Trouble::Bad)?;
    let (value, rest) = value_behind(alloc, rest, b":")?;
    Ok((Pair { id, value }, rest))
}

/// `ID:VALUE` or `ID:VALUE<VALUE`
#[tactic(auto, using(crate::proofs::Parts::change_by))]
pub(crate) fn change(alloc: Global, bytes: &[u8]) -> Result<(Change, &[u8]), Trouble>
    ensures { Gives (λ found. (found.0, found.1.now)) result (change_at bytes.now) }
{
    let (id, rest) = number16(bytes).ok_or(Trouble::Bad)?;
    let (after, rest) = value_behind(alloc, rest, b":")?;
    let (before, rest) = maybe_value(alloc, rest, b"<")?;
    Ok((Change { id, after, before }, rest))
}

/// `ID:N` or `ID:N<N`
#[tactic(auto, using(crate::proofs::Parts::state_change_by))]
pub(crate) fn state_change(bytes: &[u8]) -> Option<(StateChange, &[u8])>
    ensures { state_change_at bytes.now ≡ option_map (λ found. (found.0, found.1.now)) result }
{
    let (id, rest) = number16(bytes)?;
    let (after, rest) = number16_behind(rest, b":")?;
    let (before, rest) = maybe_number16(rest, b"<")?;
    Some((StateChange { id, after, before }, rest))
}

/// What notifications and the headers of their records have in common.
#[derive(Drop)]
pub(crate) struct Origin {
    pub(crate) event_type: u16,
    pub(crate) object: Name,
    pub(crate) notifier: Name,
    pub(crate) class: ClassId,
    pub(crate) event_time: i64,
}

/// `class=V.M.N`, with a blank before it, and the time behind its word, where it stands
#[tactic(auto, unfolding(crate::specs::Parts::class_time_at))]
fn class_time<'a>(bytes: &'a [u8], time_word: &[u8]) -> Option<((ClassId, i64), &'a [u8])>
    ensures { class_time_at time_word.now bytes.now
        ≡ option_map (λ found. (found.0, found.1.now)) result }
{
    let (class, rest) = class_behind(bytes, b" class=")?;
    let (time, rest) = time_unless(rest, time_word)?;
    Some(((class, time), rest))
}

/// `type=TYPE obj="O" by="O" class=V.M.N`, with a blank before each, and the time behind its word, where it stands
#[tactic(auto, unfolding(crate::specs::Parts::origin_at))]
pub(crate) fn event_origin<'a>(
    alloc: Global,
    bytes: &'a [u8],
    time_word: &[u8],
) -> Result<(Origin, &'a [u8]), Trouble>
    ensures { Gives (λ found. (found.0, found.1.now)) result (origin_at time_word.now bytes.now) }
{
    let (event_type, rest) = hex_word_behind(bytes, b" type=").ok_or(Trouble::Bad)?;
    let (object, rest) = name_behind(alloc, rest, b" obj=")?;
    let (notifier, rest) = name_behind(alloc, rest, b" by=")?;
    let ((class, event_time), rest) = class_time(rest, time_word).ok_or(Trouble::Bad)?;
    let origin = Origin {
        event_type,
        object,
        notifier,
        class,
        event_time,
    };
    Ok((origin, rest))
}
