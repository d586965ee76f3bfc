//! Hexadecimal digits, and texts and names between quotation marks.
ghost use Rattle.std.specs.Prelude.{◌≡◌, ◌<◌, IsTrue, option_map, length, if◌then◌else◌, Some, None};
ghost use Rattle.script_grammar.specs.Reading.{word};
ghost use Rattle.script_grammar.specs.ValueReading.{is_hex, hex_value, hex_at, hex_word_at, escape_at, part_at, quoted_at, inner_at};
ghost use Rattle.script_language.specs.ValueReading.{is_name, quoted_name_at};
ghost use Rattle.script.specs.Gives.{Gives};

use crate::numbers::skip;
use crate::trouble::Trouble;
use ais_values::{MAX_TEXT, Name, NameAnswer, Text};
use std::alloc::Global;

/// Whether this is a lower-case hexadecimal digit.
fn is_hex_digit(byte: u8) -> bool
    ensures { result ≡ is_hex byte }
{
    matches!(byte, b'0'..=b'9' | b'a'..=b'f')
}

/// The number of a hexadecimal digit.
fn value_of_hex(digit: u8) -> u8
    requires { IsTrue (is_hex digit) }
    ensures value { result ≡ hex_value digit }
    ensures bound { result < 16 }
{
    if digit <= b'9' {
        digit - b'0'
    } else {
        digit - b'a' + 10
    }
}

/// The byte that two hexadecimal digits write.
#[tactic(auto, unfolding(script_grammar::specs::ValueReading::hex_at))]
fn hex(bytes: &[u8]) -> Option<(u8, &[u8])>
    ensures { hex_at bytes.now ≡ option_map (λ found. (found.0, found.1.now)) result }
{
    let [high, low, rest @ ..] = bytes else {
        return None;
    };
    if is_hex_digit(*high) && is_hex_digit(*low) {
        Some((16 * value_of_hex(*high) + value_of_hex(*low), rest))
    } else {
        None
    }
}

/// A number of two bytes, as `0x` and four lower-case hexadecimal digits.
#[tactic(auto, unfolding(script_grammar::specs::ValueReading::hex_word_at))]
pub(crate) fn hex_word(bytes: &[u8]) -> Option<(u16, &[u8])>
    ensures { hex_word_at bytes.now ≡ option_map (λ found. (found.0, found.1.now)) result }
{
    let (high, rest) = hex(skip(bytes, b"0x")?)?;
    let (low, rest) = hex(rest)?;
    Some((256 * u16::from(high) + u16::from(low), rest))
}

/// What stands behind a backslash.
#[tactic(auto, unfolding(script_grammar::specs::ValueReading::escape_at))]
fn escape(bytes: &[u8]) -> Option<(u8, &[u8])>
    ensures { escape_at bytes.now ≡ option_map (λ found. (found.0, found.1.now)) result }
{
    let [first, rest @ ..] = bytes else {
        return None;
    };
    if *first == b'"' || *first == b'\\' {
        Some((*first, rest))
    } else if *first == b'x' {
        hex(rest)
    } else {
        None
    }
}

/// One byte of a text between quotation marks.
#[tactic(auto, unfolding(script_grammar::specs::ValueReading::part_at))]
fn part(bytes: &[u8]) -> Option<(u8, &[u8])>
    ensures { part_at bytes.now ≡ option_map (λ found. (found.0, found.1.now)) result }
{
    let [first, rest @ ..] = bytes else {
        return None;
    };
    if *first == b'\\' {
        escape(rest)
    } else if *first >= 32 && *first <= 126 && *first != b'"' {
        Some((*first, rest))
    } else {
        None
    }
}

/// The bytes up to the quotation mark that ends them, without escapes.
#[tactic(auto, unfolding(script_grammar::specs::ValueReading::inner_at))]
fn inner(alloc: Global, bytes: &[u8]) -> Result<(Vec<u8>, &[u8]), Trouble>
    ensures { Gives (λ found. (found.0.items, found.1.now)) result
        (inner_at (length bytes.now) bytes.now) }
{
    let mut content = Vec::new(alloc);
    let mut rest = bytes;
    for _ in 0..bytes.len() {
        if let Some(after) = skip(rest, b"\"") {
            return Ok((content, after));
        }
        let Some((byte, after)) = part(rest) else {
            return Err(Trouble::Bad);
        };
        content.push(byte)?;
        rest = after;
    }
    Err(Trouble::Bad)
}

/// A text of at most 16,384 bytes between quotation marks.
#[tactic(auto, unfolding(script_grammar::specs::ValueReading::quoted_at))]
pub(crate) fn quoted(alloc: Global, bytes: &[u8]) -> Result<(Text, &[u8]), Trouble>
    ensures { Gives (λ found. (found.0, found.1.now)) result (quoted_at bytes.now) }
{
    let Some(bytes) = skip(bytes, b"\"") else {
        return Err(Trouble::Bad);
    };
    let (content, rest) = inner(alloc, bytes)?;
    if content.len() <= MAX_TEXT {
        Ok((Text::from_vec(content), rest))
    } else {
        Err(Trouble::Bad)
    }
}

/// A text between quotation marks behind a word.
pub(crate) fn quoted_behind<'a>(
    alloc: Global,
    bytes: &'a [u8],
    label: &[u8],
) -> Result<(Text, &'a [u8]), Trouble>
    ensures { Gives (λ found. (found.0, found.1.now)) result (word label.now quoted_at bytes.now) }
{
    match skip(bytes, label) {
        Some(rest) => quoted(alloc, rest),
        None => Err(Trouble::Bad),
    }
}

/// The name of these bytes.
fn name_of(alloc: Global, bytes: &[u8]) -> Result<Name, Trouble>
    ensures { Gives (λ name. name) result (if is_name bytes.now then Some bytes.now else None) }
{
    match Name::new(alloc, bytes) {
        Ok(name) => Ok(name),
        Err(NameAnswer::Memory) => Err(Trouble::Memory),
        Err(NameAnswer::Refused) => Err(Trouble::Bad),
    }
}

/// A text between quotation marks that is a name.
#[tactic(auto, unfolding(script_language::specs::ValueReading::quoted_name_at))]
pub(crate) fn quoted_name(alloc: Global, bytes: &[u8]) -> Result<(Name, &[u8]), Trouble>
    ensures { Gives (λ found. (found.0, found.1.now)) result (quoted_name_at bytes.now) }
{
    let (text, rest) = quoted(alloc, bytes)?;
    let name = name_of(alloc, text.as_slice())?;
    Ok((name, rest))
}

/// A name between quotation marks behind a word.
pub(crate) fn name_behind<'a>(
    alloc: Global,
    bytes: &'a [u8],
    label: &[u8],
) -> Result<(Name, &'a [u8]), Trouble>
    ensures { Gives (λ found. (found.0, found.1.now)) result
        (word label.now quoted_name_at bytes.now) }
{
    match skip(bytes, label) {
        Some(rest) => quoted_name(alloc, rest),
        None => Err(Trouble::Bad),
    }
}

/// A number of two bytes in hexadecimal digits, behind the word.
pub(crate) fn hex_word_behind<'a>(bytes: &'a [u8], label: &[u8]) -> Option<(u16, &'a [u8])>
    ensures { word label.now hex_word_at bytes.now
        ≡ option_map (λ found. (found.0, found.1.now)) result }
{
    match skip(bytes, label) {
        Some(rest) => hex_word(rest),
        None => None,
    }
}
