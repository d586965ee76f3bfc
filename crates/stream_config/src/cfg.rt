//! The text of a stream's cfg file.
ghost use Rattle.std.specs.Prelude.{◌≡◌, ◌+◌, ◌≤◌, ◌++◌, length, codes, decimal, IfOk, OnOk};
ghost use Rattle.stream_config.specs.Cfg.{stream_words, action_word, cfg_line, cfg_of};

use crate::{FullAction, StreamAttrs, StreamName};
use ais_values::{Name, Text};
use itoa::Buffer;
use std::alloc::{AllocError, Global};

impl FullAction {
    /// The word of the action in a cfg file.
    pub fn word(self) -> &'static [u8]
        ensures word { result.now ≡ action_word self }
        ensures short { length result.now ≤ 6 }
    {
        match self {
            FullAction::Wrap => b"WRAP",
            FullAction::Halt => b"HALT",
            FullAction::Rotate => b"ROTATE",
        }
    }
}

/// Adds a line.
#[tactic(auto, unfolding(crate::specs::Cfg::cfg_line))]
fn put_line(text: &mut Vec<u8>, word: &[u8], value: &[u8]) -> Result<(), AllocError>
    ensures line { OnOk result (text.new.items ≡ text.old.items ++ cfg_line word.now value.now) }
    ensures length { OnOk result (
        length text.new.items ≡ length text.old.items + length word.now + length value.now + 3) }
{
    text.extend_from_slice(word)?;
    text.extend_from_slice(b": ")?;
    text.extend_from_slice(value)?;
    text.extend_from_slice(b"\n")?;
    Ok(())
}

/// Adds a line whose value is a number.
fn put_number(text: &mut Vec<u8>, word: &[u8], value: u64) -> Result<(), AllocError>
    ensures line { OnOk result (text.new.items ≡ text.old.items
        ++ cfg_line word.now (decimal value)) }
    ensures length { OnOk result (length text.new.items
        ≤ length text.old.items + length word.now + 43) }
{
    let mut buffer = Buffer::new();
    put_line(text, word, buffer.format(value).as_bytes())?;
    Ok(())
}

/// The words of an application stream.
fn app_words(alloc: Global, name: &Name) -> Result<Vec<u8>, AllocError>
    ensures words { IfOk result (λ words. words.items ≡ codes "app " ++ name.now) }
    ensures short { IfOk result (λ words. length words.items ≤ 260) }
{
    let mut words = b"app ".to_vec(alloc)?;
    words.extend_from_slice(name.as_slice())?;
    Ok(words)
}

/// The words of a stream's name.
fn words_of(alloc: Global, name: &StreamName) -> Result<Vec<u8>, AllocError>
    ensures words { IfOk result (λ words. words.items ≡ stream_words name.now) }
    ensures short { IfOk result (λ words. length words.items ≤ 260) }
{
    let words = match name {
        StreamName::Alarm => b"alarm".to_vec(alloc)?,
        StreamName::Notification => b"notification".to_vec(alloc)?,
        StreamName::System => b"system".to_vec(alloc)?,
        StreamName::App { name } => app_words(alloc, name)?,
    };
    Ok(words)
}

/// Adds the line of the stream's name.
fn put_name(alloc: Global, text: &mut Vec<u8>, name: &StreamName) -> Result<(), AllocError>
    ensures line { OnOk result (
        text.new.items ≡ text.old.items ++ cfg_line (codes "STREAM") (stream_words name.now)) }
    ensures length { OnOk result (length text.new.items ≤ length text.old.items + 300) }
{
    let words = words_of(alloc, name)?;
    put_line(text, b"STREAM", words.as_slice())?;
    Ok(())
}

/// The lines of the stream, the version and the expression.
fn put_stream(
    alloc: Global,
    text: &mut Vec<u8>,
    name: &StreamName,
    expr: &Text,
) -> Result<(), AllocError>
    requires { length expr.now ≤ 1024 }
    ensures lines { OnOk result (text.new.items ≡ text.old.items
        ++ cfg_line (codes "STREAM") (stream_words name.now)
        ++ cfg_line (codes "VERSION") (codes "A.02.01")
        ++ cfg_line (codes "FORMAT") expr.now) }
    ensures length { OnOk result (length text.new.items ≤ length text.old.items + 2000) }
{
    put_name(alloc, text, name)?;
    put_line(text, b"VERSION", b"A.02.01")?;
    put_line(text, b"FORMAT", expr.as_slice())?;
    Ok(())
}

/// The lines of the action and of what goes with it.
fn put_action(text: &mut Vec<u8>, attrs: &StreamAttrs) -> Result<(), AllocError>
    ensures lines { OnOk result (text.new.items ≡ text.old.items
        ++ cfg_line (codes "FULL_ACTION") (action_word attrs.now.action)
        ++ cfg_line (codes "ROTATED_FILES") (decimal attrs.now.rotated)
        ++ cfg_line (codes "HA") (decimal attrs.now.ha)) }
    ensures length { OnOk result (length text.new.items ≤ length text.old.items + 500) }
{
    put_line(text, b"FULL_ACTION", attrs.action.word())?;
    put_number(text, b"ROTATED_FILES", u64::from(attrs.rotated))?;
    put_number(text, b"HA", u64::from(attrs.ha))?;
    Ok(())
}

/// The text of the cfg file of a stream, whose expression has at most 1,024 bytes: eight lines, which name the
/// stream, the version of the interface, the expression, the sizes in bytes, the action, the number of rotated
/// files and the high-availability property.
#[tactic(auto, unfolding(crate::specs::Cfg::cfg_of))]
pub fn cfg_text(alloc: Global, name: &StreamName, attrs: &StreamAttrs) -> Result<Text, AllocError>
    requires { length attrs.now.expr ≤ 1024 }
    ensures { IfOk result (λ text. text ≡ cfg_of name.now attrs.now) }
{
    let mut text = Vec::new(alloc);
    put_stream(alloc, &mut text, name, &attrs.expr)?;
    put_number(&mut text, b"MAX_FILE_SIZE", attrs.max_file)?;
    put_number(&mut text, b"RECORD_SIZE", u64::from(attrs.record_size))?;
    put_action(&mut text, attrs)?;
    Ok(Text::from_vec(text))
}
