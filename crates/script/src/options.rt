//! What a cluster line says of the well-known streams.
ghost use Rattle.std.specs.Prelude.{◌≡◌, ◌≢◌, ◌++◌, IfOk, option_map};
ghost use Rattle.ais_values.specs.declared.kind.StreamKind.TheVariants as kinds;
ghost use Rattle.stream_config.specs.AttributeTests.{passes_attrs};
ghost use Rattle.script.specs.Gives.{Gives};
ghost use Rattle.script_grammar.specs.Reading.{maybe};
ghost use Rattle.script_grammar.specs.ValueReading.{quoted_at};
ghost use Rattle.script_language.specs.Streams.{well_attrs, wells_of};
ghost use Rattle.script_language.specs.StreamReading.{full_action_at, options_at};
ghost use Rattle.script_language.specs.ValueReading.{number32_at, number64_at};

use crate::numbers::{number32, number64, skip_both};
use crate::quoted::quoted;
use crate::streams::full_action;
use crate::trouble::Trouble;
use ais_values::{Duplicate, Seq, StreamKind, Text};
use script_lines::WellOptions;
use std::alloc::{AllocError, Global};
use stream_config::{FullAction, StreamAttrs, check_attrs, well_known};

/// The text behind the stream's word and the option's, where they stand.
fn option_quoted<'a>(
    alloc: Global,
    bytes: &'a [u8],
    stream: &[u8],
    option: &[u8],
) -> Result<(Option<Text>, &'a [u8]), Trouble>
    ensures { Gives (λ found. (found.0, found.1.now)) result
        (maybe (stream.now ++ option.now) quoted_at bytes.now) }
{
    match skip_both(bytes, stream, option) {
        Some(rest) => {
            let (text, rest) = quoted(alloc, rest)?;
            Ok((Some(text), rest))
        }
        None => Ok((None, bytes)),
    }
}

/// The number of 32 bits behind the stream's word and the option's, where they stand.
fn option_number32<'a>(
    bytes: &'a [u8],
    stream: &[u8],
    option: &[u8],
) -> Option<(Option<u32>, &'a [u8])>
    ensures { maybe (stream.now ++ option.now) number32_at bytes.now
        ≡ option_map (λ found. (found.0, found.1.now)) result }
{
    match skip_both(bytes, stream, option) {
        Some(rest) => {
            let (value, rest) = number32(rest)?;
            Some((Some(value), rest))
        }
        None => Some((None, bytes)),
    }
}

/// The number of 64 bits behind the stream's word and the option's, where they stand.
fn option_number64<'a>(
    bytes: &'a [u8],
    stream: &[u8],
    option: &[u8],
) -> Option<(Option<u64>, &'a [u8])>
    ensures { maybe (stream.now ++ option.now) number64_at bytes.now
        ≡ option_map (λ found. (found.0, found.1.now)) result }
{
    match skip_both(bytes, stream, option) {
        Some(rest) => {
            let (value, rest) = number64(rest)?;
            Some((Some(value), rest))
        }
        None => Some((None, bytes)),
    }
}

/// What is done where a file is full, behind the stream's word and the option's, where they stand.
fn option_full<'a>(
    bytes: &'a [u8],
    stream: &[u8],
    option: &[u8],
) -> Option<(Option<FullAction>, &'a [u8])>
    ensures { maybe (stream.now ++ option.now) full_action_at bytes.now
        ≡ option_map (λ found. (found.0, found.1.now)) result }
{
    match skip_both(bytes, stream, option) {
        Some(rest) => {
            let (action, rest) = full_action(rest)?;
            Some((Some(action), rest))
        }
        None => Some((None, bytes)),
    }
}

/// `[fmt="E"] [rec=N] [max=N] [full=F] [rot=N]`, with a blank and the stream's word before each
#[tactic(auto, unfolding(script_language::specs::StreamReading::options_at))]
pub(crate) fn options<'a>(
    alloc: Global,
    bytes: &'a [u8],
    stream: &[u8],
) -> Result<(WellOptions, &'a [u8]), Trouble>
    ensures { Gives (λ found. (found.0, found.1.now)) result (options_at stream.now bytes.now) }
{
    let (fmt, rest) = option_quoted(alloc, bytes, stream, b"fmt=")?;
    let (rec, rest) = option_number32(rest, stream, b"rec=").ok_or(Trouble::Bad)?;
    let (max, rest) = option_number64(rest, stream, b"max=").ok_or(Trouble::Bad)?;
    let (full, rest) = option_full(rest, stream, b"full=").ok_or(Trouble::Bad)?;
    let (rot, rest) = option_number32(rest, stream, b"rot=").ok_or(Trouble::Bad)?;
    let options = WellOptions {
        fmt,
        rec,
        max,
        full,
        rot,
    };
    Ok((options, rest))
}

/// The attributes that a cluster line gives to the well-known stream of a kind: what its options say, and else the defaults.
pub fn well_attrs(
    alloc: Global,
    kind: StreamKind,
    options: &WellOptions,
) -> Result<StreamAttrs, AllocError>
    requires { kind ≢ kinds.Application }
    ensures { IfOk result (λ attrs. attrs ≡ well_attrs kind options.now) }
{
    let mut attrs = well_known(alloc, kind)?;
    if let Some(given) = &options.fmt {
        attrs.expr = given.copy(alloc)?;
    }
    attrs.max_file = options.max.unwrap_or(attrs.max_file);
    attrs.record_size = options.rec.unwrap_or(attrs.record_size);
    attrs.action = options.full.unwrap_or(attrs.action);
    attrs.rotated = options.rot.unwrap_or(attrs.rotated);
    Ok(attrs)
}

/// The attributes that a cluster line gives to the three well-known streams, in the order in which they are made: alarm,
/// notification, system. `Err` comes only for want of memory.
pub fn wells_of(
    alloc: Global,
    alarm: &WellOptions,
    ntf: &WellOptions,
    sys: &WellOptions,
) -> Result<Seq<StreamAttrs>, AllocError>
    ensures { IfOk result (λ wells. wells ≡ wells_of alarm.now ntf.now sys.now) }
{
    let mut wells = Seq::new(alloc);
    wells.push(well_attrs(alloc, StreamKind::Alarm, alarm)?)?;
    wells.push(well_attrs(alloc, StreamKind::Notification, ntf)?)?;
    wells.push(well_attrs(alloc, StreamKind::System, sys)?)?;
    Ok(wells)
}

/// Whether the well-known stream of a kind may have what the options say.
pub(crate) fn is_sound(
    alloc: Global,
    kind: StreamKind,
    options: &WellOptions,
) -> Result<bool, AllocError>
    requires { kind ≢ kinds.Application }
    ensures { IfOk result (λ sound. sound ≡ passes_attrs kind (well_attrs kind options.now)) }
{
    let attrs = well_attrs(alloc, kind, options)?;
    Ok(check_attrs(kind, &attrs).is_ok())
}
