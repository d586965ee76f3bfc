//! Streams, their attributes, and the headers of their records.
ghost use Rattle.std.specs.Prelude.{◌≡◌, option_map, codes};
ghost use Rattle.ais_values.specs.declared.kind.StreamKind.TheVariants as kinds;
ghost use Rattle.stream_config.specs.WellKnown.{default_format};
ghost use Rattle.script.specs.Gives.{Gives};
ghost use Rattle.script.specs.Parts.{bounds_at};
ghost use Rattle.script_grammar.specs.Reading.{unless, word};
ghost use Rattle.script_grammar.specs.ValueReading.{quoted_at};
ghost use Rattle.script_language.specs.StreamReading.{full_action_at, stream_at, attrs_at, generic_at, notified_at, header_at};

use crate::numbers::{number8_behind, number16, number32_behind, number64, number64_behind, skip};
use crate::quoted::{name_behind, quoted, quoted_behind, quoted_name};
use crate::trouble::Trouble;
use crate::values::{class_behind, event_origin};
use ais_values::{StreamKind, Text};
use record_print::Header;
use std::alloc::Global;
use stream_config::{FullAction, StreamAttrs, StreamName, default_format};

/// What a stream does with a record that does not fit its file.
#[tactic(auto, unfolding(script_language::specs::StreamReading::full_action_at))]
pub(crate) fn full_action(bytes: &[u8]) -> Option<(FullAction, &[u8])>
    ensures { full_action_at bytes.now ≡ option_map (λ found. (found.0, found.1.now)) result }
{
    if let Some(rest) = skip(bytes, b"wrap") {
        return Some((FullAction::Wrap, rest));
    }
    if let Some(rest) = skip(bytes, b"halt") {
        return Some((FullAction::Halt, rest));
    }
    Some((FullAction::Rotate, skip(bytes, b"rotate")?))
}

/// What a stream does with a record that does not fit its file, behind the word.
fn full_action_behind<'a>(bytes: &'a [u8], label: &[u8]) -> Option<(FullAction, &'a [u8])>
    ensures { word label.now full_action_at bytes.now
        ≡ option_map (λ found. (found.0, found.1.now)) result }
{
    match skip(bytes, label) {
        Some(rest) => full_action(rest),
        None => None,
    }
}

/// `alarm`, `notification`, `system` or `app:"NAME"`
#[tactic(auto, unfolding(script_language::specs::StreamReading::stream_at))]
pub(crate) fn stream(alloc: Global, bytes: &[u8]) -> Result<(StreamName, &[u8]), Trouble>
    ensures { Gives (λ found. (found.0, found.1.now)) result (stream_at bytes.now) }
{
    if let Some(rest) = skip(bytes, b"alarm") {
        return Ok((StreamName::Alarm, rest));
    }
    if let Some(rest) = skip(bytes, b"notification") {
        return Ok((StreamName::Notification, rest));
    }
    if let Some(rest) = skip(bytes, b"system") {
        return Ok((StreamName::System, rest));
    }
    let rest = skip(bytes, b"app:").ok_or(Trouble::Bad)?;
    let (name, rest) = quoted_name(alloc, rest)?;
    Ok((StreamName::App { name }, rest))
}

/// The expression behind ` fmt=`, or that of application streams where it does not stand.
fn format_unless(alloc: Global, bytes: &[u8]) -> Result<(Text, &[u8]), Trouble>
    ensures { Gives (λ found. (found.0, found.1.now)) result
        (unless (default_format kinds.Application) (codes " fmt=") quoted_at bytes.now) }
{
    match skip(bytes, b" fmt=") {
        Some(rest) => quoted(alloc, rest),
        None => {
            let format = default_format(StreamKind::Application).to_vec(alloc)?;
            Ok((Text::from_vec(format), bytes))
        }
    }
}

/// The bounds of a stream's files and records, what it does where a file is full, and its high-availability property.
#[derive(Clone, Copy)]
struct Bounds {
    max_file: u64,
    record_size: u32,
    ha: u8,
    action: FullAction,
    rotated: u32,
}

/// `max=N rec=N ha=N full=F rot=N`, with a blank before each
#[tactic(auto, unfolding(crate::specs::Parts::bounds_at))]
fn stream_bounds(bytes: &[u8]) -> Option<(Bounds, &[u8])>
    ensures { bounds_at bytes.now ≡ option_map (λ found. (found.0, found.1.now)) result }
{
    let (max_file, rest) = number64_behind(bytes, b" max=")?;
    let (record_size, rest) = number32_behind(rest, b" rec=")?;
    let (ha, rest) = number8_behind(rest, b" ha=")?;
    let (action, rest) = full_action_behind(rest, b" full=")?;
    let (rotated, rest) = number32_behind(rest, b" rot=")?;
    let bounds = Bounds {
        max_file,
        record_size,
        ha,
        action,
        rotated,
    };
    Some((bounds, rest))
}

/// `"D" path="P" max=N rec=N ha=N full=F rot=N [fmt="E"]`
pub(crate) fn attrs(alloc: Global, bytes: &[u8]) -> Result<(StreamAttrs, &[u8]), Trouble>
    ensures { Gives (λ found. (found.0, found.1.now)) result (attrs_at bytes.now) }
{
    let (file, rest) = quoted(alloc, bytes)?;
    let (path, rest) = quoted_behind(alloc, rest, b" path=")?;
    let (bounds, rest) = stream_bounds(rest).ok_or(Trouble::Bad)?;
    let (expr, rest) = format_unless(alloc, rest)?;
    let attrs = StreamAttrs {
        file,
        path,
        max_file: bounds.max_file,
        record_size: bounds.record_size,
        ha: bounds.ha,
        action: bounds.action,
        rotated: bounds.rotated,
        expr,
    };
    Ok((attrs, rest))
}

/// `sev=N class=V.M.N user="U"`, without its first word
#[tactic(auto, using(crate::proofs::Parts::generic_by))]
fn generic(alloc: Global, bytes: &[u8]) -> Result<(Header, &[u8]), Trouble>
    ensures { Gives (λ found. (found.0, found.1.now)) result (generic_at bytes.now) }
{
    let (severity, rest) = number16(bytes).ok_or(Trouble::Bad)?;
    let (class, rest) = class_behind(rest, b" class=").ok_or(Trouble::Bad)?;
    let (user, rest) = name_behind(alloc, rest, b" user=")?;
    let header = Header::Generic {
        class,
        user,
        severity,
    };
    Ok((header, rest))
}

/// `id=N type=TYPE obj="O" by="O" class=V.M.N [evtime=NS]`, without its first word
fn notified(alloc: Global, bytes: &[u8]) -> Result<(Header, &[u8]), Trouble>
    ensures { Gives (λ found. (found.0, found.1.now)) result (notified_at bytes.now) }
{
    let (id, rest) = number64(bytes).ok_or(Trouble::Bad)?;
    let (origin, rest) = event_origin(alloc, rest, b" evtime=")?;
    let header = Header::Ntf {
        id,
        event_type: origin.event_type,
        object: origin.object,
        notifier: origin.notifier,
        class: origin.class,
        event_time: origin.event_time,
    };
    Ok((header, rest))
}

/// The header of a record, with a blank before it.
#[tactic(auto, unfolding(script_language::specs::StreamReading::header_at))]
pub(crate) fn header(alloc: Global, bytes: &[u8]) -> Result<(Header, &[u8]), Trouble>
    ensures { Gives (λ found. (found.0, found.1.now)) result (header_at bytes.now) }
{
    if let Some(rest) = skip(bytes, b" gen sev=") {
        return generic(alloc, rest);
    }
    let rest = skip(bytes, b" ntfh id=").ok_or(Trouble::Bad)?;
    notified(alloc, rest)
}
