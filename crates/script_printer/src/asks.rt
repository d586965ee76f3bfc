//! Writing of what clients ask.
ghost use Rattle.std.specs.Prelude.{◌≡◌, ◌++◌, ◌∷◌, [], OnOk, codes};
ghost use Rattle.script_grammar.specs.Writing.{joined, maybe_text};
ghost use Rattle.calls.specs.declared.call.Call.TheVariants as asked;
ghost use Rattle.script_language.specs.Printing.{version_text, filter_text, filters_text, call_text, ask_text};

use crate::elements::{Classes, HexWords, Names, Numbers16};
use crate::lists::put_list;
use crate::notes::put_note;
use crate::pieces::{Piece, put, put_number, put_pieces, put_quoted, put_signed};
use crate::streams::{put_create, put_header, put_stream};
use crate::values::put_known_time;
use ais_values::{Text, Version};
use calls::{Ask, Call};
use ntf_filters::{Filter, FilterSet};
use ntf_types::Notification;
use record_print::Header;
use std::alloc::AllocError;
use stream_config::{StreamAttrs, StreamName};

/// Adds a version.
fn put_version(out: &mut Vec<u8>, version: Version) -> Result<(), AllocError>
    ensures { OnOk result (out.new.items ≡ out.old.items ++ version_text version) }
{
    put_pieces(
        out,
        &[
            Piece::Word(&[version.release]),
            Piece::Word(b"."),
            Piece::Number(u64::from(version.major)),
            Piece::Word(b"."),
            Piece::Number(u64::from(version.minor)),
        ],
    )
}

/// Adds a filter's lists.
#[tactic(auto, unfolding(script_language::specs::Printing::filter_text), using(crate::proofs::Chain::chained, crate::proofs::Chain::chained_last))]
fn put_filter(out: &mut Vec<u8>, filter: &Filter) -> Result<(), AllocError>
    ensures { OnOk result (out.new.items ≡ out.old.items ++ filter_text filter.now) }
{
    put_list::<HexWords>(out, b" types=", filter.types.as_slice())?;
    put_list::<Names>(out, b" objs=", filter.objects.as_slice())?;
    put_list::<Names>(out, b" bys=", filter.notifiers.as_slice())?;
    put_list::<Classes>(out, b" classes=", filter.classes.as_slice())?;
    put_list::<Numbers16>(out, b" sources=", filter.sources.as_slice())?;
    put_list::<Numbers16>(out, b" causes=", filter.causes.as_slice())?;
    put_list::<Numbers16>(out, b" sevs=", filter.severities.as_slice())?;
    Ok(())
}

/// Adds the words of a type and its filter, where there is one.
#[tactic(auto, using(crate::proofs::Chain::chained, crate::proofs::Chain::chained_last))]
fn put_maybe_filter(
    out: &mut Vec<u8>,
    words: &[u8],
    filter: &Option<Filter>,
) -> Result<(), AllocError>
    ensures { OnOk result (out.new.items ≡ out.old.items
        ++ maybe_text words.now filter_text filter.now) }
{
    let Some(filter) = filter else {
        return Ok(());
    };
    put(out, words)?;
    put_filter(out, filter)?;
    Ok(())
}

/// Adds a set of filters.
#[tactic(auto, unfolding(script_language::specs::Printing::filters_text), using(crate::proofs::Chain::chained, crate::proofs::Chain::chained_last))]
fn put_filters(out: &mut Vec<u8>, filters: &FilterSet) -> Result<(), AllocError>
    ensures { OnOk result (out.new.items ≡ out.old.items ++ filters_text filters.now) }
{
    put_maybe_filter(out, b" filter objects", &filters.objects)?;
    put_maybe_filter(out, b" filter attributes", &filters.attributes)?;
    put_maybe_filter(out, b" filter states", &filters.states)?;
    put_maybe_filter(out, b" filter alarm", &filters.alarms)?;
    put_maybe_filter(out, b" filter security", &filters.security)?;
    Ok(())
}

/// Adds the opening of a stream.
#[tactic(auto, unfolding(script_language::specs::Printing::call_text), using(crate::proofs::Chain::chained, crate::proofs::Chain::chained_last))]
fn put_open(
    out: &mut Vec<u8>,
    stream: &StreamName,
    create: &Option<StreamAttrs>,
) -> Result<(), AllocError>
    ensures { OnOk result (out.new.items ≡ out.old.items
        ++ call_text (asked.LogOpen stream.now create.now)) }
{
    put(out, b"open ")?;
    put_stream(out, stream)?;
    put_create(out, create)?;
    Ok(())
}

/// Adds the writing of a record.
#[tactic(auto, unfolding(script_language::specs::Printing::call_text), using(crate::proofs::Chain::chained, crate::proofs::Chain::chained_last))]
fn put_write(
    out: &mut Vec<u8>,
    stream: &StreamName,
    invocation: u64,
    flags: u32,
    time: i64,
    header: &Header,
    body: &Text,
) -> Result<(), AllocError>
    ensures { OnOk result (out.new.items ≡ out.old.items
        ++ call_text (asked.LogWrite stream.now invocation flags time header.now body.now)) }
{
    put(out, b"write ")?;
    put_stream(out, stream)?;
    put(out, b" inv=")?;
    put_number(out, invocation)?;
    put(out, b" flags=")?;
    put_number(out, u64::from(flags))?;
    put_known_time(out, b" time=", time)?;
    put_header(out, header)?;
    put(out, b" body=")?;
    put_quoted(out, body.as_slice())?;
    Ok(())
}

/// Adds the closing of a stream.
#[tactic(auto, unfolding(script_language::specs::Printing::call_text), using(crate::proofs::Chain::chained, crate::proofs::Chain::chained_last))]
fn put_close(out: &mut Vec<u8>, stream: &StreamName) -> Result<(), AllocError>
    ensures { OnOk result (out.new.items ≡ out.old.items ++ call_text (asked.LogClose stream.now)) }
{
    put(out, b"close ")?;
    put_stream(out, stream)?;
    Ok(())
}

/// Adds the setting of a stream's mask.
#[tactic(auto, unfolding(script_language::specs::Printing::call_text), using(crate::proofs::Chain::chained, crate::proofs::Chain::chained_last))]
fn put_filtering(out: &mut Vec<u8>, stream: &StreamName, mask: u32) -> Result<(), AllocError>
    ensures { OnOk result (out.new.items ≡ out.old.items
        ++ call_text (asked.LogFilter stream.now mask)) }
{
    put(out, b"filter ")?;
    put_stream(out, stream)?;
    put(out, b" mask=")?;
    put_number(out, u64::from(mask))?;
    Ok(())
}

/// Adds the sending of a notification.
#[tactic(auto, unfolding(script_language::specs::Printing::call_text), using(crate::proofs::Chain::chained, crate::proofs::Chain::chained_last))]
fn put_send(out: &mut Vec<u8>, note: &Notification) -> Result<(), AllocError>
    ensures { OnOk result (out.new.items ≡ out.old.items ++ call_text (asked.NtfSend note.now)) }
{
    put(out, b"send ")?;
    put_note(out, note)?;
    Ok(())
}

/// Adds a subscription.
#[tactic(auto, unfolding(script_language::specs::Printing::call_text), using(crate::proofs::Chain::chained, crate::proofs::Chain::chained_last))]
fn put_subscribe(out: &mut Vec<u8>, id: u32, filters: &FilterSet) -> Result<(), AllocError>
    ensures { OnOk result (out.new.items ≡ out.old.items
        ++ call_text (asked.NtfSubscribe id filters.now)) }
{
    put(out, b"subscribe ")?;
    put_number(out, u64::from(id))?;
    put_filters(out, filters)?;
    Ok(())
}

/// Adds the beginning of a reading.
#[tactic(auto, unfolding(script_language::specs::Printing::call_text), using(crate::proofs::Chain::chained, crate::proofs::Chain::chained_last))]
fn put_reader(
    out: &mut Vec<u8>,
    mode: u32,
    value: i64,
    filters: &FilterSet,
) -> Result<(), AllocError>
    ensures { OnOk result (out.new.items ≡ out.old.items
        ++ call_text (asked.ReaderStart mode value filters.now)) }
{
    put(out, b"reader mode=")?;
    put_number(out, u64::from(mode))?;
    put(out, b" value=")?;
    put_signed(out, value)?;
    put_filters(out, filters)?;
    Ok(())
}

/// Adds a call.
#[tactic(auto, unfolding(script_language::specs::Printing::call_text))]
fn put_call(out: &mut Vec<u8>, call: &Call) -> Result<(), AllocError>
    ensures { OnOk result (out.new.items ≡ out.old.items ++ call_text call.now) }
{
    match call {
        Call::LogInit | Call::NtfInit => put(out, b"init"),
        Call::LogOpen { stream, create } => put_open(out, stream, create),
        Call::LogWrite {
            stream,
            invocation,
            flags,
            time,
            header,
            body,
        } => put_write(out, stream, *invocation, *flags, *time, header, body),
        Call::LogClose { stream } => put_close(out, stream),
        Call::LogFilter { stream, mask } => put_filtering(out, stream, *mask),
        Call::LogFini | Call::NtfFini => put(out, b"fini"),
        Call::NtfSend { notification } => put_send(out, notification.get()),
        Call::NtfSubscribe { id, filters } => put_subscribe(out, *id, filters.get()),
        Call::NtfUnsubscribe { id } => put_pieces(
            out,
            &[Piece::Word(b"unsubscribe "), Piece::Number(u64::from(*id))],
        ),
        Call::ReaderStart {
            mode,
            value,
            filters,
        } => put_reader(out, *mode, *value, filters.get()),
        Call::ReaderRead { direction } => put_pieces(
            out,
            &[Piece::Word(b"read "), Piece::Number(u64::from(*direction))],
        ),
        Call::ReaderEnd => put(out, b"endread"),
    }
}

/// Adds an initialisation.
#[tactic(auto, using(crate::proofs::Chain::chained, crate::proofs::Chain::chained_last))]
fn put_init(out: &mut Vec<u8>, version: Version) -> Result<(), AllocError>
    ensures { OnOk result (out.new.items ≡ out.old.items
        ++ joined (codes "init " ∷ version_text version ∷ [])) }
{
    put(out, b"init ")?;
    put_version(out, version)?;
    Ok(())
}

/// Adds what a client asks.
pub(crate) fn put_ask(out: &mut Vec<u8>, ask: &Ask) -> Result<(), AllocError>
    ensures { OnOk result (out.new.items ≡ out.old.items ++ ask_text ask.now) }
{
    match ask {
        Ask::Start { version, .. } => put_init(out, *version),
        Ask::Plain { call } => put_call(out, call),
    }
}
