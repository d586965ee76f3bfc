//! What clients ask of the services.
ghost use Rattle.std.specs.Prelude.{◌≡◌, option_map, codes};
ghost use Rattle.script.specs.Gives.{Gives};
ghost use Rattle.script.specs.Parts.{write_options_at};
ghost use Rattle.script_grammar.specs.Reading.{maybe};
ghost use Rattle.script_language.specs.StreamReading.{attrs_at};
ghost use Rattle.script_language.specs.AskReading.{init_at, open_at, write_at, close_at, filter_at, send_at, subscribe_at, unsubscribe_at, reader_at, read_at};
ghost use Rattle.script_language.specs.LineReading.{log_ask_at, ntf_ask_at};

use crate::filters::filters;
use crate::notes::note;
use crate::numbers::{number32, number32_behind, number64_behind, signed64, skip, time_unless};
use crate::quoted::quoted_behind;
use crate::streams::{attrs, header, stream};
use crate::trouble::Trouble;
use crate::values::version;
use ais_values::Which;
use calls::{Ask, Boxed, Call};
use std::alloc::Global;
use stream_config::StreamAttrs;

/// `init R.M.N`
#[tactic(auto, unfolding(script_language::specs::AskReading::init_at))]
fn init(service: Which, bytes: &[u8]) -> Option<(Ask, &[u8])>
    ensures { init_at service bytes.now ≡ option_map (λ found. (found.0, found.1.now)) result }
{
    let (version, rest) = version(bytes)?;
    Some((Ask::Start { service, version }, rest))
}

/// The attributes behind ` create file=`, where it stands.
fn create(alloc: Global, bytes: &[u8]) -> Result<(Option<StreamAttrs>, &[u8]), Trouble>
    ensures { Gives (λ found. (found.0, found.1.now)) result
        (maybe (codes " create file=") attrs_at bytes.now) }
{
    match skip(bytes, b" create file=") {
        Some(rest) => {
            let (attrs, rest) = attrs(alloc, rest)?;
            Ok((Some(attrs), rest))
        }
        None => Ok((None, bytes)),
    }
}

/// `open STREAM [create file=..]`
#[tactic(auto, unfolding(script_language::specs::AskReading::open_at))]
fn open(alloc: Global, bytes: &[u8]) -> Result<(Ask, &[u8]), Trouble>
    ensures { Gives (λ found. (found.0, found.1.now)) result (open_at bytes.now) }
{
    let (stream, rest) = stream(alloc, bytes)?;
    let (create, rest) = create(alloc, rest)?;
    let call = Call::LogOpen { stream, create };
    Ok((Ask::Plain { call }, rest))
}

/// What a write has beside what is written.
#[derive(Clone, Copy)]
struct WriteOptions {
    invocation: u64,
    flags: u32,
    time: i64,
}

/// `inv=N flags=N [time=NS]`, with a blank before each
#[tactic(auto, unfolding(crate::specs::Parts::write_options_at))]
fn write_options(bytes: &[u8]) -> Option<(WriteOptions, &[u8])>
    ensures { write_options_at bytes.now ≡ option_map (λ found. (found.0, found.1.now)) result }
{
    let (invocation, rest) = number64_behind(bytes, b" inv=")?;
    let (flags, rest) = number32_behind(rest, b" flags=")?;
    let (time, rest) = time_unless(rest, b" time=")?;
    let options = WriteOptions {
        invocation,
        flags,
        time,
    };
    Some((options, rest))
}

/// `write STREAM inv=N flags=N [time=NS] HEADER body="B"`
fn write(alloc: Global, bytes: &[u8]) -> Result<(Ask, &[u8]), Trouble>
    ensures { Gives (λ found. (found.0, found.1.now)) result (write_at bytes.now) }
{
    let (stream, rest) = stream(alloc, bytes)?;
    let (options, rest) = write_options(rest).ok_or(Trouble::Bad)?;
    let (header, rest) = header(alloc, rest)?;
    let (body, rest) = quoted_behind(alloc, rest, b" body=")?;
    let call = Call::LogWrite {
        stream,
        invocation: options.invocation,
        flags: options.flags,
        time: options.time,
        header,
        body,
    };
    Ok((Ask::Plain { call }, rest))
}

/// `close STREAM`
#[tactic(auto, unfolding(script_language::specs::AskReading::close_at))]
fn close(alloc: Global, bytes: &[u8]) -> Result<(Ask, &[u8]), Trouble>
    ensures { Gives (λ found. (found.0, found.1.now)) result (close_at bytes.now) }
{
    let (stream, rest) = stream(alloc, bytes)?;
    let call = Call::LogClose { stream };
    Ok((Ask::Plain { call }, rest))
}

/// `filter STREAM mask=N`
#[tactic(auto, unfolding(script_language::specs::AskReading::filter_at))]
fn filter(alloc: Global, bytes: &[u8]) -> Result<(Ask, &[u8]), Trouble>
    ensures { Gives (λ found. (found.0, found.1.now)) result (filter_at bytes.now) }
{
    let (stream, rest) = stream(alloc, bytes)?;
    let (mask, rest) = number32_behind(rest, b" mask=").ok_or(Trouble::Bad)?;
    let call = Call::LogFilter { stream, mask };
    Ok((Ask::Plain { call }, rest))
}

/// What a client asks of the Log Service.
#[tactic(auto, unfolding(script_language::specs::LineReading::log_ask_at))]
pub(crate) fn log_ask(alloc: Global, bytes: &[u8]) -> Result<(Ask, &[u8]), Trouble>
    ensures { Gives (λ found. (found.0, found.1.now)) result (log_ask_at bytes.now) }
{
    if let Some(rest) = skip(bytes, b"init ") {
        return init(Which::Log, rest).ok_or(Trouble::Bad);
    }
    if let Some(rest) = skip(bytes, b"open ") {
        return open(alloc, rest);
    }
    if let Some(rest) = skip(bytes, b"write ") {
        return write(alloc, rest);
    }
    if let Some(rest) = skip(bytes, b"close ") {
        return close(alloc, rest);
    }
    if let Some(rest) = skip(bytes, b"filter ") {
        return filter(alloc, rest);
    }
    let rest = skip(bytes, b"fini").ok_or(Trouble::Bad)?;
    let call = Call::LogFini;
    Ok((Ask::Plain { call }, rest))
}

/// `send` and a notification
#[tactic(auto, unfolding(script_language::specs::AskReading::send_at))]
fn send(alloc: Global, bytes: &[u8]) -> Result<(Ask, &[u8]), Trouble>
    ensures { Gives (λ found. (found.0, found.1.now)) result (send_at bytes.now) }
{
    let (notification, rest) = note(alloc, bytes)?;
    let notification = Boxed::new(alloc, notification)?;
    let call = Call::NtfSend { notification };
    Ok((Ask::Plain { call }, rest))
}

/// `subscribe ID FILTERS`
#[tactic(auto, unfolding(script_language::specs::AskReading::subscribe_at))]
fn subscribe(alloc: Global, bytes: &[u8]) -> Result<(Ask, &[u8]), Trouble>
    ensures { Gives (λ found. (found.0, found.1.now)) result (subscribe_at bytes.now) }
{
    let (id, rest) = number32(bytes).ok_or(Trouble::Bad)?;
    let (filters, rest) = filters(alloc, rest)?;
    let filters = Boxed::new(alloc, filters)?;
    let call = Call::NtfSubscribe { id, filters };
    Ok((Ask::Plain { call }, rest))
}

/// `unsubscribe ID`
#[tactic(auto, unfolding(script_language::specs::AskReading::unsubscribe_at))]
fn unsubscribe(bytes: &[u8]) -> Option<(Ask, &[u8])>
    ensures { unsubscribe_at bytes.now ≡ option_map (λ found. (found.0, found.1.now)) result }
{
    let (id, rest) = number32(bytes)?;
    let call = Call::NtfUnsubscribe { id };
    Some((Ask::Plain { call }, rest))
}

/// `reader mode=N value=N FILTERS`
#[tactic(auto, unfolding(script_language::specs::AskReading::reader_at))]
fn reader(alloc: Global, bytes: &[u8]) -> Result<(Ask, &[u8]), Trouble>
    ensures { Gives (λ found. (found.0, found.1.now)) result (reader_at bytes.now) }
{
    let (mode, rest) = number32(bytes).ok_or(Trouble::Bad)?;
    let rest = skip(rest, b" value=").ok_or(Trouble::Bad)?;
    let (value, rest) = signed64(rest).ok_or(Trouble::Bad)?;
    let (filters, rest) = filters(alloc, rest)?;
    let filters = Boxed::new(alloc, filters)?;
    let call = Call::ReaderStart {
        mode,
        value,
        filters,
    };
    Ok((Ask::Plain { call }, rest))
}

/// `read N`
#[tactic(auto, unfolding(script_language::specs::AskReading::read_at))]
fn read(bytes: &[u8]) -> Option<(Ask, &[u8])>
    ensures { read_at bytes.now ≡ option_map (λ found. (found.0, found.1.now)) result }
{
    let (direction, rest) = number32(bytes)?;
    let call = Call::ReaderRead { direction };
    Some((Ask::Plain { call }, rest))
}

/// What a client asks of the Notification Service.
#[tactic(auto, unfolding(script_language::specs::LineReading::ntf_ask_at))]
pub(crate) fn ntf_ask(alloc: Global, bytes: &[u8]) -> Result<(Ask, &[u8]), Trouble>
    ensures { Gives (λ found. (found.0, found.1.now)) result (ntf_ask_at bytes.now) }
{
    if let Some(rest) = skip(bytes, b"init ") {
        return init(Which::Ntf, rest).ok_or(Trouble::Bad);
    }
    if let Some(rest) = skip(bytes, b"send ") {
        return send(alloc, rest);
    }
    if let Some(rest) = skip(bytes, b"subscribe ") {
        return subscribe(alloc, rest);
    }
    if let Some(rest) = skip(bytes, b"unsubscribe ") {
        return unsubscribe(rest).ok_or(Trouble::Bad);
    }
    if let Some(rest) = skip(bytes, b"reader mode=") {
        return reader(alloc, rest);
    }
    if let Some(rest) = skip(bytes, b"read ") {
        return read(rest).ok_or(Trouble::Bad);
    }
    if let Some(rest) = skip(bytes, b"endread") {
        let call = Call::ReaderEnd;
        return Ok((Ask::Plain { call }, rest));
    }
    let rest = skip(bytes, b"fini").ok_or(Trouble::Bad)?;
    let call = Call::NtfFini;
    Ok((Ask::Plain { call }, rest))
}
