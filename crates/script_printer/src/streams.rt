//! Writing of streams, their attributes and headers.
ghost use Rattle.std.specs.Prelude.{◌≡◌, ◌++◌, OnOk, codes};
ghost use Rattle.std.specs.Fmt.{decimal};
ghost use Rattle.std.specs.Str.{bytes_eq};
ghost use Rattle.ais_values.specs.declared.kind.StreamKind.TheVariants as kinds;
ghost use Rattle.stream_config.specs.WellKnown.{default_format};
ghost use Rattle.record_print.specs.declared.record.Header.TheVariants as headers;
ghost use Rattle.script_grammar.specs.Writing.{maybe_text, quoted_text, unless_text};
ghost use Rattle.script_language.specs.Printing.{full_action_text, stream_text, attrs_text, header_text, options_text};
ghost use Rattle.script_printer.specs.Pieces.{piece_text};

use crate::pieces::{Piece, put, put_labelled, put_piece, put_pieces, put_quoted};
use crate::values::put_known_time;
use ais_values::{ClassId, StreamKind, Text};
use record_print::Header;
use script_lines::WellOptions;
use std::alloc::AllocError;
use stream_config::{FullAction, StreamAttrs, StreamName, default_format};

/// The word for what is done where a file is full.
fn full_word(action: FullAction) -> &'static [u8]
    ensures { result.now ≡ full_action_text action }
{
    match action {
        FullAction::Wrap => b"wrap",
        FullAction::Halt => b"halt",
        FullAction::Rotate => b"rotate",
    }
}

/// Adds a stream's name, as scripts spell it.
pub fn put_stream(out: &mut Vec<u8>, name: &StreamName) -> Result<(), AllocError>
    ensures { OnOk result (out.new.items ≡ out.old.items ++ stream_text name.now) }
{
    match name {
        StreamName::Alarm => put(out, b"alarm"),
        StreamName::Notification => put(out, b"notification"),
        StreamName::System => put(out, b"system"),
        StreamName::App { name } => put_pieces(
            out,
            &[Piece::Word(b"app:"), Piece::Quoted(name.as_slice())],
        ),
    }
}

/// Adds an expression, or nothing where it is the one of application streams.
#[tactic(auto, using(crate::proofs::Chain::chained))]
fn put_format(out: &mut Vec<u8>, expr: &[u8]) -> Result<(), AllocError>
    ensures { OnOk result (out.new.items ≡ out.old.items
        ++ unless_text (λ text. bytes_eq text (default_format kinds.Application)) (codes " fmt=")
        quoted_text expr.now) }
{
    if expr == default_format(StreamKind::Application) {
        return Ok(());
    }
    put(out, b" fmt=")?;
    put_quoted(out, expr)?;
    Ok(())
}

/// Adds attributes behind the word of their first one.
#[tactic(auto, unfolding(script_language::specs::Printing::attrs_text))]
fn put_attrs(out: &mut Vec<u8>, attrs: &StreamAttrs) -> Result<(), AllocError>
    ensures { OnOk result (out.new.items ≡ out.old.items ++ attrs_text attrs.now) }
{
    put_quoted(out, attrs.file.as_slice())?;
    put_labelled(out, b" path=", &Piece::Quoted(attrs.path.as_slice()))?;
    put_labelled(out, b" max=", &Piece::Number(attrs.max_file))?;
    put_labelled(out, b" rec=", &Piece::Number(u64::from(attrs.record_size)))?;
    put_labelled(out, b" ha=", &Piece::Number(u64::from(attrs.ha)))?;
    put(out, b" full=")?;
    put(out, full_word(attrs.action))?;
    put_labelled(out, b" rot=", &Piece::Number(u64::from(attrs.rotated)))?;
    put_format(out, attrs.expr.as_slice())?;
    Ok(())
}

/// Adds the attributes of a stream that is to be made, where it is.
#[tactic(auto, using(crate::proofs::Chain::chained))]
pub(crate) fn put_create(out: &mut Vec<u8>, create: &Option<StreamAttrs>) -> Result<(), AllocError>
    ensures { OnOk result (out.new.items ≡ out.old.items
        ++ maybe_text (codes " create file=") attrs_text create.now) }
{
    let Some(attrs) = create else {
        return Ok(());
    };
    put(out, b" create file=")?;
    put_attrs(out, attrs)?;
    Ok(())
}

/// Adds the header of a notification's record.
#[tactic(auto, unfolding(script_language::specs::Printing::header_text))]
fn put_notified(
    out: &mut Vec<u8>,
    id: u64,
    event_type: u16,
    object: &[u8],
    notifier: &[u8],
    class: ClassId,
    event_time: i64,
) -> Result<(), AllocError>
    ensures { OnOk result (out.new.items ≡ out.old.items
        ++ header_text (headers.Ntf id event_type object.now notifier.now class event_time)) }
{
    put_labelled(out, b" ntfh id=", &Piece::Number(id))?;
    put_labelled(out, b" type=", &Piece::Hex(event_type))?;
    put_labelled(out, b" obj=", &Piece::Quoted(object))?;
    put_labelled(out, b" by=", &Piece::Quoted(notifier))?;
    put_labelled(out, b" class=", &Piece::Class(class))?;
    put_known_time(out, b" evtime=", event_time)?;
    Ok(())
}

/// Adds the header of a record.
#[tactic(auto, unfolding(script_language::specs::Printing::header_text))]
pub(crate) fn put_header(out: &mut Vec<u8>, header: &Header) -> Result<(), AllocError>
    ensures { OnOk result (out.new.items ≡ out.old.items ++ header_text header.now) }
{
    match header {
        Header::Generic {
            class,
            user,
            severity,
        } => put_pieces(
            out,
            &[
                Piece::Word(b" gen sev="),
                Piece::Number(u64::from(*severity)),
                Piece::Word(b" class="),
                Piece::Class(*class),
                Piece::Word(b" user="),
                Piece::Quoted(user.as_slice()),
            ],
        ),
        Header::Ntf {
            id,
            event_type,
            object,
            notifier,
            class,
            event_time,
        } => put_notified(
            out,
            *id,
            *event_type,
            object.as_slice(),
            notifier.as_slice(),
            *class,
            *event_time,
        ),
    }
}

/// Adds the stream's word, the option's and a piece.
fn put_option(
    out: &mut Vec<u8>,
    stream: &[u8],
    option: &[u8],
    piece: &Piece,
) -> Result<(), AllocError>
    ensures { OnOk result (out.new.items ≡ out.old.items
        ++ (stream.now ++ option.now ++ piece_text piece.now)) }
{
    put(out, stream)?;
    put(out, option)?;
    put_piece(out, piece)?;
    Ok(())
}

/// Adds the option with its words, where it is given.
fn put_option_number(
    out: &mut Vec<u8>,
    stream: &[u8],
    option: &[u8],
    given: Option<u64>,
) -> Result<(), AllocError>
    ensures { OnOk result (out.new.items ≡ out.old.items
        ++ maybe_text (stream.now ++ option.now) decimal given) }
{
    match given {
        Some(value) => put_option(out, stream, option, &Piece::Number(value)),
        None => Ok(()),
    }
}

/// Adds the option with its words, where it is given.
fn put_option_number32(
    out: &mut Vec<u8>,
    stream: &[u8],
    option: &[u8],
    given: Option<u32>,
) -> Result<(), AllocError>
    ensures { OnOk result (out.new.items ≡ out.old.items
        ++ maybe_text (stream.now ++ option.now) decimal given) }
{
    match given {
        Some(value) => put_option(out, stream, option, &Piece::Number(u64::from(value))),
        None => Ok(()),
    }
}

/// Adds the option with its words, where it is given.
fn put_option_text(
    out: &mut Vec<u8>,
    stream: &[u8],
    option: &[u8],
    given: &Option<Text>,
) -> Result<(), AllocError>
    ensures { OnOk result (out.new.items ≡ out.old.items
        ++ maybe_text (stream.now ++ option.now) quoted_text given.now) }
{
    match given {
        Some(value) => put_option(out, stream, option, &Piece::Quoted(value.as_slice())),
        None => Ok(()),
    }
}

/// Adds the option with its words, where it is given.
fn put_option_full(
    out: &mut Vec<u8>,
    stream: &[u8],
    option: &[u8],
    given: Option<FullAction>,
) -> Result<(), AllocError>
    ensures { OnOk result (out.new.items ≡ out.old.items
        ++ maybe_text (stream.now ++ option.now) full_action_text given) }
{
    match given {
        Some(value) => put_option(out, stream, option, &Piece::Word(full_word(value))),
        None => Ok(()),
    }
}

/// Adds what a cluster line says of a stream, which has this word.
#[tactic(auto, unfolding(script_language::specs::Printing::options_text), using(crate::proofs::Chain::chained, crate::proofs::Chain::chained_last))]
pub(crate) fn put_options(
    out: &mut Vec<u8>,
    stream: &[u8],
    options: &WellOptions,
) -> Result<(), AllocError>
    ensures { OnOk result (out.new.items ≡ out.old.items ++ options_text stream.now options.now) }
{
    put_option_text(out, stream, b"fmt=", &options.fmt)?;
    put_option_number32(out, stream, b"rec=", options.rec)?;
    put_option_number(out, stream, b"max=", options.max)?;
    put_option_full(out, stream, b"full=", options.full)?;
    put_option_number32(out, stream, b"rot=", options.rot)?;
    Ok(())
}
