//! How many bytes a record's text has, without printing it.
ghost use Rattle.std.specs.Prelude.{◌≡◌, ℕ, ◌<◌, ◌≤◌, ◌^◌, min, length, IsTrue};
ghost use Rattle.ais_values.specs.Texts.{most_text_bytes};
ghost use Rattle.record_print.specs.Lengths.{name_lengths, time_length, ntf_length, generic_length, header_length, part_length, piece_length, pieces_length, IsTimed, PrintsAs, HasParts, HasNotifiedParts};
ghost use Rattle.record_print.specs.declared.length.NameLengths.TheVariants.{Notified};
ghost use Rattle.record_print.specs.declared.record.LogRecord.{LogRecord as RecordOf};
ghost use Rattle.record_print.specs.Printing.{can_print, printed_record, HasSize};

use crate::{Header, LogRecord};
use ais_values::{Name, Text};
use format_expr::{Expr, Moment, Part, Piece, TimePart};

/// The most bytes of a text before its line feed.
pub(crate) const MAX_PLACES: usize = 16_383;

/// How many bytes the names of a record's header have.
#[derive(Clone, Copy)]
pub(crate) enum NameLengths {
    /// Of a notification's header.
    Notified { object: usize, notifier: usize },
    /// Of a generic header.
    Written { user: usize },
}

/// Those of a notification's header with these names.
fn notified(object: &Name, notifier: &Name) -> NameLengths
    ensures { result ≡ Notified (length object.now) (length notifier.now) }
{
    NameLengths::Notified {
        object: object.as_slice().len(),
        notifier: notifier.as_slice().len(),
    }
}

/// Those of a header.
fn name_lengths(header: &Header) -> NameLengths
    ensures { result ≡ name_lengths header.now }
{
    match header {
        Header::Ntf {
            object,
            notifier,
            ..
        } => notified(object, notifier),
        Header::Generic { user, .. } => NameLengths::Written {
            user: user.as_slice().len(),
        },
    }
}

/// How many bytes a token shows of a time without a width, 2 to 18.
pub fn time_length(part: TimePart) -> u8
    ensures { result ≡ time_length part }
{
    match part {
        TimePart::Nanoseconds => 18,
        TimePart::MonthName | TimePart::DayName => 3,
        TimePart::Year => 4,
        TimePart::Hour
        | TimePart::Minute
        | TimePart::Second
        | TimePart::HalfDay
        | TimePart::Month
        | TimePart::Day
        | TimePart::ShortYear => 2,
    }
}

/// How many bytes a token shows of a notification's header.
fn ntf_length(object: usize, notifier: usize, part: Part) -> usize
    ensures { result ≡ ntf_length object notifier part }
{
    match part {
        Part::Time { part, .. } => usize::from(time_length(part)),
        Part::NotificationId => 18,
        Part::EventType => 6,
        Part::Object => object,
        Part::Notifier => notifier,
        _ => 0,
    }
}

/// How many bytes a token shows of a generic header.
fn generic_length(user: usize, part: Part) -> usize
    ensures { result ≡ generic_length user part }
{
    match part {
        Part::User => user,
        Part::Severity => 2,
        _ => 0,
    }
}

/// How many bytes a token shows of a header.
fn header_length(names: NameLengths, part: Part) -> usize
    ensures { result ≡ header_length names part }
{
    match names {
        NameLengths::Notified { object, notifier } => ntf_length(object, notifier, part),
        NameLengths::Written { user } => generic_length(user, part),
    }
}

/// How many bytes a token shows without its width.
fn part_length(names: NameLengths, body: &Text, part: Part) -> usize
    ensures { result ≡ part_length names body.now part }
{
    match part {
        Part::Number => 10,
        Part::Time {
            moment: Moment::Record,
            part,
        } => usize::from(time_length(part)),
        Part::ClassId => 29,
        Part::Cut => 1,
        Part::Body => body.as_slice().len(),
        Part::BodyBytes => 2 * body.as_slice().len(),
        _ => header_length(names, part),
    }
}

/// How many bytes a piece has, a token in its places.
fn piece_length(names: NameLengths, body: &Text, piece: &Piece) -> usize
    ensures { result ≡ piece_length names body.now piece.now }
{
    match piece {
        Piece::Plain { text } => text.as_slice().len(),
        Piece::Field { token } => match token.width {
            Some(width) => usize::from(width),
            None => part_length(names, body, token.part),
        },
    }
}

/// How many bytes the pieces have in a record, or the most of which there are before its line feed.
fn text_length(names: NameLengths, body: &Text, pieces: &[Piece]) -> usize
    ensures { result ≡ min (pieces_length names body.now pieces.now) 16383 }
{
    let mut total = 0usize;
    for piece in pieces {
        total = total
            .saturating_add(piece_length(names, body, piece))
            .min(MAX_PLACES);
    }
    total
}

/// The times of a record lie within the range of their type.
fn read_times(rec: &LogRecord)
    ensures { IsTimed rec.now }
{
    let _time = rec.time;
    if let Header::Ntf { event_time, .. } = &rec.header {
        let _event = *event_time;
    }
}

/// How many bytes the printed record takes.
pub(crate) fn bytes_needed(rec: &LogRecord, pieces: &[Piece], size: u32) -> usize
    requires bound { size ≤ most_text_bytes }
    requires printable { IsTrue (can_print rec.now) }
    ensures same { PrintsAs size result pieces.now rec.now }
    ensures size { HasSize size result }
{
    read_times(rec);
    if size == 0 {
        text_length(name_lengths(&rec.header), &rec.body, pieces) + 1
    } else {
        size as usize
    }
}

/// How many bytes the printed record has with size 0, whichever its number is. It takes no memory.
pub fn printed_length(expr: &Expr, rec: &LogRecord) -> u32
    requires printable { IsTrue (can_print rec.now) }
    ensures length { (number : ℕ) → number < 2 ^ 32 →
        length (printed_record expr.now.pieces number rec.now 0) ≡ result }
    ensures bound { result ≤ 16384 }
{
    bytes_needed(rec, expr.pieces.as_slice(), 0) as u32
}

/// How many bytes a printed record with this header and body has with size 0, whichever its number and its times
/// are. It takes no memory.
pub fn parts_length(expr: &Expr, header: &Header, body: &Text) -> u32
    ensures length { (number : ℕ) (rec : RecordOf) → number < 2 ^ 32
        → HasParts header.now body.now rec
        → length (printed_record expr.now.pieces number rec 0) ≡ result }
    ensures bound { result ≤ 16384 }
{
    text_length(name_lengths(header), body, expr.pieces.as_slice()) as u32 + 1
}

/// How many bytes the printed record of a notification with these names and this body has with size 0, whichever its
/// number, its times and the rest of its header are. It takes no memory.
pub fn notified_length(expr: &Expr, object: &Name, notifier: &Name, body: &Text) -> u32
    ensures length { (number : ℕ) (rec : RecordOf) → number < 2 ^ 32
        → HasNotifiedParts object.now notifier.now body.now rec
        → length (printed_record expr.now.pieces number rec 0) ≡ result }
    ensures bound { result ≤ 16384 }
{
    text_length(notified(object, notifier), body, expr.pieces.as_slice()) as u32 + 1
}
