//! The printed record.
ghost use Rattle.std.specs.Prelude.{◌≡◌, ◌≤◌, ◌<◌, ◌⊎◌, List, ℕ, Bool, [], ◌∷◌, ◌++◌, length, IfOk, IsTrue, not, unsigned_abs, Some, None, MatchOption};
ghost use Rattle.std.specs.Int.{is_negative};
ghost use Rattle.std.specs.List.{list_any};
ghost use Rattle.format_expr.specs.declared.token.Moment.{Moment};
ghost use Rattle.ais_values.specs.Texts.{most_text_bytes};
ghost use Rattle.record_print.specs.Printing.{class_of, id_text, event_type_text, object_text, notifier_text, user_text, severity_text, has_codes, part_text, is_number, in_places, piece_text, pieces_text, shows_half, has_half, has_part, is_mark, event_time, can_print, printed_record, HasSize};
ghost use Rattle.record_print.specs.Figures.{IsClock, AreFigures};
ghost use Rattle.record_print.specs.Sheets.{Has, IsOpen};

use crate::clock::Clock;
use crate::digits::severity_name;
use crate::length::bytes_needed;
use crate::sheet::Sheet;
use crate::{Header, LogRecord};
use ais_values::{ClassId, Text};
use format_expr::{Expr, Moment, Part, Piece, TimePart, Token};
use std::alloc::{AllocError, Global};

/// What a record is printed with beside its own fields.
#[derive(Drop)]
pub(crate) struct Figures {
    number: u32,
    /// Stands for whether the record is cut.
    mark: u8,
    recorded: Clock,
    /// Of a record with a notification's header.
    event: Option<Clock>,
}

/// The class that a header names.
fn class_in(header: &Header) -> ClassId
    ensures { result ≡ class_of header.now }
{
    match header {
        Header::Ntf { class, .. } => *class,
        Header::Generic { class, .. } => *class,
    }
}

#[tactic(auto, using(crate::proofs::SheetLaws::adds_none))]
impl Sheet {
    ghost use Rattle.record_print.specs.Sheets.{Adds, Keeps};

    /// Adds the id in a notification's header; of a generic header nothing, here and below.
    fn put_id(&mut self, header: &Header)
        ensures { Adds self.old self.new (id_text header.now) }
    {
        match header {
            Header::Ntf { id, .. } => self.put_hex::<16>(b"0x", *id),
            Header::Generic { .. } => {}
        }
    }

    /// Adds the event type.
    fn put_event_type(&mut self, header: &Header)
        ensures { Adds self.old self.new (event_type_text header.now) }
    {
        match header {
            Header::Ntf { event_type, .. } => self.put_hex::<4>(b"0x", u64::from(*event_type)),
            Header::Generic { .. } => {}
        }
    }

    /// Adds the object that the notification is about.
    fn put_object(&mut self, header: &Header)
        ensures { Adds self.old self.new (object_text header.now) }
    {
        match header {
            Header::Ntf { object, .. } => self.put_shown(object.as_slice()),
            Header::Generic { .. } => {}
        }
    }

    /// Adds the object that notifies.
    fn put_notifier(&mut self, header: &Header)
        ensures { Adds self.old self.new (notifier_text header.now) }
    {
        match header {
            Header::Ntf { notifier, .. } => self.put_shown(notifier.as_slice()),
            Header::Generic { .. } => {}
        }
    }

    /// Adds the user in a generic header; of a notification's nothing, here and below.
    fn put_user(&mut self, header: &Header)
        ensures { Adds self.old self.new (user_text header.now) }
    {
        match header {
            Header::Ntf { .. } => {}
            Header::Generic { user, .. } => self.put_shown(user.as_slice()),
        }
    }

    /// Adds the two letters of the severity.
    fn put_severity(&mut self, header: &Header)
        requires { IsTrue (has_codes header.now) }
        ensures { Adds self.old self.new (severity_text header.now) }
    {
        match header {
            Header::Ntf { .. } => {}
            Header::Generic { severity, .. } => self.put(severity_name(*severity).as_bytes()),
        }
    }

    /// Adds what a token shows, without its width.
    fn put_part(&mut self, figures: &Figures, rec: &LogRecord, part: Part)
        requires { IsTrue (has_codes rec.now.header) }
        ensures kept { Keeps self.old self.new }
        ensures text { (half : Moment → Bool) → AreFigures figures.now half rec.now
            → Adds self.old self.new (part_text half figures.now.number figures.now.mark rec.now
            part) }
    {
        match part {
            Part::Number => self.put_number(figures.number),
            Part::Time { moment, part } => match moment {
                Moment::Record => self.put_time(&figures.recorded, part),
                Moment::Event => {
                    if let Some(clock) = &figures.event {
                        self.put_time(clock, part);
                    }
                }
            },
            Part::ClassId => self.put_class(class_in(&rec.header)),
            Part::Cut => self.put(&[figures.mark]),
            Part::Body => self.put_shown(rec.body.as_slice()),
            Part::BodyBytes => self.put_bytes(rec.body.as_slice()),
            Part::NotificationId => self.put_id(&rec.header),
            Part::EventType => self.put_event_type(&rec.header),
            Part::Object => self.put_object(&rec.header),
            Part::Notifier => self.put_notifier(&rec.header),
            Part::User => self.put_user(&rec.header),
            Part::Severity => self.put_severity(&rec.header),
        }
    }

    /// Adds a token in its places.
    fn put_token(&mut self, figures: &Figures, rec: &LogRecord, token: Token)
        requires codes { IsTrue (has_codes rec.now.header) }
        requires open { IsOpen self.old }
        ensures kept { Keeps self.old self.new }
        ensures text { (half : Moment → Bool) → AreFigures figures.now half rec.now
            → Adds self.old self.new (in_places (is_number token.part) token.width
            (part_text half figures.now.number figures.now.mark rec.now token.part)) }
    {
        match token.width {
            Some(width) => {
                self.narrow(width);
                self.put_part(figures, rec, token.part);
                self.widen();
            }
            None => match token.part {
                Part::Number => self.put_aligned(figures.number),
                part => self.put_part(figures, rec, part),
            },
        }
    }

    /// Adds a piece: plain bytes, or a token in its places.
    fn put_piece(&mut self, figures: &Figures, rec: &LogRecord, piece: &Piece)
        requires codes { IsTrue (has_codes rec.now.header) }
        requires open { IsOpen self.old }
        ensures kept { Keeps self.old self.new }
        ensures text { (half : Moment → Bool) → AreFigures figures.now half rec.now
            → Adds self.old self.new (piece_text half figures.now.number figures.now.mark rec.now
            piece.now) }
    {
        match piece {
            Piece::Plain { text } => self.put(text.as_slice()),
            Piece::Field { token } => self.put_token(figures, rec, *token),
        }
    }

    /// Adds pieces, one behind the other.
    fn put_pieces(&mut self, figures: &Figures, rec: &LogRecord, pieces: &[Piece])
        requires codes { IsTrue (has_codes rec.now.header) }
        requires open { IsOpen self.old }
        ensures kept { Keeps self.old self.new }
        ensures text { (half : Moment → Bool) → AreFigures figures.now half rec.now
            → Adds self.old self.new (pieces_text half figures.now.number figures.now.mark rec.now
            pieces.now) }
    {
        for piece in pieces {
            self.put_piece(figures, rec, piece);
        }
    }
}

/// Whether a token shows the half of the day of this time.
fn is_half_day(part: Part, moment: Moment) -> bool
    ensures { result ≡ shows_half moment part }
{
    match part {
        Part::Time {
            moment: found,
            part: TimePart::HalfDay,
        } => found == moment,
        _ => false,
    }
}

/// Whether the hours of this time run to 12.
fn has_half_day(pieces: &[Piece], moment: Moment) -> bool
    ensures { result ≡ has_half pieces.now moment }
{
    for piece in pieces {
        if let Piece::Field { token } = piece {
            if is_half_day(token.part, moment) {
                return true;
            }
        }
    }
    false
}

/// Whether the text tells if it is cut.
fn tells_cut(pieces: &[Piece]) -> bool
    ensures { result ≡ list_any (has_part is_mark) pieces.now }
{
    for piece in pieces {
        if let Piece::Field { token } = piece {
            if token.part == Part::Cut {
                return true;
            }
        }
    }
    false
}

/// The clock of the event time in a notification's header.
fn event_clock(header: &Header, half: bool) -> Option<Clock>
    requires { IsTrue (has_codes header.now) }
    ensures { MatchOption result (event_time header.now ≡ None)
        (λ clock. (time : ℕ) × (event_time header.now ≡ Some time) × IsClock clock half time) }
{
    match header {
        Header::Ntf { event_time, .. } => Some(Clock::new(*event_time, half)),
        Header::Generic { .. } => None,
    }
}

impl Figures {
    /// The figures of a record that is printed under this number, with a mark as if it were not cut.
    fn new(number: u32, rec: &LogRecord, pieces: &[Piece]) -> Figures
        requires { IsTrue (can_print rec.now) }
        ensures number { result.number ≡ number }
        ensures mark { result.mark ≡ 67 }
        ensures figures { AreFigures result (has_half pieces.now) rec.now }
    {
        let recorded = Clock::new(rec.time, has_half_day(pieces, Moment::Record));
        let event = event_clock(&rec.header, has_half_day(pieces, Moment::Event));
        Figures {
            number,
            mark: b'C',
            recorded,
            event,
        }
    }
}

/// A sheet with a record's text.
fn sheet_of(
    alloc: Global,
    figures: &Figures,
    rec: &LogRecord,
    pieces: &[Piece],
    size: usize,
) -> Result<Sheet, AllocError>
    requires some { 0 < size }
    requires codes { IsTrue (has_codes rec.now.header) }
    ensures open { IfOk result IsOpen }
    ensures size { IfOk result (λ sheet. length sheet.bytes.items ≡ size) }
    ensures text { IfOk result (λ sheet. (half : Moment → Bool)
        → AreFigures figures.now half rec.now
        → Has sheet (pieces_text half figures.now.number figures.now.mark rec.now pieces.now)) }
{
    let mut sheet = Sheet::new(alloc, size)?;
    sheet.put_pieces(figures, rec, pieces);
    Ok(sheet)
}

/// Whether a record can be printed: its times are not negative, and the severity of a generic header is at most 6.
pub fn is_printable(rec: &LogRecord) -> bool
    ensures { result ≡ can_print rec.now }
{
    let fits = match &rec.header {
        Header::Ntf { event_time, .. } => *event_time >= 0,
        Header::Generic { severity, .. } => *severity <= 6,
    };
    rec.time >= 0 && fits
}

/// The printed record: the text of the expression's pieces, and a line feed. With a size above 0 the text is cut
/// or padded with spaces to `size` minus 1 bytes; with size 0 it is cut to 16,383 bytes, and not padded.
///
/// The number and the record's fields stand where the tokens name them. A token that shows what the header of
/// the other kind has prints nothing; an expression of the header's kind has none such.
pub fn print_record(
    alloc: Global,
    expr: &Expr,
    number: u32,
    rec: &LogRecord,
    size: u32,
) -> Result<Text, AllocError>
    requires size { (size ≡ 0) ⊎ ((32 ≤ size) × (size ≤ most_text_bytes)) }
    requires printable { IsTrue (can_print rec.now) }
    ensures text { IfOk result (λ text. text ≡ printed_record expr.now.pieces number rec.now size) }
    ensures bytes { IfOk result (λ text. HasSize size (length text)) }
{
    let pieces = expr.pieces.as_slice();
    let mut figures = Figures::new(number, rec, pieces);
    let bytes = bytes_needed(rec, pieces, size);
    let sheet = sheet_of(alloc, &figures, rec, pieces, bytes)?;
    if sheet.is_full() && tells_cut(pieces) {
        figures.mark = b'T';
        let sheet = sheet_of(alloc, &figures, rec, pieces, bytes)?;
        return Ok(sheet.into_text());
    }
    Ok(sheet.into_text())
}
