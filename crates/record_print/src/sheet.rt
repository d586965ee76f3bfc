//! The sheet on which a record is printed.
ghost use Rattle.std.specs.Prelude.{◌≡◌, ◌+◌, ◌-◌, ◌<◌, ◌≤◌, min, List, ℕ, [], ◌∷◌, ◌++◌, length, map, take, drop, nat_le, IfOk};
ghost use Rattle.ais_values.specs.Texts.{IsText};
ghost use Rattle.record_print.specs.Printing.{spaces, fitted, shown_byte, shown, line_of};

use ais_values::Text;
use std::alloc::{AllocError, Global};

/// A buffer of a record's size: spaces and a line feed at first, over which the text is laid up to a limit.
#[derive(Drop)]
pub(crate) struct Sheet {
    bytes: Vec<u8>,
    used: usize,
    limit: usize,
    ghost some: { 0 < length bytes.items },
    ghost room: { limit ≤ length bytes.items },
    ghost within: { used ≤ limit },
}

/// Lays a text over the bytes at a place.
fn lay(bytes: &mut [u8], place: usize, text: &[u8])
    requires { place + length text.now ≤ length bytes.old }
    ensures { bytes.new ≡ take place bytes.old ++ text.now
        ++ drop (place + length text.now) bytes.old }
{
    bytes[place..place + text.len()].copy_from_slice(text);
}

/// A byte as it is printed: `.` for 0 to 31 and 127.
fn printed_byte(byte: u8) -> u8
    ensures { result ≡ shown_byte byte }
{
    if byte < 32 || byte == 127 { b'.' } else { byte }
}

/// Puts a `.` for each byte from 0 to 31 and 127.
fn hide_controls(bytes: &mut [u8])
    ensures { bytes.new ≡ map shown_byte bytes.old }
{
    for byte in bytes.iter_mut() {
        *byte = printed_byte(*byte);
    }
}

/// The same in a part of the bytes.
fn hide_between(bytes: &mut [u8], start: usize, end: usize)
    requires order { start ≤ end }
    requires inside { end ≤ length bytes.old }
    ensures { bytes.new ≡ take start bytes.old
        ++ map shown_byte (take (end - start) (drop start bytes.old)) ++ drop end bytes.old }
{
    hide_controls(&mut bytes[start..end]);
}

impl Sheet {
    ghost use Rattle.record_print.specs.Sheets.{Has, Adds, IsOpen};

    /// An empty sheet of so many bytes.
    pub(crate) fn new(alloc: Global, size: usize) -> Result<Sheet, AllocError>
        requires { 0 < size }
        ensures empty { IfOk result (λ sheet. Has sheet []) }
        ensures size { IfOk result (λ sheet. length sheet.bytes.items ≡ size) }
        ensures open { IfOk result IsOpen }
    {
        let mut bytes = vec![in alloc; b' '; size]?;
        bytes[size - 1] = b'\n';
        Ok(Sheet {
            bytes,
            used: 0,
            limit: size,
        })
    }

    /// Whether the text comes to the limit or past it.
    pub(crate) fn is_full(&self) -> bool
        ensures { result ≡ nat_le self.now.limit self.now.used }
    {
        self.used >= self.limit
    }

    /// Adds text.
    pub(crate) fn put(&mut self, text: &[u8])
        ensures { Adds self.old self.new text.now }
    {
        let count = text.len().min(self.limit - self.used);
        let visible = count.min((self.bytes.len() - 1).saturating_sub(self.used));
        lay(self.bytes.as_mut_slice(), self.used, &text[..visible]);
        self.used += count;
    }

    /// Adds so many spaces.
    pub(crate) fn skip(&mut self, places: usize)
        ensures { Adds self.old self.new (spaces places) }
    {
        self.used += places.min(self.limit - self.used);
    }

    /// Adds text, with a `.` for each byte from 0 to 31 and 127.
    pub(crate) fn put_shown(&mut self, text: &[u8])
        ensures { Adds self.old self.new (shown text.now) }
    {
        let before = self.used;
        self.put(text);
        let end = self.used.min(self.bytes.len() - 1);
        hide_between(self.bytes.as_mut_slice(), before.min(end), end);
    }

    /// Opens a window of so many places: text past them is cut.
    pub(crate) fn narrow(&mut self, width: u8)
        requires { IsOpen self.old }
        ensures limit { self.new.limit ≡ min (self.old.used + width) (length self.old.bytes.items) }
        ensures used { self.new.used ≡ self.old.used }
        ensures bytes { self.new.bytes.items ≡ self.old.bytes.items }
        ensures text { (text : List ℕ) → Has self.old text → Has self.new text }
    {
        self.limit = (self.used + usize::from(width)).min(self.bytes.len());
    }

    /// Closes the window: what is left of it stays as spaces.
    pub(crate) fn widen(&mut self)
        ensures open { IsOpen self.new }
        ensures bytes { self.new.bytes.items ≡ self.old.bytes.items }
        ensures text { (text base : List ℕ) (width : ℕ)
            → self.old.limit ≡ min (min (length text) (length self.old.bytes.items) + width)
            (length self.old.bytes.items)
            → Has self.old (text ++ base) → Has self.new (text ++ fitted width base) }
    {
        self.used = self.limit;
        self.limit = self.bytes.len();
    }

    /// The line of the sheet's text.
    pub(crate) fn into_text(self) -> Text
        requires open { IsOpen self }
        requires bound { IsText self.bytes.items }
        ensures { (text : List ℕ) → Has self text
            → result ≡ line_of (length self.bytes.items) text }
    {
        Text::from_vec(self.bytes)
    }
}
