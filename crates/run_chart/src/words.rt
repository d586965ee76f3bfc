//! A line as words with one space between them.
use ais_values::MAX_CLIENT;

/// The words of a line that are not read yet; none at its end.
#[derive(Clone, Copy)]
pub(crate) struct Words<'a> {
    left: Option<&'a [u8]>,
}

impl<'a> Words<'a> {
    /// The words of a text.
    pub(crate) fn of(text: &'a [u8]) -> Self {
        Words { left: Some(text) }
    }

    /// The next word.
    pub(crate) fn word(&mut self) -> Option<&'a [u8]> {
        let text = self.left?;
        match text.iter().position(|byte| *byte == b' ') {
            Some(place) => {
                self.left = Some(&text[place + 1..]);
                Some(&text[..place])
            }
            None => {
                self.left = None;
                Some(text)
            }
        }
    }

    /// The next word as a number.
    pub(crate) fn number(&mut self) -> Option<u64> {
        number_of(self.word()?)
    }

    /// The next word as a number that is at least 1.
    pub(crate) fn count(&mut self) -> Option<u64> {
        self.number().filter(|number| *number > 0)
    }

    /// The next word as the number of a call or an item, or as a key.
    pub(crate) fn place(&mut self) -> Option<u64> {
        self.count().filter(|number| *number <= u64::from(u32::MAX))
    }

    /// The next word as a client.
    pub(crate) fn client(&mut self) -> Option<u64> {
        self.count()
            .filter(|number| *number <= u64::from(MAX_CLIENT))
    }

    /// All that is left, if something is.
    pub(crate) fn rest(self) -> Option<&'a [u8]> {
        self.left
    }

    /// Whether nothing is left.
    pub(crate) fn is_at_end(self) -> bool {
        self.left.is_none()
    }
}

/// What stands behind so many words.
pub(crate) fn behind(line: &[u8], words: usize) -> &[u8] {
    let mut left = Words::of(line);
    for _ in 0..words {
        let _ = left.word();
    }
    left.rest().unwrap_or(b"")
}

/// A decimal number below 2^64 without a sign or a leading zero.
pub(crate) fn number_of(word: &[u8]) -> Option<u64> {
    let first = *word.first()?;
    if !first.is_ascii_digit() || (first == b'0' && word.len() > 1) {
        return None;
    }
    let text = str::from_utf8(word).ok()?;
    text.parse().ok()
}

/// The text in front of its last word, and that word.
pub(crate) fn last_word(text: &[u8]) -> Option<(&[u8], &[u8])> {
    let place = text.iter().rposition(|byte| *byte == b' ')?;
    Some((&text[..place], &text[place + 1..]))
}

/// Of a text whose last word is NAME=VALUE: what is in front of that word, and the value.
pub(crate) fn last_field<'a>(text: &'a [u8], name: &[u8]) -> Option<(&'a [u8], &'a [u8])> {
    let (front, word) = last_word(text)?;
    let value = word.strip_prefix(name)?;
    Some((front, value))
}

/// Whether these are numbers with commas between them.
pub(crate) fn are_numbers(text: &[u8]) -> bool {
    let mut left = text;
    for _ in 0..text.len() {
        match left.iter().position(|byte| *byte == b',') {
            None => break,
            Some(place) => {
                if number_of(&left[..place]).is_none() {
                    return false;
                }
                left = &left[place + 1..];
            }
        }
    }
    number_of(left).is_some()
}
