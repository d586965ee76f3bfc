//! The reading of a printed line, but for the notifications and the lines of a script in it.
use crate::events::{Event, Kind, Naming, Role, Server};
use crate::words::{Words, are_numbers, last_field, last_word, number_of};
use ais_values::MAX_TEXT;
use stream_config::MAX_MASK;

/// The greatest number of bytes that a line of a script puts into the net.
const LONGEST: u64 = MAX_TEXT as u64;

/// The mask of a stream that lets all severities pass.
const GREATEST_MASK: u64 = MAX_MASK as u64;

/// What a line tells, if a run prints such a line. What stands in it as in a script is not looked at.
pub(crate) fn event_of(line: &[u8]) -> Option<Event> {
    if let Some(text) = line.strip_prefix(b"text ") {
        return if is_shown(text) {
            Some(Event::Text)
        } else {
            None
        };
    }
    if !is_printable(line) {
        return None;
    }
    let mut words = Words::of(line);
    match words.word()? {
        b"post" => posted(words),
        b"acc" => committed(words),
        b"reply" => replied(words),
        b"callback" => called_back(words),
        b"file" => file(words.rest()?),
        b"server" => stands(words),
        b"disk" => failed(words),
        b"ignored" => ignored(words),
        b"refused" => {
            let (_, third) = refused_line(words.rest()?)?;
            Some(Event::Refused { third })
        }
        _ => None,
    }
}

// Whether each byte is printable ASCII.
fn is_printable(line: &[u8]) -> bool {
    line.iter().all(|byte| 32 <= *byte && *byte <= 126)
}

// Whether no byte is a control byte of ASCII.
fn is_shown(line: &[u8]) -> bool {
    line.iter().all(|byte| 32 <= *byte && *byte != 127)
}

// The kind of message that a word names.
fn kind_of(word: &[u8]) -> Option<Kind> {
    match word {
        b"req" => Some(Kind::Request),
        b"rep" => Some(Kind::Reply),
        b"item" => Some(Kind::Item),
        b"rcpt" => Some(Kind::Receipt),
        _ => None,
    }
}

// The words by which a message of this kind is known.
fn naming(kind: Kind, words: &mut Words) -> Option<Naming> {
    let client = words.client()?;
    let first = words.place()?;
    let second = match kind {
        Kind::Request | Kind::Reply => 0,
        Kind::Item | Kind::Receipt => words.place()?,
    };
    Some(Naming {
        kind,
        client,
        first,
        second,
    })
}

// The event, if the line ends here.
fn at_end(words: Words, event: Event) -> Option<Event> {
    if words.is_at_end() { Some(event) } else { None }
}

// A message that is posted, or bytes that are none.
fn posted(mut words: Words) -> Option<Event> {
    let number = words.count()?;
    let word = words.word()?;
    if word == b"raw".as_slice() {
        return injected(words);
    }
    let kind = kind_of(word)?;
    let name = naming(kind, &mut words)?;
    at_end(words, Event::Posted { number, name })
}

// Of bytes that are no message their number alone is told.
fn injected(mut words: Words) -> Option<Event> {
    words.number().filter(|length| *length <= LONGEST)?;
    at_end(words, Event::Injected)
}

// An entry, by its call or its receipt.
fn committed(mut words: Words) -> Option<Event> {
    let entry = words.count()?;
    let kind = match words.word()? {
        b"call" => Kind::Request,
        b"rcpt" => Kind::Receipt,
        _ => return None,
    };
    let name = naming(kind, &mut words)?;
    let time = words.number()?;
    at_end(words, Event::Committed { entry, name, time })
}

// A reply, or what the agent tells by itself, which has `-` in place of a number.
fn replied(mut words: Words) -> Option<Event> {
    let client = words.client()?;
    let mut behind = words;
    if behind.word()? == b"-".as_slice() {
        return told(client, behind);
    }
    let first = words.place()?;
    let name = Naming {
        kind: Kind::Reply,
        client,
        first,
        second: 0,
    };
    if is_result(words) {
        Some(Event::Answered { name })
    } else {
        None
    }
}

// What an agent tells of itself: a refusal, or how many elements a dispatch handed out.
fn told(client: u64, mut words: Words) -> Option<Event> {
    let word = words.word()?;
    if word == b"ok".as_slice() {
        number_of(words.word()?.strip_prefix(b"dispatched=")?)?;
    } else if !is_refusal(word) {
        return None;
    }
    at_end(words, Event::Told { client })
}

// Whether this is the word of a status other than Ok.
fn is_refusal(word: &[u8]) -> bool {
    match word {
        b"VERSION" | b"TRY_AGAIN" | b"INVALID_PARAM" | b"BAD_HANDLE" | b"NOT_EXIST" => true,
        b"EXIST" | b"NO_SPACE" | b"NO_RESOURCES" | b"BAD_FLAGS" => true,
        _ => false,
    }
}

// Whether these words are a reply's result.
fn is_result(mut words: Words) -> bool {
    let Some(word) = words.word() else {
        return false;
    };
    if is_refusal(word) {
        return words.is_at_end();
    }
    if word != b"ok".as_slice() {
        return false;
    }
    words.is_at_end() || is_filtered(words) || is_sent(words) || is_note(words)
}

// Whether these words are `filtered`.
fn is_filtered(mut words: Words) -> bool {
    match words.word() {
        Some(b"filtered") => words.is_at_end(),
        _ => false,
    }
}

// Whether these words are `id=N`.
fn is_sent(mut words: Words) -> bool {
    let found = is_id(&mut words);
    found && words.is_at_end()
}

// Whether the next word is `id=N`.
fn is_id(words: &mut Words) -> bool {
    match words.word() {
        Some(word) => match word.strip_prefix(b"id=") {
            Some(digits) => number_of(digits).is_some(),
            None => false,
        },
        None => false,
    }
}

/// Whether this word is the kind of a notification.
pub(crate) fn is_kind(word: &[u8]) -> bool {
    match word {
        b"objects" | b"attributes" | b"states" | b"alarm" | b"security" => true,
        _ => false,
    }
}

// Whether these words begin as a notification does, with its kind and its id. What stands behind them `spelled` judges.
fn is_note(mut words: Words) -> bool {
    match words.word() {
        Some(kind) => is_kind(kind) && is_id(&mut words) && !words.is_at_end(),
        None => false,
    }
}

// A callback: of a write, of a mask, of a notification or of lost ones.
fn called_back(mut words: Words) -> Option<Event> {
    let client = words.client()?;
    words.count()?;
    let shown = match words.word()? {
        b"write" => is_write(words),
        b"filter" => is_mask(words),
        b"ntf" => words.number().is_some() && is_note(words),
        b"lost" => is_loss(words),
        _ => false,
    };
    if shown {
        Some(Event::CalledBack { client })
    } else {
        None
    }
}

// Whether these words are an invocation and a status.
fn is_write(mut words: Words) -> bool {
    let numbered = words.number().is_some();
    match words.word() {
        Some(word) => numbered
            && words.is_at_end()
            && (word == b"ok".as_slice() || is_refusal(word)),
        None => false,
    }
}

// Whether these words end with a stream's mask. What stands before it `spelled` judges.
fn is_mask(words: Words) -> bool {
    let Some(rest) = words.rest() else {
        return false;
    };
    let Some((_, digits)) = last_field(rest, b"mask=") else {
        return false;
    };
    match number_of(digits) {
        Some(mask) => mask <= GREATEST_MASK,
        None => false,
    }
}

// Whether these words are a subscription, a kind, `count=N` and `ids=IDS`.
fn is_loss(mut words: Words) -> bool {
    let numbered = words.number().is_some();
    let kind = words.word();
    let count = words.word();
    let ids = words.word();
    match (kind, count, ids) {
        (Some(kind), Some(count), Some(ids)) => {
            numbered && words.is_at_end() && is_kind(kind) && are_losses(count, ids)
        }
        _ => false,
    }
}

// Whether these words are `count=N` and `ids=N,..`.
fn are_losses(count: &[u8], ids: &[u8]) -> bool {
    match (count.strip_prefix(b"count="), ids.strip_prefix(b"ids=")) {
        (Some(count), Some(ids)) => number_of(count).is_some() && are_numbers(ids),
        _ => false,
    }
}

// A file, whose name may have spaces, and its length.
fn file(rest: &[u8]) -> Option<Event> {
    let (name, length) = last_word(rest)?;
    number_of(length)?;
    if name.is_empty() {
        return None;
    }
    Some(Event::File)
}

// The role that a word names.
fn role_of(word: &[u8]) -> Option<Role> {
    match word {
        b"active" => Some(Role::Active),
        b"armed" => Some(Role::Armed),
        b"standby" => Some(Role::Standby),
        b"joining" => Some(Role::Joining),
        b"journal" => Some(Role::Journal),
        b"down" => Some(Role::Down),
        _ => None,
    }
}

// The server that a word names.
fn server_of(word: &[u8]) -> Option<Server> {
    match word {
        b"a" => Some(Server::First),
        b"b" => Some(Server::Second),
        b"c" => Some(Server::Third),
        _ => None,
    }
}

// The role of a server.
fn stands(mut words: Words) -> Option<Event> {
    let server = server_of(words.word()?)?;
    let role = role_of(words.word()?)?;
    at_end(words, Event::Stands { server, role })
}

// A fault of the disk.
fn failed(mut words: Words) -> Option<Event> {
    match words.word()? {
        b"fault" => at_end(words, Event::Failed),
        _ => None,
    }
}

// A message that had no effect, and why.
fn ignored(mut words: Words) -> Option<Event> {
    let number = words.count()?;
    match words.word()? {
        b"busy" => {
            words.count()?;
        }
        b"bad" => {
            words.number().filter(|place| *place <= LONGEST)?;
            if !is_fault(words.word()?) {
                return None;
            }
        }
        b"old" | b"ahead" | b"done" | b"answered" | b"left" | b"taken" | b"gone" | b"down" => {}
        _ => return None,
    }
    at_end(words, Event::Ignored { number })
}

// Whether this word tells why bytes are no message.
fn is_fault(word: &[u8]) -> bool {
    match word {
        b"trailing" | b"short" | b"value" => true,
        _ => false,
    }
}

/// Whether this is a line that a script for three servers has beside those of two.
pub(crate) fn is_own_of_three(line: &[u8]) -> bool {
    let mut words = Words::of(line);
    let Some(word) = words.word() else {
        return false;
    };
    let Some(server) = words.word() else {
        return false;
    };
    match word {
        b"crash" | b"restart" => server == b"c".as_slice() && words.is_at_end(),
        b"arm" => server == b"c".as_slice() && words.count().is_some() && words.is_at_end(),
        b"mirror" | b"ack" => server_of(server).is_some() && words.is_at_end(),
        _ => false,
    }
}

/// Of a refused line the line of the script, and whether the roles of three servers stand behind it.
pub(crate) fn refused_line(rest: &[u8]) -> Option<(&[u8], bool)> {
    let (rest, hand) = last_field(rest, b"hand=")?;
    if hand != b"-".as_slice() {
        number_of(hand)?;
    }
    let (rest, back) = last_field(rest, b"back=")?;
    let (rest, link) = last_field(rest, b"link=")?;
    let (rest, net) = last_field(rest, b"net=")?;
    number_of(back)?;
    number_of(link)?;
    number_of(net)?;
    let (rest, third) = match last_field(rest, b"c=") {
        Some((front, role)) => {
            role_of(role)?;
            (front, true)
        }
        None => (rest, false),
    };
    let (rest, second) = last_field(rest, b"b=")?;
    let (line, first) = last_field(rest, b"a=")?;
    role_of(second)?;
    role_of(first)?;
    Some((line, third))
}
