//! Reading of the lines that three servers alone have.
ghost use Rattle.std.specs.Prelude.{◌≡◌, option_map, is_some};
ghost use Rattle.script_grammar.specs.Reading.{alone, whole};
ghost use Rattle.trio_lines.specs.LineReading.{trio_server_at, arm_c_at, mirror_at, ack_at, own_line_at};

use crate::line::{TrioLine, TrioServer};
use script::{skip, whole_number};

/// The line, where nothing follows it.
fn ending(line: TrioLine, rest: &[u8]) -> Option<TrioLine>
    ensures { result ≡ alone line rest.now }
{
    match rest {
        [] => Some(line),
        _ => {
            drop(line);
            None
        }
    }
}

/// One of the three servers, by its letter.
#[tactic(auto, unfolding(crate::specs::LineReading::trio_server_at))]
fn trio_server(bytes: &[u8]) -> Option<(TrioServer, &[u8])>
    ensures { trio_server_at bytes.now ≡ option_map (λ found. (found.0, found.1.now)) result }
{
    if let Some(rest) = skip(bytes, b"a") {
        return Some((TrioServer::A, rest));
    }
    if let Some(rest) = skip(bytes, b"b") {
        return Some((TrioServer::B, rest));
    }
    Some((TrioServer::C, skip(bytes, b"c")?))
}

/// `arm c COUNT`, without its first words
fn arm(bytes: &[u8]) -> Option<TrioLine>
    ensures { result ≡ whole arm_c_at bytes.now }
{
    match whole_number(bytes, 1, u64::MAX) {
        Some(k) => Some(TrioLine::Arm { k }),
        None => None,
    }
}

/// `mirror SERVER`, without its first word
#[tactic(auto, unfolding(crate::specs::LineReading::mirror_at))]
fn mirror(bytes: &[u8]) -> Option<TrioLine>
    ensures { result ≡ whole mirror_at bytes.now }
{
    let (server, rest) = trio_server(bytes)?;
    ending(TrioLine::Mirror { server }, rest)
}

/// `ack SERVER`, without its first word
#[tactic(auto, unfolding(crate::specs::LineReading::ack_at))]
fn ack(bytes: &[u8]) -> Option<TrioLine>
    ensures { result ≡ whole ack_at bytes.now }
{
    let (server, rest) = trio_server(bytes)?;
    ending(TrioLine::Ack { server }, rest)
}

/// The own line of three servers that the bytes spell. None where they spell none.
#[tactic(auto, unfolding(crate::specs::LineReading::own_line_at))]
pub(crate) fn own_line(raw: &[u8]) -> Option<TrioLine>
    ensures { result ≡ own_line_at raw.now }
{
    if let Some(rest) = skip(raw, b"crash c") {
        return ending(TrioLine::Crash, rest);
    }
    if let Some(rest) = skip(raw, b"arm c ") {
        return arm(rest);
    }
    if let Some(rest) = skip(raw, b"restart c") {
        return ending(TrioLine::Restart, rest);
    }
    if let Some(rest) = skip(raw, b"mirror ") {
        return mirror(rest);
    }
    match skip(raw, b"ack ") {
        Some(rest) => ack(rest),
        None => None,
    }
}

/// Whether the bytes spell an own line of three servers.
pub(crate) fn is_own(raw: &[u8]) -> bool
    ensures { result ≡ is_some (own_line_at raw.now) }
{
    match own_line(raw) {
        Some(line) => {
            drop(line);
            true
        }
        None => false,
    }
}
