//! Lines of a script.
ghost use Rattle.std.specs.Prelude.{◌≡◌};
ghost use Rattle.script.specs.Gives.{Gives};
ghost use Rattle.script.specs.LineFront.{front_at};
ghost use Rattle.script_language.specs.LineReading.{log_line_at, ntf_line_at};
ghost use Rattle.script_language.specs.ScriptReading.{line_at};

use crate::asks::{log_ask, ntf_ask};
use crate::control::control;
use crate::numbers::{client, skip};
use crate::trouble::Trouble;
use script_lines::Line;
use std::alloc::Global;

/// What a client asks of the Log Service, behind its number.
#[tactic(auto, unfolding(script_language::specs::LineReading::log_line_at))]
fn log_line(alloc: Global, bytes: &[u8]) -> Result<(Line, &[u8]), Trouble>
    ensures { Gives (λ found. (found.0, found.1.now)) result (log_line_at bytes.now) }
{
    let (client, rest) = client(bytes).ok_or(Trouble::Bad)?;
    let rest = skip(rest, b" ").ok_or(Trouble::Bad)?;
    let (ask, rest) = log_ask(alloc, rest)?;
    Ok((Line::Log { client, ask }, rest))
}

/// What a client asks of the Notification Service, behind its number.
#[tactic(auto, unfolding(script_language::specs::LineReading::ntf_line_at))]
fn ntf_line(alloc: Global, bytes: &[u8]) -> Result<(Line, &[u8]), Trouble>
    ensures { Gives (λ found. (found.0, found.1.now)) result (ntf_line_at bytes.now) }
{
    let (client, rest) = client(bytes).ok_or(Trouble::Bad)?;
    let rest = skip(rest, b" ").ok_or(Trouble::Bad)?;
    let (ask, rest) = ntf_ask(alloc, rest)?;
    Ok((Line::Ntf { client, ask }, rest))
}

/// The line at the front of some bytes, with the bytes that follow it.
#[tactic(auto, unfolding(crate::specs::LineFront::front_at))]
fn line_in_front(alloc: Global, bytes: &[u8]) -> Result<(Line, &[u8]), Trouble>
    ensures { Gives (λ found. (found.0, found.1.now)) result (front_at bytes.now) }
{
    if let Some(rest) = skip(bytes, b"log ") {
        return log_line(alloc, rest);
    }
    if let Some(rest) = skip(bytes, b"ntf ") {
        return ntf_line(alloc, rest);
    }
    control(alloc, bytes)
}

/// The line that the bytes spell.
pub(crate) fn line_of(alloc: Global, raw: &[u8]) -> Result<Line, Trouble>
    ensures { Gives (λ line. line) result (line_at raw.now) }
{
    let (line, rest) = match line_in_front(alloc, raw) {
        Ok(found) => found,
        Err(trouble) => return Err(trouble),
    };
    if rest.is_empty() {
        Ok(line)
    } else {
        drop(line);
        Err(Trouble::Bad)
    }
}
