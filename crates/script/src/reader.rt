//! Reading of whole scripts.
ghost use Rattle.std.specs.Prelude.{◌≡◌, ◌+◌, ◌<◌, None, [], ◌≤◌, ◌==◌, ◌∷◌, ◌++◌, ◌⊎◌, ℕ, List, length, OnOk, IfOk, IfErr, MatchResult, IsErrAnd};
ghost use Rattle.std.specs.List.{position_or_len};
ghost use Rattle.script_language.specs.Scripts.{raw_lines, time_after, misplaced, IsScriptOf, IsBadAt};
ghost use Rattle.script_language.specs.ScriptReading.{is_skipped, judged};
ghost use Rattle.script.specs.Answers.{Tells, CountsScript};
ghost use Rattle.script.specs.Judged.{Outcome, TurnsTo, Refuses, KeepsFew, LeadsTo, Judges};

use crate::lines::line_of;
use crate::trouble::Trouble;
use ais_values::Seq;
use script_lines::{Line, ScriptAnswer, ScriptWhy};
use std::alloc::{AllocError, Global};

/// The length of the first line, without its LF.
fn line_length(bytes: &[u8]) -> usize
    ensures { result ≡ position_or_len (λ byte. byte == 10) bytes.now }
{
    bytes.iter().take_while(|byte| **byte != b'\n').count()
}

/// The first line of some bytes, of which there are some, without its LF; and the bytes behind it. It takes no memory.
pub fn first_line(bytes: &[u8]) -> (&[u8], &[u8])
    requires { 0 < length bytes.now }
    ensures lines { raw_lines bytes.now ≡ result.0.now ∷ raw_lines result.1.now }
    ensures shorter { length result.1.now < length bytes.now }
{
    let end = line_length(bytes);
    if end < bytes.len() {
        (&bytes[..end], &bytes[end + 1..])
    } else {
        (bytes, &[])
    }
}

/// Whether a line, without its LF, is skipped: it is empty, or begins with `#`. It takes no memory.
pub fn skips(raw: &[u8]) -> bool
    ensures { result ≡ is_skipped raw.now }
{
    match raw {
        [] => true,
        [first, ..] => *first == b'#',
    }
}

/// The time in force after a line.
fn later_time(now: Option<i64>, line: &Line) -> Option<i64>
    ensures { result ≡ time_after now line.now }
{
    match line {
        Line::Cluster { start, .. } => Some(*start),
        Line::Time { now } => Some(*now),
        _ => now,
    }
}

/// Why a line cannot stand where this time is in force.
fn fault_of(now: Option<i64>, line: &Line) -> Option<ScriptWhy>
    ensures { result ≡ misplaced now line.now }
{
    match (now, line) {
        (None, Line::Cluster { .. }) => None,
        (None, _) => Some(ScriptWhy::Cluster),
        (Some(_), Line::Cluster { .. }) => Some(ScriptWhy::Cluster),
        (Some(now), Line::Time { now: later }) if *later < now => Some(ScriptWhy::Time),
        (Some(_), _) => None,
    }
}

/// Reads a line where a time is in force, or none is, and the line has this number. A line that is not skipped comes with
/// the time in force after it.
fn read_line(
    alloc: Global,
    now: Option<i64>,
    number: u32,
    raw: &[u8],
) -> Result<Option<(Line, Option<i64>)>, ScriptAnswer>
    ensures { TurnsTo now number raw.now result }
{
    if skips(raw) {
        return Ok(None);
    }
    let line = match line_of(alloc, raw) {
        Ok(line) => line,
        Err(Trouble::Memory) => return Err(ScriptAnswer::Memory),
        Err(Trouble::Bad) => {
            return Err(ScriptAnswer::Bad {
                line: number,
                why: ScriptWhy::Grammar,
            });
        }
    };
    if let Some(why) = fault_of(now, &line) {
        drop(line);
        return Err(ScriptAnswer::Bad { line: number, why });
    }
    let later = later_time(now, &line);
    Ok(Some((line, later)))
}

/// What is kept of the lines of a script.
trait Keep: Drop {
    ghost use Rattle.std.specs.Prelude.{List};
    ghost use Rattle.script_lines.specs.declared.line.Line.{Line};

    /// That this is what is kept of some lines.
    ghost Keeps: { Self → List Line → Type 0 };

    /// Keeps one more line. After want of memory what is kept is of no more use.
    fn keep(&mut self, line: Line) -> Result<(), AllocError>
        requires { KeepsFew Keeps self.old 4294967295 }
        ensures { OnOk result ((lines : List Line) →
            Keeps self.old lines → Keeps self.new (lines ++ line ∷ [])) };
}

/// All lines are kept.
impl Keep for Seq<Line> {
    ghost use Rattle.std.specs.Prelude.{◌≡◌};

    ghost Keeps = { λ kept lines. kept ≡ lines };

    fn keep(&mut self, line: Line) -> Result<(), AllocError> {
        self.push(line)
    }
}

/// Their count is kept.
impl Keep for u32 {
    ghost use Rattle.std.specs.Prelude.{◌≡◌, length};

    ghost Keeps = { λ count lines. count ≡ length lines };

    fn keep(&mut self, line: Line) -> Result<(), AllocError> {
        drop(line);
        *self += 1;
        Ok(())
    }
}

/// What was kept of the lines so far, the time in force and the number of the next line.
#[derive(Drop)]
struct Reader<K> {
    kept: K,
    time: Option<i64>,
    number: u32,
}

impl<K: Keep> Reader<K> {
    /// Reads one more line.
    fn turn(&mut self, alloc: Global, raw: &[u8]) -> Result<(), ScriptAnswer>
        requires number { self.old.number < 4294967295 }
        requires few { KeepsFew K.Keeps self.old.kept self.old.number }
        ensures ok { OnOk result ((raws : List (List ℕ)) (outcome : Outcome) →
            LeadsTo K.Keeps self.old (raw.now ∷ raws) outcome
            → LeadsTo K.Keeps self.new raws outcome) }
        ensures err { IfErr result (λ answer. (raws : List (List ℕ)) (outcome : Outcome) →
            LeadsTo K.Keeps self.old (raw.now ∷ raws) outcome → Refuses answer outcome) }
        ensures counts { OnOk result (self.new.number ≡ self.old.number + 1) }
    {
        let found = match read_line(alloc, self.time, self.number, raw) {
            Ok(found) => found,
            Err(answer) => return Err(answer),
        };
        self.number += 1;
        let Some((line, later)) = found else {
            return Ok(());
        };
        self.time = later;
        self.kept.keep(line)?;
        Ok(())
    }

    /// What was kept, where a cluster line was read.
    fn finish(self) -> Result<K, ScriptAnswer>
        ensures { (outcome : Outcome) → LeadsTo K.Keeps self [] outcome
            → Judges K.Keeps result outcome }
    {
        if self.time.is_none() {
            return Err(ScriptAnswer::Bad {
                line: self.number,
                why: ScriptWhy::Cluster,
            });
        }
        Ok(self.kept)
    }
}

/// What is kept of the lines that the bytes spell, where at first that of none is kept; or what is bad.
fn judge<K: Keep>(alloc: Global, bytes: &[u8], kept: K) -> Result<K, ScriptAnswer>
    requires few { length bytes.now ≤ 4294967294 }
    requires none { K.Keeps kept [] }
    ensures { Judges K.Keeps result (judged None 1 (raw_lines bytes.now)) }
{
    let mut reader = Reader {
        kept,
        time: None,
        number: 1,
    };
    let mut rest = bytes;
    'lines: while !rest.is_empty() {
        let (raw, after) = first_line(rest);
        match reader.turn(alloc, raw) {
            Ok(()) => {}
            Err(answer) => return Err(answer),
        }
        rest = after;
    }
    reader.finish()
}

/// Reads a script of at most 4,294,967,294 bytes, each line once. It takes room for a line as the line is judged, so that
/// a bad line costs no more than the lines before it.
///
/// `Bad` comes exactly where the bytes spell no script. It names the least bad line, counted from 1 over all lines, and the
/// first reason that holds of it: `Grammar`, then `Cluster`, then `Time`. Bytes of skipped lines alone are bad at the line
/// after the last, as `Cluster`.
pub fn parse_script(alloc: Global, bytes: &[u8]) -> Result<Seq<Line>, ScriptAnswer>
    requires { length bytes.now ≤ 4294967294 }

    // What is read is spelled so, and what is spelled so is read, unless memory runs out.
    ensures lines { IfOk result (λ lines. IsScriptOf lines bytes.now) }
    ensures every_script { (lines : List Line) → IsScriptOf lines bytes.now
        → MatchResult result (λ found. found ≡ lines) (λ answer. answer ≡ ScriptAnswer.Memory) }

    // What is told to be bad is the least bad line, and the least bad line is told, unless memory runs out.
    ensures fault { IfErr result (λ answer. Tells answer bytes.now) }
    ensures every_fault { (number : ℕ) (why : ScriptWhy) → IsBadAt bytes.now number why
        → IsErrAnd result (λ answer. (answer ≡ ScriptAnswer.Memory)
        ⊎ (answer ≡ ScriptAnswer.Bad number why)) }
{
    judge(alloc, bytes, Seq::new(alloc))
}

/// How many lines a script of at most 4,294,967,294 bytes has. It keeps one line at a time; `Bad` comes as from
/// `parse_script`.
pub fn count_lines(alloc: Global, bytes: &[u8]) -> Result<u32, ScriptAnswer>
    requires { length bytes.now ≤ 4294967294 }

    // What is counted are the lines that are spelled, unless memory runs out.
    ensures lines { IfOk result (CountsScript bytes.now) }
    ensures every_script { (lines : List Line) → IsScriptOf lines bytes.now
        → MatchResult result (λ count. count ≡ length lines)
        (λ answer. answer ≡ ScriptAnswer.Memory) }

    // What is told to be bad is the least bad line, and the least bad line is told, unless memory runs out.
    ensures fault { IfErr result (λ answer. Tells answer bytes.now) }
    ensures every_fault { (number : ℕ) (why : ScriptWhy) → IsBadAt bytes.now number why
        → IsErrAnd result (λ answer. (answer ≡ ScriptAnswer.Memory)
        ⊎ (answer ≡ ScriptAnswer.Bad number why)) }
{
    judge(alloc, bytes, 0u32)
}
