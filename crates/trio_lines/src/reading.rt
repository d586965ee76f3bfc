//! Reading of whole scripts for three servers.
ghost use Rattle.std.specs.Prelude.{◌≡◌, ◌+◌, ◌≤◌, ◌⊎◌, ℕ, List, ◌∷◌, length};
ghost use Rattle.std.specs.Prelude.{OnOk, IfOk, IfErr, MatchOption, MatchResult, IsErrAnd};
ghost use Rattle.script_lines.specs.declared.line.Line.{Line};
ghost use Rattle.script_language.specs.Scripts.{raw_lines};
ghost use Rattle.trio_lines.specs.Scripts.{AreMasked, IsTrioOf, IsBadTrioAt};
ghost use Rattle.trio_lines.specs.Answers.{TellsTrio, JudgesTrio};
ghost use Rattle.trio_lines.specs.Weaving.{BeginsOwn, PutsMasked, Fits, IsWoven, Weaves};

use crate::line::TrioLine;
use crate::own::{is_own, own_line};
use ais_values::Seq;
use script::{first_line, parse_script, skips};
use script_lines::{Line, ScriptAnswer, ScriptWhy};
use script_printer::put;
use std::alloc::{AllocError, Global};
use std::vec::IntoIter;

/// The number of the first line that is not skipped, where it is an own one.
fn early_line(bytes: &[u8]) -> Option<u32>
    requires { length bytes.now ≤ 4294967293 }
    ensures { MatchOption result ((number : ℕ) → BeginsOwn 1 (raw_lines bytes.now) number → ⊥)
        (λ number. BeginsOwn 1 (raw_lines bytes.now) number) }
{
    let mut rest = bytes;
    let mut number = 1u32;
    'lines: while !rest.is_empty() {
        let (raw, after) = first_line(rest);
        if is_own(raw) {
            return Some(number);
        }
        if !skips(raw) {
            return None;
        }
        rest = after;
        number += 1;
    }
    None
}

/// Adds a line, or `#` where it is an own one, with its LF.
fn put_masked(out: &mut Vec<u8>, raw: &[u8]) -> Result<(), AllocError>
    ensures { OnOk result (PutsMasked raw.now out.old.items out.new.items) }
{
    if is_own(raw) {
        put(out, b"#\n")
    } else {
        put(out, raw)?;
        put(out, b"\n")
    }
}

/// The bytes with `#` in the place of each own line, and an LF behind the last line, too.
fn masked(alloc: Global, bytes: &[u8]) -> Result<Vec<u8>, AllocError>
    ensures masks { IfOk result (λ masked. AreMasked bytes.now masked.items) }
    ensures room { IfOk result (λ masked. length masked.items ≤ length bytes.now + 1) }
{
    let mut out = Vec::new(alloc);
    let mut rest = bytes;
    'lines: while !rest.is_empty() {
        let (raw, after) = first_line(rest);
        put_masked(&mut out, raw)?;
        rest = after;
    }
    Ok(out)
}

/// Adds the line that some bytes spell, the next of the shared ones where it is no own one. A skipped one adds none.
fn weave(lines: &mut Seq<TrioLine>, left: &mut IntoIter<Line>, raw: &[u8]) -> Result<(), AllocError>
    ensures { OnOk result ((shared : List Line) (all raws : List (List ℕ)) →
        Weaves shared all lines.old left.old (raw.now ∷ raws)
        → Weaves shared all lines.new left.new raws) }
{
    if skips(raw) {
        return Ok(());
    }
    if let Some(line) = own_line(raw) {
        lines.push(line)?;
        return Ok(());
    }
    match left.next() {
        Some(line) => {
            lines.push(TrioLine::Plain { line })?;
            Ok(())
        }
        None => Ok(()),
    }
}

/// The lines of the bytes, of which these are the shared ones.
fn woven(alloc: Global, bytes: &[u8], shared: Seq<Line>) -> Result<Seq<TrioLine>, AllocError>
    requires { Fits shared (raw_lines bytes.now) }
    ensures { IfOk result (λ lines. IsWoven lines shared (raw_lines bytes.now)) }
{
    let mut lines = Seq::new(alloc);
    let mut left = shared.into_vec().into_iter();
    let mut rest = bytes;
    'lines: while !rest.is_empty() {
        let (raw, after) = first_line(rest);
        weave(&mut lines, &mut left, raw)?;
        rest = after;
    }
    Ok(lines)
}

/// The lines that the bytes spell, or the least bad line.
fn judge(alloc: Global, bytes: &[u8]) -> Result<Seq<TrioLine>, ScriptAnswer>
    requires { length bytes.now ≤ 4294967293 }
    ensures { JudgesTrio result bytes.now }
{
    if let Some(line) = early_line(bytes) {
        return Err(ScriptAnswer::Bad {
            line,
            why: ScriptWhy::Cluster,
        });
    }
    let masked = masked(alloc, bytes)?;
    let parsed = parse_script(alloc, masked.as_slice());
    drop(masked);
    match parsed {
        Ok(shared) => {
            let lines = woven(alloc, bytes, shared)?;
            Ok(lines)
        }
        Err(answer) => Err(answer),
    }
}

/// Reads a script for three servers, of at most 4,294,967,293 bytes. It takes room for a copy of the bytes while it reads them.
///
/// `crash c`, `arm c K`, `restart c`, `mirror S` and `ack S` are own lines of three servers, where S is `a`, `b` or `c` and K is
/// at least 1 and fits 64 bits. With `#` in the place of each of them the bytes are to be a script for two servers, and the
/// `cluster` line stands above them all.
///
/// `Bad` comes exactly where this is not so. It names the least bad line, counted from 1 over all lines, and the first reason
/// that holds of it, as `parse_script` has them; of an own line with no `cluster` line above it `Cluster`.
pub fn parse_trio(alloc: Global, bytes: &[u8]) -> Result<Seq<TrioLine>, ScriptAnswer>
    requires { length bytes.now ≤ 4294967293 }

    // What is read is spelled so, and what is spelled so is read, unless memory runs out.
    ensures lines { IfOk result (λ lines. IsTrioOf lines bytes.now) }
    ensures every_script { (lines : List TrioLine) → IsTrioOf lines bytes.now
        → MatchResult result (λ found. found ≡ lines) (λ answer. answer ≡ ScriptAnswer.Memory) }

    // What is told to be bad is the least bad line, and the least bad line is told, unless memory runs out.
    ensures fault { IfErr result (λ answer. TellsTrio answer bytes.now) }
    ensures every_fault { (number : ℕ) (why : ScriptWhy) → IsBadTrioAt bytes.now number why
        → IsErrAnd result (λ answer. (answer ≡ ScriptAnswer.Memory)
        ⊎ (answer ≡ ScriptAnswer.Bad number why)) }
{
    judge(alloc, bytes)
}
