//! The commands `scan` and `find`: the records of a file, with the texts of an expression's tokens.
ghost use Rattle.std.specs.Prelude.{◌≡◌, ◌≤◌, List, ℕ, length, IfOk};
ghost use Rattle.format_expr.specs.declared.fault.ExprFault.{ExprFault};
ghost use Rattle.format_expr.specs.Faults.{IsFault};
ghost use Rattle.record_scan.specs.Separable.{IsSeparable};
ghost use Rattle.scan_lines.specs.Lines.{rest_line};
ghost use Rattle.scan_lines.specs.Telling.{TellsFront};
ghost use Rattle.played_runs.specs.Edges.{edge, fault_count};
ghost use Rattle.played_runs.specs.Writing.{Ended, IsNone, IsText, Written, unasked};
ghost use Rattle.text_commands.specs.Scanning.{IsExprOf};
ghost use Rattle.text_commands.specs.ScanSteps.{ExpressionRead, RecordEnds, RecordGives, RecordsEnd, ScannedBy, SourceEnds, SourceLacks};

use crate::ending::{bad_text, inseparable};
use commands::RecordQuery;
use format_expr::{Expr, ExprAnswer, parse_expr};
use io_edge::{Sink, Source, read_all, write_all};
use played_runs::{End, Status8, unwritten, write_text};
use record_scan::{record_length, separable};
use scan_lines::{Shown, record_line, rest_line};
use script_inputs::{INPUT_LIMIT, write_unread};
use std::alloc::{AllocError, Global};

/// What a text gave.
#[derive(Drop)]
pub enum Expression {
    /// An expression of whose tokens the texts can be told apart.
    Parted(Expr),
    /// The end of a run that is given no such text.
    Refused(End),
}

// The expression, where the texts of its tokens can be told apart in records of the size.
fn parted(alloc: Global, query: RecordQuery, expr: Expr) -> Result<Expression, AllocError>
    ensures { (text : List ℕ) → IsExprOf query.kind expr.pieces text
        → IfOk result (ExpressionRead query text) }
{
    match separable(&expr, query.size) {
        Ok(()) => Ok(Expression::Parted(expr)),
        Err(refusal) => {
            drop(expr);
            let end = inseparable(alloc, refusal.piece)?;
            Ok(Expression::Refused(end))
        }
    }
}

// The end of a run that is given a text with this fault. `Err` where memory ran out, here or before.
fn refused(alloc: Global, query: RecordQuery, answer: ExprAnswer) -> Result<Expression, AllocError>
    ensures { (text : List ℕ) → ((fault : ExprFault) → answer ≡ ExprAnswer.Bad fault
        → IsFault query.kind text fault) → IfOk result (ExpressionRead query text) }
{
    match answer {
        ExprAnswer::Memory => Err(AllocError),
        ExprAnswer::Bad { fault } => {
            let end = bad_text(alloc, fault)?;
            Ok(Expression::Refused(end))
        }
    }
}

// The expression that a text is, or the end of a run that is given a text that does not serve. A fault is found without memory.
fn read_text(alloc: Global, query: RecordQuery, text: &[u8]) -> Result<Expression, AllocError>
    ensures { IfOk result (ExpressionRead query text.now) }
{
    match parse_expr(alloc, query.kind, text) {
        Ok(expr) => {
            let read = parted(alloc, query, expr)?;
            Ok(read)
        }
        Err(answer) => refused(alloc, query, answer),
    }
}

// Writes what is printed of one record. `Err` has the status that the run ends with.
fn write_record<K: Sink>(
    alloc: Global,
    expr: &Expr,
    query: RecordQuery,
    wanted: &[u8],
    number: u32,
    bytes: &[u8],
    out: &mut K,
) -> Result<(), Status8>
    requires { IsSeparable expr.now.pieces query.size }
    ensures { RecordGives (RecordEnds query expr.now.pieces wanted.now number bytes.now)
        (edge K.written K.faults out.old out.new) result }
{
    match record_line(alloc, expr, query.size, query.shown, wanted, number, bytes) {
        Ok(line) => match write_all(out, line.as_slice()) {
            Ok(()) => Ok(()),
            Err(answer) => Err(unwritten(answer)),
        },
        Err(_) => Err(Status8::Memory),
    }
}

// Writes what is printed of the bytes behind the last record, with which the run is done.
fn write_rest<K: Sink>(alloc: Global, shown: Shown, rest: &[u8], out: &mut K) -> Status8
    ensures { Written (IsText Status8.Done (rest_line shown rest.now)) IsNone
        (edge K.written K.faults out.old out.new) result }
{
    match rest_line(alloc, shown, rest) {
        Ok(line) => write_text(out, Status8::Done, line.as_slice()),
        Err(_) => Status8::Memory,
    }
}

// Writes what is printed of the records of these bytes, one after another, and of what is left.
fn write_records<K: Sink>(
    alloc: Global,
    expr: &Expr,
    query: RecordQuery,
    wanted: &[u8],
    bytes: &[u8],
    out: &mut K,
) -> Status8
    requires separable { IsSeparable expr.now.pieces query.size }
    requires short { length bytes.now ≤ 16777216 }
    ensures { Written (RecordsEnd query expr.now.pieces wanted.now bytes.now)
        (TellsFront query.shown expr.now.pieces query.size wanted.now bytes.now)
        (edge K.written K.faults out.old out.new) result }
{
    let mut number: u32 = 0;
    let mut rest = bytes;
    while let Some(length) = record_length(query.size, rest) {
        number += 1;
        match write_record(alloc, expr, query, wanted, number, &rest[..length], out) {
            Ok(()) => {}
            Err(status) => return status,
        }
        rest = &rest[length..];
    }
    write_rest(alloc, query.shown, rest, out)
}

// Reads the source to its end, and writes what is printed of its records.
fn scan_source<S: Source, K: Sink>(
    alloc: Global,
    expr: &Expr,
    query: RecordQuery,
    wanted: &[u8],
    source: &mut S,
    out: &mut K,
) -> Status8
    requires { IsSeparable expr.now.pieces query.size }
    ensures { let source = edge S.left S.faults source.old source.new
        in Ended (fault_count source) unasked (SourceEnds query expr.now.pieces wanted.now source)
        (SourceLacks query expr.now.pieces wanted.now source)
        (edge K.written K.faults out.old out.new) result }
{
    match read_all(alloc, source, INPUT_LIMIT) {
        Ok(bytes) => write_records(alloc, expr, query, wanted, bytes.as_slice(), out),
        Err(answer) => write_unread(out, answer),
    }
}

/// Reads the source to its end, and writes a line of each of its records that is asked for, with the texts that the
/// tokens of the expression have in it; where each is asked for, also one of the bytes that are left.
///
/// A text that is no expression, and one of whose tokens the texts cannot be told apart, are refused before the
/// source is read. The bytes are held as they were read; of the lines one at a time.
pub fn scan<S: Source, K: Sink>(
    alloc: Global,
    query: RecordQuery,
    text: &[u8],
    wanted: &[u8],
    source: &mut S,
    out: &mut K,
) -> Status8
    ensures { ScannedBy query text.now wanted.now (edge S.left S.faults source.old source.new)
        (edge K.written K.faults out.old out.new) result }
{
    match read_text(alloc, query, text) {
        Ok(Expression::Parted(expr)) => {
            let status = scan_source(alloc, &expr, query, wanted, source, out);
            drop(expr);
            status
        }
        Ok(Expression::Refused(end)) => write_text(out, end.status, end.text.as_slice()),
        Err(_) => Status8::Memory,
    }
}
