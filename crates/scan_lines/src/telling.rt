//! What is printed of one record, and of the bytes behind the last.
ghost use Rattle.std.specs.Prelude.{◌≡◌, ℕ, List, IfOk};
ghost use Rattle.record_scan.specs.Fits.{Fits};
ghost use Rattle.record_scan.specs.Separable.{IsSeparable};
ghost use Rattle.scan_lines.specs.Lines.{rest_line, unread_line};
ghost use Rattle.scan_lines.specs.Telling.{IsTold};

use crate::shown::{Shown, is_shown};
use crate::words::read_line;
use ais_values::Seq;
use format_expr::{Expr, Piece};
use record_scan::scan_record;
use script_printer::{put, put_number};
use std::alloc::{AllocError, Global};

/// What is printed of a record whose tokens have no texts.
#[tactic(auto, using(script_printer::proofs::Chain::chained))]
fn unread_line(alloc: Global, shown: Shown, number: u32) -> Result<Vec<u8>, AllocError>
    ensures { IfOk result (λ line. line.items ≡ unread_line shown number) }
{
    let mut line = Vec::new(alloc);
    match shown {
        Shown::All => {
            put(&mut line, b"rec ")?;
            put_number(&mut line, u64::from(number))?;
            put(&mut line, b" unreadable\n")?;
            Ok(line)
        }
        Shown::Having { .. } => Ok(line),
    }
}

/// What is printed of a record whose tokens have these texts.
fn texts_line(
    alloc: Global,
    pieces: &[Piece],
    shown: Shown,
    wanted: &[u8],
    number: u32,
    texts: &[Seq<u8>],
) -> Result<Vec<u8>, AllocError>
    ensures { IfOk result (λ line. (size : ℕ) (rec : List ℕ)
        → Fits pieces.now size rec texts.now
        → IsTold shown pieces.now size wanted.now number rec line.items) }
{
    if is_shown(shown, wanted, texts) {
        let line = read_line(alloc, pieces, number, texts)?;
        Ok(line)
    } else {
        Ok(Vec::new(alloc))
    }
}

/// What is printed of the record of this number: the line of its texts where they fit and it is to be shown, and
/// nothing where it is not. Where no texts fit, it is a line that says so if each record has one, else nothing.
///
/// `Err` only where memory ran out. Memory is taken for this one record.
pub fn record_line(
    alloc: Global,
    expr: &Expr,
    size: u32,
    shown: Shown,
    wanted: &[u8],
    number: u32,
    bytes: &[u8],
) -> Result<Vec<u8>, AllocError>
    requires { IsSeparable expr.now.pieces size }
    ensures { IfOk result (λ line.
        IsTold shown expr.now.pieces size wanted.now number bytes.now line.items) }
{
    match scan_record(alloc, expr, size, bytes)? {
        Some(texts) => {
            let pieces = expr.pieces.as_slice();
            let told = texts_line(alloc, pieces, shown, wanted, number, texts.as_slice());
            drop(texts);
            let line = told?;
            Ok(line)
        }
        None => {
            let line = unread_line(alloc, shown, number)?;
            Ok(line)
        }
    }
}

/// What is printed of the bytes behind the last record: their number, where there are some and each record has
/// a line, else nothing.
///
/// `Err` only where memory ran out.
#[tactic(auto, using(script_printer::proofs::Chain::chained))]
pub fn rest_line(alloc: Global, shown: Shown, rest: &[u8]) -> Result<Vec<u8>, AllocError>
    ensures { IfOk result (λ line. line.items ≡ rest_line shown rest.now) }
{
    let mut line = Vec::new(alloc);
    match shown {
        Shown::All => {
            if rest.is_empty() {
                return Ok(line);
            }
            put(&mut line, b"rest ")?;
            put_number(&mut line, rest.len() as u64)?;
            put(&mut line, b"\n")?;
            Ok(line)
        }
        Shown::Having { .. } => Ok(line),
    }
}
