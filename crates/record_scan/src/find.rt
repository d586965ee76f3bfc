//! The records of a file's bytes, and those with a wanted text.
ghost use Rattle.std.specs.Prelude.{◌≢◌, ◌≤◌, ◌<◌, ℕ, length, take, slice_index, IfOk, IfSome};
ghost use Rattle.std.specs.Option.{MatchOption};
ghost use Rattle.std.specs.Bool.{Decides};
ghost use Rattle.record_scan.specs.Separable.{IsSeparable};
ghost use Rattle.record_scan.specs.Numbers.{IsLine, IsRecord, IsRest, IsTextAt, HasText, AreFound};

use crate::scan_record;
use ais_values::Seq;
use format_expr::Expr;
use std::alloc::{AllocError, Global};

/// How many bytes the first line has with its line feed.
fn line_length(bytes: &[u8]) -> Option<usize>
    ensures line { MatchOption result
        ((k : ℕ) → k < length bytes.now → slice_index bytes.now k ≢ 10)
        (λ long. IsLine (take long bytes.now)) }
    ensures inside { IfSome result (λ long. long ≤ length bytes.now) }
{
    for (place, byte) in bytes.iter().enumerate() {
        if *byte == b'\n' {
            return Some(place + 1);
        }
    }
    None
}

/// How many bytes the first record has: the size, or with size 0 those up to the first line feed and with it. It
/// takes no memory.
///
/// None comes exactly where no record is there.
pub fn record_length(size: u32, bytes: &[u8]) -> Option<usize>
    ensures first { MatchOption result (IsRest size bytes.now)
        (λ long. IsRecord size (take long bytes.now)) }
    ensures inside { IfSome result (λ long. long ≤ length bytes.now) }
    ensures some { IfSome result (λ long. 0 < long) }
{
    if size == 0 {
        return line_length(bytes);
    }
    if bytes.len() < size as usize {
        None
    } else {
        Some(size as usize)
    }
}

/// Whether the text of this number, counted from 1, is the wanted one. It takes no memory.
pub fn is_text(texts: &[Seq<u8>], token: u32, wanted: &[u8]) -> bool
    ensures { Decides result (IsTextAt token wanted.now texts.now) }
{
    if token == 0 {
        return false;
    }
    match texts.get(token as usize - 1) {
        Some(text) => text.as_slice() == wanted,
        None => false,
    }
}

/// Whether the token of this number, counted from 1, has the wanted text in a record.
fn has_text(
    alloc: Global,
    expr: &Expr,
    size: u32,
    bytes: &[u8],
    token: u32,
    wanted: &[u8],
) -> Result<bool, AllocError>
    requires { IsSeparable expr.now.pieces size }
    ensures { IfOk result (λ found. Decides found
        (HasText expr.now.pieces size token wanted.now bytes.now)) }
{
    match scan_record(alloc, expr, size, bytes)? {
        Some(texts) => {
            let found = is_text(texts.as_slice(), token, wanted);
            drop(texts);
            Ok(found)
        }
        None => Ok(false),
    }
}

/// The numbers, counted from 1 and in order, of the records of these bytes in which the token of this number,
/// counted from 1, has the wanted text. A token that the expression does not have has no text.
///
/// The bytes are gone through once, and the texts of one record at a time are kept.
pub fn find_records(
    alloc: Global,
    expr: &Expr,
    size: u32,
    bytes: &[u8],
    token: u32,
    wanted: &[u8],
) -> Result<Seq<u32>, AllocError>
    requires separable { IsSeparable expr.now.pieces size }
    requires bound { length bytes.now ≤ 4_294_967_294 }
    ensures { IfOk result (AreFound expr.now.pieces size token wanted.now bytes.now) }
{
    let mut found = Vec::new(alloc);
    let mut number: u32 = 0;
    let mut rest = bytes;
    while let Some(length) = record_length(size, rest) {
        number += 1;
        if has_text(alloc, expr, size, &rest[..length], token, wanted)? {
            found.push(number)?;
        }
        rest = &rest[length..];
    }
    Ok(Seq::from_vec(found))
}
