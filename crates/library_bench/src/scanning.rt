//! Many records of 256 bytes are printed, and gone through 20 times for those with a wanted text. `bench/scan` measures it.
use crate::records::record_of;
use ais_values::StreamKind;
use format_expr::{Expr, parse_expr};
use record_print::print_record;
use record_scan::{find_records, separable};
use std::alloc::{AllocError, Global};

/// The system stream's own expression, with a width for the user, so that one token alone is variable.
const SYSTEM: &[u8] = b"@Cr @Ch:@Cn:@Cs @Cm/@Cd/@CY @Sv @Sl12 \"@Cb\"";

const CLASS_C: &[u8] = b"@Cr @Ct @Ch@Cn@Cs@Ca @Cm@CM@Cd@CD@Cy@CY @Cc@Cx @Ci30 \"@Cb\"";

/// How often the records are gone through.
const ROUNDS: u32 = 20;

// The records of these numbers, one after another.
fn print_all(alloc: Global, expr: &Expr, count: u32) -> Result<Vec<u8>, AllocError> {
    let mut bytes = Vec::new(alloc);
    for number in 0..count {
        let rec = record_of(alloc, number)?;
        let line = print_record(alloc, expr, number, &rec, 256)?;
        drop(rec);
        bytes.extend_from_slice(line.as_slice())?;
    }
    Ok(bytes)
}

// How many records have the text in their fourth token, and how many bytes were gone through.
fn find_all(alloc: Global, expr: &Expr, bytes: &[u8]) -> Result<(u64, u64), AllocError> {
    match separable(expr, 256) {
        Ok(()) if bytes.len() <= 4_294_967_294 => {}
        _ => return Ok((0, 0)),
    }
    let mut found = 0u64;
    let mut gone = 0u64;
    for _ in 0..ROUNDS {
        let numbers = find_records(alloc, expr, 256, bytes, 4, b"00")?;
        found = found.wrapping_add(numbers.as_slice().len() as u64);
        gone = gone.wrapping_add(bytes.len() as u64);
    }
    Ok((found, gone))
}

/// How many of the records of these numbers are found, and how many bytes were gone through; on request by an expression that has each
/// token of class C.
pub fn search(alloc: Global, class_c: bool, count: u32) -> Result<(u64, u64), AllocError> {
    let text = if class_c { CLASS_C } else { SYSTEM };
    match parse_expr(alloc, StreamKind::System, text) {
        Ok(expr) => {
            let bytes = print_all(alloc, &expr, count)?;
            find_all(alloc, &expr, bytes.as_slice())
        }
        Err(_) => Err(AllocError),
    }
}
