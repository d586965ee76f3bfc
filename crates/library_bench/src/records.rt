//! Many records are printed by the system stream's default expression at 256 bytes. `bench/records` measures it.
ghost use Rattle.std.specs.Prelude.{IfOk, IsTrue};
ghost use Rattle.record_print.specs.Printing.{can_print};

use ais_values::{ClassId, Name, StreamKind, Text};
use format_expr::{Expr, parse_expr};
use record_print::{Header, LogRecord, print_record};
use std::alloc::{AllocError, Global};

const EXPRESSION: &[u8] = b"@Cr @Ch:@Cn:@Cs @Cm/@Cd/@CY @Sv @Sl \"@Cb\"";

/// The time of the first record, 2024-01-01T00:00:00 UTC; each later one is a second later.
const START: i64 = 1_704_067_200_000_000_000;

const SECOND: i64 = 1_000_000_000;

/// The record of this number.
pub fn record_of(alloc: Global, number: u32) -> Result<LogRecord, AllocError>
    ensures { IfOk result (λ made. IsTrue (can_print made)) }
{
    let Ok(user) = Name::new(alloc, b"safApp=web") else {
        return Err(AllocError);
    };
    let class = ClassId {
        vendor: 1,
        major: 2,
        minor: 3,
    };
    let severity = 6;
    let header = Header::Generic {
        class,
        user,
        severity,
    };
    let body = Text::from_vec(b"service started".to_vec(alloc)?);
    let time = START + SECOND * i64::from(number % 1_000_000);
    Ok(LogRecord { time, header, body })
}

// How many bytes the records have, and the sum of their bytes.
fn print_each(alloc: Global, expr: &Expr, count: u32) -> Result<(u64, u64), AllocError> {
    let mut bytes = 0u64;
    let mut sum = 0u64;
    for number in 0..count {
        let rec = record_of(alloc, number)?;
        let text = print_record(alloc, expr, number, &rec, 256)?;
        bytes = bytes.wrapping_add(text.as_slice().len() as u64);
        for byte in text.as_slice() {
            sum = sum.wrapping_add(u64::from(*byte));
        }
    }
    Ok((bytes, sum))
}

/// How many bytes the records of these numbers have, and the sum of their bytes.
pub fn print_all(alloc: Global, count: u32) -> Result<(u64, u64), AllocError> {
    match parse_expr(alloc, StreamKind::System, EXPRESSION) {
        Ok(expr) => print_each(alloc, &expr, count),
        Err(_) => Err(AllocError),
    }
}
