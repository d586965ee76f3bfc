use crate::format_expr_tests::parsed;
use ais_values::{Seq, StreamKind};
use record_scan::{find_records, record_length, separable};
use std::alloc::Global;
use std::process::Abort;

const QUOTED: &[u8] = b"@Cr @Sv \"@Cb\"";

/// A record of 32 bytes by it.
const RECORD: &[u8] = b"         1 IN \"a\"              \n";

/// Token numbers, wanted texts, and the numbers of the records found.
const QUOTED_ROWS: &str = "2`IN`1,;2`ER`;1`         1`1,;1`1`;3`a`1,;4`a`;0`a`";

/// Four records of eight bytes, of which the third is unreadable, and a torn tail.
const SHORT: &[u8] = b"IN<a>  \nER<IN> \nIN(a)  \nIN<a b>\nIN<a>";

/// The same as lines.
const LINES: &[u8] = b"IN<a>\nER<IN>\nIN(a)\nIN<a b>\nIN<a>";

const SHORT_ROWS: &str = "1`IN`1,4,;2`IN`2,;2`a b`4,;2`a`1,;1`IN<`";

/// The numbers found.
fn found(
    rt: &impl Abort,
    alloc: Global,
    text: &[u8],
    size: u32,
    bytes: &[u8],
    token: u32,
    wanted: &[u8],
) -> Seq<u32> {
    let expr = parsed(rt, alloc, StreamKind::System, text);
    match separable(&expr, size) {
        Ok(()) => {}
        Err(refusal) => panic!(rt; "{refusal:?}"),
    }
    assert!(rt; bytes.len() <= 4_294_967_294);
    let numbers = find_records(alloc, &expr, size, bytes, token, wanted).expect(rt, "memory");
    drop(expr);
    numbers
}

/// Numbers in words, with a comma behind each.
fn words_of(rt: &impl Abort, alloc: Global, numbers: Seq<u32>) -> String {
    let mut told = String::new(alloc);
    for number in numbers.as_slice() {
        let part = format!(in alloc; "{number},").expect(rt, "memory");
        told.push_str(part.as_str()).expect(rt, "memory");
    }
    drop(numbers);
    told
}

fn check_row(rt: &impl Abort, alloc: Global, text: &[u8], size: u32, bytes: &[u8], row: &str) {
    let (token, rest) = row.split_once('`').expect(rt, "a token");
    let (wanted, want) = rest.split_once('`').expect(rt, "a text and numbers");
    let token: u32 = token.parse().ok().expect(rt, "a number");
    let numbers = found(rt, alloc, text, size, bytes, token, wanted.as_bytes());
    let told = words_of(rt, alloc, numbers);
    assert!(rt; told.as_str() == want, "{row}: {told}");
}

#[test]
fn a_record_is_found_by_the_text_of_a_token(rt: HostRuntime) {
    let alloc = rt.alloc();
    for row in QUOTED_ROWS.split(';') {
        check_row(&rt, alloc, QUOTED, 32, RECORD, row);
    }
}

#[test]
fn records_are_numbered_as_they_stand(rt: HostRuntime) {
    let alloc = rt.alloc();
    for row in SHORT_ROWS.split(';') {
        check_row(&rt, alloc, b"@Sv<@Cb>", 8, SHORT, row);
        check_row(&rt, alloc, b"@Sv<@Cb>", 0, LINES, row);
    }
    check_row(&rt, alloc, b"@Sv<@Cb>", 8, b"", "1`IN`");
}

#[test]
fn records_have_their_size_or_end_with_their_line(rt: HostRuntime) {
    let rows: [(u32, &[u8], Option<usize>); 6] = [
        (8, SHORT, Some(8)),
        (8, b"IN<a> \n", None),
        (0, LINES, Some(6)),
        (0, b"\n", Some(1)),
        (0, b"IN<a>", None),
        (1, b"", None),
    ];
    for (size, bytes, length) in rows {
        assert!(rt; record_length(size, bytes) == length, "{bytes:?}");
    }
}
