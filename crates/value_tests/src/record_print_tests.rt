use ais_values::{ClassId, Duplicate, Name, Status, StreamKind, Text, UNKNOWN_TIME};
use format_expr::{Expr, parse_expr};
use record_print::{
    Header, LogRecord, check_write, is_printable, notified_length, parts_length, print_record,
    printed_length,
};
use std::alloc::Global;
use std::process::Abort;

/// The first second of 2024.
const T: i64 = 1_704_067_200_000_000_000;

const HOUR: i64 = 3_600_000_000_000;

const CLASS: ClassId = ClassId {
    vendor: 0xabcd,
    major: 2,
    minor: 0xffff,
};

fn name(rt: &impl Abort, alloc: Global, bytes: &[u8]) -> Name {
    Name::new(alloc, bytes).expect(rt, "a name")
}

fn text(rt: &impl Abort, alloc: Global, bytes: &[u8]) -> Text {
    Text::new(alloc, bytes).expect(rt, "a text")
}

fn generic(rt: &impl Abort, alloc: Global, time: i64, severity: u16, body: &[u8]) -> LogRecord {
    LogRecord {
        time,
        header: Header::Generic {
            class: CLASS,
            user: name(rt, alloc, b"safApp=web"),
            severity,
        },
        body: text(rt, alloc, body),
    }
}

/// A record at the first second of 2024.
fn notified(
    rt: &impl Abort,
    alloc: Global,
    event_time: i64,
    event_type: u16,
    object: &[u8],
) -> LogRecord {
    LogRecord {
        time: T,
        header: Header::Ntf {
            id: 0x2a,
            event_type,
            object: name(rt, alloc, object),
            notifier: name(rt, alloc, b"hw"),
            class: CLASS,
            event_time,
        },
        body: text(rt, alloc, b"fan"),
    }
}

/// A copy of a record, which is let go.
fn copied(rt: &impl Abort, alloc: Global, rec: LogRecord) -> LogRecord {
    let copy = rec.copy(alloc).expect(rt, "memory");
    drop(rec);
    copy
}

/// Whether the line is this text, padded with spaces, and a line feed.
fn is_line(line: &[u8], want: &[u8]) -> bool {
    match (line.strip_prefix(want), line.last()) {
        (Some(rest), Some(b'\n')) => rest.iter().filter(|byte| **byte != b' ').count() == 1,
        _ => false,
    }
}

/// Whether the printed record is this text, in so many bytes.
fn prints(
    rt: &impl Abort,
    alloc: Global,
    rec: LogRecord,
    number: u32,
    size: u32,
    kind: StreamKind,
    expr: &[u8],
    want: &[u8],
) -> bool {
    let expr = parse_expr(alloc, kind, expr).ok().expect(rt, "parsed");
    assert!(rt; size >= 32 && size <= 16_384 && is_printable(&rec));
    let line = print_record(alloc, &expr, number, &rec, size).expect(rt, "memory");
    drop(expr);
    drop(rec);
    line.as_slice().len() == size as usize && is_line(line.as_slice(), want)
}

/// Whether a copy of a record of this time is printed as this text.
fn prints_generic(rt: &impl Abort, alloc: Global, time: i64, expr: &[u8], want: &[u8]) -> bool {
    let rec = generic(rt, alloc, time, 6, b"a\x00\x1f\x7f\x80\xffb");
    let copy = copied(rt, alloc, rec);
    prints(rt, alloc, copy, 7, 256, StreamKind::System, expr, want)
}

#[test]
fn generic_records_are_printed(rt: HostRuntime) {
    let table: [(i64, &[u8], &[u8]); 16] = [
        (T, b"@Ch@Ca", b"12am"),
        (T + 12 * HOUR, b"@Ch@Ca", b"12pm"),
        (T + 13 * HOUR, b"@Ca4@Ch", b"pm  01"),
        (T, b"@Ch", b"00"),
        (T + 12 * HOUR, b"@Ch", b"12"),
        (T + 13 * HOUR, b"@Ch", b"13"),
        (T, b"@CD @CM @Ct", b"Mon Jan 0x17a6101701650000"),
        (
            0,
            b"@CD @CM @Cd/@Cm/@CY @Ct",
            b"Thu Jan 01/01/1970 0x0000000000000000",
        ),
        (
            951_782_400_999_999_999,
            b"@CD @CM @Cd/@Cm/@CY @Cy",
            b"Tue Feb 29/02/2000 00",
        ),
        (
            4_107_542_400_000_000_000,
            b"@CD @CM @Cd/@Cm/@CY",
            b"Mon Mar 01/03/2100",
        ),
        (
            9_000_000_000_000_000_000,
            b"@CD @CM @Cd/@Cm/@CY @Cy @Ch:@Cn:@Cs",
            b"Wed Mar 14/03/2255 55 16:00:00",
        ),
        (T + 3_723_000_000_000, b"@Ch:@Cn:@Cs", b"01:02:03"),
        (
            T,
            b"@Cc|@Cc9|@CM1|@CY6|",
            b"NCI[0x0000abcd,0x0002,0xffff]|NCI[0x000|J|2024  |",
        ),
        (
            T,
            b"@Cb|@Ci|@Ci5|@Cb3|",
            b"a...\x80\xffb|61001f7f80ff62|61001|a..|",
        ),
        (T, b"@Sv @Sl3 @Sl \"@Cx\"", b"IN saf safApp=web \"C\""),
        (
            T,
            b"@Cr @Ch:@Cn:@Cs @Cm/@Cd/@CY @Sv @Sl",
            b"         7 00:00:00 01/01/2024 IN safApp=web",
        ),
    ];
    for (time, expr, want) in table {
        let printed = prints_generic(&rt, rt.alloc(), time, expr, want);
        assert!(rt; printed, "{expr:?} at {time}");
    }
}

#[test]
fn numbers_are_padded_and_long_bodies_cut(rt: HostRuntime) {
    let table: [(&[u8], u32, &[u8], &[u8]); 8] = [
        (
            b"@Cx @Cb",
            1,
            b"abcdefghijklmnopqrstuvwxyz0123",
            b"T abcdefghijklmnopqrstuvwxyz012",
        ),
        (
            b"@Cx @Cb",
            1,
            b"abcdefghijklmnopqrstuvwxyz012",
            b"C abcdefghijklmnopqrstuvwxyz012",
        ),
        (
            b"@Cb@Cx3@Cx",
            1,
            b"abcdefghijklmnopqrstuvwxyz01",
            b"abcdefghijklmnopqrstuvwxyz01T",
        ),
        (b"@Cr", 4_294_967_295, b"", b"4294967295"),
        (b"@Cr", 7, b"", b"         7"),
        (b"@Cr4|@Cr1|", 78, b"", b"78  |7|"),
        (b"@Cb255@Cr", 1, b"abc", b"abc"),
        (b"@Cb31@Cr", 1, b"abc", b"abc"),
    ];
    for (expr, number, body, want) in table {
        let rec = generic(&rt, rt.alloc(), T, 0, body);
        let printed = prints(
            &rt,
            rt.alloc(),
            rec,
            number,
            32,
            StreamKind::Application,
            expr,
            want,
        );
        assert!(rt; printed, "{expr:?} of {body:?}");
    }
}

/// A record whose body has so many letters.
fn lettered(rt: &impl Abort, alloc: Global, count: usize) -> LogRecord {
    let body = vec![in alloc; b'x'; count].expect(rt, "memory");
    let rec = generic(rt, alloc, T, 6, body.as_slice());
    drop(body);
    rec
}

/// Whether a line of so many bytes is a mark, a blank, letters and a line feed.
fn is_lettered(line: &[u8], mark: u8, length: usize) -> bool {
    let letters = line.iter().filter(|byte| **byte == b'x').count();
    line.len() == length
        && letters.saturating_add(3) == length
        && line.first() == Some(&mark)
        && line.last() == Some(&b'\n')
}

/// Whether a body of so many letters is printed with record size 0 behind this mark, in so many bytes, which were counted
/// before.
fn prints_freely(rt: &impl Abort, alloc: Global, count: usize, mark: u8, length: u32) -> bool {
    let expr = parse_expr(alloc, StreamKind::System, b"@Cx @Cb").ok();
    let expr = expr.expect(rt, "parsed");
    let rec = lettered(rt, alloc, count);
    assert!(rt; is_printable(&rec));
    let line = print_record(alloc, &expr, 1, &rec, 0).expect(rt, "memory");
    let found = printed_length(&expr, &rec);
    let counted = parts_length(&expr, &rec.header, &rec.body);
    drop(expr);
    drop(rec);
    let same = is_lettered(line.as_slice(), mark, length as usize);
    drop(line);
    same && found == length && counted == length
}

#[test]
fn records_of_size_0_are_as_long_as_their_texts(rt: HostRuntime) {
    for (count, mark, length) in [
        (0, b'C', 3),
        (3, b'C', 6),
        (16_381, b'C', 16_384),
        (16_382, b'T', 16_384),
        (16_384, b'T', 16_384),
    ] {
        let printed = prints_freely(&rt, rt.alloc(), count, mark, length);
        assert!(rt; printed, "{count} letters");
    }
}

#[test]
fn notified_records_are_printed(rt: HostRuntime) {
    let names = [b'n'; 256];
    let table: [(&[u8], &[u8], &[u8]); 6] = [
        (b"@No3", &names, b"nnn"),
        (b"@Ni @Ne @Nt2", b"o", b"0x000000000000002a 0x4001 0x"),
        (b"@Nh@Na @Ch", b"o", b"01pm 00"),
        (b"@Nh @Ch@Ca", b"o", b"13 12am"),
        (
            b"@ND @NM @Nd @Nm @NY @Ny @Nn @Ns",
            b"o",
            b"Mon Jan 01 01 2024 24 00 00",
        ),
        (
            b"@Cr @Ct @Nt @Ne6 @No30 @Ng30 \"@Cb\"",
            b"node1",
            b"         1 0x17a6101701650000 0x17a63aa77ac52000 0x4001 node1                          hw                             \"fan\"",
        ),
    ];
    for (expr, object, want) in table {
        let rec = notified(&rt, rt.alloc(), T + 13 * HOUR, 0x4001, object);
        let copy = copied(&rt, rt.alloc(), rec);
        let printed = prints(&rt, rt.alloc(), copy, 1, 256, StreamKind::Alarm, expr, want);
        assert!(rt; printed, "{expr:?}");
    }
}

/// How many bytes the record of a notification has with size 0, counted of its names and its body.
fn counted(expr: &Expr, rec: &LogRecord) -> u32 {
    match &rec.header {
        Header::Ntf {
            object,
            notifier,
            ..
        } => notified_length(expr, object, notifier, &rec.body),
        Header::Generic { .. } => 0,
    }
}

/// Whether a notification's record is printed with size 0 in so many bytes, which were counted before.
fn notified_freely(
    rt: &impl Abort,
    alloc: Global,
    expr: &[u8],
    object: &[u8],
    length: u32,
) -> bool {
    let expr = parse_expr(alloc, StreamKind::Alarm, expr).ok();
    let expr = expr.expect(rt, "parsed");
    let rec = notified(rt, alloc, T, 0x4001, object);
    assert!(rt; is_printable(&rec));
    let line = print_record(alloc, &expr, 1, &rec, 0).expect(rt, "memory");
    let found = counted(&expr, &rec);
    let parts = parts_length(&expr, &rec.header, &rec.body);
    drop(expr);
    drop(rec);
    let printed = line.as_slice().len() == length as usize;
    drop(line);
    printed && found == length && parts == length
}

#[test]
fn notified_records_of_size_0_are_as_long_as_their_texts(rt: HostRuntime) {
    let table: [(&[u8], &[u8], u32); 5] = [
        (b"@No", b"node1", 6),
        (b"@Ng @No3", b"node1", 7),
        (b"@No@No", &[b'n'; 256], 513),
        (b"@Ni", b"o", 19),
        (b"@Cr @Ct @Nt @Ne6 @No @Ng \"@Cb\"", b"node1", 71),
    ];
    for (expr, object, length) in table {
        let printed = notified_freely(&rt, rt.alloc(), expr, object, length);
        assert!(rt; printed, "{expr:?}");
    }
}

#[test]
fn writes_are_checked_by_time_event_type_and_severity(rt: HostRuntime) {
    let table: [(i64, u16, u16, bool); 8] = [
        (0, 0x1001, 0, true),
        (i64::MAX, 0x5005, 6, true),
        (UNKNOWN_TIME, 0x3001, 3, true),
        (UNKNOWN_TIME + 1, 0x3001, 3, false),
        (-1, 0x3001, 3, false),
        (0, 0x3002, 7, false),
        (0, 0x1000, 65_535, false),
        (0, 0x4006, 7, false),
    ];
    for (time, event_type, severity, fits) in table {
        let own = generic(&rt, rt.alloc(), 0, severity, b"");
        assert!(rt; is_checked(own, time, StreamKind::System, StreamKind::Alarm, fits));
        let other = notified(&rt, rt.alloc(), time, event_type, b"o");
        assert!(rt;
            is_checked(
                other,
                0,
                StreamKind::Notification,
                StreamKind::Application,
                fits
            )
        );
    }
}

/// Whether the header of a record fits a stream of one kind or not, and none of another.
fn is_checked(rec: LogRecord, time: i64, kind: StreamKind, other: StreamKind, fits: bool) -> bool {
    let first = check_write(kind, time, &rec.header).is_ok();
    let second = check_write(other, 0, &rec.header) == Err(Status::InvalidParam);
    drop(rec);
    first == fits && second
}
