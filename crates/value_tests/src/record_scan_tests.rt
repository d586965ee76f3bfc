use crate::format_expr_tests::parsed;
use ais_values::{ClassId, Name, Seq, StreamKind, Text};
use format_expr::Expr;
use record_print::{Header, LogRecord, is_printable, print_record};
use record_scan::{is_text, scan_record, separable};
use std::alloc::Global;
use std::process::Abort;

/// The first second of 2024.
const T: i64 = 1_704_067_200_000_000_000;

const CLASS: ClassId = ClassId {
    vendor: 0xabcd,
    major: 2,
    minor: 0xffff,
};

/// Plain text that leaves one byte of a record of 32.
const FRONT: &str = "------------------------------";

/// Tokens, their texts without a width, and with 5 places.
const GENERIC_TOKENS: &str = "\
    Cr/         7/7    \n\
    Ct/0x17a6101701650000/0x17a\n\
    Ch/00/00   \n\
    Cn/00/00   \n\
    Cs/00/00   \n\
    Ca/am/am   \n\
    Cm/01/01   \n\
    CM/Jan/Jan  \n\
    Cd/01/01   \n\
    CD/Mon/Mon  \n\
    Cy/24/24   \n\
    CY/2024/2024 \n\
    Cc/NCI[0x0000abcd,0x0002,0xffff]/NCI[0\n\
    Cx/C/C    \n\
    Cb/a  /a    \n\
    Ci/612020/61202\n\
    Sl/safApp=web/safAp\n\
    Sv/IN/IN   ";

const NOTIFIED_TOKENS: &str = "\
    Nt/0x17a6101701650000/0x17a\n\
    Nh/00/00   \n\
    Nn/00/00   \n\
    Ns/00/00   \n\
    Na/am/am   \n\
    Nm/01/01   \n\
    NM/Jan/Jan  \n\
    Nd/01/01   \n\
    ND/Mon/Mon  \n\
    Ny/24/24   \n\
    NY/2024/2024 \n\
    Ni/0x000000000000002a/0x000\n\
    Ne/0x4001/0x400\n\
    No/node1/node1\n\
    Ng/hw/hw   ";

/// Expressions, records of 8 bytes by them, and the texts: any bytes in a fixed token's places, a line feed among them.
const READ: &str =
    "<@Cb>`< ab  >\n` ab  ;<@Cb>`<ab>   \n`ab;<@Sv>`<\n >   \n`\n ;@Sv`IN     \n`IN;@Cb.`.      \n`";

/// The same without texts: no line feed at the end, a record too long and one too short, another plain text, other
/// bytes than spaces behind the texts.
const UNREAD: &str =
    "<@Cb>`<ab>    ;<@Cb>`<ab>    \n;<@Cb>`<ab>  \n;<@Cb>`[ab>   \n;<@Sv>`<IN>  x\n;<@Cb>`<ab>  x\n;<@Cb>`";

/// Records of size 0: no spaces stand behind the texts that belong to none.
const READ_LINES: &str = "@Cb`a  \n`a  ;@Cb`\n`;@Sv`IN\n`IN";

const UNREAD_LINES: &str = "@Sv`IN \n;@Sv`IN;@Cb`";

/// Expressions, and the first piece in the way in records of 32 bytes; 0 where there is none.
const PIECES: &str =
    "@Sl @Cb`3;@Sl10 @Cb`3;@Sl10 @Cb `4;@Sl10 @Cb.`0;@Cb @Sv`3;@Sv @Cr`0;@Cb.@Ci.@Sl.`3;.`0";

/// And with size 0.
const PIECES_OF_LINES: &str = "@Sl @Cb`3;@Sl10 @Cb`0;@Cb @Sv`0";

/// A record of the kind, whose body ends in two blanks.
fn record_of(rt: &impl Abort, alloc: Global, kind: StreamKind) -> LogRecord {
    let header = match kind {
        StreamKind::Alarm | StreamKind::Notification => Header::Ntf {
            id: 0x2a,
            event_type: 0x4001,
            object: Name::new(alloc, b"node1").expect(rt, "a name"),
            notifier: Name::new(alloc, b"hw").expect(rt, "a name"),
            class: CLASS,
            event_time: T,
        },
        StreamKind::System | StreamKind::Application => Header::Generic {
            class: CLASS,
            user: Name::new(alloc, b"safApp=web").expect(rt, "a name"),
            severity: 6,
        },
    };
    LogRecord {
        time: T,
        header,
        body: Text::from_vec(b"a  ".to_vec(alloc).expect(rt, "memory")),
    }
}

fn printed(rt: &impl Abort, alloc: Global, kind: StreamKind, expr: &Expr, size: u32) -> Text {
    let rec = record_of(rt, alloc, kind);
    assert!(rt; size >= 32 && size <= 16_384 && is_printable(&rec));
    let line = print_record(alloc, expr, 7, &rec, size).expect(rt, "memory");
    drop(rec);
    line
}

/// Whether the texts are this one alone, with the number 1.
fn is_alone(texts: Seq<Seq<u8>>, want: &[u8]) -> bool {
    let all = texts.as_slice();
    let alone = match all {
        [text] => text.as_slice() == want && is_text(all, 1, want) && !is_text(all, 0, want),
        _ => false,
    };
    drop(texts);
    alone
}

/// Whether this text alone is read, or nothing where none is wanted.
fn reads(
    rt: &impl Abort,
    alloc: Global,
    expr: &Expr,
    size: u32,
    bytes: &[u8],
    want: Option<&[u8]>,
) -> bool {
    match separable(expr, size) {
        Ok(()) => {}
        Err(_) => return false,
    }
    match (
        scan_record(alloc, expr, size, bytes).expect(rt, "memory"),
        want,
    ) {
        (Some(texts), Some(want)) => is_alone(texts, want),
        (Some(texts), None) => {
            drop(texts);
            false
        }
        (None, want) => want.is_none(),
    }
}

/// Whether a printed record of an expression with one token is read back as the text.
fn reads_back(
    rt: &impl Abort,
    alloc: Global,
    kind: StreamKind,
    text: &str,
    size: u32,
    want: Option<&[u8]>,
) -> bool {
    let expr = parsed(rt, alloc, kind, text.as_bytes());
    let line = printed(rt, alloc, kind, &expr, size);
    reads(rt, alloc, &expr, size, line.as_slice(), want)
}

/// A token without a width and with one, in a record that holds its text and in one that is cut.
fn check_token(rt: &impl Abort, alloc: Global, kind: StreamKind, row: &str) {
    let (letters, texts) = row.split_once('/').expect(rt, "letters");
    let (standard, fitted) = texts.split_once('/').expect(rt, "two texts");
    let cases = [
        ("", "", 64, Some(standard.as_bytes())),
        ("", "5", 64, Some(fitted.as_bytes())),
        (FRONT, "", 32, None),
        ("", "40", 32, None),
    ];
    for (front, width, size, want) in cases {
        let text = format!(in alloc; "{front}@{letters}{width}|").expect(rt, "memory");
        let same = reads_back(rt, alloc, kind, text.as_str(), size, want);
        assert!(rt; same, "{text}");
    }
}

#[test]
fn generic_tokens_are_read_back(rt: HostRuntime) {
    let alloc = rt.alloc();
    for row in GENERIC_TOKENS.split('\n') {
        check_token(&rt, alloc, StreamKind::System, row);
    }
}

#[test]
fn notified_tokens_are_read_back(rt: HostRuntime) {
    let alloc = rt.alloc();
    for row in NOTIFIED_TOKENS.split('\n') {
        check_token(&rt, alloc, StreamKind::Alarm, row);
    }
}

fn check_read(rt: &impl Abort, alloc: Global, size: u32, row: &str) {
    let (text, rest) = row.split_once('`').expect(rt, "an expression");
    let (bytes, want) = rest.split_once('`').expect(rt, "a record and its text");
    let expr = parsed(rt, alloc, StreamKind::System, text.as_bytes());
    let read = reads(
        rt,
        alloc,
        &expr,
        size,
        bytes.as_bytes(),
        Some(want.as_bytes()),
    );
    assert!(rt; read, "{row:?}");
}

fn check_unread(rt: &impl Abort, alloc: Global, size: u32, row: &str) {
    let (text, bytes) = row.split_once('`').expect(rt, "an expression");
    let expr = parsed(rt, alloc, StreamKind::System, text.as_bytes());
    let unread = reads(rt, alloc, &expr, size, bytes.as_bytes(), None);
    assert!(rt; unread, "{row:?}");
}

#[test]
fn records_are_read_or_have_no_texts(rt: HostRuntime) {
    let alloc = rt.alloc();
    for row in READ.split(';') {
        check_read(&rt, alloc, 8, row);
    }
    for row in UNREAD.split(';') {
        check_unread(&rt, alloc, 8, row);
    }
}

#[test]
fn lines_are_read_or_have_no_texts(rt: HostRuntime) {
    let alloc = rt.alloc();
    for row in READ_LINES.split(';') {
        check_read(&rt, alloc, 0, row);
    }
    for row in UNREAD_LINES.split(';') {
        check_unread(&rt, alloc, 0, row);
    }
}

fn check_piece(rt: &impl Abort, alloc: Global, size: u32, row: &str) {
    let (text, want) = row.split_once('`').expect(rt, "an expression");
    let expr = parsed(rt, alloc, StreamKind::System, text.as_bytes());
    let piece = match separable(&expr, size) {
        Ok(()) => 0,
        Err(refusal) => refusal.piece,
    };
    let told = format!(in alloc; "{piece}").expect(rt, "memory");
    assert!(rt; told.as_str() == want, "{row}");
}

#[test]
fn the_first_piece_in_the_way_of_reading_is_told(rt: HostRuntime) {
    let alloc = rt.alloc();
    for row in PIECES.split(';') {
        check_piece(&rt, alloc, 32, row);
    }
    for row in PIECES_OF_LINES.split(';') {
        check_piece(&rt, alloc, 0, row);
    }
}
