use ais_values::{Duplicate, StreamKind};
use format_expr::{
    Expr, ExprAnswer, ExprFault, ExprWhy, Part, Piece, Token, check_expr, parse_expr, print_expr,
};
use std::alloc::Global;
use std::process::Abort;

/// Whether a text is refused by the check and by the reader, at one place and for one reason.
fn is_refused(alloc: Global, kind: StreamKind, text: &[u8], fault: ExprFault) -> bool {
    let answer = parse_expr(alloc, kind, text);
    let unread = matches!(&answer, Err(ExprAnswer::Bad { fault: found }) if *found == fault);
    drop(answer);
    unread && check_expr(kind, text) == Err(fault)
}

#[test]
fn texts_are_refused_at_their_first_fault(rt: HostRuntime) {
    let table: [(StreamKind, &[u8], u32, ExprWhy); 20] = [
        (StreamKind::System, b"ab@", 3, ExprWhy::LoneAt),
        (StreamKind::Alarm, b"@Nq", 2, ExprWhy::UnknownToken),
        (StreamKind::Alarm, b"@Sv", 1, ExprWhy::WrongClass),
        (StreamKind::System, b"@Cb256", 5, ExprWhy::BadWidth),
        (StreamKind::System, b"@Cb0", 3, ExprWhy::BadWidth),
        (StreamKind::Application, b"@Nt", 1, ExprWhy::WrongClass),
        (StreamKind::Notification, b"@Cr @Sl", 5, ExprWhy::WrongClass),
        (StreamKind::System, b"@", 1, ExprWhy::LoneAt),
        (StreamKind::System, b"@@Cr", 1, ExprWhy::LoneAt),
        (StreamKind::System, b"@c", 1, ExprWhy::LoneAt),
        (StreamKind::System, b"@C", 2, ExprWhy::UnknownToken),
        (StreamKind::System, b"@CO", 2, ExprWhy::UnknownToken),
        (StreamKind::System, b"@Sr", 2, ExprWhy::UnknownToken),
        (StreamKind::System, b"@Cr01", 3, ExprWhy::BadWidth),
        (StreamKind::System, b"@Cr300", 5, ExprWhy::BadWidth),
        (StreamKind::System, b"@Cr26@Cr256", 10, ExprWhy::BadWidth),
        (StreamKind::System, b"\x1f", 0, ExprWhy::ControlByte),
        (StreamKind::System, b"@Cr\n", 3, ExprWhy::ControlByte),
        (StreamKind::System, b"@Cr12\x7f", 5, ExprWhy::ControlByte),
        (StreamKind::System, b"a\xc3\xa9", 1, ExprWhy::ControlByte),
    ];
    for (kind, text, place, why) in table {
        let refused = is_refused(rt.alloc(), kind, text, ExprFault { place, why });
        assert!(rt; refused, "{text:?}");
    }
    let printed = format!(in rt.alloc(); "{}", ExprWhy::LoneAt).expect(&rt, "memory");
    assert!(rt; printed.as_str() == "LoneAt");
    let copy = ExprWhy::TooLong.copy(rt.alloc()).expect(&rt, "memory");
    assert!(rt; copy == ExprWhy::TooLong);
}

/// What a check answers of so many letters with this end.
fn checked(rt: &impl Abort, alloc: Global, length: usize, end: &[u8]) -> Result<(), ExprFault> {
    let mut text = vec![in alloc; b'a'; length].expect(rt, "memory");
    text.extend_from_slice(end).expect(rt, "memory");
    let answer = check_expr(StreamKind::Alarm, text.as_slice());
    drop(text);
    answer
}

#[test]
fn texts_have_at_most_1024_bytes(rt: HostRuntime) {
    let table: [(usize, &[u8], Option<(u32, ExprWhy)>); 8] = [
        (1024, b"", None),
        (1025, b"", Some((1024, ExprWhy::TooLong))),
        (1023, b"@", Some((1024, ExprWhy::LoneAt))),
        (1023, b"@q", Some((1024, ExprWhy::TooLong))),
        (1022, b"@q", Some((1023, ExprWhy::LoneAt))),
        (1022, b"@C", Some((1024, ExprWhy::UnknownToken))),
        (1023, b"\x00@", Some((1023, ExprWhy::ControlByte))),
        (5000, b"\x00", Some((1024, ExprWhy::TooLong))),
    ];
    for (length, end, want) in table {
        let want = match want {
            None => Ok(()),
            Some((place, why)) => Err(ExprFault { place, why }),
        };
        let answer = checked(&rt, rt.alloc(), length, end);
        assert!(rt; answer == want, "{length} and {end:?}");
    }
}

#[test]
fn texts_are_parsed_into_pieces(rt: HostRuntime) {
    let table: [(StreamKind, &[u8], usize); 9] = [
        (StreamKind::System, b"", 0),
        (StreamKind::System, b"plain text", 1),
        (StreamKind::System, b"@Cr @Cb", 3),
        (StreamKind::System, b"@Cb1@Cb255@Cb2551", 4),
        (
            StreamKind::Alarm,
            b"@Cr @Ct @Nt @Ne6 @No30 @Ng30 \"@Cb\"",
            14,
        ),
        (
            StreamKind::System,
            b"@Cr @Ch:@Cn:@Cs @Cm/@Cd/@CY @Sv @Sl \"@Cb\"",
            20,
        ),
        (
            StreamKind::System,
            b"@Cr@Ct@Ch@Cn@Cs@Ca@Cm@CM@Cd@CD@Cy@CY@Cc@Cx@Cb@Ci",
            16,
        ),
        (
            StreamKind::Notification,
            b"@Nt@Nh@Nn@Ns@Na@Nm@NM@Nd@ND@Ny@NY@Ni@Ne@No@Ng",
            15,
        ),
        (StreamKind::Application, b"@Sl@Sv", 2),
    ];
    for (kind, text, pieces) in table {
        assert!(rt; has_pieces(&rt, rt.alloc(), kind, text, pieces), "{text:?}");
    }
}

/// An expression of a stream of the kind.
pub fn parsed(rt: &impl Abort, alloc: Global, kind: StreamKind, text: &[u8]) -> Expr {
    match parse_expr(alloc, kind, text) {
        Ok(expr) => expr,
        Err(answer) => panic!(rt; "{answer:?}"),
    }
}

/// Whether the text is an expression of so many pieces, of which a copy prints the text.
fn has_pieces(
    rt: &impl Abort,
    alloc: Global,
    kind: StreamKind,
    text: &[u8],
    pieces: usize,
) -> bool {
    let expr = parsed(rt, alloc, kind, text);
    let copy = expr.copy(alloc).expect(rt, "memory");
    let counted = expr.pieces.as_slice().len() == pieces;
    drop(expr);
    let printed = print_expr(alloc, &copy).expect(rt, "memory");
    drop(copy);
    counted && printed.as_slice() == text
}

/// Whether the pieces are a number of 100 places, and a nought.
fn is_number_of_100(pieces: &[Piece]) -> bool {
    let token = Token {
        part: Part::Number,
        width: Some(100),
    };
    match pieces {
        [Piece::Field { token: found }, Piece::Plain { text }] => {
            *found == token && text.as_slice() == b"0".as_slice()
        }
        _ => false,
    }
}

#[test]
fn a_width_has_three_digits_at_most(rt: HostRuntime) {
    let expr = parsed(&rt, rt.alloc(), StreamKind::System, b"@Cr1000");
    let is_so = is_number_of_100(expr.pieces.as_slice());
    drop(expr);
    assert!(rt; is_so);
}
