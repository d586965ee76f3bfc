//! The test of expressions, which takes no memory.
ghost use Rattle.std.specs.Prelude.{◌≡◌, ◌+◌, ◌≤◌, ◌<◌, ◌↔◌, length, take, IsOk, IfOk, IfErr};
ghost use Rattle.format_expr.specs.Scan.{plain_step, class_step, width_step, step_of, end_of, run, StopsAt};
ghost use Rattle.format_expr.specs.Language.{is_class_of, is_notified, IsExpression};
ghost use Rattle.format_expr.specs.Faults.{IsFault};
ghost use Rattle.format_expr.specs.declared.fault.ExprFault.{ExprFault};

use crate::{ExprFault, ExprWhy, part_of};
use ais_values::StreamKind;

/// The most bytes that an expression has.
pub const MAX_EXPR: usize = 1_024;

/// Where the reading of an expression stands.
#[derive(Clone, Copy)]
enum Stand {
    /// Between pieces, or in a plain one.
    Between,
    /// Behind `@`.
    At,
    /// Behind a class letter.
    Class(u8),
    /// Behind the letters, with a width so far, 0 before its first digit.
    Width(u8),
}

/// Whether records of the kind have a notification's header, and not a generic one.
pub fn has_notified(kind: StreamKind) -> bool
    ensures { result ≡ is_notified kind }
{
    matches!(kind, StreamKind::Alarm | StreamKind::Notification)
}

/// Whether the letter is a class of tokens that streams of the kind take.
pub fn takes_class(kind: StreamKind, letter: u8) -> bool
    ensures { result ≡ is_class_of kind letter }
{
    match letter {
        b'C' => true,
        b'N' => has_notified(kind),
        b'S' => !has_notified(kind),
        _ => false,
    }
}

/// Behind a byte where no token goes on.
fn at_plain(byte: u8) -> Result<Stand, ExprWhy>
    ensures { result ≡ plain_step byte }
{
    match byte {
        b'@' => Ok(Stand::At),
        b' '..=b'~' => Ok(Stand::Between),
        _ => Err(ExprWhy::ControlByte),
    }
}

/// Behind the byte that follows `@`.
fn at_class(kind: StreamKind, byte: u8) -> Result<Stand, ExprWhy>
    ensures { result ≡ class_step kind byte }
{
    if takes_class(kind, byte) {
        return Ok(Stand::Class(byte));
    }
    match byte {
        b'C' | b'N' | b'S' => Err(ExprWhy::WrongClass),
        _ => Err(ExprWhy::LoneAt),
    }
}

/// Behind a further digit of a width.
fn at_digit(width: u8, digit: u8) -> Result<Stand, ExprWhy>
    requires { digit < 10 }
    ensures { result ≡ width_step width digit }
{
    let more = u16::from(width) * 10 + u16::from(digit);
    if more == 0 || more > 255 {
        return Err(ExprWhy::BadWidth);
    }
    if more < 100 {
        Ok(Stand::Width(more as u8))
    } else {
        Ok(Stand::Between)
    }
}

/// Where the reading stands behind one byte more, or why no expression goes on with it.
fn step(kind: StreamKind, stand: Stand, byte: u8) -> Result<Stand, ExprWhy>
    ensures { result ≡ step_of kind stand byte }
{
    match stand {
        Stand::Between => at_plain(byte),
        Stand::At => at_class(kind, byte),
        Stand::Class(class) => match part_of(class, byte) {
            Some(_) => Ok(Stand::Width(0)),
            None => Err(ExprWhy::UnknownToken),
        },
        Stand::Width(width) => match byte {
            b'0'..=b'9' => at_digit(width, byte - b'0'),
            _ => at_plain(byte),
        },
    }
}

/// Why no expression ends here, if none does.
fn end(stand: Stand) -> Option<ExprWhy>
    ensures { result ≡ end_of stand }
{
    match stand {
        Stand::Between | Stand::Width(_) => None,
        Stand::At => Some(ExprWhy::LoneAt),
        Stand::Class(_) => Some(ExprWhy::UnknownToken),
    }
}

/// Reads a text, or its first 1,024 bytes, and answers where the reading stands then.
fn read_front(kind: StreamKind, text: &[u8]) -> Result<Stand, ExprFault>
    ensures read { IfOk result (λ stand. run kind Stand.Between (take MAX_EXPR text.now)
        ≡ Ok stand) }
    ensures stopped { IfErr result (λ fault. StopsAt kind text.now fault.place fault.why) }
    ensures early { IfErr result (λ fault. fault.place < MAX_EXPR) }
{
    let mut stand = Stand::Between;
    for place in 0..text.len().min(MAX_EXPR) {
        match step(kind, stand, text[place]) {
            Ok(next) => stand = next,
            Err(why) => {
                return Err(ExprFault {
                    place: place as u32,
                    why,
                });
            }
        }
    }
    Ok(stand)
}

/// Whether a text is an expression for streams of the kind. It takes any bytes, and no memory.
///
/// The fault's place is the length of the longest front of the text with which some expression of the kind
/// begins, and its reason stands there. Of a text of more than 1,024 bytes a reason counts only at a place
/// below 1,024; else the fault is `TooLong` at 1,024.
pub fn check_expr(kind: StreamKind, text: &[u8]) -> Result<(), ExprFault>
    ensures ok { IsOk result ↔ (IsExpression kind text.now × (length text.now ≤ 1024)) }
    ensures refused { (fault : ExprFault) → (result ≡ Err fault) ↔ IsFault kind text.now fault }
{
    let stand = match read_front(kind, text) {
        Ok(stand) => stand,
        Err(fault) => return Err(fault),
    };
    if text.len() > MAX_EXPR {
        return Err(ExprFault {
            place: MAX_EXPR as u32,
            why: ExprWhy::TooLong,
        });
    }
    match end(stand) {
        None => Ok(()),
        Some(why) => Err(ExprFault {
            place: text.len() as u32,
            why,
        }),
    }
}
