//! The lines of a large run as values, each made when it is wanted.
ghost use Rattle.std.specs.Prelude.{◌≡◌, ◌++◌, IfOk, OnOk};
ghost use Rattle.std.specs.Fmt.{decimal};
ghost use Rattle.load_lines.specs.Lines.{alarm, alarm_sent, closing_lines, failing, failure_of, first_lines, no_class, no_options, opening_line, record_written, sent, settling, turn_lines};

use ais_values::{ClassId, Name, Seq, Text, UNKNOWN_TIME, Version, Which};
use calls::{Ask, Boxed, Call};
use ntf_types::{Body, Notification};
use record_print::Header;
use script_lines::{Line, Server, WellOptions};
use std::alloc::{AllocError, Global};
use stream_config::StreamName;

/// Of well-known streams nothing is said.
fn no_options() -> WellOptions
    ensures { result ≡ no_options }
{
    WellOptions {
        fmt: None,
        rec: None,
        max: None,
        full: None,
        rot: None,
    }
}

/// The cluster line. It takes no memory.
pub fn opening_line() -> Line
    ensures { result ≡ opening_line }
{
    Line::Cluster {
        start: 1_704_067_200_000_000_000,
        queue: 2,
        callbacks: 256,
        alarm: no_options(),
        ntf: no_options(),
        sys: no_options(),
    }
}

/// The lines between the cluster line and the first turn. `Err` only where memory ran out, here and below.
pub fn first_lines(alloc: Global) -> Result<Seq<Line>, AllocError>
    ensures { IfOk result (λ lines. lines ≡ first_lines) }
{
    let mut lines = Seq::new(alloc);
    lines.push(Line::Log {
        client: 1,
        ask: Ask::Start {
            service: Which::Log,
            version: Version {
                release: b'A',
                major: 2,
                minor: 1,
            },
        },
    })?;
    lines.push(Line::Log {
        client: 1,
        ask: Ask::Plain {
            call: Call::LogOpen {
                stream: StreamName::System,
                create: None,
            },
        },
    })?;
    lines.push(Line::Ntf {
        client: 2,
        ask: Ask::Start {
            service: Which::Ntf,
            version: Version {
                release: b'A',
                major: 1,
                minor: 1,
            },
        },
    })?;
    lines.push(Line::Settle)?;
    Ok(lines)
}

/// The lines behind the last turn.
pub fn closing_lines(alloc: Global) -> Result<Seq<Line>, AllocError>
    ensures { IfOk result (λ lines. lines ≡ closing_lines) }
{
    let mut lines = Seq::new(alloc);
    lines.push(Line::Settle)?;
    lines.push(Line::Servers)?;
    Ok(lines)
}

const NO_CLASS: ClassId = ClassId {
    vendor: 0,
    major: 0,
    minor: 0,
};

/// The name of these bytes, which are one.
fn name_of(alloc: Global, bytes: &[u8]) -> Result<Name, AllocError>
    ensures { IfOk result (λ name. name ≡ bytes.now) }
{
    match Name::new(alloc, bytes) {
        Ok(name) => Ok(name),
        Err(_) => Err(AllocError),
    }
}

/// The text of these bytes, of which there are few.
fn text_of(alloc: Global, bytes: &[u8]) -> Result<Text, AllocError>
    ensures { IfOk result (λ text. text ≡ bytes.now) }
{
    match Text::new(alloc, bytes) {
        Ok(text) => Ok(text),
        Err(_) => Err(AllocError),
    }
}

/// The decimal form of a number.
fn number_text(alloc: Global, number: u32) -> Result<Text, AllocError>
    ensures { IfOk result (λ text. text ≡ decimal number) }
{
    let digits = format!(in alloc; "{number}")?;
    text_of(alloc, digits.as_bytes())
}

/// An alarm.
fn alarm(alloc: Global, number: u32) -> Result<Notification, AllocError>
    ensures { IfOk result (λ made. made ≡ alarm number) }
{
    let object = name_of(alloc, b"g")?;
    let notifier = name_of(alloc, b"g")?;
    let text = text_of(alloc, b"t")?;
    Ok(Notification {
        id: 0,
        event_type: 0x4001,
        object,
        notifier,
        class: NO_CLASS,
        event_time: i64::from(number),
        correlated: Seq::new(alloc),
        text,
        info: Seq::new(alloc),
        body: Body::Alarm {
            cause: 0,
            severity: (number % 6) as u16,
        },
    })
}

/// A client sends an alarm.
fn alarm_sent(alloc: Global, number: u32) -> Result<Line, AllocError>
    ensures { IfOk result (λ line. line ≡ alarm_sent number) }
{
    let notification = Boxed::new(alloc, alarm(alloc, number)?)?;
    Ok(Line::Ntf {
        client: 2,
        ask: Ask::Plain {
            call: Call::NtfSend { notification },
        },
    })
}

/// A client writes a record.
fn record_written(alloc: Global, turn: u32, number: u32) -> Result<Line, AllocError>
    ensures { IfOk result (λ line. line ≡ record_written turn number) }
{
    let user = name_of(alloc, b"g")?;
    let body = number_text(alloc, number)?;
    Ok(Line::Log {
        client: 1,
        ask: Ask::Plain {
            call: Call::LogWrite {
                stream: StreamName::System,
                invocation: u64::from(turn),
                flags: 0,
                time: UNKNOWN_TIME,
                header: Header::Generic {
                    class: NO_CLASS,
                    user,
                    severity: (number % 7) as u16,
                },
                body,
            },
        },
    })
}

/// The line that a turn begins with.
fn sent(alloc: Global, turn: u32, number: u32) -> Result<Line, AllocError>
    ensures { IfOk result (λ line. line ≡ sent turn number) }
{
    if turn % 10 == 0 {
        alarm_sent(alloc, number)
    } else {
        record_written(alloc, turn, number)
    }
}

/// Adds what settles behind it.
fn add_settling(lines: &mut Seq<Line>, turn: u32) -> Result<(), AllocError>
    ensures { OnOk result (lines.new ≡ lines.old ++ settling turn) }
{
    if turn % 16 == 0 {
        lines.push(Line::Settle)?;
    }
    Ok(())
}

/// Adds the failure of a server, which comes back.
fn add_failure(lines: &mut Seq<Line>, server: Server) -> Result<(), AllocError>
    ensures { OnOk result (lines.new ≡ lines.old ++ failure_of server) }
{
    lines.push(Line::Crash { server })?;
    lines.push(Line::Restart { server })?;
    lines.push(Line::Settle)?;
    Ok(())
}

/// Adds the failure of the turn, if it has one.
fn add_failing(lines: &mut Seq<Line>, turn: u32) -> Result<(), AllocError>
    ensures { OnOk result (lines.new ≡ lines.old ++ failing turn) }
{
    if turn % 1_000 != 0 {
        Ok(())
    } else if turn / 1_000 % 2 == 1 {
        add_failure(lines, Server::A)
    } else {
        add_failure(lines, Server::B)
    }
}

/// The lines of a turn, of which there are one to five.
pub fn turn_lines(alloc: Global, turn: u32, number: u32) -> Result<Seq<Line>, AllocError>
    ensures { IfOk result (λ lines. lines ≡ turn_lines turn number) }
{
    let mut lines = Seq::new(alloc);
    lines.push(sent(alloc, turn, number)?)?;
    add_settling(&mut lines, turn)?;
    add_failing(&mut lines, turn)?;
    Ok(lines)
}
