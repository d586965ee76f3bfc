//! The lines of one turn.
ghost use Rattle.std.specs.Prelude.{◌≡◌, IfOk, string_bytes};
ghost use Rattle.load_script.specs.Texts.{alarm_line, failure_behind, record_line, sent_line, settle_behind, turn_text};

use std::alloc::{AllocError, Global};

// The line that sends an alarm.
fn alarm_line(alloc: Global, number: u32) -> Result<String, AllocError>
    ensures { IfOk result (λ line. string_bytes line ≡ alarm_line number) }
{
    let severity = number % 6;
    format!(in alloc;
        "ntf 2 send alarm type=0x4001 obj=\"g\" by=\"g\" class=0.0.0 time={number} text=\"t\" cause=0 sev={severity}\n"
    )
}

// The line that writes a record.
fn record_line(alloc: Global, turn: u32, number: u32) -> Result<String, AllocError>
    ensures { IfOk result (λ line. string_bytes line ≡ record_line turn number) }
{
    let severity = number % 7;
    format!(in alloc;
        "log 1 write system inv={turn} flags=0 gen sev={severity} class=0.0.0 user=\"g\" body=\"{number}\"\n"
    )
}

// The line that a turn begins with.
fn sent_line(alloc: Global, turn: u32, number: u32) -> Result<String, AllocError>
    ensures { IfOk result (λ line. string_bytes line ≡ sent_line turn number) }
{
    if turn % 10 == 0 {
        alarm_line(alloc, number)
    } else {
        record_line(alloc, turn, number)
    }
}

// What settles behind it.
fn settle_behind(turn: u32) -> &'static str
    ensures { result.now ≡ settle_behind turn }
{
    if turn % 16 == 0 { "settle\n" } else { "" }
}

// The failure of a server behind that.
fn failure_behind(turn: u32) -> &'static str
    ensures { result.now ≡ failure_behind turn }
{
    if turn % 1_000 != 0 {
        ""
    } else if turn / 1_000 % 2 == 1 {
        "crash a\nrestart a\nsettle\n"
    } else {
        "crash b\nrestart b\nsettle\n"
    }
}

/// The text of a turn. `Err` only where memory ran out.
pub(crate) fn turn_text(alloc: Global, turn: u32, number: u32) -> Result<String, AllocError>
    ensures { IfOk result (λ text. string_bytes text ≡ turn_text turn number) }
{
    let mut text = sent_line(alloc, turn, number)?;
    text.push_str(settle_behind(turn))?;
    text.push_str(failure_behind(turn))?;
    Ok(text)
}
