//! The words of the command line.
ghost use Rattle.std.specs.Prelude.{◌≡◌, ◌<◌, ◌^◌, IfOk, false, map, string_bytes};
ghost use Rattle.std.specs.List.{list_any};
ghost use Rattle.command_line.specs.Lines.{is_dashed};
ghost use Rattle.commands.specs.Commands.{command_of, command_of_three, expr_command, find_command, gen_command, kind_of_word, load_command};
ghost use Rattle.commands.specs.Commands.{lone_command, number_of, record_size, records_command, scan_command, text_of, wanted_of};

use ais_values::StreamKind;
use command_line::read_line;
use scan_lines::Shown;
use script::whole_number;
use std::alloc::{AllocError, Global};
use stream_config::{MAX_RECORD, MIN_RECORD};

/// What is asked of a file of records.
#[derive(Clone, Copy, Debug, PartialEq, Eq)]
pub struct RecordQuery {
    /// The kind of streams for whose records the third word is an expression.
    pub kind: StreamKind,
    /// How many bytes a record has, or 0 where each ends with its first line feed.
    pub size: u32,
    /// Which records have a line.
    pub shown: Shown,
}

/// What the program is asked to do.
#[derive(Clone, Copy, Debug, PartialEq, Eq)]
pub enum Command {
    /// Run the script that the source gives.
    Run,
    /// Tell whether the source gives a script, and of how many lines.
    Check,
    /// Run the script that the source gives on one server and its journal.
    Cold,
    /// Start a server from the journal that stands, and tell how long its history is and which files there are.
    Recover,
    /// Run the script for three servers that the source gives.
    Trio,
    /// Tell whether the third word is a format expression for streams of a kind, and of how many pieces.
    Expr { kind: StreamKind },
    /// Print the script of so many turns, 1 to 100,000, from a seed on.
    Gen { count: u32, seed: u64 },
    /// Run that script, and tell in one line where it led.
    Load { count: u32, seed: u64 },
    /// Print the records that the source gives, with the texts of the tokens of the third word.
    Scan { query: RecordQuery },
}

// The command of one word.
fn lone_command(word: &str) -> Option<Command>
    ensures { result ≡ lone_command word.now }
{
    match word {
        "run" => Some(Command::Run),
        "check" => Some(Command::Check),
        "cold" => Some(Command::Cold),
        "recover" => Some(Command::Recover),
        "trio" => Some(Command::Trio),
        _ => None,
    }
}

// The kind of streams that a word names.
fn kind_of_word(word: &str) -> Option<StreamKind>
    ensures { result ≡ kind_of_word word.now }
{
    match word {
        "alarm" => Some(StreamKind::Alarm),
        "notification" => Some(StreamKind::Notification),
        "system" => Some(StreamKind::System),
        "application" => Some(StreamKind::Application),
        _ => None,
    }
}

// The command on an expression. No word of a line begins with a minus sign.
fn expr_command(word: &str, name: &str, text: &str) -> Option<Command>
    requires { is_dashed text.now ≡ false }
    ensures { result ≡ expr_command word.now name.now text.now }
{
    if word != "expr" {
        return None;
    }
    match kind_of_word(name) {
        None => None,
        Some(kind) => Some(Command::Expr { kind }),
    }
}

// The number from `low` to `high` that a word spells.
fn number_of(word: &str, low: u64, high: u64) -> Option<u32>
    requires { high < 2 ^ 32 }
    ensures { result ≡ number_of low high word.now }
{
    match whole_number(word.as_bytes(), low, high) {
        None => None,
        Some(number) => Some(number as u32),
    }
}

// The seed that a word spells.
fn seed_of(word: &str) -> Option<u64>
    ensures { result ≡ number_of 0 18446744073709551615 word.now }
{
    whole_number(word.as_bytes(), 0, u64::MAX)
}

// The most turns of a script that is made.
const MAX_TURNS: u64 = 100_000;

// The command that makes a script.
fn gen_command(count: &str, seed: &str) -> Option<Command>
    ensures { result ≡ gen_command count.now seed.now }
{
    match number_of(count, 1, MAX_TURNS) {
        None => None,
        Some(count) => match seed_of(seed) {
            None => None,
            Some(seed) => Some(Command::Gen { count, seed }),
        },
    }
}

// The command that runs such a script.
fn load_command(count: &str, seed: &str) -> Option<Command>
    ensures { result ≡ load_command count.now seed.now }
{
    match number_of(count, 1, MAX_TURNS) {
        None => None,
        Some(count) => match seed_of(seed) {
            None => None,
            Some(seed) => Some(Command::Load { count, seed }),
        },
    }
}

// The command of three words.
fn command_of_three(word: &str, one: &str, two: &str) -> Option<Command>
    requires { is_dashed two.now ≡ false }
    ensures { result ≡ command_of_three word.now one.now two.now }
{
    if word == "gen" {
        gen_command(one, two)
    } else if word == "load" {
        load_command(one, two)
    } else {
        expr_command(word, one, two)
    }
}

// The least size of records.
const MIN_SIZE: u64 = MIN_RECORD as u64;

// The greatest size of records.
const MAX_SIZE: u64 = MAX_RECORD as u64;

// The size of records that a word names.
fn record_size(word: &str) -> Option<u32>
    ensures { result ≡ record_size word.now }
{
    if word == "0" {
        Some(0)
    } else {
        number_of(word, MIN_SIZE, MAX_SIZE)
    }
}

// The command on records of a kind and a size, of which these have a line.
fn records_command(name: &str, size: &str, shown: Shown) -> Option<Command>
    ensures { result ≡ records_command name.now size.now shown }
{
    match kind_of_word(name) {
        None => None,
        Some(kind) => match record_size(size) {
            None => None,
            Some(size) => Some(Command::Scan {
                query: RecordQuery { kind, size, shown },
            }),
        },
    }
}

// The command of four words.
fn scan_command(word: &str, name: &str, text: &str, size: &str) -> Option<Command>
    requires { is_dashed text.now ≡ false }
    ensures { result ≡ scan_command word.now name.now text.now size.now }
{
    if word != "scan" {
        return None;
    }
    records_command(name, size, Shown::All)
}

// The command of six words.
fn find_command(
    word: &str,
    name: &str,
    text: &str,
    size: &str,
    token: &str,
    wanted: &str,
) -> Option<Command>
    requires text { is_dashed text.now ≡ false }
    requires wanted { is_dashed wanted.now ≡ false }
    ensures { result
        ≡ find_command word.now name.now text.now size.now token.now wanted.now }
{
    if word != "find" {
        return None;
    }
    match number_of(token, 1, 1_024) {
        None => None,
        Some(token) => records_command(name, size, Shown::Having { token }),
    }
}

// The command of a line of words.
fn command_in(words: &[&str]) -> Option<Command>
    requires { list_any is_dashed (map (λ word. word.now) words.now) ≡ false }
    ensures { result ≡ command_of (map (λ word. word.now) words.now) }
{
    match *words {
        [word] => lone_command(word),
        [word, one, two] => command_of_three(word, one, two),
        [word, name, text, size] => scan_command(word, name, text, size),
        [word, name, text, size, token, wanted] => {
            find_command(word, name, text, size, token, wanted)
        }
        _ => None,
    }
}

/// The command that these words give; None exactly where they are none of the program's.
///
/// `Err` only where memory ran out.
pub fn command_of(alloc: Global, words: &[String]) -> Result<Option<Command>, AllocError>
    ensures { IfOk result (λ found.
        found ≡ command_of (map (λ word. string_bytes word) words.now)) }
{
    match read_line(alloc, words) {
        Ok(None) => Ok(None),
        Ok(Some(line)) => Ok(command_in(line.as_slice())),
        Err(_) => Err(AllocError),
    }
}

/// The bytes of the third word, of three or more; else none.
pub fn text_of(words: &[String]) -> &[u8]
    ensures { result.now ≡ text_of (map (λ word. string_bytes word) words.now) }
{
    match words {
        [_, _, text, ..] => text.as_bytes(),
        _ => &[],
    }
}

/// The bytes of the sixth word, of six or more; else none.
pub fn wanted_of(words: &[String]) -> &[u8]
    ensures { result.now ≡ wanted_of (map (λ word. string_bytes word) words.now) }
{
    match words {
        [_, _, _, _, _, wanted, ..] => wanted.as_bytes(),
        _ => &[],
    }
}
