//! The words of the command line, read by one `clap` command.
#![tactic(auto)]

ghost use Rattle.std.specs.Prelude.{◌≡◌, [], IfOk, IfErr, false, map, option_map, string_bytes, true};
ghost use Rattle.std.specs.List.{list_any};
ghost use Rattle.clap.specs.Words.{app_of, fault_of, found_of, kind_of, matches_of, rows_of, rule_of, takes};
ghost use Rattle.command_line.specs.Clap.{bare_app, command_rule, gathered, line_app, values_rule};
ghost use Rattle.command_line.specs.Lines.{is_dashed, line_of};

use clap::error::ErrorKind;
use clap::{Arg, ArgMatches, Command, Error};
use std::alloc::{AllocError, Global};

/// Whether a word begins with a minus sign.
pub fn is_dashed(word: &str) -> bool
    ensures { result ≡ is_dashed word.now }
{
    match word.as_bytes() {
        [] => false,
        [first, ..] => *first == b'-',
    }
}

// Whether one of the words does.
fn has_dashed(words: &[String]) -> bool
    ensures { result ≡ list_any (λ word. is_dashed (string_bytes word)) words.now }
{
    words.iter().any(|word| is_dashed(word.as_str()))
}

// The command without arguments.
fn bare_command<'a>(alloc: Global) -> Command<'a>
    ensures { app_of result ≡ bare_app }
{
    Command::new(alloc, "aisrun")
        .no_binary_name(true)
        .disable_help_flag(true)
}

// The first word, which is required.
fn command_word<'a>(alloc: Global) -> Arg<'a>
    ensures rule { rule_of result ≡ command_rule }
    ensures local { result.global ≡ false }
{
    Arg::new(alloc, "command").required(true)
}

// Up to five values.
fn value_words<'a>(alloc: Global) -> Arg<'a>
    ensures rule { rule_of result ≡ values_rule }
    ensures local { result.global ≡ false }
{
    Arg::new(alloc, "values").num_args(0..=5)
}

// The command: a word that is required, and up to five values behind it.
fn line_command<'a>(alloc: Global) -> Result<Command<'a>, AllocError>
    ensures { IfOk result (λ command. app_of command ≡ line_app) }
{
    let command = bare_command(alloc).arg(command_word(alloc))?;
    let command = command.arg(value_words(alloc))?;
    Ok(command)
}

// What `clap` makes of the words.
fn parse<'a>(alloc: Global, words: &'a [String]) -> Result<ArgMatches<'a>, Error>
    ensures rows { IfOk result (λ matches. rows_of (found_of matches)
        ≡ matches_of line_app (map (λ word. string_bytes word) words.now)) }
    ensures faultless { IfOk result (λ _.
        fault_of line_app (map (λ word. string_bytes word) words.now) ≡ []) }
    ensures refused { IfErr result (λ error.
        takes line_app (map (λ word. string_bytes word) words.now) ≡ true
        → kind_of error ≡ ErrorKind.OutOfMemory) }
{
    let command = line_command(alloc)?;
    command.try_get_matches_from(words)
}

// The words that were matched, in order.
fn gather<'a>(alloc: Global, matches: &ArgMatches<'a>) -> Result<Option<Vec<&'a str>>, AllocError>
    ensures { IfOk result (λ found. option_map (λ list. map (λ word. word.now) list.items) found
        ≡ gathered (rows_of (found_of matches.now))) }
{
    match matches.get_str("command") {
        None => Ok(None),
        Some(first) => {
            let values = matches.get_strs("values").unwrap_or(&[]);
            let mut list = Vec::new(alloc);
            list.push(first)?;
            list.extend_from_slice(values)?;
            Ok(Some(list))
        }
    }
}

/// The words, where there are one to six and none of them begins with a minus sign; else `None`.
///
/// `Err` only where memory ran out.
pub fn read_line<'a>(alloc: Global, words: &'a [String]) -> Result<Option<Vec<&'a str>>, AllocError>
    ensures { IfOk result (λ found. option_map (λ list. map (λ word. word.now) list.items) found
        ≡ line_of (map (λ word. string_bytes word) words.now)) }
{
    if has_dashed(words) {
        return Ok(None);
    }
    match parse(alloc, words) {
        Ok(matches) => {
            let found = gather(alloc, &matches);
            drop(matches);
            found
        }
        Err(error) => match error.kind() {
            ErrorKind::OutOfMemory => Err(AllocError),
            _ => Ok(None),
        },
    }
}
