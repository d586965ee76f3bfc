//! Writing of the lines of a script for three servers.
ghost use Rattle.std.specs.Prelude.{◌≡◌, ◌++◌, ◌∷◌, [], ℕ, List, OnOk};
ghost use Rattle.std.specs.Fmt.{decimal};
ghost use Rattle.script_grammar.specs.Writing.{joined};
ghost use Rattle.trio_lines.specs.Lines.{SpellsTrio};
ghost use Rattle.trio_lines.specs.Printing.{trio_server_text, trio_line_text};

use crate::line::{TrioLine, TrioServer};
use script_printer::{put, put_number, put_script_line};
use std::alloc::AllocError;

/// Adds a server's letter.
fn put_server(out: &mut Vec<u8>, server: TrioServer) -> Result<(), AllocError>
    ensures { OnOk result (out.new.items ≡ out.old.items ++ trio_server_text server) }
{
    match server {
        TrioServer::A => put(out, b"a"),
        TrioServer::B => put(out, b"b"),
        TrioServer::C => put(out, b"c"),
    }
}

/// Adds a word and a server's letter.
#[tactic(auto, using(script_printer::proofs::Chain::chained, script_printer::proofs::Chain::chained_last))]
fn put_word_server(out: &mut Vec<u8>, word: &[u8], server: TrioServer) -> Result<(), AllocError>
    ensures { OnOk result (out.new.items ≡ out.old.items
        ++ joined (word.now ∷ trio_server_text server ∷ [])) }
{
    put(out, word)?;
    put_server(out, server)?;
    Ok(())
}

/// Adds a word and a number.
#[tactic(auto, using(script_printer::proofs::Chain::chained, script_printer::proofs::Chain::chained_last))]
fn put_word_number(out: &mut Vec<u8>, word: &[u8], number: u64) -> Result<(), AllocError>
    ensures { OnOk result (out.new.items ≡ out.old.items
        ++ joined (word.now ∷ decimal number ∷ [])) }
{
    put(out, word)?;
    put_number(out, number)?;
    Ok(())
}

/// Adds a line without its LF.
#[tactic(auto, unfolding(crate::specs::Printing::trio_line_text))]
fn put_line(out: &mut Vec<u8>, line: &TrioLine) -> Result<(), AllocError>
    ensures { OnOk result (out.new.items ≡ out.old.items ++ trio_line_text line.now) }
{
    match line {
        TrioLine::Plain { line } => put_script_line(out, line),
        TrioLine::Crash => put(out, b"crash c"),
        TrioLine::Arm { k } => put_word_number(out, b"arm c ", *k),
        TrioLine::Restart => put(out, b"restart c"),
        TrioLine::Mirror { server } => put_word_server(out, b"mirror ", *server),
        TrioLine::Ack { server } => put_word_server(out, b"ack ", *server),
    }
}

/// Adds a line without its LF: an own line of three servers as it is read, each other one as scripts for two servers have it.
/// A line that has a spelling is written in one. On want of memory nothing is said of `out`.
pub fn put_trio_line(out: &mut Vec<u8>, line: &TrioLine) -> Result<(), AllocError>
    ensures written { OnOk result (out.new.items ≡ out.old.items ++ trio_line_text line.now) }
    ensures spelled { (raw : List ℕ) → SpellsTrio line.now raw
        → SpellsTrio line.now (trio_line_text line.now) }
{
    put_line(out, line)
}
