//! Writing of lines and scripts.
ghost use Rattle.std.specs.Prelude.{◌≡◌, ◌++◌, ◌∷◌, [], ℕ, List, IfOk, OnOk, codes};
ghost use Rattle.std.specs.Fmt.{decimal};
ghost use Rattle.script_grammar.specs.Writing.{joined};
ghost use Rattle.script_lines.specs.declared.line.Line.TheVariants as lines;
ghost use Rattle.script_language.specs.Lines.{Spells};
ghost use Rattle.script_language.specs.Printing.{server_text, ask_text, line_text, script_text};
ghost use Rattle.script_language.specs.Scripts.{IsScriptOf};

use crate::asks::put_ask;
use crate::pieces::{Piece, put, put_labelled, put_number, put_pieces};
use crate::streams::put_options;
use ais_values::Seq;
use calls::Ask;
use script_lines::{Line, Server, WellOptions};
use std::alloc::{AllocError, Global};

/// Adds a server's letter.
fn put_server(out: &mut Vec<u8>, server: Server) -> Result<(), AllocError>
    ensures { OnOk result (out.new.items ≡ out.old.items ++ server_text server) }
{
    match server {
        Server::A => put(out, b"a"),
        Server::B => put(out, b"b"),
        Server::C => put(out, b"c"),
    }
}

/// Adds a cluster line.
#[tactic(auto, unfolding(script_language::specs::Printing::line_text))]
fn put_cluster(
    out: &mut Vec<u8>,
    start: i64,
    queue: u32,
    callbacks: u32,
    alarm: &WellOptions,
    ntf: &WellOptions,
    sys: &WellOptions,
) -> Result<(), AllocError>
    ensures { OnOk result (out.new.items ≡ out.old.items
        ++ line_text (lines.Cluster start queue callbacks alarm.now ntf.now sys.now)) }
{
    put_labelled(out, b"cluster start=", &Piece::Signed(start))?;
    put_labelled(out, b" queue=", &Piece::Number(u64::from(queue)))?;
    put_labelled(out, b" callbacks=", &Piece::Number(u64::from(callbacks)))?;
    put_options(out, b" alarm", alarm)?;
    put_options(out, b" ntf", ntf)?;
    put_options(out, b" sys", sys)?;
    Ok(())
}

/// Adds a service's word, a client and what it asks.
#[tactic(auto, using(crate::proofs::Chain::chained, crate::proofs::Chain::chained_last))]
fn put_asked(out: &mut Vec<u8>, word: &[u8], client: u16, ask: &Ask) -> Result<(), AllocError>
    ensures { OnOk result (out.new.items ≡ out.old.items
        ++ joined (word.now ∷ decimal client ∷ codes " " ∷ ask_text ask.now ∷ [])) }
{
    put(out, word)?;
    put_number(out, u64::from(client))?;
    put(out, b" ")?;
    put_ask(out, ask)?;
    Ok(())
}

/// Adds the line that arms a server.
#[tactic(auto, unfolding(script_language::specs::Printing::line_text), using(crate::proofs::Chain::chained, crate::proofs::Chain::chained_last))]
fn put_arm(out: &mut Vec<u8>, server: Server, count: u64) -> Result<(), AllocError>
    ensures { OnOk result (out.new.items ≡ out.old.items ++ line_text (lines.Arm server count)) }
{
    put(out, b"arm ")?;
    put_server(out, server)?;
    put(out, b" ")?;
    put_number(out, count)?;
    Ok(())
}

/// Adds a word and a server's letter.
#[tactic(auto, using(crate::proofs::Chain::chained, crate::proofs::Chain::chained_last))]
fn put_word_server(out: &mut Vec<u8>, word: &[u8], server: Server) -> Result<(), AllocError>
    ensures { OnOk result (out.new.items ≡ out.old.items
        ++ joined (word.now ∷ server_text server ∷ [])) }
{
    put(out, word)?;
    put_server(out, server)?;
    Ok(())
}

/// Adds a line without its LF. On want of memory nothing is said of `out`.
#[tactic(auto, unfolding(script_language::specs::Printing::line_text))]
pub fn put_script_line(out: &mut Vec<u8>, line: &Line) -> Result<(), AllocError>
    ensures { OnOk result (out.new.items ≡ out.old.items ++ line_text line.now) }
{
    match line {
        Line::Cluster {
            start,
            queue,
            callbacks,
            alarm,
            ntf,
            sys,
        } => put_cluster(out, *start, *queue, *callbacks, alarm, ntf, sys),
        Line::Time { now } => put_pieces(out, &[Piece::Word(b"time "), Piece::Signed(*now)]),
        Line::Log { client, ask } => put_asked(out, b"log ", *client, ask),
        Line::Ntf { client, ask } => put_asked(out, b"ntf ", *client, ask),
        Line::Deliver { place } => {
            put_pieces(out, &[Piece::Word(b"deliver "), Piece::Number(*place)])
        }
        Line::Resend { client } => put_pieces(
            out,
            &[Piece::Word(b"resend "), Piece::Number(u64::from(*client))],
        ),
        Line::Mirror => put(out, b"mirror"),
        Line::Ack => put(out, b"ack"),
        Line::Work => put(out, b"work"),
        Line::Push => put(out, b"push"),
        Line::Inject { bytes } => put_pieces(
            out,
            &[Piece::Word(b"inject "), Piece::Quoted(bytes.as_slice())],
        ),
        Line::Settle => put(out, b"settle"),
        Line::Crash { server } => put_word_server(out, b"crash ", *server),
        Line::Arm { server, count } => put_arm(out, *server, *count),
        Line::Disarm => put(out, b"disarm"),
        Line::Restart { server } => put_word_server(out, b"restart ", *server),
        Line::DispatchOne { client } => put_pieces(
            out,
            &[
                Piece::Word(b"dispatch "),
                Piece::Number(u64::from(*client)),
                Piece::Word(b" one"),
            ],
        ),
        Line::DispatchAll { client, workers } => put_pieces(
            out,
            &[
                Piece::Word(b"dispatch "),
                Piece::Number(u64::from(*client)),
                Piece::Word(b" all workers="),
                Piece::Number(u64::from(*workers)),
            ],
        ),
        Line::Servers => put(out, b"servers"),
        Line::Files => put(out, b"files"),
        Line::Cat { name } => put_pieces(
            out,
            &[Piece::Word(b"cat "), Piece::Quoted(name.as_slice())],
        ),
    }
}

/// The bytes of these lines.
fn written(alloc: Global, lines: &[Line]) -> Result<Vec<u8>, AllocError>
    ensures { IfOk result (λ bytes. bytes.items ≡ script_text lines.now) }
{
    let mut out = Vec::new(alloc);
    for line in lines {
        put_script_line(&mut out, line)?;
        put(&mut out, b"\n")?;
    }
    Ok(out)
}

/// The bytes of a line, without the LF that ends it in a script.
pub fn print_line(alloc: Global, line: &Line) -> Result<Vec<u8>, AllocError>
    ensures written { IfOk result (λ bytes. bytes.items ≡ line_text line.now) }
    ensures spelled { (raw : List ℕ) → Spells line.now raw → Spells line.now (line_text line.now) }
{
    let mut out = Vec::new(alloc);
    put_script_line(&mut out, line)?;
    Ok(out)
}

/// The bytes of these lines, each written for itself and ended by LF.
///
/// A line that has a spelling is written in one, so the lines of a script are read again from what is written. Other lines
/// are written in the same way. Bytes of a text outside 32 to 126 stand by their numbers, and no others.
pub fn print_script(alloc: Global, lines: &Seq<Line>) -> Result<Vec<u8>, AllocError>
    ensures written { IfOk result (λ bytes. bytes.items ≡ script_text lines.now) }
    ensures spelled { (line : Line) (raw : List ℕ) → Spells line raw
        → Spells line (line_text line) }
    ensures again { IfOk result (λ bytes. (other : List ℕ) → IsScriptOf lines.now other
        → IsScriptOf lines.now bytes.items) }
{
    let bytes = written(alloc, lines.as_slice())?;
    Ok(bytes)
}
