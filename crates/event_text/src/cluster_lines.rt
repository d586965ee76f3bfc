//! Lines on the net, the history, servers and files.
ghost use Rattle.std.specs.Prelude.{◌≡◌, ◌++◌, ◌∷◌, [], OnOk, OnErr};
ghost use Rattle.script_language.specs.Printing.{line_text};
ghost use Rattle.cluster_events.specs.Lines.{listed_roles};
ghost use Rattle.event_text.specs.Pieces.{piece_text};
ghost use Rattle.event_text.specs.Texts.{post_lines, raw_line, entry_line, ignored_line, refused_line, role_lines, server_line, file_line, text_line};

use crate::pieces::{Piece, put_line};
use ais_values::Seq;
use calls::Entry;
use cluster_events::{Roles, ServerRole, Standing, Why};
use script_lines::{Line, Server};
use std::alloc::{AllocError, Global};
use wire::Message;

/// Adds the line of a message that enters the net under this number. Only requests, replies, items and receipts have one.
/// Where memory runs out nothing is added.
#[tactic(auto, unfolding(crate::specs::Texts::post_lines))]
pub fn put_post(
    alloc: Global,
    lines: &mut Vec<Seq<u8>>,
    number: u64,
    message: &Message,
) -> Result<(), AllocError>
    ensures ok { OnOk result (lines.new.items ≡ lines.old.items ++ post_lines number message.now) }
    ensures err { OnErr result (lines.new.items ≡ lines.old.items) }
{
    match message {
        Message::Request { client, seq, .. } => put_line(
            alloc,
            lines,
            &[
                Piece::Word(b"post "),
                Piece::Number(number),
                Piece::Word(b" req "),
                Piece::Number(u64::from(*client)),
                Piece::Word(b" "),
                Piece::Number(u64::from(*seq)),
                Piece::Word(b"\n"),
            ],
        ),
        Message::Reply { client, seq, .. } => put_line(
            alloc,
            lines,
            &[
                Piece::Word(b"post "),
                Piece::Number(number),
                Piece::Word(b" rep "),
                Piece::Number(u64::from(*client)),
                Piece::Word(b" "),
                Piece::Number(u64::from(*seq)),
                Piece::Word(b"\n"),
            ],
        ),
        Message::Item { client, key, item } => put_line(
            alloc,
            lines,
            &[
                Piece::Word(b"post "),
                Piece::Number(number),
                Piece::Word(b" item "),
                Piece::Number(u64::from(*client)),
                Piece::Word(b" "),
                Piece::Number(u64::from(*key)),
                Piece::Word(b" "),
                Piece::Number(u64::from(item.number)),
                Piece::Word(b"\n"),
            ],
        ),
        Message::Receipt {
            client,
            key,
            through,
        } => put_line(
            alloc,
            lines,
            &[
                Piece::Word(b"post "),
                Piece::Number(number),
                Piece::Word(b" rcpt "),
                Piece::Number(u64::from(*client)),
                Piece::Word(b" "),
                Piece::Number(u64::from(*key)),
                Piece::Word(b" "),
                Piece::Number(u64::from(*through)),
                Piece::Word(b"\n"),
            ],
        ),
        _ => Ok(()),
    }
}

/// Adds the line of injected bytes, so many, that enter the net under this number. Where memory runs out nothing is added.
#[tactic(auto, unfolding(crate::specs::Texts::raw_line))]
pub fn put_raw(
    alloc: Global,
    lines: &mut Vec<Seq<u8>>,
    number: u64,
    count: u64,
) -> Result<(), AllocError>
    ensures ok { OnOk result (lines.new.items ≡ lines.old.items ++ raw_line number count ∷ []) }
    ensures err { OnErr result (lines.new.items ≡ lines.old.items) }
{
    put_line(
        alloc,
        lines,
        &[
            Piece::Word(b"post "),
            Piece::Number(number),
            Piece::Word(b" raw "),
            Piece::Number(count),
            Piece::Word(b"\n"),
        ],
    )
}

/// Adds the line of an entry that is committed under this number. Where memory runs out nothing is added.
#[tactic(auto, unfolding(crate::specs::Texts::entry_line))]
pub fn put_entry(
    alloc: Global,
    lines: &mut Vec<Seq<u8>>,
    number: u64,
    entry: &Entry,
) -> Result<(), AllocError>
    ensures ok { OnOk result (lines.new.items ≡ lines.old.items ++ entry_line number entry.now
        ∷ []) }
    ensures err { OnErr result (lines.new.items ≡ lines.old.items) }
{
    match entry {
        Entry::Called {
            client,
            seq,
            time,
            ..
        } => put_line(
            alloc,
            lines,
            &[
                Piece::Word(b"acc "),
                Piece::Number(number),
                Piece::Word(b" call "),
                Piece::Number(u64::from(*client)),
                Piece::Word(b" "),
                Piece::Number(u64::from(*seq)),
                Piece::Word(b" "),
                Piece::Signed(*time),
                Piece::Word(b"\n"),
            ],
        ),
        Entry::Receipted {
            client,
            key,
            through,
            time,
        } => put_line(
            alloc,
            lines,
            &[
                Piece::Word(b"acc "),
                Piece::Number(number),
                Piece::Word(b" rcpt "),
                Piece::Number(u64::from(*client)),
                Piece::Word(b" "),
                Piece::Number(u64::from(*key)),
                Piece::Word(b" "),
                Piece::Number(u64::from(*through)),
                Piece::Word(b" "),
                Piece::Signed(*time),
                Piece::Word(b"\n"),
            ],
        ),
    }
}

/// Adds the line of a delivered byte string, that of this number in the net, which had no effect. Where memory runs out nothing is
/// added.
#[tactic(auto, unfolding(crate::specs::Texts::ignored_line))]
pub fn put_ignored(
    alloc: Global,
    lines: &mut Vec<Seq<u8>>,
    place: u64,
    why: Why,
) -> Result<(), AllocError>
    ensures ok { OnOk result (lines.new.items ≡ lines.old.items ++ ignored_line place why ∷ []) }
    ensures err { OnErr result (lines.new.items ≡ lines.old.items) }
{
    put_line(
        alloc,
        lines,
        &[
            Piece::Word(b"ignored "),
            Piece::Number(place),
            Piece::Word(b" "),
            Piece::Reason(why),
            Piece::Word(b"\n"),
        ],
    )
}

/// Adds the line of a refused event of which this piece is the script's line.
#[tactic(auto, unfolding(crate::specs::Texts::refused_line))]
fn put_refused_piece(
    alloc: Global,
    lines: &mut Vec<Seq<u8>>,
    piece: Piece,
    standing: &Standing,
) -> Result<(), AllocError>
    ensures ok { OnOk result (lines.new.items ≡ lines.old.items
        ++ refused_line (piece_text piece.entry) standing.now ∷ []) }
    ensures err { OnErr result (lines.new.items ≡ lines.old.items) }
{
    put_line(
        alloc,
        lines,
        &[
            Piece::Word(b"refused "),
            piece,
            Piece::Roles(standing.roles),
            Piece::Word(b" net="),
            Piece::Number(standing.net),
            Piece::Word(b" link="),
            Piece::Number(standing.link),
            Piece::Word(b" back="),
            Piece::Number(standing.back),
            Piece::Word(b" hand="),
            Piece::Hand(standing.in_hand),
            Piece::Word(b"\n"),
        ],
    )
}

/// Adds the line of a refused event: the script's line, and how the cluster stands. Where memory runs out nothing is added.
pub fn put_refused(
    alloc: Global,
    lines: &mut Vec<Seq<u8>>,
    line: &Line,
    standing: &Standing,
) -> Result<(), AllocError>
    ensures ok { OnOk result (lines.new.items ≡ lines.old.items
        ++ refused_line (line_text line.now) standing.now ∷ []) }
    ensures err { OnErr result (lines.new.items ≡ lines.old.items) }
{
    put_refused_piece(alloc, lines, Piece::Script(line), standing)
}

/// The same of a line of this text, without its LF.
pub fn put_refused_text(
    alloc: Global,
    lines: &mut Vec<Seq<u8>>,
    text: &[u8],
    standing: &Standing,
) -> Result<(), AllocError>
    ensures ok { OnOk result (lines.new.items ≡ lines.old.items
        ++ refused_line text.now standing.now ∷ []) }
    ensures err { OnErr result (lines.new.items ≡ lines.old.items) }
{
    put_refused_piece(alloc, lines, Piece::Word(text), standing)
}

/// Adds the line of a server's role. Where memory runs out nothing is added.
#[tactic(auto, unfolding(crate::specs::Texts::server_line))]
pub fn put_server(
    alloc: Global,
    lines: &mut Vec<Seq<u8>>,
    server: Server,
    role: ServerRole,
) -> Result<(), AllocError>
    ensures ok { OnOk result (lines.new.items ≡ lines.old.items ++ server_line server role ∷ []) }
    ensures err { OnErr result (lines.new.items ≡ lines.old.items) }
{
    put_line(
        alloc,
        lines,
        &[
            Piece::Word(b"server "),
            Piece::Node(server),
            Piece::Word(b" "),
            Piece::Role(role),
            Piece::Word(b"\n"),
        ],
    )
}

/// Adds a line for each server with its role. Where memory runs out some may be added.
pub fn put_servers(alloc: Global, lines: &mut Vec<Seq<u8>>, roles: Roles) -> Result<(), AllocError>
    ensures { OnOk result (lines.new.items ≡ lines.old.items ++ role_lines (listed_roles roles)) }
{
    match roles {
        Roles::Two { a, b } => {
            put_server(alloc, lines, Server::A, a)?;
            put_server(alloc, lines, Server::B, b)
        }
        Roles::Three { a, b, c } => {
            put_server(alloc, lines, Server::A, a)?;
            put_server(alloc, lines, Server::B, b)?;
            put_server(alloc, lines, Server::C, c)
        }
    }
}

/// Adds the line of a file with its length. Where memory runs out nothing is added.
#[tactic(auto, unfolding(crate::specs::Texts::file_line))]
pub fn put_file(
    alloc: Global,
    lines: &mut Vec<Seq<u8>>,
    name: &[u8],
    length: u64,
) -> Result<(), AllocError>
    ensures ok { OnOk result (lines.new.items ≡ lines.old.items ++ file_line name.now length ∷ []) }
    ensures err { OnErr result (lines.new.items ≡ lines.old.items) }
{
    put_line(
        alloc,
        lines,
        &[
            Piece::Word(b"file "),
            Piece::Word(name),
            Piece::Word(b" "),
            Piece::Number(length),
            Piece::Word(b"\n"),
        ],
    )
}

/// Adds the line that shows a line of a file. Where memory runs out nothing is added.
#[tactic(auto, unfolding(crate::specs::Texts::text_line))]
pub fn put_text(alloc: Global, lines: &mut Vec<Seq<u8>>, text: &[u8]) -> Result<(), AllocError>
    ensures ok { OnOk result (lines.new.items ≡ lines.old.items ++ text_line text.now ∷ []) }
    ensures err { OnErr result (lines.new.items ≡ lines.old.items) }
{
    put_line(
        alloc,
        lines,
        &[Piece::Word(b"text "), Piece::Word(text), Piece::Word(b"\n")],
    )
}
