//! Pieces of lines, and lines of pieces.
ghost use Rattle.std.specs.Prelude.{◌≡◌, ◌++◌, ◌∷◌, [], OnOk, OnErr, codes};
ghost use Rattle.std.specs.Fmt.{decimal};
ghost use Rattle.std.specs.List.{flat_map, join_by};
ghost use Rattle.cluster_events.specs.Lines.{listed_roles};
ghost use Rattle.event_text.specs.Texts.{fault_text, why_text, role_text, roles_text};
ghost use Rattle.event_text.specs.Pieces.{piece_text};

use ais_values::{Seq, Status};
use cluster_events::{Roles, ServerRole, Why};
use ntf_types::Notification;
use script_lines::{Line, Server};
use script_printer::{
    Printable, put, put_all, put_number, put_script_line, put_shown_note, put_signed, put_stream,
};
use std::alloc::{AllocError, Global};
use stream_config::StreamName;
use wire::WireWhy;

/// Room that most lines need no more than.
const ROOM: usize = 64;

/// A piece of a line.
#[derive(Clone, Copy)]
pub(crate) enum Piece<'a> {
    /// Bytes as they are.
    Word(&'a [u8]),
    Number(u64),
    Signed(i64),
    Answer(Status),
    /// A notification as it is shown.
    Note(&'a Notification),
    /// The name of a stream.
    Stream(&'a StreamName),
    /// A line of a script.
    Script(&'a Line),
    /// Numbers with commas between them.
    Ids(&'a [u64]),
    Reason(Why),
    Role(ServerRole),
    /// The servers with their roles.
    Roles(Roles),
    /// The number of the entry in hand.
    Hand(Option<u64>),
    Node(Server),
}

/// Adds a comma and a number.
#[tactic(auto, using(script_printer::proofs::Chain::chained))]
fn put_further(out: &mut Vec<u8>, number: u64) -> Result<(), AllocError>
    ensures { OnOk result (out.new.items ≡ out.old.items ++ (codes "," ++ decimal number)) }
{
    put(out, b",")?;
    put_number(out, number)?;
    Ok(())
}

/// Adds numbers, each behind a comma.
fn put_furthers(out: &mut Vec<u8>, numbers: &[u64]) -> Result<(), AllocError>
    ensures { OnOk result (out.new.items ≡ out.old.items
        ++ flat_map (λ one. codes "," ++ decimal one) numbers.now) }
{
    for number in numbers {
        put_further(out, *number)?;
    }
    Ok(())
}

/// Adds numbers with commas between them.
#[tactic(auto, using(script_printer::proofs::Chain::chained))]
fn put_ids(out: &mut Vec<u8>, numbers: &[u64]) -> Result<(), AllocError>
    ensures { OnOk result (out.new.items ≡ out.old.items
        ++ join_by decimal (codes ",") numbers.now) }
{
    match numbers {
        [] => put(out, b""),
        [first, others @ ..] => {
            put_number(out, *first)?;
            put_furthers(out, others)?;
            Ok(())
        }
    }
}

/// Adds the word of what is wrong where bytes stop to be the front of a message.
fn put_fault(out: &mut Vec<u8>, why: WireWhy) -> Result<(), AllocError>
    ensures { OnOk result (out.new.items ≡ out.old.items ++ fault_text why) }
{
    match why {
        WireWhy::Trailing => put(out, b"trailing"),
        WireWhy::Short => put(out, b"short"),
        WireWhy::BadValue => put(out, b"value"),
    }
}

/// Adds the reason for which a byte string had no effect.
#[tactic(auto, using(script_printer::proofs::Chain::chained))]
fn put_why(out: &mut Vec<u8>, why: Why) -> Result<(), AllocError>
    ensures { OnOk result (out.new.items ≡ out.old.items ++ why_text why) }
{
    match why {
        Why::OldRequest => put(out, b"old"),
        Why::AheadRequest => put(out, b"ahead"),
        Why::Busy { number } => {
            put(out, b"busy ")?;
            put_number(out, number)?;
            Ok(())
        }
        Why::DoneReceipt => put(out, b"done"),
        Why::ServerDown => put(out, b"down"),
        Why::AnsweredReply => put(out, b"answered"),
        Why::Left => put(out, b"left"),
        Why::TakenItem => put(out, b"taken"),
        Why::AheadItem => put(out, b"ahead"),
        Why::GoneItem => put(out, b"gone"),
        Why::Bad { front, why } => {
            put(out, b"bad ")?;
            put_number(out, u64::from(front))?;
            put(out, b" ")?;
            put_fault(out, why)?;
            Ok(())
        }
    }
}

/// The word of a server's role, as lines print it.
pub fn role_word(role: ServerRole) -> &'static str
    ensures { result.now ≡ role_text role }
{
    match role {
        ServerRole::Active => "active",
        ServerRole::Armed => "armed",
        ServerRole::Standby => "standby",
        ServerRole::Joining => "joining",
        ServerRole::Down => "down",
        ServerRole::Journal => "journal",
    }
}

/// Adds the word of a server and its role.
#[tactic(auto, using(script_printer::proofs::Chain::chained))]
fn put_role(out: &mut Vec<u8>, word: &[u8], role: ServerRole) -> Result<(), AllocError>
    ensures { OnOk result (out.new.items ≡ out.old.items ++ (word.now ++ role_text role)) }
{
    put(out, word)?;
    put(out, role_word(role).as_bytes())?;
    Ok(())
}

/// Adds the servers with their roles.
#[tactic(auto, using(script_printer::proofs::Chain::chained))]
fn put_roles(out: &mut Vec<u8>, roles: Roles) -> Result<(), AllocError>
    ensures { OnOk result (out.new.items ≡ out.old.items ++ roles_text (listed_roles roles)) }
{
    match roles {
        Roles::Two { a, b } => {
            put_role(out, b" a=", a)?;
            put_role(out, b" b=", b)?;
            Ok(())
        }
        Roles::Three { a, b, c } => {
            put_role(out, b" a=", a)?;
            put_role(out, b" b=", b)?;
            put_role(out, b" c=", c)?;
            Ok(())
        }
    }
}

/// Adds a piece.
fn put_piece(out: &mut Vec<u8>, piece: &Piece) -> Result<(), AllocError>
    ensures { OnOk result (out.new.items ≡ out.old.items ++ piece_text piece.now) }
{
    match piece {
        Piece::Word(word) => put(out, word),
        Piece::Number(number) => put_number(out, *number),
        Piece::Signed(number) => put_signed(out, *number),
        Piece::Answer(status) => put(out, status.word().as_bytes()),
        Piece::Note(notification) => put_shown_note(out, notification),
        Piece::Stream(name) => put_stream(out, name),
        Piece::Script(line) => put_script_line(out, line),
        Piece::Ids(ids) => put_ids(out, ids),
        Piece::Reason(why) => put_why(out, *why),
        Piece::Role(role) => put(out, role_word(*role).as_bytes()),
        Piece::Roles(roles) => put_roles(out, *roles),
        Piece::Hand(Some(number)) => put_number(out, *number),
        Piece::Hand(None) => put(out, b"-"),
        Piece::Node(Server::A) => put(out, b"a"),
        Piece::Node(Server::B) => put(out, b"b"),
        Piece::Node(Server::C) => put(out, b"c"),
    }
}

impl Printable for Piece<'_> {
    ghost use Rattle.event_text.specs.Pieces.{piece_text};

    ghost text = { piece_text };

    fn print(&self, out: &mut Vec<u8>) -> Result<(), AllocError> {
        put_piece(out, self)
    }
}

/// Adds a line of these pieces. Where memory runs out nothing is added.
pub(crate) fn put_line(
    alloc: Global,
    lines: &mut Vec<Seq<u8>>,
    pieces: &[Piece],
) -> Result<(), AllocError>
    ensures ok { OnOk result (lines.new.items ≡ lines.old.items ++ flat_map piece_text pieces.now
        ∷ []) }
    ensures err { OnErr result (lines.new.items ≡ lines.old.items) }
{
    let mut text = Vec::with_capacity(alloc, ROOM)?;
    put_all(&mut text, pieces)?;
    lines.push(Seq::from_vec(text))?;
    Ok(())
}
