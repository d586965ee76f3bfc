//! A server that follows a journal's bytes.
ghost use Rattle.std.specs.Prelude.{◌≡◌, ◌++◌, Option, option_map, IfOk, OnOk};
ghost use Rattle.std.specs.Option.{option_to_list};
ghost use Rattle.journal_frames.specs.Frames.{IsShort};
ghost use Rattle.journal_found.specs.Found.{is_journal, Follower};
ghost use Rattle.mirror.specs.Pairing.{Admits};
ghost use Rattle.journal_start.specs.Replays.{first_byte, node_of, number_behind, HasFollowed, IsRead, IsTaken, PassesAs, ReadsNext};

use ais_values::Seq;
use calls::{Entry, let_entries_go, let_entry_go};
use journal_frames::read_frame;
use mirror::{Heard, Node, let_node_go};
use std::alloc::{AllocError, Global};
use wire::{Message, WireAnswer, decode, let_message_go, let_messages_go};

/// What a journal's bytes tell: the server that follows them as standby, the entries in order, the place of the gate behind the last of
/// them, how many entries the service has, and whether the gate is closed.
#[derive(Drop)]
pub struct Replayed {
    pub node: Node,
    pub entries: Seq<Entry>,
    pub place: u64,
    pub number: u64,
    pub closed: bool,
}

/// Why bytes are no journal that a server can follow.
#[derive(Clone, Copy, PartialEq, Eq, Debug)]
pub enum ReplayAnswer {
    /// Memory ran out.
    Memory,
    /// There is no journal.
    NoJournal,
    /// The open gate at this place has no whole frame with a further byte behind it.
    Refused { place: u64 },
}

/// How many entries a service has behind a message of a journal.
fn number_behind(message: &Message) -> u64
    ensures { result ≡ number_behind message.now }
{
    match message {
        Message::Snapshot { saved } => saved.get().number,
        Message::Mirror { number, entry: _ } => *number,
        _ => 0,
    }
}

/// The message of a text, if it is one that the server admits.
fn read_next(alloc: Global, node: &Node, text: &[u8]) -> Result<Option<Message>, AllocError>
    requires { IsShort text.now }
    ensures { IfOk result (ReadsNext text.now node.now) }
{
    let message = match decode(alloc, text) {
        Ok(message) => message,
        Err(WireAnswer::Memory) => return Err(AllocError),
        Err(WireAnswer::Refused { .. }) => return Ok(None),
    };
    if node.admits(alloc, &message)? {
        Ok(Some(message))
    } else {
        let_message_go(Some(message));
        Ok(None)
    }
}

/// The server receives a message that it admits; the entry that it brings, if it brings one.
fn take_next(alloc: Global, node: &mut Node, message: &Message) -> Result<Option<Entry>, AllocError>
    requires follows { (follower : Option Follower) × (node.old ≡ node_of follower) }
    requires admits { Admits message.now node.old }
    ensures { IfOk result (λ entry. IsTaken message.now node.old node.new entry) }
{
    let heard = node.receive(alloc, message, 0)?;
    let Heard {
        to_net,
        to_peer,
        committed,
        outcome: _,
    } = heard;
    let_messages_go(to_net);
    let_messages_go(to_peer);
    Ok(committed)
}

/// Adds an entry, if there is one.
fn add(entries: &mut Vec<Entry>, entry: Option<Entry>) -> Result<(), AllocError>
    ensures { OnOk result (entries.new.items ≡ entries.old.items ++ option_to_list entry) }
{
    match entry {
        None => Ok(()),
        Some(entry) => match entries.push(entry) {
            Ok(()) => Ok(()),
            Err(failed) => {
                let_entry_go(Some(failed.value));
                Err(AllocError)
            }
        },
    }
}

/// Follows a text, if it is that of a message that may come; whether it is.
fn follow(
    alloc: Global,
    node: &mut Node,
    entries: &mut Vec<Entry>,
    number: &mut u64,
    text: &[u8],
) -> Result<bool, AllocError>
    requires short { IsShort text.now }
    requires follows { (follower : Option Follower) × (node.old ≡ node_of follower) }
    ensures { IfOk result (λ known. HasFollowed known text.now node.old node.new
        entries.old.items entries.new.items number.new) }
{
    let message = match read_next(alloc, node, text) {
        Ok(Some(message)) => message,
        Ok(None) => return Ok(false),
        Err(error) => return Err(error),
    };
    let entry = match take_next(alloc, node, &message) {
        Ok(entry) => entry,
        Err(error) => {
            let_message_go(Some(message));
            return Err(error);
        }
    };
    *number = number_behind(&message);
    let_message_go(Some(message));
    match add(entries, entry) {
        Ok(()) => Ok(true),
        Err(error) => Err(error),
    }
}

/// Whether there is a journal: its first gate is open, and a byte stands behind it.
fn begins(bytes: &[u8]) -> bool
    ensures { result ≡ is_journal bytes.now }
{
    match bytes {
        [gate, _, ..] => *gate == 1,
        _ => false,
    }
}

/// The byte at the front, or 0.
fn gate_of(rest: &[u8]) -> u8
    ensures { result ≡ first_byte rest.now }
{
    match rest {
        [gate, ..] => *gate,
        _ => 0,
    }
}

/// Follows the frame at the front, if it is whole, a byte stands behind it, and its message may come; what stands behind it.
fn pass<'a>(
    alloc: Global,
    node: &mut Node,
    entries: &mut Vec<Entry>,
    number: &mut u64,
    rest: &'a [u8],
) -> Result<Option<&'a [u8]>, AllocError>
    requires { (follower : Option Follower) × (node.old ≡ node_of follower) }
    ensures { IfOk result (λ found. PassesAs (option_map (λ behind. behind.now) found) rest.now
        node.old node.new entries.old.items entries.new.items number.old number.new) }
{
    let (text, behind) = match read_frame(rest) {
        Some(found) => found,
        None => return Ok(None),
    };
    if behind.is_empty() {
        return Ok(None);
    }
    match follow(alloc, node, entries, number, text) {
        Ok(known) => { if known { Ok(Some(behind)) } else { Ok(None) } }
        Err(error) => Err(error),
    }
}

/// Reads a journal's bytes to the first gate that is not open.
///
/// A server that joins receives the first message, which brings the value of the service, and then each entry in turn. `NoJournal` comes
/// exactly where the bytes are fewer than two, or the first gate is not open; `Refused` exactly where some open gate has no whole frame
/// with a further byte behind it, at the first such gate; `Memory` only for want of memory.
pub fn replay(alloc: Global, bytes: &[u8]) -> Result<Replayed, ReplayAnswer>
    ensures { IsRead bytes.now result }
{
    if !begins(bytes) {
        return Err(ReplayAnswer::NoJournal);
    }
    let mut node = Node::joining(alloc);
    let mut entries = Vec::new(alloc);
    let mut number: u64 = 0;
    let mut rest = bytes;
    while gate_of(rest) == 1 {
        rest = match pass(alloc, &mut node, &mut entries, &mut number, rest) {
            Ok(Some(behind)) => behind,
            Ok(None) => {
                let place = (bytes.len() - rest.len()) as u64;
                let_node_go(node);
                let_entries_go(Seq::from_vec(entries));
                return Err(ReplayAnswer::Refused { place });
            }
            Err(_) => {
                let_node_go(node);
                let_entries_go(Seq::from_vec(entries));
                return Err(ReplayAnswer::Memory);
            }
        };
    }
    Ok(Replayed {
        node,
        entries: Seq::from_vec(entries),
        place: (bytes.len() - rest.len()) as u64,
        number,
        closed: gate_of(rest) == 0,
    })
}
