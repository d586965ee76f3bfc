//! Lines on clients: replies and callbacks.
ghost use Rattle.std.specs.Prelude.{◌≡◌, ◌++◌, ◌∷◌, [], OnOk, OnErr, IfOk};
ghost use Rattle.event_text.specs.Texts.{reply_line, declined_line, ids_of, lost_lines_of, lost_lines, write_line, filter_line, done_lines, callback_lines, dispatched_line, AddedInPart};

use crate::pieces::{Piece, put_line};
use ais_values::{Seq, Status};
use calls::{Callback, Reply};
use std::alloc::{AllocError, Global};
use stream_config::StreamName;
use sub_queue::Lost;

/// Adds the line of a reply that a client's agent takes. Where memory runs out nothing is added.
#[tactic(auto, unfolding(crate::specs::Texts::reply_line))]
pub fn put_reply(
    alloc: Global,
    lines: &mut Vec<Seq<u8>>,
    client: u16,
    seq: u32,
    reply: &Reply,
) -> Result<(), AllocError>
    ensures ok { OnOk result (lines.new.items ≡ lines.old.items ++ reply_line client seq reply.now
        ∷ []) }
    ensures err { OnErr result (lines.new.items ≡ lines.old.items) }
{
    match reply {
        Reply::Refused { status } => put_line(
            alloc,
            lines,
            &[
                Piece::Word(b"reply "),
                Piece::Number(u64::from(client)),
                Piece::Word(b" "),
                Piece::Number(u64::from(seq)),
                Piece::Word(b" "),
                Piece::Answer(*status),
                Piece::Word(b"\n"),
            ],
        ),
        Reply::Done => put_line(
            alloc,
            lines,
            &[
                Piece::Word(b"reply "),
                Piece::Number(u64::from(client)),
                Piece::Word(b" "),
                Piece::Number(u64::from(seq)),
                Piece::Word(b" ok"),
                Piece::Word(b"\n"),
            ],
        ),
        Reply::Sent { id } => put_line(
            alloc,
            lines,
            &[
                Piece::Word(b"reply "),
                Piece::Number(u64::from(client)),
                Piece::Word(b" "),
                Piece::Number(u64::from(seq)),
                Piece::Word(b" ok id="),
                Piece::Number(*id),
                Piece::Word(b"\n"),
            ],
        ),
        Reply::Found { notification } => put_line(
            alloc,
            lines,
            &[
                Piece::Word(b"reply "),
                Piece::Number(u64::from(client)),
                Piece::Word(b" "),
                Piece::Number(u64::from(seq)),
                Piece::Word(b" ok "),
                Piece::Note(notification.get()),
                Piece::Word(b"\n"),
            ],
        ),
        Reply::Marked { filtered: true, .. } => put_line(
            alloc,
            lines,
            &[
                Piece::Word(b"reply "),
                Piece::Number(u64::from(client)),
                Piece::Word(b" "),
                Piece::Number(u64::from(seq)),
                Piece::Word(b" ok filtered"),
                Piece::Word(b"\n"),
            ],
        ),
        Reply::Marked {
            filtered: false,
            ..
        } => put_line(
            alloc,
            lines,
            &[
                Piece::Word(b"reply "),
                Piece::Number(u64::from(client)),
                Piece::Word(b" "),
                Piece::Number(u64::from(seq)),
                Piece::Word(b" ok"),
                Piece::Word(b"\n"),
            ],
        ),
    }
}

/// Adds the line of what a client's agent refuses by itself. Where memory runs out nothing is added.
#[tactic(auto, unfolding(crate::specs::Texts::declined_line))]
pub fn put_declined(
    alloc: Global,
    lines: &mut Vec<Seq<u8>>,
    client: u16,
    status: Status,
) -> Result<(), AllocError>
    ensures ok { OnOk result (lines.new.items ≡ lines.old.items ++ declined_line client status
        ∷ []) }
    ensures err { OnErr result (lines.new.items ≡ lines.old.items) }
{
    put_line(
        alloc,
        lines,
        &[
            Piece::Word(b"reply "),
            Piece::Number(u64::from(client)),
            Piece::Word(b" - "),
            Piece::Answer(status),
            Piece::Word(b"\n"),
        ],
    )
}

/// Adds the line of a dispatch that handed out so many callbacks. Where memory runs out nothing is added.
#[tactic(auto, unfolding(crate::specs::Texts::dispatched_line))]
pub fn put_dispatched(
    alloc: Global,
    lines: &mut Vec<Seq<u8>>,
    client: u16,
    count: u64,
) -> Result<(), AllocError>
    ensures ok { OnOk result (lines.new.items ≡ lines.old.items ++ dispatched_line client count
        ∷ []) }
    ensures err { OnErr result (lines.new.items ≡ lines.old.items) }
{
    put_line(
        alloc,
        lines,
        &[
            Piece::Word(b"reply "),
            Piece::Number(u64::from(client)),
            Piece::Word(b" - ok dispatched="),
            Piece::Number(count),
            Piece::Word(b"\n"),
        ],
    )
}

/// The ids of the lost notifications of the type of this code.
fn ids_of_kind(alloc: Global, lost: &[Lost], kind: u16) -> Result<Vec<u64>, AllocError>
    ensures { IfOk result (λ ids. ids.items ≡ ids_of kind lost.now) }
{
    lost.iter()
        .filter(|one| one.kind == kind)
        .map(|one| one.id)
        .collect(alloc)
}

/// What the callback of losses tells beside them.
#[derive(Clone, Copy)]
struct Place {
    client: u16,
    number: u64,
    id: u32,
}

/// Adds the line on the lost notifications of one type, if there are any. Where memory runs out nothing is added.
#[tactic(auto, unfolding(crate::specs::Texts::lost_lines_of))]
fn put_ids_of<'a>(
    alloc: Global,
    lines: &mut Vec<Seq<u8>>,
    place: Place,
    word: &'a [u8],
    ids: &'a [u64],
) -> Result<(), AllocError>
    ensures ok { OnOk result (lines.new.items ≡ lines.old.items
        ++ lost_lines_of place.client place.number place.id word.now ids.now) }
    ensures err { OnErr result (lines.new.items ≡ lines.old.items) }
{
    if ids.is_empty() {
        return Ok(());
    }
    put_line(
        alloc,
        lines,
        &[
            Piece::Word(b"callback "),
            Piece::Number(u64::from(place.client)),
            Piece::Word(b" "),
            Piece::Number(place.number),
            Piece::Word(b" lost "),
            Piece::Number(u64::from(place.id)),
            Piece::Word(b" "),
            Piece::Word(word),
            Piece::Word(b" count="),
            Piece::Number(ids.len() as u64),
            Piece::Word(b" ids="),
            Piece::Ids(ids),
            Piece::Word(b"\n"),
        ],
    )
}

/// Adds the line on the lost notifications of the type of this code, if there are any. Where memory runs out nothing is added.
fn put_lost_of(
    alloc: Global,
    lines: &mut Vec<Seq<u8>>,
    place: Place,
    word: &[u8],
    lost: &[Lost],
    kind: u16,
) -> Result<(), AllocError>
    ensures ok { OnOk result (lines.new.items ≡ lines.old.items
        ++ lost_lines_of place.client place.number place.id word.now (ids_of kind lost.now)) }
    ensures err { OnErr result (lines.new.items ≡ lines.old.items) }
{
    let ids = ids_of_kind(alloc, lost, kind)?;
    put_ids_of(alloc, lines, place, word, ids.as_slice())
}

/// Adds a line for each type of which notifications are lost, by rising codes. Where memory runs out, some of them, from the
/// first on, may have been added.
#[tactic(auto, unfolding(crate::specs::Texts::lost_lines), using(script_printer::proofs::Chain::chained))]
fn put_lost(
    alloc: Global,
    lines: &mut Vec<Seq<u8>>,
    place: Place,
    lost: &[Lost],
) -> Result<(), AllocError>
    ensures ok { OnOk result (lines.new.items ≡ lines.old.items
        ++ lost_lines place.client place.number place.id lost.now) }
    ensures err { OnErr result (AddedInPart lines.old.items
        (lost_lines place.client place.number place.id lost.now) lines.new.items) }
{
    put_lost_of(alloc, lines, place, b"objects", lost, 0x1000)?;
    put_lost_of(alloc, lines, place, b"attributes", lost, 0x2000)?;
    put_lost_of(alloc, lines, place, b"states", lost, 0x3000)?;
    put_lost_of(alloc, lines, place, b"alarm", lost, 0x4000)?;
    put_lost_of(alloc, lines, place, b"security", lost, 0x5000)?;
    Ok(())
}

/// Adds the line of the callback of a write. Where memory runs out nothing is added.
#[tactic(auto, unfolding(crate::specs::Texts::write_line))]
fn put_write(
    alloc: Global,
    lines: &mut Vec<Seq<u8>>,
    client: u16,
    number: u64,
    invocation: u64,
    status: Status,
) -> Result<(), AllocError>
    ensures ok { OnOk result (lines.new.items ≡ lines.old.items
        ++ write_line client number invocation status ∷ []) }
    ensures err { OnErr result (lines.new.items ≡ lines.old.items) }
{
    put_line(
        alloc,
        lines,
        &[
            Piece::Word(b"callback "),
            Piece::Number(u64::from(client)),
            Piece::Word(b" "),
            Piece::Number(number),
            Piece::Word(b" write "),
            Piece::Number(invocation),
            Piece::Word(b" "),
            Piece::Answer(status),
            Piece::Word(b"\n"),
        ],
    )
}

/// Adds the line of the callback of a stream's mask. Where memory runs out nothing is added.
#[tactic(auto, unfolding(crate::specs::Texts::filter_line))]
fn put_filter(
    alloc: Global,
    lines: &mut Vec<Seq<u8>>,
    client: u16,
    number: u64,
    stream: &StreamName,
    mask: u32,
) -> Result<(), AllocError>
    ensures ok { OnOk result (lines.new.items ≡ lines.old.items
        ++ filter_line client number stream.now mask ∷ []) }
    ensures err { OnErr result (lines.new.items ≡ lines.old.items) }
{
    put_line(
        alloc,
        lines,
        &[
            Piece::Word(b"callback "),
            Piece::Number(u64::from(client)),
            Piece::Word(b" "),
            Piece::Number(number),
            Piece::Word(b" filter "),
            Piece::Stream(stream),
            Piece::Word(b" mask="),
            Piece::Number(u64::from(mask)),
            Piece::Word(b"\n"),
        ],
    )
}

/// Adds the line of the write that the callback of a mask tells of, if there is one. Where memory runs out nothing is added.
#[tactic(auto, unfolding(crate::specs::Texts::done_lines))]
fn put_done(
    alloc: Global,
    lines: &mut Vec<Seq<u8>>,
    client: u16,
    number: u64,
    written: Option<u64>,
) -> Result<(), AllocError>
    ensures ok { OnOk result (lines.new.items ≡ lines.old.items
        ++ done_lines client number written) }
    ensures err { OnErr result (lines.new.items ≡ lines.old.items) }
{
    match written {
        Some(invocation) => put_write(alloc, lines, client, number, invocation, Status::Ok),
        None => Ok(()),
    }
}

/// Adds the lines of the callback of a stream's mask. Where memory runs out, the first of two may have been added.
#[tactic(auto, using(crate::proofs::Chain::none_added))]
fn put_mask(
    alloc: Global,
    lines: &mut Vec<Seq<u8>>,
    client: u16,
    number: u64,
    stream: &StreamName,
    mask: u32,
    written: Option<u64>,
) -> Result<(), AllocError>
    ensures ok { OnOk result (lines.new.items ≡ lines.old.items
        ++ (filter_line client number stream.now mask ∷ done_lines client number written)) }
    ensures err { OnErr result (AddedInPart lines.old.items
        (filter_line client number stream.now mask ∷ done_lines client number written)
        lines.new.items) }
{
    put_filter(alloc, lines, client, number, stream, mask)?;
    put_done(alloc, lines, client, number, written)?;
    Ok(())
}

/// Adds the lines of a client's callback of this number that is handed out: one, but for losses, which have one for each type,
/// and for a mask that tells of a write too, which has two.
///
/// Where memory runs out, some of the lines, from the first on, may have been added.
#[tactic(auto, unfolding(crate::specs::Texts::callback_lines), using(crate::proofs::Chain::none_added))]
pub fn put_callback(
    alloc: Global,
    lines: &mut Vec<Seq<u8>>,
    client: u16,
    number: u64,
    callback: &Callback,
) -> Result<(), AllocError>
    ensures ok { OnOk result (lines.new.items ≡ lines.old.items
        ++ callback_lines client number callback.now) }
    ensures err { OnErr result (AddedInPart lines.old.items
        (callback_lines client number callback.now) lines.new.items) }
{
    match callback {
        Callback::Written { invocation, status } => {
            put_write(alloc, lines, client, number, *invocation, *status)
        }
        Callback::Notified { id, notification } => put_line(
            alloc,
            lines,
            &[
                Piece::Word(b"callback "),
                Piece::Number(u64::from(client)),
                Piece::Word(b" "),
                Piece::Number(number),
                Piece::Word(b" ntf "),
                Piece::Number(u64::from(*id)),
                Piece::Word(b" "),
                Piece::Note(notification.get()),
                Piece::Word(b"\n"),
            ],
        ),
        Callback::Discarded { id, lost } => {
            let place = Place {
                client,
                number,
                id: *id,
            };
            put_lost(alloc, lines, place, lost.as_slice())
        }
        Callback::FilterSet {
            stream,
            mask,
            written,
        } => put_mask(alloc, lines, client, number, stream, *mask, *written),
    }
}
