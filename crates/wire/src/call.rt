//! Spelling and reading of calls, replies, items and entries.
ghost use Rattle.std.specs.Prelude.{◌≡◌, ◌∷◌, []};
ghost use Rattle.wire_code.specs.Reading.{Gives};
ghost use Rattle.wire.specs.CallSpelling.{status_text};
ghost use Rattle.wire.specs.CallReading.{ntf_call_at, reader_call_at};

use crate::list::read_numbered;
use crate::parts::{Parts, spell_tag, spell_tagged};
use crate::wire::Wire;
use ais_values::{Seq, Status, Text};
use calls::{Call, Entry, Reply};
use ntf_filters::FilterSet;
use record_print::Header;
use std::alloc::{AllocError, Global};
use stream_config::StreamName;
use sub_queue::{Content, Item, Lost};
use wire_code::{Fault, Trouble, read_client, read_count, read_first};

/// The byte of a status.
#[tactic(auto, unfolding(crate::specs::CallSpelling::status_text))]
fn status_tag(status: Status) -> u8
    ensures { status_text status ≡ result ∷ [] }
{
    match status {
        Status::Ok => 1,
        Status::Version => 3,
        Status::TryAgain => 6,
        Status::InvalidParam => 7,
        Status::BadHandle => 9,
        Status::NotExist => 12,
        Status::Exist => 14,
        Status::NoSpace => 15,
        Status::NoResources => 18,
        Status::BadFlags => 25,
    }
}

impl Wire for Status {
    ghost use Rattle.wire.specs.CallSpelling.{status_text, StatusFits};
    ghost use Rattle.wire.specs.CallReading.{status_at};

    ghost text = { status_text };

    ghost Fits = { StatusFits };

    ghost at = { status_at };

    fn spell(&self, out: &mut Vec<u8>) -> Result<(), AllocError> {
        spell_tag(status_tag(*self), out)?;
        Ok(())
    }

    #[tactic(auto, unfolding(crate::specs::CallReading::status_at))]
    fn read_front(_alloc: Global, bytes: &[u8]) -> Result<(Status, &[u8]), Trouble> {
        let (tag, rest) = read_first(bytes)?;
        match tag {
            1 => Ok((Status::Ok, rest)),
            3 => Ok((Status::Version, rest)),
            6 => Ok((Status::TryAgain, rest)),
            7 => Ok((Status::InvalidParam, rest)),
            9 => Ok((Status::BadHandle, rest)),
            12 => Ok((Status::NotExist, rest)),
            14 => Ok((Status::Exist, rest)),
            15 => Ok((Status::NoSpace, rest)),
            18 => Ok((Status::NoResources, rest)),
            25 => Ok((Status::BadFlags, rest)),
            _ => Err(Trouble::from(Fault::before(rest))),
        }
    }
}

/// Reads a call of a reader, one that ends the use of the Notification Service, or one that sets a mask, behind its
/// tag.
fn read_reader_call(alloc: Global, tag: u8, bytes: &[u8]) -> Result<(Call, &[u8]), Trouble>
    ensures { Gives (λ found. (found.0, found.1.now)) result (reader_call_at tag bytes.now) }
{
    match tag {
        10 => {
            let ((mode, (value, filters)), rest) = Wire::read_front(alloc, bytes)?;
            Ok((
                Call::ReaderStart {
                    mode,
                    value,
                    filters,
                },
                rest,
            ))
        }
        11 => {
            let (direction, rest) = u32::read_front(alloc, bytes)?;
            Ok((Call::ReaderRead { direction }, rest))
        }
        12 => Ok((Call::ReaderEnd, bytes)),
        13 => Ok((Call::NtfFini, bytes)),
        14 => {
            let ((stream, mask), rest) = Wire::read_front(alloc, bytes)?;
            Ok((Call::LogFilter { stream, mask }, rest))
        }
        _ => Err(Trouble::from(Fault::before(bytes))),
    }
}

/// Reads any call of the Notification Service, or one that sets a mask, behind its tag.
fn read_ntf_call(alloc: Global, tag: u8, bytes: &[u8]) -> Result<(Call, &[u8]), Trouble>
    ensures { Gives (λ found. (found.0, found.1.now)) result (ntf_call_at tag bytes.now) }
{
    match tag {
        6 => Ok((Call::NtfInit, bytes)),
        7 => {
            let (notification, rest) = Wire::read_front(alloc, bytes)?;
            Ok((Call::NtfSend { notification }, rest))
        }
        8 => {
            let ((id, filters), rest) = Wire::read_front(alloc, bytes)?;
            Ok((Call::NtfSubscribe { id, filters }, rest))
        }
        9 => {
            let (id, rest) = u32::read_front(alloc, bytes)?;
            Ok((Call::NtfUnsubscribe { id }, rest))
        }
        _ => read_reader_call(alloc, tag, bytes),
    }
}

impl Wire for Call {
    ghost use Rattle.wire.specs.CallSpelling.{call_text, CallFits};
    ghost use Rattle.wire.specs.CallReading.{call_at};

    ghost text = { call_text };

    ghost Fits = { CallFits };

    ghost at = { call_at };

    #[tactic(auto, unfolding(crate::specs::CallSpelling::call_text))]
    fn spell(&self, out: &mut Vec<u8>) -> Result<(), AllocError> {
        match self {
            Call::LogInit => spell_tag(1, out),
            Call::LogOpen { stream, create } => spell_tagged(2, &(stream, create), out),
            Call::LogWrite {
                stream,
                invocation,
                flags,
                time,
                header,
                body,
            } => spell_tagged(
                3,
                &(stream, (invocation, (flags, (time, (header, body))))),
                out,
            ),
            Call::LogClose { stream } => spell_tagged(4, &stream, out),
            Call::LogFini => spell_tag(5, out),
            Call::NtfInit => spell_tag(6, out),
            Call::NtfSend { notification } => spell_tagged(7, &notification, out),
            Call::NtfSubscribe { id, filters } => spell_tagged(8, &(id, filters), out),
            Call::NtfUnsubscribe { id } => spell_tagged(9, &id, out),
            Call::ReaderStart {
                mode,
                value,
                filters,
            } => spell_tagged(10, &(mode, (value, filters)), out),
            Call::ReaderRead { direction } => spell_tagged(11, &direction, out),
            Call::ReaderEnd => spell_tag(12, out),
            Call::NtfFini => spell_tag(13, out),
            Call::LogFilter { stream, mask } => spell_tagged(14, &(stream, mask), out),
        }
    }

    #[tactic(auto, unfolding(crate::specs::CallReading::call_at))]
    fn read_front(alloc: Global, bytes: &[u8]) -> Result<(Call, &[u8]), Trouble> {
        let (tag, rest) = read_first(bytes)?;
        match tag {
            1 => Ok((Call::LogInit, rest)),
            2 => {
                let ((stream, create), rest) = Wire::read_front(alloc, rest)?;
                Ok((Call::LogOpen { stream, create }, rest))
            }
            3 => {
                let ((stream, (invocation, (flags, (time, (header, body))))), rest) =
                    Wire::read_front(alloc, rest)?;
                Ok((
                    Call::LogWrite {
                        stream,
                        invocation,
                        flags,
                        time,
                        header,
                        body,
                    },
                    rest,
                ))
            }
            4 => {
                let (stream, rest) = StreamName::read_front(alloc, rest)?;
                Ok((Call::LogClose { stream }, rest))
            }
            5 => Ok((Call::LogFini, rest)),
            _ => read_ntf_call(alloc, tag, rest),
        }
    }
}

impl Wire for Reply {
    ghost use Rattle.wire.specs.CallSpelling.{reply_text, ReplyFits};
    ghost use Rattle.wire.specs.CallReading.{reply_at};

    ghost text = { reply_text };

    ghost Fits = { ReplyFits };

    ghost at = { reply_at };

    #[tactic(auto, unfolding(crate::specs::CallSpelling::reply_text))]
    fn spell(&self, out: &mut Vec<u8>) -> Result<(), AllocError> {
        match self {
            Reply::Refused { status } => spell_tagged(1, &status, out),
            Reply::Done => spell_tag(2, out),
            Reply::Sent { id } => spell_tagged(3, &id, out),
            Reply::Found { notification } => spell_tagged(4, &notification, out),
            Reply::Marked { filtered, mark } => spell_tagged(5, &(filtered, mark), out),
        }
    }

    #[tactic(auto, unfolding(crate::specs::CallReading::reply_at))]
    fn read_front(alloc: Global, bytes: &[u8]) -> Result<(Reply, &[u8]), Trouble> {
        let (tag, rest) = read_first(bytes)?;
        match tag {
            1 => {
                let (status, rest) = Status::read_front(alloc, rest)?;
                Ok((Reply::Refused { status }, rest))
            }
            2 => Ok((Reply::Done, rest)),
            3 => {
                let (id, rest) = u64::read_front(alloc, rest)?;
                Ok((Reply::Sent { id }, rest))
            }
            4 => {
                let (notification, rest) = Wire::read_front(alloc, rest)?;
                Ok((Reply::Found { notification }, rest))
            }
            5 => {
                let ((filtered, mark), rest) = Wire::read_front(alloc, rest)?;
                Ok((Reply::Marked { filtered, mark }, rest))
            }
            _ => Err(Trouble::from(Fault::before(rest))),
        }
    }
}

impl Wire for Lost {
    ghost use Rattle.wire.specs.CallSpelling.{lost_text, LostFits};
    ghost use Rattle.wire.specs.CallReading.{lost_at};

    ghost text = { lost_text };

    ghost Fits = { LostFits };

    ghost at = { lost_at };

    #[tactic(auto, unfolding(crate::specs::CallSpelling::lost_text))]
    fn spell(&self, out: &mut Vec<u8>) -> Result<(), AllocError> {
        (&self.kind, &self.id).spell_parts(out)
    }

    #[tactic(auto, unfolding(crate::specs::CallReading::lost_at))]
    fn read_front(alloc: Global, bytes: &[u8]) -> Result<(Lost, &[u8]), Trouble> {
        let ((kind, id), rest) = Wire::read_front(alloc, bytes)?;
        Ok((Lost { kind, id }, rest))
    }
}

impl Wire for Content {
    ghost use Rattle.wire.specs.CallSpelling.{content_text, ContentFits};
    ghost use Rattle.wire.specs.CallReading.{content_at};

    ghost text = { content_text };

    ghost Fits = { ContentFits };

    ghost at = { content_at };

    #[tactic(auto, unfolding(crate::specs::CallSpelling::content_text))]
    fn spell(&self, out: &mut Vec<u8>) -> Result<(), AllocError> {
        match self {
            Content::Notified { notification } => spell_tagged(1, &notification, out),
            Content::Discarded { lost } => spell_tagged(2, &lost, out),
        }
    }

    #[tactic(auto, unfolding(crate::specs::CallReading::content_at))]
    fn read_front(alloc: Global, bytes: &[u8]) -> Result<(Content, &[u8]), Trouble> {
        let (tag, rest) = read_first(bytes)?;
        match tag {
            1 => {
                let (notification, rest) = Wire::read_front(alloc, rest)?;
                Ok((Content::Notified { notification }, rest))
            }
            2 => {
                let (lost, rest) = Seq::read_front(alloc, rest)?;
                Ok((Content::Discarded { lost }, rest))
            }
            _ => Err(Trouble::from(Fault::before(rest))),
        }
    }
}

impl Wire for Item {
    ghost use Rattle.wire.specs.CallSpelling.{item_text, ItemFits, ItemInRange};
    ghost use Rattle.wire.specs.CallReading.{item_at};

    ghost text = { item_text };

    ghost Fits = { ItemFits };

    ghost InRange = { ItemInRange };

    ghost at = { item_at };

    #[tactic(auto, unfolding(crate::specs::CallSpelling::item_text))]
    fn spell(&self, out: &mut Vec<u8>) -> Result<(), AllocError> {
        (&self.number, &self.content).spell_parts(out)
    }

    #[tactic(auto, unfolding(crate::specs::CallReading::item_at))]
    fn read_front(alloc: Global, bytes: &[u8]) -> Result<(Item, &[u8]), Trouble> {
        let (number, rest) = read_count(bytes)?;
        let (content, rest) = Content::read_front(alloc, rest)?;
        Ok((Item { number, content }, rest))
    }
}

impl Wire for Entry {
    ghost use Rattle.wire.specs.CallSpelling.{entry_text, EntryFits, EntryInRange};
    ghost use Rattle.wire.specs.CallReading.{entry_at};

    ghost text = { entry_text };

    ghost Fits = { EntryFits };

    ghost InRange = { EntryInRange };

    ghost at = { entry_at };

    #[tactic(auto, unfolding(crate::specs::CallSpelling::entry_text))]
    fn spell(&self, out: &mut Vec<u8>) -> Result<(), AllocError> {
        match self {
            Entry::Called {
                client,
                seq,
                time,
                call,
            } => spell_tagged(1, &(client, (seq, (time, call))), out),
            Entry::Receipted {
                client,
                key,
                through,
                time,
            } => spell_tagged(2, &(client, (key, (through, time))), out),
        }
    }

    #[tactic(auto, unfolding(crate::specs::CallReading::entry_at))]
    fn read_front(alloc: Global, bytes: &[u8]) -> Result<(Entry, &[u8]), Trouble> {
        let (tag, rest) = read_first(bytes)?;
        match tag {
            1 => {
                let ((client, (seq, (time, call))), rest) = read_numbered(alloc, rest)?;
                Ok((
                    Entry::Called {
                        client,
                        seq,
                        time,
                        call,
                    },
                    rest,
                ))
            }
            2 => {
                let (client, rest) = read_client(rest)?;
                let (key, rest) = read_count(rest)?;
                let (through, rest) = read_count(rest)?;
                let (time, rest) = i64::read_front(alloc, rest)?;
                Ok((
                    Entry::Receipted {
                        client,
                        key,
                        through,
                        time,
                    },
                    rest,
                ))
            }
            _ => Err(Trouble::from(Fault::before(rest))),
        }
    }
}
