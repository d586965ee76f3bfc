//! The journal: where its closed gate stands, and how many entries it has.
ghost use Rattle.std.specs.Prelude.{◌≡◌, ◌⊎◌, IfOk, IfSome, OnOk, OnErr};
ghost use Rattle.ais_values.specs.Causes.{RoseExactlyOn};
ghost use Rattle.disk_model.specs.declared.answers.DiskAnswer.{DiskAnswer};
ghost use Rattle.wire.specs.MessageSpelling.{message_text, MessageInRange};
ghost use Rattle.journal_frames.specs.Frames.{append_calls, behind_gate, make_calls};
ghost use Rattle.journal_found.specs.Found.{CanJoin};
ghost use Rattle.journal_start.specs.Journals.{made_of, longer_by, pushed, PerformsOrLacks, Spelled};

use disk_model::{DiskAnswer, SharedDisk};
use journal_frames::{append_text, behind_gate, make_file};
use std::alloc::{AllocError, Global};
use wire::{Message, encode};
use wire_code::MAX_SPELLING;

/// A journal of more bytes or messages takes no further one.
const MAX_JOURNAL: u64 = 9_000_000_000_000_000_000;

/// A journal on a disk: the place of its closed gate, and how many entries it has.
#[derive(Clone, Copy, PartialEq, Eq, Debug)]
pub struct Journal {
    pub end: u64,
    pub number: u64,
}

/// What is put behind the closed gate for a message. A spelling of more than 4,294,967,294 bytes counts as want of memory.
fn spelled(alloc: Global, message: &Message) -> Result<Vec<u8>, AllocError>
    requires { MessageInRange message.now }
    ensures { IfOk result (λ bytes. Spelled message.now bytes.items) }
{
    let text = encode(alloc, message)?;
    if text.len() > MAX_SPELLING {
        drop(text);
        return Err(AllocError);
    }
    let bytes = behind_gate(alloc, text.as_slice())?;
    Ok(bytes)
}

impl Journal {
    /// Makes a journal whose first message is the value of a service.
    ///
    /// Seven changing calls are made in order, up to the first that is not done, and no others; or none, where memory runs
    /// out before, as it does for a spelling of more than 4,294,967,294 bytes. `Failed` comes exactly where the disk's count
    /// of faults rose, and `Stopped` exactly where its count of stops rose; after either only `cold_start` goes on.
    pub fn make<J: SharedDisk>(
        alloc: Global,
        journal: &mut J,
        snapshot: &Message,
    ) -> Result<Journal, DiskAnswer>
        requires { MessageInRange snapshot.now }
        ensures performs { PerformsOrLacks (make_calls (behind_gate (message_text snapshot.now)))
            result (J.seen journal.old).files (J.seen journal.new).files
            (J.seen journal.old).tally (J.seen journal.new).tally }
        ensures made { IfOk result (λ made. (made ≡ made_of (message_text snapshot.now))
            × CanJoin snapshot.now) }
        ensures cause { RoseExactlyOn (J.seen journal.old).faults (J.seen journal.new).faults
            result DiskAnswer.Failed }
        ensures stop { RoseExactlyOn (J.seen journal.old).stops (J.seen journal.new).stops
            result DiskAnswer.Stopped }
    {
        let behind = match spelled(alloc, snapshot) {
            Ok(behind) => behind,
            Err(_) => return Err(DiskAnswer::Memory),
        };
        match make_file(journal, behind.as_slice()) {
            Ok(()) => Ok(Journal {
                end: behind.len() as u64,
                number: 0,
            }),
            Err(answer) => Err(answer),
        }
    }

    // The journal with one message more, where so many bytes more stand in it. `None` where it is too long.
    fn longer(&self, size: u64) -> Option<Journal>
        ensures { IfSome result (λ next. next ≡ longer_by size self.now) }
    {
        if self.end > MAX_JOURNAL || self.number > MAX_JOURNAL || size > MAX_JOURNAL {
            return None;
        }
        Some(Journal {
            end: self.end + size,
            number: self.number + 1,
        })
    }

    /// Appends a message: it is in the journal once this is done, and it is wholly there or not at all wherever this breaks
    /// off.
    ///
    /// Four changing calls are made in order, up to the first that is not done, and no others; or none, where memory runs
    /// out before, as it does for a spelling of more than 4,294,967,294 bytes and for a journal of more than
    /// 9,000,000,000,000,000,000 bytes: a message for which the disk is asked can stand in the journal. `Failed` comes exactly
    /// where the disk's count of faults rose, and `Stopped` exactly where its count of stops rose; after either only
    /// `cold_start` goes on.
    pub fn append<J: SharedDisk>(
        &mut self,
        alloc: Global,
        journal: &mut J,
        message: &Message,
    ) -> Result<(), DiskAnswer>
        requires { MessageInRange message.now }
        ensures performs { PerformsOrLacks (append_calls self.old.end (message_text message.now))
            result (J.seen journal.old).files (J.seen journal.new).files
            (J.seen journal.old).tally (J.seen journal.new).tally }
        ensures done { OnOk result ((self.new ≡ pushed (message_text message.now) self.old)
            × CanJoin message.now) }
        ensures joins { (J.seen journal.new ≡ J.seen journal.old) ⊎ CanJoin message.now }
        ensures err { OnErr result (self.new ≡ self.old) }
        ensures cause { RoseExactlyOn (J.seen journal.old).faults (J.seen journal.new).faults
            result DiskAnswer.Failed }
        ensures stop { RoseExactlyOn (J.seen journal.old).stops (J.seen journal.new).stops
            result DiskAnswer.Stopped }
    {
        let behind = match spelled(alloc, message) {
            Ok(behind) => behind,
            Err(_) => return Err(DiskAnswer::Memory),
        };
        let next = match self.longer(behind.len() as u64) {
            Some(next) => next,
            None => {
                drop(behind);
                return Err(DiskAnswer::Memory);
            }
        };
        match append_text(journal, self.end, behind.as_slice()) {
            Ok(()) => {
                self.end = next.end;
                self.number = next.number;
                Ok(())
            }
            Err(answer) => Err(answer),
        }
    }
}
