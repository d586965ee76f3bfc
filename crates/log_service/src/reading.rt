//! What stands in the state, and what the storing of a record would be answered.
ghost use Rattle.std.specs.Prelude.{◌≡◌, ◌↔◌, pos, length, IsTrue, is_some, slice_get, option_map};
ghost use Rattle.std.specs.Option.{option_copied};
ghost use Rattle.record_print.specs.Lengths.{HasNotifiedParts};
ghost use Rattle.record_print.specs.declared.record.LogRecord.{LogRecord as RecordOf};
ghost use Rattle.log_history.specs.KeptAnswers.{kept_stream, is_filled, store_status};
ghost use Rattle.log_history.specs.Table.{OpenStream};
ghost use Rattle.log_service.specs.State.{IsCallTime, HasNumberLeft, stream_of_kind};

use crate::records::stream_of_kind;
use crate::state::LogState;
use crate::streams;
use ais_values::{LAST_TIME, Name, Status, StreamKind, Text};
use stream_config::{Mark, StreamName, StreamState};

/// The greatest last stamp behind which there is room for those of a call.
const MAX_LAST_STAMP: i64 = 19_999_999_000;

/// How many records of a stream are numbered at the most.
const MAX_NUMBERED: u32 = 4_294_967_294;

impl LogState {
    /// Whether a call can come at this time: it lies from 0 to 9,000,000,000,000,000,000, and the last stamp is
    /// at most 19,999,999,000.
    pub fn is_call_time(&self, now: i64) -> bool
        ensures { IsTrue result ↔ IsCallTime self.now.table now }
    {
        self.last <= MAX_LAST_STAMP && now >= 0 && now <= LAST_TIME
    }

    /// Whether a number is left for the next record of the stream of this name, if there is one: fewer than
    /// 4,294,967,294 of its records were numbered.
    pub fn has_number_left(&self, name: &StreamName) -> bool
        ensures { IsTrue result ↔ HasNumberLeft self.now.table name.now }
    {
        match streams::stream_of(self.streams.as_slice(), name) {
            Some(stream) => stream.state().taken < MAX_NUMBERED,
            None => true,
        }
    }

    /// Whether the record of a notification with these names and this body does not fit the stream of this name.
    fn is_full_of_notified(
        &self,
        name: &StreamName,
        object: &Name,
        notifier: &Name,
        body: &Text,
    ) -> bool
        requires { HasNumberLeft self.now.table name.now }
        ensures { (rec : RecordOf) → HasNotifiedParts object.now notifier.now body.now rec
            → result ≡ is_filled self.now.table.streams name.now rec }
    {
        match streams::stream_of(self.streams.as_slice(), name) {
            Some(stream) => stream.lacks_room(stream.length_of_notified(object, notifier, body)),
            None => false,
        }
    }

    /// What `store` answers to the record of a notification of this kind with these names and this body, whichever its
    /// times and the rest of its header are: `NoSpace` exactly where it does not fit, and else ok. It takes no memory.
    pub fn store_answer(
        &self,
        kind: StreamKind,
        object: &Name,
        notifier: &Name,
        body: &Text,
    ) -> Status
        requires { HasNumberLeft self.now.table (stream_of_kind kind) }
        ensures { (rec : RecordOf) → HasNotifiedParts object.now notifier.now body.now rec
            → result ≡ store_status self.now.table (stream_of_kind kind) rec }
    {
        let name = stream_of_kind(kind);
        if self.is_full_of_notified(&name, object, notifier, body) {
            Status::NoSpace
        } else {
            Status::Ok
        }
    }

    /// The clients that use the service, rising.
    pub fn users(&self) -> &[u16]
        ensures { result.now ≡ self.now.table.users }
    {
        self.users.as_slice()
    }

    /// The last stamp, a second.
    pub fn last_stamp(&self) -> i64
        ensures { result ≡ pos self.now.table.last }
    {
        self.last
    }

    /// How many streams live.
    pub fn count(&self) -> u32
        ensures { result ≡ length self.now.table.streams }
    {
        self.streams.len() as u32
    }

    /// Whether a stream of this name lives.
    pub fn is_living(&self, name: &StreamName) -> bool
        ensures { result ≡ is_some (kept_stream self.now.table.streams name.now) }
    {
        streams::stream_of(self.streams.as_slice(), name).is_some()
    }

    /// What stands of a living stream, by its place in order of creation, from 0. `None` exactly where no more than so
    /// many live, here and in the two below.
    pub fn stream_at(&self, i: u32) -> Option<&StreamState>
        ensures { option_copied result
            ≡ option_map (λ (stream : OpenStream). stream.state)
            (slice_get self.now.table.streams i) }
    {
        match self.streams.get(i as usize) {
            Some(stream) => Some(stream.state()),
            None => None,
        }
    }

    /// The clients that have a living stream open, rising, by its place in order of creation, from 0.
    pub fn openers_at(&self, i: u32) -> Option<&[u16]>
        ensures { option_copied result
            ≡ option_map (λ (stream : OpenStream). stream.openers)
            (slice_get self.now.table.streams i) }
    {
        match self.streams.get(i as usize) {
            Some(stream) => Some(stream.openers()),
            None => None,
        }
    }

    /// The mark of a living stream, by its place in order of creation, from 0.
    pub fn mark_at(&self, i: u32) -> Option<Mark>
        ensures { result
            ≡ option_map (λ (stream : OpenStream). stream.mark)
            (slice_get self.now.table.streams i) }
    {
        match self.streams.get(i as usize) {
            Some(stream) => Some(stream.mark()),
            None => None,
        }
    }
}
