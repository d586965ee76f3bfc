//! The streams of a value.
ghost use Rattle.std.specs.Prelude.{◌≡◌, ◌≤◌, ◌↔◌, IsTrue, drop, nat_lt, option_copied, slice_get};
ghost use Rattle.std.specs.List.{AllByRecursion, list_any};
ghost use Rattle.ais_values.specs.Codes.{all_differ};
ghost use Rattle.client_set.specs.Rising.{IsRising};
ghost use Rattle.stream_config.specs.Attributes.{kind_of, PassesAttrs};
ghost use Rattle.plain_service.specs.Fitness.{IsFitMark, IsFitStream, IsOfApplication, have_one_name, stand_at_one_place, HaveFitStreams, HasFitStamp};
ghost use Rattle.saved_fit.specs.Streams.{IsCalled, BeginsWell, AreFitOthers, passes_mark};

use crate::clients::{are_among, are_clients};
use crate::files::{are_stamps, has_fit_files};
use crate::judging::{Judged, all_fit};
use calls::{Saved, SavedStream};
use stream_config::{MAX_MASK, Mark, StreamName, StreamState, check_attrs, have_one_place};

/// Whether a stream has that name, if there is one.
fn is_called(stream: Option<&SavedStream>, name: &StreamName) -> bool
    ensures { IsTrue result ↔ IsCalled name.now (option_copied stream.entry) }
{
    match stream {
        None => false,
        Some(stream) => stream.state.name == *name,
    }
}

/// Whether a stream of that name stands at this place.
fn is_named(streams: &[SavedStream], place: usize, name: &StreamName) -> bool
    ensures { IsTrue result ↔ IsCalled name.now (slice_get streams.now place) }
{
    is_called(streams.get(place), name)
}

/// Whether the well-known streams stand first.
fn begins_well(streams: &[SavedStream]) -> bool
    ensures { IsTrue result ↔ BeginsWell streams.now }
{
    is_named(streams, 0, &StreamName::Alarm)
        && is_named(streams, 1, &StreamName::Notification)
        && is_named(streams, 2, &StreamName::System)
}

/// The streams behind the first three.
fn others_of(streams: &[SavedStream]) -> &[SavedStream]
    ensures { result.now ≡ drop 3 streams.now }
{
    if streams.len() < 3 {
        &streams[streams.len()..]
    } else {
        &streams[3..]
    }
}

/// Whether a stream is an application's, and somebody has it open.
fn is_of_application(stream: &SavedStream) -> bool
    ensures { IsTrue result ↔ IsOfApplication stream.now }
{
    matches!(stream.state.name, StreamName::App { .. }) && !stream.openers.as_slice().is_empty()
}

/// Whether each stream is an application's, and somebody has it open.
fn are_of_applications(streams: &[SavedStream]) -> bool
    ensures { IsTrue result ↔ AllByRecursion IsOfApplication streams.now }
{
    streams.iter().all(is_of_application)
}

/// Whether the streams behind the first three are applications', and 64 at most.
fn are_fit_others(streams: &[SavedStream]) -> bool
    ensures { IsTrue result ↔ AreFitOthers (drop 3 streams.now) }
{
    let others = others_of(streams);
    others.len() <= 64 && are_of_applications(others)
}

/// Whether two streams have one name.
fn have_one_name(one: &SavedStream, other: &SavedStream) -> bool
    ensures { result ≡ have_one_name one.now other.now }
{
    one.state.name == other.state.name
}

/// Whether some stream has the name of this one.
fn has_namesake(stream: &SavedStream, others: &[SavedStream]) -> bool
    ensures { result ≡ list_any (have_one_name stream.now) others.now }
{
    others.iter().any(|other| have_one_name(stream, other))
}

/// Whether no two streams have one name.
fn names_differ(streams: &[SavedStream]) -> bool
    ensures { result ≡ all_differ have_one_name streams.now }
{
    for (i, stream) in streams.iter().enumerate() {
        if has_namesake(stream, &streams[i + 1..]) {
            return false;
        }
    }
    true
}

/// Whether two streams have one path and file.
fn stand_at_one_place(one: &SavedStream, other: &SavedStream) -> bool
    ensures { result ≡ stand_at_one_place one.now other.now }
{
    have_one_place(one.state.attrs.get(), other.state.attrs.get())
}

/// Whether some stream has the path and file of this one.
fn has_neighbour(stream: &SavedStream, others: &[SavedStream]) -> bool
    ensures { result ≡ list_any (stand_at_one_place stream.now) others.now }
{
    others.iter().any(|other| stand_at_one_place(stream, other))
}

/// Whether no two streams have one path and file.
fn places_differ(streams: &[SavedStream]) -> bool
    ensures { result ≡ all_differ stand_at_one_place streams.now }
{
    for (i, stream) in streams.iter().enumerate() {
        if has_neighbour(stream, &streams[i + 1..]) {
            return false;
        }
    }
    true
}

/// Whether the attributes of a stream pass.
fn passes(state: &StreamState) -> bool
    ensures { IsTrue result ↔ PassesAttrs (kind_of state.now.name) state.now.attrs }
{
    check_attrs(state.name.kind(), state.attrs.get()).is_ok()
}

/// Whether a mark passes, of the stream of this name and once so many entries were accepted.
fn passes_mark(number: u64, name: &StreamName, mark: Mark) -> bool
    ensures { result ≡ passes_mark number name.now mark }
{
    mark.mask <= MAX_MASK
        && (mark.since <= number
            && (!name.is_notified() || (mark.since == 0 && mark.mask == MAX_MASK)))
}

/// Whether the mark of the stream of this name is fit, once so many entries were accepted.
fn is_fit_mark(number: u64, name: &StreamName, mark: Mark) -> bool
    ensures { IsTrue result ↔ IsFitMark number name.now mark }
{
    passes_mark(number, name, mark)
}

/// Whether a stream is fit, of a value whose users rise.
fn is_fit_stream(saved: &Saved, stream: &SavedStream) -> bool
    requires { IsRising nat_lt saved.now.log_users }
    ensures { IsTrue result ↔ IsFitStream saved.now stream.now }
{
    let openers = stream.openers.as_slice();
    passes(&stream.state)
        && are_clients(openers)
        && are_among(saved.log_users.as_slice(), openers)
        && has_fit_files(&stream.state)
        && are_stamps(saved.last_stamp, stream.state.files.as_slice())
        && u64::from(stream.state.taken) <= saved.number
        && is_fit_mark(saved.number, &stream.state.name, stream.mark)
}

impl Judged for SavedStream {
    ghost use Rattle.std.specs.Prelude.{nat_lt};
    ghost use Rattle.calls.specs.declared.saved.Saved.{Saved as SavedOf};
    ghost use Rattle.client_set.specs.Rising.{IsRising};
    ghost use Rattle.plain_service.specs.Fitness.{IsFitStream};

    ghost known = { λ (saved : SavedOf). IsRising nat_lt saved.log_users };

    ghost fits = { IsFitStream };

    fn fits(&self, saved: &Saved) -> bool {
        is_fit_stream(saved, self)
    }
}

/// Whether the streams of a value are fit.
pub(crate) fn have_fit_streams(saved: &Saved) -> bool
    ensures { IsTrue result ↔ HaveFitStreams saved.now }
{
    let streams = saved.streams.as_slice();
    are_clients(saved.log_users.as_slice())
        && begins_well(streams)
        && are_fit_others(streams)
        && names_differ(streams)
        && places_differ(streams)
        && all_fit(saved, streams)
}

/// Whether the last stamp of a value leaves room for those that end the streams of applications.
pub(crate) fn has_fit_stamp(saved: &Saved) -> bool
    requires { saved.now.number ≤ 4000000000 }
    ensures { IsTrue result ↔ HasFitStamp saved.now }
{
    let most = 9_000_000_100 + 2 * saved.number;
    let last = saved.last_stamp.unsigned_abs();
    let others = others_of(saved.streams.as_slice()).len() as u64;
    saved.last_stamp >= 0 && last <= most && others <= most - last
}
