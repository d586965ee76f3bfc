//! What a service keeps, made of its value. The lists of the value, and what they hold, are taken over.
ghost use Rattle.std.specs.Prelude.{◌≡◌, ◌≤ℤ◌, ◌++◌, ◌∷◌, [], ℕ, pos, unsigned_abs, length, map, IfOk, OnOk};
ghost use Rattle.std.specs.List.{AllByRecursion};
ghost use Rattle.plain_service.specs.Fitness.{IsFit, IsFitWindow};
ghost use Rattle.client_window.specs.Windows.{HasRepliesBefore};
ghost use Rattle.log_service.specs.State.{IsSoundTable as IsSoundLog, table_with as log_with};
ghost use Rattle.ntf_history.specs.Tables.{IsSoundTable as IsSoundNtf, table_with as ntf_with};
ghost use Rattle.service_table.specs.Tables.{kept_window, kept_stream_of, kept_alarm_of, kept_sub_of, table_of_saved};
ghost use Rattle.ntf_service.specs.Told.{told, all_told};
ghost use Rattle.service_core.specs.Inside.{kept_table};
ghost use Rattle.service_core.specs.Restoring.{states_in, openers_in, marks_in, HasSoundQueue, CanAddEach};

use crate::kept::Kept;
use crate::parts::Parts;
use crate::saving::room_for;
use ais_values::{Seq, both};
use alarm_view::{AlarmView, KeptAlarm};
use calls::{Saved, SavedAlarm, SavedLists, SavedStream, SavedSub, SavedWindow};
use client_window::Window;
use log_service::LogState;
use ntf_service::{NtfState, Subscription};
use service_table::ClientWindow;
use std::alloc::{AllocError, Global};
use stream_config::{Mark, StreamState};
use sub_queue::SubQueue;

/// Adds the state of a stream, the clients that have it open, and its mark.
fn push_stream(
    states: &mut Seq<StreamState>,
    openers: &mut Seq<Seq<u16>>,
    marks: &mut Seq<Mark>,
    stream: SavedStream,
) -> Result<(), AllocError>
    ensures states { OnOk result (states.new ≡ states.old ++ stream.state ∷ []) }
    ensures openers { OnOk result (openers.new ≡ openers.old ++ stream.openers ∷ []) }
    ensures marks { OnOk result (marks.new ≡ marks.old ++ stream.mark ∷ []) }
{
    marks.push(stream.mark)?;
    let (state, clients) = stream.into_parts();
    states.push(state)?;
    openers.push(clients)?;
    Ok(())
}

/// The states of streams, the clients that have them open, and their marks.
fn parts_of(
    alloc: Global,
    streams: Seq<SavedStream>,
) -> Result<(Seq<StreamState>, Seq<Seq<u16>>, Seq<Mark>), AllocError>
    ensures { IfOk result (λ parts. (parts.0 ≡ states_in streams)
        × (parts.1 ≡ openers_in streams) × (parts.2 ≡ marks_in streams)) }
{
    let count = streams.as_slice().len();
    let mut states = room_for(alloc, count)?;
    let mut openers = room_for(alloc, count)?;
    let mut marks = room_for(alloc, count)?;
    for stream in streams.into_vec() {
        push_stream(&mut states, &mut openers, &mut marks, stream)?;
    }
    Ok((states, openers, marks))
}

/// The state of the Log Service.
fn restored_log(
    alloc: Global,
    last_stamp: i64,
    users: Seq<u16>,
    streams: Seq<SavedStream>,
) -> Result<LogState, AllocError>
    requires last { pos 0 ≤ℤ last_stamp }
    requires sound { IsSoundLog
        (log_with (unsigned_abs last_stamp) users (map kept_stream_of streams)) }
    ensures { IfOk result (λ log. log.table
        ≡ log_with (unsigned_abs last_stamp) users (map kept_stream_of streams)) }
{
    let (states, openers, marks) = parts_of(alloc, streams)?;
    let log = LogState::rebuild(alloc, last_stamp, users, states, openers, marks)?;
    Ok(log)
}

/// A subscription with its queue.
fn restored_sub(alloc: Global, cap: u32, sub: SavedSub) -> Result<Subscription, AllocError>
    requires { HasSoundQueue cap sub }
    ensures { IfOk result (λ kept. told kept ≡ kept_sub_of cap sub) }
{
    let client = sub.client;
    let key = sub.key;
    let id = sub.id;
    let first = sub.first;
    let (filters, held, lost) = sub.into_parts();
    let queue = SubQueue::rebuild(alloc, cap, first, held, lost)?;
    Ok(Subscription {
        client,
        key,
        id,
        filters,
        queue,
    })
}

/// The subscriptions that last.
fn restored_subs(
    alloc: Global,
    cap: u32,
    subs: Seq<SavedSub>,
) -> Result<Vec<Subscription>, AllocError>
    requires { AllByRecursion (HasSoundQueue cap) subs }
    ensures { IfOk result (λ kept. all_told kept.items ≡ map (kept_sub_of cap) subs) }
{
    let mut kept = Vec::with_capacity(alloc, subs.as_slice().len())?;
    for sub in subs.into_vec() {
        kept.push(restored_sub(alloc, cap, sub)?)?;
    }
    Ok(kept)
}

/// The state of the Notification Service.
fn restored_ntf(
    alloc: Global,
    cap: u32,
    last_id: u64,
    users: Seq<u16>,
    subs: Seq<SavedSub>,
) -> Result<NtfState, AllocError>
    requires { IsSoundNtf (ntf_with cap users last_id (map (kept_sub_of cap) subs)) }
    ensures { IfOk result (λ ntf. ntf.table
        ≡ ntf_with cap users last_id (map (kept_sub_of cap) subs)) }
{
    let subs = restored_subs(alloc, cap, subs)?;
    Ok(NtfState::rebuild(cap, last_id, users.into_vec(), subs))
}

/// An alarm that is kept.
fn kept_alarm(alarm: SavedAlarm) -> KeptAlarm
    ensures { result ≡ kept_alarm_of alarm }
{
    let number = alarm.k;
    KeptAlarm {
        number,
        notification: alarm.into_notification(),
    }
}

/// The alarms that are kept, as they are saved.
fn kept_alarms(alloc: Global, alarms: Seq<SavedAlarm>) -> Result<Vec<KeptAlarm>, AllocError>
    ensures { IfOk result (λ kept. kept.items ≡ map kept_alarm_of alarms) }
{
    let kept = alarms
        .into_vec()
        .into_iter()
        .map(kept_alarm)
        .collect(alloc)?;
    Ok(kept)
}

/// The stored alarms.
fn restored_alarms(alloc: Global, alarms: Seq<SavedAlarm>) -> Result<AlarmView, AllocError>
    requires { CanAddEach alarms }
    ensures { IfOk result (λ view. view.kept ≡ map kept_alarm_of alarms) }
{
    let kept = kept_alarms(alloc, alarms)?;
    let view = AlarmView::rebuild(alloc, kept)?;
    Ok(view)
}

/// The window of a client.
fn restored_window(alloc: Global, saved: SavedWindow) -> Result<ClientWindow, AllocError>
    requires { HasRepliesBefore saved.next (length saved.replies) }
    ensures { IfOk result (λ caller. caller ≡ kept_window saved) }
{
    let client = saved.client;
    let next = saved.next;
    let window = Window::rebuild(alloc, next, saved.into_replies())?;
    Ok(ClientWindow { client, window })
}

/// The windows of all clients.
fn restored_windows(
    alloc: Global,
    windows: Seq<SavedWindow>,
) -> Result<Vec<ClientWindow>, AllocError>
    requires { (number : ℕ) × AllByRecursion (IsFitWindow number) windows }
    ensures { IfOk result (λ callers. callers.items ≡ map kept_window windows) }
{
    let mut callers = Vec::with_capacity(alloc, windows.as_slice().len())?;
    for saved in windows.into_vec() {
        callers.push(restored_window(alloc, saved)?)?;
    }
    Ok(callers)
}

/// All that the service keeps whose value this is.
pub(crate) fn restored(alloc: Global, saved: Saved) -> Result<Kept, AllocError>
    requires { IsFit saved }
    ensures { IfOk result (λ kept. kept_table kept ≡ table_of_saved saved) }
{
    let number = saved.number;
    let last_stamp = saved.last_stamp;
    let last_id = saved.last_id;
    let cap = saved.capacity;
    let SavedLists {
        log_users,
        ntf_users,
        windows,
        streams,
        alarms,
        subs,
        readers,
    } = saved.into_lists();
    let log = restored_log(alloc, last_stamp, log_users, streams);
    let ntf = restored_ntf(alloc, cap, last_id, ntf_users, subs);
    let alarms = restored_alarms(alloc, alarms);
    let callers = restored_windows(alloc, windows);
    let services = both(log, ntf);
    let others = both(both(alarms, Ok(readers)), callers);
    let ((log, ntf), ((alarms, readers), callers)) = both(services, others)?;
    let parts = Parts {
        number,
        log,
        ntf,
        alarms,
        readers: readers.into_vec(),
    };
    Ok(Kept { parts, callers })
}
