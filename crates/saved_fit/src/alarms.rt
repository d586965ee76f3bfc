//! The stored alarms of a value.
ghost use Rattle.std.specs.Prelude.{◌≡◌, ◌↔◌, IsTrue, MatchOption, slice_get};
ghost use Rattle.std.specs.List.{AllByRecursion};
ghost use Rattle.client_set.specs.Rising.{IsRising};
ghost use Rattle.stream_config.specs.Attributes.{IsSized};
ghost use Rattle.calls.specs.declared.saved.SavedStream.{SavedStream as StreamOf};
ghost use Rattle.plain_service.specs.Fitness.{IsFitStream, IsStanding, IsFitAlarm, is_record_before, is_id_before, HaveFitAlarms};
ghost use Rattle.saved_fit.specs.Alarms.{IsSoundAlarm};

use crate::judging::{Judged, all_fit};
use crate::rising::{are_rising, ids_rise};
use calls::{Saved, SavedAlarm};
use ntf_service::is_alarm;
use ntf_types::{Notification, check_notification};
use stream_config::{StreamState, first_standing};

/// Whether the record of this number stands in the files of a stream.
fn is_standing(state: &StreamState, number: u32) -> bool
    requires { IsSized state.now.attrs }
    ensures { IsTrue result ↔ IsStanding state.now number }
{
    first_standing(state) <= number && number < state.taken
}

/// Whether the record of this number stands in the first stream of a value whose streams are fit.
fn stands(saved: &Saved, number: u32) -> bool
    requires { AllByRecursion (IsFitStream saved.now) saved.now.streams }
    ensures { IsTrue result ↔ MatchOption (slice_get saved.now.streams 0) ⊥
        (λ (stream : StreamOf). IsStanding stream.state number) }
{
    match saved.streams.as_slice().first() {
        None => false,
        Some(stream) => is_standing(&stream.state, number),
    }
}

/// Whether a notification is a sound alarm or security alarm, of an id up to the last one and a time that is not negative.
fn is_sound_alarm(last_id: u64, notification: &Notification) -> bool
    ensures { IsTrue result ↔ IsSoundAlarm last_id notification.now }
{
    notification.id <= last_id
        && is_alarm(&notification.body)
        && check_notification(notification).is_ok()
        && notification.event_time >= 0
}

/// Whether that of a stored alarm is such a one.
fn has_sound_alarm(last_id: u64, alarm: &SavedAlarm) -> bool
    ensures { IsTrue result ↔ IsSoundAlarm last_id alarm.now.notification }
{
    is_sound_alarm(last_id, alarm.notification.get())
}

/// Whether a stored alarm is fit, of a value whose streams are fit.
fn is_fit_alarm(saved: &Saved, alarm: &SavedAlarm) -> bool
    requires { AllByRecursion (IsFitStream saved.now) saved.now.streams }
    ensures { IsTrue result ↔ IsFitAlarm saved.now alarm.now }
{
    stands(saved, alarm.k) && has_sound_alarm(saved.last_id, alarm)
}

impl Judged for SavedAlarm {
    ghost use Rattle.std.specs.List.{AllByRecursion};
    ghost use Rattle.calls.specs.declared.saved.Saved.{Saved as SavedOf};
    ghost use Rattle.plain_service.specs.Fitness.{IsFitStream, IsFitAlarm};

    ghost known = { λ (saved : SavedOf). AllByRecursion (IsFitStream saved) saved.streams };

    ghost fits = { IsFitAlarm };

    fn fits(&self, saved: &Saved) -> bool {
        is_fit_alarm(saved, self)
    }
}

/// Whether the numbers of records rise.
fn records_rise(alarms: &[SavedAlarm]) -> bool
    ensures { IsTrue result ↔ IsRising is_record_before alarms.now }
{
    are_rising(alarms)
}

/// Whether the ids of alarms rise.
fn have_rising_ids(alarms: &[SavedAlarm]) -> bool
    ensures { IsTrue result ↔ IsRising is_id_before alarms.now }
{
    ids_rise(alarms)
}

/// Whether the stored alarms of a value are fit, whose streams are.
pub(crate) fn have_fit_alarms(saved: &Saved) -> bool
    requires { AllByRecursion (IsFitStream saved.now) saved.now.streams }
    ensures { IsTrue result ↔ HaveFitAlarms saved.now }
{
    let alarms = saved.alarms.as_slice();
    records_rise(alarms) && have_rising_ids(alarms) && all_fit(saved, alarms)
}
