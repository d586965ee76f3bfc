//! Lists whose elements stand in order, each at one place.
ghost use Rattle.std.specs.Prelude.{◌≡◌, Bool, None, option_copied};
ghost use Rattle.plain_service.specs.Fitness.{is_id_before, is_record_before, is_sub_before};
ghost use Rattle.saved_fit.specs.Rising.{follows, rises_behind, by_number, rises_by_id, is_above};

use calls::{SavedAlarm, SavedReader, SavedSub, SavedWindow};

/// An element of which some come before others.
pub(crate) trait Ordered {
    ghost before: { Self → Self → Bool };

    /// Whether this one comes before the other.
    fn is_before(&self, next: &Self) -> bool
        ensures { result ≡ before self.now next.now };
}

impl Ordered for u16 {
    ghost before = { by_number (λ number. number) };

    fn is_before(&self, next: &u16) -> bool {
        *self < *next
    }
}

impl Ordered for SavedWindow {
    ghost use Rattle.calls.specs.declared.saved.SavedWindow.{SavedWindow as WindowOf};

    ghost before = { by_number (λ (window : WindowOf). window.client) };

    fn is_before(&self, next: &SavedWindow) -> bool {
        self.client < next.client
    }
}

impl Ordered for SavedReader {
    ghost use Rattle.calls.specs.declared.saved.SavedReader.{SavedReader as ReaderOf};

    ghost before = { by_number (λ (reader : ReaderOf). reader.client) };

    fn is_before(&self, next: &SavedReader) -> bool {
        self.client < next.client
    }
}

impl Ordered for SavedAlarm {
    ghost before = { is_record_before };

    fn is_before(&self, next: &SavedAlarm) -> bool {
        self.k < next.k
    }
}

impl Ordered for SavedSub {
    ghost before = { is_sub_before };

    fn is_before(&self, next: &SavedSub) -> bool {
        self.client < next.client || (self.client == next.client && self.key < next.key)
    }
}

/// Whether an element may follow the last one, if there is one.
fn follows<T: Ordered>(last: Option<&T>, item: &T) -> bool
    ensures { result ≡ follows T.before (option_copied last.entry) item.now }
{
    match last {
        None => true,
        Some(last) => last.is_before(item),
    }
}

/// Whether each element comes before the next.
pub(crate) fn are_rising<T: Ordered>(items: &[T]) -> bool
    ensures { result ≡ rises_behind T.before None items.now }
{
    let mut last = None;
    for item in items {
        if !follows(last, item) {
            return false;
        }
        last = Some(item);
    }
    true
}

/// The id of a stored alarm.
fn id_of(alarm: &SavedAlarm) -> u64
    ensures { result ≡ alarm.now.notification.id }
{
    alarm.notification.get().id
}

/// Whether the id of a stored alarm is above the last one, if there is one.
fn is_above(last: Option<u64>, alarm: &SavedAlarm) -> bool
    ensures { result ≡ is_above last alarm.now.notification.id }
{
    match last {
        None => true,
        Some(last) => last < id_of(alarm),
    }
}

/// Whether the ids of alarms rise.
pub(crate) fn ids_rise(alarms: &[SavedAlarm]) -> bool
    ensures { result ≡ rises_by_id None alarms.now }
{
    let mut last = None;
    for alarm in alarms {
        if !is_above(last, alarm) {
            return false;
        }
        last = Some(id_of(alarm));
    }
    true
}
