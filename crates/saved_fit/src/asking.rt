//! The subscriptions and the readers of a value.
ghost use Rattle.std.specs.Prelude.{◌≡◌, ◌==◌, ◌<◌, ◌≤◌, ◌↔◌, IsTrue, MatchOption, find, length, option_copied, nat_lt};
ghost use Rattle.std.specs.List.{list_any};
ghost use Rattle.ais_values.specs.Codes.{all_differ};
ghost use Rattle.ntf_filters.specs.Fit.{IsFit as AreFit};
ghost use Rattle.ntf_history.specs.Rows.{asks_for_alarms};
ghost use Rattle.calls.specs.declared.saved.SavedWindow.{SavedWindow as WindowOf};
ghost use Rattle.client_set.specs.Rising.{IsRising};
ghost use Rattle.plain_service.specs.Fitness.{HasCalled, IsFitSub, is_sub_before, have_one_id, HaveFitWindows, HaveFitSubs, IsFitReader, HaveFitReaders};
ghost use Rattle.saved_fit.specs.Asking.{clients_of, IsCutAt, IsFull, HasNumbers};

use crate::clients::{are_clients, are_readers_of_clients, is_among};
use crate::judging::{Judged, all_fit};
use crate::rising::are_rising;
use ais_values::Shared;
use calls::{Saved, SavedReader, SavedSub, SavedWindow};
use ntf_filters::FilterSet;
use ntf_service::{asks_for_alarms, is_usable};

/// How many windows stand before that of a client, by halving.
fn count_below(windows: &[SavedWindow], client: u16) -> usize
    requires { IsRising nat_lt (clients_of windows.now) }
    ensures bound { result ≤ length windows.now }
    ensures cut { IsCutAt client result windows.now }
{
    windows.partition_point(|window| window.client < client)
}

/// The window of a client, if it has one.
fn window_of(windows: &[SavedWindow], client: u16) -> Option<&SavedWindow>
    requires { IsRising nat_lt (clients_of windows.now) }
    ensures { option_copied result ≡ find (λ (window : WindowOf). window.client == client)
        windows.now }
{
    let place = count_below(windows, client);
    if place >= windows.len() {
        return None;
    }
    let window = &windows[place];
    if window.client != client {
        return None;
    }
    Some(window)
}

/// Whether a window tells of a call of this number.
fn tells_of(window: Option<&SavedWindow>, number: u32) -> bool
    ensures { IsTrue result ↔ MatchOption (option_copied window.entry) ⊥
        (λ window. number < window.next) }
{
    match window {
        None => false,
        Some(window) => number < window.next,
    }
}

/// Whether the client made a call of this number, of a value whose windows are those of rising clients.
fn has_called(saved: &Saved, client: u16, number: u32) -> bool
    requires { IsRising nat_lt (clients_of saved.now.windows) }
    ensures { IsTrue result ↔ HasCalled saved.now client number }
{
    tells_of(window_of(saved.windows.as_slice(), client), number)
}

/// Whether something is lost only while all places are taken.
fn is_full(capacity: u32, sub: &SavedSub) -> bool
    ensures { IsTrue result ↔ IsFull capacity sub.now }
{
    sub.lost.as_slice().is_empty() || sub.held.as_slice().len() as u64 == u64::from(capacity)
}

/// Whether the items of a subscription have places and numbers.
fn has_numbers(number: u64, capacity: u32, sub: &SavedSub) -> bool
    requires { number ≤ 4000000000 }
    ensures { IsTrue result ↔ HasNumbers number capacity sub.now }
{
    let held = sub.held.as_slice().len() as u64;
    sub.first >= 1 && held <= u64::from(capacity) && u64::from(sub.first) + held <= number + 1
}

/// Whether filters that are shared may be used.
fn are_usable(filters: &Shared<FilterSet>) -> bool
    ensures { IsTrue result ↔ AreFit filters.now }
{
    is_usable(filters.get())
}

/// Whether filters that are shared ask for alarms and security alarms alone.
fn ask_for_alarms(filters: &Shared<FilterSet>) -> bool
    ensures { result ≡ asks_for_alarms filters.now }
{
    asks_for_alarms(filters.get())
}

/// Whether a subscription is fit, of a value whose windows and users rise and whose entries are not too many.
fn is_fit_sub(saved: &Saved, sub: &SavedSub) -> bool
    requires windows { IsRising nat_lt (clients_of saved.now.windows) }
    requires users { IsRising nat_lt saved.now.ntf_users }
    requires number { saved.now.number ≤ 4000000000 }
    ensures { IsTrue result ↔ IsFitSub saved.now sub.now }
{
    is_among(saved.ntf_users.as_slice(), sub.client)
        && has_called(saved, sub.client, sub.key)
        && are_usable(&sub.filters)
        && has_numbers(saved.number, saved.capacity, sub)
        && is_full(saved.capacity, sub)
}

impl Judged for SavedSub {
    ghost use Rattle.std.specs.Prelude.{nat_lt, ◌≤◌};
    ghost use Rattle.calls.specs.declared.saved.Saved.{Saved as SavedOf};
    ghost use Rattle.client_set.specs.Rising.{IsRising};
    ghost use Rattle.plain_service.specs.Fitness.{IsFitSub};
    ghost use Rattle.saved_fit.specs.Asking.{clients_of};

    ghost known = { λ (saved : SavedOf). IsRising nat_lt saved.ntf_users
        × (saved.number ≤ 4000000000) × IsRising nat_lt (clients_of saved.windows) };

    ghost fits = { IsFitSub };

    fn fits(&self, saved: &Saved) -> bool {
        is_fit_sub(saved, self)
    }
}

/// Whether two subscriptions are one client's, and have one id.
fn have_one_id(one: &SavedSub, other: &SavedSub) -> bool
    ensures { result ≡ have_one_id one.now other.now }
{
    one.client == other.client && one.id == other.id
}

/// Whether some subscription has the client and id of this one.
fn has_namesake(sub: &SavedSub, others: &[SavedSub]) -> bool
    ensures { result ≡ list_any (have_one_id sub.now) others.now }
{
    others.iter().any(|other| have_one_id(sub, other))
}

/// Whether no two subscriptions are one client's with one id.
fn ids_differ(subs: &[SavedSub]) -> bool
    ensures { result ≡ all_differ have_one_id subs.now }
{
    for (i, sub) in subs.iter().enumerate() {
        if has_namesake(sub, &subs[i + 1..]) {
            return false;
        }
    }
    true
}

/// Whether subscriptions stand by client and key.
fn stand_in_order(subs: &[SavedSub]) -> bool
    ensures { IsTrue result ↔ IsRising is_sub_before subs.now }
{
    are_rising(subs)
}

/// Whether the subscriptions of a value are fit, whose windows are fit and whose entries are not too many. The ids
/// are compared in pairs only where there are 64 at most.
pub(crate) fn have_fit_subs(saved: &Saved) -> bool
    requires number { saved.now.number ≤ 4000000000 }
    requires windows { HaveFitWindows saved.now }
    ensures { IsTrue result ↔ HaveFitSubs saved.now }
{
    let subs = saved.subs.as_slice();
    are_clients(saved.ntf_users.as_slice())
        && stand_in_order(subs)
        && subs.len() <= 64
        && ids_differ(subs)
        && all_fit(saved, subs)
}

/// Whether a reader is fit, of a value whose users rise.
fn is_fit_reader(saved: &Saved, reader: &SavedReader) -> bool
    requires { IsRising nat_lt saved.now.ntf_users }
    ensures { IsTrue result ↔ IsFitReader saved.now reader.now }
{
    is_among(saved.ntf_users.as_slice(), reader.client)
        && are_usable(&reader.filters)
        && ask_for_alarms(&reader.filters)
}

impl Judged for SavedReader {
    ghost use Rattle.std.specs.Prelude.{nat_lt};
    ghost use Rattle.calls.specs.declared.saved.Saved.{Saved as SavedOf};
    ghost use Rattle.client_set.specs.Rising.{IsRising};
    ghost use Rattle.plain_service.specs.Fitness.{IsFitReader};

    ghost known = { λ (saved : SavedOf). IsRising nat_lt saved.ntf_users };

    ghost fits = { IsFitReader };

    fn fits(&self, saved: &Saved) -> bool {
        is_fit_reader(saved, self)
    }
}

/// Whether the readers of a value are fit, whose users rise.
pub(crate) fn have_fit_readers(saved: &Saved) -> bool
    requires { IsRising nat_lt saved.now.ntf_users }
    ensures { IsTrue result ↔ HaveFitReaders saved.now }
{
    let readers = saved.readers.as_slice();
    are_readers_of_clients(readers) && readers.len() <= 16 && all_fit(saved, readers)
}
