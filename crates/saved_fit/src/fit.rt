//! Every rule of a fit value.
ghost use Rattle.std.specs.Prelude.{◌≡◌, ◌≤◌, ◌↔◌, IsTrue};
ghost use Rattle.std.specs.List.{AllByRecursion};
ghost use Rattle.plain_service.specs.Fitness.{HasFitCounts, IsFitWindow, HaveFitWindows, IsFit};

use crate::alarms::have_fit_alarms;
use crate::asking::{have_fit_readers, have_fit_subs};
use crate::clients::{are_windows_of_clients, is_fit_window};
use crate::streams::{has_fit_stamp, have_fit_streams};
use calls::{MAX_ENTRIES, Saved, SavedWindow};

/// Whether the counts of a value are fit.
fn has_fit_counts(saved: &Saved) -> bool
    ensures { IsTrue result ↔ HasFitCounts saved.now }
{
    saved.number <= MAX_ENTRIES
        && saved.last_id <= saved.number
        && saved.capacity >= 1
        && saved.capacity <= 256
}

/// Whether each window is fit, once so many entries were accepted.
fn are_fit_windows(number: u64, windows: &[SavedWindow]) -> bool
    requires { number ≤ 4000000000 }
    ensures { IsTrue result ↔ AllByRecursion (IsFitWindow number) windows.now }
{
    windows.iter().all(|window| is_fit_window(number, window))
}

/// Whether the windows of a value are fit, whose entries are not too many.
fn have_fit_windows(saved: &Saved) -> bool
    requires { saved.now.number ≤ 4000000000 }
    ensures { IsTrue result ↔ HaveFitWindows saved.now }
{
    let windows = saved.windows.as_slice();
    are_windows_of_clients(windows) && are_fit_windows(saved.number, windows)
}

/// Whether a value is fit to be handed on: counts, windows, streams, the last stamp, stored alarms,
/// subscriptions and readers each keep their rules. It takes no memory. The time is that of the size of the
/// value, but for openers, which are looked up among the users by halving, as is the window of a subscription's client;
/// streams are compared in pairs only where there are 67 at most, and subscriptions where there are 64.
pub fn is_fit(saved: &Saved) -> bool
    ensures { IsTrue result ↔ IsFit saved.now }
{
    has_fit_counts(saved)
        && have_fit_windows(saved)
        && have_fit_streams(saved)
        && has_fit_stamp(saved)
        && have_fit_alarms(saved)
        && have_fit_subs(saved)
        && have_fit_readers(saved)
}
