//! Lists of clients: of users, of openers, and of those who made a call.
ghost use Rattle.std.specs.Prelude.{◌≡◌, ◌≤◌, ◌↔◌, IsTrue, nat_lt, map, MatchResult};
ghost use Rattle.std.specs.List.{AllByRecursion};
ghost use Rattle.calls.specs.declared.saved.SavedWindow.{SavedWindow as WindowOf};
ghost use Rattle.calls.specs.declared.saved.SavedReader.{SavedReader as ReaderOf};
ghost use Rattle.client_set.specs.Members.{has};
ghost use Rattle.client_set.specs.Rising.{IsRising};
ghost use Rattle.client_set.specs.Searching.{IsPlaceOf, IsPlaceFor};
ghost use Rattle.client_window.specs.Windows.{HasRepliesBefore};
ghost use Rattle.plain_service.specs.Legal.{IsClient};
ghost use Rattle.plain_service.specs.Fitness.{AreClients, IsAmong, IsFitWindow};

use crate::rising::are_rising;
use ais_values::{MAX_CLIENT, MAX_REPLIES};
use calls::{SavedReader, SavedWindow};

/// Whether a number is that of a client.
fn is_client(client: u16) -> bool
    ensures { IsTrue result ↔ IsClient client }
{
    client >= 1 && client <= MAX_CLIENT
}

/// Whether numbers are those of clients.
fn are_numbers(clients: &[u16]) -> bool
    ensures { IsTrue result ↔ AllByRecursion IsClient clients.now }
{
    clients.iter().all(|client| is_client(*client))
}

/// Whether numbers rise.
fn numbers_rise(clients: &[u16]) -> bool
    ensures { IsTrue result ↔ IsRising nat_lt clients.now }
{
    are_rising(clients)
}

/// Whether these are clients, rising.
pub(crate) fn are_clients(clients: &[u16]) -> bool
    ensures { IsTrue result ↔ AreClients clients.now }
{
    numbers_rise(clients) && are_numbers(clients)
}

/// Whether the clients of windows rise.
fn windows_rise(windows: &[SavedWindow]) -> bool
    ensures { IsTrue result ↔ IsRising nat_lt (map (λ (window : WindowOf). window.client)
        windows.now) }
{
    are_rising(windows)
}

/// Whether each window is a client's.
fn are_of_clients(windows: &[SavedWindow]) -> bool
    ensures { IsTrue result ↔ AllByRecursion (λ (window : WindowOf). IsClient window.client)
        windows.now }
{
    windows.iter().all(|window| is_client(window.client))
}

/// Whether the clients of windows are clients.
fn have_clients(windows: &[SavedWindow]) -> bool
    ensures { IsTrue result
        ↔ AllByRecursion IsClient (map (λ (window : WindowOf). window.client) windows.now) }
{
    are_of_clients(windows)
}

/// Whether the windows are those of clients, rising.
pub(crate) fn are_windows_of_clients(windows: &[SavedWindow]) -> bool
    ensures { IsTrue result ↔ AreClients (map (λ (window : WindowOf). window.client) windows.now) }
{
    windows_rise(windows) && have_clients(windows)
}

/// Whether the clients of readers rise.
fn readers_rise(readers: &[SavedReader]) -> bool
    ensures { IsTrue result ↔ IsRising nat_lt (map (λ (reader : ReaderOf). reader.client)
        readers.now) }
{
    are_rising(readers)
}

/// Whether each reader is a client's.
fn are_readers(readers: &[SavedReader]) -> bool
    ensures { IsTrue result ↔ AllByRecursion (λ (reader : ReaderOf). IsClient reader.client)
        readers.now }
{
    readers.iter().all(|reader| is_client(reader.client))
}

/// Whether the clients of readers are clients.
fn have_readers(readers: &[SavedReader]) -> bool
    ensures { IsTrue result
        ↔ AllByRecursion IsClient (map (λ (reader : ReaderOf). reader.client) readers.now) }
{
    are_readers(readers)
}

/// Whether the readers are those of clients, rising.
pub(crate) fn are_readers_of_clients(readers: &[SavedReader]) -> bool
    ensures { IsTrue result ↔ AreClients (map (λ (reader : ReaderOf). reader.client) readers.now) }
{
    readers_rise(readers) && have_readers(readers)
}

/// The place of a client in a rising list, or the one where it belongs.
fn place_of(clients: &[u16], client: u16) -> Result<usize, usize>
    requires { IsRising nat_lt clients.now }
    ensures { MatchResult result (IsPlaceOf clients.now client) (IsPlaceFor clients.now client) }
{
    clients.binary_search(&client)
}

/// Whether a client stands in a rising list.
fn has_client(clients: &[u16], client: u16) -> bool
    requires { IsRising nat_lt clients.now }
    ensures { result ≡ has client clients.now }
{
    place_of(clients, client).is_ok()
}

/// Whether a client is one of these, which rise.
pub(crate) fn is_among(clients: &[u16], client: u16) -> bool
    requires { IsRising nat_lt clients.now }
    ensures { IsTrue result ↔ IsAmong clients.now client }
{
    has_client(clients, client)
}

/// Whether each of some clients is one of others, which rise.
pub(crate) fn are_among(clients: &[u16], some: &[u16]) -> bool
    requires { IsRising nat_lt clients.now }
    ensures { IsTrue result ↔ AllByRecursion (IsAmong clients.now) some.now }
{
    some.iter().all(|client| is_among(clients, *client))
}

/// Whether so many replies are kept before the next call.
fn has_replies_before(next: u32, count: usize) -> bool
    ensures { IsTrue result ↔ HasRepliesBefore next count }
{
    let calls = next.saturating_sub(1) as usize;
    next >= 1 && count == calls.min(MAX_REPLIES)
}

/// Whether the window of a client is fit, once so many entries were accepted.
pub(crate) fn is_fit_window(number: u64, window: &SavedWindow) -> bool
    requires { number ≤ 4000000000 }
    ensures { IsTrue result ↔ IsFitWindow number window.now }
{
    has_replies_before(window.next, window.replies.as_slice().len())
        && u64::from(window.next) <= number + 1
}
