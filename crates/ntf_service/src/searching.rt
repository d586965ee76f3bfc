//! Where subscriptions stand in their order of client and key.
ghost use Rattle.std.specs.Prelude.{◌≡◌, ◌↔◌, ◌<◌, not, find, option_copied, option_map, slice_get, IsTrue};
ghost use Rattle.std.specs.List.{AllByRecursion, list_any, prefix_len};
ghost use Rattle.sub_queue.specs.Queue.{HasNumberLeft};
ghost use Rattle.ntf_service.specs.State.{IsKeyAbove, HaveNumbersLeft};
ghost use Rattle.ntf_history.specs.Subscriptions.{key_first};
ghost use Rattle.ntf_history.specs.Tables.{is_kept_at, is_kept_under, is_kept_for};
ghost use Rattle.ntf_service.specs.Told.{told, all_told};

use crate::subscription::Subscription;

/// Whether a subscription is of this client and key.
pub(crate) fn is_at(kept: &Subscription, client: u16, key: u32) -> bool
    ensures { result ≡ is_kept_at client key (told kept.now) }
{
    kept.client == client && kept.key == key
}

/// Whether a subscription is of this client and id.
pub(crate) fn is_under(kept: &Subscription, client: u16, id: u32) -> bool
    ensures { result ≡ is_kept_under client id (told kept.now) }
{
    kept.client == client && kept.id == id
}

/// Whether a subscription is of this client.
pub(crate) fn is_for(kept: &Subscription, client: u16) -> bool
    ensures { result ≡ is_kept_for client (told kept.now) }
{
    kept.client == client
}

/// Whether a subscription comes before a client's key.
fn comes_first(kept: &Subscription, client: u16, key: u32) -> bool
    ensures { result ≡ key_first kept.now.client kept.now.key client key }
{
    kept.client < client || (kept.client == client && kept.key < key)
}

/// The place of the subscription of this client and key, or the number of subscriptions where there
/// is none.
pub(crate) fn place_at(subs: &[Subscription], client: u16, key: u32) -> usize
    ensures { result ≡ prefix_len (λ kept. not (is_kept_at client key (told kept))) subs.now }
{
    subs.iter()
        .take_while(|kept| !is_at(kept, client, key))
        .count()
}

/// The subscription of this client and key, with the room in its queue.
fn find_kept(subs: &[Subscription], client: u16, key: u32) -> Option<&Subscription>
    ensures { option_copied result
        ≡ find (λ kept. is_kept_at client key (told kept)) subs.now }
{
    subs.iter().find(|kept| is_at(kept, client, key))
}

/// The subscription of this client and key.
pub(crate) fn find_at(subs: &[Subscription], client: u16, key: u32) -> Option<&Subscription>
    ensures { option_map told (option_copied result)
        ≡ find (is_kept_at client key) (all_told subs.now) }
{
    find_kept(subs, client, key)
}

/// The subscription at a place, with the room in its queue.
pub(crate) fn kept_at(subs: &[Subscription], place: usize) -> Option<&Subscription>
    ensures { option_copied result ≡ slice_get subs.now place }
{
    subs.get(place)
}

/// Whether one of the subscriptions is of this client and this id.
fn is_any_under(subs: &[Subscription], client: u16, id: u32) -> bool
    ensures { result ≡ list_any (λ kept. is_kept_under client id (told kept)) subs.now }
{
    subs.iter().any(|kept| is_under(kept, client, id))
}

/// Whether the client has a subscription of this id.
pub(crate) fn has_id(subs: &[Subscription], client: u16, id: u32) -> bool
    ensures { result ≡ list_any (is_kept_under client id) (all_told subs.now) }
{
    is_any_under(subs, client, id)
}

/// How many subscriptions in a row, from the first on, come before a client's key.
pub(crate) fn place_for(subs: &[Subscription], client: u16, key: u32) -> usize
    ensures { result ≡ prefix_len (λ kept. key_first kept.client kept.key client key) subs.now }
{
    subs.iter()
        .take_while(|kept| comes_first(kept, client, key))
        .count()
}

/// Whether a subscription is another client's, or of a lower key.
fn is_below(kept: &Subscription, client: u16, key: u32) -> bool
    ensures { IsTrue result ↔ (kept.now.client ≡ client → kept.now.key < key) }
{
    kept.client != client || kept.key < key
}

/// Whether all subscriptions are other clients', or of lower keys.
fn are_below(subs: &[Subscription], client: u16, key: u32) -> bool
    ensures { IsTrue result
        ↔ AllByRecursion (λ kept. kept.client ≡ client → kept.key < key) subs.now }
{
    subs.iter().all(|kept| is_below(kept, client, key))
}

/// Whether a key is above those of all subscriptions of a client.
pub(crate) fn is_key_above(subs: &[Subscription], client: u16, key: u32) -> bool
    ensures { IsTrue result ↔ IsKeyAbove client key (all_told subs.now) }
{
    are_below(subs, client, key)
}

/// Whether a number is left for the next item of a subscription.
fn has_number_left(kept: &Subscription) -> bool
    ensures { IsTrue result ↔ HasNumberLeft kept.now.queue.queue }
{
    let held = kept.queue.len() as u64;
    u64::from(kept.queue.first()) + held < 4_294_967_295
}

/// Whether a number is left for the next item of each queue.
fn has_each_number_left(subs: &[Subscription]) -> bool
    ensures { IsTrue result
        ↔ AllByRecursion (λ kept. HasNumberLeft kept.queue.queue) subs.now }
{
    subs.iter().all(has_number_left)
}

/// Whether a number is left for the next item of each subscription.
pub(crate) fn have_numbers_left(subs: &[Subscription]) -> bool
    ensures { IsTrue result ↔ HaveNumbersLeft (all_told subs.now) }
{
    has_each_number_left(subs)
}
