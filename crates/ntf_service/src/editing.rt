//! Changes of the list of subscriptions.
ghost use Rattle.std.specs.Prelude.{◌≡◌, ◌<◌, ◌≤◌, ℕ, map, find, OnOk, OnErr, IsTrue, vec_len};
ghost use Rattle.client_set.specs.Rising.{put, without, IsRising};
ghost use Rattle.ntf_history.specs.Tables.{is_new_for, is_kept_for, is_kept_under, is_kept_at, kept_first, received_sub};
ghost use Rattle.ntf_service.specs.State.{IsKeyAbove, HaveNumbersLeft};
ghost use Rattle.ntf_service.specs.Told.{told, all_told};
ghost use Rattle.ntf_service.specs.Rooms.{HaveRoomsBut};

use crate::rooms::lack_at;
use crate::searching::{is_for, is_under, place_at, place_for};
use crate::subscription::Subscription;
use arrayvec::ArrayVec;
use std::alloc::AllocError;

/// Removes the subscriptions of a client.
pub(crate) fn remove_for(subs: &mut Vec<Subscription>, client: u16)
    ensures { all_told subs.new.items
        ≡ without (is_kept_for client) (all_told subs.old.items) }
{
    subs.retain(|kept| !is_for(kept, client));
}

/// Removes the subscriptions of a client under an id.
pub(crate) fn remove_under(subs: &mut Vec<Subscription>, client: u16, id: u32)
    ensures { all_told subs.new.items
        ≡ without (is_kept_under client id) (all_told subs.old.items) }
{
    subs.retain(|kept| !is_under(kept, client, id));
}

/// Puts a subscription of a new key in its place. On an error nothing changes.
pub(crate) fn add(subs: &mut Vec<Subscription>, kept: Subscription) -> Result<(), AllocError>
    requires { IsKeyAbove kept.client kept.key (all_told subs.old.items) }
    ensures ok { OnOk result (all_told subs.new.items
        ≡ put kept_first (told kept) (all_told subs.old.items)) }
    ensures err { OnErr result (subs.new.items ≡ subs.old.items) }
{
    let place = place_for(subs.as_slice(), kept.client, kept.key);
    subs.insert(place, kept)?;
    Ok(())
}

/// Takes a new receipt for the subscription of a client and key. In its queue there may be no room then, which is told.
pub(crate) fn receive(
    subs: &mut Vec<Subscription>,
    lacking: &mut ArrayVec<u8, 64>,
    client: u16,
    key: u32,
    through: u32,
)
    requires order { IsRising kept_first (all_told subs.old.items) }
    requires new { IsTrue
        (is_new_for (find (is_kept_at client key) (all_told subs.old.items)) through) }
    requires numbers { HaveNumbersLeft (all_told subs.old.items) }
    requires few { vec_len subs.old ≤ 64 }
    ensures told { all_told subs.new.items
        ≡ map (received_sub client key through) (all_told subs.old.items) }
    ensures rooms { HaveRoomsBut lacking.old.items subs.old.items
        → HaveRoomsBut lacking.new.items subs.new.items }
{
    let place = place_at(subs.as_slice(), client, key);
    if place < subs.len() {
        let kept = &mut subs[place];
        kept.queue.acked(through);
        lack_at(lacking, subs.as_slice(), place);
    }
}
