//! The offers of a notification to all subscriptions that ask for it, planned.
ghost use Rattle.std.specs.Prelude.{◌≡◌, ◌+◌, ◌<◌, ◌≤◌, length, IfOk, OnOk, vec_len};
ghost use Rattle.std.specs.Vec.{vec_capacity};
ghost use Rattle.ntf_filters.specs.Matching.{matches};
ghost use Rattle.ntf_service.specs.State.{HaveNumbersLeft};
ghost use Rattle.ntf_service.specs.Planning.{queue_with, RiseBetween, Suits};
ghost use Rattle.ntf_service.specs.Told.{told, all_told};
ghost use Rattle.ntf_service.specs.Offering.{IsOffer, Joins, AreOffers};
ghost use Rattle.sub_queue.specs.Queue.{offered};

use crate::plan::{Offer, Share};
use crate::subscription::Subscription;
use ais_values::{Duplicate, Shared};
use ntf_filters::{FilterSet, matches};
use ntf_types::Notification;
use std::alloc::{AllocError, Global};
use sub_queue::{SubQueue, mark_of};

/// Whether the filters ask for a notification.
fn is_asked_for(filters: &FilterSet, notification: &Shared<Notification>) -> bool
    ensures { result ≡ matches filters.now notification.now }
{
    matches(filters, notification.get())
}

/// The share of a queue in a notification: all of it where a place is free, and else the mark.
fn share_of(
    alloc: Global,
    queue: &SubQueue,
    notification: &Shared<Notification>,
) -> Result<Share, AllocError>
    ensures suits { IfOk result (λ share. Suits share queue.now.queue) }
    ensures made { IfOk result (λ share.
        queue_with share queue.now.queue ≡ offered notification.now queue.now.queue) }
{
    if queue.has_room() {
        let notification = notification.copy(alloc)?;
        Ok(Share::Whole { notification })
    } else {
        let mark = mark_of(notification.get());
        Ok(Share::Mark { mark })
    }
}

/// The offer of a notification to the queue of the subscription at a place.
fn offer_to(
    alloc: Global,
    place: usize,
    queue: &SubQueue,
    notification: &Shared<Notification>,
) -> Result<Offer, AllocError>
    ensures { IfOk result (IsOffer place notification.now queue.now.queue) }
{
    let share = share_of(alloc, queue, notification)?;
    Ok(Offer { place, share })
}

/// Adds the offer of a notification to the subscription at a place, if that asks for it. There is room for it among the
/// offers.
fn add_offer(
    alloc: Global,
    offers: &mut Vec<Offer>,
    place: usize,
    kept: &Subscription,
    notification: &Shared<Notification>,
) -> Result<(), AllocError>
    requires { vec_len offers.old < vec_capacity offers.old }
    ensures joins { OnOk result (Joins (matches kept.now.filters notification.now)
        place notification.now (told kept.now) offers.old.items offers.new.items) }
    ensures count { vec_len offers.new ≤ vec_len offers.old + 1 }
    ensures capacity { vec_capacity offers.new ≡ vec_capacity offers.old }
{
    if !is_asked_for(kept.filters.get(), notification) {
        return Ok(());
    }
    let offer = offer_to(alloc, place, &kept.queue, notification)?;
    offers.push_reserved(offer);
    Ok(())
}

/// The offers of a notification to those of the subscriptions at these places that ask for it.
pub(crate) fn offers_for(
    alloc: Global,
    subs: &[Subscription],
    places: &[u8],
    notification: &Shared<Notification>,
) -> Result<Vec<Offer>, AllocError>
    requires places { RiseBetween 0 (length subs.now) places.now }
    requires numbers { HaveNumbersLeft (all_told subs.now) }
    ensures { IfOk result
        (λ offers. AreOffers notification.now places.now (all_told subs.now) offers.items) }
{
    let mut offers = Vec::with_capacity(alloc, places.len())?;
    for index in 0..places.len() {
        let place = usize::from(places[index]);
        let kept = &subs[place];
        add_offer(alloc, &mut offers, place, kept, notification)?;
    }
    Ok(offers)
}
