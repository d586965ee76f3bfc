//! What a send would do, planned with all the memory that it takes.
ghost use Rattle.std.specs.Prelude.{◌≡◌, ◌+◌, ◌≤◌, drop, vec_len};
ghost use Rattle.client_set.specs.Edits.{change_at};
ghost use Rattle.sub_queue.specs.Queue.{HasNumberLeft};
ghost use Rattle.ntf_service.specs.Planning.{queue_with, sub_with_share, offers_made, offer_places, HoldsAt, RiseBetween, Suits, CanOffer, CanOfferAll};
ghost use Rattle.ntf_service.specs.Told.{all_told, HasRoom, spare_in};
ghost use Rattle.ntf_service.specs.Rooms.{HaveRoomsBut, RoomsStayBut};

use crate::rooms::lack_at;
use crate::subscription::Subscription;
use ais_values::Shared;
use arrayvec::ArrayVec;
use ntf_types::Notification;
use sub_queue::{Lost, SubQueue};

/// What a queue gets of a notification: all of it, or its mark alone, where it finds no place.
#[derive(Drop)]
pub(crate) enum Share {
    Whole { notification: Shared<Notification> },
    Mark { mark: Lost },
}

/// An offer to the subscription at a place.
#[derive(Drop)]
pub(crate) struct Offer {
    pub(crate) place: usize,
    pub(crate) share: Share,
}

/// A send that was planned: its id, and the offers to the subscriptions that ask for the notification, each with a share
/// of it. For the shares there is room in the queues.
#[derive(Drop)]
pub struct SendPlan {
    pub(crate) id: u64,
    pub(crate) offers: Vec<Offer>,
}

impl SendPlan {
    /// The id that the send gives. It takes no memory.
    pub fn id(&self) -> u64
        ensures { result ≡ self.now.id }
    {
        self.id
    }
}

/// Gives a queue its share, for which there is room.
fn give(queue: &mut SubQueue, share: Share)
    requires numbers { HasNumberLeft queue.old.queue }
    requires room { 1 ≤ queue.old.spare }
    requires suits { Suits share queue.old.queue }
    ensures { queue.new.queue ≡ queue_with share queue.old.queue }
{
    match share {
        Share::Whole { notification } => queue.offer_reserved(notification),
        Share::Mark { mark } => queue.lose_reserved(mark),
    }
}

/// Makes an offer, for which there is room. The other subscriptions stay as they are, and so do their rooms.
fn make_offer(subs: &mut Vec<Subscription>, offer: Offer)
    requires can { CanOffer offer (all_told subs.old.items) }
    requires room { HoldsAt HasRoom subs.old.items offer.place }
    ensures told { all_told subs.new.items
        ≡ change_at (sub_with_share offer.share) (all_told subs.old.items) offer.place }
    ensures count { vec_len subs.new ≡ vec_len subs.old }
    ensures beside { RoomsStayBut offer.place subs.old.items subs.new.items }
    ensures behind { drop (offer.place + 1) subs.new.items
        ≡ drop (offer.place + 1) subs.old.items }
{
    let Offer { place, share } = offer;
    let kept = &mut subs[place];
    give(&mut kept.queue, share);
}

/// Makes offers, one after another, where there is room in each queue. The answer is where there may be none then. It takes no
/// memory.
pub(crate) fn make_offers(subs: &mut Vec<Subscription>, offers: Vec<Offer>) -> ArrayVec<u8, 64>
    requires can { CanOfferAll offers.items (all_told subs.old.items) }
    requires rise { RiseBetween 0 (vec_len subs.old) (offer_places offers.items) }
    requires few { vec_len subs.old ≤ 64 }
    requires room { 1 ≤ spare_in subs.old.items }
    ensures told { all_told subs.new.items ≡ offers_made offers.items (all_told subs.old.items) }
    ensures rooms { HaveRoomsBut result.items subs.new.items }
{
    let mut lacking = ArrayVec::new();
    for offer in offers {
        let place = offer.place;
        make_offer(subs, offer);
        lack_at(&mut lacking, subs.as_slice(), place);
    }
    lacking
}
