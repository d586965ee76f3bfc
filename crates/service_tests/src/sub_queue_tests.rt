//! What no clause says: that a queue takes and gives while there is memory; worked cases of losses and receipts.
use crate::fixtures::alarm;
use ais_values::{Duplicate, Seq, Shared};
use ntf_types::Notification;
use std::alloc::Global;
use std::process::Abort;
use sub_queue::{Content, Item, Lost, SubQueue};

fn numbered(rt: &impl Abort, alloc: Global, id: u64) -> Shared<Notification> {
    Shared::new(alloc, alarm(rt, alloc, id, 0, 2)).expect(rt, "memory")
}

fn offer(rt: &impl Abort, alloc: Global, queue: &mut SubQueue, id: u64) {
    let _held = queue.len();
    assert!(rt; queue.first() < 1000);
    queue.offer(numbered(rt, alloc, id)).expect(rt, "memory");
}

fn receive(rt: &impl Abort, queue: &mut SubQueue, through: u32) {
    let _held = queue.len();
    assert!(rt; queue.first() < 1000);
    assert!(rt; queue.is_new(through));
    queue.acked(through);
}

fn alarms_lost(rt: &impl Abort, alloc: Global, ids: &[u64]) -> Seq<Lost> {
    let mut lost = Seq::new(alloc);
    for id in ids {
        let one = Lost {
            kind: 0x4000,
            id: *id,
        };
        lost.push(one).expect(rt, "memory");
    }
    lost
}

/// Whether the queue has lost these alarms.
fn has_lost(rt: &impl Abort, alloc: Global, queue: &SubQueue, ids: &[u64]) -> bool {
    let lost = alarms_lost(rt, alloc, ids);
    let same = queue.lost() == lost.as_slice();
    drop(lost);
    same
}

/// Whether the queue holds this item in front, of which a copy is equal to it.
fn has_in_front(rt: &impl Abort, alloc: Global, queue: &SubQueue, item: Item) -> bool {
    let copy = item.copy(alloc).expect(rt, "memory");
    let equal = copy == item;
    drop(copy);
    let found = queue.items().0.first() == Some(&item);
    drop(item);
    equal && found
}

/// Capacity 2, five offers and a receipt through 2 leave one item, number 3, with the ids 3, 4 and 5.
#[test]
fn holds_what_was_lost(rt: HostRuntime) {
    let alloc = rt.alloc();
    let mut queue = SubQueue::new(alloc, 2).expect(&rt, "memory");
    for id in 1..6u64 {
        offer(&rt, alloc, &mut queue, id);
    }
    assert!(rt; queue.len() == 2 && has_lost(&rt, alloc, &queue, &[3, 4, 5]));
    receive(&rt, &mut queue, 2);
    let content = Content::Discarded {
        lost: alarms_lost(&rt, alloc, &[3, 4, 5]),
    };
    let last = Item { number: 3, content };
    assert!(rt; has_in_front(&rt, alloc, &queue, last));
    assert!(rt; queue.len() == 1 && queue.lost().is_empty());
    drop(queue);
}

/// Which receipts are new, and what they leave, with nothing lost.
#[test]
fn takes_new_receipts(rt: HostRuntime) {
    let alloc = rt.alloc();
    let mut queue = SubQueue::new(alloc, 256).expect(&rt, "memory");
    assert!(rt; !queue.is_new(0) && !queue.is_new(1));
    for id in 1..5u64 {
        offer(&rt, alloc, &mut queue, id);
    }
    receive(&rt, &mut queue, 2);
    // a receipt, whether it is new
    for (through, new) in [(0, false), (2, false), (3, true), (4, true), (5, false)] {
        assert!(rt; queue.is_new(through) == new, "{through}");
    }
    let content = Content::Notified {
        notification: numbered(&rt, alloc, 3),
    };
    let next = Item { number: 3, content };
    assert!(rt; queue.first() == 3 && has_in_front(&rt, alloc, &queue, next));
    receive(&rt, &mut queue, 4);
    assert!(rt; queue.len() == 0 && queue.first() == 5);
    drop(queue);
}

/// A queue of two that holds the items 40 and 41, and has lost the alarm 10.
fn rebuilt(rt: &impl Abort, alloc: Global) -> SubQueue {
    let mut held = Seq::new(alloc);
    let notification = numbered(rt, alloc, 7);
    let first = Content::Notified { notification };
    held.push(first).expect(rt, "memory");
    let lost = alarms_lost(rt, alloc, &[8, 9]);
    let second = Content::Discarded { lost };
    held.push(second).expect(rt, "memory");
    let lost = alarms_lost(rt, alloc, &[10]);
    SubQueue::rebuild(alloc, 2, 40, held, lost).expect(rt, "memory")
}

/// A queue made of parts numbers its items from the first on, and goes on from there.
#[test]
fn a_queue_made_of_parts_numbers_from_their_first(rt: HostRuntime) {
    let alloc = rt.alloc();
    let mut queue = rebuilt(&rt, alloc);
    offer(&rt, alloc, &mut queue, 11);
    receive(&rt, &mut queue, 40);
    let (front, behind) = queue.items();
    let numbers = front.iter().chain(behind.iter()).map(|item| item.number);
    let numbers = numbers.collect::<Vec<u32>>(alloc).expect(&rt, "memory");
    assert!(rt; numbers.as_slice() == [41, 42].as_slice());
    assert!(rt; queue.lost().is_empty());
    drop(queue);
}

/// Offers an alarm into room that is made for it before.
fn offer_reserved(rt: &impl Abort, alloc: Global, queue: &mut SubQueue, id: u64) {
    let _held = queue.len();
    assert!(rt; queue.first() < 1000);
    let notification = numbered(rt, alloc, id);
    queue.reserve(alloc).expect(rt, "memory");
    queue.offer_reserved(notification);
}

/// Room that is made before an offer takes the item, and then what is lost, over several growths of the marks' vector.
#[test]
fn offers_into_room(rt: HostRuntime) {
    let alloc = rt.alloc();
    let mut queue = SubQueue::new(alloc, 1).expect(&rt, "memory");
    for id in 1..9u64 {
        offer_reserved(&rt, alloc, &mut queue, id);
    }
    assert!(rt; queue.len() == 1);
    assert!(rt; has_lost(&rt, alloc, &queue, &[2, 3, 4, 5, 6, 7, 8]));
    drop(queue);
}
