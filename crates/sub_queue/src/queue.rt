//! The queue of one subscription.
ghost use Rattle.std.specs.Prelude.{◌≡◌, ◌+◌, ◌<◌, ◌≤◌, ◌↔◌, false, [], ◌++◌, length, IsTrue, IsOk, IfOk, OnOk, OnErr};
ghost use Rattle.std.specs.VecDeque.{deque_len, deque_capacity};
ghost use Rattle.sub_queue.specs.Items.{mark_of, numbered, discarded};
ghost use Rattle.ntf_types.specs.declared.notification.Notification.{Notification};
ghost use Rattle.sub_queue.specs.Queue.{IsCapacity, IsSound, IsNew, HasNumberLeft, empty_queue, queue_of_parts, has_room, offered, with_lost, received};

use crate::{Content, Item, Lost};
use ais_values::{Seq, Shared, remove_front};
use ntf_types::{Notification, kind_of};
use std::alloc::{AllocError, Global};
use std::collections::VecDeque;
use std::marker::Model;
use std::mem;

/// The items of a subscription that have no receipt yet, at most `capacity` of them, and the
/// notifications that were lost since all places were taken. Contracts see the queue, and for how many
/// notifications more there is room.
pub struct SubQueue {
    alloc: Global,
    capacity: u32,
    first: u32,
    items: VecDeque<Item>,
    lost: Vec<Lost>,
}

// Written out, as a derived one is proved anew in each crate that lets such a value go.
impl Drop for SubQueue {
    fn drop(self) {
        let SubQueue {
            alloc: _,
            capacity: _,
            first: _,
            items,
            lost,
        } = self;
        drop(items);
        drop(lost);
    }
}

impl Model for SubQueue {
    ghost use Rattle.sub_queue.specs.Queue.{KeptQueue};

    ghost Value = { KeptQueue };

    ghost use Rattle.sub_queue.specs.Inside.{kept_inside, IsKept};

    ghost view = { kept_inside };

    ghost invariant = { IsKept };
}

/// The type and the id of a notification, which stand for it where it is lost.
pub fn mark_of(notification: &Notification) -> Lost
    ensures { result ≡ mark_of notification.now }
{
    Lost {
        kind: kind_of(notification),
        id: notification.id,
    }
}

/// Adds an item of what was lost, where anything was. It takes the place of a removed one.
fn add_discarded(items: &mut VecDeque<Item>, number: u32, lost: Seq<Lost>)
    requires { deque_len items.old < deque_capacity items.old }
    ensures items { items.new.items ≡ items.old.items ++ numbered number (discarded lost) }
    ensures capacity { deque_capacity items.new ≡ deque_capacity items.old }
{
    if !lost.as_slice().is_empty() {
        let content = Content::Discarded { lost };
        let item = Item { number, content };
        items.push_back_reserved(item);
    }
}

/// The contents as items, numbered from `first` on.
fn numbered_items(alloc: Global, first: u32, held: Seq<Content>) -> Result<Vec<Item>, AllocError>
    requires { first + length held ≤ 4294967295 }
    ensures { IfOk result (λ items. items.items ≡ numbered first held) }
{
    let count = held.as_slice().len();
    let mut items = Vec::with_capacity(alloc, count)?;
    let mut number = first;
    for content in held.into_vec() {
        items.push_reserved(Item { number, content });
        number += 1;
    }
    Ok(items)
}

impl SubQueue {
    /// The queue of a new subscription, of this capacity. It takes no memory, so there is never an error.
    pub fn new(alloc: Global, cap: u32) -> Result<SubQueue, AllocError>
        requires { IsCapacity cap }
        ensures queue { IfOk result (λ made. made.queue ≡ empty_queue cap) }
        ensures ok { IsOk result }
    {
        Ok(SubQueue {
            alloc,
            capacity: cap,
            first: 1,
            items: VecDeque::new(alloc),
            lost: Vec::new(alloc),
        })
    }

    /// The queue with these parts, its items numbered from `first`. It takes the memory of these items.
    pub fn rebuild(
        alloc: Global,
        cap: u32,
        first: u32,
        held: Seq<Content>,
        lost: Seq<Lost>,
    ) -> Result<SubQueue, AllocError>
        requires { IsSound (queue_of_parts cap first held lost) }
        ensures { IfOk result (λ made. made.queue ≡ queue_of_parts cap first held lost) }
    {
        let items = numbered_items(alloc, first, held)?;
        Ok(SubQueue {
            alloc,
            capacity: cap,
            first,
            items: VecDeque::from_vec(items),
            lost: lost.into_vec(),
        })
    }

    /// Offers a notification that matches. It becomes the next item where a place is free; otherwise its type and id join those
    /// lost. It takes memory only where no room was made for it. On an error nothing changes.
    pub fn offer(&mut self, notification: Shared<Notification>) -> Result<(), AllocError>
        requires { HasNumberLeft self.old.queue }
        ensures ok { OnOk result (self.new.queue ≡ offered notification self.old.queue) }
        ensures room { 1 ≤ self.old.spare → IsOk result }
        ensures err { OnErr result (self.new.queue ≡ self.old.queue) }
    {
        match self.reserve(self.alloc) {
            Ok(()) => {
                self.offer_reserved(notification);
                Ok(())
            }
            Err(error) => {
                drop(notification);
                Err(error)
            }
        }
    }

    /// Makes room for one notification more: for an item where a place is free, otherwise for the mark of one that is lost. The
    /// queue stays as it is; an error is want of memory. It takes memory only where there was no room.
    pub fn reserve(&mut self, _alloc: Global) -> Result<(), AllocError>
        ensures queue { self.new.queue ≡ self.old.queue }
        ensures ok { OnOk result (1 ≤ self.new.spare) }
        ensures free { 1 ≤ self.old.spare → IsOk result }
    {
        if self.items.len() < self.capacity as usize {
            self.items.reserve(1)
        } else {
            self.lost.reserve(1)
        }
    }

    /// Offers a notification that matches, as `offer` does, into room that was made for it. It takes no memory.
    pub fn offer_reserved(&mut self, notification: Shared<Notification>)
        requires numbers { HasNumberLeft self.old.queue }
        requires room { 1 ≤ self.old.spare }
        ensures { self.new.queue ≡ offered notification self.old.queue }
    {
        let count = self.items.len();
        if count < self.capacity as usize {
            let number = self.first + count as u32;
            let content = Content::Notified { notification };
            self.items.push_back_reserved(Item { number, content });
        } else {
            let mark = mark_of(notification.get());
            drop(notification);
            self.lost.push_reserved(mark);
        }
    }

    /// Offers a notification that matches by its mark alone, where no place is free, into room that was made for it.
    /// It takes no memory.
    pub fn lose_reserved(&mut self, mark: Lost)
        requires full { has_room self.old.queue ≡ false }
        requires room { 1 ≤ self.old.spare }
        ensures { self.new.queue ≡ with_lost mark self.old.queue }
    {
        self.lost.push_reserved(mark);
    }

    /// Whether a place is free for the next item.
    pub fn has_room(&self) -> bool
        ensures { result ≡ has_room self.now.queue }
    {
        self.items.len() < self.capacity as usize
    }

    /// Whether a receipt is new: its number is that of an item that is held.
    pub fn is_new(&self, through: u32) -> bool
        ensures { IsTrue result ↔ IsNew through self.now.queue }
    {
        through >= self.first && through - self.first < self.items.len() as u32
    }

    /// Takes a new receipt: the items through its number are removed. Where notifications were lost, one
    /// item more holds them all, and none is lost any more. It takes no memory.
    pub fn acked(&mut self, through: u32)
        requires new { IsNew through self.old.queue }
        requires numbers { HasNumberLeft self.old.queue }
        ensures { self.new.queue ≡ received through self.old.queue }
    {
        let count = (through - self.first) as usize + 1;
        remove_front(&mut self.items, count);
        self.first = through + 1;
        let number = self.first + self.items.len() as u32;
        let lost = mem::replace(&mut self.lost, Vec::new(self.alloc));
        add_discarded(&mut self.items, number, Seq::from_vec(lost));
    }

    /// How many items are held.
    pub fn len(&self) -> usize
        ensures held { result ≡ length self.now.queue.held }
        ensures sound { IsSound self.now.queue }
    {
        self.items.len()
    }

    /// The items that are held, in order of their numbers: those in front, and those behind them.
    pub fn items(&self) -> (&[Item], &[Item])
        ensures items { result.0.now ++ result.1.now
            ≡ numbered self.now.queue.first self.now.queue.held }
        ensures sound { IsSound self.now.queue }
    {
        self.items.as_slices()
    }

    /// What was lost since the last item was made, in order.
    pub fn lost(&self) -> &[Lost]
        ensures { result.now ≡ self.now.queue.lost }
    {
        self.lost.as_slice()
    }

    /// The number of the first item that is held, or of the next one where none is.
    pub fn first(&self) -> u32
        ensures { result ≡ self.now.queue.first }
    {
        self.first
    }
}
