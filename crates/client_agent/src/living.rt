//! The subscriptions that live in an agent, the newest in front.
ghost use Rattle.std.specs.Prelude.{◌≡◌, ◌==◌, ◌++◌, suc, map, OnOk};
ghost use Rattle.std.specs.List.{find};
ghost use Rattle.std.specs.VecDeque.{deque_len, deque_capacity};
ghost use Rattle.client_set.specs.Rising.{without};
ghost use Rattle.cluster_facts.specs.Agents.{call_of, living_after, living_after_reply, greatest_receipt, greatest_receipts};
ghost use Rattle.client_agent.specs.Inside.{all_living, moved, HasPlaceFor};

use calls::{Ask, Call, Reply};
use std::alloc::AllocError;
use std::collections::VecDeque;
use wire::Message;

/// A subscription: the number of its call, its id, and the number of the last item taken, 0 before the first.
#[derive(Clone, Copy)]
pub struct Subscription {
    pub key: u32,
    pub id: u32,
    pub taken: u32,
}

impl Subscription {
    /// The subscription after an item of this key and number was taken.
    fn moved(self, key: u32, number: u32) -> Subscription
        ensures { result ≡ moved key number self }
    {
        Subscription {
            key: self.key,
            id: self.id,
            taken: if key == self.key { number } else { self.taken },
        }
    }
}

/// The subscription of this key.
pub fn find_subscription(living: &VecDeque<Subscription>, key: u32) -> Option<Subscription>
    ensures { result ≡ find (λ it. it.key == key) living.now.items }
{
    living.iter().copied().find(|it| it.key == key)
}

/// Makes a place for the subscription that what is asked begins, if it begins one. Else it takes no memory.
pub fn make_place(living: &mut VecDeque<Subscription>, ask: &Ask) -> Result<(), AllocError>
    ensures items { living.new.items ≡ living.old.items }
    ensures ok { OnOk result
        (HasPlaceFor (call_of ask.now) (deque_len living.new) (deque_capacity living.new)) }
{
    match ask {
        Ask::Plain {
            call: Call::NtfSubscribe { .. },
        } => living.reserve(1),
        _ => Ok(()),
    }
}

/// Begins and ends subscriptions as the call of this number is sent.
pub fn note_call(living: &mut VecDeque<Subscription>, number: u32, call: &Call)
    requires { HasPlaceFor call.now (deque_len living.old) (deque_capacity living.old) }
    ensures { all_living living.new.items ≡
        living_after number call.now (all_living living.old.items) }
{
    match call {
        Call::NtfSubscribe { id, .. } => living.push_front_reserved(Subscription {
            key: number,
            id: *id,
            taken: 0,
        }),
        Call::NtfUnsubscribe { id } => end_by_id(living, *id),
        Call::NtfFini => living.clear(),
        _ => {}
    }
}

/// Ends the subscriptions of this id.
fn end_by_id(living: &mut VecDeque<Subscription>, id: u32)
    ensures { all_living living.new.items ≡
        without (λ it. it.id == id) (all_living living.old.items) }
{
    living.retain(|it| it.id != id);
}

/// Ends the subscription of this key.
fn end_by_key(living: &mut VecDeque<Subscription>, key: u32)
    ensures { all_living living.new.items ≡
        without (λ it. it.key == key) (all_living living.old.items) }
{
    living.retain(|it| it.key != key);
}

/// Ends the subscription whose call is refused.
pub fn note_reply(living: &mut VecDeque<Subscription>, number: u32, reply: &Reply)
    ensures { all_living living.new.items ≡
        living_after_reply number reply.now (all_living living.old.items) }
{
    if let Reply::Refused { .. } = reply {
        end_by_key(living, number);
    }
}

/// Notes that the subscription of this key has taken the item of this number.
pub fn note_item(living: &mut VecDeque<Subscription>, key: u32, number: u32)
    ensures { living.new.items ≡ map (moved key number) living.old.items }
{
    for index in 0..living.len() {
        let after = living[index].moved(key, number);
        living[index] = after;
    }
}

/// Adds the greatest receipt of each subscription, that of the oldest first.
pub fn add_receipts(
    client: u16,
    living: &VecDeque<Subscription>,
    messages: &mut Vec<Message>,
) -> Result<(), AllocError>
    ensures { OnOk result (messages.new.items ≡
        messages.old.items ++ greatest_receipts client (all_living living.now.items)) }
{
    let mut left = living.len();
    while left > 0 {
        left -= 1;
        add_receipt(client, living[left], messages)?;
    }
    Ok(())
}

/// Adds the receipt of the last item that a subscription has taken, if there is one.
fn add_receipt(
    client: u16,
    subscription: Subscription,
    messages: &mut Vec<Message>,
) -> Result<(), AllocError>
    ensures { OnOk result (messages.new.items ≡ messages.old.items ++
        greatest_receipt client subscription.key (suc subscription.taken)) }
{
    let Subscription { key, taken, .. } = subscription;
    if taken > 0 {
        messages.push(Message::Receipt {
            client,
            key,
            through: taken,
        })?;
    }
    Ok(())
}
