//! A queue of callbacks is filled and emptied by workers, many times. `bench/dispatch` measures it.
ghost use Rattle.std.specs.Prelude.{◌≡◌, ◌+◌, ◌^◌, ◌≤◌, length};

use ais_values::{Seq, Status};
use callback_dispatch::{CallbackQueue, Feeder, Numbered, OpenGate, Taker};
use calls::Callback;
use std::alloc::{AllocError, Global};
use std::sync::Wait;
use std::thread::Threads;

// Feeds so many callbacks, and tells whether all had a place.
fn feed_all<R: Wait>(rt: &R, queue: &CallbackQueue, feeder: &mut Feeder, count: u32) -> bool
    requires queue { feeder.old.queue ≡ queue.now.name }
    requires fits { length feeder.old.list ≤ 2 ^ 61 }
    ensures { feeder.new.queue ≡ feeder.old.queue }
{
    for invocation in 0..count {
        let callback = Callback::Written {
            invocation: u64::from(invocation),
            status: Status::Ok,
        };
        if let Err(back) = queue.feed(rt, feeder, callback) {
            drop(back);
            return false;
        }
    }
    true
}

// The sum of the numbers.
fn sum_of(taken: &Seq<Numbered>) -> u64 {
    let mut sum = 0u64;
    for element in taken.as_slice() {
        sum = sum.wrapping_add(element.number);
    }
    sum
}

// A queue is made, filled and emptied.
fn round<R: Threads + Wait + Sync>(
    rt: &R,
    alloc: Global,
    callbacks: u32,
    workers: u32,
) -> Result<(u64, u64), AllocError>
    requires workers { (1 ≤ workers) × (workers ≤ 8) }
    requires callbacks { 1 ≤ callbacks }
{
    let (queue, mut feeder, taker) = CallbackQueue::make(rt, alloc, callbacks)?;
    if !feed_all(rt, &queue, &mut feeder, callbacks) {
        return Ok((0, 0));
    }
    match queue.dispatch_all(rt, alloc, &mut feeder, taker, workers, &OpenGate) {
        Ok((_, taken)) => {
            let told = (taken.as_slice().len() as u64, sum_of(&taken));
            drop(taken);
            Ok(told)
        }
        Err((_, error)) => Err(error),
    }
}

/// How many callbacks are handed out in so many rounds, and the sum of their numbers.
pub fn hand_out<R: Threads + Wait + Sync>(
    rt: &R,
    alloc: Global,
    callbacks: u32,
    workers: u32,
    count: u32,
) -> Result<(u64, u64), AllocError>
    requires workers { (1 ≤ workers) × (workers ≤ 8) }
    requires callbacks { 1 ≤ callbacks }
{
    let mut all = 0u64;
    let mut sum = 0u64;
    for _ in 0..count {
        let (more, part) = round(rt, alloc, callbacks, workers)?;
        all = all.wrapping_add(more);
        sum = sum.wrapping_add(part);
    }
    Ok((all, sum))
}
