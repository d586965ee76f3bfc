//! All that waits is handed out by many workers.
ghost use Rattle.std.specs.Prelude.{◌≡◌, ◌+◌, ◌<◌, ◌≤◌, [], ◌++◌, length, take, IsPermutation, IfOk, IfErr, vec_len, vec_capacity};
ghost use Rattle.std.specs.List.Sorted.{IsNonDecreasingBy};
ghost use mathlib.Core.List.{IsPrefix};
ghost use Rattle.callback_dispatch.specs.Seen.{numbered};
ghost use Rattle.callback_dispatch.specs.Crew.{AreFree};

use crate::buffers::{Buffer, collect, free_buffers};
use crate::workers::{gather, take_left};
use crate::{CallbackQueue, Feeder, Gate, Numbered, Taker};
use ais_values::Seq;
use std::alloc::{AllocError, Global};
use std::sync::Wait;
use std::thread::Threads;

// The memory of a dispatch: an empty buffer for each worker, none where nothing waits, and an empty vector; each has room
// for all that waits.
fn free_memory(
    alloc: Global,
    workers: u32,
    waiting: usize,
) -> Result<(Vec<Buffer>, Vec<Numbered>), AllocError>
    ensures buffers { IfOk result (λ free. (vec_len free.0 ≤ workers)
        × AreFree waiting free.0.items) }
    ensures answer { IfOk result (λ free. (free.1.items ≡ []) × (waiting ≤ vec_capacity free.1)) }
{
    let answer = Vec::with_capacity(alloc, waiting)?;
    let workers = if waiting == 0 { 0 } else { workers };
    let buffers = free_buffers(alloc, workers, waiting)?;
    Ok((buffers, answer))
}

// The elements by number.
fn by_number(taken: Vec<Numbered>) -> Vec<Numbered>
    ensures same { IsPermutation taken.items result.items }
    ensures rises { IsNonDecreasingBy (λ x. x.number) result.items }
{
    let mut taken = taken;
    taken.sort_unstable_by_key(|element| element.number);
    taken
}

// The feeder and the only taker tell each other all that they know.
fn settle(queue: &CallbackQueue, feeder: &mut Feeder, taker: &mut Taker)
    requires feeder { feeder.old.queue ≡ queue.now.name }
    requires taker { (taker.old.queue ≡ queue.now.name) × (taker.old.share ≡ 8) }
    ensures feeder { (feeder.new.queue ≡ feeder.old.queue) × (feeder.new.list ≡ feeder.old.list)
        × (feeder.old.count ≤ feeder.new.count) × (feeder.new.count ≡ length taker.new.list) }
    ensures bounded { feeder.new.count ≤ length feeder.new.list }
    ensures grows { IsPrefix taker.old.known taker.new.known }
    ensures taker { (taker.new.queue ≡ taker.old.queue) × (taker.new.list ≡ taker.old.list)
        × (taker.new.share ≡ 8) × (taker.new.known ≡ feeder.old.list) }
    ensures exact { taker.new.list ≡ numbered 1 (take (length taker.new.list) feeder.old.list) }
{
    queue.exchange(feeder, taker);
}

// The workers take. They may leave something: what one of them learns where it finds nothing is lost as it is joined.
#[tactic(auto, using(crate::proofs::Crews::took_same))]
fn take_by_workers<R: Threads + Wait + Sync, G: Gate>(
    rt: &R,
    queue: &CallbackQueue,
    feeder: &mut Feeder,
    taker: Taker,
    waiting: usize,
    free: (Vec<Buffer>, Vec<Numbered>),
    gate: &G,
) -> (Taker, Vec<Numbered>)
    requires feeder { feeder.old.queue ≡ queue.now.name }
    requires taker { (taker.queue ≡ queue.now.name) × (taker.share ≡ 8) }
    requires waiting { length feeder.old.list ≤ length taker.list + waiting }
    requires buffers { (vec_len free.0 ≤ 8) × AreFree waiting free.0.items }
    requires answer { (free.1.items ≡ []) × (waiting ≤ vec_capacity free.1) }
    ensures feeder { (feeder.new.queue ≡ feeder.old.queue) × (feeder.new.list ≡ feeder.old.list)
        × (feeder.old.count ≤ feeder.new.count) }
    ensures taker { (result.0.queue ≡ taker.queue) × (result.0.share ≡ 8)
        × (result.0.known ≡ feeder.old.list) }
    ensures took { IsPermutation (taker.list ++ result.1.items) result.0.list }
    ensures long { length result.0.list ≡ length taker.list + vec_len result.1 }
    ensures few { vec_len result.1 ≤ waiting }
    ensures room { waiting ≤ vec_capacity result.1 }
{
    let (buffers, answer) = free;
    let (mut taker, buffers) = gather(rt, queue, taker, 0, waiting, buffers, gate);
    settle(queue, feeder, &mut taker);
    let answer = collect(buffers, answer);
    (taker, answer)
}

// All is taken: the workers take, and then the taker itself takes what they left, so that its `None` is exact.
#[tactic(auto, using(crate::proofs::Crews::all_taken, crate::proofs::Crews::all_counted, crate::proofs::Crews::took_rest))]
fn take_all<R: Threads + Wait + Sync, G: Gate>(
    rt: &R,
    queue: &CallbackQueue,
    feeder: &mut Feeder,
    taker: Taker,
    waiting: usize,
    free: (Vec<Buffer>, Vec<Numbered>),
    gate: &G,
) -> (Taker, Vec<Numbered>)
    requires feeder { feeder.old.queue ≡ queue.now.name }
    requires taker { (taker.queue ≡ queue.now.name) × (taker.share ≡ 8) }
    requires waiting { length feeder.old.list ≤ length taker.list + waiting }
    requires buffers { (vec_len free.0 ≤ 8) × AreFree waiting free.0.items }
    requires answer { (free.1.items ≡ []) × (waiting ≤ vec_capacity free.1) }
    ensures feeder { (feeder.new.queue ≡ feeder.old.queue) × (feeder.new.list ≡ feeder.old.list)
        × (feeder.old.count ≤ feeder.new.count) × (feeder.new.count ≡ length feeder.old.list) }
    ensures taker { (result.0.queue ≡ taker.queue) × (result.0.share ≡ 8)
        × (result.0.known ≡ feeder.old.list) }
    ensures list { result.0.list ≡ numbered 1 feeder.old.list }
    ensures took { IsPermutation (taker.list ++ result.1.items) (numbered 1 feeder.old.list) }
{
    let (mut taker, answer) = take_by_workers(rt, queue, feeder, taker, waiting, free, gate);
    let left = waiting - answer.len();
    let answer = take_left(rt, queue, &mut taker, answer, left);
    settle(queue, feeder, &mut taker);
    (taker, answer)
}

impl CallbackQueue {
    /// Hands out all that was fed and not taken, by so many workers in threads of their own, in order of numbers.
    ///
    /// Each worker passes the gate first, and takes until it finds nothing or has taken as many elements as waited;
    /// then the taker itself takes what they left. Where nothing waits there is no worker. The answer is the same for
    /// every number of workers. All memory is taken first: where it runs out nothing is taken, and the taker comes back
    /// with the error. The feeder is lent, so that nothing is fed meanwhile.
    pub fn dispatch_all<R: Threads + Wait + Sync, G: Gate>(
        &self,
        rt: &R,
        alloc: Global,
        feeder: &mut Feeder,
        taker: Taker,
        workers: u32,
        gate: &G,
    ) -> Result<(Taker, Seq<Numbered>), (Taker, AllocError)>
        requires feeder { feeder.old.queue ≡ self.now.name }
        requires taker { (taker.queue ≡ self.now.name) × (taker.share ≡ 8) }
        requires workers { (1 ≤ workers) × (workers ≤ 8) }
        ensures feeder { (feeder.new.queue ≡ feeder.old.queue) × (feeder.new.list ≡ feeder.old.list)
            × (feeder.old.count ≤ feeder.new.count) }
        ensures bounded { feeder.new.count ≤ length feeder.old.list }
        ensures given { IfOk result (λ done. taker.list ++ done.1 ≡ numbered 1 feeder.old.list) }
        ensures taker { IfOk result (λ done. (done.0.queue ≡ taker.queue) × (done.0.share ≡ 8)
            × (done.0.list ≡ numbered 1 feeder.old.list) × (done.0.known ≡ feeder.old.list)) }
        ensures count { IfOk result (λ _. feeder.new.count ≡ length feeder.old.list) }
        ensures err { IfErr result (λ failed. (failed.0.queue ≡ taker.queue) × (failed.0.share ≡ 8)
            × (failed.0.list ≡ taker.list)) }
        ensures known { IfErr result (λ failed. IsPrefix taker.known failed.0.known
            × IsPrefix failed.0.known feeder.old.list) }
    {
        let mut taker = taker;
        settle(self, feeder, &mut taker);
        let waiting = self.waiting(rt, &mut taker);
        let free = match free_memory(alloc, workers, waiting) {
            Ok(free) => free,
            Err(error) => return Err((taker, error)),
        };
        let (taker, answer) = take_all(rt, self, feeder, taker, waiting, free, gate);
        Ok((taker, Seq::from_vec(by_number(answer))))
    }
}
