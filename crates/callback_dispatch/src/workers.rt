//! The workers of a dispatch, each in a thread of its own.
ghost use Rattle.std.specs.Prelude.{◌≡◌, ◌+◌, ◌^◌, ◌<◌, ◌≤◌, [], ◌++◌, length, IsPermutation, vec_len, vec_capacity};
ghost use Rattle.std.specs.Thread.{IsSync};
ghost use Rattle.callback_dispatch.specs.Crew.{gathered, IsFree, AreFree, TookMore};

use crate::buffers::{Buffer, next_buffer};
use crate::{CallbackQueue, Gate, Numbered, Taker};
use std::sync::Wait;
use std::thread;
use std::thread::Threads;

// One worker takes until it finds nothing, or its buffer is full.
fn work<R: Wait, G: Gate>(
    rt: &R,
    queue: &CallbackQueue,
    taker: Taker,
    worker: u32,
    places: usize,
    buffer: Buffer,
    gate: &G,
) -> (Taker, Buffer)
    requires queue { taker.queue ≡ queue.now.name }
    requires free { IsFree places buffer }
    ensures same { (result.0.queue ≡ taker.queue) × (result.0.share ≡ taker.share)
        × (result.0.known ≡ taker.known) }
    ensures took { result.0.list ≡ taker.list ++ result.1.items }
{
    gate.hold(worker);
    let mut taker = taker;
    let mut buffer = buffer;
    while buffer.len() < places {
        let Some(element) = queue.dispatch_one(rt, &mut taker) else {
            return (taker, buffer);
        };
        buffer.push_reserved(element);
    }
    (taker, buffer)
}

// A worker for each buffer, each with a share of the taker's. All of them are joined again.
#[cycle(crew)]
#[tactic(auto, using(crate::proofs::Crews::none_took, crate::proofs::Crews::one_took, crate::proofs::Crews::both_took, crate::proofs::Crews::joined_known))]
pub fn gather<R: Threads + Wait + Sync, G: Gate>(
    rt: &R,
    queue: &CallbackQueue,
    mut taker: Taker,
    worker: u32,
    places: usize,
    mut buffers: Vec<Buffer>,
    gate: &G,
) -> (Taker, Vec<Buffer>)
    requires queue { taker.queue ≡ queue.now.name }
    requires share { vec_len buffers ≤ taker.share }
    requires workers { worker + vec_len buffers < 2 ^ 32 }
    requires free { AreFree places buffers.items }
    ensures same { (result.0.queue ≡ taker.queue) × (result.0.share ≡ taker.share)
        × (result.0.known ≡ taker.known) }
    ensures took { IsPermutation (taker.list ++ gathered result.1.items) result.0.list }
    ensures buffers { (vec_len result.1 ≡ vec_len buffers)
        × (vec_capacity result.1 ≡ vec_capacity buffers) }
{
    let Some(buffer) = next_buffer(&mut buffers, places) else {
        return (taker, buffers);
    };
    if buffers.is_empty() {
        let (taker, buffer) = work(rt, queue, taker, worker, places, buffer, gate);
        buffers.push_reserved(buffer);
        return (taker, buffers);
    }
    let other = queue.cut(&mut taker);
    let ((one, buffer), (two, mut buffers)) = thread::join(
        rt,
        move || -> (Taker, Buffer)
            requires { IsSync R.row × IsSync G.row × (other.queue ≡ queue.now.name)
                × IsFree places buffer }
            ensures { (result.0.queue ≡ other.queue) × (result.0.share ≡ other.share)
                × (result.0.known ≡ other.known) × (result.0.list ≡ other.list ++ result.1.items) }
        { work(rt, queue, other, worker, places, buffer, gate) },
        move || -> (Taker, Vec<Buffer>)
            requires { IsSync R.row × IsSync G.row × (taker.queue ≡ queue.now.name)
                × (vec_len buffers ≤ taker.share) × (worker + 1 + vec_len buffers < 2 ^ 32)
                × AreFree places buffers.items }
            ensures { (result.0.queue ≡ taker.queue) × (result.0.share ≡ taker.share)
                × (result.0.known ≡ taker.known)
                × IsPermutation (taker.list ++ gathered result.1.items) result.0.list
                × (vec_len result.1 ≡ vec_len buffers)
                × (vec_capacity result.1 ≡ vec_capacity buffers) }
        { gather(rt, queue, taker, worker + 1, places, buffers, gate) },
    );
    buffers.push_reserved(buffer);
    (queue.join_takers(rt, two, one), buffers)
}

// Takes what is left, at most so many elements.
#[tactic(auto, using(crate::proofs::Crews::took_nothing, crate::proofs::Crews::took_one_more, crate::proofs::Crews::known_taken))]
pub fn take_left<R: Wait>(
    rt: &R,
    queue: &CallbackQueue,
    taker: &mut Taker,
    answer: Vec<Numbered>,
    most: usize,
) -> Vec<Numbered>
    requires queue { (taker.old.queue ≡ queue.now.name) × (taker.old.share ≡ 8) }
    requires room { vec_len answer + most ≤ vec_capacity answer }
    requires enough { length taker.old.known ≤ length taker.old.list + most }
    ensures same { (taker.new.queue ≡ taker.old.queue) × (taker.new.share ≡ taker.old.share)
        × (taker.new.known ≡ taker.old.known) }
    ensures took { TookMore taker.old.list answer.items taker.new.list result.items }
    ensures all { length taker.new.known ≤ length taker.new.list }
{
    let mut answer = answer;
    let full = answer.len() + most;
    while answer.len() < full {
        let Some(element) = queue.dispatch_one(rt, taker) else {
            return answer;
        };
        answer.push_reserved(element);
    }
    answer
}
