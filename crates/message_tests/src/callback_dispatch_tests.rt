//! What no clause says: that calls succeed while there is memory, and that workers run at the same time.
ghost use Rattle.std.specs.Prelude.{◌≡◌, ◌+◌, ◌^◌, ◌<◌, ◌≤◌, [], length};

use ais_values::{Duplicate, Seq, Status};
use callback_dispatch::{CallbackQueue, Feeder, Gate, Numbered, OpenGate, Taker};
use calls::Callback;
use std::process::Abort;
use std::sync::Wait;
use std::sync::atomic::AtomicU32;
use std::sync::atomic::Ordering::SeqCst;
use std::test::Fail;
use std::thread;

fn written(invocation: u64) -> Callback {
    Callback::Written {
        invocation,
        status: Status::Ok,
    }
}

// The invocation of a callback that tells of a write.
fn invocation_of(callback: &Callback) -> Option<u64> {
    match callback {
        Callback::Written { invocation, .. } => Some(*invocation),
        _ => None,
    }
}

// The number under which a callback of this invocation is fed, or 0 where it comes back.
fn fed<R: Wait + Abort>(rt: &R, queue: &CallbackQueue, feeder: &mut Feeder, invocation: u64) -> u64
    requires queue { feeder.old.queue ≡ queue.now.name }
    requires fits { length feeder.old.list < 2 ^ 62 }
    ensures same { feeder.new.queue ≡ feeder.old.queue }
    ensures list { length feeder.new.list ≤ length feeder.old.list + 1 }
{
    match queue.feed(rt, feeder, written(invocation)) {
        Ok(number) => number,
        Err(back) => {
            assert_eq!(rt; invocation_of(&back), Some(invocation));
            drop(back);
            0
        }
    }
}

// Feeds so many callbacks, each with its number as invocation.
fn feed_all<R: Wait + Abort>(rt: &R, queue: &CallbackQueue, feeder: &mut Feeder, count: u32)
    requires queue { feeder.old.queue ≡ queue.now.name }
    requires fresh { feeder.old.list ≡ [] }
    ensures { feeder.new.queue ≡ feeder.old.queue }
{
    for before in 0..count {
        let number = u64::from(before) + 1;
        assert_eq!(rt; fed(rt, queue, feeder, number), number);
    }
}

// Takes the element of this number and this invocation.
fn takes<R: Wait + Abort>(
    rt: &R,
    queue: &CallbackQueue,
    taker: &mut Taker,
    number: u64,
    invocation: u64,
)
    requires { taker.old.queue ≡ queue.now.name }
    ensures { (taker.new.queue ≡ taker.old.queue) × (taker.new.share ≡ taker.old.share) }
{
    match queue.dispatch_one(rt, taker) {
        Some(element) => {
            assert_eq!(rt; element.number, number);
            assert_eq!(rt; invocation_of(&element.callback), Some(invocation));
            drop(element);
        }
        None => assert!(rt; false, "{number} is not there"),
    }
}

// Finds nothing.
fn is_empty<R: Wait + Abort>(rt: &R, queue: &CallbackQueue, taker: &mut Taker)
    requires { taker.old.queue ≡ queue.now.name }
{
    if let Some(element) = queue.dispatch_one(rt, taker) {
        drop(element);
        assert!(rt; false, "an element is there");
    }
}

// The elements have the numbers from the first on, and as many as there should be.
fn are_from<R: Abort>(rt: &R, taken: Seq<Numbered>, first: u64, count: usize) {
    assert_eq!(rt; taken.as_slice().len(), count);
    let mut number = first;
    for element in taken.as_slice() {
        assert_eq!(rt; element.number, number);
        assert_eq!(rt; invocation_of(&element.callback), Some(number));
        number = number.wrapping_add(1);
    }
    drop(taken);
}

#[test]
fn a_full_queue_hands_the_callback_back(rt: HostRuntime) -> Result<(), Fail> {
    let (queue, mut feeder, mut taker) = CallbackQueue::make(&rt, rt.alloc(), 1)?;
    assert_eq!(rt; fed(&rt, &queue, &mut feeder, 5), 1);
    assert_eq!(rt; fed(&rt, &queue, &mut feeder, 6), 0);
    takes(&rt, &queue, &mut taker, 1, 5);
    assert_eq!(rt; fed(&rt, &queue, &mut feeder, 7), 2);
    takes(&rt, &queue, &mut taker, 2, 7);
    is_empty(&rt, &queue, &mut taker);
    Ok(())
}

#[test]
fn an_element_is_copied(rt: HostRuntime) {
    let element = Numbered {
        number: 7,
        callback: written(5),
    };
    let copy = element.copy(rt.alloc()).expect(&rt, "memory");
    assert!(rt; copy == element);
    drop(copy);
    drop(element);
}

#[test]
fn two_takers_are_joined(rt: HostRuntime) -> Result<(), Fail> {
    let alloc = rt.alloc();
    let (queue, mut feeder, mut one) = CallbackQueue::make(&rt, alloc, 4)?;
    feed_all(&rt, &queue, &mut feeder, 3);
    let mut two = queue.split(&rt, alloc, &mut one)?;
    takes(&rt, &queue, &mut one, 1, 1);
    takes(&rt, &queue, &mut two, 2, 2);
    takes(&rt, &queue, &mut one, 3, 3);
    let mut both = queue.join_takers(&rt, one, two);
    queue.meet(&rt, alloc, &mut feeder, &mut both)?;
    is_empty(&rt, &queue, &mut both);
    Ok(())
}

// One of nine is taken, then all others by so many workers, and then nothing is left.
fn hands_out_nine<R: thread::Threads + Wait + Abort + Sync>(
    rt: &R,
    alloc: std::alloc::Global,
    workers: u32,
) -> Result<(), Fail>
    requires { (1 ≤ workers) × (workers ≤ 8) }
{
    let (queue, mut feeder, mut taker) = CallbackQueue::make(rt, alloc, 16)?;
    feed_all(rt, &queue, &mut feeder, 9);
    takes(rt, &queue, &mut taker, 1, 1);
    let Ok((taker, taken)) = queue.dispatch_all(rt, alloc, &mut feeder, taker, workers, &OpenGate)
    else {
        return Err(Fail::new("no memory"));
    };
    are_from(rt, taken, 2, 8);
    let Ok((_, taken)) = queue.dispatch_all(rt, alloc, &mut feeder, taker, workers, &OpenGate)
    else {
        return Err(Fail::new("no memory"));
    };
    are_from(rt, taken, 10, 0);
    Ok(())
}

#[test]
fn any_number_of_workers_gives_the_same(rt: HostRuntime) -> Result<(), Fail> {
    for workers in 1..9 {
        hands_out_nine(&rt, rt.alloc(), workers)?;
    }
    Ok(())
}

// Holds each worker until a second one is here, or a million turns have passed.
#[derive(Drop)]
struct SecondComer {
    here: AtomicU32,
    missed: AtomicU32,
}

impl Gate for SecondComer {
    fn hold(&self, _worker: u32) {
        self.here.fetch_add(1, SeqCst);
        for _ in 0..1_000_000 {
            if self.here.load(SeqCst) >= 2 {
                return;
            }
            thread::yield_now();
        }
        self.missed.fetch_add(1, SeqCst);
    }
}

#[test]
fn two_workers_are_there_at_once(rt: HostRuntime) -> Result<(), Fail> {
    let alloc = rt.alloc();
    let (queue, mut feeder, taker) = CallbackQueue::make(&rt, alloc, 4)?;
    feed_all(&rt, &queue, &mut feeder, 4);
    let gate = SecondComer {
        here: AtomicU32::new(0),
        missed: AtomicU32::new(0),
    };
    let Ok((_, taken)) = queue.dispatch_all(&rt, alloc, &mut feeder, taker, 2, &gate) else {
        return Err(Fail::new("no memory"));
    };
    are_from(&rt, taken, 1, 4);
    assert_eq!(rt; gate.here.load(SeqCst), 2);
    assert_eq!(rt; gate.missed.load(SeqCst), 0);
    Ok(())
}

// Notes each worker that passes, by a bit of its number.
#[derive(Drop)]
struct Noting {
    passed: AtomicU32,
}

impl Gate for Noting {
    fn hold(&self, worker: u32) {
        self.passed.fetch_add(1u32.wrapping_shl(worker), SeqCst);
    }
}

// The workers that pass where so many callbacks wait.
fn passing<R: thread::Threads + Wait + Abort + Sync>(
    rt: &R,
    alloc: std::alloc::Global,
    waiting: u32,
    workers: u32,
) -> Result<u32, Fail>
    requires { (1 ≤ workers) × (workers ≤ 8) }
{
    let (queue, mut feeder, taker) = CallbackQueue::make(rt, alloc, 4)?;
    feed_all(rt, &queue, &mut feeder, waiting);
    let gate = Noting {
        passed: AtomicU32::new(0),
    };
    let Ok((_, taken)) = queue.dispatch_all(rt, alloc, &mut feeder, taker, workers, &gate) else {
        return Err(Fail::new("no memory"));
    };
    are_from(rt, taken, 1, waiting as usize);
    Ok(gate.passed.load(SeqCst))
}

#[test]
fn each_worker_passes_the_gate_where_something_waits(rt: HostRuntime) -> Result<(), Fail> {
    let alloc = rt.alloc();
    assert_eq!(rt; passing(&rt, alloc, 0, 8)?, 0);
    assert_eq!(rt; passing(&rt, alloc, 1, 8)?, 255);
    assert_eq!(rt; passing(&rt, alloc, 4, 3)?, 7);
    Ok(())
}
