//! The buffers into which workers put what they take, and how these become one answer.
ghost use Rattle.std.specs.Prelude.{◌≡◌, ◌+◌, ◌≤◌, [], ◌++◌, length, IsPermutation, IfOk, IfSome, IfNone, vec_len, vec_capacity};
ghost use Rattle.callback_dispatch.specs.Crew.{gathered, IsFree, AreFree};

use crate::Numbered;
use std::alloc::{AllocError, Global};

// What one worker takes, in order.
pub type Buffer = Vec<Numbered>;

// An empty buffer of so many places for each worker.
pub fn free_buffers(alloc: Global, workers: u32, places: usize) -> Result<Vec<Buffer>, AllocError>
    ensures { IfOk result (λ buffers.
        (vec_len buffers ≡ workers) × AreFree places buffers.items) }
{
    let mut buffers = Vec::with_capacity(alloc, workers as usize)?;
    for made in 0..workers {
        let buffer = Vec::with_capacity(alloc, places)?;
        buffers.push_reserved(buffer);
    }
    Ok(buffers)
}

// The last buffer, if there is one.
pub fn next_buffer(buffers: &mut Vec<Buffer>, places: usize) -> Option<Buffer>
    requires { AreFree places buffers.old.items }
    ensures some { IfSome result (λ buffer. IsFree places buffer × AreFree places buffers.new.items
        × (vec_len buffers.new + 1 ≡ vec_len buffers.old)) }
    ensures none { IfNone result ((buffers.new.items ≡ [])
        × (vec_len buffers.new ≡ vec_len buffers.old)) }
    ensures capacity { vec_capacity buffers.new ≡ vec_capacity buffers.old }
{
    buffers.pop()
}

// Moves what a buffer has to the end of a vector that has room for it.
fn move_all(buffer: Buffer, answer: &mut Vec<Numbered>)
    requires { vec_len answer.old + vec_len buffer ≤ vec_capacity answer.old }
    ensures items { answer.new.items ≡ answer.old.items ++ buffer.items }
    ensures capacity { vec_capacity answer.old ≤ vec_capacity answer.new }
{
    let mut buffer = buffer;
    match answer.append(&mut buffer) {
        Ok(()) => {}
        Err(_) => unreachable!(),
    }
}

// What the workers took, in no order, in an empty vector that has room for it.
#[tactic(auto, using(crate::proofs::Collected::none_collected, crate::proofs::Collected::collected_more, crate::proofs::Collected::all_collected))]
pub fn collect(buffers: Vec<Buffer>, answer: Vec<Numbered>) -> Vec<Numbered>
    requires empty { answer.items ≡ [] }
    requires fits { length (gathered buffers.items) ≤ vec_capacity answer }
    ensures items { IsPermutation (gathered buffers.items) result.items }
    ensures len { vec_len result ≡ length (gathered buffers.items) }
    ensures capacity { vec_capacity answer ≤ vec_capacity result }
{
    let mut buffers = buffers;
    let mut answer = answer;
    while let Some(buffer) = buffers.pop() {
        move_all(buffer, &mut answer);
    }
    answer
}
