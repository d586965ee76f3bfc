//! A source and a sink in memory, with calls that fail as planned.
ghost use Rattle.std.specs.Prelude.{◌≡◌, ◌↔◌, ◌<◌, ◌≤◌, ◌++◌, [], Some, min, length, take, IfOk, OnOk, IsErrOf, MatchResult};
ghost use Rattle.std.specs.Io.{ReadsAtMost, WritesAtMost};
ghost use Rattle.std.specs.Io.KnownBytes.{ReadConsumes, WriteAppends};
ghost use Rattle.ais_values.specs.Causes.{RoseExactlyOn};
ghost use Rattle.io_edge.specs.Plans.{first_plan, FailsNext, after_call, after_fault};

use crate::call_plan::CallPlan;
use crate::{IoFault, Sink, SinkAnswer, Source};
use std::alloc::Global;
use std::marker::Model;

/// A source that gives the bytes of a vector, each call as many as fit. Contracts see the bytes that are
/// left, and which of its calls fail.
#[derive(Drop)]
pub struct MemSource {
    bytes: Vec<u8>,
    at: usize,
    plan: CallPlan,
}

impl Model for MemSource {
    ghost use Rattle.std.specs.Prelude.{◌≤◌, length, drop};
    ghost use Rattle.io_edge.specs.Streams.{MemInput};

    ghost Value = { MemInput };

    ghost view = { λ source. record {
      left = drop source.at source.bytes.items;
      plan = source.plan;
    } };

    ghost invariant = { λ source. source.at ≤ length source.bytes.items };
}

impl MemSource {
    /// A source of these bytes, whose reading calls with these numbers fail. The first call has number 1.
    /// It takes no memory.
    pub fn new(bytes: Vec<u8>, failing: Vec<u64>) -> MemSource
        ensures left { ⟦<MemSource as Source>⟧.left result ≡ Some bytes.items }
        ensures faults { ⟦<MemSource as Source>⟧.faults result ≡ 0 }
        ensures plan { result.plan ≡ first_plan failing.items }
    {
        let plan = CallPlan::new(failing);
        MemSource { bytes, at: 0, plan }
    }

    /// The bytes that are left to read.
    pub fn unread(&self) -> &[u8]
        ensures { result.now ≡ self.now.left }
    {
        &self.bytes[self.at..]
    }
}

impl Source for MemSource {
    ghost left = { λ source. Some source.left };

    ghost faults = { λ source. source.plan.faults };

    fn read(&mut self, buf: &mut [u8]) -> Result<usize, IoFault>
        ensures bound { ReadsAtMost result buf.new }
        ensures bytes { ReadConsumes (Some self.old.left) (Some self.new.left) result buf.new }
        ensures cause { RoseExactlyOn self.old.plan.faults self.new.plan.faults result
            IoFault.Failed }
        ensures fails { IsErrOf result IoFault.Failed ↔ FailsNext self.old.plan }
        ensures count { IfOk result (λ count. count ≡ min (length buf.old) (length self.old.left)) }
        ensures plan { MatchResult result (λ _. self.new.plan ≡ after_call self.old.plan)
            (λ _. self.new.plan ≡ after_fault self.old.plan) }
    {
        if self.plan.fails_next() {
            self.plan.count_fault();
            return Err(IoFault::Failed);
        }
        self.plan.count_call();
        let count = copy_front(&self.bytes[self.at..], buf);
        self.at += count;
        Ok(count)
    }
}

// Copies as many bytes as there are and fit, and answers their number.
fn copy_front(from: &[u8], to: &mut [u8]) -> usize
    ensures count { result ≡ min (length to.old) (length from.now) }
    ensures bytes { take result to.new ≡ take result from.now }
{
    let count = to.len().min(from.len());
    to[..count].copy_from_slice(&from[..count]);
    count
}

/// A sink that keeps what is written, each piece whole. Contracts see the bytes that were written, and
/// which of its calls fail.
#[derive(Drop)]
pub struct MemSink {
    bytes: Vec<u8>,
    plan: CallPlan,
}

impl Model for MemSink {
    ghost use Rattle.io_edge.specs.Streams.{MemOutput};

    ghost Value = { MemOutput };

    ghost view = { λ sink. record { written = sink.bytes.items; plan = sink.plan } };
}

impl MemSink {
    /// An empty sink, whose writing calls with these numbers fail. The first call has number 1. It takes
    /// no memory.
    pub fn new(alloc: Global, failing: Vec<u64>) -> MemSink
        ensures written { ⟦<MemSink as Sink>⟧.written result ≡ Some [] }
        ensures faults { ⟦<MemSink as Sink>⟧.faults result ≡ 0 }
        ensures plan { result.plan ≡ first_plan failing.items }
    {
        MemSink {
            bytes: Vec::new(alloc),
            plan: CallPlan::new(failing),
        }
    }

    /// The bytes that were written.
    pub fn written(&self) -> &[u8]
        ensures { result.now ≡ self.now.written }
    {
        &self.bytes
    }
}

impl Sink for MemSink {
    ghost written = { λ sink. Some sink.written };

    ghost faults = { λ sink. sink.plan.faults };

    /// Appends the whole piece, or answers `Memory` and stays as it was. Such a call has no number.
    fn write(&mut self, bytes: &[u8]) -> Result<usize, SinkAnswer>
        ensures bound { WritesAtMost result bytes.now }
        ensures some { IfOk result (λ count. 0 < length bytes.now → 1 ≤ count) }
        ensures bytes { WriteAppends (Some self.old.written) (Some self.new.written) result
            bytes.now }
        ensures cause { RoseExactlyOn self.old.plan.faults self.new.plan.faults result
            SinkAnswer.Failed }
        ensures fails { IsErrOf result SinkAnswer.Failed ↔ FailsNext self.old.plan }
        ensures whole { IfOk result (λ count. count ≡ length bytes.now) }
        ensures called { OnOk result (self.new.plan ≡ after_call self.old.plan) }
        ensures failed { IsErrOf result SinkAnswer.Failed
            → self.new.plan ≡ after_fault self.old.plan }
        ensures memory { IsErrOf result SinkAnswer.Memory → self.new ≡ self.old }
    {
        if self.plan.fails_next() {
            self.plan.count_fault();
            return Err(SinkAnswer::Failed);
        }
        self.bytes.extend_from_slice(bytes)?;
        self.plan.count_call();
        Ok(bytes.len())
    }
}
