//! Readers and writers of std as sources and sinks, among them the standard streams.
ghost use Rattle.std.specs.Prelude.{◌≡◌, ◌<◌, ◌≤◌, length, IfOk, IsErrOf, MatchResult};
ghost use Rattle.std.specs.Io.{ReadsAtMost, WritesAtMost};
ghost use Rattle.std.specs.Io.KnownBytes.{ReadConsumes, WriteAppends};
ghost use Rattle.ais_values.specs.Causes.{RoseExactlyOn, one_more};

use crate::{IoFault, Sink, SinkAnswer, Source};
use std::io;
use std::io::{ErrorKind, Read, Stdin, Stdout, Write};
use std::marker::Model;

/// How often a call is made that a signal interrupts each time.
const TRIES: u32 = 1024;

// One read, made again where a signal interrupts it.
fn read_through_signals<R: Read>(reader: &mut R, buf: &mut [u8]) -> io::Result<usize>
    ensures bound { ReadsAtMost result buf.new }
    ensures bytes { ReadConsumes (R.remaining reader.old) (R.remaining reader.new) result buf.new }
{
    for _ in 0..TRIES {
        match reader.read(buf) {
            Ok(count) => return Ok(count),
            Err(error) => {
                if error.kind() != ErrorKind::Interrupted {
                    return Err(error);
                }
            }
        }
    }
    Err(ErrorKind::Interrupted.into())
}

// One write, made again where a signal interrupts it.
fn write_through_signals<W: Write>(writer: &mut W, bytes: &[u8]) -> io::Result<usize>
    ensures bound { WritesAtMost result bytes.now }
    ensures bytes { WriteAppends (W.contents writer.old) (W.contents writer.new) result bytes.now }
{
    for _ in 0..TRIES {
        match writer.write(bytes) {
            Ok(count) => return Ok(count),
            Err(error) => {
                if error.kind() != ErrorKind::Interrupted {
                    return Err(error);
                }
            }
        }
    }
    Err(ErrorKind::Interrupted.into())
}

/// A reader of std as a source. Contracts see the bytes that the reader tells, and a count of the faults.
#[derive(Drop)]
pub struct Reading<R: Read> {
    inner: R,
    faults: u64,
}

/// Standard input, which tells no bytes.
pub type StdSource = Reading<Stdin>;

impl<R: Read> Model for Reading<R> {
    ghost use Rattle.io_edge.specs.Streams.{Stream};

    ghost Value = { Stream };

    ghost view = { λ stream. record { bytes = R.remaining stream.inner; faults = stream.faults } };
}

impl<R: Read> Reading<R> {
    /// The reader as a source, without a fault so far.
    pub fn new(inner: R) -> Reading<R>
        ensures left { ⟦<Reading<R> as Source>⟧.left result ≡ R.remaining inner }
        ensures faults { ⟦<Reading<R> as Source>⟧.faults result ≡ 0 }
    {
        Reading { inner, faults: 0 }
    }
}

impl<R: Read> Source for Reading<R> {
    ghost left = { λ stream. stream.bytes };

    ghost faults = { λ stream. stream.faults };

    /// A read that a signal interrupts is made again.
    fn read(&mut self, buf: &mut [u8]) -> Result<usize, IoFault>
        ensures bound { ReadsAtMost result buf.new }
        ensures bytes { ReadConsumes self.old.bytes self.new.bytes result buf.new }
        ensures cause { RoseExactlyOn self.old.faults self.new.faults result IoFault.Failed }
        ensures faults { MatchResult result (λ _. self.new.faults ≡ self.old.faults)
            (λ _. self.new.faults ≡ one_more self.old.faults) }
    {
        match read_through_signals(&mut self.inner, buf) {
            Ok(count) => Ok(count),
            Err(_) => {
                self.faults = self.faults.saturating_add(1);
                Err(IoFault::Failed)
            }
        }
    }
}

/// A writer of std as a sink. Contracts see the bytes that the writer tells, and a count of the faults.
#[derive(Drop)]
pub struct Writing<W: Write> {
    inner: W,
    faults: u64,
}

/// Standard output, which tells no bytes. What a call answers has been handed to the system.
pub type StdSink = Writing<Stdout>;

impl<W: Write> Model for Writing<W> {
    ghost use Rattle.io_edge.specs.Streams.{Stream};

    ghost Value = { Stream };

    ghost view = { λ stream. record { bytes = W.contents stream.inner; faults = stream.faults } };
}

impl<W: Write> Writing<W> {
    /// The writer as a sink, without a fault so far.
    pub fn new(inner: W) -> Writing<W>
        ensures written { ⟦<Writing<W> as Sink>⟧.written result ≡ W.contents inner }
        ensures faults { ⟦<Writing<W> as Sink>⟧.faults result ≡ 0 }
    {
        Writing { inner, faults: 0 }
    }
}

impl<W: Write> Sink for Writing<W> {
    ghost written = { λ stream. stream.bytes };

    ghost faults = { λ stream. stream.faults };

    /// A write that a signal interrupts is made again. A writer that takes nothing of a piece that is not
    /// empty has failed. `Memory` never comes.
    fn write(&mut self, bytes: &[u8]) -> Result<usize, SinkAnswer>
        ensures bound { WritesAtMost result bytes.now }
        ensures some { IfOk result (λ count. 0 < length bytes.now → 1 ≤ count) }
        ensures bytes { WriteAppends self.old.bytes self.new.bytes result bytes.now }
        ensures cause { RoseExactlyOn self.old.faults self.new.faults result SinkAnswer.Failed }
        ensures faults { MatchResult result (λ _. self.new.faults ≡ self.old.faults)
            (λ _. self.new.faults ≡ one_more self.old.faults) }
        ensures no_memory { IsErrOf result SinkAnswer.Memory → ⊥ }
    {
        match write_through_signals(&mut self.inner, bytes) {
            Ok(count) if count > 0 || bytes.is_empty() => Ok(count),
            _ => {
                self.faults = self.faults.saturating_add(1);
                Err(SinkAnswer::Failed)
            }
        }
    }
}
