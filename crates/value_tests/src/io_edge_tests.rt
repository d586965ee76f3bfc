//! Reads and writes at their edges, each call failing in turn, and the real streams.
use io_edge::{
    IoFault, MemSink, MemSource, ReadAnswer, Reading, Sink, SinkAnswer, Source, StdSink, StdSource,
    Writing, read_all, write_all,
};
use std::alloc::Global;
use std::io::{ErrorKind, Read, Write};
use std::process::Abort;
use std::test::Fail;
use std::{fs, io};

// So many bytes, of which no two pieces that are read together are alike.
fn sample(rt: &impl Abort, alloc: Global, count: u16) -> Vec<u8> {
    let mut bytes = Vec::new(alloc);
    for place in 0..count {
        bytes.push((place % 251) as u8).expect(rt, "memory");
    }
    bytes
}

// A source of these bytes, whose calls of these numbers fail.
fn source_of(rt: &impl Abort, alloc: Global, bytes: &[u8], failing: &[u64]) -> MemSource {
    let bytes = bytes.to_vec(alloc).expect(rt, "memory");
    let failing = failing.to_vec(alloc).expect(rt, "memory");
    MemSource::new(bytes, failing)
}

// Whether reading so many bytes up to a limit gives them, or this refusal, and how many it leaves.
fn reads_to(
    rt: &impl Abort,
    alloc: Global,
    count: u16,
    limit: u16,
    refusal: Option<ReadAnswer>,
) -> (bool, usize) {
    let bytes = sample(rt, alloc, count);
    let mut source = source_of(rt, alloc, bytes.as_slice(), &[]);
    let same = match read_all(alloc, &mut source, usize::from(limit)) {
        Ok(read) => refusal == None && read.as_slice() == bytes.as_slice(),
        Err(answer) => Some(answer) == refusal,
    };
    let left = source.unread().len();
    drop(source);
    drop(bytes);
    (same, left)
}

#[test]
fn reads_up_to_the_limit(rt: HostRuntime) {
    // How many bytes there are, the limit, the answer where there is no text, and how many are left.
    let rows: [(u16, u16, Option<ReadAnswer>, usize); 10] = [
        (0, 0, None, 0),
        (1, 0, Some(ReadAnswer::TooLong), 0),
        (0, 5, None, 0),
        (4, 5, None, 0),
        (5, 5, None, 0),
        (6, 5, Some(ReadAnswer::TooLong), 0),
        (7, 5, Some(ReadAnswer::TooLong), 1),
        (20_000, 20_000, None, 0),
        (20_001, 20_000, Some(ReadAnswer::TooLong), 0),
        (20_003, 20_000, Some(ReadAnswer::TooLong), 2),
    ];
    for (count, limit, refusal, left) in rows {
        let read = reads_to(&rt, rt.alloc(), count, limit, refusal);
        assert!(rt; read == (true, left), "{count} bytes of {limit}");
    }
}

// Whether the call of this number fails, and leaves all but so many bytes, which the next ones read.
fn goes_on_behind(rt: &impl Abort, alloc: Global, failing: u64, before: usize) -> bool {
    let bytes = sample(rt, alloc, 20_000);
    let rest = bytes.as_slice().get(before..).unwrap_or(&[]);
    let mut source = source_of(rt, alloc, bytes.as_slice(), &[failing]);
    let first = read_all(alloc, &mut source, 20_000).err();
    let left = source.unread() == rest;
    let second = read_all(alloc, &mut source, 20_000).expect(rt, "memory");
    let read = second.as_slice() == rest;
    drop(source);
    drop(second);
    drop(bytes);
    first == Some(ReadAnswer::ReadFault) && left && read
}

#[test]
fn each_read_fails_in_turn(rt: HostRuntime) {
    // The call that fails, and what was read before it: three pieces, and then the end.
    for (failing, before) in [(1, 0), (2, 8192), (3, 16_384), (4, 20_000)] {
        let goes_on = goes_on_behind(&rt, rt.alloc(), failing, before);
        assert!(rt; goes_on, "call {failing}");
    }
}

/// A sink that takes at most four bytes of a piece.
#[derive(Drop)]
struct Narrow {
    inner: MemSink,
}

impl Sink for Narrow {
    ghost use Rattle.std.specs.Prelude.{Some};

    ghost written = { λ sink. Some sink.inner.written };

    ghost faults = { λ sink. sink.inner.plan.faults };

    fn write(&mut self, bytes: &[u8]) -> Result<usize, SinkAnswer> {
        self.inner.write(&bytes[..bytes.len().min(4)])
    }
}

// Whether writing ten digits to a narrow sink whose call of this number fails answers so, and what was written then.
fn writes_digits(
    rt: &impl Abort,
    alloc: Global,
    failing: u64,
    answer: Result<(), SinkAnswer>,
    written: &[u8],
) -> bool {
    let failing = [failing].to_vec(alloc).expect(rt, "memory");
    let mut sink = Narrow {
        inner: MemSink::new(alloc, failing),
    };
    let answered = write_all(&mut sink, b"0123456789") == answer;
    let same = sink.inner.written() == written;
    drop(sink);
    answered && same
}

#[test]
fn each_write_fails_in_turn(rt: HostRuntime) {
    // The call that fails, and what was written then.
    let rows: [(u64, Result<(), SinkAnswer>, &[u8]); 4] = [
        (1, Err(SinkAnswer::Failed), b""),
        (2, Err(SinkAnswer::Failed), b"0123"),
        (3, Err(SinkAnswer::Failed), b"01234567"),
        (4, Ok(()), b"0123456789"),
    ];
    for (failing, answer, written) in rows {
        let same = writes_digits(&rt, rt.alloc(), failing, answer, written);
        assert!(rt; same, "call {failing}");
    }
}

#[test]
fn source_gives_and_fails_as_planned(rt: HostRuntime) {
    let mut source = source_of(&rt, rt.alloc(), b"abcde", &[2, 4]);
    let mut buf = [0; 3];
    let rows = [
        (Ok(3), b"abc"),
        (Err(IoFault::Failed), b"abc"),
        (Ok(2), b"dec"),
        (Err(IoFault::Failed), b"dec"),
        (Ok(0), b"dec"),
        (Ok(0), b"dec"),
    ];
    for (answer, given) in rows {
        assert!(rt; source.read(&mut buf) == answer);
        assert!(rt; &buf == given);
    }
    drop(source);
}

#[test]
fn sink_takes_and_fails_as_planned(rt: HostRuntime) {
    let alloc = rt.alloc();
    let mut sink = MemSink::new(alloc, [2].to_vec(alloc).expect(&rt, "memory"));
    let rows: [(&[u8], Result<(), SinkAnswer>); 4] = [
        (b"ab", Ok(())),
        (b"cd", Err(SinkAnswer::Failed)),
        (b"", Ok(())),
        (b"e", Ok(())),
    ];
    for (piece, answer) in rows {
        assert!(rt; write_all(&mut sink, piece) == answer);
    }
    assert!(rt; sink.written() == b"abe".as_slice());
    drop(sink);
}

/// A reader and writer whose first calls are interrupted, and the later ones give or take so many bytes.
#[derive(Drop)]
struct Unsteady {
    interrupts: u16,
    step: usize,
}

impl Unsteady {
    fn interrupted(&mut self) -> bool {
        let interrupted = self.interrupts > 0;
        self.interrupts = self.interrupts.saturating_sub(1);
        interrupted
    }
}

impl Read for Unsteady {
    fn read(&mut self, buf: &mut [u8]) -> io::Result<usize> {
        if self.interrupted() {
            return Err(ErrorKind::Interrupted.into());
        }
        Ok(buf.len().min(self.step))
    }
}

impl Write for Unsteady {
    fn write(&mut self, buf: &[u8]) -> io::Result<usize> {
        if self.interrupted() {
            return Err(ErrorKind::Interrupted.into());
        }
        Ok(buf.len().min(self.step))
    }

    fn flush(&mut self) -> io::Result<()> {
        Ok(())
    }
}

#[test]
fn interrupted_calls_are_made_again(rt: HostRuntime) {
    const FAILED: Result<usize, SinkAnswer> = Err(SinkAnswer::Failed);
    // Interrupts, bytes a call, the answers of a read and of a write of three bytes.
    let rows = [
        (0, 2, Ok(2), Ok(2)),
        (1023, 2, Ok(2), Ok(2)),
        (1024, 2, Err(IoFault::Failed), FAILED),
        (0, 0, Ok(0), FAILED),
    ];
    for (interrupts, step, read, written) in rows {
        let mut source = Reading::new(Unsteady { interrupts, step });
        assert!(rt; source.read(&mut [0; 3]) == read, "{interrupts} interrupts");
        let mut sink = Writing::new(Unsteady { interrupts, step });
        assert!(rt; sink.write(b"abc") == written, "{interrupts} interrupts");
    }
}

#[test]
fn real_files_are_read(rt: HostRuntime) -> Result<(), Fail> {
    let alloc = rt.alloc();
    let rows = [
        ("/dev/null", None),
        ("/dev/zero", Some(ReadAnswer::TooLong)),
        ("/", Some(ReadAnswer::ReadFault)),
    ];
    for (path, refusal) in rows {
        let mut source = Reading::new(fs::open(&rt, path)?);
        let answer = read_all(alloc, &mut source, 10_000);
        assert!(rt; answer.err() == refusal, "{path}");
    }
    Ok(())
}

#[test]
fn real_streams_are_read_and_written(rt: HostRuntime) -> Result<(), Fail> {
    let alloc = rt.alloc();
    let mut full = Writing::new(fs::create(&rt, "/dev/full")?);
    assert!(rt; write_all(&mut full, b"lost") == Err(SinkAnswer::Failed));
    let mut standard = StdSource::new(rt.stdin());
    assert!(rt; read_all(alloc, &mut standard, 10_000)?.len() == 0);
    write_all(&mut StdSink::new(rt.stdout()), b"written\n")?;
    Ok(())
}
