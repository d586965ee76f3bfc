//! Scripts that are played over two disks, what they print, and with which status they end.
ghost use Rattle.std.specs.Prelude.{◌≡◌, None};

use callback_dispatch::OpenGate;
use cold_runs::run_cold;
use command_journal::ColdWorld;
use disk_model::{MemDisk, SharedDisk};
use io_edge::{MemSink, MemSource};
use std::alloc::Global;
use std::process::Abort;
use std::sync::Wait;
use std::thread::Threads;

/// The number alone; 0 is that of no call.
fn only(rt: &impl Abort, alloc: Global, number: u64) -> Vec<u64> {
    vec![in alloc; number].expect(rt, "memory")
}

/// A disk in memory of which this changing call and this reading call fails, counted from 1, and whose torn ranges hold these bytes.
pub fn new_disk(rt: &impl Abort, alloc: Global, changing: u64, reading: u64, torn: &[u8]) -> MemDisk
    ensures { result.tally.armed ≡ None }
{
    let torn = torn.to_vec(alloc).expect(rt, "memory");
    let changing = only(rt, alloc, changing);
    MemDisk::new(alloc, changing, only(rt, alloc, reading), torn)
}

/// Texts one behind the other.
fn joined(rt: &impl Abort, alloc: Global, parts: &[&str]) -> Vec<u8> {
    let mut text = Vec::new(alloc);
    for part in parts {
        text.extend_from_slice(part.as_bytes()).expect(rt, "memory");
    }
    text
}

/// Plays a script of these parts over two disks that are not armed: its status, and what it prints.
pub fn play<R: Abort + Threads + Wait + Sync, D: SharedDisk, J: SharedDisk>(
    rt: &R,
    alloc: Global,
    script: &[&str],
    disk: &mut D,
    journal: &mut J,
) -> (u8, MemSink)
    requires unarmed { (D.seen disk.old).tally.armed ≡ None }
    requires unarmed_too { (J.seen journal.old).tally.armed ≡ None }
{
    let bytes = joined(rt, alloc, script);
    let mut source = MemSource::new(bytes, only(rt, alloc, 0));
    let mut out = MemSink::new(alloc, only(rt, alloc, 0));
    let mut world = ColdWorld::empty(alloc);
    let gate = OpenGate;
    let status = run_cold(
        rt,
        alloc,
        &mut source,
        &mut out,
        disk,
        journal,
        &gate,
        &mut world,
    );
    world.end();
    drop(source);
    (status.code(), out)
}

/// A script of these parts ends with this status over two disks, and prints these texts and this last one.
pub fn prints<R: Abort + Threads + Wait + Sync, D: SharedDisk, J: SharedDisk>(
    rt: &R,
    alloc: Global,
    script: &[&str],
    disk: &mut D,
    journal: &mut J,
    status: u8,
    texts: &[&str],
    last: &str,
)
    requires unarmed { (D.seen disk.old).tally.armed ≡ None }
    requires unarmed_too { (J.seen journal.old).tally.armed ≡ None }
{
    let mut want = joined(rt, alloc, texts);
    want.extend_from_slice(last.as_bytes()).expect(rt, "memory");
    let (ended, out) = play(rt, alloc, script, disk, journal);
    assert!(rt; ended == status, "{ended} {script:?}");
    assert!(rt; out.written() == want.as_slice(), "{script:?}");
    drop(want);
    drop(out);
}
