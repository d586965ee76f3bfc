//! A server whose journal's disk tells no files: it starts from what the disk gives it, or tells at which gate it does not.
ghost use Rattle.std.specs.Prelude.{◌≡◌, None};

use crate::playing::{new_disk, play, prints};
use crate::rows::{ACCEPTED, ACTIVE, ANSWERED, DOWN, ONE, OPENED, POSTED, RECORD, REPLIED, SHOWS};
use crate::silent::Silent;
use disk_model::{MemDisk, SharedDisk};
use itoa::Buffer;
use std::alloc::Global;
use std::process::Abort;
use std::sync::Wait;
use std::thread::Threads;

const NAME: &[u8] = b"journal.dat";

/// The server goes down behind three entries, and starts again.
const BACK: &str = "settle\ncrash a\nrestart a\n";

/// What is asked behind that.
const ON: &str = "\
    log 1 write system inv=0 flags=0 gen sev=6 class=0.0.0 user=\"u\" body=\"b\"\n\
    settle\n\
    deliver 5\n\
    resend 1\n\
    arm b 1\n\
    mirror\n\
    crash a\n\
    restart a\n\
    settle\n\
    push\n\
    servers\n";

/// A disk that tells no files.
fn silent(rt: &impl Abort, alloc: Global, kept: u64, place: u64, byte: u8) -> Silent
    ensures { result.disk.tally.armed ≡ None }
{
    let disk = new_disk(rt, alloc, 0, 0, b"");
    Silent {
        disk,
        kept,
        place,
        byte,
    }
}

/// The bytes of the journal that three entries leave.
fn journal_bytes<R: Abort + Threads + Wait + Sync>(rt: &R, alloc: Global) -> Vec<u8> {
    let mut disk = new_disk(rt, alloc, 0, 0, b"");
    let mut journal = new_disk(rt, alloc, 0, 0, b"");
    let (status, out) = play(rt, alloc, &[OPENED, "settle\n"], &mut disk, &mut journal);
    assert!(rt; status == 0);
    drop(out);
    drop(disk);
    let bytes = bytes_of(rt, alloc, &mut journal);
    drop(journal);
    bytes
}

/// The bytes of the journal's file.
fn bytes_of(rt: &impl Abort, alloc: Global, journal: &mut MemDisk) -> Vec<u8> {
    let len = journal.len(NAME).expect(rt, "a length").unwrap_or(0);
    assert!(rt; len <= 100_000);
    let mut bytes = vec![in alloc; 0; len as usize].expect(rt, "memory");
    let count = journal.read(NAME, 0, bytes.as_mut_slice());
    assert!(rt; count == Ok(bytes.len()));
    bytes
}

/// The places of the gates of a journal: behind a gate stand a length in four bytes, and so many bytes.
fn gates_of(rt: &impl Abort, alloc: Global, bytes: &[u8]) -> Vec<u64> {
    let mut gates = Vec::new(alloc);
    let mut next: u64 = 0;
    let mut gate: u64 = 0;
    let mut length: u64 = 0;
    for (index, byte) in bytes.iter().enumerate() {
        let place = index as u64;
        if place == next {
            gates.push(place).expect(rt, "memory");
            gate = place;
            length = 0;
        } else if place.wrapping_sub(gate) <= 4 {
            length = length.wrapping_mul(256).wrapping_add(*byte as u64);
        }
        if place.wrapping_sub(gate) == 4 {
            next = place.wrapping_add(length).wrapping_add(1);
        }
    }
    gates
}

/// The place of the first gate behind whose frame none of so many of a journal's first bytes stands.
fn refused_gate(gates: &[u64], kept: u64) -> u64 {
    let mut place = 0;
    for gate in gates {
        if kept > *gate {
            place = *gate;
        }
    }
    place
}

#[test]
fn a_journal_that_is_cut_is_refused_at_its_last_gate(rt: HostRuntime) {
    let alloc = rt.alloc();
    let bytes = journal_bytes(&rt, alloc);
    let gates = gates_of(&rt, alloc, bytes.as_slice());
    assert!(rt; gates.len() == 5);
    for (index, _) in bytes.as_slice().iter().enumerate() {
        let kept = index as u64;
        let mut disk = new_disk(&rt, alloc, 0, 0, b"");
        let mut journal = silent(&rt, alloc, kept, u64::MAX, 0);
        let mut buffer = Buffer::new();
        let digits = buffer.format(refused_gate(gates.as_slice(), kept));
        let told = if kept < 2 {
            ["no journal", ""]
        } else {
            ["journal ", digits]
        };
        let texts = [POSTED, ACCEPTED, ANSWERED, REPLIED, DOWN, told[0], told[1]];
        let script = [OPENED, BACK];
        prints(
            &rt,
            alloc,
            &script,
            &mut disk,
            &mut journal,
            9,
            &texts,
            "\n",
        );
        drop(disk);
        drop(journal);
    }
}

#[test]
fn a_gate_that_is_torn_ends_the_journal_and_the_world_goes_on(rt: HostRuntime) {
    let alloc = rt.alloc();
    let bytes = journal_bytes(&rt, alloc);
    let gates = gates_of(&rt, alloc, bytes.as_slice());
    for place in gates.as_slice() {
        for byte in [0, 7, 255] {
            let mut disk = silent(&rt, alloc, u64::MAX, u64::MAX, 0);
            let mut journal = silent(&rt, alloc, u64::MAX, *place, byte);
            let (status, out) = play(&rt, alloc, &[OPENED, BACK, ON], &mut disk, &mut journal);
            let want = if *place == 0 { 9 } else { 0 };
            assert!(rt; status == want, "{place} {byte}: {status}");
            drop(out);
            drop(disk);
            drop(journal);
        }
    }
}

#[test]
fn a_server_comes_back_over_disks_that_tell_no_files(rt: HostRuntime) {
    let alloc = rt.alloc();
    let mut disk = silent(&rt, alloc, u64::MAX, u64::MAX, 0);
    let mut journal = silent(&rt, alloc, u64::MAX, u64::MAX, 0);
    let texts = [POSTED, ACCEPTED, ANSWERED, REPLIED, DOWN, ACTIVE, ONE];
    let script = [OPENED, BACK, SHOWS];
    prints(
        &rt,
        alloc,
        &script,
        &mut disk,
        &mut journal,
        0,
        &texts,
        RECORD,
    );
    drop(disk);
    drop(journal);
}
