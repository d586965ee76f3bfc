//! Cold starts from a journal that is cut or changed, and such as break off and are begun again.
use crate::journals::{
    FIRST, NAME, SECOND, Started, answers, behind_value, bytes_of, gates, new_disk, starts,
    stream_stands,
};
use disk_model::{MemDisk, SharedDisk};
use journal_start::{ColdAnswer, Journal};
use mirror::Role;
use std::alloc::Global;
use std::process::Abort;

/// The bytes, with this one at a place.
fn changed(rt: &impl Abort, alloc: Global, bytes: &[u8], place: u64, byte: u8) -> Vec<u8> {
    let mut changed = Vec::new(alloc);
    for (at, old) in bytes.iter().enumerate() {
        let new = if at as u64 == place { byte } else { *old };
        changed.push(new).expect(rt, "memory");
    }
    changed
}

/// A journal of two entries.
fn whole(rt: &impl Abort, alloc: Global) -> Vec<u8> {
    behind_value(rt, alloc, &[&FIRST, &SECOND, b"\x00"])
}

/// What a cold start comes to over so many of a journal's first bytes: the first gate behind whose frame no byte stands is refused. `None`
/// for the whole journal.
fn cut_answer(gates: [u64; 4], kept: u64) -> Option<ColdAnswer> {
    let [value, first, second, closed] = gates;
    if kept < 2 {
        Some(ColdAnswer::NoJournal)
    } else if kept <= first {
        Some(ColdAnswer::Refused { place: value })
    } else if kept <= second {
        Some(ColdAnswer::Refused { place: first })
    } else if kept <= closed {
        Some(ColdAnswer::Refused { place: second })
    } else {
        None
    }
}

#[test]
fn a_journal_that_is_cut_is_refused_at_its_last_gate(rt: HostRuntime) {
    let alloc = rt.alloc();
    let bytes = whole(&rt, alloc);
    let gates = gates(&rt, alloc);
    let mut front = Vec::new(alloc);
    for byte in bytes.as_slice() {
        let want = cut_answer(gates, front.len() as u64).expect(&rt, "a cut journal");
        answers(&rt, alloc, front.as_slice(), want);
        front.push(*byte).expect(&rt, "memory");
    }
    assert!(rt; cut_answer(gates, front.len() as u64).is_none());
}

/// A disk without files, of which this changing call and this reading call fails, counted from 1, and whose torn ranges hold these bytes.
fn failing_disk(
    rt: &impl Abort,
    alloc: Global,
    changing: u64,
    reading: u64,
    torn: &[u8],
) -> MemDisk {
    let changing = vec![in alloc; changing].expect(rt, "memory");
    let reading = vec![in alloc; reading].expect(rt, "memory");
    let torn = torn.to_vec(alloc).expect(rt, "memory");
    MemDisk::new(alloc, changing, reading, torn)
}

/// The disk holds a journal of these bytes.
fn hold(rt: &impl Abort, alloc: Global, disk: &mut MemDisk, bytes: &[u8]) {
    let copy = bytes.to_vec(alloc).expect(rt, "memory");
    disk.hold(NAME, copy).expect(rt, "memory");
}

/// The server started with so many entries, and the journal is that of the value and these frames.
fn started_with(
    rt: &impl Abort,
    alloc: Global,
    held: &mut MemDisk,
    started: Result<Started, ColdAnswer>,
    entries: usize,
) {
    let want = match entries {
        0 => behind_value(rt, alloc, &[b"\x00"]),
        1 => behind_value(rt, alloc, &[&FIRST, b"\x00"]),
        _ => whole(rt, alloc),
    };
    let journal = Journal {
        end: (want.len() as u64).saturating_sub(1),
        number: entries as u64,
    };
    let role = Role::Active;
    assert!(rt;
        started
            == Ok(Started {
                journal,
                entries,
                role
            }),
        "{started:?}"
    );
    let left = bytes_of(rt, alloc, held, NAME);
    assert!(rt; left.as_slice() == want.as_slice());
}

/// A cold start over a journal in which the gate at this place reads this byte finds so many entries, and leaves a journal of these.
fn finds(rt: &impl Abort, alloc: Global, place: u64, byte: u8, entries: usize) {
    let journal = whole(rt, alloc);
    let bytes = changed(rt, alloc, journal.as_slice(), place, byte);
    let mut held = new_disk(rt, alloc, b"");
    let mut disk = new_disk(rt, alloc, b"");
    hold(rt, alloc, &mut held, bytes.as_slice());
    let started = starts(alloc, &mut held, &mut disk);
    started_with(rt, alloc, &mut held, started, entries);
    drop(disk);
    drop(held);
}

#[test]
fn a_gate_that_is_torn_ends_the_journal(rt: HostRuntime) {
    let alloc = rt.alloc();
    let journal = whole(&rt, alloc);
    let [value, first, second, closed] = gates(&rt, alloc);
    for byte in [0, 2, 7, 255] {
        let bytes = changed(&rt, alloc, journal.as_slice(), value, byte);
        answers(&rt, alloc, bytes.as_slice(), ColdAnswer::NoJournal);
        finds(&rt, alloc, first, byte, 0);
        finds(&rt, alloc, second, byte, 1);
        finds(&rt, alloc, closed, byte, 2);
    }
    let bytes = changed(&rt, alloc, journal.as_slice(), closed, 1);
    answers(
        &rt,
        alloc,
        bytes.as_slice(),
        ColdAnswer::Refused { place: closed },
    );
}

/// How many entries a cold start finds in a journal that the second entry was to join: two where the gate of its frame is open.
fn entries_in(rt: &impl Abort, alloc: Global, held: &mut MemDisk) -> usize {
    let [_, _, second, _] = gates(rt, alloc);
    let bytes = bytes_of(rt, alloc, held, NAME);
    let mut entries = 1;
    for (at, byte) in bytes.as_slice().iter().enumerate() {
        if at as u64 == second && *byte == 1 {
            entries = 2;
        }
    }
    entries
}

/// A cold start answers so, and whenever it is begun again it finds the same.
fn begins_again(
    rt: &impl Abort,
    alloc: Global,
    held: &mut MemDisk,
    disk: &mut MemDisk,
    want: ColdAnswer,
) {
    let broken = starts(alloc, held, disk);
    assert!(rt; broken == Err(want), "{broken:?}");
    let entries = entries_in(rt, alloc, held);
    for _ in 0..2 {
        let started = starts(alloc, held, disk);
        started_with(rt, alloc, held, started, entries);
        if entries == 2 {
            stream_stands(rt, alloc, disk);
        }
    }
}

/// The journal's disk stops in the cold start's changing call of this number, and then fails in it.
fn mend_breaks(rt: &impl Abort, alloc: Global, bytes: &[u8], torn: &[u8], call: u64) {
    for stops in [true, false] {
        let failing = if stops { 0 } else { call };
        let mut held = failing_disk(rt, alloc, failing, 0, torn);
        let mut disk = new_disk(rt, alloc, b"");
        hold(rt, alloc, &mut held, bytes);
        let want = if stops {
            held.arm(call.max(1));
            ColdAnswer::Stopped
        } else {
            ColdAnswer::Failed
        };
        begins_again(rt, alloc, &mut held, &mut disk, want);
        drop(disk);
        drop(held);
    }
}

#[test]
fn a_cold_start_that_breaks_off_is_begun_again(rt: HostRuntime) {
    let alloc = rt.alloc();
    let journal = whole(&rt, alloc);
    let [_, _, second, _] = gates(&rt, alloc);
    let tears: [&[u8]; 6] = [b"", b"\x00", b"\x01", b"\x02", b"\xff", b"\x01\x00"];
    for torn in tears {
        // Of a gate that reads neither, five calls are made: it is closed before the rest is cut off.
        let bytes = changed(&rt, alloc, journal.as_slice(), second, 7);
        for call in [1, 2, 3, 4, 5] {
            mend_breaks(&rt, alloc, bytes.as_slice(), torn, call);
        }
        let bytes = changed(&rt, alloc, journal.as_slice(), second, 0);
        for call in [1, 2, 3] {
            mend_breaks(&rt, alloc, bytes.as_slice(), torn, call);
        }
    }
}

/// The record disk stops in the cold start's changing call of this number, and then fails in it.
fn deeds_break(rt: &impl Abort, alloc: Global, torn: &[u8], call: u64) {
    let journal = whole(rt, alloc);
    for stops in [true, false] {
        let failing = if stops { 0 } else { call };
        let mut held = new_disk(rt, alloc, b"");
        let mut disk = failing_disk(rt, alloc, failing, 0, torn);
        hold(rt, alloc, &mut held, journal.as_slice());
        let want = if stops {
            disk.arm(call.max(1));
            ColdAnswer::Stopped
        } else {
            ColdAnswer::Failed
        };
        begins_again(rt, alloc, &mut held, &mut disk, want);
        drop(disk);
        drop(held);
    }
}

#[test]
fn the_last_deeds_that_break_off_are_done_again(rt: HostRuntime) {
    let alloc = rt.alloc();
    let tears: [&[u8]; 3] = [b"", b"\x01", b"7"];
    for torn in tears {
        for call in [1, 2, 3, 4] {
            deeds_break(&rt, alloc, torn, call);
        }
    }
}

#[test]
fn a_journal_that_cannot_be_read_is_read_again(rt: HostRuntime) {
    let alloc = rt.alloc();
    let journal = whole(&rt, alloc);
    for call in [1, 2] {
        let mut held = failing_disk(&rt, alloc, 0, call, b"");
        let mut disk = new_disk(&rt, alloc, b"");
        hold(&rt, alloc, &mut held, journal.as_slice());
        begins_again(&rt, alloc, &mut held, &mut disk, ColdAnswer::Failed);
        drop(disk);
        drop(held);
    }
}
