use disk_model::{DiskAnswer, MemDisk, SharedDisk};
use journal_frames::*;
use std::alloc::Global;
use std::process::Abort;

const NAME: &[u8] = b"journal.dat";

// The journal of the text `ab`, and that of `ab` and `c`.
const FIRST: &[u8] = b"\x01\x00\x00\x00\x02ab\x00";

const BOTH: &[u8] = b"\x01\x00\x00\x00\x02ab\x01\x00\x00\x00\x01c\x00";

// The one whose second gate was torn to another byte.
const TORN: &[u8] = b"\x01\x00\x00\x00\x02ab7\x00\x00\x00\x01c\x00";

// A disk whose torn ranges hold these bytes, on which the changing call of this number fails.
fn disk_with(rt: &impl Abort, alloc: Global, torn: &[u8], failing: u64) -> MemDisk {
    let numbers = [failing].to_vec(alloc).expect(rt, "memory");
    let torn = torn.to_vec(alloc).expect(rt, "memory");
    MemDisk::new(alloc, numbers, Vec::new(alloc), torn)
}

fn bytes_of(disk: &mut MemDisk, alloc: Global) -> Result<Vec<u8>, DiskAnswer> {
    let Some(len) = disk.len(NAME)? else {
        return Ok(Vec::new(alloc));
    };
    let mut bytes = vec![in alloc; 0; len as usize]?;
    let count = disk.read(NAME, 0, bytes.as_mut_slice())?;
    bytes.truncate(count);
    Ok(bytes)
}

fn makes(disk: &mut MemDisk, alloc: Global) -> Result<(), DiskAnswer> {
    let behind = behind_gate(alloc, b"ab")?;
    make_file(disk, behind.as_slice())
}

fn appends(disk: &mut MemDisk, alloc: Global) -> Result<(), DiskAnswer> {
    let behind = behind_gate(alloc, b"c")?;
    append_text(disk, 7, behind.as_slice())
}

fn makes_and_appends(rt: &impl Abort, disk: &mut MemDisk, alloc: Global) -> Result<(), DiskAnswer> {
    makes(disk, alloc)?;
    let first = bytes_of(disk, alloc)?;
    assert!(rt; first.as_slice() == FIRST, "a journal of one text");
    appends(disk, alloc)?;
    let both = bytes_of(disk, alloc)?;
    assert!(rt; both.as_slice() == BOTH, "and one more");
    Ok(())
}

#[test]
fn a_journal_has_its_texts_in_frames(rt: HostRuntime) {
    let alloc = rt.alloc();
    let mut disk = disk_with(&rt, alloc, b"", 0);
    let done = makes_and_appends(&rt, &mut disk, alloc).is_ok();
    drop(disk);
    assert!(rt; done);
}

// How many texts stand at the front, of two at most.
fn texts_in(bytes: &[u8]) -> u8 {
    match read_frame(bytes) {
        None => 0,
        Some((_, behind)) => match read_frame(behind) {
            None => 1,
            Some(_) => 2,
        },
    }
}

// Mends the journal by what its bytes tell, which leaves that of the texts that it held: how many.
fn mends(rt: &impl Abort, disk: &mut MemDisk, alloc: Global) -> Result<u8, DiskAnswer> {
    let bytes = bytes_of(disk, alloc)?;
    let texts = texts_in(bytes.as_slice());
    let (end, want) = if texts == 2 { (13, BOTH) } else { (7, FIRST) };
    let closed = bytes.as_slice().get(end as usize) == Some(&0);
    mend(disk, end, closed)?;
    let left = bytes_of(disk, alloc)?;
    assert!(rt; left.as_slice() == want, "mended");
    Ok(texts)
}

// An append breaks off in its call of this number, or is done with four; then the journal is mended.
fn breaks_off_on(
    rt: &impl Abort,
    disk: &mut MemDisk,
    alloc: Global,
    number: u64,
    stops: bool,
) -> Result<u8, DiskAnswer> {
    makes(disk, alloc)?;
    if stops {
        disk.arm(number.max(1));
    }
    let want = match (number < 5, stops) {
        (false, _) => Ok(()),
        (true, false) => Err(DiskAnswer::Failed),
        (true, true) => Err(DiskAnswer::Stopped),
    };
    assert!(rt; appends(disk, alloc) == want, "call {number}");
    disk.disarm();
    mends(rt, disk, alloc)
}

fn breaks_off(rt: &impl Abort, alloc: Global, torn: &[u8], number: u64, stops: bool) -> u8 {
    let failing = if stops || number > 4 {
        0
    } else {
        number.saturating_add(7)
    };
    let mut disk = disk_with(rt, alloc, torn, failing);
    let texts = breaks_off_on(rt, &mut disk, alloc, number, stops).unwrap_or(0);
    drop(disk);
    texts
}

#[test]
fn an_append_that_breaks_off_leaves_its_texts_or_one_more(rt: HostRuntime) {
    let alloc = rt.alloc();
    let rows: [(&[u8], [u8; 5]); 3] = [
        (b"", [1, 1, 1, 1, 2]),
        (b"\x01", [1, 1, 2, 2, 2]),
        (b"7", [1, 1, 1, 1, 2]),
    ];
    for (torn, row) in rows {
        for (before, want) in row.iter().enumerate() {
            let number = before as u64 + 1;
            let failed = breaks_off(&rt, alloc, torn, number, false);
            let stopped = breaks_off(&rt, alloc, torn, number, true);
            assert!(rt; failed == *want && stopped == *want, "call {number}");
        }
    }
}

// A torn gate is mended by five calls, of which this one stops; and then again.
fn stops_as_it_mends_on(
    rt: &impl Abort,
    disk: &mut MemDisk,
    alloc: Global,
    number: u64,
) -> Result<u8, DiskAnswer> {
    disk.arm(number.max(1));
    assert!(rt;
        mend(disk, 7, false) == Err(DiskAnswer::Stopped),
        "call {number}"
    );
    mends(rt, disk, alloc)
}

fn stops_as_it_mends(rt: &impl Abort, alloc: Global, number: u64) -> u8 {
    let mut disk = disk_with(rt, alloc, b"\x01", 0);
    let held = TORN.to_vec(alloc).expect(rt, "memory");
    disk.hold(NAME, held).expect(rt, "memory");
    let texts = stops_as_it_mends_on(rt, &mut disk, alloc, number).unwrap_or(0);
    drop(disk);
    texts
}

#[test]
fn a_mend_that_breaks_off_is_begun_again(rt: HostRuntime) {
    let alloc = rt.alloc();
    for (before, want) in [1, 2, 2, 1, 1].iter().enumerate() {
        let number = before as u64 + 1;
        assert!(rt;
            stops_as_it_mends(&rt, alloc, number) == *want,
            "call {number}"
        );
    }
}

#[test]
fn only_whole_frames_behind_open_gates_are_read(rt: HostRuntime) {
    assert!(rt; read_frame(BOTH) == Some((b"ab", &BOTH[7..])));
    let bad: [&[u8]; 5] = [
        b"",
        b"\x01",
        b"\x01\x00\x00\x00\x03ab",
        b"\x00\x00\x00\x00\x02ab\x00",
        b"\x01\xff\xff\xff\xffab",
    ];
    for bytes in bad {
        assert!(rt; read_frame(bytes).is_none());
    }
}
