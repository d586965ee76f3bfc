//! Each call of both disks fails in turn: the script ends there, with the lines of all that was done.
use crate::playing::{new_disk, prints};
use crate::rows::{ACCEPTED, ACTIVE, ANSWERED, DOWN, ONE, OPENED, POSTED, RECORD, SHOWS};
use std::alloc::Global;
use std::process::Abort;
use std::sync::Wait;
use std::thread::Threads;

/// What is posted before the first entry joins the journal, and before the second one does.
const ASKED: &str = "post 1 req 1 1\npost 2 req 1 2\n";

const BEGUN: &str = "acc 1 call 1 1 1704067200000000000\npost 3 rep 1 1\nreply 1 1 ok\n";

/// Calls of a disk, counted from 1.
#[derive(Clone, Copy, PartialEq, Eq, Debug)]
enum Calls {
    Changing,
    Reading,
    OfJournal,
    ReadingOfJournal,
}

/// A call fails: the script ends with this status, and prints these texts until then.
fn fails<R: Abort + Threads + Wait + Sync>(
    rt: &R,
    alloc: Global,
    calls: Calls,
    number: u64,
    status: u8,
    texts: &[&str],
) {
    let (changing, reading, joining, starting) = match calls {
        Calls::Changing => (number, 0, 0, 0),
        Calls::Reading => (0, number, 0, 0),
        Calls::OfJournal => (0, 0, number, 0),
        Calls::ReadingOfJournal => (0, 0, 0, number),
    };
    let mut disk = new_disk(rt, alloc, changing, reading, b"");
    let mut journal = new_disk(rt, alloc, joining, starting, b"");
    let served = "deliver 5\nmirror\nack\nwork\ncrash a\nrestart a\n";
    let script = [OPENED, served, SHOWS];
    let last = if status == 6 { "disk fault\n" } else { "" };
    prints(
        rt,
        alloc,
        &script,
        &mut disk,
        &mut journal,
        status,
        texts,
        last,
    );
    drop(disk);
    drop(journal);
}

#[test]
fn each_call_fails_in_turn(rt: HostRuntime) {
    let alloc = rt.alloc();
    let rows: [(Calls, u64, u64, &[&str]); 13] = [
        // The files of the three streams are made, and the record of the third entry is written, and written again behind the start.
        (Calls::Changing, 1, 12, &[]),
        (Calls::Changing, 13, 14, &[POSTED, ACCEPTED, DOWN]),
        (Calls::Changing, 15, 16, &[POSTED, ACCEPTED, ANSWERED, DOWN]),
        // The names are asked for at first; then they and the six lengths, and then the length and the bytes of one file.
        (Calls::Reading, 1, 1, &[]),
        (
            Calls::Reading,
            2,
            8,
            &[POSTED, ACCEPTED, ANSWERED, DOWN, ACTIVE],
        ),
        (
            Calls::Reading,
            9,
            10,
            &[POSTED, ACCEPTED, ANSWERED, DOWN, ACTIVE, ONE],
        ),
        // The journal is made by seven calls, each entry joins it by four, and by three it is made ready for the start.
        (Calls::OfJournal, 1, 7, &[]),
        (Calls::OfJournal, 8, 11, &[ASKED, DOWN]),
        (Calls::OfJournal, 12, 15, &[ASKED, BEGUN, DOWN]),
        (Calls::OfJournal, 16, 19, &[POSTED, DOWN]),
        (
            Calls::OfJournal,
            20,
            22,
            &[POSTED, ACCEPTED, ANSWERED, DOWN],
        ),
        (Calls::ReadingOfJournal, 1, 1, &[]),
        (
            Calls::ReadingOfJournal,
            2,
            3,
            &[POSTED, ACCEPTED, ANSWERED, DOWN],
        ),
    ];
    for (calls, first, last, texts) in rows {
        for number in first..=last {
            fails(&rt, alloc, calls, number, 6, texts);
        }
    }
    let whole = [POSTED, ACCEPTED, ANSWERED, DOWN, ACTIVE, ONE, RECORD];
    fails(&rt, alloc, Calls::Changing, 0, 0, &whole);
}
