//! The words `cold` and `recover` over two disks in memory.
use super::{Narrow, play_both};
use disk_model::{MemDisk, SharedDisk};
use io_edge::{MemSink, MemSource};
use std::alloc::Global;
use std::process::Abort;
use std::sync::Wait;
use std::thread::Threads;

/// The journal's disk stops in the call that opens the gate of the third entry's frame.
const SCRIPT: &str = "\
    cluster start=1704067200000000000 queue=2 callbacks=8 sysfmt=\"@Cr @Cb\"\n\
    log 1 init A.2.1\n\
    log 1 open system\n\
    settle\n\
    log 1 write system inv=0 flags=0 gen sev=6 class=0.0.0 user=\"u\" body=\"a\"\n\
    deliver 5\n\
    arm b 3\n\
    mirror\n\
    restart a\n\
    resend 1\n\
    deliver 6\n\
    files\n";

/// The torn byte is an open gate: the entry is found.
const FOUND: &str = "\
    post 1 req 1 1\n\
    post 2 req 1 2\n\
    acc 1 call 1 1 1704067200000000000\n\
    post 3 rep 1 1\n\
    reply 1 1 ok\n\
    acc 2 call 1 2 1704067200000000000\n\
    post 4 rep 1 2\n\
    reply 1 2 ok\n\
    post 5 req 1 3\n\
    server a down\n\
    acc 3 call 1 3 1704067200000000000\n\
    server a active\n\
    post 6 rep 1 3\n\
    reply 1 3 ok\n\
    file saLogAlarm.cfg 156\n\
    file saLogAlarm_20240101_000000.log 0\n\
    file saLogNotification.cfg 163\n\
    file saLogNotification_20240101_000001.log 0\n\
    file saLogSystem.cfg 130\n\
    file saLogSystem_20240101_000002.log 256\n";

/// No byte is torn: the gate is closed, and the entry is gone.
const LOST: &str = "\
    post 1 req 1 1\n\
    post 2 req 1 2\n\
    acc 1 call 1 1 1704067200000000000\n\
    post 3 rep 1 1\n\
    reply 1 1 ok\n\
    acc 2 call 1 2 1704067200000000000\n\
    post 4 rep 1 2\n\
    reply 1 2 ok\n\
    post 5 req 1 3\n\
    server a down\n\
    server a active\n\
    refused deliver 6 a=active b=journal net=5 link=1 back=0 hand=3\n\
    file saLogAlarm.cfg 156\n\
    file saLogAlarm_20240101_000000.log 0\n\
    file saLogNotification.cfg 163\n\
    file saLogNotification_20240101_000001.log 0\n\
    file saLogSystem.cfg 130\n\
    file saLogSystem_20240101_000002.log 0\n";

/// A disk in memory that serves, with these torn bytes.
fn serving(rt: &impl Abort, alloc: Global, torn: &[u8]) -> MemDisk {
    let torn = torn.to_vec(alloc).expect(rt, "memory");
    MemDisk::new(alloc, Vec::new(alloc), Vec::new(alloc), torn)
}

/// The words and an input over these disks end with this status and this text.
fn ends_over<R: Abort + Threads + Wait + Sync, D: SharedDisk, J: SharedDisk>(
    rt: &R,
    alloc: Global,
    disk: &mut D,
    journal: &mut J,
    words: &str,
    input: &str,
    status: u8,
    text: &str,
) {
    let bytes = input.as_bytes().to_vec(alloc).expect(rt, "memory");
    let mut source = MemSource::new(bytes, Vec::new(alloc));
    let mut out = Narrow {
        inner: MemSink::new(alloc, Vec::new(alloc)),
    };
    let found = play_both(rt, alloc, &mut source, &mut out, disk, journal, words);
    assert!(rt; found == status, "{words}: {found}");
    assert!(rt; out.inner.written() == text.as_bytes(), "{words}");
}

/// `cold` prints this over torn bytes, and `recover` behind it finds so many entries and the files of the last lines.
fn colds(
    rt: &(impl Abort + Threads + Wait + Sync),
    alloc: Global,
    torn: &[u8],
    text: &str,
    entries: u64,
) {
    let mut disk = serving(rt, alloc, &[]);
    let mut journal = serving(rt, alloc, torn);
    ends_over(rt, alloc, &mut disk, &mut journal, "cold", SCRIPT, 0, text);
    let (_, files) = text.split_once("file ").expect(rt, "files");
    let found = format!(in alloc; "history {entries}\nfile {files}").expect(rt, "memory");
    ends_over(
        rt,
        alloc,
        &mut disk,
        &mut journal,
        "recover",
        "unread",
        0,
        found.as_str(),
    );
    // It leaves what it found.
    ends_over(
        rt,
        alloc,
        &mut disk,
        &mut journal,
        "recover",
        "unread",
        0,
        found.as_str(),
    );
    ends_over(
        rt,
        alloc,
        &mut disk,
        &mut journal,
        "cold",
        SCRIPT,
        7,
        "root not empty: saLogAlarm.cfg\n",
    );
    drop(disk);
    let mut bare = serving(rt, alloc, &[]);
    ends_over(
        rt,
        alloc,
        &mut bare,
        &mut journal,
        "cold",
        SCRIPT,
        7,
        "root not empty: journal.dat\n",
    );
}

#[test]
fn an_entry_whose_frame_is_torn_is_found_or_gone(rt: HostRuntime) {
    let alloc = rt.alloc();
    colds(&rt, alloc, &[1], FOUND, 3);
    colds(&rt, alloc, &[], LOST, 2);
}

#[test]
fn no_journal_is_refused(rt: HostRuntime) {
    let alloc = rt.alloc();
    let mut disk = serving(&rt, alloc, &[]);
    let mut journal = serving(&rt, alloc, &[]);
    ends_over(
        &rt,
        alloc,
        &mut disk,
        &mut journal,
        "recover",
        "",
        9,
        "no journal\n",
    );
}
