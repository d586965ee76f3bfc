//! Each call outside failing in turn. Over a whole session it is the source's, the sink's and the
//! disk's reading ones; over a log that wraps, whose active server is armed to stop at its fifth
//! record, the disk's changing ones, each alone and with the call two behind it.
use super::failing_servers::FAILING;
use super::rows::PLAYED;
use super::{Failing, NONE, Stage, digit, ends_on, parts, play, prepared};
use std::alloc::Global;
use std::process::Abort;
use std::sync::Wait;
use std::thread::Threads;

/// What a run prints whose input cannot be read.
const READ_FAULT: &str = "read fault\n";

/// The session with these calls failing ends with this status, and has written so many bytes of
/// this text.
fn session_ends<R: Abort + Threads + Wait + Sync>(
    rt: &R,
    alloc: Global,
    failing: Failing,
    status: u8,
    text: &str,
    length: usize,
) {
    let (script, _) = parts(rt, PLAYED, 0);
    let input = script.as_bytes().to_vec(alloc).expect(rt, "memory");
    let mut stage = prepared(rt, alloc, input, failing);
    let Stage { source, out, disk } = &mut stage;
    let found = play(rt, alloc, source, out, disk, "run");
    let written = out.inner.written();
    let wrote = written.len() == length && text.as_bytes().starts_with(written);
    let Failing {
        read,
        write,
        look,
        ..
    } = failing;
    assert!(rt;
        found == status && wrote,
        "read {read}, write {write}, look {look}: {found}"
    );
    drop(stage);
}

/// The input is read, and then its end. The nine lines of `settle` (189 bytes) are handed on at
/// once, and so are the six of `files` (204); each other line is by itself. The sink takes at most
/// 100 bytes by one call.
#[test]
fn each_read_and_write_of_a_session_fails_in_turn(rt: HostRuntime) {
    let alloc = rt.alloc();
    let (_, text) = parts(&rt, PLAYED, 0);
    session_ends(
        &rt,
        alloc,
        Failing { read: 1, ..NONE },
        4,
        READ_FAULT,
        READ_FAULT.len(),
    );
    session_ends(
        &rt,
        alloc,
        Failing { read: 2, ..NONE },
        4,
        READ_FAULT,
        READ_FAULT.len(),
    );
    for (write, length) in [
        (1, 0),
        (2, 15),
        (3, 30),
        (4, 45),
        (5, 145),
        (6, 234),
        (7, 258),
        (8, 284),
        (9, 384),
        (10, 484),
        (11, 488),
    ] {
        session_ends(&rt, alloc, Failing { write, ..NONE }, 5, text, length);
    }
    // No call is made behind these.
    let failing = Failing {
        read: 3,
        write: 12,
        change: 15,
        look: 11,
    };
    session_ends(&rt, alloc, failing, 0, text, text.len());
}

/// The start asks for the names, `files` for the names and six lengths, and `cat` for a length and
/// bytes. The line whose reading call fails prints nothing.
#[test]
fn each_look_at_the_disk_fails_in_turn(rt: HostRuntime) {
    let alloc = rt.alloc();
    let (_, text) = parts(&rt, PLAYED, 0);
    let (played, _) = text.split_once("file ").expect(&rt, "files");
    let (listed, _) = text.split_once("text ").expect(&rt, "a record");
    for look in 1..11 {
        let shown = match look {
            1 => "",
            2..=8 => played,
            _ => listed,
        };
        let text = format!(in alloc; "{shown}disk fault\n").expect(&rt, "memory");
        let text = text.as_str();
        session_ends(&rt, alloc, Failing { look, ..NONE }, 6, text, text.len());
    }
}

/// The first lines of the wrapping log, before its records.
const OPENED: &str = "\
    post 1 req 1 1\n\
    post 2 req 1 2\n\
    post 3 req 1 3\n\
    post 4 req 1 4\n\
    post 5 req 1 5\n\
    post 6 req 1 6\n\
    acc 1 call 1 1 1704067200000000000\n\
    post 7 rep 1 1\n\
    reply 1 1 ok\n\
    acc 2 call 1 2 1704067200000000000\n\
    post 8 rep 1 2\n\
    reply 1 2 ok\n";

/// The numbers of changing calls of which one fails, the exit status, and what is printed behind
/// those lines, parted by `^`; one row behind another, parted by a back quote. The start makes
/// twelve calls, each record two, and the takeover at the fifth record two more. In call 21 the
/// server stops, whether it fails or not, and there is no call 24.
const FAULTS: &str = "\
    13 14^0^\
    acc 3 call 1 3 1704067200000000000\n\
    server a down\n\
    server b active\n\
    acc 4 call 1 4 1704067200000000000\n\
    post 9 rep 1 4\n\
    reply 1 4 ok\n\
    acc 5 call 1 5 1704067200000000000\n\
    post 10 rep 1 5\n\
    reply 1 5 ok\n\
    acc 6 call 1 6 1704067200000000000\n\
    post 11 rep 1 6\n\
    reply 1 6 ok\n\
    post 12 rep 1 3\n\
    reply 1 3 ok\n\
    refused arm a 1 a=down b=active net=12 link=0 back=0 hand=-\n\
    post 13 req 1 7\n\
    acc 7 call 1 7 1704067200000000000\n\
    post 14 rep 1 7\n\
    reply 1 7 ok\n\
    text          5 e\n\
    text          4 d\n\
    `\
    15 16^0^\
    acc 3 call 1 3 1704067200000000000\n\
    post 9 rep 1 3\n\
    reply 1 3 ok\n\
    acc 4 call 1 4 1704067200000000000\n\
    server a down\n\
    server b active\n\
    acc 5 call 1 5 1704067200000000000\n\
    post 10 rep 1 5\n\
    reply 1 5 ok\n\
    acc 6 call 1 6 1704067200000000000\n\
    post 11 rep 1 6\n\
    reply 1 6 ok\n\
    post 12 rep 1 4\n\
    reply 1 4 ok\n\
    refused arm a 1 a=down b=active net=12 link=0 back=0 hand=-\n\
    post 13 req 1 7\n\
    acc 7 call 1 7 1704067200000000000\n\
    post 14 rep 1 7\n\
    reply 1 7 ok\n\
    text          5 e\n\
    text          4 d\n\
    `\
    17 18^0^\
    acc 3 call 1 3 1704067200000000000\n\
    post 9 rep 1 3\n\
    reply 1 3 ok\n\
    acc 4 call 1 4 1704067200000000000\n\
    post 10 rep 1 4\n\
    reply 1 4 ok\n\
    acc 5 call 1 5 1704067200000000000\n\
    server a down\n\
    server b active\n\
    acc 6 call 1 6 1704067200000000000\n\
    post 11 rep 1 6\n\
    reply 1 6 ok\n\
    post 12 rep 1 5\n\
    reply 1 5 ok\n\
    refused arm a 1 a=down b=active net=12 link=0 back=0 hand=-\n\
    post 13 req 1 7\n\
    acc 7 call 1 7 1704067200000000000\n\
    post 14 rep 1 7\n\
    reply 1 7 ok\n\
    text          5 e\n\
    text          4 d\n\
    `\
    19 20^0^\
    acc 3 call 1 3 1704067200000000000\n\
    post 9 rep 1 3\n\
    reply 1 3 ok\n\
    acc 4 call 1 4 1704067200000000000\n\
    post 10 rep 1 4\n\
    reply 1 4 ok\n\
    acc 5 call 1 5 1704067200000000000\n\
    post 11 rep 1 5\n\
    reply 1 5 ok\n\
    acc 6 call 1 6 1704067200000000000\n\
    server a down\n\
    server b active\n\
    post 12 rep 1 6\n\
    reply 1 6 ok\n\
    refused arm a 1 a=down b=active net=12 link=0 back=0 hand=-\n\
    post 13 req 1 7\n\
    acc 7 call 1 7 1704067200000000000\n\
    post 14 rep 1 7\n\
    reply 1 7 ok\n\
    text          5 e\n\
    text          4 d\n\
    `\
    21^0^\
    acc 3 call 1 3 1704067200000000000\n\
    post 9 rep 1 3\n\
    reply 1 3 ok\n\
    acc 4 call 1 4 1704067200000000000\n\
    post 10 rep 1 4\n\
    reply 1 4 ok\n\
    acc 5 call 1 5 1704067200000000000\n\
    post 11 rep 1 5\n\
    reply 1 5 ok\n\
    acc 6 call 1 6 1704067200000000000\n\
    post 12 rep 1 6\n\
    reply 1 6 ok\n\
    post 13 req 1 7\n\
    acc 7 call 1 7 1704067200000000000\n\
    server a down\n\
    server b active\n\
    post 14 rep 1 7\n\
    reply 1 7 ok\n\
    text          5 e\n\
    text          4 d\n\
    `\
    22 23^6^\
    acc 3 call 1 3 1704067200000000000\n\
    post 9 rep 1 3\n\
    reply 1 3 ok\n\
    acc 4 call 1 4 1704067200000000000\n\
    post 10 rep 1 4\n\
    reply 1 4 ok\n\
    acc 5 call 1 5 1704067200000000000\n\
    post 11 rep 1 5\n\
    reply 1 5 ok\n\
    acc 6 call 1 6 1704067200000000000\n\
    post 12 rep 1 6\n\
    reply 1 6 ok\n\
    post 13 req 1 7\n\
    acc 7 call 1 7 1704067200000000000\n\
    server a down\n\
    server b down\n\
    disk fault\n";

/// How the log ends where the takeover comes to a call that fails.
const BOTH_DOWN: &str = "server a down\nserver b down\ndisk fault\n";

/// The wrapping log ends with this status and this text where this call fails, and with the disk's
/// fault where the call two behind it fails too: the takeover comes to that one.
fn fault_ends<R: Abort + Threads + Wait + Sync>(
    rt: &R,
    alloc: Global,
    change: u64,
    status: u8,
    text: &str,
) {
    let (script, _) = parts(rt, FAILING, 1);
    let (shown, _) = text.split_once("server a").expect(rt, "a server down");
    let alone = format!(in alloc; "{OPENED}{text}").expect(rt, "memory");
    ends_on(rt, alloc, &[change], script, status, alone.as_str());
    let both = format!(in alloc; "{OPENED}{shown}{BOTH_DOWN}").expect(rt, "memory");
    let changes = [change, change.saturating_add(2)];
    ends_on(rt, alloc, &changes, script, 6, both.as_str());
}

/// The wrapping log ends as a row says.
fn faults_end<R: Abort + Threads + Wait + Sync>(rt: &R, alloc: Global, row: &str) {
    let (changes, row) = row.split_once('^').expect(rt, "numbers");
    let (status, text) = row.split_once('^').expect(rt, "a status and a text");
    let status = digit(status.as_bytes(), 0);
    for change in changes.split(' ') {
        let change: u64 = change.parse().ok().expect(rt, "a number");
        fault_ends(rt, alloc, change, status, text);
    }
}

#[test]
fn each_change_of_the_disk_fails_in_turn(rt: HostRuntime) {
    for row in FAULTS.split('`') {
        faults_end(&rt, rt.alloc(), row);
    }
    let (script, text) = parts(&rt, FAILING, 1);
    ends_on(&rt, rt.alloc(), &[24], script, 0, text);
}

/// Where a call of the start fails, no line is played.
#[test]
fn each_change_of_the_start_fails_in_turn(rt: HostRuntime) {
    let alloc = rt.alloc();
    let (script, _) = parts(&rt, FAILING, 1);
    for change in 1..13 {
        let changes = [change, change + 2];
        ends_on(&rt, alloc, &changes[..1], script, 6, "disk fault\n");
        ends_on(&rt, alloc, &changes, script, 6, "disk fault\n");
    }
}
