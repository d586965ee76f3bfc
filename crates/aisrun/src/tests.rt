//! Whole runs over objects in memory: what they print, and the calls outside failing in turn.
mod colds;
mod failing_calls;
mod failing_servers;
mod gates;
mod rows;
mod short_disk;
mod stops;

use crate::{Status8, run};
use ais_values::Duplicate;
use callback_dispatch::OpenGate;
use cluster_core::World;
use command_journal::ColdWorld;
use disk_model::{MemDisk, SharedDisk};
use failing_servers::FAILING;
use io_edge::{MemSink, MemSource, Sink, SinkAnswer};
use rows::PLAYED;
use short_disk::ShortDisk;
use spare_server::TrioWorld;
use std::alloc::Global;
use std::process::Abort;
use std::sync::Wait;
use std::thread::Threads;

const CLUSTER: &str = "cluster start=1704067200000000000 queue=2 callbacks=8\n";

const WRITE: &str =
    "log 1 init A.2.1\nlog 1 open system\nlog 1 write system inv=0 flags=0 gen sev=6 class=0.0.0 user=\"u\" body=\"a\"\nsettle\n";

const USAGE: &str =
    "usage: aisrun run, check, expr KIND TEXT, gen COUNT SEED, load COUNT SEED, cold, recover, scan KIND TEXT SIZE, find KIND TEXT SIZE TOKEN WORD or trio\n";

/// Words that are none of the program's, one row a line.
const OTHER_WORDS: &str = "\
    \n\
    -run\n\
    --\n\
    Run\n\
    ru\n\
    run \n\
    running\n\
    run,\n\
    run,run\n\
    -,run\n\
    expr,system,-1\n\
    expr,System,a\n\
    expr,system\n\
    check,check\n\
    cold,cold\n\
    recover,a\n\
    trio,trio\n\
    expr,alarm,a,b\n\
    gen\n\
    gen,1\n\
    gen,0,1\n\
    gen,100001,1\n\
    gen,01,1\n\
    gen,1,-1\n\
    gen,1,18446744073709551616\n\
    gen,1,1,1\n\
    load,1\n\
    load,0,1\n\
    load,100001,1\n\
    load,1,18446744073709551616\n\
    load,1,1,1\n\
    scan,system,a\n\
    scan,System,a,32\n\
    scan,system,-a,32\n\
    scan,system,a,31\n\
    scan,system,@,31\n\
    scan,system,a,16385\n\
    scan,system,a,032\n\
    scan,system,a,+32\n\
    scan,system,a,\n\
    scan,system,a,32,1,x\n\
    find,system,a,32\n\
    find,system,a,32,0,x\n\
    find,system,a,32,1025,x\n\
    find,system,a,32,1,-x\n\
    find,system,-a,32,1,x";

/// The words, what follows the cluster line in the input, the exit status and the text, parted by `|` and `;`.
const ENDS: &str = "\
    check||0|ok 1\n;\
    check|settle\n# a comment\n\nfiles|0|ok 3\n;\
    check|time 5x\n|1|script line 2: grammar\n;\
    check|time 5\n|1|script line 2: time\n;\
    check|cluster start=1 queue=2 callbacks=8\n|1|script line 2: cluster\n;\
    check|files \n|1|script line 2: grammar\n;\
    check|crash a\narm a 5\ndisarm\nrestart a\n|0|ok 5\n;\
    run|time 5x\n|1|script line 2: grammar\n;\
    run|settle\ntime 5\n|1|script line 3: time\n;\
    run|crash a\n|0|server a down\nserver b active\n;\
    run|settle\narm a 5\n|0|;\
    run|disarm|0|;\
    run|restart b\ntime 5\n|1|script line 3: time\n;\
    run|crash c\n|1|script line 2: grammar\n;\
    trio|time 5x\n|1|script line 2: grammar\n;\
    trio|crash a\ncrash b\n|0|server a down\nserver b active\nserver b down\nserver c active\n;\
    trio|servers\n|0|server a active\nserver b standby\nserver c standby\n;\
    run|restart b\n|0|refused restart b a=active b=standby net=0 link=0 back=0 hand=-\n;\
    expr,system,@Cr @Cb||0|ok 3\n;\
    expr,notification,||0|ok 0\n;\
    expr,alarm,@Sv||1|bad 1 WrongClass\n;\
    expr,system,ab@||1|bad 3 LoneAt\n;\
    expr,alarm,@Nq||1|bad 2 UnknownToken\n;\
    expr,system,@Cb256||1|bad 5 BadWidth\n;\
    expr,application,@Cb0||1|bad 3 BadWidth\n;\
    gen,2,1||0|cluster start=1704067200000000000 queue=2 callbacks=256\n\
    log 1 init A.2.1\nlog 1 open system\nntf 2 init A.1.1\nsettle\n\
    log 1 write system inv=1 flags=0 gen sev=3 class=0.0.0 user=\"g\" body=\"16838\"\n\
    log 1 write system inv=2 flags=0 gen sev=4 class=0.0.0 user=\"g\" body=\"5758\"\n\
    settle\nservers\n;\
    load,2,1||0|load entries=5 replies=5 net=10 files=6 bytes=995 a=active b=standby\n";

/// The words, the input, the exit status and the text, parted by `|` and `;`. Where the status is not 0 the source fails, if it is read.
const SCANS: &str = "\
    scan,system,@Cr @Sv \"@Cb\",32|         1 IN \"a\"              \n|0|rec 1 Cr=\"         1\" Sv=\"IN\" Cb=\"a\"\n;\
    find,system,@Cr @Sv \"@Cb\",32,2,IN|         1 IN \"a\"              \n|0|rec 1 Cr=\"         1\" Sv=\"IN\" Cb=\"a\"\n;\
    find,system,@Cr @Sv \"@Cb\",32,2,ER|         1 IN \"a\"              \n|0|;\
    find,system,@Cr @Sv \"@Cb\",32,4,a|         1 IN \"a\"              \n|0|;\
    scan,system,@Cr @Sv \"@Cb\",32|                               \nxxxxx|0|rec 1 unreadable\nrest 5\n;\
    find,system,@Cr @Sv \"@Cb\",32,2,IN|                               \nxxxxx|0|;\
    scan,application,@Sv @Cb,0|IN a\\ \nER\nER b\x01\nIN|0|rec 1 Sv=\"IN\" Cb=\"a\\\\ \"\nrec 2 unreadable\nrec 3 Sv=\"ER\" Cb=\"b\\x01\"\nrest 2\n;\
    find,application,@Sv @Cb,0,1,ER|IN a\\ \nER\nER b\x01\nIN|0|rec 3 Sv=\"ER\" Cb=\"b\\x01\"\n;\
    scan,alarm,,16384||0|;\
    scan,system,@Sl @Cb,32||10|inseparable 3\n;\
    find,system,@Cb,32,1,a||10|inseparable 1\n;\
    scan,alarm,@Sv@Cb@Cb,0||1|bad 1 WrongClass\n;\
    find,alarm,@,0,1,a||1|bad 1 LoneAt\n;\
    scan,alarm,a,0||4|read fault\n;\
    find,alarm,a,0,1024,a||4|read fault\n";

/// One digit each for the failing call of the source, of the sink and of the disk's reading ones, whether there is a file, and the
/// exit status; then the word and the text, one row a line. The disk's first changing call fails.
const REASONS: &str = "\
    10002|run,run|usage: aisrun run, check, expr KIND TEXT, gen COUNT SEED, load COUNT SEED, cold, recover, \
    scan KIND TEXT SIZE, find KIND TEXT SIZE TOKEN WORD or trio\n;\
    10014|run|read fault\n;\
    00017|run|root not empty: x\n;\
    00006|run|disk fault\n;\
    00116|run|disk fault\n;\
    00017|load,1,1|root not empty: x\n;\
    00006|load,1,1|disk fault\n;\
    10116|load,1,1|disk fault\n;\
    01005|load,1,1|;\
    11015|run,run|;\
    11015|run|;\
    01015|run|;\
    01005|run|;\
    01115|scan,system,a,0|;\
    01005|find,system,@Cb,0,1,settle|";

/// The most bytes of a piece that a sink takes.
const PIECE: usize = 100;

/// A sink that takes a long piece in parts.
#[derive(Drop)]
struct Narrow {
    inner: MemSink,
}

impl Sink for Narrow {
    ghost use Rattle.std.specs.Prelude.{Some};

    ghost written = { λ sink. Some sink.inner.written };

    ghost faults = { λ sink. sink.inner.plan.faults };

    fn write(&mut self, bytes: &[u8]) -> Result<usize, SinkAnswer> {
        self.inner.write(&bytes[..bytes.len().min(PIECE)])
    }
}

/// The numbers of the calls that fail: the source's, the sink's, and the disk's changing and reading ones. None does at 0.
#[derive(Clone, Copy)]
struct Failing {
    read: u64,
    write: u64,
    change: u64,
    look: u64,
}

const NONE: Failing = Failing {
    read: 0,
    write: 0,
    change: 0,
    look: 0,
};

/// What a run is given.
#[derive(Drop)]
struct Stage {
    source: MemSource,
    out: Narrow,
    disk: MemDisk,
}

/// One number.
fn only(rt: &impl Abort, alloc: Global, number: u64) -> Vec<u64> {
    [number].to_vec(alloc).expect(rt, "memory")
}

/// The input, an empty disk, and the calls that fail.
fn prepared(rt: &impl Abort, alloc: Global, input: Vec<u8>, failing: Failing) -> Stage {
    let source = MemSource::new(input, only(rt, alloc, failing.read));
    let inner = MemSink::new(alloc, only(rt, alloc, failing.write));
    let changes = only(rt, alloc, failing.change);
    let looks = only(rt, alloc, failing.look);
    let disk = MemDisk::new(alloc, changes, looks, Vec::new(alloc));
    let out = Narrow { inner };
    Stage { source, out, disk }
}

/// The words, which commas part.
fn parted(rt: &impl Abort, alloc: Global, words: &str) -> Vec<String> {
    let mut list = Vec::new(alloc);
    for word in words.split(',') {
        let word = String::from_str(alloc, word).expect(rt, "memory");
        list.push(word).expect(rt, "memory");
    }
    list
}

/// The words are run over empty worlds and an empty journal.
fn play<R: Abort + Threads + Wait + Sync, D: SharedDisk>(
    rt: &R,
    alloc: Global,
    source: &mut MemSource,
    out: &mut Narrow,
    disk: &mut D,
    words: &str,
) -> u8 {
    let mut journal = MemDisk::new(alloc, Vec::new(alloc), Vec::new(alloc), Vec::new(alloc));
    let status = play_both(rt, alloc, source, out, disk, &mut journal, words);
    drop(journal);
    status
}

/// The words are run over empty worlds.
fn play_both<R: Abort + Threads + Wait + Sync, D: SharedDisk, J: SharedDisk>(
    rt: &R,
    alloc: Global,
    source: &mut MemSource,
    out: &mut Narrow,
    disk: &mut D,
    journal: &mut J,
    words: &str,
) -> u8 {
    let list = parted(rt, alloc, words);
    let mut world = World::empty(alloc);
    let mut cold = ColdWorld::empty(alloc);
    let mut trio = TrioWorld::empty(alloc);
    // A run begins on disks that are not armed.
    disk.disarm();
    journal.disarm();
    let status = run(
        rt,
        alloc,
        list.as_slice(),
        source,
        out,
        disk,
        journal,
        &OpenGate,
        &mut world,
        &mut cold,
        &mut trio,
    );
    world.end();
    cold.end();
    trio.end();
    drop(list);
    status.code()
}

/// The words are run over the stage, and end with this status and this text.
fn ends<R: Abort + Threads + Wait + Sync>(
    rt: &R,
    alloc: Global,
    stage: &mut Stage,
    words: &str,
    status: u8,
    printed: &[u8],
) {
    let Stage { source, out, disk } = stage;
    let found = play(rt, alloc, source, out, disk, words);
    assert!(rt; found == status, "{words}: {found}");
    assert!(rt; out.inner.written() == printed, "{words}");
}

/// The number that one digit writes.
fn digit(text: &[u8], place: usize) -> u8 {
    text.get(place).copied().unwrap_or(b'9').wrapping_sub(b'0')
}

/// The input of these lines behind the cluster line.
fn behind_cluster(rt: &impl Abort, alloc: Global, rest: &str) -> Vec<u8> {
    let input = format!(in alloc; "{CLUSTER}{rest}").expect(rt, "memory");
    input.into_bytes()
}

/// The script and the text of a row, which `^` parts.
fn parts<'a>(rt: &impl Abort, rows: &'a str, place: usize) -> (&'a str, &'a str) {
    let row = rows.split('`').nth(place).expect(rt, "a row");
    row.split_once('^').expect(rt, "a script and a text")
}

/// A script ends with this status and this text over a disk of which these changing calls fail, and
/// whose torn ranges hold other bytes.
fn ends_on<R: Abort + Threads + Wait + Sync>(
    rt: &R,
    alloc: Global,
    changes: &[u64],
    script: &str,
    status: u8,
    text: &str,
) {
    let input = script.as_bytes().to_vec(alloc).expect(rt, "memory");
    let mut stage = prepared(rt, alloc, input, NONE);
    let failing = changes.to_vec(alloc).expect(rt, "memory");
    let torn = b"\x00torn\n".to_vec(alloc).expect(rt, "memory");
    stage.disk = MemDisk::new(alloc, failing, Vec::new(alloc), torn);
    ends(rt, alloc, &mut stage, "run", status, text.as_bytes());
    drop(stage);
}

/// The script of a row prints the row's text.
fn row_plays<R: Abort + Threads + Wait + Sync>(rt: &R, alloc: Global, row: &str) {
    let (script, text) = row.split_once('^').expect(rt, "a script and a text");
    ends_on(rt, alloc, &[], script, 0, text);
}

#[test]
fn scripts_are_played(rt: HostRuntime) {
    for row in PLAYED.split('`') {
        row_plays(&rt, rt.alloc(), row);
    }
}

#[test]
fn scripts_of_failing_servers_are_played(rt: HostRuntime) {
    for row in FAILING.split('`') {
        row_plays(&rt, rt.alloc(), row);
    }
}

/// Five records on a file that holds two; the fifth makes the changing calls 21 and 22.
const WRAPPED: &str = "\
    cluster start=1704067200000000000 queue=2 callbacks=8 sysfmt=\"@Cr @Cb\" sysrec=32 sysmax=64 sysfull=wrap\n\
    log 1 init A.2.1\n\
    log 1 open system\n\
    log 1 write system inv=0 flags=0 gen sev=6 class=0.0.0 user=\"u\" body=\"a\"\n\
    log 1 write system inv=0 flags=0 gen sev=6 class=0.0.0 user=\"u\" body=\"b\"\n\
    log 1 write system inv=0 flags=0 gen sev=6 class=0.0.0 user=\"u\" body=\"c\"\n\
    log 1 write system inv=0 flags=0 gen sev=6 class=0.0.0 user=\"u\" body=\"d\"\n\
    settle\n\
    log 1 write system inv=0 flags=0 gen sev=6 class=0.0.0 user=\"u\" body=\"e\"\n\
    settle\n\
    cat \"saLogSystem_20240101_000002.log\"\n";

/// A call that fails is taken over as one in which the server stops.
#[test]
fn each_change_of_a_wrapped_record_fails_in_turn(rt: HostRuntime) {
    let (_, text) = parts(&rt, FAILING, 1);
    for change in 21..23 {
        ends_on(&rt, rt.alloc(), &[change], WRAPPED, 0, text);
    }
}

/// The words, over the input of a row, end as it says.
fn row_ends<R: Abort + Threads + Wait + Sync>(rt: &R, alloc: Global, row: &str) {
    let (words, row) = row.split_once('|').expect(rt, "words");
    let (rest, row) = row.split_once('|').expect(rt, "an input");
    let (status, text) = row.split_once('|').expect(rt, "a status and a text");
    let status = digit(status.as_bytes(), 0);
    let input = behind_cluster(rt, alloc, rest);
    let mut stage = prepared(rt, alloc, input, NONE);
    ends(rt, alloc, &mut stage, words, status, text.as_bytes());
    drop(stage);
}

#[test]
fn scripts_and_expressions_are_judged(rt: HostRuntime) {
    for row in ENDS.split(';') {
        row_ends(&rt, rt.alloc(), row);
    }
}

/// The words, over the input of a row, end as it says.
fn scan_ends<R: Abort + Threads + Wait + Sync>(rt: &R, alloc: Global, row: &str) {
    let (words, row) = row.split_once('|').expect(rt, "words");
    let (input, row) = row.split_once('|').expect(rt, "an input");
    let (status, text) = row.split_once('|').expect(rt, "a status and a text");
    let status: u8 = status.parse().ok().expect(rt, "a number");
    let input = input.as_bytes().to_vec(alloc).expect(rt, "memory");
    let read = u64::from(status > 0);
    let mut stage = prepared(rt, alloc, input, Failing { read, ..NONE });
    ends(rt, alloc, &mut stage, words, status, text.as_bytes());
    drop(stage);
}

#[test]
fn records_are_told(rt: HostRuntime) {
    for row in SCANS.split(';') {
        scan_ends(&rt, rt.alloc(), row);
    }
}

/// The words are refused, and nothing is read.
fn refused<R: Abort + Threads + Wait + Sync>(rt: &R, alloc: Global, words: &str) {
    let input = behind_cluster(rt, alloc, "");
    let mut stage = prepared(rt, alloc, input, NONE);
    ends(rt, alloc, &mut stage, words, 2, USAGE.as_bytes());
    assert!(rt; stage.source.unread() == CLUSTER.as_bytes(), "{words}");
    drop(stage);
}

#[test]
fn other_words_are_refused(rt: HostRuntime) {
    for words in OTHER_WORDS.split('\n') {
        refused(&rt, rt.alloc(), words);
    }
}

/// The failing calls that the digits of a row tell.
fn failing_by(digits: &[u8]) -> Failing {
    Failing {
        read: u64::from(digit(digits, 0)),
        write: u64::from(digit(digits, 1)),
        change: 1,
        look: u64::from(digit(digits, 2)),
    }
}

/// The run with the failing calls of a row ends as it says.
fn reason_ends<R: Abort + Threads + Wait + Sync>(rt: &R, alloc: Global, row: &str) {
    let (digits, row) = row.split_once('|').expect(rt, "digits");
    let (words, text) = row.split_once('|').expect(rt, "words and a text");
    let digits = digits.as_bytes();
    let input = behind_cluster(rt, alloc, WRITE);
    let mut stage = prepared(rt, alloc, input, failing_by(digits));
    if digit(digits, 3) == 1 {
        stage.disk.hold(b"x", Vec::new(alloc)).expect(rt, "memory");
    }
    let status = digit(digits, 4);
    ends(rt, alloc, &mut stage, words, status, text.as_bytes());
    drop(stage);
}

#[test]
fn the_first_reason_ends_the_run(rt: HostRuntime) {
    for row in REASONS.split(';') {
        reason_ends(&rt, rt.alloc(), row);
    }
}

/// The lines before the record's deeds.
const BEFORE: &str = "\
    post 1 req 1 1\n\
    post 2 req 1 2\n\
    post 3 req 1 3\n\
    acc 1 call 1 1 1704067200000000000\n\
    post 4 rep 1 1\n\
    reply 1 1 ok\n\
    acc 2 call 1 2 1704067200000000000\n\
    post 5 rep 1 2\n\
    reply 1 2 ok\n\
    acc 3 call 1 3 1704067200000000000\n";

/// What the standby prints where the active server fails in these deeds: it does them again, and answers the repeated call.
const TAKEN_OVER: &str = "server a down\nserver b active\npost 6 rep 1 3\nreply 1 3 ok\n";

/// With this failing call the lines print this text, and then the disk's fault.
fn breaks<R: Abort + Threads + Wait + Sync>(
    rt: &R,
    alloc: Global,
    rest: &str,
    failing: Failing,
    shown: &str,
) {
    let input = behind_cluster(rt, alloc, rest);
    let mut stage = prepared(rt, alloc, input, failing);
    let text = format!(in alloc; "{shown}disk fault\n").expect(rt, "memory");
    ends(rt, alloc, &mut stage, "run", 6, text.as_bytes());
    drop(stage);
}

/// The run over a disk of which these changing calls fail ends so, behind the lines before the record's deeds.
fn fails_at<R: Abort + Threads + Wait + Sync>(
    rt: &R,
    alloc: Global,
    changes: &[u64],
    rest: &str,
    status: u8,
    shown: &str,
) {
    let input = behind_cluster(rt, alloc, rest);
    let mut stage = prepared(rt, alloc, input, NONE);
    let failing = changes.to_vec(alloc).expect(rt, "memory");
    stage.disk = MemDisk::new(alloc, failing, Vec::new(alloc), Vec::new(alloc));
    let text = format!(in alloc; "{BEFORE}{shown}").expect(rt, "memory");
    ends(rt, alloc, &mut stage, "run", status, text.as_bytes());
    drop(stage);
}

/// A fault in the takeover takes the standby down too, and so does one in its own work.
#[test]
fn a_fault_without_a_standby_ends_the_run(rt: HostRuntime) {
    let alloc = rt.alloc();
    let both = "server a down\nserver b down\ndisk fault\n";
    fails_at(&rt, alloc, &[13, 14], WRITE, 6, both);
    fails_at(&rt, alloc, &[14, 16], WRITE, 6, both);
    let more = format!(in alloc; "{WRITE}{ANOTHER}").expect(&rt, "memory");
    let later = format!(in alloc; "{TAKEN_OVER}{ANSWERED}").expect(&rt, "memory");
    fails_at(&rt, alloc, &[14, 17], more.as_str(), 6, later.as_str());
}

/// One record more.
const ANOTHER: &str =
    "log 1 write system inv=0 flags=0 gen sev=6 class=0.0.0 user=\"u\" body=\"b\"\nsettle\n";

/// What is printed of it where the one server that is left fails in its deeds.
const ANSWERED: &str =
    "post 7 req 1 4\nacc 4 call 1 4 1704067200000000000\nserver b down\ndisk fault\n";

const SHOWING: &str = "files\ncat \"saLogSystem.cfg\"\n";

const FILES: &str = "\
    file saLogAlarm.cfg 156\n\
    file saLogAlarm_20240101_000000.log 0\n\
    file saLogNotification.cfg 163\n\
    file saLogNotification_20240101_000001.log 0\n\
    file saLogSystem.cfg 164\n\
    file saLogSystem_20240101_000002.log 0\n";

const SYSTEM: &str = "\
    text STREAM: system\n\
    text VERSION: A.02.01\n\
    text FORMAT: @Cr @Ch:@Cn:@Cs @Cm/@Cd/@CY @Sv @Sl \"@Cb\"\n\
    text MAX_FILE_SIZE: 262144\n\
    text RECORD_SIZE: 256\n\
    text FULL_ACTION: ROTATE\n\
    text ROTATED_FILES: 4\n\
    text HA: 0\n";

/// Where the reading call of this number fails, the line prints this all the same: it does not make that call.
fn makes_fewer<R: Abort + Threads + Wait + Sync>(
    rt: &R,
    alloc: Global,
    line: &str,
    look: u64,
    shown: &str,
) {
    let input = behind_cluster(rt, alloc, line);
    let mut stage = prepared(rt, alloc, input, Failing { look, ..NONE });
    ends(rt, alloc, &mut stage, "run", 0, shown.as_bytes());
    drop(stage);
}

/// Of an empty file nothing is read.
#[test]
fn no_other_look_is_taken_at_the_disk(rt: HostRuntime) {
    let alloc = rt.alloc();
    makes_fewer(&rt, alloc, "files\n", 9, FILES);
    let both = format!(in alloc; "{FILES}{SYSTEM}").expect(&rt, "memory");
    makes_fewer(&rt, alloc, SHOWING, 11, both.as_str());
    let empty = "cat \"saLogAlarm_20240101_000000.log\"\n";
    makes_fewer(&rt, alloc, empty, 3, "");
    let look = Failing { look: 3, ..NONE };
    breaks(&rt, alloc, "cat \"saLogAlarm.cfg\"\n", look, "");
}

/// The words `load`, over a disk with these failing calls, end with this status and this text, and nothing is read.
fn loads<R: Abort + Threads + Wait + Sync>(
    rt: &R,
    alloc: Global,
    words: &str,
    failing: Failing,
    status: u8,
    text: &str,
) {
    let input = behind_cluster(rt, alloc, "");
    let mut stage = prepared(rt, alloc, input, failing);
    ends(rt, alloc, &mut stage, words, status, text.as_bytes());
    assert!(rt; stage.source.unread() == CLUSTER.as_bytes(), "{words}");
    drop(stage);
}

/// The start asks for the names, and what is counted behind the last line for the names and six lengths.
#[test]
fn each_look_of_a_large_run_fails_in_turn(rt: HostRuntime) {
    let alloc = rt.alloc();
    for look in 1..9 {
        loads(
            &rt,
            alloc,
            "load,1,1",
            Failing { look, ..NONE },
            6,
            "disk fault\n",
        );
    }
    let one = "load entries=4 replies=4 net=8 files=6 bytes=739 a=active b=standby\n";
    loads(&rt, alloc, "load,1,1", Failing { look: 9, ..NONE }, 0, one);
}

/// The record's two changing calls follow the twelve of the start: where one of them fails, the standby takes over.
#[test]
fn each_change_of_a_large_run_fails_in_turn(rt: HostRuntime) {
    let alloc = rt.alloc();
    for change in 1..13 {
        loads(
            &rt,
            alloc,
            "load,1,1",
            Failing { change, ..NONE },
            6,
            "disk fault\n",
        );
    }
    let over = "load entries=4 replies=4 net=8 files=6 bytes=739 a=down b=active\n";
    for change in 13..15 {
        loads(&rt, alloc, "load,1,1", Failing { change, ..NONE }, 0, over);
    }
}

#[test]
fn a_large_run_ends_in_its_time(rt: HostRuntime) {
    let told =
        "load entries=100003 replies=100003 net=200006 files=12 bytes=2007523 a=active b=standby\n";
    loads(&rt, rt.alloc(), "load,100000,1", NONE, 0, told);
}

/// This input prints this text over this disk.
fn prints_over<R: Abort + Threads + Wait + Sync, D: SharedDisk>(
    rt: &R,
    alloc: Global,
    disk: &mut D,
    input: Vec<u8>,
    text: &str,
) {
    let mut source = MemSource::new(input, Vec::new(alloc));
    let inner = MemSink::new(alloc, Vec::new(alloc));
    let mut out = Narrow { inner };
    let status = play(rt, alloc, &mut source, &mut out, disk, "run");
    let written = out.inner.written();
    assert!(rt; status == 0 && written == text.as_bytes(), "{text}");
    drop(source);
    drop(out);
}

/// What a read did not give is not shown.
#[test]
fn a_short_read_is_shown_short(rt: HostRuntime) {
    let alloc = rt.alloc();
    let input = behind_cluster(&rt, alloc, "cat \"saLogSystem.cfg\"\n");
    let inner = MemDisk::new(alloc, Vec::new(alloc), Vec::new(alloc), Vec::new(alloc));
    let mut disk = ShortDisk { inner };
    prints_over(&rt, alloc, &mut disk, input, "text ab\n");
    drop(disk);
}

#[test]
fn an_input_has_at_most_16_mebibytes(rt: HostRuntime) {
    let alloc = rt.alloc();
    let input = vec![in alloc; b'#'; 16_777_217].expect(&rt, "memory");
    let mut stage = prepared(&rt, alloc, input, NONE);
    ends(&rt, alloc, &mut stage, "run", 8, b"script too long\n");
    drop(stage);
}

/// The request of client 1, number 1, `LogInit`.
const INIT: &str = "\\x01\\x00\\x01\\x00\\x00\\x00\\x01\\x01";

/// The request of client 1, number 1, `LogWrite`, up to a body that is to have 16,384 bytes: 45 bytes.
const BODY_NEXT: &str = "\
    \\x01\\x00\\x01\\x00\\x00\\x00\\x01\\x03\\x03\
    \\x00\\x00\\x00\\x00\\x00\\x00\\x00\\x00\\x00\\x00\\x00\\x00\\x00\\x00\\x00\\x00\\x00\\x00\\x00\\x00\
    \\x02\\x00\\x00\\x00\\x00\\x00\\x00\\x00\\x00\\x00\\x01u\\x00\\x06\\x40\\x00";

/// The bytes that are spelled so and as many bytes `a` behind them are injected and delivered.
fn injects<R: Abort + Threads + Wait + Sync>(
    rt: &R,
    alloc: Global,
    front: &str,
    count: usize,
    status: u8,
    text: &str,
) {
    let mut input = behind_cluster(rt, alloc, "inject \"");
    input
        .extend_from_slice(front.as_bytes())
        .expect(rt, "memory");
    for _ in 0..count {
        input.push(b'a').expect(rt, "memory");
    }
    let rest = b"\"\ndeliver 1\n";
    input.extend_from_slice(rest).expect(rt, "memory");
    let mut stage = prepared(rt, alloc, input, NONE);
    ends(rt, alloc, &mut stage, "run", status, text.as_bytes());
    drop(stage);
}

#[test]
fn an_injected_string_has_at_most_16384_bytes(rt: HostRuntime) {
    let alloc = rt.alloc();
    let trailing = "post 1 raw 16384\nignored 1 bad 8 trailing\n";
    injects(&rt, alloc, INIT, 16_376, 0, trailing);
    let short = "post 1 raw 16384\nignored 1 bad 16384 short\n";
    injects(&rt, alloc, BODY_NEXT, 16_339, 0, short);
    injects(&rt, alloc, BODY_NEXT, 16_340, 1, "script line 2: grammar\n");
}

#[test]
fn statuses_are_copied(rt: HostRuntime) {
    let status = Status8::TooLong;
    assert!(rt; status.copy(rt.alloc()).expect(&rt, "memory") == status);
}

#[test]
fn a_world_has_these_fields_and_no_others(rt: HostRuntime) {
    let World {
        a,
        b,
        link,
        back,
        net,
        agents,
        history,
        now,
        armed,
        callbacks,
    } = World::empty(rt.alloc());
    assert!(rt; a.in_hand().is_none() && b.in_hand().is_none());
    assert!(rt; link.as_slice().is_empty() && back.as_slice().is_empty());
    assert!(rt; net.len() == 0 && agents.as_slice().is_empty() && history.len() == 0);
    assert!(rt; now == 0_i64 && !armed && callbacks == 0_u32);
    drop(World {
        a,
        b,
        link,
        back,
        net,
        agents,
        history,
        now,
        armed,
        callbacks,
    });
}
