//! The active server stops in one device call after another, as a record comes to a new file and as
//! a stream is made. Whichever call it is, the standby does the deeds again, and the files are those
//! of a run without a stop: on a disk in memory, whose torn ranges hold other bytes, and on folders.
use super::{ends_on, prints_over};
use disk_model::{DirDisk, Root};
use std::fs;
use std::process::Abort;
use std::rt::Files;
use std::sync::Wait;
use std::thread::Threads;

/// The calls in which the server stops, the lines before it is armed, those behind, and the text,
/// parted by `^`; one row behind another, parted by a back quote. The calls of a new file are a
/// rename, a create, a remove where one is due, a write and a sync. Records of size 0 are long by
/// tokens that show an empty body in 255 places.
const STOPS: &str = "\
    1 2 3 4 5^\
    cluster start=1704067200000000000 queue=2 callbacks=8 sysfmt=\"@Cr @Cb\" sysrec=32 sysmax=32 sysfull=rotate sysrot=1\n\
    log 1 init A.2.1\n\
    log 1 open system\n\
    log 1 write system inv=0 flags=0 gen sev=6 class=0.0.0 user=\"u\" body=\"a\"\n\
    log 1 write system inv=0 flags=0 gen sev=6 class=0.0.0 user=\"u\" body=\"b\"\n\
    settle\n\
    ^\
    log 1 write system inv=0 flags=0 gen sev=6 class=0.0.0 user=\"u\" body=\"c\"\n\
    settle\n\
    files\n\
    cat \"saLogSystem_20240101_000006.log\"\n\
    ^\
    post 1 req 1 1\n\
    post 2 req 1 2\n\
    post 3 req 1 3\n\
    post 4 req 1 4\n\
    acc 1 call 1 1 1704067200000000000\n\
    post 5 rep 1 1\n\
    reply 1 1 ok\n\
    acc 2 call 1 2 1704067200000000000\n\
    post 6 rep 1 2\n\
    reply 1 2 ok\n\
    acc 3 call 1 3 1704067200000000000\n\
    post 7 rep 1 3\n\
    reply 1 3 ok\n\
    acc 4 call 1 4 1704067200000000000\n\
    post 8 rep 1 4\n\
    reply 1 4 ok\n\
    post 9 req 1 5\n\
    acc 5 call 1 5 1704067200000000000\n\
    server a down\n\
    server b active\n\
    post 10 rep 1 5\n\
    reply 1 5 ok\n\
    file saLogAlarm.cfg 156\n\
    file saLogAlarm_20240101_000000.log 0\n\
    file saLogNotification.cfg 163\n\
    file saLogNotification_20240101_000001.log 0\n\
    file saLogSystem.cfg 125\n\
    file saLogSystem_20240101_000006.log 32\n\
    text          3 c\n\
    `\
    1 2 3 4 5^\
    cluster start=1704067200000000000 queue=2 callbacks=8 sysfmt=\"@Cr @Cb\" sysrec=32 sysmax=32 sysfull=rotate sysrot=2\n\
    log 1 init A.2.1\n\
    log 1 open system\n\
    log 1 write system inv=0 flags=0 gen sev=6 class=0.0.0 user=\"u\" body=\"a\"\n\
    log 1 write system inv=0 flags=0 gen sev=6 class=0.0.0 user=\"u\" body=\"b\"\n\
    settle\n\
    ^\
    log 1 write system inv=0 flags=0 gen sev=6 class=0.0.0 user=\"u\" body=\"c\"\n\
    settle\n\
    files\n\
    cat \"saLogSystem_20240101_000004_20240101_000005.log\"\n\
    cat \"saLogSystem_20240101_000006.log\"\n\
    ^\
    post 1 req 1 1\n\
    post 2 req 1 2\n\
    post 3 req 1 3\n\
    post 4 req 1 4\n\
    acc 1 call 1 1 1704067200000000000\n\
    post 5 rep 1 1\n\
    reply 1 1 ok\n\
    acc 2 call 1 2 1704067200000000000\n\
    post 6 rep 1 2\n\
    reply 1 2 ok\n\
    acc 3 call 1 3 1704067200000000000\n\
    post 7 rep 1 3\n\
    reply 1 3 ok\n\
    acc 4 call 1 4 1704067200000000000\n\
    post 8 rep 1 4\n\
    reply 1 4 ok\n\
    post 9 req 1 5\n\
    acc 5 call 1 5 1704067200000000000\n\
    server a down\n\
    server b active\n\
    post 10 rep 1 5\n\
    reply 1 5 ok\n\
    file saLogAlarm.cfg 156\n\
    file saLogAlarm_20240101_000000.log 0\n\
    file saLogNotification.cfg 163\n\
    file saLogNotification_20240101_000001.log 0\n\
    file saLogSystem.cfg 125\n\
    file saLogSystem_20240101_000004_20240101_000005.log 32\n\
    file saLogSystem_20240101_000006.log 32\n\
    text          2 b\n\
    text          3 c\n\
    `\
    1 2 3 4^\
    cluster start=1704067200000000000 queue=2 callbacks=8 sysfmt=\"@Cr @Cb\" sysrec=32 sysmax=64 sysfull=rotate sysrot=2\n\
    log 1 init A.2.1\n\
    log 1 open system\n\
    log 1 write system inv=0 flags=0 gen sev=6 class=0.0.0 user=\"u\" body=\"a\"\n\
    log 1 write system inv=0 flags=0 gen sev=6 class=0.0.0 user=\"u\" body=\"b\"\n\
    settle\n\
    ^\
    log 1 write system inv=0 flags=0 gen sev=6 class=0.0.0 user=\"u\" body=\"c\"\n\
    settle\n\
    files\n\
    cat \"saLogSystem_20240101_000002_20240101_000003.log\"\n\
    cat \"saLogSystem_20240101_000004.log\"\n\
    ^\
    post 1 req 1 1\n\
    post 2 req 1 2\n\
    post 3 req 1 3\n\
    post 4 req 1 4\n\
    acc 1 call 1 1 1704067200000000000\n\
    post 5 rep 1 1\n\
    reply 1 1 ok\n\
    acc 2 call 1 2 1704067200000000000\n\
    post 6 rep 1 2\n\
    reply 1 2 ok\n\
    acc 3 call 1 3 1704067200000000000\n\
    post 7 rep 1 3\n\
    reply 1 3 ok\n\
    acc 4 call 1 4 1704067200000000000\n\
    post 8 rep 1 4\n\
    reply 1 4 ok\n\
    post 9 req 1 5\n\
    acc 5 call 1 5 1704067200000000000\n\
    server a down\n\
    server b active\n\
    post 10 rep 1 5\n\
    reply 1 5 ok\n\
    file saLogAlarm.cfg 156\n\
    file saLogAlarm_20240101_000000.log 0\n\
    file saLogNotification.cfg 163\n\
    file saLogNotification_20240101_000001.log 0\n\
    file saLogSystem.cfg 125\n\
    file saLogSystem_20240101_000002_20240101_000003.log 64\n\
    file saLogSystem_20240101_000004.log 32\n\
    text          1 a\n\
    text          2 b\n\
    text          3 c\n\
    `\
    1 2 3 4 5^\
    cluster start=1704067200000000000 queue=2 callbacks=8 sysfmt=\"@Cr\
    @Ci255@Ci255@Ci255@Ci255@Ci255@Ci255@Ci255@Ci255@Ci255@Ci255@Ci255\
    @Ci255@Ci255@Ci255@Ci255@Ci255@Ci255@Ci255@Ci255@Ci255@Ci255@Ci255\
    @Ci255@Ci255@Ci255@Ci255@Ci255@Ci255@Ci255@Ci255@Ci255@Ci255@Ci255\
    \" sysrec=0 sysmax=16384 sysfull=rotate sysrot=1\n\
    log 1 init A.2.1\n\
    log 1 open system\n\
    log 1 write system inv=0 flags=0 gen sev=6 class=0.0.0 user=\"u\" body=\"\"\n\
    log 1 write system inv=0 flags=0 gen sev=6 class=0.0.0 user=\"u\" body=\"\"\n\
    settle\n\
    ^\
    log 1 write system inv=0 flags=0 gen sev=6 class=0.0.0 user=\"u\" body=\"\"\n\
    settle\n\
    files\n\
    cat \"saLogSystem_20240101_000006.log\"\n\
    ^\
    post 1 req 1 1\n\
    post 2 req 1 2\n\
    post 3 req 1 3\n\
    post 4 req 1 4\n\
    acc 1 call 1 1 1704067200000000000\n\
    post 5 rep 1 1\n\
    reply 1 1 ok\n\
    acc 2 call 1 2 1704067200000000000\n\
    post 6 rep 1 2\n\
    reply 1 2 ok\n\
    acc 3 call 1 3 1704067200000000000\n\
    post 7 rep 1 3\n\
    reply 1 3 ok\n\
    acc 4 call 1 4 1704067200000000000\n\
    post 8 rep 1 4\n\
    reply 1 4 ok\n\
    post 9 req 1 5\n\
    acc 5 call 1 5 1704067200000000000\n\
    server a down\n\
    server b active\n\
    post 10 rep 1 5\n\
    reply 1 5 ok\n\
    file saLogAlarm.cfg 156\n\
    file saLogAlarm_20240101_000000.log 0\n\
    file saLogNotification.cfg 163\n\
    file saLogNotification_20240101_000001.log 0\n\
    file saLogSystem.cfg 321\n\
    file saLogSystem_20240101_000006.log 8426\n\
    text          3\n\
    `\
    1 2^\
    cluster start=1704067200000000000 queue=2 callbacks=8 sysfmt=\"@Cr\
    @Ci255@Ci255@Ci255@Ci255@Ci255@Ci255@Ci255@Ci255\
    @Ci255@Ci255@Ci255@Ci255@Ci255@Ci255@Ci255@Ci255\
    \" sysrec=0 sysmax=16384 sysfull=rotate sysrot=2\n\
    log 1 init A.2.1\n\
    log 1 open system\n\
    log 1 write system inv=0 flags=0 gen sev=6 class=0.0.0 user=\"u\" body=\"\"\n\
    log 1 write system inv=0 flags=0 gen sev=6 class=0.0.0 user=\"u\" body=\"\"\n\
    settle\n\
    ^\
    log 1 write system inv=0 flags=0 gen sev=6 class=0.0.0 user=\"u\" body=\"\"\n\
    settle\n\
    files\n\
    cat \"saLogSystem_20240101_000002.log\"\n\
    ^\
    post 1 req 1 1\n\
    post 2 req 1 2\n\
    post 3 req 1 3\n\
    post 4 req 1 4\n\
    acc 1 call 1 1 1704067200000000000\n\
    post 5 rep 1 1\n\
    reply 1 1 ok\n\
    acc 2 call 1 2 1704067200000000000\n\
    post 6 rep 1 2\n\
    reply 1 2 ok\n\
    acc 3 call 1 3 1704067200000000000\n\
    post 7 rep 1 3\n\
    reply 1 3 ok\n\
    acc 4 call 1 4 1704067200000000000\n\
    post 8 rep 1 4\n\
    reply 1 4 ok\n\
    post 9 req 1 5\n\
    acc 5 call 1 5 1704067200000000000\n\
    server a down\n\
    server b active\n\
    post 10 rep 1 5\n\
    reply 1 5 ok\n\
    file saLogAlarm.cfg 156\n\
    file saLogAlarm_20240101_000000.log 0\n\
    file saLogNotification.cfg 163\n\
    file saLogNotification_20240101_000001.log 0\n\
    file saLogSystem.cfg 219\n\
    file saLogSystem_20240101_000002.log 12273\n\
    text          1\n\
    text          2\n\
    text          3\n\
    `\
    1 2 3 4^\
    cluster start=1704067200000000000 queue=2 callbacks=8\n\
    log 1 init A.2.1\n\
    settle\n\
    ^\
    log 1 open app:\"w\" create file=\"app1\" path=\"web\" max=64 rec=32 ha=0 full=wrap rot=1 fmt=\"@Cb\"\n\
    settle\n\
    files\n\
    cat \"web/app1.cfg\"\n\
    ^\
    post 1 req 1 1\n\
    acc 1 call 1 1 1704067200000000000\n\
    post 2 rep 1 1\n\
    reply 1 1 ok\n\
    post 3 req 1 2\n\
    acc 2 call 1 2 1704067200000000000\n\
    server a down\n\
    server b active\n\
    post 4 rep 1 2\n\
    reply 1 2 ok\n\
    file saLogAlarm.cfg 156\n\
    file saLogAlarm_20240101_000000.log 0\n\
    file saLogNotification.cfg 163\n\
    file saLogNotification_20240101_000001.log 0\n\
    file saLogSystem.cfg 164\n\
    file saLogSystem_20240101_000002.log 0\n\
    file web/app1.cfg 118\n\
    file web/app1_20240101_000003.log 0\n\
    text STREAM: app w\n\
    text VERSION: A.02.01\n\
    text FORMAT: @Cb\n\
    text MAX_FILE_SIZE: 64\n\
    text RECORD_SIZE: 32\n\
    text FULL_ACTION: WRAP\n\
    text ROTATED_FILES: 1\n\
    text HA: 0\n";

/// The folder of a disk on folders, in the test's own.
const ROOT: &str = "ais_log_root";

/// These lines print this text over a disk in memory, and over one on folders.
fn prints<R>(rt: &R, script: String, text: &str)
where
    R: Abort + Threads + Wait + Sync + Files + AllocGlobal + Clone + Drop,
{
    let alloc = rt.alloc();
    ends_on(rt, alloc, &[], script.as_str(), 0, text);
    let files = rt.clone().ok().expect(rt, "a runtime");
    let mut disk = DirDisk::new(files, Root::Logs);
    prints_over(rt, alloc, &mut disk, script.into_bytes(), text);
    drop(disk);
    fs::remove_dir_all(rt, ROOT).ok().expect(rt, "the folder");
}

/// The lines of a row print the row's text where the server stops in each of the row's calls.
fn row_stops<R>(rt: &R, row: &str)
where
    R: Abort + Threads + Wait + Sync + Files + AllocGlobal + Clone + Drop,
{
    let (calls, row) = row.split_once('^').expect(rt, "calls");
    let (before, row) = row.split_once('^').expect(rt, "lines before");
    let (behind, text) = row.split_once('^').expect(rt, "lines behind and a text");
    for call in calls.split(' ') {
        let script = format!(in rt.alloc(); "{before}arm a {call}\n{behind}").expect(rt, "memory");
        prints(rt, script, text);
    }
}

#[test]
fn stops_in_each_call_leave_whole_files(rt: HostRuntime) {
    for row in STOPS.split('`') {
        row_stops(&rt, row);
    }
}
