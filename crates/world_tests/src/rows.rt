//! Scripts for a server and its journal, and the texts that they print.

/// One client begins, opens the stream of system records, and writes one.
pub const OPENED: &str = "\
    cluster start=1704067200000000000 queue=2 callbacks=8 sysfmt=\"@Cr @Cb\"\n\
    log 1 init A.2.1\n\
    log 1 open system\n\
    settle\n\
    log 1 write system inv=0 flags=0 gen sev=6 class=0.0.0 user=\"u\" body=\"a\"\n";

/// What that prints.
pub const POSTED: &str = "\
    post 1 req 1 1\n\
    post 2 req 1 2\n\
    acc 1 call 1 1 1704067200000000000\n\
    post 3 rep 1 1\n\
    reply 1 1 ok\n\
    acc 2 call 1 2 1704067200000000000\n\
    post 4 rep 1 2\n\
    reply 1 2 ok\n\
    post 5 req 1 3\n";

pub const ACCEPTED: &str = "acc 3 call 1 3 1704067200000000000\n";

pub const ANSWERED: &str = "post 6 rep 1 3\n";

pub const REPLIED: &str = "reply 1 3 ok\n";

pub const DOWN: &str = "server a down\n";

pub const ACTIVE: &str = "server a active\n";

/// All files are listed, and the record is shown.
pub const SHOWS: &str = "\
    files\n\
    cat \"saLogSystem_20240101_000002.log\"\n";

/// The files where no record was written, and where one was.
pub const NONE: &str = "\
    file saLogAlarm.cfg 156\n\
    file saLogAlarm_20240101_000000.log 0\n\
    file saLogNotification.cfg 163\n\
    file saLogNotification_20240101_000001.log 0\n\
    file saLogSystem.cfg 130\n\
    file saLogSystem_20240101_000002.log 0\n";

pub const ONE: &str = "\
    file saLogAlarm.cfg 156\n\
    file saLogAlarm_20240101_000000.log 0\n\
    file saLogNotification.cfg 163\n\
    file saLogNotification_20240101_000001.log 0\n\
    file saLogSystem.cfg 130\n\
    file saLogSystem_20240101_000002.log 256\n";

pub const RECORD: &str = "text          1 a\n";
