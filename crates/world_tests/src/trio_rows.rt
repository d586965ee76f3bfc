//! Whole scripts of three servers with what they print.

/// Scripts and the text that each prints, parted by `^`; one row behind another, parted by a back quote.
pub const PLAYED: &str = "\
    cluster start=1704067200000000000 queue=2 callbacks=8 sysfmt=\"@Cr @Cb\"\n\
    log 1 init A.2.1\n\
    log 1 open system\n\
    log 1 write system inv=0 flags=0 gen sev=6 class=0.0.0 user=\"u\" body=\"a\"\n\
    settle\n\
    crash a\n\
    crash b\n\
    log 1 write system inv=0 flags=0 gen sev=6 class=0.0.0 user=\"u\" body=\"b\"\n\
    settle\n\
    servers\n\
    files\n\
    ^\
    post 1 req 1 1\n\
    post 2 req 1 2\n\
    post 3 req 1 3\n\
    acc 1 call 1 1 1704067200000000000\n\
    post 4 rep 1 1\n\
    reply 1 1 ok\n\
    acc 2 call 1 2 1704067200000000000\n\
    post 5 rep 1 2\n\
    reply 1 2 ok\n\
    acc 3 call 1 3 1704067200000000000\n\
    post 6 rep 1 3\n\
    reply 1 3 ok\n\
    server a down\n\
    server b active\n\
    server b down\n\
    server c active\n\
    post 7 req 1 4\n\
    acc 4 call 1 4 1704067200000000000\n\
    post 8 rep 1 4\n\
    reply 1 4 ok\n\
    server a down\n\
    server b down\n\
    server c active\n\
    file saLogAlarm.cfg 156\n\
    file saLogAlarm_20240101_000000.log 0\n\
    file saLogNotification.cfg 163\n\
    file saLogNotification_20240101_000001.log 0\n\
    file saLogSystem.cfg 130\n\
    file saLogSystem_20240101_000002.log 512\n\
    `\
    cluster start=1704067200000000000 queue=2 callbacks=8\n\
    crash b\n\
    arm a 5\n\
    crash c\n\
    ^\
    server b down\n\
    refused crash c a=armed b=down c=standby net=0 link=0 back=0 hand=-\n\
    `\
    cluster start=1704067200000000000 queue=2 callbacks=8 sysfmt=\"@Cr @Cb\"\n\
    log 1 init A.2.1\n\
    log 1 open system\n\
    settle\n\
    arm a 2\n\
    crash b\n\
    servers\n\
    log 1 write system inv=1 flags=0 gen sev=6 class=0.0.0 user=\"u\" body=\"x\"\n\
    settle\n\
    servers\n\
    crash c\n\
    files\n\
    ^\
    post 1 req 1 1\n\
    post 2 req 1 2\n\
    acc 1 call 1 1 1704067200000000000\n\
    post 3 rep 1 1\n\
    reply 1 1 ok\n\
    acc 2 call 1 2 1704067200000000000\n\
    post 4 rep 1 2\n\
    reply 1 2 ok\n\
    server b down\n\
    server a armed\n\
    server b down\n\
    server c standby\n\
    post 5 req 1 3\n\
    acc 3 call 1 3 1704067200000000000\n\
    server a down\n\
    server c active\n\
    post 6 rep 1 3\n\
    reply 1 3 ok\n\
    server a down\n\
    server b down\n\
    server c active\n\
    refused crash c a=down b=down c=active net=6 link=0 back=0 hand=-\n\
    file saLogAlarm.cfg 156\n\
    file saLogAlarm_20240101_000000.log 0\n\
    file saLogNotification.cfg 163\n\
    file saLogNotification_20240101_000001.log 0\n\
    file saLogSystem.cfg 130\n\
    file saLogSystem_20240101_000002.log 256\n\
    `\
    cluster start=1704067200000000000 queue=2 callbacks=8 sysfmt=\"@Cr @Cb\"\n\
    log 1 init A.2.1\n\
    log 1 open system\n\
    settle\n\
    log 1 write system inv=1 flags=1 gen sev=6 class=0.0.0 user=\"u\" body=\"x\"\n\
    deliver 5\n\
    mirror b\n\
    crash a\n\
    servers\n\
    settle\n\
    dispatch 1 all workers=1\n\
    files\n\
    ^\
    post 1 req 1 1\n\
    post 2 req 1 2\n\
    acc 1 call 1 1 1704067200000000000\n\
    post 3 rep 1 1\n\
    reply 1 1 ok\n\
    acc 2 call 1 2 1704067200000000000\n\
    post 4 rep 1 2\n\
    reply 1 2 ok\n\
    post 5 req 1 3\n\
    acc 3 call 1 3 1704067200000000000\n\
    server a down\n\
    server b active\n\
    server a down\n\
    server b active\n\
    server c standby\n\
    post 6 rep 1 3\n\
    reply 1 3 ok\n\
    callback 1 1 write 1 ok\n\
    reply 1 - ok dispatched=1\n\
    file saLogAlarm.cfg 156\n\
    file saLogAlarm_20240101_000000.log 0\n\
    file saLogNotification.cfg 163\n\
    file saLogNotification_20240101_000001.log 0\n\
    file saLogSystem.cfg 130\n\
    file saLogSystem_20240101_000002.log 256\n\
    `\
    cluster start=1704067200000000000 queue=2 callbacks=8 sysfmt=\"@Cr @Cb\"\n\
    log 1 init A.2.1\n\
    log 1 open system\n\
    settle\n\
    log 1 write system inv=1 flags=1 gen sev=6 class=0.0.0 user=\"u\" body=\"x\"\n\
    deliver 5\n\
    crash a\n\
    servers\n\
    work\n\
    settle\n\
    files\n\
    ^\
    post 1 req 1 1\n\
    post 2 req 1 2\n\
    acc 1 call 1 1 1704067200000000000\n\
    post 3 rep 1 1\n\
    reply 1 1 ok\n\
    acc 2 call 1 2 1704067200000000000\n\
    post 4 rep 1 2\n\
    reply 1 2 ok\n\
    post 5 req 1 3\n\
    server a down\n\
    server b active\n\
    server a down\n\
    server b active\n\
    server c standby\n\
    refused work a=down b=active c=standby net=5 link=0 back=0 hand=-\n\
    acc 3 call 1 3 1704067200000000000\n\
    post 6 rep 1 3\n\
    reply 1 3 ok\n\
    file saLogAlarm.cfg 156\n\
    file saLogAlarm_20240101_000000.log 0\n\
    file saLogNotification.cfg 163\n\
    file saLogNotification_20240101_000001.log 0\n\
    file saLogSystem.cfg 130\n\
    file saLogSystem_20240101_000002.log 256\n\
    `\
    cluster start=1704067200000000000 queue=2 callbacks=8 sysfmt=\"@Cr @Cb\"\n\
    log 1 init A.2.1\n\
    log 1 open system\n\
    crash c\n\
    restart c\n\
    settle\n\
    log 1 write system inv=1 flags=0 gen sev=6 class=0.0.0 user=\"u\" body=\"x\"\n\
    settle\n\
    crash c\n\
    restart c\n\
    mirror\n\
    ack\n\
    servers\n\
    crash a\n\
    servers\n\
    log 1 write system inv=2 flags=0 gen sev=6 class=0.0.0 user=\"u\" body=\"y\"\n\
    settle\n\
    files\n\
    cat \"saLogSystem_20240101_000002.log\"\n\
    ^\
    post 1 req 1 1\n\
    post 2 req 1 2\n\
    server c down\n\
    server c joining\n\
    server c standby\n\
    acc 1 call 1 1 1704067200000000000\n\
    post 3 rep 1 1\n\
    reply 1 1 ok\n\
    acc 2 call 1 2 1704067200000000000\n\
    post 4 rep 1 2\n\
    reply 1 2 ok\n\
    post 5 req 1 3\n\
    acc 3 call 1 3 1704067200000000000\n\
    post 6 rep 1 3\n\
    reply 1 3 ok\n\
    server c down\n\
    server c joining\n\
    server c standby\n\
    server a active\n\
    server b standby\n\
    server c standby\n\
    server a down\n\
    server c active\n\
    server a down\n\
    server b standby\n\
    server c active\n\
    post 7 req 1 4\n\
    acc 4 call 1 4 1704067200000000000\n\
    post 8 rep 1 4\n\
    reply 1 4 ok\n\
    file saLogAlarm.cfg 156\n\
    file saLogAlarm_20240101_000000.log 0\n\
    file saLogNotification.cfg 163\n\
    file saLogNotification_20240101_000001.log 0\n\
    file saLogSystem.cfg 130\n\
    file saLogSystem_20240101_000002.log 512\n\
    text          1 x\n\
    text          2 y\n\
    `\
    cluster start=1704067200000000000 queue=2 callbacks=8 sysfmt=\"@Cr @Cb\"\n\
    log 1 init A.2.1\n\
    log 1 open system\n\
    settle\n\
    crash b\n\
    crash c\n\
    log 1 write system inv=1 flags=0 gen sev=6 class=0.0.0 user=\"u\" body=\"x\"\n\
    deliver 5\n\
    restart b\n\
    restart c\n\
    servers\n\
    mirror\n\
    work\n\
    log 1 write system inv=2 flags=0 gen sev=6 class=0.0.0 user=\"u\" body=\"y\"\n\
    deliver 7\n\
    mirror\n\
    mirror c\n\
    ack c\n\
    mirror c\n\
    mirror b\n\
    ack\n\
    ack\n\
    ack\n\
    work\n\
    settle\n\
    servers\n\
    files\n\
    ^\
    post 1 req 1 1\n\
    post 2 req 1 2\n\
    acc 1 call 1 1 1704067200000000000\n\
    post 3 rep 1 1\n\
    reply 1 1 ok\n\
    acc 2 call 1 2 1704067200000000000\n\
    post 4 rep 1 2\n\
    reply 1 2 ok\n\
    server b down\n\
    server c down\n\
    post 5 req 1 3\n\
    acc 3 call 1 3 1704067200000000000\n\
    server b joining\n\
    server c joining\n\
    server a active\n\
    server b joining\n\
    server c joining\n\
    refused mirror a=active b=joining c=joining net=5 link=0 back=0 hand=3\n\
    post 6 rep 1 3\n\
    post 7 req 1 4\n\
    server b standby\n\
    server c standby\n\
    acc 4 call 1 4 1704067200000000000\n\
    post 8 rep 1 4\n\
    reply 1 3 ok\n\
    reply 1 4 ok\n\
    server a active\n\
    server b standby\n\
    server c standby\n\
    file saLogAlarm.cfg 156\n\
    file saLogAlarm_20240101_000000.log 0\n\
    file saLogNotification.cfg 163\n\
    file saLogNotification_20240101_000001.log 0\n\
    file saLogSystem.cfg 130\n\
    file saLogSystem_20240101_000002.log 512\n\
    `\
    cluster start=1704067200000000000 queue=2 callbacks=8 sysfmt=\"@Cr @Cb\"\n\
    log 1 init A.2.1\n\
    log 1 open system\n\
    deliver 1\n\
    crash c\n\
    work\n\
    crash b\n\
    work\n\
    settle\n\
    servers\n\
    restart c\n\
    settle\n\
    crash a\n\
    servers\n\
    settle\n\
    files\n\
    ^\
    post 1 req 1 1\n\
    post 2 req 1 2\n\
    server c down\n\
    refused work a=active b=standby c=down net=2 link=1 back=0 hand=1\n\
    acc 1 call 1 1 1704067200000000000\n\
    server b down\n\
    post 3 rep 1 1\n\
    reply 1 1 ok\n\
    acc 2 call 1 2 1704067200000000000\n\
    post 4 rep 1 2\n\
    reply 1 2 ok\n\
    server a active\n\
    server b down\n\
    server c down\n\
    server c joining\n\
    server c standby\n\
    server a down\n\
    server c active\n\
    server a down\n\
    server b down\n\
    server c active\n\
    file saLogAlarm.cfg 156\n\
    file saLogAlarm_20240101_000000.log 0\n\
    file saLogNotification.cfg 163\n\
    file saLogNotification_20240101_000001.log 0\n\
    file saLogSystem.cfg 130\n\
    file saLogSystem_20240101_000002.log 0\n";

/// A script in which the active server stops at a call of the work that is done last, parted where the number of that call stands.
pub const ARMED: &str = "\
    cluster start=1704067200000000000 queue=2 callbacks=8 sysfmt=\"@Cr @Cb\" sysrec=32 sysmax=32 sysfull=rotate sysrot=1\n\
    log 1 init A.2.1\n\
    log 1 open system\n\
    log 1 write system inv=0 flags=0 gen sev=6 class=0.0.0 user=\"u\" body=\"a\"\n\
    log 1 write system inv=0 flags=0 gen sev=6 class=0.0.0 user=\"u\" body=\"b\"\n\
    settle\n\
    arm a ^\n\
    log 1 write system inv=0 flags=0 gen sev=6 class=0.0.0 user=\"u\" body=\"c\"\n\
    settle\n\
    files\n\
    cat \"saLogSystem_20240101_000006.log\"\n";

/// What it prints, parted where the lines of the servers that go on stand.
pub const STOPPED: &str = "\
    post 1 req 1 1\n\
    post 2 req 1 2\n\
    post 3 req 1 3\n\
    post 4 req 1 4\n\
    acc 1 call 1 1 1704067200000000000\n\
    post 5 rep 1 1\n\
    reply 1 1 ok\n\
    acc 2 call 1 2 1704067200000000000\n\
    post 6 rep 1 2\n\
    reply 1 2 ok\n\
    acc 3 call 1 3 1704067200000000000\n\
    post 7 rep 1 3\n\
    reply 1 3 ok\n\
    acc 4 call 1 4 1704067200000000000\n\
    post 8 rep 1 4\n\
    reply 1 4 ok\n\
    post 9 req 1 5\n\
    acc 5 call 1 5 1704067200000000000\n\
    server a down\n\
    ^\
    post 10 rep 1 5\n\
    reply 1 5 ok\n\
    file saLogAlarm.cfg 156\n\
    file saLogAlarm_20240101_000000.log 0\n\
    file saLogNotification.cfg 163\n\
    file saLogNotification_20240101_000001.log 0\n\
    file saLogSystem.cfg 125\n\
    file saLogSystem_20240101_000006.log 32\n\
    text          3 c\n";
