//! Whole scripts in which servers fail and come back, with what they print.

/// Scripts and the text that each prints, parted by `^`; one row behind another, parted by a back quote.
pub const FAILING: &str = "\
    cluster start=1704067200000000000 queue=2 callbacks=8 sysfmt=\"@Cr @Cb\" sysrec=32 sysmax=64 sysfull=halt\n\
    log 1 init A.2.1\n\
    log 1 open system\n\
    log 1 write system inv=0 flags=0 gen sev=6 class=0.0.0 user=\"u\" body=\"a\"\n\
    log 1 write system inv=0 flags=0 gen sev=6 class=0.0.0 user=\"u\" body=\"b\"\n\
    log 1 write system inv=0 flags=0 gen sev=6 class=0.0.0 user=\"u\" body=\"c\"\n\
    settle\n\
    crash a\n\
    log 1 write system inv=0 flags=0 gen sev=6 class=0.0.0 user=\"u\" body=\"d\"\n\
    settle\n\
    ^\
    post 1 req 1 1\n\
    post 2 req 1 2\n\
    post 3 req 1 3\n\
    post 4 req 1 4\n\
    post 5 req 1 5\n\
    acc 1 call 1 1 1704067200000000000\n\
    post 6 rep 1 1\n\
    reply 1 1 ok\n\
    acc 2 call 1 2 1704067200000000000\n\
    post 7 rep 1 2\n\
    reply 1 2 ok\n\
    acc 3 call 1 3 1704067200000000000\n\
    post 8 rep 1 3\n\
    reply 1 3 ok\n\
    acc 4 call 1 4 1704067200000000000\n\
    post 9 rep 1 4\n\
    reply 1 4 ok\n\
    acc 5 call 1 5 1704067200000000000\n\
    post 10 rep 1 5\n\
    reply 1 5 NO_SPACE\n\
    server a down\n\
    server b active\n\
    post 11 req 1 6\n\
    acc 6 call 1 6 1704067200000000000\n\
    post 12 rep 1 6\n\
    reply 1 6 NO_SPACE\n\
    `\
    cluster start=1704067200000000000 queue=2 callbacks=8 sysfmt=\"@Cr @Cb\" sysrec=32 sysmax=64 sysfull=wrap\n\
    log 1 init A.2.1\n\
    log 1 open system\n\
    log 1 write system inv=0 flags=0 gen sev=6 class=0.0.0 user=\"u\" body=\"a\"\n\
    log 1 write system inv=0 flags=0 gen sev=6 class=0.0.0 user=\"u\" body=\"b\"\n\
    log 1 write system inv=0 flags=0 gen sev=6 class=0.0.0 user=\"u\" body=\"c\"\n\
    log 1 write system inv=0 flags=0 gen sev=6 class=0.0.0 user=\"u\" body=\"d\"\n\
    settle\n\
    arm a 1\n\
    log 1 write system inv=0 flags=0 gen sev=6 class=0.0.0 user=\"u\" body=\"e\"\n\
    settle\n\
    cat \"saLogSystem_20240101_000002.log\"\n\
    ^\
    post 1 req 1 1\n\
    post 2 req 1 2\n\
    post 3 req 1 3\n\
    post 4 req 1 4\n\
    post 5 req 1 5\n\
    post 6 req 1 6\n\
    acc 1 call 1 1 1704067200000000000\n\
    post 7 rep 1 1\n\
    reply 1 1 ok\n\
    acc 2 call 1 2 1704067200000000000\n\
    post 8 rep 1 2\n\
    reply 1 2 ok\n\
    acc 3 call 1 3 1704067200000000000\n\
    post 9 rep 1 3\n\
    reply 1 3 ok\n\
    acc 4 call 1 4 1704067200000000000\n\
    post 10 rep 1 4\n\
    reply 1 4 ok\n\
    acc 5 call 1 5 1704067200000000000\n\
    post 11 rep 1 5\n\
    reply 1 5 ok\n\
    acc 6 call 1 6 1704067200000000000\n\
    post 12 rep 1 6\n\
    reply 1 6 ok\n\
    post 13 req 1 7\n\
    acc 7 call 1 7 1704067200000000000\n\
    server a down\n\
    server b active\n\
    post 14 rep 1 7\n\
    reply 1 7 ok\n\
    text          5 e\n\
    text          4 d\n\
    `\
    cluster start=1704067200000000000 queue=2 callbacks=8\n\
    log 1 init A.2.1\n\
    log 1 open system\n\
    settle\n\
    log 1 write system inv=0 flags=0 gen sev=6 class=0.0.0 user=\"u\" body=\"a\"\n\
    deliver 5\n\
    mirror\n\
    crash a\n\
    resend 1\n\
    deliver 6\n\
    files\n\
    ^\
    post 1 req 1 1\n\
    post 2 req 1 2\n\
    acc 1 call 1 1 1704067200000000000\n\
    post 3 rep 1 1\n\
    reply 1 1 ok\n\
    acc 2 call 1 2 1704067200000000000\n\
    post 4 rep 1 2\n\
    reply 1 2 ok\n\
    post 5 req 1 3\n\
    acc 3 call 1 3 1704067200000000000\n\
    server a down\n\
    server b active\n\
    post 6 rep 1 3\n\
    reply 1 3 ok\n\
    file saLogAlarm.cfg 156\n\
    file saLogAlarm_20240101_000000.log 0\n\
    file saLogNotification.cfg 163\n\
    file saLogNotification_20240101_000001.log 0\n\
    file saLogSystem.cfg 164\n\
    file saLogSystem_20240101_000002.log 256\n\
    `\
    cluster start=1704067200000000000 queue=2 callbacks=8\n\
    log 1 init A.2.1\n\
    log 1 open system\n\
    settle\n\
    log 1 write system inv=0 flags=0 gen sev=6 class=0.0.0 user=\"u\" body=\"a\"\n\
    deliver 5\n\
    crash a\n\
    resend 1\n\
    work\n\
    deliver 6\n\
    files\n\
    ^\
    post 1 req 1 1\n\
    post 2 req 1 2\n\
    acc 1 call 1 1 1704067200000000000\n\
    post 3 rep 1 1\n\
    reply 1 1 ok\n\
    acc 2 call 1 2 1704067200000000000\n\
    post 4 rep 1 2\n\
    reply 1 2 ok\n\
    post 5 req 1 3\n\
    server a down\n\
    server b active\n\
    acc 3 call 1 3 1704067200000000000\n\
    post 6 rep 1 3\n\
    reply 1 3 ok\n\
    file saLogAlarm.cfg 156\n\
    file saLogAlarm_20240101_000000.log 0\n\
    file saLogNotification.cfg 163\n\
    file saLogNotification_20240101_000001.log 0\n\
    file saLogSystem.cfg 164\n\
    file saLogSystem_20240101_000002.log 256\n\
    `\
    cluster start=1704067200000000000 queue=2 callbacks=8\n\
    ntf 1 init A.1.1\n\
    ntf 1 subscribe 9 filter alarm\n\
    settle\n\
    ntf 1 send alarm type=0x4001 obj=\"node1\" by=\"hw\" class=1.2.3 time=1704067200000000000 text=\"f\" cause=5 sev=4\n\
    deliver 5\n\
    mirror\n\
    ack\n\
    work\n\
    push\n\
    deliver 7\n\
    crash a\n\
    deliver 7\n\
    push\n\
    deliver 7\n\
    dispatch 1 all workers=2\n\
    ^\
    post 1 req 1 1\n\
    post 2 req 1 2\n\
    acc 1 call 1 1 1704067200000000000\n\
    post 3 rep 1 1\n\
    reply 1 1 ok\n\
    acc 2 call 1 2 1704067200000000000\n\
    post 4 rep 1 2\n\
    reply 1 2 ok\n\
    post 5 req 1 3\n\
    acc 3 call 1 3 1704067200000000000\n\
    post 6 rep 1 3\n\
    post 7 item 1 2 1\n\
    post 8 rcpt 1 2 1\n\
    server a down\n\
    server b active\n\
    ignored 7 taken\n\
    ignored 7 taken\n\
    callback 1 1 ntf 9 alarm id=1 type=0x4001 obj=\"node1\" by=\"hw\" class=1.2.3 time=1704067200000000000 text=\"f\" cause=5 sev=4\n\
    reply 1 - ok dispatched=1\n\
    `\
    cluster start=1704067200000000000 queue=2 callbacks=8\n\
    arm a 5\n\
    crash b\n\
    servers\n\
    ^\
    refused crash b a=armed b=standby net=0 link=0 back=0 hand=-\n\
    server a armed\n\
    server b standby\n\
    `\
    cluster start=1704067200000000000 queue=2 callbacks=8\n\
    crash b\n\
    restart b\n\
    mirror\n\
    ack\n\
    servers\n\
    ^\
    server b down\n\
    server b joining\n\
    server b standby\n\
    server a active\n\
    server b standby\n\
    `\
    cluster start=1704067200000000000 queue=2 callbacks=8\n\
    log 1 init A.2.1\n\
    deliver 1\n\
    time 1704067201000000000\n\
    mirror\n\
    ack\n\
    work\n\
    deliver 2\n\
    ^\
    post 1 req 1 1\n\
    acc 1 call 1 1 1704067200000000000\n\
    post 2 rep 1 1\n\
    reply 1 1 ok\n\
    `\
    cluster start=1704067200000000000 queue=2 callbacks=8\n\
    crash b\n\
    log 1 init A.2.1\n\
    deliver 1\n\
    restart b\n\
    mirror\n\
    work\n\
    mirror\n\
    ack\n\
    crash a\n\
    servers\n\
    deliver 1\n\
    deliver 2\n\
    ^\
    server b down\n\
    post 1 req 1 1\n\
    acc 1 call 1 1 1704067200000000000\n\
    server b joining\n\
    refused mirror a=active b=joining net=1 link=0 back=0 hand=1\n\
    post 2 rep 1 1\n\
    server b standby\n\
    server a down\n\
    server b active\n\
    server a down\n\
    server b active\n\
    reply 1 1 ok\n";
