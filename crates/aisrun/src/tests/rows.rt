//! Whole scripts with what they print.

/// Scripts and the text that each prints, parted by `^`; one row behind another, parted by a back quote.
pub const PLAYED: &str = "\
    cluster start=1704067200000000000 queue=2 callbacks=8\n\
    log 1 init A.2.1\n\
    log 1 open system\n\
    log 1 write system inv=7 flags=1 gen sev=6 class=1.2.3 user=\"safApp=web\" body=\"service started\"\n\
    settle\n\
    dispatch 1 all workers=1\n\
    files\n\
    cat \"saLogSystem_20240101_000002.log\"\n\
    ^\
    post 1 req 1 1\n\
    post 2 req 1 2\n\
    post 3 req 1 3\n\
    acc 1 call 1 1 1704067200000000000\n\
    post 4 rep 1 1\n\
    reply 1 1 ok\n\
    acc 2 call 1 2 1704067200000000000\n\
    post 5 rep 1 2\n\
    reply 1 2 ok\n\
    acc 3 call 1 3 1704067200000000000\n\
    post 6 rep 1 3\n\
    reply 1 3 ok\n\
    callback 1 1 write 7 ok\n\
    reply 1 - ok dispatched=1\n\
    file saLogAlarm.cfg 156\n\
    file saLogAlarm_20240101_000000.log 0\n\
    file saLogNotification.cfg 163\n\
    file saLogNotification_20240101_000001.log 0\n\
    file saLogSystem.cfg 164\n\
    file saLogSystem_20240101_000002.log 256\n\
    text          1 00:00:00 01/01/2024 IN safApp=web \"service started\"\n\
    `\
    cluster start=1704067200000000000 queue=2 callbacks=8\n\
    files\n\
    ^\
    file saLogAlarm.cfg 156\n\
    file saLogAlarm_20240101_000000.log 0\n\
    file saLogNotification.cfg 163\n\
    file saLogNotification_20240101_000001.log 0\n\
    file saLogSystem.cfg 164\n\
    file saLogSystem_20240101_000002.log 0\n\
    `\
    cluster start=1704067200000000000 queue=2 callbacks=8 sysfmt=\"@Cr @Cb\" sysrec=32 sysmax=32 sysfull=rotate sysrot=1\n\
    log 1 init A.2.1\n\
    log 1 open system\n\
    log 1 write system inv=0 flags=0 gen sev=6 class=0.0.0 user=\"u\" body=\"a\"\n\
    log 1 write system inv=0 flags=0 gen sev=6 class=0.0.0 user=\"u\" body=\"b\"\n\
    log 1 write system inv=0 flags=0 gen sev=6 class=0.0.0 user=\"u\" body=\"c\"\n\
    settle\n\
    files\n\
    ^\
    post 1 req 1 1\n\
    post 2 req 1 2\n\
    post 3 req 1 3\n\
    post 4 req 1 4\n\
    post 5 req 1 5\n\
    acc 1 call 1 1 1704067200000000000\n\
    post 6 rep 1 1\n\
    reply 1 1 ok\n\
    acc 2 call 1 2 1704067200000000000\n\
    post 7 rep 1 2\n\
    reply 1 2 ok\n\
    acc 3 call 1 3 1704067200000000000\n\
    post 8 rep 1 3\n\
    reply 1 3 ok\n\
    acc 4 call 1 4 1704067200000000000\n\
    post 9 rep 1 4\n\
    reply 1 4 ok\n\
    acc 5 call 1 5 1704067200000000000\n\
    post 10 rep 1 5\n\
    reply 1 5 ok\n\
    file saLogAlarm.cfg 156\n\
    file saLogAlarm_20240101_000000.log 0\n\
    file saLogNotification.cfg 163\n\
    file saLogNotification_20240101_000001.log 0\n\
    file saLogSystem.cfg 125\n\
    file saLogSystem_20240101_000006.log 32\n\
    `\
    cluster start=1704067200000000000 queue=2 callbacks=8\n\
    log 1 init A.2.1\n\
    settle\n\
    log 1 fini\n\
    settle\n\
    deliver 1\n\
    log 1 open system\n\
    ^\
    post 1 req 1 1\n\
    acc 1 call 1 1 1704067200000000000\n\
    post 2 rep 1 1\n\
    reply 1 1 ok\n\
    post 3 req 1 2\n\
    acc 2 call 1 2 1704067200000000000\n\
    post 4 rep 1 2\n\
    reply 1 2 ok\n\
    reply 1 - BAD_HANDLE\n\
    `\
    cluster start=1704067200000000000 queue=2 callbacks=8\n\
    log 1 init A.2.1\n\
    log 1 open system\n\
    settle\n\
    log 1 write system inv=0 flags=0 gen sev=6 class=0.0.0 user=\"u\" body=\"a\"\n\
    log 1 write system inv=0 flags=0 gen sev=6 class=0.0.0 user=\"u\" body=\"a\"\n\
    log 1 write system inv=0 flags=0 gen sev=6 class=0.0.0 user=\"u\" body=\"a\"\n\
    log 1 write system inv=0 flags=0 gen sev=6 class=0.0.0 user=\"u\" body=\"a\"\n\
    log 1 write system inv=0 flags=0 gen sev=6 class=0.0.0 user=\"u\" body=\"a\"\n\
    log 1 write system inv=0 flags=0 gen sev=6 class=0.0.0 user=\"u\" body=\"a\"\n\
    log 1 write system inv=0 flags=0 gen sev=6 class=0.0.0 user=\"u\" body=\"a\"\n\
    log 1 write system inv=0 flags=0 gen sev=6 class=0.0.0 user=\"u\" body=\"a\"\n\
    log 1 write system inv=0 flags=0 gen sev=6 class=0.0.0 user=\"u\" body=\"a\"\n\
    log 1 write system inv=0 flags=0 gen sev=6 class=0.0.0 user=\"u\" body=\"a\"\n\
    log 1 write system inv=0 flags=0 gen sev=6 class=0.0.0 user=\"u\" body=\"a\"\n\
    log 1 write system inv=0 flags=0 gen sev=6 class=0.0.0 user=\"u\" body=\"a\"\n\
    log 1 write system inv=0 flags=0 gen sev=6 class=0.0.0 user=\"u\" body=\"a\"\n\
    log 1 write system inv=0 flags=0 gen sev=6 class=0.0.0 user=\"u\" body=\"a\"\n\
    log 1 write system inv=0 flags=0 gen sev=6 class=0.0.0 user=\"u\" body=\"a\"\n\
    log 1 write system inv=0 flags=0 gen sev=6 class=0.0.0 user=\"u\" body=\"a\"\n\
    log 1 write system inv=0 flags=0 gen sev=6 class=0.0.0 user=\"u\" body=\"a\"\n\
    log 1 write system inv=0 flags=0 gen sev=6 class=0.0.0 user=\"u\" body=\"a\"\n\
    log 1 write system inv=0 flags=0 gen sev=6 class=0.0.0 user=\"u\" body=\"a\"\n\
    log 1 write system inv=0 flags=0 gen sev=6 class=0.0.0 user=\"u\" body=\"a\"\n\
    log 1 write system inv=0 flags=0 gen sev=6 class=0.0.0 user=\"u\" body=\"a\"\n\
    log 1 write system inv=0 flags=0 gen sev=6 class=0.0.0 user=\"u\" body=\"a\"\n\
    log 1 write system inv=0 flags=0 gen sev=6 class=0.0.0 user=\"u\" body=\"a\"\n\
    log 1 write system inv=0 flags=0 gen sev=6 class=0.0.0 user=\"u\" body=\"a\"\n\
    log 1 write system inv=0 flags=0 gen sev=6 class=0.0.0 user=\"u\" body=\"a\"\n\
    log 1 write system inv=0 flags=0 gen sev=6 class=0.0.0 user=\"u\" body=\"a\"\n\
    log 1 write system inv=0 flags=0 gen sev=6 class=0.0.0 user=\"u\" body=\"a\"\n\
    log 1 write system inv=0 flags=0 gen sev=6 class=0.0.0 user=\"u\" body=\"a\"\n\
    log 1 write system inv=0 flags=0 gen sev=6 class=0.0.0 user=\"u\" body=\"a\"\n\
    log 1 write system inv=0 flags=0 gen sev=6 class=0.0.0 user=\"u\" body=\"a\"\n\
    log 1 write system inv=0 flags=0 gen sev=6 class=0.0.0 user=\"u\" body=\"a\"\n\
    log 1 write system inv=0 flags=0 gen sev=6 class=0.0.0 user=\"u\" body=\"a\"\n\
    log 1 write system inv=0 flags=0 gen sev=6 class=0.0.0 user=\"u\" body=\"a\"\n\
    ^\
    post 1 req 1 1\n\
    post 2 req 1 2\n\
    acc 1 call 1 1 1704067200000000000\n\
    post 3 rep 1 1\n\
    reply 1 1 ok\n\
    acc 2 call 1 2 1704067200000000000\n\
    post 4 rep 1 2\n\
    reply 1 2 ok\n\
    post 5 req 1 3\n\
    post 6 req 1 4\n\
    post 7 req 1 5\n\
    post 8 req 1 6\n\
    post 9 req 1 7\n\
    post 10 req 1 8\n\
    post 11 req 1 9\n\
    post 12 req 1 10\n\
    post 13 req 1 11\n\
    post 14 req 1 12\n\
    post 15 req 1 13\n\
    post 16 req 1 14\n\
    post 17 req 1 15\n\
    post 18 req 1 16\n\
    post 19 req 1 17\n\
    post 20 req 1 18\n\
    post 21 req 1 19\n\
    post 22 req 1 20\n\
    post 23 req 1 21\n\
    post 24 req 1 22\n\
    post 25 req 1 23\n\
    post 26 req 1 24\n\
    post 27 req 1 25\n\
    post 28 req 1 26\n\
    post 29 req 1 27\n\
    post 30 req 1 28\n\
    post 31 req 1 29\n\
    post 32 req 1 30\n\
    post 33 req 1 31\n\
    post 34 req 1 32\n\
    post 35 req 1 33\n\
    post 36 req 1 34\n\
    reply 1 - TRY_AGAIN\n\
    `\
    cluster start=1704067200000000000 queue=2 callbacks=8\n\
    ntf 1 init A.1.1\n\
    ntf 1 subscribe 9 filter alarm\n\
    settle\n\
    ntf 2 init A.1.1\n\
    ntf 2 send alarm type=0x4001 obj=\"node1\" by=\"hw\" class=1.2.3 time=1704067200000000000 text=\"f\" cause=5 sev=4\n\
    ntf 2 send alarm type=0x4001 obj=\"node1\" by=\"hw\" class=1.2.3 time=1704067200000000000 text=\"f\" cause=5 sev=4\n\
    ntf 2 send alarm type=0x4001 obj=\"node1\" by=\"hw\" class=1.2.3 time=1704067200000000000 text=\"f\" cause=5 sev=4\n\
    ntf 2 send alarm type=0x4001 obj=\"node1\" by=\"hw\" class=1.2.3 time=1704067200000000000 text=\"f\" cause=5 sev=4\n\
    ntf 2 send alarm type=0x4001 obj=\"node1\" by=\"hw\" class=1.2.3 time=1704067200000000000 text=\"f\" cause=5 sev=4\n\
    settle\n\
    dispatch 1 all workers=1\n\
    ^\
    post 1 req 1 1\n\
    post 2 req 1 2\n\
    acc 1 call 1 1 1704067200000000000\n\
    post 3 rep 1 1\n\
    reply 1 1 ok\n\
    acc 2 call 1 2 1704067200000000000\n\
    post 4 rep 1 2\n\
    reply 1 2 ok\n\
    post 5 req 2 1\n\
    post 6 req 2 2\n\
    post 7 req 2 3\n\
    post 8 req 2 4\n\
    post 9 req 2 5\n\
    post 10 req 2 6\n\
    acc 3 call 2 1 1704067200000000000\n\
    post 11 rep 2 1\n\
    reply 2 1 ok\n\
    acc 4 call 2 2 1704067200000000000\n\
    post 12 rep 2 2\n\
    reply 2 2 ok id=1\n\
    acc 5 call 2 3 1704067200000000000\n\
    post 13 rep 2 3\n\
    reply 2 3 ok id=2\n\
    acc 6 call 2 4 1704067200000000000\n\
    post 14 rep 2 4\n\
    reply 2 4 ok id=3\n\
    acc 7 call 2 5 1704067200000000000\n\
    post 15 rep 2 5\n\
    reply 2 5 ok id=4\n\
    acc 8 call 2 6 1704067200000000000\n\
    post 16 rep 2 6\n\
    reply 2 6 ok id=5\n\
    post 17 item 1 2 1\n\
    post 18 item 1 2 2\n\
    post 19 rcpt 1 2 1\n\
    post 20 rcpt 1 2 2\n\
    acc 9 rcpt 1 2 2 1704067200000000000\n\
    post 21 item 1 2 3\n\
    post 22 rcpt 1 2 3\n\
    acc 10 rcpt 1 2 3 1704067200000000000\n\
    callback 1 1 ntf 9 alarm id=1 type=0x4001 obj=\"node1\" by=\"hw\" class=1.2.3 time=1704067200000000000 text=\"f\" cause=5 sev=4\n\
    callback 1 2 ntf 9 alarm id=2 type=0x4001 obj=\"node1\" by=\"hw\" class=1.2.3 time=1704067200000000000 text=\"f\" cause=5 sev=4\n\
    callback 1 3 lost 9 alarm count=3 ids=3,4,5\n\
    reply 1 - ok dispatched=3\n\
    `\
    cluster start=1704067200000000000 queue=2 callbacks=8\n\
    ntf 1 init A.1.1\n\
    ntf 1 send alarm type=0x4001 obj=\"node1\" by=\"hw\" class=1.2.3 time=100 text=\"x\" cause=5 sev=4\n\
    ntf 1 send alarm type=0x4001 obj=\"node1\" by=\"hw\" class=1.2.3 time=100 text=\"y\" cause=5 sev=4\n\
    ntf 1 reader mode=2 value=100 filter alarm\n\
    ntf 1 read 2\n\
    ntf 1 read 2\n\
    ntf 1 read 1\n\
    ntf 1 read 1\n\
    settle\n\
    ^\
    post 1 req 1 1\n\
    post 2 req 1 2\n\
    post 3 req 1 3\n\
    post 4 req 1 4\n\
    post 5 req 1 5\n\
    post 6 req 1 6\n\
    post 7 req 1 7\n\
    post 8 req 1 8\n\
    acc 1 call 1 1 1704067200000000000\n\
    post 9 rep 1 1\n\
    reply 1 1 ok\n\
    acc 2 call 1 2 1704067200000000000\n\
    post 10 rep 1 2\n\
    reply 1 2 ok id=1\n\
    acc 3 call 1 3 1704067200000000000\n\
    post 11 rep 1 3\n\
    reply 1 3 ok id=2\n\
    acc 4 call 1 4 1704067200000000000\n\
    post 12 rep 1 4\n\
    reply 1 4 ok\n\
    acc 5 call 1 5 1704067200000000000\n\
    post 13 rep 1 5\n\
    reply 1 5 ok alarm id=1 type=0x4001 obj=\"node1\" by=\"hw\" class=1.2.3 time=100 text=\"x\" cause=5 sev=4\n\
    acc 6 call 1 6 1704067200000000000\n\
    post 14 rep 1 6\n\
    reply 1 6 ok alarm id=2 type=0x4001 obj=\"node1\" by=\"hw\" class=1.2.3 time=100 text=\"y\" cause=5 sev=4\n\
    acc 7 call 1 7 1704067200000000000\n\
    post 15 rep 1 7\n\
    reply 1 7 ok alarm id=1 type=0x4001 obj=\"node1\" by=\"hw\" class=1.2.3 time=100 text=\"x\" cause=5 sev=4\n\
    acc 8 call 1 8 1704067200000000000\n\
    post 16 rep 1 8\n\
    reply 1 8 NOT_EXIST\n\
    `\
    cluster start=1704067200000000000 queue=2 callbacks=8 alarmrec=64 alarmmax=64 alarmfull=rotate alarmrot=1\n\
    ntf 1 init A.1.1\n\
    ntf 1 send alarm type=0x4001 obj=\"node1\" by=\"hw\" class=1.2.3 time=100 text=\"x\" cause=5 sev=4\n\
    ntf 1 reader mode=7 value=0 filter alarm\n\
    ntf 1 send alarm type=0x4001 obj=\"node1\" by=\"hw\" class=1.2.3 time=200 text=\"y\" cause=5 sev=4\n\
    ntf 1 read 1\n\
    ntf 1 read 2\n\
    settle\n\
    ^\
    post 1 req 1 1\n\
    post 2 req 1 2\n\
    post 3 req 1 3\n\
    post 4 req 1 4\n\
    post 5 req 1 5\n\
    post 6 req 1 6\n\
    acc 1 call 1 1 1704067200000000000\n\
    post 7 rep 1 1\n\
    reply 1 1 ok\n\
    acc 2 call 1 2 1704067200000000000\n\
    post 8 rep 1 2\n\
    reply 1 2 ok id=1\n\
    acc 3 call 1 3 1704067200000000000\n\
    post 9 rep 1 3\n\
    reply 1 3 ok\n\
    acc 4 call 1 4 1704067200000000000\n\
    post 10 rep 1 4\n\
    reply 1 4 ok id=2\n\
    acc 5 call 1 5 1704067200000000000\n\
    post 11 rep 1 5\n\
    reply 1 5 NOT_EXIST\n\
    acc 6 call 1 6 1704067200000000000\n\
    post 12 rep 1 6\n\
    reply 1 6 ok alarm id=2 type=0x4001 obj=\"node1\" by=\"hw\" class=1.2.3 time=200 text=\"y\" cause=5 sev=4\n\
    `\
    cluster start=1704067200000000000 queue=2 callbacks=16\n\
    log 1 init A.2.1\n\
    log 1 open system\n\
    log 1 write system inv=1 flags=1 gen sev=6 class=0.0.0 user=\"u\" body=\"x\"\n\
    log 1 write system inv=2 flags=1 gen sev=6 class=0.0.0 user=\"u\" body=\"x\"\n\
    log 1 write system inv=3 flags=1 gen sev=6 class=0.0.0 user=\"u\" body=\"x\"\n\
    log 1 write system inv=4 flags=1 gen sev=6 class=0.0.0 user=\"u\" body=\"x\"\n\
    log 1 write system inv=5 flags=1 gen sev=6 class=0.0.0 user=\"u\" body=\"x\"\n\
    log 1 write system inv=6 flags=1 gen sev=6 class=0.0.0 user=\"u\" body=\"x\"\n\
    log 1 write system inv=7 flags=1 gen sev=6 class=0.0.0 user=\"u\" body=\"x\"\n\
    log 1 write system inv=8 flags=1 gen sev=6 class=0.0.0 user=\"u\" body=\"x\"\n\
    log 1 write system inv=9 flags=1 gen sev=6 class=0.0.0 user=\"u\" body=\"x\"\n\
    settle\n\
    dispatch 1 one\n\
    dispatch 1 all workers=1\n\
    dispatch 1 all workers=1\n\
    ^\
    post 1 req 1 1\n\
    post 2 req 1 2\n\
    post 3 req 1 3\n\
    post 4 req 1 4\n\
    post 5 req 1 5\n\
    post 6 req 1 6\n\
    post 7 req 1 7\n\
    post 8 req 1 8\n\
    post 9 req 1 9\n\
    post 10 req 1 10\n\
    post 11 req 1 11\n\
    acc 1 call 1 1 1704067200000000000\n\
    post 12 rep 1 1\n\
    reply 1 1 ok\n\
    acc 2 call 1 2 1704067200000000000\n\
    post 13 rep 1 2\n\
    reply 1 2 ok\n\
    acc 3 call 1 3 1704067200000000000\n\
    post 14 rep 1 3\n\
    reply 1 3 ok\n\
    acc 4 call 1 4 1704067200000000000\n\
    post 15 rep 1 4\n\
    reply 1 4 ok\n\
    acc 5 call 1 5 1704067200000000000\n\
    post 16 rep 1 5\n\
    reply 1 5 ok\n\
    acc 6 call 1 6 1704067200000000000\n\
    post 17 rep 1 6\n\
    reply 1 6 ok\n\
    acc 7 call 1 7 1704067200000000000\n\
    post 18 rep 1 7\n\
    reply 1 7 ok\n\
    acc 8 call 1 8 1704067200000000000\n\
    post 19 rep 1 8\n\
    reply 1 8 ok\n\
    acc 9 call 1 9 1704067200000000000\n\
    post 20 rep 1 9\n\
    reply 1 9 ok\n\
    acc 10 call 1 10 1704067200000000000\n\
    post 21 rep 1 10\n\
    reply 1 10 ok\n\
    acc 11 call 1 11 1704067200000000000\n\
    post 22 rep 1 11\n\
    reply 1 11 ok\n\
    callback 1 1 write 1 ok\n\
    reply 1 - ok dispatched=1\n\
    callback 1 2 write 2 ok\n\
    callback 1 3 write 3 ok\n\
    callback 1 4 write 4 ok\n\
    callback 1 5 write 5 ok\n\
    callback 1 6 write 6 ok\n\
    callback 1 7 write 7 ok\n\
    callback 1 8 write 8 ok\n\
    callback 1 9 write 9 ok\n\
    reply 1 - ok dispatched=8\n\
    reply 1 - ok dispatched=0\n\
    `\
    cluster start=1704067200000000000 queue=2 callbacks=16\n\
    log 1 init A.2.1\n\
    log 1 open system\n\
    log 1 write system inv=1 flags=1 gen sev=6 class=0.0.0 user=\"u\" body=\"x\"\n\
    log 1 write system inv=2 flags=1 gen sev=6 class=0.0.0 user=\"u\" body=\"x\"\n\
    log 1 write system inv=3 flags=1 gen sev=6 class=0.0.0 user=\"u\" body=\"x\"\n\
    log 1 write system inv=4 flags=1 gen sev=6 class=0.0.0 user=\"u\" body=\"x\"\n\
    log 1 write system inv=5 flags=1 gen sev=6 class=0.0.0 user=\"u\" body=\"x\"\n\
    log 1 write system inv=6 flags=1 gen sev=6 class=0.0.0 user=\"u\" body=\"x\"\n\
    log 1 write system inv=7 flags=1 gen sev=6 class=0.0.0 user=\"u\" body=\"x\"\n\
    log 1 write system inv=8 flags=1 gen sev=6 class=0.0.0 user=\"u\" body=\"x\"\n\
    log 1 write system inv=9 flags=1 gen sev=6 class=0.0.0 user=\"u\" body=\"x\"\n\
    settle\n\
    dispatch 1 one\n\
    dispatch 1 all workers=4\n\
    dispatch 1 all workers=4\n\
    ^\
    post 1 req 1 1\n\
    post 2 req 1 2\n\
    post 3 req 1 3\n\
    post 4 req 1 4\n\
    post 5 req 1 5\n\
    post 6 req 1 6\n\
    post 7 req 1 7\n\
    post 8 req 1 8\n\
    post 9 req 1 9\n\
    post 10 req 1 10\n\
    post 11 req 1 11\n\
    acc 1 call 1 1 1704067200000000000\n\
    post 12 rep 1 1\n\
    reply 1 1 ok\n\
    acc 2 call 1 2 1704067200000000000\n\
    post 13 rep 1 2\n\
    reply 1 2 ok\n\
    acc 3 call 1 3 1704067200000000000\n\
    post 14 rep 1 3\n\
    reply 1 3 ok\n\
    acc 4 call 1 4 1704067200000000000\n\
    post 15 rep 1 4\n\
    reply 1 4 ok\n\
    acc 5 call 1 5 1704067200000000000\n\
    post 16 rep 1 5\n\
    reply 1 5 ok\n\
    acc 6 call 1 6 1704067200000000000\n\
    post 17 rep 1 6\n\
    reply 1 6 ok\n\
    acc 7 call 1 7 1704067200000000000\n\
    post 18 rep 1 7\n\
    reply 1 7 ok\n\
    acc 8 call 1 8 1704067200000000000\n\
    post 19 rep 1 8\n\
    reply 1 8 ok\n\
    acc 9 call 1 9 1704067200000000000\n\
    post 20 rep 1 9\n\
    reply 1 9 ok\n\
    acc 10 call 1 10 1704067200000000000\n\
    post 21 rep 1 10\n\
    reply 1 10 ok\n\
    acc 11 call 1 11 1704067200000000000\n\
    post 22 rep 1 11\n\
    reply 1 11 ok\n\
    callback 1 1 write 1 ok\n\
    reply 1 - ok dispatched=1\n\
    callback 1 2 write 2 ok\n\
    callback 1 3 write 3 ok\n\
    callback 1 4 write 4 ok\n\
    callback 1 5 write 5 ok\n\
    callback 1 6 write 6 ok\n\
    callback 1 7 write 7 ok\n\
    callback 1 8 write 8 ok\n\
    callback 1 9 write 9 ok\n\
    reply 1 - ok dispatched=8\n\
    reply 1 - ok dispatched=0\n\
    `\
    cluster start=0 queue=1 callbacks=1\
    ^\
    `\
    cluster start=1704067200000000000 queue=2 callbacks=8\n\
    log 1 init A.2.1\n\
    log 1 open system\n\
    log 1 open app:\"w\"\n\
    log 1 open app:\"w\" create file=\"app1\" path=\"web\" max=64 rec=32 ha=0 full=wrap rot=1 fmt=\"@Cb\"\n\
    log 1 open app:\"w\" create file=\"app1\" path=\"web\" max=64 rec=32 ha=0 full=wrap rot=2 fmt=\"@Cb\"\n\
    log 1 open system create file=\"s\" path=\".\" max=64 rec=32 ha=0 full=wrap rot=1\n\
    log 1 write app:\"w\" inv=1 flags=2 gen sev=6 class=0.0.0 user=\"u\" body=\"x\"\n\
    log 1 write app:\"w\" inv=1 flags=0 gen sev=7 class=0.0.0 user=\"u\" body=\"x\"\n\
    log 1 close app:\"w\"\n\
    log 1 close app:\"w\"\n\
    log 1 init A.2.0\n\
    settle\n\
    files\n\
    ^\
    post 1 req 1 1\n\
    post 2 req 1 2\n\
    post 3 req 1 3\n\
    post 4 req 1 4\n\
    post 5 req 1 5\n\
    post 6 req 1 6\n\
    post 7 req 1 7\n\
    post 8 req 1 8\n\
    post 9 req 1 9\n\
    post 10 req 1 10\n\
    post 11 req 1 11\n\
    acc 1 call 1 1 1704067200000000000\n\
    post 12 rep 1 1\n\
    reply 1 1 ok\n\
    acc 2 call 1 2 1704067200000000000\n\
    post 13 rep 1 2\n\
    reply 1 2 ok\n\
    acc 3 call 1 3 1704067200000000000\n\
    post 14 rep 1 3\n\
    reply 1 3 NOT_EXIST\n\
    acc 4 call 1 4 1704067200000000000\n\
    post 15 rep 1 4\n\
    reply 1 4 ok\n\
    acc 5 call 1 5 1704067200000000000\n\
    post 16 rep 1 5\n\
    reply 1 5 EXIST\n\
    acc 6 call 1 6 1704067200000000000\n\
    post 17 rep 1 6\n\
    reply 1 6 INVALID_PARAM\n\
    acc 7 call 1 7 1704067200000000000\n\
    post 18 rep 1 7\n\
    reply 1 7 BAD_FLAGS\n\
    acc 8 call 1 8 1704067200000000000\n\
    post 19 rep 1 8\n\
    reply 1 8 INVALID_PARAM\n\
    acc 9 call 1 9 1704067200000000000\n\
    post 20 rep 1 9\n\
    reply 1 9 ok\n\
    acc 10 call 1 10 1704067200000000000\n\
    post 21 rep 1 10\n\
    reply 1 10 BAD_HANDLE\n\
    acc 11 call 1 11 1704067200000000000\n\
    post 22 rep 1 11\n\
    reply 1 11 NO_RESOURCES\n\
    file saLogAlarm.cfg 156\n\
    file saLogAlarm_20240101_000000.log 0\n\
    file saLogNotification.cfg 163\n\
    file saLogNotification_20240101_000001.log 0\n\
    file saLogSystem.cfg 164\n\
    file saLogSystem_20240101_000002.log 0\n\
    file web/app1.cfg 118\n\
    file web/app1_20240101_000003_20240101_000004.log 0\n\
    `\
    cluster start=1704067200000000000 queue=2 callbacks=8\n\
    log 1 init B.1.1\n\
    ^\
    reply 1 - VERSION\n\
    `\
    cluster start=1704067200000000000 queue=2 callbacks=8\n\
    ntf 1 init A.1.1\n\
    ntf 1 subscribe 9 filter alarm\n\
    ntf 1 subscribe 9 filter alarm\n\
    ntf 1 unsubscribe 8\n\
    ntf 1 subscribe 10\n\
    ntf 1 endread\n\
    ntf 1 fini\n\
    settle\n\
    ntf 1 endread\n\
    ^\
    post 1 req 1 1\n\
    post 2 req 1 2\n\
    post 3 req 1 3\n\
    post 4 req 1 4\n\
    post 5 req 1 5\n\
    post 6 req 1 6\n\
    post 7 req 1 7\n\
    acc 1 call 1 1 1704067200000000000\n\
    post 8 rep 1 1\n\
    reply 1 1 ok\n\
    acc 2 call 1 2 1704067200000000000\n\
    post 9 rep 1 2\n\
    reply 1 2 ok\n\
    acc 3 call 1 3 1704067200000000000\n\
    post 10 rep 1 3\n\
    reply 1 3 EXIST\n\
    acc 4 call 1 4 1704067200000000000\n\
    post 11 rep 1 4\n\
    reply 1 4 NOT_EXIST\n\
    acc 5 call 1 5 1704067200000000000\n\
    post 12 rep 1 5\n\
    reply 1 5 INVALID_PARAM\n\
    acc 6 call 1 6 1704067200000000000\n\
    post 13 rep 1 6\n\
    reply 1 6 BAD_HANDLE\n\
    acc 7 call 1 7 1704067200000000000\n\
    post 14 rep 1 7\n\
    reply 1 7 ok\n\
    reply 1 - BAD_HANDLE\n\
    `\
    cluster start=1704067200000000000 queue=1 callbacks=1\n\
    crash b\n\
    servers\n\
    mirror\n\
    ack\n\
    work\n\
    deliver 1\n\
    log 1 init A.2.1\n\
    log 1 open system\n\
    deliver 2\n\
    deliver 1\n\
    deliver 2\n\
    push\n\
    work\n\
    deliver 1\n\
    deliver 3\n\
    deliver 3\n\
    time 1704067201000000000\n\
    resend 1\n\
    work\n\
    log 1 write system inv=1 flags=1 gen sev=6 class=0.0.0 user=\"u\" body=\"x\"\n\
    log 1 write system inv=2 flags=1 gen sev=6 class=0.0.0 user=\"u\" body=\"y\"\n\
    settle\n\
    deliver 8\n\
    dispatch 1 one\n\
    deliver 8\n\
    dispatch 2 one\n\
    dispatch 1 all workers=2\n\
    cat \"x\\x07\"\n\
    cat \"saLogSystem_20240101_000002.log\"\n\
    ^\
    server b down\n\
    server a active\n\
    server b down\n\
    refused mirror a=active b=down net=0 link=0 back=0 hand=-\n\
    refused ack a=active b=down net=0 link=0 back=0 hand=-\n\
    refused work a=active b=down net=0 link=0 back=0 hand=-\n\
    refused deliver 1 a=active b=down net=0 link=0 back=0 hand=-\n\
    post 1 req 1 1\n\
    post 2 req 1 2\n\
    ignored 2 ahead\n\
    acc 1 call 1 1 1704067200000000000\n\
    ignored 2 busy 1\n\
    refused push a=active b=down net=2 link=0 back=0 hand=1\n\
    post 3 rep 1 1\n\
    reply 1 1 ok\n\
    ignored 3 answered\n\
    acc 2 call 1 2 1704067201000000000\n\
    post 4 rep 1 2\n\
    post 5 req 1 3\n\
    post 6 req 1 4\n\
    reply 1 2 ok\n\
    acc 3 call 1 3 1704067201000000000\n\
    post 7 rep 1 3\n\
    reply 1 3 ok\n\
    acc 4 call 1 4 1704067201000000000\n\
    post 8 rep 1 4\n\
    ignored 8 left\n\
    callback 1 1 write 1 ok\n\
    reply 1 - ok dispatched=1\n\
    reply 1 4 ok\n\
    reply 2 - BAD_HANDLE\n\
    callback 1 2 write 2 ok\n\
    reply 1 - ok dispatched=1\n\
    refused cat \"x\\x07\" a=active b=down net=8 link=0 back=0 hand=-\n\
    text          1 00:00:01 01/01/2024 IN u \"x\"\n\
    text          2 00:00:01 01/01/2024 IN u \"y\"\n\
    `\
    cluster start=1704067200000000000 queue=2 callbacks=1\n\
    crash b\n\
    ntf 1 init A.1.1\n\
    ntf 1 subscribe 9 filter alarm\n\
    settle\n\
    ntf 1 send alarm type=0x4001 obj=\"node1\" by=\"hw\" class=1.2.3 time=100 text=\"f\" cause=5 sev=4\n\
    ntf 1 send alarm type=0x4001 obj=\"node1\" by=\"hw\" class=1.2.3 time=100 text=\"g\" cause=5 sev=4\n\
    resend 1\n\
    work\n\
    deliver 6\n\
    work\n\
    push\n\
    deliver 10\n\
    deliver 9\n\
    deliver 9\n\
    deliver 10\n\
    deliver 11\n\
    deliver 11\n\
    work\n\
    resend 1\n\
    dispatch 1 one\n\
    deliver 10\n\
    ntf 1 unsubscribe 9\n\
    deliver 10\n\
    resend 1\n\
    deliver 12\n\
    work\n\
    deliver 12\n\
    push\n\
    settle\n\
    dispatch 1 all workers=1\n\
    ^\
    server b down\n\
    post 1 req 1 1\n\
    post 2 req 1 2\n\
    acc 1 call 1 1 1704067200000000000\n\
    post 3 rep 1 1\n\
    reply 1 1 ok\n\
    acc 2 call 1 2 1704067200000000000\n\
    post 4 rep 1 2\n\
    reply 1 2 ok\n\
    post 5 req 1 3\n\
    post 6 req 1 4\n\
    acc 3 call 1 3 1704067200000000000\n\
    ignored 6 busy 3\n\
    post 7 rep 1 3\n\
    acc 4 call 1 4 1704067200000000000\n\
    post 8 rep 1 4\n\
    post 9 item 1 2 1\n\
    post 10 item 1 2 2\n\
    ignored 10 ahead\n\
    post 11 rcpt 1 2 1\n\
    ignored 9 taken\n\
    ignored 10 left\n\
    acc 5 rcpt 1 2 1 1704067200000000000\n\
    ignored 11 busy 5\n\
    ignored 11 done\n\
    callback 1 1 ntf 9 alarm id=1 type=0x4001 obj=\"node1\" by=\"hw\" class=1.2.3 time=100 text=\"f\" cause=5 sev=4\n\
    reply 1 - ok dispatched=1\n\
    post 12 rcpt 1 2 2\n\
    post 13 req 1 5\n\
    ignored 10 gone\n\
    acc 6 call 1 5 1704067200000000000\n\
    ignored 12 busy 6\n\
    post 14 rep 1 5\n\
    ignored 12 done\n\
    reply 1 3 ok id=1\n\
    reply 1 4 ok id=2\n\
    reply 1 5 ok\n\
    callback 1 2 ntf 9 alarm id=2 type=0x4001 obj=\"node1\" by=\"hw\" class=1.2.3 time=100 text=\"g\" cause=5 sev=4\n\
    reply 1 - ok dispatched=1\n\
    `\
    cluster start=0 queue=2 callbacks=8\nntf 1 init A.1.1\nntf 1 subscribe 9 filter alarm\nsettle\nntf 2 init A.1.1\n\
    ntf 2 send alarm type=0x4001 obj=\"o\" by=\"n\" class=0.0.0 time=0 text=\"\" cause=5 sev=4\n\
    ntf 2 send alarm type=0x4001 obj=\"o\" by=\"n\" class=0.0.0 time=0 text=\"\" cause=5 sev=4\n\
    ntf 2 send alarm type=0x4001 obj=\"o\" by=\"n\" class=0.0.0 time=0 text=\"\" cause=5 sev=4\n\
    settle\ndispatch 1 all workers=1\nntf 1 unsubscribe 9\nsettle\n\
    ntf 2 send alarm type=0x4001 obj=\"o\" by=\"n\" class=0.0.0 time=0 text=\"\" cause=5 sev=4\n\
    settle\ndispatch 1 all workers=1\n\
    ^\
    post 1 req 1 1\npost 2 req 1 2\nacc 1 call 1 1 0\npost 3 rep 1 1\nreply 1 1 ok\nacc 2 call 1 2 0\n\
    post 4 rep 1 2\nreply 1 2 ok\npost 5 req 2 1\npost 6 req 2 2\npost 7 req 2 3\npost 8 req 2 4\n\
    acc 3 call 2 1 0\npost 9 rep 2 1\nreply 2 1 ok\nacc 4 call 2 2 0\npost 10 rep 2 2\n\
    reply 2 2 ok id=1\nacc 5 call 2 3 0\npost 11 rep 2 3\nreply 2 3 ok id=2\nacc 6 call 2 4 0\n\
    post 12 rep 2 4\nreply 2 4 ok id=3\npost 13 item 1 2 1\npost 14 item 1 2 2\n\
    post 15 rcpt 1 2 1\npost 16 rcpt 1 2 2\nacc 7 rcpt 1 2 2 0\npost 17 item 1 2 3\n\
    post 18 rcpt 1 2 3\nacc 8 rcpt 1 2 3 0\n\
    callback 1 1 ntf 9 alarm id=1 type=0x4001 obj=\"o\" by=\"n\" class=0.0.0 time=0 text=\"\" cause=5 sev=4\n\
    callback 1 2 ntf 9 alarm id=2 type=0x4001 obj=\"o\" by=\"n\" class=0.0.0 time=0 text=\"\" cause=5 sev=4\n\
    callback 1 3 lost 9 alarm count=1 ids=3\nreply 1 - ok dispatched=3\npost 19 req 1 3\n\
    acc 9 call 1 3 0\npost 20 rep 1 3\nreply 1 3 ok\npost 21 req 2 5\nacc 10 call 2 5 0\n\
    post 22 rep 2 5\nreply 2 5 ok id=4\nreply 1 - ok dispatched=0\n\
    `\
    cluster start=0 queue=1 callbacks=1\nntf 1 init A.1.1\nsettle\nntf 1 endread\n\
    ntf 1 endread\nntf 1 endread\nntf 1 endread\nntf 1 endread\nntf 1 endread\nntf 1 endread\n\
    ntf 1 endread\nntf 1 endread\nntf 1 endread\nntf 1 endread\nntf 1 endread\nntf 1 endread\n\
    ntf 1 endread\nntf 1 endread\nntf 1 endread\nntf 1 endread\nntf 1 endread\nntf 1 endread\n\
    ntf 1 endread\nntf 1 endread\nntf 1 endread\nntf 1 endread\nntf 1 endread\nntf 1 endread\n\
    ntf 1 endread\nntf 1 endread\nntf 1 endread\nntf 1 endread\nntf 1 endread\nntf 1 endread\n\
    ntf 1 endread\nsettle\ndeliver 1\ndeliver 3\n\
    ^\
    post 1 req 1 1\nacc 1 call 1 1 0\npost 2 rep 1 1\nreply 1 1 ok\npost 3 req 1 2\n\
    post 4 req 1 3\npost 5 req 1 4\npost 6 req 1 5\npost 7 req 1 6\npost 8 req 1 7\n\
    post 9 req 1 8\npost 10 req 1 9\npost 11 req 1 10\npost 12 req 1 11\npost 13 req 1 12\n\
    post 14 req 1 13\npost 15 req 1 14\npost 16 req 1 15\npost 17 req 1 16\npost 18 req 1 17\n\
    post 19 req 1 18\npost 20 req 1 19\npost 21 req 1 20\npost 22 req 1 21\npost 23 req 1 22\n\
    post 24 req 1 23\npost 25 req 1 24\npost 26 req 1 25\npost 27 req 1 26\npost 28 req 1 27\n\
    post 29 req 1 28\npost 30 req 1 29\npost 31 req 1 30\npost 32 req 1 31\npost 33 req 1 32\n\
    post 34 req 1 33\nacc 2 call 1 2 0\npost 35 rep 1 2\nreply 1 2 BAD_HANDLE\n\
    acc 3 call 1 3 0\npost 36 rep 1 3\nreply 1 3 BAD_HANDLE\nacc 4 call 1 4 0\n\
    post 37 rep 1 4\nreply 1 4 BAD_HANDLE\nacc 5 call 1 5 0\npost 38 rep 1 5\n\
    reply 1 5 BAD_HANDLE\nacc 6 call 1 6 0\npost 39 rep 1 6\nreply 1 6 BAD_HANDLE\n\
    acc 7 call 1 7 0\npost 40 rep 1 7\nreply 1 7 BAD_HANDLE\nacc 8 call 1 8 0\n\
    post 41 rep 1 8\nreply 1 8 BAD_HANDLE\nacc 9 call 1 9 0\npost 42 rep 1 9\n\
    reply 1 9 BAD_HANDLE\nacc 10 call 1 10 0\npost 43 rep 1 10\nreply 1 10 BAD_HANDLE\n\
    acc 11 call 1 11 0\npost 44 rep 1 11\nreply 1 11 BAD_HANDLE\nacc 12 call 1 12 0\n\
    post 45 rep 1 12\nreply 1 12 BAD_HANDLE\nacc 13 call 1 13 0\npost 46 rep 1 13\n\
    reply 1 13 BAD_HANDLE\nacc 14 call 1 14 0\npost 47 rep 1 14\nreply 1 14 BAD_HANDLE\n\
    acc 15 call 1 15 0\npost 48 rep 1 15\nreply 1 15 BAD_HANDLE\nacc 16 call 1 16 0\n\
    post 49 rep 1 16\nreply 1 16 BAD_HANDLE\nacc 17 call 1 17 0\npost 50 rep 1 17\n\
    reply 1 17 BAD_HANDLE\nacc 18 call 1 18 0\npost 51 rep 1 18\nreply 1 18 BAD_HANDLE\n\
    acc 19 call 1 19 0\npost 52 rep 1 19\nreply 1 19 BAD_HANDLE\nacc 20 call 1 20 0\n\
    post 53 rep 1 20\nreply 1 20 BAD_HANDLE\nacc 21 call 1 21 0\npost 54 rep 1 21\n\
    reply 1 21 BAD_HANDLE\nacc 22 call 1 22 0\npost 55 rep 1 22\nreply 1 22 BAD_HANDLE\n\
    acc 23 call 1 23 0\npost 56 rep 1 23\nreply 1 23 BAD_HANDLE\nacc 24 call 1 24 0\n\
    post 57 rep 1 24\nreply 1 24 BAD_HANDLE\nacc 25 call 1 25 0\npost 58 rep 1 25\n\
    reply 1 25 BAD_HANDLE\nacc 26 call 1 26 0\npost 59 rep 1 26\nreply 1 26 BAD_HANDLE\n\
    acc 27 call 1 27 0\npost 60 rep 1 27\nreply 1 27 BAD_HANDLE\nacc 28 call 1 28 0\n\
    post 61 rep 1 28\nreply 1 28 BAD_HANDLE\nacc 29 call 1 29 0\npost 62 rep 1 29\n\
    reply 1 29 BAD_HANDLE\nacc 30 call 1 30 0\npost 63 rep 1 30\nreply 1 30 BAD_HANDLE\n\
    acc 31 call 1 31 0\npost 64 rep 1 31\nreply 1 31 BAD_HANDLE\nacc 32 call 1 32 0\n\
    post 65 rep 1 32\nreply 1 32 BAD_HANDLE\nacc 33 call 1 33 0\npost 66 rep 1 33\n\
    reply 1 33 BAD_HANDLE\nignored 1 old\n\
    `\
    cluster start=1704067200000000000 queue=2 callbacks=8\n\
    inject \"\\x09\"\ndeliver 1\n\
    inject \"\\x01\\x00\\x01\\x00\\x00\\x00\\x01\\x01\"\n\
    ^\
    post 1 raw 1\nignored 1 bad 0 value\n\
    refused inject \"\\x01\\x00\\x01\\x00\\x00\\x00\\x01\\x01\" a=active b=standby net=1 link=0 back=0 hand=-\n\
    `\
    cluster start=1704067200000000000 queue=2 callbacks=8\n\
    inject \"\"\ndeliver 1\n\
    ^\
    post 1 raw 0\nignored 1 bad 0 short\n";
