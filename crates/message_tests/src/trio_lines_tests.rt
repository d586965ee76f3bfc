//! What no clause says of scripts for three servers: that calls succeed while there is memory, and that the clauses mean the written
//! language.
use crate::script_tests::told_by;
use ais_values::Seq;
use script::count_lines;
use std::alloc::Global;
use std::process::Abort;
use trio_lines::{TrioLine, parse_trio, put_trio_line};

/// Scripts that are written as they are read, and behind `>` how many of their lines two servers have, too, parted by `;`.
const SCRIPTS: &str = "\
    cluster start=1704067200000000000 queue=2 callbacks=8 sysfmt=\"@Cr @Cb\"\nlog 1 init A.2.1\nlog 1 open system\n\
    log 1 write system inv=0 flags=0 gen sev=6 class=0.0.0 user=\"u\" body=\"a\"\nsettle\ncrash a\ncrash b\n\
    log 1 write system inv=0 flags=0 gen sev=6 class=0.0.0 user=\"u\" body=\"b\"\nsettle\nservers\nfiles\n>11;\
    cluster start=1704067200000000000 queue=2 callbacks=8\ncrash b\narm a 5\ncrash c\n>3;\
    cluster start=1 queue=2 callbacks=8\ncrash c\narm c 1\narm c 18446744073709551615\nrestart c\nmirror a\nmirror b\nmirror c\n\
    ack a\nack b\nack c\n>1;\
    cluster start=1 queue=2 callbacks=8\nmirror\nmirror a\nack\nack a\ncrash a\narm b 7\nrestart b\ndisarm\ncrash c\nsettle\n>8";

/// Scripts with skipped lines, or without the last LF, and behind `>` how their lines are written.
const SPELLINGS: &str = "\
    #\n\ncluster start=1 queue=2 callbacks=8\n# crash c\ncrash c\n\n#\n>cluster start=1 queue=2 callbacks=8\ncrash c\n;\
    cluster start=1 queue=2 callbacks=8\narm c 12>cluster start=1 queue=2 callbacks=8\narm c 12\n;\
    cluster start=1 queue=2 callbacks=8\ncat \"\\x41\"\nack c>cluster start=1 queue=2 callbacks=8\ncat \"A\"\nack c\n";

/// Scripts, and behind `>` the least bad line of each with its reason, parted by `;`.
const BAD_SCRIPTS: &str = "\
    crash c\ncluster start=1704067200000000000 queue=2 callbacks=8\n>1 cluster;\
    crash c\n>1 cluster;\
    #\n\nmirror a\nx\n>3 cluster;\
    x\ncrash c\n>1 grammar;\
    time 1\nack b\n>1 cluster;\
    >1 cluster;\
    #\n>2 cluster;\
    cluster start=1 queue=2 callbacks=8\ncrash c\nrestart c\nx\n>4 grammar;\
    cluster start=1 queue=2 callbacks=8\ncrash c\ncluster start=1 queue=2 callbacks=8\n>3 cluster;\
    cluster start=1 queue=2 callbacks=8\ntime 9\nmirror c\ntime 8\n>4 time;\
    cluster start=0 queue=1 callbacks=1 sysrec=0 sysfull=wrap\ncrash c\n>1 grammar";

/// Lines that have none of the forms.
const FORMLESS: &str = "\
    crash d\n\
    crash C\n\
    crash c \n \
    crash c\n\
    crash  c\n\
    crash cc\n\
    crash c\r\n\
    arm c\n\
    arm c \n\
    arm c 0\n\
    arm c 01\n\
    arm c -1\n\
    arm c 1 \n\
    arm c 18446744073709551616\n\
    arm d 1\n\
    restart\n\
    restart cb\n\
    mirror \n\
    mirror d\n\
    mirror ab\n\
    mirror  a\n\
    ack \n\
    ack d\n\
    ack c1\n\
    Ack c";

/// The lines as they are written, each with its LF.
fn written(rt: &impl Abort, alloc: Global, lines: &Seq<TrioLine>) -> Vec<u8> {
    let mut out = Vec::new(alloc);
    for line in lines.as_slice() {
        put_trio_line(&mut out, line).expect(rt, "memory");
        out.push(b'\n').expect(rt, "memory");
    }
    out
}

/// How many of the lines two servers have, too.
fn shared_count(lines: &Seq<TrioLine>) -> usize {
    let mut count = 0usize;
    for line in lines.as_slice() {
        if line.shared().is_some() && count < 1_000 {
            count += 1;
        }
    }
    count
}

// A script is read, is written so, and so many of its lines two servers have, too.
fn read_so(rt: &impl Abort, alloc: Global, text: &str, again: &str, shared: Option<&str>) {
    assert!(rt; text.len() <= 1_000_000);
    match parse_trio(alloc, text.as_bytes()) {
        Ok(lines) => {
            let out = written(rt, alloc, &lines);
            let count = format!(in alloc; "{}", shared_count(&lines)).expect(rt, "memory");
            drop(lines);
            assert!(rt; out.as_slice() == again.as_bytes(), "{text}");
            match shared {
                Some(wanted) => assert!(rt; count.as_str() == wanted, "{text}"),
                None => {}
            }
        }
        Err(answer) => assert!(rt; false, "{text}: {answer:?}"),
    }
}

#[test]
fn scripts_of_three_servers_are_written_as_they_are_read(rt: HostRuntime) {
    let alloc = rt.alloc();
    for row in SCRIPTS.split(';') {
        let (text, count) = row.split_once('>').expect(&rt, "a row has a count");
        read_so(&rt, alloc, text, text, Some(count));
    }
    for row in SPELLINGS.split(';') {
        let (text, again) = row.split_once('>').expect(&rt, "a row has two scripts");
        read_so(&rt, alloc, text, again, None);
    }
}

// The script is refused so.
fn refused_so(rt: &impl Abort, alloc: Global, text: &str, wanted: &str) {
    assert!(rt; text.len() <= 1_000_000);
    match parse_trio(alloc, text.as_bytes()) {
        Ok(lines) => {
            drop(lines);
            assert!(rt; false, "{text}");
        }
        Err(answer) => assert!(rt; told_by(rt, alloc, answer).as_str() == wanted, "{text}"),
    }
}

#[test]
fn the_least_bad_line_of_three_servers_is_told(rt: HostRuntime) {
    let alloc = rt.alloc();
    for row in BAD_SCRIPTS.split(';') {
        let (text, wanted) = row.split_once('>').expect(&rt, "a row has a reason");
        refused_so(&rt, alloc, text, wanted);
    }
    for line in FORMLESS.split('\n') {
        let text = format!(in alloc; "cluster start=1 queue=2 callbacks=8\n{line}").expect(
            &rt, "memory",
        );
        refused_so(&rt, alloc, text.as_str(), "2 grammar");
    }
}

// Two servers have none of the own lines.
#[test]
fn two_servers_have_no_line_of_the_third(rt: HostRuntime) {
    let alloc = rt.alloc();
    for line in ["crash c", "arm c 1", "restart c", "mirror a", "ack b"] {
        let text = format!(in alloc; "cluster start=1 queue=2 callbacks=8\n{line}").expect(
            &rt, "memory",
        );
        assert!(rt; text.len() <= 1_000_000);
        match count_lines(alloc, text.as_bytes()) {
            Ok(_) => assert!(rt; false, "{line}"),
            Err(answer) => assert!(rt;
                told_by(&rt, alloc, answer).as_str() == "2 grammar",
                "{line}"
            ),
        }
    }
}
