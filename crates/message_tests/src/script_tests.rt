//! What no clause says: that calls succeed while there is memory, and that the clauses mean the written language.
use ais_values::{Seq, StreamKind};
use calls::{Ask, Call};
use script::*;
use std::alloc::{AllocError, Global};
use std::process::Abort;

const CLUSTER: &str = "cluster start=10 queue=1 callbacks=256\n";

/// A line of each form, as each is written.
const FORMS: &str =
    "cluster start=1 queue=2 callbacks=8 alarmfmt=\"@Cr\" alarmrec=32 alarmmax=64 alarmfull=wrap alarmrot=1 \
    ntfrec=40 sysrec=0 sysmax=16384 sysfull=halt sysrot=128\n\
    time 1\nlog 1 init A.2.1\nlog 2 open alarm\nlog 3 open notification\nlog 4 open system\nlog 5 open app:\"safApp=web\"\n\
    log 6 open app:\"b\" create file=\"f\" path=\".\" max=18446744073709551615 rec=4294967295 ha=255 full=rotate rot=4294967295\n\
    log 7 open app:\"b\" create file=\"\" path=\"\" max=0 rec=0 ha=0 full=halt rot=0 fmt=\"@Cb\"\n\
    log 1 write system inv=7 flags=1 gen sev=6 class=1.2.3 user=\"safApp=web\" body=\"service started\"\n\
    log 1 write alarm inv=18446744073709551615 flags=4294967295 time=-5 ntfh id=9 type=0x4001 obj=\"o\" by=\"n\" \
    class=4294967295.65535.65535 evtime=9223372036854775807 body=\"\\x00\"\n\
    log 1 write alarm inv=0 flags=0 ntfh id=0 type=0xffff obj=\"o\" by=\"n\" class=0.0.0 body=\"\"\n\
    log 8 close app:\"b\"\nlog 1 filter system mask=127\nlog 2 filter app:\"a b\" mask=0\nlog 4096 fini\nntf 1 init Z.255.0\n\
    ntf 1 send objects type=0x1001 obj=\"o\" by=\"n\" class=1.2.3 time=0 corr=1,18446744073709551615 text=\"t\" \
    info=0:int:-1,65535:name:\"a b\" source=65535 attrs=1:text:\"\",2:bin:\"\\xff\"\n\
    ntf 1 send attributes type=0x2003 obj=\"o\" by=\"n\" class=1.2.3 text=\"\" source=1 changes=1:int:2<int:-9223372036854775808,2:int:0\n\
    ntf 1 send states type=0x3001 obj=\"o\" by=\"n\" class=1.2.3 text=\"\" source=3 changes=1:2<3,4:5\n\
    ntf 1 send alarm type=0x4001 obj=\"o\" by=\"n\" class=1.2.3 text=\"\\\"\\\\\" cause=1 sev=2\n\
    ntf 1 send security type=0x5001 obj=\"o\" by=\"n\" class=1.2.3 text=\"\" cause=1 sev=2 detector=int:1 user=name:\"u\" provider=text:\"p\"\n\
    ntf 1 subscribe 4294967295\n\
    ntf 1 subscribe 1 filter objects types=0x1001,0x1002 objs=\"a\",\"b\" bys=\"c\" classes=1.2.3,4.5.6 sources=1,2 causes=3 sevs=4,5 \
    filter attributes filter states sources=1 filter alarm sevs=5 filter security causes=65535\n\
    ntf 1 unsubscribe 0\nntf 1 reader mode=7 value=-1 filter alarm\nntf 1 read 2\nntf 1 endread\nntf 1 fini\n\
    deliver 3\nresend 4096\nmirror\nack\nwork\npush\ninject \"\"\ninject \"\\x09\"\nsettle\ncrash a\narm b 12\ndisarm\nrestart b\ndispatch 7 one\n\
    dispatch 8 all workers=4\nservers\nfiles\ncat \"a\\\"b\\\\c \\x00\\x7f\\xff~\"\n";

/// Lines, and behind `>` how each is written again.
const SPELLINGS: &str = "\
    cat \"\\x41\">cat \"A\"\n\
    inject \"\\x01\\x7e\\x22\\x5c\\x7f\\x00\">inject \"\\x01~\\\"\\\\\\x7f\\x00\"\n\
    log 1 filter app:\"\\x61\" mask=8>log 1 filter app:\"a\" mask=8\n\
    ntf 1 reader mode=0 value=-0>ntf 1 reader mode=0 value=0\n\
    log 1 open app:\"\\x61\" create file=\"f\" path=\".\" max=1 rec=1 ha=0 full=wrap rot=1 \
    fmt=\"@Cr @Ch:@Cn:@Cs @Cm/@Cd/@CY @Sv @Sl \\\"@Cb\\\"\"\
    >log 1 open app:\"a\" create file=\"f\" path=\".\" max=1 rec=1 ha=0 full=wrap rot=1\n\
    log 1 write system inv=1 flags=0 time=-9223372036854775808 gen sev=1 class=1.1.1 user=\"u\" body=\"\"\
    >log 1 write system inv=1 flags=0 gen sev=1 class=1.1.1 user=\"u\" body=\"\"";

/// Lines with `#` for a number, the greatest number that may stand there, and the one above, parted by `|`.
const GREATEST: &str = "\
    time #|9000000000000000000|9000000000000000001\n\
    deliver #|18446744073709551615|18446744073709551616\n\
    resend #|4096|4097\n\
    arm b #|18446744073709551615|18446744073709551616\n\
    dispatch # one|4096|4097\n\
    dispatch 1 all workers=#|8|9\n\
    log # fini|4096|4097\n\
    log 1 init A.#.1|255|256\n\
    log 1 init A.1.#|255|256\n\
    log 1 open app:\"b\" create file=\"f\" path=\".\" max=# rec=1 ha=0 full=wrap rot=1|18446744073709551615|18446744073709551616\n\
    log 1 open app:\"b\" create file=\"f\" path=\".\" max=1 rec=# ha=0 full=wrap rot=1|4294967295|4294967296\n\
    log 1 open app:\"b\" create file=\"f\" path=\".\" max=1 rec=1 ha=# full=wrap rot=1|255|256\n\
    log 1 open app:\"b\" create file=\"f\" path=\".\" max=1 rec=1 ha=0 full=wrap rot=#|4294967295|4294967296\n\
    log 1 write system inv=# flags=0 gen sev=1 class=1.1.1 user=\"u\" body=\"\"|18446744073709551615|18446744073709551616\n\
    log 1 write system inv=1 flags=# gen sev=1 class=1.1.1 user=\"u\" body=\"\"|4294967295|4294967296\n\
    log 1 write system inv=1 flags=0 time=# gen sev=1 class=1.1.1 user=\"u\" body=\"\"|9223372036854775807|9223372036854775808\n\
    log 1 write system inv=1 flags=0 gen sev=# class=1.1.1 user=\"u\" body=\"\"|65535|65536\n\
    log 1 write system inv=1 flags=0 gen sev=1 class=#.1.1 user=\"u\" body=\"\"|4294967295|4294967296\n\
    log 1 write system inv=1 flags=0 gen sev=1 class=1.#.1 user=\"u\" body=\"\"|65535|65536\n\
    log 1 write system inv=1 flags=0 gen sev=1 class=1.1.# user=\"u\" body=\"\"|65535|65536\n\
    log 1 write alarm inv=1 flags=0 ntfh id=# type=0x4001 obj=\"o\" by=\"n\" class=0.0.0 body=\"\"|18446744073709551615|18446744073709551616\n\
    log 1 filter system mask=#|4294967295|4294967296\n\
    ntf 1 send alarm type=0x4001 obj=\"o\" by=\"n\" class=1.2.3 corr=# text=\"\" cause=1 sev=2|18446744073709551615|18446744073709551616\n\
    ntf 1 send alarm type=0x4001 obj=\"o\" by=\"n\" class=1.2.3 text=\"\" info=#:int:1 cause=1 sev=2|65535|65536\n\
    ntf 1 send alarm type=0x4001 obj=\"o\" by=\"n\" class=1.2.3 text=\"\" info=1:int:# cause=1 sev=2|9223372036854775807|9223372036854775808\n\
    ntf 1 send alarm type=0x4001 obj=\"o\" by=\"n\" class=1.2.3 text=\"\" cause=# sev=2|65535|65536\n\
    ntf 1 send alarm type=0x4001 obj=\"o\" by=\"n\" class=1.2.3 text=\"\" cause=1 sev=#|65535|65536\n\
    ntf 1 send states type=0x3001 obj=\"o\" by=\"n\" class=1.2.3 text=\"\" source=# changes=1:2|65535|65536\n\
    ntf 1 send states type=0x3001 obj=\"o\" by=\"n\" class=1.2.3 text=\"\" source=1 changes=1:2<#|65535|65536\n\
    ntf 1 subscribe #|4294967295|4294967296\n\
    ntf 1 subscribe 1 filter alarm sevs=#|65535|65536\n\
    ntf 1 unsubscribe #|4294967295|4294967296\n\
    ntf 1 reader mode=# value=1|4294967295|4294967296\n\
    ntf 1 reader mode=1 value=#|9223372036854775807|9223372036854775808\n\
    ntf 1 reader mode=1 value=#|-9223372036854775808|-9223372036854775809\n\
    ntf 1 read #|4294967295|4294967296";

/// Lines that have none of the forms.
const FORMLESS: &str = "\
    time -1\n\
    time 010\n\
    time 10 \n\
    time 5x\n\
    deliver 0\n\
    resend 0\n\
    arm a\n\
    arm c 1\n\
    crash  a\n\
    crash ab\n\
    dispatch 1 two\n\
    dispatch 1 all workers=0\n\
    mirror \n \
    mirror\n\
    mirror\r\n \n\
    Mirror\n\
    cat \"a\n\
    cat \"\\xFF\"\n\
    inject\n\
    inject \n \
    inject \"a\"\n\
    inject  \"a\"\n\
    inject \"a\" \n\
    inject \"a\n\
    inject \"a\"\"\n\
    inject \"\\x9\"\n\
    inject \"\\x0A\"\n\
    inject \"\t\"\n\
    inject 09\n\
    log 0 fini\n\
    log 1  fini\n\
    log 1 fini \n\
    log 1 init a.2.1\n\
    log 1 init A.2\n\
    log 1 open app:\"\"\n\
    log 1 open alarm create file=\"f\"\n\
    log 1 write system flags=0 inv=1 gen sev=1 class=1.1.1 user=\"u\" body=\"\"\n\
    log 1 write system inv=1 flags=0 gen sev=1 class=1.1 user=\"u\" body=\"\"\n\
    log 1 write system inv=1 flags=0 gen sev=1 class=1.1.1.1 user=\"u\" body=\"\"\n\
    log 1 write system inv=1 flags=0 gen sev=1 class=1.1.1 user=\"u\" body=\"x\n\
    log 1 write system inv=1 flags=0 gen sev=1 class=1.1.1 user=\"u\" body=\"\\x0A\"\n\
    log 1 filter system\n\
    log 1 filter mask=1\n\
    log 1 filter system mask=\n\
    log 1 filter system mask=08\n\
    log 1 filter system mask=-1\n\
    log 1 filter system mask=8 \n\
    log 1 filter system  mask=8\n\
    log 1 filter web mask=8\n\
    log 1 filter app:web mask=8\n\
    ntf 1 filter system mask=8\n\
    ntf 1 send alarm type=0x401 obj=\"o\" by=\"n\" class=1.2.3 text=\"\" cause=1 sev=2\n\
    ntf 1 send alarm type=0x4001 obj=\"o\" by=\"n\" class=1.2.3 corr= text=\"\" cause=1 sev=2\n\
    ntf 1 send alarm type=0x4001 obj=\"o\" by=\"n\" class=1.2.3 text=\"\" corr=1 cause=1 sev=2\n\
    ntf 1 send objects type=0x1001 obj=\"o\" by=\"n\" class=1.2.3 text=\"\" source=1 attrs=1:real:2\n\
    ntf 1 subscribe 1 filter alarm filter alarm\n\
    ntf 1 subscribe 1 filter alarm filter objects\n\
    ntf 1 subscribe 1 filter alarm sevs=\n\
    ntf 1 read -1\n\
    cluster start=1 queue=0 callbacks=1\n\
    cluster start=1 queue=257 callbacks=1\n\
    cluster start=1 queue=1 callbacks=257\n\
    cluster start=9000000000000000001 queue=1 callbacks=1\n\
    cluster start=1 queue=1 callbacks=1 sysrec=31\n\
    cluster start=1 queue=1 callbacks=1 sysrot=0\n\
    cluster start=1 queue=1 callbacks=1 sysfmt=\"@Nt\"\n\
    cluster start=1 queue=1 callbacks=1 sysrot=2 sysrec=32\n\
    cluster start=1 queue=1 callbacks=1 sysrec=32 alarmrec=32";

/// Scripts, and behind `>` the least bad line of each with its reason, parted by `;`.
const BAD_SCRIPTS: &str = "\
    >1 cluster;\
    \n>2 cluster;\
    #\n\n>3 cluster;\
    #\nmirror\nx\n>2 cluster;\
    x\nmirror\n>1 grammar;\
    \n\nx\ny\n>3 grammar;\
    log 1 fini\n>1 cluster;\
    cluster start=1 queue=1 callbacks=1\ntime 3\n\ntime 2\nx\n>4 time;\
    cluster start=1 queue=1 callbacks=1\ncluster start=1 queue=1 callbacks=1\n>2 cluster;\
    cluster start=1 queue=1 callbacks=1\r\n>1 grammar;\
    cluster start=0 queue=1 callbacks=1 sysrec=0 sysfull=wrap\n>1 grammar;\
    cluster start=0 queue=1 callbacks=1 sysrec=0 sysmax=16383\n>1 grammar";

fn parsed(rt: &impl Abort, alloc: Global, text: &[u8]) -> Result<Seq<Line>, ScriptAnswer> {
    assert!(rt; text.len() <= 1_000_000);
    parse_script(alloc, text)
}

/// The bad line and why.
pub fn told_by(rt: &impl Abort, alloc: Global, answer: ScriptAnswer) -> String {
    let told = match answer {
        ScriptAnswer::Memory => Err(AllocError),
        ScriptAnswer::Bad { line, why } => format!(in alloc; "{line} {why}"),
    };
    told.expect(rt, "memory")
}

/// What is told of these bytes: the number of their lines, or the bad one and why.
fn told(rt: &impl Abort, alloc: Global, text: &[u8]) -> String {
    assert!(rt; text.len() <= 1_000_000);
    match count_lines(alloc, text) {
        Ok(count) => format!(in alloc; "{count}").expect(rt, "memory"),
        Err(answer) => told_by(rt, alloc, answer),
    }
}

#[test]
fn each_form_is_written_and_read(rt: HostRuntime) {
    let alloc = rt.alloc();
    match parsed(&rt, alloc, FORMS.as_bytes()) {
        Ok(lines) => {
            let written = print_script(alloc, &lines).expect(&rt, "memory");
            drop(lines);
            assert!(rt; written.as_slice() == FORMS.as_bytes());
        }
        Err(answer) => assert!(rt; false, "{answer:?}"),
    }
    assert!(rt; told(&rt, alloc, FORMS.as_bytes()).as_str() == "47");
}

/// The second of two lines as it is written, or nothing where there are not two.
fn second_written(rt: &impl Abort, alloc: Global, lines: &Seq<Line>) -> Vec<u8> {
    match lines.as_slice() {
        [_, read] => print_line(alloc, read).expect(rt, "memory"),
        _ => Vec::new(alloc),
    }
}

// The line of a row is read, and written as the row says.
fn written_so(rt: &impl Abort, alloc: Global, row: &str) {
    let (line, written) = row.split_once('>').expect(rt, "a row has two lines");
    let text = format!(in alloc; "{CLUSTER}{line}").expect(rt, "memory");
    match parsed(rt, alloc, text.as_bytes()) {
        Ok(lines) => {
            let again = second_written(rt, alloc, &lines);
            drop(lines);
            assert!(rt; again.as_slice() == written.as_bytes(), "{line}");
        }
        Err(answer) => assert!(rt; false, "{line}: {answer:?}"),
    }
}

#[test]
fn other_spellings_are_read(rt: HostRuntime) {
    let alloc = rt.alloc();
    for row in SPELLINGS.split('\n') {
        written_so(&rt, alloc, row);
    }
}

// Of the line with this number behind a cluster line this is told.
fn tells(rt: &impl Abort, alloc: Global, line: &str, number: &str, wanted: &str) {
    let (front, rest) = line.split_once('#').expect(rt, "a line has a place");
    let text = format!(in alloc; "{CLUSTER}{front}{number}{rest}").expect(rt, "memory");
    assert!(rt;
        told(rt, alloc, text.as_bytes()).as_str() == wanted,
        "{line} {number}"
    );
}

#[test]
fn numbers_up_to_the_greatest_are_read(rt: HostRuntime) {
    let alloc = rt.alloc();
    for row in GREATEST.split('\n') {
        let (line, numbers) = row.split_once('|').expect(&rt, "a row has a line");
        let (greatest, above) = numbers.split_once('|').expect(&rt, "a row has two numbers");
        tells(&rt, alloc, line, greatest, "2");
        tells(&rt, alloc, line, above, "2 grammar");
    }
}

// The line is refused behind a cluster line.
fn refused(rt: &impl Abort, alloc: Global, line: &str) {
    let text = format!(in alloc; "{CLUSTER}{line}").expect(rt, "memory");
    assert!(rt;
        told(rt, alloc, text.as_bytes()).as_str() == "2 grammar",
        "{line}"
    );
}

#[test]
fn lines_of_no_form_are_refused(rt: HostRuntime) {
    let alloc = rt.alloc();
    for line in FORMLESS.split('\n') {
        refused(&rt, alloc, line);
    }
}

// The script of a row is refused as the row says, by both readers.
fn refused_so(rt: &impl Abort, alloc: Global, row: &str) {
    let (text, wanted) = row.split_once('>').expect(rt, "a row has a reason");
    assert!(rt;
        told(rt, alloc, text.as_bytes()).as_str() == wanted,
        "{text}"
    );
    match parsed(rt, alloc, text.as_bytes()) {
        Ok(lines) => {
            drop(lines);
            assert!(rt; false, "{text}");
        }
        Err(answer) => assert!(rt; told_by(rt, alloc, answer).as_str() == wanted, "{text}"),
    }
}

#[test]
fn the_least_bad_line_is_told(rt: HostRuntime) {
    let alloc = rt.alloc();
    for row in BAD_SCRIPTS.split(';') {
        refused_so(&rt, alloc, row);
    }
}

// Behind this word a text of so many bytes is read, or refused.
fn text_of(rt: &impl Abort, alloc: Global, word: &str, length: usize, wanted: &str) {
    let mut text = CLUSTER.as_bytes().to_vec(alloc).expect(rt, "memory");
    text.extend_from_slice(word.as_bytes()).expect(rt, "memory");
    text.extend_from_slice(b" \"\\xff").expect(rt, "memory");
    for _ in 1..length {
        text.push(b'x').expect(rt, "memory");
    }
    text.push(b'"').expect(rt, "memory");
    assert!(rt; told(rt, alloc, text.as_slice()).as_str() == wanted);
}

#[test]
fn a_text_has_at_most_16384_bytes(rt: HostRuntime) {
    let alloc = rt.alloc();
    for word in ["cat", "inject"] {
        text_of(&rt, alloc, word, 16_384, "2");
        text_of(&rt, alloc, word, 16_385, "2 grammar");
    }
}

/// The byte strings that the lines put into the net, one behind the other.
fn injected(rt: &impl Abort, alloc: Global, lines: &Seq<Line>) -> Vec<u8> {
    let mut all = Vec::new(alloc);
    for line in lines.as_slice() {
        if let Line::Inject { bytes } = line {
            all.extend_from_slice(bytes.as_slice()).expect(rt, "memory");
        }
    }
    all
}

#[test]
fn every_byte_can_be_spelled(rt: HostRuntime) {
    let alloc = rt.alloc();
    let mut text = CLUSTER.as_bytes().to_vec(alloc).expect(&rt, "memory");
    let mut wanted = Vec::new(alloc);
    for byte in 0..=u8::MAX {
        let line = format!(in alloc; "inject \"\\x{byte:02x}\"\n").expect(&rt, "memory");
        text.extend_from_slice(line.as_bytes())
            .expect(&rt, "memory");
        wanted.push(byte).expect(&rt, "memory");
    }
    match parsed(&rt, alloc, text.as_slice()) {
        Ok(lines) => {
            let all = injected(&rt, alloc, &lines);
            drop(lines);
            assert!(rt; all.as_slice() == wanted.as_slice());
        }
        Err(answer) => assert!(rt; false, "{answer:?}"),
    }
}

/// The notification that the second of two lines sends, as it is shown, or nothing where there is none.
fn second_shown(rt: &impl Abort, alloc: Global, lines: &Seq<Line>) -> Vec<u8> {
    match lines.as_slice() {
        [
            _,
            Line::Ntf {
                ask: Ask::Plain {
                    call: Call::NtfSend { notification },
                },
                ..
            },
        ] => print_note(alloc, notification.get()).expect(rt, "memory"),
        _ => Vec::new(alloc),
    }
}

#[test]
fn a_notification_is_shown_with_its_id_and_time(rt: HostRuntime) {
    let alloc = rt.alloc();
    let sent = b"cluster start=10 queue=1 callbacks=256\n\
        ntf 1 send states type=0x3001 obj=\"o\" by=\"n\" class=1.2.3 text=\"t\" source=3 changes=1:2<3";
    match parsed(&rt, alloc, sent) {
        Ok(lines) => {
            let words = second_shown(&rt, alloc, &lines);
            drop(lines);
            let wanted =
                b"states id=0 type=0x3001 obj=\"o\" by=\"n\" class=1.2.3 time=-9223372036854775808 \
                text=\"t\" source=3 changes=1:2<3";
            assert!(rt; words.as_slice() == wanted.as_slice());
        }
        Err(answer) => assert!(rt; false, "{answer:?}"),
    }
}

#[test]
fn options_stand_before_defaults(rt: HostRuntime) {
    let alloc = rt.alloc();
    let options = WellOptions {
        fmt: None,
        rec: Some(64),
        max: None,
        full: None,
        rot: Some(9),
    };
    let attrs = well_attrs(alloc, StreamKind::Alarm, &options).expect(&rt, "memory");
    assert!(rt; attrs.record_size == 64 && attrs.rotated == 9 && attrs.max_file == 262_144);
    assert!(rt; attrs.file.as_slice() == b"saLogAlarm".as_slice());
    drop(attrs);
}
