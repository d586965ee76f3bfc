//! Scripts for three servers with what they print, takeovers that fail, and a world that is taken apart.
use crate::trio_rows::{ARMED, PLAYED, STOPPED};
use callback_dispatch::OpenGate;
use disk_model::{MemDisk, SharedDisk};
use io_edge::MemSink;
use mirror::Role;
use spare_server::TrioWorld;
use std::alloc::Global;
use std::process::Abort;
use std::sync::Wait;
use std::thread::Threads;
use trio_lines::parse_trio;
use trio_runs::{law_of_trio_scripts, play_trio};

/// The numbers of calls as a list.
fn calls(rt: &impl Abort, alloc: Global, numbers: &[u64]) -> Vec<u64> {
    numbers.to_vec(alloc).expect(rt, "memory")
}

/// The status with which a script ends over a disk in which the changing calls of these numbers fail; 99 where it is no script.
fn plays<R: Abort + Threads + Wait + Sync>(
    rt: &R,
    alloc: Global,
    text: &[u8],
    failing: &[u64],
    out: &mut MemSink,
) -> u8 {
    if text.len() > 10_000 {
        return 99;
    }
    match parse_trio(alloc, text) {
        Ok(lines) => {
            law_of_trio_scripts();
            let failing = calls(rt, alloc, failing);
            let mut disk = MemDisk::new(alloc, failing, Vec::new(alloc), Vec::new(alloc));
            // A run begins on a disk that is not armed.
            disk.disarm();
            let mut world = TrioWorld::empty(alloc);
            let status = play_trio(rt, alloc, lines, out, &mut disk, &OpenGate, &mut world);
            world.end();
            status.code()
        }
        Err(_) => 99,
    }
}

/// A script ends with this status and prints this text.
fn prints<R: Abort + Threads + Wait + Sync>(
    rt: &R,
    alloc: Global,
    text: &[u8],
    failing: &[u64],
    ends: u8,
    printed: &[u8],
) {
    let mut out = MemSink::new(alloc, calls(rt, alloc, &[]));
    let status = plays(rt, alloc, text, failing, &mut out);
    assert!(rt; status == ends, "{status}");
    assert!(rt; out.written() == printed, "another text");
    drop(out);
}

/// The text before a mark and the one behind it.
fn parts<'a>(rt: &impl Abort, text: &'a str) -> (&'a str, &'a str) {
    text.split_once('^').expect(rt, "a mark")
}

/// Texts one behind the other.
fn joined(rt: &impl Abort, alloc: Global, texts: &[&str]) -> Vec<u8> {
    let mut all = Vec::new(alloc);
    for text in texts {
        all.extend_from_slice(text.as_bytes()).expect(rt, "memory");
    }
    all
}

#[test]
fn servers_fall_and_join_and_others_serve(rt: HostRuntime) {
    let alloc = rt.alloc();
    for row in PLAYED.split('`') {
        let (script, printed) = parts(&rt, row);
        prints(&rt, alloc, script.as_bytes(), &[], 0, printed.as_bytes());
    }
}

/// The active server stops at a call of its work, and these calls of the disk fail behind it. What is told of the servers then, and whether
/// one is left to go on.
fn stops<R: Abort + Threads + Wait + Sync>(
    rt: &R,
    alloc: Global,
    call: &str,
    failing: &[u64],
    goes: &str,
    serves: bool,
) {
    let (before, behind) = parts(rt, ARMED);
    let (first, last) = parts(rt, STOPPED);
    let script = joined(rt, alloc, &[before, call, behind]);
    let printed = joined(rt, alloc, &[first, goes, if serves { last } else { "" }]);
    let ends = if serves { 0 } else { 6 };
    prints(
        rt,
        alloc,
        script.as_slice(),
        failing,
        ends,
        printed.as_slice(),
    );
    drop(script);
    drop(printed);
}

/// The calls of the work, and which calls of the disk they are.
const CALLS: [(&str, u64); 5] = [("1", 20), ("2", 21), ("3", 22), ("4", 23), ("5", 24)];

#[test]
fn the_active_server_stops_at_each_call(rt: HostRuntime) {
    let alloc = rt.alloc();
    for (call, _) in CALLS {
        stops(&rt, alloc, call, &[], "server b active\n", true);
    }
}

#[test]
fn the_first_takeover_fails_at_each_call(rt: HostRuntime) {
    let alloc = rt.alloc();
    let goes = "server b down\nserver c active\n";
    for (call, number) in CALLS {
        for first in 1..6 {
            stops(
                &rt,
                alloc,
                call,
                &[number.saturating_add(first)],
                goes,
                true,
            );
        }
    }
}

#[test]
fn both_takeovers_fail_at_each_call(rt: HostRuntime) {
    let alloc = rt.alloc();
    let goes = "server b down\nserver c down\ndisk fault\n";
    for (call, number) in CALLS {
        for first in 1..6 {
            let failed = number.saturating_add(first);
            for second in 1..6 {
                let failing = [failed, failed.saturating_add(second)];
                stops(&rt, alloc, call, &failing, goes, false);
            }
        }
    }
}

#[test]
fn a_world_is_taken_apart(rt: HostRuntime) {
    let TrioWorld {
        a,
        b,
        c,
        link_a,
        link_b,
        link_c,
        back_a,
        back_b,
        back_c,
        net,
        agents,
        history,
        now,
        armed,
        callbacks,
    } = TrioWorld::empty(rt.alloc());
    assert!(rt;
        a.role() == Role::Down && b.role() == Role::Down && c.role() == Role::Down,
        "roles"
    );
    assert!(rt;
        link_a.as_slice().len() == 0
            && link_b.as_slice().len() == 0
            && link_c.as_slice().len() == 0,
        "links"
    );
    assert!(rt;
        back_a.as_slice().len() == 0
            && back_b.as_slice().len() == 0
            && back_c.as_slice().len() == 0,
        "ways back"
    );
    assert!(rt;
        net.len() == 0 && agents.as_slice().len() == 0 && history.len() == 0,
        "clients"
    );
    assert!(rt; now == 0 && !armed && callbacks == 0, "numbers");
}
