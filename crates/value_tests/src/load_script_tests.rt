//! The script of a large run: whole texts, and the sink failing at each of its calls.
use io_edge::{MemSink, SinkAnswer};
use load_script::write_script;
use std::alloc::Global;
use std::process::Abort;

const TWO_TURNS: &str = "\
cluster start=1704067200000000000 queue=2 callbacks=256
log 1 init A.2.1
log 1 open system
ntf 2 init A.1.1
settle
log 1 write system inv=1 flags=0 gen sev=3 class=0.0.0 user=\"g\" body=\"16838\"
log 1 write system inv=2 flags=0 gen sev=4 class=0.0.0 user=\"g\" body=\"5758\"
settle
servers
";

/// The end of 2,000 turns from the greatest seed on.
const LAST_TURNS: &str = "\
log 1 write system inv=1999 flags=0 gen sev=5 class=0.0.0 user=\"g\" body=\"17694\"
ntf 2 send alarm type=0x4001 obj=\"g\" by=\"g\" class=0.0.0 time=28429 text=\"t\" cause=0 sev=1
settle
crash b
restart b
settle
settle
servers
";

/// The script of so many turns.
fn script(rt: &impl Abort, alloc: Global, turns: u32, seed: u64) -> MemSink {
    let mut out = MemSink::new(alloc, Vec::new(alloc));
    write_script(alloc, turns, seed, &mut out).expect(rt, "memory");
    out
}

#[test]
fn scripts_of_loads_are_written(rt: HostRuntime) {
    let two = script(&rt, rt.alloc(), 2, 1);
    assert!(rt; two.written() == TWO_TURNS.as_bytes());
    drop(two);
    let many = script(&rt, rt.alloc(), 2_000, u64::MAX);
    assert!(rt; many.written().len() == 161_353);
    assert!(rt; many.written().ends_with(LAST_TURNS.as_bytes()));
    drop(many);
}

#[test]
fn each_write_fails_in_turn(rt: HostRuntime) {
    let alloc = rt.alloc();
    for failing in [1, 2, 3, 4] {
        let failing = [failing].to_vec(alloc).expect(&rt, "memory");
        let mut out = MemSink::new(alloc, failing);
        let written = write_script(alloc, 2, 1, &mut out);
        assert!(rt; written == Err(SinkAnswer::Failed));
        assert!(rt; TWO_TURNS.as_bytes().starts_with(out.written()));
        drop(out);
    }
}
