//! The workers of a dispatch pass the gate that a run is given.
use super::{Narrow, behind_cluster, parted};
use crate::run;
use callback_dispatch::Gate;
use cluster_core::World;
use command_journal::ColdWorld;
use disk_model::{MemDisk, SharedDisk};
use io_edge::{MemSink, MemSource};
use spare_server::TrioWorld;
use std::alloc::Global;
use std::process::Abort;
use std::sync::Wait;
use std::sync::atomic::AtomicU32;
use std::sync::atomic::Ordering::SeqCst;
use std::thread::Threads;

/// Notes each worker that passes, by a bit of its number.
#[derive(Drop)]
struct Noting {
    passed: AtomicU32,
}

impl Gate for Noting {
    fn hold(&self, worker: u32) {
        self.passed.fetch_add(1u32.wrapping_shl(worker), SeqCst);
    }
}

/// The workers that pass as so many hand out the callback of a write, which comes where the write's flags ask for it.
fn passing<R: Abort + Threads + Wait + Sync>(
    rt: &R,
    alloc: Global,
    flags: u32,
    workers: u32,
) -> u32 {
    let front = "log 1 init A.2.1\nlog 1 open system\nlog 1 write system inv=7 flags=";
    let write = " gen sev=6 class=0.0.0 user=\"u\" body=\"a\"\nsettle\ndispatch 1 all workers=";
    let rest = format!(in alloc; "{front}{flags}{write}{workers}\n").expect(rt, "memory");
    let mut source = MemSource::new(behind_cluster(rt, alloc, &rest), Vec::new(alloc));
    let mut out = Narrow {
        inner: MemSink::new(alloc, Vec::new(alloc)),
    };
    let mut disk = MemDisk::new(alloc, Vec::new(alloc), Vec::new(alloc), Vec::new(alloc));
    disk.disarm();
    let mut journal = MemDisk::new(alloc, Vec::new(alloc), Vec::new(alloc), Vec::new(alloc));
    let words = parted(rt, alloc, "run");
    let mut world = World::empty(alloc);
    let mut cold = ColdWorld::empty(alloc);
    let mut trio = TrioWorld::empty(alloc);
    let gate = Noting {
        passed: AtomicU32::new(0),
    };
    let status = run(
        rt,
        alloc,
        words.as_slice(),
        &mut source,
        &mut out,
        &mut disk,
        &mut journal,
        &gate,
        &mut world,
        &mut cold,
        &mut trio,
    );
    world.end();
    cold.end();
    trio.end();
    assert!(rt; status.code() == 0);
    gate.passed.load(SeqCst)
}

#[test]
fn each_worker_of_a_run_passes_its_gate_where_something_waits(rt: HostRuntime) {
    let alloc = rt.alloc();
    assert!(rt; passing(&rt, alloc, 0, 8) == 0);
    assert!(rt; passing(&rt, alloc, 1, 8) == 255);
    assert!(rt; passing(&rt, alloc, 1, 1) == 1);
}
