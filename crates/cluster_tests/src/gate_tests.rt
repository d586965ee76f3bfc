//! The workers of a dispatch pass the gate that is handed to its line.
ghost use Rattle.cluster_rounds.specs.Worlds.{HasStateOn, any_state};
ghost use Rattle.group_servers.specs.GroupKit.{group_kit};

use crate::lines_tests::{begin, let_cluster_go, plays, plays_by};
use crate::mirror_tests::{START, default_wells, new_disk};
use ais_values::{ClassId, Name, Text, Version, Which};
use callback_dispatch::Gate;
use calls::{Ask, Call};
use cluster_rounds::Cluster;
use disk_model::SharedDisk;
use group_servers::Group;
use record_print::Header;
use script_lines::Line;
use std::alloc::Global;
use std::process::Abort;
use std::sync::Wait;
use std::sync::atomic::AtomicU32;
use std::sync::atomic::Ordering::SeqCst;
use std::thread::Threads;
use stream_config::StreamName;

/// Notes each worker that passes, by a bit of its number.
#[derive(Drop)]
struct Noting {
    passed: AtomicU32,
}

impl Gate for Noting {
    fn hold(&self, worker: u32) {
        self.passed.fetch_add(1u32.wrapping_shl(worker), SeqCst);
    }
}

/// A record is written, and its writer is told.
fn write(rt: &impl Abort, alloc: Global) -> Call {
    let header = Header::Generic {
        class: ClassId {
            vendor: 1,
            major: 2,
            minor: 3,
        },
        user: Name::new(alloc, b"u").expect(rt, "a name"),
        severity: 6,
    };
    Call::LogWrite {
        stream: StreamName::System,
        invocation: 7,
        flags: 1,
        time: START,
        header,
        body: Text::new(alloc, b"a").expect(rt, "a text"),
    }
}

/// Client 1 writes a record: then one callback waits for it.
fn writes<R: Abort + Threads + Wait + Sync, D: SharedDisk>(
    rt: &R,
    alloc: Global,
    cluster: &mut Cluster<Group<2>>,
    disk: &mut D,
)
    requires { HasStateOn (group_kit 2) any_state cluster.old (D.seen disk.old) }
    ensures { HasStateOn (group_kit 2) any_state cluster.new (D.seen disk.new) }
{
    let version = Version {
        release: 65,
        major: 2,
        minor: 1,
    };
    let ask = Ask::Start {
        service: Which::Log,
        version,
    };
    plays(rt, alloc, cluster, disk, Line::Log { client: 1, ask }, 1);
    let call = Call::LogOpen {
        stream: StreamName::System,
        create: None,
    };
    let ask = Ask::Plain { call };
    plays(rt, alloc, cluster, disk, Line::Log { client: 1, ask }, 1);
    let ask = Ask::Plain {
        call: write(rt, alloc),
    };
    plays(rt, alloc, cluster, disk, Line::Log { client: 1, ask }, 1);
    plays(rt, alloc, cluster, disk, Line::Settle, 9);
}

/// Client 1 hands out all that waits, by eight workers: so many lines are printed.
fn dispatches<R: Abort + Threads + Wait + Sync, D: SharedDisk>(
    rt: &R,
    alloc: Global,
    cluster: &mut Cluster<Group<2>>,
    disk: &mut D,
    gate: &Noting,
    count: usize,
)
    requires { HasStateOn (group_kit 2) any_state cluster.old (D.seen disk.old) }
    ensures { HasStateOn (group_kit 2) any_state cluster.new (D.seen disk.new) }
{
    let line = Line::DispatchAll {
        client: 1,
        workers: 8,
    };
    plays_by(rt, alloc, cluster, disk, line, gate, count);
}

#[test]
fn each_worker_passes_its_gate_where_something_waits(rt: HostRuntime) {
    let alloc = rt.alloc();
    let wells = default_wells(&rt, alloc);
    let mut disk = new_disk(alloc);
    let (mut cluster, deeds) = begin(alloc, START, 4, 4, wells, &disk).expect(&rt, "memory");
    drop(deeds);
    writes(&rt, alloc, &mut cluster, &mut disk);
    let gate = Noting {
        passed: AtomicU32::new(0),
    };
    dispatches(&rt, alloc, &mut cluster, &mut disk, &gate, 2);
    assert!(rt; gate.passed.load(SeqCst) == 255);
    dispatches(&rt, alloc, &mut cluster, &mut disk, &gate, 1);
    assert!(rt; gate.passed.load(SeqCst) == 255);
    drop(disk);
    let_cluster_go(cluster);
}
