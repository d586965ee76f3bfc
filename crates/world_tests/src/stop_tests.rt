//! A server that stops in its journal or its records and comes back, and a world that is taken apart.
use crate::playing::{new_disk, prints};
use crate::rows::{
    ACCEPTED, ACTIVE, ANSWERED, DOWN, NONE, ONE, OPENED, POSTED, RECORD, REPLIED, SHOWS,
};
use calls::let_history_go;
use client_agent::let_agents_go;
use command_journal::{ColdWorld, Journal};
use mirror::{Role, let_node_go};
use std::alloc::Global;
use std::process::Abort;
use std::sync::Wait;
use std::thread::Threads;
use wire::let_messages_go;

/// A script over two disks with these torn bytes prints these texts.
fn plays<R: Abort + Threads + Wait + Sync>(
    rt: &R,
    alloc: Global,
    torn: &[u8],
    script: &[&str],
    texts: &[&str],
) {
    let mut disk = new_disk(rt, alloc, 0, 0, torn);
    let mut journal = new_disk(rt, alloc, 0, 0, torn);
    prints(rt, alloc, script, &mut disk, &mut journal, 0, texts, "");
    drop(disk);
    drop(journal);
}

#[test]
fn a_request_that_is_delivered_again_is_a_repeat_or_waits(rt: HostRuntime) {
    let alloc = rt.alloc();
    let again = "deliver 5\narm b 3\nmirror\nrestart a\nresend 1\ndeliver 6\nfiles\n";
    let script = [OPENED, again];
    // The torn byte is an open gate: the entry is found.
    let found = [POSTED, DOWN, ACCEPTED, ACTIVE, ANSWERED, REPLIED, ONE];
    plays(&rt, alloc, b"\x01", &script, &found);
    let refused = "refused deliver 6 a=active b=journal net=5 link=1 back=0 hand=3\n";
    plays(
        &rt,
        alloc,
        b"",
        &script,
        &[POSTED, DOWN, ACTIVE, refused, NONE],
    );
}

/// The journal's disk stops in a call of the append of the third entry, which is found in the journal then or not.
fn append_stops<R: Abort + Threads + Wait + Sync>(
    rt: &R,
    alloc: Global,
    torn: &[u8],
    call: &str,
    is_found: bool,
) {
    let stops = "deliver 5\narm b ";
    let back = "\nmirror\nrestart a\nresend 1\nsettle\n";
    let script = [OPENED, stops, call, back, SHOWS];
    if is_found {
        let found = [
            POSTED, DOWN, ACCEPTED, ACTIVE, ANSWERED, REPLIED, ONE, RECORD,
        ];
        plays(rt, alloc, torn, &script, &found);
    } else {
        let lost = [
            POSTED, DOWN, ACTIVE, ACCEPTED, ANSWERED, REPLIED, ONE, RECORD,
        ];
        plays(rt, alloc, torn, &script, &lost);
    }
}

#[test]
fn an_append_that_stops_leaves_the_entry_or_not(rt: HostRuntime) {
    let alloc = rt.alloc();
    let tears: [&[u8]; 7] = [
        b"",
        b"\x00",
        b"\x01",
        b"\x02",
        b"\xff",
        b"\x00\x01",
        b"\x01\x00",
    ];
    for torn in tears {
        // The third call writes the gate and the fourth one makes it durable: it is open where the torn byte is.
        let opens = torn.first() == Some(&1);
        for (call, found) in [("1", false), ("2", false), ("3", opens), ("4", opens)] {
            append_stops(&rt, alloc, torn, call, found);
        }
    }
}

#[test]
fn a_work_that_stops_is_done_again(rt: HostRuntime) {
    let alloc = rt.alloc();
    let tears: [&[u8]; 4] = [b"", b"\x01", b"7", b"\x00\xff"];
    for torn in tears {
        for call in ["1", "2"] {
            let worked = "deliver 5\nmirror\nack\narm a ";
            let back = "\nwork\nrestart a\nresend 1\nsettle\n";
            let script = [OPENED, worked, call, back, SHOWS];
            let texts = [
                POSTED, ACCEPTED, DOWN, ACTIVE, ANSWERED, REPLIED, ONE, RECORD,
            ];
            plays(&rt, alloc, torn, &script, &texts);
        }
    }
}

#[test]
fn a_server_comes_back_three_times_with_nothing_between(rt: HostRuntime) {
    let alloc = rt.alloc();
    let again = "crash a\nrestart a\n";
    let script = [OPENED, "settle\n", again, again, again, "servers\n", SHOWS];
    let texts = [
        POSTED,
        ACCEPTED,
        ANSWERED,
        REPLIED,
        DOWN,
        ACTIVE,
        DOWN,
        ACTIVE,
        DOWN,
        ACTIVE,
        ACTIVE,
        "server b journal\n",
        ONE,
        RECORD,
    ];
    plays(&rt, alloc, b"", &script, &texts);
}

#[test]
fn lines_are_refused_or_ignored_while_the_server_is_down(rt: HostRuntime) {
    let alloc = rt.alloc();
    let asked = "mirror\nack\nwork\npush\nsettle\ncrash a\narm a 1\narm b 1\nrestart b\n";
    let sent = "deliver 5\nresend 1\nservers\ndisarm\n";
    let script = [
        OPENED,
        "deliver 5\ncrash a\n",
        asked,
        sent,
        "restart a\nservers\n",
    ];
    let refused = "\
        refused mirror a=down b=journal net=5 link=0 back=0 hand=-\n\
        refused ack a=down b=journal net=5 link=0 back=0 hand=-\n\
        refused work a=down b=journal net=5 link=0 back=0 hand=-\n\
        refused push a=down b=journal net=5 link=0 back=0 hand=-\n\
        refused settle a=down b=journal net=5 link=0 back=0 hand=-\n\
        refused crash a a=down b=journal net=5 link=0 back=0 hand=-\n\
        refused arm a 1 a=down b=journal net=5 link=0 back=0 hand=-\n\
        refused arm b 1 a=down b=journal net=5 link=0 back=0 hand=-\n\
        refused restart b a=down b=journal net=5 link=0 back=0 hand=-\n\
        ignored 5 down\n\
        ignored 5 down\n\
        server a down\n\
        server b journal\n";
    plays(
        &rt,
        alloc,
        b"",
        &script,
        &[POSTED, DOWN, refused, ACTIVE, ACTIVE, "server b journal\n"],
    );
}

#[test]
fn a_world_has_these_parts_alone(rt: HostRuntime) {
    let ColdWorld {
        node,
        journal,
        link,
        back,
        net,
        agents,
        history,
        now,
        armed,
        callbacks,
    } = ColdWorld::empty(rt.alloc());
    let Journal { end, number } = journal;
    let role = node.role();
    let messages = link.as_slice().len().max(back.as_slice().len());
    let known = net
        .len()
        .max(history.len())
        .max(agents.as_slice().len() as u64);
    let_node_go(node);
    let_messages_go(link);
    let_messages_go(back);
    let_agents_go(agents);
    let_history_go(history);
    drop(net);
    assert!(rt; role == Role::Down && end == 0 && number == 0, "the server");
    assert!(rt; messages == 0 && known == 0, "messages and clients");
    assert!(rt; now == 0 && !armed && callbacks == 0, "numbers");
}
