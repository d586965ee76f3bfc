//! What no clause says: that each call succeeds while there is memory.
use ais_values::Seq;
use client_window::{Judged, Window};
use std::alloc::Global;
use std::process::Abort;

/// A judgement as a number: the reply, or 1 for a new call, 2 for an old one and 3 for one ahead.
fn told(judged: Judged<'_, u32>) -> u32 {
    match judged {
        Judged::New => 1,
        Judged::Old => 2,
        Judged::Ahead => 3,
        Judged::Repeat { reply } => *reply,
    }
}

/// A window that took the replies 101, 102 and so on.
fn answered(rt: &impl Abort, alloc: Global, count: u32) -> Window<u32> {
    let mut window = Window::new(alloc).expect(rt, "memory");
    for _ in 0..count {
        let next = window.next();
        assert!(rt; next < 1000);
        let room = window.room(alloc).expect(rt, "memory");
        window.take(room, 100 + next);
    }
    window
}

#[test]
fn judges_by_number(rt: HostRuntime) {
    let alloc = rt.alloc();
    for (count, seq, want) in [
        (0, 0, 2),
        (0, 1, 1),
        (0, 2, 3),
        (32, 0, 2),
        (32, 1, 101),
        (32, 32, 132),
        (32, 33, 1),
        (33, 1, 2),
        (33, 2, 102),
        (40, 8, 2),
        (40, 9, 109),
        (40, 40, 140),
        (40, 41, 1),
        (40, 42, 3),
        (40, u32::MAX, 3),
    ] {
        let window = answered(&rt, alloc, count);
        let judged = told(window.judge(seq));
        drop(window);
        assert!(rt; judged == want, "{count} {seq}");
    }
}

/// A window tells its last 32 replies, by their places.
fn tells_replies(rt: &impl Abort, alloc: Global) {
    let window = answered(rt, alloc, 40);
    assert!(rt; window.reply_at(0) == Some(&109));
    assert!(rt; window.reply_at(31) == Some(&140));
    assert!(rt; window.reply_at(32) == None);
    drop(window);
}

#[test]
fn is_rebuilt_of_its_parts(rt: HostRuntime) {
    let alloc = rt.alloc();
    tells_replies(&rt, alloc);
    let mut replies = Seq::new(alloc);
    replies.push(7).expect(&rt, "memory");
    replies.push(8).expect(&rt, "memory");
    let rebuilt = Window::rebuild(alloc, 3, replies).expect(&rt, "memory");
    assert!(rt; rebuilt.next() == 3);
    assert!(rt; told(rebuilt.judge(1)) == 7);
    assert!(rt; told(rebuilt.judge(2)) == 8);
    drop(rebuilt);
}
