//! What no clause says: that strings join while there is memory.
use ais_values::Duplicate;
use message_net::{Net, Posted, front_of};
use std::alloc::Global;
use std::process::Abort;

/// A string is posted, which gets this place, newly or not, and stands there then.
fn is_posted(rt: &impl Abort, alloc: Global, net: &mut Net, bytes: &[u8], want: Posted) {
    let posted = net.post(alloc, bytes).expect(rt, "memory");
    let copy = posted.copy(alloc).expect(rt, "memory");
    assert!(rt; copy == want);
    assert!(rt; net.place_of(bytes) == Some(want.place));
    assert!(rt; net.at(want.place) == Some(bytes));
}

#[test]
fn keeps_each_string_once_in_order(rt: HostRuntime) {
    let alloc = rt.alloc();
    let mut net = Net::new(alloc);
    let rows: [(&[u8], u64, bool); 6] = [
        (b"a", 1, true),
        (b"b", 2, true),
        (b"a", 1, false),
        (b"", 3, true),
        (b"b", 2, false),
        (b"ab", 4, true),
    ];
    for (bytes, place, new) in rows {
        is_posted(&rt, alloc, &mut net, bytes, Posted { place, new });
    }
    assert!(rt; net.len() == 4);
    assert!(rt; net.at(0).is_none() && net.at(5).is_none());
    assert!(rt; net.place_of(b"c") == None);
    drop(net);
}

/// The place before one that stands in the net.
fn older(rt: &impl Abort, net: &Net, place: u64) -> Option<u64> {
    assert!(rt; 1 <= place && place <= net.len());
    net.older_with(place)
}

#[test]
fn finds_strings_by_their_first_seven_bytes(rt: HostRuntime) {
    let alloc = rt.alloc();
    let mut net = Net::new(alloc);
    let strings: [&[u8]; 6] = [
        b"reply 1",
        b"request",
        b"reply 1 2",
        b"short",
        b"",
        b"reply 1 3",
    ];
    for bytes in strings {
        net.post(alloc, bytes).expect(&rt, "memory");
    }
    let front = front_of(b"reply 1");
    assert!(rt; net.newest_with(front) == Some(6));
    let rows = [
        (6, Some(3)),
        (3, Some(1)),
        (1, None),
        (2, None),
        (5, Some(4)),
        (4, None),
    ];
    for (place, want) in rows {
        assert!(rt; older(&rt, &net, place) == want);
    }
    assert!(rt; net.newest_with(front_of(b"few")) == Some(5));
    assert!(rt; net.newest_with(front_of(b"unknown")) == None);
    drop(net);
}
