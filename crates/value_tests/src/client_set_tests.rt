use ais_values::Duplicate;
use client_set::ClientSet;

/// Clients come and go; the set tells them in order.
#[test]
fn keeps_clients_in_order(rt: HostRuntime) {
    let alloc = rt.alloc();
    let mut set = ClientSet::new(alloc);
    for client in [7, 4096, 1, 7, 3] {
        set.insert(client).expect(&rt, "memory");
    }
    assert!(rt; set.as_slice() == [1, 3, 7, 4096].as_slice());
    set.remove(3);
    set.remove(2);
    assert!(rt; set.contains(7) && !set.contains(3));
    let copy = set.copy(alloc).expect(&rt, "memory");
    drop(set);
    let same = ClientSet::from_rising(vec![in alloc; 1, 7, 4096].expect(&rt, "memory"));
    let equal = copy.as_slice() == same.as_slice();
    drop(copy);
    drop(same);
    assert!(rt; equal);
}
