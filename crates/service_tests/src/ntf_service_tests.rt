//! Users, subscriptions and notifications that are sent to them, against the written rules.
use crate::fixtures::{alarm, alarms_by, filter_by, no_filters};
use ais_values::Status;
use ntf_filters::FilterSet;
use ntf_service::NtfState;
use std::alloc::Global;
use std::process::Abort;

/// Filters that ask for all changes of states.
fn all_states(rt: &impl Abort, alloc: Global) -> FilterSet {
    let mut filters = no_filters();
    filters.states = Some(filter_by(rt, alloc, &[]));
    filters
}

/// The client 3 asks for changes of states, and others for alarms.
fn subscribe(
    rt: &impl Abort,
    alloc: Global,
    state: &mut NtfState,
    client: u16,
    key: u32,
    id: u32,
) -> Status {
    let filters = if client == 3 {
        all_states(rt, alloc)
    } else {
        alarms_by(rt, alloc, &[])
    };
    assert!(rt; state.is_key_above(client, key));
    let answer = state.subscribe(alloc, client, key, id, &filters);
    drop(filters);
    answer.expect(rt, "memory")
}

/// Sends an alarm, and tells its id.
fn send(rt: &impl Abort, alloc: Global, state: &mut NtfState) -> u64 {
    let alarm = alarm(rt, alloc, 0, 100, 2);
    assert!(rt; state.can_send());
    state.send(alloc, alarm).expect(rt, "memory")
}

/// The client, the number of held items and of lost ones of the subscription at a place.
fn told(state: &NtfState, place: u32) -> (u16, usize, usize) {
    match state.sub_at(place) {
        None => (0, 0, 0),
        Some(kept) => (kept.client, kept.queue.len(), kept.queue.lost().len()),
    }
}

/// A state with three users: 2 and 7 with a subscription to alarms, and 3 with one to changes of
/// states.
fn three_users(rt: &impl Abort, alloc: Global) -> NtfState {
    let mut state = NtfState::new(alloc, 2);
    for client in [7, 2, 3] {
        let _ = state.init(client).expect(rt, "memory");
        let _ = subscribe(rt, alloc, &mut state, client, 9, 5);
    }
    state
}

/// Users begin and end, and an id is used by one subscription of a client at a time.
#[test]
fn answers_by_rows(rt: HostRuntime) {
    let alloc = rt.alloc();
    let mut state = three_users(&rt, alloc);
    assert!(rt; state.init(2).expect(&rt, "memory") == Status::NoResources);
    for (client, key, id, want) in [
        (7, 10, 5, Status::Exist),
        (8, 10, 5, Status::BadHandle),
        (7, 11, 6, Status::Ok),
    ] {
        assert!(rt;
            subscribe(&rt, alloc, &mut state, client, key, id) == want,
            "{client}"
        );
    }
    assert!(rt; state.unsubscribe(7, 7) == Status::NotExist);
    assert!(rt; state.fini(7) == Status::Ok && state.fini(7) == Status::BadHandle);
    assert!(rt; state.unsubscribe(2, 5) == Status::Ok);
    assert!(rt; state.users() == [2, 3].as_slice() && !state.is_user(7));
    assert!(rt; state.count() == 1 && told(&state, 0).0 == 3);
    drop(state);
}

/// The 65th subscription is refused.
#[test]
fn holds_64_subscriptions(rt: HostRuntime) {
    let alloc = rt.alloc();
    let mut state = NtfState::new(alloc, 1);
    assert!(rt; state.init(1).expect(&rt, "memory") == Status::Ok);
    for key in 1..66u32 {
        let answer = subscribe(&rt, alloc, &mut state, 1, key, key);
        assert!(rt; (answer == Status::Ok) == (key < 65), "{key}");
        assert!(rt; (answer == Status::NoResources) == (key == 65), "{key}");
    }
    assert!(rt; state.count() == 64);
    drop(state);
}

/// Five alarms to two subscriptions with room for two, with a receipt of one of them between.
#[test]
fn offers_to_each_that_asks(rt: HostRuntime) {
    let alloc = rt.alloc();
    let mut state = three_users(&rt, alloc);
    for id in 1..4u64 {
        assert!(rt; send(&rt, alloc, &mut state) == id, "{id}");
    }
    assert!(rt; !state.is_new(2, 9, 3) && !state.is_new(3, 9, 1) && !state.is_new(2, 8, 1));
    assert!(rt; state.can_send());
    assert!(rt; state.is_new(2, 9, 1));
    state.acked(2, 9, 1);
    for id in 4..6u64 {
        assert!(rt; send(&rt, alloc, &mut state) == id, "{id}");
    }
    assert!(rt; told(&state, 0) == (2, 2, 2) && told(&state, 1) == (3, 0, 0));
    assert!(rt; told(&state, 2) == (7, 2, 3) && state.last_id() == 5);
    drop(state);
}

/// Plans a send of an alarm and lets the plan go.
fn plan_in_vain(rt: &impl Abort, alloc: Global, state: &mut NtfState) -> u64 {
    let alarm = alarm(rt, alloc, 0, 100, 2);
    assert!(rt; state.can_send());
    let plan = state.plan_send(alloc, alarm).expect(rt, "memory");
    let id = plan.id();
    drop(plan);
    id
}

/// A send that is planned and not made leaves all as it is, and its id is given again; made, it is offered to each
/// subscription that asks, also once one in front of them was removed.
#[test]
fn plans_a_send(rt: HostRuntime) {
    let alloc = rt.alloc();
    let mut state = three_users(&rt, alloc);
    assert!(rt; plan_in_vain(&rt, alloc, &mut state) == 1 && told(&state, 0) == (2, 0, 0));
    assert!(rt; send(&rt, alloc, &mut state) == 1 && told(&state, 2) == (7, 1, 0));
    assert!(rt; state.unsubscribe(2, 5) == Status::Ok);
    assert!(rt; plan_in_vain(&rt, alloc, &mut state) == 2 && told(&state, 1) == (7, 1, 0));
    assert!(rt; send(&rt, alloc, &mut state) == 2 && told(&state, 1) == (7, 2, 0));
    assert!(rt; told(&state, 0) == (3, 0, 0));
    drop(state);
}
