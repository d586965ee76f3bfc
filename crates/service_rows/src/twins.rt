//! A service made again of its value.
ghost use Rattle.service_core.specs.Applying.{CanApply};

use calls::{Entry, Reply, Saved};
use service_core::Service;
use std::alloc::Global;

/// Whether a service has this value.
fn has_value(alloc: Global, service: &Service, value: &Saved) -> bool {
    match service.save(alloc) {
        Err(_) => false,
        Ok(saved) => {
            let same = saved == *value;
            drop(saved);
            same
        }
    }
}

/// Whether two services have one value.
fn are_equal(alloc: Global, one: &Service, other: &Service) -> bool {
    match one.save(alloc) {
        Err(_) => false,
        Ok(saved) => {
            let same = has_value(alloc, other, &saved);
            drop(saved);
            same
        }
    }
}

/// Whether a service answers an entry so, and has the value of the other one then.
fn answers(
    alloc: Global,
    twin: &mut Service,
    service: &Service,
    entry: &Entry,
    reply: &Option<Reply>,
) -> bool
    requires { CanApply entry.now twin.old }
{
    match twin.apply(alloc, entry) {
        Err(_) => false,
        Ok(effect) => {
            let same = effect.reply == *reply;
            drop(effect);
            same && are_equal(alloc, service, twin)
        }
    }
}

/// Whether a service made again of this value answers the entry so, and has the value of the other one then.
pub(crate) fn twin_agrees(
    alloc: Global,
    service: &Service,
    saved: Saved,
    entry: &Entry,
    reply: &Option<Reply>,
) -> bool
    requires { CanApply entry.now saved }
{
    let restored = Service::restore(alloc, &saved);
    drop(saved);
    match restored {
        Err(_) => false,
        Ok(twin) => {
            let mut twin = twin;
            let agrees = answers(alloc, &mut twin, service, entry, reply);
            drop(twin);
            agrees
        }
    }
}
