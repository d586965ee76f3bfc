//! Values that are not fit.
use ais_values::{Duplicate, Seq};
use calls::{Saved, SavedWindow};
use service_core::{RestoreAnswer, Service};
use std::alloc::{AllocError, Global};
use std::mem;

/// How many rules are broken.
const RULES: u32 = 6;

/// Breaks a rule of a value.
fn break_rule(alloc: Global, value: &mut Saved, rule: u32) {
    match rule {
        0 => value.capacity = 0,
        1 => value.number = 4_000_000_001,
        2 => value.last_id = value.number.saturating_add(1),
        3 => value.last_stamp = -1,
        4 => drop(mem::replace(&mut value.streams, Seq::new(alloc))),
        _ => {
            let window = SavedWindow {
                client: 1,
                next: 0,
                replies: Seq::new(alloc),
            };
            let mut windows = Seq::new(alloc);
            let _ = windows.push(window);
            drop(mem::replace(&mut value.windows, windows));
        }
    }
}

/// Whether no service is made of a value.
fn is_refused(alloc: Global, value: &Saved) -> bool {
    match Service::restore(alloc, value) {
        Ok(service) => {
            drop(service);
            false
        }
        Err(answer) => matches!(answer, RestoreAnswer::Refused),
    }
}

/// Whether a copy of the value in which a rule is broken is refused.
fn is_broken_refused(alloc: Global, value: &Saved, rule: u32) -> Result<bool, AllocError> {
    let mut copy = value.copy(alloc)?;
    break_rule(alloc, &mut copy, rule);
    let refused = is_refused(alloc, &copy);
    drop(copy);
    Ok(refused)
}

/// How many rules are broken of which a copy of the value is refused; the value itself is not.
fn count_refused(alloc: Global, value: &Saved) -> Result<u32, AllocError> {
    let mut count = 0u32;
    if is_refused(alloc, value) {
        return Ok(0);
    }
    for rule in 0..RULES {
        if is_broken_refused(alloc, value, rule)? {
            count = count.saturating_add(1);
        }
    }
    Ok(count)
}

/// Whether the value of a service can be handed on, and is refused where a rule is broken.
pub(crate) fn are_broken_refused(alloc: Global, service: &Service) -> Result<bool, AllocError> {
    let saved = service.save(alloc)?;
    let count = count_refused(alloc, &saved);
    drop(saved);
    Ok(count? == RULES)
}
