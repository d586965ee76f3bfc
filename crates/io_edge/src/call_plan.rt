//! Which calls of an object in memory fail.
ghost use Rattle.std.specs.Prelude.{◌≡◌, ◌≤◌, ◌↔◌, IsTrue};
ghost use Rattle.io_edge.specs.Plans.{first_plan, FailsNext, after_call, after_fault};

use std::marker::Model;

/// The calls that fail, by their numbers from 1 on, and counts of the calls and faults so far. Both counts
/// stop at the greatest `u64`.
#[derive(Drop)]
pub(crate) struct CallPlan {
    failing: Vec<u64>,
    calls: u64,
    faults: u64,
}

impl Model for CallPlan {
    ghost use Rattle.io_edge.specs.Plans.{Plan};

    ghost Value = { Plan };

    ghost view = { λ plan. record {
      failing = plan.failing.items;
      calls = plan.calls;
      faults = plan.faults;
    } };
}

impl CallPlan {
    /// No call was made yet. It takes no memory.
    pub(crate) fn new(failing: Vec<u64>) -> CallPlan
        ensures { result ≡ first_plan failing.items }
    {
        CallPlan {
            failing,
            calls: 0,
            faults: 0,
        }
    }

    /// Whether the next call fails.
    pub(crate) fn fails_next(&self) -> bool
        ensures { IsTrue result ↔ FailsNext self.now }
    {
        self.failing.contains(&self.calls.saturating_add(1))
    }

    /// Counts a call that did not fail.
    pub(crate) fn count_call(&mut self)
        ensures { self.new ≡ after_call self.old }
    {
        self.calls = self.calls.saturating_add(1);
    }

    /// Counts a call that failed.
    pub(crate) fn count_fault(&mut self)
        ensures after { self.new ≡ after_fault self.old }
        ensures later { self.old.faults ≤ self.new.faults }
    {
        self.calls = self.calls.saturating_add(1);
        self.faults = self.faults.saturating_add(1);
    }
}
