//! One server whose standby is a journal, as servers of a cluster: definitions and laws alone.
#![tactic(auto)]

ghost use Rattle.std.specs.Prelude.{ℕ, ℤ, Option};
ghost use Rattle.cluster_facts.specs.Service.{Plain, IsPlain};
ghost use Rattle.cluster_events.specs.declared.lines.Standing.{Standing};
ghost use Rattle.cluster_events.specs.Devices.{Device};
ghost use Rattle.cluster_events.specs.Measure.{Spends};
ghost use Rattle.cluster_events.specs.Outcomes.{Outcome};
ghost use Rattle.cluster_events.specs.Saying.{Says};
ghost use Rattle.cluster_events.specs.Servers.{State};
ghost use Rattle.cluster_events.specs.Serving.{IsServing, IsCarried, AreStepped, IsSteady};
ghost use Rattle.cold_cluster.specs.Cold.{Alone, cold, cold_begun, IsCold};
ghost use Rattle.cold_cluster.specs.Falling.{armed_alone, fallen, Restarts};
ghost use Rattle.cold_cluster.specs.Laws.{Keeps};
ghost use Rattle.cold_cluster.specs.Promises.{ColdEndKeeps, ColdEndLacks, ColdKeepsPromises, ColdSettleEnds, ColdSettleSettles, ColdStaysUp};

/// They serve, pay for each step by what is left to do, and say what happened; each step of theirs does.
pub fn law_of_cold()
    ensures serves { (shown : State Alone → Standing) (plain : Plain) (device : Device)
        → IsPlain plain → IsServing plain (cold shown plain device) IsCold }
    ensures spends { (shown : State Alone → Standing) (plain : Plain) (device : Device)
        → IsPlain plain → IsCarried plain (cold shown plain device) IsCold Spends }
    ensures says { (shown : State Alone → Standing) (plain : Plain) (device : Device)
        → IsPlain plain → IsCarried plain (cold shown plain device) IsCold (Says plain) }
    ensures stepped { (shown : State Alone → Standing) (plain : Plain) (device : Device)
        → IsPlain plain → AreStepped plain (cold shown plain device) IsCold (Says plain) }
{}

/// At the start of a run the facts of history, net and agents hold. A fall, a cold start and the arming of a disk keep them, and their
/// lines say what happened.
pub fn law_of_restarts()
    ensures starts { (plain : Plain) (now : ℤ) (places : ℕ)
        → IsSteady plain IsCold (cold_begun now places) }
    ensures falls { (plain : Plain) → IsPlain plain → (state : State Alone)
        → IsSteady plain IsCold state → Keeps plain state (fallen state) }
    ensures restarts { (plain : Plain) → IsPlain plain
        → (state : State Alone) (outcome : Outcome (State Alone)) → IsSteady plain IsCold state
        → Restarts state outcome → Keeps plain state outcome }
    ensures arms { (plain : Plain) → IsPlain plain
        → (armed beside : Option ℕ) (state : State Alone) → IsSteady plain IsCold state
        → Keeps plain state (armed_alone armed beside state) }
{}

/// Wherever a disk stops and however often the server crashes and comes back: at the end of each line of a run there is one history, legal
/// and printed; each reply line is the service's, each call has one at most; callbacks are handed out in order, each once. Where no disk is
/// armed `settle` comes to its end, and only `crash` takes the server down. After a `settle` that came to its end every call is answered and
/// no item is held, but for those whose client's callback queue is full.
pub fn law_of_runs()
    ensures promises { ColdKeepsPromises }
    ensures ends { ColdSettleEnds }
    ensures settled { ColdSettleSettles }
    ensures stays { ColdStaysUp }
{}

/// Where a fault of a disk ends a run, history, replies and callbacks are as at the end of a line, and no reply is posted to a call whose work
/// failed.
pub fn law_of_ends()
    ensures promises { ColdEndKeeps }
    ensures lacks { ColdEndLacks }
{}
