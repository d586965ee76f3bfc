//! What the threads at a queue know, and the rule that ties it to what the queue holds.
use crate::Numbered;
use calls::Callback;
use crossbeam_queue::RuledArrayQueue;
use crossbeam_queue::protocol::{Join, Lesson, Outcome, Protocol, Split};
use std::collections::LinkedList;

// What a pass knows: whether it feeds and what it fed; its share of the right to take and what it took; and what
// it was told, of what was fed and of how much was taken. No value of it is made.
pub struct View {
    pub feeds: bool,
    pub fed: LinkedList<Callback>,
    pub share: u64,
    pub taken: LinkedList<Numbered>,
    pub known: LinkedList<Callback>,
    pub count: u64,
}

pub struct InOrder;

impl Protocol<Numbered, View> for InOrder {
    ghost use Rattle.callback_dispatch.specs.Rule.{Dispatch, first_view};

    ghost holds = { Dispatch };

    ghost first = { first_view };
}

pub type Ring = RuledArrayQueue<Numbered, View, InOrder>;

pub struct Push;

impl Outcome<Numbered, View> for Push {
    ghost use Rattle.std.specs.Prelude.{◌≡◌};
    ghost use Rattle.callback_dispatch.specs.Rule.{pushed};

    ghost then = { λ v x w. w ≡ pushed v x };
}

impl Lesson<Numbered, View> for Push {
    ghost use Rattle.callback_dispatch.specs.Rule.{Learned};

    ghost fact = { Learned };
}

pub struct Pop;

impl Outcome<Numbered, View> for Pop {
    ghost use Rattle.callback_dispatch.specs.Rule.{Popped};

    ghost then = { Popped };
}

impl Lesson<Numbered, View> for Pop {
    ghost use Rattle.callback_dispatch.specs.Rule.{Learned};

    ghost fact = { Learned };
}

// The first pass becomes a feeder and a taker.
pub struct Ends;

impl Split<View> for Ends {
    ghost use Rattle.callback_dispatch.specs.Rule.{feeding, taking};

    ghost left = { feeding };

    ghost right = { taking };
}

// A taker gives a part of its share to a new one, and takes it back.
pub struct Parts;

impl Split<View> for Parts {
    ghost use Rattle.callback_dispatch.specs.Rule.{with_less, with_one};

    ghost left = { with_less };

    ghost right = { with_one };
}

impl Join<View> for Parts {
    ghost use Rattle.callback_dispatch.specs.Rule.{joined, spent_view};

    ghost both = { joined };

    ghost spent = { spent_view };
}

// A feeder notes what it fed.
pub struct FedNote;

impl Split<View> for FedNote {
    ghost use Rattle.callback_dispatch.specs.Rule.{fed_note};

    ghost left = { λ v. v };

    ghost right = { fed_note };
}

// A taker notes how much it took.
pub struct TakenNote;

impl Split<View> for TakenNote {
    ghost use Rattle.callback_dispatch.specs.Rule.{taken_note};

    ghost left = { λ v. v };

    ghost right = { taken_note };
}

// A note is handed in.
pub struct Told;

impl Join<View> for Told {
    ghost use Rattle.callback_dispatch.specs.Rule.{told, spent_view};

    ghost both = { told };

    ghost spent = { spent_view };
}
