//! Laws of calls, their answers and the saved value.
ghost use Rattle.std.specs.Prelude.{◌≡◌, ◌↔◌, IsTrue};
ghost use Rattle.calls.specs.declared.reply.Reply.{Reply as ReplyOf};
ghost use Rattle.calls.specs.declared.entry.Entry.{Entry as EntryOf};
ghost use Rattle.calls.specs.declared.saved.Saved.{Saved as SavedOf};

use crate::{Entry, Reply, Saved};

/// Two replies are told equal by `==` exactly where they are equal; two entries likewise, and two saved values.
pub fn law_of_equality()
    ensures replies { (one other : ReplyOf) →
        IsTrue (⟦<Reply as PartialEq>⟧.eq one other) ↔ (one ≡ other) }
    ensures entries { (one other : EntryOf) →
        IsTrue (⟦<Entry as PartialEq>⟧.eq one other) ↔ (one ≡ other) }
    ensures saved { (one other : SavedOf) →
        IsTrue (⟦<Saved as PartialEq>⟧.eq one other) ↔ (one ≡ other) }
{}
