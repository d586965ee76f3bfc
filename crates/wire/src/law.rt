//! Laws of spellings.
ghost use Rattle.std.specs.Prelude.{◌≡◌, ◌++◌, ◌↔◌, ℕ, List, [], IsTrue};
ghost use Rattle.wire.specs.declared.message.Message.{Message as MessageOf};
ghost use Rattle.wire.specs.MessageSpelling.{message_text, MessageFits};

use crate::Message;

/// No spelling is a proper front of another, and messages of one spelling are the same.
pub fn law_of_spellings()
    ensures { (one other : MessageOf) (more : List ℕ) → MessageFits one → MessageFits other →
        message_text other ≡ message_text one ++ more → (one ≡ other) × (more ≡ []) }
{}

/// Two messages are told equal by `==` exactly where they are equal.
pub fn law_of_equality()
    ensures { (one other : MessageOf) →
        IsTrue (⟦<Message as PartialEq>⟧.eq one other) ↔ (one ≡ other) }
{}
