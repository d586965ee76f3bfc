//! Laws of a subscription over all that may happen to it.
ghost use Rattle.std.specs.Prelude.{◌≡◌, ◌↔◌, ℕ, ◌+◌, ◌<◌, ◌≤◌, List, [], ◌∷◌, ◌++◌, drop, length, IsTrue};
ghost use Rattle.ntf_types.specs.declared.notification.Notification.{Notification};
ghost use Rattle.sub_queue.specs.declared.item.Lost.{Lost};
ghost use Rattle.sub_queue.specs.declared.item.Content.{Content as ContentOf};
ghost use Rattle.sub_queue.specs.declared.item.Item.{Item as ItemOf};
ghost use Rattle.sub_queue.specs.Items.{numbered, marks_in};
ghost use Rattle.sub_queue.specs.Queue.{empty_queue, next_number, IsCapacity, IsSound, IsNew, offered, received};
ghost use Rattle.sub_queue.specs.History.{Happening, account_of, is_new_receipt, marks_offered};
ghost use Rattle.sub_queue.specs.History.Happening.{Offered, Receipted};
ghost use Rattle.sub_queue.specs.Laws.{queue_after};

use crate::{Content, Item};

/// Whatever is offered and whichever receipts come: the notifications in all items ever made, and then
/// those lost, are the ones that were offered, each once and in order.
pub fn law_of_marks()
    ensures marks { (capacity : ℕ) (past : List Happening) →
        marks_in (account_of capacity past).made ++ (account_of capacity past).lost
        ≡ marks_offered past }
{}

/// A queue goes with what happened to its subscription: a new one stands for nothing, and each call makes
/// of the queue that stands for what happened before the one that stands for that and the call.
pub fn law_of_calls()
    ensures new { (capacity : ℕ) → empty_queue capacity ≡ queue_after capacity [] }
    ensures offer { (capacity : ℕ) (past : List Happening) (notification : Notification) →
        offered notification (queue_after capacity past)
        ≡ queue_after capacity (Offered notification ∷ past) }
    ensures receipt { (capacity : ℕ) (past : List Happening) (through : ℕ) →
        IsNew through (queue_after capacity past) → received through (queue_after capacity past)
        ≡ queue_after capacity (Receipted through ∷ past) }
    ensures newness { (capacity : ℕ) (past : List Happening) (through : ℕ) →
        IsTrue (is_new_receipt through (account_of capacity past))
        ↔ IsNew through (queue_after capacity past) }
    ensures items { (capacity : ℕ) (past : List Happening) →
        numbered (queue_after capacity past).first (queue_after capacity past).held
        ≡ drop (account_of capacity past).through (numbered 1 (account_of capacity past).made) }
{}

/// Whatever happened: receipts go no further than the items ever made; no more items are held than the
/// capacity; the next item's number is one above the count of items ever made; and while that number is
/// left, the queue is one that can be rebuilt.
pub fn law_of_counts()
    ensures receipts { (capacity : ℕ) (past : List Happening) →
        (account_of capacity past).through ≤ length (account_of capacity past).made }
    ensures places { (capacity : ℕ) (past : List Happening) →
        length (queue_after capacity past).held ≤ capacity }
    ensures numbers { (capacity : ℕ) (past : List Happening) →
        next_number (queue_after capacity past) ≡ length (account_of capacity past).made + 1 }
    ensures sound { (capacity : ℕ) (past : List Happening) →
        IsCapacity capacity → length (account_of capacity past).made < 4294967295 →
        IsSound (queue_after capacity past) }
{}

/// Two items are told equal by `==` exactly where they are equal; likewise what they hold.
pub fn law_of_equality()
    ensures contents { (one other : ContentOf) → IsTrue (⟦<Content as PartialEq>⟧.eq one other)
        ↔ (one ≡ other) }
    ensures items { (one other : ItemOf) → IsTrue (⟦<Item as PartialEq>⟧.eq one other)
        ↔ (one ≡ other) }
{}
