//! The state and the history that it stands for.
ghost use Rattle.std.specs.Prelude.{◌≡◌, ℕ, ◌<◌, List, length};
ghost use Rattle.client_set.specs.Members.{Stands};
ghost use Rattle.ntf_history.specs.Changes.{Sub, NtfChange};
ghost use Rattle.ntf_history.specs.Subscriptions.{subs};
ghost use Rattle.ntf_history.specs.Tables.{table_of};
ghost use Rattle.ntf_history.specs.Rows.{answer, begin_rows, end_rows, unsubscribe_rows};
ghost use Rattle.ntf_service.specs.State.{begin_answer, end_answer, unsubscribe_answer, CanSendMore, IsKeyAbove};
ghost use Rattle.ntf_service.specs.Laws.{SubscribesByRows};

/// A state that stands for all that changed answers by the rows of that history. As long as there
/// were fewer than 4,294,967,294 changes it can send, and a key above those of a client's
/// subscriptions that last can be used.
pub fn law_of_history()
    ensures begin { (capacity : ℕ) (past : List NtfChange) (client : ℕ) →
        begin_answer client (table_of capacity past) ≡ answer (begin_rows past client) }
    ensures end { (capacity : ℕ) (past : List NtfChange) (client : ℕ) →
        end_answer client (table_of capacity past) ≡ answer (end_rows past client) }
    ensures subscribe { (capacity : ℕ) (past : List NtfChange) → SubscribesByRows capacity past }
    ensures unsubscribe { (capacity : ℕ) (past : List NtfChange) (client id : ℕ) →
        unsubscribe_answer client id (table_of capacity past)
        ≡ answer (unsubscribe_rows past client id) }
    ensures sends { (capacity : ℕ) (past : List NtfChange) → length past < 4294967294 →
        CanSendMore (table_of capacity past) }
    ensures keys { (capacity : ℕ) (past : List NtfChange) (client key : ℕ) →
        ((sub : Sub) → Stands sub (subs past) → sub.client ≡ client → sub.key < key) →
        IsKeyAbove client key (table_of capacity past).subs }
{}
