//! Laws of the Notification Service over all that may change it.
ghost use Rattle.std.specs.Prelude.{◌≡◌, ◌⊎◌, ℕ, ◌+◌, ◌<◌, ◌≤◌, Bool, true, false, List, ◌∷◌, ◌++◌, [], length, map, find, nat_lt};
ghost use Rattle.std.specs.List.{list_any};
ghost use Rattle.ntf_types.specs.declared.notification.Notification.{Notification};
ghost use Rattle.sub_queue.specs.Items.{mark_of, marks_in};
ghost use Rattle.sub_queue.specs.Queue.{IsCapacity, IsSound};
ghost use Rattle.alarm_view.specs.Alarms.{AreInOrder, CanAdd, from_record};
ghost use Rattle.client_set.specs.Members.{Stands, has};
ghost use Rattle.client_set.specs.Rising.{IsRising};
ghost use Rattle.ntf_history.specs.Changes.{Sub, NtfChange, is_using, users, last_id};
ghost use Rattle.ntf_history.specs.Changes.NtfChange.{Subscribed, Sent, Receipted};
ghost use Rattle.ntf_history.specs.Subscriptions.{has_id, subs, made, lost_of, through_of, is_new, asked_since, asked_while, dropped_while, losses_in, comes_first, Extends};
ghost use Rattle.ntf_history.specs.StoredAlarms.{is_alarm, stored_alarms};
ghost use Rattle.ntf_history.specs.Laws.{AddsAlarm};
ghost use Rattle.ntf_history.specs.Possible.{HaveIds, CanSend, CanFollow, ArePossible};
ghost use Rattle.ntf_history.specs.Tables.{after_change, empty_table, is_kept_under, is_new_in, IsSoundTable, kept_of, table_of};
ghost use Rattle.ntf_history.specs.Readers.{Reader, ReaderChange, reader_of, reader_first, is_reader_of, readers};

/// What is kept after one more change is what the call makes of what was kept.
pub fn law_of_changes()
    ensures { (capacity : ℕ) (change : NtfChange) (past : List NtfChange) → CanFollow change past →
        table_of capacity (change ∷ past) ≡ after_change change (table_of capacity past) }
{}

/// Of each subscription that was ever made, also after its end: the items made for it, and then what
/// was lost since the last, tell of the notifications for which it asked while it lasted, each once
/// and in order; what they tell as lost are those of them that were dropped. Of one that lasts these
/// are the notifications sent since it was made for which it asks.
pub fn law_of_asked()
    ensures told { (capacity : ℕ) (past : List NtfChange) (client key : ℕ) →
        marks_in (made capacity past client key) ++ lost_of capacity past client key
        ≡ map mark_of (asked_while past client key) }
    ensures dropped { (capacity : ℕ) (past : List NtfChange) (client key : ℕ) →
        losses_in (made capacity past client key) ++ lost_of capacity past client key
        ≡ map mark_of (dropped_while capacity past client key) }
    ensures lasting { (past : List NtfChange) (sub : Sub) → ArePossible past →
        Stands sub (subs past) → asked_while past sub.client sub.key ≡ asked_since past sub }
{}

/// Items keep their numbers and contents: a change adds some behind them, or none. Only a receipt
/// moves the number through which items have one, and a new one moves it to its own.
pub fn law_of_items()
    ensures grows { (capacity : ℕ) (change : NtfChange) (past : List NtfChange) (client key : ℕ) →
        Extends (made capacity past client key) (made capacity (change ∷ past) client key) }
    ensures few { (capacity : ℕ) (past : List NtfChange) (client key : ℕ) →
        length (made capacity past client key) ≤ length past }
    ensures begins { (capacity client key : ℕ) → through_of capacity [] client key ≡ 0 }
    ensures moves { (capacity : ℕ) (change : NtfChange) (past : List NtfChange) (client key : ℕ) →
        (through_of capacity (change ∷ past) client key ≡ through_of capacity past client key)
        ⊎ (change ≡ Receipted client key (through_of capacity (change ∷ past) client key)) }
    ensures received { (capacity : ℕ) (past : List NtfChange) (client key through : ℕ) →
        is_new capacity past client key through ≡ true →
        through_of capacity (Receipted client key through ∷ past) client key ≡ through }
{}

/// What the answers ask of all that changed, the kept table tells: who uses the service, whether a
/// client has a subscription of an id, how many last, and whether a receipt is new. The table is
/// sound, and of a service that nobody has used it is empty.
pub fn law_of_tables()
    ensures users { (capacity : ℕ) (past : List NtfChange) (client : ℕ) →
        has client (table_of capacity past).users ≡ is_using past client }
    ensures ids { (capacity : ℕ) (past : List NtfChange) (client id : ℕ) →
        list_any (is_kept_under client id) (table_of capacity past).subs
        ≡ list_any (has_id client id) (subs past) }
    ensures count { (capacity : ℕ) (past : List NtfChange) →
        length (table_of capacity past).subs ≡ length (subs past) }
    ensures receipts { (capacity : ℕ) (past : List NtfChange) (client key through : ℕ) →
        is_new_in (table_of capacity past) client key through
        ≡ is_new capacity past client key through }
    ensures sound { (capacity : ℕ) (past : List NtfChange) → IsCapacity capacity →
        ArePossible past →
        length past < 4294967295 → IsSoundTable (table_of capacity past) }
    ensures empty { (capacity : ℕ) → table_of capacity [] ≡ empty_table capacity }
{}

/// The subscriptions that last: each was made, they stand in order of client and key, at most 64 of
/// them; each client uses the service, and no two of one client have the same id; their queues can
/// be rebuilt.
pub fn law_of_subscriptions()
    ensures after { (change : NtfChange) (past : List NtfChange) (sub : Sub) →
        Stands sub (subs (change ∷ past)) →
        Stands sub (subs past) ⊎ (change ≡ Subscribed sub) }
    ensures order { (past : List NtfChange) → IsRising comes_first (subs past) }
    ensures few { (past : List NtfChange) → ArePossible past → length (subs past) ≤ 64 }
    ensures clients { (past : List NtfChange) → ArePossible past → (sub : Sub) →
        Stands sub (subs past) →
        is_using past sub.client ≡ true }
    ensures ids { (past : List NtfChange) → ArePossible past → HaveIds (subs past) }
    ensures queues { (capacity : ℕ) (past : List NtfChange) (sub : Sub) → IsCapacity capacity →
        length past < 4294967295 → IsSound (kept_of capacity past sub).queue }
{}

/// The users stand in order, and are those who began their use and have not ended it since.
pub fn law_of_users()
    ensures users { (past : List NtfChange) (client : ℕ) → has client (users past)
        ≡ is_using past client }
    ensures order { (past : List NtfChange) → IsRising nat_lt (users past) }
    ensures ids { (past : List NtfChange) → last_id past ≤ length past }
{}

/// Stored alarms go as the view of them does: an alarm that is sent is added behind the others, and
/// is one that can be added; the alarms of early records are dropped; they stand in order.
pub fn law_of_stored()
    ensures sent { (first number : ℕ) (notification : Notification) (past : List NtfChange) →
        is_alarm notification.body ≡ true → first ≤ number →
        AddsAlarm first notification number past }
    ensures other { (first number : ℕ) (notification : Notification) (past : List NtfChange) →
        is_alarm notification.body ≡ false →
        stored_alarms first (Sent notification number ∷ past) ≡ stored_alarms first past }
    ensures later { (first later : ℕ) (past : List NtfChange) → first ≤ later →
        from_record later (stored_alarms first past) ≡ stored_alarms later past }
    ensures can_add { (first number : ℕ) (notification : Notification) (past : List NtfChange) →
        ArePossible past → CanSend notification number past → is_alarm notification.body ≡ true →
        CanAdd number notification (stored_alarms first past) }
    ensures order { (first : ℕ) (past : List NtfChange) → ArePossible past →
        AreInOrder (stored_alarms first past) }
{}

/// The readers stand in order of their clients, one a client, each as it is told by what changed
/// it.
pub fn law_of_readers()
    ensures order { (past : List ReaderChange) → IsRising reader_first (readers past) }
    ensures reader { (past : List ReaderChange) (client : ℕ) →
        find (is_reader_of client) (readers past) ≡ reader_of past client }
{}
