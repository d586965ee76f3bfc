//! Laws of the whole service over all histories, the newest entry first.
ghost use Rattle.std.specs.Prelude.{◌≡◌, ◌≢◌, ◌⊎◌, ◌↔◌, ℕ, ℤ, ◌+◌, ◌≤◌, true, List, [], ◌∷◌, ◌++◌, length};
ghost use Rattle.std.specs.List.{AllByRecursion};
ghost use Rattle.ais_values.specs.declared.status.Status.TheVariants as status;
ghost use Rattle.client_set.specs.Members.{Stands};
ghost use Rattle.stream_layout.specs.Carrying.{IsFitEvent};
ghost use Rattle.calls.specs.declared.call.Call.{Call as CallOf};
ghost use Rattle.calls.specs.declared.entry.Entry.{Entry as EntryOf};
ghost use Rattle.calls.specs.declared.entry.Entry.TheVariants.{Called, Receipted};
ghost use Rattle.calls.specs.declared.entry.Held.{Held as HeldOf};
ghost use Rattle.calls.specs.declared.reply.Reply.TheVariants.{Refused, Sent};
ghost use Rattle.client_set.specs.Rising.{IsRising};
ghost use Rattle.sub_queue.specs.Items.{marks_in};
ghost use Rattle.ntf_history.specs.Subscriptions.{Extends, losses_in};
ghost use Rattle.ntf_history.specs.Tables.{after_receipt};
ghost use Rattle.plain_service.specs.Setups.{Setup};
ghost use Rattle.plain_service.specs.Alarms.{first_standing};
ghost use Rattle.plain_service.specs.Answers.{status_of};
ghost use Rattle.plain_service.specs.Changing.{past_of};
ghost use Rattle.plain_service.specs.Replies.{ok_reply, reply_of, calls_of, replies_to, ids_told, AreCounted, EndsIn};
ghost use Rattle.plain_service.specs.Items.{items_of, made_for, through_for, is_new_receipt, IsHeldItem, Leaves};
ghost use Rattle.plain_service.specs.Asked.{lost_for, sends_asked, sends_dropped, lower_id};
ghost use Rattle.plain_service.specs.Storing.{events_by};
ghost use Rattle.plain_service.specs.Legal.{IsHistory};
ghost use Rattle.plain_service.specs.Laws.{log_table, log_table_after, ntf_table, ntf_table_after, MovesByReceipt};

/// A reply stands once it is given: a longer history changes no earlier one. A client's replies are
/// one for each of its calls; each is the refusal of the first row of the table that holds, and
/// where none holds what an ok call is told.
pub fn law_of_replies()
    ensures stand { (setup : Setup) (client : ℕ) (later past : List EntryOf) →
        EndsIn (replies_to setup client (later ++ past)) (replies_to setup client past) }
    ensures own { (setup : Setup) (client seq : ℕ) (now : ℤ) (call : CallOf) (past : List EntryOf) →
        replies_to setup client (Called client seq now call ∷ past)
        ≡ reply_of setup past client now call ∷ replies_to setup client past }
    ensures count { (setup : Setup) (client : ℕ) (past : List EntryOf) →
        length (replies_to setup client past) ≡ length (calls_of client past) }
    ensures refused { (setup : Setup) (past : List EntryOf) (client : ℕ) (now : ℤ) (call : CallOf) →
        let answered = status_of setup (past_of setup past) client now call in
        answered ≢ status.Ok → reply_of setup past client now call ≡ Refused answered }
    ensures told { (setup : Setup) (past : List EntryOf) (client : ℕ) (now : ℤ) (call : CallOf) →
        status_of setup (past_of setup past) client now call ≡ status.Ok →
        reply_of setup past client now call ≡ ok_reply setup (past_of setup past) client now call }
{}

/// The ids that sends are told are 1, 2, 3 and so on: the next is one above the count of those
/// told.
pub fn law_of_ids()
    ensures counted { (setup : Setup) (past : List EntryOf) → AreCounted (ids_told setup past) }
    ensures next { (setup : Setup) (past : List EntryOf) (client : ℕ) (now : ℤ) (call : CallOf)
        (id : ℕ) →
        reply_of setup past client now call ≡ Sent id → id ≡ length (ids_told setup past) + 1 }
{}

/// Items that were made stay made, in order. An item is held exactly where it was made, under its
/// number, for a subscription that lasts, and has no receipt; it leaves by a receipt through its
/// number or a later one, or with its subscription, and keeps number and content until then. A
/// receipt alone moves the number through which a subscription has one, and a new one moves it to
/// its own.
pub fn law_of_items()
    ensures grows { (setup : Setup) (entry : EntryOf) (past : List EntryOf) (client key : ℕ) →
        Extends (made_for setup past client key) (made_for setup (entry ∷ past) client key) }
    ensures held { (setup : Setup) (past : List EntryOf) (held : HeldOf) →
        Stands held (items_of setup past) ↔ IsHeldItem setup past held }
    ensures stays { (setup : Setup) (entry : EntryOf) (past : List EntryOf) (held : HeldOf) →
        Stands held (items_of setup past) →
        Stands held (items_of setup (entry ∷ past)) ⊎ Leaves setup entry past held }
    ensures begins { (setup : Setup) (client key : ℕ) → through_for setup [] client key ≡ 0 }
    ensures moves { (setup : Setup) (entry : EntryOf) (past : List EntryOf) (client key : ℕ) →
        MovesByReceipt setup entry past client key }
    ensures received { (setup : Setup) (past : List EntryOf) (client key through : ℕ) (now : ℤ) →
        is_new_receipt setup past client key through ≡ true →
        through_for setup (Receipted client key through now ∷ past) client key ≡ through }
{}

/// Of each subscription that was ever made, also after its end: the items made for it, and then what
/// was lost since the last, tell of the sends answered ok for which it asked while it lasted, by type
/// and by the id that the send was told, each once and in order; what they tell as lost are those of
/// them that were dropped. The ids rise, so that no send is told twice and those of one sender come in
/// its order.
pub fn law_of_asked()
    ensures told { (setup : Setup) (past : List EntryOf) (client key : ℕ) →
        marks_in (made_for setup past client key) ++ lost_for setup past client key
        ≡ sends_asked setup past client key }
    ensures dropped { (setup : Setup) (past : List EntryOf) (client key : ℕ) →
        losses_in (made_for setup past client key) ++ lost_for setup past client key
        ≡ sends_dropped setup past client key }
    ensures rise { (setup : Setup) (past : List EntryOf) (client key : ℕ) →
        IsRising lower_id (sends_asked setup past client key) }
{}

/// What is kept of both services after one more entry is what the entry's change makes of what was
/// kept before; the first record of the alarm stream that stands never falls.
pub fn law_of_steps()
    ensures log { (setup : Setup) (entry : EntryOf) (past : List EntryOf) →
        IsHistory setup (entry ∷ past) →
        log_table setup (entry ∷ past) ≡ log_table_after setup entry past }
    ensures ntf { (setup : Setup) (client seq : ℕ) (now : ℤ) (call : CallOf) (past : List EntryOf) →
        let later = Called client seq now call ∷ past in IsHistory setup later →
        ntf_table setup later ≡ ntf_table_after setup client seq now call past }
    ensures receipt { (setup : Setup) (client key through : ℕ) (now : ℤ) (past : List EntryOf) →
        let later = Receipted client key through now ∷ past in IsHistory setup later →
        ntf_table setup later ≡ after_receipt client key through (ntf_table setup past) }
    ensures first { (setup : Setup) (entry : EntryOf) (past : List EntryOf) → IsHistory setup past →
        first_standing setup (past_of setup past).log
        ≤ first_standing setup (past_of setup (entry ∷ past)).log }
{}

/// Each event that an entry of a history brings to a stream can happen to it, so that its deeds are
/// told.
pub fn law_of_events()
    ensures { (setup : Setup) (entry : EntryOf) (past : List EntryOf) →
        IsHistory setup (entry ∷ past) →
        AllByRecursion IsFitEvent (events_by setup (past_of setup past) entry) }
{}
