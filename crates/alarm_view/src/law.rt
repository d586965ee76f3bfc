//! Laws of the order of alarms, of the nearest among them, and of the searches for it.
ghost use Rattle.std.specs.Prelude.{◌≡◌, true, false, ℤ, List};
ghost use Rattle.ntf_types.specs.declared.notification.Notification.{Notification};
ghost use Rattle.alarm_view.specs.declared.alarm.KeptAlarm.{KeptAlarm};
ghost use Rattle.ntf_filters.specs.declared.filter.FilterSet.{FilterSet};
ghost use Rattle.alarm_view.specs.declared.cursor.Cursor.{Cursor};
ghost use Rattle.alarm_view.specs.declared.mode.Direction.{Direction};
ghost use Rattle.alarm_view.specs.declared.mode.SearchMode.{SearchMode};
ghost use Rattle.alarm_view.specs.Order.{Point, comes_before};
ghost use Rattle.alarm_view.specs.Alarms.{notifications, AreInOrder};
ghost use Rattle.alarm_view.specs.Nearest.{IsStart, IsNext};
ghost use Rattle.alarm_view.specs.Found.{HoldsOnce, StartsExactly, FollowsExactly};

/// In each direction the places are in an order: none is met before itself, of two with different
/// ids exactly one is met first, and what is met before one that is met before a third is met
/// before it.
pub fn law_of_order()
    ensures self_apart { (way : Direction) (one : Point) → comes_before way one one ≡ false }
    ensures one_way { (way : Direction) (one other : Point) →
        comes_before way one other ≡ true → comes_before way other one ≡ false }
    ensures total { (way : Direction) (one other : Point) →
        comes_before way one other ≡ false → comes_before way other one ≡ false →
        one.id ≡ other.id }
    ensures onward { (way : Direction) (one other last : Point) →
        comes_before way one other ≡ true → comes_before way other last ≡ true →
        comes_before way one last ≡ true }
{}

/// There is one starting alarm at most, and one alarm at most that is read next.
pub fn law_of_nearest()
    ensures start { (mode : SearchMode) (value : ℤ) (filters : FilterSet)
        (alarms : List KeptAlarm) → AreInOrder alarms →
        HoldsOnce (IsStart mode value filters (notifications alarms)) }
    ensures next { (cursor : Cursor) (way : Direction) (filters : FilterSet)
        (alarms : List KeptAlarm) → AreInOrder alarms →
        HoldsOnce (IsNext cursor way filters (notifications alarms)) }
{}

/// The searches that definitions compute with, over alarms in order, the newest first, find exactly the starting
/// alarm, and exactly the one that is read next; nothing is found exactly where there is no such alarm.
pub fn law_of_search()
    ensures start { (mode : SearchMode) (value : ℤ) (filters : FilterSet)
        (alarms : List KeptAlarm) → AreInOrder alarms → StartsExactly mode value filters alarms }
    ensures next { (cursor : Cursor) (way : Direction) (filters : FilterSet)
        (alarms : List KeptAlarm) → AreInOrder alarms → FollowsExactly cursor way filters alarms }
{}
