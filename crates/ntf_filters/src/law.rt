//! Laws of sets of filters: `==` is equality, and the tests that compute hold of what they stand for.
ghost use Rattle.std.specs.Prelude.{◌≡◌, ◌↔◌, IsTrue};
ghost use Rattle.ntf_types.specs.declared.notification.Notification.{Notification};
ghost use Rattle.ntf_filters.specs.declared.filter.FilterSet.{FilterSet as FilterSetOf};
ghost use Rattle.ntf_filters.specs.Fit.{IsFit};
ghost use Rattle.ntf_filters.specs.FitTests.{is_fit};
ghost use Rattle.ntf_filters.specs.Matching.{matches};
ghost use Rattle.ntf_filters.specs.Meaning.{IsMatch};

use crate::FilterSet;

/// Two sets of filters are told equal by `==` exactly where they are equal.
pub fn law_of_equality()
    ensures { (one other : FilterSetOf) → IsTrue (⟦<FilterSet as PartialEq>⟧.eq one other)
        ↔ (one ≡ other) }
{}

/// Of the tests that definitions compute with, one holds exactly of the sets of filters that may be used, and
/// the other exactly where a set asks for a notification.
pub fn law_of_tests()
    ensures fit { (filters : FilterSetOf) → IsTrue (is_fit filters) ↔ IsFit filters }
    ensures matching { (filters : FilterSetOf) (notification : Notification) →
        IsTrue (matches filters notification) ↔ IsMatch filters notification }
{}
