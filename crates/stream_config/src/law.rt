//! Laws of streams: `==` is equality, and the tests that compute hold of what they stand for.
ghost use Rattle.std.specs.Prelude.{◌≡◌, ◌↔◌, ◌*◌, ◌<◌, ℕ, nat_lt, IsTrue};
ghost use Rattle.ais_values.specs.declared.kind.StreamKind.{StreamKind};
ghost use Rattle.stream_config.specs.declared.attrs.StreamAttrs.{StreamAttrs as AttrsOf};
ghost use Rattle.stream_config.specs.declared.attrs.StreamName.{StreamName as NameOf};
ghost use Rattle.stream_config.specs.declared.mark.Mark.{Mark as MarkOf};
ghost use Rattle.stream_config.specs.declared.state.StreamState.{StreamState as StateOf};
ghost use Rattle.stream_config.specs.declared.event.StreamEvent.{StreamEvent as EventOf};
ghost use Rattle.stream_config.specs.Attributes.{PassesAttrs, HaveOnePlace};
ghost use Rattle.stream_config.specs.AttributeTests.{passes_attrs, have_one_place};
ghost use Rattle.stream_config.specs.Equality.{same_name, same_attrs};
ghost use Rattle.stream_config.specs.Sizes.{records_per_file, has_room};

use crate::{Mark, StreamAttrs, StreamEvent, StreamName, StreamState};

/// Two names, two streams' attributes, two marks, two states and two events are told equal by `==` exactly where
/// they are equal.
pub fn law_of_equality()
    ensures names { (one other : NameOf) → IsTrue (⟦<StreamName as PartialEq>⟧.eq one other)
        ↔ (one ≡ other) }
    ensures attributes { (one other : AttrsOf) →
        IsTrue (⟦<StreamAttrs as PartialEq>⟧.eq one other) ↔ (one ≡ other) }
    ensures marks { (one other : MarkOf) → IsTrue (⟦<Mark as PartialEq>⟧.eq one other)
        ↔ (one ≡ other) }
    ensures states { (one other : StateOf) →
        IsTrue (⟦<StreamState as PartialEq>⟧.eq one other) ↔ (one ≡ other) }
    ensures events { (one other : EventOf) →
        IsTrue (⟦<StreamEvent as PartialEq>⟧.eq one other) ↔ (one ≡ other) }
{}

/// The tests that definitions compute with hold exactly of the attributes that a stream of a kind may have, of two
/// streams with one place, of two equal names, and of two streams' equal attributes.
pub fn law_of_tests()
    ensures passing { (kind : StreamKind) (attrs : AttrsOf) → IsTrue (passes_attrs kind attrs)
        ↔ PassesAttrs kind attrs }
    ensures places { (one other : AttrsOf) → IsTrue (have_one_place one other)
        ↔ HaveOnePlace one other }
    ensures names { (one other : NameOf) → IsTrue (same_name one other) ↔ (one ≡ other) }
    ensures attributes { (one other : AttrsOf) → IsTrue (same_attrs one other) ↔ (one ≡ other) }
{}

/// Where all records have one size, one more fits behind so many of them exactly where these are fewer than a
/// file holds.
pub fn law_of_sizes()
    ensures { (attrs : AttrsOf) (count : ℕ) → 0 < attrs.record_size →
        has_room attrs (count * attrs.record_size) attrs.record_size
        ≡ nat_lt count (records_per_file attrs) }
{}
