//! Laws of notifications: `==` is equality, and the test that computes holds of what may be sent.
ghost use Rattle.std.specs.Prelude.{◌≡◌, ◌↔◌, IsTrue};
ghost use Rattle.ntf_types.specs.declared.value.Value.{Value as ValueOf};
ghost use Rattle.ntf_types.specs.declared.notification.Notification.{Notification as NotificationOf};
ghost use Rattle.ntf_types.specs.Sound.{IsSound};
ghost use Rattle.ntf_types.specs.SoundTests.{is_sound};

use crate::{Notification, Value};

/// Two values, and two notifications, are told equal by `==` exactly where they are equal.
pub fn law_of_equality()
    ensures values { (one other : ValueOf) → IsTrue (⟦<Value as PartialEq>⟧.eq one other)
        ↔ (one ≡ other) }
    ensures notifications { (one other : NotificationOf) →
        IsTrue (⟦<Notification as PartialEq>⟧.eq one other) ↔ (one ≡ other) }
{}

/// The test that definitions compute with holds exactly of the notifications that may be sent.
pub fn law_of_tests()
    ensures { (notification : NotificationOf) → IsTrue (is_sound notification)
        ↔ IsSound notification }
{}
