//! What calls ask of filters and of notifications before anything is made of them.
ghost use Rattle.std.specs.Prelude.{◌≡◌, ◌↔◌, IsTrue};
ghost use Rattle.alarm_view.specs.Alarms.{IsAlarm};
ghost use Rattle.ntf_filters.specs.Fit.{IsFit};
ghost use Rattle.ntf_filters.specs.FitTests.{is_fit};
ghost use Rattle.ntf_history.specs.Rows.{asks_for_alarms};
ghost use Rattle.ntf_history.specs.StoredAlarms.{is_alarm};

use ntf_filters::{FilterSet, check_filters};
use ntf_types::Body;

/// Whether filters may be used.
pub fn is_usable(filters: &FilterSet) -> bool
    ensures tested { result ≡ is_fit filters.now }
    ensures fit { IsTrue result ↔ IsFit filters.now }
{
    check_filters(filters).is_ok()
}

/// Whether filters ask for alarms and security alarms alone.
pub fn asks_for_alarms(filters: &FilterSet) -> bool
    ensures { result ≡ asks_for_alarms filters.now }
{
    filters.objects.is_none() && filters.attributes.is_none() && filters.states.is_none()
}

/// Whether a body is that of an alarm or a security alarm.
pub fn is_alarm(body: &Body) -> bool
    ensures tested { result ≡ is_alarm body.now }
    ensures alarm { IsTrue result ↔ IsAlarm body.now }
{
    matches!(body, Body::Alarm { .. } | Body::Security { .. })
}
