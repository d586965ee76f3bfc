//! Which notifications a set of filters asks for.
ghost use Rattle.std.specs.Prelude.{◌≡◌, ◌↔◌, IsTrue};
ghost use Rattle.ntf_filters.specs.Meaning.{source_of, cause_of, severity_of, filter_for, IsMatch};
ghost use Rattle.ntf_filters.specs.Matching.{admits, admits_option, admits_common, admits_body, is_admitted};

use crate::{Filter, FilterSet};
use ntf_types::{Body, Notification};

/// Whether a list is empty or holds the value.
#[tactic(auto, unfolding(crate::specs::Matching::admits))]
fn admits<T: PartialEq>(values: &[T], value: &T) -> bool
    ensures { result ≡ admits T.eq values.now value.now }
{
    values.is_empty() || values.contains(value)
}

/// Whether a list is empty or holds the value that is there.
#[tactic(auto, unfolding(crate::specs::Matching::admits_option))]
fn admits_option(values: &[u16], value: Option<u16>) -> bool
    ensures { result ≡ admits_option values.now value }
{
    match value {
        None => values.is_empty(),
        Some(value) => admits(values, &value),
    }
}

/// The source indicator of a notification on objects, attributes or states.
fn source_of(body: &Body) -> Option<u16>
    ensures { result ≡ source_of body.now }
{
    match body {
        Body::Objects { source, .. }
        | Body::Attributes { source, .. }
        | Body::States { source, .. } => Some(*source),
        Body::Alarm { .. } | Body::Security { .. } => None,
    }
}

/// The probable cause of an alarm or a security alarm.
fn cause_of(body: &Body) -> Option<u16>
    ensures { result ≡ cause_of body.now }
{
    match body {
        Body::Alarm { cause, .. } | Body::Security { cause, .. } => Some(*cause),
        Body::Objects { .. } | Body::Attributes { .. } | Body::States { .. } => None,
    }
}

/// The perceived severity of an alarm or a security alarm.
fn severity_of(body: &Body) -> Option<u16>
    ensures { result ≡ severity_of body.now }
{
    match body {
        Body::Alarm { severity, .. } | Body::Security { severity, .. } => Some(*severity),
        Body::Objects { .. } | Body::Attributes { .. } | Body::States { .. } => None,
    }
}

/// The filter of the type that a body is of.
fn filter_for<'a>(filters: &'a FilterSet, body: &Body) -> &'a Option<Filter>
    ensures { result.now ≡ filter_for filters.now body.now }
{
    match body {
        Body::Objects { .. } => &filters.objects,
        Body::Attributes { .. } => &filters.attributes,
        Body::States { .. } => &filters.states,
        Body::Alarm { .. } => &filters.alarms,
        Body::Security { .. } => &filters.security,
    }
}

/// Whether the lists of what every notification has admit this one.
#[tactic(auto, unfolding(crate::specs::Matching::admits_common))]
fn admits_common(notification: &Notification, filter: &Filter) -> bool
    ensures { result ≡ admits_common notification.now filter.now }
{
    admits(filter.types.as_slice(), &notification.event_type)
        && admits(filter.objects.as_slice(), &notification.object)
        && admits(filter.notifiers.as_slice(), &notification.notifier)
        && admits(filter.classes.as_slice(), &notification.class)
}

/// Whether the lists of what only some notifications have admit this body.
#[tactic(auto, unfolding(crate::specs::Matching::admits_body))]
fn admits_body(body: &Body, filter: &Filter) -> bool
    ensures { result ≡ admits_body body.now filter.now }
{
    admits_option(filter.sources.as_slice(), source_of(body))
        && admits_option(filter.causes.as_slice(), cause_of(body))
        && admits_option(filter.severities.as_slice(), severity_of(body))
}

/// Whether each list of a filter admits what the notification has.
fn is_admitted(notification: &Notification, filter: &Filter) -> bool
    ensures { result ≡ is_admitted notification.now filter.now }
{
    admits_common(notification, filter) && admits_body(&notification.body, filter)
}

/// Whether a set of filters asks for a notification: it has a filter of the notification's type, and
/// each list of that filter is empty or holds what the notification has. A list of what the notification
/// has not, as a cause where it is no alarm, must be empty. It takes no memory.
pub fn matches(filters: &FilterSet, notification: &Notification) -> bool
    ensures { IsTrue result ↔ IsMatch filters.now notification.now }
{
    match filter_for(filters, &notification.body) {
        None => false,
        Some(filter) => is_admitted(notification, filter),
    }
}
