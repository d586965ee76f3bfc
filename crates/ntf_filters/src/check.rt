//! What a set of filters must be to be used.
ghost use Rattle.std.specs.Prelude.{◌≡◌, ◌↔◌, IsTrue, IsOk, IsErrOf, IfSome};
ghost use Rattle.ntf_filters.specs.Fit.{HasNoAlarmLists, HasNoSources, HasFilter, IsFit};

use crate::{Filter, FilterSet};
use ais_values::Status;

/// Whether a filter lists neither causes nor severities.
fn has_no_alarm_lists(filter: &Option<Filter>) -> bool
    ensures { IsTrue result ↔ IfSome filter.now HasNoAlarmLists }
{
    match filter {
        None => true,
        Some(filter) => {
            filter.causes.as_slice().is_empty() && filter.severities.as_slice().is_empty()
        }
    }
}

/// Whether a filter lists no sources.
fn has_no_sources(filter: &Option<Filter>) -> bool
    ensures { IsTrue result ↔ IfSome filter.now HasNoSources }
{
    match filter {
        None => true,
        Some(filter) => filter.sources.as_slice().is_empty(),
    }
}

/// Whether the set has a filter.
fn has_filter(filters: &FilterSet) -> bool
    ensures { IsTrue result ↔ HasFilter filters.now }
{
    filters.objects.is_some()
        || filters.attributes.is_some()
        || filters.states.is_some()
        || filters.alarms.is_some()
        || filters.security.is_some()
}

/// Whether a set of filters may be used.
///
/// `InvalidParam`, the only error, comes exactly where the set is empty, a filter of objects, attributes
/// or states lists causes or severities, or a filter of alarms or security alarms lists sources. It takes
/// no memory.
pub fn check_filters(filters: &FilterSet) -> Result<(), Status>
    ensures accepted { IsOk result ↔ IsFit filters.now }
    ensures refused { IsErrOf result Status.InvalidParam ↔ (¬ IsFit filters.now) }
{
    if has_filter(filters)
        && has_no_alarm_lists(&filters.objects)
        && has_no_alarm_lists(&filters.attributes)
        && has_no_alarm_lists(&filters.states)
        && has_no_sources(&filters.alarms)
        && has_no_sources(&filters.security)
    {
        Ok(())
    } else {
        Err(Status::InvalidParam)
    }
}
