//! Filters and sets of filters.
use ais_values::{ClassId, Duplicate, Name, Seq};
use std::alloc::{AllocError, Global};

/// A filter of notifications of one type. A list that is not empty asks for one of its values.
#[derive(PartialEq)]
pub struct Filter {
    /// Event types.
    pub types: Seq<u16>,
    /// Objects that the notification is about.
    pub objects: Seq<Name>,
    /// Objects that notify.
    pub notifiers: Seq<Name>,
    pub classes: Seq<ClassId>,
    /// Source indicators of notifications on objects, attributes and states.
    pub sources: Seq<u16>,
    /// Probable causes of alarms and security alarms.
    pub causes: Seq<u16>,
    /// Perceived severities of alarms and security alarms.
    pub severities: Seq<u16>,
}

// Written out, as a derived one is proved anew in each crate that lets such a value go.
impl Drop for Filter {
    fn drop(self) {
        let Filter {
            types,
            objects,
            notifiers,
            classes,
            sources,
            causes,
            severities,
        } = self;
        drop(types);
        drop(objects);
        drop(notifiers);
        drop(classes);
        drop(sources);
        drop(causes);
        drop(severities);
    }
}

/// At most one filter for each type of notifications. A type without one is not asked for.
#[derive(PartialEq)]
pub struct FilterSet {
    pub objects: Option<Filter>,
    pub attributes: Option<Filter>,
    pub states: Option<Filter>,
    pub alarms: Option<Filter>,
    pub security: Option<Filter>,
}

// Written out, as a derived one is proved anew in each crate that lets such a value go.
impl Drop for FilterSet {
    fn drop(self) {
        let FilterSet {
            objects,
            attributes,
            states,
            alarms,
            security,
        } = self;
        drop(objects);
        drop(attributes);
        drop(states);
        drop(alarms);
        drop(security);
    }
}

impl Duplicate for Filter {
    fn copy(&self, alloc: Global) -> Result<Self, AllocError> {
        Ok(Filter {
            types: self.types.copy(alloc)?,
            objects: self.objects.copy(alloc)?,
            notifiers: self.notifiers.copy(alloc)?,
            classes: self.classes.copy(alloc)?,
            sources: self.sources.copy(alloc)?,
            causes: self.causes.copy(alloc)?,
            severities: self.severities.copy(alloc)?,
        })
    }
}

impl Duplicate for FilterSet {
    fn copy(&self, alloc: Global) -> Result<Self, AllocError> {
        Ok(FilterSet {
            objects: self.objects.copy(alloc)?,
            attributes: self.attributes.copy(alloc)?,
            states: self.states.copy(alloc)?,
            alarms: self.alarms.copy(alloc)?,
            security: self.security.copy(alloc)?,
        })
    }
}
