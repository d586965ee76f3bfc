//! The places of subscriptions, by the types of notifications that they have filters of.
ghost use Rattle.std.specs.Prelude.{◌≡◌, ◌∷◌, [], ◌++◌, ◌<◌, ◌≤◌, length, if◌then◌else◌};
ghost use Rattle.arrayvec.specs.ArrayVec.{array_vec_len};
ghost use Rattle.ntf_service.specs.ByKind.{kind_for, has_filter, filters_of, places_in, IsByKind};
ghost use Rattle.ntf_service.specs.declared.by_kind.Kind.{Kind};

use crate::subscription::Subscription;
use arrayvec::ArrayVec;
use ntf_filters::FilterSet;
use ntf_types::Body;

/// A type of notifications.
#[derive(Clone, Copy)]
pub(crate) enum Kind {
    Objects,
    Attributes,
    States,
    Alarms,
    Security,
}

/// For each type the places of the subscriptions that have a filter of it, rising. At most 64 subscriptions last.
#[derive(Drop)]
pub(crate) struct ByKind {
    objects: ArrayVec<u8, 64>,
    attributes: ArrayVec<u8, 64>,
    states: ArrayVec<u8, 64>,
    alarms: ArrayVec<u8, 64>,
    security: ArrayVec<u8, 64>,
}

/// The type that a body is of.
pub(crate) fn kind_for(body: &Body) -> Kind
    ensures { result ≡ kind_for body.now }
{
    match body {
        Body::Objects { .. } => Kind::Objects,
        Body::Attributes { .. } => Kind::Attributes,
        Body::States { .. } => Kind::States,
        Body::Alarm { .. } => Kind::Alarms,
        Body::Security { .. } => Kind::Security,
    }
}

/// Adds a place behind the others where it is one of theirs.
fn add_place(places: &mut ArrayVec<u8, 64>, place: usize, theirs: bool)
    requires few { place < 64 }
    requires behind { array_vec_len places.old ≤ place }
    ensures { places.new.items ≡ places.old.items ++ (if theirs then place ∷ [] else []) }
{
    if theirs {
        places.push(place as u8);
    }
}

impl ByKind {
    /// No places.
    fn new() -> ByKind
        ensures { IsByKind result [] }
    {
        ByKind {
            objects: ArrayVec::new(),
            attributes: ArrayVec::new(),
            states: ArrayVec::new(),
            alarms: ArrayVec::new(),
            security: ArrayVec::new(),
        }
    }

    /// Adds a place behind those of each type that a set has a filter of.
    fn add(&mut self, place: usize, set: &FilterSet)
        requires few { place < 64 }
        requires behind { (kind : Kind) → length (places_in kind self.old) ≤ place }
        ensures { (kind : Kind) → places_in kind self.new
            ≡ places_in kind self.old ++ (if has_filter kind set.now then place ∷ [] else []) }
    {
        add_place(&mut self.objects, place, set.objects.is_some());
        add_place(&mut self.attributes, place, set.attributes.is_some());
        add_place(&mut self.states, place, set.states.is_some());
        add_place(&mut self.alarms, place, set.alarms.is_some());
        add_place(&mut self.security, place, set.security.is_some());
    }

    /// The places of these subscriptions.
    pub(crate) fn of(subs: &[Subscription]) -> ByKind
        requires { length subs.now ≤ 64 }
        ensures { IsByKind result (filters_of subs.now) }
    {
        let mut by_kind = ByKind::new();
        for place in 0..subs.len() {
            let kept = &subs[place];
            by_kind.add(place, kept.filters.get());
        }
        by_kind
    }

    /// The places that are kept for a type.
    pub(crate) fn places(&self, kind: Kind) -> &[u8]
        ensures { result.now ≡ places_in kind self.now }
    {
        match kind {
            Kind::Objects => self.objects.as_slice(),
            Kind::Attributes => self.attributes.as_slice(),
            Kind::States => self.states.as_slice(),
            Kind::Alarms => self.alarms.as_slice(),
            Kind::Security => self.security.as_slice(),
        }
    }
}
