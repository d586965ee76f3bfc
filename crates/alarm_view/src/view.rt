//! The alarms that are kept.
ghost use Rattle.std.specs.Prelude.{◌≡◌, ◌≤◌, [], ◌∷◌, ◌++◌, length, OnOk, OnErr, IfOk, IfSome, IfNone, slice_get, MatchOption};
ghost use Rattle.alarm_view.specs.Alarms.{kept_alarm, notifications, AreInOrder, CanAdd, from_record};
ghost use Rattle.alarm_view.specs.Nearest.{IsNone, CanStart, CanFollow, IsStartAt, IsNext, cursor_after};

use crate::changing::{add_reserved, drop_early};
use crate::place::Place;
use crate::rebuilding::order_of;
use crate::search::{next_in, start_in};
use crate::{Cursor, Direction, KeptAlarm, SearchMode};
use ais_values::Shared;
use ntf_filters::FilterSet;
use ntf_types::Notification;
use std::alloc::{AllocError, Global};
use std::collections::VecDeque;
use std::marker::Model;

/// The alarms whose records are stored, in order of their records, and their places in order of event
/// time and id. Contracts see the list of alarms, and for how many more there is room.
pub struct AlarmView {
    alarms: VecDeque<KeptAlarm>,
    order: Vec<Place>,
}

// Written out, as a derived one is proved anew in each crate that lets such a value go.
impl Drop for AlarmView {
    fn drop(self) {
        let AlarmView { alarms, order } = self;
        drop(alarms);
        drop(order);
    }
}

impl Model for AlarmView {
    ghost use Rattle.alarm_view.specs.Alarms.{KeptAlarms};

    ghost Value = { KeptAlarms };

    ghost use Rattle.alarm_view.specs.Inside.{kept_inside, IsIndexed};

    ghost view = { kept_inside };

    ghost invariant = { λ view. IsIndexed view.alarms.items view.order.items };
}

impl AlarmView {
    /// No alarms. It takes no memory.
    pub fn new(alloc: Global) -> AlarmView
        ensures { result.kept ≡ [] }
    {
        AlarmView {
            alarms: VecDeque::new(alloc),
            order: Vec::new(alloc),
        }
    }

    /// These alarms, whose record numbers and ids rise. It takes the memory of their order; an error is want of memory.
    pub fn rebuild(alloc: Global, alarms: Vec<KeptAlarm>) -> Result<AlarmView, AllocError>
        requires { AreInOrder alarms.items }
        ensures { IfOk result (λ view. view.kept ≡ alarms.items) }
    {
        let order = order_of(alloc, alarms.as_slice())?;
        Ok(AlarmView {
            alarms: VecDeque::from_vec(alarms),
            order,
        })
    }

    /// Adds the alarm of record `number` of the alarm stream. On an error, which is want of memory, no alarm
    /// is added.
    pub fn add(&mut self, number: u32, notification: Notification) -> Result<(), AllocError>
        requires { CanAdd number notification self.old.kept }
        ensures ok { OnOk result
            (self.new.kept ≡ self.old.kept ++ kept_alarm number notification ∷ []) }
        ensures err { OnErr result (self.new.kept ≡ self.old.kept) }
    {
        let alloc = *self.alarms.allocator();
        let shared = Shared::new(alloc, notification)?;
        self.reserve(alloc)?;
        self.add_reserved(number, shared);
        Ok(())
    }

    /// Makes room for one alarm more. The alarms stay as they are; an error is want of memory.
    pub fn reserve(&mut self, _alloc: Global) -> Result<(), AllocError>
        ensures kept { self.new.kept ≡ self.old.kept }
        ensures ok { OnOk result (1 ≤ self.new.spare) }
    {
        self.alarms.reserve(1)?;
        self.order.reserve(1)?;
        Ok(())
    }

    /// Adds the alarm of record `number` of the alarm stream, as `add` does, into room that was made for
    /// it. It takes no memory.
    pub fn add_reserved(&mut self, number: u32, notification: Shared<Notification>)
        requires room { 1 ≤ self.old.spare }
        requires can { CanAdd number notification self.old.kept }
        ensures { self.new.kept ≡ self.old.kept ++ kept_alarm number notification ∷ [] }
    {
        add_reserved(&mut self.alarms, &mut self.order, number, notification);
    }

    /// Drops the alarms of records below `number`. It takes no memory.
    pub fn keep_from(&mut self, number: u32)
        ensures { self.new.kept ≡ from_record number self.old.kept }
    {
        drop_early(&mut self.alarms, &mut self.order, number);
    }

    /// The cursor at the alarm that a search starts at: the first on the mode's way of those that
    /// match the filters and whose time or id is what the mode asks for. None exactly where there
    /// is no such alarm. It takes no memory.
    pub fn start(&self, mode: SearchMode, value: i64, filters: &FilterSet) -> Option<Cursor>
        ensures found { IfSome result
            (λ cursor. IsStartAt mode value filters.now (notifications self.now.kept) cursor) }
        ensures none { IfNone result (IsNone (CanStart mode value filters.now)
            (notifications self.now.kept)) }
        ensures order { AreInOrder self.now.kept }
    {
        match start_in(&self.alarms, self.order.as_slice(), mode, value, filters) {
            None => None,
            Some(alarm) => Some(Cursor::at(alarm, true)),
        }
    }

    /// The alarm that is read next, and the cursor behind it: the first in the direction of those
    /// that match the filters and lie at the cursor or beyond where it is fresh, and else beyond
    /// it. None exactly where there is no such alarm. It takes no memory.
    pub fn next(
        &self,
        cursor: Cursor,
        way: Direction,
        filters: &FilterSet,
    ) -> Option<(Cursor, &Notification)>
        ensures found { IfSome result
            (λ found. IsNext cursor way filters.now (notifications self.now.kept) found.1.now) }
        ensures after { IfSome result (λ found. found.0 ≡ cursor_after found.1.now) }
        ensures none { IfNone result (IsNone (CanFollow way cursor filters.now)
            (notifications self.now.kept)) }
        ensures order { AreInOrder self.now.kept }
    {
        match next_in(&self.alarms, self.order.as_slice(), &cursor, way, filters) {
            None => None,
            Some(alarm) => Some((Cursor::at(alarm, false), alarm)),
        }
    }

    /// How many alarms are kept.
    pub fn count(&self) -> u32
        ensures count { result ≡ length self.now.kept }
        ensures order { AreInOrder self.now.kept }
    {
        self.alarms.len() as u32
    }

    /// The alarm at a place, from 0, in order of records, with the number of its record. None
    /// exactly where fewer are kept.
    pub fn alarm_at(&self, place: u32) -> Option<(u32, &Notification)>
        ensures { MatchOption result (slice_get self.now.kept place ≡ None)
            (λ found. slice_get self.now.kept place ≡ Some (kept_alarm found.0 found.1.now)) }
    {
        let (number, shared) = self.shared_at(place)?;
        Some((number, shared.get()))
    }

    /// The alarm at a place as it is shared. Beside that it is `alarm_at`.
    pub fn shared_at(&self, place: u32) -> Option<(u32, &Shared<Notification>)>
        ensures { MatchOption result (slice_get self.now.kept place ≡ None)
            (λ found. slice_get self.now.kept place ≡ Some (kept_alarm found.0 found.1.now)) }
    {
        let alarm = self.alarms.get(place as usize)?;
        Some((alarm.number, &alarm.notification))
    }
}
