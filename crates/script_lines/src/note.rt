//! The parts in which a script writes a notification.
use ais_values::{ClassId, Name, Seq, Text};
use ntf_types::Pair;

/// The type of a notification, as a script names it.
#[derive(Clone, Copy, Debug, PartialEq, Eq)]
pub enum NoteKind {
    Objects,
    Attributes,
    States,
    Alarm,
    Security,
}

/// What a script writes of each notification, whatever its type.
#[derive(Drop)]
pub struct Heading {
    pub event_type: u16,
    pub object: Name,
    pub notifier: Name,
    pub class: ClassId,
    pub event_time: i64,
    pub correlated: Seq<u64>,
    pub text: Text,
    pub info: Seq<Pair>,
}
