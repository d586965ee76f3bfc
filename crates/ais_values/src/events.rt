//! The event types of notifications.
ghost use Rattle.std.specs.Prelude.{◌≡◌};
ghost use Rattle.std.specs.List.{list_any};
ghost use Rattle.ais_values.specs.Codes.{has_code};
ghost use Rattle.ais_values.specs.Events.{is_event_type};

use crate::CodeRow;
use crate::tables::EVENT_TYPES;

/// Whether a row has the code.
fn has_row(rows: &[CodeRow], code: u32) -> bool
    ensures { result ≡ list_any (has_code code) rows.now }
{
    rows.iter().any(|row| row.code == code)
}

/// Whether this is the code of an event type, of whatever type of notifications.
pub fn is_event_type(code: u16) -> bool
    ensures { result ≡ is_event_type code }
{
    has_row(&EVENT_TYPES, u32::from(code))
}
