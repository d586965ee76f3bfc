//! Laws of the constants: the tables have the rows of their definitions.
ghost use Rattle.std.specs.Prelude.{◌≡◌};
ghost use Rattle.ais_values.specs.Codes.{HasRow};
ghost use Rattle.ais_values.specs.Statuses.{status_code, status_word};
ghost use Rattle.ais_values.specs.Tables.{IsTable, status_rows, log_severity_rows};
ghost use Rattle.ais_values.specs.Tables.{full_action_rows, notification_type_rows};
ghost use Rattle.ais_values.specs.Tables.{event_type_rows, perceived_severity_rows};
ghost use Rattle.ais_values.specs.Tables.{source_indicator_rows, search_mode_rows, month_rows};
ghost use Rattle.ais_values.specs.Times.{unknown_time};
ghost use Rattle.ais_values.specs.declared.status.Status.{Status};

use crate::UNKNOWN_TIME;
use crate::tables::*;

/// Each table has the rows of its definition, in order; no two of its names are the same, and no two of its
/// codes. The table of statuses pairs the number and the word of each.
pub fn law_of_tables()
    ensures statuses { IsTable (λ name. name.now) STATUSES status_rows }
    ensures status { (status : Status) → HasRow (λ name. name.now) STATUSES (status_word status)
        (status_code status) }
    ensures log_severities { IsTable (λ name. name.now) LOG_SEVERITIES log_severity_rows }
    ensures full_actions { IsTable (λ name. name.now) FULL_ACTIONS full_action_rows }
    ensures notification_types { IsTable (λ name. name.now) NOTIFICATION_TYPES
        notification_type_rows }
    ensures event_types { IsTable (λ name. name.now) EVENT_TYPES event_type_rows }
    ensures perceived_severities { IsTable (λ name. name.now) PERCEIVED_SEVERITIES
        perceived_severity_rows }
    ensures source_indicators { IsTable (λ name. name.now) SOURCE_INDICATORS source_indicator_rows }
    ensures search_modes { IsTable (λ name. name.now) SEARCH_MODES search_mode_rows }
    ensures months { IsTable (λ name. name.now) MONTHS month_rows }
{}

/// The unknown time is that of its definition.
pub fn law_of_unknown_time()
    ensures { UNKNOWN_TIME ≡ unknown_time }
{}
