//! A service that nobody has used.
ghost use Rattle.std.specs.Prelude.{◌≡◌, IfOk};
ghost use Rattle.sub_queue.specs.Queue.{IsCapacity};
ghost use Rattle.plain_service.specs.Setups.{Setup};
ghost use Rattle.service_core.specs.Beginning.{BeginsAs, CanBeginAs};
ghost use Rattle.service_core.specs.Inside.{kept_table};
ghost use Rattle.service_core.specs.Opening.{unused_table, HasOpened};

use crate::deeds::deeds_of_all;
use crate::kept::Kept;
use crate::parts::Parts;
use ais_values::Seq;
use alarm_view::AlarmView;
use log_service::LogState;
use ntf_service::NtfState;
use std::alloc::{AllocError, Global};
use stream_config::StreamAttrs;
use stream_layout::Deed;

/// The parts of a service whose log stands so, and nothing else was ever kept.
fn unused(alloc: Global, cap: u32, log: LogState) -> Kept
    requires { IsCapacity cap }
    ensures { kept_table result ≡ unused_table cap log.table }
{
    Kept {
        parts: Parts {
            number: 0,
            log,
            ntf: NtfState::new(alloc, cap),
            alarms: AlarmView::new(alloc),
            readers: Vec::new(alloc),
        },
        callers: Vec::new(alloc),
    }
}

/// What a service keeps as it begins, and the deeds by which its well-known streams are made.
pub(crate) fn opened(
    alloc: Global,
    start: i64,
    cap: u32,
    wells: Seq<StreamAttrs>,
) -> Result<(Kept, Seq<Deed>), AllocError>
    requires { CanBeginAs start cap wells }
    ensures { IfOk result (λ made. (setup : Setup) → BeginsAs setup start cap wells →
        HasOpened setup made.0 made.1) }
{
    let (log, events) = LogState::new(alloc, start, wells)?;
    let deeds = deeds_of_all(alloc, events.as_slice())?;
    Ok((unused(alloc, cap, log), deeds))
}
