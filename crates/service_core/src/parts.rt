//! The parts of a service, and what a call came to.
ghost use Rattle.std.specs.Prelude.{◌≡◌};
ghost use Rattle.calls.specs.declared.reply.Reply.TheVariants.{Done};
ghost use Rattle.service_core.specs.Acting.{marked_by};
ghost use Rattle.service_parts.specs.Telling.{IsTold};

use ais_values::{Seq, Status};
use alarm_view::AlarmView;
use calls::SavedReader;
use log_service::LogState;
use ntf_service::NtfState;
use service_parts::Told;
use stream_config::Mark;
use stream_layout::Deed;

/// How many entries were accepted, the states of both services, the stored alarms, and the readers.
#[derive(Drop)]
pub(crate) struct Parts {
    pub(crate) number: u64,
    pub(crate) log: LogState,
    pub(crate) ntf: NtfState,
    pub(crate) alarms: AlarmView,
    pub(crate) readers: Vec<SavedReader>,
}

/// The reply to a call, and the deeds.
#[derive(Drop)]
pub(crate) struct Acted {
    pub(crate) told: Told,
    pub(crate) deeds: Seq<Deed>,
}

/// The reply of a status, which tells its stream's mark where the call is ok and has one to tell, and then also
/// whether a record was filtered.
pub(crate) fn told_with(status: Status, filtered: bool, mark: Option<Mark>) -> Told
    ensures { IsTold status (marked_by filtered mark) result }
{
    if status != Status::Ok {
        return Told::refused(status);
    }
    match mark {
        None => Told::done(),
        Some(mark) => Told::marked(filtered, mark),
    }
}

/// What a call of a status came to, which tells nothing more where it is ok.
pub(crate) fn act_of(status: Status, deeds: Seq<Deed>) -> Acted
    ensures told { IsTold status Done result.told }
    ensures deeds { result.deeds ≡ deeds }
{
    Acted {
        told: told_with(status, false, None),
        deeds,
    }
}
