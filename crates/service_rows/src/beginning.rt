//! A service of its own disk, as the first line of a script tells it.
ghost use Rattle.std.specs.Prelude.{◌≡◌, false, IsTrue};
ghost use Rattle.sub_queue.specs.Queue.{IsCapacity};
ghost use Rattle.stream_config.specs.Attributes.{PassesAttrs};
ghost use Rattle.stream_config.specs.AttributeTests.{have_one_place};
ghost use Rattle.plain_service.specs.Setups.{IsMoment};
ghost use Rattle.service_rows.specs.Wells.{AreWells};

use crate::files::perform_all;
use ais_values::{LAST_TIME, Seq, StreamKind};
use disk_model::MemDisk;
use script::{Line, well_attrs};
use service_core::Service;
use std::alloc::{AllocError, Global};
use stream_config::{StreamAttrs, check_attrs, have_one_place};
use stream_layout::Deed;

/// A service, its disk, and the time that is in force.
#[derive(Drop)]
pub(crate) struct Session {
    pub(crate) service: Service,
    pub(crate) disk: MemDisk,
    pub(crate) now: i64,
}

/// Whether this is a time at which a service can begin.
pub(crate) fn is_moment(time: i64) -> bool
    ensures { IsTrue result → IsMoment time }
{
    time >= 0 && time <= LAST_TIME
}

/// Whether a stream of a kind can have these attributes.
fn passes(kind: StreamKind, attrs: &StreamAttrs) -> bool
    ensures { IsTrue result → PassesAttrs kind attrs.now }
{
    check_attrs(kind, attrs).is_ok()
}

/// Whether two streams have places of their own.
fn are_apart(one: &StreamAttrs, other: &StreamAttrs) -> bool
    ensures { IsTrue result → have_one_place one.now other.now ≡ false }
{
    !have_one_place(one, other)
}

/// Whether the well-known streams can have these attributes.
fn are_wells(alarm: &StreamAttrs, ntf: &StreamAttrs, sys: &StreamAttrs) -> bool
    ensures { IsTrue result → AreWells alarm.now ntf.now sys.now }
{
    passes(StreamKind::Alarm, alarm)
        && passes(StreamKind::Notification, ntf)
        && passes(StreamKind::System, sys)
        && are_apart(alarm, ntf)
        && are_apart(alarm, sys)
        && are_apart(ntf, sys)
}

/// A service of these attributes.
fn begun(
    alloc: Global,
    start: i64,
    cap: u32,
    alarm: StreamAttrs,
    ntf: StreamAttrs,
    sys: StreamAttrs,
) -> Result<(Service, Seq<Deed>), AllocError>
    requires start { IsMoment start }
    requires cap { IsCapacity cap }
    requires wells { AreWells alarm ntf sys }
{
    let mut wells = Vec::with_capacity(alloc, 3)?;
    wells.push_reserved(alarm);
    wells.push_reserved(ntf);
    wells.push_reserved(sys);
    let made = Service::new(alloc, start, cap, Seq::from_vec(wells))?;
    Ok(made)
}

/// A service of these attributes, if one can begin so.
fn begun_if(
    alloc: Global,
    start: i64,
    cap: u32,
    alarm: StreamAttrs,
    ntf: StreamAttrs,
    sys: StreamAttrs,
) -> Result<Option<(Service, Seq<Deed>)>, AllocError> {
    if is_moment(start) && cap >= 1 && cap <= 256 && are_wells(&alarm, &ntf, &sys) {
        let made = begun(alloc, start, cap, alarm, ntf, sys)?;
        return Ok(Some(made));
    }
    drop(alarm);
    drop(ntf);
    drop(sys);
    Ok(None)
}

/// The session of a service that has begun: its streams are made on an empty disk.
fn session_of(
    alloc: Global,
    now: i64,
    made: (Service, Seq<Deed>),
) -> Result<Option<Session>, AllocError> {
    let (service, deeds) = made;
    let mut disk = MemDisk::new(alloc, Vec::new(alloc), Vec::new(alloc), Vec::new(alloc));
    let done = perform_all(&mut disk, &deeds);
    drop(deeds);
    let session = Session { service, disk, now };
    match done {
        Ok(true) => Ok(Some(session)),
        Ok(false) => {
            drop(session);
            Ok(None)
        }
        Err(error) => {
            drop(session);
            Err(error)
        }
    }
}

/// The session that the first line of a script begins.
pub(crate) fn begin(alloc: Global, line: &Line) -> Result<Option<Session>, AllocError> {
    let Line::Cluster {
        start,
        queue,
        callbacks: _,
        alarm,
        ntf,
        sys,
    } = line
    else {
        return Ok(None);
    };
    let alarm = well_attrs(alloc, StreamKind::Alarm, alarm)?;
    let ntf = well_attrs(alloc, StreamKind::Notification, ntf)?;
    let sys = well_attrs(alloc, StreamKind::System, sys)?;
    match begun_if(alloc, *start, *queue, alarm, ntf, sys)? {
        None => Ok(None),
        Some(made) => session_of(alloc, *start, made),
    }
}
