//! The calls of readers.
ghost use Rattle.std.specs.Prelude.{◌≡◌, ◌==◌, ◌&&◌, true, not, None, is_some, is_none, nat_le, int_lt, pos, length, reverse, option_map, option_copied, IfOk, OnOk, OnErr};
ghost use Rattle.alarm_view.specs.Modes.{mode_of, direction_of};
ghost use Rattle.alarm_view.specs.Alarms.{notifications};
ghost use Rattle.alarm_view.specs.Nearest.{cursor_before};
ghost use Rattle.alarm_view.specs.Search.{starting, next_alarm};
ghost use Rattle.calls.specs.declared.call.Call.TheVariants.{ReaderStart, ReaderRead};
ghost use Rattle.calls.specs.declared.reply.Reply.TheVariants.{Found};
ghost use Rattle.client_set.specs.Rising.{put, without};
ghost use Rattle.ntf_history.specs.Rows.{answer, start_rows_by, read_rows_by, start_by};
ghost use Rattle.plain_service.specs.Replies.{found_reply};
ghost use Rattle.service_table.specs.Tables.{is_reader_for, reader_for, reader_before};
ghost use Rattle.service_table.specs.Answering.{start_answer, read_in, read_answer, stop_answer};
ghost use Rattle.service_table.specs.Steps.{readers_after, where_ok};
ghost use Rattle.service_parts.specs.Telling.{IsTold, reader_at};

use crate::Told;
use crate::readers::{add_reader, point_of, reader_of, stop_reader, tell_reader};
use ais_values::{Duplicate, Shared, Status};
use alarm_view::{AlarmView, Cursor, Direction, SearchMode};
use calls::{Boxed, Reply, SavedReader};
use ntf_filters::FilterSet;
use ntf_service::{asks_for_alarms, is_usable};
use ntf_types::Notification;
use std::alloc::{AllocError, Global};

/// The most readers at once.
const MAX_READERS: usize = 16;

/// Whether a value is negative, in a mode that looks at it.
fn is_negative(value: i64, code: u32) -> bool
    ensures { result ≡ (int_lt value (pos 0) && not (code == 7)) }
{
    value < 0 && code != 7
}

/// Whether the code is that of no mode.
fn is_no_mode(code: u32) -> bool
    ensures { result ≡ is_none (mode_of code) }
{
    SearchMode::of(code).is_none()
}

/// Whether a client has a reader.
fn has_reader(readers: &[SavedReader], client: u16) -> bool
    ensures { result ≡ is_some (reader_for client readers.now) }
{
    reader_of(readers, client).is_some()
}

/// The cursor at the alarm where a search starts.
fn start_in(alarms: &AlarmView, mode: SearchMode, value: i64, filters: &FilterSet) -> Option<Cursor>
    ensures { result ≡ option_map cursor_before
        (starting mode value filters.now (reverse (notifications alarms.now.kept))) }
{
    alarms.start(mode, value, filters)
}

/// The cursor at the alarm where a search by the code of a mode starts.
fn start_at(alarms: &AlarmView, code: u32, value: i64, filters: &FilterSet) -> Option<Cursor>
    ensures { result ≡ option_map cursor_before
        (start_by (mode_of code) value filters.now alarms.now.kept) }
{
    match SearchMode::of(code) {
        None => None,
        Some(mode) => start_in(alarms, mode, value, filters),
    }
}

/// What decides a start: the first row of the table that holds, and else ok.
fn start_status(
    readers: &[SavedReader],
    is_user: bool,
    is_missing: bool,
    client: u16,
    code: u32,
    value: i64,
    filters: &FilterSet,
) -> Status
    ensures { result ≡ answer (start_rows_by is_user (is_some (reader_for client readers.now))
        (nat_le 16 (length readers.now)) is_missing code value filters.now) }
{
    if !is_user {
        Status::BadHandle
    } else if is_no_mode(code) {
        Status::InvalidParam
    } else if is_negative(value, code) {
        Status::InvalidParam
    } else if !is_usable(filters) {
        Status::InvalidParam
    } else if !asks_for_alarms(filters) {
        Status::InvalidParam
    } else if has_reader(readers, client) {
        Status::NoResources
    } else if readers.len() >= MAX_READERS {
        Status::NoResources
    } else if is_missing {
        Status::NotExist
    } else {
        Status::Ok
    }
}

/// Starts a reader of a client at an alarm. On an error nothing changes.
fn begin_at(
    alloc: Global,
    readers: &mut Vec<SavedReader>,
    client: u16,
    filters: &FilterSet,
    cursor: Cursor,
) -> Result<(), AllocError>
    requires { reader_for client readers.old.items ≡ None }
    ensures ok { OnOk result (readers.new.items ≡ put reader_before
        (reader_at client filters.now cursor) readers.old.items) }
    ensures err { OnErr result (readers.new.items ≡ readers.old.items) }
{
    let filters = Shared::new(alloc, filters.copy(alloc)?)?;
    let reader = SavedReader {
        client,
        filters,
        time: cursor.time,
        id: cursor.id,
        fresh: cursor.fresh,
    };
    add_reader(readers, reader)
}

/// A client starts a reader among the stored alarms, by the code of a mode and a value. The answer is the first row of the
/// table that holds. On an error, and with another answer than ok,
/// nothing changes.
pub fn start_reading(
    alloc: Global,
    alarms: &AlarmView,
    readers: &mut Vec<SavedReader>,
    is_user: bool,
    client: u16,
    code: u32,
    value: i64,
    filters: &FilterSet,
) -> Result<Status, AllocError>
    ensures status { IfOk result (λ status. status
        ≡ start_answer is_user client readers.old.items alarms.now.kept code value filters.now) }
    ensures readers { IfOk result (λ status. readers.new.items ≡ where_ok status
        (readers_after alarms.now.kept client (ReaderStart code value filters.now)
        readers.old.items) readers.old.items) }
    ensures err { OnErr result (readers.new.items ≡ readers.old.items) }
{
    let found = start_at(alarms, code, value, filters);
    let is_missing = found.is_none();
    let status = start_status(
        readers.as_slice(),
        is_user,
        is_missing,
        client,
        code,
        value,
        filters,
    );
    if status != Status::Ok {
        return Ok(status);
    }
    if let Some(cursor) = found {
        begin_at(alloc, readers, client, filters, cursor)?;
    }
    Ok(Status::Ok)
}

/// The alarm that is read next.
fn next_in<'a>(
    alarms: &'a AlarmView,
    cursor: Cursor,
    way: Direction,
    filters: &FilterSet,
) -> Option<&'a Notification>
    ensures { option_copied result
        ≡ next_alarm cursor way filters.now (reverse (notifications alarms.now.kept)) }
{
    match alarms.next(cursor, way, filters) {
        None => None,
        Some(found) => Some(found.1),
    }
}

/// The alarm that a client's reader reads next in the direction of a code.
fn next_read<'a>(
    alarms: &'a AlarmView,
    readers: &[SavedReader],
    client: u16,
    code: u32,
) -> Option<&'a Notification>
    ensures { option_copied result ≡ read_in (reader_for client readers.now) code alarms.now.kept }
{
    let Some(reader) = reader_of(readers, client) else {
        return None;
    };
    let Some(way) = Direction::of(code) else {
        return None;
    };
    next_in(alarms, point_of(reader), way, reader.filters.get())
}

/// Whether the code is that of no direction.
fn is_no_direction(code: u32) -> bool
    ensures { result ≡ is_none (direction_of code) }
{
    Direction::of(code).is_none()
}

/// What decides a read: the first row of the table that holds, and else ok.
fn read_status(
    readers: &[SavedReader],
    is_user: bool,
    is_missing: bool,
    client: u16,
    code: u32,
) -> Status
    ensures { result ≡ answer (read_rows_by is_user (is_none (reader_for client readers.now))
        is_missing code) }
{
    if !is_user {
        Status::BadHandle
    } else if !has_reader(readers, client) {
        Status::BadHandle
    } else if is_no_direction(code) {
        Status::InvalidParam
    } else if is_missing {
        Status::NotExist
    } else {
        Status::Ok
    }
}

/// The reply with an alarm.
fn found(alloc: Global, alarm: &Notification) -> Result<Reply, AllocError>
    ensures { IfOk result (λ reply. reply ≡ Found alarm.now) }
{
    let notification = Boxed::new(alloc, alarm.copy(alloc)?)?;
    Ok(Reply::Found { notification })
}

/// The reply with an alarm, twice.
fn told_alarm(alloc: Global, alarm: &Notification) -> Result<Told, AllocError>
    ensures reply { IfOk result (λ told. told.reply ≡ Found alarm.now) }
    ensures kept { IfOk result (λ told. told.kept ≡ Found alarm.now) }
{
    Ok(Told {
        reply: found(alloc, alarm)?,
        kept: found(alloc, alarm)?,
    })
}

/// A client's reader reads on in the direction of a code. On an error, and with another answer than ok, nothing changes.
pub fn read_on(
    alloc: Global,
    alarms: &AlarmView,
    readers: &mut Vec<SavedReader>,
    is_user: bool,
    client: u16,
    code: u32,
) -> Result<Told, AllocError>
    ensures told { IfOk result (IsTold (read_answer is_user (reader_for client readers.old.items)
        code alarms.now.kept)
        (found_reply (read_in (reader_for client readers.old.items) code alarms.now.kept))) }
    ensures readers { OnOk result (readers.new.items ≡ where_ok (read_answer is_user
        (reader_for client readers.old.items) code alarms.now.kept) (readers_after
        alarms.now.kept client (ReaderRead code) readers.old.items) readers.old.items) }
    ensures err { OnErr result (readers.new.items ≡ readers.old.items) }
{
    let found = next_read(alarms, readers.as_slice(), client, code);
    let is_missing = found.is_none();
    let status = read_status(readers.as_slice(), is_user, is_missing, client, code);
    if status != Status::Ok {
        return Ok(Told::refused(status));
    }
    match found {
        None => Ok(Told::done()),
        Some(alarm) => {
            let told = told_alarm(alloc, alarm)?;
            tell_reader(readers, client, alarm);
            Ok(told)
        }
    }
}

/// A client stops its reader. With another answer than ok nothing changes. It takes no memory.
pub fn end_reading(readers: &mut Vec<SavedReader>, is_user: bool, client: u16) -> Status
    ensures status { result ≡ stop_answer is_user client readers.old.items }
    ensures readers { readers.new.items ≡ where_ok result
        (without (is_reader_for client) readers.old.items) readers.old.items }
{
    if !is_user || !has_reader(readers.as_slice(), client) {
        return Status::BadHandle;
    }
    stop_reader(readers, client);
    Status::Ok
}
