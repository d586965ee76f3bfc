//! The readers of stored alarms, in order of their clients.
ghost use Rattle.std.specs.Prelude.{◌≡◌, None, OnOk, OnErr, find, nat_lt, option_copied, map};
ghost use Rattle.std.specs.List.{prefix_len};
ghost use Rattle.client_set.specs.Rising.{put, without, IsRising};
ghost use Rattle.service_table.specs.Tables.{is_reader_for, reader_for, reader_before, point_of_reader};
ghost use Rattle.service_table.specs.Steps.{told_alarm};

use alarm_view::Cursor;
use calls::SavedReader;
use ntf_types::Notification;
use std::alloc::AllocError;

/// Whether a reader is this client's.
fn is_for(reader: &SavedReader, client: u16) -> bool
    ensures { result ≡ is_reader_for client reader.now }
{
    reader.client == client
}

/// Whether a reader is of a client of a lower number.
fn is_below(reader: &SavedReader, client: u16) -> bool
    ensures { result ≡ nat_lt reader.now.client client }
{
    reader.client < client
}

/// The reader of a client, if it has one. At most 16 are kept.
pub(crate) fn reader_of(readers: &[SavedReader], client: u16) -> Option<&SavedReader>
    ensures { option_copied result ≡ reader_for client readers.now }
{
    readers.iter().find(|reader| is_for(reader, client))
}

/// How many readers in a row, from the first on, are of clients below this one.
fn place_of(readers: &[SavedReader], client: u16) -> usize
    ensures { result ≡ prefix_len (λ reader. nat_lt reader.client client) readers.now }
{
    readers
        .iter()
        .take_while(|reader| is_below(reader, client))
        .count()
}

/// Adds the reader of a client that has none. On an error nothing changes.
pub(crate) fn add_reader(
    readers: &mut Vec<SavedReader>,
    reader: SavedReader,
) -> Result<(), AllocError>
    requires { reader_for reader.client readers.old.items ≡ None }
    ensures ok { OnOk result (readers.new.items ≡ put reader_before reader readers.old.items) }
    ensures err { OnErr result (readers.new.items ≡ readers.old.items) }
{
    let place = place_of(readers.as_slice(), reader.client);
    readers.insert(place, reader)?;
    Ok(())
}

/// The point of a reader.
pub(crate) fn point_of(reader: &SavedReader) -> Cursor
    ensures { result ≡ point_of_reader reader.now }
{
    Cursor {
        time: reader.time,
        id: reader.id,
        fresh: reader.fresh,
    }
}

/// A reader was told an alarm, if it is the client's.
fn tell(reader: &mut SavedReader, client: u16, alarm: &Notification)
    ensures { reader.new ≡ told_alarm client alarm.now reader.old }
{
    if reader.client == client {
        reader.time = alarm.event_time;
        reader.id = alarm.id;
        reader.fresh = false;
    }
}

/// The reader of a client was told an alarm.
pub(crate) fn tell_reader(readers: &mut Vec<SavedReader>, client: u16, alarm: &Notification)
    ensures { readers.new.items ≡ map (told_alarm client alarm.now) readers.old.items }
{
    for place in 0..readers.len() {
        let reader = &mut readers[place];
        tell(reader, client, alarm);
    }
}

/// The reader of a client stops, if it has one. It takes no memory.
pub fn stop_reader(readers: &mut Vec<SavedReader>, client: u16)
    ensures { readers.new.items ≡ without (is_reader_for client) readers.old.items }
{
    readers.retain(|reader| !is_for(reader, client));
}
