//! The deeds that keep the files of a stream.
ghost use Rattle.std.specs.Prelude.{◌≡◌, ◌<◌, ◌++◌, [], ◌∷◌, length, All, IfOk, IfSome};
ghost use Rattle.std.specs.Option.{option_to_list};
ghost use Rattle.stream_config.specs.Attributes.{IsFileName, IsPath};
ghost use Rattle.stream_config.specs.Events.{open_file, file_closed, last_closed};
ghost use Rattle.stream_config.specs.Fit.{stamps_of};
ghost use Rattle.stream_layout.specs.declared.deed.Deed.TheVariants as deed;
ghost use Rattle.stream_layout.specs.Names.{log_name};
ghost use Rattle.stream_layout.specs.Deeds.{current_file, removal, change_of_file, file_written_to, offset_written, deeds_of};
ghost use Rattle.stream_layout.specs.Carrying.{IsStamp, IsFitStream, IsFitMade, IsFitStored, IsFitEnded, IsFitEvent, CarryOn};
ghost use Rattle.stream_layout.specs.Repeating.{RepeatSafely};
ghost use Rattle.stream_layout.specs.Inside.{HasStamps, oldest_closed};
ghost use Rattle.stream_config.specs.declared.event.StreamEvent.TheVariants as event;

use crate::names::cfg_name;
use crate::{Deed, file_name};
use ais_values::{Duplicate, Seq, Text};
use std::alloc::{AllocError, Global};
use stream_config::{
    LogFile, Stamps, StreamAttrs, StreamEvent, StreamState, cfg_text, current_of, next_offset,
};

/// The oldest file once the current one is closed.
fn oldest_of(files: &[LogFile], stamps: Stamps) -> LogFile
    requires { 0 < length files.now }
    ensures { result ≡ oldest_closed stamps.closed files.now }
{
    if files.len() == 1 {
        LogFile {
            closed: Some(stamps.closed),
            ..files[0]
        }
    } else {
        files[0]
    }
}

/// The name of a file of records.
fn name_of(alloc: Global, attrs: &StreamAttrs, file: LogFile) -> Result<Text, AllocError>
    requires path { IsPath attrs.now.path }
    requires file { IsFileName attrs.now.file }
    requires stamps { HasStamps file }
    ensures { IfOk result (λ name. name ≡ log_name attrs.now file) }
{
    let name = file_name(alloc, attrs, file.created, file.closed)?;
    Ok(name)
}

/// The current file gets its closing stamp.
fn close(
    alloc: Global,
    attrs: &StreamAttrs,
    current: LogFile,
    closed: i64,
) -> Result<Deed, AllocError>
    requires path { IsPath attrs.now.path }
    requires file { IsFileName attrs.now.file }
    requires stamps { HasStamps current }
    requires closed { IsStamp closed }
    ensures { IfOk result (λ done. done
        ≡ deed.Rename (log_name attrs.now current)
        (log_name attrs.now (file_closed closed current))) }
{
    let from = name_of(alloc, attrs, current)?;
    let to = file_name(alloc, attrs, current.created, Some(closed))?;
    Ok(Deed::Rename { from, to })
}

/// The oldest file goes at a change of file, where more would stand than may.
fn remove_oldest(
    alloc: Global,
    attrs: &StreamAttrs,
    files: &[LogFile],
    stamps: Stamps,
) -> Result<Option<Deed>, AllocError>
    requires path { IsPath attrs.now.path }
    requires file { IsFileName attrs.now.file }
    requires some { 0 < length files.now }
    requires oldest { HasStamps (oldest_closed stamps.closed files.now) }
    ensures { IfOk result (λ gone. option_to_list gone
        ≡ removal attrs.now (last_closed stamps.closed files.now ++ open_file stamps.created
        ∷ [])) }
{
    if (files.len() as u64) < u64::from(attrs.rotated) {
        return Ok(None);
    }
    let name = name_of(alloc, attrs, oldest_of(files, stamps))?;
    Ok(Some(Deed::Remove { name }))
}

/// A stream is made: its cfg, and an empty file.
#[tactic(auto, unfolding(crate::specs::Deeds::deeds_of))]
fn made(alloc: Global, state: &StreamState) -> Result<Seq<Deed>, AllocError>
    requires { IsFitMade state.now }
    ensures { IfOk result (λ list. list ≡ deeds_of (event.Made state.now)) }
{
    let attrs = state.attrs.get();
    let current = current_of(state.files.as_slice());
    let name = cfg_name(alloc, attrs)?;
    let bytes = cfg_text(alloc, &state.name, attrs)?;
    let log = name_of(alloc, attrs, current)?;
    let mut list = Seq::new(alloc);
    list.push(Deed::Put { name, bytes })?;
    list.push(Deed::Create { name: log })?;
    Ok(list)
}

/// The current file is closed, a new one is made, and the oldest goes if it has to.
fn change(
    alloc: Global,
    attrs: &StreamAttrs,
    files: &[LogFile],
    stamps: Stamps,
) -> Result<Seq<Deed>, AllocError>
    requires path { IsPath attrs.now.path }
    requires file { IsFileName attrs.now.file }
    requires some { 0 < length files.now }
    requires standing { All IsStamp (stamps_of files.now) }
    requires closed { IsStamp stamps.closed }
    requires created { IsStamp stamps.created }
    ensures { IfOk result (λ list. list ≡ change_of_file attrs.now files.now (Some stamps)) }
{
    let closing = close(alloc, attrs, current_of(files), stamps.closed)?;
    let name = file_name(alloc, attrs, stamps.created, None)?;
    let gone = remove_oldest(alloc, attrs, files, stamps)?;
    let mut list = Seq::new(alloc);
    list.push(closing)?;
    list.push(Deed::Create { name })?;
    if let Some(removal) = gone {
        list.push(removal)?;
    }
    Ok(list)
}

/// The deeds of a change of file, if there is one.
fn change_if(
    alloc: Global,
    attrs: &StreamAttrs,
    files: &[LogFile],
    stamps: Option<Stamps>,
) -> Result<Seq<Deed>, AllocError>
    requires path { IsPath attrs.now.path }
    requires file { IsFileName attrs.now.file }
    requires some { 0 < length files.now }
    requires standing { All IsStamp (stamps_of files.now) }
    requires new { IfSome stamps (λ two. IsStamp two.closed × IsStamp two.created) }
    ensures { IfOk result (λ list. list ≡ change_of_file attrs.now files.now stamps) }
{
    match stamps {
        None => Ok(Seq::new(alloc)),
        Some(stamps) => {
            let list = change(alloc, attrs, files, stamps)?;
            Ok(list)
        }
    }
}

/// The file that a record goes to.
fn written_to(files: &[LogFile], stamps: Option<Stamps>) -> LogFile
    requires { 0 < length files.now }
    ensures { result ≡ file_written_to files.now stamps }
{
    match stamps {
        None => current_of(files),
        Some(stamps) => LogFile {
            created: stamps.created,
            closed: None,
            first: 0,
            bytes: 0,
        },
    }
}

/// Where a record stands in the file that it goes to.
fn offset_written(before: &StreamState, stamps: Option<Stamps>) -> u64
    requires { IsFitStream before.now }
    ensures { result ≡ offset_written before.now stamps }
{
    match stamps {
        None => next_offset(before),
        Some(_) => 0,
    }
}

/// A record is stored.
#[tactic(auto, unfolding(crate::specs::Deeds::deeds_of))]
fn stored(
    alloc: Global,
    before: &StreamState,
    bytes: &Text,
    stamps: Option<Stamps>,
) -> Result<Seq<Deed>, AllocError>
    requires { IsFitStored before.now bytes.now stamps }
    ensures { IfOk result (λ list. list ≡ deeds_of (event.Stored before.now bytes.now stamps)) }
{
    let attrs = before.attrs.get();
    let file = written_to(before.files.as_slice(), stamps);
    let mut list = change_if(alloc, attrs, before.files.as_slice(), stamps)?;
    let name = name_of(alloc, attrs, file)?;
    let bytes = bytes.copy(alloc)?;
    let at = offset_written(before, stamps);
    list.push(Deed::Write { name, at, bytes })?;
    Ok(list)
}

/// A stream ends.
#[tactic(auto, unfolding(crate::specs::Deeds::deeds_of))]
fn ended(alloc: Global, before: &StreamState, closed: i64) -> Result<Seq<Deed>, AllocError>
    requires { IsFitEnded before.now closed }
    ensures { IfOk result (λ list. list ≡ deeds_of (event.Ended before.now closed)) }
{
    let current = current_of(before.files.as_slice());
    let closing = close(alloc, before.attrs.get(), current, closed)?;
    let mut list = Seq::new(alloc);
    list.push(closing)?;
    Ok(list)
}

/// The deeds of an event, by what happened.
fn list_of(alloc: Global, event: &StreamEvent) -> Result<Seq<Deed>, AllocError>
    requires { IsFitEvent event.now }
    ensures { IfOk result (λ list. list ≡ deeds_of event.now) }
{
    match event {
        StreamEvent::Made { state } => {
            let list = made(alloc, state)?;
            Ok(list)
        }
        StreamEvent::Stored {
            before,
            bytes,
            stamps,
        } => {
            let list = stored(alloc, before, bytes, *stamps)?;
            Ok(list)
        }
        StreamEvent::Ended { before, closed } => {
            let list = ended(alloc, before, *closed)?;
            Ok(list)
        }
    }
}

/// The deeds of an event, in order.
///
/// A stream is made by its cfg and an empty file. A record is written into the current file; where the file
/// changes, the current one first gets its closing stamp, a new one is made, and the oldest goes where more
/// would stand than may. A stream that ends gives its current file a closing stamp.
///
/// The event is one that can happen to a living stream: its attributes pass, its files are those of the number
/// of records that it has taken, stamps are seconds from 0 to 20,000,000,100, and there are stamps exactly
/// where the file changes.
pub fn deeds(alloc: Global, event: &StreamEvent) -> Result<Seq<Deed>, AllocError>
    requires { IsFitEvent event.now }
    ensures list { IfOk result (λ list. list ≡ deeds_of event.now) }
    // Performed, they make the stream's files after the event out of those before it.
    ensures carried { IfOk result (CarryOn event.now) }
    // Attempts at them that broke off change nothing of what they leave in the end.
    ensures repeated { IfOk result (RepeatSafely event.now) }
{
    let list = list_of(alloc, event)?;
    Ok(list)
}
