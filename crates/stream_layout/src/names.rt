//! The names of a stream's files on disk.
ghost use Rattle.std.specs.Prelude.{◌≡◌, ◌+◌, ◌≤◌, ◌++◌, length, IfOk, OnOk};
ghost use Rattle.std.specs.Option.{ForSome};
ghost use Rattle.stream_config.specs.Attributes.{IsFileName, IsPath};
ghost use Rattle.stream_layout.specs.Names.{folder_of, stamp_part, stamped_name, cfg_name};
ghost use Rattle.stream_layout.specs.Carrying.{IsStamp};

use ais_values::Text;
use civil_time::stamp_at;
use std::alloc::{AllocError, Global};
use stream_config::StreamAttrs;

/// The first part of the names of a stream's files: its path and `/`, unless the path is `.`, and its file.
fn stem(alloc: Global, attrs: &StreamAttrs) -> Result<Vec<u8>, AllocError>
    requires path { IsPath attrs.now.path }
    requires file { IsFileName attrs.now.file }
    ensures bytes { IfOk result (λ stem. stem.items ≡ folder_of attrs.now.path ++ attrs.now.file) }
    ensures short { IfOk result (λ stem. length stem.items ≤ 129) }
{
    let mut stem = Vec::new(alloc);
    if attrs.path.as_slice() != b".".as_slice() {
        stem.extend_from_slice(attrs.path.as_slice())?;
        stem.push(b'/')?;
    }
    stem.extend_from_slice(attrs.file.as_slice())?;
    Ok(stem)
}

/// Adds `_` and a stamp.
fn put_stamp(name: &mut Vec<u8>, stamp: i64) -> Result<(), AllocError>
    requires { IsStamp stamp }
    ensures bytes { OnOk result (name.new.items ≡ name.old.items ++ stamp_part stamp) }
    ensures length { OnOk result (length name.new.items ≡ length name.old.items + 16) }
{
    name.push(b'_')?;
    name.extend_from_slice(stamp_at(stamp.unsigned_abs()).as_slice())?;
    Ok(())
}

/// The name of a file of records: `<file>_<created>.log` while it is current, and
/// `<file>_<created>_<closed>.log` once it is closed, with `<path>/` before it unless the path is `.`.
///
/// Stamps are seconds from 0 to 20,000,000,100, printed as `YYYYMMDD_HHMMSS` in UTC.
#[tactic(auto, unfolding(crate::specs::Names::stamped_name))]
pub fn file_name(
    alloc: Global,
    attrs: &StreamAttrs,
    created: i64,
    closed: Option<i64>,
) -> Result<Text, AllocError>
    requires path { IsPath attrs.now.path }
    requires file { IsFileName attrs.now.file }
    requires created { IsStamp created }
    requires closed { ForSome closed IsStamp }
    ensures { IfOk result (λ name.
        name ≡ stamped_name attrs.now created closed) }
{
    let mut name = stem(alloc, attrs)?;
    put_stamp(&mut name, created)?;
    if let Some(closed) = closed {
        put_stamp(&mut name, closed)?;
    }
    name.extend_from_slice(b".log")?;
    Ok(Text::from_vec(name))
}

/// The name of a stream's cfg file.
#[tactic(auto, unfolding(crate::specs::Names::cfg_name))]
pub(crate) fn cfg_name(alloc: Global, attrs: &StreamAttrs) -> Result<Text, AllocError>
    requires path { IsPath attrs.now.path }
    requires file { IsFileName attrs.now.file }
    ensures { IfOk result (λ name. name ≡ cfg_name attrs.now) }
{
    let mut name = stem(alloc, attrs)?;
    name.extend_from_slice(b".cfg")?;
    Ok(Text::from_vec(name))
}
