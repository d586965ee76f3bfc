//! What attributes a stream may have.
ghost use Rattle.std.specs.Prelude.{◌≡◌, ◌↔◌, IsTrue, IsOk, IsErrOf, is_ok};
ghost use Rattle.stream_config.specs.Attributes.{is_file_byte, IsFileName, IsPath, IsSizedAlike, IsSizedFreely, IsSized, IsFormat, PassesAttrs, HaveOnePlace};

use crate::{FullAction, StreamAttrs};
use ais_values::{Status, StreamKind};
use format_expr::check_expr;

/// The most bytes of a stream's file and path.
pub const MAX_FILE_NAME: usize = 64;

/// The least size of a stream's records.
pub const MIN_RECORD: u32 = 32;

/// The greatest size of a stream's records.
pub const MAX_RECORD: u32 = 16_384;

/// The greatest size that a stream's files may have.
pub const MAX_FILE_SIZE: u64 = 1_073_741_824;

/// The greatest number of a stream's rotated files.
pub const MAX_ROTATED: u32 = 128;

/// Whether a byte may stand in the file and the path of a stream.
fn is_file_byte(byte: u8) -> bool
    ensures { result ≡ is_file_byte byte }
{
    matches!(byte, b'A'..=b'Z' | b'a'..=b'z' | b'0'..=b'9' | b'_' | b'-')
}

/// Whether these bytes may be the file of a stream.
fn is_file_name(bytes: &[u8]) -> bool
    ensures { IsTrue result ↔ IsFileName bytes.now }
{
    !bytes.is_empty()
        && bytes.len() <= MAX_FILE_NAME
        && bytes.iter().all(|byte| is_file_byte(*byte))
}

/// Whether these bytes may be the path of a stream.
fn is_path(bytes: &[u8]) -> bool
    ensures { IsTrue result ↔ IsPath bytes.now }
{
    bytes == b".".as_slice() || is_file_name(bytes)
}

/// Whether records have one size within its bounds, and a file room for one.
fn is_sized_alike(attrs: &StreamAttrs) -> bool
    ensures { IsTrue result ↔ IsSizedAlike attrs.now }
{
    attrs.record_size >= MIN_RECORD
        && attrs.record_size <= MAX_RECORD
        && attrs.max_file >= u64::from(attrs.record_size)
}

/// Whether records have the sizes of their texts, a file room for the longest, and none takes an earlier one's place.
fn is_sized_freely(attrs: &StreamAttrs) -> bool
    ensures { IsTrue result ↔ IsSizedFreely attrs.now }
{
    attrs.record_size == 0
        && attrs.max_file >= u64::from(MAX_RECORD)
        && attrs.action != FullAction::Wrap
}

/// Whether the sizes of records and files are within their bounds.
fn is_sized(attrs: &StreamAttrs) -> bool
    ensures { IsTrue result ↔ IsSized attrs.now }
{
    (is_sized_alike(attrs) || is_sized_freely(attrs)) && attrs.max_file <= MAX_FILE_SIZE
}

/// Whether a text is an expression for streams of the kind.
fn is_format(kind: StreamKind, text: &[u8]) -> bool
    ensures { IsTrue result ↔ IsFormat kind text.now }
{
    check_expr(kind, text).is_ok()
}

/// Whether a stream of the kind may have these attributes.
///
/// `InvalidParam`, the only error, comes exactly where one of these fails: the file has 1 to 64 bytes, each a
/// letter, a digit, `_` or `-`; the path is `.` or follows the same rule; the record size is 0 or 32 to 16,384;
/// the greatest file size is at least the record size, and with record size 0 at least 16,384; with record
/// size 0 the stream does not wrap; the greatest file size is at most 1,073,741,824; the high-availability
/// property is 0 or 1; the number of rotated files is 1 to 128; the expression is one of the kind, of at most
/// 1,024 bytes. It takes no memory.
pub fn check_attrs(kind: StreamKind, attrs: &StreamAttrs) -> Result<(), Status>
    ensures accepted { IsOk result ↔ PassesAttrs kind attrs.now }
    ensures refused { IsErrOf result Status.InvalidParam ↔ (¬ PassesAttrs kind attrs.now) }
{
    if is_file_name(attrs.file.as_slice())
        && is_path(attrs.path.as_slice())
        && is_sized(attrs)
        && attrs.ha <= 1
        && attrs.rotated >= 1
        && attrs.rotated <= MAX_ROTATED
        && is_format(kind, attrs.expr.as_slice())
    {
        Ok(())
    } else {
        Err(Status::InvalidParam)
    }
}

/// Whether two streams of these attributes would have the same names of files but for their stamps: their paths
/// are equal, and their files.
pub fn have_one_place(one: &StreamAttrs, other: &StreamAttrs) -> bool
    ensures { IsTrue result ↔ HaveOnePlace one.now other.now }
{
    one.path == other.path && one.file == other.file
}
