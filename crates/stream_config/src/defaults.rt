//! The attributes that streams have unless other ones are given.
ghost use Rattle.std.specs.Prelude.{◌≡◌, ◌≢◌, ◌≤◌, length, IfOk};
ghost use Rattle.stream_config.specs.Attributes.{PassesAttrs};
ghost use Rattle.stream_config.specs.WellKnown.{default_file, default_format, default_attrs};

use crate::{FullAction, StreamAttrs};
use ais_values::{StreamKind, Text};
use std::alloc::{AllocError, Global};

/// The file of a well-known stream.
fn default_file(kind: StreamKind) -> &'static [u8]
    requires { kind ≢ StreamKind.Application }
    ensures file { result.now ≡ default_file kind }
    ensures short { length result.now ≤ 64 }
{
    match kind {
        StreamKind::Alarm => b"saLogAlarm",
        StreamKind::Notification => b"saLogNotification",
        StreamKind::System => b"saLogSystem",
        StreamKind::Application => unreachable!(),
    }
}

/// The expression by which records of the kind are printed unless another one is given. It has at most 1,024 bytes.
pub fn default_format(kind: StreamKind) -> &'static [u8]
    ensures format { result.now ≡ default_format kind }
    ensures short { length result.now ≤ 1024 }
{
    match kind {
        StreamKind::Alarm | StreamKind::Notification => b"@Cr @Ct @Nt @Ne6 @No30 @Ng30 \"@Cb\"",
        StreamKind::System | StreamKind::Application => {
            b"@Cr @Ch:@Cn:@Cs @Cm/@Cd/@CY @Sv @Sl \"@Cb\""
        }
    }
}

/// The attributes that a well-known stream of the kind has unless other ones are given: path `.`, files of at
/// most 262,144 bytes, records of 256 bytes, four rotated files, and its own file and expression.
pub fn well_known(alloc: Global, kind: StreamKind) -> Result<StreamAttrs, AllocError>
    requires { kind ≢ StreamKind.Application }
    ensures attrs { IfOk result (λ attrs. attrs ≡ default_attrs kind) }
    ensures passes { IfOk result (PassesAttrs kind) }
{
    let file = Text::from_vec(default_file(kind).to_vec(alloc)?);
    let path = Text::from_vec(b".".to_vec(alloc)?);
    let expr = Text::from_vec(default_format(kind).to_vec(alloc)?);
    Ok(StreamAttrs {
        file,
        path,
        max_file: 262_144,
        record_size: 256,
        ha: 0,
        action: FullAction::Rotate,
        rotated: 4,
        expr,
    })
}
