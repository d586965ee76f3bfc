//! Records that a mask filters.
ghost use Rattle.std.specs.Prelude.{◌≡◌};
ghost use Rattle.log_history.specs.Marks.{HasSeverity, is_filtered};

use record_print::Header;
use stream_config::lets_pass;

/// Whether a mask filters a record with this header.
pub fn is_filtered(mask: u32, header: &Header) -> bool
    requires { HasSeverity header.now }
    ensures { result ≡ is_filtered mask header.now }
{
    match header {
        Header::Ntf { .. } => false,
        Header::Generic { severity, .. } => !lets_pass(mask, *severity),
    }
}
