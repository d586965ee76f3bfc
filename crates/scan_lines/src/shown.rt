//! Which records have a line.
ghost use Rattle.std.specs.Bool.{Decides};
ghost use Rattle.scan_lines.specs.Lines.{IsShown};

use ais_values::Seq;
use record_scan::is_text;

/// Which records of a file have a line.
#[derive(Clone, Copy, Debug, PartialEq, Eq)]
pub enum Shown {
    /// Each, and what is left behind the last one.
    All,
    /// Those in which the token of this number, counted from 1, has the wanted text.
    Having { token: u32 },
}

/// Whether a record with these texts has a line.
pub(crate) fn is_shown(shown: Shown, wanted: &[u8], texts: &[Seq<u8>]) -> bool
    ensures { Decides result (IsShown shown wanted.now texts.now) }
{
    match shown {
        Shown::All => true,
        Shown::Having { token } => is_text(texts, token, wanted),
    }
}
