//! The lines of a script for three servers.
ghost use Rattle.std.specs.Prelude.{◌≡◌, option_map};
ghost use Rattle.trio_lines.specs.Lines.{shared_line};

use script_lines::Line;

/// One of the three servers.
#[derive(Clone, Copy, Debug, PartialEq, Eq)]
pub enum TrioServer {
    A,
    B,
    C,
}

/// A line of a script for three servers that is not skipped.
#[derive(Drop, PartialEq)]
pub enum TrioLine {
    /// A line that scripts for two servers have, too.
    Plain { line: Line },
    /// The third server stops.
    Crash,
    /// The changing device call of this number from now on stops the third server.
    Arm { k: u64 },
    /// The third server comes back.
    Restart,
    /// Delivers the first message on the link to this server.
    Mirror { server: TrioServer },
    /// Delivers the first message on the way back from this server.
    Ack { server: TrioServer },
}

impl TrioLine {
    /// The line as scripts for two servers have it. None of an own line of three servers. It takes no memory.
    pub fn shared(&self) -> Option<&Line>
        ensures { option_map (λ line. line.now) result ≡ shared_line self.now }
    {
        match self {
            TrioLine::Plain { line } => Some(line),
            _ => None,
        }
    }
}
