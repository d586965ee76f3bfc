//! How runs end: the statuses, and what is printed.
ghost use Rattle.std.specs.Prelude.{◌≡◌, ◌++◌, codes, IfOk};
ghost use Rattle.played_runs.specs.ExitStatus.{exit_status};

use ais_values::Duplicate;
use std::alloc::{AllocError, Global};

/// The status of a run, which is the process's exit status too.
#[derive(Clone, Copy, Debug, PartialEq, Eq)]
pub enum Status8 {
    /// The input was read to its end and every line was done.
    Done,
    /// The input is no script that is accepted, or the text no expression.
    ScriptRefused,
    /// The words are none that the program knows.
    Usage,
    /// Memory ran out.
    Memory,
    /// The source failed.
    ReadFault,
    /// The sink failed.
    WriteFault,
    /// The disk failed.
    DiskFault,
    /// The disk held a file at the start.
    RootNotEmpty,
    /// The input has more than 16 MiB.
    TooLong,
    /// There was no journal to start a server from.
    JournalRefused,
    /// The texts of the expression's tokens cannot be told apart in a record.
    Inseparable,
}

impl Status8 {
    /// The exit status, 0 to 10.
    pub fn code(self) -> u8
        ensures { result ≡ exit_status self }
    {
        match self {
            Status8::Done => 0,
            Status8::ScriptRefused => 1,
            Status8::Usage => 2,
            Status8::Memory => 3,
            Status8::ReadFault => 4,
            Status8::WriteFault => 5,
            Status8::DiskFault => 6,
            Status8::RootNotEmpty => 7,
            Status8::TooLong => 8,
            Status8::JournalRefused => 9,
            Status8::Inseparable => 10,
        }
    }
}

impl Duplicate for Status8 {
    fn copy(&self, _alloc: Global) -> Result<Self, AllocError> {
        Ok(*self)
    }
}

/// What is printed at a disk fault.
pub const FAULT_LINE: &[u8] = b"disk fault\n";

/// The status that a run ends with, and what is printed.
#[derive(Drop)]
pub struct End {
    pub status: Status8,
    pub text: Vec<u8>,
}

/// An end with this text. An error is want of memory.
pub fn end_with(alloc: Global, status: Status8, text: &[u8]) -> Result<End, AllocError>
    ensures status { IfOk result (λ end. end.status ≡ status) }
    ensures text { IfOk result (λ end. end.text.items ≡ text.now) }
{
    let text = text.to_vec(alloc)?;
    Ok(End { status, text })
}

/// The end where the disk held a file of this name. An error is want of memory.
pub fn root_holds(alloc: Global, name: &[u8]) -> Result<End, AllocError>
    ensures status { IfOk result (λ end. end.status ≡ Status8.RootNotEmpty) }
    ensures text { IfOk result (λ end. end.text.items
        ≡ codes "root not empty: " ++ (name.now ++ codes "\n")) }
{
    let mut text = Vec::new(alloc);
    text.extend_from_slice(b"root not empty: ")?;
    text.extend_from_slice(name)?;
    text.extend_from_slice(b"\n")?;
    Ok(End {
        status: Status8::RootNotEmpty,
        text,
    })
}
