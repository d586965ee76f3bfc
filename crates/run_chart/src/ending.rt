//! Why no picture is written, and with which status the program then ends.
use std::io;
use std::io::ErrorKind;

/// Why no picture is written.
#[derive(Clone, Copy)]
pub(crate) enum Ending {
    /// The line of this number, counted from 1, is none that a run prints.
    Unknown { line: usize },
    /// Memory ran out.
    Memory,
    /// The lines could not be read.
    Unread,
    /// The picture could not be written.
    Unwritten,
}

impl Ending {
    /// The status of the program.
    pub(crate) fn code(self) -> u8 {
        match self {
            Ending::Unknown { .. } => 1,
            Ending::Memory => 3,
            Ending::Unread => 4,
            Ending::Unwritten => 5,
        }
    }

    /// Tells it on standard error.
    pub(crate) fn tell<R: Eprint>(self, rt: &R) -> io::Result<()> {
        match self {
            Ending::Unknown { line } => eprintln!(rt; "line {line} is none that a run prints"),
            Ending::Memory => eprintln!(rt; "out of memory"),
            Ending::Unread => eprintln!(rt; "the lines could not be read"),
            Ending::Unwritten => eprintln!(rt; "the picture could not be written"),
        }
    }
}

/// What an error in reading ends with.
pub(crate) fn read_ending(error: &io::Error) -> Ending {
    if error.kind() == ErrorKind::OutOfMemory {
        Ending::Memory
    } else {
        Ending::Unread
    }
}
