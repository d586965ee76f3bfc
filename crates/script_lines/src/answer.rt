//! Why no lines were read.
use ais_values::Duplicate;
use std::alloc::{AllocError, AllocFailed, Global};
use std::fmt;

/// Why a line is refused.
#[derive(Clone, Copy, Debug, PartialEq, Eq)]
pub enum ScriptWhy {
    /// The line has none of the forms.
    Grammar,
    /// It is the first line and no `cluster` line, or a later one and a `cluster` line.
    Cluster,
    /// It sets a time below the one in force.
    Time,
}

impl Duplicate for ScriptWhy {
    fn copy(&self, _alloc: Global) -> Result<Self, AllocError> {
        Ok(*self)
    }
}

impl fmt::Display for ScriptWhy {
    ghost use Rattle.std.specs.Prelude.{Some};
    ghost use Rattle.script_lines.specs.Refusals.{why_word};

    ghost output = { λ why. Some (why_word why) };

    fn fmt<W: fmt::Write>(&self, f: &mut fmt::Formatter<W>) -> fmt::Result {
        let word = match self {
            ScriptWhy::Grammar => "grammar",
            ScriptWhy::Cluster => "cluster",
            ScriptWhy::Time => "time",
        };
        write!(f, "{word}")
    }
}

/// Why no lines were read.
#[derive(Clone, Copy, Debug, PartialEq, Eq)]
pub enum ScriptAnswer {
    /// Memory ran out.
    Memory,
    /// The least line that is bad, counted from 1 over all lines, and the first reason that holds of it.
    Bad { line: u32, why: ScriptWhy },
}

impl From<AllocError> for ScriptAnswer {
    ghost use Rattle.std.specs.Prelude.{◌≡◌};
    ghost use Rattle.script_lines.specs.declared.answer.ScriptAnswer.TheVariants.{Memory};

    ghost from_gives = { λ _ e. e ≡ Memory };

    fn from(_: AllocError) -> Self {
        ScriptAnswer::Memory
    }
}

impl<T: Drop> From<AllocFailed<T>> for ScriptAnswer {
    ghost use Rattle.std.specs.Prelude.{◌≡◌};
    ghost use Rattle.script_lines.specs.declared.answer.ScriptAnswer.TheVariants.{Memory};

    ghost from_gives = { λ _ e. e ≡ Memory };

    fn from(_: AllocFailed<T>) -> Self {
        ScriptAnswer::Memory
    }
}
