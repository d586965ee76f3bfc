//! Why a text is no expression.
use ais_values::Duplicate;
use std::alloc::{AllocError, Global};
use std::fmt;

/// Why no expression goes on at a place.
#[derive(Clone, Copy, Debug, PartialEq, Eq)]
pub enum ExprWhy {
    /// The text ends behind the class letter, or the class has no such field.
    UnknownToken,
    /// The class letter is C, N or S, and not one of the stream's kind.
    WrongClass,
    /// A width begins with 0, or would pass 255.
    BadWidth,
    /// The text ends behind `@`, or the byte behind it is not C, N or S.
    LoneAt,
    /// A plain byte is below 32 or above 126.
    ControlByte,
    /// The text has more than 1,024 bytes, and no other reason stands at a place below 1,024.
    TooLong,
}

impl fmt::Display for ExprWhy {
    ghost use Rattle.std.specs.Prelude.{Some};
    ghost use Rattle.format_expr.specs.Faults.{word_of};

    ghost output = { λ why. Some (word_of why) };

    fn fmt<W: fmt::Write>(&self, f: &mut fmt::Formatter<W>) -> fmt::Result {
        match self {
            ExprWhy::UnknownToken => write!(f, "UnknownToken"),
            ExprWhy::WrongClass => write!(f, "WrongClass"),
            ExprWhy::BadWidth => write!(f, "BadWidth"),
            ExprWhy::LoneAt => write!(f, "LoneAt"),
            ExprWhy::ControlByte => write!(f, "ControlByte"),
            ExprWhy::TooLong => write!(f, "TooLong"),
        }
    }
}

impl Duplicate for ExprWhy {
    fn copy(&self, _alloc: Global) -> Result<Self, AllocError> {
        Ok(*self)
    }
}

/// The fault of a text: the place is the length of its longest front with which some expression begins.
#[derive(Clone, Copy, Debug, PartialEq, Eq)]
pub struct ExprFault {
    pub place: u32,
    pub why: ExprWhy,
}

/// Why there is no expression.
#[derive(Clone, Copy, Debug, PartialEq, Eq)]
pub enum ExprAnswer {
    /// Memory ran out.
    Memory,
    /// The text is no expression of the kind, or too long.
    Bad { fault: ExprFault },
}

impl From<AllocError> for ExprAnswer {
    ghost use Rattle.std.specs.Prelude.{◌≡◌};
    ghost use Rattle.format_expr.specs.declared.fault.ExprAnswer.TheVariants.{Memory};

    ghost from_gives = { λ _ e. e ≡ Memory };

    fn from(_: AllocError) -> Self {
        ExprAnswer::Memory
    }
}
