//! Why a call on a source or a sink did not succeed.
use std::alloc::AllocError;
use thiserror::Error;

/// Why a call on the outside did not succeed.
#[derive(Clone, Copy, Debug, PartialEq, Eq, Error)]
pub enum IoFault {
    /// The object outside failed.
    #[error("input or output failed")]
    Failed,
}

/// Why a piece was not written.
#[derive(Clone, Copy, Debug, PartialEq, Eq, Error)]
pub enum SinkAnswer {
    /// Memory ran out.
    #[error("out of memory")]
    Memory,
    /// The sink failed.
    #[error("write fault")]
    Failed,
}

/// Why an input was not read to its end.
#[derive(Clone, Copy, Debug, PartialEq, Eq, Error)]
pub enum ReadAnswer {
    /// Memory ran out.
    #[error("out of memory")]
    Memory,
    /// The source failed.
    #[error("read fault")]
    ReadFault,
    /// There are more bytes than the limit.
    #[error("too long")]
    TooLong,
}

impl From<AllocError> for SinkAnswer {
    ghost use Rattle.std.specs.Prelude.{◌≡◌};
    ghost use Rattle.io_edge.specs.declared.answers.SinkAnswer.TheVariants.{Memory};

    ghost from_gives = { λ _ e. e ≡ Memory };

    fn from(_: AllocError) -> Self {
        SinkAnswer::Memory
    }
}

impl From<AllocError> for ReadAnswer {
    ghost use Rattle.std.specs.Prelude.{◌≡◌};
    ghost use Rattle.io_edge.specs.declared.answers.ReadAnswer.TheVariants.{Memory};

    ghost from_gives = { λ _ e. e ≡ Memory };

    fn from(_: AllocError) -> Self {
        ReadAnswer::Memory
    }
}
