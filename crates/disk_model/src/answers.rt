//! Why a call of a disk did not do its work.
ghost use Rattle.std.specs.Prelude.{◌≡◌};
ghost use Rattle.disk_model.specs.declared.answers.DiskAnswer.TheVariants.{Memory, Failed};

use std::alloc::AllocError;
use thiserror::Error;

/// A fault of the disk.
#[derive(Clone, Copy, Debug, PartialEq, Eq, Error)]
pub enum DiskFault {
    /// The disk told a fault.
    #[error("disk fault")]
    Failed,
}

/// Why a call of a disk did not do its work.
#[derive(Clone, Copy, Debug, PartialEq, Eq, Error)]
pub enum DiskAnswer {
    /// Memory ran out.
    #[error("out of memory")]
    Memory,
    /// The disk told a fault.
    #[error("disk fault")]
    Failed,
    /// The disk stopped: the armed count was reached.
    #[error("disk stopped")]
    Stopped,
}

impl From<AllocError> for DiskAnswer {
    ghost from_gives = { λ _ e. e ≡ Memory };

    fn from(_: AllocError) -> Self {
        DiskAnswer::Memory
    }
}

impl From<DiskFault> for DiskAnswer {
    ghost from_gives = { λ _ e. e ≡ Failed };

    fn from(_: DiskFault) -> Self {
        DiskAnswer::Failed
    }
}
