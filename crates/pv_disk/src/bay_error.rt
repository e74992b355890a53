// Why a bay didn't hand out a disk.
ghost use Rattle.std.specs.Prelude.{◌≡◌};
ghost use Rattle.pv_disk.specs.declared.bay_error.BayError.TheVariants.{NoMemory as WantsMemory};

use std::alloc::AllocError;
use thiserror::Error;

/// Why a bay didn't hand out a disk.
#[derive(Clone, Copy, Debug, PartialEq, Eq, Error)]
pub enum BayError {
    /// The bay failed, and counted that.
    #[error("failed")]
    Failed,
    /// There was no memory.
    #[error("no memory")]
    NoMemory,
}

impl From<AllocError> for BayError {
    ghost from_gives = { λ _ e. e ≡ WantsMemory };

    fn from(_: AllocError) -> Self {
        BayError::NoMemory
    }
}
