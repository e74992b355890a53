// Why a disk didn't make room, and why a log can't be read from a disk.
ghost use Rattle.std.specs.Prelude.{◌≡◌};
ghost use Rattle.pv_disk.specs.declared.disk_error.DiskError.TheVariants as disk;
ghost use Rattle.pv_disk.specs.declared.disk_error.LookError.TheVariants as look;

use pv_base::{Failed, NoMemory};
use std::alloc::{AllocError, AllocFailed};
use thiserror::Error;

/// Why a disk didn't make room.
#[derive(Clone, Copy, Debug, PartialEq, Eq, Error)]
pub enum DiskError {
    /// The disk failed, and counted the fault.
    #[error("failed")]
    Failed,
    /// There was no memory. The disk holds what it held.
    #[error("no memory")]
    NoMemory,
}

/// Why the contents of a log can't be read from a disk.
#[derive(Clone, Copy, Debug, PartialEq, Eq, Error)]
pub enum LookError {
    /// The disk failed, and counted the fault.
    #[error("failed")]
    Failed,
    /// The disk holds no log; the number is the place where that shows.
    #[error("not ours at {0}")]
    NotOurs(u64),
    /// There was no memory.
    #[error("no memory")]
    NoMemory,
}

impl From<Failed> for DiskError {
    ghost from_gives = { λ _ e. e ≡ disk.Failed };

    fn from(_: Failed) -> Self {
        DiskError::Failed
    }
}

impl From<AllocError> for DiskError {
    ghost from_gives = { λ _ e. e ≡ disk.NoMemory };

    fn from(_: AllocError) -> Self {
        DiskError::NoMemory
    }
}

impl From<Failed> for LookError {
    ghost from_gives = { λ _ e. e ≡ look.Failed };

    fn from(_: Failed) -> Self {
        LookError::Failed
    }
}

impl From<NoMemory> for LookError {
    ghost from_gives = { λ _ e. e ≡ look.NoMemory };

    fn from(_: NoMemory) -> Self {
        LookError::NoMemory
    }
}

impl From<AllocError> for LookError {
    ghost from_gives = { λ _ e. e ≡ look.NoMemory };

    fn from(_: AllocError) -> Self {
        LookError::NoMemory
    }
}

impl<T: Drop> From<AllocFailed<T>> for LookError {
    ghost from_gives = { λ _ e. e ≡ look.NoMemory };

    fn from(_: AllocFailed<T>) -> Self {
        LookError::NoMemory
    }
}
