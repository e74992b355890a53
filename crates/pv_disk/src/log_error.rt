// Why a call of a log didn't do what it was to do.
ghost use Rattle.std.specs.Prelude.{◌≡◌};
ghost use Rattle.pv_disk.specs.declared.log_error.LogError.TheVariants.{Failed as LogFailed, NoMemory as LogNoMemory};

use pv_base::{Failed, NoMemory};
use std::alloc::{AllocError, AllocFailed};
use thiserror::Error;

/// Why a call of a log didn't do what it was to do.
#[derive(Clone, Copy, Debug, PartialEq, Eq, Error)]
pub enum LogError {
    /// What the log stands on failed, and counted the fault. The log is down until it is opened again.
    #[error("failed")]
    Failed,
    /// A call answered [`LogError::Failed`] since the log was opened. Nothing changed.
    #[error("down")]
    Down,
    /// With the record the log would have this length, in bytes, which is above its limit. Nothing changed.
    #[error("full at {0}")]
    Full(u64),
    /// What was read isn't a log's; the number is the place where that shows. The log stays as it is.
    #[error("not ours at {0}")]
    NotOurs(u64),
    /// There was no memory. The log stays as it is.
    #[error("no memory")]
    NoMemory,
}

impl From<Failed> for LogError {
    ghost from_gives = { λ _ e. e ≡ LogFailed };

    fn from(_: Failed) -> Self {
        LogError::Failed
    }
}

impl From<NoMemory> for LogError {
    ghost from_gives = { λ _ e. e ≡ LogNoMemory };

    fn from(_: NoMemory) -> Self {
        LogError::NoMemory
    }
}

impl From<AllocError> for LogError {
    ghost from_gives = { λ _ e. e ≡ LogNoMemory };

    fn from(_: AllocError) -> Self {
        LogError::NoMemory
    }
}

impl<T: Drop> From<AllocFailed<T>> for LogError {
    ghost from_gives = { λ _ e. e ≡ LogNoMemory };

    fn from(_: AllocFailed<T>) -> Self {
        LogError::NoMemory
    }
}
