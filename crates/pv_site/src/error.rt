// Why a site made no step, wasn't opened, or didn't go on.
use crate::Recovered;
use pv_base::NoMemory;
use pv_disk::Log;
use std::alloc::{AllocError, AllocFailed};
use std::fmt;
use thiserror::Error;

/// Why a site made no step.
#[derive(Clone, Copy, Debug, PartialEq, Eq, Error)]
pub enum StepError {
    /// The log failed, which was counted. The site is down until it is opened again; its log holds the step's record, or it doesn't,
    /// and nothing was sent.
    #[error("the log failed")]
    Fault,
    /// The site is down, since an earlier step was answered with [`StepError::Fault`]. Nothing changes.
    #[error("the site is down")]
    Down,
    /// There was no memory. The site is as if the input hadn't come.
    #[error("no memory")]
    NoMemory,
}

impl From<NoMemory> for StepError {
    ghost use Rattle.std.specs.Prelude.{◌≡◌};
    ghost use Rattle.pv_site.specs.declared.error.StepError.TheVariants as error;

    ghost from_gives = { λ _ e. e ≡ error.NoMemory };

    fn from(_: NoMemory) -> Self {
        StepError::NoMemory
    }
}

impl From<AllocError> for StepError {
    ghost use Rattle.std.specs.Prelude.{◌≡◌};
    ghost use Rattle.pv_site.specs.declared.error.StepError.TheVariants as error;

    ghost from_gives = { λ _ e. e ≡ error.NoMemory };

    fn from(_: AllocError) -> Self {
        StepError::NoMemory
    }
}

impl<T: Drop> From<AllocFailed<T>> for StepError {
    ghost use Rattle.std.specs.Prelude.{◌≡◌};
    ghost use Rattle.pv_site.specs.declared.error.StepError.TheVariants as error;

    ghost from_gives = { λ _ e. e ≡ error.NoMemory };

    fn from(_: AllocFailed<T>) -> Self {
        StepError::NoMemory
    }
}

/// Why a site wasn't opened. The log comes back in each case. The causes are tested in the order of [`Site::open`](crate::Site::open).
#[derive(Drop, Error)]
pub enum OpenError<L: Log> {
    /// The log failed, which was counted. It holds the record of the new epoch, or it doesn't.
    #[error("the log failed")]
    Failed(L),
    /// The log would have this length with the record of the new epoch, above its limit.
    #[error("the log would have {1} bytes")]
    Full(L, u64),
    /// No epoch is left: the last one is at least 4,294,967,294.
    #[error("no epoch is left")]
    EpochsSpent(L),
    /// The content with this index, from 0, is no record, and those before it are.
    #[error("content {1} is no record")]
    BadRecord(L, u64),
    /// With its records the value of an item would name this many outcomes, more than [`HELD_NAMES`](pv_base::HELD_NAMES). It is counted after the
    /// first prepared record with which there is such an item, for the least one, where all outcomes are known that any record has.
    #[error("a value would name {1} outcomes")]
    TooManyOutcomes(L, u32),
    /// What was read isn't the log's: the log said so of this place, or what was read has this length and the log has another. It never comes
    /// from a log of which it is known what it holds.
    #[error("not ours at {1}")]
    NotOurs(L, u64),
    /// There was no memory.
    #[error("no memory")]
    NoMemory(L),
}

// Without the log.
impl<L: Log> fmt::Debug for OpenError<L> {
    fn fmt<W: fmt::Write>(&self, f: &mut fmt::Formatter<W>) -> fmt::Result {
        match self {
            OpenError::Failed(_) => f.write_str("Failed(..)"),
            OpenError::Full(_, length) => write!(f, "Full(.., {length})"),
            OpenError::EpochsSpent(_) => f.write_str("EpochsSpent(..)"),
            OpenError::BadRecord(_, index) => write!(f, "BadRecord(.., {index})"),
            OpenError::TooManyOutcomes(_, count) => write!(f, "TooManyOutcomes(.., {count})"),
            OpenError::NotOurs(_, place) => write!(f, "NotOurs(.., {place})"),
            OpenError::NoMemory(_) => f.write_str("NoMemory(..)"),
        }
    }
}

/// Why a site didn't go on from what outlived its memory. The log comes back in each case, and what outlived the memory too, as it was. The
/// causes are tested in the order of [`Site::resume`](crate::Site::resume).
#[derive(Drop, Error)]
pub enum ResumeError<L: Log> {
    /// The log failed, which was counted. It holds the record of the new epoch, or it doesn't.
    #[error("the log failed")]
    Failed(L, Recovered),
    /// The log would have this length with the record of the new epoch, above its limit.
    #[error("the log would have {2} bytes")]
    Full(L, Recovered, u64),
    /// No epoch is left: the last one is at least 4,294,967,294.
    #[error("no epoch is left")]
    EpochsSpent(L, Recovered),
    /// There was no memory.
    #[error("no memory")]
    NoMemory(L, Recovered),
}

// Without the log and what outlived the memory.
impl<L: Log> fmt::Debug for ResumeError<L> {
    fn fmt<W: fmt::Write>(&self, f: &mut fmt::Formatter<W>) -> fmt::Result {
        match self {
            ResumeError::Failed(_, _) => f.write_str("Failed(..)"),
            ResumeError::Full(_, _, length) => write!(f, "Full(.., {length})"),
            ResumeError::EpochsSpent(_, _) => f.write_str("EpochsSpent(..)"),
            ResumeError::NoMemory(_, _) => f.write_str("NoMemory(..)"),
        }
    }
}
