// Why a decider made no step, or wasn't opened.
use pv_base::NoMemory;
use pv_disk::Log;
use std::fmt;
use thiserror::Error;

/// Why a decider made no step.
#[derive(Clone, Copy, Debug, PartialEq, Eq, Error)]
pub enum QuorumError {
    /// The log failed, which was counted. The decider is down until it is opened again; its log holds the step's record, or it doesn't, and
    /// nothing was sent.
    #[error("the log failed")]
    Fault,
    /// The decider is down, since an earlier step was answered with [`QuorumError::Fault`]. Nothing changes.
    #[error("the decider is down")]
    Down,
    /// There was no memory. The decider is as if the input hadn't come.
    #[error("no memory")]
    NoMemory,
}

impl From<NoMemory> for QuorumError {
    ghost use Rattle.std.specs.Prelude.{◌≡◌};
    ghost use Rattle.pv_quorum.specs.declared.error.QuorumError.TheVariants as error;

    ghost from_gives = { λ _ e. e ≡ error.NoMemory };

    fn from(_: NoMemory) -> Self {
        QuorumError::NoMemory
    }
}

/// Why a decider wasn't opened. The log comes back in each case.
#[derive(Drop, Error)]
pub enum OpenDecider<L: Log> {
    /// The log failed as it was read, which was counted.
    #[error("the log failed")]
    Failed(L),
    /// The content with this index, from 0, is no record's, and those before it are.
    #[error("content {1} is no record")]
    BadRecord(L, u64),
    /// What was read isn't the log's: the log said so of this place, or what was read has this length and the log has another. It never comes
    /// from a log of which it is known what it holds.
    #[error("not ours at {1}")]
    NotOurs(L, u64),
    /// There was no memory.
    #[error("no memory")]
    NoMemory(L),
}

// Without the log.
impl<L: Log> fmt::Debug for OpenDecider<L> {
    fn fmt<W: fmt::Write>(&self, f: &mut fmt::Formatter<W>) -> fmt::Result {
        match self {
            OpenDecider::Failed(_) => f.write_str("Failed(..)"),
            OpenDecider::BadRecord(_, index) => write!(f, "BadRecord(.., {index})"),
            OpenDecider::NotOurs(_, place) => write!(f, "NotOurs(.., {place})"),
            OpenDecider::NoMemory(_) => f.write_str("NoMemory(..)"),
        }
    }
}
