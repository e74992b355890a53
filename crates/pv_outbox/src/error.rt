// Why an outbox didn't do what was asked, or wasn't opened.
use pv_base::NoMemory;
use pv_disk::Log;
use std::fmt;
use thiserror::Error;

/// Why an output isn't held or released, or an outcome isn't learnt.
#[derive(Clone, Copy, Debug, PartialEq, Eq, Error)]
pub enum BoxError {
    /// The output was held before, under the condition that counts. Nothing changes.
    #[error("the output was held before")]
    Again,
    /// The outcome of the transaction is known: this one, which counts. Nothing changes.
    #[error("the outcome is known")]
    Known(bool),
    /// The log failed, which was counted. The outbox is down until it is opened again; its log holds the record, or it doesn't, and nothing
    /// was released.
    #[error("the log failed")]
    Failed,
    /// The outbox is down, since an earlier call was answered with [`BoxError::Failed`]. Nothing changes.
    #[error("the outbox is down")]
    Down,
    /// With the record the log would have this length, above its limit. Nothing changes.
    #[error("the log would have {0} bytes")]
    Full(u64),
    /// There was no memory. The outbox is as if it hadn't been asked.
    #[error("no memory")]
    NoMemory,
}

impl From<NoMemory> for BoxError {
    ghost use Rattle.std.specs.Prelude.{◌≡◌};
    ghost use Rattle.pv_outbox.specs.declared.error.BoxError.TheVariants as error;

    ghost from_gives = { λ _ e. e ≡ error.NoMemory };

    fn from(_: NoMemory) -> Self {
        BoxError::NoMemory
    }
}

/// Why an outbox wasn't opened. The log comes back in each case.
#[derive(Drop, Error)]
pub enum OpenOutbox<L: Log> {
    /// The log failed as it was read, which was counted.
    #[error("the log failed")]
    Failed(L),
    /// The content with this index, from 0, is no record's, and those before it are.
    #[error("content {1} is no record")]
    BadRecord(L, u64),
    /// What was read isn't the log's: the log said so of this place, or what was read has this length and the log has another. It never comes
    /// from a log of which it is known what it holds.
    #[error("not ours at {1}")]
    NotOurs(L, u64),
    /// There was no memory.
    #[error("no memory")]
    NoMemory(L),
}

// Without the log.
impl<L: Log> fmt::Debug for OpenOutbox<L> {
    fn fmt<W: fmt::Write>(&self, f: &mut fmt::Formatter<W>) -> fmt::Result {
        match self {
            OpenOutbox::Failed(_) => f.write_str("Failed(..)"),
            OpenOutbox::BadRecord(_, index) => write!(f, "BadRecord(.., {index})"),
            OpenOutbox::NotOurs(_, place) => write!(f, "NotOurs(.., {place})"),
            OpenOutbox::NoMemory(_) => f.write_str("NoMemory(..)"),
        }
    }
}
