// Why a checkpoint wasn't made.
use thiserror::Error;

/// Why a checkpoint wasn't made. The log holds the contents that it held, whichever it is.
#[derive(Clone, Copy, Debug, PartialEq, Eq, Error)]
pub enum CkptError {
    /// The disk failed, and counted the fault. The log is down until it is opened again.
    #[error("failed")]
    Failed,
    /// A call answered that it failed since the log was opened. Nothing changed.
    #[error("down")]
    Down,
    /// The number of the root in force is the greatest. Nothing changed.
    #[error("spent")]
    Spent,
    /// There was no memory. The log stays as it is. A disk that doesn't give what it gave before is met with this answer too, and isn't written to.
    #[error("no memory")]
    NoMemory,
}
