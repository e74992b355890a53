// Why an outbox with a host refuses what the host asks. Each refusal leaves it as it was, but for room that was made where there was no memory.
use thiserror::Error;

/// Why an outbox isn't opened. The causes are tested in this order, but for want of memory, which may come at any place.
#[derive(Clone, Copy, Debug, PartialEq, Eq, Error)]
pub enum OpeningFault {
    /// The bytes are no journal, which shows at this place.
    #[error("no journal: byte {0}")]
    NotOurs(u64),
    /// The content with this index, from 0, is no record of an outbox, and those before it are.
    #[error("no record: content {0}")]
    BadRecord(u64),
    /// There was no memory.
    #[error("no memory")]
    NoMemory,
}

/// Why an output isn't held. The causes are tested in this order, but for want of memory, which may come at any place.
#[derive(Clone, Copy, Debug, PartialEq, Eq, Error)]
pub enum HoldFault {
    /// The text is no condition.
    #[error("no condition")]
    BadCases,
    /// The output was held before, and records wait to be written into the host's file: a crash may undo it.
    #[error("the output was held before, and records are unwritten")]
    Unwritten,
    /// The output was held before, and the host's file has that.
    #[error("the output was held before")]
    Again,
    /// With the record the journal would have this length, above its limit.
    #[error("the journal would have {0} bytes")]
    Full(u64),
    /// There was no memory.
    #[error("no memory")]
    NoMemory,
}

/// Why an outcome isn't learnt. The causes are tested in this order, but for want of memory, which may come at any place.
#[derive(Clone, Copy, Debug, PartialEq, Eq, Error)]
pub enum LearnFault {
    /// No transaction has such a site.
    #[error("no such site")]
    NoSite,
    /// An outcome was learnt before, and records wait to be written into the host's file: a crash may undo it.
    #[error("an outcome is known, and records are unwritten")]
    Unwritten,
    /// This outcome was learnt before, and the host's file has it.
    #[error("the outcome is known")]
    Known(bool),
    /// With the record the journal would have this length, above its limit.
    #[error("the journal would have {0} bytes")]
    Full(u64),
    /// There was no memory.
    #[error("no memory")]
    NoMemory,
}

/// Why no output is released. The causes are tested in this order, but for want of memory, which may come at any place.
#[derive(Clone, Copy, Debug, PartialEq, Eq, Error)]
pub enum ReleaseFault {
    /// None is ready.
    #[error("no output is ready")]
    NoneReady,
    /// With the record the journal would have this length, above its limit.
    #[error("the journal would have {0} bytes")]
    Full(u64),
    /// There was no memory.
    #[error("no memory")]
    NoMemory,
}

/// Why no output is taken.
#[derive(Clone, Copy, Debug, PartialEq, Eq, Error)]
pub enum TakeFault {
    /// All that were released are taken.
    #[error("nothing is released")]
    Nothing,
    /// The next one's release waits to be written into the host's file.
    #[error("the release is unwritten")]
    Unwritten,
}
