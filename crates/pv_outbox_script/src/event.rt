// What a line of a script says.
use pv_base::{Mode, TxnId};
use pv_tree::Poly;

/// What a line of a script says: a call of the outbox, or what comes to pass with its disk and its process.
#[derive(Debug, Drop)]
pub enum Event {
    /// An output is held back.
    Hold {
        /// The output.
        output: u32,
        /// The condition under which it is released.
        when: Poly<i64>,
    },
    /// The outcome of a transaction is learnt.
    Learn {
        /// The transaction.
        txn: TxnId,
        /// Whether it commits.
        commits: bool,
    },
    /// The output is released that is ready and was held first.
    Take,
    /// A later write or sync of the disk fires.
    Arm {
        /// It is the one with this number from now on, counted from 1.
        k: u32,
        /// What it leaves.
        mode: Mode,
        /// Whether it stops the process. Else it is a fault of the disk.
        stop: bool,
    },
    /// No write and no sync of the disk fires.
    Mend,
    /// The process stops.
    Stop,
    /// It starts again, and opens the outbox on its disk.
    Start,
}
