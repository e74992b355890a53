// What an audit answers.
use pv_base::{ItemId, TxnId};

/// Whether the reports of a trace agree with the serial runs of their orders. Reports are numbered from 1, and the first one with a fault is answered.
#[derive(Debug, Drop)]
pub enum Verdict {
    /// All do, and there are so many.
    Yes(u32),
    /// A transaction has no place in the order.
    NoOrder {
        /// The report.
        report: u32,
        /// The transaction.
        txn: TxnId,
    },
    /// An item has another value than in the serial run.
    NoItem {
        /// The report.
        report: u32,
        /// The item.
        item: ItemId,
        /// The open transactions that commit in that run, ascending.
        yes: Vec<TxnId>,
    },
    /// The serial run depends on more outcomes together than values may.
    Limit {
        /// The report.
        report: u32,
        /// How many outcomes they are.
        names: u32,
    },
}
