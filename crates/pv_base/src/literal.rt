// What a condition asks of one transaction.
use crate::TxnId;

/// What a condition asks of the outcome of a transaction.
#[derive(Clone, Copy, Debug, PartialEq, Eq)]
pub struct Literal {
    /// The transaction.
    pub txn: TxnId,
    /// Whether it has to commit. Else it mustn't.
    pub commits: bool,
}
