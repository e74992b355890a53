// Transactions that are looked up.
ghost use Rattle.std.specs.Prelude.{◌≡◌, [], List, IfOk};
ghost use Rattle.pv_audit.specs.Reports.{is_in, stands_twice};
ghost use Rattle.pv_audit.specs.Sorted.{AreSorted, IsFrom};
ghost use Rattle.pv_base.specs.Assignment.{is_same_txn, precedes};
ghost use Rattle.pv_base.specs.Named.{with_txns};
ghost use Rattle.pv_base.specs.declared.txn.TxnId as code;

use pv_base::{NoMemory, TxnId};
use pv_cases::ordered;
use std::alloc::Global;

/// Transactions in their order, each as often as in the list that it is made of.
#[derive(Debug, Drop)]
pub struct Sorted {
    /// The transactions.
    txns: Vec<TxnId>,
}

impl Sorted {
    /// These transactions. Takes time in proportion to them, times the logarithm of their number.
    pub fn of(alloc: Global, txns: &[TxnId]) -> Result<Sorted, NoMemory>
        ensures { IfOk result (λ sorted. AreSorted sorted.txns.items txns.now) }
    {
        let mut sorted = copied(alloc, txns)?;
        sorted.sort_unstable();
        Ok(Sorted { txns: sorted })
    }

    /// Whether the transaction is among them. Takes time in proportion to the logarithm of their number.
    pub fn has(&self, txn: TxnId) -> bool
        ensures { (others : List code.TxnId) → AreSorted self.now.txns.items others → result ≡ is_in others txn }
    {
        match self.from(txn) {
            [first, ..] => is_same(*first, txn),
            [] => false,
        }
    }

    /// Whether it is there twice. Takes time in proportion to the logarithm of their number.
    pub fn has_twice(&self, txn: TxnId) -> bool
        ensures { (others : List code.TxnId) → AreSorted self.now.txns.items others → result ≡ stands_twice others txn }
    {
        match self.from(txn) {
            [first, second, ..] => is_same(*first, txn) && is_same(*second, txn),
            _ => false,
        }
    }

    /// The transactions, ascending, each once.
    pub fn once(&self, alloc: Global) -> Result<Vec<TxnId>, NoMemory>
        ensures { (others : List code.TxnId) → AreSorted self.now.txns.items others → IfOk result (λ txns. txns.items ≡ with_txns others []) }
    {
        Ok(ordered(copied(alloc, &self.txns)?))
    }

    // Those from the first one on that doesn't precede this one.
    fn from(&self, txn: TxnId) -> &[TxnId]
        ensures { (others : List code.TxnId) → AreSorted self.now.txns.items others → IsFrom txn self.now.txns.items result.now }
    {
        let place = self.txns.partition_point(|other| is_before(*other, txn));
        let (_, rest) = self.txns.split_at(place);
        rest
    }
}

// The transactions, in memory of their own.
fn copied(alloc: Global, txns: &[TxnId]) -> Result<Vec<TxnId>, NoMemory>
    ensures { IfOk result (λ copy. copy.items ≡ txns.now) }
{
    let mut copy = Vec::with_capacity(alloc, txns.len())?;
    copy.extend_from_slice(txns)?;
    Ok(copy)
}

// Whether both are one transaction.
fn is_same(txn: TxnId, other: TxnId) -> bool
    ensures { result ≡ is_same_txn txn other }
{
    txn == other
}

// Whether the first one precedes the other.
fn is_before(txn: TxnId, other: TxnId) -> bool
    ensures { result ≡ precedes txn other }
{
    txn < other
}
