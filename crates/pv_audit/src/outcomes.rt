// The outcomes that a report tells, and the transaction at which it has no order.
ghost use Rattle.std.specs.Prelude.{◌≡◌, List, IfOk};
ghost use Rattle.std.specs.List.{find};
ghost use Rattle.pv_audit.specs.Kept.{KeepsFirst};
ghost use Rattle.pv_audit.specs.Reports.{Report, is_misplaced, is_stray, misplaced};
ghost use Rattle.pv_audit.specs.ToldView.{AreOutcomesIn, report_of};
ghost use Rattle.pv_model.specs.Serial.{Ordered};

use crate::begun::Begun;
use crate::lists::Sorted;
use crate::report::Head;
use pv_base::{NoMemory, TxnId};
use std::alloc::Global;

/// The outcomes that a report tells.
#[derive(Debug, Drop)]
pub struct Outcomes {
    /// The transactions of its order.
    pub ordered: Sorted,
    /// Those that are committed.
    pub committed: Sorted,
    /// Those that are open.
    pub open_ones: Sorted,
}

impl Outcomes {
    /// Those of this report.
    pub fn of(alloc: Global, head: Head) -> Result<Outcomes, NoMemory>
        ensures { (requests : List Ordered) → IfOk result (λ outcomes. AreOutcomesIn outcomes (report_of requests head.entry)) }
    {
        Ok(Outcomes {
            ordered: Sorted::of(alloc, head.ordered)?,
            committed: Sorted::of(alloc, head.committed)?,
            open_ones: Sorted::of(alloc, head.open_ones)?,
        })
    }

    /// The transaction at which the report has no order.
    pub fn misplaced(&self, head: Head, begun: &Begun) -> Option<TxnId>
        ensures { (requests : List Ordered) → AreOutcomesIn self.now (report_of requests head.entry) → KeepsFirst begun.now requests → result ≡ misplaced (report_of requests head.entry) }
    {
        if let Some(txn) = self.first_misplaced(head.ordered, begun) {
            return Some(txn);
        }
        if let Some(txn) = self.first_stray(head.committed) {
            return Some(txn);
        }
        self.first_stray(head.open_ones)
    }

    // The first of these that stands twice in the order, or that no request began.
    fn first_misplaced(&self, txns: &[TxnId], begun: &Begun) -> Option<TxnId>
        ensures { (told : Report) → AreOutcomesIn self.now told → KeepsFirst begun.now told.begun → result ≡ find (is_misplaced told) txns.now }
    {
        for txn in txns {
            if self.is_misplaced(*txn, begun) {
                return Some(*txn);
            }
        }
        None
    }

    fn is_misplaced(&self, txn: TxnId, begun: &Begun) -> bool
        ensures { (told : Report) → AreOutcomesIn self.now told → KeepsFirst begun.now told.begun → result ≡ is_misplaced told txn }
    {
        if self.ordered.has_twice(txn) {
            return true;
        }
        begun.request_of(txn).is_none()
    }

    // The first of these that isn't in the order, or is both committed and open.
    fn first_stray(&self, txns: &[TxnId]) -> Option<TxnId>
        ensures { (told : Report) → AreOutcomesIn self.now told → result ≡ find (is_stray told) txns.now }
    {
        for txn in txns {
            if self.is_stray(*txn) {
                return Some(*txn);
            }
        }
        None
    }

    fn is_stray(&self, txn: TxnId) -> bool
        ensures { (told : Report) → AreOutcomesIn self.now told → result ≡ is_stray told txn }
    {
        if !self.ordered.has(txn) {
            return true;
        }
        if !self.committed.has(txn) {
            return false;
        }
        self.open_ones.has(txn)
    }
}
