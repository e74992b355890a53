// Trees after an outcome is known, and trees that choose by an outcome.
ghost use Rattle.std.specs.Prelude.{◌≡◌, ◌⊎◌, false, true, IsTrue, IfOk};
ghost use Rattle.pv_base.specs.Polyvalue.{names, AreOutcomes, IsCanonical, IsChoice, IsSettled};
ghost use Rattle.pv_cases.specs.From.{NamesFrom, IsFirst, IsSide, before, earlier, first_before};
ghost use Rattle.pv_base.specs.declared.txn.TxnId.{TxnId};

use crate::tree::{Node, Tree};
use pv_base::{Exact, Literal, NoMemory, TxnId};
use std::alloc::Global;
use std::cmp::Ordering;

impl<V: Exact> Tree<V> {
    /// The tree once the outcomes of these transactions are known. Takes time in proportion to the cases, times the names, and to the
    /// literals.
    pub fn settle(&self, alloc: Global, literals: &[Literal]) -> Result<Tree<V>, NoMemory>
        requires outcomes { AreOutcomes literals.now }
        ensures settled { IfOk result (IsSettled literals.now self.now) }
        ensures names { IfOk result (λ tree. (named : TxnId) → IsTrue (names tree named) → IsTrue (names self.now named)) }
        ensures canonical { IfOk result IsCanonical }
    {
        let Node::Test(txn, aborted, committed) = &self.node else {
            return self.copy(alloc);
        };
        let Some((literal, rest)) = literals.split_first() else {
            return self.copy(alloc);
        };
        match literal.txn.cmp(txn) {
            Ordering::Less => self.settle(alloc, rest),
            Ordering::Equal if literal.commits => committed.settle(alloc, rest),
            Ordering::Equal => aborted.settle(alloc, rest),
            Ordering::Greater => {
                let aborted = aborted.settle(alloc, literals)?;
                let committed = committed.settle(alloc, literals)?;
                Tree::test(alloc, *txn, aborted, committed)
            }
        }
    }

    /// The tree that is the second one where the transaction commits, and else the first. Takes time in proportion to the cases of
    /// both and of the result, times the names.
    pub fn choose(
        alloc: Global,
        txn: TxnId,
        aborted: &Tree<V>,
        committed: &Tree<V>,
    ) -> Result<Tree<V>, NoMemory>
        requires aborted_unnamed { names aborted.now txn ≡ false }
        requires committed_unnamed { names committed.now txn ≡ false }
        ensures choice { IfOk result (IsChoice txn aborted.now committed.now) }
        ensures names { IfOk result (λ tree. (named : TxnId) → IsTrue (names tree named) →
            (txn ≡ named) ⊎ (IsTrue (names aborted.now named) ⊎ IsTrue (names committed.now named))) }
        ensures canonical { IfOk result IsCanonical }
    {
        match first_before(txn, aborted.top(), committed.top()) {
            None => {
                let aborted = aborted.copy(alloc)?;
                let committed = committed.copy(alloc)?;
                Tree::test(alloc, txn, aborted, committed)
            }
            Some(first) => {
                let aborted_side = Tree::choose(
                    alloc,
                    txn,
                    aborted.side(first, false),
                    committed.side(first, false),
                )?;
                let committed_side = Tree::choose(
                    alloc,
                    txn,
                    aborted.side(first, true),
                    committed.side(first, true),
                )?;
                Tree::test(alloc, first, aborted_side, committed_side)
            }
        }
    }

    // The transaction that the tree tests first.
    fn top(&self) -> Option<TxnId>
        ensures { IsFirst self.now result }
    {
        match &self.node {
            Node::Sure(_) => None,
            Node::Test(txn, _, _) => Some(*txn),
        }
    }

    // The tree once the outcome of the transaction is known, where the tree tests no earlier one.
    fn side(&self, txn: TxnId, commits: bool) -> &Tree<V>
        requires { NamesFrom txn self.now }
        ensures { IsSide txn commits self.now result.now }
    {
        match &self.node {
            Node::Test(tested, aborted, committed) if *tested == txn => {
                if commits { committed } else { aborted }
            }
            _ => self,
        }
    }
}

// The earlier of the two, if there is one and it comes before `txn`.
fn first_before(txn: TxnId, top: Option<TxnId>, other: Option<TxnId>) -> Option<TxnId>
    ensures { result ≡ first_before txn top other }
{
    match (top, other) {
        (Some(top), Some(other)) => before(txn, earlier(top, other)),
        (Some(top), None) => before(txn, top),
        (None, Some(other)) => before(txn, other),
        (None, None) => None,
    }
}

// The earlier of two transactions.
fn earlier(top: TxnId, other: TxnId) -> TxnId
    ensures { result ≡ earlier top other }
{
    if other < top { other } else { top }
}

// The transaction `top`, if it is before `txn`.
fn before(txn: TxnId, top: TxnId) -> Option<TxnId>
    ensures { result ≡ before txn top }
{
    if top < txn { Some(top) } else { None }
}
