// Nodes that choose by an outcome.
ghost use Rattle.std.specs.Prelude.{◌≡◌, ◌<◌, ◌≤◌, None, Some, false, get_or, length, IfOk, IfSome, OnOk};
ghost use Rattle.pv_base.specs.Polyvalue.{names};
ghost use Rattle.pv_cases.specs.From.{NamesFrom, IsFirst, IsSide, before, earlier, first_before};
ghost use Rattle.pv_tree.specs.Choosing.{AreChosen, ChoosesInto, IsNoted};
ghost use Rattle.pv_tree.specs.Meanings.{cases_at, Keeps, Chooses};

use crate::nodes::{Node, Nodes};
use crate::settling::nothing_noted;
use pv_base::{Exact, NoMemory, TxnId};
use std::alloc::Global;

impl<V: Exact> Nodes<V> {
    /// The number of the node that is the second one where the transaction commits, and else the first. The nodes that this wants are made. Takes
    /// time in proportion to the ways down both at once as far as they test earlier transactions, without those below a pair of nodes that is
    /// noted, times at most the nodes that are made.
    pub fn choose(
        &mut self,
        alloc: Global,
        txn: TxnId,
        aborted: u32,
        committed: u32,
    ) -> Result<u32, NoMemory>
        requires aborted_there { aborted < length self.old }
        requires committed_there { committed < length self.old }
        requires aborted_unnamed { names (cases_at self.old aborted) txn ≡ false }
        requires committed_unnamed { names (cases_at self.old committed) txn ≡ false }
        ensures kept { OnOk result (Keeps self.old self.new) }
        ensures chosen { IfOk result (Chooses txn (cases_at self.old aborted) (cases_at self.old committed) self.new) }
    {
        let mut noted = nothing_noted(alloc, self.len())?;
        self.choose_once(txn, aborted, committed, &mut noted)
    }

    // The same. A choice that is noted isn't made again: of each node, the last one where it is the first of both.
    fn choose_once(
        &mut self,
        txn: TxnId,
        aborted: u32,
        committed: u32,
        noted: &mut [Option<(u32, u32)>],
    ) -> Result<u32, NoMemory>
        requires aborted_there { aborted < length self.old }
        requires committed_there { committed < length self.old }
        requires aborted_unnamed { names (cases_at self.old aborted) txn ≡ false }
        requires committed_unnamed { names (cases_at self.old committed) txn ≡ false }
        requires noted { AreChosen txn self.old noted.old }
        ensures { IfOk result (ChoosesInto txn self.old self.new noted.new aborted committed) }
    {
        if let Some(found) = choice_at(noted, aborted, committed) {
            return Ok(found);
        }
        match first_before(txn, self.top(aborted), self.top(committed)) {
            None => {
                let made = self.test(txn, aborted, committed)?;
                note_choice(noted, aborted, committed, made);
                Ok(made)
            }
            Some(first) => {
                // Both, where the first one doesn't commit and where it does.
                let aborted_if_not = self.side(aborted, first, false);
                let committed_if_not = self.side(committed, first, false);
                let aborted_if = self.side(aborted, first, true);
                let committed_if = self.side(committed, first, true);
                let front = self.choose_once(txn, aborted_if_not, committed_if_not, noted)?;
                let back = self.choose_once(txn, aborted_if, committed_if, noted)?;
                let made = self.test(first, front, back)?;
                note_choice(noted, aborted, committed, made);
                Ok(made)
            }
        }
    }

    // The transaction that the node tests first.
    fn top(&self, number: u32) -> Option<TxnId>
        requires { number < length self.now }
        ensures { IsFirst (cases_at self.now number) result }
    {
        match self.node(number) {
            Node::Leaf(_) => None,
            Node::Test(txn, _, _) => Some(txn),
        }
    }

    // The node once the outcome of the transaction is known, where it tests no earlier one.
    fn side(&self, number: u32, txn: TxnId, commits: bool) -> u32
        requires there { number < length self.now }
        requires from { NamesFrom txn (cases_at self.now number) }
        ensures there { result ≤ number }
        ensures side { IsSide txn commits (cases_at self.now number) (cases_at self.now result) }
    {
        match self.node(number) {
            Node::Test(tested, aborted, committed) if tested == txn => {
                if commits { committed } else { aborted }
            }
            _ => number,
        }
    }
}

// The earlier of the two, if there is one and it comes before `txn`.
fn first_before(txn: TxnId, top: Option<TxnId>, other: Option<TxnId>) -> Option<TxnId>
    ensures { result ≡ first_before txn top other }
{
    match (top, other) {
        (Some(top), Some(other)) => before(txn, earlier(top, other)),
        (Some(top), None) => before(txn, top),
        (None, Some(other)) => before(txn, other),
        (None, None) => None,
    }
}

// The earlier of two transactions.
fn earlier(top: TxnId, other: TxnId) -> TxnId
    ensures { result ≡ earlier top other }
{
    if other < top { other } else { top }
}

// The transaction `top`, if it is before `txn`.
fn before(txn: TxnId, top: TxnId) -> Option<TxnId>
    ensures { result ≡ before txn top }
{
    if top < txn { Some(top) } else { None }
}

// The choice between these nodes, if it is noted.
fn choice_at(noted: &[Option<(u32, u32)>], aborted: u32, committed: u32) -> Option<u32>
    ensures { IfSome result (λ made. get_or noted.now aborted None ≡ Some (committed, made)) }
{
    match noted.get(aborted as usize) {
        Some(Some((other, made))) if *other == committed => Some(*made),
        _ => None,
    }
}

// Notes the choice between these nodes.
fn note_choice(noted: &mut [Option<(u32, u32)>], aborted: u32, committed: u32, made: u32)
    ensures { IsNoted noted.old noted.new aborted (committed, made) }
{
    let place = aborted as usize;
    if place < noted.len() {
        noted[place] = Some((committed, made));
    }
}
