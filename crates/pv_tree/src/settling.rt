// Nodes once outcomes are known.
ghost use Rattle.std.specs.Prelude.{◌≡◌, ◌<◌, ◌⊎◌, ℕ, None, Some, length, get_or, IfOk};
ghost use Rattle.pv_tree.specs.Outcomes.{outcome_of};
ghost use Rattle.pv_tree.specs.Settling.{AreNoted, SettlesInto};

use crate::nodes::{Node, Nodes};
use pv_base::{Exact, Literal, NoMemory, TxnId};
use std::alloc::Global;

impl<V: Exact> Nodes<V> {
    /// Puts the node, once the outcomes of these transactions are known, among the target nodes, and tells its number there. A node that is noted
    /// isn't gone through again. Takes time in proportion to the nodes that aren't, times the literals and at most the nodes that
    /// are made.
    pub fn settle(
        &self,
        number: u32,
        literals: &[Literal],
        target: &mut Nodes<V>,
        noted: &mut [Option<u32>],
    ) -> Result<u32, NoMemory>
        requires there { number < length self.now }
        requires noted { AreNoted literals.now self.now target.old noted.old }
        ensures { IfOk result (SettlesInto literals.now self.now target.old target.new noted.new number) }
    {
        if let Some(found) = noted_at(noted, number) {
            return Ok(found);
        }
        match self.node(number) {
            Node::Leaf(value) => {
                let made = target.leaf(value)?;
                note(noted, number, made);
                Ok(made)
            }
            Node::Test(txn, aborted, committed) => match outcome_of(literals, txn) {
                Some(true) => {
                    let made = self.settle(committed, literals, target, noted)?;
                    note(noted, number, made);
                    Ok(made)
                }
                Some(false) => {
                    let made = self.settle(aborted, literals, target, noted)?;
                    note(noted, number, made);
                    Ok(made)
                }
                None => {
                    let aborted = self.settle(aborted, literals, target, noted)?;
                    let committed = self.settle(committed, literals, target, noted)?;
                    let made = target.test(txn, aborted, committed)?;
                    note(noted, number, made);
                    Ok(made)
                }
            },
        }
    }
}

/// The outcome of the transaction, if one of the literals is on it.
pub fn outcome_of(literals: &[Literal], txn: TxnId) -> Option<bool>
    ensures { result ≡ outcome_of literals.now txn }
{
    literals
        .iter()
        .find(|literal| literal.txn == txn)
        .map(|literal| literal.commits)
}

/// A list to note nodes in, so many of them, with nothing noted.
pub fn nothing_noted<T: Copy>(alloc: Global, count: u32) -> Result<Vec<Option<T>>, NoMemory>
    ensures { IfOk result (λ noted. (number : ℕ) → get_or noted.items number None ≡ None) }
{
    let mut noted = Vec::with_capacity(alloc, count as usize)?;
    for _ in 0..count {
        noted.push(None)?;
    }
    Ok(noted)
}

// What is noted of the node.
fn noted_at(noted: &[Option<u32>], number: u32) -> Option<u32>
    ensures { result ≡ get_or noted.now number None }
{
    match noted.get(number as usize) {
        Some(found) => *found,
        None => None,
    }
}

// Notes the number of what the node has become.
fn note(noted: &mut [Option<u32>], number: u32, made: u32)
    ensures { (other found : ℕ) → get_or noted.new other None ≡ Some found → ((other ≡ number) × (found ≡ made)) ⊎ (get_or noted.old other None ≡ Some found) }
{
    let place = number as usize;
    if place < noted.len() {
        noted[place] = Some(made);
    }
}
