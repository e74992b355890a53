// The transactions that nodes name.
ghost use Rattle.std.specs.Prelude.{◌≡◌, ◌<◌, ◌⊎◌, ℕ, true, false, length, get_or, IfOk, OnOk};
ghost use Rattle.pv_base.specs.Assignment.{is_same_txn};
ghost use Rattle.pv_base.specs.Polyvalue.{names, AreNames};
ghost use Rattle.pv_cases.specs.Names.{Adds};
ghost use Rattle.pv_tree.specs.Meanings.{cases_at};
ghost use Rattle.pv_tree.specs.Settling.{AreSeen};

use crate::nodes::{Node, Nodes};
use pv_base::{Exact, NoMemory, TxnId};
use pv_cases::ordered;
use std::alloc::Global;

impl<V: Exact> Nodes<V> {
    /// The transactions that the node names, ascending, each once.
    pub fn names(&self, alloc: Global, number: u32) -> Result<Vec<TxnId>, NoMemory>
        requires { number < length self.now }
        ensures { IfOk result (λ txns. AreNames (cases_at self.now number) txns.items) }
    {
        let mut txns = Vec::new(alloc);
        let mut seen = vec![in alloc; false; self.len() as usize]?;
        self.push_names(number, &mut seen, &mut txns)?;
        Ok(ordered(txns))
    }

    /// Appends the transactions that the node names and the list doesn't have. A node that was seen isn't gone through again. After an error
    /// some of them stand in the list. Takes time in proportion to the nodes that weren't seen, times the names.
    pub fn push_names(
        &self,
        number: u32,
        seen: &mut [bool],
        txns: &mut Vec<TxnId>,
    ) -> Result<(), NoMemory>
        requires there { number < length self.now }
        requires seen { AreSeen self.now seen.old txns.old.items }
        ensures names { OnOk result (Adds (names (cases_at self.now number)) txns.old.items txns.new.items) }
        ensures seen { OnOk result (AreSeen self.now seen.new txns.new.items) }
    {
        if is_seen(seen, number) {
            return Ok(());
        }
        if let Node::Test(txn, aborted, committed) = self.node(number) {
            push_once(txns, txn)?;
            self.push_names(aborted, seen, txns)?;
            self.push_names(committed, seen, txns)?;
            see(seen, number);
        }
        Ok(())
    }
}

// Appends the transaction, unless it stands in the list.
fn push_once(txns: &mut Vec<TxnId>, txn: TxnId) -> Result<(), NoMemory>
    ensures { OnOk result (Adds (λ other. is_same_txn other txn) txns.old.items txns.new.items) }
{
    if !txns.contains(&txn) {
        txns.push(txn)?;
    }
    Ok(())
}

// Whether the node was seen.
fn is_seen(seen: &[bool], number: u32) -> bool
    ensures { result ≡ get_or seen.now number false }
{
    match seen.get(number as usize) {
        Some(is) => *is,
        None => false,
    }
}

// Notes that the node was seen.
fn see(seen: &mut [bool], number: u32)
    ensures { (other : ℕ) → get_or seen.new other false ≡ true → (other ≡ number) ⊎ (get_or seen.old other false ≡ true) }
{
    let place = number as usize;
    if place < seen.len() {
        seen[place] = true;
    }
}
