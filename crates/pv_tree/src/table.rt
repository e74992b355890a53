// Values at every assignment of some transactions.
ghost use Rattle.std.specs.Prelude.{◌≡◌, ◌<◌, ◌^◌, ◌++◌, List, [], length, IfOk, OnOk, Some};
ghost use Rattle.pv_base.specs.Assignment.{AreAscending, commits};
ghost use Rattle.pv_base.specs.Polyvalue.{value_at, AreValues};
ghost use Rattle.pv_tree.specs.Meanings.{cases_at, Keeps, Tabulates};

use crate::nodes::{Node, Nodes};
use pv_base::{Exact, NoMemory, TxnId};
use std::cmp::Ordering;

impl<V: Exact> Nodes<V> {
    /// Appends the node's value at every assignment of these transactions.
    pub fn push_table(
        &self,
        number: u32,
        txns: &[TxnId],
        values: &mut Vec<V>,
    ) -> Result<(), NoMemory>
        requires there { number < length self.now }
        requires ascending { AreAscending txns.now }
        ensures { OnOk result ((added : List _) × (values.new.items ≡ values.old.items ++ added) × AreValues (cases_at self.now number) txns.now added) }
    {
        let Some((first, rest)) = txns.split_first() else {
            values.push(self.value_at(number, &[]))?;
            return Ok(());
        };
        if let Node::Test(txn, aborted, committed) = self.node(number) {
            match txn.cmp(first) {
                Ordering::Less => return self.push_table(aborted, txns, values),
                Ordering::Equal => {
                    self.push_table(aborted, rest, values)?;
                    return self.push_table(committed, rest, values);
                }
                // The value doesn't depend on the first one.
                Ordering::Greater => {}
            }
        }
        self.push_table(number, rest, values)?;
        self.push_table(number, rest, values)
    }

    /// The node's value where exactly the transactions of `yes` commit. Takes time in proportion to the names, times the length of `yes`.
    pub fn value_at(&self, number: u32, yes: &[TxnId]) -> V
        requires { number < length self.now }
        ensures { value_at (cases_at self.now number) yes.now ≡ Some result }
    {
        match self.node(number) {
            Node::Leaf(value) => value,
            Node::Test(txn, aborted, committed) => {
                if commits(yes, txn) {
                    return self.value_at(committed, yes);
                }
                self.value_at(aborted, yes)
            }
        }
    }

    /// The number of the node that has these values at the assignments of these transactions. The nodes that this wants are made.
    pub fn from_table(&mut self, txns: &[TxnId], values: &[V]) -> Result<u32, NoMemory>
        requires ascending { AreAscending txns.now }
        requires whole { length values.now ≡ 2 ^ length txns.now }
        ensures kept { OnOk result (Keeps self.old self.new) }
        ensures table { IfOk result (Tabulates txns.now values.now self.new) }
    {
        let Some((first, rest)) = txns.split_first() else {
            return self.leaf(values[0]);
        };
        let (aborted, committed) = values.split_at(values.len() / 2);
        let aborted = self.from_table(rest, aborted)?;
        let committed = self.from_table(rest, committed)?;
        self.test(*first, aborted, committed)
    }
}

/// Whether the transaction commits.
pub fn commits(yes: &[TxnId], txn: TxnId) -> bool
    ensures { result ≡ commits yes.now txn }
{
    yes.contains(&txn)
}
