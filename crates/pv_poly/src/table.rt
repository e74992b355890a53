// Values at every assignment of some transactions.
ghost use Rattle.std.specs.Prelude.{◌≡◌, ◌^◌, ◌++◌, List, [], length, IsTrue, IfOk, OnOk, Some, map};
ghost use Rattle.std.specs.List.{Contains};
ghost use Rattle.pv_base.specs.Assignment.{AreAscending, assignments};
ghost use Rattle.pv_base.specs.Polyvalue.{value_at, names, IsCanonical, AreValues};
ghost use Rattle.pv_base.specs.declared.txn.TxnId.{TxnId};

use crate::tree::{Node, Tree};
use pv_base::{Exact, NoMemory, TxnId};
use std::alloc::Global;
use std::cmp::Ordering;

impl<V: Exact> Tree<V> {
    /// Appends the value at every assignment of these transactions.
    pub fn push_table(&self, txns: &[TxnId], values: &mut Vec<V>) -> Result<(), NoMemory>
        requires ascending { AreAscending txns.now }
        ensures { OnOk result ((added : List _) × (values.new.items ≡ values.old.items ++ added) × AreValues self.now txns.now added) }
    {
        let Some((first, rest)) = txns.split_first() else {
            values.push(self.value_of_none())?;
            return Ok(());
        };
        if let Node::Test(txn, aborted, committed) = &self.node {
            match txn.cmp(first) {
                Ordering::Less => return aborted.push_table(txns, values),
                Ordering::Equal => {
                    aborted.push_table(rest, values)?;
                    return committed.push_table(rest, values);
                }
                // The value doesn't depend on the first one.
                Ordering::Greater => {}
            }
        }
        self.push_table(rest, values)?;
        self.push_table(rest, values)
    }

    // The value where no transaction commits.
    fn value_of_none(&self) -> V
        ensures { value_at self.now [] ≡ Some result }
    {
        match &self.node {
            Node::Sure(value) => *value,
            Node::Test(_, aborted, _) => aborted.value_of_none(),
        }
    }

    /// The tree that has these values at the assignments of these transactions.
    pub fn from_table(alloc: Global, txns: &[TxnId], values: &[V]) -> Result<Tree<V>, NoMemory>
        requires ascending { AreAscending txns.now }
        requires whole { length values.now ≡ 2 ^ length txns.now }
        ensures values { IfOk result (λ tree. AreValues tree txns.now values.now) }
        ensures names { IfOk result (λ tree. (txn : TxnId) → IsTrue (names tree txn) → Contains txns.now txn) }
        ensures canonical { IfOk result IsCanonical }
    {
        let Some((first, rest)) = txns.split_first() else {
            return Ok(Tree::sure(values[0]));
        };
        let (aborted, committed) = values.split_at(values.len() / 2);
        let aborted = Tree::from_table(alloc, rest, aborted)?;
        let committed = Tree::from_table(alloc, rest, committed)?;
        Tree::test(alloc, *first, aborted, committed)
    }
}
