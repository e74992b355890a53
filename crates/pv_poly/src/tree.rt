// Decision trees over ascending transactions: how a polyvalue is worked on (Bryant, 1986). A tree stands for its cases.
ghost use Rattle.std.specs.Prelude.{◌≡◌, ◌⊎◌, true, [], ◌∷◌, IsTrue, IfOk, OnOk};
ghost use Rattle.pv_base.specs.Polyvalue.{names, IsCanonical, NamesOnlyAfter, IsChoice};
ghost use Rattle.pv_base.specs.declared.txn.TxnId.{TxnId};
ghost use Rattle.pv_cases.specs.Names.{Adds};

use pv_base::{Exact, NoMemory, TxnId};
use std::alloc::Global;
use std::marker::Model;

/// A decision tree in its smallest form: transactions ascend on each way down, and no test has equal sides.
#[cycle(tree)]
#[derive(Drop)]
pub struct Tree<V> {
    pub node: Node<V>,
}

/// What stands at the top of a tree.
#[cycle(tree)]
#[derive(Drop)]
pub enum Node<V> {
    /// The value, whatever else commits.
    Sure(V),
    /// A test of the transaction: the tree where it doesn't commit, and the tree where it does.
    Test(TxnId, Box<Tree<V>>, Box<Tree<V>>),
}

impl<V> Model for Tree<V> {
    ghost use Rattle.std.specs.Prelude.{List, length};
    ghost use Rattle.pv_base.specs.Polyvalue as model;

    ghost Value = { List (model.Case V) };

    ghost use Rattle.pv_poly.specs.TreeView.{cases_of, IsReduced};

    ghost view = { λ tree. cases_of tree.node };

    ghost invariant = { λ tree. IsReduced tree.node };

    ghost size = { length };

    ghost use Rattle.pv_poly.specs.TreeFalls.{depth_le-length-cases};

    ghost size_decreases = { λ tree h. depth_le-length-cases tree.node h };
}

impl<V: Exact> Tree<V> {
    /// The tree with this value at every assignment.
    pub fn sure(value: V) -> Tree<V>
        ensures { result ≡ record { when = []; value = value } ∷ [] }
    {
        Tree {
            node: Node::Sure(value),
        }
    }

    /// The tree that tests this transaction first, unless both sides are equal: then it is that side.
    pub fn test(
        alloc: Global,
        txn: TxnId,
        aborted: Tree<V>,
        committed: Tree<V>,
    ) -> Result<Tree<V>, NoMemory>
        requires aborted_after { NamesOnlyAfter txn aborted }
        requires committed_after { NamesOnlyAfter txn committed }
        ensures choice { IfOk result (IsChoice txn aborted committed) }
        ensures names { IfOk result (λ tree. (named : TxnId) → IsTrue (names tree named) →
            (txn ≡ named) ⊎ (IsTrue (names aborted named) ⊎ IsTrue (names committed named))) }
        ensures canonical { IfOk result IsCanonical }
    {
        // Reading the nodes shows the proof that both trees are reduced.
        let _ = &aborted.node;
        let _ = &committed.node;
        if aborted.same(&committed) {
            return Ok(aborted);
        }
        let aborted = Box::new(alloc, aborted)?;
        let committed = Box::new(alloc, committed)?;
        Ok(Tree {
            node: Node::Test(txn, aborted, committed),
        })
    }

    /// Appends the transaction of each test, some of them more than once. After an error some of them stand in the list. Takes time in
    /// proportion to the tests.
    pub fn push_names(&self, txns: &mut Vec<TxnId>) -> Result<(), NoMemory>
        ensures { OnOk result (Adds (names self.now) txns.old.items txns.new.items) }
    {
        match &self.node {
            Node::Sure(_) => Ok(()),
            Node::Test(txn, aborted, committed) => {
                txns.push(*txn)?;
                aborted.push_names(txns)?;
                committed.push_names(txns)?;
                Ok(())
            }
        }
    }

    /// Whether both trees are equal, which they are exactly where they have the same value at every assignment.
    pub fn same(&self, other: &Tree<V>) -> bool
        ensures equal { result ≡ true → self.now ≡ other.now }
        ensures unequal { self.now ≡ other.now → result ≡ true }
    {
        match (&self.node, &other.node) {
            (Node::Sure(value), Node::Sure(second)) => value == second,
            (
                Node::Test(txn, aborted, committed),
                Node::Test(second, other_aborted, other_committed),
            ) => { txn == second && aborted.same(other_aborted) && committed.same(other_committed) }
            _ => false,
        }
    }

    /// An equal tree, which shares nothing with this one.
    pub fn copy(&self, alloc: Global) -> Result<Tree<V>, NoMemory>
        ensures { IfOk result (λ copy. copy ≡ self.now) }
    {
        match &self.node {
            Node::Sure(value) => Ok(Tree::sure(*value)),
            Node::Test(txn, aborted, committed) => {
                let aborted = Box::new(alloc, aborted.copy(alloc)?)?;
                let committed = Box::new(alloc, committed.copy(alloc)?)?;
                Ok(Tree {
                    node: Node::Test(*txn, aborted, committed),
                })
            }
        }
    }
}
