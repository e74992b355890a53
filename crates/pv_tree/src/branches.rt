// Decision trees with their cases beside the nodes.
ghost use Rattle.std.specs.Prelude.{◌≡◌, ◌<◌, ◌≤◌, ◌^◌, ◌++◌, List, length, Some, IfOk, OnOk};
ghost use Rattle.pv_base.specs.Assignment.{AreAscending};
ghost use Rattle.pv_base.specs.Polyvalue.{value_at, AreNames, AreValues};
ghost use Rattle.pv_base.specs.declared.limits.TheConstants.{HELD_NAMES};
ghost use Rattle.pv_cases.specs.CasesAt.{under_all};
ghost use Rattle.pv_tree.specs.Meanings.{cases_at, Keeps};
ghost use Rattle.pv_tree.specs.Settling.{Settles};

use crate::nodes::{Node, Nodes};
use crate::settling::nothing_noted;
use pv_base::{Case, Exact, Literal, NoMemory, TxnId};
use std::alloc::Global;
use std::marker::Model;

/// The nodes of a decision tree, of which the last is the root, and its cases, from left to right.
#[derive(Debug, Drop)]
pub struct Branches<V> {
    nodes: Nodes<V>,
    cases: Vec<Case<V>>,
}

impl<V> Model for Branches<V> {
    ghost use Rattle.std.specs.Prelude.{List};
    ghost use Rattle.pv_base.specs.Polyvalue as model;

    ghost Value = { List (model.Case V) };

    ghost use Rattle.pv_tree.specs.Last.{IsLast};

    ghost view = { λ branches. branches.cases.items };

    ghost invariant = { λ branches. IsLast branches.nodes branches.cases.items };
}

impl<V> Branches<V> {
    /// The cases.
    pub fn cases(&self) -> &[Case<V>]
        ensures { result.now ≡ self.now }
    {
        &self.cases
    }
}

impl<V: Exact> Branches<V> {
    /// The tree of this node, whose cases are made here.
    pub fn of_node(alloc: Global, nodes: Nodes<V>, root: u32) -> Result<Branches<V>, NoMemory>
        requires { root < length nodes }
        ensures { IfOk result (λ branches. branches ≡ cases_at nodes root) }
    {
        let nodes = nodes.up_to(root);
        let mut cases = Vec::with_capacity(alloc, nodes.len() as usize)?;
        nodes.push_cases(root, &mut Vec::new(alloc), &mut cases)?;
        Ok(Branches { nodes, cases })
    }

    /// The tree of this node, which has these cases.
    pub fn of_cases(nodes: Nodes<V>, root: u32, cases: Vec<Case<V>>) -> Branches<V>
        requires there { root < length nodes }
        requires cases { cases_at nodes root ≡ cases.items }
        ensures { result ≡ cases.items }
    {
        Branches {
            nodes: nodes.up_to(root),
            cases,
        }
    }

    /// The value where exactly the transactions of `yes` commit.
    pub fn value_at(&self, yes: &[TxnId]) -> V
        ensures { value_at self.now yes.now ≡ Some result }
    {
        self.nodes.value_at(self.nodes.len() - 1, yes)
    }

    /// Puts the tree, once the outcomes of these transactions are known, among the nodes, and tells the number of its root there.
    pub fn settle(
        &self,
        alloc: Global,
        literals: &[Literal],
        target: &mut Nodes<V>,
    ) -> Result<u32, NoMemory>
        ensures kept { OnOk result (Keeps target.old target.new) }
        ensures settled { IfOk result (Settles literals.now self.now target.new) }
    {
        let mut noted = nothing_noted(alloc, self.nodes.len())?;
        self.nodes
            .settle(self.nodes.len() - 1, literals, target, &mut noted)
    }

    /// The transactions that the tree names, ascending, each once.
    pub fn names(&self, alloc: Global) -> Result<Vec<TxnId>, NoMemory>
        ensures { IfOk result (λ txns. AreNames self.now txns.items) }
    {
        self.nodes.names(alloc, self.nodes.len() - 1)
    }

    /// Appends the value at every assignment of these transactions.
    pub fn push_table(&self, txns: &[TxnId], values: &mut Vec<V>) -> Result<(), NoMemory>
        requires ascending { AreAscending txns.now }
        ensures { OnOk result ((added : List _) × (values.new.items ≡ values.old.items ++ added) × AreValues self.now txns.now added) }
    {
        self.nodes.push_table(self.nodes.len() - 1, txns, values)
    }
}

impl<V: Exact> Nodes<V> {
    // Appends the node's cases, each under the literals of the way down to here.
    fn push_cases(
        &self,
        number: u32,
        way: &mut Vec<Literal>,
        cases: &mut Vec<Case<V>>,
    ) -> Result<(), NoMemory>
        requires there { number < length self.now }
        ensures cases { OnOk result (cases.new.items ≡ cases.old.items ++ under_all way.old.items (cases_at self.now number)) }
        ensures way { OnOk result (way.new.items ≡ way.old.items) }
    {
        match self.node(number) {
            Node::Leaf(value) => {
                let when = copied(*way.allocator(), way)?;
                cases.push(Case { when, value })?;
                Ok(())
            }
            Node::Test(txn, aborted, committed) => {
                way.push(Literal {
                    txn,
                    commits: false,
                })?;
                self.push_cases(aborted, way, cases)?;
                way.pop();
                way.push(Literal { txn, commits: true })?;
                self.push_cases(committed, way, cases)?;
                way.pop();
                Ok(())
            }
        }
    }
}

// The literals of a way, for the case that it leads to.
fn copied(alloc: Global, way: &[Literal]) -> Result<Vec<Literal>, NoMemory>
    ensures { IfOk result (λ when. when.items ≡ way.now) }
{
    Ok(Vec::from_slice(alloc, way)?)
}
