// The canonical cases of a polyvalue, and a decision tree of them.
ghost use Rattle.std.specs.Prelude.{◌≡◌, ◌<◌, ◌≤◌, ◌^◌, false, true, [], ◌∷◌, length, Some, IfOk, IfSome, OnOk};
ghost use Rattle.pv_base.specs.Assignment.{AreAscending};
ghost use Rattle.pv_base.specs.Polyvalue.{value_at, names, AreNames, AreValues, IsCanonical};
ghost use Rattle.pv_base.specs.declared.limits.TheConstants.{HELD_NAMES};
ghost use Rattle.pv_tree.specs.Meanings.{cases_at, Keeps};
ghost use Rattle.pv_tree.specs.Settling.{Settles};

use crate::branches::Branches;
use crate::nodes::{Node, Nodes};
use crate::two::{settle_two, value_of_two};
use pv_base::{Case, Exact, HELD_NAMES, Literal, NoMemory, TxnId};
use pv_cases::{case_under, names_of};
use std::alloc::Global;
use std::marker::Model;
use std::sync::Arc;

/// The cases, and the tree beside them.
#[derive(Debug, Drop)]
pub enum Held<V> {
    /// One case, as an array, which is lent as a slice. It wants no tree.
    One([Case<V>; 1]),
    /// The two cases of a choice between two values by one transaction. They want no tree either.
    Two([Case<V>; 2]),
    /// The nodes and the cases of any others, which are never changed and belong to all copies together.
    Many(Arc<Branches<V>>),
}

/// The canonical cases of a polyvalue, beside a decision tree of them, on which it is worked. Most values depend on no outcome and have one case,
/// and most others on one, and have two: these stand within the polyvalue, so that one case takes no memory, and two take that of their conditions.
#[derive(Debug, Drop)]
pub struct Tree<V> {
    held: Held<V>,
}

impl<V> Model for Tree<V> {
    ghost use Rattle.std.specs.Prelude.{List};
    ghost use Rattle.pv_base.specs.Polyvalue as model;

    ghost Value = { List (model.Case V) };

    ghost use Rattle.pv_tree.specs.Held.{held_cases, HasTree};

    ghost view = { λ tree. held_cases tree.held };

    ghost invariant = { λ tree. HasTree tree.held };
}

impl<V> Tree<V> {
    /// The cases, wherever they stand.
    pub fn cases(&self) -> &[Case<V>]
        ensures { result.now ≡ self.now }
    {
        match &self.held {
            Held::One(case) => case,
            Held::Two(cases) => cases,
            Held::Many(branches) => branches.cases(),
        }
    }
}

impl<V: Exact> Tree<V> {
    /// This value at every assignment. It takes no memory.
    pub fn sure(alloc: Global, value: V) -> Tree<V>
        ensures { result ≡ record { when = []; value = value } ∷ [] }
    {
        Tree {
            held: Held::One([Case {
                when: Vec::new(alloc),
                value,
            }]),
        }
    }

    /// The second value where the transaction commits, and else the first.
    pub fn choice(alloc: Global, txn: TxnId, before: V, after: V) -> Result<Tree<V>, NoMemory>
        ensures { IfOk result (λ tree. tree ≡ record { when = record { txn = txn; commits = false } ∷ []; value = before }
            ∷ record { when = record { txn = txn; commits = true } ∷ []; value = after } ∷ []) }
    {
        Ok(Tree {
            held: Held::Two([
                case_under(alloc, txn, false, before)?,
                case_under(alloc, txn, true, after)?,
            ]),
        })
    }

    /// The cases of the node, which are made here.
    pub fn of_nodes(alloc: Global, nodes: Nodes<V>, root: u32) -> Result<Tree<V>, NoMemory>
        requires { root < length nodes }
        ensures { IfOk result (λ tree. tree ≡ cases_at nodes root) }
    {
        match nodes.node(root) {
            Node::Leaf(value) => Ok(Tree::sure(alloc, value)),
            Node::Test(txn, aborted, committed) => {
                if let Some((before, after)) = nodes.leaves(aborted, committed) {
                    return Tree::choice(alloc, txn, before, after);
                }
                Tree::of_branches(alloc, Branches::of_node(alloc, nodes, root)?)
            }
        }
    }

    /// The cases of the node, which are these.
    pub fn of_cases(
        alloc: Global,
        nodes: Nodes<V>,
        root: u32,
        cases: Vec<Case<V>>,
    ) -> Result<Tree<V>, NoMemory>
        requires there { root < length nodes }
        requires cases { cases_at nodes root ≡ cases.items }
        ensures { IfOk result (λ tree. tree ≡ cases.items) }
    {
        Tree::of_branches(alloc, Branches::of_cases(nodes, root, cases))
    }

    // The tree of these branches.
    fn of_branches(alloc: Global, branches: Branches<V>) -> Result<Tree<V>, NoMemory>
        ensures { IfOk result (λ tree. tree ≡ branches) }
    {
        Ok(Tree {
            held: Held::Many(Arc::new(alloc, branches)?),
        })
    }

    /// Equal cases and an equal tree. One case and two are copied, and others are shared.
    pub fn copy(&self, alloc: Global) -> Result<Tree<V>, NoMemory>
        ensures { IfOk result (λ copy. copy ≡ self.now) }
    {
        let held = match &self.held {
            Held::One([case]) => Held::One([copy_case(alloc, case)?]),
            Held::Two([before, after]) => Held::Two([before.copy(alloc)?, after.copy(alloc)?]),
            Held::Many(branches) => Held::Many(Arc::try_clone(branches)?),
        };
        Ok(Tree { held })
    }

    /// The value where exactly the transactions of `yes` commit.
    pub fn value_at(&self, yes: &[TxnId]) -> V
        requires { IsCanonical self.now }
        ensures { value_at self.now yes.now ≡ Some result }
    {
        match &self.held {
            Held::One(case) => only_value(case),
            Held::Two(cases) => value_of_two(cases, yes),
            Held::Many(branches) => branches.value_at(yes),
        }
    }

    /// Puts the tree, once the outcomes of these transactions are known, among the nodes, and tells the number of its root there.
    pub fn settle(
        &self,
        alloc: Global,
        literals: &[Literal],
        target: &mut Nodes<V>,
    ) -> Result<u32, NoMemory>
        requires { IsCanonical self.now }
        ensures kept { OnOk result (Keeps target.old target.new) }
        ensures settled { IfOk result (Settles literals.now self.now target.new) }
    {
        match &self.held {
            Held::One(case) => target.leaf(only_value(case)),
            Held::Two(cases) => settle_two(cases, literals, target),
            Held::Many(branches) => branches.settle(alloc, literals, target),
        }
    }

    /// The transactions that the tree names, ascending, each once.
    pub fn names(&self, alloc: Global) -> Result<Vec<TxnId>, NoMemory>
        requires { IsCanonical self.now }
        ensures { IfOk result (λ txns. AreNames self.now txns.items) }
    {
        match &self.held {
            Held::One(_) | Held::Two(_) => names_of(alloc, self.cases()),
            Held::Many(branches) => branches.names(alloc),
        }
    }

    /// The value at every assignment of these transactions.
    pub fn table(&self, alloc: Global, txns: &[TxnId]) -> Result<Vec<V>, NoMemory>
        requires canonical { IsCanonical self.now }
        requires ascending { AreAscending txns.now }
        requires few { length txns.now ≤ HELD_NAMES }
        ensures { IfOk result (λ values. AreValues self.now txns.now values.items) }
    {
        match &self.held {
            Held::One(_) | Held::Two(_) => {
                let mut nodes = Nodes::new(alloc);
                let root = self.settle(alloc, &[], &mut nodes)?;
                let mut values = Vec::with_capacity(alloc, 1 << txns.len())?;
                nodes.push_table(root, txns, &mut values)?;
                Ok(values)
            }
            Held::Many(branches) => {
                let mut values = Vec::with_capacity(alloc, 1 << txns.len())?;
                branches.push_table(txns, &mut values)?;
                Ok(values)
            }
        }
    }
}

impl<V: Exact> Nodes<V> {
    // The values of two nodes, where both are leaves.
    fn leaves(&self, number: u32, other: u32) -> Option<(V, V)>
        requires there { number < length self.now }
        requires other_there { other < length self.now }
        ensures { IfSome result (λ both. (cases_at self.now number ≡ record { when = []; value = both.0 } ∷ []) ×
            (cases_at self.now other ≡ record { when = []; value = both.1 } ∷ [])) }
    {
        let Node::Leaf(value) = self.node(number) else {
            return None;
        };
        let Node::Leaf(second) = self.node(other) else {
            return None;
        };
        Some((value, second))
    }
}

// An equal case. Most have no conditions, and these are made without looking for memory to copy them to.
fn copy_case<V: Exact>(alloc: Global, case: &Case<V>) -> Result<Case<V>, NoMemory>
    ensures { IfOk result (λ copy. copy ≡ case.now) }
{
    if case.when.is_empty() {
        return Ok(Case {
            when: Vec::new(alloc),
            value: case.value,
        });
    }
    case.copy(alloc)
}

// The value of one case alone, which is always met.
fn only_value<V: Copy>(cases: &[Case<V>]) -> V
    requires canonical { IsCanonical cases.now }
    requires one { length cases.now ≡ 1 }
    ensures { cases.now ≡ record { when = []; value = result } ∷ [] }
{
    let case = &cases[0];
    case.value
}
