// The cases that a polyvalue holds, and where they stand.
ghost use Rattle.std.specs.Prelude.{◌≡◌, [], ◌∷◌, IfOk};
ghost use Rattle.pv_poly.specs.HeldCases.{held_cases};

use crate::tree::{Node, Tree};
use pv_base::{Case, Exact, NoMemory};
use pv_cases::copy_cases;
use std::alloc::Global;

/// The cases of a polyvalue. Most values depend on no outcome and have one case: it stands within the polyvalue, so that such a value takes
/// no memory.
#[derive(Debug, Drop)]
pub enum Cases<V> {
    /// One case, as an array, which is lent as a slice.
    One([Case<V>; 1]),
    /// Any number of cases.
    Many(Vec<Case<V>>),
}

impl<V> Cases<V> {
    /// The cases, wherever they stand.
    pub fn as_slice(&self) -> &[Case<V>]
        ensures { result.now ≡ held_cases self.now }
    {
        match self {
            Cases::One(case) => case,
            Cases::Many(cases) => cases,
        }
    }
}

impl<V: Exact> Cases<V> {
    /// This value at every assignment. It takes no memory.
    pub fn sure(alloc: Global, value: V) -> Cases<V>
        ensures { held_cases result ≡ record { when = []; value = value } ∷ [] }
    {
        Cases::One([Case {
            when: Vec::new(alloc),
            value,
        }])
    }

    /// The cases that the tree stands for.
    pub fn of_tree(alloc: Global, tree: &Tree<V>) -> Result<Cases<V>, NoMemory>
        ensures { IfOk result (λ cases. held_cases cases ≡ tree.now) }
    {
        match &tree.node {
            Node::Sure(value) => Ok(Cases::sure(alloc, *value)),
            Node::Test(..) => Ok(Cases::Many(tree.cases(alloc)?)),
        }
    }

    /// Equal cases, which share nothing with these.
    pub fn copy(&self, alloc: Global) -> Result<Cases<V>, NoMemory>
        ensures { IfOk result (λ copy. held_cases copy ≡ held_cases self.now) }
    {
        match self {
            Cases::One([case]) => Ok(Cases::One([case.copy(alloc)?])),
            Cases::Many(cases) => Ok(Cases::Many(copy_cases(alloc, cases)?)),
        }
    }
}
