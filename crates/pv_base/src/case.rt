// Conditions on the outcomes of transactions, and values under them.
ghost use Rattle.std.specs.Prelude.{◌≡◌, IfOk};
ghost use Rattle.pv_base.specs.Polyvalue.{meets};

use crate::{Literal, NoMemory, TxnId};
use std::alloc::Global;
use std::marker::Model;

/// A value under a condition: it holds where all of the literals are met.
#[derive(Debug, Drop)]
pub struct Case<V> {
    /// The condition. An empty one is always met.
    pub when: Vec<Literal>,
    /// The value.
    pub value: V,
}

impl<V> Model for Case<V> {
    ghost use Rattle.pv_base.specs.Polyvalue as model;

    ghost Value = { model.Case V };

    ghost view = { λ inside. record { when = inside.when.items; value = inside.value } };
}

impl<V: PartialEq> PartialEq for Case<V> {
    ghost use Rattle.std.specs.Cmp.Lexicographic.{pointwise};
    ghost use Rattle.std.specs.Cmp.Rules.{comparing};
    ghost use Rattle.std.specs.Ordering.{eq_of_both, on};
    ghost use Rattle.std.proofs.Common.{rules};
    ghost use Rattle.pv_base.specs.contracts.literal.LiteralPartialEq.TheImpl as literal;
    ghost use Rattle.pv_base.specs.contracts.literal.LiteralPartialEq.TheImpl.Laws as literal_laws;

    ghost eq = { eq_of_both (on (λ case. case.when) (pointwise literal.ghosts.eq)) (on (λ case. case.value) V.eq) };

    ghost laws = { Prim.search (comparing, literal_laws.laws-law, rules) depth 9 };

    fn eq(&self, other: &Case<V>) -> bool {
        self.when == other.when && self.value == other.value
    }
}

impl<V: Eq> Eq for Case<V> {
    ghost use Rattle.std.specs.Cmp.Rules.{comparing};
    ghost use Rattle.std.proofs.Common.{rules};
    ghost use Rattle.pv_base.specs.contracts.literal.LiteralEq.TheImpl.Laws as literal_laws;

    ghost laws = { Prim.search (comparing, literal_laws.laws-law, rules) depth 9 };
}

impl<V: Copy> Case<V> {
    /// An equal case, in memory of its own.
    pub fn copy(&self, alloc: Global) -> Result<Case<V>, NoMemory>
        ensures equal { IfOk result (λ copy. copy ≡ self.now) }
    {
        Ok(Case {
            when: Vec::from_slice(alloc, &self.when)?,
            value: self.value,
        })
    }
}

/// Whether the assignment in which exactly the transactions of `yes` commit meets every literal.
pub fn meets(literals: &[Literal], yes: &[TxnId]) -> bool
    ensures { result ≡ meets literals.now yes.now }
{
    literals
        .iter()
        .all(|literal| yes.contains(&literal.txn) == literal.commits)
}
