// Polyvalues, and what is done with them.
ghost use Rattle.std.specs.Prelude.{◌≡◌, ◌≢◌, ◌<◌, ◌≤◌, ◌*◌, ◌^◌, ◌⊎◌, false, true, [], ◌∷◌, ◌++◌, ℕ, Some, Err, List, IsTrue, length, map, IfOk, IfErr, IfSome};
ghost use Rattle.std.specs.List.{Contains, sum};
ghost use Rattle.pv_base.specs.Answer.{Answers};
ghost use Rattle.pv_base.specs.Assignment.{AreAscending, assignments};
ghost use Rattle.pv_base.specs.CaseFaults.{fault_of, IsJoinFault, IsCanonicalFault};
ghost use Rattle.pv_base.specs.Polyvalue as model;
ghost use Rattle.pv_base.specs.Polyvalue.{value_at, names, AreNames, AreOutcomes, NamesAtMost, IsCanonical, IsPolyvalue, IsChoice, ChoiceNames, IsSettled, AreValues};
ghost use Rattle.pv_base.specs.declared.txn.TxnId.{TxnId};
ghost use Rattle.pv_base.specs.declared.limits.TheConstants.{HELD_NAMES};
ghost use Rattle.pv_cases.specs.JoinedCases.{IsJoined, IsKept};
ghost use Rattle.pv_cases.specs.NameLimits.{count_of, IsChosen, ChoiceNamesTooMany};
ghost use Rattle.pv_poly.specs.HeldCases.{held_cases};

use crate::held::Cases;
use crate::tree::Tree;
use pv_base::{Case, CaseError, Exact, HELD_NAMES, Literal, NameError, NoMemory, TxnId};
use pv_cases::{
    case_under, first_difference, names_of, ordered, settled_value, sure_value, table_of,
    two_values,
};
use std::alloc::Global;
use std::marker::Model;

/// A value that depends on the outcomes of at most [`HELD_NAMES`] transactions: a list of cases, each a value under a condition,
/// of which every assignment of outcomes meets exactly one (Montgomery, 1979). Of all such lists with the same values it is the
/// canonical one, so two polyvalues have the same cases exactly where they have the same value at every assignment.
#[derive(Debug, Drop)]
pub struct Poly<V> {
    cases: Cases<V>,
}

impl<V> Model for Poly<V> {
    ghost Value = { List (model.Case V) };

    ghost view = { λ poly. held_cases poly.cases };

    ghost invariant = { λ poly. model.IsPolyvalue HELD_NAMES (held_cases poly.cases) };
}

impl<V: PartialEq> PartialEq for Poly<V> {
    ghost use Rattle.std.specs.Cmp.Lexicographic.{pointwise};
    ghost use Rattle.std.specs.Cmp.Rules.{comparing};
    ghost use Rattle.std.proofs.Common.{rules};
    ghost use Rattle.pv_base.specs.contracts.case.CasePartialEq.TheImpl.Laws as case_laws;

    ghost eq = { pointwise ⟦<Case<V> as PartialEq>⟧.eq };

    ghost laws = { Prim.search (comparing, case_laws.laws-law, rules) depth 9 };

    fn eq(&self, other: &Poly<V>) -> bool {
        self.cases.as_slice() == other.cases.as_slice()
    }
}

impl<V: Eq> Eq for Poly<V> {
    ghost use Rattle.std.specs.Cmp.Rules.{comparing};
    ghost use Rattle.std.proofs.Common.{rules};
    ghost use Rattle.pv_base.specs.contracts.case.CaseEq.TheImpl.Laws as case_laws;

    ghost laws = { Prim.search (comparing, case_laws.laws-law, rules) depth 9 };
}

impl<V: Exact> Poly<V> {
    /// The polyvalue that has this value at every assignment.
    pub fn sure(alloc: Global, value: V) -> Result<Poly<V>, NoMemory>
        ensures value { IfOk result (λ poly. (assignment : List TxnId) → value_at poly assignment ≡ Some value) }
        ensures polyvalue { IfOk result (IsPolyvalue HELD_NAMES) }
    {
        Ok(Poly {
            cases: Cases::sure(alloc, value),
        })
    }

    /// The polyvalue that has the new value where the transaction commits, and else the old one.
    ///
    /// `TooManyOutcomes` has the number of outcomes that it would name, where these are more than [`HELD_NAMES`]. Takes time in proportion to
    /// the cases of both and of the result, times the names. These are counted at the tests of both sides, in time in proportion to the tests,
    /// times the logarithm of their number. Where it is refused, the tree of the choice hasn't been made. Between two different values that
    /// name nothing no tree is made.
    pub fn choose(
        alloc: Global,
        txn: TxnId,
        new: &Poly<V>,
        old: &Poly<V>,
    ) -> Result<Poly<V>, NameError>
        ensures answer { Answers (IsChosen HELD_NAMES txn old.now new.now) (ChoiceNamesTooMany HELD_NAMES txn old.now new.now) (λ poly. poly) count_of result }
    {
        // Reading the cases shows the proof that both are canonical.
        let _ = &new.cases;
        let _ = &old.cases;
        if let Some(values) = two_values(old.cases.as_slice(), new.cases.as_slice()) {
            return Ok(Poly {
                cases: Cases::Many(cases_of_choice(alloc, txn, values.0, values.1)?),
            });
        }
        let tree = Poly::chosen(alloc, txn, new, old)?;
        Ok(Poly {
            cases: Cases::of_tree(alloc, &tree)?,
        })
    }

    // The tree of that polyvalue.
    fn chosen(alloc: Global, txn: TxnId, new: &Poly<V>, old: &Poly<V>) -> Result<Tree<V>, NameError>
        ensures given { IfOk result (IsChosen HELD_NAMES txn old.now new.now) }
        ensures refused { IfErr result (λ e. IfSome (count_of e) (ChoiceNamesTooMany HELD_NAMES txn old.now new.now)) }
    {
        // Reading the cases shows the proof that both are canonical.
        let _ = &new.cases;
        let _ = &old.cases;
        let aborted = old.settled_tree(
            alloc,
            &[Literal {
                txn,
                commits: false,
            }],
        )?;
        let committed = new.settled_tree(alloc, &[Literal { txn, commits: true }])?;
        if aborted.same(&committed) {
            return Ok(aborted);
        }
        let count = count_of_sides(alloc, &aborted, &committed)? + 1;
        if count > HELD_NAMES {
            return Err(NameError::TooManyOutcomes(count));
        }
        Ok(Tree::choose(alloc, txn, &aborted, &committed)?)
    }

    /// The value where exactly the transactions of `yes` commit. Takes time in proportion to the literals, times the length of `yes`.
    pub fn at(&self, yes: &[TxnId]) -> V
        ensures value { value_at self.now yes.now ≡ Some result }
    {
        for case in self.cases.as_slice() {
            if pv_base::meets(&case.when, yes) {
                return case.value;
            }
        }
        unreachable!()
    }

    /// What the polyvalue is once the outcome of the transaction is known: at every assignment its value is that of this one with the outcome
    /// put in, and it doesn't name the transaction. Takes time in proportion to the cases, times the names.
    pub fn settle(&self, alloc: Global, txn: TxnId, commits: bool) -> Result<Poly<V>, NoMemory>
        ensures settled { IfOk result (IsSettled (record { txn = txn; commits = commits } ∷ []) self.now) }
        ensures polyvalue { IfOk result (IsPolyvalue HELD_NAMES) }
    {
        self.settle_all(alloc, &[Literal { txn, commits }])
    }

    /// What the polyvalue is once all of these outcomes are known, which ascend by transaction, each transaction once: at every assignment its
    /// value is that of this one with the outcomes put in, and it names none of them. Takes time in proportion to the cases, times the
    /// names, and to the outcomes.
    pub fn settle_all(&self, alloc: Global, literals: &[Literal]) -> Result<Poly<V>, NoMemory>
        requires outcomes { AreOutcomes literals.now }
        ensures settled { IfOk result (IsSettled literals.now self.now) }
        ensures polyvalue { IfOk result (IsPolyvalue HELD_NAMES) }
    {
        if let Some(value) = settled_value(self.cases.as_slice(), literals) {
            return Ok(Poly {
                cases: Cases::sure(alloc, value),
            });
        }
        let tree = self.settled_tree(alloc, literals)?;
        Ok(Poly {
            cases: Cases::of_tree(alloc, &tree)?,
        })
    }

    // The tree of the polyvalue once these outcomes are known.
    fn settled_tree(&self, alloc: Global, literals: &[Literal]) -> Result<Tree<V>, NoMemory>
        requires outcomes { AreOutcomes literals.now }
        ensures settled { IfOk result (IsSettled literals.now self.now) }
        ensures few { IfOk result (NamesAtMost HELD_NAMES) }
        ensures canonical { IfOk result IsCanonical }
    {
        let tree = Tree::read(alloc, self.cases.as_slice())?;
        tree.settle(alloc, literals)
    }

    /// The transactions that the value depends on, ascending. Takes time in proportion to the literals, and to the tests of the decision tree,
    /// times the logarithm of their number.
    pub fn names(&self, alloc: Global) -> Result<Vec<TxnId>, NoMemory>
        ensures names { IfOk result (λ txns. AreNames self.now txns.items) }
        ensures few { IfOk result (λ txns. length txns.items ≤ HELD_NAMES) }
    {
        names_of(alloc, self.cases.as_slice())
    }

    /// The canonical cases.
    pub fn cases(&self) -> &[Case<V>]
        ensures cases { result.now ≡ self.now }
        ensures polyvalue { IsPolyvalue HELD_NAMES self.now }
    {
        self.cases.as_slice()
    }

    /// An equal polyvalue, which shares nothing with this one. Takes time in proportion to the literals.
    pub fn copy(&self, alloc: Global) -> Result<Poly<V>, NoMemory>
        ensures equal { IfOk result (λ copy. copy ≡ self.now) }
    {
        Ok(Poly {
            cases: self.cases.copy(alloc)?,
        })
    }

    /// The polyvalue of exactly these cases, which have to be its canonical ones.
    ///
    /// The first thing that is wrong with them is reported, in the order of the errors of [`CaseError`], unless the memory runs out. Takes
    /// the time that [`join`](Poly::join) takes; one case that is always met is kept as it is.
    pub fn from_cases(alloc: Global, cases: Vec<Case<V>>) -> Result<Poly<V>, CaseError>
        requires few_cases { length cases.items < 2 ^ 32 }
        requires few_literals { sum (map (λ case. length case.when) cases.items) < 2 ^ 32 }
        ensures answer { Answers (IsKept HELD_NAMES cases.items) (IsCanonicalFault HELD_NAMES cases.items) (λ poly. poly) fault_of result }
    {
        if let Some(value) = sure_value(&cases) {
            return Ok(Poly {
                cases: Cases::sure(alloc, value),
            });
        }
        let poly = Poly::joined(alloc, &cases)?;
        match first_difference(&cases, poly.cases.as_slice()) {
            None => Ok(poly),
            Some(place) => Err(CaseError::NotReduced(place as u32)),
        }
    }

    /// The polyvalue that these cases make up, in any order and not reduced.
    ///
    /// The first thing that is wrong with them is reported, in the order of the errors of [`CaseError`], unless the memory runs out. It is
    /// never `NotReduced`. Takes time in proportion to the literals, times the logarithm of their number, to find the n names; then to 2^n; and
    /// to the assignments that each case meets, times n and the literals of the case. Where no cases overlap, they meet 2^n assignments together
    /// at most.
    pub fn join(alloc: Global, cases: Vec<Case<V>>) -> Result<Poly<V>, CaseError>
        requires few_cases { length cases.items < 2 ^ 32 }
        requires few_literals { sum (map (λ case. length case.when) cases.items) < 2 ^ 32 }
        ensures answer { Answers (IsJoined HELD_NAMES cases.items) (IsJoinFault HELD_NAMES cases.items) (λ poly. poly) fault_of result }
    {
        Poly::joined(alloc, &cases)
    }

    // The same of cases that are kept.
    fn joined(alloc: Global, cases: &[Case<V>]) -> Result<Poly<V>, CaseError>
        requires few_cases { length cases.now < 2 ^ 32 }
        requires few_literals { sum (map (λ case. length case.when) cases.now) < 2 ^ 32 }
        ensures answer { Answers (IsJoined HELD_NAMES cases.now) (IsJoinFault HELD_NAMES cases.now) (λ poly. poly) fault_of result }
    {
        let table = table_of(alloc, cases)?;
        Ok(Poly::from_table(alloc, &table.txns, &table.values)?)
    }

    /// The value at every assignment of these transactions, which are ascending: "doesn't commit" before "commits", and the first
    /// transaction the most significant. Each of the others doesn't commit. Takes time in proportion to the literals and to the
    /// assignments, times the names.
    pub fn table(&self, alloc: Global, txns: &[TxnId]) -> Result<Vec<V>, NoMemory>
        requires ascending { AreAscending txns.now }
        requires few { length txns.now ≤ HELD_NAMES }
        ensures values { IfOk result (λ values. AreValues self.now txns.now values.items) }
    {
        let tree = Tree::read(alloc, self.cases.as_slice())?;
        let mut values = Vec::new(alloc);
        tree.push_table(txns, &mut values)?;
        Ok(values)
    }

    /// The polyvalue that has these values at the assignments of these transactions, in the order of [`table`](Poly::table). Takes time in
    /// proportion to the values, times the transactions.
    pub fn from_table(alloc: Global, txns: &[TxnId], values: &[V]) -> Result<Poly<V>, NoMemory>
        requires ascending { AreAscending txns.now }
        requires few { length txns.now ≤ HELD_NAMES }
        requires whole { length values.now ≡ 2 ^ length txns.now }
        ensures values { IfOk result (λ poly. AreValues poly txns.now values.now) }
        ensures names { IfOk result (λ poly. (txn : TxnId) → IsTrue (names poly txn) → Contains txns.now txn) }
        ensures polyvalue { IfOk result (IsPolyvalue HELD_NAMES) }
    {
        let tree = Tree::from_table(alloc, txns, values)?;
        Ok(Poly {
            cases: Cases::of_tree(alloc, &tree)?,
        })
    }
}

// The cases of a choice between two values.
fn cases_of_choice<V: Copy>(
    alloc: Global,
    txn: TxnId,
    before: V,
    after: V,
) -> Result<Vec<Case<V>>, NoMemory>
    ensures { IfOk result (λ cases. cases.items ≡ record { when = record { txn = txn; commits = false } ∷ []; value = before }
        ∷ record { when = record { txn = txn; commits = true } ∷ []; value = after } ∷ []) }
{
    let mut cases = Vec::with_capacity(alloc, 2)?;
    cases.push_reserved(case_under(alloc, txn, false, before)?);
    cases.push_reserved(case_under(alloc, txn, true, after)?);
    Ok(cases)
}

// How many transactions both trees name together.
fn count_of_sides<V: Exact>(
    alloc: Global,
    aborted: &Tree<V>,
    committed: &Tree<V>,
) -> Result<u32, NoMemory>
    requires few_aborted { NamesAtMost HELD_NAMES aborted.now }
    requires few_committed { NamesAtMost HELD_NAMES committed.now }
    ensures count { IfOk result (λ count. (txns : List TxnId) → AreNames (aborted.now ++ committed.now) txns → length txns ≡ count) }
    ensures few { IfOk result (λ count. count ≤ 2 * HELD_NAMES) }
{
    let txns = names_of_sides(alloc, aborted, committed)?;
    Ok(txns.len() as u32)
}

// The transactions that both trees name together, ascending, each once.
fn names_of_sides<V: Exact>(
    alloc: Global,
    aborted: &Tree<V>,
    committed: &Tree<V>,
) -> Result<Vec<TxnId>, NoMemory>
    ensures { IfOk result (λ txns. AreNames (aborted.now ++ committed.now) txns.items) }
{
    let mut txns = Vec::new(alloc);
    aborted.push_names(&mut txns)?;
    committed.push_names(&mut txns)?;
    Ok(ordered(txns))
}
