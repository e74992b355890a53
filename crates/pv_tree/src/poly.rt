// Polyvalues, and what is done with them.
ghost use Rattle.std.specs.Prelude.{◌≡◌, ◌≢◌, ◌<◌, ◌≤◌, ◌*◌, ◌^◌, ◌⊎◌, false, true, [], ◌∷◌, ◌++◌, ℕ, Some, Err, List, IsTrue, length, map, IfOk, IfErr, IfSome};
ghost use Rattle.std.specs.List.{Contains, sum};
ghost use Rattle.pv_base.specs.Answer.{Answers};
ghost use Rattle.pv_base.specs.Assignment.{AreAscending, assignments};
ghost use Rattle.pv_base.specs.CaseFaults.{fault_of, IsJoinFault, IsCanonicalFault};
ghost use Rattle.pv_base.specs.Polyvalue as model;
ghost use Rattle.pv_base.specs.Polyvalue.{value_at, names, AreNames, AreOutcomes, NamesAtMost, IsCanonical, IsPolyvalue, IsChoice, ChoiceNames, IsSettled, AreValues};
ghost use Rattle.pv_base.specs.declared.txn.TxnId.{TxnId};
ghost use Rattle.pv_base.specs.declared.limits.TheConstants.{HELD_NAMES};
ghost use Rattle.pv_cases.specs.JoinedCases.{IsJoined, IsKept};
ghost use Rattle.pv_cases.specs.NameLimits.{count_of, IsChosen, ChoiceNamesTooMany};
ghost use Rattle.pv_tree.specs.Meanings.{cases_at};

use crate::nodes::Nodes;
use crate::tree::Tree;
use pv_base::{Case, CaseError, Exact, HELD_NAMES, Literal, NameError, NoMemory, TxnId};
use pv_cases::{first_difference, ordered, settled_value, sure_value, table_of, two_values};
use std::alloc::Global;
use std::marker::Model;

/// A value that depends on the outcomes of at most [`HELD_NAMES`] transactions: a list of cases, each a value under a condition,
/// of which every assignment of outcomes meets exactly one (Montgomery, 1979). Of all such lists with the same values it is the
/// canonical one, so two polyvalues have the same cases exactly where they have the same value at every assignment.
#[derive(Debug, Drop)]
pub struct Poly<V> {
    tree: Tree<V>,
}

impl<V> Model for Poly<V> {
    ghost Value = { List (model.Case V) };

    ghost view = { λ poly. poly.tree };

    ghost invariant = { λ poly. model.IsPolyvalue HELD_NAMES poly.tree };
}

impl<V: PartialEq> PartialEq for Poly<V> {
    ghost use Rattle.std.specs.Cmp.Lexicographic.{pointwise};
    ghost use Rattle.std.specs.Cmp.Rules.{comparing};
    ghost use Rattle.std.proofs.Common.{rules};
    ghost use Rattle.pv_base.specs.contracts.case.CasePartialEq.TheImpl.Laws as case_laws;

    ghost eq = { pointwise ⟦<Case<V> as PartialEq>⟧.eq };

    ghost laws = { Prim.search (comparing, case_laws.laws-law, rules) depth 9 };

    fn eq(&self, other: &Poly<V>) -> bool {
        self.tree.cases() == other.tree.cases()
    }
}

impl<V: Eq> Eq for Poly<V> {
    ghost use Rattle.std.specs.Cmp.Rules.{comparing};
    ghost use Rattle.std.proofs.Common.{rules};
    ghost use Rattle.pv_base.specs.contracts.case.CaseEq.TheImpl.Laws as case_laws;

    ghost laws = { Prim.search (comparing, case_laws.laws-law, rules) depth 9 };
}

impl<V: Exact> Poly<V> {
    /// The polyvalue that has this value at every assignment.
    pub fn sure(alloc: Global, value: V) -> Result<Poly<V>, NoMemory>
        ensures value { IfOk result (λ poly. (assignment : List TxnId) → value_at poly assignment ≡ Some value) }
        ensures polyvalue { IfOk result (IsPolyvalue HELD_NAMES) }
    {
        Ok(Poly {
            tree: Tree::sure(alloc, value),
        })
    }

    /// The polyvalue that has the new value where the transaction commits, and else the old one.
    ///
    /// `TooManyOutcomes` has the number of outcomes that it would name, where these are more than [`HELD_NAMES`]. Takes time in proportion to
    /// the nodes of both and those that are made, times at most the nodes that are made, and to the literals of the cases. Where it is refused, the
    /// nodes of the choice haven't been made. Between two different values that are sure no node is made.
    pub fn choose(
        alloc: Global,
        txn: TxnId,
        new: &Poly<V>,
        old: &Poly<V>,
    ) -> Result<Poly<V>, NameError>
        ensures answer { Answers (IsChosen HELD_NAMES txn old.now new.now) (ChoiceNamesTooMany HELD_NAMES txn old.now new.now) (λ poly. poly) count_of result }
    {
        // Reading the trees shows the proof that both are canonical.
        let _ = &new.tree;
        let _ = &old.tree;
        if let Some(values) = two_values(old.tree.cases(), new.tree.cases()) {
            return Ok(Poly {
                tree: Tree::choice(alloc, txn, values.0, values.1)?,
            });
        }
        let mut nodes = Nodes::new(alloc);
        let root = Poly::chosen(alloc, txn, new, old, &mut nodes)?;
        Ok(Poly {
            tree: Tree::of_nodes(alloc, nodes, root)?,
        })
    }

    // Puts that polyvalue among the nodes, and tells the number of its root.
    fn chosen(
        alloc: Global,
        txn: TxnId,
        new: &Poly<V>,
        old: &Poly<V>,
        nodes: &mut Nodes<V>,
    ) -> Result<u32, NameError>
        ensures there { IfOk result (λ root. root < length nodes.new) }
        ensures given { IfOk result (λ root. IsChosen HELD_NAMES txn old.now new.now (cases_at nodes.new root)) }
        ensures refused { IfErr result (λ e. IfSome (count_of e) (ChoiceNamesTooMany HELD_NAMES txn old.now new.now)) }
    {
        // Reading the trees shows the proof that both are canonical.
        let _ = &new.tree;
        let _ = &old.tree;
        let aborts = [Literal {
            txn,
            commits: false,
        }];
        let aborted = old.tree.settle(alloc, &aborts, nodes)?;
        let committed = new
            .tree
            .settle(alloc, &[Literal { txn, commits: true }], nodes)?;
        if nodes.same(aborted, committed) {
            return Ok(aborted);
        }
        let count = count_of_sides(alloc, nodes, aborted, committed)? + 1;
        if count > HELD_NAMES {
            return Err(NameError::TooManyOutcomes(count));
        }
        Ok(nodes.choose(alloc, txn, aborted, committed)?)
    }

    /// The value where exactly the transactions of `yes` commit. Takes time in proportion to the names, times the length of `yes`.
    pub fn at(&self, yes: &[TxnId]) -> V
        ensures value { value_at self.now yes.now ≡ Some result }
    {
        self.tree.value_at(yes)
    }

    /// What the polyvalue is once the outcome of the transaction is known: at every assignment its value is that of this one with the outcome
    /// put in, and it doesn't name the transaction. Takes time in proportion to the nodes, times at most the nodes that are made, and to the
    /// literals of the cases. A value that is sure has none, nor has a choice between two such by this transaction alone.
    pub fn settle(&self, alloc: Global, txn: TxnId, commits: bool) -> Result<Poly<V>, NoMemory>
        ensures settled { IfOk result (IsSettled (record { txn = txn; commits = commits } ∷ []) self.now) }
        ensures polyvalue { IfOk result (IsPolyvalue HELD_NAMES) }
    {
        self.settle_all(alloc, &[Literal { txn, commits }])
    }

    /// What the polyvalue is once all of these outcomes are known, which ascend by transaction, each transaction once: at every assignment its
    /// value is that of this one with the outcomes put in, and it names none of them. Takes time in proportion to the nodes, times the outcomes
    /// and at most the nodes that are made, and to the literals of the cases.
    pub fn settle_all(&self, alloc: Global, literals: &[Literal]) -> Result<Poly<V>, NoMemory>
        requires outcomes { AreOutcomes literals.now }
        ensures settled { IfOk result (IsSettled literals.now self.now) }
        ensures polyvalue { IfOk result (IsPolyvalue HELD_NAMES) }
    {
        if let Some(value) = settled_value(self.tree.cases(), literals) {
            return Ok(Poly {
                tree: Tree::sure(alloc, value),
            });
        }
        let mut nodes = Nodes::new(alloc);
        let root = self.tree.settle(alloc, literals, &mut nodes)?;
        Ok(Poly {
            tree: Tree::of_nodes(alloc, nodes, root)?,
        })
    }

    /// The transactions that the value depends on, ascending. Takes time in proportion to the nodes, times the names.
    pub fn names(&self, alloc: Global) -> Result<Vec<TxnId>, NoMemory>
        ensures names { IfOk result (λ txns. AreNames self.now txns.items) }
        ensures few { IfOk result (λ txns. length txns.items ≤ HELD_NAMES) }
    {
        self.tree.names(alloc)
    }

    /// The canonical cases.
    pub fn cases(&self) -> &[Case<V>]
        ensures cases { result.now ≡ self.now }
        ensures polyvalue { IsPolyvalue HELD_NAMES self.now }
    {
        self.tree.cases()
    }

    /// An equal polyvalue. Of more than two cases nothing is copied: they belong to both together.
    pub fn copy(&self, alloc: Global) -> Result<Poly<V>, NoMemory>
        ensures equal { IfOk result (λ copy. copy ≡ self.now) }
    {
        Ok(Poly {
            tree: self.tree.copy(alloc)?,
        })
    }

    /// The polyvalue of exactly these cases, which have to be its canonical ones.
    ///
    /// The first thing that is wrong with them is reported, in the order of the errors of [`CaseError`], unless the memory runs out. Takes
    /// the time that [`join`](Poly::join) takes; where nothing is wrong, no table is made, and one case that is always met is kept as it is.
    pub fn from_cases(alloc: Global, cases: Vec<Case<V>>) -> Result<Poly<V>, CaseError>
        requires few_cases { length cases.items < 2 ^ 32 }
        requires few_literals { sum (map (λ case. length case.when) cases.items) < 2 ^ 32 }
        ensures answer { Answers (IsKept HELD_NAMES cases.items) (IsCanonicalFault HELD_NAMES cases.items) (λ poly. poly) fault_of result }
    {
        if let Some(value) = sure_value(&cases) {
            return Ok(Poly {
                tree: Tree::sure(alloc, value),
            });
        }
        match Poly::of_leaves(alloc, cases)? {
            Ok(poly) => Ok(poly),
            Err(cases) => Poly::reduced(alloc, cases),
        }
    }

    // The same, by the table of the cases.
    fn reduced(alloc: Global, cases: Vec<Case<V>>) -> Result<Poly<V>, CaseError>
        requires few_cases { length cases.items < 2 ^ 32 }
        requires few_literals { sum (map (λ case. length case.when) cases.items) < 2 ^ 32 }
        ensures answer { Answers (IsKept HELD_NAMES cases.items) (IsCanonicalFault HELD_NAMES cases.items) (λ poly. poly) fault_of result }
    {
        let poly = Poly::joined(alloc, &cases)?;
        match first_difference(&cases, poly.tree.cases()) {
            None => Ok(poly),
            Some(place) => Err(CaseError::NotReduced(place as u32)),
        }
    }

    /// The polyvalue of exactly these cases, where they are seen to be its canonical ones; and else the cases. They are gone over once, as the leaves of
    /// a decision tree from left to right, so that this takes time in proportion to the literals, and to the cases times at most the nodes that are made.
    pub fn of_leaves(
        alloc: Global,
        cases: Vec<Case<V>>,
    ) -> Result<Result<Poly<V>, Vec<Case<V>>>, NoMemory>
        ensures kept { IfOk result (λ read. IfOk read (IsKept HELD_NAMES cases.items)) }
        ensures given_back { IfOk result (λ read. IfErr read (λ given. given ≡ cases)) }
    {
        let mut nodes = Nodes::new(alloc);
        match Poly::root_of(alloc, &cases, &mut nodes)? {
            Some(root) => Ok(Ok(Poly {
                tree: Tree::of_cases(alloc, nodes, root, cases)?,
            })),
            None => Ok(Err(cases)),
        }
    }

    // The number of the node of these cases, where they are seen to be canonical ones, without a table. The nodes that this wants are made.
    fn root_of(
        alloc: Global,
        cases: &[Case<V>],
        nodes: &mut Nodes<V>,
    ) -> Result<Option<u32>, NoMemory>
        ensures there { IfOk result (λ found. IfSome found (λ root. root < length nodes.new)) }
        ensures kept { IfOk result (λ found. IfSome found (λ root. IsKept HELD_NAMES cases.now (cases_at nodes.new root))) }
    {
        let mut way = Vec::new(alloc);
        let Some((root, rest)) = nodes.read(cases, &mut way)? else {
            return Ok(None);
        };
        if !rest.is_empty() {
            return Ok(None);
        }
        let txns = nodes.names(alloc, root)?;
        if txns.len() > HELD_NAMES as usize {
            return Ok(None);
        }
        Ok(Some(root))
    }

    /// The polyvalue that these cases make up, in any order and not reduced.
    ///
    /// The first thing that is wrong with them is reported, in the order of the errors of [`CaseError`], unless the memory runs out. It is
    /// never `NotReduced`. Takes time in proportion to the literals, times the logarithm of their number, to find the n names; then to 2^n; and
    /// to the assignments that each case meets, times n and the literals of the case. Where no cases overlap, they meet 2^n assignments together
    /// at most.
    pub fn join(alloc: Global, cases: Vec<Case<V>>) -> Result<Poly<V>, CaseError>
        requires few_cases { length cases.items < 2 ^ 32 }
        requires few_literals { sum (map (λ case. length case.when) cases.items) < 2 ^ 32 }
        ensures answer { Answers (IsJoined HELD_NAMES cases.items) (IsJoinFault HELD_NAMES cases.items) (λ poly. poly) fault_of result }
    {
        Poly::joined(alloc, &cases)
    }

    // The same of cases that are kept.
    fn joined(alloc: Global, cases: &[Case<V>]) -> Result<Poly<V>, CaseError>
        requires few_cases { length cases.now < 2 ^ 32 }
        requires few_literals { sum (map (λ case. length case.when) cases.now) < 2 ^ 32 }
        ensures answer { Answers (IsJoined HELD_NAMES cases.now) (IsJoinFault HELD_NAMES cases.now) (λ poly. poly) fault_of result }
    {
        let table = table_of(alloc, cases)?;
        Ok(Poly::from_table(alloc, &table.txns, &table.values)?)
    }

    /// The value at every assignment of these transactions, which are ascending: "doesn't commit" before "commits", and the first
    /// transaction the most significant. Each of the others doesn't commit. Takes time in proportion to the literals and to the
    /// assignments, times the names.
    pub fn table(&self, alloc: Global, txns: &[TxnId]) -> Result<Vec<V>, NoMemory>
        requires ascending { AreAscending txns.now }
        requires few { length txns.now ≤ HELD_NAMES }
        ensures values { IfOk result (λ values. AreValues self.now txns.now values.items) }
    {
        self.tree.table(alloc, txns)
    }

    /// The polyvalue that has these values at the assignments of these transactions, in the order of [`table`](Poly::table). Takes time in
    /// proportion to the values, times at most the nodes that are made, and to the literals of the cases.
    pub fn from_table(alloc: Global, txns: &[TxnId], values: &[V]) -> Result<Poly<V>, NoMemory>
        requires ascending { AreAscending txns.now }
        requires few { length txns.now ≤ HELD_NAMES }
        requires whole { length values.now ≡ 2 ^ length txns.now }
        ensures values { IfOk result (λ poly. AreValues poly txns.now values.now) }
        ensures names { IfOk result (λ poly. (txn : TxnId) → IsTrue (names poly txn) → Contains txns.now txn) }
        ensures polyvalue { IfOk result (IsPolyvalue HELD_NAMES) }
    {
        let mut nodes = Nodes::new(alloc);
        let root = nodes.from_table(txns, values)?;
        Ok(Poly {
            tree: Tree::of_nodes(alloc, nodes, root)?,
        })
    }
}

// How many transactions both nodes name together.
fn count_of_sides<V: Exact>(
    alloc: Global,
    nodes: &Nodes<V>,
    aborted: u32,
    committed: u32,
) -> Result<u32, NoMemory>
    requires aborted_there { aborted < length nodes.now }
    requires committed_there { committed < length nodes.now }
    requires few_aborted { NamesAtMost HELD_NAMES (cases_at nodes.now aborted) }
    requires few_committed { NamesAtMost HELD_NAMES (cases_at nodes.now committed) }
    ensures count { IfOk result (λ count. (txns : List TxnId) → AreNames (cases_at nodes.now aborted ++ cases_at nodes.now committed) txns → length txns ≡ count) }
    ensures few { IfOk result (λ count. count ≤ 2 * HELD_NAMES) }
{
    let txns = names_of_sides(alloc, nodes, aborted, committed)?;
    Ok(txns.len() as u32)
}

// The transactions that both nodes name together, ascending, each once.
fn names_of_sides<V: Exact>(
    alloc: Global,
    nodes: &Nodes<V>,
    aborted: u32,
    committed: u32,
) -> Result<Vec<TxnId>, NoMemory>
    requires aborted_there { aborted < length nodes.now }
    requires committed_there { committed < length nodes.now }
    ensures { IfOk result (λ txns. AreNames (cases_at nodes.now aborted ++ cases_at nodes.now committed) txns.items) }
{
    let mut txns = Vec::new(alloc);
    let mut seen = vec![in alloc; false; nodes.len() as usize]?;
    nodes.push_names(aborted, &mut seen, &mut txns)?;
    nodes.push_names(committed, &mut seen, &mut txns)?;
    Ok(ordered(txns))
}
