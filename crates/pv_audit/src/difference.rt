// Where a printed item and the serial run differ.
ghost use Rattle.std.specs.Prelude.{◌≡◌, ◌∷◌, None, ℤ, List, MatchOption, IfOk, IsTrue};
ghost use Rattle.std.specs.Bool.{MatchBool};
ghost use Rattle.std.specs.List.{Contains};
ghost use Rattle.pv_audit.specs.Differences.{AreSameForOpen, AreSameUnder, AreSettled, IsFirstList, IsShown, Leads, NamesOnlyOpen, known_of};
ghost use Rattle.pv_audit.specs.FirstFailures.{IsFirstFailure};
ghost use Rattle.pv_audit.specs.Reports.{Report, misplaced};
ghost use Rattle.pv_audit.specs.ToldView.{AreOutcomesIn};
ghost use Rattle.pv_base.specs.Assignment.{AreAscending, assignments, commits};
ghost use Rattle.pv_base.specs.Polyvalue as model;
ghost use Rattle.pv_base.specs.Polyvalue.{AreOutcomes, IsPolyvalue, names};
ghost use Rattle.pv_base.specs.declared.limits.TheConstants.{HELD_NAMES};
ghost use Rattle.pv_base.specs.declared.txn.TxnId as code;

use crate::outcomes::Outcomes;
use pv_base::{Case, Literal, NoMemory, TxnId};
use pv_cases::{copy_cases, ordered, push_names};
use pv_tree::Poly;
use std::alloc::Global;

/// The first list of open transactions, ascending, at which the printed cases have another value than the serial run, if there is one. "Doesn't commit" comes
/// before "commits", and the least transaction is the most significant.
pub fn first_list(
    alloc: Global,
    cases: &[Case<i64>],
    serial: &Poly<i64>,
    outcomes: &Outcomes,
) -> Result<Option<Vec<TxnId>>, NoMemory>
    requires { IsPolyvalue HELD_NAMES cases.now }
    ensures { (told : Report) → AreOutcomesIn outcomes.now told → misplaced told ≡ None → NamesOnlyOpen told serial.now →
        IfOk result (λ found. MatchOption found (AreSameForOpen told cases.now serial.now) (λ txns. IsFirstList told cases.now serial.now txns.items)) }
{
    let shown = shown(alloc, cases, outcomes)?;
    if are_same(&shown, serial) {
        return Ok(None);
    }
    let open_ones = outcomes.open_ones.once(alloc)?;
    let txns = first_difference(alloc, shown, serial.copy(alloc)?, &open_ones)?;
    Ok(Some(txns))
}

// The printed value over the open outcomes.
fn shown(alloc: Global, cases: &[Case<i64>], outcomes: &Outcomes) -> Result<Poly<i64>, NoMemory>
    requires { IsPolyvalue HELD_NAMES cases.now }
    ensures { (told : Report) → AreOutcomesIn outcomes.now told → IfOk result (IsShown told cases.now) }
{
    let Ok(printed) = Poly::from_cases(alloc, copy_cases(alloc, cases)?) else {
        // They are the cases of a polyvalue.
        return Err(NoMemory);
    };
    let names = printed.names(alloc)?;
    let literals = known_of(alloc, &names, outcomes)?;
    printed.settle_all(alloc, &literals)
}

// What a report says of these transactions, but for the open ones.
fn known_of(alloc: Global, txns: &[TxnId], outcomes: &Outcomes) -> Result<Vec<Literal>, NoMemory>
    ensures known { (told : Report) → AreOutcomesIn outcomes.now told → IfOk result (λ literals. literals.items ≡ known_of told txns.now) }
    ensures ascending { AreAscending txns.now → IfOk result (λ literals. AreOutcomes literals.items) }
{
    let mut literals = Vec::new(alloc);
    for txn in txns {
        if !outcomes.open_ones.has(*txn) {
            literals.push(Literal {
                txn: *txn,
                commits: outcomes.committed.has(*txn),
            })?;
        }
    }
    Ok(literals)
}

// Whether they are one.
fn are_same(first: &Poly<i64>, second: &Poly<i64>) -> bool
    ensures { MatchBool result (first.now ≡ second.now) (first.now ≡ second.now → ⊥) }
{
    first == second
}

// Two polyvalues.
#[derive(Debug, Drop)]
struct Pair {
    first: Poly<i64>,
    second: Poly<i64>,
}

// Of two polyvalues that differ and name only these transactions, the first list at which they do.
fn first_difference(
    alloc: Global,
    first: Poly<i64>,
    second: Poly<i64>,
    txns: &[TxnId],
) -> Result<Vec<TxnId>, NoMemory>
    requires { first ≡ second → ⊥ }
    ensures { AreAscending txns.now → ((txn : code.TxnId) → IsTrue (names first txn) → Contains txns.now txn) →
        ((txn : code.TxnId) → IsTrue (names second txn) → Contains txns.now txn) →
        IfOk result (λ list. IsFirstFailure (AreSameUnder first second) (assignments txns.now) list.items) }
{
    let mut pair = Pair { first, second };
    let names = names_of_both(alloc, &pair)?;
    let mut list = Vec::new(alloc);
    for txn in txns {
        pair = decided(alloc, pair, *txn, &names, &mut list)?;
    }
    Ok(list)
}

// The transactions that one of them names.
fn names_of_both(alloc: Global, pair: &Pair) -> Result<Vec<TxnId>, NoMemory>
    ensures first { IfOk result (λ txns. (txn : code.TxnId) → IsTrue (names pair.now.first txn) → Contains txns.items txn) }
    ensures second { IfOk result (λ txns. (txn : code.TxnId) → IsTrue (names pair.now.second txn) → Contains txns.items txn) }
    ensures polyvalue { IsPolyvalue HELD_NAMES pair.now.first }
    ensures polyvalue_too { IsPolyvalue HELD_NAMES pair.now.second }
{
    let first = pair.first.cases();
    let second = pair.second.cases();
    let mut txns = Vec::new(alloc);
    push_names(&mut txns, first)?;
    push_names(&mut txns, second)?;
    Ok(ordered(txns))
}

// The two once it is decided whether the transaction commits, which then stands in the list. It commits only where they are one if it doesn't, and one that isn't
// named needn't.
fn decided(
    alloc: Global,
    pair: Pair,
    txn: TxnId,
    names: &[TxnId],
    list: &mut Vec<TxnId>,
) -> Result<Pair, NoMemory>
    ensures { (first second : List (model.Case ℤ)) (txns left : List code.TxnId) → Leads first second txns names.now pair.first pair.second (txn ∷ left) list.old.items →
        IfOk result (λ now. Leads first second txns names.now now.first now.second left list.new.items) }
{
    if !is_listed(names, txn) {
        return Ok(pair);
    }
    let aborted = settled(alloc, &pair, txn, false)?;
    if !are_same(&aborted.first, &aborted.second) {
        return Ok(aborted);
    }
    list.push(txn)?;
    settled(alloc, &pair, txn, true)
}

// Whether the transaction is one of these.
fn is_listed(txns: &[TxnId], txn: TxnId) -> bool
    ensures { result ≡ commits txns.now txn }
{
    txns.contains(&txn)
}

// The two once the outcome is known.
fn settled(alloc: Global, pair: &Pair, txn: TxnId, commits: bool) -> Result<Pair, NoMemory>
    ensures { IfOk result (λ now. AreSettled txn commits pair.now.first pair.now.second now.first now.second) }
{
    Ok(Pair {
        first: pair.first.settle(alloc, txn, commits)?,
        second: pair.second.settle(alloc, txn, commits)?,
    })
}
