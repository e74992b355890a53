// The transactions that cases name.
ghost use Rattle.std.specs.Prelude.{◌≡◌, ◌↔◌, true, length, take, IsTrue, IfOk, OnOk, OnErr};
ghost use Rattle.std.specs.List.{Contains};
ghost use Rattle.pv_base.specs.Assignment.{AreAscending};
ghost use Rattle.pv_base.specs.Polyvalue.{names, AreNames};
ghost use Rattle.pv_base.specs.declared.txn.TxnId.{TxnId};
ghost use Rattle.pv_cases.specs.Names.{mentions, Adds};

use pv_base::{Case, Literal, NoMemory, TxnId};
use std::alloc::Global;

/// The transactions that the cases name, ascending, each once. Takes time in proportion to the literals, and to the transactions that
/// [`push_names`] appends, times the logarithm of their number.
pub fn names_of<V>(alloc: Global, cases: &[Case<V>]) -> Result<Vec<TxnId>, NoMemory>
    ensures { IfOk result (λ txns. AreNames cases.now txns.items) }
{
    let mut txns = Vec::new(alloc);
    push_names(&mut txns, cases)?;
    Ok(ordered(txns))
}

/// Appends the transactions that the cases name; [`ordered`] then makes one list of names of it. A literal is passed over where the case
/// before has one on the same transaction at its place: so of canonical cases, the leaves of a decision tree from left to right, at most
/// one transaction is appended for each test of the tree. After an error the list is as it was. Takes time in proportion to the literals.
pub fn push_names<V>(txns: &mut Vec<TxnId>, cases: &[Case<V>]) -> Result<(), NoMemory>
    ensures names { OnOk result (Adds (names cases.now) txns.old.items txns.new.items) }
    ensures unchanged { OnErr result (txns.new.items ≡ txns.old.items) }
{
    let before = txns.len();
    let pushed = push_all(txns, cases);
    if pushed.is_err() {
        txns.truncate(before);
    }
    pushed
}

// Appends the transactions that the cases name, or some of them where the memory runs out.
fn push_all<V>(txns: &mut Vec<TxnId>, cases: &[Case<V>]) -> Result<(), NoMemory>
    ensures names { OnOk result (Adds (names cases.now) txns.old.items txns.new.items) }
    ensures kept { take (length txns.old.items) txns.new.items ≡ txns.old.items }
{
    let mut before: &[Literal] = &[];
    for case in cases {
        push_txns(txns, before, &case.when)?;
        before = &case.when;
    }
    Ok(())
}

// The same for the literals of one case, where the list has the transactions of the case before.
fn push_txns(txns: &mut Vec<TxnId>, before: &[Literal], when: &[Literal]) -> Result<(), NoMemory>
    requires { (txn : TxnId) → IsTrue (mentions before.now txn) → Contains txns.now.items txn }
    ensures names { OnOk result (Adds (mentions when.now) txns.old.items txns.new.items) }
    ensures kept { take (length txns.old.items) txns.new.items ≡ txns.old.items }
{
    for (place, literal) in when.iter().enumerate() {
        if !is_on(before, place, literal.txn) {
            txns.push(literal.txn)?;
        }
    }
    Ok(())
}

// Whether there is a literal at this place, and it is on the transaction.
fn is_on(when: &[Literal], place: usize, txn: TxnId) -> bool
    ensures { result ≡ true → IsTrue (mentions when.now txn) }
{
    match when.get(place) {
        Some(literal) => literal.txn == txn,
        None => false,
    }
}

/// These transactions, ascending, each once. Takes time in proportion to them, times the logarithm of their number.
pub fn ordered(mut txns: Vec<TxnId>) -> Vec<TxnId>
    ensures ascending { AreAscending result.items }
    ensures same { (txn : TxnId) → Contains result.items txn ↔ Contains txns.items txn }
{
    txns.sort_unstable();
    txns.dedup();
    txns
}
