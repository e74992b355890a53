// What an item's value becomes with one more promise.
ghost use Rattle.std.specs.Prelude.{◌≡◌, ℕ, List, IfOk};
ghost use Rattle.pv_base.specs.Catalog.{Declared};
ghost use Rattle.pv_base.specs.declared.limits.TheConstants.{HELD_NAMES};
ghost use Rattle.pv_base.specs.declared.txn.TxnId.{TxnId};
ghost use Rattle.pv_base.specs.Polyvalue.{IsPolyvalue, value_at};
ghost use Rattle.pv_format.specs.Record.{Record};
ghost use Rattle.pv_model.specs.Alternatives.{Read};
ghost use Rattle.pv_protocol.specs.Records.{choice};
ghost use Rattle.pv_store.specs.Held.{AreKnown};
ghost use Rattle.pv_store.specs.Promise.{IsWritten, after_promise, known_among};
ghost use Rattle.pv_store.specs.Refusals.{IsRefusedFor, if_too_many, names_count};

use crate::StoreError;
use crate::outcomes::Outcomes;
use pv_base::{Exact, Literal, NameError, NoMemory, TxnId};
use pv_cases::is_sure;
use pv_tree::Poly;
use std::alloc::Global;

/// What the item's value is with this promise: the new one where the transaction commits, and else the old one, as far as the outcomes aren't
/// known. Takes time in proportion to the cases of both, times the names.
pub(crate) fn promised(
    alloc: Global,
    outcomes: &Outcomes,
    txn: TxnId,
    new: &Poly<i64>,
    old: &Poly<i64>,
) -> Result<Poly<i64>, StoreError>
    ensures value { (catalog : Declared) (records front : List Record) (item : ℕ) (writes : List Read) →
        IsWritten outcomes.now.outcomes txn new.now old.now catalog records front item writes →
        IfOk result (λ value. value ≡ after_promise catalog records front txn writes item) }
    ensures answer { (catalog : Declared) (records front : List Record) (item : ℕ) (writes : List Read) →
        IsWritten outcomes.now.outcomes txn new.now old.now catalog records front item writes →
        IsRefusedFor (if_too_many (names_count (after_promise catalog records front txn writes item))) result }
{
    match outcomes.get(txn) {
        Some(false) => Ok(old.copy(alloc)?),
        Some(true) => Ok(settled(alloc, outcomes, new)?),
        None => {
            let new = settled(alloc, outcomes, new)?;
            match Poly::choose(alloc, txn, &new, old) {
                Ok(value) => Ok(value),
                Err(NameError::TooManyOutcomes(count)) => Err(StoreError::TooManyOutcomes(count)),
                Err(NameError::NoMemory) => Err(StoreError::NoMemory),
            }
        }
    }
}

/// The value once the known outcomes are put in. Where none is that it names, it is copied as it is.
pub(crate) fn settled<V: Exact>(
    alloc: Global,
    outcomes: &Outcomes,
    value: &Poly<V>,
) -> Result<Poly<V>, NoMemory>
    ensures value { (records : List Record) → AreKnown outcomes.now.outcomes records →
        IfOk result (λ settled. (assignment : List TxnId) → value_at settled assignment ≡ value_at value.now (choice records assignment)) }
    ensures polyvalue { IfOk result (IsPolyvalue HELD_NAMES) }
{
    if is_sure(value.cases()) {
        return value.copy(alloc);
    }
    let txns = value.names(alloc)?;
    let known = known_outcomes(alloc, outcomes, &txns)?;
    if known.is_empty() {
        return value.copy(alloc);
    }
    value.settle_all(alloc, &known)
}

// The outcomes of these transactions that are known.
fn known_outcomes(
    alloc: Global,
    outcomes: &Outcomes,
    txns: &[TxnId],
) -> Result<Vec<Literal>, NoMemory>
    ensures { IfOk result (λ known. known.items ≡ known_among outcomes.now.outcomes txns.now) }
{
    let mut known = Vec::new(alloc);
    for txn in txns {
        if let Some(commits) = outcomes.get(*txn) {
            known.push(Literal { txn: *txn, commits })?;
        }
    }
    Ok(known)
}
