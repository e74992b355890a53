// Places for the new values of a change.
ghost use Rattle.std.specs.Prelude.{◌≡◌, ℕ, true, All, IsTrue, OnOk};
ghost use Rattle.pv_base.specs.Polyvalue.{names};
ghost use Rattle.pv_base.specs.declared.txn.TxnId.{TxnId};
ghost use Rattle.pv_store.specs.Kept.{has_place};

use crate::dependents::Dependents;
use crate::named::NewValue;
use pv_base::{ItemId, NoMemory, TxnId};

/// Puts the item of each value there, at each transaction that the value names.
pub(crate) fn place_all(dependents: &mut Dependents, values: &[NewValue]) -> Result<(), NoMemory>
    ensures more { (other : TxnId) (there : ℕ) → has_place dependents.old.places other there ≡ true → has_place dependents.new.places other there ≡ true }
    ensures placed { OnOk result (All (λ value. (txn : TxnId) → IsTrue (names value.cases txn) → has_place dependents.new.places txn value.item ≡ true) values.now) }
    ensures touched { (other : TxnId) (there : ℕ) → has_place dependents.new.touched other there ≡ has_place dependents.old.touched other there }
{
    for value in values {
        place_value(dependents, value)?;
    }
    Ok(())
}

// The same of one value.
fn place_value(dependents: &mut Dependents, value: &NewValue) -> Result<(), NoMemory>
    ensures more { (other : TxnId) (there : ℕ) → has_place dependents.old.places other there ≡ true → has_place dependents.new.places other there ≡ true }
    ensures placed { OnOk result ((txn : TxnId) → IsTrue (names value.now.cases txn) → has_place dependents.new.places txn value.now.item ≡ true) }
    ensures touched { (other : TxnId) (there : ℕ) → has_place dependents.new.touched other there ≡ has_place dependents.old.touched other there }
{
    place_at(dependents, value.value.txns(), value.item)
}

// Puts the item there at each of these transactions.
fn place_at(dependents: &mut Dependents, txns: &[TxnId], item: ItemId) -> Result<(), NoMemory>
    ensures more { (other : TxnId) (there : ℕ) → has_place dependents.old.places other there ≡ true → has_place dependents.new.places other there ≡ true }
    ensures placed { OnOk result (All (λ txn. has_place dependents.new.places txn item.0 ≡ true) txns.now) }
    ensures touched { (other : TxnId) (there : ℕ) → has_place dependents.new.touched other there ≡ has_place dependents.old.touched other there }
{
    for txn in txns {
        dependents.place(*txn, item)?;
    }
    Ok(())
}
