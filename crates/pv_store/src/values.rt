// The values of a site's items, by item.
ghost use Rattle.std.specs.Prelude.{◌≡◌, ◌<◌, ◌==◌, ◌||◌, ◌&&◌, not, ℕ, ℤ, List, Some, true, false, length, set, slice_get, All, IsTrue, MatchOption};
ghost use Rattle.std.specs.List.{list_any};
ghost use Rattle.std.specs.Option.{option_map};
ghost use Rattle.pv_base.specs.Assignment.{is_same_txn};
ghost use Rattle.pv_base.specs.Polyvalue as model;
ghost use Rattle.pv_base.specs.Polyvalue.{names};
ghost use Rattle.pv_base.specs.declared.txn.TxnId.{TxnId};
ghost use Rattle.pv_store.specs.Held.{AreTouched, replaced_at};
ghost use Rattle.pv_store.specs.Kept.{has_place};
ghost use Rattle.pv_store.specs.Writes.{is_held};

use crate::dependents::Dependents;
use crate::named::{Named, NewValue};
use pv_base::{ItemId, TxnId};

/// The value of an item that has one.
pub(crate) fn value_of(values: &[Option<Named>], item: ItemId) -> &Named
    requires { (cases : List (model.Case ℤ)) × (slice_get values.now item.0 ≡ Some (Some cases)) }
    ensures { slice_get values.now item.0 ≡ Some (Some result.now) }
{
    values[item.0 as usize].as_ref().unwrap()
}

/// Puts new values in place of those that items have. Each has its places at the transactions that it names.
pub(crate) fn put_values(
    values: &mut [Option<Named>],
    dependents: &mut Dependents,
    new: Vec<NewValue>,
)
    requires within { All (λ read. read.item < length values.old) new.items }
    requires placed { All (λ read. (txn : TxnId) → IsTrue (names read.cases txn) → has_place dependents.old.places txn read.item ≡ true) new.items }
    ensures values { (item : ℕ) → slice_get values.new item ≡ option_map (λ old. replaced_at item new.items old) (slice_get values.old item) }
    ensures more { (other : TxnId) (there : ℕ) → has_place dependents.old.places other there ≡ true → has_place dependents.new.places other there ≡ true }
    ensures touched { AreTouched values.old dependents.old.touched → AreTouched values.new dependents.new.touched }
{
    for value in new {
        put_value(values, dependents, value);
    }
}

// Puts one of them in place.
fn put_value(values: &mut [Option<Named>], dependents: &mut Dependents, new: NewValue)
    requires within { new.item < length values.old }
    requires placed { (txn : TxnId) → IsTrue (names new.cases txn) → has_place dependents.old.places txn new.item ≡ true }
    ensures values { values.new ≡ set values.old new.item (Some new.cases) }
    ensures more { (other : TxnId) (there : ℕ) → has_place dependents.old.places other there ≡ true → has_place dependents.new.places other there ≡ true }
    ensures touched { AreTouched values.old dependents.old.touched → AreTouched values.new dependents.new.touched }
{
    let NewValue { item, value } = new;
    leave_old(values, dependents, item);
    touch_all(dependents, value.txns(), item);
    values[item.0 as usize] = Some(value);
}

// The item's value, if it has one, names no transaction any more.
fn leave_old(values: &[Option<Named>], dependents: &mut Dependents, item: ItemId)
    ensures more { (other : TxnId) (there : ℕ) → has_place dependents.old.places other there ≡ true → has_place dependents.new.places other there ≡ true }
    ensures touched { AreTouched values.now dependents.old.touched → (other : TxnId) (there : ℕ) →
        has_place dependents.new.touched other there ≡ (not (there == item.0) && has_place dependents.old.touched other there) }
{
    let Some(old) = held(values, item) else {
        return;
    };
    leave_all(dependents, old.txns(), item);
}

// The item's value names these transactions no more.
fn leave_all(dependents: &mut Dependents, txns: &[TxnId], item: ItemId)
    ensures more { (other : TxnId) (there : ℕ) → has_place dependents.old.places other there ≡ true → has_place dependents.new.places other there ≡ true }
    ensures touched { (other : TxnId) (there : ℕ) → has_place dependents.new.touched other there ≡
        (not (there == item.0 && list_any (is_same_txn other) txns.now) && has_place dependents.old.touched other there) }
{
    for txn in txns {
        dependents.leave(*txn, item);
    }
}

// The item's value names these transactions from now on.
fn touch_all(dependents: &mut Dependents, txns: &[TxnId], item: ItemId)
    requires { All (λ txn. has_place dependents.old.places txn item.0 ≡ true) txns.now }
    ensures more { (other : TxnId) (there : ℕ) → has_place dependents.old.places other there ≡ true → has_place dependents.new.places other there ≡ true }
    ensures touched { (other : TxnId) (there : ℕ) → has_place dependents.new.touched other there ≡
        ((there == item.0 && list_any (is_same_txn other) txns.now) || has_place dependents.old.touched other there) }
{
    for txn in txns {
        dependents.touch(*txn, item);
    }
}

/// The value of the item, if it has one.
pub(crate) fn held(values: &[Option<Named>], item: ItemId) -> Option<&Named>
    ensures { MatchOption result (is_held (slice_get values.now item.0) ≡ false) (λ value. slice_get values.now item.0 ≡ Some (Some value.now)) }
{
    match values.get(item.0 as usize) {
        Some(Some(value)) => Some(value),
        _ => None,
    }
}
