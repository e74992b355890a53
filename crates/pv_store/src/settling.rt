// What values are once one more outcome is known.
ghost use Rattle.std.specs.Prelude.{◌≡◌, ◌++◌, ℕ, List, map, IfOk, OnOk};
ghost use Rattle.std.specs.List.{flat_map};
ghost use Rattle.pv_base.specs.Catalog.{Declared};
ghost use Rattle.pv_format.specs.Record.{Record};
ghost use Rattle.pv_store.specs.Held.{AreShown};
ghost use Rattle.pv_store.specs.Settling.{settled_at};

use crate::named::{Named, NewValue};
use crate::values::held;
use pv_base::{ItemId, NoMemory, TxnId};
use std::alloc::Global;

/// The values of these items once the transaction's outcome is known. Takes time in proportion to their cases, times the names.
pub(crate) fn settled_values(
    alloc: Global,
    values: &[Option<Named>],
    items: &[ItemId],
    txn: TxnId,
    commits: bool,
) -> Result<Vec<NewValue>, NoMemory>
    ensures { (catalog : Declared) (site : ℕ) (records : List Record) → AreShown catalog site records records values.now →
        IfOk result (λ settled. settled.items ≡ flat_map (settled_at catalog site records txn commits) (map (λ item. item.0) items.now)) }
{
    let mut settled = Vec::with_capacity(alloc, items.len())?;
    for item in items {
        push_settled(alloc, &mut settled, values, *item, txn, commits)?;
    }
    Ok(settled)
}

// Appends the item's value once the outcome is known, if the item has a value.
fn push_settled(
    alloc: Global,
    settled: &mut Vec<NewValue>,
    values: &[Option<Named>],
    item: ItemId,
    txn: TxnId,
    commits: bool,
) -> Result<(), NoMemory>
    ensures { (catalog : Declared) (site : ℕ) (records : List Record) → AreShown catalog site records records values.now →
        OnOk result (settled.new.items ≡ settled.old.items ++ settled_at catalog site records txn commits item.0) }
{
    if let Some(old) = held(values, item) {
        let value = old.value().settle(alloc, txn, commits)?;
        let named = Named::of(alloc, value)?;
        settled.push(NewValue { item, value: named })?;
    }
    Ok(())
}
