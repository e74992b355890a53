// What a record of writes makes of the values of a site.
ghost use Rattle.std.specs.Prelude.{◌≡◌, ◌≤◌, ◌++◌, ◌∷◌, [], ℕ, List, length, take, drop, map, slice_get, All, IfOk, IfNone, IfSome, IsTrue, OnOk};
ghost use Rattle.pv_base.specs.Catalog.{Declared};
ghost use Rattle.pv_base.specs.Polyvalue as cases;
ghost use Rattle.pv_format.specs.Record.{Record, prepared};
ghost use Rattle.pv_model.specs.Alternatives as model;
ghost use Rattle.pv_store.specs.Refusals.{IsRefusedFor, first_too_many, site_items};
ghost use Rattle.pv_store.specs.Writes.{AreAfter, AreFirst, IsPromising, after_write, held_writes, is_held, items_of, with_held, with_write};

use crate::StoreError;
use crate::named::{Named, NewValue};
use crate::outcomes::Outcomes;
use crate::promise::promised;
use crate::values::value_of;
use pv_base::{ItemId, NoMemory, TxnId};
use pv_tree::Read;
use std::alloc::Global;

/// The new values of the site's items that the transaction's record of these writes changes. Takes time in proportion to the cases of the
/// writes and of the values that they change, times the names.
pub(crate) fn values_after(
    alloc: Global,
    outcomes: &Outcomes,
    values: &[Option<Named>],
    txn: TxnId,
    writes: &[Read],
) -> Result<Vec<NewValue>, StoreError>
    ensures values { (catalog : Declared) (site : ℕ) (records front : List Record) → IsPromising catalog site records front outcomes.now.outcomes values.now →
        IfOk result (λ new. AreAfter catalog site records front txn writes.now new.items) }
    ensures answer { (catalog : Declared) (site : ℕ) (records front : List Record) → IsPromising catalog site records front outcomes.now.outcomes values.now →
        IsRefusedFor (first_too_many catalog records (front ++ prepared txn writes.now ∷ []) (site_items catalog site)) result }
{
    let found = held_writes(alloc, values, writes)?;
    promised_values(alloc, outcomes, values, txn, &found)
}

// Of these writes the first of each item that has a value here, ascending by item. Takes time in proportion to the writes times those that are kept: each is
// looked for from the front.
fn held_writes<'a>(
    alloc: Global,
    values: &[Option<Named>],
    writes: &'a [Read],
) -> Result<Vec<&'a Read>, NoMemory>
    ensures { IfOk result (λ found. map (λ write. write.now) found.items ≡ held_writes values.now [] writes.now) }
{
    let mut found = Vec::with_capacity(alloc, writes.len())?;
    for write in writes {
        push_held(&mut found, values, write)?;
    }
    Ok(found)
}

// Puts the write in its place, if its item has a value here and isn't there yet.
fn push_held<'a>(
    found: &mut Vec<&'a Read>,
    values: &[Option<Named>],
    write: &'a Read,
) -> Result<(), NoMemory>
    ensures { OnOk result (map (λ write. write.now) found.new.items ≡ with_held values.now write.now (map (λ write. write.now) found.old.items)) }
{
    match values.get(write.item.0 as usize) {
        Some(Some(_)) => push_write(found, write),
        _ => Ok(()),
    }
}

// Puts the write in its place, if its item isn't there yet.
fn push_write<'a>(found: &mut Vec<&'a Read>, write: &'a Read) -> Result<(), NoMemory>
    ensures { OnOk result (map (λ write. write.now) found.new.items ≡ with_write write.now (map (λ write. write.now) found.old.items)) }
{
    let Some(place) = place_for(found, write.item) else {
        return Ok(());
    };
    found.insert(place, write)?;
    Ok(())
}

// The place of a write of this item, or `None` where there is one.
fn place_for(found: &[&Read], item: ItemId) -> Option<usize>
    ensures within { IfSome result (λ place. place ≤ length found.now) }
    ensures there { (write : model.Read) → write.item ≡ item.0 → IfNone result
        (with_write write (map (λ write. write.now) found.now) ≡ map (λ write. write.now) found.now) }
    ensures place { (write : model.Read) → write.item ≡ item.0 → IfSome result (λ place. with_write write (map (λ write. write.now) found.now) ≡
        take place (map (λ write. write.now) found.now) ++ write ∷ drop place (map (λ write. write.now) found.now)) }
{
    let mut place = 0;
    for other in found {
        if other.item.0 == item.0 {
            return None;
        }
        if other.item.0 > item.0 {
            return Some(place);
        }
        place += 1;
    }
    Some(place)
}

// The new values of the items that these writes are of, each the first write of its item, ascending.
fn promised_values(
    alloc: Global,
    outcomes: &Outcomes,
    values: &[Option<Named>],
    txn: TxnId,
    writes: &[&Read],
) -> Result<Vec<NewValue>, StoreError>
    requires { All (λ write. IsTrue (is_held (slice_get values.now write.item))) (map (λ write. write.now) writes.now) }
    ensures values { (catalog : Declared) (site : ℕ) (records front : List Record) (all : List model.Read) →
        IsPromising catalog site records front outcomes.now.outcomes values.now →
        AreFirst catalog site all (map (λ write. write.now) writes.now) →
        IfOk result (λ new. new.items ≡ map (after_write catalog records front txn all) (map (λ write. write.now) writes.now)) }
    ensures answer { (catalog : Declared) (site : ℕ) (records front : List Record) (all : List model.Read) →
        IsPromising catalog site records front outcomes.now.outcomes values.now →
        AreFirst catalog site all (map (λ write. write.now) writes.now) →
        IsRefusedFor (first_too_many catalog records (front ++ prepared txn all ∷ []) (items_of (map (λ write. write.now) writes.now))) result }
{
    let mut new = Vec::with_capacity(alloc, writes.len())?;
    for write in writes {
        let old = value_of(values, write.item);
        let value = promised(alloc, outcomes, txn, &write.value, old.value())?;
        let named = Named::of(alloc, value)?;
        new.push(NewValue {
            item: write.item,
            value: named,
        })?;
    }
    Ok(new)
}

/// The same writes, in memory of their own.
pub(crate) fn copy_reads(alloc: Global, reads: &[Read]) -> Result<Vec<Read>, NoMemory>
    ensures { IfOk result (λ copy. copy.items ≡ reads.now) }
{
    let mut copy = Vec::with_capacity(alloc, reads.len())?;
    for read in reads {
        copy.push(Read {
            item: read.item,
            value: read.value.copy(alloc)?,
        })?;
    }
    Ok(copy)
}
