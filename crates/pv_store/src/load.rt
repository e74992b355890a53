// What is held of records that are there from the start.
ghost use Rattle.std.specs.Prelude.{◌≡◌, ◌++◌, ◌∷◌, [], ℕ, List, IfOk, OnOk};
ghost use Rattle.pv_base.specs.Catalog.{Declared};
ghost use Rattle.pv_format.specs.Record as model;
ghost use Rattle.pv_format.specs.Record.{prepared};
ghost use Rattle.pv_replay.specs.Values.{record_of, records_of};
ghost use Rattle.pv_store.specs.Held.{AreKnown, ArePlaced, ArePrepared, AreShown, AreTouched};
ghost use Rattle.pv_store.specs.Refusals.{IsRefusedFor, first_too_many, site_items, too_many_at, too_many_in};
ghost use Rattle.pv_store.specs.Writes.{IsPromising};

use crate::StoreError;
use crate::dependents::Dependents;
use crate::named::Named;
use crate::note::note;
use crate::outcomes::Outcomes;
use crate::places::place_all;
use crate::promises::Promises;
use crate::values::put_values;
use crate::writes::values_after;
use pv_base::{History, NoMemory, TxnId};
use pv_replay::Record;
use pv_tree::Read;
use std::alloc::Global;

/// What records say of their own transactions.
#[derive(Drop)]
pub(crate) struct Noted {
    /// The transactions that are prepared.
    pub(crate) promises: Promises,
    /// The outcomes that are known.
    pub(crate) outcomes: Outcomes,
    /// The records, for the proof.
    pub(crate) records: History<Record>,
}

/// Takes note of what the records say of their own transactions. Takes time in proportion to the records.
pub(crate) fn note_all(alloc: Global, records: &[Record]) -> Result<Noted, NoMemory>
    ensures prepared { IfOk result (λ noted. ArePrepared noted.promises.txns (records_of records.now)) }
    ensures known { IfOk result (λ noted. AreKnown noted.outcomes.outcomes (records_of records.now)) }
    ensures records { IfOk result (λ noted. noted.records.items ≡ records.now) }
{
    let mut promises = Promises::new(alloc);
    let mut outcomes = Outcomes::new(alloc);
    let mut unnamed = Dependents::new(alloc);
    let mut history = History::new();
    promises.reserve(records.len())?;
    outcomes.reserve(records.len())?;
    for record in records {
        note(&mut promises, &mut outcomes, &mut unnamed, record);
        history = history.and(record);
    }
    Ok(Noted {
        promises,
        outcomes,
        records: history,
    })
}

/// The values of a site's items after its records, and the places of those that name transactions.
#[derive(Drop)]
pub(crate) struct Loaded {
    /// The values, by item.
    pub(crate) values: Vec<Option<Named>>,
    /// The places.
    pub(crate) dependents: Dependents,
}

/// The values after these records, where those without records are given and the outcomes are known that any record has.
pub(crate) fn values_of(
    alloc: Global,
    outcomes: &Outcomes,
    declared: &[Option<Named>],
    records: &[Record],
) -> Result<Loaded, StoreError>
    requires { (catalog : Declared) × (site : ℕ) × AreKnown outcomes.now.outcomes (records_of records.now) × AreShown catalog site [] [] declared.now }
    ensures values { (catalog : Declared) (site : ℕ) → AreKnown outcomes.now.outcomes (records_of records.now) → AreShown catalog site [] [] declared.now →
        IfOk result (λ loaded. AreShown catalog site (records_of records.now) (records_of records.now) loaded.values.items) }
    ensures places { (catalog : Declared) (site : ℕ) → AreKnown outcomes.now.outcomes (records_of records.now) → AreShown catalog site [] [] declared.now →
        IfOk result (λ loaded. ArePlaced catalog site (records_of records.now) (records_of records.now) loaded.dependents.places) }
    ensures touched { (catalog : Declared) (site : ℕ) → AreShown catalog site [] [] declared.now →
        IfOk result (λ loaded. AreTouched loaded.values.items loaded.dependents.touched) }
    ensures answer { (catalog : Declared) (site : ℕ) → AreKnown outcomes.now.outcomes (records_of records.now) → AreShown catalog site [] [] declared.now →
        IsRefusedFor (too_many_in catalog site (records_of records.now)) result }
{
    let mut values = copy_values(alloc, declared)?;
    let mut dependents = Dependents::new(alloc);
    for record in records {
        put_record(alloc, outcomes, &mut values, &mut dependents, record)?;
    }
    Ok(Loaded { values, dependents })
}

// Makes the values those after one more record.
fn put_record(
    alloc: Global,
    outcomes: &Outcomes,
    values: &mut [Option<Named>],
    dependents: &mut Dependents,
    new: &Record,
) -> Result<(), StoreError>
    requires { (catalog : Declared) × (site : ℕ) × (records : List model.Record) × (front : List model.Record) × IsPromising catalog site records front outcomes.now.outcomes values.old }
    ensures values { (catalog : Declared) (site : ℕ) (records front : List model.Record) → IsPromising catalog site records front outcomes.now.outcomes values.old →
        OnOk result (AreShown catalog site records (front ++ record_of new.now ∷ []) values.new) }
    ensures places { (catalog : Declared) (site : ℕ) (records front : List model.Record) → IsPromising catalog site records front outcomes.now.outcomes values.old →
        ArePlaced catalog site records front dependents.old.places → OnOk result (ArePlaced catalog site records (front ++ record_of new.now ∷ []) dependents.new.places) }
    ensures touched { AreTouched values.old dependents.old.touched → OnOk result (AreTouched values.new dependents.new.touched) }
    ensures answer { (catalog : Declared) (site : ℕ) (records front : List model.Record) → IsPromising catalog site records front outcomes.now.outcomes values.old →
        IsRefusedFor (too_many_at catalog site records front (record_of new.now)) result }
{
    match new {
        Record::Epoch(_) => Ok(()),
        Record::Outcome { .. } => Ok(()),
        Record::Prepared { txn, writes } => {
            put_writes(alloc, outcomes, values, dependents, *txn, writes)
        }
    }
}

// Makes the values those after the transaction's record of these writes.
fn put_writes(
    alloc: Global,
    outcomes: &Outcomes,
    values: &mut [Option<Named>],
    dependents: &mut Dependents,
    txn: TxnId,
    writes: &[Read],
) -> Result<(), StoreError>
    requires { (catalog : Declared) × (site : ℕ) × (records : List model.Record) × (front : List model.Record) × IsPromising catalog site records front outcomes.now.outcomes values.old }
    ensures values { (catalog : Declared) (site : ℕ) (records front : List model.Record) → IsPromising catalog site records front outcomes.now.outcomes values.old →
        OnOk result (AreShown catalog site records (front ++ prepared txn writes.now ∷ []) values.new) }
    ensures places { (catalog : Declared) (site : ℕ) (records front : List model.Record) → IsPromising catalog site records front outcomes.now.outcomes values.old →
        ArePlaced catalog site records front dependents.old.places → OnOk result (ArePlaced catalog site records (front ++ prepared txn writes.now ∷ []) dependents.new.places) }
    ensures touched { AreTouched values.old dependents.old.touched → OnOk result (AreTouched values.new dependents.new.touched) }
    ensures answer { (catalog : Declared) (site : ℕ) (records front : List model.Record) → IsPromising catalog site records front outcomes.now.outcomes values.old →
        IsRefusedFor (first_too_many catalog records (front ++ prepared txn writes.now ∷ []) (site_items catalog site)) result }
{
    let after = values_after(alloc, outcomes, values, txn, writes)?;
    place_all(dependents, &after)?;
    put_values(values, dependents, after);
    Ok(())
}

// The same values, in memory of their own.
fn copy_values(alloc: Global, values: &[Option<Named>]) -> Result<Vec<Option<Named>>, NoMemory>
    ensures { IfOk result (λ copy. copy.items ≡ values.now) }
{
    let mut copy = Vec::with_capacity(alloc, values.len())?;
    for value in values {
        copy.push(copy_value(alloc, value)?)?;
    }
    Ok(copy)
}

// The same value, if there is one.
fn copy_value(alloc: Global, value: &Option<Named>) -> Result<Option<Named>, NoMemory>
    ensures { IfOk result (λ copy. copy ≡ value.now) }
{
    match value {
        Some(value) => Ok(Some(value.copy(alloc)?)),
        None => Ok(None),
    }
}
