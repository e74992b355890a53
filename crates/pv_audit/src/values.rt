// The values of all items in the serial run of an order, as polyvalues over the open outcomes.
ghost use Rattle.std.specs.Prelude.{◌≡◌, ◌<◌, ◌∷◌, ◌++◌, [], ℕ, List, Some, All, map, length, get_or, slice_get, slice_set, IfOk, IfErr, IfSome, OnOk};
ghost use Rattle.std.specs.List.{Any};
ghost use Rattle.pv_audit.specs.Kept.{KeepsPlans, IsPlanned};
ghost use Rattle.pv_audit.specs.Limits.{PassesLimit};
ghost use Rattle.pv_audit.specs.Reports.{Report, order_of};
ghost use Rattle.pv_audit.specs.RunView.{limit_of};
ghost use Rattle.pv_audit.specs.ToldView.{CanRun};
ghost use Rattle.pv_audit.specs.Values.{AreAllValuesAfter, AreReads, AreWritten, ReadsTooMuch, put_all, AreChoices, IsChoiceOf, IsRunTo};
ghost use Rattle.pv_base.specs.Catalog.{Declared, Item};
ghost use Rattle.pv_base.specs.declared.limits.TheConstants.{HELD_NAMES};
ghost use Rattle.pv_base.specs.declared.txn.TxnId as code;
ghost use Rattle.pv_cases.specs.NameLimits.{ChoiceNamesTooMany};
ghost use Rattle.pv_model.specs.Check.{AreItems, IsPlan};
ghost use Rattle.pv_model.specs.Syntax.{Program};

use crate::begun::{Begun, Request};
use crate::outcomes::Outcomes;
use pv_base::{Catalog, ItemId, NameError, NoMemory, TxnId, Want};
use pv_check::Part;
use pv_split::{SplitError, split};
use pv_tree::{Poly, Read};
use std::alloc::{AllocFailed, Global};

/// Why a serial run isn't computed to its end.
#[derive(Clone, Copy, Debug, PartialEq, Eq)]
pub enum RunError {
    /// What a transaction reads, or a value that it leaves, names this many outcomes, more than may be.
    Limit(u32),
    /// There was no memory.
    NoMemory,
}

impl From<NoMemory> for RunError {
    ghost use Rattle.std.specs.Prelude.{◌≡◌};
    ghost use Rattle.pv_audit.specs.declared.values.RunError.TheVariants as error;

    ghost from_gives = { λ _ e. e ≡ error.NoMemory };

    fn from(_: NoMemory) -> Self {
        RunError::NoMemory
    }
}

impl<T: Drop> From<AllocFailed<T>> for RunError {
    ghost use Rattle.std.specs.Prelude.{◌≡◌};
    ghost use Rattle.pv_audit.specs.declared.values.RunError.TheVariants as error;

    ghost from_gives = { λ _ e. e ≡ error.NoMemory };

    fn from(_: AllocFailed<T>) -> Self {
        RunError::NoMemory
    }
}

/// The values of all items, in order of declaration, after the serial run of a report's order, whose transactions are these.
pub fn values_told(
    alloc: Global,
    catalog: &Catalog,
    begun: &Begun,
    txns: &[TxnId],
    outcomes: &Outcomes,
) -> Result<Vec<Poly<i64>>, RunError>
    requires { KeepsPlans (length catalog.now.items) begun.now }

    ensures values { (told : Report) → CanRun begun.now outcomes.now told → told.ordered ≡ txns.now →
        IfOk result (λ values. AreAllValuesAfter catalog.now told (order_of told) values.items) }
    ensures within { (told : Report) → CanRun begun.now outcomes.now told → told.ordered ≡ txns.now →
        OnOk result ((count : ℕ) → PassesLimit catalog.now told count → ⊥) }
    ensures limit { (told : Report) → CanRun begun.now outcomes.now told → told.ordered ≡ txns.now →
        IfErr result (λ error. IfSome (limit_of error) (PassesLimit catalog.now told)) }
{
    let mut values = declared_values(alloc, catalog)?;
    for txn in txns {
        run_one(alloc, &mut values, begun, *txn, outcomes)?;
    }
    Ok(values)
}

// The declared values of all items.
fn declared_values(alloc: Global, catalog: &Catalog) -> Result<Vec<Poly<i64>>, NoMemory>
    ensures { (told : Report) → IfOk result (λ values. AreAllValuesAfter catalog.now told [] values.items) }
{
    let mut values = Vec::new(alloc);
    for n in 0..catalog.len() {
        values.push(Poly::sure(alloc, catalog.declared(ItemId(n)))?)?;
    }
    Ok(values)
}

// One transaction of the order. It runs where it is committed or open.
fn run_one(
    alloc: Global,
    values: &mut Vec<Poly<i64>>,
    begun: &Begun,
    txn: TxnId,
    outcomes: &Outcomes,
) -> Result<(), RunError>
    requires { KeepsPlans (length values.old.items) begun.now }

    ensures count { OnOk result (length values.new.items ≡ length values.old.items) }
    ensures run { (catalog : Declared) (told : Report) (front behind : List code.TxnId) → CanRun begun.now outcomes.now told → told.ordered ≡ front ++ txn ∷ behind →
        IsRunTo catalog told front values.old.items → OnOk result (IsRunTo catalog told (front ++ txn ∷ []) values.new.items) }
    ensures limit { (catalog : Declared) (told : Report) (front behind : List code.TxnId) → CanRun begun.now outcomes.now told → told.ordered ≡ front ++ txn ∷ behind →
        IsRunTo catalog told front values.old.items → IfErr result (λ error. IfSome (limit_of error) (PassesLimit catalog told)) }
{
    let Some(request) = begun.request_of(txn) else {
        return Ok(());
    };
    if outcomes.committed.has(txn) {
        let writes = written(alloc, values, request)?;
        put_all(values, writes);
        return Ok(());
    }
    if !outcomes.open_ones.has(txn) {
        return Ok(());
    }
    let writes = written(alloc, values, request)?;
    let choices = choices_of(alloc, values, txn, &writes)?;
    put_all(values, choices);
    Ok(())
}

// What the request's program writes over these values.
fn written(alloc: Global, values: &[Poly<i64>], request: Request) -> Result<Vec<Read>, RunError>
    requires { IsPlanned (length values.now) request }
    ensures written { IfOk result (λ writes. AreWritten request.entry.program.now values.now writes.items) }
    ensures limit { IfErr result (λ error. IfSome (limit_of error) (ReadsTooMuch request.entry.program.now values.now)) }
{
    let reads = reads_of(alloc, values, request)?;
    match split(alloc, request.program, &reads) {
        Ok(joined) => Ok(joined.writes),
        Err(SplitError::OutcomeLimit(names)) => Err(RunError::Limit(names)),
        Err(SplitError::NoMemory) => Err(RunError::NoMemory),
    }
}

// The values of the request's items, ascending by item.
fn reads_of(alloc: Global, values: &[Poly<i64>], request: Request) -> Result<Vec<Read>, NoMemory>
    requires { IsPlanned (length values.now) request }
    ensures { IfOk result (λ reads. AreReads request.entry.program.now values.now reads.items) }
{
    let items = items_of(alloc, &request.plan.parts)?;
    reads_at(alloc, values, &items)
}

// The items of a plan with these parts, ascending.
fn items_of(alloc: Global, parts: &[Part]) -> Result<Vec<u32>, NoMemory>
    ensures { (program : Program) (items : List Item) → IsPlan program items parts.now → IfOk result (λ found. AreItems program found.items) }
{
    let mut items = Vec::new(alloc);
    for part in parts {
        push_items(&mut items, &part.wants)?;
    }
    items.sort_unstable();
    items.dedup();
    Ok(items)
}

// Appends the items of these wants.
fn push_items(items: &mut Vec<u32>, wants: &[Want]) -> Result<(), NoMemory>
    ensures { OnOk result (items.new.items ≡ items.old.items ++ map (λ want. want.item) wants.now) }
{
    for want in wants {
        items.push(want.item.0)?;
    }
    Ok(())
}

// The values of these items.
fn reads_at(alloc: Global, values: &[Poly<i64>], items: &[u32]) -> Result<Vec<Read>, NoMemory>
    requires { All (λ item. item < length values.now) items.now }
    ensures items { IfOk result (λ reads. map (λ read. read.item) reads.items ≡ items.now) }
    ensures each { IfOk result (λ reads. All (λ read. slice_get values.now read.item ≡ Some read.cases) reads.items) }
{
    let mut reads = Vec::new(alloc);
    for item in items {
        reads.push(read_at(alloc, values, *item)?)?;
    }
    Ok(reads)
}

// The value of this item.
fn read_at(alloc: Global, values: &[Poly<i64>], item: u32) -> Result<Read, NoMemory>
    requires { item < length values.now }
    ensures item { IfOk result (λ read. read.item ≡ item) }
    ensures value { IfOk result (λ read. slice_get values.now item ≡ Some read.cases) }
{
    let value = values[item as usize].copy(alloc)?;
    Ok(Read {
        item: ItemId(item),
        value,
    })
}

// An open transaction leaves, where it commits, what it writes, and else what there is.
fn choices_of(
    alloc: Global,
    values: &[Poly<i64>],
    txn: TxnId,
    writes: &[Read],
) -> Result<Vec<Read>, RunError>
    requires { All (λ write. write.item < length values.now) writes.now }
    ensures choices { IfOk result (λ choices. AreChoices txn values.now writes.now choices.items) }
    ensures limit { IfErr result (λ error. IfSome (limit_of error) (λ count. Any (λ write. ChoiceNamesTooMany HELD_NAMES txn (get_or values.now write.item []) write.cases count) writes.now)) }
{
    let mut choices = Vec::new(alloc);
    for write in writes {
        choices.push(choice_of(alloc, values, txn, write)?)?;
    }
    Ok(choices)
}

// The written value where the transaction commits, and else the one that there is.
fn choice_of(
    alloc: Global,
    values: &[Poly<i64>],
    txn: TxnId,
    write: &Read,
) -> Result<Read, RunError>
    requires { write.now.item < length values.now }
    ensures choice { IfOk result (IsChoiceOf txn values.now write.now) }
    ensures limit { IfErr result (λ error. IfSome (limit_of error) (ChoiceNamesTooMany HELD_NAMES txn (get_or values.now write.now.item []) write.now.cases)) }
{
    match Poly::choose(alloc, txn, &write.value, &values[write.item.0 as usize]) {
        Ok(value) => Ok(Read {
            item: write.item,
            value,
        }),
        Err(NameError::TooManyOutcomes(names)) => Err(RunError::Limit(names)),
        Err(NameError::NoMemory) => Err(RunError::NoMemory),
    }
}

// Puts what is written into its places.
fn put_all(values: &mut Vec<Poly<i64>>, writes: Vec<Read>)
    ensures { values.new.items ≡ put_all values.old.items writes.items }
{
    for write in writes {
        put(values, write);
    }
}

// Puts a value in the place of the one before.
fn put(values: &mut Vec<Poly<i64>>, write: Read)
    ensures { values.new.items ≡ slice_set values.old.items write.item write.cases }
{
    if let Some(place) = values.get_mut(write.item.0 as usize) {
        *place = write.value;
    }
}
