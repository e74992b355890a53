// The records of a site's journal as bytes: the kind in one byte, and then what the kind has. Old spellings are read, and never written.
ghost use Rattle.std.specs.Prelude.{◌≡◌, ◌==◌, ◌&&◌, ◌++◌, ℕ, List, if◌then◌else◌, IsTrue, IfOk, IfErr, OnOk};
ghost use Rattle.pv_format.specs.Form.{SpellsIn};
ghost use Rattle.pv_format.specs.Layout.{content_layout, counted_layout, is_record_kind, polyvalue_then, record_layout, txn_layout};
ghost use Rattle.pv_format.specs.RecordSpelling.{IsReadAs, SpellsContentBy, SpellsRecord, are_sure};
ghost use Rattle.pv_fields.specs.Decoding.{Passes, Stops};
ghost use Rattle.pv_replay.specs.Content.{HasKind, IsPromise, IsStopped, SpellsContentOf, promises_sure};
ghost use Rattle.pv_replay.specs.Faults.{fault_of};
ghost use Rattle.pv_replay.specs.Values.{form_of, record_of};

use crate::PolyError;
use crate::fields::{put_truth, put_txn, take_truth, take_txn};
use crate::form::Form;
use crate::length::record_length;
use crate::reads::{are_sure, put_reads, take_reads};
use pv_base::{NoMemory, TxnId};
use pv_bytes::{Put, Take};
use pv_tree::Read;
use std::alloc::Global;

/// What a site keeps for good.
#[derive(Debug, Drop)]
pub enum Record {
    /// The site has started, in this epoch, which is at least 1.
    Epoch(u32),
    /// The site has promised to write these values, if the transaction commits (Gray, 1978).
    Prepared {
        /// The transaction.
        txn: TxnId,
        /// The new values, of ascending items.
        writes: Vec<Read>,
    },
    /// The site knows the outcome of the transaction.
    Outcome {
        /// The transaction.
        txn: TxnId,
        /// Whether it commits.
        commits: bool,
    },
}

/// The bytes of a record, which has to have a spelling: its sites, items, numbers and counts are in range, and its items ascend. Takes time in
/// proportion to the bytes.
pub fn encode_record(alloc: Global, value: &Record) -> Result<Vec<u8>, NoMemory>
    requires { (bytes : List ℕ) × SpellsRecord (record_of value.now) bytes }
    ensures { IfOk result (λ bytes. SpellsRecord (record_of value.now) bytes.items) }
{
    let mut put = Put::with_room(alloc, record_length(value))?;
    put_record(&mut put, value)?;
    Ok(put.done())
}

// Writes a record.
fn put_record(put: &mut Put, value: &Record) -> Result<(), NoMemory>
    requires { (bytes : List ℕ) × SpellsRecord (record_of value.now) bytes }
    ensures { (bytes : List ℕ) → SpellsRecord (record_of value.now) bytes → OnOk result (put.new.bytes ≡ put.old.bytes ++ bytes) }
{
    match value {
        Record::Epoch(epoch) => {
            put.u8(1)?;
            put.u32(*epoch)
        }
        Record::Prepared { txn, writes } => {
            put.u8(promise_kind(writes))?;
            put_txn(put, *txn)?;
            put_reads(put, writes)
        }
        Record::Outcome { txn, commits } => {
            put.u8(3)?;
            put_txn(put, *txn)?;
            put_truth(put, *commits)
        }
    }
}

// The kind of the promise to write these values.
fn promise_kind(writes: &[Read]) -> u8
    ensures { result ≡ (if are_sure writes.now then 2 else 4) }
{
    if are_sure(writes) {
        return 2;
    }
    4
}

/// Reads a record. After a refusal the `Take` stands somewhere within it, and is to be dropped.
///
/// A promise of values of which one isn't sure has a kind of its own. Under the kind of those that are sure, values in cases are an old spelling, which is read too.
pub fn take_record(alloc: Global, take: &mut Take<'_>) -> Result<Record, PolyError>
    ensures passes { IfOk result (λ value. Passes (IsReadAs (record_of value)) record_layout take.old take.new) }
    ensures stops { IfErr result (λ e. IsStopped take.old take.new (fault_of e)) }
{
    let place = take.place();
    let kind = take.u8()?;
    if kind < 1 || kind > 4 {
        return Err(PolyError::BadField(place));
    }
    let value = take_content(alloc, take, kind)?;
    if has_wrong_kind(kind, &value) {
        return Err(PolyError::BadField(place));
    }
    Ok(value)
}

// Whether the kind is that of promises with a value that isn't sure, and the record promises sure values alone.
fn has_wrong_kind(kind: u8, value: &Record) -> bool
    ensures { result ≡ (kind == 4 && promises_sure (record_of value.now)) }
{
    kind == 4 && promises_sure(value)
}

// Whether the record promises sure values alone.
fn promises_sure(value: &Record) -> bool
    ensures { result ≡ promises_sure (record_of value.now) }
{
    match value {
        Record::Prepared { writes, .. } => are_sure(writes),
        _ => false,
    }
}

// Reads what a record of this kind has after the kind.
fn take_content(alloc: Global, take: &mut Take<'_>, kind: u8) -> Result<Record, PolyError>
    requires { IsTrue (is_record_kind kind) }
    ensures kind { IfOk result (λ value. HasKind kind (record_of value)) }
    ensures passes { IfOk result (λ value. Passes (SpellsContentOf kind (record_of value)) (content_layout kind) take.old take.new) }
    ensures stops { IfErr result (λ e. Stops (content_layout kind) take.old (fault_of e)) }
{
    if kind == 1 {
        return take_epoch(take);
    }
    if kind == 2 {
        return take_prepared(alloc, take, Form::Cases);
    }
    if kind == 3 {
        return take_outcome(take);
    }
    take_prepared(alloc, take, Form::Tree)
}

// Reads the epoch of a record of a start, which is at least 1.
fn take_epoch(take: &mut Take<'_>) -> Result<Record, PolyError>
    ensures kind { IfOk result (λ value. HasKind 1 (record_of value)) }
    ensures passes { IfOk result (λ value. Passes (SpellsContentOf 1 (record_of value)) (content_layout 1) take.old take.new) }
    ensures stops { IfErr result (λ e. Stops (content_layout 1) take.old (fault_of e)) }
{
    let place = take.place();
    let epoch = take.u32()?;
    if epoch < 1 {
        return Err(PolyError::BadField(place));
    }
    Ok(Record::Epoch(epoch))
}

// Reads the transaction and the writes of a promise, of this form.
fn take_prepared(alloc: Global, take: &mut Take<'_>, form: Form) -> Result<Record, PolyError>
    ensures promise { IfOk result (λ value. IsPromise (record_of value)) }
    ensures passes { IfOk result (λ value. Passes (SpellsContentBy (SpellsIn (form_of form)) (record_of value))
        (λ next. txn_layout (counted_layout 0 (polyvalue_then (form_of form)) next)) take.old take.new) }
    ensures stops { IfErr result (λ e. Stops (λ next. txn_layout (counted_layout 0 (polyvalue_then (form_of form)) next)) take.old (fault_of e)) }
{
    let txn = take_txn(take)?;
    let writes = take_reads(alloc, take, 0, form)?;
    Ok(Record::Prepared { txn, writes })
}

// Reads the transaction and the outcome of a record of an outcome.
fn take_outcome(take: &mut Take<'_>) -> Result<Record, PolyError>
    ensures kind { IfOk result (λ value. HasKind 3 (record_of value)) }
    ensures passes { IfOk result (λ value. Passes (SpellsContentOf 3 (record_of value)) (content_layout 3) take.old take.new) }
    ensures stops { IfErr result (λ e. Stops (content_layout 3) take.old (fault_of e)) }
{
    let txn = take_txn(take)?;
    let commits = take_truth(take)?;
    Ok(Record::Outcome { txn, commits })
}
