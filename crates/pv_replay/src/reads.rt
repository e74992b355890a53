// Items with their polyvalues: their count, and for each the item and the polyvalue. The items are ascending.
ghost use Rattle.std.specs.Prelude.{◌≡◌, ◌++◌, ◌∷◌, [], ◌≤◌, ℕ, List, length, IfOk, IfErr, OnOk};
ghost use Rattle.std.specs.Io.{StartsWith};
ghost use Rattle.pv_base.specs.BigEndian.{big_endian, twos_complement};
ghost use Rattle.pv_format.specs.Form.{SpellsIn};
ghost use Rattle.pv_format.specs.Layout.{counted_layout, entries_layout, polyvalue_then};
ghost use Rattle.pv_format.specs.PolyvalueSpelling.{SpellsPolyvalue};
ghost use Rattle.pv_format.specs.RecordSpelling.{SpellsReads, SpellsReadsBy, are_sure};
ghost use Rattle.pv_format.specs.Spelling.{SpellsEntriesFrom};
ghost use Rattle.pv_fields.specs.Decoding.{Passes, Stops};
ghost use Rattle.pv_fields.specs.Encoding.{SpellsEntry};
ghost use Rattle.pv_model.specs.Alternatives as model;
ghost use Rattle.pv_replay.specs.Faults.{fault_of};
ghost use Rattle.pv_replay.specs.Left.{HasGoneOn};
ghost use Rattle.pv_replay.specs.Values.{form_of};

use crate::PolyError;
use crate::cases::take_cases_poly;
use crate::fields::{take_count, take_item};
use crate::form::Form;
use crate::poly::{put_poly, take_poly, take_sure_poly};
use crate::room::with_room_for_few;
use pv_base::{ItemId, NoMemory};
use pv_bytes::{Put, Take};
use pv_cases::sure_value;
use pv_tree::{Poly, Read};
use std::alloc::Global;

/// Writes items with their polyvalues, which some bytes spell. Takes time in proportion to these bytes. After a refusal the `Put` holds a
/// part of them, and is to be dropped.
pub fn put_reads(put: &mut Put, reads: &[Read]) -> Result<(), NoMemory>
    requires { (fewest : ℕ) × (bytes : List ℕ) × SpellsReads fewest reads.now bytes }
    ensures written { (fewest : ℕ) (bytes : List ℕ) → SpellsReads fewest reads.now bytes → OnOk result (put.new.bytes ≡ put.old.bytes ++ bytes) }
    ensures kept { StartsWith put.new.bytes put.old.bytes }
{
    put.u8(reads.len() as u8)?;
    for read in reads {
        put_read(put, read)?;
    }
    Ok(())
}

// Writes an item and its polyvalue.
fn put_read(put: &mut Put, read: &Read) -> Result<(), NoMemory>
    requires { (bytes : List ℕ) × SpellsPolyvalue read.now.cases bytes }
    ensures written { (bytes : List ℕ) → SpellsEntry (λ (entry : model.Read). SpellsPolyvalue entry.cases) (λ entry. entry.item) read.now bytes → OnOk result (put.new.bytes ≡ put.old.bytes ++ bytes) }
    ensures kept { StartsWith put.new.bytes put.old.bytes }
{
    if let Some(value) = sure_value(read.value.cases()) {
        return put_sure(put, read.item, value);
    }
    put.u32(read.item.0)?;
    put_poly(put, &read.value)
}

// Writes an item and its value, which depends on no outcome. Most do, so that their bytes are written at once.
fn put_sure(put: &mut Put, item: ItemId, value: i64) -> Result<(), NoMemory>
    ensures written { (bytes : List ℕ) → SpellsEntry (λ (entry : model.Read). SpellsPolyvalue entry.cases) (λ entry. entry.item)
        (record { item = item.0; cases = record { when = []; value = value } ∷ [] }) bytes → OnOk result (put.new.bytes ≡ put.old.bytes ++ bytes) }
    ensures kept { StartsWith put.new.bytes put.old.bytes }
{
    put.bytes(&sure_bytes(item, value))
}

// The bytes of an item and of its value, which depends on no outcome.
fn sure_bytes(item: ItemId, value: i64) -> [u8; 15]
    ensures { result ≡ big_endian 4 item.0 ++ (big_endian 2 1 ++ (big_endian 1 0 ++ big_endian 8 (twos_complement value))) }
{
    let [a, b, c, d] = item.0.to_be_bytes();
    let [e, f, g, h, i, j, k, l] = value.to_be_bytes();
    [a, b, c, d, 0, 1, 0, e, f, g, h, i, j, k, l]
}

/// Whether all of the values are sure.
pub fn are_sure(reads: &[Read]) -> bool
    ensures { result ≡ are_sure reads.now }
{
    reads.iter().all(|read| read.value.cases().len() == 1)
}

/// Reads items with their polyvalues of this form, at least so many. A refusal is the first fault in reading order. Takes time in proportion to the
/// bytes that it reads. After a refusal the `Take` stands somewhere within them, and is to be dropped.
pub fn take_reads(
    alloc: Global,
    take: &mut Take<'_>,
    fewest: u8,
    form: Form,
) -> Result<Vec<Read>, PolyError>
    ensures passes { IfOk result (λ reads. Passes (SpellsReadsBy (SpellsIn (form_of form)) fewest reads.items) (counted_layout fewest (polyvalue_then (form_of form))) take.old take.new) }
    ensures stops { IfErr result (λ e. Stops (counted_layout fewest (polyvalue_then (form_of form))) take.old (fault_of e)) }
    ensures left { HasGoneOn take.old take.new }
{
    let count = take_count(take, fewest)?;
    take_counted_reads(alloc, take, count, form)
}

// Reads so many items with their polyvalues.
fn take_counted_reads(
    alloc: Global,
    take: &mut Take<'_>,
    count: u8,
    form: Form,
) -> Result<Vec<Read>, PolyError>
    ensures counted { IfOk result (λ reads. length reads.items ≡ count) }
    ensures passes { IfOk result (λ reads. Passes (SpellsEntriesFrom (λ (read : model.Read). SpellsIn (form_of form) read.cases) (λ read. read.item) 0 reads.items)
        (entries_layout count (polyvalue_then (form_of form)) 0) take.old take.new) }
    ensures stops { IfErr result (λ e. Stops (entries_layout count (polyvalue_then (form_of form)) 0) take.old (fault_of e)) }
    ensures left { HasGoneOn take.old take.new }
{
    let mut reads = with_room_for_few(alloc, usize::from(count))?;
    let mut least = 0;
    while reads.len() < usize::from(count) {
        let item = take_item(take, least)?;
        let value = take_formed(alloc, take, form)?;
        reads.push(Read { item, value })?;
        least = item.0 + 1;
    }
    Ok(reads)
}

// Reads a polyvalue of this form.
fn take_formed(alloc: Global, take: &mut Take<'_>, form: Form) -> Result<Poly<i64>, PolyError>
    ensures passes { IfOk result (λ poly. Passes (SpellsIn (form_of form) poly) (polyvalue_then (form_of form)) take.old take.new) }
    ensures stops { IfErr result (λ e. Stops (polyvalue_then (form_of form)) take.old (fault_of e)) }
    ensures left { HasGoneOn take.old take.new }
{
    match form {
        Form::Tree => take_poly(alloc, take),
        Form::SureTree => take_sure_poly(alloc, take),
        Form::Cases => take_cases_poly(alloc, take),
    }
}
