// Items with whether the transaction may change them: their count, and for each the item and the truth value. The items are ascending.
ghost use Rattle.std.specs.Prelude.{◌≡◌, ◌++◌, ◌≤◌, ℕ, List, length, IfOk, IfErr, OnOk};
ghost use Rattle.pv_base.specs.Want as model;
ghost use Rattle.pv_base.specs.declared.limits.TheConstants.{MAX_PROGRAM_ITEMS};
ghost use Rattle.pv_format.specs.Layout.{counted_layout, entries_layout, truth_layout};
ghost use Rattle.pv_format.specs.MessageSpelling.{SpellsWants};
ghost use Rattle.pv_format.specs.Spelling.{IsTruth, SpellsEntriesFrom};
ghost use Rattle.pv_fields.specs.Decoding.{Passes, Stops};
ghost use Rattle.pv_fields.specs.Encoding.{SpellsEntry};
ghost use Rattle.pv_replay.specs.Faults.{fault_of};

use pv_base::{NoMemory, Want};
use pv_bytes::{Put, Take};
use pv_replay::{PolyError, put_truth, take_count, take_item, take_truth};
use std::alloc::Global;

/// Writes wants, which some bytes spell.
pub fn put_wants(put: &mut Put, wants: &[Want]) -> Result<(), NoMemory>
    requires { length wants.now ≤ MAX_PROGRAM_ITEMS }
    ensures { (fewest : ℕ) (bytes : List ℕ) → SpellsWants fewest wants.now bytes → OnOk result (put.new.bytes ≡ put.old.bytes ++ bytes) }
{
    put.u8(wants.len() as u8)?;
    for want in wants {
        put_want(put, *want)?;
    }
    Ok(())
}

// Writes a want.
fn put_want(put: &mut Put, want: Want) -> Result<(), NoMemory>
    ensures { (bytes : List ℕ) → SpellsEntry (λ (entry : model.Want). IsTruth entry.exclusive) (λ entry. entry.item) want bytes → OnOk result (put.new.bytes ≡ put.old.bytes ++ bytes) }
{
    put.u32(want.item.0)?;
    put_truth(put, want.exclusive)
}

/// Reads wants, at least one.
pub fn take_wants(alloc: Global, take: &mut Take<'_>) -> Result<Vec<Want>, PolyError>
    ensures passes { IfOk result (λ wants. Passes (SpellsWants 1 wants.items) (counted_layout 1 truth_layout) take.old take.new) }
    ensures stops { IfErr result (λ e. Stops (counted_layout 1 truth_layout) take.old (fault_of e)) }
{
    let count = take_count(take, 1)?;
    take_counted_wants(alloc, take, count)
}

// Reads so many wants.
fn take_counted_wants(alloc: Global, take: &mut Take<'_>, count: u8) -> Result<Vec<Want>, PolyError>
    ensures counted { IfOk result (λ wants. length wants.items ≡ count) }
    ensures passes { IfOk result (λ wants. Passes (SpellsEntriesFrom (λ (entry : model.Want). IsTruth entry.exclusive) (λ entry. entry.item) 0 wants.items)
        (entries_layout count truth_layout 0) take.old take.new) }
    ensures stops { IfErr result (λ e. Stops (entries_layout count truth_layout 0) take.old (fault_of e)) }
{
    let mut wants = Vec::new(alloc);
    let mut least = 0;
    while wants.len() < usize::from(count) {
        let item = take_item(take, least)?;
        let exclusive = take_truth(take)?;
        wants.push(Want { item, exclusive })?;
        least = item.0 + 1;
    }
    Ok(wants)
}
