// The records of an outbox as bytes: the kind in one byte, and then what the kind has.
ghost use Rattle.std.specs.Prelude.{◌≡◌, ◌≢◌, ◌<◌, ℕ, List, [], None, MatchOption, IfOk};
ghost use Rattle.pv_base.specs.declared.limits.TheConstants.{MAX_SITES};
ghost use Rattle.pv_format.specs.PolyvalueSpelling.{SpellsPolyvalue};
ghost use Rattle.pv_law_outbox.specs.State as law;
ghost use Rattle.pv_replay.specs.declared.error.PolyError.TheVariants as PolyError;
ghost use Rattle.pv_outbox.specs.Spelling.{IsContent, IsNoContent, IsNoRecord, SpellsRecord};
ghost use Rattle.pv_outbox.specs.Values.{record_of};

use pv_base::{NoMemory, TxnId};
use pv_bytes::{Put, Take};
use pv_replay::{PolyError, put_poly, put_truth, put_txn, take_poly, take_truth, take_txn};
use pv_tree::Poly;
use std::alloc::Global;

/// The kind of a record of an output that is held.
const HELD: u8 = 17;

/// The kind of a record of an outcome that was learnt.
const LEARNT: u8 = 18;

/// The kind of a record of an output that is released.
const TAKEN: u8 = 19;

/// What an outbox keeps for good.
#[derive(Debug, Drop)]
pub(crate) enum Record {
    /// The output is held back until its condition is certain to be 1.
    Held {
        /// The output.
        output: u32,
        /// Its condition.
        when: Poly<i64>,
    },
    /// The outcome of the transaction was learnt.
    Learnt {
        /// The transaction.
        txn: TxnId,
        /// Whether it commits.
        commits: bool,
    },
    /// The output is released.
    Taken {
        /// The output.
        output: u32,
    },
}

/// The bytes of a record by which an output is held. Takes time in proportion to these bytes.
pub(crate) fn held_bytes(alloc: Global, output: u32, when: &Poly<i64>) -> Result<Vec<u8>, NoMemory>
    requires { (bytes : List ℕ) × SpellsPolyvalue when.now bytes }
    ensures { IfOk result (λ bytes. SpellsRecord (law.held output when.now) bytes.items) }
{
    let mut put = Put::new(alloc);
    put.u8(HELD)?;
    put.u32(output)?;
    put_poly(&mut put, when)?;
    Ok(put.done())
}

/// The bytes of a record of an outcome.
pub(crate) fn learnt_bytes(alloc: Global, txn: TxnId, commits: bool) -> Result<Vec<u8>, NoMemory>
    requires { txn.site.0 < MAX_SITES }
    ensures { IfOk result (λ bytes. SpellsRecord (law.learnt txn commits) bytes.items) }
{
    let mut put = Put::new(alloc);
    put.u8(LEARNT)?;
    put_txn(&mut put, txn)?;
    put_truth(&mut put, commits)?;
    Ok(put.done())
}

/// The bytes of a record by which an output is released.
pub(crate) fn taken_bytes(alloc: Global, output: u32) -> Result<Vec<u8>, NoMemory>
    ensures { IfOk result (λ bytes. SpellsRecord (law.taken output) bytes.items) }
{
    let mut put = Put::new(alloc);
    put.u8(TAKEN)?;
    put.u32(output)?;
    Ok(put.done())
}

/// The record that the content spells, or that it spells none. Takes time in proportion to the content.
pub(crate) fn decode_record(alloc: Global, content: &[u8]) -> Result<Option<Record>, NoMemory>
    ensures { IfOk result (λ found. MatchOption found (IsNoRecord content.now) (λ value. SpellsRecord (record_of value) content.now)) }
{
    let mut take = Take::new(content);
    let Ok(kind) = take.u8() else {
        return Ok(None);
    };
    if kind == HELD {
        return decode_held(alloc, take.left());
    }
    if kind == LEARNT {
        return Ok(decode_learnt(take.left()));
    }
    if kind == TAKEN {
        return Ok(decode_taken(take.left()));
    }
    Ok(None)
}

// What stands after the kind of a record by which an output is held.
fn decode_held(alloc: Global, content: &[u8]) -> Result<Option<Record>, NoMemory>
    ensures { IfOk result (λ found. MatchOption found (IsNoContent 17 content.now) (λ value. IsContent 17 (record_of value) content.now)) }
{
    let mut take = Take::new(content);
    let Ok(output) = take.u32() else {
        return Ok(None);
    };
    match take_poly(alloc, &mut take) {
        Ok(when) => Ok(whole(Record::Held { output, when }, take.left())),
        Err(e) => no_record(e),
    }
}

// What stands after the kind of a record of an outcome.
fn decode_learnt(content: &[u8]) -> Option<Record>
    ensures { MatchOption result (IsNoContent 18 content.now) (λ value. IsContent 18 (record_of value) content.now) }
{
    let mut take = Take::new(content);
    let Ok(txn) = take_txn(&mut take) else {
        return None;
    };
    let Ok(commits) = take_truth(&mut take) else {
        return None;
    };
    whole(Record::Learnt { txn, commits }, take.left())
}

// What stands after the kind of a record by which an output is released.
fn decode_taken(content: &[u8]) -> Option<Record>
    ensures { MatchOption result (IsNoContent 19 content.now) (λ value. IsContent 19 (record_of value) content.now) }
{
    let mut take = Take::new(content);
    let Ok(output) = take.u32() else {
        return None;
    };
    whole(Record::Taken { output }, take.left())
}

// The record, if nothing is left after it.
fn whole(value: Record, left: &[u8]) -> Option<Record>
    ensures { MatchOption result (left.now ≡ [] → ⊥) (λ found. (left.now ≡ []) × (found ≡ value)) }
{
    if left.is_empty() { Some(value) } else { None }
}

// There is no record, unless it couldn't be read for want of memory.
fn no_record(e: PolyError) -> Result<Option<Record>, NoMemory>
    ensures { IfOk result (λ found. (found ≡ None) × (e ≢ PolyError.NoMemory)) }
{
    match e {
        PolyError::NoMemory => Err(NoMemory),
        PolyError::Short(_) | PolyError::BadField(_) | PolyError::BadPoly(_) => Ok(None),
    }
}
