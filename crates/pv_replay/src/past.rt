// The records as which the contents of a journal are read, and old spellings among them.
ghost use Rattle.std.specs.Prelude.{◌≡◌, ◌≢◌, false, true, [], ◌∷◌, ℕ, List, max, MatchOption, IsSome, IfOk};
ghost use Rattle.pv_base.specs.Answer.{Answers};
ghost use Rattle.pv_format.specs.Contents.{IsFirstBadContent, IsNoRecord, SpellRecords, greatest_epoch};
ghost use Rattle.pv_format.specs.Record as model;
ghost use Rattle.pv_format.specs.RecordSpelling.{IsReadAs, SpellsOldRecord, SpellsRecord};
ghost use Rattle.pv_replay.specs.Content.{promises_unsure};
ghost use Rattle.pv_replay.specs.Faults.{fault_of};
ghost use Rattle.pv_replay.specs.Values.{contents_of, index_of, record_of, records_of};

use crate::reads::are_sure;
use crate::record::{encode_record, take_record};
use crate::room::with_room;
use crate::{PolyError, Record, ReplayError};
use pv_base::NoMemory;
use pv_bytes::Take;
use std::alloc::Global;

/// What a journal holds.
#[derive(Debug, Drop)]
pub struct Past {
    /// The greatest epoch that is recorded, or 0 where none is.
    pub epoch: u32,
    /// The records, in order.
    pub records: Vec<Record>,
}

/// The records as which these contents are read, in order. Where some content is read as none, the answer is the first such one. Takes time in
/// proportion to the bytes.
pub fn replay(alloc: Global, contents: &[Vec<u8>]) -> Result<Past, ReplayError>
    ensures answer { Answers (λ records. SpellRecords records (contents_of contents.now)) (IsFirstBadContent (contents_of contents.now))
        (λ past. records_of past.records.items) index_of result }
    ensures epoch { IfOk result (λ past. past.epoch ≡ greatest_epoch (records_of past.records.items)) }
{
    let mut epoch = 0;
    let mut records = with_room(alloc, contents.len())?;
    for content in contents {
        match decode_record(alloc, content)? {
            Some(record) => {
                epoch = later_epoch(epoch, &record);
                records.push(record)?;
            }
            None => return Err(ReplayError::BadRecord(records.len() as u64)),
        }
    }
    Ok(Past { epoch, records })
}

// The greater of this epoch and the record's, if it has one.
fn later_epoch(epoch: u32, value: &Record) -> u32
    ensures { result ≡ max epoch (greatest_epoch (record_of value.now ∷ [])) }
{
    match value {
        Record::Epoch(number) => epoch.max(*number),
        _ => epoch,
    }
}

/// The record as which the content is read, or that it is read as none.
pub fn decode_record(alloc: Global, content: &[u8]) -> Result<Option<Record>, NoMemory>
    ensures { IfOk result (λ found. MatchOption found (IsNoRecord content.now) (λ value. IsReadAs (record_of value) content.now)) }
{
    let mut take = Take::new(content);
    match take_record(alloc, &mut take) {
        Ok(record) => Ok(last_record(record, take.left())),
        Err(e) => no_record(e),
    }
}

// The record, if nothing is left after it.
fn last_record(read: Record, left: &[u8]) -> Option<Record>
    ensures { MatchOption result (left.now ≢ []) (λ value. (value ≡ read) × (left.now ≡ [])) }
{
    if !left.is_empty() {
        return None;
    }
    Some(read)
}

// That there is no record, unless there was no memory.
fn no_record(e: PolyError) -> Result<Option<Record>, NoMemory>
    ensures { IfOk result (λ found. (found ≡ None) × IsSome (fault_of e)) }
{
    match e {
        PolyError::NoMemory => Err(NoMemory),
        _ => Ok(None),
    }
}

/// The record's own spelling, where the content is an old spelling of a record; `None` where it is the spelling of one, or is read as none. Takes time in proportion to the bytes.
pub fn respelled(alloc: Global, content: &[u8]) -> Result<Option<Vec<u8>>, NoMemory>
    ensures { IfOk result (λ found. MatchOption found ((entry : model.Record) → SpellsOldRecord entry content.now → ⊥)
        (λ bytes. (entry : model.Record) × SpellsOldRecord entry content.now × SpellsRecord entry bytes.items)) }
{
    let Some(record) = decode_record(alloc, content)? else {
        return Ok(None);
    };
    // A promise of values of which one isn't sure, under the kind of those that are.
    if !begins_with(content, 2) {
        return Ok(None);
    }
    if !promises_unsure(&record) {
        return Ok(None);
    }
    Ok(Some(encode_record(alloc, &record)?))
}

// Whether the record promises values of which one isn't sure.
fn promises_unsure(value: &Record) -> bool
    ensures { result ≡ promises_unsure (record_of value.now) }
{
    match value {
        Record::Prepared { writes, .. } => !are_sure(writes),
        _ => false,
    }
}

// Whether this is the first byte.
fn begins_with(content: &[u8], byte: u8) -> bool
    ensures begun { result ≡ true → (rest : List ℕ) × (content.now ≡ byte ∷ rest) }
    ensures other { result ≡ false → (rest : List ℕ) → content.now ≡ byte ∷ rest → ⊥ }
{
    match content {
        [first, ..] => *first == byte,
        [] => false,
    }
}
