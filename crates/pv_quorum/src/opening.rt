// What a decider that is opened reads of its log, and why it isn't opened.
ghost use Rattle.std.specs.Prelude.{◌≡◌, ◌+◌, ◌-◌, ◌^◌, ◌++◌, ◌∷◌, [], min, length, true, false, All, List, IfOk, OnOk};
ghost use Rattle.pv_disk_model.specs.Calls.{read_all};
ghost use Rattle.pv_disk_model.specs.Size.{size_of};
ghost use Rattle.pv_law_quorum.specs.Record as records;
ghost use Rattle.pv_quorum.specs.Opens.{Loads, Reads, Remembers, contents_of, refused_with};
ghost use Rattle.pv_quorum.specs.Spelling.{IsInRange};
ghost use Rattle.pv_quorum.specs.Values.{record_of};

use crate::OpenDecider;
use crate::memory::Memory;
use crate::record::{Record, decode_record};
use pv_base::NoMemory;
use pv_disk::{Log, LogError};
use std::alloc::Global;

/// Why a decider isn't opened, as [`OpenDecider`] says, beside the log that comes back.
#[derive(Clone, Copy, Debug, PartialEq, Eq)]
pub(crate) enum Refusal {
    /// The log failed.
    Failed,
    /// The content with this index is no record's.
    BadRecord(u64),
    /// What was read isn't the log's.
    NotOurs(u64),
    /// There was no memory.
    NoMemory,
}

impl From<NoMemory> for Refusal {
    ghost use Rattle.std.specs.Prelude.{◌≡◌};
    ghost use Rattle.pv_quorum.specs.declared.opening.Refusal.TheVariants as refusal;

    ghost from_gives = { λ _ e. e ≡ refusal.NoMemory };

    fn from(_: NoMemory) -> Self {
        Refusal::NoMemory
    }
}

impl Refusal {
    // The refusal, with which the log comes back.
    pub(crate) fn with<L: Log>(self, log: L) -> OpenDecider<L>
        ensures { result ≡ refused_with log self }
    {
        match self {
            Refusal::Failed => OpenDecider::Failed(log),
            Refusal::BadRecord(index) => OpenDecider::BadRecord(log, index),
            Refusal::NotOurs(place) => OpenDecider::NotOurs(log, place),
            Refusal::NoMemory => OpenDecider::NoMemory(log),
        }
    }
}

/// Reads the records of the log, and what is known by them.
pub(crate) fn load<L: Log>(log: &mut L, alloc: Global) -> Result<Memory, Refusal>
    requires intact { L.model.is_intact log.old }
    requires up { L.model.is_down log.old ≡ false }
    ensures loaded { Loads L.model log.old log.new result }
    ensures reads { IfOk result (λ memory. L.model.goes log.old read_all true log.new) }
    ensures intact { L.model.is_intact log.new }
{
    let contents = match log.read_all() {
        Ok(contents) => contents,
        Err(LogError::Failed) => return Err(Refusal::Failed),
        Err(LogError::NotOurs(place)) => return Err(Refusal::NotOurs(place)),
        Err(LogError::NoMemory) => return Err(Refusal::NoMemory),
        // The log isn't down, and a reading adds nothing.
        Err(LogError::Down) | Err(LogError::Full(_)) => unreachable!(),
    };
    let length = length_of(&contents);
    if length != log.length() {
        return Err(Refusal::NotOurs(length));
    }
    known_by(alloc, &contents)
}

// How long a log with these contents is, or u64's greatest value where it is longer than that.
fn length_of(contents: &[Vec<u8>]) -> u64
    ensures { result ≡ min (size_of (contents_of contents.now)) (2 ^ 64 - 1) }
{
    let mut length = 9;
    for content in contents {
        length = longer(length, content);
    }
    length
}

// The length with one content more.
fn longer(before: u64, content: &[u8]) -> u64
    ensures { result ≡ min (before + (5 + length content.now)) (2 ^ 64 - 1) }
{
    before.saturating_add(5 + content.len() as u64)
}

// What is known by the records that these contents are.
fn known_by(alloc: Global, contents: &[Vec<u8>]) -> Result<Memory, Refusal>
    ensures { Reads (contents_of contents.now) result }
{
    let mut memory = Memory::new(alloc);
    let mut index = 0;
    for content in contents {
        match decode_record(content) {
            Some(record) => learn(&mut memory, record)?,
            None => return Err(Refusal::BadRecord(index)),
        }
        index += 1;
    }
    Ok(memory)
}

// Takes note of a record.
fn learn(memory: &mut Memory, entry: Record) -> Result<(), NoMemory>
    ensures { (entries : List records.Record) → All IsInRange entries → Remembers entries memory.old.known
        → OnOk result (Remembers (entries ++ record_of entry ∷ []) memory.new.known) }
{
    let txn = entry.txn();
    memory.reserve()?;
    memory.put(txn, memory.known(txn).and(entry));
    Ok(())
}
