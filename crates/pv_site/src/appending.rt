// How a record gets into the log. All else of the step is ready before: its memory is taken, and nothing is sent or reported until the
// append has succeeded.
ghost use Rattle.std.specs.Prelude.{◌≡◌, ℕ, List, false, length};
ghost use Rattle.pv_format.specs.RecordSpelling.{SpellsRecord};
ghost use Rattle.pv_replay.specs.Values.{record_of};
ghost use Rattle.pv_site.specs.Room.{AppendsBytes, MakesRoomFor, Writes};

use crate::StepError;
use pv_disk::{Log, LogError};
use pv_replay::{Record, encode_record};
use std::alloc::Global;

// What writing a record comes to.
#[derive(Clone, Copy, Debug, PartialEq, Eq)]
pub(crate) enum Written {
    /// The log has the record.
    Done,
    /// The log would have this length with the record, above its limit.
    Full(u64),
}

// What making room comes to.
#[derive(Debug, Drop)]
enum Room {
    /// There is room for the record, which has these bytes.
    Made(Vec<u8>),
    /// The log would have this length with the record, above its limit.
    Full(u64),
}

// Writes a record, if the log has room for it.
#[tactic(auto, using(pv_disk_model::proofs::LogLemmas::log_joins, crate::proofs::LogLemmas::record_joins, crate::proofs::LogLemmas::unmade))]
pub(crate) fn write<L: Log>(
    log: &mut L,
    alloc: Global,
    entry: &Record,
) -> Result<Written, StepError>
    requires intact { L.model.is_intact log.old }
    requires up { L.model.is_down log.old ≡ false }
    requires spelled { (bytes : List ℕ) × SpellsRecord (record_of entry.now) bytes }
    ensures written { Writes L.model log.old log.new (record_of entry.now) result }
    ensures intact { L.model.is_intact log.new }
{
    match make_room(log, alloc, entry) {
        Ok(Room::Made(bytes)) => {
            append(log, &bytes)?;
            Ok(Written::Done)
        }
        Ok(Room::Full(length)) => Ok(Written::Full(length)),
        Err(error) => Err(error),
    }
}

// Makes room in the log for a record.
#[tactic(auto, using(crate::proofs::LogLemmas::record_lengths))]
fn make_room<L: Log>(log: &mut L, alloc: Global, entry: &Record) -> Result<Room, StepError>
    requires intact { L.model.is_intact log.old }
    requires up { L.model.is_down log.old ≡ false }
    requires spelled { (bytes : List ℕ) × SpellsRecord (record_of entry.now) bytes }
    ensures room { MakesRoomFor L.model log.old log.new (record_of entry.now) result }
    ensures intact { L.model.is_intact log.new }
{
    let bytes = encode_record(alloc, entry)?;
    match log.reserve(bytes.len() as u64) {
        Ok(()) => Ok(Room::Made(bytes)),
        Err(LogError::Full(length)) => Ok(Room::Full(length)),
        Err(LogError::Failed) => Err(StepError::Fault),
        Err(LogError::NoMemory) => Err(StepError::NoMemory),
        Err(LogError::Down) | Err(LogError::NotOurs(_)) => unreachable!(),
    }
}

// Appends the record with these bytes, for which room was made.
fn append<L: Log>(log: &mut L, bytes: &[u8]) -> Result<(), StepError>
    requires intact { L.model.is_intact log.old }
    requires up { L.model.is_down log.old ≡ false }
    requires room { L.model.has_room log.old (length bytes.now) }
    ensures appended { AppendsBytes L.model log.old log.new bytes.now result }
    ensures intact { L.model.is_intact log.new }
{
    match log.append(bytes) {
        Ok(()) => Ok(()),
        Err(_) => Err(StepError::Fault),
    }
}
