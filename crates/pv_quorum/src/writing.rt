// How a record gets into a decider's log. Its memory is taken before the log is called, and nothing is sent or reported until the append has succeeded.
ghost use Rattle.std.specs.Prelude.{◌≡◌, ◌<◌, false, length};
ghost use Rattle.pv_base.specs.declared.limits.TheConstants.{MAX_SITES};
ghost use Rattle.pv_quorum.specs.Spelling.{IsInRange, txn_in};
ghost use Rattle.pv_quorum.specs.Values.{record_of};
ghost use Rattle.pv_quorum.specs.Writing.{AppendsBytes, Writes};

use crate::QuorumError;
use crate::record::{Record, encode_record};
use pv_disk::{Log, LogError};
use std::alloc::Global;

/// What writing a record comes to.
#[derive(Clone, Copy, Debug, PartialEq, Eq)]
pub(crate) enum Written {
    /// The log has the record.
    Done,
    /// The log would have this length with the record, above its limit.
    Full(u64),
}

/// Writes a record, if the log has room for it.
pub(crate) fn write<L: Log>(
    log: &mut L,
    alloc: Global,
    entry: Record,
) -> Result<Written, QuorumError>
    requires intact { L.model.is_intact log.old }
    requires up { L.model.is_down log.old ≡ false }
    ensures written { Writes L.model log.old log.new (record_of entry) result }
    ensures range { (txn_in (record_of entry)).site.0 < MAX_SITES → IsInRange (record_of entry) }
    ensures intact { L.model.is_intact log.new }
{
    let bytes = encode_record(alloc, entry)?;
    match log.reserve(bytes.len() as u64) {
        Ok(()) => append(log, &bytes),
        Err(LogError::Full(length)) => Ok(Written::Full(length)),
        Err(LogError::Failed) => Err(QuorumError::Fault),
        Err(LogError::NoMemory) => Err(QuorumError::NoMemory),
        // The log isn't down, and reads nothing.
        Err(LogError::Down) | Err(LogError::NotOurs(_)) => unreachable!(),
    }
}

// Appends these bytes, for which room was made.
fn append<L: Log>(log: &mut L, bytes: &[u8]) -> Result<Written, QuorumError>
    requires intact { L.model.is_intact log.old }
    requires up { L.model.is_down log.old ≡ false }
    requires room { L.model.has_room log.old (length bytes.now) }
    ensures appended { AppendsBytes L.model log.old log.new bytes.now result }
    ensures intact { L.model.is_intact log.new }
{
    match log.append(bytes) {
        Ok(()) => Ok(Written::Done),
        // Room was made, and the log isn't down.
        Err(_) => Err(QuorumError::Fault),
    }
}
