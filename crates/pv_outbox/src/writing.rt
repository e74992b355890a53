// How a record gets into an outbox's log: room is made for it, and all other memory is taken, before it is appended.
ghost use Rattle.std.specs.Prelude.{◌≡◌, false, length};
ghost use Rattle.pv_outbox.specs.Writing.{AppendsBytes, MakesRoom, has_failed};

use crate::BoxError;
use pv_disk::{Log, LogError};

/// Makes room for these bytes, if the log has any. Where the log fails, that it is down is set.
pub(crate) fn make_room<L: Log>(log: &mut L, down: &mut bool, bytes: &[u8]) -> Result<(), BoxError>
    requires intact { L.model.is_intact log.old }
    requires up { L.model.is_down log.old ≡ false }
    requires was_up { down.old ≡ false }
    ensures effect { MakesRoom L.model log.old log.new bytes.now result }
    ensures down { down.new ≡ has_failed result }
    ensures intact { L.model.is_intact log.new }
    ensures up { down.new ≡ false → L.model.is_down log.new ≡ false }
{
    match log.reserve(bytes.len() as u64) {
        Ok(()) => Ok(()),
        Err(LogError::Full(length)) => Err(BoxError::Full(length)),
        Err(LogError::Failed) => {
            *down = true;
            Err(BoxError::Failed)
        }
        Err(LogError::NoMemory) => Err(BoxError::NoMemory),
        // The log isn't down, and reads nothing.
        Err(LogError::Down) | Err(LogError::NotOurs(_)) => unreachable!(),
    }
}

/// Appends these bytes, for which room was made. Where the log fails, that it is down is set.
pub(crate) fn append<L: Log>(log: &mut L, down: &mut bool, bytes: &[u8]) -> Result<(), BoxError>
    requires intact { L.model.is_intact log.old }
    requires up { L.model.is_down log.old ≡ false }
    requires was_up { down.old ≡ false }
    requires room { L.model.has_room log.old (length bytes.now) }
    ensures effect { AppendsBytes L.model log.old log.new bytes.now result }
    ensures down { down.new ≡ has_failed result }
    ensures intact { L.model.is_intact log.new }
    ensures up { down.new ≡ false → L.model.is_down log.new ≡ false }
{
    match log.append(bytes) {
        Ok(()) => Ok(()),
        // Room was made, and the log isn't down.
        Err(_) => {
            *down = true;
            Err(BoxError::Failed)
        }
    }
}
