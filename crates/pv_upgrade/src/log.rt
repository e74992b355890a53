// The log on a disk upgraded.
ghost use Rattle.std.specs.Prelude.{◌≡◌, ◌≢◌, ◌≤◌, ℕ, false, List, Some, IfOk};
ghost use Rattle.pv_base.specs.declared.limits.TheConstants.{MIN_JOURNAL, MAX_JOURNAL};
ghost use Rattle.pv_ckpt.specs.CkptLog.{IsIntact};
ghost use Rattle.pv_disk_model.specs.Size.{size_of};
ghost use Rattle.pv_replay.specs.Values.{contents_of};
ghost use Rattle.pv_upgrade.specs.Keeping.{KeepsRecords};
ghost use Rattle.pv_upgrade.specs.Renewing.{Renews};
ghost use Rattle.pv_upgrade.specs.Upgrading.{Upgrades};

use crate::contents::Renewed;
use crate::find::{Found, found_in, settled_contents};
use crate::told::Upgrade;
use pv_base::NoMemory;
use pv_ckpt::{CkptError, CkptLog, OpenCkpt};
use pv_disk::{Disk, Log, LookError};
use std::alloc::Global;

/// The greatest length of a log that can be rewritten: 2 to the 35th power.
const GREATEST_LENGTH: u64 = 34_359_738_368;

/// Upgrades the log on a disk, which may have this length at most, and hands the disk back with what came of it. An error is want of memory.
pub(crate) fn upgrade_disk<D: Disk>(
    alloc: Global,
    disk: D,
    limit: u64,
) -> (D, Result<Upgrade, NoMemory>)
    requires least { MIN_JOURNAL ≤ limit }
    requires most { limit ≤ MAX_JOURNAL }
    ensures keeps { KeepsRecords D.model disk result.0 }
    ensures upgrades { IfOk result.1 (Upgrades D.model limit disk result.0) }
{
    let mut disk = disk;
    let contents = match settled_contents(alloc, &mut disk) {
        Ok(contents) => contents,
        Err(LookError::Failed) => return (disk, Ok(Upgrade::Failed)),
        Err(LookError::NotOurs(place)) => return (disk, Ok(Upgrade::NotOurs(place))),
        Err(LookError::NoMemory) => return (disk, Err(NoMemory)),
    };
    match found_in(alloc, contents, limit) {
        Ok(Found::Done(told)) => (disk, Ok(told)),
        Ok(Found::Old(renewed)) => replace(alloc, disk, limit, &renewed),
        Err(NoMemory) => (disk, Err(NoMemory)),
    }
}

// Replaces the contents of the log on a disk by these, of which some replace old spellings.
fn replace<D: Disk>(
    alloc: Global,
    disk: D,
    limit: u64,
    renewed: &Renewed,
) -> (D, Result<Upgrade, NoMemory>)
    requires least { MIN_JOURNAL ≤ limit }
    requires most { limit ≤ MAX_JOURNAL }
    requires some { renewed.now.count ≢ 0 }
    requires within { size_of (contents_of renewed.now.contents.items) ≤ limit }
    requires renews { (was : List ℕ) → D.model.content disk ≡ Some was → Renews was (contents_of renewed.now.contents.items) renewed.now.count }
    ensures keeps { KeepsRecords D.model disk result.0 }
    ensures upgrades { IfOk result.1 (Upgrades D.model limit disk result.0) }
{
    match CkptLog::open(alloc, disk, limit) {
        Ok(log) => {
            let mut log = log;
            let told = rewrite(&mut log, renewed);
            (log.close(), told)
        }
        Err(OpenCkpt::Failed(disk)) => (disk, Ok(Upgrade::Failed)),
        Err(OpenCkpt::NotOurs(disk, place)) => (disk, Ok(Upgrade::NotOurs(place))),
        Err(OpenCkpt::NoMemory(disk)) => (disk, Err(NoMemory)),
    }
}

// Puts these contents in place of all that the log has.
fn rewrite<D: Disk>(log: &mut CkptLog<D>, renewed: &Renewed) -> Result<Upgrade, NoMemory>
    requires intact { IsIntact D.model log.old }
    requires up { log.old.down ≡ false }
    requires some { renewed.now.count ≢ 0 }
    requires within { size_of (contents_of renewed.now.contents.items) ≤ log.old.limit }
    requires renews { (was : List ℕ) → D.model.content log.old.disk ≡ Some was → Renews was (contents_of renewed.now.contents.items) renewed.now.count }
    ensures keeps { KeepsRecords D.model log.old.disk log.new.disk }
    ensures upgrades { IfOk result (Upgrades D.model log.old.limit log.old.disk log.new.disk) }
{
    // An old spelling is less than eight times as long as the new one, and the new contents are within a limit of 2 to the 32nd power: only a disk that doesn't give what it
    // gave before holds a log that is longer.
    if log.length() > GREATEST_LENGTH {
        return Err(NoMemory);
    }
    match log.rewrite(&renewed.contents) {
        Ok(()) => Ok(Upgrade::Upgraded(renewed.count)),
        Err(CkptError::Spent) => Ok(Upgrade::Spent),
        Err(CkptError::NoMemory) => Err(NoMemory),
        Err(CkptError::Failed | CkptError::Down) => Ok(Upgrade::Failed),
    }
}
