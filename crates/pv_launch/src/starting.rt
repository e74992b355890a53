// How a site is started on an empty disk.
ghost use Rattle.std.specs.Prelude.{◌≡◌, ℕ, ◌<◌, ◌≤◌, false, List, [], Some, Ok};
ghost use Rattle.pv_base.specs.declared.limits.TheConstants.{MIN_JOURNAL};
ghost use Rattle.pv_ckpt.specs.CkptLog.{IsIntact};
ghost use Rattle.pv_ckpt.specs.Opening.{Opens};
ghost use Rattle.pv_launch.specs.Starting.{Begins, FindsNothing, Prepares, Starts};

use crate::NotStarted;
use pv_base::{Catalog, SiteId};
use pv_ckpt::{CkptLog, OpenCkpt, format};
use pv_disk::{Disk, DiskError};
use pv_site::{OpenError, Site};
use std::alloc::Global;

/// Formats an empty disk, and opens the site of this number on it, for the first time. Takes time in proportion to the catalog.
///
/// The disk is synced first. So where it reads as empty a crash leaves no more of it than that, and whatever fails later, no log with a promise or an outcome is
/// on it.
pub fn start<D: Disk>(
    alloc: Global,
    disk: D,
    site: SiteId,
    catalog: &Catalog,
) -> Result<Site<CkptLog<D>>, NotStarted<D>>
    requires empty { (held : List ℕ) → D.model.content disk ≡ Some held → held ≡ [] }
    requires site { site.0 < catalog.now.sites }
    ensures { Starts D.model site.0 catalog.now disk result }
{
    match prepared(disk) {
        Ok(disk) => opened(alloc, disk, site, catalog),
        Err(why) => Err(why),
    }
}

// Makes an empty log on an empty disk, once all is synced that may be owed.
fn prepared<D: Disk>(disk: D) -> Result<D, NotStarted<D>>
    requires empty { (held : List ℕ) → D.model.content disk ≡ Some held → held ≡ [] }
    ensures { Prepares D.model disk result }
{
    let mut disk = disk;
    if disk.sync().is_err() {
        return Err(NotStarted::Failed(disk));
    }
    match format(&mut disk) {
        Ok(()) => Ok(disk),
        Err(DiskError::Failed) => Err(NotStarted::Failed(disk)),
        Err(DiskError::NoMemory) => Err(NotStarted::NoMemory(disk)),
    }
}

// Opens the site on a disk with an empty log.
fn opened<D: Disk>(
    alloc: Global,
    disk: D,
    site: SiteId,
    catalog: &Catalog,
) -> Result<Site<CkptLog<D>>, NotStarted<D>>
    requires site { site.0 < catalog.now.sites }
    ensures { Begins D.model site.0 catalog.now disk result }
{
    match CkptLog::open(alloc, disk, catalog.journal()) {
        Ok(log) => begun(alloc, log, site, catalog),
        Err(OpenCkpt::Failed(disk)) => Err(NotStarted::Failed(disk)),
        Err(OpenCkpt::NotOurs(disk, _)) => Err(NotStarted::Misread(disk)),
        Err(OpenCkpt::NoMemory(disk)) => Err(NotStarted::NoMemory(disk)),
    }
}

// Opens the site on its log.
fn begun<D: Disk>(
    alloc: Global,
    log: CkptLog<D>,
    site: SiteId,
    catalog: &Catalog,
) -> Result<Site<CkptLog<D>>, NotStarted<D>>
    requires intact { IsIntact D.model log }
    requires up { log.down ≡ false }
    requires limit { log.limit ≡ catalog.now.journal }
    requires least { MIN_JOURNAL ≤ catalog.now.journal }
    requires site { site.0 < catalog.now.sites }
    ensures { (disk : D) → Opens D.model disk catalog.now.journal (Ok log) → Begins D.model site.0 catalog.now disk result }
{
    match Site::open(alloc, log, site, catalog) {
        Ok(site) => found_empty(site),
        Err(OpenError::Failed(log)) => Err(NotStarted::Failed(log.close())),
        Err(OpenError::NoMemory(log)) => Err(NotStarted::NoMemory(log.close())),
        // What was read isn't what was written.
        Err(OpenError::NotOurs(log, _)) => Err(NotStarted::Misread(log.close())),
        Err(OpenError::BadRecord(log, _)) => Err(NotStarted::Misread(log.close())),
        Err(OpenError::TooManyOutcomes(log, _)) => Err(NotStarted::Misread(log.close())),
        Err(OpenError::EpochsSpent(log)) => Err(NotStarted::Misread(log.close())),
        Err(OpenError::Full(log, _)) => Err(NotStarted::Misread(log.close())),
    }
}

// The site, where nothing was found in its log.
fn found_empty<D: Disk>(site: Site<CkptLog<D>>) -> Result<Site<CkptLog<D>>, NotStarted<D>>
    ensures { FindsNothing site result }
{
    if site.first() {
        Ok(site)
    } else {
        Err(NotStarted::Misread(site.close().close()))
    }
}
