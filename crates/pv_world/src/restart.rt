// How a site starts: for the first time, and later on; and what its records say once its disk has failed.
ghost use Rattle.std.specs.Prelude.{◌≡◌, ◌<◌, ◌++◌, Bool, IfOk, List, [], None, Option, Some, option_to_list};
ghost use Rattle.pv_format.specs.Checkpoint.{Standing, first_standing};
ghost use Rattle.pv_format.specs.Record.{Record};
ghost use Rattle.pv_protocol.specs.Records.{journal_bytes};
ghost use Rattle.pv_protocol.specs.State as model;
ghost use Rattle.pv_protocol.specs.World.{first_site};
ghost use Rattle.pv_world.specs.Cells.{CanBeRead, CanStart, HasBegun, HasStarted};
ghost use Rattle.pv_world.specs.Disks.{Spells};
ghost use Rattle.pv_world.specs.Restarts.{CanGoOn, IsSynced};
ghost use Rattle.pv_world.specs.Stands.{StandsForSite};
ghost use Rattle.pv_world.specs.declared.cell.Cell.TheVariants.{Down};

use crate::cell::{Cell, Start};
use pv_base::{Catalog, MAX_JOURNAL, NoMemory, SiteId};
use pv_ckpt::{CkptLog, OpenCkpt, armed_logs, format, formatted_logs, look};
use pv_disk::{DiskError, Log, LookError, MemDisk};
use pv_law_step::{no_records_are_narrow, starts_keep_width};
use pv_replay::{ReplayError, replay};
use pv_site::{Recovered, ResumeError, Site, logs_tell_of_records};
use pv_store::StoreError;
use std::alloc::Global;

/// The site after its first start, over an empty disk that is made for it.
pub(crate) fn first_started(
    alloc: Global,
    site: SiteId,
    catalog: &Catalog,
) -> Result<Cell, NoMemory>
    requires { site.0 < catalog.now.sites }
    ensures { IfOk result (λ cell. StandsForSite catalog.now site.0 cell first_site) }
{
    no_records_are_narrow();
    starts_keep_width();
    // Called for its contract alone: the limit has room for the record of the first epoch.
    let _limit = catalog.journal();
    let disk = formatted(alloc)?;
    let left = Recovered::new(alloc, site, catalog)?;
    let (cell, _) = started(disk, left, alloc, site, catalog)?;
    Ok(cell)
}

// A disk with an empty log.
fn formatted(alloc: Global) -> Result<MemDisk, NoMemory>
    ensures { IfOk result (Spells [] first_standing None None) }
{
    formatted_logs();
    let mut disk = MemDisk::new(alloc);
    match format(&mut disk) {
        Ok(()) => Ok(disk),
        Err(DiskError::NoMemory) => Err(NoMemory),
        // Nothing is armed, so this doesn't come; no contract of a disk says so.
        Err(DiskError::Failed) => Err(NoMemory),
    }
}

/// What comes of starting a site that is down, by its disk and what outlived its memory, and what its cell is then.
pub(crate) fn started(
    disk: MemDisk,
    left: Recovered,
    alloc: Global,
    site: SiteId,
    catalog: &Catalog,
) -> Result<(Cell, Start), NoMemory>
    requires replayable { CanStart catalog.now site.0 (Down disk left) }
    requires site { site.0 < catalog.now.sites }
    ensures { (is : model.Site) → StandsForSite catalog.now site.0 (Down disk left) is →
        IfOk result (λ made. HasStarted catalog.now site.0 (Down disk left) made.0 is is.running made.1) }
{
    armed_logs();
    match CkptLog::open(alloc, disk, catalog.journal()) {
        Ok(log) => opened(log, left, alloc, site, catalog),
        Err(OpenCkpt::Failed(disk)) => {
            // Nothing was written.
            let (disk, stops) = mended(disk)?;
            Ok((Cell::Down(disk, left), Start::Broke { stops }))
        }
        Err(OpenCkpt::NoMemory(_)) => Err(NoMemory),
        // The disk holds a log.
        Err(OpenCkpt::NotOurs(..)) => unreachable!(),
    }
}

// What comes of starting the site on its log, and what its cell is then.
fn opened(
    log: CkptLog<MemDisk>,
    left: Recovered,
    alloc: Global,
    site: SiteId,
    catalog: &Catalog,
) -> Result<(Cell, Start), NoMemory>
    requires replayable { CanGoOn catalog.now site.0 log left }
    requires site { site.0 < catalog.now.sites }
    ensures { (is : model.Site) → IsSynced catalog.now site.0 log left is →
        IfOk result (λ made. HasBegun catalog.now site.0 made.0 is made.1) }
{
    armed_logs();
    logs_tell_of_records();
    let before = log.length();
    match Site::resume(alloc, log, left) {
        Ok(up) => {
            let epoch = up.epoch();
            Ok((Cell::Up(up), Start::Started(epoch)))
        }
        Err(ResumeError::Full(log, left, length)) => {
            Ok((Cell::Down(log.close(), left), Start::Full(length)))
        }
        Err(ResumeError::EpochsSpent(log, left)) => {
            Ok((Cell::Down(log.close(), left), Start::Spent))
        }
        Err(ResumeError::Failed(log, left)) => {
            let (cell, stops) = fallen(log.close(), before, left, alloc)?;
            Ok((cell, Start::Broke { stops }))
        }
        Err(ResumeError::NoMemory(_, _)) => Err(NoMemory),
    }
}

/// The site whose disk failed: its cell once the disk is mended, and whether that stood for a stop. The log had this length before, with the
/// records of what outlived the memory, and now it has one more or none.
pub(crate) fn fallen(
    disk: MemDisk,
    length: u64,
    left: Recovered,
    alloc: Global,
) -> Result<(Cell, bool), NoMemory>
    requires length { length ≡ journal_bytes left.records }
    requires readable { (armed : Option model.Arm) × (fired : Option Bool) × CanBeRead left armed fired disk }
    ensures { (added : Option Record) (standing : Standing) (armed : Option model.Arm) (fired : Option Bool) → Spells (left.records ++ option_to_list added) standing armed fired disk →
        IfOk result (λ made. (fired ≡ Some made.1)
        × StandsForSite left.catalog left.me made.0 (record { records = left.records ++ option_to_list added; standing = standing; arm = None; running = None })) }
{
    let (disk, stops) = mended(disk)?;
    let cell = down(disk, length, left, alloc)?;
    Ok((cell, stops))
}

// The disk that failed, once it is mended, and whether that stood for a stop.
fn mended(disk: MemDisk) -> Result<(MemDisk, bool), NoMemory>
    ensures { (records : List Record) (standing : Standing) (armed : Option model.Arm) (fired : Option Bool) → Spells records standing armed fired disk →
        IfOk result (λ made. (fired ≡ Some made.1) × Spells records standing None None made.0) }
{
    // A disk in memory fails where a write or a sync fires, and nowhere else.
    let Some(stops) = disk.fired() else {
        return Err(NoMemory);
    };
    let mut disk = disk;
    disk.mend();
    Ok((disk, stops))
}

// The site that is down over this disk. Where the log is as long as it was, nothing was added to it, and its records aren't read.
fn down(disk: MemDisk, length: u64, left: Recovered, alloc: Global) -> Result<Cell, NoMemory>
    requires length { length ≡ journal_bytes left.records }
    requires readable { CanBeRead left None None disk }
    ensures { (added : Option Record) (standing : Standing) → Spells (left.records ++ option_to_list added) standing None None disk →
        IfOk result (λ cell. StandsForSite left.catalog left.me cell (record { records = left.records ++ option_to_list added; standing = standing; arm = None; running = None })) }
{
    armed_logs();
    logs_tell_of_records();
    match CkptLog::open(alloc, disk, MAX_JOURNAL) {
        Ok(log) => {
            let now = log.length();
            let mut disk = log.close();
            if now == length {
                return Ok(Cell::Down(disk, left));
            }
            let left = read_again(&mut disk, left, alloc)?;
            Ok(Cell::Down(disk, left))
        }
        // Nothing is armed, so that the disk fails doesn't come; no contract of an opening says so.
        Err(OpenCkpt::Failed(_)) | Err(OpenCkpt::NoMemory(_)) => Err(NoMemory),
        // The disk holds a log.
        Err(OpenCkpt::NotOurs(..)) => unreachable!(),
    }
}

// What outlives the site's memory, by the records of its disk.
fn read_again(disk: &mut MemDisk, left: Recovered, alloc: Global) -> Result<Recovered, NoMemory>
    requires { CanBeRead left None None disk.old }
    ensures same { disk.new ≡ disk.old }
    ensures left { (records : List Record) (standing : Standing) → Spells records standing None None disk.old → IfOk result (λ now. now ≡ record left { records = records }) }
{
    armed_logs();
    logs_tell_of_records();
    let contents = match look(alloc, disk) {
        Ok(contents) => contents,
        // No read is to fail.
        Err(LookError::Failed) | Err(LookError::NoMemory) => return Err(NoMemory),
        // The disk holds a log.
        Err(LookError::NotOurs(_)) => unreachable!(),
    };
    let past = match replay(alloc, &contents) {
        Ok(past) => past,
        Err(ReplayError::NoMemory) => return Err(NoMemory),
        Err(ReplayError::BadRecord(_)) => unreachable!(),
    };
    match left.again(alloc, &past) {
        Ok(left) => Ok(left),
        Err(StoreError::NoMemory) => Err(NoMemory),
        Err(StoreError::TooManyOutcomes(_)) => unreachable!(),
    }
}
