// How a log on a disk in memory is made and opened, where a fault may be armed, and how a disk on which one fired is mended.
ghost use Rattle.std.specs.Prelude.{◌≡◌, Bool, [], Some, None, Option, IfOk};
ghost use Rattle.pv_disk.specs.declared.arms.Arm.{Arm};
ghost use Rattle.pv_disk_model.specs.Size.{Contents};
ghost use Rattle.pv_format.specs.Checkpoint.{Standing, first_standing};
ghost use Rattle.pv_ckpt.specs.Armed.{Holds};
ghost use Rattle.pv_moored.specs.Opening.{HasOpened};

use pv_base::{MAX_JOURNAL, NoMemory};
use pv_ckpt::{CkptLog, OpenCkpt, armed_logs, format, formatted_logs};
use pv_disk::{DiskError, MemDisk};
use std::alloc::Global;

/// What came of opening a log.
#[derive(Drop)]
pub enum Opened {
    /// It is open.
    Up(CkptLog<MemDisk>),
    /// The sync with which an opening begins fired.
    Broke {
        /// The disk, on which nothing is armed any more.
        disk: MemDisk,
        /// Whether what fired stands for a stop, and not for a fault of the disk.
        stops: bool,
    },
}

/// A disk in memory with an empty log, on which nothing is armed.
pub fn formatted(alloc: Global) -> Result<MemDisk, NoMemory>
    ensures { IfOk result (Holds [] first_standing None None) }
{
    formatted_logs();
    let mut disk = MemDisk::new(alloc);
    match format(&mut disk) {
        Ok(()) => Ok(disk),
        Err(DiskError::NoMemory) => Err(NoMemory),
        // Nothing is armed, so this doesn't come; no contract of a disk says so.
        Err(DiskError::Failed) => Err(NoMemory),
    }
}

/// Opens the log on a disk in memory, within the greatest limit. It makes one sync and then reads, in time in proportion to the contents.
pub fn open_log(alloc: Global, disk: MemDisk) -> Result<Opened, NoMemory>
    requires { (contents : Contents) × (standing : Standing) × (armed : Option Arm) × Holds contents standing armed None disk }
    ensures { (contents : Contents) (standing : Standing) (armed : Option Arm) → Holds contents standing armed None disk →
        IfOk result (HasOpened contents standing armed) }
{
    armed_logs();
    match CkptLog::open(alloc, disk, MAX_JOURNAL) {
        Ok(log) => Ok(Opened::Up(log)),
        Err(OpenCkpt::Failed(failed)) => {
            let (disk, stops) = mended(failed)?;
            Ok(Opened::Broke { disk, stops })
        }
        Err(OpenCkpt::NoMemory(_)) => Err(NoMemory),
        // The disk holds a log.
        Err(OpenCkpt::NotOurs(..)) => unreachable!(),
    }
}

/// The disk on which a write or a sync fired, once nothing is armed there any more, and whether what fired stands for a stop.
pub fn mended(disk: MemDisk) -> Result<(MemDisk, bool), NoMemory>
    ensures { (contents : Contents) (standing : Standing) (armed : Option Arm) (fired : Option Bool) → Holds contents standing armed fired disk →
        IfOk result (λ made. (fired ≡ Some made.1) × Holds contents standing None None made.0) }
{
    // A disk in memory fails where a write or a sync fires, and nowhere else.
    let Some(stops) = disk.fired() else {
        return Err(NoMemory);
    };
    let mut disk = disk;
    disk.mend();
    Ok((disk, stops))
}
