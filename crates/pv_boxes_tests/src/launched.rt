// Boxes over four disks in memory.
ghost use Rattle.std.specs.Prelude.{◌≡◌, ℕ, false, IfOk};
ghost use Rattle.pv_disk.specs.MemBay.{mem_bay};
ghost use Rattle.pv_opening.specs.Opening.{IsRead};

use crate::driven::{Driven, drive_boxes};
use pv_ckpt::CkptLog;
use pv_disk::{MemBay, MemDisk};
use pv_launch::launch;
use pv_script::LiveScript;
use std::alloc::Global;
use std::test::Fail;

// A bay with four empty disks.
fn bay_of(alloc: Global) -> Result<MemBay, Fail>
    ensures { IfOk result (λ bay. (n : ℕ) → (mem_bay.berth bay n).is_out ≡ false) }
{
    let disks = vec![in alloc;
        MemDisk::new(alloc),
        MemDisk::new(alloc),
        MemDisk::new(alloc),
        MemDisk::new(alloc),
    ]?;
    let bay = MemBay::new(disks)?;
    Ok(bay)
}

/// What is left of the boxes of the script after so many visits and ticks, as they are drawn from this number on. The script has at most four sites.
pub(crate) fn launched(
    alloc: Global,
    script: &LiveScript,
    seed: u64,
    visits: u32,
) -> Result<Driven<CkptLog<MemDisk>>, Fail>
    requires { IsRead script.now }
{
    let mut bay = bay_of(alloc)?;
    match launch(alloc, &script.catalog, &mut bay) {
        Ok(sites) => Ok(drive_boxes(alloc, script, sites, seed, visits)?),
        Err(why) => Err(why.into()),
    }
}
