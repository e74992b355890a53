// What there is to do on the disk of a site.
ghost use Rattle.std.specs.Prelude.{◌≡◌, ℕ, List, IfOk};
ghost use Rattle.pv_disk_model.specs.Size.{Contents};
ghost use Rattle.pv_law_checkpoints.specs.TwoAreas.{IsTwoAreas};
ghost use Rattle.pv_replay.specs.Values.{contents_of};
ghost use Rattle.pv_upgrade.specs.Finding.{Finds, IsFound, IsQuiet};

use crate::contents::{Renewed, renew_all};
use crate::told::Upgrade;
use pv_base::NoMemory;
use pv_ckpt::look;
use pv_disk::{Disk, LookError};
use pv_replay::{ReplayError, replay};
use std::alloc::Global;

/// What there is to do for a log.
#[derive(Drop)]
pub(crate) enum Found {
    /// Nothing, and this is what comes of it.
    Done(Upgrade),
    /// Old spellings stand in it, and these contents are to replace all.
    Old(Renewed),
}

/// The contents of the log on a disk, where a crash leaves them. Nothing is written.
///
/// - [`LookError::Failed`]: the disk failed, and counted the fault.
/// - [`LookError::NotOurs`]: the disk holds no log in two areas, which shows at that place.
/// - [`LookError::NoMemory`]: there was no memory.
pub(crate) fn settled_contents<D: Disk>(
    alloc: Global,
    disk: &mut D,
) -> Result<Vec<Vec<u8>>, LookError>
    ensures { Finds D.model disk.old disk.new result }
{
    if disk.sync().is_err() {
        return Err(LookError::Failed);
    }
    look(alloc, disk)
}

/// What there is to do for a log with these contents, which may have this length at most.
pub(crate) fn found_in(alloc: Global, contents: Vec<Vec<u8>>, limit: u64) -> Result<Found, NoMemory>
    ensures quiet { IfOk result (IsQuiet limit) }
    ensures found { IfOk result (λ found. (was : List ℕ) → IsTwoAreas (contents_of contents.items) was → IsFound limit was found) }
{
    match replay(alloc, &contents) {
        Ok(_) => {}
        Err(ReplayError::BadRecord(index)) => return Ok(Found::Done(Upgrade::BadRecord(index))),
        Err(ReplayError::NoMemory) => return Err(NoMemory),
    }
    let renewed = renew_all(alloc, contents)?;
    if renewed.count == 0 {
        return Ok(Found::Done(Upgrade::Upgraded(0)));
    }
    if renewed.length > limit {
        return Ok(Found::Done(Upgrade::Full(renewed.length)));
    }
    Ok(Found::Old(renewed))
}
