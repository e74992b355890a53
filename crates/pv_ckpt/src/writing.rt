// Writes that are synced, and the bytes of a root.
ghost use Rattle.std.specs.Prelude.{◌≡◌, ℕ, ◌+◌, ◌≤◌, List, Some, length, is_ok, IfOk};
ghost use Rattle.pv_base.specs.declared.limits.TheConstants.{MAX_WRITE_END};
ghost use Rattle.pv_disk_model.specs.Calls.{Makes};
ghost use Rattle.pv_law_checkpoints.specs.Roots.{fields_of};
ghost use Rattle.pv_ckpt.specs.Writing.{synced_write, WritesSynced};

use pv_base::{Failed, NoMemory};
use pv_bytes::Put;
use pv_disk::Disk;
use std::alloc::Global;

/// Writes these bytes at this place, and puts them where a crash leaves them.
pub(crate) fn write_synced<D: Disk>(disk: &mut D, place: u64, bytes: &[u8]) -> Result<(), Failed>
    requires within { (held : List ℕ) → D.model.content disk.old ≡ Some held → place ≤ length held }
    requires end { place + length bytes.now ≤ MAX_WRITE_END }
    requires room { length bytes.now ≤ D.model.room disk.old }
    requires writes { 1 ≤ D.model.writes disk.old }
    ensures effect { WritesSynced D.model disk.old disk.new place bytes.now result }
    ensures calls { Makes D.model.goes disk.old (synced_write place bytes.now) (is_ok result) disk.new }
{
    disk.write_at(place, bytes)?;
    disk.sync()
}

/// What follows the gate of a root: its number, and the place and the size of its block.
pub(crate) fn root_fields(
    alloc: Global,
    number: u64,
    place: u64,
    size: u64,
) -> Result<Vec<u8>, NoMemory>
    ensures { IfOk result (λ fields. fields.items ≡ fields_of number place size) }
{
    let mut fields = Put::with_room(alloc, 24)?;
    fields.u64(number)?;
    fields.u64(place)?;
    fields.u64(size)?;
    Ok(fields.done())
}
