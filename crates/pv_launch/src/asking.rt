// Whether the disks of all sites are empty.
ghost use Rattle.std.specs.Prelude.{◌≡◌, ◌+◌, ◌≤◌, ◌∷◌, ◌++◌, length, reverse, vec_capacity};
ghost use Rattle.pv_base.specs.Catalog.{Declared};
ghost use Rattle.pv_base.specs.declared.limits.TheConstants.{MAX_SITES};
ghost use Rattle.pv_launch.specs.Disks.{AsksAll};

use crate::NotLaunched;
use crate::given_up::GivenUp;
use pv_base::SiteId;
use pv_disk::Disk;
use std::alloc::Global;

/// The disks, in the order of their sites, when each was asked for its length, and that was 0. Nothing is written to any.
pub(crate) fn ask_all<D: Disk>(alloc: Global, disks: Vec<D>) -> Result<Vec<D>, GivenUp<D>>
    requires few { length disks.items ≤ MAX_SITES }
    ensures { (catalog : Declared) → AsksAll D.model catalog disks.items result }
{
    let Ok(mut asked) = Vec::with_capacity(alloc, disks.len()) else {
        return Err(GivenUp {
            disks,
            why: NotLaunched::NoMemory,
        });
    };
    let mut disks = disks;
    while let Some(disk) = disks.pop() {
        let site = SiteId(disks.len() as u8);
        let mut disk = disk;
        let Ok(length) = disk.len() else {
            return Err(GivenUp {
                disks: rejoined(disks, disk, asked),
                why: NotLaunched::DiskFault(site),
            });
        };
        let empty = length == 0;
        if !empty {
            return Err(GivenUp {
                disks: rejoined(disks, disk, asked),
                why: NotLaunched::NotEmpty(site),
            });
        }
        asked.push_reserved(disk);
    }
    asked.reverse();
    Ok(asked)
}

// The disks that weren't asked, the one that was asked last, and those that were before it, the last of them first. It wants no memory.
fn rejoined<D: Disk>(disks: Vec<D>, disk: D, asked: Vec<D>) -> Vec<D>
    requires room { length disks.items + 1 + length asked.items ≤ vec_capacity disks }
    ensures { result.items ≡ disks.items ++ (disk ∷ reverse asked.items) }
{
    let mut disks = disks;
    let mut asked = asked;
    disks.push_reserved(disk);
    while let Some(disk) = asked.pop() {
        disks.push_reserved(disk);
    }
    disks
}
