// The sites of all disks, started.
ghost use Rattle.std.specs.Prelude.{◌≡◌, ◌+◌, ◌≤◌, ◌∷◌, ◌++◌, All, length, map, reverse, vec_capacity};
ghost use Rattle.pv_base.specs.declared.limits.TheConstants.{MAX_SITES};
ghost use Rattle.pv_launch.specs.Disks.{BeginsAll, IsEmpty, disk_in, disk_of, why_for};

use crate::asking::ask_all;
use crate::given_up::GivenUp;
use crate::{NotLaunched, NotStarted, start};
use pv_base::{Catalog, SiteId};
use pv_ckpt::CkptLog;
use pv_disk::Disk;
use pv_site::Site;
use std::alloc::Global;

/// The sites of the catalog, in order, each started on its disk. Each disk is asked first whether it is empty, and none is changed before all are.
pub(crate) fn ask_and_begin<D: Disk>(
    alloc: Global,
    catalog: &Catalog,
    disks: Vec<D>,
) -> Result<Vec<Site<CkptLog<D>>>, GivenUp<D>>
    requires few { length disks.items ≤ MAX_SITES }
    requires count { length disks.items ≡ catalog.now.sites }
    ensures { BeginsAll D.model catalog.now disks.items result }
{
    match ask_all(alloc, disks) {
        Ok(disks) => begin_all(alloc, catalog, disks),
        Err(given_up) => Err(given_up),
    }
}

// The same where each disk is empty.
fn begin_all<D: Disk>(
    alloc: Global,
    catalog: &Catalog,
    disks: Vec<D>,
) -> Result<Vec<Site<CkptLog<D>>>, GivenUp<D>>
    requires few { length disks.items ≤ MAX_SITES }
    requires count { length disks.items ≡ catalog.now.sites }
    requires empty { All (IsEmpty D.model) disks.items }
    ensures { BeginsAll D.model catalog.now disks.items result }
{
    let Ok(mut sites) = Vec::with_capacity(alloc, disks.len()) else {
        return Err(GivenUp {
            disks,
            why: NotLaunched::NoMemory,
        });
    };
    let mut disks = disks;
    while let Some(disk) = disks.pop() {
        let number = SiteId(disks.len() as u8);
        match start(alloc, disk, number, catalog) {
            Ok(site) => sites.push_reserved(site),
            Err(why) => return Err(given_up(disks, number, why, sites)),
        }
    }
    sites.reverse();
    Ok(sites)
}

// All disks, where the site of this number wasn't started: those behind it are closed. It wants no memory.
fn given_up<D: Disk>(
    disks: Vec<D>,
    number: SiteId,
    why: NotStarted<D>,
    sites: Vec<Site<CkptLog<D>>>,
) -> GivenUp<D>
    requires room { length disks.items + 1 + length sites.items ≤ vec_capacity disks }
    ensures disks { result.disks.items ≡ disks.items ++ (disk_in why ∷ map disk_of (reverse sites.items)) }
    ensures why { result.why ≡ why_for number why }
{
    let (disk, why) = told(number, why);
    GivenUp {
        disks: closed(disks, disk, sites),
        why,
    }
}

// The disk that comes back, and what is told of it.
fn told<D: Disk>(number: SiteId, why: NotStarted<D>) -> (D, NotLaunched)
    ensures { (result.0 ≡ disk_in why) × (result.1 ≡ why_for number why) }
{
    match why {
        NotStarted::Failed(disk) => (disk, NotLaunched::DiskFault(number)),
        NotStarted::Misread(disk) => (disk, NotLaunched::Misread(number)),
        NotStarted::NoMemory(disk) => (disk, NotLaunched::NoMemory),
    }
}

// These disks, this one, and those of the sites, the last of them first.
fn closed<D: Disk>(disks: Vec<D>, disk: D, sites: Vec<Site<CkptLog<D>>>) -> Vec<D>
    requires room { length disks.items + 1 + length sites.items ≤ vec_capacity disks }
    ensures { result.items ≡ disks.items ++ (disk ∷ map disk_of (reverse sites.items)) }
{
    let mut disks = disks;
    let mut sites = sites;
    disks.push_reserved(disk);
    while let Some(site) = sites.pop() {
        disks.push_reserved(site.close().close());
    }
    disks
}
