// The sites of a catalog, launched over the disks of a bay.
ghost use Rattle.std.specs.Prelude.{◌≡◌, ℕ, ◌<◌, ◌≤◌, true, false, length};
ghost use Rattle.pv_base.specs.declared.limits.TheConstants.{MAX_SITES};
ghost use Rattle.pv_launch.specs.Launching.{AreBack, Brings, Launches, TakesAll};

use crate::NotLaunched;
use crate::beginning::ask_and_begin;
use crate::given_up::GivenUp;
use pv_base::{Catalog, SiteId};
use pv_ckpt::CkptLog;
use pv_disk::{Bay, BayError};
use pv_site::Site;
use std::alloc::Global;

/// The sites of the catalog, in order, each started on the disk that the bay hands out for it, which has to be empty.
///
/// All disks are taken first, then each is asked for its length, and only then is one of them changed. Where the sites aren't launched each disk that was taken
/// is handed back: with no promise and no outcome on it if it was empty, and as it was if it wasn't and no call of it failed. Takes time in proportion to the sites times the catalog.
///
/// - [`NotLaunched::NotEmpty`]: a disk isn't empty. Nothing was written to any.
/// - [`NotLaunched::BayFault`]: the bay failed to hand a disk out, and counted that. Nothing was written to any.
/// - [`NotLaunched::DiskFault`]: a disk failed, and the bay counts that for its site.
/// - [`NotLaunched::Misread`]: a disk read back other bytes than were written. Such a disk doesn't tell what it holds.
/// - [`NotLaunched::NoMemory`]: there was no memory. A disk that isn't empty is as it was.
pub fn launch<B: Bay>(
    alloc: Global,
    catalog: &Catalog,
    bay: &mut B,
) -> Result<Vec<Site<CkptLog<B::D>>>, NotLaunched>
    requires rest { (n : ℕ) → n < catalog.now.sites → (B.model.berth bay.old n).is_out ≡ false }
    ensures { Launches B.model B.D.model catalog.now bay.old bay.new result }
{
    match brought(alloc, catalog, bay) {
        Ok(sites) => Ok(sites),
        Err(GivenUp { disks, why }) => {
            back_all(disks, bay);
            Err(why)
        }
    }
}

// The sites, or the disks that are to go back.
fn brought<B: Bay>(
    alloc: Global,
    catalog: &Catalog,
    bay: &mut B,
) -> Result<Vec<Site<CkptLog<B::D>>>, GivenUp<B::D>>
    requires rest { (n : ℕ) → n < catalog.now.sites → (B.model.berth bay.old n).is_out ≡ false }
    ensures brings { Brings B.model B.D.model catalog.now bay.old bay.new result }
    ensures few { catalog.now.sites ≤ MAX_SITES }
{
    match take_all(alloc, catalog.sites(), bay) {
        Ok(disks) => ask_and_begin(alloc, catalog, disks),
        Err(given_up) => Err(given_up),
    }
}

// All disks of the first sites, so many as these, in order.
fn take_all<B: Bay>(alloc: Global, count: u8, bay: &mut B) -> Result<Vec<B::D>, GivenUp<B::D>>
    requires rest { (n : ℕ) → n < count → (B.model.berth bay.old n).is_out ≡ false }
    ensures { TakesAll B.model B.D.model count bay.old bay.new result }
{
    let Ok(mut disks) = Vec::with_capacity(alloc, usize::from(count)) else {
        return Err(GivenUp {
            disks: Vec::new(alloc),
            why: NotLaunched::NoMemory,
        });
    };
    for site in 0..count {
        match bay.disk(SiteId(site)) {
            Ok(disk) => disks.push_reserved(disk),
            Err(BayError::Failed) => {
                return Err(GivenUp {
                    disks,
                    why: NotLaunched::BayFault,
                });
            }
            Err(BayError::NoMemory) => {
                return Err(GivenUp {
                    disks,
                    why: NotLaunched::NoMemory,
                });
            }
        }
    }
    Ok(disks)
}

// The disks of the first sites go back, in whatever state they are.
fn back_all<B: Bay>(disks: Vec<B::D>, bay: &mut B)
    requires few { length disks.items ≤ MAX_SITES }
    requires out { (n : ℕ) → n < length disks.items → (B.model.berth bay.old n).is_out ≡ true }
    ensures { AreBack B.model B.D.model bay.old bay.new disks.items }
{
    let mut disks = disks;
    while let Some(disk) = disks.pop() {
        bay.back(SiteId(disks.len() as u8), disk);
    }
}
