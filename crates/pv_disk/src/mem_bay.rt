// A bay in memory.
ghost use Rattle.std.specs.Prelude.{◌≡◌, ◌≤◌, ◌<◌, ◌↔◌, true, false, None, Some, All, map, replicate, length, slice_get, slice_set, unwrap_or, option_map, IfOk, IfErr, OnErr, IsErr};
ghost use Rattle.pv_base.specs.Fault.{risen};
ghost use Rattle.pv_base.specs.declared.limits.TheConstants.{MAX_SITES};
ghost use Rattle.pv_disk.specs.BayAnswers.{Asks, TakesBack, KeepsDisk};
ghost use Rattle.pv_disk.specs.declared.bay_error.BayError.TheVariants.{Failed};
ghost use Rattle.pv_disk.specs.MemBay.{MemBerth, first_berth, handed_back, mem_bay};
ghost use Rattle.pv_disk.specs.MemLaws.{mem_model};

use crate::berth::Berth;
use crate::{Bay, BayError, MemDisk};
use pv_base::SiteId;
use std::alloc::AllocFailed;
use std::marker::Model;

/// A bay in memory, which has a disk for each site up to some number. What its disks hold is known.
#[derive(Drop)]
pub struct MemBay {
    /// The sites that have a disk, from site 0 on.
    berths: Vec<Berth>,
    /// The disk that is kept for each site.
    kept: [Option<MemDisk>; 16],
    /// How often a disk was asked for that isn't there, up to u64's greatest value.
    faults: u64,
}

impl Model for MemBay {
    ghost use Rattle.pv_disk.specs.MemBay.{MemBayState};

    ghost Value = { MemBayState };

    ghost view = { λ s. record { berths = s.berths.items; kept = s.kept; faults = s.faults } };
}

impl MemBay {
    /// A bay with these disks, of which no call has failed, in the order of their sites. It keeps none. Where it finds no memory, the disks come back.
    pub fn new(disks: Vec<MemDisk>) -> Result<Self, AllocFailed<Vec<MemDisk>>>
        requires { All (λ disk. disk.faults ≡ 0) disks.items }
        ensures bay { IfOk result (λ bay. bay ≡ record { berths = map first_berth disks.items; kept = replicate 16 None; faults = 0 }) }
        ensures back { IfErr result (λ failed. failed.value ≡ disks) }
    {
        let Ok(mut berths) = Vec::with_capacity(*disks.allocator(), disks.len()) else {
            return Err(AllocFailed { value: disks });
        };
        for disk in disks {
            berths.push_reserved(Berth::new(disk));
        }
        Ok(MemBay {
            berths,
            kept: [
                None, None, None, None, None, None, None, None, None, None, None, None, None, None,
                None, None,
            ],
            faults: 0,
        })
    }

    /// Takes out the disk that is kept for a site, if one is. It wants no memory.
    pub fn kept(&mut self, site: SiteId) -> Option<MemDisk>
        ensures disk { result ≡ unwrap_or (slice_get self.old.kept site.0) None }
        ensures gone { self.new ≡ record self.old { kept = slice_set self.old.kept site.0 None } }
    {
        take_at(&mut self.kept, site.0 as usize)
    }
}

impl Bay for MemBay {
    type D = MemDisk;

    ghost model = { mem_bay };

    /// For a site past the bay's disks it answers [`BayError::Failed`], and only for such a one. There is no other error.
    fn disk(&mut self, site: SiteId) -> Result<MemDisk, BayError>
        requires { (mem_bay.berth self.old site.0).is_out ≡ false }
        ensures effect { Asks mem_bay mem_model self.old self.new site.0 result }
        ensures past { IsErr result ↔ (length self.old.berths ≤ site.0) }
        ensures disk { IfOk result (λ disk. option_map (λ berth. berth.last) (slice_get self.old.berths site.0) ≡ Some disk) }
        ensures whole { IfOk result (λ _. (berth : MemBerth) → slice_get self.old.berths site.0 ≡ Some berth →
            self.new ≡ record self.old { berths = slice_set self.old.berths site.0 (record berth { is_out = true }) }) }
        ensures kind { IfErr result (λ error. error ≡ Failed) }
        ensures failed { OnErr result (self.new ≡ record self.old { faults = risen self.old.faults }) }
    {
        let at = site.0 as usize;
        if at >= self.berths.len() {
            self.faults = self.faults.saturating_add(1);
            return Err(BayError::Failed);
        }
        Ok(self.berths[at].hand_out())
    }

    fn back(&mut self, site: SiteId, disk: MemDisk)
        requires { (mem_bay.berth self.old site.0).is_out ≡ true }
        ensures effect { TakesBack mem_bay mem_model self.old self.new site.0 disk }
        ensures whole { (berth : MemBerth) → slice_get self.old.berths site.0 ≡ Some berth → self.new ≡ record self.old { berths = slice_set self.old.berths site.0 (handed_back berth disk) } }
    {
        self.berths[site.0 as usize].take_back(disk);
    }

    fn keep(&mut self, site: SiteId, disk: MemDisk)
        requires { site.0 < MAX_SITES }
        ensures effect { KeepsDisk mem_bay self.old self.new site.0 disk.image.content }
        ensures whole { self.new ≡ record self.old { kept = slice_set self.old.kept site.0 (Some disk) } }
    {
        self.kept[site.0 as usize] = Some(disk);
    }
}

// Takes out the disk at this place, if there is one.
fn take_at(kept: &mut [Option<MemDisk>], at: usize) -> Option<MemDisk>
    ensures disk { result ≡ unwrap_or (slice_get kept.old at) None }
    ensures gone { kept.new ≡ slice_set kept.old at None }
{
    if at >= kept.len() {
        return None;
    }
    kept[at].take()
}
