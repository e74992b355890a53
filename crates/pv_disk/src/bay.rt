// Where disks come from that are looked at, and where the disks go that runs have left.
ghost use Rattle.std.specs.Prelude.{◌≡◌, ◌<◌, true, false};
ghost use Rattle.pv_base.specs.declared.limits.TheConstants.{MAX_SITES};
ghost use Rattle.pv_disk.specs.BayModel.{BayModel};
ghost use Rattle.pv_disk.specs.BayAnswers.{Asks, TakesBack, KeepsDisk};

use crate::{BayError, Disk, MemDisk};
use pv_base::SiteId;

/// The outside that holds the disks of sites: it hands out the disk of a site, to be looked at, and takes it back; and it is given the disk in memory
/// that a run has left of a site, which it may keep.
///
/// What the disks hold may be known, which is for the proof alone: whether it is is fixed when the bay is made.
pub trait Bay {
    /// The disks that it hands out.
    type D: Disk;

    /// The bay as the clauses below see it: what it says of each site, and how often it failed.
    ghost model: { BayModel Self };

    /// Hands out the disk of a site, which isn't out. No call of the disk has failed, as its count says. It reads what the disk handed back last did, or,
    /// before one was, the first one.
    ///
    /// - [`BayError::Failed`]: the bay failed, and counted that. No disk is out; on a folder an empty file may have been made.
    /// - [`BayError::NoMemory`]: as it says. Nothing changed.
    fn disk(&mut self, site: SiteId) -> Result<Self::D, BayError>
        requires { (model.berth self.old site.0).is_out ≡ false }
        ensures effect { Asks model Self.D.model self.old self.new site.0 result };

    /// Takes back the disk of a site, which is out. The bay's count of the site rises exactly where a call of the disk has failed. It wants no memory.
    fn back(&mut self, site: SiteId, disk: Self::D)
        requires { (model.berth self.old site.0).is_out ≡ true }
        ensures effect { TakesBack model Self.D.model self.old self.new site.0 disk };

    /// Takes the disk in memory that a run has left of a site below [`MAX_SITES`](pv_base::MAX_SITES), to keep it in place of an earlier one or to drop it.
    /// It wants no memory, and changes nothing that `disk` and `back` speak of.
    fn keep(&mut self, site: SiteId, disk: MemDisk)
        requires { site.0 < MAX_SITES }
        ensures effect { KeepsDisk model self.old self.new site.0 disk.image.content };
}
