// A site that has a disk, in a bay in memory.
ghost use Rattle.std.specs.Prelude.{◌≡◌, true, false};
ghost use Rattle.pv_disk.specs.MemBay.{first_berth, handed_back};

use crate::MemDisk;
use std::marker::Model;
use std::snapshot::Snapshot;

/// A site that has a disk.
#[derive(Drop)]
pub(crate) struct Berth {
    /// The disk, while it isn't out. Its count is 0.
    disk: Option<MemDisk>,
    /// The disk as it was handed back last, or the first one, for the proof.
    last: Snapshot<MemDisk>,
    /// How many disks were handed back of which a call had failed, up to u64's greatest value.
    faults: u64,
}

impl Model for Berth {
    ghost use Rattle.std.specs.Prelude.{◌≡◌, is_none, IfSome};
    ghost use Rattle.pv_disk.specs.MemBay.{MemBerth};

    ghost Value = { MemBerth };

    ghost view = { λ s. record { is_out = is_none s.disk; faults = s.faults; last = s.last.value } };

    ghost invariant = { λ s. IfSome s.disk (λ disk. (disk ≡ s.last.value) × (disk.faults ≡ 0)) };
}

impl Berth {
    /// A site with its first disk.
    pub(crate) fn new(disk: MemDisk) -> Self
        requires { disk.faults ≡ 0 }
        ensures { result ≡ first_berth disk }
    {
        Berth {
            last: Snapshot::of(&disk),
            disk: Some(disk),
            faults: 0,
        }
    }

    /// Hands out the disk.
    pub(crate) fn hand_out(&mut self) -> MemDisk
        requires { self.old.is_out ≡ false }
        ensures disk { result ≡ self.old.last }
        ensures unfailed { result.faults ≡ 0 }
        ensures out { self.new ≡ record self.old { is_out = true } }
    {
        self.disk.take().unwrap()
    }

    /// Takes a disk back.
    pub(crate) fn take_back(&mut self, disk: MemDisk)
        ensures { self.new ≡ handed_back self.old disk }
    {
        let mut disk = disk;
        if disk.faults() > 0 {
            self.faults = self.faults.saturating_add(1);
            disk.forget_faults();
        }
        self.last = Snapshot::of(&disk);
        self.disk = Some(disk);
    }
}
