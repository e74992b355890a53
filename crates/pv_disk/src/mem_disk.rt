// A disk in memory, whose calls fail where that is asked for.
ghost use Rattle.std.specs.Prelude.{◌≡◌, ◌≤◌, ◌+◌, ℕ, List, Some, None, [], length, take, drop, is_ok, vec_len, IfOk, OnOk, OnErr};
ghost use Rattle.pv_base.specs.declared.limits.TheConstants.{MAX_LENGTH};
ghost use Rattle.pv_disk_model.specs.Calls.{len, read, make_room, write, sync};
ghost use Rattle.pv_disk_model.specs.Disk.{overlaid, Observes, Writes, Syncs};
ghost use Rattle.pv_disk.specs.DiskAnswers.{ReservesOnDisk};
ghost use Rattle.pv_base.specs.Fault.{risen};
ghost use Rattle.pv_disk.specs.MemImage.{settled_at};
ghost use Rattle.pv_disk.specs.MemDisk.{MemState, MemGoes};
ghost use Rattle.pv_disk.specs.MemLaws.{mem_model};

use crate::arms::Arms;
use crate::image::Image;
use crate::{Disk, DiskError};
use pv_base::{Failed, Mode};
use std::alloc::Global;
use std::marker::Model;

/// A disk in memory. What it holds is known.
///
/// A write costs its bytes. A sync costs nothing that grows with the disk or its writes, and wants no memory; a write or a
/// sync that fires costs the bytes written since the last sync. The disk keeps a record of 32 bytes for each write that was ever made, and
/// what the writes since the last sync wrote over.
#[derive(Drop)]
pub struct MemDisk {
    /// What it holds, and what a crash may leave.
    image: Image,
    /// Which calls fail.
    arms: Arms,
    /// How many calls have failed, up to u64's greatest value.
    faults: u64,
}

impl Model for MemDisk {
    ghost use Rattle.pv_disk.specs.MemDisk.{MemState};

    ghost Value = { MemState };

    ghost view = { λ s. record { image = s.image; arms = s.arms; faults = s.faults } };
}

impl MemDisk {
    /// An empty disk. No call fails.
    pub fn new(alloc: Global) -> Self
        ensures content { result.image.content ≡ [] }
        ensures now { result.image.now ≡ settled_at [] }
        ensures arms { result.arms ≡ record { armed = None; fired = None; fail_read = None; calls = 0 } }
        ensures faults { result.faults ≡ 0 }
    {
        MemDisk::of(alloc, Vec::new(alloc))
    }

    /// A disk that holds these bytes, of which there are at most [`MAX_LENGTH`](pv_base::MAX_LENGTH), synced. No call fails.
    pub fn of(alloc: Global, bytes: Vec<u8>) -> Self
        requires { vec_len bytes ≤ MAX_LENGTH }
        ensures content { result.image.content ≡ bytes.items }
        ensures now { result.image.now ≡ settled_at bytes.items }
        ensures arms { result.arms ≡ record { armed = None; fired = None; fail_read = None; calls = 0 } }
        ensures faults { result.faults ≡ 0 }
    {
        MemDisk {
            image: Image::new(alloc, bytes),
            arms: Arms::new(),
            faults: 0,
        }
    }

    /// Lets the `k`-th write or sync from now on, counted from 1, fire in place of one armed before: it answers `Failed`,
    /// which is counted, and leaves what the mode says, synced. It fires once. `stop` is what [`MemDisk::fired`] then answers.
    pub fn arm(&mut self, k: u32, mode: Mode, stop: bool)
        requires { 1 ≤ k }
        ensures { self.new ≡ record self.old { arms = record self.old.arms { armed = Some (record { left = k; mode = mode; stop = stop }); fired = None } } }
    {
        self.arms.arm(k, mode, stop);
    }

    /// Lets no write and no sync fire.
    pub fn mend(&mut self)
        ensures { self.new ≡ record self.old { arms = record self.old.arms { armed = None; fired = None } } }
    {
        self.arms.mend();
    }

    /// Lets the `n`-th call of `read_at` from now on, counted from 0, answer `Failed`, which is counted; an earlier call of `fail_read` that
    /// hasn't taken effect yet has none any more.
    pub fn fail_read(&mut self, n: u64)
        ensures { self.new ≡ record self.old { arms = record self.old.arms { fail_read = Some n } } }
    {
        self.arms.fail_read(n);
    }

    /// The `stop` of the write or sync that has fired since the last `arm` or `mend`, if one has.
    pub fn fired(&self) -> Option<bool>
        ensures { result ≡ self.now.arms.fired }
    {
        self.arms.fired()
    }

    /// How many calls have failed.
    pub fn faults(&self) -> u64
        ensures { result ≡ self.now.faults }
    {
        self.faults
    }

    /// Counts the calls that fail from 0 again.
    pub(crate) fn forget_faults(&mut self)
        ensures { self.new ≡ record self.old { faults = 0 } }
    {
        self.faults = 0;
    }

    /// How many writes and syncs were called since the disk was made, up to u64's greatest value.
    pub fn calls(&self) -> u64
        ensures { result ≡ self.now.arms.calls }
    {
        self.arms.calls()
    }
}

impl Disk for MemDisk {
    ghost model = { mem_model };

    fn len(&mut self) -> Result<u64, Failed> {
        Ok(self.image.bytes().len() as u64)
    }

    fn read_at(&mut self, place: u64, into: &mut [u8]) -> Result<(), Failed> {
        if self.arms.count_read() {
            self.faults = self.faults.saturating_add(1);
            return Err(Failed);
        }
        let place = place as usize;
        into.copy_from_slice(&self.image.bytes()[place..place + into.len()]);
        Ok(())
    }

    fn reserve(&mut self, bytes: u64, writes: u32) -> Result<(), DiskError> {
        self.image.reserve(bytes as usize, writes as usize)?;
        Ok(())
    }

    fn write_at(&mut self, place: u64, bytes: &[u8]) -> Result<(), Failed> {
        let fires = self.arms.count_change();
        self.image.write(place as usize, bytes);
        let Some(mode) = fires else {
            return Ok(());
        };
        self.image.crash(mode);
        self.faults = self.faults.saturating_add(1);
        Err(Failed)
    }

    fn sync(&mut self) -> Result<(), Failed> {
        let Some(mode) = self.arms.count_change() else {
            self.image.sync();
            return Ok(());
        };
        self.image.crash(mode);
        self.faults = self.faults.saturating_add(1);
        Err(Failed)
    }
}
