// A disk: bytes that reads give, and what a crash at any moment leaves of them.
ghost use Rattle.std.specs.Prelude.{◌≡◌, ℕ, ◌+◌, ◌≤◌, List, Some, length, take, drop, is_ok, IfOk, OnOk};
ghost use Rattle.pv_base.specs.declared.limits.TheConstants.{MAX_LENGTH, MAX_WRITE_END};
ghost use Rattle.pv_disk_model.specs.Calls.{len, read, make_room, write, sync};
ghost use Rattle.pv_disk_model.specs.DiskModel.{DiskModel};
ghost use Rattle.pv_disk_model.specs.Disk.{GivesBy, GivesNothing, Observes, Writes, Syncs};
ghost use Rattle.pv_disk.specs.DiskAnswers.{ReservesOnDisk};

use crate::DiskError;
use pv_base::Failed;

/// Bytes at places from 0 to a length that grows, but where a call fails.
///
/// Between two syncs each range that was written, and the part past the old end, may hold any bytes after a crash; other
/// bytes stay. After a sync that succeeds a crash leaves what reads give. After a call that failed, reads give one of the
/// contents that a crash might have left.
///
/// What a disk holds may be known, which is for the proof alone: whether it is is fixed when the disk is made. What is said of
/// its content holds where it is known; all else holds of every disk. Where it isn't known, the bytes are that the reads have given, one after another.
pub trait Disk: Drop {
    /// The disk as the clauses below see it: what it holds, what a crash may leave of it, and for what it has room.
    ghost model: { DiskModel Self };

    /// The length in bytes, at most [`MAX_LENGTH`](pv_base::MAX_LENGTH).
    fn len(&mut self) -> Result<u64, Failed>
        ensures len { IfOk result (λ n. (held : List ℕ) → model.content self.old ≡ Some held → n ≡ length held) }
        ensures bound { IfOk result (λ n. n ≤ MAX_LENGTH) }
        ensures effect { Observes model self.old self.new result }
        ensures goes { model.goes self.old len (is_ok result) self.new }
        ensures gives { GivesNothing model self.old self.new };

    /// Fills `into` with the bytes from this place on. They have to end within the disk's length. After a fault it holds any
    /// bytes.
    fn read_at(&mut self, place: u64, into: &mut [u8]) -> Result<(), Failed>
        requires { (held : List ℕ) → model.content self.old ≡ Some held → place + length into.old ≤ length held }
        ensures bytes { OnOk result ((held : List ℕ) → model.content self.old ≡ Some held → into.new ≡ take (length into.old) (drop place held)) }
        ensures effect { Observes model self.old self.new result }
        ensures goes { model.goes self.old (read place (length into.old)) (is_ok result) self.new }
        ensures gives { GivesBy model self.old self.new into.new result };

    /// Makes room for so many writes of so many bytes together, beside what earlier writes have used of earlier room.
    ///
    /// - [`DiskError::Failed`], [`DiskError::NoMemory`]: as they say.
    fn reserve(&mut self, bytes: u64, writes: u32) -> Result<(), DiskError>
        ensures effect { ReservesOnDisk model self.old self.new bytes writes result }
        ensures goes { model.goes self.old (make_room bytes writes) (is_ok result) self.new }
        ensures gives { GivesNothing model self.old self.new };

    /// Writes these bytes at a place that is at most the length, in room that `reserve` made. They end at
    /// [`MAX_WRITE_END`](pv_base::MAX_WRITE_END) at most.
    fn write_at(&mut self, place: u64, bytes: &[u8]) -> Result<(), Failed>
        requires within { (held : List ℕ) → model.content self.old ≡ Some held → place ≤ length held }
        requires end { place + length bytes.now ≤ MAX_WRITE_END }
        requires room { length bytes.now ≤ model.room self.old }
        requires writes { 1 ≤ model.writes self.old }
        ensures effect { Writes model self.old self.new place bytes.now result }
        ensures goes { model.goes self.old (write place bytes.now) (is_ok result) self.new }
        ensures gives { GivesNothing model self.old self.new };

    /// Puts all that was written where a crash leaves it. It wants no memory.
    fn sync(&mut self) -> Result<(), Failed>
        ensures effect { Syncs model self.old self.new result }
        ensures goes { model.goes self.old sync (is_ok result) self.new }
        ensures gives { GivesNothing model self.old self.new };
}
