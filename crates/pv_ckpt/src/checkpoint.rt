// Checkpoints: all contents written anew, packed, and put in force at one moment; and the switch to a block of any contents.
ghost use Rattle.std.specs.Prelude.{◌≡◌, ◌⊎◌, ◌==◌, false, ℕ, ◌+◌, ◌-◌, ◌<◌, ◌≤◌, ◌^◌, ◌++◌, ◌∷◌, [], List, Some, length, take, drop, is_ok, is_some, vec_len, vec_capacity, IfOk, OnOk, IsErrOf};
ghost use Rattle.pv_base.specs.declared.limits.TheConstants.{MAX_WRITE_END};
ghost use Rattle.pv_base.specs.Fault.{FaultCounted};
ghost use Rattle.pv_disk_model.specs.Calls.{make_room, Makes};
ghost use Rattle.pv_disk_model.specs.Size.{Contents};
ghost use Rattle.pv_disk.specs.DiskAnswers.{ReservesOnDisk};
ghost use Rattle.pv_format.specs.Journal.{framed, record_of};
ghost use Rattle.pv_law_calls.specs.Reading.{LooksBy};
ghost use Rattle.pv_law_checkpoints.specs.Roots.{gate_at, number_at, other_root, IsRoot};
ghost use Rattle.pv_format.specs.Checkpoint.{naming, storing};
ghost use Rattle.pv_law_checkpoints.specs.Stages.{free_place, greatest_length, writes};
ghost use Rattle.pv_law_checkpoints.specs.TwoAreas.{block_of};
ghost use Rattle.pv_ckpt.specs.Roots.{IsHeld};
ghost use Rattle.pv_ckpt.specs.Checkpointing.{Checkpoints, IsBlockFor, IsReadyFor, name_and_open_calls, store_and_close_calls, StoresAndCloses, Switches, SwitchesTo};
ghost use Rattle.pv_ckpt.specs.Packing.{IsMadeFor, IsPackedFrom};
ghost use Rattle.pv_ckpt.specs.CkptLog.{IsIntact};

use crate::roots::{BEHIND_ROOTS, LEAST, Root, other_root};
use crate::writing::{root_fields, write_synced};
use crate::{CkptError, CkptLog};
use pv_base::{Failed, NoMemory};
use pv_disk::{Disk, DiskError, LookError};
use pv_journal::{number_in, read_from};
use std::alloc::Global;

impl<D: Disk> CkptLog<D> {
    /// Writes all contents anew, packed, and switches to them at one moment. It drops none.
    ///
    /// The log has to be within its limit. The call makes eight writes and syncs, or six where the gate of the root that isn't in force isn't 1. At each moment of it a
    /// crash leaves the contents. Room that was made for an append is used up where the answer is `Ok` or [`CkptError::Failed`], and else stays.
    ///
    /// - [`CkptError::Failed`]: the log is down. The number in force, and whether the gate of the root that isn't in force is 1, are as before; or that gate isn't 1; or
    ///   both are as after a checkpoint that is done.
    /// - [`CkptError::Spent`]: exactly where the number in force is the greatest.
    /// - [`CkptError::Down`], [`CkptError::NoMemory`]: as they say.
    pub fn checkpoint(&mut self) -> Result<(), CkptError>
        requires intact { IsIntact D.model self.old }
        requires within { self.old.length ≤ self.old.limit }
        ensures effect { Checkpoints D.model self.old self.new result }
        ensures intact { IsIntact D.model self.new }
    {
        if self.down {
            return Err(CkptError::Down);
        }
        if self.root.number == u64::MAX {
            return Err(CkptError::Spent);
        }
        match read_packed(*self.frame.allocator(), &mut self.disk, self.root, self.end) {
            Ok(block) => {
                let length = self.length;
                self.switch_to(block, length)
            }
            Err(LookError::Failed) => {
                self.down = true;
                Err(CkptError::Failed)
            }
            Err(LookError::NotOurs(_)) => Err(CkptError::NoMemory),
            Err(LookError::NoMemory) => Err(CkptError::NoMemory),
        }
    }

    // Switches to this block, of contents with which a log is so long: it is written outside the area in force, and then the other root is closed, named anew and opened.
    pub(crate) fn switch_to(&mut self, block: Vec<u8>, length: u64) -> Result<(), CkptError>
        requires intact { IsIntact D.model self.old }
        requires up { self.old.down ≡ false }
        requires reach { self.old.length ≤ greatest_length }
        requires within { length ≤ self.old.limit }
        requires unspent { self.old.root.number < 2 ^ 64 - 1 }
        requires size { vec_len block + 9 ≤ length }
        requires contents { (given : Contents → Contents) × IsBlockFor D.model self.old given block.items length }
        ensures effect { (given : Contents → Contents) → IsBlockFor D.model self.old given block.items length
            → SwitchesTo D.model given self.old self.new block.items length result }
        ensures intact { IsIntact D.model self.new }
    {
        let packed = match make_ready(
            *self.frame.allocator(),
            &mut self.disk,
            self.root,
            self.end,
            block,
        ) {
            Ok(packed) => packed,
            Err(DiskError::Failed) => {
                self.down = true;
                return Err(CkptError::Failed);
            }
            Err(DiskError::NoMemory) => return Err(CkptError::NoMemory),
        };
        match write_parts(&mut self.disk, self.root.other_open, &packed) {
            Ok(()) => {
                self.root = packed.root;
                self.end = packed.root.place + packed.root.size;
                self.length = length;
                Ok(())
            }
            Err(_) => {
                self.down = true;
                Err(CkptError::Failed)
            }
        }
    }
}

/// What a checkpoint writes.
#[derive(Drop)]
struct Packed {
    /// The root that it puts in force.
    root: Root,
    /// Its block, with a closed gate behind it.
    block: Vec<u8>,
    /// What follows its gate.
    fields: Vec<u8>,
}

/// The block of all contents of the log whose root this is and whose area ends at that closed gate: the block as it is, and the records without their gates. It is the one
/// piece of memory that a checkpoint takes for contents, and is read into directly.
///
/// - [`LookError::NotOurs`]: a record goes past the end, which no disk shows that gives what it gave when the log was opened.
#[tactic(auto, using(pv_law_calls::proofs::LookLemmas::looking))]
fn read_packed<D: Disk>(
    alloc: Global,
    disk: &mut D,
    root: Root,
    end: u64,
) -> Result<Vec<u8>, LookError>
    requires within { (bytes : List ℕ) → D.model.content disk.old ≡ Some bytes → end < length bytes }
    requires packed { root.place + root.size ≤ end }
    requires bounded { end < 2 ^ 62 }
    ensures effect { LooksBy D.model disk.old disk.new result }
    ensures block { IfOk result (λ block. (bytes : List ℕ) (packed later : Contents) → D.model.content disk.old ≡ Some bytes → IsHeld bytes root end packed later
        → block.items ≡ block_of (packed ++ later)) }
    ensures size { IfOk result (λ block. root.place + vec_len block ≤ end) }
{
    let mut block = Vec::with_capacity(alloc, (end - root.place + 1) as usize)?;
    read_onto(disk, root.place, root.size as usize, &mut block)?;
    let mut place = root.place + root.size;
    while place < end {
        let count = framed_at(disk, place, end)?;
        read_onto(disk, place + 1, count as usize, &mut block)?;
        place += 1 + count;
    }
    Ok(block)
}

/// How many bytes stand behind the gate of the record at this place, in an area that ends there.
///
/// - [`LookError::NotOurs`]: they go past the end.
#[tactic(auto, using(pv_law_calls::proofs::LookLemmas::looking))]
fn framed_at<D: Disk>(disk: &mut D, place: u64, end: u64) -> Result<u64, LookError>
    requires within { (bytes : List ℕ) → D.model.content disk.old ≡ Some bytes → end < length bytes }
    requires before { place < end }
    requires bounded { end < 2 ^ 62 }
    ensures effect { LooksBy D.model disk.old disk.new result }
    ensures ends { IfOk result (λ count. place + (1 + count) ≤ end) }
    ensures count { IfOk result (λ count. (bytes content more : List ℕ) → D.model.content disk.old ≡ Some bytes → length content < 2 ^ 32
        → drop place bytes ≡ record_of content ++ more → count ≡ length (framed content)) }
{
    if end - place < 5 {
        return Err(LookError::NotOurs(place));
    }
    let mut number = [0; 4];
    read_from(disk, place + 1, &mut number)?;
    let count = 4 + u64::from(number_in(&number));
    if count > end - place - 1 {
        return Err(LookError::NotOurs(place));
    }
    Ok(count)
}

/// Reads so many bytes from this place on behind those that the block holds.
#[tactic(auto, using(pv_law_calls::proofs::LookLemmas::looking))]
fn read_onto<D: Disk>(
    disk: &mut D,
    place: u64,
    count: usize,
    block: &mut Vec<u8>,
) -> Result<(), LookError>
    requires within { (bytes : List ℕ) → D.model.content disk.old ≡ Some bytes → place + count ≤ length bytes }
    requires bounded { vec_len block.old + count < 2 ^ 63 }
    ensures effect { LooksBy D.model disk.old disk.new result }
    ensures bytes { OnOk result ((bytes : List ℕ) → D.model.content disk.old ≡ Some bytes → block.new.items ≡ block.old.items ++ take count (drop place bytes)) }
    ensures size { OnOk result (vec_len block.new ≡ vec_len block.old + count) }
{
    let held = block.len();
    block.resize(held + count, 0)?;
    let (_, behind) = block.split_at_mut(held);
    read_from(disk, place, behind)
}

/// Where a block of so many bytes is put: at 58 where it ends, with a gate behind it, before the area in force, else behind that area's closed gate.
fn place_for(size: u64, in_force: u64, end: u64) -> u64
    requires size { size < 2 ^ 62 }
    requires bounded { end < 2 ^ 62 }
    ensures { result ≡ free_place size in_force end }
{
    if in_force < LEAST + size {
        end + 1
    } else {
        BEHIND_ROOTS
    }
}

/// Makes what a checkpoint writes of this block, and room for it on the disk.
fn make_ready<D: Disk>(
    alloc: Global,
    disk: &mut D,
    root: Root,
    end: u64,
    block: Vec<u8>,
) -> Result<Packed, DiskError>
    requires root { IsRoot root.at }
    requires unspent { root.number < 2 ^ 64 - 1 }
    requires size { vec_len block < 2 ^ 62 }
    requires bounded { end < 2 ^ 62 }
    ensures effect { ReservesOnDisk D.model disk.old disk.new (length block.items + 27) 4 result }
    ensures goes { ((is_ok result ≡ false) × (disk.new ≡ disk.old)) ⊎ D.model.goes disk.old (make_room (length block.items + 27) 4) (is_ok result) disk.new }
    ensures packed { IfOk result (λ packed. IsPackedFrom root end block.items packed) }
{
    let size = block.len() as u64;
    let Ok(packed) = pack(alloc, root, end, block) else {
        return Err(DiskError::NoMemory);
    };
    disk.reserve(size + 27, 4)?;
    Ok(packed)
}

/// What a checkpoint writes of this block, for the log whose root in force this is and whose area ends there.
fn pack(alloc: Global, root: Root, end: u64, block: Vec<u8>) -> Result<Packed, NoMemory>
    requires root { IsRoot root.at }
    requires unspent { root.number < 2 ^ 64 - 1 }
    requires size { vec_len block < 2 ^ 62 }
    requires bounded { end < 2 ^ 62 }
    ensures { IfOk result (λ packed. IsPackedFrom root end block.items packed) }
{
    let size = block.len() as u64;
    let next = Root {
        at: other_root(root.at),
        number: root.number + 1,
        place: place_for(size, root.place, end),
        size,
        other_open: true,
    };
    let fields = root_fields(alloc, next.number, next.place, size)?;
    let mut block = block;
    block.push(0)?;
    Ok(Packed {
        root: next,
        block,
        fields,
    })
}

// The parts of a checkpoint.
fn write_parts<D: Disk>(disk: &mut D, other_open: bool, packed: &Packed) -> Result<(), Failed>
    requires root { IsRoot packed.now.root.at }
    requires within { (bytes : List ℕ) → D.model.content disk.old ≡ Some bytes → (packed.now.root.place ≤ length bytes) × (59 ≤ length bytes) }
    requires end { packed.now.root.place + vec_len packed.now.block ≤ MAX_WRITE_END }
    requires fields { vec_len packed.now.fields ≡ 24 }
    requires room { vec_len packed.now.block + 26 ≤ D.model.room disk.old }
    requires writes { 4 ≤ D.model.writes disk.old }
    ensures crash { (at : ℕ) (held later given : Contents) (bytes : List ℕ) → IsReadyFor D.model storing disk.old at packed.now.root.place held later given bytes
        → IsMadeFor packed.now at given bytes → other_open ≡ (gate_at bytes (other_root at) == 1)
        → Switches D.model disk.old disk.new at packed.now.root.place held later given bytes result }
    ensures calls { Makes D.model.goes disk.old (store_and_close_calls packed.now.root.at other_open packed.now.root.place packed.now.block.items
        ++ name_and_open_calls packed.now.root.at packed.now.fields.items) (is_ok result) disk.new }
    ensures known { is_some (D.model.content disk.new) ≡ is_some (D.model.content disk.old) }
    ensures fault { FaultCounted (D.model.faults disk.old) (D.model.faults disk.new) result }
    ensures uncounted { OnOk result (D.model.faults disk.new ≡ D.model.faults disk.old) }
{
    store_and_close(
        disk,
        packed.root.at,
        other_open,
        packed.root.place,
        &packed.block,
    )?;
    name_and_open(disk, packed.root.at, &packed.fields)
}

// Writes the block with its closed gate, and closes the gate of the root that stands there where it is 1. A gate that is closed isn't written here: a crash in that write could
// open a root that an earlier checkpoint, which stopped, left with a greater number.
fn store_and_close<D: Disk>(
    disk: &mut D,
    other: u64,
    other_open: bool,
    place: u64,
    block: &[u8],
) -> Result<(), Failed>
    requires root { IsRoot other }
    requires within { (bytes : List ℕ) → D.model.content disk.old ≡ Some bytes → (place ≤ length bytes) × (59 ≤ length bytes) }
    requires end { place + length block.now ≤ MAX_WRITE_END }
    requires room { length block.now + 1 ≤ D.model.room disk.old }
    requires writes { 2 ≤ D.model.writes disk.old }
    ensures crash { (at : ℕ) (held later given : Contents) (bytes : List ℕ) → IsReadyFor D.model storing disk.old at place held later given bytes → other ≡ other_root at
        → block.now ≡ writes storing (number_at bytes at) place given → other_open ≡ (gate_at bytes other == 1)
        → StoresAndCloses D.model disk.old disk.new at place held later given bytes result }
    ensures calls { Makes D.model.goes disk.old (store_and_close_calls other other_open place block.now) (is_ok result) disk.new }
    ensures long { OnOk result ((bytes : List ℕ) → D.model.content disk.new ≡ Some bytes → 59 ≤ length bytes) }
    ensures room { D.model.room disk.old ≤ D.model.room disk.new + (length block.now + 1) }
    ensures writes { D.model.writes disk.old ≤ D.model.writes disk.new + 2 }
    ensures known { is_some (D.model.content disk.new) ≡ is_some (D.model.content disk.old) }
    ensures fault { FaultCounted (D.model.faults disk.old) (D.model.faults disk.new) result }
    ensures uncounted { OnOk result (D.model.faults disk.new ≡ D.model.faults disk.old) }
{
    write_synced(disk, place, block)?;
    if other_open {
        return write_synced(disk, other, &[0]);
    }
    Ok(())
}

// Gives the root that stands there, which is closed, what follows its gate, and opens it. What it names is on the disk before it is opened.
fn name_and_open<D: Disk>(disk: &mut D, other: u64, fields: &[u8]) -> Result<(), Failed>
    requires root { IsRoot other }
    requires within { (bytes : List ℕ) → D.model.content disk.old ≡ Some bytes → 59 ≤ length bytes }
    requires fields { length fields.now ≡ 24 }
    requires room { 25 ≤ D.model.room disk.old }
    requires writes { 2 ≤ D.model.writes disk.old }
    ensures crash { (at place : ℕ) (held later given : Contents) (bytes : List ℕ) → IsReadyFor D.model naming disk.old at place held later given bytes → other ≡ other_root at
        → fields.now ≡ writes naming (number_at bytes at) place given
        → Switches D.model disk.old disk.new at place held later given bytes result }
    ensures calls { Makes D.model.goes disk.old (name_and_open_calls other fields.now) (is_ok result) disk.new }
    ensures known { is_some (D.model.content disk.new) ≡ is_some (D.model.content disk.old) }
    ensures fault { FaultCounted (D.model.faults disk.old) (D.model.faults disk.new) result }
    ensures uncounted { OnOk result (D.model.faults disk.new ≡ D.model.faults disk.old) }
{
    write_synced(disk, other + 1, fields)?;
    write_synced(disk, other, &[1])
}
