// How a log in two areas is read from a disk.
ghost use Rattle.std.specs.Prelude.{◌≡◌, ℕ, ◌+◌, ◌-◌, ◌<◌, ◌≤◌, ◌^◌, ◌++◌, true, false, [], List, Some, length, take, drop, vec_len, IfOk, OnOk, IsErrOf};
ghost use Rattle.pv_base.specs.declared.limits.TheConstants.{MAX_LENGTH};
ghost use Rattle.pv_base.specs.BigEndian.{big_endian};
ghost use Rattle.pv_disk_model.specs.Size.{Contents};
ghost use Rattle.pv_disk_model.specs.Disk.{Gives};
ghost use Rattle.pv_format.specs.Journal.{AreShort, framed, record_of};
ghost use Rattle.pv_journal.specs.Opening.{contents_in};
ghost use Rattle.pv_law_calls.specs.Reading.{Gave, LooksBy};
ghost use Rattle.pv_law_checkpoints.specs.TwoAreas.{block_of, IsNotOurs};
ghost use Rattle.pv_ckpt.specs.Outline.{GaveNoOutline, GaveOutline, IsOutlinedShort, MeasuresBlock, gate_of};
ghost use Rattle.pv_ckpt.specs.Reading.{BeginsAt, GaveFound, GaveNone, IsCutBefore, IsFound, IsInRange, IsReadShort, LacksBlock, LacksLength, ReadsCut, ReadsFront, ReadsRecords};
ghost use Rattle.pv_ckpt.specs.Roots.{IsLogBy, IsRootless};

use crate::roots::{BEHIND_ROOTS, LEAST, Root, root_in};
use pv_disk::{Disk, LookError};
use pv_journal::{Gate, gate_at, number_in, read_content, read_from, read_record, size_of_disk};
use std::alloc::Global;

/// The greatest place of a block: 2 to the 36th power.
const GREATEST_PLACE: u64 = 68_719_476_736;

/// What a disk begins with that may hold a log.
#[derive(Clone, Copy)]
struct Front {
    /// How long the disk is.
    size: u64,
    /// The root in force.
    root: Root,
}

/// A log that was measured on a disk.
#[derive(Clone, Copy)]
pub(crate) struct Measured {
    /// The root in force.
    pub(crate) root: Root,
    /// Where the closed gate stands at which its area ends.
    pub(crate) end: u64,
    /// Its length: what a journal with its contents would have.
    pub(crate) length: u64,
}

/// The log that was found on a disk.
#[derive(Drop)]
pub(crate) struct Found {
    /// The root in force.
    pub(crate) root: Root,
    /// Where the closed gate stands at which its area ends.
    pub(crate) end: u64,
    /// The contents, the oldest first.
    pub(crate) contents: Vec<Vec<u8>>,
}

/// The log on a disk. No memory is taken for a content before its bytes are known to be there.
///
/// - [`LookError::Failed`]: the disk failed.
/// - [`LookError::NotOurs`]: the disk holds no log in two areas, which shows at that place.
/// - [`LookError::NoMemory`]: there was no memory.
#[tactic(auto, using(pv_law_calls::proofs::LookLemmas::looking))]
pub(crate) fn read_log<D: Disk>(alloc: Global, disk: &mut D) -> Result<Found, LookError>
    ensures effect { LooksBy D.model disk.old disk.new result }
    ensures found { IfOk result (λ found. (bytes : List ℕ) → D.model.content disk.old ≡ Some bytes → IsFound bytes found) }
    ensures not_ours { (place : ℕ) → IsErrOf result (LookError.NotOurs place)
        → (bytes : List ℕ) → D.model.content disk.old ≡ Some bytes → IsNotOurs bytes place }
    ensures gave { IfOk result (λ found. GaveFound D.model disk.old disk.new found) }
    ensures gave_none { (place : ℕ) → IsErrOf result (LookError.NotOurs place) → GaveNone D.model disk.old disk.new place }
{
    let front = read_front(alloc, disk)?;
    let root = front.root;
    let mut contents = read_block(alloc, disk, front.size, root)?;
    let end = read_records(
        alloc,
        disk,
        front.size,
        root.place + root.size,
        &mut contents,
    )?;
    Ok(Found {
        root,
        end,
        contents,
    })
}

/// What the disk begins with.
///
/// - [`LookError::NotOurs`]: it begins otherwise, or neither root is open.
#[tactic(auto, using(pv_law_calls::proofs::LookLemmas::looking))]
fn read_front<D: Disk>(alloc: Global, disk: &mut D) -> Result<Front, LookError>
    ensures effect { LooksBy D.model disk.old disk.new result }
    ensures front { IfOk result (λ front. ReadsFront D.model disk.old disk.new front) }
    ensures long { IfOk result (λ front. 59 ≤ front.size) }
    ensures bounded { IfOk result (λ front. front.size ≤ MAX_LENGTH) }
    ensures not_ours { (place : ℕ) → IsErrOf result (LookError.NotOurs place)
        → (bytes : List ℕ) → D.model.content disk.old ≡ Some bytes → IsNotOurs bytes place }
    ensures gave_none { (place : ℕ) → IsErrOf result (LookError.NotOurs place) → Gave D.model disk.old disk.new (λ read. (length read ≤ 59) × IsRootless read place) }
{
    let size = size_of_disk(disk)?;
    let front = read_content(alloc, disk, 0, size.min(LEAST) as usize)?;
    match root_in(&front) {
        Ok(root) => Ok(Front { size, root }),
        Err(place) => Err(LookError::NotOurs(place)),
    }
}

/// The contents of the block of this root, on a disk of this size.
///
/// - [`LookError::NotOurs`]: the block is out of range, or no contents fill it. The place is the root's own.
#[tactic(auto, using(pv_law_calls::proofs::LookLemmas::looking))]
fn read_block<D: Disk>(
    alloc: Global,
    disk: &mut D,
    size: u64,
    root: Root,
) -> Result<Vec<Vec<u8>>, LookError>
    requires known { (bytes : List ℕ) → D.model.content disk.old ≡ Some bytes → size ≡ length bytes }
    requires long { 59 ≤ size }
    requires bounded { size ≤ MAX_LENGTH }
    ensures effect { LooksBy D.model disk.old disk.new result }
    ensures in_range { OnOk result (IsInRange root size) }
    ensures short { IfOk result (λ all. AreShort (contents_in all)) }
    ensures filled { IfOk result (λ all. root.size ≡ length (block_of (contents_in all))) }
    ensures stands { IfOk result (λ all. (bytes : List ℕ) → D.model.content disk.old ≡ Some bytes → BeginsAt bytes root.place (block_of (contents_in all))) }
    ensures not_ours { (at : ℕ) → IsErrOf result (LookError.NotOurs at)
        → (at ≡ root.at) × ((bytes : List ℕ) → D.model.content disk.old ≡ Some bytes → LacksBlock bytes root) }
    ensures gave { IfOk result (λ all. Gives D.model disk.old disk.new (block_of (contents_in all))) }
    ensures gave_none { (at : ℕ) → IsErrOf result (LookError.NotOurs at) → Gave D.model disk.old disk.new (λ read. IsReadShort read root) }
{
    if !is_in_range(root, size) {
        return Err(LookError::NotOurs(root.at));
    }
    let mut all = Vec::new(alloc);
    let end = root.place + root.size;
    let mut place = root.place;
    while place < end {
        let content = read_framed(alloc, disk, root.at, place, end)?;
        place += 4 + content.len() as u64;
        all.push(content)?;
    }
    Ok(all)
}

/// Whether the block of this root is in range, on a disk of this size, with a byte behind it.
fn is_in_range(root: Root, size: u64) -> bool
    ensures yes { result ≡ true → IsInRange root size }
    ensures no { result ≡ false → IsInRange root size → ⊥ }
{
    BEHIND_ROOTS <= root.place
        && root.place <= GREATEST_PLACE
        && root.place < size
        && root.size < size - root.place
}

/// The content that stands here after its length, in a block that ends there.
///
/// - [`LookError::NotOurs`]: as in [`length_at`].
#[tactic(auto, using(pv_law_calls::proofs::LookLemmas::looking))]
fn read_framed<D: Disk>(
    alloc: Global,
    disk: &mut D,
    at: u64,
    place: u64,
    end: u64,
) -> Result<Vec<u8>, LookError>
    requires known { (bytes : List ℕ) → D.model.content disk.old ≡ Some bytes → end ≤ length bytes }
    requires within { place < end }
    requires bounded { end ≤ MAX_LENGTH }
    ensures effect { LooksBy D.model disk.old disk.new result }
    ensures stands { IfOk result (λ content. (bytes : List ℕ) → D.model.content disk.old ≡ Some bytes → BeginsAt bytes place (framed content.items)) }
    ensures ends { IfOk result (λ content. place + (4 + vec_len content) ≤ end) }
    ensures short { IfOk result (λ content. vec_len content < 2 ^ 32) }
    ensures not_ours { (shown : ℕ) → IsErrOf result (LookError.NotOurs shown)
        → (shown ≡ at) × ((bytes : List ℕ) → D.model.content disk.old ≡ Some bytes → IsCutBefore (drop place bytes) (end - place)) }
    ensures gave { IfOk result (λ content. Gives D.model disk.old disk.new (framed content.items)) }
    ensures gave_none { (shown : ℕ) → IsErrOf result (LookError.NotOurs shown) → Gave D.model disk.old disk.new (λ read. place + length read ≤ end) }
{
    let count = length_at(disk, at, place, end)?;
    read_content(alloc, disk, place + 4, count as usize)
}

/// The length that stands here, of a content in a block that ends there.
///
/// - [`LookError::NotOurs`]: the length or the content goes past the block's end. The place is `at`.
#[tactic(auto, using(pv_law_calls::proofs::LookLemmas::looking))]
fn length_at<D: Disk>(disk: &mut D, at: u64, place: u64, end: u64) -> Result<u32, LookError>
    requires known { (bytes : List ℕ) → D.model.content disk.old ≡ Some bytes → end ≤ length bytes }
    requires within { place < end }
    requires bounded { end ≤ MAX_LENGTH }
    ensures effect { LooksBy D.model disk.old disk.new result }
    ensures stands { IfOk result (λ count. (bytes : List ℕ) → D.model.content disk.old ≡ Some bytes → take 4 (drop place bytes) ≡ big_endian 4 count) }
    ensures ends { IfOk result (λ count. place + (4 + count) ≤ end) }
    ensures short { IfOk result (λ count. count < 2 ^ 32) }
    ensures not_ours { (shown : ℕ) → IsErrOf result (LookError.NotOurs shown)
        → (shown ≡ at) × ((bytes : List ℕ) → D.model.content disk.old ≡ Some bytes → IsCutBefore (drop place bytes) (end - place)) }
    ensures gave { IfOk result (λ count. Gives D.model disk.old disk.new (big_endian 4 count)) }
    ensures gave_none { (shown : ℕ) → IsErrOf result (LookError.NotOurs shown) → Gave D.model disk.old disk.new (λ read. LacksLength read (end - place)) }
{
    if end - place < 4 {
        return Err(LookError::NotOurs(at));
    }
    let mut number = [0; 4];
    read_from(disk, place, &mut number)?;
    let count = number_in(&number);
    if u64::from(count) > end - place - 4 {
        return Err(LookError::NotOurs(at));
    }
    Ok(count)
}

/// Reads the records from this place on, on a disk of this size, and adds their contents. It answers where the closed gate stands that comes after them.
///
/// - [`LookError::NotOurs`]: an open gate is followed by a length, a content or a next gate past the end. The place is that gate's.
#[tactic(auto, using(pv_law_calls::proofs::LookLemmas::looking))]
fn read_records<D: Disk>(
    alloc: Global,
    disk: &mut D,
    size: u64,
    start: u64,
    all: &mut Vec<Vec<u8>>,
) -> Result<u64, LookError>
    requires known { (bytes : List ℕ) → D.model.content disk.old ≡ Some bytes → size ≡ length bytes }
    requires within { start < size }
    requires bounded { size ≤ MAX_LENGTH }
    ensures effect { LooksBy D.model disk.old disk.new result }
    ensures records { IfOk result (λ end. (later : Contents) × ReadsRecords D.model record_of disk.old disk.new start end later
        × (contents_in all.new ≡ contents_in all.old ++ later)) }
    ensures not_ours { (place : ℕ) → IsErrOf result (LookError.NotOurs place) → (later : Contents) × ReadsCut D.model record_of disk.old disk.new start place later }
{
    let mut place = start;
    loop {
        let Some(content) = read_record(alloc, disk, size, place)? else {
            return Ok(place);
        };
        place += 5 + content.len() as u64;
        all.push(content)?;
    }
}

/// The log on a disk, but for its contents: of these it reads the lengths, and it takes no memory for them.
///
/// - [`LookError::Failed`], [`LookError::NotOurs`]: as in [`read_log`].
/// - [`LookError::NoMemory`]: there was no memory for the bytes that a log begins with.
#[tactic(auto, using(pv_law_calls::proofs::LookLemmas::looking))]
pub(crate) fn measure_log<D: Disk>(alloc: Global, disk: &mut D) -> Result<Measured, LookError>
    ensures effect { LooksBy D.model disk.old disk.new result }
    ensures found { IfOk result (λ log. (bytes : List ℕ) → D.model.content disk.old ≡ Some bytes → IsLogBy bytes log.root log.end log.length) }
    ensures not_ours { (place : ℕ) → IsErrOf result (LookError.NotOurs place)
        → (bytes : List ℕ) → D.model.content disk.old ≡ Some bytes → IsNotOurs bytes place }
    ensures gave { IfOk result (λ log. GaveOutline D.model disk.old disk.new log.root log.end log.length) }
    ensures gave_none { (place : ℕ) → IsErrOf result (LookError.NotOurs place) → GaveNoOutline D.model disk.old disk.new place }
{
    let front = read_front(alloc, disk)?;
    let root = front.root;
    let packed = measure_block(disk, front.size, root)?;
    let end = measure_records(disk, front.size, root.place + root.size)?;
    Ok(Measured {
        root,
        end,
        length: 9 + packed + (end - root.place),
    })
}

/// How many contents the block of this root has, on a disk of this size.
///
/// - [`LookError::NotOurs`]: as in [`read_block`].
#[tactic(auto, using(pv_law_calls::proofs::LookLemmas::looking))]
fn measure_block<D: Disk>(disk: &mut D, size: u64, root: Root) -> Result<u64, LookError>
    requires known { (bytes : List ℕ) → D.model.content disk.old ≡ Some bytes → size ≡ length bytes }
    requires long { 59 ≤ size }
    requires bounded { size ≤ MAX_LENGTH }
    ensures effect { LooksBy D.model disk.old disk.new result }
    ensures in_range { OnOk result (IsInRange root size) }
    ensures few { IfOk result (λ count. count ≤ root.size) }
    ensures measured { IfOk result (λ count. (packed : Contents) × (length packed ≡ count) × MeasuresBlock D.model disk.old disk.new root.place packed
        × (root.size ≡ length (block_of packed))) }
    ensures not_ours { (at : ℕ) → IsErrOf result (LookError.NotOurs at)
        → (at ≡ root.at) × ((bytes : List ℕ) → D.model.content disk.old ≡ Some bytes → LacksBlock bytes root) }
    ensures gave_none { (at : ℕ) → IsErrOf result (LookError.NotOurs at) → Gave D.model disk.old disk.new (λ read. IsOutlinedShort read root) }
{
    if !is_in_range(root, size) {
        return Err(LookError::NotOurs(root.at));
    }
    let end = root.place + root.size;
    let mut place = root.place;
    let mut packed = 0;
    while place < end {
        let count = length_at(disk, root.at, place, end)?;
        place += 4 + u64::from(count);
        packed += 1;
    }
    Ok(packed)
}

/// Goes from gate to gate, from this place on, on a disk of this size. It answers where the closed gate stands that comes after the records.
///
/// - [`LookError::NotOurs`]: as in [`read_records`].
#[tactic(auto, using(pv_law_calls::proofs::LookLemmas::looking))]
fn measure_records<D: Disk>(disk: &mut D, size: u64, start: u64) -> Result<u64, LookError>
    requires known { (bytes : List ℕ) → D.model.content disk.old ≡ Some bytes → size ≡ length bytes }
    requires within { start < size }
    requires bounded { size ≤ MAX_LENGTH }
    ensures effect { LooksBy D.model disk.old disk.new result }
    ensures records { IfOk result (λ end. (later : Contents) × ReadsRecords D.model gate_of disk.old disk.new start end later) }
    ensures onward { IfOk result (λ end. start ≤ end) }
    ensures within { IfOk result (λ end. end < size) }
    ensures not_ours { (place : ℕ) → IsErrOf result (LookError.NotOurs place) → (later : Contents) × ReadsCut D.model gate_of disk.old disk.new start place later }
{
    let mut place = start;
    loop {
        match gate_at(disk, size, place)? {
            Gate::Closed => return Ok(place),
            Gate::Open(count) => place += 5 + u64::from(count),
        }
    }
}
