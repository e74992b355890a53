// How a journal is read from a disk.
ghost use Rattle.std.specs.Prelude.{◌≡◌, ◌≢◌, ◌⊎◌, ℕ, ◌+◌, ◌-◌, ◌<◌, ◌≤◌, ◌^◌, ◌++◌, [], List, Some, map, length, take, drop, slice_index, vec_len, IfOk, IfErr, IfSome, OnOk, IsErrOf};
ghost use Rattle.pv_base.specs.declared.limits.TheConstants.{MAX_LENGTH};
ghost use Rattle.pv_base.specs.BigEndian.{big_endian};
ghost use Rattle.pv_disk_model.specs.Size.{Contents};
ghost use Rattle.pv_format.specs.Journal.{header, IsJournal, IsNotOurs, HasNoHeader, end_of};
ghost use Rattle.pv_disk_model.specs.Disk.{Gives};
ghost use Rattle.pv_journal.specs.Outline.{OutlinesJournal, OutlinesNone};
ghost use Rattle.pv_journal.specs.Reading.{IsGate, IsOpenEnd, IsRecord, ReadsTo, StandsAt, StandsCut, EndsBefore, HoldsRecord};
ghost use Rattle.pv_law_calls.specs.Reading.{Gave, LooksBy};

use pv_base::buffer;
use pv_bytes::Take;
use pv_disk::{Disk, LookError};
use std::alloc::Global;

/// An empty journal: what each journal begins with, and a closed gate.
pub(crate) const EMPTY_JOURNAL: [u8; 9] = *b"PVJRNL01\0";

/// What stands at a gate.
#[derive(Clone, Copy)]
pub enum Gate {
    /// It is closed.
    Closed,
    /// It is open, and a content of so many bytes follows, with the next gate.
    Open(u32),
}

/// How long the disk is.
#[tactic(auto, using(pv_law_calls::proofs::LookLemmas::looking))]
pub fn size_of_disk<D: Disk>(disk: &mut D) -> Result<u64, LookError>
    ensures effect { LooksBy D.model disk.old disk.new result }
    ensures size { IfOk result (λ size. (bytes : List ℕ) → D.model.content disk.old ≡ Some bytes → size ≡ length bytes) }
    ensures bounded { IfOk result (λ size. size ≤ MAX_LENGTH) }
    ensures gave { OnOk result (Gives D.model disk.old disk.new []) }
    ensures not_ours { (at : ℕ) → IsErrOf result (LookError.NotOurs at) → ⊥ }
{
    match disk.len() {
        Ok(size) => Ok(size),
        Err(_) => Err(LookError::Failed),
    }
}

/// Fills `into` from this place on.
#[tactic(auto, using(pv_law_calls::proofs::LookLemmas::looking))]
pub fn read_from<D: Disk>(disk: &mut D, place: u64, into: &mut [u8]) -> Result<(), LookError>
    requires { (bytes : List ℕ) → D.model.content disk.old ≡ Some bytes → place + length into.old ≤ length bytes }
    ensures effect { LooksBy D.model disk.old disk.new result }
    ensures bytes { OnOk result ((bytes : List ℕ) → D.model.content disk.old ≡ Some bytes → into.new ≡ take (length into.old) (drop place bytes)) }
    ensures gave { OnOk result (Gives D.model disk.old disk.new into.new) }
    ensures not_ours { (at : ℕ) → IsErrOf result (LookError.NotOurs at) → ⊥ }
{
    match disk.read_at(place, into) {
        Ok(()) => Ok(()),
        Err(_) => Err(LookError::Failed),
    }
}

/// The place of the closed gate.
///
/// - [`LookError::Failed`]: the disk failed.
/// - [`LookError::NotOurs`]: the disk holds no journal, which shows at that place.
/// - [`LookError::NoMemory`]: there was no memory for eight bytes.
#[tactic(auto, using(pv_law_calls::proofs::LookLemmas::looking))]
pub(crate) fn find_end<D: Disk>(alloc: Global, disk: &mut D) -> Result<u64, LookError>
    ensures effect { LooksBy D.model disk.old disk.new result }
    ensures found { IfOk result (λ end. (bytes : List ℕ) → D.model.content disk.old ≡ Some bytes
        → (contents : Contents) × IsJournal contents bytes × (end ≡ end_of contents)) }
    ensures not_ours { (place : ℕ) → IsErrOf result (LookError.NotOurs place)
        → (bytes : List ℕ) → D.model.content disk.old ≡ Some bytes → IsNotOurs bytes place }
    ensures gave { IfOk result (λ end. Gave D.model disk.old disk.new (λ read. OutlinesJournal read end)) }
    ensures gave_none { (place : ℕ) → IsErrOf result (LookError.NotOurs place) → Gave D.model disk.old disk.new (λ read. OutlinesNone read place) }
    ensures starts { IfOk result (λ end. 8 ≤ end) }
    ensures bounded { IfOk result (λ end. end + 1 ≤ MAX_LENGTH) }
{
    let size = size_of_disk(disk)?;
    read_header(alloc, disk, size)?;
    let mut place = 8;
    loop {
        match gate_at(disk, size, place)? {
            Gate::Closed => return Ok(place),
            Gate::Open(count) => place += 5 + u64::from(count),
        }
    }
}

/// The contents, the oldest first. No memory is taken for a content before its bytes are known to be there.
///
/// - [`LookError::Failed`]: the disk failed.
/// - [`LookError::NotOurs`]: the disk holds no journal, which shows at that place.
/// - [`LookError::NoMemory`]: there was no memory.
#[tactic(auto, using(pv_law_calls::proofs::LookLemmas::looking))]
pub(crate) fn read_contents<D: Disk>(alloc: Global, disk: &mut D) -> Result<Vec<Vec<u8>>, LookError>
    ensures effect { LooksBy D.model disk.old disk.new result }
    ensures found { IfOk result (λ all. (bytes : List ℕ) → D.model.content disk.old ≡ Some bytes
        → IsJournal (map (λ it. it.items) all.items) bytes) }
    ensures not_ours { (place : ℕ) → IsErrOf result (LookError.NotOurs place)
        → (bytes : List ℕ) → D.model.content disk.old ≡ Some bytes → IsNotOurs bytes place }
    ensures gave { IfOk result (λ all. Gave D.model disk.old disk.new (IsJournal (map (λ it. it.items) all.items))) }
    ensures gave_none { (place : ℕ) → IsErrOf result (LookError.NotOurs place) → Gave D.model disk.old disk.new (λ read. IsNotOurs read place) }
{
    let size = size_of_disk(disk)?;
    read_header(alloc, disk, size)?;
    let mut all = Vec::new(alloc);
    let mut place = 8;
    loop {
        let Some(content) = read_record(alloc, disk, size, place)? else {
            return Ok(all);
        };
        place += 5 + content.len() as u64;
        all.push(content)?;
    }
}

/// The content of the record at a gate, on a disk of this size; none where the gate is closed.
///
/// - [`LookError::NotOurs`]: as in [`gate_at`].
#[tactic(auto, using(pv_law_calls::proofs::LookLemmas::looking))]
pub fn read_record<D: Disk>(
    alloc: Global,
    disk: &mut D,
    size: u64,
    place: u64,
) -> Result<Option<Vec<u8>>, LookError>
    requires known { (bytes : List ℕ) → D.model.content disk.old ≡ Some bytes → size ≡ length bytes }
    requires within { place < size }
    requires bounded { size ≤ MAX_LENGTH }
    ensures effect { LooksBy D.model disk.old disk.new result }
    ensures stands { IfOk result (λ found. (bytes : List ℕ) → D.model.content disk.old ≡ Some bytes → HoldsRecord (drop place bytes) found) }
    ensures ends { IfOk result (λ found. IfSome found (λ content. (vec_len content + 5 < size - place) × (vec_len content < 2 ^ 32))) }
    ensures not_ours { (at : ℕ) → IsErrOf result (LookError.NotOurs at)
        → (bytes : List ℕ) → D.model.content disk.old ≡ Some bytes → (at ≡ place) × StandsCut (drop place bytes) }
    ensures gave { IfOk result (λ found. Gave D.model disk.old disk.new (λ read. IsRecord read found)) }
    ensures gave_none { (at : ℕ) → IsErrOf result (LookError.NotOurs at) → (at ≡ place) × Gave D.model disk.old disk.new (IsOpenEnd (size - place)) }
{
    match gate_at(disk, size, place)? {
        Gate::Closed => Ok(None),
        Gate::Open(count) => Ok(Some(read_content(alloc, disk, place + 5, count as usize)?)),
    }
}

// Tests what a journal begins with, up to the first gate, on a disk of this size.
#[tactic(auto, using(pv_law_calls::proofs::LookLemmas::looking))]
fn read_header<D: Disk>(alloc: Global, disk: &mut D, size: u64) -> Result<(), LookError>
    requires { (bytes : List ℕ) → D.model.content disk.old ≡ Some bytes → size ≡ length bytes }
    ensures effect { LooksBy D.model disk.old disk.new result }
    ensures passed { OnOk result ((bytes : List ℕ) → D.model.content disk.old ≡ Some bytes → ReadsTo [] bytes 8) }
    ensures long { OnOk result (8 < size) }
    ensures gave { OnOk result (Gives D.model disk.old disk.new header) }
    ensures gave_none { (place : ℕ) → IsErrOf result (LookError.NotOurs place) → Gave D.model disk.old disk.new (λ read. HasNoHeader read place) }
    ensures not_ours { (place : ℕ) → IsErrOf result (LookError.NotOurs place)
        → (bytes : List ℕ) → D.model.content disk.old ≡ Some bytes → HasNoHeader bytes place }
{
    let front = read_content(alloc, disk, 0, size.min(8) as usize)?;
    let place = agreement(&front, &EMPTY_JOURNAL[..8]);
    if place < 8 {
        return Err(LookError::NotOurs(place as u64));
    }
    if size <= 8 {
        return Err(LookError::NotOurs(8));
    }
    Ok(())
}

/// What stands at a gate, on a disk of this size.
///
/// - [`LookError::NotOurs`]: it is open, and its length, its content or the next gate is past the end. The place is its own.
#[tactic(auto, using(pv_law_calls::proofs::LookLemmas::looking))]
pub fn gate_at<D: Disk>(disk: &mut D, size: u64, place: u64) -> Result<Gate, LookError>
    requires known { (bytes : List ℕ) → D.model.content disk.old ≡ Some bytes → size ≡ length bytes }
    requires within { place < size }
    requires bounded { size ≤ MAX_LENGTH }
    ensures effect { LooksBy D.model disk.old disk.new result }
    ensures stands { IfOk result (λ gate. (bytes : List ℕ) → D.model.content disk.old ≡ Some bytes → StandsAt (drop place bytes) gate) }
    ensures ends { IfOk result (λ gate. EndsBefore gate (size - place)) }
    ensures not_ours { (at : ℕ) → IsErrOf result (LookError.NotOurs at)
        → (bytes : List ℕ) → D.model.content disk.old ≡ Some bytes → (at ≡ place) × StandsCut (drop place bytes) }
    ensures gave { IfOk result (λ gate. Gave D.model disk.old disk.new (λ read. IsGate read gate)) }
    ensures gave_none { (at : ℕ) → IsErrOf result (LookError.NotOurs at) → (at ≡ place) × Gave D.model disk.old disk.new (IsOpenEnd (size - place)) }
{
    let mut gate = [0];
    read_from(disk, place, &mut gate)?;
    if gate[0] != 1 {
        return Ok(Gate::Closed);
    }
    let left = size - place;
    if left < 5 {
        return Err(LookError::NotOurs(place));
    }
    let mut number = [0; 4];
    read_from(disk, place + 1, &mut number)?;
    let count = number_in(&number);
    if u64::from(count) + 5 >= left {
        return Err(LookError::NotOurs(place));
    }
    Ok(Gate::Open(count))
}

/// So many bytes from this place on.
#[tactic(auto, using(pv_law_calls::proofs::LookLemmas::looking))]
pub fn read_content<D: Disk>(
    alloc: Global,
    disk: &mut D,
    place: u64,
    count: usize,
) -> Result<Vec<u8>, LookError>
    requires { (bytes : List ℕ) → D.model.content disk.old ≡ Some bytes → place + count ≤ length bytes }
    ensures effect { LooksBy D.model disk.old disk.new result }
    ensures bytes { IfOk result (λ content. (bytes : List ℕ) → D.model.content disk.old ≡ Some bytes → content.items ≡ take count (drop place bytes)) }
    ensures count { IfOk result (λ content. vec_len content ≡ count) }
    ensures gave { IfOk result (λ content. Gives D.model disk.old disk.new content.items) }
    ensures not_ours { (at : ℕ) → IsErrOf result (LookError.NotOurs at) → ⊥ }
{
    let mut content = buffer(alloc, count)?;
    read_from(disk, place, &mut content)?;
    Ok(content)
}

/// How far the bytes are what is expected.
pub fn agreement(bytes: &[u8], expected: &[u8]) -> usize
    ensures within { result ≤ length bytes.now }
    ensures within_expected { result ≤ length expected.now }
    ensures same { take result bytes.now ≡ take result expected.now }
    ensures differ { result < length bytes.now → result < length expected.now → slice_index bytes.now result ≢ slice_index expected.now result }
{
    let mut place = 0;
    while place < bytes.len() && place < expected.len() {
        if bytes[place] != expected[place] {
            return place;
        }
        place += 1;
    }
    place
}

/// The number that four bytes are, the most significant first.
pub fn number_in(bytes: &[u8]) -> u32
    requires { length bytes.now ≡ 4 }
    ensures { big_endian 4 result ≡ bytes.now }
{
    match Take::new(bytes).u32() {
        Ok(number) => number,
        Err(_) => unreachable!(),
    }
}
