// What a memory disk holds, with a record of its writes, from which follows what each sync and each crash leaves.
ghost use Rattle.std.specs.Prelude.{◌≡◌, ◌≤◌, ◌+◌, ◌-◌, ◌++◌, ◌∷◌, [], ℕ, min, length, map, take, drop, replicate, vec_len, vec_capacity, IfOk, OnOk, OnErr};
ghost use Rattle.pv_base.specs.declared.limits.TheConstants.{MAX_LENGTH};
ghost use Rattle.pv_disk_model.specs.Disk.{overlaid};
ghost use Rattle.pv_disk.specs.MemImage.{ImageState, IsMade, AllInside, filled, settled_at, written_at, left_by, NotesMoment};
ghost use Rattle.pv_disk.specs.MemHistory.{range_of, content_before, unsynced, overwritten, Made, CanUndo, MarksLast};

use pv_base::Mode;
use std::alloc::{AllocError, Global};
use std::marker::Model;
use std::snapshot::Snapshot;

/// A write to a memory disk.
#[derive(Drop)]
pub(crate) struct Write {
    /// Where it began.
    place: usize,
    /// How many bytes it wrote.
    count: usize,
    /// How long the content was before it.
    length: usize,
    /// The mark that a sync came after it and before the next write.
    synced: bool,
    /// The content before it, for the proof.
    before: Snapshot<Vec<u8>>,
}

/// What a memory disk holds. A crash may tear each write since the last sync.
#[derive(Drop)]
pub(crate) struct Image {
    /// What reads give.
    bytes: Vec<u8>,
    /// All writes, the oldest first.
    writes: Vec<Write>,
    /// What the writes since the last sync wrote over, the oldest first.
    kept: Vec<u8>,
}

impl Model for Image {
    ghost use Rattle.std.specs.Prelude.{◌≤◌, ◌-◌, [], min, vec_len, vec_capacity};
    ghost use Rattle.pv_base.specs.declared.limits.TheConstants.{MAX_LENGTH};
    ghost use Rattle.pv_disk.specs.MemImage.{ImageState};
    ghost use Rattle.pv_disk.specs.MemHistory.{moment_of, moments_of, unsynced, CanUndo};

    ghost Value = { ImageState };

    ghost view = { λ s. record {
      content = s.bytes.items;
      now = moment_of (unsynced [] s.writes.items) s.bytes.items;
      past = moments_of [] s.writes.items;
      room = min (vec_capacity s.bytes - vec_len s.bytes) (vec_capacity s.kept - vec_len s.kept);
      writes = vec_capacity s.writes - vec_len s.writes;
    } };

    ghost invariant = { λ s. CanUndo (unsynced [] s.writes.items) s.kept.items s.bytes.items × (vec_len s.bytes ≤ MAX_LENGTH) };
}

impl Image {
    /// These bytes, synced.
    pub(crate) fn new(alloc: Global, bytes: Vec<u8>) -> Self
        requires { vec_len bytes ≤ MAX_LENGTH }
        ensures content { result.content ≡ bytes.items }
        ensures now { result.now ≡ settled_at bytes.items }
        ensures past { result.past ≡ [] }
    {
        Image {
            bytes,
            writes: Vec::new(alloc),
            kept: Vec::new(alloc),
        }
    }

    /// What reads give.
    pub(crate) fn bytes(&self) -> &[u8]
        ensures content { result.now ≡ self.now.content }
        ensures bound { length self.now.content ≤ MAX_LENGTH }
    {
        &self.bytes
    }

    /// Makes room for so many more writes of so many bytes together.
    pub(crate) fn reserve(&mut self, bytes: usize, writes: usize) -> Result<(), AllocError>
        ensures same { self.new ≡ record self.old { room = self.new.room; writes = self.new.writes } }
        ensures room { self.old.room ≤ self.new.room }
        ensures writes { self.old.writes ≤ self.new.writes }
        ensures enough { OnOk result (bytes ≤ self.new.room) }
        ensures enough_writes { OnOk result (writes ≤ self.new.writes) }
    {
        self.bytes.reserve(bytes)?;
        self.kept.reserve(bytes)?;
        self.writes.reserve(writes)
    }

    /// Writes, in room that was made.
    pub(crate) fn write(&mut self, place: usize, bytes: &[u8])
        requires within { place ≤ length self.old.content }
        requires end { place + length bytes.now ≤ MAX_LENGTH }
        requires room { length bytes.now ≤ self.old.room }
        requires writes { 1 ≤ self.old.writes }
        ensures content { self.new.content ≡ overlaid self.old.content place bytes.now }
        ensures now { self.new.now ≡ written_at self.old.now place (length bytes.now) }
        ensures past { self.new.past ≡ self.old.past ++ self.old.now ∷ [] }
        ensures room { self.old.room ≤ self.new.room + length bytes.now }
        ensures writes { self.old.writes ≤ self.new.writes + 1 }
        ensures made { IsMade self.old }
    {
        let write = Write {
            place,
            count: bytes.len(),
            length: self.bytes.len(),
            synced: false,
            before: Snapshot::of(&self.bytes),
        };
        overlay(&mut self.bytes, &mut self.kept, place, bytes);
        self.writes.push_reserved(write);
    }

    /// Marks all as synced.
    pub(crate) fn sync(&mut self)
        ensures content { self.new.content ≡ self.old.content }
        ensures now { self.new.now ≡ settled_at self.old.content }
        ensures past { NotesMoment self.old self.new }
        ensures room { self.old.room ≤ self.new.room }
        ensures writes { self.old.writes ≤ self.new.writes }
        ensures made { IsMade self.old }
    {
        mark_last(&mut self.writes);
        self.kept.clear();
    }

    /// Leaves what a write or a sync that fires in this mode leaves, synced.
    pub(crate) fn crash(&mut self, mode: Mode)
        ensures content { self.new.content ≡ left_by mode self.old.now self.old.content }
        ensures now { self.new.now ≡ settled_at self.new.content }
        ensures past { NotesMoment self.old self.new }
        ensures room { self.old.room ≤ self.new.room }
        ensures writes { self.old.writes ≤ self.new.writes }
        ensures made { IsMade self.old }
    {
        match mode {
            Mode::Lost => self.lose(),
            Mode::Kept => self.sync(),
            Mode::Torn => self.tear(),
        }
    }

    /// Takes back all writes since the last sync. What is left is synced.
    fn lose(&mut self)
        ensures content { self.new.content ≡ self.old.now.synced }
        ensures now { self.new.now ≡ settled_at self.old.now.synced }
        ensures past { NotesMoment self.old self.new }
        ensures room { self.old.room ≤ self.new.room }
        ensures writes { self.old.writes ≤ self.new.writes }
        ensures made { IsMade self.old }
    {
        take_back(&mut self.bytes, &mut self.kept, &self.writes);
        mark_last(&mut self.writes);
    }

    /// Makes each byte written since the last sync 165. What is left is synced.
    fn tear(&mut self)
        ensures content { self.new.content ≡ filled self.old.now.ranges self.old.content }
        ensures now { self.new.now ≡ settled_at self.new.content }
        ensures past { NotesMoment self.old self.new }
        ensures room { self.old.room ≤ self.new.room }
        ensures writes { self.old.writes ≤ self.new.writes }
        ensures made { IsMade self.old }
    {
        fill(&mut self.bytes, &self.writes);
        mark_last(&mut self.writes);
        self.kept.clear();
    }
}

// Writes, and keeps what was written over.
fn overlay(content: &mut Vec<u8>, kept: &mut Vec<u8>, place: usize, bytes: &[u8])
    requires within { place ≤ vec_len content.old }
    requires room { vec_len content.old + length bytes.now ≤ vec_capacity content.old }
    requires kept_room { vec_len kept.old + length bytes.now ≤ vec_capacity kept.old }
    ensures content { content.new.items ≡ overlaid content.old.items place bytes.now }
    ensures kept { kept.new.items ≡ kept.old.items ++ take (length bytes.now) (drop place content.old.items) }
    ensures capacity { vec_capacity content.old ≤ vec_capacity content.new }
    ensures kept_capacity { vec_capacity kept.old ≤ vec_capacity kept.new }
{
    let over = bytes.len().min(content.len() - place);
    let (front, rest) = bytes.split_at(over);
    kept.extend_from_slice(&content[place..place + over])
        .unwrap();
    content[place..place + over].copy_from_slice(front);
    content.extend_from_slice(rest).unwrap();
}

// Marks the last write as synced.
fn mark_last(writes: &mut [Write])
    ensures { MarksLast writes.old writes.new }
{
    if let [.., last] = writes {
        last.synced = true;
    }
}

// Takes back all writes that aren't synced, the newest first.
fn take_back(content: &mut Vec<u8>, kept: &mut Vec<u8>, writes: &[Write])
    requires { CanUndo (unsynced [] writes.now) kept.old.items content.old.items }
    ensures content { content.new.items ≡ content_before (unsynced [] writes.now) content.old.items }
    ensures kept { kept.new.items ≡ [] }
    ensures shorter { vec_len content.new ≤ vec_len content.old }
    ensures capacity { vec_capacity content.old ≤ vec_capacity content.new }
    ensures kept_capacity { vec_capacity kept.old ≤ vec_capacity kept.new }
{
    let mut rest = writes;
    while let Some((write, earlier)) = rest.split_last() {
        if write.synced {
            return;
        }
        undo(content, kept, write);
        rest = earlier;
    }
}

// Takes back the newest write.
fn undo(content: &mut Vec<u8>, kept: &mut Vec<u8>, write: &Write)
    requires made { Made write.now content.old.items }
    requires enough { overwritten write.now ≤ length kept.old.items }
    requires over { drop (length kept.old.items - overwritten write.now) kept.old.items ≡ take write.now.count (drop write.now.place write.now.before.value.items) }
    ensures content { content.new.items ≡ write.now.before.value.items }
    ensures kept { kept.new.items ≡ take (length kept.old.items - overwritten write.now) kept.old.items }
    ensures capacity { vec_capacity content.old ≤ vec_capacity content.new }
    ensures kept_capacity { vec_capacity kept.old ≤ vec_capacity kept.new }
{
    let over = write.count.min(write.length - write.place);
    let from = kept.len() - over;
    let (_, old) = kept.split_at(from);
    put(content, write.place, old);
    content.truncate(write.length);
    kept.truncate(from);
}

// Puts bytes in place of others.
fn put(content: &mut [u8], place: usize, bytes: &[u8])
    requires { place + length bytes.now ≤ length content.old }
    ensures { content.new ≡ overlaid content.old place bytes.now }
{
    content[place..place + bytes.len()].copy_from_slice(bytes);
}

// Makes each byte of the writes that aren't synced 165.
fn fill(content: &mut [u8], writes: &[Write])
    requires { AllInside (map range_of (unsynced [] writes.now)) (length content.old) }
    ensures { content.new ≡ filled (map range_of (unsynced [] writes.now)) content.old }
{
    let mut rest = writes;
    while let Some((write, earlier)) = rest.split_last() {
        if write.synced {
            return;
        }
        fill_range(content, write.place, write.count);
        rest = earlier;
    }
}

// Makes each byte of a range 165.
fn fill_range(content: &mut [u8], place: usize, count: usize)
    requires { place + count ≤ length content.old }
    ensures { content.new ≡ overlaid content.old place (replicate count 165) }
{
    content[place..place + count].fill(165);
}
