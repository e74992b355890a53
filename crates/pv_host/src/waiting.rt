// Records that wait to be written.
ghost use Rattle.std.specs.Prelude.{◌≡◌, ◌≢◌, ◌≤◌, ◌<◌, ◌+◌, ◌-◌, ◌^◌, ◌++◌, ◌∷◌, [], true, false, List, ℕ, length, drop, set, vec_len, vec_capacity, OnOk};
ghost use Rattle.pv_base.specs.BigEndian.{big_endian};
ghost use Rattle.pv_disk_model.specs.Size.{Contents};
ghost use Rattle.pv_format.specs.Journal.{framed};
ghost use Rattle.pv_host.specs.HostLog.{behind_gate_of, group_of, left_of};
ghost use Rattle.pv_host.specs.GroupSize.{IsSizeOf};
ghost use Rattle.pv_host.specs.Waiting.{AreRecords, first_length};

use byteorder::{BigEndian, ByteOrder};
use pv_journal::number_in;
use std::alloc::{AllocError, Global};
use std::marker::Model;

// An open gate, and a closed one.
const OPEN: u8 = 1;

const CLOSED: u8 = 0;

/// Records that wait to be written, as they come behind a gate: first the group that the host was asked to write, and then the others. Each has its length before it
/// and a gate after it, which is closed after the last of the group and after the last of the others, and open else.
#[derive(Drop)]
pub(crate) struct Waiting {
    /// The bytes.
    bytes: Vec<u8>,
    /// How many of them are the group.
    frozen: usize,
}

impl Model for Waiting {
    ghost use Rattle.pv_host.specs.Waiting.{WaitingState};
    ghost use Rattle.pv_host.specs.WaitingView.{waiting_of, IsWaiting};

    ghost Value = { WaitingState };

    ghost view = { waiting_of };

    ghost invariant = { IsWaiting };
}

impl Waiting {
    /// None.
    pub(crate) fn new(alloc: Global) -> Waiting
        ensures asked { result.asked ≡ [] }
        ensures pending { result.pending ≡ [] }
    {
        Waiting {
            bytes: Vec::new(alloc),
            frozen: 0,
        }
    }

    /// The group.
    pub(crate) fn group(&self) -> &[u8]
        ensures { result.now ≡ behind_gate_of self.now.asked }
    {
        let (group, _) = self.bytes.split_at(self.frozen);
        group
    }

    /// Whether there is a group.
    pub(crate) fn has_group(&self) -> bool
        ensures some { result ≡ true → self.now.asked ≢ [] }
        ensures none { result ≡ false → self.now.asked ≡ [] }
    {
        self.frozen > 0
    }

    /// How long the first record is that isn't in the group, if there is one.
    pub(crate) fn next_length(&self) -> Option<usize>
        ensures { result ≡ first_length self.now.pending }
    {
        let (_, others) = self.bytes.split_at(self.frozen);
        if others.is_empty() {
            return None;
        }
        Some(record_length(others))
    }

    /// Where there is no group, the first records become one: as many as have so much room, and one at least. Gives how many the group has.
    pub(crate) fn ask(&mut self, room: usize) -> u64
        requires { self.old.asked ≡ [] }
        ensures asks { self.new ≡ record self.old { asked = group_of room self.old.pending; pending = left_of room self.old.pending } }
        ensures count { result ≡ length self.new.asked }
    {
        if self.bytes.is_empty() {
            return 0;
        }
        let size = group_size(&self.bytes, room);
        close_gate(&mut self.bytes, size.bytes - 1);
        self.frozen = size.bytes;
        size.count
    }

    /// The group waits no longer.
    pub(crate) fn drop_group(&mut self)
        ensures { self.new ≡ record self.old { asked = []; room = self.new.room } }
    {
        drop_front(&mut self.bytes, self.frozen);
        self.frozen = 0;
    }

    /// Makes room for the record of a content of so many bytes.
    pub(crate) fn reserve(&mut self, content: usize) -> Result<(), AllocError>
        requires { content < 2 ^ 40 }
        ensures same { self.new ≡ record self.old { room = self.new.room } }
        ensures room { OnOk result (5 + content ≤ self.new.room) }
        ensures no_less { self.old.room ≤ self.new.room }
    {
        self.bytes.reserve(5 + content)
    }

    /// Adds a record, for which there is room.
    pub(crate) fn push(&mut self, content: &[u8])
        requires short { length content.now < 2 ^ 32 }
        requires room { 5 + length content.now ≤ self.old.room }
        ensures { self.new ≡ record self.old { pending = self.old.pending ++ content.now ∷ []; room = self.new.room } }
    {
        open_last(&mut self.bytes, self.frozen);
        put_record(&mut self.bytes, content);
    }
}

// How large a group is.
#[derive(Clone, Copy)]
pub(crate) struct GroupSize {
    // How many bytes its records take.
    bytes: usize,
    // How many records they are.
    count: u64,
}

// How large the group is of the first of these records that have so much room, and one at least.
fn group_size(records: &[u8], room: usize) -> GroupSize
    requires are { (contents : Contents) × AreRecords contents records.now }
    requires some { 0 < length records.now }
    ensures { (contents : Contents) → AreRecords contents records.now → IsSizeOf (group_of room contents) result }
{
    let mut bytes = record_length(records);
    let mut count = 1;
    while bytes < records.len() {
        let (_, rest) = records.split_at(bytes);
        let more = bytes + record_length(rest);
        if room < more {
            return GroupSize { bytes, count };
        }
        bytes = more;
        count += 1;
    }
    GroupSize { bytes, count }
}

// How long the record is that comes first, with the gate after it.
fn record_length(records: &[u8]) -> usize
    requires { 4 ≤ length records.now }
    ensures length { (content more : List ℕ) → records.now ≡ framed content ++ more → length content < 2 ^ 32 → result ≡ 5 + length content }
    ensures least { 5 ≤ result }
    ensures bounded { result < 2 ^ 33 }
{
    let (number, _) = records.split_at(4);
    5 + number_in(number) as usize
}

// Closes the gate at this place.
fn close_gate(bytes: &mut Vec<u8>, place: usize)
    requires { place < length bytes.old.items }
    ensures items { bytes.new.items ≡ set bytes.old.items place 0 }
    ensures length { vec_len bytes.new ≡ vec_len bytes.old }
    ensures capacity { vec_capacity bytes.new ≡ vec_capacity bytes.old }
{
    bytes[place] = CLOSED;
}

// Opens the last gate, if there is one beyond so many bytes.
fn open_last(bytes: &mut Vec<u8>, frozen: usize)
    ensures opened { frozen < length bytes.old.items → bytes.new.items ≡ set bytes.old.items (length bytes.old.items - 1) 1 }
    ensures none { length bytes.old.items ≤ frozen → bytes.new.items ≡ bytes.old.items }
    ensures length { vec_len bytes.new ≡ vec_len bytes.old }
    ensures capacity { vec_capacity bytes.new ≡ vec_capacity bytes.old }
{
    if bytes.len() <= frozen {
        return;
    }
    let last = bytes.len() - 1;
    bytes[last] = OPEN;
}

// Adds the record of a content, with a closed gate after it.
fn put_record(records: &mut Vec<u8>, content: &[u8])
    requires short { length content.now < 2 ^ 32 }
    requires room { vec_len records.old + (5 + length content.now) ≤ vec_capacity records.old }
    ensures items { records.new.items ≡ records.old.items ++ (framed content.now ++ 0 ∷ []) }
{
    records
        .extend_from_slice(&number_bytes(content.len() as u32))
        .unwrap();
    records.extend_from_slice(content).unwrap();
    records.push_reserved(CLOSED);
}

// Takes the first bytes away, so many.
fn drop_front(bytes: &mut Vec<u8>, count: usize)
    requires { count ≤ length bytes.old.items }
    ensures { bytes.new.items ≡ drop count bytes.old.items }
{
    bytes.rotate_left(count);
    let left = bytes.len() - count;
    bytes.truncate(left);
}

// A number in four bytes, the most significant first.
#[tactic(auto, using(crate::proofs::HostLemmas::written_four))]
fn number_bytes(number: u32) -> [u8; 4]
    ensures { result ≡ big_endian 4 number }
{
    let mut bytes = [0; 4];
    BigEndian::write_u32(&mut bytes, number);
    bytes
}
