// Numbers written one after another.
ghost use Rattle.std.specs.Prelude.{◌≡◌, ◌≤◌, ◌<◌, ◌+◌, ◌++◌, [], length, IfOk, OnOk, OnErr};
ghost use Rattle.pv_base.specs.BigEndian.{big_endian, twos_complement};

use byteorder::{BigEndian, ByteOrder};
use pv_base::NoMemory;
use std::alloc::Global;
use std::marker::Model;

/// The bytes written so far. A number is written with its most significant byte first. A call that finds no memory leaves them
/// and their room as they were, and comes only where the room that was made is used up.
#[derive(Debug, Drop)]
pub struct Put {
    bytes: Vec<u8>,
}

impl Model for Put {
    ghost use Rattle.std.specs.Prelude.{◌-◌, vec_len, vec_capacity};
    ghost use Rattle.pv_bytes.specs.Writing.{Written};

    ghost Value = { Written };

    ghost view = { λ put. record { bytes = put.bytes.items; room = vec_capacity put.bytes - vec_len put.bytes } };
}

impl Put {
    /// Nothing written yet.
    pub fn new(alloc: Global) -> Put
        ensures { result.bytes ≡ [] }
    {
        Put {
            bytes: Vec::new(alloc),
        }
    }

    /// Nothing written yet, and room for so many bytes, which are then written without asking for more.
    pub fn with_room(alloc: Global, room: usize) -> Result<Put, NoMemory>
        ensures empty { IfOk result (λ put. put.bytes ≡ []) }
        ensures room { IfOk result (λ put. room ≤ put.room) }
    {
        Ok(Put {
            bytes: Vec::with_capacity(alloc, room)?,
        })
    }

    /// Nothing written yet, in the memory of these bytes, which are dropped.
    pub fn again(mut memory: Vec<u8>) -> Put
        ensures { result.bytes ≡ [] }
    {
        memory.clear();
        Put { bytes: memory }
    }

    /// Writes a number in one byte.
    #[tactic(auto, using(crate::proofs::KitNumbers::written_byte))]
    pub fn u8(&mut self, n: u8) -> Result<(), NoMemory>
        ensures written { OnOk result (self.new.bytes ≡ self.old.bytes ++ big_endian 1 n) }
        ensures unchanged { OnErr result (self.new.bytes ≡ self.old.bytes) }
        ensures room { self.old.room ≤ self.new.room + 1 }
        ensures kept { OnErr result (self.old.room ≤ self.new.room) }
        ensures no_room { OnErr result (self.old.room < 1) }
    {
        self.bytes(&[n])
    }

    /// Writes a number in two bytes.
    #[tactic(auto, using(crate::proofs::KitNumbers::written_two))]
    pub fn u16(&mut self, n: u16) -> Result<(), NoMemory>
        ensures written { OnOk result (self.new.bytes ≡ self.old.bytes ++ big_endian 2 n) }
        ensures unchanged { OnErr result (self.new.bytes ≡ self.old.bytes) }
        ensures room { self.old.room ≤ self.new.room + 2 }
        ensures kept { OnErr result (self.old.room ≤ self.new.room) }
        ensures no_room { OnErr result (self.old.room < 2) }
    {
        let mut bytes = [0; 2];
        BigEndian::write_u16(&mut bytes, n);
        self.bytes(&bytes)
    }

    /// Writes a number in four bytes.
    #[tactic(auto, using(crate::proofs::KitNumbers::written_four))]
    pub fn u32(&mut self, n: u32) -> Result<(), NoMemory>
        ensures written { OnOk result (self.new.bytes ≡ self.old.bytes ++ big_endian 4 n) }
        ensures unchanged { OnErr result (self.new.bytes ≡ self.old.bytes) }
        ensures room { self.old.room ≤ self.new.room + 4 }
        ensures kept { OnErr result (self.old.room ≤ self.new.room) }
        ensures no_room { OnErr result (self.old.room < 4) }
    {
        let mut bytes = [0; 4];
        BigEndian::write_u32(&mut bytes, n);
        self.bytes(&bytes)
    }

    /// Writes a number in eight bytes.
    #[tactic(auto, using(crate::proofs::KitNumbers::written_eight))]
    pub fn u64(&mut self, n: u64) -> Result<(), NoMemory>
        ensures written { OnOk result (self.new.bytes ≡ self.old.bytes ++ big_endian 8 n) }
        ensures unchanged { OnErr result (self.new.bytes ≡ self.old.bytes) }
        ensures room { self.old.room ≤ self.new.room + 8 }
        ensures kept { OnErr result (self.old.room ≤ self.new.room) }
        ensures no_room { OnErr result (self.old.room < 8) }
    {
        let mut bytes = [0; 8];
        BigEndian::write_u64(&mut bytes, n);
        self.bytes(&bytes)
    }

    /// Writes a signed number in eight bytes, in two's complement.
    #[tactic(auto, using(crate::proofs::KitNumbers::written_signed))]
    pub fn i64(&mut self, n: i64) -> Result<(), NoMemory>
        ensures written { OnOk result (self.new.bytes ≡ self.old.bytes ++ big_endian 8 (twos_complement n)) }
        ensures unchanged { OnErr result (self.new.bytes ≡ self.old.bytes) }
        ensures room { self.old.room ≤ self.new.room + 8 }
        ensures kept { OnErr result (self.old.room ≤ self.new.room) }
        ensures no_room { OnErr result (self.old.room < 8) }
    {
        let mut bytes = [0; 8];
        BigEndian::write_i64(&mut bytes, n);
        self.bytes(&bytes)
    }

    /// Writes these bytes.
    pub fn bytes(&mut self, b: &[u8]) -> Result<(), NoMemory>
        ensures written { OnOk result (self.new.bytes ≡ self.old.bytes ++ b.now) }
        ensures unchanged { OnErr result (self.new.bytes ≡ self.old.bytes) }
        ensures room { self.old.room ≤ self.new.room + length b.now }
        ensures kept { OnErr result (self.old.room ≤ self.new.room) }
        ensures no_room { OnErr result (self.old.room < length b.now) }
    {
        self.bytes.extend_from_slice(b)?;
        Ok(())
    }

    /// The bytes written.
    pub fn done(self) -> Vec<u8>
        ensures { result.items ≡ self.bytes }
    {
        self.bytes
    }
}
