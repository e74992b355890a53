// A journal as a log.
ghost use Rattle.std.specs.Prelude.{◌≡◌, ℕ, ◌+◌, ◌≤◌, ◌^◌, ◌<◌, ◌++◌, ◌∷◌, [], List, Some, length, map, is_ok, is_some, vec_len, vec_capacity, IfOk, OnOk};
ghost use Rattle.pv_base.specs.declared.limits.TheConstants.{MAX_WRITE_END};
ghost use Rattle.pv_base.specs.Fault.{FaultCounted};
ghost use Rattle.pv_base.specs.BigEndian.{big_endian};
ghost use Rattle.pv_disk_model.specs.Calls.{Makes, read_all};
ghost use Rattle.pv_disk_model.specs.Size.{Contents};
ghost use Rattle.pv_format.specs.Journal.{framed};
ghost use Rattle.pv_disk.specs.LogAnswers.{Reads};
ghost use Rattle.pv_journal.specs.Journal.{contents_now, frame_calls, HasRoom, IsIntact, JournalGoes};
ghost use Rattle.pv_journal.specs.Appending.{IsReady, WritesRecord};
ghost use Rattle.pv_journal.specs.JournalModel.{journal_model};
ghost use Rattle.pv_journal.specs.Opening.{AnswersAllOfReads};

use crate::Journal;
use crate::reading::read_contents;
use byteorder::{BigEndian, ByteOrder};
use pv_base::Failed;
use pv_disk::{Disk, DiskError, Log, LogError, LookError};

impl<D: Disk> Log for Journal<D> {
    ghost model = { journal_model D.model };

    fn read_all(&mut self) -> Result<Vec<Vec<u8>>, LogError>
        requires { IsIntact D.model self.old }
        ensures contents { IfOk result (λ all. (held : Contents) → contents_now D.model self.old ≡ Some held → map (λ it. it.items) all.items ≡ held) }
        ensures effect { Reads (journal_model D.model) self.old self.new result }
        ensures room { (content : ℕ) → HasRoom D.model self.old content → HasRoom D.model self.new content }
        ensures intact { IsIntact D.model self.new }
        ensures goes { JournalGoes D.model self.old read_all (is_ok result) self.new }

        ensures reads { AnswersAllOfReads D.model self.old.disk self.new.disk result }
    {
        if self.down {
            return Err(LogError::Down);
        }
        match read_contents(*self.frame.allocator(), &mut self.disk) {
            Ok(all) => Ok(all),
            Err(LookError::Failed) => {
                self.down = true;
                Err(LogError::Failed)
            }
            Err(LookError::NotOurs(place)) => Err(LogError::NotOurs(place)),
            Err(LookError::NoMemory) => Err(LogError::NoMemory),
        }
    }

    fn reserve(&mut self, content: u64) -> Result<(), LogError> {
        if self.down {
            return Err(LogError::Down);
        }
        let length = self.length + (5 + content);
        if length > self.limit {
            return Err(LogError::Full(length));
        }
        self.frame.clear();
        self.frame.reserve(5 + content as usize)?;
        match self.disk.reserve(6 + content, 2) {
            Ok(()) => Ok(()),
            Err(DiskError::Failed) => {
                self.down = true;
                Err(LogError::Failed)
            }
            Err(DiskError::NoMemory) => Err(LogError::NoMemory),
        }
    }

    fn append(&mut self, content: &[u8]) -> Result<(), LogError> {
        if self.down {
            return Err(LogError::Down);
        }
        make_frame(&mut self.frame, content);
        match write_record(&mut self.disk, self.length - 1, &self.frame) {
            Ok(()) => {
                self.length += 5 + content.len() as u64;
                Ok(())
            }
            Err(_) => {
                self.down = true;
                Err(LogError::Failed)
            }
        }
    }

    fn length(&self) -> u64 {
        self.length
    }
}

// Writes a record at the closed gate. The gate stands closed on the disk while the rest is written, and is opened by a write
// of its own once that is synced: a crash in either leaves it closed, or all of the record after it.
fn write_record<D: Disk>(disk: &mut D, end: u64, frame: &[u8]) -> Result<(), Failed>
    requires within { (bytes : List ℕ) → D.model.content disk.old ≡ Some bytes → end + 1 ≤ length bytes }
    requires short { end + 1 + length frame.now ≤ MAX_WRITE_END }
    requires room { 1 + length frame.now ≤ D.model.room disk.old }
    requires writes { 2 ≤ D.model.writes disk.old }
    ensures crash { (contents : Contents) (content bytes : List ℕ) → IsReady D.model disk.old end frame.now contents content bytes
        → WritesRecord D.model disk.old disk.new contents content result }
    ensures known { is_some (D.model.content disk.new) ≡ is_some (D.model.content disk.old) }
    ensures calls { Makes D.model.goes disk.old (frame_calls end frame.now) (is_ok result) disk.new }
    ensures fault { FaultCounted (D.model.faults disk.old) (D.model.faults disk.new) result }
    ensures uncounted { OnOk result (D.model.faults disk.new ≡ D.model.faults disk.old) }
{
    disk.write_at(end + 1, frame)?;
    disk.sync()?;
    disk.write_at(end, &[1])?;
    disk.sync()
}

/// Makes of the frame the content with its length before it and a closed gate after it.
pub fn make_frame(frame: &mut Vec<u8>, content: &[u8])
    requires short { length content.now < 2 ^ 32 }
    requires room { 5 + length content.now ≤ vec_capacity frame.old }
    ensures { frame.new.items ≡ framed content.now ++ 0 ∷ [] }
{
    frame.clear();
    frame
        .extend_from_slice(&number_bytes(content.len() as u32))
        .unwrap();
    frame.extend_from_slice(content).unwrap();
    frame.push_reserved(0);
}

// A number in four bytes, the most significant first.
#[tactic(auto, using(crate::proofs::LogLemmas::written_four))]
fn number_bytes(number: u32) -> [u8; 4]
    ensures { result ≡ big_endian 4 number }
{
    let mut bytes = [0; 4];
    BigEndian::write_u32(&mut bytes, number);
    bytes
}
