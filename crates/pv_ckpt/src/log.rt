// A log in two areas as a log.
ghost use Rattle.std.specs.Prelude.{◌≡◌, ℕ, ◌+◌, ◌≤◌, List, Some, length, map, is_ok, is_some, IfOk, OnOk};
ghost use Rattle.pv_base.specs.declared.limits.TheConstants.{MAX_WRITE_END};
ghost use Rattle.pv_base.specs.Fault.{FaultCounted};
ghost use Rattle.pv_disk_model.specs.Calls.{Makes, read_all};
ghost use Rattle.pv_disk_model.specs.Size.{Contents};
ghost use Rattle.pv_disk.specs.LogAnswers.{Reads};
ghost use Rattle.pv_journal.specs.Journal.{frame_calls};
ghost use Rattle.pv_ckpt.specs.Appending.{IsReady, WritesRecord};
ghost use Rattle.pv_ckpt.specs.CkptLog.{contents_now, HasRoom, IsIntact, LogGoes};
ghost use Rattle.pv_ckpt.specs.CkptModel.{ckpt_model};
ghost use Rattle.pv_ckpt.specs.Opening.{AnswersAllOfReads};

use crate::CkptLog;
use crate::reading::read_log;
use crate::writing::write_synced;
use pv_base::Failed;
use pv_disk::{Disk, DiskError, Log, LogError, LookError};
use pv_journal::make_frame;

impl<D: Disk> Log for CkptLog<D> {
    ghost model = { ckpt_model D.model };

    fn read_all(&mut self) -> Result<Vec<Vec<u8>>, LogError>
        requires { IsIntact D.model self.old }
        ensures contents { IfOk result (λ all. (held : Contents) → contents_now D.model self.old ≡ Some held → map (λ it. it.items) all.items ≡ held) }
        ensures effect { Reads (ckpt_model D.model) self.old self.new result }
        ensures room { (content : ℕ) → HasRoom D.model self.old content → HasRoom D.model self.new content }
        ensures intact { IsIntact D.model self.new }
        ensures goes { LogGoes D.model self.old read_all (is_ok result) self.new }

        ensures reads { AnswersAllOfReads D.model self.old.disk self.new.disk result }
    {
        if self.down {
            return Err(LogError::Down);
        }
        match read_log(*self.frame.allocator(), &mut self.disk) {
            Ok(found) => Ok(found.contents),
            Err(LookError::Failed) => {
                self.down = true;
                Err(LogError::Failed)
            }
            Err(LookError::NotOurs(place)) => Err(LogError::NotOurs(place)),
            Err(LookError::NoMemory) => Err(LogError::NoMemory),
        }
    }

    fn reserve(&mut self, content: u64) -> Result<(), LogError> {
        if self.down {
            return Err(LogError::Down);
        }
        let length = self.length + (5 + content);
        if length > self.limit {
            return Err(LogError::Full(length));
        }
        self.frame.clear();
        self.frame.reserve(5 + content as usize)?;
        match self.disk.reserve(6 + content, 2) {
            Ok(()) => Ok(()),
            Err(DiskError::Failed) => {
                self.down = true;
                Err(LogError::Failed)
            }
            Err(DiskError::NoMemory) => Err(LogError::NoMemory),
        }
    }

    fn append(&mut self, content: &[u8]) -> Result<(), LogError> {
        if self.down {
            return Err(LogError::Down);
        }
        make_frame(&mut self.frame, content);
        match write_record(&mut self.disk, self.end, &self.frame) {
            Ok(()) => {
                let added = 5 + content.len() as u64;
                self.end += added;
                self.length += added;
                Ok(())
            }
            Err(_) => {
                self.down = true;
                Err(LogError::Failed)
            }
        }
    }

    fn length(&self) -> u64 {
        self.length
    }
}

// Writes a record at the closed gate of the area in force. The gate stands closed on the disk while the rest is written, and is opened by a write of its own once that
// is synced: a crash in either leaves it closed, or all of the record after it.
fn write_record<D: Disk>(disk: &mut D, end: u64, frame: &[u8]) -> Result<(), Failed>
    requires within { (bytes : List ℕ) → D.model.content disk.old ≡ Some bytes → end + 1 ≤ length bytes }
    requires short { end + 1 + length frame.now ≤ MAX_WRITE_END }
    requires room { 1 + length frame.now ≤ D.model.room disk.old }
    requires writes { 2 ≤ D.model.writes disk.old }
    ensures crash { (at : ℕ) (packed later : Contents) (content bytes : List ℕ) → IsReady D.model disk.old end frame.now at packed later content bytes
        → WritesRecord D.model disk.old disk.new at packed later content bytes result }
    ensures known { is_some (D.model.content disk.new) ≡ is_some (D.model.content disk.old) }
    ensures calls { Makes D.model.goes disk.old (frame_calls end frame.now) (is_ok result) disk.new }
    ensures fault { FaultCounted (D.model.faults disk.old) (D.model.faults disk.new) result }
    ensures uncounted { OnOk result (D.model.faults disk.new ≡ D.model.faults disk.old) }
{
    write_synced(disk, end + 1, frame)?;
    write_synced(disk, end, &[1])
}
