// A journal on a disk, and how it is opened, looked at and made.
ghost use Rattle.std.specs.Prelude.{◌≡◌, ◌⊎◌, ℕ, ◌+◌, ◌<◌, ◌≤◌, ◌^◌, [], List, Some, map, length, IfOk, IfErr, OnOk, IsErrOf};
ghost use Rattle.pv_base.specs.Answer.{Answers};
ghost use Rattle.pv_disk_model.specs.Size.{Contents};
ghost use Rattle.pv_format.specs.Journal.{IsJournal, IsNotOurs};
ghost use Rattle.pv_law_calls.specs.Reading.{LooksBy};
ghost use Rattle.pv_journal.specs.Opening.{contents_in, place_in, AnswersOfReads, Opens, Formats};

use crate::OpenLog;
use crate::reading::{EMPTY_JOURNAL, find_end, read_contents};
use pv_base::{Failed, MAX_JOURNAL, MIN_JOURNAL};
use pv_disk::{Disk, DiskError, LookError};
use std::alloc::Global;

/// A log on a disk: records, each with a gate before it. The gate of a new record is closed on the disk before anything is
/// written after it, and opened by a write of its own after a sync, so that a crash leaves the record whole or not at all.
#[derive(Drop)]
pub struct Journal<D: Disk> {
    /// What it lies on.
    pub(crate) disk: D,
    /// The memory of the next record, from its length to the closed gate after it.
    pub(crate) frame: Vec<u8>,
    /// Its length in bytes, up to and with the closed gate.
    pub(crate) length: u64,
    /// How long the journal may become, in bytes.
    pub(crate) limit: u64,
    /// Whether a call failed since it was opened.
    pub(crate) down: bool,
}

impl<D: Disk> Journal<D> {
    ghost use Rattle.std.specs.Borrow.{Lends, sem};
    ghost use Rattle.pv_journal.specs.contracts.journal.Journal.{the_row};
    ghost use Rattle.pv_journal.specs.Lending.{with_disk};

    /// Opens the journal on a disk. It may become `limit` bytes long, from 32 to 4,294,967,296; one that is longer already is opened too,
    /// and takes no more records. The call begins with a sync and then only reads, two reads for each record, whatever its length.
    /// It answers of what its own reads gave: a journal but for the bytes of the contents, or where it shows that it is none.
    ///
    /// See [`OpenLog`] for the refusals, which hand the disk back.
    pub fn open(alloc: Global, disk: D, limit: u64) -> Result<Journal<D>, OpenLog<D>>
        requires least { MIN_JOURNAL ≤ limit }
        requires most { limit ≤ MAX_JOURNAL }
        ensures { Opens D.model disk limit result }
    {
        let mut disk = disk;
        if disk.sync().is_err() {
            return Err(OpenLog::Failed(disk));
        }
        match find_end(alloc, &mut disk) {
            Ok(end) => Ok(Journal {
                disk,
                frame: Vec::new(alloc),
                length: end + 1,
                limit,
                down: false,
            }),
            Err(LookError::Failed) => Err(OpenLog::Failed(disk)),
            Err(LookError::NotOurs(place)) => Err(OpenLog::NotOurs(disk, place)),
            Err(LookError::NoMemory) => Err(OpenLog::NoMemory(disk)),
        }
    }

    /// The disk that the journal lies on, lent, so that a test can arm it or count its calls. Whoever writes to it breaks the journal: the
    /// calls of `Log` that come after need its content as it was.
    pub fn disk(&mut self) -> &mut D
        ensures* lends { sem 𝓛 (Lends (the_row D.row) D.row self.entry result (with_disk self.old)) }
        ensures value { result.now ≡ self.old.disk }
    {
        &mut self.disk
    }

    /// The disk.
    pub fn close(self) -> D
        ensures { result ≡ self.disk }
    {
        self.disk
    }
}

/// Makes an empty journal on an empty disk: the header and a closed gate, synced.
///
/// At each moment of the call a crash leaves what it might have left before, with any bytes at the first nine places, or at fewer.
///
/// - [`DiskError::Failed`]: the disk failed, and what it holds is as a crash in the write may leave it.
/// - [`DiskError::NoMemory`]: there was no memory, and the disk is empty still.
pub fn format<D: Disk>(disk: &mut D) -> Result<(), DiskError>
    requires { (held : List ℕ) → D.model.content disk.old ≡ Some held → held ≡ [] }
    ensures { Formats D.model disk.old disk.new result }
{
    disk.reserve(9, 1)?;
    disk.write_at(0, &EMPTY_JOURNAL)?;
    disk.sync()?;
    Ok(())
}

/// The contents of the journal on a disk, the oldest first. It only reads, in time linear in the journal's bytes.
///
/// It answers of the bytes that its own reads gave, one after another, and so of the disk's content where that is known: the contents exactly where they are a
/// journal with these, and the refusal exactly where it shows at that place that they are none.
///
/// - [`LookError::Failed`]: the disk failed, and counted the fault.
/// - [`LookError::NotOurs`]: the disk holds no journal, which shows at that place; it is the one of [`OpenLog::NotOurs`].
/// - [`LookError::NoMemory`]: there was no memory.
pub fn look<D: Disk>(alloc: Global, disk: &mut D) -> Result<Vec<Vec<u8>>, LookError>
    ensures answer { (bytes : List ℕ) → D.model.content disk.old ≡ Some bytes
        → Answers (λ contents. IsJournal contents bytes) (IsNotOurs bytes) contents_in place_in result }
    ensures reads { AnswersOfReads D.model disk.old disk.new result }
    ensures effect { LooksBy D.model disk.old disk.new result }
{
    read_contents(alloc, disk)
}
