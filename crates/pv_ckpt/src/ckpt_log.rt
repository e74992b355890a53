// A log in two areas on a disk, and how it is opened, looked at and made.
ghost use Rattle.std.specs.Prelude.{◌≡◌, ℕ, ◌≤◌, [], List, Some, map, IfSome};
ghost use Rattle.pv_base.specs.declared.limits.TheConstants.{MAX_LENGTH};
ghost use Rattle.pv_disk_model.specs.Size.{size_of};
ghost use Rattle.pv_law_calls.specs.Reading.{LooksBy};
ghost use Rattle.pv_ckpt.specs.Opening.{AnswersOf, AnswersOfReads, Formats, Opens};

use crate::OpenCkpt;
use crate::reading::{measure_log, read_log};
use crate::roots::{LEAST, Root};
use crate::writing::write_synced;
use pv_base::{MAX_JOURNAL, MAX_LENGTH, MIN_JOURNAL};
use pv_disk::{Disk, DiskError, LookError};
use std::alloc::Global;

/// An empty log in two areas: root 0 is open, with the number 1 and an empty block at 58, root 1 is 25 bytes of 0, and the gate behind them is closed.
const EMPTY_LOG: [u8; 59] =
    *b"PVCKPT01\x01\0\0\0\0\0\0\0\x01\0\0\0\0\0\0\0\x3a\0\0\0\0\0\0\0\0\0\0\0\0\0\0\0\0\0\0\0\0\0\0\0\0\0\0\0\0\0\0\0\0\0\0";

/// A log on a disk, in two areas. One of two roots is in force; it names a block of contents, and behind the block come records, each with a gate before it, as in a
/// journal. A checkpoint writes all contents anew as the block of the other root and puts that one in force.
#[derive(Drop)]
pub struct CkptLog<D: Disk> {
    /// What it lies on.
    pub(crate) disk: D,
    /// The root in force.
    pub(crate) root: Root,
    /// Where the closed gate stands at which its area ends.
    pub(crate) end: u64,
    /// The memory of the next record, from its length to the closed gate after it.
    pub(crate) frame: Vec<u8>,
    /// Its length: what a journal with its contents would have, in bytes, 9 and for each content 5 and its own.
    pub(crate) length: u64,
    /// The greatest such length that it may come to.
    pub(crate) limit: u64,
    /// Whether a call failed since it was opened.
    pub(crate) down: bool,
}

impl<D: Disk> CkptLog<D> {
    ghost use Rattle.std.specs.Borrow.{Lends, sem};
    ghost use Rattle.pv_ckpt.specs.contracts.ckpt_log.CkptLog.{the_row};
    ghost use Rattle.pv_ckpt.specs.Lending.{with_disk};

    /// Opens the log on a disk. It may become `limit` bytes long, from 32 to 4,294,967,296; one that is longer already is opened too, and takes no more records. The call
    /// begins with a sync and then only reads: what a log begins with, and then a read or two for each content, whatever its length, and no memory for them. It answers of what
    /// its own reads gave: a log but for the bytes of the contents, or where it shows that it is none.
    ///
    /// See [`OpenCkpt`] for the refusals, which hand the disk back. A log that would be longer than [`MAX_LENGTH`] is answered with [`OpenCkpt::NoMemory`].
    pub fn open(alloc: Global, disk: D, limit: u64) -> Result<CkptLog<D>, OpenCkpt<D>>
        requires least { MIN_JOURNAL ≤ limit }
        requires most { limit ≤ MAX_JOURNAL }
        ensures { Opens D.model disk limit result }
    {
        let mut disk = disk;
        if disk.sync().is_err() {
            return Err(OpenCkpt::Failed(disk));
        }
        match measure_log(alloc, &mut disk) {
            Ok(log) => {
                if log.length > MAX_LENGTH {
                    return Err(OpenCkpt::NoMemory(disk));
                }
                Ok(CkptLog {
                    disk,
                    root: log.root,
                    end: log.end,
                    frame: Vec::new(alloc),
                    length: log.length,
                    limit,
                    down: false,
                })
            }
            Err(LookError::Failed) => Err(OpenCkpt::Failed(disk)),
            Err(LookError::NotOurs(place)) => Err(OpenCkpt::NotOurs(disk, place)),
            Err(LookError::NoMemory) => Err(OpenCkpt::NoMemory(disk)),
        }
    }

    /// The disk that the log lies on, lent, so that a world can arm it and mend it, and a test count its calls. Whoever writes to it breaks the log: the calls of `Log` and a
    /// checkpoint that come after need its content as it was.
    pub fn disk(&mut self) -> &mut D
        ensures* lends { sem 𝓛 (Lends (the_row D.row) D.row self.entry result (with_disk self.old)) }
        ensures value { result.now ≡ self.old.disk }
    {
        &mut self.disk
    }

    /// The disk.
    pub fn close(self) -> D
        ensures { result ≡ self.disk }
    {
        self.disk
    }
}

/// Makes an empty log on an empty disk: 59 bytes, synced.
///
/// At each moment of the call a crash leaves what it might have left before, with any bytes at the first 59 places, or at fewer.
///
/// - [`DiskError::Failed`]: the disk failed, and what it holds is as a crash in the write may leave it.
/// - [`DiskError::NoMemory`]: there was no memory, and the disk is empty still.
pub fn format<D: Disk>(disk: &mut D) -> Result<(), DiskError>
    requires { (held : List ℕ) → D.model.content disk.old ≡ Some held → held ≡ [] }
    ensures { Formats D.model disk.old disk.new result }
{
    disk.reserve(LEAST, 1)?;
    write_synced(disk, 0, &EMPTY_LOG)?;
    Ok(())
}

/// The contents of the log in two areas on a disk, the oldest first. It only reads, in time linear in the log's bytes.
///
/// It answers of the bytes that its own reads gave, and so of the disk's content where that is known: the contents exactly where they are a log with these, and the refusal
/// exactly where it shows at that place that they are none.
///
/// - [`LookError::Failed`]: the disk failed, and counted the fault.
/// - [`LookError::NotOurs`]: the disk holds no log in two areas, which shows at that place; it is the one of [`OpenCkpt::NotOurs`].
/// - [`LookError::NoMemory`]: there was no memory.
pub fn look<D: Disk>(alloc: Global, disk: &mut D) -> Result<Vec<Vec<u8>>, LookError>
    ensures answer { (bytes : List ℕ) → D.model.content disk.old ≡ Some bytes → AnswersOf bytes result }
    ensures reads { AnswersOfReads D.model disk.old disk.new result }
    ensures effect { LooksBy D.model disk.old disk.new result }
{
    match read_log(alloc, disk) {
        Ok(found) => Ok(found.contents),
        Err(e) => Err(e),
    }
}
